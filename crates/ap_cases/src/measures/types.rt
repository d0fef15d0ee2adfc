//! Equations of types whose answers double at each step.

use ap_defs::memory::Memory;
use ap_defs::terms::Shape;
use ap_types::errors::TypesError;
use ap_values::solutions::solve;
use std::alloc::Global;

const STEPS: u64 = 20;

/// A hole is the pair of the hole before it with itself.
fn doubled(alloc: Global, hole: u64, before: u64) -> Result<(Shape, Shape), Memory> {
    let left = Box::new(alloc, Shape::Hole(before))?;
    let right = Box::new(alloc, Shape::Hole(before))?;
    Ok((Shape::Hole(hole), Shape::Pair(left, right)))
}

fn equations(alloc: Global) -> Result<Vec<(Shape, Shape)>, Memory> {
    let mut all = Vec::new(alloc);
    for before in 0..STEPS {
        all.push(doubled(alloc, before + 1, before)?)?;
    }
    Ok(all)
}

/// Equations of types are solved: how many shapes their holes have.
pub fn solved(alloc: Global) -> Result<usize, Memory> {
    match solve(alloc, equations(alloc)?, &[], 0) {
        Ok(assignment) => Ok(assignment.holes.items().len()),
        Err(TypesError::Clash) => Ok(0),
        Err(TypesError::Memory) => Err(Memory),
    }
}
