//! A derivation of a million nodes in one chain: made from its path, written as a bundle, read again and verified.
use crate::derivations::proved_at;
use crate::problems::{problem_of, program_of};
use ap_bundle_read::read_cited_bundle;
use ap_bundle_write::write_bundle;
use ap_checker::verify::verify;
use ap_defs::lists::List;
use ap_defs::memory::Memory;
use ap_defs::outcomes::Verdict;
use ap_defs::paths::Path;
use ap_index::index::Index;
use ap_program::restricted::Restricted;
use ap_replay::replay::at;
use ap_shared::derivations::{SharedBundle, SharedProved};
use std::alloc::Global;

/// A predicate that goes round, or ends.
const TEXT: &str = "nat : type. z : nat. pred p(nat). p(X) :- p(X). p(z). ?- p(z).";

const DEPTH: u32 = 1_000_000;

/// The derivation has a node for each atom, and one for the body of the fact.
const ATOMS: usize = 999_999;

/// How far the derivation is taken.
#[derive(Clone, Copy)]
pub enum Stage {
    Derived,
    Written,
    Read,
    Verified,
}

/// The path on which the predicate goes round up to the last atom, and ends there.
fn long_path(alloc: Global) -> Result<Path, Memory> {
    let mut choices = Vec::new(alloc);
    for _ in 1..ATOMS {
        choices.push(1)?;
    }
    choices.push(2)?;
    Ok(Path::of(choices))
}

/// The answer at the long path of the query of a program with its index, with its derivation.
fn proved_by(alloc: Global, index: &Index<'_>) -> Result<Option<SharedProved>, Memory> {
    let path = long_path(alloc)?;
    match problem_of(index, 1, DEPTH) {
        None => Ok(None),
        Some(problem) => match at(alloc, &problem, &path) {
            Ok(branch) => proved_at(alloc, &problem, &branch),
            Err(_) => Ok(None),
        },
    }
}

/// A bundle with the answer at the long path and its derivation.
fn proved(alloc: Global, program: &Restricted) -> Result<SharedBundle, Memory> {
    let index = Index::of(alloc, program)?;
    let mut all = Vec::new(alloc);
    if let Some(proved) = proved_by(alloc, &index)? {
        all.push(proved)?;
    }
    Ok(SharedBundle {
        text: List::of(TEXT.as_bytes().to_vec(alloc)?),
        proved: List::of(all),
    })
}

/// How many derivations of a bundle check.
fn checked(alloc: Global, program: &Restricted, bundle: &SharedBundle) -> Result<usize, Memory> {
    let mut count: usize = 0;
    for it in bundle.proved.items() {
        let terms = it.terms.as_ref();
        let verdict = verify(alloc, program, it.query, terms, &it.answer, &it.derivation)?;
        if matches!(verdict, Verdict::Yes) {
            count = count.saturating_add(1);
        }
    }
    Ok(count)
}

/// How many derivations of a bundle's bytes are read again, or are read again and check.
fn read_again(
    alloc: Global,
    stage: Stage,
    program: &Restricted,
    bytes: &[u8],
) -> Result<usize, Memory> {
    let bundle = read_cited_bundle(alloc, bytes).or(Err(Memory))?;
    match stage {
        Stage::Verified => checked(alloc, program, &bundle),
        _ => Ok(bundle.proved.items().len()),
    }
}

/// How many derivations are made, or how many bytes of them are written, or how many are read again.
fn taken(
    alloc: Global,
    stage: Stage,
    program: &Restricted,
    bundle: &SharedBundle,
) -> Result<usize, Memory> {
    if let Stage::Derived = stage {
        return Ok(bundle.proved.items().len());
    }
    let bytes = write_bundle(alloc, bundle)?;
    match stage {
        Stage::Written => Ok(bytes.len()),
        _ => read_again(alloc, stage, program, &bytes),
    }
}

/// The derivation, taken so far by a program.
fn taken_by(alloc: Global, stage: Stage, program: &Restricted) -> Result<usize, Memory> {
    let bundle = proved(alloc, program)?;
    taken(alloc, stage, program, &bundle)
}

/// The derivation, taken so far: of what is made there is one, and otherwise none.
pub fn measured_derivation(alloc: Global, stage: Stage) -> Result<usize, Memory> {
    match program_of(alloc, TEXT.as_bytes())? {
        Some(program) => taken_by(alloc, stage, &program),
        None => Ok(0),
    }
}
