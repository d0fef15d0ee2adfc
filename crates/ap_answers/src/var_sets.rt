//! Sets of variables in the order in which they came.

ghost use Rattle.std.specs.Prelude.{◌≡◌, ◌-◌, [], ◌∷◌, true, false, Some, IfOk, IfSome, OnOk, length, position, slice_get};
ghost use Rattle.ap_defs.specs.Freshness.{var_eq};
ghost use Rattle.ap_answers.specs.Occurring.{more_vars};
ghost use Rattle.ap_answers.specs.VarSets.{vars_from, vars_of_run, vars_of_set};

use crate::occurrences::add_var;
use ap_defs::memory::Memory;
use ap_defs::terms::Var;
use indexmap::IndexSet;
use std::alloc::Global;

/// The variables from a number on that are below another.
#[derive(Clone, Copy)]
pub struct Run {
    pub first: u64,
    pub end: u64,
}

/// Variables that are all different, in order. Those whose numbers follow one another, as those of one clause or
/// query do, take no memory and no search.
#[derive(Drop)]
pub enum VarSet {
    Run(Run),
    Table(IndexSet<Var>),
}

/// The place of a variable in a run.
#[tactic(auto, using(crate::proofs::VarSetLemmas::place_below, crate::proofs::VarSetLemmas::place_there, crate::proofs::VarSetLemmas::place_past))]
fn place_in_run(run: Run, var: Var) -> Option<usize>
    ensures { result ≡ position (var_eq var) (vars_of_run run) }
{
    if var.num < run.first {
        return None;
    }
    if var.num < run.end {
        Some((var.num - run.first) as usize)
    } else {
        None
    }
}

/// The place that a variable has where those before it, down to the first one, have all numbers between.
fn near_place(vars: &[Var], var: Var) -> Option<usize>
    ensures { IfSome result (λ i. slice_get vars.now i ≡ Some var) }
{
    let first = vars.first()?;
    let near = var.num.saturating_sub(first.num) as usize;
    let there = vars.get(near)?;
    if there.num == var.num {
        Some(near)
    } else {
        None
    }
}

/// The place of a variable in a table. It is looked up, unless its number tells it.
fn place_in_table(vars: &IndexSet<Var>, var: Var) -> Option<usize>
    ensures { result ≡ position (var_eq var) vars.now.keys }
{
    match near_place(vars.as_slice(), var) {
        Some(place) => Some(place),
        None => vars.get_index_of(&var),
    }
}

/// Adds a variable to a run that goes on with it or has it, and tells whether it does.
#[tactic(auto, using(crate::proofs::VarSetLemmas::run_begins, crate::proofs::VarSetLemmas::run_goes_on, crate::proofs::VarSetLemmas::run_has))]
fn goes_on(run: &mut Run, var: Var) -> bool
    ensures added { result ≡ true →
        vars_of_run run.new ≡ more_vars (vars_of_run run.old) (var ∷ []) }
    ensures kept { result ≡ false → run.new ≡ run.old }
{
    let num = var.num;
    if run.first <= num && num < run.end {
        return true;
    }
    if num == u64::MAX {
        return false;
    }
    if run.end <= run.first {
        *run = Run {
            first: num,
            end: num + 1,
        };
        return true;
    }
    if num == run.end {
        run.end = num + 1;
        return true;
    }
    false
}

/// A table of the variables of a run.
fn table_of_run(alloc: Global, run: Run) -> Result<IndexSet<Var>, Memory>
    ensures { IfOk result (λ table. table.keys ≡ vars_of_run run) }
{
    let mut table = IndexSet::new(alloc);
    for i in 0..run.end.saturating_sub(run.first) {
        let num = run.first + i;
        add_var(&mut table, Var { num })?;
    }
    Ok(table)
}

/// A list of the variables of a run.
fn list_of_run(alloc: Global, run: Run) -> Result<Vec<Var>, Memory>
    ensures { IfOk result (λ list. list.items ≡ vars_of_run run) }
{
    let mut list = Vec::new(alloc);
    for i in 0..run.end.saturating_sub(run.first) {
        let num = run.first + i;
        list.push(Var { num })?;
    }
    Ok(list)
}

impl VarSet {
    /// No variables. It takes no memory.
    pub fn new() -> VarSet
        ensures { vars_of_set result ≡ [] }
    {
        VarSet::Run(Run { first: 0, end: 0 })
    }

    /// How many there are.
    #[tactic(auto, using(crate::proofs::VarSetLemmas::length_from))]
    pub fn len(&self) -> usize
        ensures { result ≡ length (vars_of_set self.now) }
    {
        match self {
            VarSet::Run(run) => run.end.saturating_sub(run.first) as usize,
            VarSet::Table(table) => table.len(),
        }
    }

    /// The place of a variable.
    pub fn place(&self, var: Var) -> Option<usize>
        ensures { result ≡ position (var_eq var) (vars_of_set self.now) }
    {
        match self {
            VarSet::Run(run) => place_in_run(*run, var),
            VarSet::Table(table) => place_in_table(table, var),
        }
    }

    /// The variables as a list.
    pub fn to_vec(&self, alloc: Global) -> Result<Vec<Var>, Memory>
        ensures { IfOk result (λ list. list.items ≡ vars_of_set self.now) }
    {
        match self {
            VarSet::Run(run) => list_of_run(alloc, *run),
            VarSet::Table(table) => Ok(table.as_slice().to_vec(alloc)?),
        }
    }

    /// Adds a variable, unless it is there.
    pub fn add(&mut self, alloc: Global, var: Var) -> Result<(), Memory>
        ensures { OnOk result (vars_of_set self.new
            ≡ more_vars (vars_of_set self.old) (var ∷ [])) }
    {
        match self {
            VarSet::Table(table) => add_var(table, var),
            VarSet::Run(run) => {
                if goes_on(run, var) {
                    return Ok(());
                }
                let mut table = table_of_run(alloc, *run)?;
                add_var(&mut table, var)?;
                *self = VarSet::Table(table);
                Ok(())
            }
        }
    }
}
