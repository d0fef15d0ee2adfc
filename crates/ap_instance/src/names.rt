//! The names of an answer.

ghost use Rattle.std.specs.Prelude.{◌≡◌, ◌++◌, IfOk, OnOk, drop, length, map, zero};
ghost use Rattle.ap_answers.specs.Occurring.{more_names};
ghost use Rattle.ap_defs.specs.Answers.{answer_of};
ghost use Rattle.ap_defs.specs.Occurrences.{names_of_terms};
ghost use Rattle.ap_defs.specs.Renaming.{local_names};
ghost use Rattle.ap_defs.specs.Terms.{term_of};
ghost use Rattle.ap_defs.specs.Types.{locals_of};
ghost use Rattle.ap_instance.specs.Settled.{IsNames, name_of_cond, settled_name, sort_of};
ghost use Rattle.ap_property.specs.Stated.{other_names};

use ap_answers::locals::free_names;
use ap_answers::occurrences::{add_name, add_names};
use ap_defs::goals::Local;
use ap_defs::memory::Memory;
use ap_defs::outcomes::Answer;
use ap_defs::terms::{Cond, Name, Term};
use indexmap::IndexSet;
use std::alloc::Global;

/// The names that are known: so many free names of a query first, and then the others, which are numbered from
/// `first` on.
#[derive(Drop)]
pub struct Names {
    pub known: IndexSet<Name>,
    pub free: usize,
    pub first: u64,
}

/// Adds the names of terms.
pub fn add_names_of_terms(
    alloc: Global,
    names: &mut IndexSet<Name>,
    terms: &[Term],
) -> Result<(), Memory>
    ensures { OnOk result (names.new.keys
        ≡ more_names names.old.keys (names_of_terms (map term_of terms.now))) }
{
    let mut rest = terms;
    'adding: while let Some((term, others)) = rest.split_first() {
        add_names(alloc, names, term)?;
        rest = others;
    }
    Ok(())
}

/// Adds the names of conditions.
fn add_names_of_conds(names: &mut IndexSet<Name>, conds: &[Cond]) -> Result<(), Memory>
    ensures { OnOk result (names.new.keys
        ≡ more_names names.old.keys (map name_of_cond conds.now)) }
{
    let mut rest = conds;
    'adding: while let Some((cond, others)) = rest.split_first() {
        add_name(names, cond.name)?;
        rest = others;
    }
    Ok(())
}

/// The names of an answer to a query with these identifiers.
pub fn names_of_answer(alloc: Global, locals: &[Local], answer: &Answer) -> Result<Names, Memory>
    ensures { IfOk result (λ n. IsNames (locals_of locals.now) (answer_of answer.now) n) }
{
    let mut known = free_names(alloc, locals)?;
    let free = known.len();
    add_names_of_terms(alloc, &mut known, answer.binds.items())?;
    add_names_of_conds(&mut known, answer.conds.items())?;
    Ok(Names {
        known,
        free,
        first: locals.len() as u64,
    })
}

impl Names {
    /// The name, numbered on if it is one of the others. Numbers past the greatest are refused as want of memory
    /// is.
    #[tactic(auto, unfolding(ap_defs::specs::Permutations::name_eq))]
    pub(crate) fn settled(&self, name: Name) -> Result<Name, Memory>
        ensures { IfOk result (λ a. a
            ≡ settled_name self.now.free self.now.first self.now.known.keys name) }
    {
        let Some(place) = self.known.get_index_of(&name) else {
            return Ok(name);
        };
        if place < self.free {
            return Ok(name);
        }
        let Some(num) = self.first.checked_add((place - self.free) as u64) else {
            return Err(Memory);
        };
        Ok(Name {
            sort: name.sort,
            num,
        })
    }

    /// The sorts of the others, in order.
    pub(crate) fn sorts(&self, alloc: Global) -> Result<Vec<u32>, Memory>
        ensures { IfOk result (λ v. v.items
            ≡ map sort_of (drop self.now.free self.now.known.keys)) }
    {
        let mut sorts = Vec::new(alloc);
        for place in self.free..self.known.len() {
            if let Some(name) = self.known.get_index(place) {
                sorts.push(name.sort)?;
            }
        }
        Ok(sorts)
    }
}
