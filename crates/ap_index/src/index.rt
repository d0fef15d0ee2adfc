//! The index of a program.

ghost use Rattle.std.specs.Prelude.{◌≡◌, IfOk, OnErr, OnOk};
ghost use Rattle.ap_defs.specs.Goals.{clauses_of, program_in, program_of};
ghost use Rattle.ap_defs.specs.HeadKeys.{kept_from};
ghost use Rattle.ap_index.specs.Keys.{AreNarrowLists};
ghost use Rattle.ap_program.specs.NameRestriction.{IsRestricted};

use crate::predicate::{Predicate, predicate_at};
use ap_defs::goals::{Clause, Program};
use ap_defs::lists::List;
use ap_defs::memory::Memory;
use ap_defs::terms::Term;
use ap_program::restricted::Restricted;
use std::alloc::Global;
use std::marker::Model;

/// A restricted program with the keys of its clauses. Contracts see the program.
pub struct Index<'a> {
    program: &'a Restricted,
    predicates: Vec<Predicate<'a>>,
}

// Written out, so that it is not written out at each exit of what owns an index.
impl Drop for Index<'_> {
    fn drop(self) {
        let Index {
            program: _,
            predicates: _predicates,
        } = self;
    }
}

impl<'a> Model for Index<'a> {
    ghost use Rattle.ap_defs.specs.declared.goals.Program.{Program};
    ghost use Rattle.ap_defs.specs.declared.terms.Term.{Term};

    ghost Value = { Program Term };

    ghost use Rattle.ap_defs.specs.contracts.goals.Program as p;
    ghost use Rattle.ap_defs.specs.contracts.terms.Term as t;

    ghost coded = { (p.the_row t.the_row).coded };

    ghost use Rattle.std.specs.Prelude.{◌≡◌};
    ghost use Rattle.ap_defs.specs.Goals.{program_of};
    ghost use Rattle.ap_program.specs.NameRestriction.{IsRestricted};

    ghost view = { λ a. a.program.now };

    ghost invariant = { λ a. (a.predicates.items ≡ a.program.now.clauses)
        × IsRestricted (program_of a.program.now) };
}

/// The clauses of each predicate, with the key of each.
fn predicates_of<'a>(
    alloc: Global,
    clauses: &'a [List<Clause<Term>>],
) -> Result<Vec<Predicate<'a>>, Memory>
    requires { AreNarrowLists (program_in clauses.now) }
    ensures { IfOk result (λ v. v.items ≡ clauses.now) }
{
    let mut predicates = Vec::with_capacity(alloc, clauses.len())?;
    let mut rest = clauses;
    'reading: while let Some((list, others)) = rest.split_first() {
        let predicate = Predicate::of(alloc, list.items())?;
        predicates.push(predicate)?;
        rest = others;
    }
    Ok(predicates)
}

impl<'a> Index<'a> {
    /// The index of a program.
    pub fn of(alloc: Global, program: &'a Restricted) -> Result<Index<'a>, Memory>
        ensures { IfOk result (λ i. i ≡ program.now) }
    {
        let predicates = predicates_of(alloc, program.program().clauses.items())?;
        Ok(Index {
            program,
            predicates,
        })
    }

    /// The restricted program.
    pub fn restricted(&self) -> &'a Restricted
        ensures { result.now ≡ self.now }
    {
        self.program
    }

    /// The program itself, and that it is restricted.
    pub fn program(&self) -> &'a Program<Term>
        ensures same { result.now ≡ self.now }
        ensures restricted { IsRestricted (program_of self.now) }
    {
        self.program.program()
    }

    /// The clauses of each predicate, and that the program is restricted.
    pub fn predicates(&self) -> &[Predicate<'a>]
        ensures clauses { result.now ≡ self.now.clauses }
        ensures restricted { IsRestricted (program_of self.now) }
    {
        self.predicates.as_slice()
    }

    /// The numbers from 1 of the clauses of a predicate that an atom with this key may enter, in place of
    /// what `out` holds; on want of memory that is as before.
    pub fn kids(&self, alloc: Global, pred: u32, key: u64, out: &mut Vec<u32>) -> Result<(), Memory>
        ensures kept { OnOk result (out.new.items
            ≡ kept_from key 1 (clauses_of (program_of self.now).clauses pred)) }
        ensures same { OnErr result (out.new ≡ out.old) }
    {
        match predicate_at(self.predicates.as_slice(), pred) {
            Some(predicate) => predicate.kids(alloc, key, out),
            None => {
                out.clear();
                Ok(())
            }
        }
    }
}
