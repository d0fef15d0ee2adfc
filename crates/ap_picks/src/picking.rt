//! Picking of terms.

ghost use Rattle.std.specs.Prelude.{◌≡◌, ◌≤◌, IfOk, OnOk, length, map};
ghost use Rattle.ap_defs.specs.Limits.{size_limit};
ghost use Rattle.ap_defs.specs.Terms.{term_of};
ghost use Rattle.ap_defs.specs.Types.{constructor_of, type_of};
ghost use Rattle.ap_defs.specs.Typing.{embedded};
ghost use Rattle.ap_types.specs.Inhabited.{IsInhabited};
ghost use Rattle.ap_picks.specs.Choices.{AreChoices};
ghost use Rattle.ap_picks.specs.Pickers.{IsPicker};
ghost use Rattle.ap_picks.specs.Picks.{picked};
ghost use Rattle.ap_picks.specs.Wants.{IsWell, pick_for};

use crate::choices::{Choice, bound_of, choices_of};
use crate::opening::{Next, Source, Want};
use ap_defs::goals::Constructor;
use ap_defs::memory::Memory;
use ap_defs::spines::{TermLayer, close_term};
use ap_defs::terms::{Term, Ty};
use std::alloc::Global;

/// Picks a term. It calls itself on left parts of pairs alone.
#[tactic(auto, using(crate::proofs::StepLemmas::turn_leaf, crate::proofs::StepLemmas::turn_inside, crate::proofs::StepLemmas::turn_beside))]
fn pick_want<'a>(
    alloc: Global,
    source: &Source<'a>,
    want: Want<'a>,
    sorts: &mut Vec<u32>,
) -> Result<Term, Memory>
    requires chosen { AreChoices (map constructor_of source.now.constructors.now)
        source.now.choices.now }
    requires bounded { length source.now.constructors.now ≤ size_limit }
    requires well { IsWell (map constructor_of source.now.constructors.now) want }
    ensures term { IfOk result (λ t. term_of t
        ≡ embedded (pick_for (map constructor_of source.now.constructors.now) source.now.first
        want.entry sorts.old.items).0) }
    ensures sorts { OnOk result (sorts.new.items
        ≡ (pick_for (map constructor_of source.now.constructors.now) source.now.first want.entry
        sorts.old.items).1) }
{
    let mut layers = Vec::new(alloc);
    let mut rest = want;
    'picking: loop {
        match source.open(rest, sorts)? {
            Next::Leaf(leaf) => return close_term(alloc, layers, leaf),
            Next::Inside(layer, part) => {
                layers.push(layer)?;
                rest = part;
            }
            Next::Beside(left, right) => {
                let made = pick_want(alloc, source, left, sorts)?;
                layers.push(TermLayer::Left(made))?;
                rest = right;
            }
        }
    }
}

/// What terms are picked by: the declared constructors, and those that are chosen for the data types.
#[derive(Drop)]
pub struct Picker<'a> {
    pub constructors: &'a [Constructor],
    pub choices: Vec<Option<Choice>>,
    pub rounds: usize,
}

/// The picker of a program's constructors.
pub fn picker_of(alloc: Global, constructors: &[Constructor]) -> Result<Picker<'_>, Memory>
    requires { length constructors.now ≤ size_limit }
    ensures picker { IfOk result (λ p. IsPicker p) }
    ensures constructors { IfOk result (λ p. p.constructors.now ≡ constructors.now) }
{
    let choices = choices_of(alloc, constructors)?;
    Ok(Picker {
        constructors,
        choices,
        rounds: bound_of(constructors),
    })
}

impl<'a> Picker<'a> {
    /// A ground term of a type. Each name in it is new: the first one has the number `first`, if `sorts` is
    /// empty, and the next ones the next; their sorts are added to `sorts`. `Err` is want of memory, or of
    /// numbers.
    pub fn pick(
        &self,
        alloc: Global,
        first: u64,
        ty: &Ty,
        sorts: &mut Vec<u32>,
    ) -> Result<Term, Memory>
        requires picker { IsPicker self.now }
        requires inhabited { IsInhabited (map constructor_of self.now.constructors.now)
            (type_of ty.now) }
        ensures term { IfOk result (λ t. term_of t
            ≡ embedded (picked (map constructor_of self.now.constructors.now) first (type_of ty.now)
            sorts.old.items).0) }
        ensures sorts { OnOk result (sorts.new.items
            ≡ (picked (map constructor_of self.now.constructors.now) first (type_of ty.now)
            sorts.old.items).1) }
    {
        let source = Source {
            constructors: self.constructors,
            choices: &self.choices,
            first,
        };
        pick_want(alloc, &source, Want::Type(self.rounds, ty), sorts)
    }
}
