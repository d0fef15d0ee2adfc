//! What a term is picked for, part by part.

ghost use Rattle.std.specs.Prelude.{◌≡◌, ◌≤◌, ◌+◌, ℕ, List as list, true, ◌∷◌, [], ◌++◌, IfOk, OnOk, length, map};
ghost use denote.Ref.{Bor};
ghost use Rattle.ap_defs.specs.Types as types;
ghost use Rattle.ap_defs.specs.Types.{constructor_of, type_of};
ghost use Rattle.ap_types.specs.Inhabited.{all_inhabited};
ghost use Rattle.ap_types.specs.Rounds.{reached};
ghost use Rattle.ap_defs.specs.Limits.{size_limit};
ghost use Rattle.ap_defs.specs.declared.terms.Ty.{Ty};
ghost use Rattle.ap_picks.specs.Choices.{AreChoices};
ghost use Rattle.ap_picks.specs.Picks as picks;
ghost use Rattle.ap_picks.specs.Wants.{IsNext, IsWell};
ghost use Rattle.ap_picks.specs.declared.opening.Want.TheVariants as wants;

use crate::choices::Choice;
use ap_defs::goals::Constructor;
use ap_defs::memory::Memory;
use ap_defs::spines::TermLayer;
use ap_defs::terms::{Name, Term, Ty};

/// What a term is picked for: a type, or the arguments of a constructor; by the data types that so many rounds
/// find.
#[derive(Clone, Copy)]
pub(crate) enum Want<'a> {
    Type(usize, &'a Ty),
    Arguments(usize, &'a [Ty]),
}

/// What is picked next: a term without parts, a part within a layer, or two parts of a pair, the left one first.
#[derive(Drop)]
pub(crate) enum Next<'a> {
    Leaf(Term),
    Inside(TermLayer, Want<'a>),
    Beside(Want<'a>, Want<'a>),
}

/// The declared constructors, those that are chosen for the data types, and the number of the first new name.
#[derive(Clone, Copy)]
pub(crate) struct Source<'a> {
    pub constructors: &'a [Constructor],
    pub choices: &'a [Option<Choice>],
    pub first: u64,
}

/// The next new name of a sort. Numbers that are past the greatest are refused as want of memory is.
fn new_name(first: u64, sort: u32, sorts: &mut Vec<u32>) -> Result<Name, Memory>
    ensures name { IfOk result (λ a. a ≡ picks.new_name first sorts.old.items sort) }
    ensures sorts { OnOk result (sorts.new.items ≡ sorts.old.items ++ sort ∷ []) }
{
    let Some(num) = first.checked_add(sorts.len() as u64) else {
        return Err(Memory);
    };
    sorts.push(sort)?;
    Ok(Name { sort, num })
}

impl<'a> Source<'a> {
    /// What is picked next for a data type, by the data types that so many rounds find.
    fn open_data(&self, rounds: usize, base: u32) -> Next<'a>
        requires chosen { AreChoices (map constructor_of self.now.constructors.now)
            self.now.choices.now }
        requires bounded { length self.now.constructors.now ≤ size_limit }
        requires well { reached all_inhabited (map constructor_of self.now.constructors.now) rounds
            base ≡ true }
        ensures { (n : ℕ) (sorts : list ℕ) (ty : Bor Ty) → type_of ty.now ≡ types.base base →
            IsNext (map constructor_of self.now.constructors.now) n sorts (wants.Type rounds ty)
            sorts result }
    {
        let place = base as usize;
        if place >= self.choices.len() {
            return Next::Leaf(Term::Unit);
        }
        let Some(choice) = self.choices[place] else {
            return Next::Leaf(Term::Unit);
        };
        let constructor = &self.constructors[choice.place];
        let number = choice.place as u32 + 2;
        let args = Want::Arguments(choice.rounds, constructor.args.items());
        Next::Inside(TermLayer::App(number), args)
    }

    /// What is picked next for a type.
    fn open_type(&self, rounds: usize, ty: &'a Ty, sorts: &mut Vec<u32>) -> Result<Next<'a>, Memory>
        requires chosen { AreChoices (map constructor_of self.now.constructors.now)
            self.now.choices.now }
        requires bounded { length self.now.constructors.now ≤ size_limit }
        requires well { IsWell (map constructor_of self.now.constructors.now)
            (wants.Type rounds ty) }
        ensures { IfOk result (λ next. IsNext (map constructor_of self.now.constructors.now)
            self.now.first sorts.old.items (wants.Type rounds ty.entry) sorts.new.items next) }
    {
        match ty {
            Ty::Unit => Ok(Next::Leaf(Term::Unit)),
            Ty::Names(sort) => Ok(Next::Leaf(Term::Name(new_name(self.first, *sort, sorts)?))),
            Ty::Base(base) => Ok(self.open_data(rounds, *base)),
            Ty::Pair(left, right) => Ok(Next::Beside(
                Want::Type(rounds, left),
                Want::Type(rounds, right),
            )),
            Ty::List(_) => Ok(Next::Inside(TermLayer::App(0), Want::Arguments(rounds, &[]))),
            Ty::Abs(sort, body) => {
                let name = new_name(self.first, *sort, sorts)?;
                Ok(Next::Inside(TermLayer::Abs(name), Want::Type(rounds, body)))
            }
        }
    }

    /// What is picked next for the arguments of a constructor.
    fn open_arguments(
        &self,
        rounds: usize,
        args: &'a [Ty],
        sorts: &mut Vec<u32>,
    ) -> Result<Next<'a>, Memory>
        requires chosen { AreChoices (map constructor_of self.now.constructors.now)
            self.now.choices.now }
        requires bounded { length self.now.constructors.now ≤ size_limit }
        requires well { IsWell (map constructor_of self.now.constructors.now)
            (wants.Arguments rounds args) }
        ensures { IfOk result (λ next. IsNext (map constructor_of self.now.constructors.now)
            self.now.first sorts.old.items (wants.Arguments rounds args.entry) sorts.new.items
            next) }
    {
        match args {
            [] => Ok(Next::Leaf(Term::Unit)),
            [ty] => self.open_type(rounds, ty, sorts),
            [ty, others @ ..] => Ok(Next::Beside(
                Want::Type(rounds, ty),
                Want::Arguments(rounds, others),
            )),
        }
    }

    /// What is picked next.
    pub(crate) fn open(&self, want: Want<'a>, sorts: &mut Vec<u32>) -> Result<Next<'a>, Memory>
        requires chosen { AreChoices (map constructor_of self.now.constructors.now)
            self.now.choices.now }
        requires bounded { length self.now.constructors.now ≤ size_limit }
        requires well { IsWell (map constructor_of self.now.constructors.now) want }
        ensures { IfOk result (λ next. IsNext (map constructor_of self.now.constructors.now)
            self.now.first sorts.old.items want.entry sorts.new.items next) }
    {
        match want {
            Want::Type(rounds, ty) => self.open_type(rounds, ty, sorts),
            Want::Arguments(rounds, args) => self.open_arguments(rounds, args, sorts),
        }
    }
}
