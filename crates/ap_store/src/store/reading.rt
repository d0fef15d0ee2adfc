//! What is read of a store.

use super::Store;
use crate::bare::Bare;
use crate::held::{held_of, set_of};
use crate::likes::{Like, like_of};
use crate::mentions::{FEW, MANY};
use crate::occurrences::Occurrence;
use crate::slots::{Found, Value};
use crate::tables::{bound_at, found_at};
use ap_defs::goals::Kind;
use ap_defs::memory::Memory;
use ap_defs::terms::{Cond, Var};
use ap_perm::closures::{Closure, Lent};
use std::alloc::Global;

impl<'a> Store<'a> {
    ghost use Rattle.std.specs.Prelude.{◌≡◌, ◌<◌, [], false, true, Some, None, IfOk, MatchOption, is_some, slice_get, vec_len, vec_capacity};
    ghost use Rattle.ap_defs.specs.Substitution.{occurs, under};
    ghost use Rattle.ap_defs.specs.Terms.{NominalTerm, susp};
    ghost use Rattle.ap_defs.specs.Types.{kind_of};
    ghost use Rattle.ap_perm.specs.Closures.{lent_term};
    ghost use Rattle.ap_store.specs.Changes.{has_on};
    ghost use Rattle.ap_store.specs.Founds.{IsBareOf, IsWhatIsFound, is_ground_found};
    ghost use Rattle.ap_store.specs.Likes.{AreAlike, HaveSameVars};
    ghost use Rattle.ap_store.specs.Marks.{HasNoVars};
    ghost use Rattle.ap_defs.specs.declared.terms.Var.{Var as variable};
    ghost use Rattle.ap_store.specs.Views.{bindings_of, kinds, meaning_in, present, raw_bound};

    /// The closure to which a variable is bound, or none where it is unbound. It takes no memory.
    pub fn binding(&self, x: Var) -> Option<Lent<'_, 'a>>
        ensures { MatchOption result (raw_bound self.now x ≡ None) (λ c. raw_bound self.now x
            ≡ Some (lent_term c)) }
    {
        bound_at(&self.table, x.num, self.reach)
    }

    /// What a look at a variable finds. It takes no memory.
    pub fn found(&self, x: Var) -> Found<'a>
        ensures found { IsWhatIsFound (raw_bound self.now x) result }
        ensures no_vars { is_ground_found result ≡ true →
            HasNoVars (under (bindings_of self.now) (susp [] x)) }
    {
        found_at(&self.table, x.num, self.reach)
    }

    /// The term of the closure to which a variable is bound, without the swappings that wait on it, or none
    /// where it is unbound. It takes no memory.
    pub(crate) fn bare(&self, x: Var) -> Option<Bare<'a>>
        ensures { IsBareOf (raw_bound self.now x) result }
    {
        match self.found(x) {
            Found::Nothing => None,
            Found::Plain(b) => Some(b),
            Found::Ground(b) => Some(b),
            Found::Moved(b) => Some(b),
        }
    }

    /// Another variable, if one is kept beside a bound one. Both stand for terms with the same variables. It takes
    /// no memory.
    pub(crate) fn like(&self, x: Var) -> Option<Var>
        ensures { (w : variable) → result ≡ Some w → is_some (raw_bound self.now x) ≡ true →
            HaveSameVars (under (bindings_of self.now) (susp [] x))
            (under (bindings_of self.now) (susp [] w)) }
    {
        match like_of(&self.likes, x.num) {
            Like::Nothing => None,
            Like::Vars(num) => Some(Var { num: num as u64 }),
            Like::Head(num) => Some(Var { num: num as u64 }),
        }
    }

    /// Another variable, if one is kept beside a bound one that stands for a term that begins alike. It takes no
    /// memory.
    pub(crate) fn alike(&self, x: Var) -> Option<Var>
        ensures { (w : variable) → result ≡ Some w → is_some (raw_bound self.now x) ≡ true →
            AreAlike (under (bindings_of self.now) (susp [] x))
            (under (bindings_of self.now) (susp [] w)) }
    {
        match like_of(&self.likes, x.num) {
            Like::Nothing => None,
            Like::Vars(_) => None,
            Like::Head(num) => Some(Var { num: num as u64 }),
        }
    }

    /// Whether there are conditions on a variable. It takes no memory.
    pub fn has_conditions(&self, x: Var) -> bool
        ensures { result ≡ has_on x (present self.now).conditions }
    {
        !held_of(&self.held, x.num as usize).is_empty()
    }

    /// Whether there is room for one more change, nothing to let go at the number of a variable, and nothing to be
    /// mentioned nor kept beside it.
    #[inline(always)]
    pub(super) fn is_ready(&self, x: Var, found: Occurrence) -> bool
        requires { x.num < (present self.now).next }
        ensures room { result ≡ true → vec_len self.now.trail < vec_capacity self.now.trail }
        ensures unkept { result ≡ true → self.now.mentions.is_kept ≡ false }
    {
        !self.mentions.is_kept
            && found.is_plain()
            && self.trail.len() < self.trail.capacity()
            && matches!(self.table[x.num as usize].value, Value::Unbound)
    }

    /// Whether it is kept which variables bindings mention. It takes no memory.
    #[inline(always)]
    pub(crate) fn keeps_mentions(&self) -> bool {
        self.mentions.is_kept
    }

    /// Whether it is known that no binding mentions a variable, so that it occurs in what a term stands for only where
    /// it does in the term itself. It takes no memory.
    pub(crate) fn is_unmentioned(&self, x: Var) -> bool
        ensures { (t : NominalTerm) → result ≡ true → occurs x t ≡ false →
            occurs x (under (bindings_of self.now) t) ≡ false }
    {
        self.mentions.is_apart(x)
    }

    /// Up to how many parts of a binding of a variable are looked at to mention what is in it.
    pub(super) fn most_of(&self, x: Var, end: u64) -> usize {
        if self.reach <= x.num && end <= x.num {
            FEW
        } else {
            MANY
        }
    }

    /// Whether the variable is so new that neither the closure nor any bound one can have it.
    pub(crate) fn is_new(&self, x: Var, c: &Closure<'_>) -> bool
        ensures { result ≡ true →
            occurs x (meaning_in self.now c.now) ≡ false }
    {
        self.reach <= x.num && c.end <= x.num
    }

    /// The conditions, each once, ascending by variable, then by the name's number, and then by its
    /// sort.
    pub fn conds(&self, alloc: Global) -> Result<Vec<Cond>, Memory>
        ensures { IfOk result (λ conds. conds.items ≡ (present self.now).conditions) }
    {
        set_of(alloc, &self.held)
    }

    /// The next number. It takes no memory.
    pub fn next(&self) -> u64
        ensures { result ≡ (present self.now).next }
    {
        self.table.len() as u64
    }

    /// The kind of a number that was given. It takes no memory.
    pub fn kind(&self, num: u64) -> &'a Kind
        requires { num < (present self.now).next }
        ensures { slice_get (kinds self.now) num ≡ Some (kind_of result.now) }
    {
        &self.table[num as usize].local.kind
    }
}
