//! The store.

ghost use Rattle.ap_perm.specs.Lookups.{IsRanked};
ghost use Rattle.ap_store.specs.Changes.{empty};
ghost use Rattle.ap_store.specs.Likes.{AreLikes, like_in, likes_prop};
ghost use Rattle.ap_store.specs.Marks.{AreGroundMarks, ground_in, marks_prop};
ghost use Rattle.ap_store.specs.Mentions.{AreMentioned, mentioned_prop};
ghost use Rattle.ap_store.specs.Slots.{AreHeld, IsStored, changes_in, held_prop, stored_prop};
ghost use Rattle.ap_store.specs.Trails.{no_rank, nothing_bound, rank_after, raw_after};

mod mentioning;
mod reading;

use crate::changes::{Entry, Noted};
use crate::heads::kept_behind;
use crate::held::{held_of, hold, let_go, put_back, take_out};
use crate::likes::{Like, keep_like};
use crate::mentions::Mentions;
use crate::occurrences::Occurrence;
use crate::slots::{Slot, Value, plain_value, value_of};
use crate::tables::{add_slots, put_value};
use ap_defs::goals::Local;
use ap_defs::memory::Memory;
use ap_defs::terms::{Cond, Term, Var};
use ap_perm::closures::Closure;
use ap_perm::sets::make_set;
use std::alloc::Global;

/// A place among the versions of a store.
#[derive(Clone, Copy)]
pub struct Mark {
    pub place: usize,
}

/// What variables are bound to, the conditions that hold, and the kinds of the numbers that were
/// given to names and variables, with all changes since it was empty, to go back.
///
/// Contracts see it as its present triple of bindings, conditions and next number, the list of the
/// earlier triples, and the list of kinds. There each binding is carried out in the others; what is
/// kept of it is the closure alone, in the table. All that is bound is below `reach`. What is marked stood for a
/// term without variables when it was bound, and so does since. The variable in `likes` beside a bound one stood
/// for a term with the same variables, and maybe the same head, when that was bound, and so does since. While
/// mentions are kept, they have the variables of what is bound.
#[derive(Drop)]
pub struct Store<'a> {
    table: Vec<Slot<'a>>,
    held: Vec<Vec<Cond>>,
    trail: Vec<Entry>,
    noted: Vec<Noted>,
    likes: Vec<Like>,
    reach: u64,
    mentions: Mentions,
    pub ghost stored: { IsStored table.items trail.items noted.items reach } by { stored_prop table.items trail.items noted.items reach },
    pub ghost holds: { AreHeld held.items (changes_in table.items trail.items noted.items) } by { held_prop held.items (changes_in table.items trail.items noted.items) },
    pub ghost marked: { AreGroundMarks (ground_in table.items)
        (changes_in table.items trail.items noted.items) empty } by { marks_prop (ground_in table.items)
            (changes_in table.items trail.items noted.items) empty },
    pub ghost likened: { AreLikes (like_in likes.items)
        (changes_in table.items trail.items noted.items) empty } by { likes_prop (like_in likes.items)
            (changes_in table.items trail.items noted.items) empty },
    pub ghost mentioned: { AreMentioned mentions
        table.items } by { mentioned_prop mentions table.items },
    pub ghost ranked: { IsRanked (raw_after (changes_in table.items trail.items noted.items) nothing_bound)
        (rank_after (changes_in table.items trail.items noted.items) empty no_rank) },
}

impl<'a> Store<'a> {
    ghost use Rattle.std.specs.Prelude.{◌≡◌, ◌+◌, ◌≤◌, ◌<◌, ◌++◌, ◌∷◌, [], false, true, Some, IfOk, OnOk, OnErr, filter, length, take, vec_len, vec_capacity};
    ghost use Rattle.ap_defs.specs.Renaming.{IsBelow, rename_term};
    ghost use Rattle.ap_defs.specs.Resolution.{kinds_of};
    ghost use Rattle.ap_defs.specs.Substitution.{occurs, under};
    ghost use Rattle.ap_defs.specs.Terms.{susp, term_of};
    ghost use Rattle.ap_defs.specs.Types.{locals_of};
    ghost use Rattle.ap_defs.specs.declared.terms.Var.{Var as variable};
    ghost use Rattle.ap_perm.specs.Closures.{closure_term};
    ghost use Rattle.ap_theory.specs.Variables.{EachVar, IsUnbound};
    ghost use Rattle.ap_store.specs.Changes.{has_on, replace_conditions, with_bound};
    ghost use Rattle.ap_store.specs.Likes.{HaveSameVars, IsAlike};
    ghost use Rattle.ap_store.specs.Marks.{HasNoVars, is_ground_value};
    ghost use Rattle.ap_store.specs.Mentions.{IsMentioned};
    ghost use Rattle.ap_store.specs.Slots.{IsKeptBelow, value_term, kept_term};
    ghost use Rattle.ap_store.specs.Triples.{AreOnUnbound, IsPrefixOf, is_apart, is_on, with_binding, with_conditions, with_next};
    ghost use Rattle.ap_store.specs.Views.{IsUnchanged, bindings_of, kinds, meaning_in, past, present, versions};

    /// The empty store. It takes no memory.
    pub fn new(alloc: Global) -> Store<'a>
        ensures present { present result ≡ record { bindings = []; conditions = []; next = 0 } }
        ensures past { past result ≡ [] }
        ensures kinds { kinds result ≡ [] }
    {
        Store {
            table: Vec::new(alloc),
            held: Vec::new(alloc),
            trail: Vec::new(alloc),
            noted: Vec::new(alloc),
            likes: Vec::new(alloc),
            reach: 0,
            mentions: Mentions::new(alloc),
        }
    }

    /// Gives a number to each of these identifiers, in order, and answers the first. After want of
    /// memory the store is as before; `2 ^ 32` numbers and more are such a want.
    #[inline(always)]
    pub fn make(&mut self, locals: &'a [Local]) -> Result<u64, Memory>
        ensures first { IfOk result (λ n. n ≡ (present self.old).next) }
        ensures kinds { OnOk result (kinds self.new
            ≡ kinds self.old ++ kinds_of (locals_of locals.now)) }
        ensures present { OnOk result (present self.new
            ≡ with_next ((present self.old).next + length locals.now) (present self.old)) }
        ensures past { OnOk result (IsPrefixOf (versions self.old) (versions self.new)) }
        ensures unchanged { OnErr result (IsUnchanged self.old self.new) }
    {
        let count = locals.len();
        let first = self.table.len();
        if u32::MAX as usize - first < count {
            return Err(Memory);
        }
        self.table.reserve(count)?;
        self.trail.reserve(1)?;
        add_slots(&mut self.table, locals);
        self.trail.push_reserved(Entry::Made(count as u32));
        Ok(first as u64)
    }

    /// Binds an unbound variable to a closure in which it does not occur, marked where that is known to be
    /// ground, and answers the conditions on the variable, which are taken out. After want of memory the
    /// store is as before.
    pub fn bind(
        &mut self,
        alloc: Global,
        x: Var,
        c: Closure<'a>,
        is_ground: bool,
    ) -> Result<Vec<Cond>, Memory>
        requires made { x.num < (present self.old).next }
        requires unbound { IsUnbound (bindings_of self.old) x }
        requires term { IsBelow (present self.old).next (closure_term c) }
        requires absent { occurs x (meaning_in self.old c) ≡ false }
        requires no_vars { is_ground ≡ true → HasNoVars (meaning_in self.old c) }
        ensures taken { IfOk result (λ conds. conds.items
            ≡ filter (is_on x) (present self.old).conditions) }
        ensures present { OnOk result (present self.new
            ≡ with_binding x (meaning_in self.old c.entry)
            (present self.old)) }
        ensures past { OnOk result (IsPrefixOf (versions self.old) (versions self.new)) }
        ensures kinds { kinds self.new ≡ kinds self.old }
        ensures unchanged { OnErr result (IsUnchanged self.old self.new) }
    {
        let end = c.end;
        let like = kept_behind(self, &c);
        let value = value_of(alloc, c, is_ground)?;
        let taken = self.take_conditions(alloc, x)?;
        self.mention(x, &value, end);
        self.note_binding(x, value, end, like);
        Ok(taken)
    }

    /// Binds an unbound variable, on which there are no conditions, to a term on which no swappings wait,
    /// whose identifiers are numbered from `base` on, below `end`, and in which it does not occur, with what was
    /// found of the variables there. After want of memory the store is as before; a `base` of `2 ^ 32` and more
    /// is such a want.
    pub fn bind_free(
        &mut self,
        x: Var,
        base: u64,
        end: u64,
        term: &'a Term,
        found: Occurrence,
    ) -> Result<(), Memory>
        requires made { x.num < (present self.old).next }
        requires unbound { IsUnbound (bindings_of self.old) x }
        requires apart { has_on x (present self.old).conditions ≡ false }
        requires within { IsBelow end (rename_term base (term_of term.now)) }
        requires term { IsBelow (present self.old).next (rename_term base (term_of term.now)) }
        requires absent { occurs x (under (bindings_of self.old)
            (rename_term base (term_of term.now))) ≡ false }
        requires no_vars { found ≡ Occurrence.Ground →
            HasNoVars (under (bindings_of self.old) (rename_term base (term_of term.now))) }
        requires like { (w : variable) → found ≡ Occurrence.Like w → HaveSameVars
            (under (bindings_of self.old) (rename_term base (term_of term.now)))
            (under (bindings_of self.old) (susp [] w)) }
        ensures present { OnOk result (present self.new
            ≡ with_binding x (under (bindings_of self.old) (rename_term base (term_of term.now)))
            (present self.old)) }
        ensures past { OnOk result (IsPrefixOf (versions self.old) (versions self.new)) }
        ensures kinds { kinds self.new ≡ kinds self.old }
        ensures unchanged { OnErr result (IsUnchanged self.old self.new) }
    {
        if base > u32::MAX as u64 {
            return Err(Memory);
        }
        let value = plain_value(base as u32, term, found.is_ground());
        if self.is_ready(x, found) {
            self.note_binding(x, value, end, Like::Nothing);
            return Ok(());
        }
        self.note_with_room(x, value, end, found.like(), found.is_far())
    }

    /// Adds conditions on unbound variables. After want of memory the store is as before.
    pub fn add(&mut self, conds: &[Cond]) -> Result<(), Memory>
        requires { AreOnUnbound (present self.old) conds.now }
        ensures present { OnOk result (present self.new
            ≡ with_conditions conds.now (present self.old)) }
        ensures past { OnOk result (IsPrefixOf (versions self.old) (versions self.new)) }
        ensures kinds { kinds self.new ≡ kinds self.old }
        ensures unchanged { OnErr result (IsUnchanged self.old self.new) }
    {
        let start = self.mark();
        match self.add_each(conds) {
            Ok(()) => Ok(()),
            Err(refusal) => {
                self.undo_to(start);
                Err(refusal)
            }
        }
    }

    /// The place of the present version. It takes no memory.
    pub fn mark(&self) -> Mark
        ensures { result.place ≡ length (past self.now) }
    {
        Mark {
            place: self.trail.len(),
        }
    }

    /// Goes back to the version at the mark's place, and forgets the later ones, with their numbers.
    /// It takes no memory.
    pub fn undo_to(&mut self, m: Mark)
        requires { m.place ≤ length (past self.old) }
        ensures versions { versions self.new ≡ take (m.place + 1) (versions self.old) }
        ensures kinds { kinds self.new ≡ take (present self.new).next (kinds self.old) }
    {
        'undoing: while self.trail.len() > m.place {
            self.undo_last();
        }
    }

    /// Makes room for one more change.
    fn make_room(&mut self) -> Result<(), Memory>
        ensures present { present self.new ≡ present self.old }
        ensures versions { versions self.new ≡ versions self.old }
        ensures kinds { kinds self.new ≡ kinds self.old }
        ensures room { OnOk result (vec_len self.new.trail < vec_capacity self.new.trail) }
    {
        self.trail.reserve(1)?;
        Ok(())
    }

    /// Takes the conditions on a variable out, and leaves room for one more change.
    fn take_conditions(&mut self, alloc: Global, x: Var) -> Result<Vec<Cond>, Memory>
        requires made { x.num < (present self.old).next }
        ensures taken { IfOk result (λ conds. conds.items
            ≡ filter (is_on x) (present self.old).conditions) }
        ensures present { OnOk result (present self.new
            ≡ replace_conditions (filter (is_apart x) (present self.old).conditions)
            (present self.old)) }
        ensures room { OnOk result (vec_len self.new.trail < vec_capacity self.new.trail) }
        ensures past { OnOk result (IsPrefixOf (versions self.old) (versions self.new)) }
        ensures kinds { kinds self.new ≡ kinds self.old }
        ensures unchanged { OnErr result (IsUnchanged self.old self.new) }
    {
        self.trail.reserve(2)?;
        let conds = held_of(&self.held, x.num as usize);
        if conds.is_empty() {
            return Ok(Vec::new(alloc));
        }
        let mut taken = conds.to_vec(alloc)?;
        make_set(&mut taken);
        self.noted.reserve(1)?;
        self.note_taken(x);
        Ok(taken)
    }

    /// Adds conditions on unbound variables, from the last to the first.
    fn add_each(&mut self, conds: &[Cond]) -> Result<(), Memory>
        requires { AreOnUnbound (present self.old) conds.now }
        ensures present { OnOk result (present self.new
            ≡ with_conditions conds.now (present self.old)) }
        ensures past { IsPrefixOf (versions self.old) (versions self.new) }
        ensures kinds { kinds self.new ≡ kinds self.old }
    {
        'adding: for i in (0..conds.len()).rev() {
            self.add_one(conds[i])?;
        }
        Ok(())
    }

    /// Adds a condition on an unbound variable. After want of memory the store is as before.
    fn add_one(&mut self, c: Cond) -> Result<(), Memory>
        requires { AreOnUnbound (present self.old) (c ∷ []) }
        ensures present { OnOk result (present self.new
            ≡ with_conditions (c ∷ []) (present self.old)) }
        ensures past { IsPrefixOf (versions self.old) (versions self.new) }
        ensures kinds { kinds self.new ≡ kinds self.old }
        ensures unchanged { OnErr result (IsUnchanged self.old self.new) }
    {
        self.trail.reserve(1)?;
        self.noted.reserve(1)?;
        hold(&mut self.held, c)?;
        self.noted.push_reserved(Noted::Added(c));
        self.trail.push_reserved(Entry::Noted);
        Ok(())
    }

    /// Notes what a variable is bound to; the variables in it are below `end`, and what is to be kept beside the
    /// variable holds of it.
    #[inline(always)]
    fn note_binding(&mut self, x: Var, value: Value<'a>, end: u64, like: Like)
        requires room { vec_len self.old.trail < vec_capacity self.old.trail }
        requires made { x.num < (present self.old).next }
        requires unbound { IsUnbound (bindings_of self.old) x }
        requires bound { value_term value ≡ Some (kept_term value) }
        requires term { IsBelow (present self.old).next (kept_term value) }
        requires within { IsKeptBelow end value }
        requires absent { occurs x (under (bindings_of self.old) (kept_term value)) ≡ false }
        requires mark { is_ground_value value ≡ true →
            HasNoVars (under (bindings_of self.old) (kept_term value)) }
        requires like { IsAlike like (bindings_of self.old) (kept_term value) }
        requires apart { has_on x (present self.old).conditions ≡ false }
        requires mentioned { self.old.mentions.is_kept ≡ true → is_ground_value value ≡ false →
            EachVar (IsMentioned self.old.mentions) (kept_term value) }
        ensures present { present self.new
            ≡ with_bound x (under (bindings_of self.old) (kept_term value.entry)) (present self.old) }
        ensures versions { versions self.new ≡ versions self.old ++ present self.new ∷ [] }
        ensures kinds { kinds self.new ≡ kinds self.old }
    {
        put_value(&mut self.table, x.num as usize, value);
        self.reach = self.reach.max(end);
        self.trail.push_reserved(Entry::Bound(x.num as u32));
        keep_like(&mut self.likes, x.num as usize, like);
    }

    /// Notes that the conditions on a variable are taken out.
    fn note_taken(&mut self, x: Var)
        requires room { vec_len self.old.trail < vec_capacity self.old.trail }
        requires noted { vec_len self.old.noted < vec_capacity self.old.noted }
        requires made { x.num < (present self.old).next }
        requires held { x.num < length self.old.held.items }
        ensures present { present self.new
            ≡ replace_conditions (filter (is_apart x) (present self.old).conditions)
            (present self.old) }
        ensures versions { versions self.new ≡ versions self.old ++ present self.new ∷ [] }
        ensures kinds { kinds self.new ≡ kinds self.old }
        ensures room { vec_capacity self.new.trail + vec_len self.old.trail + 1
            ≡ vec_capacity self.old.trail + vec_len self.new.trail }
    {
        let conds = take_out(&mut self.held, x.num as usize);
        self.noted.push_reserved(Noted::Taken(x, conds));
        self.trail.push_reserved(Entry::Noted);
    }

    /// Undoes the last change.
    fn undo_last(&mut self)
        requires { 0 < length (past self.old) }
        ensures versions { versions self.old ≡ versions self.new ++ present self.old ∷ [] }
        ensures kinds { kinds self.new ≡ take (present self.new).next (kinds self.old) }
        ensures next { (present self.new).next ≤ (present self.old).next }
    {
        match self.trail.pop() {
            None => {}
            Some(Entry::Made(count)) => {
                let left = self.table.len() - count as usize;
                self.table.truncate(left);
                self.reach = self.reach.min(left as u64);
            }
            Some(Entry::Bound(num)) => {
                put_value(&mut self.table, num as usize, Value::Unbound);
            }
            Some(Entry::Noted) => match self.noted.pop() {
                None => {}
                Some(Noted::Added(c)) => let_go(&mut self.held, c.var.num as usize),
                Some(Noted::Taken(x, conds)) => put_back(&mut self.held, x.num as usize, conds),
            },
        }
    }
}
