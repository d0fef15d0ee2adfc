//! What bindings mention is kept.

use super::Store;
use crate::likes::Like;
use crate::mentions::mentions_in;
use crate::slots::{Value, found_value};
use ap_defs::memory::Memory;
use ap_defs::terms::Var;

impl<'a> Store<'a> {
    ghost use Rattle.std.specs.Prelude.{◌≡◌, ◌<◌, ◌++◌, ◌∷◌, [], false, true, Some, OnOk, OnErr, vec_len, vec_capacity};
    ghost use Rattle.ap_defs.specs.Renaming.{IsBelow};
    ghost use Rattle.ap_defs.specs.Substitution.{occurs, under};
    ghost use Rattle.ap_store.specs.Changes.{has_on, with_bound};
    ghost use Rattle.ap_store.specs.Likes.{IsAlike};
    ghost use Rattle.ap_store.specs.Marks.{HasNoVars, is_ground_value};
    ghost use Rattle.ap_store.specs.Mentions.{IsMentioned};
    ghost use Rattle.ap_store.specs.Slots.{IsKeptBelow, kept_term, value_term};
    ghost use Rattle.ap_store.specs.Views.{IsUnchanged, bindings_of, kinds, present, versions};
    ghost use Rattle.ap_theory.specs.Variables.{EachVar, IsUnbound};

    /// Mentions are kept from now on, if a look was long.
    fn keep_mentions(&mut self, is_far: bool)
        ensures present { present self.new ≡ present self.old }
        ensures versions { versions self.new ≡ versions self.old }
        ensures kinds { kinds self.new ≡ kinds self.old }
        ensures room { vec_len self.old.trail < vec_capacity self.old.trail →
            vec_len self.new.trail < vec_capacity self.new.trail }
    {
        if is_far {
            let alloc = *self.held.allocator();
            self.mentions = mentions_in(alloc, &self.table, self.reach);
        }
    }

    /// While mentions are kept, what a variable is to be bound to is mentioned.
    pub(super) fn mention(&mut self, x: Var, value: &Value<'a>, end: u64)
        requires within { IsKeptBelow end value.now }
        ensures present { present self.new ≡ present self.old }
        ensures versions { versions self.new ≡ versions self.old }
        ensures kinds { kinds self.new ≡ kinds self.old }
        ensures room { vec_len self.old.trail < vec_capacity self.old.trail →
            vec_len self.new.trail < vec_capacity self.new.trail }
        ensures mentioned { self.new.mentions.is_kept ≡ true → is_ground_value value.now ≡ false →
            EachVar (IsMentioned self.new.mentions) (kept_term value.now) }
    {
        if !self.mentions.is_kept {
            return;
        }
        let alloc = *self.held.allocator();
        let most = self.most_of(x, end);
        self.mentions
            .mention_found(alloc, found_value(value, end), most);
    }

    /// As `note_binding`, once there is room and what is bound is mentioned. After want of memory the store is as
    /// before.
    #[cold]
    #[inline(never)]
    pub(super) fn note_with_room(
        &mut self,
        x: Var,
        value: Value<'a>,
        end: u64,
        like: Like,
        is_far: bool,
    ) -> Result<(), Memory>
        requires made { x.num < (present self.old).next }
        requires unbound { IsUnbound (bindings_of self.old) x }
        requires bound { value_term value ≡ Some (kept_term value) }
        requires term { IsBelow (present self.old).next (kept_term value) }
        requires within { IsKeptBelow end value }
        requires absent { occurs x (under (bindings_of self.old) (kept_term value)) ≡ false }
        requires mark { is_ground_value value ≡ true →
            HasNoVars (under (bindings_of self.old) (kept_term value)) }
        requires like { IsAlike like (bindings_of self.old) (kept_term value) }
        requires apart { has_on x (present self.old).conditions ≡ false }
        ensures present { OnOk result (present self.new
            ≡ with_bound x (under (bindings_of self.old) (kept_term value.entry)) (present self.old)) }
        ensures versions { OnOk result (versions self.new
            ≡ versions self.old ++ present self.new ∷ []) }
        ensures kinds { kinds self.new ≡ kinds self.old }
        ensures unchanged { OnErr result (IsUnchanged self.old self.new) }
    {
        self.make_room()?;
        self.keep_mentions(is_far);
        self.mention(x, &value, end);
        self.note_binding(x, value, end, like);
        Ok(())
    }
}
