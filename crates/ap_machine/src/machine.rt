//! Where a search stands.

ghost use Rattle.ap_machine.specs.Below.{AreWaitingBelow};
ghost use Rattle.ap_machine.specs.BelowProps.{waiting_prop};
ghost use Rattle.ap_machine.specs.Looks.{HasLooked, look_prop};
ghost use Rattle.ap_machine.specs.Stacks.{waiting_in};
ghost use Rattle.ap_store.specs.Views.{present, versions};

use crate::brought::Brought;
use crate::frames::Frame;
use crate::goal_stack::GoalStack;
use crate::looks::Look;
use crate::saves::Save;
use ap_defs::goals::{Goal, Local};
use ap_defs::lists::List;
use ap_defs::memory::Memory;
use ap_defs::terms::{Term, Var};
use ap_rules::pairs::Work;
use ap_store::store::Store;
use std::alloc::Global;

/// The machine of a search: what is bound and holds; the goal stack; the choices on the way; and the
/// variables that clauses and `exists` brought, in order and in ranges, with what was seen of them. The search
/// goes on in place, and can go back to where it was at an earlier choice point. The memory of unification's
/// work is kept from one to the next. It is `found` where a state was found since the variables were looked at, if
/// answers look at them.
pub struct Machine<'a> {
    pub store: Store<'a>,
    pub goals: GoalStack<'a>,
    pub path: Vec<u32>,
    pub brought: Vec<Brought<'a>>,
    pub look: Look,
    looks: bool,
    found: bool,
    alloc: Global,
    pub work: Work<'a>,
    pub ghost seen: { HasLooked (versions store) brought.items look } by { look_prop (versions store) brought.items look },
    pub ghost below: { AreWaitingBelow (present store).next (waiting_in goals) } by { waiting_prop (present store).next (waiting_in goals) },
}

// Written out, so that it is not written out at each exit of what owns a machine.
impl Drop for Machine<'_> {
    fn drop(self) {
        let Machine {
            store: _store,
            goals: _goals,
            path: _path,
            brought: _brought,
            look: _look,
            looks: _looks,
            found: _found,
            alloc: _alloc,
            work: _work,
        } = self;
    }
}

impl<'a> Machine<'a> {
    ghost use Rattle.std.specs.Prelude.{◌≡◌, ◌∷◌, [], IfNone, IfSome, OnOk};
    ghost use Rattle.ap_defs.specs.Goals.{goal_of};
    ghost use Rattle.ap_defs.specs.Renaming.{IsGoalBelow, local_vars, rename_goal};
    ghost use Rattle.ap_defs.specs.Types.{locals_of};
    ghost use Rattle.ap_machine.specs.Machines.{next_of, position_of, track_of};
    ghost use Rattle.ap_machine.specs.Positions.{with_choice, with_goal, with_vars};
    ghost use Rattle.ap_machine.specs.Tracks.{GoesFrom, IsSaveWithin, back_to, next_in, position_at};
    ghost use Rattle.ap_machine.specs.Views.{state_in, waiting_of};

    /// A machine with a store in which no goal waits, whose answers look at the variables that were brought, or don't.
    /// It takes no memory.
    pub fn of(alloc: Global, store: Store<'a>, looks: bool) -> Machine<'a>
        ensures position { position_of result
            ≡ record { waiting = []; path = []; state = state_in store.entry; brought = [] } }
        ensures store { result.store ≡ store.entry }
    {
        Machine {
            store,
            goals: GoalStack::new(alloc),
            path: Vec::new(alloc),
            brought: Vec::new(alloc),
            look: Look::new(alloc),
            looks,
            found: false,
            alloc,
            work: Work::new(alloc),
        }
    }

    /// One more goal waits, in front of the others.
    pub fn push_goal(&mut self, goal: &'a Goal<Term>, base: u64, depth: u32) -> Result<(), Memory>
        requires { IsGoalBelow (next_of self.old) (rename_goal base (goal_of goal.now)) }
        ensures position { OnOk result (position_of self.new
            ≡ with_goal depth (rename_goal base (goal_of goal.now)) (position_of self.old)) }
        ensures goes { OnOk result (GoesFrom (track_of self.old) (track_of self.new)) }
        ensures next { OnOk result (next_of self.new ≡ next_of self.old) }
    {
        self.goals.push(Frame { goal, base, depth })
    }

    /// One more choice.
    pub fn push_choice(&mut self, choice: u32) -> Result<(), Memory>
        ensures position { OnOk result (position_of self.new
            ≡ with_choice choice (position_of self.old)) }
        ensures goes { OnOk result (GoesFrom (track_of self.old) (track_of self.new)) }
        ensures next { OnOk result (next_of self.new ≡ next_of self.old) }
    {
        self.path.push(choice)?;
        Ok(())
    }

    /// One more variable that was brought. Numbers of `2 ^ 32` and more are want of memory, as they are
    /// to the store.
    #[tactic(auto, using(crate::proofs::BroughtLemmas::brought_more))]
    pub fn push_var(&mut self, x: Var) -> Result<(), Memory>
        ensures position { OnOk result (position_of self.new
            ≡ with_vars (x ∷ []) (position_of self.old)) }
        ensures goes { OnOk result (GoesFrom (track_of self.old) (track_of self.new)) }
        ensures next { OnOk result (next_of self.new ≡ next_of self.old) }
    {
        if x.num > u32::MAX as u64 {
            return Err(Memory);
        }
        self.brought.push(Brought::Exists(x.num as u32))?;
        Ok(())
    }

    /// The variables among identifiers were brought that are not marked as bound, the first number
    /// being `base`. Where there are no identifiers it takes no memory. Numbers of `2 ^ 32` and more are
    /// want of memory, as they are to the store.
    #[tactic(auto, using(crate::proofs::BroughtLemmas::brought_more))]
    pub fn push_locals(&mut self, base: u64, locals: &'a List<Local>) -> Result<(), Memory>
        ensures position { OnOk result (position_of self.new
            ≡ with_vars (local_vars base (locals_of locals.now)) (position_of self.old)) }
        ensures goes { OnOk result (GoesFrom (track_of self.old) (track_of self.new)) }
        ensures next { OnOk result (next_of self.new ≡ next_of self.old) }
    {
        if locals.items().is_empty() {
            return Ok(());
        }
        if base > u32::MAX as u64 {
            return Err(Memory);
        }
        self.brought.push(Brought::Clause(base as u32, locals))?;
        Ok(())
    }

    /// The first goal, which waits no longer. Where none waits, a state was found.
    pub fn pop_goal(&mut self) -> Option<Frame<'a>>
        ensures some { IfSome result (λ f. (position_of self.old
            ≡ record (position_of self.new)
            { waiting = waiting_of f ∷ (position_of self.new).waiting })
            × IsGoalBelow (next_of self.new) (waiting_of f).goal) }
        ensures none { IfNone result (((position_of self.old).waiting ≡ [])
            × (position_of self.new ≡ position_of self.old)) }
        ensures track { track_of self.new ≡ track_of self.old }
    {
        match self.goals.pop() {
            Some(frame) => Some(frame),
            None => {
                self.found = self.looks;
                None
            }
        }
    }

    /// The choices on the way to where the search stands, which goes on no more.
    pub fn into_path(self) -> Vec<u32>
        ensures { result ≡ self.entry.path }
    {
        let Machine {
            store: _store,
            goals: _goals,
            path,
            brought: _brought,
            look: _look,
            looks: _looks,
            found: _found,
            alloc: _alloc,
            work: _work,
        } = self;
        path
    }

    /// How far the search has come. It takes no memory.
    pub fn save(&self) -> Save
        ensures within { IsSaveWithin result (track_of self.now) }
        ensures track { back_to result (track_of self.now) ≡ track_of self.now }
        ensures position { position_at (track_of self.now) result.first ≡ position_of self.now }
        ensures next { next_in (track_of self.now) ≡ next_of self.now }
    {
        Save {
            mark: self.store.mark(),
            cells: self.goals.size(),
            first: self.goals.front(),
            path: self.path.len(),
            brought: self.brought.len(),
        }
    }

    /// Goes back to where the search had come. It takes no memory.
    fn undo(&mut self, save: Save)
        requires within { IsSaveWithin save (track_of self.old) }
        requires waiting { AreWaitingBelow (next_in (back_to save (track_of self.old))) (position_at
            (back_to save (track_of self.old)) save.first).waiting }
        ensures track { track_of self.new ≡ back_to save (track_of self.old) }
        ensures position { position_of self.new
            ≡ position_at (back_to save (track_of self.old)) save.first }
        ensures next { next_of self.new ≡ next_in (back_to save (track_of self.old)) }
    {
        self.store.undo_to(save.mark);
        self.goals.back_to(save.cells, save.first);
        self.path.truncate(save.path);
        self.brought.truncate(save.brought);
        self.look.go_back(save.mark.place, save.brought);
    }

    /// Looks again at the variables that were brought, if an answer looks at many. Where memory is wanting, nothing
    /// more is seen.
    #[cold]
    fn look_again(&mut self)
        ensures track { track_of self.new ≡ track_of self.old }
        ensures position { position_of self.new ≡ position_of self.old }
        ensures next { next_of self.new ≡ next_of self.old }
    {
        if self.look.is_long(self.brought.len()) {
            if let Ok(look) = self.look.again(self.alloc, &self.store, &self.brought) {
                self.look = look;
                self.found = false;
            }
        }
    }

    /// Goes back to where the search had come.
    pub fn go_back(&mut self, save: Save)
        requires within { IsSaveWithin save (track_of self.old) }
        requires waiting { AreWaitingBelow (next_in (back_to save (track_of self.old))) (position_at
            (back_to save (track_of self.old)) save.first).waiting }
        ensures track { track_of self.new ≡ back_to save (track_of self.old) }
        ensures position { position_of self.new
            ≡ position_at (back_to save (track_of self.old)) save.first }
        ensures next { next_of self.new ≡ next_in (back_to save (track_of self.old)) }
    {
        self.undo(save);
        if self.found {
            self.look_again();
        }
    }
}
