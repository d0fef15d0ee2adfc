//! Variables that bindings mention. This is kept only once a look was long, so that a search without long looks has
//! no marks.

ghost use Rattle.std.specs.Prelude.{◌≡◌, ◌<◌, ℕ, true, OnOk, length};
ghost use Rattle.ap_defs.specs.Unification.{has_var};
ghost use Rattle.ap_defs.specs.declared.terms.Var.{Var as variable};
ghost use Rattle.ap_store.specs.Mentions.{AreMentioned};
ghost use Rattle.ap_store.specs.Passed.{is_mark_at};
ghost use Rattle.ap_store.specs.Slots.{AreKeptBelow};

use crate::bare::Bare;
use crate::own::own_vars;
use crate::slots::{Found, Slot};
use crate::tables::found_at;
use ap_defs::memory::Memory;
use ap_defs::terms::Var;
use std::alloc::Global;

/// What a table binds when mentions begin to be kept, and a binding of a variable that is newer than all others, is
/// looked at no further than this, so that a long term costs no more there.
pub const FEW: usize = 64;

/// A binding of another variable is looked at up to here.
pub const MANY: usize = 16_384;

/// While mentions are kept, what is bound has no variables but those below a number and those that are marked. What
/// is known to be ground has none that is unbound, and is left out.
#[derive(Drop)]
pub struct Mentions {
    pub is_kept: bool,
    pub below: u64,
    pub marks: Vec<bool>,
}

/// Makes a place for the mark of a number. Nothing is marked in new ones.
fn make_place(marks: &mut Vec<bool>, place: usize) -> Result<(), Memory>
    ensures stay { (i : ℕ) → is_mark_at marks.old.items i ≡ true →
        is_mark_at marks.new.items i ≡ true }
    ensures place { OnOk result (place < length marks.new.items) }
{
    'adding: while marks.len() <= place {
        marks.push(false)?;
    }
    Ok(())
}

/// Marks a number.
fn mark_one(marks: &mut Vec<bool>, num: u64) -> Result<(), Memory>
    ensures stay { (i : ℕ) → is_mark_at marks.old.items i ≡ true →
        is_mark_at marks.new.items i ≡ true }
    ensures marked { OnOk result (is_mark_at marks.new.items num ≡ true) }
{
    make_place(marks, num as usize)?;
    marks[num as usize] = true;
    Ok(())
}

/// Marks the numbers of variables.
fn mark_each(marks: &mut Vec<bool>, vars: &[Var]) -> Result<(), Memory>
    ensures stay { (i : ℕ) → is_mark_at marks.old.items i ≡ true →
        is_mark_at marks.new.items i ≡ true }
    ensures marked { OnOk result ((y : variable) → has_var y vars.now ≡ true →
        is_mark_at marks.new.items y.num ≡ true) }
{
    let mut rest = vars;
    'marking: while let Some((x, others)) = rest.split_first() {
        mark_one(marks, x.num)?;
        rest = others;
    }
    Ok(())
}

impl Mentions {
    ghost use Rattle.std.specs.Prelude.{◌≡◌, Option as option, true, false, OnOk};
    ghost use Rattle.ap_defs.specs.Terms.{NominalTerm};
    ghost use Rattle.ap_defs.specs.declared.terms.Var.{Var as variable};
    ghost use Rattle.ap_store.specs.Founds.{IsWhatIsFound, bare_term, is_ground_found};
    ghost use Rattle.ap_store.specs.Mentions.{IsMentioned};
    ghost use Rattle.ap_store.specs.Passed.{is_mark_at};
    ghost use Rattle.ap_store.specs.Slots.{term_or_unit};
    ghost use Rattle.ap_theory.specs.Variables.{EachVar};

    /// Nothing is kept. It takes no memory.
    pub fn new(alloc: Global) -> Mentions
        ensures { result.is_kept ≡ false }
    {
        Mentions {
            is_kept: false,
            below: 0,
            marks: Vec::new(alloc),
        }
    }

    /// Whether a variable is marked. It takes no memory.
    fn is_marked(&self, x: Var) -> bool
        ensures { result ≡ is_mark_at self.now.marks.items x.num }
    {
        if x.num < self.marks.len() as u64 {
            self.marks[x.num as usize]
        } else {
            false
        }
    }

    /// Whether it is kept that no binding mentions a variable. It takes no memory.
    pub fn is_apart(&self, x: Var) -> bool
        ensures { result ≡ true →
            (self.now.is_kept ≡ true) × (IsMentioned self.now x → ⊥) }
    {
        if !self.is_kept {
            return false;
        }
        if x.num < self.below {
            return false;
        }
        !self.is_marked(x)
    }

    /// The variables of a term are mentioned, or all that are so old as one of them may be, where it has more than so
    /// many parts.
    fn put(&mut self, alloc: Global, b: Bare<'_>, most: usize) -> Result<(), Memory>
        ensures kept { self.new.is_kept ≡ self.old.is_kept }
        ensures stay { (y : variable) → IsMentioned self.old y → IsMentioned self.new y }
        ensures put { OnOk result (EachVar (IsMentioned self.new) (bare_term b.entry)) }
    {
        match own_vars(alloc, b, most)? {
            Some(vars) => mark_each(&mut self.marks, &vars),
            None => {
                self.below = self.below.max(b.end);
                Ok(())
            }
        }
    }

    /// The variables of a term are mentioned. Where memory is wanting, nothing is kept any longer.
    fn mention(&mut self, alloc: Global, b: Bare<'_>, most: usize)
        ensures kept { self.new.is_kept ≡ true → self.old.is_kept ≡ true }
        ensures stay { self.new.is_kept ≡ true → (y : variable) →
            IsMentioned self.old y → IsMentioned self.new y }
        ensures put { self.new.is_kept ≡ true →
            EachVar (IsMentioned self.new) (bare_term b.entry) }
    {
        match self.put(alloc, b, most) {
            Ok(()) => {}
            Err(_) => self.is_kept = false,
        }
    }

    /// The variables of what a look at a binding finds are mentioned, unless that is ground.
    pub fn mention_found(&mut self, alloc: Global, found: Found<'_>, most: usize)
        ensures kept { self.new.is_kept ≡ true → self.old.is_kept ≡ true }
        ensures stay { self.new.is_kept ≡ true → (y : variable) →
            IsMentioned self.old y → IsMentioned self.new y }
        ensures put { self.new.is_kept ≡ true → (o : option NominalTerm) →
            IsWhatIsFound o found.entry → is_ground_found found.entry ≡ false →
            EachVar (IsMentioned self.new) (term_or_unit o) }
    {
        match found {
            Found::Nothing => {}
            Found::Ground(_) => {}
            Found::Plain(b) => self.mention(alloc, b, most),
            Found::Moved(b) => self.mention(alloc, b, most),
        }
    }
}

/// What the bindings of a table mention, which are below `end`. Where memory is wanting, nothing is kept.
pub fn mentions_in(alloc: Global, table: &[Slot<'_>], end: u64) -> Mentions
    requires { AreKeptBelow end table.now }
    ensures { AreMentioned result table.now }
{
    let mut mentions = Mentions {
        is_kept: true,
        below: 0,
        marks: Vec::new(alloc),
    };
    'gathering: for i in 0..table.len() {
        mentions.mention_found(alloc, found_at(table, i as u64, end), FEW);
    }
    mentions
}
