//! The rules for two parts of terms on which swappings wait, the same for all parts of a side.

ghost use Rattle.std.specs.Prelude.{◌≡◌, ◌<◌, ◌+◌, ℕ, List as list, IfOk, OnOk};
ghost use Rattle.ap_defs.specs.Permutations.{act_name, inverse, name_eq};
ghost use Rattle.ap_defs.specs.Renaming.{AreSwapsBelow, IsBelow, rename_name};
ghost use Rattle.ap_defs.specs.Substitution.{Binding, occurs, under};
ghost use Rattle.ap_defs.specs.Terms.{act_term};
ghost use Rattle.ap_defs.specs.Unification.{unless_occurs};
ghost use Rattle.ap_defs.specs.declared.terms.Swap.{Swap as swapping};
ghost use Rattle.ap_equations.specs.Plain.{plain_term};
ghost use Rattle.ap_rules.specs.Work.{GoOn};
ghost use Rattle.ap_store.specs.Founds.{does_occur};
ghost use Rattle.ap_store.specs.Heads.{HasForm};
ghost use Rattle.ap_store.specs.Marks.{HasNoVars};
ghost use Rattle.ap_store.specs.Triples.{IsPrefixOf};
ghost use Rattle.ap_store.specs.Views.{bindings_of, kinds, present, versions};
ghost use Rattle.ap_theory.specs.Variables.{IsUnbound};
ghost use Rattle.ap_unify.specs.Moved.{moved_equation, waiting};
ghost use Rattle.ap_unify.specs.Parts.{AreBelowBoth, AreMarksTrue, AreTurnMarksTrue, IsHead, IsMarkTrue, IsRuleFor, IsTurnBelow, PutsNothing, rule_of};
ghost use Rattle.ap_unify.specs.declared.parts.Ahead.{Ahead};
ghost use Rattle.ap_unify.specs.declared.sides.Sides.{Sides};

use crate::heads::{Head, PartWithHead, headed};
use crate::parts::{Ahead, Turn, terms_of};
use crate::sides::{Side, Sides, moved_back, name_within};
use ap_defs::memory::Memory;
use ap_defs::terms::{Name, Term, Var};
use ap_equations::plain::{Plain, PlainPair};
use ap_equations::work::bind_var;
use ap_rules::pairs::Work;
use ap_store::occurrences::Occurrence;
use ap_store::store::Store;
use std::alloc::Global;

/// As `headed`, where a suspension stands at the head; all else stays as it is. It takes no memory.
fn head_within<'a>(store: &Store<'a>, p: Plain<'a>) -> PartWithHead<'a>
    ensures meaning { under (bindings_of store.now) (plain_term result.part)
        ≡ under (bindings_of store.now) (plain_term p.entry) }
    ensures below { (q : list swapping) →
        IsBelow (present store.now).next (act_term q (plain_term p.entry)) →
        IsBelow (present store.now).next (act_term q (plain_term result.part)) }
    ensures mark { IsMarkTrue (bindings_of store.now) p.entry →
        IsMarkTrue (bindings_of store.now) result.part }
    ensures head { IsHead (bindings_of store.now) (plain_term result.part) result.head }
{
    match p.term {
        Term::Susp(_, _) => headed(store, p),
        Term::Unit | Term::Name(_) | Term::Pair(_, _) | Term::App(_, _) | Term::Abs(_, _, _) =>
            PartWithHead {
                part: p,
                head: Head::Form,
            },
    }
}

/// Whether two names are equal once they are numbered as two parts are, and moved as these are.
#[tactic(auto, unfolding(ap_defs::specs::Permutations::name_eq))]
fn same_image(sides: &Sides, left: Plain<'_>, a: Name, right: Plain<'_>, b: Name) -> bool
    requires left { left.base + a.num < left.end }
    requires right { right.base + b.num < right.end }
    ensures { result
        ≡ name_eq (act_name (waiting sides.now.left) (rename_name left.entry.base a))
        (act_name (waiting sides.now.right) (rename_name right.entry.base b)) }
{
    let a = name_within(&sides.left, left, a);
    let b = name_within(&sides.right, right, b);
    a == b
}

/// The rule for the two parts that come next, neither of them a suspension. It leaves abstractions with
/// different binders to another way.
fn moved_forms(sides: &Sides, ahead: &mut Ahead<'_>) -> Turn
    requires left_form { HasForm (plain_term ahead.old.next.left) }
    requires right_form { HasForm (plain_term ahead.old.next.right) }
    ensures turn { (s : list Binding) →
        IsRuleFor (moved_equation sides.now) result ahead.new s s
        (rule_of (moved_equation sides.now) s ahead.old.next) }
    ensures below { (n : ℕ) → AreBelowBoth (moved_equation sides.now) n ahead.old.next →
        IsTurnBelow (moved_equation sides.now) n result ahead.new }
    ensures marks { (s : list Binding) → AreMarksTrue s ahead.old.next →
        AreTurnMarksTrue s result ahead.new }
{
    let pair = ahead.next;
    let PlainPair { left, right } = pair;
    match (left.term, right.term) {
        (Term::Unit, Term::Unit) => Turn::Done,
        (Term::Name(a), Term::Name(b)) => {
            if same_image(sides, left, *a, right, *b) {
                Turn::Done
            } else {
                Turn::Clash
            }
        }
        (Term::Pair(t, v), Term::Pair(u, w)) => {
            ahead.next = terms_of(pair, t, u);
            ahead.later = terms_of(pair, v, w);
            Turn::Both
        }
        (Term::App(f, t), Term::App(g, u)) => {
            if *f == *g {
                ahead.next = terms_of(pair, t, u);
                Turn::On
            } else {
                Turn::Clash
            }
        }
        (Term::Abs(sort, num, t), Term::Abs(other_sort, other_num, u)) => {
            let a = Name {
                sort: *sort,
                num: *num,
            };
            let b = Name {
                sort: *other_sort,
                num: *other_num,
            };
            if same_image(sides, left, a, right, b) {
                ahead.next = terms_of(pair, t, u);
                Turn::On
            } else {
                Turn::Other
            }
        }
        _ => Turn::Clash,
    }
}

/// Whether a variable occurs in a part. One that is known to be ground needs no look.
fn occurrence<'a>(
    alloc: Global,
    store: &Store<'a>,
    x: Var,
    p: Plain<'a>,
) -> Result<Occurrence, Memory>
    requires mark { IsMarkTrue (bindings_of store.now) p }
    ensures found { IfOk result (λ o. does_occur o
        ≡ occurs x (under (bindings_of store.now) (plain_term p.entry))) }
    ensures no_vars { IfOk result (λ o. o ≡ Occurrence.Ground →
        HasNoVars (under (bindings_of store.now) (plain_term p.entry))) }
{
    if p.is_ground {
        return Ok(Occurrence::Ground);
    }
    let c = p.closure(alloc);
    store.occurs(alloc, x, &c)
}

/// Binds an unbound variable to a part on which swappings wait, unless it occurs there. Those that wait on the variable
/// are undone. It is marked where the part is found to be ground.
fn bind_back<'a>(
    alloc: Global,
    store: &mut Store<'a>,
    work: &mut Work<'a>,
    back: &Side,
    x: Var,
    side: &Side,
    p: Plain<'a>,
) -> Result<Turn, Memory>
    requires made { x.num < (present store.old).next }
    requires unbound { IsUnbound (bindings_of store.old) x }
    requires swaps { AreSwapsBelow (present store.old).next (waiting back.now) }
    requires below { IsBelow (present store.old).next (act_term (waiting side.now) (plain_term p)) }
    requires mark { IsMarkTrue (bindings_of store.old) p }
    ensures turn { IfOk result (λ turn. (m : Sides) (f : Ahead) →
        IsRuleFor (moved_equation m) turn f (bindings_of store.old) (bindings_of store.new)
        (unless_occurs x
        (under (bindings_of store.old) (act_term (waiting side.now) (plain_term p.entry)))
        (act_term (inverse (waiting back.now))
        (under (bindings_of store.old) (act_term (waiting side.now) (plain_term p.entry)))))) }
    ensures ahead { IfOk result PutsNothing }
    ensures equations { work.new.equations.items ≡ work.old.equations.items }
    ensures problems { work.new.problems.items ≡ work.old.problems.items }
    ensures goes_on { OnOk result (GoOn (present store.old) work.old (present store.new) work.new) }
    ensures past { IsPrefixOf (versions store.old) (versions store.new) }
    ensures kinds { kinds store.new ≡ kinds store.old }
{
    let found = occurrence(alloc, store, x, p)?;
    if found.occurs() {
        return Ok(Turn::Clash);
    }
    let c = moved_back(alloc, back, side, p)?;
    bind_var(alloc, store, work, x, c, found.is_ground())?;
    Ok(Turn::Done)
}

/// The rule for the two parts that come next, with these heads, once bindings there are followed.
fn by_moved_heads<'a>(
    alloc: Global,
    store: &mut Store<'a>,
    work: &mut Work<'a>,
    sides: &Sides,
    ahead: &mut Ahead<'a>,
    left: Head,
    right: Head,
) -> Result<Turn, Memory>
    requires left { IsHead (bindings_of store.old) (plain_term ahead.old.next.left) left }
    requires right { IsHead (bindings_of store.old) (plain_term ahead.old.next.right) right }
    requires below { AreBelowBoth (moved_equation sides.now) (present store.old).next
        ahead.old.next }
    requires marks { AreMarksTrue (bindings_of store.old) ahead.old.next }
    ensures turn { IfOk result (λ turn. IsRuleFor (moved_equation sides.now) turn ahead.new
        (bindings_of store.old) (bindings_of store.new)
        (rule_of (moved_equation sides.now) (bindings_of store.old) ahead.old.next)) }
    ensures below { IfOk result (λ turn.
        IsTurnBelow (moved_equation sides.now) (present store.old).next turn ahead.new) }
    ensures marks { IfOk result (λ turn.
        AreTurnMarksTrue (bindings_of store.new) turn ahead.new) }
    ensures equations { work.new.equations.items ≡ work.old.equations.items }
    ensures problems { work.new.problems.items ≡ work.old.problems.items }
    ensures goes_on { OnOk result (GoOn (present store.old) work.old (present store.new) work.new) }
    ensures past { IsPrefixOf (versions store.old) (versions store.new) }
    ensures kinds { kinds store.new ≡ kinds store.old }
{
    match (left, right) {
        (Head::Form, Head::Form) => Ok(moved_forms(sides, ahead)),
        (Head::Free(x), Head::Form) => bind_back(
            alloc,
            store,
            work,
            &sides.left,
            x,
            &sides.right,
            ahead.next.right,
        ),
        (Head::Form, Head::Free(y)) => bind_back(
            alloc,
            store,
            work,
            &sides.right,
            y,
            &sides.left,
            ahead.next.left,
        ),
        _ => Ok(Turn::Other),
    }
}

/// The rule for the two parts that come next, if there is one that leaves the swappings as they are. What comes
/// after it is put in their place.
pub fn step_moved<'a>(
    alloc: Global,
    store: &mut Store<'a>,
    work: &mut Work<'a>,
    sides: &Sides,
    ahead: &mut Ahead<'a>,
) -> Result<Turn, Memory>
    requires below { AreBelowBoth (moved_equation sides.now) (present store.old).next
        ahead.old.next }
    requires marks { AreMarksTrue (bindings_of store.old) ahead.old.next }
    ensures turn { IfOk result (λ turn. IsRuleFor (moved_equation sides.now) turn ahead.new
        (bindings_of store.old) (bindings_of store.new)
        (rule_of (moved_equation sides.now) (bindings_of store.old) ahead.old.next)) }
    ensures below { IfOk result (λ turn.
        IsTurnBelow (moved_equation sides.now) (present store.old).next turn ahead.new) }
    ensures marks { IfOk result (λ turn.
        AreTurnMarksTrue (bindings_of store.new) turn ahead.new) }
    ensures equations { work.new.equations.items ≡ work.old.equations.items }
    ensures problems { work.new.problems.items ≡ work.old.problems.items }
    ensures goes_on { OnOk result (GoOn (present store.old) work.old (present store.new) work.new) }
    ensures past { IsPrefixOf (versions store.old) (versions store.new) }
    ensures kinds { kinds store.new ≡ kinds store.old }
{
    let left = head_within(store, ahead.next.left);
    let right = head_within(store, ahead.next.right);
    ahead.next = PlainPair {
        left: left.part,
        right: right.part,
    };
    by_moved_heads(alloc, store, work, sides, ahead, left.head, right.head)
}
