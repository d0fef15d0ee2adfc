//! The rules for two parts of terms on which no swappings wait.

ghost use Rattle.std.specs.Prelude.{◌≡◌, ◌<◌, ◌+◌, ℕ, List, [], false, true, IfOk, OnOk};
ghost use Rattle.ap_defs.specs.Permutations.{name_eq};
ghost use Rattle.ap_defs.specs.Renaming.{IsBelow, rename_name, rename_term};
ghost use Rattle.ap_defs.specs.Substitution.{Binding, occurs, under};
ghost use Rattle.ap_defs.specs.Terms.{susp, term_of};
ghost use Rattle.ap_defs.specs.declared.terms.Var.{Var as variable};
ghost use Rattle.ap_defs.specs.Unification.{bind, unless_occurs};
ghost use Rattle.ap_store.specs.Likes.{HaveSameVars};
ghost use Rattle.ap_store.specs.Marks.{HasNoVars};
ghost use Rattle.ap_store.specs.Triples.{IsPrefixOf};
ghost use Rattle.ap_store.specs.Views.{bindings_of, kinds, present, versions};
ghost use Rattle.ap_theory.specs.Variables.{IsUnbound};
ghost use Rattle.ap_unify.specs.Parts.{AreBelowBoth, AreMarksTrue, AreTurnMarksTrue, IsHead, IsMarkTrue, IsRuleFor, IsTurnBelow, PutsNothing, parts_equation, rule_of};
ghost use Rattle.ap_equations.specs.Plain.{plain_term};
ghost use Rattle.ap_rules.specs.Work.{GoOn};
ghost use Rattle.ap_store.specs.Heads.{HasForm};
ghost use Rattle.ap_unify.specs.declared.parts.Ahead.{Ahead};

use crate::heads::{Head, headed};
use ap_defs::memory::Memory;
use ap_defs::terms::{Name, Term, Var};
use ap_equations::plain::{Plain, PlainPair};
use ap_equations::work::bind_plain;
use ap_perm::joining::numbered;
use ap_rules::pairs::Work;
use ap_store::occurrences::Occurrence;
use ap_store::store::Store;
use std::alloc::Global;

/// Equations of two parts ahead of the others: the one that comes next, and a place for one after it.
#[derive(Clone, Copy)]
pub struct Ahead<'a> {
    pub next: PlainPair<'a>,
    pub later: PlainPair<'a>,
}

/// How a run goes on after the first equation: there is no solution, or those behind it come next, or
/// what is ahead now, the next one alone or both, or another way has to be taken.
#[derive(Clone, Copy)]
pub enum Turn {
    Clash,
    Done,
    On,
    Both,
    Other,
}

/// Binds an unbound variable to a part in which it does not occur.
#[inline(always)]
fn bind_part<'a>(
    alloc: Global,
    store: &mut Store<'a>,
    work: &mut Work<'a>,
    x: Var,
    p: Plain<'a>,
    found: Occurrence,
) -> Result<Turn, Memory>
    requires made { x.num < (present store.old).next }
    requires unbound { IsUnbound (bindings_of store.old) x }
    requires part { IsBelow (present store.old).next (plain_term p) }
    requires absent { occurs x (under (bindings_of store.old) (plain_term p)) ≡ false }
    requires no_vars { found ≡ Occurrence.Ground →
        HasNoVars (under (bindings_of store.old) (plain_term p)) }
    requires like { (w : variable) → found ≡ Occurrence.Like w → HaveSameVars
        (under (bindings_of store.old) (plain_term p))
        (under (bindings_of store.old) (susp [] w)) }
    ensures turn { IfOk result (λ turn. (f : Ahead) →
        IsRuleFor parts_equation turn f (bindings_of store.old)
        (bindings_of store.new) (bind x (under (bindings_of store.old) (plain_term p.entry)))) }
    ensures ahead { IfOk result PutsNothing }
    ensures equations { work.new.equations.items ≡ work.old.equations.items }
    ensures problems { work.new.problems.items ≡ work.old.problems.items }
    ensures goes_on { OnOk result (GoOn (present store.old) work.old (present store.new) work.new) }
    ensures past { IsPrefixOf (versions store.old) (versions store.new) }
    ensures kinds { kinds store.new ≡ kinds store.old }
{
    bind_plain(alloc, store, work, x, p, found)?;
    Ok(Turn::Done)
}

/// Binds an unbound variable to a part, unless it occurs there. One that is known to be ground needs no look.
#[inline(always)]
fn bind_unless_occurs<'a>(
    alloc: Global,
    store: &mut Store<'a>,
    work: &mut Work<'a>,
    x: Var,
    p: Plain<'a>,
) -> Result<Turn, Memory>
    requires made { x.num < (present store.old).next }
    requires unbound { IsUnbound (bindings_of store.old) x }
    requires part { IsBelow (present store.old).next (plain_term p) }
    requires mark { IsMarkTrue (bindings_of store.old) p }
    ensures turn { IfOk result (λ turn. (f : Ahead) →
        IsRuleFor parts_equation turn f (bindings_of store.old)
        (bindings_of store.new) (unless_occurs x
        (under (bindings_of store.old) (plain_term p.entry))
        (under (bindings_of store.old) (plain_term p.entry)))) }
    ensures ahead { IfOk result PutsNothing }
    ensures equations { work.new.equations.items ≡ work.old.equations.items }
    ensures problems { work.new.problems.items ≡ work.old.problems.items }
    ensures goes_on { OnOk result (GoOn (present store.old) work.old (present store.new) work.new) }
    ensures past { IsPrefixOf (versions store.old) (versions store.new) }
    ensures kinds { kinds store.new ≡ kinds store.old }
{
    if p.is_ground {
        return bind_part(alloc, store, work, x, p, Occurrence::Ground);
    }
    let c = p.closure(alloc);
    let found = store.occurs(alloc, x, &c)?;
    if found.occurs() {
        return Ok(Turn::Clash);
    }
    bind_part(alloc, store, work, x, p, found)
}

/// Of two different variables the one with the greater number is bound.
fn variables<'a>(
    alloc: Global,
    store: &mut Store<'a>,
    work: &mut Work<'a>,
    x: Var,
    y: Var,
    pair: PlainPair<'a>,
) -> Result<Turn, Memory>
    requires left { plain_term pair.left ≡ susp [] x }
    requires right { plain_term pair.right ≡ susp [] y }
    requires left_unbound { IsUnbound (bindings_of store.old) x }
    requires right_unbound { IsUnbound (bindings_of store.old) y }
    requires below { AreBelowBoth parts_equation (present store.old).next pair }
    ensures turn { IfOk result (λ turn. (f : Ahead) →
        IsRuleFor parts_equation turn f (bindings_of store.old)
        (bindings_of store.new) (rule_of parts_equation (bindings_of store.old) pair.entry)) }
    ensures ahead { IfOk result PutsNothing }
    ensures equations { work.new.equations.items ≡ work.old.equations.items }
    ensures problems { work.new.problems.items ≡ work.old.problems.items }
    ensures goes_on { OnOk result (GoOn (present store.old) work.old (present store.new) work.new) }
    ensures past { IsPrefixOf (versions store.old) (versions store.new) }
    ensures kinds { kinds store.new ≡ kinds store.old }
{
    if x.num == y.num {
        Ok(Turn::Done)
    } else if x.num < y.num {
        bind_part(alloc, store, work, y, pair.left, Occurrence::Apart)
    } else {
        bind_part(alloc, store, work, x, pair.right, Occurrence::Apart)
    }
}

/// Whether two names are equal once they are numbered as two parts are.
#[tactic(auto, unfolding(ap_defs::specs::Permutations::name_eq))]
fn same_name(left: Plain<'_>, a: Name, right: Plain<'_>, b: Name) -> bool
    requires left { left.base + a.num < left.end }
    requires right { right.base + b.num < right.end }
    ensures { result ≡ name_eq (rename_name left.entry.base a) (rename_name right.entry.base b) }
{
    // Each `end` fits in a u64, so the sum below it does.
    let _end = left.end;
    let _other_end = right.end;
    numbered(left.base, a) == numbered(right.base, b)
}

/// Parts of two parts, which are numbered as these are, and known to be ground where they are.
pub(crate) fn terms_of<'a>(pair: PlainPair<'a>, left: &'a Term, right: &'a Term) -> PlainPair<'a>
    requires left { IsBelow pair.left.end (rename_term pair.left.base (term_of left.now)) }
    requires right { IsBelow pair.right.end (rename_term pair.right.base (term_of right.now)) }
    ensures left { plain_term result.left
        ≡ rename_term pair.entry.left.base (term_of left.entry.now) }
    ensures right { plain_term result.right
        ≡ rename_term pair.entry.right.base (term_of right.entry.now) }
    ensures left_mark { result.left.is_ground ≡ pair.entry.left.is_ground }
    ensures right_mark { result.right.is_ground ≡ pair.entry.right.is_ground }
{
    PlainPair {
        left: pair.left.with_term(left),
        right: pair.right.with_term(right),
    }
}

/// The rule for the two parts that come next, neither of them a suspension. It leaves abstractions with
/// different binders to another way.
#[inline(always)]
pub(crate) fn forms(ahead: &mut Ahead<'_>) -> Turn
    requires left_form { HasForm (plain_term ahead.old.next.left) }
    requires right_form { HasForm (plain_term ahead.old.next.right) }
    ensures turn { (s : List Binding) →
        IsRuleFor parts_equation result ahead.new s s (rule_of parts_equation s ahead.old.next) }
    ensures below { (n : ℕ) → AreBelowBoth parts_equation n ahead.old.next →
        IsTurnBelow parts_equation n result ahead.new }
    ensures marks { (s : List Binding) → AreMarksTrue s ahead.old.next →
        AreTurnMarksTrue s result ahead.new }
{
    let pair = ahead.next;
    let PlainPair { left, right } = pair;
    match (left.term, right.term) {
        (Term::Unit, Term::Unit) => Turn::Done,
        (Term::Name(a), Term::Name(b)) => {
            if same_name(left, *a, right, *b) {
                Turn::Done
            } else {
                Turn::Clash
            }
        }
        (Term::Pair(t, v), Term::Pair(u, w)) => {
            ahead.next = terms_of(pair, t, u);
            ahead.later = terms_of(pair, v, w);
            Turn::Both
        }
        (Term::App(f, t), Term::App(g, u)) => {
            if *f == *g {
                ahead.next = terms_of(pair, t, u);
                Turn::On
            } else {
                Turn::Clash
            }
        }
        (Term::Abs(sort, num, t), Term::Abs(other_sort, other_num, u)) => {
            let a = Name {
                sort: *sort,
                num: *num,
            };
            let b = Name {
                sort: *other_sort,
                num: *other_num,
            };
            if same_name(left, a, right, b) {
                ahead.next = terms_of(pair, t, u);
                Turn::On
            } else {
                Turn::Other
            }
        }
        _ => Turn::Clash,
    }
}

/// The rule for the two parts that come next, with these heads, once bindings there are followed.
#[inline(always)]
fn by_heads<'a>(
    alloc: Global,
    store: &mut Store<'a>,
    work: &mut Work<'a>,
    ahead: &mut Ahead<'a>,
    left: Head,
    right: Head,
) -> Result<Turn, Memory>
    requires left { IsHead (bindings_of store.old) (plain_term ahead.old.next.left) left }
    requires right { IsHead (bindings_of store.old) (plain_term ahead.old.next.right) right }
    requires below { AreBelowBoth parts_equation (present store.old).next ahead.old.next }
    requires marks { AreMarksTrue (bindings_of store.old) ahead.old.next }
    ensures turn { IfOk result (λ turn. IsRuleFor parts_equation turn ahead.new
        (bindings_of store.old) (bindings_of store.new)
        (rule_of parts_equation (bindings_of store.old) ahead.old.next)) }
    ensures below { IfOk result (λ turn.
        IsTurnBelow parts_equation (present store.old).next turn ahead.new) }
    ensures marks { IfOk result (λ turn.
        AreTurnMarksTrue (bindings_of store.new) turn ahead.new) }
    ensures equations { work.new.equations.items ≡ work.old.equations.items }
    ensures problems { work.new.problems.items ≡ work.old.problems.items }
    ensures goes_on { OnOk result (GoOn (present store.old) work.old (present store.new) work.new) }
    ensures past { IsPrefixOf (versions store.old) (versions store.new) }
    ensures kinds { kinds store.new ≡ kinds store.old }
{
    match (left, right) {
        (Head::Form, Head::Form) => Ok(forms(ahead)),
        (Head::Free(x), Head::Form) => {
            bind_unless_occurs(alloc, store, work, x, ahead.next.right)
        }
        (Head::Form, Head::Free(y)) => bind_unless_occurs(alloc, store, work, y, ahead.next.left),
        (Head::Free(x), Head::Free(y)) => variables(alloc, store, work, x, y, ahead.next),
        _ => Ok(Turn::Other),
    }
}

/// The rule for the two parts that come next, if there is one without swappings. What comes after it is
/// put in their place.
#[inline(always)]
pub fn step_parts<'a>(
    alloc: Global,
    store: &mut Store<'a>,
    work: &mut Work<'a>,
    ahead: &mut Ahead<'a>,
) -> Result<Turn, Memory>
    requires below { AreBelowBoth parts_equation (present store.old).next ahead.old.next }
    requires marks { AreMarksTrue (bindings_of store.old) ahead.old.next }
    ensures turn { IfOk result (λ turn. IsRuleFor parts_equation turn ahead.new
        (bindings_of store.old) (bindings_of store.new)
        (rule_of parts_equation (bindings_of store.old) ahead.old.next)) }
    ensures below { IfOk result (λ turn.
        IsTurnBelow parts_equation (present store.old).next turn ahead.new) }
    ensures marks { IfOk result (λ turn.
        AreTurnMarksTrue (bindings_of store.new) turn ahead.new) }
    ensures equations { work.new.equations.items ≡ work.old.equations.items }
    ensures problems { work.new.problems.items ≡ work.old.problems.items }
    ensures goes_on { OnOk result (GoOn (present store.old) work.old (present store.new) work.new) }
    ensures past { IsPrefixOf (versions store.old) (versions store.new) }
    ensures kinds { kinds store.new ≡ kinds store.old }
{
    let left = headed(store, ahead.next.left);
    let right = headed(store, ahead.next.right);
    ahead.next = PlainPair {
        left: left.part,
        right: right.part,
    };
    by_heads(alloc, store, work, ahead, left.head, right.head)
}
