//! What the variables of an answer's terms stand for, beside ground terms.

ghost use Rattle.std.specs.Prelude.{◌≡◌, ◌∷◌, [], ◌++◌, IfOk, OnOk, length, map, true};
ghost use Rattle.std.specs.List.{list_all};
ghost use Rattle.ap_cover.specs.Ground.{ground_terms, is_ground_term};
ghost use Rattle.ap_cover.specs.Matched.{matched_each};
ghost use Rattle.ap_defs.specs.Permutations.{act_name, inverse, swap_of};
ghost use Rattle.ap_defs.specs.Renaming.{replace_names, replace_swap};
ghost use Rattle.ap_defs.specs.Terms.{act_ground, susp, term_of};
ghost use Rattle.ap_defs.specs.Typing.{embedded};
ghost use Rattle.ap_coverer.specs.Matches.{AddsPairs, IsTableOfPairs, ground_term, matched_under};

use crate::acting::moved;
use ap_defs::memory::Memory;
use ap_defs::terms::{Name, Swap, Term, Var};
use ap_instance::picks::Picks;
use ap_perm::swappings::{image, preimage};
use indexmap::IndexSet;
use std::alloc::Global;

/// A swapping with its names replaced by what swappings make of them.
fn replaced(swaps: &[Swap], s: &Swap) -> Swap
    ensures { result ≡ replace_swap swaps.now s.now }
{
    let sort = s.sort;
    let left = image(swaps, Name { sort, num: s.left });
    let right = image(swaps, Name { sort, num: s.right });
    Swap {
        sort,
        left: left.num,
        right: right.num,
    }
}

/// The swappings that undo those of a suspension, whose names are replaced, after those that act, the last of them
/// outermost.
fn undoing(
    alloc: Global,
    swaps: &[Swap],
    waiting: &[Swap],
    acting: &[Swap],
) -> Result<Vec<Swap>, Memory>
    ensures { IfOk result (λ v. v.items
        ≡ inverse (map (replace_swap swaps.now) waiting.now) ++ inverse acting.now) }
{
    let mut all = acting.to_vec(alloc)?;
    for s in waiting {
        all.push(replaced(swaps, s))?;
    }
    all.reverse();
    Ok(all)
}

/// AddsPairs what stands beside a suspension, unless its variable has a term.
fn add_beside(
    alloc: Global,
    undoing: &[Swap],
    x: Var,
    beside: &Term,
    picks: &mut Picks,
) -> Result<(), Memory>
    requires many { length picks.old.vars.keys ≡ length picks.old.terms.items }
    requires closed { is_ground_term (term_of beside.now) ≡ true }
    ensures many { OnOk result (length picks.new.vars.keys ≡ length picks.new.terms.items) }
    ensures added { OnOk result (AddsPairs
        ((x, act_ground undoing.now (ground_term (term_of beside.now))) ∷ []) picks.old picks.new) }
{
    let term = moved(alloc, undoing, beside)?;
    picks.add(x, term)?;
    Ok(())
}

/// Below two binders that of the second is exchanged for the first one's, whose name is replaced.
fn go_below(swaps: &[Swap], a: Name, b: Name, acting: &mut Vec<Swap>) -> Result<(), Memory>
    ensures { OnOk result (acting.new.items ≡ acting.old.items
        ++ swap_of (act_name swaps.now a) (act_name (inverse acting.old.items) b) ∷ []) }
{
    let left = image(swaps, a);
    let right = preimage(acting, b);
    acting.push(Swap {
        sort: left.sort,
        left: left.num,
        right: right.num,
    })?;
    Ok(())
}

/// AddsPairs what the variables of a term, whose names are replaced, stand for beside a ground term on which swappings
/// act, the last of them outermost. It calls itself on left parts of pairs alone.
fn match_term(
    alloc: Global,
    swaps: &[Swap],
    term: &Term,
    acting: &[Swap],
    beside: &Term,
    picks: &mut Picks,
) -> Result<(), Memory>
    requires many { length picks.old.vars.keys ≡ length picks.old.terms.items }
    requires closed { is_ground_term (term_of beside.now) ≡ true }
    ensures many { OnOk result (length picks.new.vars.keys ≡ length picks.new.terms.items) }
    ensures added { OnOk result (AddsPairs (matched_under swaps.now (term_of term.now) acting.now
        (term_of beside.now)) picks.old picks.new) }
{
    let mut inner = acting.to_vec(alloc)?;
    let mut rest = term;
    let mut there = beside;
    'matching: loop {
        match (rest, there) {
            (Term::Susp(waiting, x), _) => {
                let undone = undoing(alloc, swaps, waiting.items(), &inner)?;
                add_beside(alloc, &undone, *x, there, picks)?;
                return Ok(());
            }
            (Term::Pair(left, right), Term::Pair(first, second)) => {
                match_term(alloc, swaps, left, &inner, first, picks)?;
                rest = right;
                there = second;
            }
            (Term::App(_, part), Term::App(_, argument)) => {
                rest = part;
                there = argument;
            }
            (Term::Abs(sort, num, body), Term::Abs(other_sort, other_num, inside)) => {
                let a = Name {
                    sort: *sort,
                    num: *num,
                };
                let b = Name {
                    sort: *other_sort,
                    num: *other_num,
                };
                go_below(swaps, a, b, &mut inner)?;
                rest = body;
                there = inside;
            }
            _ => return Ok(()),
        }
    }
}

/// What the variables of terms, whose names are replaced, stand for beside ground terms, each by its first place.
pub fn match_terms(
    alloc: Global,
    swaps: &[Swap],
    terms: &[Term],
    beside: &[Term],
) -> Result<Picks, Memory>
    requires { list_all is_ground_term (map term_of beside.now) ≡ true }
    ensures { IfOk result (λ p. IsTableOfPairs (matched_each
        (map (replace_names swaps.now) (map term_of terms.now))
        (ground_terms (map term_of beside.now))) p) }
{
    let mut picks = Picks {
        vars: IndexSet::new(alloc),
        terms: Vec::new(alloc),
    };
    let mut rest = terms;
    let mut there = beside;
    'matching: while let Some((term, others)) = rest.split_first() {
        let Some((instance, more)) = there.split_first() else {
            return Ok(picks);
        };
        match_term(alloc, swaps, term, &[], instance, &mut picks)?;
        rest = others;
        there = more;
    }
    Ok(picks)
}
