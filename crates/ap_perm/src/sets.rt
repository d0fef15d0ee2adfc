//! Sets of conditions.

ghost use Rattle.std.specs.Prelude.{◌≡◌, IsPermutation, []};
ghost use Rattle.std.specs.Ordering.{is_lt};
ghost use Rattle.ap_defs.specs.Freshness.{add_conds, cond_before};

use ap_defs::terms::Cond;
use std::cmp::Ordering;

/// Whether a condition comes before another one: by the variable, then by the number of the name,
/// and then by its sort.
fn is_before(c: &Cond, d: &Cond) -> bool
    ensures { result ≡ cond_before c.now d.now }
{
    (c.var, c.name.num, c.name.sort) < (d.var, d.name.num, d.name.sort)
}

/// How two conditions stand to one another.
fn compare(c: &Cond, d: &Cond) -> Ordering
    ensures { is_lt result ≡ cond_before c.now d.now }
{
    if is_before(c, d) {
        Ordering::Less
    } else if is_before(d, c) {
        Ordering::Greater
    } else {
        Ordering::Equal
    }
}

/// Whether conditions begin with one before which the last one comes.
fn falls(conds: &[Cond]) -> bool {
    let count = conds.len();
    count > 1 && is_before(&conds[count - 1], &conds[0])
}

/// Turns conditions round that fall, as those do that were put from the last to the first: so most ascend
/// before they are sorted.
fn turn_round(conds: &mut Vec<Cond>)
    ensures { IsPermutation conds.old.items conds.new.items }
{
    if falls(conds) {
        conds.reverse();
    }
}

/// Makes a set of conditions, which ascends. It takes no memory.
pub fn make_set(conds: &mut Vec<Cond>)
    ensures { conds.new.items ≡ add_conds conds.old.items [] }
{
    turn_round(conds);
    conds.sort_unstable_by(|c, d| compare(c, d));
    conds.dedup();
}
