//! The rules of a node, each as a test.

ghost use Rattle.std.specs.Prelude.{◌≡◌, IfOk};
ghost use Rattle.ap_checks.specs.Checks.{are_different, is_fresh};
ghost use Rattle.ap_judge.specs.Closures.{scoped_term};

use ap_defs::memory::Memory;
use ap_defs::terms::Name;
use ap_judge::closures::{Closure, Head, head_at};
use ap_judge::freshness::is_fresh_at;
use ap_judge::index::IndexedAnswer;
use std::alloc::Global;
use std::collections::BTreeSet;

/// Whether no two of the names are one.
pub(crate) fn all_differ(alloc: Global, names: &[Name]) -> Result<bool, Memory>
    ensures { IfOk result (λ yes. yes ≡ are_different names.now) }
{
    let mut seen = BTreeSet::new(alloc);
    for i in (0..names.len()).rev() {
        if !seen.insert((names[i].sort, names[i].num))? {
            return Ok(false);
        }
    }
    Ok(true)
}

/// Whether the left side is a name that is fresh for the right side under the conditions.
pub(crate) fn is_name_fresh(
    alloc: Global,
    answer: &IndexedAnswer<'_>,
    left: Closure<'_>,
    right: Closure<'_>,
) -> Result<bool, Memory>
    ensures { IfOk result (λ yes. yes ≡
        is_fresh answer.now.conds (scoped_term left.entry) (scoped_term right.entry)) }
{
    match head_at(alloc, &left)? {
        Head::Name(a) => is_fresh_at(alloc, answer, a, right),
        _ => Ok(false),
    }
}
