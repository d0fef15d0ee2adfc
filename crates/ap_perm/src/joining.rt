//! Lists of swappings in a row, and names whose numbers become higher.

ghost use Rattle.std.specs.Prelude.{◌≡◌, ◌+◌, ◌<◌, ◌^◌, ◌++◌, IfOk, map};
ghost use Rattle.ap_defs.specs.Renaming.{AreSwapsBelow, rename_name, rename_swap};

use ap_defs::memory::Memory;
use ap_defs::terms::{Name, Swap};
use std::alloc::Global;

/// A copy of a list of swappings. An empty one, as nearly all are, takes no time.
pub fn copied(alloc: Global, p: &[Swap]) -> Result<Vec<Swap>, Memory>
    ensures { IfOk result (λ r. r.items ≡ p.now) }
{
    if p.is_empty() {
        return Ok(Vec::new(alloc));
    }
    let copied = p.to_vec(alloc)?;
    Ok(copied)
}

/// One list of swappings, and then the other. Memory is asked for once.
pub fn joined(alloc: Global, p: &[Swap], q: &[Swap]) -> Result<Vec<Swap>, Memory>
    ensures { IfOk result (λ r. r.items ≡ p.now ++ q.now) }
{
    let mut joined = Vec::with_capacity(alloc, p.len().saturating_add(q.len()))?;
    joined.extend_from_slice(p)?;
    joined.extend_from_slice(q)?;
    Ok(joined)
}

/// A list of swappings, and then the other, with its numbers higher by `base`.
pub fn with_numbered(mut p: Vec<Swap>, base: u64, q: &[Swap]) -> Result<Vec<Swap>, Memory>
    requires { AreSwapsBelow (2 ^ 64) (map (rename_swap base) q.now) }
    ensures { IfOk result (λ r. r.items ≡ p.items ++ map (rename_swap base) q.now) }
{
    for s in q {
        p.push(Swap {
            sort: s.sort,
            left: base + s.left,
            right: base + s.right,
        })?;
    }
    Ok(p)
}

/// The name with its number higher by `base`. It takes no memory.
pub fn numbered(base: u64, a: Name) -> Name
    requires { base + a.num < 2 ^ 64 }
    ensures { result ≡ rename_name base a }
{
    Name {
        sort: a.sort,
        num: base + a.num,
    }
}
