//! Copies of constructors.

ghost use Rattle.std.specs.Prelude.{◌≡◌, IfOk, map};
ghost use Rattle.ap_defs.specs.Types.{constructor_of, type_of};

use ap_defs::copies::copy_type;
use ap_defs::goals::Constructor;
use ap_defs::lists::List;
use ap_defs::memory::Memory;
use ap_defs::terms::Ty;
use std::alloc::Global;

/// Copies of types.
fn copy_types(alloc: Global, types: &[Ty]) -> Result<Vec<Ty>, Memory>
    ensures { IfOk result (λ v. map type_of v.items ≡ map type_of types.now) }
{
    let mut copied = Vec::new(alloc);
    for ty in types {
        copied.push(copy_type(ty)?)?;
    }
    Ok(copied)
}

/// A copy of a constructor.
fn copy_constructor(alloc: Global, constructor: &Constructor) -> Result<Constructor, Memory>
    ensures { IfOk result (λ c. constructor_of c ≡ constructor_of constructor.now) }
{
    let text = constructor.text.copy(alloc)?;
    let args = copy_types(alloc, constructor.args.items())?;
    Ok(Constructor {
        text,
        args: List::of(args),
        result: constructor.result,
    })
}

/// Copies of constructors.
pub fn copy_constructors(
    alloc: Global,
    constructors: &[Constructor],
) -> Result<Vec<Constructor>, Memory>
    ensures { IfOk result (λ v. map constructor_of v.items ≡ map constructor_of constructors.now) }
{
    let mut copied = Vec::new(alloc);
    for constructor in constructors {
        copied.push(copy_constructor(alloc, constructor)?)?;
    }
    Ok(copied)
}
