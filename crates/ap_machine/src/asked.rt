//! What is asked of a search: the identifiers of a query, and how much its answers tell.

ghost use Rattle.ap_machine.specs.FreeVars.{AreFreeVars, free_prop};

use crate::renaming::vars_of_locals;
use ap_defs::goals::Local;
use ap_defs::memory::Memory;
use ap_defs::terms::Var;
use std::alloc::Global;

/// The identifiers of a query, and the free variables among them, which are looked for once. An answer has bindings and
/// conditions alone, or the unbound variables that there are to be seen too.
#[derive(Drop)]
pub struct Asked<'q> {
    pub locals: &'q [Local],
    pub(crate) free: Vec<Var>,
    pub is_alone: bool,
    pub ghost frees: { AreFreeVars locals.now free.items } by { free_prop locals.now free.items },
}

impl<'q> Asked<'q> {
    ghost use Rattle.std.specs.Prelude.{◌≡◌, ◌<◌, ◌^◌, IfOk, length};
    ghost use Rattle.ap_defs.specs.Types.{locals_of};
    ghost use Rattle.ap_machine.specs.Asking.{answer_alone, answering_of};
    ghost use Rattle.ap_machine.specs.Unbound.{answer_by_unbound};

    /// Answers are asked for with all that there is to be seen.
    pub fn of(alloc: Global, locals: &'q [Local]) -> Result<Asked<'q>, Memory>
        requires { length locals.now < 2 ^ 64 }
        ensures { IfOk result (λ a. answering_of a ≡ answer_by_unbound (locals_of locals.now)) }
    {
        let free = vars_of_locals(alloc, 0, locals)?;
        Ok(Asked {
            locals,
            free,
            is_alone: false,
        })
    }

    /// Bindings and conditions alone are asked for.
    pub fn alone(alloc: Global, locals: &'q [Local]) -> Result<Asked<'q>, Memory>
        requires { length locals.now < 2 ^ 64 }
        ensures { IfOk result (λ a. answering_of a ≡ answer_alone (locals_of locals.now)) }
    {
        let free = vars_of_locals(alloc, 0, locals)?;
        Ok(Asked {
            locals,
            free,
            is_alone: true,
        })
    }
}
