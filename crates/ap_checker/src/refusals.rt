//! The first derivation that is refused of those that are given with their answers.

ghost use Rattle.std.specs.Prelude.{◌≡◌, IfOk, map};
ghost use Rattle.std.specs.Option.{option_map};
ghost use Rattle.ap_defs.specs.Goals.{program_of};
ghost use Rattle.ap_bundle.specs.Bundles.{proved_of};
ghost use Rattle.ap_checker.specs.Refusals.{refusal_of};
ghost use Rattle.ap_checker.specs.Rules.{verdict_said};
ghost use Rattle.ap_shared.specs.SharedViews.{shared_proved};
ghost use Rattle.ap_verdicts.specs.Verdicts.{first_refused, verdict_on_proved};

use crate::verify::verify;
use ap_defs::memory::Memory;
use ap_defs::outcomes::{Proved, Verdict};
use ap_program::restricted::Restricted;
use ap_shared::derivations::SharedProved;
use ap_shared::sharing::shared;
use std::alloc::Global;

/// A derivation that is refused: its number in the bundle, from 1, its first refused node, and the rule.
#[derive(Clone, Copy)]
pub struct Refusal {
    pub number: usize,
    pub node: u64,
    pub rule: u32,
}

/// The verdict on a derivation over a table, which is given with its answer.
fn verdict_on_shared(
    alloc: Global,
    program: &Restricted,
    proved: &SharedProved,
) -> Result<Verdict, Memory>
    ensures { IfOk result (λ v. verdict_said v
        ≡ verdict_on_proved (program_of program.now) (shared_proved proved.now)) }
{
    let terms = proved.terms.as_ref();
    verify(
        alloc,
        program,
        proved.query,
        terms,
        &proved.answer,
        &proved.derivation,
    )
}

/// The verdict on a derivation, which is given with its answer.
fn verdict_on(alloc: Global, program: &Restricted, proved: &Proved) -> Result<Verdict, Memory>
    ensures { IfOk result (λ v. verdict_said v
        ≡ verdict_on_proved (program_of program.now) (proved_of proved.now)) }
{
    let found = shared(alloc, proved)?;
    verdict_on_shared(alloc, program, &found)
}

/// The first derivation that is refused.
#[tactic(auto, using(crate::proofs::VerdictLemmas::refused_here, crate::proofs::VerdictLemmas::passed_here))]
pub fn first_refused(
    alloc: Global,
    program: &Restricted,
    proved: &[Proved],
) -> Result<Option<Refusal>, Memory>
    ensures { IfOk result (λ r. option_map refusal_of r
        ≡ first_refused (program_of program.now) 1 (map proved_of proved.now)) }
{
    for i in 0..proved.len() {
        match verdict_on(alloc, program, &proved[i])? {
            Verdict::Yes => {}
            Verdict::No { node, rule } => {
                return Ok(Some(Refusal {
                    number: i + 1,
                    node,
                    rule,
                }));
            }
        }
    }
    Ok(None)
}

/// The first derivation over a table that is refused.
#[tactic(auto, using(crate::proofs::VerdictLemmas::shared_refused_here, crate::proofs::VerdictLemmas::shared_passed_here))]
pub fn first_shared_refused(
    alloc: Global,
    program: &Restricted,
    proved: &[SharedProved],
) -> Result<Option<Refusal>, Memory>
    ensures { IfOk result (λ r. option_map refusal_of r
        ≡ first_refused (program_of program.now) 1 (map shared_proved proved.now)) }
{
    for i in 0..proved.len() {
        match verdict_on_shared(alloc, program, &proved[i])? {
            Verdict::Yes => {}
            Verdict::No { node, rule } => {
                let number = i + 1;
                return Ok(Some(Refusal { number, node, rule }));
            }
        }
    }
    Ok(None)
}
