//! Verdicts on conclusions.

ghost use Rattle.std.specs.Prelude.{◌≡◌};
ghost use Rattle.ap_defs.specs.Answers.{out_of, outs_of};
ghost use Rattle.ap_defs.specs.Lines.{is_found};
ghost use Rattle.ap_property.specs.Verdicts as spec;

use ap_defs::paths::Out;

/// What is known of a conclusion: it has no ground proof, it has an answer, or neither.
#[derive(Clone, Copy)]
pub enum Verdict {
    Refuted,
    Held,
    Open,
}

/// Whether an output is an answer.
fn is_found(out: &Out) -> bool
    ensures { result ≡ is_found (out_of out.now) }
{
    match out {
        Out::Found(_path, _answer) => true,
        Out::Cut(_path) => false,
        Out::Stuck(_path) => false,
    }
}

/// Whether an answer is among outputs.
fn has_answer(outs: &[Out]) -> bool
    ensures { result ≡ spec.has_answer (outs_of outs.now) }
{
    let mut rest = outs;
    'looking: while let Some((out, others)) = rest.split_first() {
        if is_found(out) {
            return true;
        }
        rest = others;
    }
    false
}

/// The verdict by the outputs of a conclusion.
pub fn verdict_of(outs: &[Out]) -> Verdict
    ensures { result ≡ spec.verdict_of_outs (outs_of outs.now) }
{
    if outs.is_empty() {
        return Verdict::Refuted;
    }
    if has_answer(outs) {
        Verdict::Held
    } else {
        Verdict::Open
    }
}
