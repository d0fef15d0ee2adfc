//! Derivations without variables and conditions.
//!
//! Each walk goes on along what is last in a term or a derivation, and calls itself on left parts alone. None
//! takes memory.

ghost use Rattle.std.specs.Prelude.{◌≡◌, map};
ghost use Rattle.std.specs.List.{list_all};
ghost use Rattle.ap_bundle.specs.Bundles.{proved_of};
ghost use Rattle.ap_defs.specs.Answers.{answer_of};
ghost use Rattle.ap_defs.specs.Derivations.{derivation_of};
ghost use Rattle.ap_defs.specs.Terms.{term_of};
ghost use Rattle.ap_cover.specs.Ground as spec;

use ap_defs::outcomes::{Answer, Derivation, Proved};
use ap_defs::terms::Term;

/// Whether no variable stands in a term.
fn is_ground_term(t: &Term) -> bool
    ensures { result ≡ spec.is_ground_term (term_of t.now) }
{
    let mut rest = t;
    loop {
        match rest {
            Term::Unit | Term::Name(_) => return true,
            Term::Susp(_, _) => return false,
            Term::Pair(left, right) => {
                if !is_ground_term(left) {
                    return false;
                }
                rest = right;
            }
            Term::App(_, argument) => rest = argument,
            Term::Abs(_, _, body) => rest = body,
        }
    }
}

/// Whether none stands in any of some terms.
fn are_ground(terms: &[Term]) -> bool
    ensures { result ≡ list_all spec.is_ground_term (map term_of terms.now) }
{
    'looking: for t in terms {
        if !is_ground_term(t) {
            return false;
        }
    }
    true
}

/// Whether none stands in a derivation.
fn is_ground_derivation(derivation: &Derivation) -> bool
    ensures { result ≡ spec.is_ground_derivation (derivation_of derivation.now) }
{
    let mut rest = derivation;
    loop {
        match rest {
            Derivation::Eq | Derivation::Fresh | Derivation::True => return true,
            Derivation::Atom(used, body) => {
                if !are_ground(used.terms.items()) {
                    return false;
                }
                rest = body;
            }
            Derivation::Both(left, right) => {
                if !is_ground_derivation(left) {
                    return false;
                }
                rest = right;
            }
            Derivation::Left(side) => rest = side,
            Derivation::Right(side) => rest = side,
            Derivation::Exists(t, body) => {
                if !is_ground_term(t) {
                    return false;
                }
                rest = body;
            }
            Derivation::New(_, body) => rest = body,
        }
    }
}

/// Whether an answer has no variables and no conditions, and none stands in its bindings.
fn is_ground_answer(answer: &Answer) -> bool
    ensures { result ≡ spec.is_ground_answer (answer_of answer.now) }
{
    answer.vars.items().is_empty()
        && answer.conds.items().is_empty()
        && are_ground(answer.binds.items())
}

/// Whether a derivation, which is given with its answer, is a ground proof: no suspension stands in either, and
/// the answer has no variables and no conditions. It takes no memory.
pub fn is_ground(proved: &Proved) -> bool
    ensures { result ≡ spec.is_ground (proved_of proved.now) }
{
    is_ground_answer(&proved.answer) && is_ground_derivation(&proved.derivation)
}
