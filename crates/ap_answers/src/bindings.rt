//! The bindings that are shown.

ghost use Rattle.std.specs.Prelude.{◌≡◌, ℕ, List, [], ◌∷◌, ◌++◌, map, IfOk, OnOk};
ghost use Rattle.ap_defs.specs.Terms.{term_of};
ghost use Rattle.ap_defs.specs.Types.{local_of, locals_of};
ghost use Rattle.ap_defs.specs.Lines.{var_texts, shown_binds};
ghost use Rattle.ap_answers.specs.Bindings.{binds_of, with_text};

use crate::locals::is_variable;
use ap_defs::goals::Local;
use ap_defs::lists::Text;
use ap_defs::memory::Memory;
use ap_defs::terms::Term;
use std::alloc::Global;

/// A binding that is shown: the variable's spelling, and its term.
#[derive(Clone, Copy)]
pub struct Binding<'a> {
    pub text: &'a Text,
    pub term: &'a Term,
}

/// Keeps a binding, unless its variable is `_`.
fn keep<'a>(binds: &mut Vec<Binding<'a>>, text: &'a Text, term: &'a Term) -> Result<(), Memory>
    ensures { OnOk result (binds_of binds.new.items
        ≡ binds_of binds.old.items ++ shown_binds (text.now ∷ []) (term_of term.now ∷ [])) }
{
    if text.as_str() != "_" {
        binds.push(Binding { text, term })?;
    }
    Ok(())
}

/// Keeps the binding of an identifier that is a free variable, to the first of the terms that are left, and gives those
/// behind it; any other identifier takes none.
#[tactic(auto, using(crate::proofs::BindingLemmas::kept_shown, crate::proofs::BindingLemmas::none_shown, crate::proofs::BindingLemmas::left_shown))]
fn keep_local<'a>(
    binds: &mut Vec<Binding<'a>>,
    local: &'a Local,
    terms: &'a [Term],
) -> Result<&'a [Term], Memory>
    ensures { IfOk result (λ rest. (ws : List (List ℕ)) →
        binds_of binds.new.items ++ shown_binds ws (map term_of rest.now)
        ≡ binds_of binds.old.items ++ shown_binds (with_text (local_of local.now) ws)
        (map term_of terms.now)) }
{
    if !is_variable(local) {
        return Ok(terms);
    }
    match terms.split_first() {
        None => Ok(terms),
        Some((term, rest)) => {
            keep(binds, local.text.text(), term)?;
            Ok(rest)
        }
    }
}

/// The bindings of variables other than `_`.
pub fn shown_bindings<'a>(
    alloc: Global,
    locals: &'a [Local],
    terms: &'a [Term],
) -> Result<Vec<Binding<'a>>, Memory>
    ensures { IfOk result (λ binds. binds_of binds.items
        ≡ shown_binds (var_texts (locals_of locals.now)) (map term_of terms.now)) }
{
    let mut binds = Vec::new(alloc);
    let mut rest = terms;
    for local in locals {
        rest = keep_local(&mut binds, local, rest)?;
    }
    Ok(binds)
}
