// What comes first, and the symbols after it.
ghost use Rattle.std.specs.Prelude.{◌≡◌, ◌<◌, length, IfSome};
ghost use Rattle.std.specs.Option.{option_map};
ghost use Rattle.ap_trees.specs.Symbols.{syms};
ghost use Rattle.ap_syntax.specs.Marks as spec;

use ap_trees::{Symbol, after_open};

/// The symbols after `;`, if it comes first.
pub fn after_semicolon<'a, 's>(symbols: &'s [Symbol<'a>]) -> Option<&'s [Symbol<'a>]>
    ensures value { option_map (λ r. syms r.now) result ≡ spec.after_semicolon (syms symbols.now) }
    ensures shorter { IfSome result (λ r. length r.now < length symbols.now) }
{
    match symbols {
        [Symbol::Semicolon, rest @ ..] => Some(rest),
        _ => None,
    }
}

/// The symbols after `=`, if it comes first.
pub fn after_equal<'a, 's>(symbols: &'s [Symbol<'a>]) -> Option<&'s [Symbol<'a>]>
    ensures value { option_map (λ r. syms r.now) result ≡ spec.after_equal (syms symbols.now) }
    ensures shorter { IfSome result (λ r. length r.now < length symbols.now) }
{
    match symbols {
        [Symbol::Equal, rest @ ..] => Some(rest),
        _ => None,
    }
}

/// The symbols after `#`, if it comes first.
pub fn after_fresh<'a, 's>(symbols: &'s [Symbol<'a>]) -> Option<&'s [Symbol<'a>]>
    ensures value { option_map (λ r. syms r.now) result ≡ spec.after_fresh (syms symbols.now) }
    ensures shorter { IfSome result (λ r. length r.now < length symbols.now) }
{
    match symbols {
        [Symbol::Fresh, rest @ ..] => Some(rest),
        _ => None,
    }
}

/// The symbols after `new`, if it comes first.
pub fn after_new<'a, 's>(symbols: &'s [Symbol<'a>]) -> Option<&'s [Symbol<'a>]>
    ensures value { option_map (λ r. syms r.now) result ≡ spec.after_new (syms symbols.now) }
    ensures shorter { IfSome result (λ r. length r.now < length symbols.now) }
{
    match symbols {
        [Symbol::New, rest @ ..] => Some(rest),
        _ => None,
    }
}

/// The symbols after `exists`, if it comes first.
pub fn after_exists<'a, 's>(symbols: &'s [Symbol<'a>]) -> Option<&'s [Symbol<'a>]>
    ensures value { option_map (λ r. syms r.now) result ≡ spec.after_exists (syms symbols.now) }
    ensures shorter { IfSome result (λ r. length r.now < length symbols.now) }
{
    match symbols {
        [Symbol::Exists, rest @ ..] => Some(rest),
        _ => None,
    }
}

/// The symbols after `:-`, if it comes first.
pub fn after_if<'a, 's>(symbols: &'s [Symbol<'a>]) -> Option<&'s [Symbol<'a>]>
    ensures value { option_map (λ r. syms r.now) result ≡ spec.after_if (syms symbols.now) }
    ensures shorter { IfSome result (λ r. length r.now < length symbols.now) }
{
    match symbols {
        [Symbol::If, rest @ ..] => Some(rest),
        _ => None,
    }
}

/// The symbols after `?-`, if it comes first.
pub fn after_ask<'a, 's>(symbols: &'s [Symbol<'a>]) -> Option<&'s [Symbol<'a>]>
    ensures value { option_map (λ r. syms r.now) result ≡ spec.after_ask (syms symbols.now) }
    ensures shorter { IfSome result (λ r. length r.now < length symbols.now) }
{
    match symbols {
        [Symbol::Ask, rest @ ..] => Some(rest),
        _ => None,
    }
}

/// The symbols after `->`, if it comes first.
pub fn after_arrow<'a, 's>(symbols: &'s [Symbol<'a>]) -> Option<&'s [Symbol<'a>]>
    ensures value { option_map (λ r. syms r.now) result ≡ spec.after_arrow (syms symbols.now) }
    ensures shorter { IfSome result (λ r. length r.now < length symbols.now) }
{
    match symbols {
        [Symbol::Arrow, rest @ ..] => Some(rest),
        _ => None,
    }
}

/// The symbols after `pred`, if it comes first.
pub fn after_pred<'a, 's>(symbols: &'s [Symbol<'a>]) -> Option<&'s [Symbol<'a>]>
    ensures value { option_map (λ r. syms r.now) result ≡ spec.after_pred (syms symbols.now) }
    ensures shorter { IfSome result (λ r. length r.now < length symbols.now) }
{
    match symbols {
        [Symbol::Pred, rest @ ..] => Some(rest),
        _ => None,
    }
}

/// The symbols after `:`, if it comes first.
pub fn after_colon<'a, 's>(symbols: &'s [Symbol<'a>]) -> Option<&'s [Symbol<'a>]>
    ensures value { option_map (λ r. syms r.now) result ≡ spec.after_colon (syms symbols.now) }
    ensures shorter { IfSome result (λ r. length r.now < length symbols.now) }
{
    match symbols {
        [Symbol::Colon, rest @ ..] => Some(rest),
        _ => None,
    }
}

/// An IDENT that comes first.
pub fn ident<'a, 's>(symbols: &'s [Symbol<'a>]) -> Option<(&'a str, &'s [Symbol<'a>])>
    ensures value { option_map (λ r. (r.0.now, syms r.1.now)) result
        ≡ spec.read_ident (syms symbols.now) }
    ensures shorter { IfSome result (λ r. length r.1.now < length symbols.now) }
{
    match symbols {
        [Symbol::Ident(word), rest @ ..] => Some((word, rest)),
        _ => None,
    }
}

/// A VAR that comes first.
fn var<'a, 's>(symbols: &'s [Symbol<'a>]) -> Option<(&'a str, &'s [Symbol<'a>])>
    ensures value { option_map (λ r. (r.0.now, syms r.1.now)) result
        ≡ spec.read_var (syms symbols.now) }
    ensures shorter { IfSome result (λ r. length r.1.now < length symbols.now) }
{
    match symbols {
        [Symbol::Var(word), rest @ ..] => Some((word, rest)),
        _ => None,
    }
}

/// A VAR other than `_` that comes first.
#[tactic(auto, unfolding(crate::specs::Marks::read_bound))]
pub fn bound<'a, 's>(symbols: &'s [Symbol<'a>]) -> Option<(&'a str, &'s [Symbol<'a>])>
    ensures value { option_map (λ r. (r.0.now, syms r.1.now)) result
        ≡ spec.read_bound (syms symbols.now) }
    ensures shorter { IfSome result (λ r. length r.1.now < length symbols.now) }
{
    let (word, rest) = var(symbols)?;
    if word == "_" {
        return None;
    }
    Some((word, rest))
}

/// An IDENT and `(` that come first.
#[tactic(auto, unfolding(crate::specs::Marks::opened_ident))]
pub fn opened_ident<'a, 's>(symbols: &'s [Symbol<'a>]) -> Option<(&'a str, &'s [Symbol<'a>])>
    ensures { option_map (λ r. (r.0.now, syms r.1.now)) result
        ≡ spec.opened_ident (syms symbols.now) }
{
    let (word, rest) = ident(symbols)?;
    let rest = after_open(rest)?;
    Some((word, rest))
}

/// A VAR other than `_` and `(` that come first.
#[tactic(auto, unfolding(crate::specs::Marks::opened_variable))]
pub fn opened_variable<'a, 's>(symbols: &'s [Symbol<'a>]) -> Option<(&'a str, &'s [Symbol<'a>])>
    ensures { option_map (λ r. (r.0.now, syms r.1.now)) result
        ≡ spec.opened_variable (syms symbols.now) }
{
    let (word, rest) = bound(symbols)?;
    let rest = after_open(rest)?;
    Some((word, rest))
}

/// An IDENT and a colon that come first.
#[tactic(auto, unfolding(crate::specs::Marks::read_declared))]
pub fn declared<'a, 's>(symbols: &'s [Symbol<'a>]) -> Option<(&'a str, &'s [Symbol<'a>])>
    ensures value { option_map (λ r. (r.0.now, syms r.1.now)) result
        ≡ spec.read_declared (syms symbols.now) }
    ensures shorter { IfSome result (λ r. length r.1.now < length symbols.now) }
{
    let (word, rest) = ident(symbols)?;
    let rest = after_colon(rest)?;
    Some((word, rest))
}

/// An IDENT after which nothing is left.
#[tactic(auto, unfolding(crate::specs::Marks::sole_ident))]
pub fn sole_ident<'a>(symbols: &[Symbol<'a>]) -> Option<&'a str>
    ensures { option_map (λ r. r.now) result ≡ spec.sole_ident (syms symbols.now) }
{
    let (word, rest) = ident(symbols)?;
    if rest.is_empty() { Some(word) } else { None }
}
