// The symbols after a mark that comes first.
ghost use Rattle.std.specs.Prelude.{◌≡◌, ◌<◌, length, IfSome};
ghost use Rattle.std.specs.Option.{option_map};
ghost use Rattle.ap_trees.specs.Symbols.{syms};
ghost use Rattle.ap_trees.specs.Readers as spec;

use crate::symbols::Symbol;

/// The symbols after `\\`, if it comes first.
pub fn after_lambda<'a, 's>(symbols: &'s [Symbol<'a>]) -> Option<&'s [Symbol<'a>]>
    ensures value { option_map (λ r. syms r.now) result ≡ spec.after_lambda (syms symbols.now) }
    ensures shorter { IfSome result (λ r. length r.now < length symbols.now) }
{
    match symbols {
        [Symbol::Lambda, rest @ ..] => Some(rest),
        _ => None,
    }
}

/// The symbols after `,`, if it comes first.
pub fn after_comma<'a, 's>(symbols: &'s [Symbol<'a>]) -> Option<&'s [Symbol<'a>]>
    ensures value { option_map (λ r. syms r.now) result ≡ spec.after_comma (syms symbols.now) }
    ensures shorter { IfSome result (λ r. length r.now < length symbols.now) }
{
    match symbols {
        [Symbol::Comma, rest @ ..] => Some(rest),
        _ => None,
    }
}

/// The symbols after `(`, if it comes first.
pub fn after_open<'a, 's>(symbols: &'s [Symbol<'a>]) -> Option<&'s [Symbol<'a>]>
    ensures value { option_map (λ r. syms r.now) result ≡ spec.after_open (syms symbols.now) }
    ensures shorter { IfSome result (λ r. length r.now < length symbols.now) }
{
    match symbols {
        [Symbol::Open, rest @ ..] => Some(rest),
        _ => None,
    }
}

/// The symbols after `)`, if it comes first.
pub fn after_close<'a, 's>(symbols: &'s [Symbol<'a>]) -> Option<&'s [Symbol<'a>]>
    ensures value { option_map (λ r. syms r.now) result ≡ spec.after_close (syms symbols.now) }
    ensures shorter { IfSome result (λ r. length r.now < length symbols.now) }
{
    match symbols {
        [Symbol::Close, rest @ ..] => Some(rest),
        _ => None,
    }
}

/// The symbols after `]`, if it comes first.
pub fn after_close_list<'a, 's>(symbols: &'s [Symbol<'a>]) -> Option<&'s [Symbol<'a>]>
    ensures value { option_map (λ r. syms r.now) result ≡ spec.after_close_list (syms symbols.now) }
    ensures shorter { IfSome result (λ r. length r.now < length symbols.now) }
{
    match symbols {
        [Symbol::CloseList, rest @ ..] => Some(rest),
        _ => None,
    }
}

/// The symbols after `|`, if it comes first.
pub fn after_bar<'a, 's>(symbols: &'s [Symbol<'a>]) -> Option<&'s [Symbol<'a>]>
    ensures value { option_map (λ r. syms r.now) result ≡ spec.after_bar (syms symbols.now) }
    ensures shorter { IfSome result (λ r. length r.now < length symbols.now) }
{
    match symbols {
        [Symbol::Bar, rest @ ..] => Some(rest),
        _ => None,
    }
}
