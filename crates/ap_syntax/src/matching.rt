// Where a bracket is closed.
ghost use Rattle.std.specs.Prelude.{◌≡◌, ◌<◌, ◌≤◌, ◌+◌, ◌^◌, IfSome, length, drop};
ghost use Rattle.std.specs.Option.{option_map};
ghost use Rattle.ap_trees.specs.Symbols.{sym, syms};
ghost use Rattle.ap_syntax.specs.Matching as spec;

use ap_trees::{Symbol, after_open};

/// How many more brackets are open after a symbol, or `None` where it closes the first.
fn depth_after(depth: usize, symbol: Symbol<'_>) -> Option<usize>
    requires { depth + 1 < 2 ^ 64 }
    ensures value { result ≡ spec.depth_after depth (sym symbol.entry) }
    ensures most { IfSome result (λ next. next ≤ depth + 1) }
{
    match symbol {
        Symbol::Open | Symbol::OpenList => Some(depth + 1),
        Symbol::Close | Symbol::CloseList => depth.checked_sub(1),
        _ => Some(depth),
    }
}

/// The symbols after the bracket that closes the one before these symbols.
fn after_match<'a, 's>(symbols: &'s [Symbol<'a>]) -> Option<&'s [Symbol<'a>]>
    ensures { option_map (λ r. syms r.now) result ≡ spec.after_match 0 (syms symbols.now) }
{
    let place = close_place(symbols)?;
    Some(&symbols[place + 1..])
}

/// Where the bracket before these symbols is closed.
fn close_place(symbols: &[Symbol<'_>]) -> Option<usize>
    ensures value { option_map (λ place. syms (drop (place + 1) symbols.now)) result
        ≡ spec.after_match 0 (syms symbols.now) }
    ensures inside { IfSome result (λ place. place < length symbols.now) }
{
    let mut depth = 0;
    for (place, symbol) in symbols.iter().enumerate() {
        let Some(next) = depth_after(depth, *symbol) else {
            return Some(place);
        };
        depth = next;
    }
    None
}

/// Whether `=` or `#` comes first.
fn begins_relation(symbols: &[Symbol<'_>]) -> bool
    ensures { result ≡ spec.begins_relation (syms symbols.now) }
{
    matches!(symbols, [Symbol::Equal | Symbol::Fresh, ..])
}

/// Whether the `(` before these symbols begins a term.
fn begins_term(symbols: &[Symbol<'_>]) -> bool
    ensures { result ≡ spec.begins_term (syms symbols.now) }
{
    match after_match(symbols) {
        Some(rest) => begins_relation(rest),
        None => false,
    }
}

/// The symbols after a `(` that begins a goal in parentheses.
#[tactic(auto, unfolding(crate::specs::Matching::after_group))]
pub fn after_group<'a, 's>(symbols: &'s [Symbol<'a>]) -> Option<&'s [Symbol<'a>]>
    ensures value { option_map (λ r. syms r.now) result ≡ spec.after_group (syms symbols.now) }
    ensures shorter { IfSome result (λ r. length r.now < length symbols.now) }
{
    let rest = after_open(symbols)?;
    if begins_term(rest) { None } else { Some(rest) }
}
