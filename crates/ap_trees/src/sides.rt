// The two sides of a swapping.
ghost use Rattle.std.specs.Prelude.{◌≡◌};
ghost use Rattle.std.specs.Option.{option_map};
ghost use Rattle.ap_trees.specs.Symbols.{syms};
ghost use Rattle.ap_trees.specs.TermReader as spec;
ghost use Rattle.ap_trees.specs.Trees.{name_of_binder};

use crate::cursor::{after_comma, after_open};
use crate::symbols::Symbol;
use crate::trees::{Binder, Sides};

/// An identifier that comes first, and the symbols after it.
fn id<'a, 's>(symbols: &'s [Symbol<'a>]) -> Option<(Binder<'a>, &'s [Symbol<'a>])>
    ensures { option_map (λ r. (name_of_binder r.0, syms r.1.now)) result
        ≡ spec.read_id (syms symbols.now) }
{
    match symbols {
        [Symbol::Ident(word), rest @ ..] => Some((Binder::Word(word), rest)),
        [Symbol::Var(word), rest @ ..] => Some((Binder::Var(word), rest)),
        _ => None,
    }
}

/// An identifier and a comma that come first, and the symbols after them.
#[tactic(auto, unfolding(crate::specs::TermReader::side))]
fn side<'a, 's>(symbols: &'s [Symbol<'a>]) -> Option<(Binder<'a>, &'s [Symbol<'a>])>
    ensures { option_map (λ r. (name_of_binder r.0, syms r.1.now)) result
        ≡ spec.side (syms symbols.now) }
{
    let (name, rest) = id(symbols)?;
    let rest = after_comma(rest)?;
    Some((name, rest))
}

/// The two sides of a swapping, behind `swap`, and the symbols after the comma of the second.
#[tactic(auto, unfolding(crate::specs::TermReader::both_sides))]
pub(crate) fn sides<'a, 's>(symbols: &'s [Symbol<'a>]) -> Option<(Sides<'a>, &'s [Symbol<'a>])>
    ensures { option_map (λ r. (
      (name_of_binder r.0.left, name_of_binder r.0.right),
      syms r.1.now,
    )) result ≡ spec.both_sides (syms symbols.now) }
{
    let rest = after_open(symbols)?;
    let (left, rest) = side(rest)?;
    let (right, rest) = side(rest)?;
    Some((Sides { left, right }, rest))
}
