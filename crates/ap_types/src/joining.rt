//! Places of a table that become alike.

ghost use Rattle.std.specs.Prelude.{◌≡◌, ◌<◌, ◌≤◌, ◌+◌, ◌*◌, ◌++◌, ◌∷◌, [], length, true, Some, None, MatchOption, IfOk, IfErr};
ghost use Rattle.ap_types.specs.Solving.{shape_at};
ghost use Rattle.ap_types.specs.Triangular.{shapes_of_nodes, AreFormed};
ghost use Rattle.ap_types.specs.Joining.{link, is_root, roots, Rewrites, Shortens, FindsRoot, parts, pairs_of, fuller, Joins, NeverAlike, ArePairsWithin, TablesLead, NeverAgree};

use crate::errors::TypesError;
use crate::loading::Loaded;
use crate::nodes::Node;
use ap_defs::memory::Memory;

/// The pairs of places that are left after two places were joined.
#[derive(Clone, Copy)]
pub(crate) enum Rest {
    Nothing,
    One((usize, usize)),
    Two((usize, usize), (usize, usize)),
}

/// The place that stands for one, or itself.
pub(crate) fn link_of(nodes: &[Node], x: usize) -> usize
    requires { x < length nodes.now }
    ensures { result ≡ link x (shape_at (shapes_of_nodes nodes.now) x) }
{
    match nodes[x] {
        Node::Place(y) => y,
        _ => x,
    }
}

/// Makes the place that stands for one stand for that which it stands for itself, and gives it.
fn shorten(nodes: &mut [Node], x: usize) -> usize
    requires formed { AreFormed (shapes_of_nodes nodes.old) }
    requires within { x < length nodes.old }
    ensures { Shortens (shapes_of_nodes nodes.old) x (shapes_of_nodes nodes.new) result }
{
    let next = link_of(nodes, x);
    if next == x {
        return x;
    }
    let after = link_of(nodes, next);
    nodes[x] = Node::Place(after);
    after
}

/// The root that stands for a place; the links on the way to it become shorter.
fn root_of(nodes: &mut [Node], x: usize) -> usize
    requires formed { AreFormed (shapes_of_nodes nodes.old) }
    requires within { x < length nodes.old }
    ensures { FindsRoot (shapes_of_nodes nodes.old) x (shapes_of_nodes nodes.new) result }
{
    let mut at = x;
    let mut next = shorten(nodes, at);
    'links: while next != at {
        at = next;
        next = shorten(nodes, at);
    }
    at
}

/// Shortens the links of all places, so that each is one of a root.
pub(crate) fn shorten_all(nodes: &mut [Node])
    requires { AreFormed (shapes_of_nodes nodes.old) }
    ensures { Rewrites (shapes_of_nodes nodes.old) (shapes_of_nodes nodes.new) }
{
    for x in 0..nodes.len() {
        shorten(nodes, x);
    }
}

/// What makes two entries of roots the same, if anything does.
fn rest_of(keep: Node, gone: Node) -> Option<Rest>
    ensures { MatchOption result (parts keep gone ≡ None) (λ r. parts keep gone
        ≡ Some (pairs_of r)) }
{
    match keep {
        Node::Place(_) => Some(Rest::Nothing),
        Node::Unit => match gone {
            Node::Place(_) | Node::Unit => Some(Rest::Nothing),
            _ => None,
        },
        Node::Names(sort) => rest_of_names(sort, gone),
        Node::Base(base) => rest_of_base(base, gone),
        Node::Pair(x, y) => match gone {
            Node::Place(_) => Some(Rest::Nothing),
            Node::Pair(v, w) => Some(Rest::Two((x, v), (y, w))),
            _ => None,
        },
        Node::List(x) => match gone {
            Node::Place(_) => Some(Rest::Nothing),
            Node::List(v) => Some(Rest::One((x, v))),
            _ => None,
        },
        Node::Abs(x, y) => match gone {
            Node::Place(_) => Some(Rest::Nothing),
            Node::Abs(v, w) => Some(Rest::Two((x, v), (y, w))),
            _ => None,
        },
    }
}

/// The same for a name type.
fn rest_of_names(sort: u32, gone: Node) -> Option<Rest>
    ensures { MatchOption result (parts (Node.Names sort) gone ≡ None) (λ r. parts (Node.Names sort)
        gone ≡ Some (pairs_of r)) }
{
    match gone {
        Node::Place(_) => Some(Rest::Nothing),
        Node::Names(other) => {
            if sort == other {
                Some(Rest::Nothing)
            } else {
                None
            }
        }
        _ => None,
    }
}

/// The same for a data type.
fn rest_of_base(base: u32, gone: Node) -> Option<Rest>
    ensures { MatchOption result (parts (Node.Base base) gone ≡ None) (λ r. parts (Node.Base base)
        gone ≡ Some (pairs_of r)) }
{
    match gone {
        Node::Place(_) => Some(Rest::Nothing),
        Node::Base(other) => {
            if base == other {
                Some(Rest::Nothing)
            } else {
                None
            }
        }
        _ => None,
    }
}

/// The entry of the two that says more.
fn fuller(keep: Node, gone: Node) -> Node
    ensures { result ≡ fuller keep gone }
{
    match keep {
        Node::Place(_) => match gone {
            Node::Place(_) => keep,
            _ => gone,
        },
        _ => keep,
    }
}

/// Joins two roots, of which the first is to stay one, and gives the pairs that are left; None where
/// nothing makes them alike.
fn join_roots(nodes: &mut [Node], keep: usize, gone: usize) -> Option<Rest>
    requires formed { AreFormed (shapes_of_nodes nodes.old) }
    requires order { keep < gone }
    requires within { gone < length nodes.old }
    requires kept { is_root keep (shape_at (shapes_of_nodes nodes.old) keep) ≡ true }
    requires joined { is_root gone (shape_at (shapes_of_nodes nodes.old) gone) ≡ true }
    ensures { MatchOption result (NeverAlike (shapes_of_nodes nodes.old) keep gone) (λ r. Joins
        (shapes_of_nodes nodes.old) keep gone (shapes_of_nodes nodes.new) (pairs_of r)) }
{
    let first = nodes[keep];
    let second = nodes[gone];
    match rest_of(first, second) {
        None => None,
        Some(rest) => {
            nodes[keep] = fuller(first, second);
            nodes[gone] = Node::Place(keep);
            Some(rest)
        }
    }
}

/// Joins two places, and gives the pairs that are left; None where nothing makes them alike.
fn join(nodes: &mut [Node], x: usize, y: usize) -> Option<Rest>
    requires formed { AreFormed (shapes_of_nodes nodes.old) }
    requires left { x < length nodes.old }
    requires right { y < length nodes.old }
    ensures { MatchOption result (NeverAlike (shapes_of_nodes nodes.old) x y) (λ r. Joins
        (shapes_of_nodes nodes.old) x y (shapes_of_nodes nodes.new) (pairs_of r)) }
{
    let left = root_of(nodes, x);
    let right = root_of(nodes, y);
    if left == right {
        return Some(Rest::Nothing);
    }
    if left < right {
        join_roots(nodes, left, right)
    } else {
        join_roots(nodes, right, left)
    }
}

/// Pairs with those that are left of one.
fn with_rest(pairs: Vec<(usize, usize)>, rest: Rest) -> Result<Vec<(usize, usize)>, Memory>
    ensures { IfOk result (λ v. v.items ≡ pairs.items ++ pairs_of rest) }
{
    let mut more = pairs;
    match rest {
        Rest::Nothing => {}
        Rest::One(p) => more.push(p)?,
        Rest::Two(p, q) => {
            more.push(p)?;
            more.push(q)?;
        }
    }
    Ok(more)
}

/// The table and pairs after one more pair was joined.
fn advance(loaded: Loaded, x: usize, y: usize) -> Result<Loaded, TypesError>
    requires formed { AreFormed (shapes_of_nodes loaded.nodes.items) }
    requires left { x < length loaded.nodes.items }
    requires right { y < length loaded.nodes.items }
    requires within { ArePairsWithin (length loaded.nodes.items) loaded.pairs.items }
    ensures ok { IfOk result (λ l. TablesLead (shapes_of_nodes loaded.nodes.items)
        (loaded.pairs.items ++ (x, y) ∷ []) (shapes_of_nodes l.nodes.items) l.pairs.items) }
    ensures fewer { IfOk result (λ l. length l.pairs.items + 3
        * roots (shapes_of_nodes l.nodes.items)
        ≤ length loaded.pairs.items + 3 * roots (shapes_of_nodes loaded.nodes.items)) }
    ensures clash { IfErr result (λ e. e ≡ TypesError.Clash →
        NeverAlike (shapes_of_nodes loaded.nodes.items) x y) }
{
    let Loaded { mut nodes, pairs } = loaded;
    match join(&mut nodes, x, y) {
        None => Err(TypesError::Clash),
        Some(rest) => {
            let pairs = with_rest(pairs, rest)?;
            Ok(Loaded { nodes, pairs })
        }
    }
}

/// Joins the places of all pairs: unification by the union of equal parts, after Huet.
pub(crate) fn join_all(first: Loaded) -> Result<Vec<Node>, TypesError>
    requires formed { AreFormed (shapes_of_nodes first.nodes.items) }
    requires within { ArePairsWithin (length first.nodes.items) first.pairs.items }
    ensures ok { IfOk result (λ v. TablesLead (shapes_of_nodes first.nodes.items) first.pairs.items
        (shapes_of_nodes v.items) []) }
    ensures clash { IfErr result (λ e. e ≡ TypesError.Clash →
        NeverAgree (shapes_of_nodes first.nodes.items) first.pairs.items) }
{
    let mut loaded = first;
    'steps: while let Some((x, y)) = loaded.pairs.pop() {
        loaded = advance(loaded, x, y)?;
    }
    let Loaded { nodes, pairs: _ } = loaded;
    Ok(nodes)
}
