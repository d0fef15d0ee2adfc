// Terms that are made of their parts, and what closes them.
ghost use Rattle.std.specs.Prelude.{◌≡◌, [], ◌∷◌, vec_len, IfOk};
ghost use Rattle.ap_trees.specs.Outcomes.{GivesPart};
ghost use Rattle.ap_trees.specs.Symbols.{syms};
ghost use Rattle.ap_trees.specs.Terms as trees;
ghost use Rattle.ap_trees.specs.TermReader as spec;
ghost use Rattle.ap_trees.specs.Trees.{term_of, terms_of, trees_of, name_of_binder};

use crate::cursor::{after_close, after_close_list};
use crate::outcome::ReadError;
use crate::symbols::Symbol;
use crate::trees::{Application, Args, Binder, Sides, Tree};
use std::alloc::{AllocError, Global};

/// A term before the `)` that closes it, and what follows that.
pub(crate) fn closed<'a, 's>(
    tree: Tree<'a>,
    symbols: &'s [Symbol<'a>],
) -> Result<(Tree<'a>, &'s [Symbol<'a>]), ReadError>
    ensures { GivesPart (λ r. (term_of r.0, syms r.1.now)) result
        (spec.before_close (term_of tree.entry) (syms symbols.now)) }
{
    match after_close(symbols) {
        Some(rest) => Ok((tree, rest)),
        None => Err(ReadError::Grammar),
    }
}

/// A term before the `]` that closes it, and what follows that.
pub(crate) fn closed_list<'a, 's>(
    tree: Tree<'a>,
    symbols: &'s [Symbol<'a>],
) -> Result<(Tree<'a>, &'s [Symbol<'a>]), ReadError>
    ensures { GivesPart (λ r. (term_of r.0, syms r.1.now)) result
        (spec.before_close_list (term_of tree.entry) (syms symbols.now)) }
{
    match after_close_list(symbols) {
        Some(rest) => Ok((tree, rest)),
        None => Err(ReadError::Grammar),
    }
}

/// One term or more as arguments.
fn arguments<'a>(alloc: Global, mut parts: Vec<Tree<'a>>) -> Result<Args<'a>, AllocError>
    ensures { IfOk result (λ args. terms_of args
        ≡ trees.argument_terms (trees_of parts.entry.items)) }
{
    let Some(last) = parts.pop() else {
        return Ok(Args::Last(Tree::Unit));
    };
    let mut args = Args::Last(last);
    while let Some(part) = parts.pop() {
        args = Args::More(part, Box::new(alloc, args)?);
    }
    Ok(args)
}

/// The tuple of one term or more.
pub(crate) fn tuple<'a>(alloc: Global, mut parts: Vec<Tree<'a>>) -> Result<Tree<'a>, AllocError>
    ensures { IfOk result (λ t. term_of t ≡ trees.tuple (trees_of parts.entry.items)) }
{
    let Some(mut whole) = parts.pop() else {
        return Ok(Tree::Unit);
    };
    while let Some(part) = parts.pop() {
        whole = Tree::Pair(Box::new(alloc, part)?, Box::new(alloc, whole)?);
    }
    Ok(whole)
}

/// A word applied to one term or more.
pub fn applied<'a>(
    alloc: Global,
    word: &'a str,
    parts: Vec<Tree<'a>>,
) -> Result<Tree<'a>, AllocError>
    ensures { IfOk result (λ t. term_of t
        ≡ trees.Apply word.entry.now (trees.argument_terms (trees_of parts.entry.items))) }
{
    let args = arguments(alloc, parts)?;
    let whole = Application::To(word, args);
    Ok(Tree::Apply(Box::new(alloc, whole)?))
}

/// An application of one argument, behind that.
pub(crate) fn sole_application<'a, 's>(
    alloc: Global,
    word: &'a str,
    argument: Tree<'a>,
    symbols: &'s [Symbol<'a>],
) -> Result<(Tree<'a>, &'s [Symbol<'a>]), ReadError>
    ensures { GivesPart (λ r. (term_of r.0, syms r.1.now)) result (spec.before_close
        (trees.Apply word.entry.now (trees.Last (term_of argument.entry))) (syms symbols.now)) }
{
    let args = Args::Last(argument);
    let whole = Box::new(alloc, Application::To(word, args))?;
    closed(Tree::Apply(whole), symbols)
}

/// The list of these terms and of the end.
pub(crate) fn cells<'a>(
    alloc: Global,
    mut parts: Vec<Tree<'a>>,
    end: Tree<'a>,
) -> Result<Tree<'a>, AllocError>
    ensures { IfOk result (λ t. term_of t
        ≡ trees.cells (trees_of parts.entry.items) (term_of end.entry)) }
{
    let mut whole = end;
    while let Some(part) = parts.pop() {
        whole = Tree::Cell(Box::new(alloc, part)?, Box::new(alloc, whole)?);
    }
    Ok(whole)
}

/// The list of one term.
pub(crate) fn sole_list<'a>(alloc: Global, first: Tree<'a>) -> Result<Tree<'a>, AllocError>
    ensures { IfOk result (λ t. term_of t ≡ trees.Cell (term_of first.entry) trees.Nil) }
{
    let head = Box::new(alloc, first)?;
    Ok(Tree::Cell(head, Box::new(alloc, Tree::Nil)?))
}

/// A term under a binder.
pub(crate) fn abstracted<'a>(
    alloc: Global,
    binder: Binder<'a>,
    body: Tree<'a>,
) -> Result<Tree<'a>, AllocError>
    ensures { IfOk result (λ t. term_of t
        ≡ trees.Abs (name_of_binder binder.entry) (term_of body.entry)) }
{
    let binder = Box::new(alloc, binder)?;
    Ok(Tree::Abs(binder, Box::new(alloc, body)?))
}

/// A term under a swapping.
pub(crate) fn swapping<'a>(
    alloc: Global,
    sides: Sides<'a>,
    body: Tree<'a>,
) -> Result<Tree<'a>, AllocError>
    ensures { IfOk result (λ t. term_of t ≡ trees.Swapped (name_of_binder sides.entry.left)
        (name_of_binder sides.entry.right) (term_of body.entry)) }
{
    let sides = Box::new(alloc, sides)?;
    Ok(Tree::Swapped(sides, Box::new(alloc, body)?))
}

/// A term alone as a list, and what follows it.
pub(crate) fn begun<'a, 's>(
    alloc: Global,
    first: Tree<'a>,
    after: &'s [Symbol<'a>],
) -> Result<(Vec<Tree<'a>>, &'s [Symbol<'a>]), AllocError>
    ensures first { IfOk result (λ r. r.0.items ≡ first.entry ∷ []) }
    ensures one { IfOk result (λ r. vec_len r.0 ≡ 1) }
    ensures behind { IfOk result (λ r. r.1.now ≡ after.now) }
{
    let mut all = Vec::new(alloc);
    all.push(first)?;
    Ok((all, after))
}
