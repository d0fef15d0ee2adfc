//! The text of terms.

ghost use Rattle.std.specs.Prelude.{◌≡◌, [], ◌++◌, OnOk};
ghost use Rattle.ap_trees.specs.Terms.{Apply};
ghost use Rattle.ap_trees.specs.Trees.{name_of_binder, term_applied, term_of, terms_of};
ghost use Rattle.ap_unparse.specs.Written.{bytes_of};
ghost use Rattle.ap_unparse.specs.WrittenTerms.{barred_words, name_text, tuple_opening, tuple_closing, list_opening, list_closing, swap_opening, abs_opening, apply_opening, term_at, arguments_of, nil_at};

use crate::closing::write_closers;
use crate::context::Context;
use ap_defs::memory::Memory;
use ap_trees::{Application, Args, Binder, Sides, Tree};
use std::alloc::Global;

/// Writes the bar that stands before the rest of a list.
fn write_bar(out: &mut Vec<u8>, context: Context) -> Result<(), Memory>
    ensures { OnOk result (out.new.items ≡ out.old.items ++ bytes_of (barred_words context [])) }
{
    if let Context::Rest = context {
        out.push(b'|')?;
    }
    Ok(())
}

/// Writes a word or a variable.
fn write_name(out: &mut Vec<u8>, name: &Binder<'_>) -> Result<(), Memory>
    ensures { OnOk result (out.new.items ≡ out.old.items ++ name_text (name_of_binder name.now)) }
{
    let (Binder::Word(word) | Binder::Var(word)) = name;
    out.extend_from_slice(word.as_bytes())?;
    Ok(())
}

/// Writes what stands before the parts of a tuple, and keeps what will stand behind them.
fn begin_tuple(out: &mut Vec<u8>, closers: &mut Vec<u8>, context: Context) -> Result<(), Memory>
    ensures written { OnOk result (out.new.items ≡ out.old.items ++ tuple_opening context) }
    ensures kept { OnOk result (closers.new.items ≡ closers.old.items ++ tuple_closing context) }
{
    match context {
        Context::Part => return Ok(()),
        Context::Rest => out.extend_from_slice(b"|(")?,
        Context::Whole => out.push(b'(')?,
    }
    closers.push(b')')?;
    Ok(())
}

/// Writes what stands before the parts of a list cell, and keeps what will stand behind them.
fn begin_list(out: &mut Vec<u8>, closers: &mut Vec<u8>, context: Context) -> Result<(), Memory>
    ensures written { OnOk result (out.new.items ≡ out.old.items ++ list_opening context) }
    ensures kept { OnOk result (closers.new.items ≡ closers.old.items ++ list_closing context) }
{
    if let Context::Rest = context {
        out.push(b',')?;
        return Ok(());
    }
    out.push(b'[')?;
    closers.push(b']')?;
    Ok(())
}

/// Writes what stands before the body of an abstraction.
fn begin_abs(out: &mut Vec<u8>, name: &Binder<'_>, context: Context) -> Result<(), Memory>
    ensures { OnOk result (out.new.items
        ≡ out.old.items ++ abs_opening context (name_of_binder name.now)) }
{
    write_bar(out, context)?;
    write_name(out, name)?;
    out.push(b'\\')?;
    Ok(())
}

/// Writes what stands before the body of a swapping.
fn begin_swap(out: &mut Vec<u8>, sides: &Sides<'_>, context: Context) -> Result<(), Memory>
    ensures { OnOk result (out.new.items
        ≡ out.old.items
        ++ swap_opening context (name_of_binder sides.now.left) (name_of_binder sides.now.right)) }
{
    write_bar(out, context)?;
    out.extend_from_slice(b"swap(")?;
    write_name(out, &sides.left)?;
    out.push(b',')?;
    write_name(out, &sides.right)?;
    out.push(b',')?;
    Ok(())
}

/// Writes what stands before arguments.
fn begin_apply(out: &mut Vec<u8>, word: &str, context: Context) -> Result<(), Memory>
    ensures { OnOk result (out.new.items ≡ out.old.items ++ apply_opening context word.now) }
{
    write_bar(out, context)?;
    out.extend_from_slice(word.as_bytes())?;
    out.push(b'(')?;
    Ok(())
}

/// Writes a term that has no parts.
fn write_leaf(out: &mut Vec<u8>, text: &[u8], context: Context) -> Result<(), Memory>
    ensures { OnOk result (out.new.items
        ≡ out.old.items ++ (bytes_of (barred_words context []) ++ text.now)) }
{
    write_bar(out, context)?;
    out.extend_from_slice(text)?;
    Ok(())
}

/// Writes the empty list: nothing at the end of a list.
fn write_nil(out: &mut Vec<u8>, context: Context) -> Result<(), Memory>
    ensures { OnOk result (out.new.items ≡ out.old.items ++ bytes_of (nil_at context)) }
{
    if let Context::Rest = context {
        return Ok(());
    }
    out.extend_from_slice(b"[]")?;
    Ok(())
}

/// The word and the arguments of an application.
fn parts_of<'a, 't>(applied: &'t Application<'a>) -> (&'a str, &'t Args<'a>)
    ensures { term_applied applied.now ≡ Apply result.0.now (terms_of result.1.now) }
{
    let Application::To(word, args) = applied;
    (word, args)
}

/// Writes one term or more, with commas between them.
#[cycle(writing)]
fn write_arguments(alloc: Global, out: &mut Vec<u8>, args: &Args<'_>) -> Result<(), Memory>
    ensures { OnOk result (out.new.items
        ≡ out.old.items ++ bytes_of (arguments_of (terms_of args.now))) }
{
    let mut rest = args;
    loop {
        match rest {
            Args::Last(t) => return write_tree(alloc, out, t, Context::Whole),
            Args::More(t, others) => {
                write_tree(alloc, out, t, Context::Whole)?;
                out.push(b',')?;
                rest = others;
            }
        }
    }
}

/// Writes a term in a context.
///
/// It goes on along the right part of a pair, the rest of a list and the body of an abstraction or of a
/// swapping, and calls itself on the other parts alone.
#[cycle(writing)]
pub fn write_tree(
    alloc: Global,
    out: &mut Vec<u8>,
    t: &Tree<'_>,
    mut context: Context,
) -> Result<(), Memory>
    ensures { OnOk result (out.new.items
        ≡ out.old.items ++ bytes_of (term_at context (term_of t.now))) }
{
    let mut closers = Vec::new(alloc);
    let mut rest = t;
    loop {
        match rest {
            Tree::Unit => {
                write_leaf(out, b"()", context)?;
                return write_closers(out, closers);
            }
            Tree::Var(word) | Tree::Word(word) => {
                write_leaf(out, word.as_bytes(), context)?;
                return write_closers(out, closers);
            }
            Tree::Nil => {
                write_nil(out, context)?;
                return write_closers(out, closers);
            }
            Tree::Apply(applied) => {
                let (word, args) = parts_of(applied);
                begin_apply(out, word, context)?;
                write_arguments(alloc, out, args)?;
                out.push(b')')?;
                write_closers(out, closers)?;
                return Ok(());
            }
            Tree::Pair(left, right) => {
                begin_tuple(out, &mut closers, context)?;
                write_tree(alloc, out, left, Context::Whole)?;
                out.push(b',')?;
                context = Context::Part;
                rest = right;
            }
            Tree::Cell(head, tail) => {
                begin_list(out, &mut closers, context)?;
                write_tree(alloc, out, head, Context::Whole)?;
                context = Context::Rest;
                rest = tail;
            }
            Tree::Abs(name, body) => {
                begin_abs(out, name, context)?;
                context = Context::Whole;
                rest = body;
            }
            Tree::Swapped(sides, body) => {
                begin_swap(out, sides, context)?;
                closers.push(b')')?;
                context = Context::Whole;
                rest = body;
            }
        }
    }
}
