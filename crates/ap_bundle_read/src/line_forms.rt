// The forms of lines.
ghost use Rattle.std.specs.Prelude.{◌≡◌, [], IfOk, if◌then◌else◌};
ghost use Rattle.std.specs.Option.{option_map};
ghost use Rattle.ap_defs.specs.Answers.{typed_var_of};
ghost use Rattle.ap_defs.specs.Terms.{term_of};
ghost use Rattle.ap_bundle.specs.LineForms as spec;
ghost use Rattle.ap_bundle_read.specs.Nodes.{node_line_of};

use crate::nodes::{Bare, NodeLine};
use crate::terms::term_from;
use crate::types::type_from;
use ap_bundle::version::Version;
use ap_bundle::words::{Head, NodeWord, Word};
use ap_defs::memory::Memory;
use ap_defs::terms::{Cond, Name, Term, Ty, Var};
use std::alloc::Global;

/// The words behind this one, if it comes first.
#[tactic(auto, unfolding(ap_bundle::specs::LineForms::after_head))]
pub(crate) fn after_head(head: Head, words: &[Word]) -> Option<&[Word]>
    ensures { option_map (λ r. r.now) result ≡ spec.after_head head words.now }
{
    match words {
        [Word::Head(first), rest @ ..] => {
            if first.text().as_bytes() == head.text().as_bytes() {
                Some(rest)
            } else {
                None
            }
        }
        _ => None,
    }
}

/// A number that comes first, and the words behind it.
pub(crate) fn number(words: &[Word]) -> Option<(u64, &[Word])>
    ensures { option_map (λ r. (r.0, r.1.now)) result ≡ spec.number words.now }
{
    match words {
        [Word::Number(number), rest @ ..] => Some((*number, rest)),
        _ => None,
    }
}

#[tactic(auto, unfolding(ap_bundle::specs::LineForms::small_number))]
fn small_number(words: &[Word]) -> Option<(u32, &[Word])>
    ensures { option_map (λ r. (r.0, r.1.now)) result ≡ spec.small_number words.now }
{
    let (number, rest) = number(words)?;
    let Ok(number) = u32::try_from(number) else {
        return None;
    };
    Some((number, rest))
}

#[tactic(auto, unfolding(ap_bundle::specs::LineForms::name))]
fn name(words: &[Word]) -> Option<(Name, &[Word])>
    ensures { option_map (λ r. (r.0, r.1.now)) result ≡ spec.name words.now }
{
    let (sort, rest) = small_number(words)?;
    let (num, rest) = number(rest)?;
    Some((Name { sort, num }, rest))
}

/// A count behind this word.
#[tactic(auto, unfolding(ap_bundle::specs::LineForms::count_form))]
pub(crate) fn count_form(head: Head, words: &[Word]) -> Option<u64>
    ensures { result ≡ spec.count_form head words.now }
{
    let rest = after_head(head, words)?;
    let (count, rest) = number(rest)?;
    if rest.is_empty() { Some(count) } else { None }
}

/// `derivation Q`
#[tactic(auto, unfolding(ap_bundle::specs::LineForms::query_form))]
pub(crate) fn query_form(words: &[Word]) -> Option<u32>
    ensures { result ≡ spec.query_form words.now }
{
    let rest = after_head(Head::Derivation, words)?;
    let (query, rest) = small_number(rest)?;
    if rest.is_empty() { Some(query) } else { None }
}

/// `v NUM TYPE`
#[tactic(auto, unfolding(ap_bundle::specs::LineForms::var_form))]
pub(crate) fn var_form(alloc: Global, words: &[Word]) -> Result<Option<(Var, Ty)>, Memory>
    ensures { IfOk result (λ r. option_map typed_var_of r ≡ spec.var_form words.now) }
{
    let Some(rest) = after_head(Head::V, words) else {
        return Ok(None);
    };
    let Some((num, rest)) = number(rest) else {
        return Ok(None);
    };
    match type_from(alloc, rest)? {
        Some(ty) => Ok(Some((Var { num }, ty))),
        None => Ok(None),
    }
}

/// `c SORT NUM VAR`
#[tactic(auto, unfolding(ap_bundle::specs::LineForms::cond_form))]
pub(crate) fn cond_form(words: &[Word]) -> Option<Cond>
    ensures { result ≡ spec.cond_form words.now }
{
    let rest = after_head(Head::C, words)?;
    let (name, rest) = name(rest)?;
    let (num, rest) = number(rest)?;
    if rest.is_empty() {
        Some(Cond {
            name,
            var: Var { num },
        })
    } else {
        None
    }
}

/// `m SORT NUM`
#[tactic(auto, unfolding(ap_bundle::specs::LineForms::name_form))]
pub(crate) fn name_form(words: &[Word]) -> Option<Name>
    ensures { result ≡ spec.name_form words.now }
{
    let rest = after_head(Head::M, words)?;
    let (name, rest) = name(rest)?;
    if rest.is_empty() { Some(name) } else { None }
}

/// `t TERM`
#[tactic(auto, unfolding(ap_bundle::specs::LineForms::term_form))]
pub(crate) fn term_form(alloc: Global, words: &[Word]) -> Result<Option<Term>, Memory>
    ensures { IfOk result (λ r. option_map term_of r ≡ spec.term_form words.now) }
{
    match after_head(Head::T, words) {
        Some(rest) => term_from(alloc, rest),
        None => Ok(None),
    }
}

/// `atom C N V`, behind its first word.
#[tactic(auto, unfolding(ap_bundle::specs::LineForms::atom_line))]
fn atom_line(words: &[Word]) -> Option<NodeLine>
    ensures { option_map node_line_of result ≡ spec.atom_line words.now }
{
    let (clause, rest) = small_number(words)?;
    let (names, rest) = number(rest)?;
    let (terms, rest) = number(rest)?;
    if rest.is_empty() {
        Some(NodeLine::Atom(clause, names, terms))
    } else {
        None
    }
}

/// `new SORT NUM`, behind its first word.
#[tactic(auto, unfolding(ap_bundle::specs::LineForms::new_line))]
fn new_line(words: &[Word]) -> Option<NodeLine>
    ensures { option_map node_line_of result ≡ spec.new_line words.now }
{
    let (name, rest) = name(words)?;
    if rest.is_empty() {
        Some(NodeLine::Whole(Bare::New(name)))
    } else {
        None
    }
}

/// What the line of a node says that is one word.
fn only_word(line: NodeLine, words: &[Word]) -> Option<NodeLine>
    ensures { option_map node_line_of result ≡ spec.if_no_word (node_line_of line) words.now }
{
    if words.is_empty() { Some(line) } else { None }
}

fn node_behind(word: NodeWord, words: &[Word]) -> Option<NodeLine>
    ensures { option_map node_line_of result ≡ spec.node_behind word words.now }
{
    match word {
        NodeWord::Atom => atom_line(words),
        NodeWord::Eq => only_word(NodeLine::Whole(Bare::Eq), words),
        NodeWord::Fresh => only_word(NodeLine::Whole(Bare::Fresh), words),
        NodeWord::True => only_word(NodeLine::Whole(Bare::True), words),
        NodeWord::And => only_word(NodeLine::Whole(Bare::And), words),
        NodeWord::Left => only_word(NodeLine::Whole(Bare::Left), words),
        NodeWord::Right => only_word(NodeLine::Whole(Bare::Right), words),
        NodeWord::Exists => only_word(NodeLine::Exists, words),
        NodeWord::New => new_line(words),
    }
}

/// What the line of a node says.
pub(crate) fn node_form(words: &[Word]) -> Option<NodeLine>
    ensures { option_map node_line_of result ≡ spec.node_form words.now }
{
    match words {
        [Word::Node(word), rest @ ..] => node_behind(*word, rest),
        _ => None,
    }
}

/// Whether the words are the last line.
#[tactic(auto, unfolding(ap_bundle::specs::LineForms::end_form))]
pub(crate) fn is_end(words: &[Word]) -> bool
    ensures { (if result then Some [] else None) ≡ spec.end_form words.now }
{
    let Some(rest) = after_head(Head::End, words) else {
        return false;
    };
    if rest.is_empty() {
        return true;
    }
    false
}

/// The version that the first line tells.
#[tactic(auto, unfolding(ap_bundle::specs::LineForms::first_form))]
pub(crate) fn first_form(line: &[u8]) -> Option<Version>
    ensures { result ≡ spec.first_form line.now }
{
    if line == Version::One.first_line().as_bytes() {
        Some(Version::One)
    } else if line == Version::Two.first_line().as_bytes() {
        Some(Version::Two)
    } else {
        None
    }
}
