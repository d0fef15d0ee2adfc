//! Terms that a derivation cites: those of a table, or terms by themselves.

ghost use Rattle.std.specs.Prelude.{◌≡◌, get_or, map, IfSome, MatchOption};
ghost use Rattle.ap_defs.specs.Terms.{term_of, unit};
ghost use Rattle.ap_judge.specs.Cited.{cited_term, cited_terms, layer_term};
ghost use Rattle.ap_judge.specs.Tables.{AreCitedIn, IsCitedIn, IsLayerIn};
ghost use Rattle.ap_shared.specs.declared.arena.SharedTerms.{SharedTerms as table};
ghost use Rattle.ap_shared.specs.SharedPlaces.{given_terms, shared_term};

use ap_defs::terms::{Name, Swap, Term, Var};
use ap_shared::lines::Entry;
use ap_shared::places::{Given, Shared};

/// A term that is cited.
#[derive(Clone, Copy)]
pub enum Cited<'a> {
    /// A term of a table.
    Line(Shared<'a>),
    /// A term by itself.
    Tree(&'a Term),
}

/// Terms that are cited, in order.
#[derive(Clone, Copy)]
pub enum CitedTerms<'a> {
    /// Terms of a table.
    Lines(Given<'a>),
    /// Terms by themselves.
    Trees(&'a [Term]),
}

/// The outermost layer of a term that is cited, with the parts below it.
#[derive(Clone, Copy)]
pub(crate) enum Layer<'a> {
    Unit,
    Name(Name),
    Pair(Cited<'a>, Cited<'a>),
    App(u32, Cited<'a>),
    Abs(Name, Cited<'a>),
    Susp(&'a [Swap], Var),
}

/// The term of a table at a place, if there is one.
fn line_at<'a>(given: Given<'a>, place: usize) -> Option<Shared<'a>>
    ensures term { MatchOption result (get_or (given_terms given.entry) place unit ≡ unit)
        (λ t. get_or (given_terms given.entry) place unit ≡ shared_term t) }
    ensures of { IfSome result (λ t. t.terms.now ≡ given.entry.terms.now) }
{
    let Given { terms, lines } = given;
    if place >= lines.len() {
        return None;
    }
    let line = lines[place];
    Some(Shared { terms, line })
}

/// The term at a place, if there is one.
fn tree_at(terms: &[Term], place: usize) -> Option<&Term>
    ensures { MatchOption result (get_or (map term_of terms.now) place unit ≡ unit)
        (λ t. get_or (map term_of terms.now) place unit ≡ term_of t.now) }
{
    if place >= terms.len() {
        return None;
    }
    Some(&terms[place])
}

impl<'a> CitedTerms<'a> {
    /// The term at a place, if there is one.
    pub(crate) fn get(self, place: usize) -> Option<Cited<'a>>
        ensures term { MatchOption result (get_or (cited_terms self.entry) place unit ≡ unit)
            (λ t. get_or (cited_terms self.entry) place unit ≡ cited_term t) }
        ensures of { IfSome result (λ t. (ts : table) → AreCitedIn ts self.entry → IsCitedIn ts t) }
    {
        match self {
            CitedTerms::Lines(given) => match line_at(given, place) {
                None => None,
                Some(t) => Some(Cited::Line(t)),
            },
            CitedTerms::Trees(terms) => match tree_at(terms, place) {
                None => None,
                Some(t) => Some(Cited::Tree(t)),
            },
        }
    }
}

/// The outermost layer of a term of a table.
fn layer_of_line<'a>(t: Shared<'a>) -> Layer<'a>
    ensures term { layer_term result ≡ shared_term t.entry }
    ensures of { IsLayerIn t.entry.terms.now result }
{
    let Shared { terms, line } = t;
    let Some(entry) = terms.entry(line) else {
        return Layer::Unit;
    };
    match entry {
        Entry::Unit => Layer::Unit,
        Entry::Name(a) => Layer::Name(*a),
        Entry::Susp(swaps, x) => Layer::Susp(swaps.items(), *x),
        Entry::Pair(left, right) => {
            let left = Shared { terms, line: *left };
            let right = Shared {
                terms,
                line: *right,
            };
            Layer::Pair(Cited::Line(left), Cited::Line(right))
        }
        Entry::App(f, part) => Layer::App(*f, Cited::Line(Shared { terms, line: *part })),
        Entry::Abs(sort, num, part) => {
            let a = Name {
                sort: *sort,
                num: *num,
            };
            Layer::Abs(a, Cited::Line(Shared { terms, line: *part }))
        }
    }
}

/// The outermost layer of a term by itself.
fn layer_of_tree(t: &Term) -> Layer<'_>
    ensures term { layer_term result ≡ term_of t.now }
    ensures of { (ts : table) → IsLayerIn ts result }
{
    match t {
        Term::Unit => Layer::Unit,
        Term::Name(a) => Layer::Name(*a),
        Term::Susp(swaps, x) => Layer::Susp(swaps.items(), *x),
        Term::Pair(left, right) => Layer::Pair(Cited::Tree(left), Cited::Tree(right)),
        Term::App(f, part) => Layer::App(*f, Cited::Tree(part)),
        Term::Abs(sort, num, part) => {
            let a = Name {
                sort: *sort,
                num: *num,
            };
            Layer::Abs(a, Cited::Tree(part))
        }
    }
}

/// The outermost layer of a term that is cited.
pub(crate) fn layer_of<'a>(t: Cited<'a>) -> Layer<'a>
    ensures term { layer_term result ≡ cited_term t.entry }
    ensures of { (ts : table) → IsCitedIn ts t.entry → IsLayerIn ts result }
{
    match t {
        Cited::Line(t) => layer_of_line(t),
        Cited::Tree(t) => layer_of_tree(t),
    }
}
