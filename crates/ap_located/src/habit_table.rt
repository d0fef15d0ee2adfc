//! The slips of those who come from other languages, and what they may not know.

use crate::nodes::Form;
use crate::slips::Wanted;
use crate::symbols::Symbol;

/// What else must be so, besides what stands at a slip.
#[derive(Clone, Copy)]
pub(crate) enum Also {
    Nothing,
    /// Not what closes the open node is wanted.
    GoesOn,
    /// The item is a declaration.
    Declares,
    /// The token is the word `is`.
    Is,
    /// The word `not` opens the open node.
    InNot,
}

/// A slip by what could stand there, the token, the one before it, and the open node, each of which is one of these where
/// there are any; what else must be so; and what those who wrote it may not know.
pub(crate) type Habit = (
    &'static [Wanted],
    &'static [Symbol],
    &'static [Symbol],
    &'static [Form],
    Also,
    &'static str,
);

const WORDS: &[Symbol] = &[
    Symbol::Word,
    Symbol::Predicate,
    Symbol::Type,
    Symbol::NameType,
    Symbol::New,
    Symbol::Exists,
    Symbol::Swap,
];

const RESERVED: &[Symbol] = &[
    Symbol::Predicate,
    Symbol::Type,
    Symbol::NameType,
    Symbol::New,
    Symbol::Exists,
    Symbol::Swap,
];

const BEGINS_TERM: &[Symbol] = &[
    Symbol::Word,
    Symbol::Variable,
    Symbol::Open,
    Symbol::OpenList,
];

const ENDS_TERM: &[Symbol] = &[
    Symbol::Word,
    Symbol::Variable,
    Symbol::Close,
    Symbol::CloseList,
];

/// The slips, of which the first that fits is told.
pub(crate) const HABITS: [Habit; 34] = [
    // how an item begins
    (
        &[Wanted::Item],
        RESERVED,
        &[],
        &[],
        Also::Nothing,
        "this is a reserved word; it can't be declared and can't be called",
    ),
    (
        &[Wanted::Item],
        &[Symbol::Variable],
        &[],
        &[],
        Also::Nothing,
        "words of types, constructors and predicates begin with a small letter; variables with a capital",
    ),
    (
        &[Wanted::Body],
        &[Symbol::Comma],
        &[],
        &[],
        Also::Nothing,
        "a clause has one head; its goals stand behind `:-`",
    ),
    (
        &[Wanted::Body],
        &[Symbol::Equal, Symbol::Fresh],
        &[],
        &[],
        Also::Nothing,
        "a clause begins with a predicate; an equation stands behind `:-` or in a query",
    ),
    (
        &[Wanted::Body],
        WORDS,
        &[Symbol::Word],
        &[],
        Also::Nothing,
        "a data type is declared by `exp : type.`, a name type by `id : name_type.`, a constructor by `f : t -> u.`",
    ),
    // declarations
    (
        &[Wanted::PredicateTypes],
        &[],
        &[],
        &[],
        Also::Nothing,
        "the types of a predicate stand in parentheses: `pred p(t, u).`",
    ),
    (
        &[Wanted::Type],
        &[Symbol::Variable],
        &[],
        &[],
        Also::Nothing,
        "there are no type variables: declare a predicate for each type that is needed",
    ),
    (
        &[Wanted::Type],
        &[Symbol::Close],
        &[Symbol::Open],
        &[],
        Also::Nothing,
        "a predicate without arguments is declared without parentheses: `pred p.`",
    ),
    (
        &[Wanted::End],
        &[Symbol::Arrow],
        &[],
        &[],
        Also::Nothing,
        "several arguments stand in parentheses: `(t, u) -> v`",
    ),
    (
        &[Wanted::Word],
        &[],
        &[],
        &[],
        Also::Nothing,
        "the word of a predicate begins with a small letter",
    ),
    (
        &[],
        &[Symbol::Arrow],
        &[],
        &[],
        Also::Declares,
        "no term is a function; the type of what binds a name of the type `n` is `n\\t`",
    ),
    (
        &[],
        BEGINS_TERM,
        ENDS_TERM,
        &[],
        Also::Declares,
        "types have no parameters; a list with elements of the type `t` has the type `[t]`",
    ),
    (
        &[Wanted::Arrow],
        &[Symbol::Comma],
        &[],
        &[],
        Also::Nothing,
        "several arguments stand in parentheses: `(t, u) -> v`",
    ),
    // what `new` and `exists` bring
    (
        &[Wanted::Name],
        &[],
        &[],
        &[Form::Swap],
        Also::Nothing,
        "the first two parts of `swap` are names: `swap(a, b, t)`",
    ),
    (
        &[Wanted::Name],
        &[],
        &[],
        &[],
        Also::Nothing,
        "`new` brings a name, whose word begins with a small letter: `new x (goal)`",
    ),
    (
        &[Wanted::Variable],
        &[],
        &[],
        &[],
        Also::Nothing,
        "`exists` brings a variable, which begins with a capital: `exists X (goal)`",
    ),
    (
        &[Wanted::Open],
        &[Symbol::Comma],
        &[],
        &[Form::New],
        Also::Nothing,
        "`new` brings one name: `new x (new y (goal))`",
    ),
    (
        &[Wanted::Open],
        &[Symbol::Comma],
        &[],
        &[Form::Exists],
        Also::Nothing,
        "`exists` brings one variable: `exists X (exists Y (goal))`",
    ),
    (
        &[Wanted::Open],
        &[],
        &[],
        &[Form::New, Form::Exists],
        Also::Nothing,
        "the goal stands in parentheses: `new x (goal)`, `exists X (goal)`",
    ),
    (
        &[Wanted::Open],
        &[],
        &[],
        &[Form::Swap],
        Also::Nothing,
        "a swapping is written `swap(a, b, t)`",
    ),
    // goals, by the token alone
    (
        &[],
        &[Symbol::Word],
        &[],
        &[],
        Also::Is,
        "there is no arithmetic and no `is`; `t = u` makes two terms equal",
    ),
    (
        &[],
        &[],
        &[],
        &[Form::Apply],
        Also::InNot,
        "there is no negation: that a name is not in a term is `a # t`; else write a predicate for the contrary",
    ),
    (
        &[],
        &[Symbol::Arrow],
        &[],
        &[],
        Also::Nothing,
        "there is no if-then-else: write a clause for each case, or `G1, H1 ; G2, H2`",
    ),
    (
        &[],
        &[Symbol::Open],
        &[Symbol::Variable],
        &[],
        Also::Nothing,
        "a variable stands for a term; it can't be called and has no arguments",
    ),
    (
        &[],
        &[Symbol::Colon],
        &[],
        &[],
        Also::Nothing,
        "two terms are made equal by one `=`",
    ),
    (
        &[],
        &[Symbol::Equal],
        &[Symbol::Equal],
        &[],
        Also::Nothing,
        "two terms are made equal by one `=`",
    ),
    // how goals follow one another
    (
        &[],
        &[Symbol::Bar],
        &[],
        &[],
        Also::GoesOn,
        "goals of which one must hold stand with `;` between",
    ),
    (
        &[Wanted::NextGoal],
        BEGINS_TERM,
        &[],
        &[],
        Also::Nothing,
        "goals that must all hold stand with `,` between",
    ),
    (
        &[],
        &[Symbol::If, Symbol::Ask],
        &[],
        &[],
        Also::Nothing,
        "is a `.` missing before this item?",
    ),
    // terms
    (
        &[],
        &[Symbol::Close],
        &[Symbol::Open],
        &[Form::Apply],
        Also::Nothing,
        "without arguments no parentheses stand behind the word",
    ),
    (
        &[],
        &[Symbol::Lambda],
        &[],
        &[],
        Also::Nothing,
        "left of `\\` stands a name alone: `x\\t`",
    ),
    (
        &[Wanted::NextGoal, Wanted::Body, Wanted::End],
        &[Symbol::Close, Symbol::CloseList],
        &[],
        &[],
        Also::Nothing,
        "no bracket is open that it could close",
    ),
    (
        &[],
        BEGINS_TERM,
        ENDS_TERM,
        &[Form::Apply, Form::Tuple, Form::List],
        Also::Nothing,
        "arguments stand in parentheses with commas between: `f(t, u)`",
    ),
    (
        &[],
        RESERVED,
        &[],
        &[],
        Also::Nothing,
        "this is a reserved word; it is no name and no constructor",
    ),
];
