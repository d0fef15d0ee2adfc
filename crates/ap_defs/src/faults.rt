//! The faults that a text may have: where one stands, and of what kind it is.
//!
//! A kind has a number, by which the kinds of one enum are ordered, and a word. Where several kinds of
//! type fault or of name fault apply to an item, the least of them is told; `SyntaxKind` says which is told
//! of a fault of the syntax.
ghost use Rattle.std.specs.Prelude.{◌≡◌};
ghost use Rattle.ap_defs.specs.FaultKinds as spec;

use crate::lists::Text;

/// Where a fault stands: an item of the text, by its number from 1, and a line, from 1.
#[derive(Clone, Copy)]
pub struct Place {
    pub item: u32,
    pub line: u64,
}

/// Why a text doesn't split into tokens (`NotUtf8`, `Character`), or an item isn't in the grammar. Of the
/// last three `Unended` is told first, then `TooDeep`, then `Grammar`.
#[derive(Clone, Copy)]
pub enum SyntaxKind {
    /// No UTF-8 character begins at the place.
    NotUtf8,
    /// A character begins there, but neither a token nor white space nor a comment.
    Character,
    /// The item isn't in the grammar.
    Grammar,
    /// The item has more than 256 levels.
    TooDeep,
    /// No `.` ends the item.
    Unended,
}

impl SyntaxKind {
    /// The number of the kind, from 1.
    pub fn number(self) -> u32
        ensures { result ≡ spec.syntax_number self }
    {
        match self {
            SyntaxKind::NotUtf8 => 1,
            SyntaxKind::Character => 2,
            SyntaxKind::Grammar => 3,
            SyntaxKind::TooDeep => 4,
            SyntaxKind::Unended => 5,
        }
    }

    /// The word of the kind.
    pub fn word(self) -> &'static str
        ensures { result.now ≡ spec.syntax_word self }
    {
        match self {
            SyntaxKind::NotUtf8 => "NotUtf8",
            SyntaxKind::Character => "Character",
            SyntaxKind::Grammar => "Grammar",
            SyntaxKind::TooDeep => "TooDeep",
            SyntaxKind::Unended => "Unended",
        }
    }
}

/// Why an item isn't well typed.
#[derive(Clone, Copy, PartialEq, Eq)]
pub enum TypeKind {
    /// A word isn't declared.
    Undeclared,
    /// A word is declared again.
    Redeclared,
    /// A constructor or predicate has the wrong number of arguments.
    Arity,
    /// No assignment of types fits.
    Clash,
    /// More than one assignment of types fits.
    Ambiguous,
    /// Exactly one fits, and by it a variable has a type that isn't inhabited.
    Empty,
}

impl TypeKind {
    /// The number of the kind, from 1.
    pub fn number(self) -> u32
        ensures { result ≡ spec.type_number self }
    {
        match self {
            TypeKind::Undeclared => 1,
            TypeKind::Redeclared => 2,
            TypeKind::Arity => 3,
            TypeKind::Clash => 4,
            TypeKind::Ambiguous => 5,
            TypeKind::Empty => 6,
        }
    }

    /// The word of the kind.
    pub fn word(self) -> &'static str
        ensures { result.now ≡ spec.type_word self }
    {
        match self {
            TypeKind::Undeclared => "Undeclared",
            TypeKind::Redeclared => "Redeclared",
            TypeKind::Arity => "Arity",
            TypeKind::Clash => "Clash",
            TypeKind::Ambiguous => "Ambiguous",
            TypeKind::Empty => "Empty",
        }
    }
}

/// How an item breaks the name restriction.
#[derive(Clone, Copy)]
pub enum NameKind {
    /// A binder is a variable.
    VariableBinder,
    /// A variable stands in a place of a swapping.
    VariableSwap,
    /// A free name of a clause isn't known to be fresh for the head.
    HeadName,
}

impl NameKind {
    /// The number of the kind, from 1.
    pub fn number(self) -> u32
        ensures { result ≡ spec.name_number self }
    {
        match self {
            NameKind::VariableBinder => 1,
            NameKind::VariableSwap => 2,
            NameKind::HeadName => 3,
        }
    }

    /// The word of the kind.
    pub fn word(self) -> &'static str
        ensures { result.now ≡ spec.name_kind_word self }
    {
        match self {
            NameKind::VariableBinder => "VariableBinder",
            NameKind::VariableSwap => "VariableSwap",
            NameKind::HeadName => "HeadName",
        }
    }
}

/// A fault of the tokens, at the first place of the text where nothing begins, or of the first item that
/// isn't in the grammar.
#[derive(Clone, Copy)]
pub struct SyntaxFault {
    pub place: Place,
    pub kind: SyntaxKind,
}

/// The fault of the first item that isn't well typed, with the least kind that applies.
#[derive(Clone, Copy)]
pub struct TypeFault {
    pub place: Place,
    pub kind: TypeKind,
}

/// The fault of the first item that breaks the name restriction, with the least kind that applies, and how
/// the identifier is spelled that is at fault.
#[derive(Drop)]
pub struct NameFault {
    pub place: Place,
    pub kind: NameKind,
    pub name: Text,
}

/// The first fault of a text.
#[derive(Drop)]
pub enum Fault {
    Syntax(SyntaxFault),
    Types(TypeFault),
    Names(NameFault),
}
