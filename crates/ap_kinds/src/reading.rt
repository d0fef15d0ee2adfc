//! Kinds that are read off the shapes of holes.

ghost use Rattle.std.specs.Prelude.{◌≡◌, ◌≤◌, ℕ, Bool, List as list, length, map, true, false, IfOk, IfErr};
ghost use Rattle.ap_defs.specs.Types.{TypeShape, NominalSignature, kind_of};
ghost use Rattle.ap_program.specs.Typed.{AreInhabited};
ghost use Rattle.ap_kinds.specs.Reading.{read_kind, read_kinds, AllDeclared, SomeUndeclared, AllClosed, SomeOpen, AreKindsRead, IsUnread};
ghost use Rattle.ap_kinds.specs.ReadTypes.{IsRead, AreFirstRead, IsDeclaredBy, kind_inhabited_if, are_inhabited_if, marks_of};

use crate::errors::KindsError;
use crate::kinds::IdentKind;
use crate::read_types::{Declared, TypeRead, kind_of_read};
use ap_defs::goals::Kind;
use ap_defs::memory::Memory;
use std::alloc::Global;

/// Whether what was read is declared.
fn are_declared(reads: &[TypeRead]) -> bool
    ensures all { result ≡ true → (by : Declared) (ts : list TypeShape) (count : ℕ) →
        AreFirstRead by count ts reads.now → AllDeclared by.name_types by.data_types count ts }
    ensures some { result ≡ false → (by : Declared) (ts : list TypeShape) (count : ℕ) →
        AreFirstRead by count ts reads.now → SomeUndeclared by.name_types by.data_types count ts }
{
    for read in reads {
        if !read.declared {
            return false;
        }
    }
    true
}

/// Whether what was read is closed.
fn are_closed(reads: &[TypeRead]) -> bool
    ensures all { result ≡ true → (by : Declared) (ts : list TypeShape) (count : ℕ) →
        AreFirstRead by count ts reads.now → AllClosed count ts }
    ensures some { result ≡ false → (by : Declared) (ts : list TypeShape) (count : ℕ) →
        AreFirstRead by count ts reads.now → SomeOpen count ts }
{
    for read in reads {
        if !read.closed {
            return false;
        }
    }
    true
}

/// Whether an identifier is a name, or a variable of an inhabited type.
fn is_name_or_inhabited(ident: IdentKind, read: &TypeRead) -> bool
    ensures { (n m : ℕ) (p : ℕ → Bool) (t : TypeShape) → IsRead n m p t read.now →
        result ≡ kind_inhabited_if p (read_kind ident t) }
{
    match ident {
        IdentKind::Name => true,
        IdentKind::Var => read.inhabited,
    }
}

/// Whether the type of each variable is inhabited.
fn are_inhabited(idents: &[IdentKind], reads: &[TypeRead]) -> bool
    requires { length idents.now ≤ length reads.now }
    ensures { (by : Declared) (ts : list TypeShape) →
        AreFirstRead by (length idents.now) ts reads.now →
        result ≡ are_inhabited_if (marks_of by) (read_kinds ts 0 idents.now) }
{
    for (i, ident) in idents.iter().enumerate() {
        if !is_name_or_inhabited(*ident, &reads[i]) {
            return false;
        }
    }
    true
}

/// The kinds of identifiers whose shapes were read.
fn read_kinds(
    alloc: Global,
    idents: &[IdentKind],
    reads: Vec<TypeRead>,
) -> Result<Vec<Kind>, Memory>
    requires { length reads.items ≡ length idents.now }
    ensures { IfOk result (λ ks. (by : Declared) (ts : list TypeShape) →
        AreFirstRead by (length idents.now) ts reads.items →
        map kind_of ks.items ≡ read_kinds ts 0 idents.now) }
{
    let mut kinds = Vec::with_capacity(alloc, idents.len())?;
    for read in reads {
        let i = kinds.len();
        let kind = kind_of_read(idents[i], read);
        kinds.push(kind)?;
    }
    Ok(kinds)
}

/// The kinds of identifiers whose types are inhabited, by what was read off their shapes.
pub(crate) fn read_inhabited(
    alloc: Global,
    idents: &[IdentKind],
    reads: Vec<TypeRead>,
) -> Result<Vec<Kind>, KindsError>
    requires { length reads.items ≡ length idents.now }
    ensures read { IfOk result (λ ks. (by : Declared) (sig : NominalSignature)
        (ts : list TypeShape) → IsDeclaredBy by sig → AreFirstRead by (length idents.now) ts reads.items →
        AreKindsRead sig idents.now ts (map kind_of ks.items)) }
    ensures inhabited { IfOk result (λ ks. (by : Declared) (sig : NominalSignature)
        (ts : list TypeShape) → IsDeclaredBy by sig → AreFirstRead by (length idents.now) ts reads.items →
        AreInhabited sig.constructors (map kind_of ks.items)) }
    ensures unread { IfErr result (λ e. (by : Declared) (sig : NominalSignature)
        (ts : list TypeShape) → IsDeclaredBy by sig → AreFirstRead by (length idents.now) ts reads.items →
        IsUnread e sig idents.now ts) }
{
    let seen = reads.as_slice();
    if !are_declared(seen) {
        return Err(KindsError::Clash);
    }
    if !are_closed(seen) {
        return Err(KindsError::Ambiguous);
    }
    if !are_inhabited(idents, seen) {
        return Err(KindsError::Empty);
    }
    let kinds = read_kinds(alloc, idents, reads)?;
    Ok(kinds)
}
