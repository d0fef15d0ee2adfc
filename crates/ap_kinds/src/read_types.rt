//! What is read off the shapes of a table.

ghost use Rattle.std.specs.Prelude.{◌≡◌, ℕ, Bool, IfOk, IfSome};
ghost use Rattle.ap_defs.specs.Types.{TypeShape, type_of, kind_of, hole, unit, names, base, pair, list, abs};
ghost use Rattle.ap_kinds.specs.Reading.{read_kind};
ghost use Rattle.ap_kinds.specs.ReadTypes.{IsRead, IsReadBy, sort_in_type, is_sort_type};

use crate::kinds::IdentKind;
use ap_defs::copies::copy_type;
use ap_defs::goals::Kind;
use ap_defs::memory::Memory;
use ap_defs::terms::Ty;
use ap_types::inhabitants::{Inhabitants, is_base_inhabited};
use std::alloc::Global;
use std::sync::Arc;

/// What a reader of shapes goes by: how many name types and data types are declared, and which data types are
/// inhabited.
#[derive(Clone, Copy)]
pub(crate) struct Declared<'a> {
    pub(crate) name_types: usize,
    pub(crate) data_types: usize,
    pub(crate) inhabitants: &'a Inhabitants,
}

/// What is read off a shape: the type that it is where it is closed; whether its name types and data types are
/// declared, whether it is closed, and whether its type is inhabited.
#[derive(Drop)]
pub(crate) struct TypeRead {
    pub(crate) ty: Ty,
    pub(crate) declared: bool,
    pub(crate) closed: bool,
    pub(crate) inhabited: bool,
}

/// What is read off a hole.
pub(crate) fn read_open() -> TypeRead
    ensures { (n m : ℕ) (p : ℕ → Bool) (x : ℕ) → IsRead n m p (hole x) result }
{
    TypeRead {
        ty: Ty::Unit,
        declared: true,
        closed: false,
        inhabited: true,
    }
}

/// What is read off the type of one value.
pub(crate) fn read_unit() -> TypeRead
    ensures { (n m : ℕ) (p : ℕ → Bool) → IsRead n m p unit result }
{
    TypeRead {
        ty: Ty::Unit,
        declared: true,
        closed: true,
        inhabited: true,
    }
}

/// What is read off a name type.
pub(crate) fn read_names(by: Declared<'_>, sort: u32) -> TypeRead
    ensures { IsReadBy by.entry (names sort) result }
{
    TypeRead {
        ty: Ty::Names(sort),
        declared: (sort as usize) < by.name_types,
        closed: true,
        inhabited: true,
    }
}

/// What is read off a data type.
pub(crate) fn read_base(by: Declared<'_>, data_type: u32) -> TypeRead
    ensures { IsReadBy by.entry (base data_type) result }
{
    TypeRead {
        ty: Ty::Base(data_type),
        declared: (data_type as usize) < by.data_types,
        closed: true,
        inhabited: is_base_inhabited(by.inhabitants, data_type),
    }
}

/// The same once more.
pub(crate) fn copy_read(read: &TypeRead) -> Result<TypeRead, Memory>
    ensures { IfOk result (λ r. (n m : ℕ) (p : ℕ → Bool) (t : TypeShape) →
        IsRead n m p t read.now → IsRead n m p t r) }
{
    let ty = copy_type(&read.ty)?;
    Ok(TypeRead {
        ty,
        declared: read.declared,
        closed: read.closed,
        inhabited: read.inhabited,
    })
}

/// The data type that was the last to be a part, if a type is the same.
fn same_base(last: &Option<Arc<Ty>>, ty: &Ty) -> Result<Option<Arc<Ty>>, Memory>
    ensures { IfOk result (λ o. IfSome o (λ s. type_of s.value ≡ type_of ty.now)) }
{
    let Some(part) = last else {
        return Ok(None);
    };
    match (&**part, ty) {
        (Ty::Base(data), Ty::Base(other)) if *data == *other => Ok(Some(Arc::try_clone(part)?)),
        _ => Ok(None),
    }
}

/// A part that types share. A data type is shared besides with the last one, if that is the same: a long tuple has it
/// at many places.
fn shared(alloc: Global, last: &mut Option<Arc<Ty>>, ty: &Ty) -> Result<Arc<Ty>, Memory>
    ensures { IfOk result (λ s. type_of s.value ≡ type_of ty.now) }
{
    if let Some(part) = same_base(last, ty)? {
        return Ok(part);
    }
    let part = Arc::new(alloc, copy_type(ty)?)?;
    if let Ty::Base(_) = ty {
        *last = Some(Arc::try_clone(&part)?);
    }
    Ok(part)
}

/// What is read off a pair, by what is read off its parts.
pub(crate) fn read_pair(
    alloc: Global,
    last: &mut Option<Arc<Ty>>,
    left: &TypeRead,
    right: &TypeRead,
) -> Result<TypeRead, Memory>
    ensures { IfOk result (λ r. (n m : ℕ) (p : ℕ → Bool) (t u : TypeShape) →
        IsRead n m p t left.now → IsRead n m p u right.now → IsRead n m p (pair t u) r) }
{
    let first = shared(alloc, last, &left.ty)?;
    let second = shared(alloc, last, &right.ty)?;
    Ok(TypeRead {
        ty: Ty::Pair(first, second),
        declared: left.declared && right.declared,
        closed: left.closed && right.closed,
        inhabited: left.inhabited && right.inhabited,
    })
}

/// What is read off a list, by what is read off its elements.
pub(crate) fn read_list(
    alloc: Global,
    last: &mut Option<Arc<Ty>>,
    element: &TypeRead,
) -> Result<TypeRead, Memory>
    ensures { IfOk result (λ r. (n m : ℕ) (p : ℕ → Bool) (t : TypeShape) →
        IsRead n m p t element.now → IsRead n m p (list t) r) }
{
    let part = shared(alloc, last, &element.ty)?;
    Ok(TypeRead {
        ty: Ty::List(part),
        declared: element.declared,
        closed: element.closed,
        inhabited: true,
    })
}

/// The sort of a type that is a name type.
fn sort_in(ty: &Ty) -> u32
    ensures { result ≡ sort_in_type (type_of ty.now) }
{
    match ty {
        Ty::Names(sort) => *sort,
        _ => 0,
    }
}

/// Whether a type is a name type.
fn is_sort(ty: &Ty) -> bool
    ensures { result ≡ is_sort_type (type_of ty.now) }
{
    matches!(ty, Ty::Names(_))
}

/// What is read off an abstraction, by what is read off its parts.
pub(crate) fn read_abs(
    alloc: Global,
    last: &mut Option<Arc<Ty>>,
    left: &TypeRead,
    body: &TypeRead,
) -> Result<TypeRead, Memory>
    ensures { IfOk result (λ r. (n m : ℕ) (p : ℕ → Bool) (t u : TypeShape) →
        IsRead n m p t left.now → IsRead n m p u body.now → IsRead n m p (abs t u) r) }
{
    let part = shared(alloc, last, &body.ty)?;
    Ok(TypeRead {
        ty: Ty::Abs(sort_in(&left.ty), part),
        declared: left.declared && body.declared,
        closed: is_sort(&left.ty) && body.closed,
        inhabited: body.inhabited,
    })
}

/// The kind of an identifier whose shape was read.
pub(crate) fn kind_of_read(ident: IdentKind, read: TypeRead) -> Kind
    ensures { (n m : ℕ) (p : ℕ → Bool) (t : TypeShape) → IsRead n m p t read →
        kind_of result ≡ read_kind ident t }
{
    let TypeRead { ty, .. } = read;
    match ident {
        IdentKind::Name => Kind::Name(sort_in(&ty)),
        IdentKind::Var => Kind::Var(ty),
    }
}
