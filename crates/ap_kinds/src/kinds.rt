//! The kinds of an item's identifiers.

ghost use Rattle.std.specs.Prelude.{◌≡◌, length, map, IfOk, IfErr};
ghost use Rattle.ap_defs.specs.Types.{kind_of, signature_of};
ghost use Rattle.ap_defs.specs.RawTerms.{raw_of};
ghost use Rattle.ap_defs.specs.Goals.{goal_over};
ghost use Rattle.ap_types.specs.Growing.{IsTableUnsolvable};
ghost use Rattle.ap_types.specs.Tables.{AreInhabitants};
ghost use Rattle.ap_types.specs.Triangular.{shapes_of_nodes, assignment_of, AreFormed, IsSettledTable};
ghost use Rattle.ap_types.specs.Walking.{AreInOrder};
ghost use Rattle.ap_program.specs.Typed.{AreInhabited};
ghost use Rattle.ap_kinds.specs.ItemKinds.{TypesQuery, TypesClause, IsInferred, IsRefused};
ghost use Rattle.ap_kinds.specs.Systems.{system_of, started};
ghost use Rattle.ap_kinds.specs.Gathering.{gather_goal, gather_atom};
ghost use Rattle.ap_kinds.specs.Reading.{name_count, IsSystemSolved, AreKindsRead, IsUnread, IsFound, IsNotFound};

use crate::errors::KindsError;
use crate::goals::{gather_atom, gather_goal};
use crate::read_types::Declared;
use crate::reading::read_inhabited;
use crate::systems::{System, started};
use crate::tables::read_holes;
use ap_defs::goals::{Goal, Kind, Signature};
use ap_defs::lists::List;
use ap_defs::memory::Memory;
use ap_defs::terms::Raw;
use ap_types::equations::solved_table;
use ap_types::errors::TypesError;
use ap_types::inhabitants::Inhabitants;
use ap_types::solved::Solved;
use std::alloc::Global;

/// Whether an identifier is a name or a variable.
#[derive(Clone, Copy)]
pub enum IdentKind {
    Name,
    Var,
}

/// The table of the most general shapes of the holes of a system. No sort is above the greatest `u32`,
/// so more name types than that count as want of memory.
fn table_of_holes(alloc: Global, sig: &Signature, system: System) -> Result<Solved, TypesError>
    requires { AreFormed (system_of system).table }
    ensures settled { IfOk result (λ s. IsSettledTable (shapes_of_nodes s.nodes.items)) }
    ensures order { IfOk result (λ s. AreInOrder (shapes_of_nodes s.nodes.items) s.order.items) }
    ensures ok { IfOk result (λ s. IsSystemSolved (name_count (signature_of sig.now))
        (system_of system) (assignment_of s)) }
    ensures clash { IfErr result (λ e. e ≡ TypesError.Clash →
        IsTableUnsolvable (system_of system).table (system_of system).equations
        (system_of system).names (name_count (signature_of sig.now))) }
{
    let name_types = sig.name_types.items().len();
    if name_types > u32::MAX as usize {
        return Err(TypesError::Memory);
    }
    let System {
        nodes,
        equations,
        names,
        ..
    } = system;
    solved_table(alloc, nodes, equations, names.as_slice(), name_types as u32)
}

/// The kinds of identifiers, by the table of their system.
fn read_table(
    alloc: Global,
    sig: &Signature,
    inhabitants: &Inhabitants,
    idents: &[IdentKind],
    table: &Solved,
) -> Result<Vec<Kind>, KindsError>
    requires inhabited { AreInhabitants (signature_of sig.now).constructors inhabitants.now }
    requires settled { IsSettledTable (shapes_of_nodes table.now.nodes.items) }
    requires order { AreInOrder (shapes_of_nodes table.now.nodes.items) table.now.order.items }
    ensures read { IfOk result (λ ks. AreKindsRead (signature_of sig.now) idents.now
        (assignment_of table.now) (map kind_of ks.items)) }
    ensures inhabited { IfOk result (λ ks. AreInhabited (signature_of sig.now).constructors
        (map kind_of ks.items)) }
    ensures unread { IfErr result (λ e. IsUnread e (signature_of sig.now) idents.now
        (assignment_of table.now)) }
{
    let by = Declared {
        name_types: sig.name_types.items().len(),
        data_types: sig.data_types.items().len(),
        inhabitants,
    };
    let reads = read_holes(alloc, by, table, idents.len())?;
    read_inhabited(alloc, idents, reads)
}

/// The kinds of identifiers, by the solution of their system.
fn settle(
    alloc: Global,
    sig: &Signature,
    inhabitants: &Inhabitants,
    idents: &[IdentKind],
    system: System,
) -> Result<Vec<Kind>, KindsError>
    requires inhabited { AreInhabitants (signature_of sig.now).constructors inhabitants.now }
    requires formed { AreFormed (system_of system).table }
    ensures ok { IfOk result (λ ks. IsFound (signature_of sig.now) idents.now (system_of system)
        (map kind_of ks.items)) }
    ensures err { IfErr result (λ e. IsNotFound e (signature_of sig.now) idents.now
        (system_of system)) }
{
    match table_of_holes(alloc, sig, system) {
        Ok(table) => read_table(alloc, sig, inhabitants, idents, &table),
        Err(TypesError::Clash) => Err(KindsError::Clash),
        Err(TypesError::Memory) => Err(KindsError::Memory),
    }
}

/// The system of a query.
fn system_of_query(
    alloc: Global,
    sig: &Signature,
    goal: &Goal<Raw>,
    idents: &[IdentKind],
) -> Result<System, Memory>
    ensures { IfOk result (λ s. system_of s
        ≡ gather_goal (signature_of sig.now) idents.now (goal_over raw_of goal.now)
        (started idents.now)) }
{
    let mut system = started(alloc, idents)?;
    gather_goal(alloc, sig, idents, goal, &mut system)?;
    Ok(system)
}

/// The system of a clause.
fn system_of_clause(
    alloc: Global,
    sig: &Signature,
    pred: u32,
    args: &List<Raw>,
    body: &Goal<Raw>,
    idents: &[IdentKind],
) -> Result<System, Memory>
    ensures { IfOk result (λ s. system_of s
        ≡ gather_goal (signature_of sig.now) idents.now (goal_over raw_of body.now) (gather_atom
        (signature_of sig.now) idents.now pred (map raw_of args.now) (started idents.now))) }
{
    let mut system = started(alloc, idents)?;
    gather_atom(alloc, sig, idents, pred, args.items(), &mut system)?;
    gather_goal(alloc, sig, idents, body, &mut system)?;
    Ok(system)
}

/// The only kinds of its identifiers that type a query.
///
/// Kinds type it where each identifier has one, of a name or of a variable as it is one and of a type
/// that is declared, and the goal is typed by them, its names having the sorts of their kinds; the
/// sorts that stand in the goal are not looked at. The types are those of αProlog, after Cheney and
/// Urban, Nominal Logic Programming, and are inferred after Damas and Milner, Principal type-schemes
/// for functional programs, without schemes. `inhabitants` are those of the signature's constructors, so
/// that the constructors are not gone through for each query.
///
/// `Clash`: no kinds type it, as where a number is that of no identifier, or a constructor or predicate
/// is not declared or has other arguments than declared. `Ambiguous`: more than one list of kinds does.
/// `Empty`: exactly one does, and gives a variable a type that is not inhabited. `Memory` is want of
/// memory.
pub fn kinds_of_query(
    alloc: Global,
    sig: &Signature,
    inhabitants: &Inhabitants,
    goal: &Goal<Raw>,
    idents: &[IdentKind],
) -> Result<Vec<Kind>, KindsError>
    requires { AreInhabitants (signature_of sig.now).constructors inhabitants.now }
    ensures ok { IfOk result (λ ks. IsInferred (signature_of sig.now).constructors (TypesQuery
        (signature_of sig.now) idents.now (goal_over raw_of goal.now)) (map kind_of ks.items)) }
    ensures err { IfErr result (λ e. IsRefused e (signature_of sig.now).constructors (TypesQuery
        (signature_of sig.now) idents.now (goal_over raw_of goal.now))) }
{
    let system = system_of_query(alloc, sig, goal, idents)?;
    settle(alloc, sig, inhabitants, idents, system)
}

/// The only kinds of its identifiers that type a clause of a predicate, by its head's arguments and its
/// body.
///
/// As `kinds_of_query`; besides, the arguments have the types that the predicate is declared with.
pub fn kinds_of_clause(
    alloc: Global,
    sig: &Signature,
    inhabitants: &Inhabitants,
    pred: u32,
    args: &List<Raw>,
    body: &Goal<Raw>,
    idents: &[IdentKind],
) -> Result<Vec<Kind>, KindsError>
    requires { AreInhabitants (signature_of sig.now).constructors inhabitants.now }
    ensures ok { IfOk result (λ ks. IsInferred (signature_of sig.now).constructors (TypesClause
        (signature_of sig.now) idents.now pred (map raw_of args.now) (goal_over raw_of body.now))
        (map kind_of ks.items)) }
    ensures err { IfErr result (λ e. IsRefused e (signature_of sig.now).constructors (TypesClause
        (signature_of sig.now) idents.now pred (map raw_of args.now) (goal_over raw_of body.now))) }
{
    let system = system_of_clause(alloc, sig, pred, args, body, idents)?;
    settle(alloc, sig, inhabitants, idents, system)
}
