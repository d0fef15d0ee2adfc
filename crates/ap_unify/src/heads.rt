//! What stands at the head of a part of a term.

ghost use Rattle.std.specs.Prelude.{◌≡◌};
ghost use Rattle.ap_defs.specs.Renaming.{IsBelow};
ghost use Rattle.ap_defs.specs.Substitution.{under};
ghost use Rattle.ap_store.specs.Views.{bindings_of, present, rank};
ghost use Rattle.ap_unify.specs.Parts.{IsHead, IsLook, IsMarkTrue};
ghost use Rattle.ap_equations.specs.Plain.{plain_term};

use ap_defs::terms::{Term, Var};
use ap_equations::plain::Plain;
use ap_store::slots::Found;
use ap_store::store::Store;

/// No suspension, an unbound variable on which no swappings wait, or another suspension.
#[derive(Clone, Copy)]
pub enum Head {
    Form,
    Free(Var),
    Other,
}

/// What one look at the head of a part finds: what stands there, or what is bound to the variable there, where no
/// swappings wait on either.
#[derive(Clone, Copy)]
pub enum Look<'a> {
    Form,
    Free(Var),
    Other,
    Further(Plain<'a>),
}

/// A part, and what stands at its head.
#[derive(Clone, Copy)]
pub struct PartWithHead<'a> {
    pub part: Plain<'a>,
    pub head: Head,
}

/// A look at the head of a part. What is bound to a variable there is known to be ground where it is marked so, or
/// the part is known to be ground. It takes no memory.
fn look_at<'a>(store: &Store<'a>, p: Plain<'a>) -> Look<'a>
    ensures { IsLook (present store.now) (rank store.now) p.entry result }
{
    match p.term {
        Term::Unit => Look::Form,
        Term::Name(_) => Look::Form,
        Term::Pair(_, _) => Look::Form,
        Term::App(_, _) => Look::Form,
        Term::Abs(_, _, _) => Look::Form,
        Term::Susp(q, x) => {
            if !q.items().is_empty() {
                return Look::Other;
            }
            let x = Var {
                num: p.base + x.num,
            };
            match store.found(x) {
                Found::Nothing => Look::Free(x),
                Found::Moved(_) => Look::Other,
                Found::Plain(b) => Look::Further(Plain {
                    base: b.base,
                    end: b.end,
                    term: b.term,
                    is_ground: p.is_ground,
                }),
                Found::Ground(b) => Look::Further(Plain {
                    base: b.base,
                    end: b.end,
                    term: b.term,
                    is_ground: true,
                }),
            }
        }
    }
}

/// A part that stands for the same term, with bindings at its head followed as long as no swappings
/// wait, and what stands at its head then. It takes no memory.
pub fn headed<'a>(store: &Store<'a>, mut p: Plain<'a>) -> PartWithHead<'a>
    ensures meaning { under (bindings_of store.now) (plain_term result.part)
        ≡ under (bindings_of store.now) (plain_term p.entry) }
    ensures below { IsBelow (present store.now).next (plain_term p.entry) →
        IsBelow (present store.now).next (plain_term result.part) }
    ensures mark { IsMarkTrue (bindings_of store.now) p.entry →
        IsMarkTrue (bindings_of store.now) result.part }
    ensures head { IsHead (bindings_of store.now) (plain_term result.part) result.head }
{
    'following: loop {
        match look_at(store, p) {
            Look::Form => {
                return PartWithHead {
                    part: p,
                    head: Head::Form,
                };
            }
            Look::Free(x) => {
                return PartWithHead {
                    part: p,
                    head: Head::Free(x),
                };
            }
            Look::Other => {
                return PartWithHead {
                    part: p,
                    head: Head::Other,
                };
            }
            Look::Further(further) => p = further,
        }
    }
}
