//! Terms as they are read, goals of them and kinds, spelled out as their constructors.

use crate::spelling::Spelling;
use ap_defs::goals::{Goal, Kind};
use ap_defs::lists::List;
use ap_defs::terms::{Id, Name, Raw, SwapPlaces, Ty, Under, Var};

fn put_name(out: &mut Spelling, name: Name) {
    out.put("Name(");
    out.put_name(name);
    out.put(")");
}

fn put_var(out: &mut Spelling, var: Var) {
    out.put("Var(");
    out.put_var(var);
    out.put(")");
}

fn put_id(out: &mut Spelling, id: &Id) {
    match id {
        Id::Name(a) => put_name(out, *a),
        Id::Var(x) => put_var(out, *x),
    }
}

fn put_places(out: &mut Spelling, places: &SwapPlaces) {
    out.put("SwapPlaces { left: ");
    put_id(out, &places.left);
    out.put(", right: ");
    put_id(out, &places.right);
    out.put(" }");
}

/// The beginning of a constructor whose first part is a number.
fn begin(out: &mut Spelling, constructor: &str, number: u32, end: &str) {
    out.put(constructor);
    out.put("(");
    out.put_number(number as u64, end);
}

#[cycle(raws)]
fn put_under(out: &mut Spelling, under: &Under) {
    match under {
        Under::Abs(id, body) => {
            out.put("Under(Abs(");
            put_id(out, id);
            out.put(", ");
            put_raw(out, body);
        }
        Under::Swapped(places, body) => {
            out.put("Under(Swapped(");
            put_places(out, places);
            out.put(", ");
            put_raw(out, body);
        }
    }
    out.put("))");
}

#[cycle(raws)]
fn put_raw(out: &mut Spelling, term: &Raw) {
    match term {
        Raw::Unit => out.put("Unit"),
        Raw::Name(a) => put_name(out, *a),
        Raw::Var(x) => put_var(out, *x),
        Raw::Pair(left, right) => {
            out.put("Pair(");
            put_raw(out, left);
            out.put(", ");
            put_raw(out, right);
            out.put(")");
        }
        Raw::App(f, argument) => {
            begin(out, "App", *f, ", ");
            put_raw(out, argument);
            out.put(")");
        }
        Raw::Under(under) => put_under(out, under),
    }
}

/// Two terms as the parts of a goal.
fn put_two(out: &mut Spelling, constructor: &str, left: &Raw, right: &Raw) {
    out.put(constructor);
    out.put("(");
    put_raw(out, left);
    out.put(", ");
    put_raw(out, right);
    out.put(")");
}

/// A list of terms.
pub fn put_raws(out: &mut Spelling, terms: &List<Raw>) {
    out.put("List { items: [");
    for (i, term) in terms.items().iter().enumerate() {
        if i > 0 {
            out.put(", ");
        }
        put_raw(out, term);
    }
    out.put("] }");
}

fn put_atom(out: &mut Spelling, pred: u32, args: &List<Raw>) {
    begin(out, "Atom", pred, ", ");
    put_raws(out, args);
    out.put(")");
}

/// A goal.
pub fn put_raw_goal(out: &mut Spelling, goal: &Goal<Raw>) {
    match goal {
        Goal::True => out.put("True"),
        Goal::Atom(pred, args) => put_atom(out, *pred, args),
        Goal::Equal(left, right) => put_two(out, "Equal", left, right),
        Goal::Fresh(left, right) => put_two(out, "Fresh", left, right),
        Goal::Both(left, right) => {
            out.put("Both(");
            put_raw_goal(out, left);
            out.put(", ");
            put_raw_goal(out, right);
            out.put(")");
        }
        Goal::Either(left, right) => {
            out.put("Either(");
            put_raw_goal(out, left);
            out.put(", ");
            put_raw_goal(out, right);
            out.put(")");
        }
        Goal::Exists(x, body) => {
            out.put("Exists(");
            out.put_var(*x);
            out.put(", ");
            put_raw_goal(out, body);
            out.put(")");
        }
        Goal::New(a, body) => {
            out.put("New(");
            out.put_name(*a);
            out.put(", ");
            put_raw_goal(out, body);
            out.put(")");
        }
    }
}

fn put_ty(out: &mut Spelling, ty: &Ty) {
    match ty {
        Ty::Unit => out.put("Unit"),
        Ty::Names(sort) => begin(out, "Names", *sort, ")"),
        Ty::Base(data) => begin(out, "Base", *data, ")"),
        Ty::Pair(left, right) => {
            out.put("Pair(");
            put_ty(out, left);
            out.put(", ");
            put_ty(out, right);
            out.put(")");
        }
        Ty::List(element) => {
            out.put("List(");
            put_ty(out, element);
            out.put(")");
        }
        Ty::Abs(sort, body) => {
            begin(out, "Abs", *sort, ", ");
            put_ty(out, body);
            out.put(")");
        }
    }
}

/// A kind of an identifier.
pub fn put_kind(out: &mut Spelling, kind: &Kind) {
    match kind {
        Kind::Name(sort) => begin(out, "Name", *sort, ")"),
        Kind::Var(ty) => {
            out.put("Var(");
            put_ty(out, ty);
            out.put(")");
        }
    }
}
