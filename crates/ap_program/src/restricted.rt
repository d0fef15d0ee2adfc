//! Programs that keep the name restriction.

ghost use Rattle.std.specs.Prelude.{◌≡◌};
ghost use Rattle.ap_defs.specs.Goals.{program_of};
ghost use Rattle.ap_program.specs.NameRestriction.{IsRestricted};

use ap_defs::goals::Program;
use ap_defs::terms::Term;
use std::marker::Model;

/// A program that is typed by the kinds of its identifiers, that keeps the name restriction, and that has
/// at most 16,777,216 name types, data types, constructors, predicates, clauses and queries in all.
///
/// The restriction has the aim of Urban and Cheney, "Avoiding Equivariance in Alpha-Prolog", and is this
/// project's own: each free name of a clause is fresh for each argument of its head, where the freshness
/// goals of the body and the types of the variables are known. Contracts see the program.
#[derive(Drop)]
pub struct Restricted {
    program: Program<Term>,
}

impl Model for Restricted {
    ghost use Rattle.ap_defs.specs.declared.goals.Program.{Program};
    ghost use Rattle.ap_defs.specs.declared.terms.Term.{Term};

    ghost Value = { Program Term };

    ghost use Rattle.ap_defs.specs.contracts.goals.Program as p;
    ghost use Rattle.ap_defs.specs.contracts.terms.Term as t;

    ghost coded = { (p.the_row t.the_row).coded };

    ghost use Rattle.ap_defs.specs.Goals.{program_of};
    ghost use Rattle.ap_program.specs.NameRestriction.{IsRestricted};

    ghost view = { λ a. a.program };

    ghost invariant = { λ a. IsRestricted (program_of a.program) };
}

impl Restricted {
    /// The program as a restricted one. It takes no memory.
    pub fn of(program: Program<Term>) -> Restricted
        requires { IsRestricted (program_of program) }
        ensures { result ≡ program }
    {
        Restricted { program }
    }

    /// The program itself, and that it is restricted.
    pub fn program(&self) -> &Program<Term>
        ensures same { result.now ≡ self.now }
        ensures restricted { IsRestricted (program_of self.now) }
    {
        &self.program
    }

    /// The program, to be changed, and that it is restricted as it stands. It takes no memory.
    pub fn into_program(self) -> Program<Term>
        ensures same { result ≡ self }
        ensures restricted { IsRestricted (program_of self) }
    {
        self.program
    }
}
