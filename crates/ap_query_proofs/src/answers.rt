//! The derivations of a query's answers, by the paths at which they were found.

use ap_backchain::problem::Problem;
use ap_defs::memory::Memory;
use ap_defs::paths::Path;
use ap_derive::assembling::Derived;
use ap_derive::counting::uses::Derive;
use ap_derive::derivations::derive_along;
use ap_shared::arena::SharedTerms;
use ap_shared::derivations::SharedDerivation;
use std::alloc::Global;

/// The answers of a problem, of which each is made again from its path.
#[derive(Clone, Copy)]
pub struct Answers<'a> {
    pub problem: Problem<'a>,
}

impl<'a> Derive for Answers<'a> {
    ghost use Rattle.ap_query_proofs.specs.CountedPaths.{LeadsToAnswer, derivation_of_path};

    ghost leads = { λ a. LeadsToAnswer a.problem };

    ghost at = { λ a. derivation_of_path a.problem };

    fn derivation(&self, alloc: Global, path: &Path) -> Result<SharedDerivation, Memory> {
        let none = SharedTerms::new(alloc);
        let found = derive_along(alloc, &self.problem, path.choices(), none)?;
        let Derived {
            terms: _terms,
            derivation,
        } = found;
        Ok(derivation)
    }
}
