//! What the items so far declare.
ghost use Rattle.std.specs.Prelude.{◌≡◌};
ghost use Rattle.std.specs.Option.{option_map};
ghost use Rattle.ap_defs.specs.Types.{type_of};
ghost use Rattle.ap_scopes.specs.Declarations as spec;
ghost use Rattle.ap_scopes.specs.Declarations.{type_named, constructor_place, predicate_place};
ghost use Rattle.ap_scopes.specs.Flaws as flaws;
ghost use Rattle.ap_scopes.specs.Views.{declared_of, IsIndexed, IsSmall};

use crate::words::Words;
use ap_defs::goals::Signature;
use ap_defs::lists::List;
use ap_defs::terms::Ty;
use std::alloc::Global;

/// The signature, and tables of its words.
#[derive(Drop)]
pub struct Declarations<'a> {
    pub signature: Signature,
    pub name_types: Words<'a>,
    pub data_types: Words<'a>,
    pub constructors: Words<'a>,
    pub predicates: Words<'a>,
}

impl<'a> Declarations<'a> {
    /// Nothing is declared.
    pub fn new(alloc: Global) -> Declarations<'a>
        ensures value { declared_of result ≡ spec.nothing_declared }
        ensures indexed { IsIndexed result }
    {
        Declarations {
            signature: Signature {
                name_types: List::of(Vec::new(alloc)),
                data_types: List::of(Vec::new(alloc)),
                constructors: List::of(Vec::new(alloc)),
                predicates: List::of(Vec::new(alloc)),
            },
            name_types: Words::new(alloc),
            data_types: Words::new(alloc),
            constructors: Words::new(alloc),
            predicates: Words::new(alloc),
        }
    }

    /// The type that a word stands for.
    pub fn type_named(&self, word: &str) -> Option<Ty>
        requires indexed { IsIndexed self.now }
        requires small { IsSmall self.now }
        ensures { option_map type_of result ≡ type_named (declared_of self.now).signature word.now }
    {
        if let Some(place) = self.name_types.place(word) {
            return Some(Ty::Names(place as u32));
        }
        let place = self.data_types.place(word)?;
        Some(Ty::Base(place as u32))
    }

    /// The place of a constructor.
    pub fn constructor_place(&self, word: &str) -> Option<usize>
        requires { IsIndexed self.now }
        ensures { result ≡ constructor_place (declared_of self.now) word.now }
    {
        self.constructors.place(word)
    }

    /// The place of a predicate.
    pub fn predicate_place(&self, word: &str) -> Option<usize>
        ensures { result ≡ predicate_place (declared_of self.now) word.now }
    {
        self.predicates.place(word)
    }

    /// How many arguments a constructor has.
    pub fn constructor_arity(&self, word: &str) -> Option<usize>
        requires { IsIndexed self.now }
        ensures { result ≡ flaws.constructor_arity (declared_of self.now) word.now }
    {
        let place = self.constructor_place(word)?;
        let constructor = self.signature.constructors.items().get(place)?;
        Some(constructor.args.items().len())
    }

    /// How many arguments a predicate has.
    pub fn predicate_arity(&self, word: &str) -> Option<usize>
        ensures { result ≡ flaws.predicate_arity (declared_of self.now) word.now }
    {
        let place = self.predicate_place(word)?;
        let args = self.signature.predicates.items().get(place)?;
        Some(args.items().len())
    }
}
