//! The rules by which a node of a derivation, or its answer, is refused.

ghost use Rattle.std.specs.Prelude.{◌≡◌};
ghost use Rattle.ap_checker.specs.Rules.{rule_number};

/// Why a node is refused. At a node the least rule counts.
#[derive(Clone, Copy)]
pub enum Rule {
    /// The node's form isn't that of the goal that it is to prove.
    Shape,
    /// The atom's predicate has no clause of that number.
    Clause,
    /// The names and terms aren't as many as the clause's free names and free variables.
    Count,
    /// Two of the names are equal.
    Distinct,
    /// A name hasn't the sort, or a term not the type, of the identifier that it stands for.
    Typing,
    /// An argument of the atom doesn't equal the head's, with the names and terms put in.
    Head,
    /// The sides of an equation aren't equal.
    Equal,
    /// The left side of a freshness goal isn't a name, or the name isn't fresh for the right side.
    Fresh,
    /// The name stands for a free name of the goal, or isn't fresh for what stands for a variable of it.
    NewName,
    /// There is no such query, or the answer doesn't fit it.
    Answer,
}

impl Rule {
    /// The number of the rule, from 1.
    pub fn number(self) -> u32
        ensures { result ≡ rule_number self }
    {
        match self {
            Rule::Shape => 1,
            Rule::Clause => 2,
            Rule::Count => 3,
            Rule::Distinct => 4,
            Rule::Typing => 5,
            Rule::Head => 6,
            Rule::Equal => 7,
            Rule::Fresh => 8,
            Rule::NewName => 9,
            Rule::Answer => 10,
        }
    }
}
