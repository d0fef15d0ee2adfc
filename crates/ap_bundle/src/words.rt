//! The words of a bundle's lines.

ghost use Rattle.std.specs.Prelude.{◌≡◌};
ghost use Rattle.ap_bundle.specs.Words as spec;

/// A letter that begins a term or a type in prefix form.
#[derive(Clone, Copy, PartialEq, Eq, Hash)]
pub enum Letter {
    /// `u`, unit
    U,
    /// `n`, a name, or the type of a sort's names
    N,
    /// `p`, a pair
    P,
    /// `a`, an application
    A,
    /// `l`, an abstraction, or the type of lists
    L,
    /// `s`, a suspension
    S,
    /// `d`, a data type
    D,
    /// `b`, the type of abstractions
    B,
}

/// The word that begins the line of a node.
#[derive(Clone, Copy, PartialEq, Eq, Hash)]
pub enum NodeWord {
    Atom,
    Eq,
    Fresh,
    True,
    And,
    Left,
    Right,
    Exists,
    New,
}

/// The word that begins a line of another kind.
#[derive(Clone, Copy, PartialEq, Eq, Hash)]
pub enum Head {
    Text,
    Terms,
    Derivations,
    Derivation,
    Vars,
    Conds,
    Binds,
    End,
    /// `v`, a variable with its type
    V,
    /// `c`, a condition
    C,
    /// `m`, a name
    M,
    /// `t`, a term
    T,
    /// `r`, the number of a shared term
    R,
}

/// A word of a line.
#[derive(Clone, Copy, PartialEq, Eq, Hash)]
pub enum Word {
    Number(u64),
    Letter(Letter),
    Node(NodeWord),
    Head(Head),
}

static LETTERS: [Letter; 8] = [
    Letter::U,
    Letter::N,
    Letter::P,
    Letter::A,
    Letter::L,
    Letter::S,
    Letter::D,
    Letter::B,
];

static NODE_WORDS: [NodeWord; 9] = [
    NodeWord::Atom,
    NodeWord::Eq,
    NodeWord::Fresh,
    NodeWord::True,
    NodeWord::And,
    NodeWord::Left,
    NodeWord::Right,
    NodeWord::Exists,
    NodeWord::New,
];

static HEADS: [Head; 13] = [
    Head::T,
    Head::M,
    Head::R,
    Head::V,
    Head::C,
    Head::Text,
    Head::Terms,
    Head::Derivations,
    Head::Derivation,
    Head::Vars,
    Head::Conds,
    Head::Binds,
    Head::End,
];

impl Letter {
    /// All letters.
    pub fn all() -> &'static [Letter]
        ensures { result.now ≡ spec.letters }
    {
        LETTERS.as_slice()
    }

    /// How the letter is spelled.
    pub fn text(self) -> &'static str
        ensures { result.now ≡ spec.letter_text self }
    {
        match self {
            Letter::U => "u",
            Letter::N => "n",
            Letter::P => "p",
            Letter::A => "a",
            Letter::L => "l",
            Letter::S => "s",
            Letter::D => "d",
            Letter::B => "b",
        }
    }
}

impl NodeWord {
    /// All words that begin the line of a node.
    pub fn all() -> &'static [NodeWord]
        ensures { result.now ≡ spec.node_words }
    {
        NODE_WORDS.as_slice()
    }

    /// How the word is spelled.
    pub fn text(self) -> &'static str
        ensures { result.now ≡ spec.node_text self }
    {
        match self {
            NodeWord::Atom => "atom",
            NodeWord::Eq => "eq",
            NodeWord::Fresh => "fresh",
            NodeWord::True => "true",
            NodeWord::And => "and",
            NodeWord::Left => "left",
            NodeWord::Right => "right",
            NodeWord::Exists => "exists",
            NodeWord::New => "new",
        }
    }
}

impl Head {
    /// All words that begin a line of another kind.
    pub fn all() -> &'static [Head]
        ensures { result.now ≡ spec.heads }
    {
        HEADS.as_slice()
    }

    /// How the word is spelled.
    pub fn text(self) -> &'static str
        ensures { result.now ≡ spec.head_text self }
    {
        match self {
            Head::Text => "text",
            Head::Terms => "terms",
            Head::Derivations => "derivations",
            Head::Derivation => "derivation",
            Head::Vars => "vars",
            Head::Conds => "conds",
            Head::Binds => "binds",
            Head::End => "end",
            Head::V => "v",
            Head::C => "c",
            Head::M => "m",
            Head::T => "t",
            Head::R => "r",
        }
    }
}
