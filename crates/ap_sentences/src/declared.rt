//! What the items before a faulty one declare.
ghost use Rattle.std.specs.Prelude.{◌≡◌};

use crate::types::{Shape, Types};
use ap_defs::memory::Memory;
use ap_lexer::Token;
use ap_located::items::{Range, Space, declared_word, line_at, text_at, tokens_in};
use ap_located::nodes::{Form, Node, first_part, node_at};
use ap_located::reader::read_item;
use indexmap::IndexSet;
use std::alloc::Global;

/// A declared word: the first token of its declaration and its line, how many arguments it has, and the
/// numbers of the types of the first of these and of the result.
#[derive(Clone, Copy)]
pub struct Entry<'a> {
    pub word: &'a str,
    pub item: Range,
    pub line: u64,
    /// Of a type: whether it is a name type.
    pub is_name: bool,
    pub count: usize,
    pub args: usize,
    pub result: usize,
}

/// The declared words of one space.
#[derive(Drop)]
pub struct Table<'a> {
    words: IndexSet<&'a str>,
    entries: Vec<Entry<'a>>,
}

impl<'a> Table<'a> {
    /// A space without words.
    pub fn new(alloc: Global) -> Table<'a> {
        Table {
            words: IndexSet::new(alloc),
            entries: Vec::new(alloc),
        }
    }

    /// What is declared, in order.
    pub fn entries(&self) -> &[Entry<'a>] {
        self.entries.as_slice()
    }

    /// The word that is declared at a place, or nothing.
    pub fn word_at(&self, place: usize) -> &'a str {
        match self.entries.get(place) {
            Some(entry) => entry.word,
            None => "",
        }
    }

    /// The place of a word, and what is declared of it.
    fn look_up(&self, word: &str) -> Option<(usize, Entry<'a>)> {
        let place = self.words.get_index_of(word)?;
        match self.entries.get(place) {
            Some(entry) => Some((place, *entry)),
            None => None,
        }
    }

    /// What is declared of a word.
    pub fn get(&self, word: &str) -> Option<Entry<'a>> {
        match self.look_up(word) {
            Some((_, entry)) => Some(entry),
            None => None,
        }
    }

    /// Adds a word, and tells whether there was memory for it.
    fn add(&mut self, entry: Entry<'a>) -> bool {
        match self.words.insert(entry.word) {
            Ok(true) => self.entries.push(entry).is_ok(),
            Ok(false) => true,
            Err(_) => false,
        }
    }
}

/// The words that are declared.
#[derive(Drop)]
pub struct Words<'a> {
    pub types: Table<'a>,
    pub constructors: Table<'a>,
    pub predicates: Table<'a>,
}

impl<'a> Words<'a> {
    /// No words yet.
    pub fn new(alloc: Global) -> Words<'a> {
        Words {
            types: Table::new(alloc),
            constructors: Table::new(alloc),
            predicates: Table::new(alloc),
        }
    }

    /// The words of one space.
    pub fn table(&self, space: Space) -> &Table<'a> {
        match space {
            Space::Types => &self.types,
            Space::Constructors => &self.constructors,
            Space::Predicates => &self.predicates,
        }
    }

    /// What is declared of a word of a space.
    pub fn entry(&self, space: Space, word: &str) -> Option<Entry<'a>> {
        self.table(space).get(word)
    }

    /// The shape of a type that is one word.
    fn word_shape(&self, word: &str) -> Shape {
        match self.types.look_up(word) {
            Some((place, entry)) if entry.is_name => Shape::Name(place),
            Some((place, _)) => Shape::Data(place),
            None => Shape::Open,
        }
    }

    /// Adds a word, and tells whether there was memory for it.
    fn add(&mut self, space: Space, entry: Entry<'a>) -> bool {
        match space {
            Space::Types => self.types.add(entry),
            Space::Constructors => self.constructors.add(entry),
            Space::Predicates => self.predicates.add(entry),
        }
    }
}

/// All that is declared, and its types.
#[derive(Drop)]
pub struct Declared<'a> {
    pub words: Words<'a>,
    pub types: Types,
}

impl<'a> Declared<'a> {
    /// Adds a word that an item declares, with the types of its arguments and its result. Tells whether there was memory
    /// for it.
    fn declare(
        &mut self,
        alloc: Global,
        tokens: &[Token<'a>],
        space: Space,
        entry: Entry<'a>,
    ) -> bool {
        let typed = match space {
            Space::Types => Ok(entry),
            _ => self.typed(alloc, tokens, entry),
        };
        match typed {
            Ok(entry) => self.words.add(space, entry),
            Err(Memory) => false,
        }
    }

    /// Adds what an item declares, if anything.
    fn declare_item(&mut self, alloc: Global, part: &[Token<'a>], item: Range) {
        if let Some((space, at)) = declared_word(part) {
            let entry = Entry {
                word: text_at(part, at),
                item,
                line: line_at(part, 0),
                is_name: text_at(part, 2) == "name_type",
                count: 0,
                args: 0,
                result: 0,
            };
            if !self.declare(alloc, part, space, entry) {
                self.types.lose();
            }
        }
    }

    /// The entry with the types of its arguments and its result.
    fn typed(
        &mut self,
        alloc: Global,
        tokens: &[Token<'a>],
        entry: Entry<'a>,
    ) -> Result<Entry<'a>, Memory> {
        let reading = read_item(alloc, tokens)?;
        let nodes = reading.nodes.all();
        let bases = self.type_nodes(alloc, tokens, nodes)?;
        Ok(with_types(nodes, bases.as_slice(), entry))
    }

    /// The types that the nodes of a declaration spell: for each node the number of that of its first part.
    fn type_nodes(
        &mut self,
        alloc: Global,
        tokens: &[Token<'a>],
        nodes: &[Node],
    ) -> Result<Vec<usize>, Memory> {
        let mut bases: Vec<usize> = Vec::new(alloc);
        for node in nodes {
            let base = self.types.add_many(node.count, Shape::Open);
            let above = bases.get(node.parent).copied().unwrap_or(base);
            bases.push(base)?;
            if !matches!(node.form, Form::Item) {
                self.type_node(tokens, *node, above.saturating_add(node.rank), base);
            }
        }
        Ok(bases)
    }

    /// Gives the type of a node its shape.
    fn type_node(&mut self, tokens: &[Token<'a>], node: Node, own: usize, base: usize) {
        let shape = match node.form {
            Form::Word | Form::Binder => self.words.word_shape(text_at(tokens, node.first)),
            Form::Tuple => tuple_shape(&mut self.types, base, node.count),
            Form::List => Shape::List(base),
            Form::Abs => Shape::Abs(base, base.saturating_add(1)),
            _ => return,
        };
        self.types.set(own, shape);
    }
}

/// The shape of a tuple of types whose numbers follow one another.
pub fn tuple_shape(types: &mut Types, base: usize, count: usize) -> Shape {
    if count == 0 {
        return Shape::Unit;
    }
    if count == 1 {
        return Shape::Link(base);
    }
    let mut rest = base.saturating_add(count).saturating_sub(1);
    for back in 2..count {
        let part = base.saturating_add(count.saturating_sub(back));
        rest = types.add(Shape::Pair(part, rest));
    }
    Shape::Pair(base, rest)
}

/// The entry with the types of the nodes of its declaration.
fn with_types<'a>(nodes: &[Node], bases: &[usize], entry: Entry<'a>) -> Entry<'a> {
    let whole = bases.first().copied().unwrap_or(0);
    let first = node_at(nodes, 1);
    if matches!(first.form, Form::Predicate) {
        let args = bases.get(1).copied().unwrap_or(0);
        return Entry {
            count: first.count,
            args,
            ..entry
        };
    }
    // The nodes of a constructor: the word, the types of the arguments, and the word of the result.
    let domain = bases.get(2).copied().unwrap_or(0);
    let result = whole.saturating_add(2);
    match first_part(nodes, 2) {
        _ if node_at(nodes, 0).count < 3 => Entry {
            result: domain,
            ..entry
        },
        Some(part) if matches!(part.form, Form::Tuple) && part.count > 0 => Entry {
            count: part.count,
            args: bases.get(3).copied().unwrap_or(0),
            result,
            ..entry
        },
        _ => Entry {
            count: 1,
            args: domain,
            result,
            ..entry
        },
    }
}

/// What the first items declare. Where memory is wanting, its types are not whole.
pub fn declared_by<'a>(
    alloc: Global,
    tokens: &[Token<'a>],
    ranges: &[Range],
    items: usize,
) -> Declared<'a> {
    let mut declared = Declared {
        words: Words::new(alloc),
        types: Types::new(alloc),
    };
    for range in ranges.get(..items).unwrap_or(ranges) {
        declared.declare_item(alloc, tokens_in(tokens, *range), *range);
    }
    declared
}
