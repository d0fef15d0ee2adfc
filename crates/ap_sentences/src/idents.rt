//! The names and variables of an item.
ghost use Rattle.std.specs.Prelude.{◌≡◌};

use ap_lexer::Token;
use ap_located::items::text_at;
use ap_located::nodes::{Form, LEVELS, Node, node_at};
use indexmap::IndexSet;
use std::alloc::Global;

/// A name or a variable: its first node, and the number of its type.
#[derive(Clone, Copy)]
pub struct Ident {
    pub node: usize,
    pub slot: usize,
    /// Whether it is a name.
    pub is_name: bool,
}

/// The names and variables of an item. Where memory is wanting for one, that is lost, and they are not whole.
#[derive(Drop)]
pub struct Idents<'a> {
    words: IndexSet<&'a str>,
    // for each word the identifier that no goal brings
    free: Vec<Ident>,
    // for each node that brings an identifier the node and that
    brought: Vec<(usize, Ident)>,
    all: Vec<Ident>,
    whole: bool,
}

impl<'a> Idents<'a> {
    /// No identifiers yet.
    pub fn new(alloc: Global) -> Idents<'a> {
        Idents {
            words: IndexSet::new(alloc),
            free: Vec::new(alloc),
            brought: Vec::new(alloc),
            all: Vec::new(alloc),
            whole: true,
        }
    }

    /// All of them, in order.
    pub fn all(&self) -> &[Ident] {
        self.all.as_slice()
    }

    /// Whether none was lost.
    pub fn is_whole(&self) -> bool {
        self.whole
    }

    /// Adds one that has no other places, or that the goal of a node brings.
    pub fn add(&mut self, ident: Ident) {
        if self.all.push(ident).is_err() {
            self.whole = false;
        }
    }

    /// Adds one that a goal brings.
    pub fn bring(&mut self, goal: usize, ident: Ident) {
        self.add(ident);
        if self.brought.push((goal, ident)).is_err() {
            self.whole = false;
        }
    }

    /// Adds one that no goal brings.
    pub fn add_free(&mut self, word: &'a str, ident: Ident) {
        self.add(ident);
        let kept = match self.words.insert(word) {
            Ok(true) => self.free.push(ident).is_ok(),
            Ok(false) => true,
            Err(_) => false,
        };
        self.whole = self.whole && kept;
    }

    /// The identifier that the goal of a node brings.
    fn brought_by(&self, goal: usize) -> Option<Ident> {
        match self.brought.binary_search_by_key(&goal, |pair| pair.0) {
            Ok(at) => match self.brought.get(at) {
                Some((_, ident)) => Some(*ident),
                None => None,
            },
            Err(_) => None,
        }
    }

    /// The identifier of a word that no goal brings.
    fn free_of(&self, word: &str) -> Option<Ident> {
        match self.words.get_index_of(word) {
            Some(number) => self.free.get(number).copied(),
            None => None,
        }
    }

    /// What a word at a node stands for, if it stood before.
    pub fn find(&self, tokens: &[Token<'a>], nodes: &[Node], place: usize) -> Option<Ident> {
        let word = text_at(tokens, node_at(nodes, place).first);
        let mut at = place;
        for _ in 0..LEVELS {
            let parent = node_at(nodes, at).parent;
            let above = node_at(nodes, parent);
            let brings = matches!(above.form, Form::New | Form::Exists);
            if brings && text_at(tokens, above.first.saturating_add(1)) == word {
                if let Some(ident) = self.brought_by(parent) {
                    return Some(ident);
                }
            }
            if parent == 0 {
                return self.free_of(word);
            }
            at = parent;
        }
        None
    }
}
