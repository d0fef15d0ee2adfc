//! An item as a list of nodes, each behind the node that it is a part of.
ghost use Rattle.std.specs.Prelude.{◌≡◌};

use ap_defs::memory::Memory;
use std::alloc::Global;

/// What a node stands for.
#[derive(Clone, Copy, PartialEq, Eq)]
pub enum Form {
    /// The whole item.
    Item,
    /// A word alone.
    Word,
    Variable,
    /// A word with arguments in parentheses.
    Apply,
    /// What stands in parentheses, with commas between.
    Tuple,
    /// What stands in brackets, with commas between.
    List,
    /// The same, with a part behind a bar at its end.
    ListTail,
    /// A binder and a body.
    Abs,
    /// Two identifiers and a body.
    Swap,
    /// What stands left of `\`, or behind `new` or `exists`.
    Binder,
    /// The head of a clause.
    Head,
    /// A goal that is one term.
    Atom,
    Equal,
    Fresh,
    /// Goals in parentheses.
    Group,
    /// A binder and goals.
    Exists,
    /// A binder and goals.
    New,
    /// The type behind the colon of a declaration.
    Domain,
    /// The types of a predicate.
    Predicate,
}

/// A part of an item: its form, its first and last token, the node that it is a part of and its place
/// among the parts of that, and how many parts it has itself.
#[derive(Clone, Copy)]
pub struct Node {
    pub form: Form,
    pub first: usize,
    pub last: usize,
    pub parent: usize,
    pub rank: usize,
    pub count: usize,
    /// Whether `;` stands between its parts.
    pub choice: bool,
}

/// The nodes of an item, of which the first is the whole.
#[derive(Drop)]
pub struct Nodes {
    nodes: Vec<Node>,
    open: usize,
}

impl Nodes {
    /// An item without parts, with room for about the parts of an item of so many tokens: every other
    /// one is a bracket or a comma.
    pub fn of_tokens(alloc: Global, tokens: usize) -> Result<Nodes, Memory> {
        let mut nodes = Vec::with_capacity(alloc, (tokens / 2).saturating_add(4))?;
        nodes.push(Node {
            form: Form::Item,
            first: 0,
            last: 0,
            parent: 0,
            rank: 0,
            count: 0,
            choice: false,
        })?;
        Ok(Nodes { nodes, open: 0 })
    }

    /// All nodes.
    pub fn all(&self) -> &[Node] {
        self.nodes.as_slice()
    }

    /// The node at a place, or the whole item.
    pub fn at(&self, place: usize) -> Node {
        node_at(self.nodes.as_slice(), place)
    }

    /// The place of the node that is open.
    pub fn open_place(&self) -> usize {
        self.open
    }

    /// What the node that is open stands for.
    pub fn open_form(&self) -> Form {
        match self.nodes.get(self.open) {
            Some(node) => node.form,
            None => Form::Item,
        }
    }

    /// How many parts the node that is open has.
    pub fn open_count(&self) -> usize {
        match self.nodes.get(self.open) {
            Some(node) => node.count,
            None => 0,
        }
    }

    /// Adds a part to the open node.
    pub fn add(&mut self, form: Form, token: usize) -> Result<(), Memory> {
        let parent = self.open;
        let rank = self.open_count();
        self.nodes.push(Node {
            form,
            first: token,
            last: token,
            parent,
            rank,
            count: 0,
            choice: false,
        })?;
        count_part(&mut self.nodes, parent);
        Ok(())
    }

    /// Adds a part to the open node, and opens it.
    pub fn enter(&mut self, form: Form, token: usize) -> Result<(), Memory> {
        let place = self.nodes.len();
        self.add(form, token)?;
        self.open = place;
        Ok(())
    }

    /// Gives the open node another form.
    pub fn change(&mut self, form: Form) {
        if let Some(node) = self.nodes.get_mut(self.open) {
            node.form = form;
        }
    }

    /// Tells the open node that `;` stands between its parts.
    pub fn choose(&mut self) {
        if let Some(node) = self.nodes.get_mut(self.open) {
            node.choice = true;
        }
    }

    /// Closes the open node behind a token.
    pub fn leave(&mut self, token: usize) {
        if let Some(node) = self.nodes.get_mut(self.open) {
            node.last = token;
            self.open = node.parent;
        }
    }
}

/// The most levels that are walked up from a node.
pub const LEVELS: usize = 1024;

/// The node at a place, or a whole item without parts.
pub fn node_at(nodes: &[Node], place: usize) -> Node {
    match nodes.get(place) {
        Some(node) => *node,
        None => Node {
            form: Form::Item,
            first: 0,
            last: 0,
            parent: 0,
            rank: 0,
            count: 0,
            choice: false,
        },
    }
}

fn count_part(nodes: &mut Vec<Node>, place: usize) {
    if let Some(node) = nodes.get_mut(place) {
        node.count = node.count.saturating_add(1);
    }
}

/// The first part of the node at a place, which stands right behind it.
pub fn first_part(nodes: &[Node], place: usize) -> Option<Node> {
    let node = nodes.get(place.saturating_add(1))?;
    if node.parent == place {
        Some(*node)
    } else {
        None
    }
}
