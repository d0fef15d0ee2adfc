//! What is said of words that aren't declared, are declared twice, or have another number of arguments.
ghost use Rattle.std.specs.Prelude.{◌≡◌};

use crate::declared::{Entry, Words};
use crate::known::known_word;
use crate::subject::{Subject, later_line, nearest_entry, note_declared, note_meant, space_word};
use crate::typing::{applied_space, is_goal};
use ap_defs::faults::TypeKind;
use ap_lexer::Token;
use ap_located::items::{Space, declared_word, span_at, text_at, tokens_in};
use ap_located::messages::{Message, Piece};
use ap_located::nodes::{Form, Node, node_at};
use std::alloc::Global;

/// What is wrong with a word: the kind, its token, the space in which it is looked for, and how many arguments
/// it is given.
#[derive(Clone, Copy)]
pub struct WordFlaw<'a> {
    pub kind: TypeKind,
    pub token: usize,
    pub space: Space,
    pub given: usize,
    pub entry: Option<Entry<'a>>,
}

/// What is wrong with an applied word, if anything.
fn application_flaw<'a>(
    entry: Option<Entry<'a>>,
    space: Space,
    node: Node,
) -> Option<WordFlaw<'a>> {
    let kind = match entry {
        None => TypeKind::Undeclared,
        Some(found) if found.count != node.count => TypeKind::Arity,
        Some(_) => return None,
    };
    Some(WordFlaw {
        kind,
        token: node.first,
        space,
        given: node.count,
        entry,
    })
}

/// What is wrong with a word in a clause or a query, if anything.
fn term_flaw<'a>(
    words: &Words<'a>,
    tokens: &[Token<'a>],
    nodes: &[Node],
    node: Node,
) -> Option<WordFlaw<'a>> {
    let is_word = matches!(node.form, Form::Word);
    if !is_word && !matches!(node.form, Form::Apply) {
        return None;
    }
    let above = node_at(nodes, node.parent).form;
    let is_call = is_goal(above);
    let space = applied_space(is_call);
    let entry = words.entry(space, text_at(tokens, node.first));
    let is_name = matches!(above, Form::Swap) && node.rank < 2;
    if is_word && !is_call && (entry.is_none() || is_name) {
        return None;
    }
    application_flaw(entry, space, node)
}

/// What is wrong with a word in a declaration, if anything.
fn declaration_flaw<'a>(
    words: &Words<'a>,
    tokens: &[Token<'a>],
    nodes: &[Node],
    node: Node,
) -> Option<WordFlaw<'a>> {
    let word = text_at(tokens, node.first);
    let is_binder = matches!(node.form, Form::Binder);
    if !is_binder && !matches!(node.form, Form::Word) {
        return None;
    }
    let is_result = node.parent == 0;
    if is_result && node.rank < 2 {
        return None;
    }
    let entry = words.entry(Space::Types, word);
    let flaw = WordFlaw {
        kind: TypeKind::Undeclared,
        token: node.first,
        space: Space::Types,
        given: 0,
        entry,
    };
    let result = is_result || is_constant(nodes, node);
    match entry {
        None => Some(flaw),
        Some(found) if (is_binder && !found.is_name) || (result && found.is_name) => {
            Some(WordFlaw {
                kind: TypeKind::Clash,
                ..flaw
            })
        }
        Some(_) => None,
    }
}

/// Whether a node is the type of a constructor without arguments.
fn is_constant(nodes: &[Node], node: Node) -> bool {
    matches!(node_at(nodes, node.parent).form, Form::Domain) && node_at(nodes, 0).count < 3
}

/// What is wrong with the word that an item declares, if anything.
fn repeated<'a>(
    words: &Words<'a>,
    tokens: &[Token<'a>],
    space: Space,
    token: usize,
) -> Option<WordFlaw<'a>> {
    let entry = words.entry(space, text_at(tokens, token))?;
    Some(WordFlaw {
        kind: TypeKind::Redeclared,
        token,
        space,
        given: 0,
        entry: Some(entry),
    })
}

/// The first word of an item at which a kind of fault shows.
pub fn word_flaw<'a>(
    words: &Words<'a>,
    tokens: &[Token<'a>],
    nodes: &[Node],
    kind: TypeKind,
) -> Option<WordFlaw<'a>> {
    let declaring = declared_word(tokens);
    if kind == TypeKind::Redeclared {
        let (space, token) = declaring?;
        return repeated(words, tokens, space, token);
    }
    for node in nodes {
        let flaw = if declaring.is_some() {
            declaration_flaw(words, tokens, nodes, *node)
        } else {
            term_flaw(words, tokens, nodes, *node)
        };
        if let Some(flaw) = flaw {
            if flaw.kind == kind {
                return Some(flaw);
            }
        }
    }
    None
}

fn plural(count: usize) -> &'static str {
    if count == 1 {
        " argument"
    } else {
        " arguments"
    }
}

/// Notes how the word of a type is declared.
fn note_type(message: &mut Message, word: &str) {
    message.note(
        "declare it in an item before: `@ : type.` or `@ : name_type.`",
        &[Piece::Word(word), Piece::Word(word)],
    );
}

/// Notes how a constructor or a predicate is declared.
fn note_how(message: &mut Message, flaw: WordFlaw<'_>, word: &str) {
    message.note_text("declare it in an item before");
    if flaw.given > 0 {
        message.say(
            ", with the types of its @@",
            &[
                Piece::Number(flaw.given as u64),
                Piece::Text(plural(flaw.given)),
            ],
        );
    }
    let form = match flaw.space {
        Space::Predicates if flaw.given == 0 => ": `pred @.`",
        Space::Predicates => ": `pred @(..).`",
        _ => ": `@ : .. -> ..`",
    };
    message.say(form, &[Piece::Word(word)]);
}

/// The space in which a word is declared that is looked for in another.
fn other_space(words: &Words<'_>, space: Space, word: &str) -> Option<Space> {
    for other in [Space::Types, Space::Constructors, Space::Predicates] {
        if other != space && words.table(other).get(word).is_some() {
            return Some(other);
        }
    }
    None
}

/// Notes the way out for a word that is declared elsewhere, or may be misspelt. Tells whether there is one.
fn note_other<'a>(
    message: &mut Message,
    words: &Words<'a>,
    flaw: WordFlaw<'a>,
    word: &'a str,
) -> bool {
    if let Some(near) = nearest_entry(words.table(flaw.space).entries(), word) {
        note_meant(message, near);
        return true;
    }
    if let Some(other) = other_space(words, flaw.space, word) {
        message.note(
            "it is declared as a @, and here stands a @",
            &[
                Piece::Text(space_word(other)),
                Piece::Text(space_word(flaw.space)),
            ],
        );
        return true;
    }
    false
}

/// Notes the way out for a word that is not declared.
fn note_way_out<'a>(
    message: &mut Message,
    subject: Subject<'_, 'a>,
    words: &Words<'a>,
    flaw: WordFlaw<'a>,
    word: &'a str,
) {
    if let Some(line) = later_line(subject, flaw.space, word) {
        message.note(
            "it is declared later, in line @; an item sees what the items before it declare",
            &[Piece::Number(line)],
        );
        return;
    }
    match known_word(flaw.space, word) {
        Some(known) => message.note_text(known),
        None if note_other(message, words, flaw, word) => {}
        None if matches!(flaw.space, Space::Types) => note_type(message, word),
        None => note_how(message, flaw, word),
    }
}

fn undeclared_message<'a>(
    alloc: Global,
    subject: Subject<'_, 'a>,
    words: &Words<'a>,
    tokens: &[Token<'a>],
    flaw: WordFlaw<'a>,
) -> Message {
    let word = text_at(tokens, flaw.token);
    let mut message = Message::new(alloc, span_at(tokens, flaw.token));
    message.say(
        "no @ `@` is declared",
        &[Piece::Text(space_word(flaw.space)), Piece::Word(word)],
    );
    note_way_out(&mut message, subject, words, flaw, word);
    message
}

fn say_repeated(message: &mut Message, space: Space, word: &str) {
    message.say(
        "the @ `@` is declared twice",
        &[Piece::Text(space_word(space)), Piece::Word(word)],
    );
    message.label_text("declared again here");
}

fn say_count(message: &mut Message, has: usize, given: usize, word: &str) {
    message.say(
        "`@` has @@ and is given @",
        &[
            Piece::Word(word),
            Piece::Number(has as u64),
            Piece::Text(plural(has)),
            Piece::Number(given as u64),
        ],
    );
}

fn say_type_word(message: &mut Message, is_name: bool, word: &str) {
    let said = if is_name {
        "the result of a constructor is of a data type, and `@` is a name type"
    } else {
        "left of `\\` stands a name type, and `@` is a data type"
    };
    message.say(said, &[Piece::Word(word)]);
}

/// Says what is wrong with a word that is declared.
fn say_flaw(message: &mut Message, flaw: WordFlaw<'_>, entry: Entry<'_>) {
    match flaw.kind {
        TypeKind::Redeclared => say_repeated(message, flaw.space, entry.word),
        TypeKind::Arity => say_count(message, entry.count, flaw.given, entry.word),
        _ => say_type_word(message, entry.is_name, entry.word),
    }
}

/// Notes what else may help with it.
fn note_flaw(message: &mut Message, flaw: WordFlaw<'_>, entry: Entry<'_>) {
    match flaw.kind {
        TypeKind::Arity if entry.count == 1 && flaw.given > 1 => message.note_text(
            "one argument that is a tuple is written in parentheses of its own: `f((t, u))`",
        ),
        TypeKind::Clash if entry.is_name => message.note_text(
            "names aren't declared: each word that is no constructor is one",
        ),
        _ => {}
    }
}

/// What is said of a flaw of a word that is declared.
fn declared_message(
    alloc: Global,
    subject: Subject<'_, '_>,
    tokens: &[Token<'_>],
    flaw: WordFlaw<'_>,
    entry: Entry<'_>,
) -> Message {
    let mut message = Message::new(alloc, span_at(tokens, flaw.token));
    say_flaw(&mut message, flaw, entry);
    note_declared(&mut message, subject, entry);
    note_flaw(&mut message, flaw, entry);
    message
}

/// What is said of the first word of an item at which a kind of fault shows, if there is one.
pub fn explain_word<'a>(
    alloc: Global,
    subject: Subject<'_, 'a>,
    words: &Words<'a>,
    nodes: &[Node],
    kind: TypeKind,
) -> Option<Message> {
    let range = subject.ranges.get(subject.item)?;
    let tokens = tokens_in(subject.tokens, *range);
    let flaw = word_flaw(words, tokens, nodes, kind)?;
    match flaw.entry {
        Some(entry) if flaw.kind != TypeKind::Undeclared => {
            Some(declared_message(alloc, subject, tokens, flaw, entry))
        }
        _ => Some(undeclared_message(alloc, subject, words, tokens, flaw)),
    }
}
