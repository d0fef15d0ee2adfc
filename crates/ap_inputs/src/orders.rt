//! What a command line asks for.

use ap_defs::limits::{Depth, Workers};

/// The most answers of a query that may be asked for.
pub const MOST_ANSWERS: u64 = 1_000_000;

/// Where messages go.
#[derive(Clone, Copy)]
pub enum Channel {
    /// To standard error.
    Beside,
    /// To standard output, among the answers.
    Among,
}

/// The commands.
#[derive(Clone, Copy)]
pub enum Command {
    Add,
    Answers,
    Count,
    Deeper,
    Depth,
    Examine,
    Help,
    List,
    Load,
    Messages,
    More,
    Prove,
    Quit,
    Reload,
    Time,
    Workers,
}

/// What a command line asks for.
#[derive(Clone, Copy)]
pub enum Order<'a> {
    /// Ask for so many answers of each query.
    Answers(u64),
    /// Add the clauses of the lines that follow.
    Add,
    /// Count how often each clause is used for the last query.
    Count,
    /// Ask the last query to twice the depth.
    Deeper,
    /// Search to this depth.
    Depth(Depth),
    /// Search for a counterexample to the last query, as a property.
    Examine,
    /// Tell the commands.
    Help,
    /// Show what the loaded text says of a word.
    List(&'a str),
    /// Load the files of these names, with blanks between them.
    Load(&'a str),
    /// Say messages there.
    Messages(Channel),
    /// Ask the last query for ten times as many answers.
    More,
    /// Write the derivations of the last query's answers.
    Prove,
    /// End.
    Quit,
    /// Load the same files again.
    Reload,
    /// Tell how long each query takes, or don't.
    Time(bool),
    /// Let so many workers search.
    Workers(Workers),
    /// The words behind a command aren't those that it takes.
    Misused(Command),
    /// There is no such command.
    Unknown,
}

impl Command {
    /// How the command is typed.
    pub fn usage(self) -> &'static str {
        match self {
            Command::Add => ":add",
            Command::Answers => ":answers N, from 1 to 1000000",
            Command::Count => ":count",
            Command::Deeper => ":deeper",
            Command::Depth => ":depth N, from 0 to 1000000",
            Command::Examine => ":examine",
            Command::Help => ":help",
            Command::List => ":list WORD",
            Command::Load => ":load FILE..",
            Command::Messages => ":messages among, or :messages beside",
            Command::More => ":more",
            Command::Prove => ":prove",
            Command::Quit => ":quit",
            Command::Reload => ":reload",
            Command::Time => ":time on, or :time off",
            Command::Workers => ":workers N, from 1 to 64",
        }
    }
}

/// The command of that name.
fn command_named(word: &str) -> Option<Command> {
    match word {
        ":add" => Some(Command::Add),
        ":answers" => Some(Command::Answers),
        ":count" => Some(Command::Count),
        ":deeper" => Some(Command::Deeper),
        ":depth" => Some(Command::Depth),
        ":examine" => Some(Command::Examine),
        ":help" => Some(Command::Help),
        ":list" => Some(Command::List),
        ":load" => Some(Command::Load),
        ":messages" => Some(Command::Messages),
        ":more" => Some(Command::More),
        ":prove" => Some(Command::Prove),
        ":quit" => Some(Command::Quit),
        ":reload" => Some(Command::Reload),
        ":time" => Some(Command::Time),
        ":workers" => Some(Command::Workers),
        _ => None,
    }
}

/// The first word, and the rest without the blanks round it.
fn word_and_rest(text: &str) -> (&str, &str) {
    match text.split_once(' ') {
        Some((word, rest)) => (word, rest.trim()),
        None => (text, ""),
    }
}

/// The number that a word spells.
fn number(word: &str) -> Option<u32> {
    if !word.as_bytes().iter().all(|byte| byte.is_ascii_digit()) {
        return None;
    }
    let Ok(number) = word.parse::<u32>() else {
        return None;
    };
    Some(number)
}

fn depth<'a>(rest: &str) -> Option<Order<'a>> {
    let depth = Depth::of(number(rest)?)?;
    Some(Order::Depth(depth))
}

fn workers<'a>(rest: &str) -> Option<Order<'a>> {
    let workers = Workers::of(number(rest)?)?;
    Some(Order::Workers(workers))
}

fn answers<'a>(rest: &str) -> Option<Order<'a>> {
    let count = u64::from(number(rest)?);
    if 1 <= count && count <= MOST_ANSWERS {
        Some(Order::Answers(count))
    } else {
        None
    }
}

fn time<'a>(rest: &str) -> Option<Order<'a>> {
    match rest {
        "on" => Some(Order::Time(true)),
        "off" => Some(Order::Time(false)),
        _ => None,
    }
}

fn messages<'a>(rest: &str) -> Option<Order<'a>> {
    match rest {
        "among" => Some(Order::Messages(Channel::Among)),
        "beside" => Some(Order::Messages(Channel::Beside)),
        _ => None,
    }
}

/// What a command that takes no words asks for, where there are none behind it.
fn without_words<'a>(command: Command) -> Option<Order<'a>> {
    match command {
        Command::Add => Some(Order::Add),
        Command::Count => Some(Order::Count),
        Command::Deeper => Some(Order::Deeper),
        Command::Examine => Some(Order::Examine),
        Command::Help => Some(Order::Help),
        Command::More => Some(Order::More),
        Command::Prove => Some(Order::Prove),
        Command::Quit => Some(Order::Quit),
        Command::Reload => Some(Order::Reload),
        _ => None,
    }
}

/// What a command asks for with these words behind it.
fn with_words<'a>(command: Command, rest: &'a str) -> Option<Order<'a>> {
    match command {
        Command::Answers => answers(rest),
        Command::Depth => depth(rest),
        Command::List => Some(Order::List(rest)),
        Command::Load => Some(Order::Load(rest)),
        Command::Messages => messages(rest),
        Command::Time => time(rest),
        Command::Workers => workers(rest),
        _ => None,
    }
}

fn order_by<'a>(command: Command, rest: &'a str) -> Option<Order<'a>> {
    if rest.is_empty() {
        without_words(command)
    } else {
        with_words(command, rest)
    }
}

/// What a line whose first mark is `:` asks for.
pub fn order_of(line: &str) -> Order<'_> {
    let (word, rest) = word_and_rest(line.trim());
    match command_named(word) {
        Some(command) => match order_by(command, rest) {
            Some(order) => order,
            None => Order::Misused(command),
        },
        None => Order::Unknown,
    }
}

/// What each command does.
pub const HELP: &str = "GOAL.            answers a query, of one or more lines
:more            asks the last query for ten times as many answers
:deeper          asks the last query to twice the depth
:prove           writes the loaded text with the last query, its answers and their derivations, as a bundle
:count           counts how often each clause is used in the derivations of the last query's answers
:examine         takes the last query as a property, its last goal to hold wherever the others do, and
                 searches for a counterexample
:list WORD       shows what the loaded text declares of a word, and its clauses
:load FILE..     loads files, as one text, in place of what is loaded
:reload          loads the same files again
:add             adds the clauses of the lines that follow, up to a line `.`
:depth N         searches to depth N, from 0 to 1000000
:answers N       asks for the first N answers of each query, from 1 to 1000000
:workers N       lets N workers search, from 1 to 64
:time on         tells how long each query takes; off: doesn't
:messages among  says messages on standard output; beside: on standard error
:help            tells this
:quit            ends, as the end of the input does
";
