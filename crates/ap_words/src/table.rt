//! The table of the commands and of their options.

ghost use Rattle.std.specs.Prelude.{◌≡◌};
ghost use Rattle.ap_words.specs.Table.{commands, command_name, is_required, option_name, options_of};

/// A command.
#[derive(Clone, Copy)]
pub enum CommandName {
    /// `run`, which answers the queries of a text
    Run,
    /// `prove`, which writes the answers with their derivations as a bundle
    Prove,
    /// `check`, which checks the derivations of a bundle
    Check,
    /// `convert`, which writes a bundle in another version
    Convert,
    /// `count`, which counts how often each clause is used
    Count,
    /// `cover`, which tells what covers each ground proof of a bundle
    Cover,
    /// `examine`, which searches for counterexamples to the properties of a text
    Examine,
    /// `work`, which runs a text that is made from a number
    Work,
}

/// An option of a command.
#[derive(Clone, Copy)]
pub enum OptionName {
    /// `--depth`, the depth to which queries are searched
    Depth,
    /// `--workers`, how many workers search
    Workers,
    /// `--answers`, how many answers of each query are wanted
    Answers,
    /// `--to`, the version in which a bundle is written
    To,
    /// `--seed`, the number from which a text is made
    Seed,
    /// `--size`, how many queries such a text has
    Size,
}

static COMMANDS: [CommandName; 8] = [
    CommandName::Run,
    CommandName::Prove,
    CommandName::Check,
    CommandName::Convert,
    CommandName::Count,
    CommandName::Cover,
    CommandName::Examine,
    CommandName::Work,
];

static ANSWER_OPTIONS: [OptionName; 3] = [
    OptionName::Depth,
    OptionName::Workers,
    OptionName::Answers,
];

static SEARCH_OPTIONS: [OptionName; 2] = [OptionName::Depth, OptionName::Workers];

static VERSION_OPTIONS: [OptionName; 1] = [OptionName::To];

static WORK_OPTIONS: [OptionName; 3] = [OptionName::Seed, OptionName::Size, OptionName::Workers];

static NO_OPTIONS: [OptionName; 0] = [];

impl CommandName {
    /// All commands.
    pub fn all() -> &'static [CommandName]
        ensures { result.now ≡ commands }
    {
        COMMANDS.as_slice()
    }

    /// The word that names the command.
    pub fn name(self) -> &'static str
        ensures { result.now ≡ command_name self }
    {
        match self {
            CommandName::Run => "run",
            CommandName::Prove => "prove",
            CommandName::Check => "check",
            CommandName::Convert => "convert",
            CommandName::Count => "count",
            CommandName::Cover => "cover",
            CommandName::Examine => "examine",
            CommandName::Work => "work",
        }
    }

    /// The options that the command takes.
    pub fn options(self) -> &'static [OptionName]
        ensures { result.now ≡ options_of self }
    {
        match self {
            CommandName::Run => ANSWER_OPTIONS.as_slice(),
            CommandName::Prove => ANSWER_OPTIONS.as_slice(),
            CommandName::Check => NO_OPTIONS.as_slice(),
            CommandName::Convert => VERSION_OPTIONS.as_slice(),
            CommandName::Count => SEARCH_OPTIONS.as_slice(),
            CommandName::Cover => SEARCH_OPTIONS.as_slice(),
            CommandName::Examine => SEARCH_OPTIONS.as_slice(),
            CommandName::Work => WORK_OPTIONS.as_slice(),
        }
    }
}

impl OptionName {
    /// The name, without the `--` before it.
    pub fn name(self) -> &'static str
        ensures { result.now ≡ option_name self }
    {
        match self {
            OptionName::Depth => "depth",
            OptionName::Workers => "workers",
            OptionName::Answers => "answers",
            OptionName::To => "to",
            OptionName::Seed => "seed",
            OptionName::Size => "size",
        }
    }

    /// Whether a command that takes the option needs it.
    pub fn is_required(self) -> bool
        ensures { result ≡ is_required self }
    {
        match self {
            OptionName::Depth => true,
            OptionName::Workers => false,
            OptionName::Answers => false,
            OptionName::To => true,
            OptionName::Seed => true,
            OptionName::Size => true,
        }
    }
}
