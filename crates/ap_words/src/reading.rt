// From the words to what they ask for.
ghost use Rattle.std.specs.Prelude.{◌≡◌, IfOk, map, string_bytes};
ghost use Rattle.ap_words.specs.Words.{asked_by, asked_of, asked_together, asked_with, command_of, depth_in, limit_in, seed_in, size_in, version_in, workers_in};

use crate::program::is_taken;
use crate::settings::{Setting, complete, number_of, read_settings};
use crate::table::{CommandName, OptionName};
use crate::{Asked, Size};
use ap_bundle::version::Version;
use ap_defs::limits::{Depth, Workers};
use ap_defs::memory::Memory;
use ap_paths::Limit;
use std::alloc::Global;

/// The depth that is asked for.
fn depth(settings: &[Setting]) -> Option<Depth>
    ensures { result ≡ depth_in settings.now }
{
    let number = number_of(OptionName::Depth, settings)?;
    Depth::of(u32::try_from(number).ok()?)
}

/// How many workers are asked for.
fn workers(settings: &[Setting]) -> Option<Workers>
    ensures { result ≡ workers_in settings.now }
{
    match number_of(OptionName::Workers, settings) {
        Some(number) => Workers::of(u32::try_from(number).ok()?),
        None => Some(Workers::one()),
    }
}

/// The most answers of a query that may be asked for. All may be.
const MOST_ANSWERS: u64 = 1_000_000;

/// How many answers are asked for.
fn limit(settings: &[Setting]) -> Option<Limit>
    ensures { result ≡ limit_in settings.now }
{
    match number_of(OptionName::Answers, settings) {
        None => Some(Limit::All),
        Some(count) if 1 <= count && count <= MOST_ANSWERS => Some(Limit::First(count)),
        Some(_) => None,
    }
}

/// The version that is asked for.
fn version(settings: &[Setting]) -> Option<Version>
    ensures { result ≡ version_in settings.now }
{
    match number_of(OptionName::To, settings)? {
        1 => Some(Version::One),
        2 => Some(Version::Two),
        _ => None,
    }
}

/// The number from which a text is made.
fn seed(settings: &[Setting]) -> Option<u64>
    ensures { result ≡ seed_in settings.now }
{
    number_of(OptionName::Seed, settings)
}

/// How many queries the text has.
fn size(settings: &[Setting]) -> Option<Size>
    ensures { result ≡ size_in settings.now }
{
    let number = number_of(OptionName::Size, settings)?;
    Size::of(u32::try_from(number).ok()?)
}

/// What the settings of a command's options ask for.
fn asked_by(command: CommandName, settings: &[Setting]) -> Option<Asked>
    ensures { result ≡ asked_by command settings.now }
{
    match command {
        CommandName::Run => Some(Asked::Run {
            depth: depth(settings)?,
            workers: workers(settings)?,
            limit: limit(settings)?,
        }),
        CommandName::Prove => Some(Asked::Prove {
            depth: depth(settings)?,
            workers: workers(settings)?,
            limit: limit(settings)?,
        }),
        CommandName::Check => Some(Asked::Check),
        CommandName::Convert => Some(Asked::Convert {
            to: version(settings)?,
        }),
        CommandName::Count => Some(Asked::Count {
            depth: depth(settings)?,
            workers: workers(settings)?,
        }),
        CommandName::Cover => Some(Asked::Cover {
            depth: depth(settings)?,
            workers: workers(settings)?,
        }),
        CommandName::Examine => Some(Asked::Examine {
            depth: depth(settings)?,
            workers: workers(settings)?,
        }),
        CommandName::Work => Some(Asked::Work {
            seed: seed(settings)?,
            size: size(settings)?,
            workers: workers(settings)?,
        }),
    }
}

/// The command of that name.
fn command_named(word: &str) -> Option<CommandName>
    ensures { result ≡ command_of word.now }
{
    for command in CommandName::all() {
        if command.name() == word {
            return Some(*command);
        }
    }
    None
}

/// What the settings ask for, where they may be made together.
fn asked_together(command: CommandName, settings: &[Setting]) -> Option<Asked>
    ensures { result ≡ asked_together command settings.now }
{
    if complete(command.options(), settings) {
        asked_by(command, settings)
    } else {
        None
    }
}

/// What the words after a command ask of it.
fn asked_of_command(
    alloc: Global,
    command: CommandName,
    words: &[String],
) -> Result<Option<Asked>, Memory>
    ensures { IfOk result (λ asked. asked ≡ asked_with command (map string_bytes words.now)) }
{
    match read_settings(alloc, command.options(), words)? {
        Some(settings) => Ok(asked_together(command, settings.as_slice())),
        None => Ok(None),
    }
}

/// What the words ask for.
fn asked_words(alloc: Global, words: &[String]) -> Result<Option<Asked>, Memory>
    ensures { IfOk result (λ asked. asked ≡ asked_of (map string_bytes words.now)) }
{
    match words.split_first() {
        Some((word, rest)) => match command_named(word.as_str()) {
            Some(command) => asked_of_command(alloc, command, rest),
            None => Ok(None),
        },
        None => Ok(None),
    }
}

/// What the words after the program's name ask for, where they are accepted. The command is built by
/// clap too, which then takes the words: it would answer otherwise only for want of memory.
///
/// `Err` is want of memory.
pub fn read(alloc: Global, words: &[String]) -> Result<Option<Asked>, Memory>
    ensures { IfOk result (λ asked. asked ≡ asked_of (map string_bytes words.now)) }
{
    let Some(asked) = asked_words(alloc, words)? else {
        return Ok(None);
    };
    if is_taken(alloc, words)? {
        Ok(Some(asked))
    } else {
        Ok(None)
    }
}
