//! The words of the command line.

ghost use Rattle.std.specs.Prelude.{◌≡◌};
ghost use Rattle.ap_show_cli.specs.Words.{format_named};

use ap_defs::memory::Memory;
use ap_steps::pages::Format;
use clap::error::ErrorKind;
use clap::{Arg, ArgAction, Command};
use std::alloc::{AllocError, Global};

/// The format that a word names, if it names one.
fn format_named(word: &str) -> Option<Format>
    ensures { result ≡ format_named word.now }
{
    match word {
        "text" => Some(Format::Text),
        "latex" => Some(Format::Latex),
        "html" => Some(Format::Html),
        _ => None,
    }
}

/// The program's command: one option, which has to be there.
fn program<'a>(alloc: Global) -> Result<Command<'a>, AllocError> {
    let name: &'a str = "as";
    let option = Arg::new(alloc, name)
        .long(name)
        .action(ArgAction::Set)
        .required(true);
    let name: &'a str = "alphaprolog-show";
    Command::new(alloc, name)
        .no_binary_name(true)
        .disable_help_flag(true)
        .arg(option)
}

/// The format that the words ask for; none, where they are refused.
pub fn format_asked(alloc: Global, words: &[String]) -> Result<Option<Format>, Memory> {
    match program(alloc)?.try_get_matches_from(words) {
        Ok(matches) => match matches.get_str("as") {
            Some(word) => Ok(format_named(word)),
            None => Ok(None),
        },
        Err(error) => match error.kind() {
            ErrorKind::OutOfMemory => Err(Memory),
            _ => Ok(None),
        },
    }
}
