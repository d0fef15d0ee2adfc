// The program's command, as clap reads it.
ghost use Rattle.std.specs.Prelude.{◌≡◌, true, false, IfOk, map, string_bytes};
ghost use Rattle.clap.specs.Words.{app_of, rule_of, takes};
ghost use Rattle.ap_words.specs.Program.{HasNoGlobals, argument_of, bare_program, bare_subcommand, program as the_program, subcommand_of};

use crate::table::{CommandName, OptionName};
use ap_defs::memory::Memory;
use clap::error::ErrorKind;
use clap::{Arg, ArgAction, Command};
use std::alloc::{AllocError, Global};

/// The argument of an option.
fn argument<'a>(alloc: Global, option: OptionName) -> Arg<'a>
    ensures rule { rule_of result ≡ argument_of option }
    ensures local { result.global ≡ false }
{
    let name: &'a str = option.name();
    Arg::new(alloc, name)
        .long(name)
        .action(ArgAction::Set)
        .required(option.is_required())
}

/// The subcommand of a command.
fn subcommand<'a>(alloc: Global, command: CommandName) -> Result<Command<'a>, AllocError>
    ensures made { IfOk result (λ made. app_of made ≡ subcommand_of command) }
    ensures local { IfOk result HasNoGlobals }
{
    let name: &'a str = command.name();
    let mut made = Command::new(alloc, name).disable_help_flag(true);
    for option in command.options() {
        made = made.arg(argument(alloc, *option))?;
    }
    Ok(made)
}

/// The program's command.
fn program<'a>(alloc: Global) -> Result<Command<'a>, AllocError>
    ensures { IfOk result (λ made. app_of made ≡ the_program) }
{
    let name: &'a str = "alphaprolog";
    let mut made = Command::new(alloc, name)
        .no_binary_name(true)
        .disable_help_flag(true)
        .disable_help_subcommand(true)
        .subcommand_required(true);
    for command in CommandName::all() {
        made = made.subcommand(subcommand(alloc, *command)?)?;
    }
    Ok(made)
}

/// Whether clap takes the words. It does where they are a command, its required options and others of
/// its options, each once and with a value.
pub(crate) fn is_taken(alloc: Global, words: &[String]) -> Result<bool, Memory>
    ensures { IfOk result (λ taken. takes the_program (map string_bytes words.now) ≡ true →
        taken ≡ true) }
{
    match program(alloc)?.try_get_matches_from(words) {
        Ok(_) => Ok(true),
        Err(error) => match error.kind() {
            ErrorKind::OutOfMemory => Err(Memory),
            _ => Ok(false),
        },
    }
}
