// What the words after a command set its options to.
ghost use Rattle.std.specs.Prelude.{◌≡◌, ◌<◌, ◌≤◌, IfOk, drop, length, map, string_bytes};
ghost use Rattle.std.specs.Char.{is_ascii_digit};
ghost use Rattle.std.specs.List.{list_all};
ghost use Rattle.std.specs.Prelude.{count_by, find, option_map};
ghost use Rattle.std.specs.Str.{bytes_eq};
ghost use Rattle.ap_words.specs.Table.{option_name};
ghost use Rattle.ap_words.specs.Words.{are_complete, both_settings, is_well_set, number_in, number_of, option_of, setting_of, settings_of, sets};

use crate::table::OptionName;
use ap_defs::memory::Memory;
use std::alloc::Global;

/// An option, and the number that it is set to.
#[derive(Clone, Copy)]
pub(crate) struct Setting {
    pub(crate) option: OptionName,
    pub(crate) number: u64,
}

fn all_digits(text: &str) -> bool
    ensures { result ≡ list_all is_ascii_digit text.now }
{
    text.as_bytes().iter().all(|byte| byte.is_ascii_digit())
}

/// The number that digits spell.
fn number(text: &str) -> Option<u64>
    ensures { result ≡ number_of text.now }
{
    // `parse` alone would take a sign.
    if !all_digits(text) {
        return None;
    }
    let Ok(number) = text.parse::<u64>() else {
        return None;
    };
    Some(number)
}

/// The option of that name.
fn option_called(options: &[OptionName], name: &str) -> Option<OptionName>
    ensures { result ≡ find (λ o. bytes_eq (option_name o) name.now) options.now }
{
    for option in options {
        if option.name() == name {
            return Some(*option);
        }
    }
    None
}

/// The option whose name follows `--`.
fn option_named(options: &[OptionName], word: &str) -> Option<OptionName>
    ensures { result ≡ option_of options.now word.now }
{
    match word.strip_prefix("--") {
        Some(name) => option_called(options, name),
        None => None,
    }
}

fn setting_named(options: &[OptionName], name: &str, value: &str) -> Option<Setting>
    ensures { result ≡ setting_of options.now name.now value.now }
{
    let option = option_named(options, name)?;
    let number = number(value)?;
    Some(Setting { option, number })
}

/// What begins with the word at this place: a setting, if it is one, and the place after it.
fn setting_at(options: &[OptionName], words: &[String], at: usize) -> (Option<Setting>, usize)
    requires { at < length words.now }
    ensures first { settings_of options.now (drop at (map string_bytes words.now))
        ≡ both_settings result.0 (settings_of options.now (drop result.1
        (map string_bytes words.now))) }
    ensures further { (at < result.1) × (result.1 ≤ length words.now) }
{
    let word = words[at].as_str();
    if let Some((name, value)) = word.split_once('=') {
        (setting_named(options, name, value), at + 1)
    } else if at + 1 < words.len() {
        (setting_named(options, word, words[at + 1].as_str()), at + 2)
    } else {
        (None, at + 1)
    }
}

/// What the words set, if they are settings of the options.
pub(crate) fn read_settings(
    alloc: Global,
    options: &[OptionName],
    words: &[String],
) -> Result<Option<Vec<Setting>>, Memory>
    ensures { IfOk result (λ found. option_map (λ v. v.items) found
        ≡ settings_of options.now (map string_bytes words.now)) }
{
    let mut found = Vec::new(alloc);
    let mut at = 0;
    while at < words.len() {
        let (first, next) = setting_at(options, words, at);
        let Some(setting) = first else {
            return Ok(None);
        };
        found.push(setting)?;
        at = next;
    }
    Ok(Some(found))
}

/// How often an option is set.
fn times(option: OptionName, settings: &[Setting]) -> usize
    ensures count { result ≡ count_by (sets option) settings.now }
    ensures few { result ≤ length settings.now }
{
    let mut count = 0;
    for setting in settings {
        if setting.option.name() == option.name() {
            count += 1;
        }
    }
    count
}

/// Whether the option is not set twice, and is set if it is required.
fn well_set(option: OptionName, settings: &[Setting]) -> bool
    ensures { result ≡ is_well_set settings.now option }
{
    let count = times(option, settings);
    count <= 1 && (!option.is_required() || count >= 1)
}

/// Whether each of the options is.
pub(crate) fn complete(options: &[OptionName], settings: &[Setting]) -> bool
    ensures { result ≡ are_complete options.now settings.now }
{
    for option in options {
        if !well_set(*option, settings) {
            return false;
        }
    }
    true
}

/// What an option is set to.
pub(crate) fn number_of(option: OptionName, settings: &[Setting]) -> Option<u64>
    ensures { result ≡ number_in option settings.now }
{
    for setting in settings {
        if setting.option.name() == option.name() {
            return Some(setting.number);
        }
    }
    None
}
