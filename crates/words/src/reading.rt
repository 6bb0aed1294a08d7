//! The words after the program's name, as `clap` reads them.

ghost use Rattle.std.specs.Prelude.{◌≡◌, [], ◌∷◌, List, ℕ, Option, IfOk, IfSome, IfNone, MatchOption, Some, None, map, string_bytes, codes, true, false};
ghost use Rattle.clap.specs.Words.{app_of, rule_of, found_of};
ghost use Rattle.clap.specs.Matches.{first_value};
ghost use Rattle.words.specs.Items.{Item, read, plains, options};
ghost use Rattle.words.specs.Table.{the_app, command_rule, option_rule};
ghost use Rattle.words.specs.Forms.{IsForm};
ghost use Rattle.words.specs.Values.{HasValues, NamesUnit, NamesService, NamesSerial, NamesSize};
ghost use Rattle.words.specs.Words.{Asks, IsCommand};

use crate::command::{Command, Service, UnitName};
use crate::forms::{Verb, verb_of};
use crate::items::items_of;
use crate::parts::parts_of;
use base::Memory;
use clap::error::ErrorKind;
use clap::{Arg, ArgMatches};
use lines::read_number;
use partition::Name;
use std::alloc::Global;

/// The command that the words are, or None where they are none.
pub fn read_words(alloc: Global, words: &[String]) -> Result<Option<Command>, Memory>
    ensures { IfOk result (λ o. MatchOption o (IsCommand (map string_bytes words.now) → ⊥) (Asks (map string_bytes words.now))) }
{
    let Some(items) = items_of(alloc, words)? else {
        return Ok(None);
    };
    let parts = parts_of(alloc, items.as_slice())?;
    let [word] = parts.plains.as_slice() else {
        return Ok(None);
    };
    match verb_of(word, parts.options.as_slice()) {
        Some(verb) => command_of(alloc, words, verb),
        None => Ok(None),
    }
}

/// The command of this form, or None where a value is out of its range.
fn command_of(alloc: Global, words: &[String], verb: Verb) -> Result<Option<Command>, Memory>
    requires { (items : List Item) × (word : List ℕ) × (read None (map string_bytes words.now) ≡ Some items)
        × (plains items ≡ word ∷ []) × IsForm verb word (options items) }
    ensures { IfOk result (λ o. MatchOption o (IsCommand (map string_bytes words.now) → ⊥) (Asks (map string_bytes words.now))) }
{
    let command = the_command(alloc)?;
    match command.try_get_matches_from(words) {
        Ok(matches) => Ok(values_of(verb, &matches)),
        Err(error) => match error.kind() {
            ErrorKind::OutOfMemory => Err(Memory),
            _ => Ok(None),
        },
    }
}

/// The command of the values that `clap` has. A new command has an arm here.
fn values_of(verb: Verb, matches: &ArgMatches<'_>) -> Option<Command>
    ensures some { IfSome result (HasValues verb (first_value (found_of matches.now))) }
    ensures none { IfNone result ((command : Command) → HasValues verb (first_value (found_of matches.now)) command → ⊥) }
{
    match verb {
        Verb::Continuity => unit_of(matches).map(Command::Continuity),
        Verb::Learn => unit_of(matches).map(Command::Learn),
        Verb::Run => Some(Command::Run),
        Verb::Import => Some(Command::Import),
        Verb::Serve => service_of(matches).map(Command::Serve),
        Verb::Report => Some(Command::Report),
        Verb::Unit => serial_of(matches).map(Command::Unit),
        Verb::Export => Some(Command::Export),
        Verb::Soak => size_of(matches).map(Command::Soak),
    }
}

/// The unit that the values name.
fn unit_of(matches: &ArgMatches<'_>) -> Option<UnitName>
    ensures some { IfSome result (NamesUnit (first_value (found_of matches.now))) }
    ensures none { IfNone result ((unit : UnitName) → NamesUnit (first_value (found_of matches.now)) unit → ⊥) }
{
    let serial = matches.get_str("serial")?;
    let attempt = matches.get_str("attempt")?;
    let serial = Name::read(serial.as_bytes())?;
    let attempt = read_number(attempt.as_bytes(), 1, 9)?;
    Some(UnitName {
        serial,
        attempt: attempt as u8,
    })
}

/// The service that the values name.
fn service_of(matches: &ArgMatches<'_>) -> Option<Service>
    ensures some { IfSome result (NamesService (first_value (found_of matches.now))) }
    ensures none { IfNone result ((service : Service) → NamesService (first_value (found_of matches.now)) service → ⊥) }
{
    let port = matches.get_str("port")?;
    let count = matches.get_str("count")?;
    let port = read_number(port.as_bytes(), 1, 65_535)?;
    let count = read_number(count.as_bytes(), 1, 1_000_000)?;
    Some(Service {
        port: port as u16,
        count: count as u32,
    })
}

/// The serial that the value names.
fn serial_of(matches: &ArgMatches<'_>) -> Option<Name>
    ensures some { IfSome result (NamesSerial (first_value (found_of matches.now))) }
    ensures none { IfNone result ((serial : List ℕ) → NamesSerial (first_value (found_of matches.now)) serial → ⊥) }
{
    let serial = matches.get_str("serial")?;
    Name::read(serial.as_bytes())
}

/// The size that the value names.
fn size_of(matches: &ArgMatches<'_>) -> Option<u16>
    ensures some { IfSome result (NamesSize (first_value (found_of matches.now))) }
    ensures none { IfNone result ((size : ℕ) → NamesSize (first_value (found_of matches.now)) size → ⊥) }
{
    let size = matches.get_str("size")?;
    let size = read_number(size.as_bytes(), 4, 4096)?;
    Some(size as u16)
}

/// The word that names the command.
fn command_arg<'a>(alloc: Global) -> Arg<'a>
    ensures rule { rule_of result ≡ command_rule }
    ensures local { result.global ≡ false }
{
    Arg::new(alloc, "command").required(true)
}

/// An option with a value.
fn option_arg<'a>(alloc: Global, name: &'a str) -> Arg<'a>
    ensures rule { rule_of result ≡ option_rule name.entry.now }
    ensures local { result.global ≡ false }
{
    Arg::new(alloc, name).long(name)
}

/// The one command that `clap` knows: a word, and the options of all commands.
fn the_command<'a>(alloc: Global) -> Result<clap::Command<'a>, Memory>
    ensures { IfOk result (λ c. app_of c ≡ the_app) }
{
    let command = clap::Command::new(alloc, "bench")
        .arg(command_arg(alloc))?
        .arg(option_arg(alloc, "serial"))?
        .arg(option_arg(alloc, "attempt"))?
        .arg(option_arg(alloc, "port"))?
        .arg(option_arg(alloc, "count"))?
        .arg(option_arg(alloc, "size"))?;
    Ok(command.no_binary_name(true).disable_help_flag(true))
}
