//! The command of a body, which is read by `serde_json`.

ghost use Rattle.std.specs.Prelude.{◌≡◌, IfOk, IfSome, option_map};
ghost use Rattle.serde_json.specs.View.{view};
ghost use Rattle.serde_json.specs.Find.{get};
ghost use Rattle.http_exchange.specs.Bodies.{value_of, staff_named, name_of, name_in, staff_in, command_in, command_of, IsSubmitted};

use crate::page::Submission;
use base::Memory;
use partition::Name;
use records::Staff;
use serde_json::Value;
use serde_json::error::Category;
use serials::Command;
use std::alloc::Global;

/// The command that a body submits, or None where it is no object with the members that are asked for.
#[tactic(auto, unfolding(crate::specs::Bodies::command_of))]
pub(crate) fn command_of(
    alloc: Global,
    submission: Submission,
    body: &[u8],
) -> Result<Option<Command>, Memory>
    ensures command { IfOk result (λ command. command ≡ command_of submission body.now) }
    ensures submitted { IfOk result (λ command. IfSome command IsSubmitted) }
{
    match read_value(alloc, body)? {
        Some(value) => Ok(command_in(submission, &value)),
        None => Ok(None),
    }
}

/// The value that a body is, if it is JSON that nests no deeper than 127.
fn read_value(alloc: Global, body: &[u8]) -> Result<Option<Value>, Memory>
    ensures { IfOk result (λ value. option_map view value ≡ value_of body.now) }
{
    match Value::from_slice(alloc, body) {
        Ok(value) => Ok(Some(value)),
        Err(error) => match error.classify() {
            Category::Memory => Err(Memory),
            _ => Ok(None),
        },
    }
}

fn command_in(submission: Submission, value: &Value) -> Option<Command>
    ensures command { result ≡ command_in submission (view value.now) }
    ensures submitted { IfSome result IsSubmitted }
{
    let Some(id) = name_in(value, "id") else {
        return None;
    };
    let Some(serial) = name_in(value, "serial") else {
        return None;
    };
    match submission {
        Submission::Tests => match staff_in(value) {
            Some(staff) => Some(Command::Test { id, serial, staff }),
            None => None,
        },
        Submission::Rework => Some(Command::Rework { id, serial }),
        Submission::Release => Some(Command::Release { id, serial }),
        Submission::Scrap => Some(Command::Scrap { id, serial }),
    }
}

/// Who made a test and where: both members are there and are names, or neither is there.
fn staff_in(value: &Value) -> Option<Option<Staff>>
    ensures { result ≡ staff_in (view value.now) }
{
    match (value.get("operator"), value.get("fixture")) {
        (None, None) => Some(None),
        (Some(operator), Some(fixture)) => staff_named(name_of(operator), name_of(fixture)),
        _ => None,
    }
}

fn staff_named(operator: Option<Name>, fixture: Option<Name>) -> Option<Option<Staff>>
    ensures { result ≡ staff_named operator fixture }
{
    match (operator, fixture) {
        (Some(operator), Some(fixture)) => Some(Some(Staff { operator, fixture })),
        _ => None,
    }
}

/// The member under this key, where it is a string and a name.
fn name_in(value: &Value, key: &str) -> Option<Name>
    ensures { result ≡ name_in key.now (view value.now) }
{
    match value.get(key) {
        Some(member) => name_of(member),
        None => None,
    }
}

fn name_of(value: &Value) -> Option<Name>
    ensures { result ≡ name_of (view value.now) }
{
    match value.as_str() {
        Some(text) => Name::read(text.as_bytes()),
        None => None,
    }
}
