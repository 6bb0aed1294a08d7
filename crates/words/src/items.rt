//! The product's own check: how the words fall into options with their values and other words.

ghost use Rattle.std.specs.Prelude.{◌≡◌, IfOk, MatchOption, None, map, option_map, string_bytes};
ghost use Rattle.clap.specs.Lexer.{strip_byte, name_and_value, long_of};
ghost use Rattle.words.specs.Items.{read};
ghost use Rattle.words.specs.Steps.{Refuses, GoesOn, opt_now, item_of};

use base::Memory;
use std::alloc::Global;

/// A word that is no option and no option's value, or an option with its value.
#[derive(Clone, Copy, Drop)]
pub enum Item<'a> {
    Plain(&'a str),
    Named(&'a str, &'a str),
}

/// What a word comes to: an option that waits for its value, or an item.
#[derive(Clone, Copy, Drop)]
enum Step<'a> {
    Waits(&'a str),
    Takes(Item<'a>),
}

/// What follows a first hyphen.
fn strip_dash(word: &str) -> Option<&str>
    ensures { opt_now result ≡ strip_byte 45 word.now }
{
    word.strip_prefix('-')
}

/// What stands before the first `=`, and what stands after it if there is one.
fn split_value(text: &str) -> (&str, Option<&str>)
    ensures { (result.0.now, opt_now result.1) ≡ name_and_value text.now }
{
    match text.split_once('=') {
        Some((name, value)) => (name, Some(value)),
        None => (text, None),
    }
}

/// `--name` or `--name=value`, as the name and the value.
fn to_long(word: &str) -> Option<(&str, Option<&str>)>
    ensures { option_map (λ p. (p.0.now, opt_now p.1)) result ≡ long_of word.now }
{
    let rest = strip_dash(strip_dash(word)?)?;
    if rest.is_empty() {
        return None;
    }
    Some(split_value(rest))
}

/// The next step, if the word is not refused.
#[tactic(auto, unfolding(crate::specs::Items::read))]
fn step_of<'a>(waiting: Option<&'a str>, word: &'a str) -> Option<Step<'a>>
    ensures { MatchOption result (Refuses (opt_now waiting.entry) word.now) (λ s. GoesOn (opt_now waiting.entry) word.now s) }
{
    match waiting {
        Some(name) => match strip_dash(word) {
            Some(_) => None,
            None => Some(Step::Takes(Item::Named(name, word))),
        },
        None => {
            if word == "--" {
                return None;
            }
            match to_long(word) {
                None => Some(Step::Takes(Item::Plain(word))),
                Some((name, Some(value))) => Some(Step::Takes(Item::Named(name, value))),
                Some((name, None)) => Some(Step::Waits(name)),
            }
        }
    }
}

/// The items of the words, unless the words are refused.
pub fn items_of<'a>(alloc: Global, words: &'a [String]) -> Result<Option<Vec<Item<'a>>>, Memory>
    ensures { IfOk result (λ o. option_map (λ v. map item_of v.items) o ≡ read None (map string_bytes words.now)) }
{
    let mut items = Vec::new(alloc);
    let mut waiting: Option<&'a str> = None;
    let mut i = 0;
    while i < words.len() {
        match step_of(waiting, words[i].as_str()) {
            None => return Ok(None),
            Some(Step::Waits(name)) => waiting = Some(name),
            Some(Step::Takes(item)) => {
                items.push(item)?;
                waiting = None;
            }
        }
        i += 1;
    }
    match waiting {
        Some(_) => Ok(None),
        None => Ok(Some(items)),
    }
}
