//! Items parted into the words that are no option and the options.

ghost use Rattle.std.specs.Prelude.{◌≡◌, IfOk, map};
ghost use Rattle.words.specs.Items.{plains, options};
ghost use Rattle.words.specs.Steps.{item_of};
ghost use Rattle.words.specs.Forms.{setting_of};

use crate::items::Item;
use base::Memory;
use std::alloc::Global;

/// An option with its value.
#[derive(Clone, Copy, Drop)]
pub(crate) struct Setting<'a> {
    pub name: &'a str,
    pub value: &'a str,
}

/// The words that are no option and no option's value, and the options.
#[derive(Drop)]
pub(crate) struct Parts<'a> {
    pub plains: Vec<&'a str>,
    pub options: Vec<Setting<'a>>,
}

/// The two parts of the items, each in their order.
pub(crate) fn parts_of<'a>(alloc: Global, items: &[Item<'a>]) -> Result<Parts<'a>, Memory>
    ensures plains { IfOk result (λ p. map (λ w. w.now) p.plains.items ≡ plains (map item_of items.now)) }
    ensures options { IfOk result (λ p. map setting_of p.options.items ≡ options (map item_of items.now)) }
{
    let mut plains = Vec::new(alloc);
    let mut options = Vec::new(alloc);
    for item in items {
        match *item {
            Item::Plain(word) => plains.push(word)?,
            Item::Named(name, value) => options.push(Setting { name, value })?,
        }
    }
    Ok(Parts { plains, options })
}
