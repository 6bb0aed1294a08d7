//! Which command a word and the names of some options are.

ghost use Rattle.std.specs.Prelude.{◌≡◌, ◌↔◌, IsTrue, IfSome, IfNone, [], ◌∷◌, map};
ghost use Rattle.words.specs.Forms.{IsForm, HasOne, HasBoth, setting_of};

use crate::parts::Setting;

/// A command without the values of its options.
#[derive(Clone, Copy, Debug)]
pub(crate) enum Verb {
    Continuity,
    Learn,
    Run,
    Import,
    Serve,
    Report,
    Unit,
    Export,
    Soak,
}

/// The command that the word and the names of the options are, or None where they are none.
pub(crate) fn verb_of(word: &str, options: &[Setting<'_>]) -> Option<Verb>
    ensures some { IfSome result (λ verb. IsForm verb word.now (map setting_of options.now)) }
    ensures none { IfNone result ((verb : Verb) → IsForm verb word.now (map setting_of options.now) → ⊥) }
{
    if is_form(Verb::Continuity, word, options) {
        return Some(Verb::Continuity);
    }
    if is_form(Verb::Learn, word, options) {
        return Some(Verb::Learn);
    }
    if is_form(Verb::Run, word, options) {
        return Some(Verb::Run);
    }
    if is_form(Verb::Import, word, options) {
        return Some(Verb::Import);
    }
    if is_form(Verb::Serve, word, options) {
        return Some(Verb::Serve);
    }
    if is_form(Verb::Report, word, options) {
        return Some(Verb::Report);
    }
    if is_form(Verb::Unit, word, options) {
        return Some(Verb::Unit);
    }
    if is_form(Verb::Export, word, options) {
        return Some(Verb::Export);
    }
    if is_form(Verb::Soak, word, options) {
        return Some(Verb::Soak);
    }
    None
}

/// Whether the word is the command's and the options have the names of its options. A new command has an arm here.
fn is_form(verb: Verb, word: &str, options: &[Setting<'_>]) -> bool
    ensures { IsTrue result ↔ IsForm verb word.now (map setting_of options.now) }
{
    match verb {
        Verb::Continuity => word == "continuity" && has_both(options, "serial", "attempt"),
        Verb::Learn => word == "learn" && has_both(options, "serial", "attempt"),
        Verb::Run => word == "run" && has_none(options),
        Verb::Import => word == "import" && has_none(options),
        Verb::Serve => word == "serve" && has_both(options, "port", "count"),
        Verb::Report => word == "report" && has_none(options),
        Verb::Unit => word == "unit" && has_one(options, "serial"),
        Verb::Export => word == "export" && has_none(options),
        Verb::Soak => word == "soak" && has_one(options, "size"),
    }
}

/// Whether there is no option.
fn has_none(options: &[Setting<'_>]) -> bool
    ensures { IsTrue result ↔ (map setting_of options.now ≡ []) }
{
    options.is_empty()
}

/// Whether there is one option, of this name.
fn has_one(options: &[Setting<'_>], name: &str) -> bool
    ensures { IsTrue result ↔ HasOne name.now (map setting_of options.now) }
{
    let [a] = options else {
        return false;
    };
    is_named(a, name)
}

/// Whether the option has this name.
fn is_named(a: &Setting<'_>, name: &str) -> bool
    ensures { IsTrue result ↔ (a.now.name.now ≡ name.now) }
{
    a.name == name
}

/// Whether the options are one of each name, in either order.
fn has_both(options: &[Setting<'_>], first: &str, second: &str) -> bool
    ensures { IsTrue result ↔ HasBoth first.now second.now (map setting_of options.now) }
{
    let [a, b] = options else {
        return false;
    };
    if are_named(a, b, first, second) {
        return true;
    }
    are_named(a, b, second, first)
}

/// Whether two options have these names.
fn are_named(a: &Setting<'_>, b: &Setting<'_>, first: &str, second: &str) -> bool
    ensures { IsTrue result ↔ ((a.now.name.now ≡ first.now) × (b.now.name.now ≡ second.now)) }
{
    a.name == first && b.name == second
}
