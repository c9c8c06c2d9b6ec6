// Options with their values.
ghost use Rattle.std.specs.Prelude.{◌≡◌, ◌∷◌, ◌++◌, IfOk, IfSome, IfNone, List, ℕ, codes};
ghost use Rattle.command_line.specs.Flag.{flag_name};
ghost use Rattle.command_line.specs.Setting.{Setting, Spells, StandsFirst, is_value, setting_of, settings_of, texts};

use crate::fault::PlanFault;
use crate::flag::{Flag, flag_of, has_value};
use std::alloc::Global;

/// An option and its value, which is empty for `--memory`.
#[derive(Clone, Copy, Debug)]
pub struct Chosen<'a> {
    pub flag: Flag,
    pub value: &'a str,
}

/// Whether the word may stand as a value: it isn't empty and doesn't begin with `-`.
fn is_value(word: &str) -> bool
    ensures { result ≡ is_value word.now }
{
    match word.as_bytes() {
        [] => false,
        [first, ..] => *first != b'-',
    }
}

/// The option, with a value that stands behind `=` in its word, and the words behind that word.
fn with_value<'a>(
    flag: Flag,
    value: &'a str,
    behind: &'a [String],
) -> Option<(Chosen<'a>, &'a [String])>
    ensures some { IfSome result (λ x. StandsFirst (setting_of x.0)
        ((flag_name flag ++ (codes "=" ++ value.now)) ∷ texts behind.now) (texts x.1.now)) }
    ensures none { IfNone result ((setting : Setting) (rest : List (List ℕ))
        → ¬ StandsFirst setting ((flag_name flag ++ (codes "=" ++ value.now)) ∷ texts behind.now) rest) }
{
    if has_value(flag) && is_value(value) {
        Some((Chosen { flag, value }, behind))
    } else {
        None
    }
}

/// The option, whose word is its name alone, and the words behind its spelling.
fn named(flag: Flag, behind: &[String]) -> Option<(Chosen<'_>, &[String])>
    ensures some { IfSome result (λ x. StandsFirst (setting_of x.0)
        (flag_name flag ∷ texts behind.now) (texts x.1.now)) }
    ensures none { IfNone result ((setting : Setting) (rest : List (List ℕ))
        → ¬ StandsFirst setting (flag_name flag ∷ texts behind.now) rest) }
{
    if !has_value(flag) {
        return Some((Chosen { flag, value: "" }, behind));
    }
    match behind {
        [value, rest @ ..] if is_value(value) => Some((Chosen { flag, value }, rest)),
        _ => None,
    }
}

/// The option whose spelling stands first, and the words behind it.
fn first_setting(words: &[String]) -> Option<(Chosen<'_>, &[String])>
    ensures some { IfSome result (λ x. StandsFirst (setting_of x.0) (texts words.now) (texts x.1.now)) }
    ensures none { IfNone result ((setting : Setting) (rest : List (List ℕ))
        → ¬ StandsFirst setting (texts words.now) rest) }
{
    let [word, behind @ ..] = words else {
        return None;
    };
    match word.split_once('=') {
        Some((name, value)) => with_value(flag_of(name.as_bytes())?, value, behind),
        None => named(flag_of(word.as_bytes())?, behind),
    }
}

/// The options that the words spell, one after the other.
pub fn read_settings(alloc: Global, words: &[String]) -> Result<Vec<Chosen<'_>>, PlanFault>
    ensures ok { IfOk result (λ chosen. Spells (settings_of chosen.items) (texts words.now)) }
    ensures usage { result ≡ Err PlanFault.Usage
        → (settings : List Setting) → ¬ Spells settings (texts words.now) }
{
    let mut chosen = Vec::new(alloc);
    chosen.reserve(words.len())?;
    let mut left = words;
    while !left.is_empty() {
        let Some((first, behind)) = first_setting(left) else {
            return Err(PlanFault::Usage);
        };
        chosen.push(first)?;
        left = behind;
    }
    Ok(chosen)
}
