// The words that commands begin with.
ghost use Rattle.std.specs.Prelude.{◌≡◌};
ghost use Rattle.command_line.specs.Verb.{all_verbs, options_of, takes, verb_name, verb_of};

use crate::flag::{Flag, is_flag};

/// What a command does.
#[derive(Clone, Copy, Debug, PartialEq, Eq)]
pub enum Verb {
    Create,
    Replay,
    ReplayHttp,
    Check,
    Load,
    Drill,
    Serve,
}

/// The verbs.
fn all_verbs() -> &'static [Verb]
    ensures { result.now ≡ all_verbs }
{
    &[
        Verb::Create,
        Verb::Replay,
        Verb::ReplayHttp,
        Verb::Check,
        Verb::Load,
        Verb::Drill,
        Verb::Serve,
    ]
}

/// The first word of the command.
fn verb_name(verb: Verb) -> &'static [u8]
    ensures { result.now ≡ verb_name verb }
{
    match verb {
        Verb::Create => b"create",
        Verb::Replay => b"replay",
        Verb::ReplayHttp => b"replay-http",
        Verb::Check => b"check",
        Verb::Load => b"load",
        Verb::Drill => b"drill",
        Verb::Serve => b"serve",
    }
}

/// The verb with this name.
pub fn verb_of(name: &[u8]) -> Option<Verb>
    ensures { result ≡ verb_of name.now }
{
    all_verbs()
        .iter()
        .copied()
        .find(|verb| name == verb_name(*verb))
}

/// The options that the command takes.
fn options_of(verb: Verb) -> &'static [Flag]
    ensures { result.now ≡ options_of verb }
{
    match verb {
        Verb::Create => &[Flag::Store, Flag::Sacks, Flag::Number],
        Verb::Replay | Verb::ReplayHttp => {
            &[Flag::Store, Flag::Memory, Flag::Sacks, Flag::Number]
        }
        Verb::Check => &[Flag::Store, Flag::Sacks],
        Verb::Load => &[Flag::Seed, Flag::Count, Flag::Sacks],
        Verb::Drill => &[Flag::Seed, Flag::Count],
        Verb::Serve => &[
            Flag::Store,
            Flag::Memory,
            Flag::Sacks,
            Flag::Number,
            Flag::Listen,
            Flag::Workers,
            Flag::Conns,
        ],
    }
}

/// Whether the command takes the option.
pub fn takes(verb: Verb, flag: Flag) -> bool
    ensures { result ≡ takes verb flag }
{
    options_of(verb).iter().any(|option| is_flag(*option, flag))
}
