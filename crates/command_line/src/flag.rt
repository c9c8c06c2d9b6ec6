// The options of commands.
ghost use Rattle.std.specs.Prelude.{◌≡◌};
ghost use Rattle.command_line.specs.Flag.{all_flags, flag_name, flag_of, has_value, is_flag};

/// An option of a command.
#[derive(Clone, Copy, Debug, PartialEq, Eq)]
pub enum Flag {
    Store,
    Memory,
    Sacks,
    Number,
    Seed,
    Count,
    Listen,
    Workers,
    Conns,
}

/// The options.
fn all_flags() -> &'static [Flag]
    ensures { result.now ≡ all_flags }
{
    &[
        Flag::Store,
        Flag::Memory,
        Flag::Sacks,
        Flag::Number,
        Flag::Seed,
        Flag::Count,
        Flag::Listen,
        Flag::Workers,
        Flag::Conns,
    ]
}

/// How a word names the option.
pub fn flag_name(flag: Flag) -> &'static [u8]
    ensures { result.now ≡ flag_name flag }
{
    match flag {
        Flag::Store => b"--store",
        Flag::Memory => b"--memory",
        Flag::Sacks => b"--sacks",
        Flag::Number => b"--number",
        Flag::Seed => b"--seed",
        Flag::Count => b"--count",
        Flag::Listen => b"--listen",
        Flag::Workers => b"--workers",
        Flag::Conns => b"--conns",
    }
}

/// The option with this name.
pub fn flag_of(name: &[u8]) -> Option<Flag>
    ensures { result ≡ flag_of name.now }
{
    all_flags()
        .iter()
        .copied()
        .find(|flag| name == flag_name(*flag))
}

/// Whether the two are one option.
pub fn is_flag(one: Flag, other: Flag) -> bool
    ensures { result ≡ is_flag one other }
{
    one == other
}

/// Whether the option takes a value.
pub fn has_value(flag: Flag) -> bool
    ensures { result ≡ has_value flag }
{
    flag != Flag::Memory
}
