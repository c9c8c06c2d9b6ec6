// The bytes that a pattern and a name both begin with.
ghost use Rattle.std.specs.Prelude.{◌≤◌, length};
ghost use Rattle.policy_rules.specs.Literals.{IsLeft};

/// What is left of a pattern and a name behind the bytes that both begin with, up to a `*`.
pub fn left_of<'p, 'n>(pattern: &'p [u8], name: &'n [u8]) -> (&'p [u8], &'n [u8])
    ensures left { IsLeft pattern.now name.now result.0.now result.1.now }
    ensures pattern_len { length result.0.now ≤ length pattern.now }
    ensures name_len { length result.1.now ≤ length name.now }
{
    let mut count = 0;
    while count < pattern.len()
        && count < name.len()
        && pattern[count] != b'*'
        && pattern[count] == name[count]
    {
        count += 1;
    }
    (&pattern[count..], &name[count..])
}
