// The lines of a script.
ghost use Rattle.std.specs.Prelude.{◌≡◌, ◌≢◌, ◌<◌, [], All, IfSome, MatchOption, codes, false, length, position};
ghost use Rattle.rest_replies.specs.Script.{IsCut, IsTargetAndBody, ReadsLine, is_comment, is_space};

/// What a line of a script asks for.
#[derive(Clone, Copy, Debug, Drop)]
pub enum ScriptLine<'l> {
    /// Nothing: the line is empty, or a comment, which begins with `#`.
    Nothing,
    /// That the posts that wait are processed.
    Work,
    /// A request. Where the line ends behind the target, the body is empty.
    Request {
        method: &'l [u8],
        target: &'l [u8],
        body: &'l [u8],
    },
    /// It is no such line.
    Bad,
}

/// What a line asks for, which is given without its line feed. It takes no memory.
pub fn read_line(line: &[u8]) -> ScriptLine<'_>
    ensures { ReadsLine line.now result }
{
    if line.is_empty() || is_comment(line) {
        return ScriptLine::Nothing;
    }
    if line == b"WORK".as_slice() {
        return ScriptLine::Work;
    }
    read_request(line)
}

/// What a line asks for that is neither empty nor a comment nor `WORK`.
fn read_request(line: &[u8]) -> ScriptLine<'_>
    requires some { line.now ≢ [] }
    requires no_comment { is_comment line.now ≡ false }
    requires no_work { line.now ≢ codes "WORK" }
    ensures { ReadsLine line.now result }
{
    let Some((method, rest)) = split_word(line) else {
        return ScriptLine::Bad;
    };
    let (target, body) = target_and_body(rest);
    if method.is_empty() || target.is_empty() {
        return ScriptLine::Bad;
    }
    ScriptLine::Request {
        method,
        target,
        body,
    }
}

/// What stands in front of the first space, and what behind it: all of it and nothing where there is
/// none.
fn target_and_body(text: &[u8]) -> (&[u8], &[u8])
    ensures { IsTargetAndBody text.now result.0.now result.1.now }
{
    match split_word(text) {
        Some(parts) => parts,
        None => (text, b""),
    }
}

/// Whether a text begins with `#`.
fn is_comment(text: &[u8]) -> bool
    ensures { result ≡ is_comment text.now }
{
    match text {
        [first, ..] => *first == b'#',
        [] => false,
    }
}

/// A text cut at its first space.
fn split_word(text: &[u8]) -> Option<(&[u8], &[u8])>
    ensures { MatchOption result (All (λ b. b ≢ 32) text.now) (λ parts. IsCut text.now parts.0.now parts.1.now) }
{
    match space_in(text) {
        Some(at) => Some((&text[..at], &text[at + 1..])),
        None => None,
    }
}

/// Where the first space is.
fn space_in(text: &[u8]) -> Option<usize>
    ensures space { result ≡ position is_space text.now }
    ensures within { IfSome result (λ at. at < length text.now) }
{
    text.iter().position(|byte| *byte == b' ')
}
