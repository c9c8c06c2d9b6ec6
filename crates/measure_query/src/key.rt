// The keys of a query.
ghost use Rattle.std.specs.Prelude.{◌≡◌, ◌≢◌, IfSome, IfNone};
ghost use Rattle.std.specs.Str.{bytes_eq};
ghost use Rattle.measure_query.specs.declared.key.Key.{Key as A_Key};
ghost use Rattle.measure_query.specs.Key.{key_name};

/// What a query may name.
#[derive(Clone, Copy, PartialEq, Eq)]
pub enum Key {
    Start,
    Stop,
    Aggregation,
    Granularity,
    Refresh,
    Exact,
}

/// The key with this name.
pub fn key_of(name: &[u8]) -> Option<Key>
    ensures some { IfSome result (λ key. name.now ≡ key_name key) }
    ensures none { IfNone result ((key : A_Key) → name.now ≢ key_name key) }
{
    if is_word(name, b"start") {
        Some(Key::Start)
    } else if is_word(name, b"stop") {
        Some(Key::Stop)
    } else if is_word(name, b"aggregation") {
        Some(Key::Aggregation)
    } else if is_word(name, b"granularity") {
        Some(Key::Granularity)
    } else if is_word(name, b"refresh") {
        Some(Key::Refresh)
    } else if is_word(name, b"exact") {
        Some(Key::Exact)
    } else {
        None
    }
}

/// Whether the text is this word.
pub fn is_word(text: &[u8], word: &[u8]) -> bool
    ensures { result ≡ bytes_eq text.now word.now }
{
    text == word
}
