// The words of a run.
ghost use Rattle.std.specs.Prelude.{◌≡◌, ◌≤◌, ◌^◌, true, IfSome, length, string_bytes};
ghost use Rattle.std.specs.Str.{bytes_eq};
ghost use Rattle.gno_bench.specs.Words.{texts, part_of, number_up_to, job_of, job_behind, job_with, job_in_folder};

use gno_num::{are_digits, number_onto};

/// What is measured.
#[derive(Clone, Copy, Debug, PartialEq, Eq)]
pub enum Part {
    /// Values are read and printed.
    Values,
    /// Times are read and printed.
    Stamps,
    /// Rows of an answer are printed.
    Print,
    /// Policies are made, and rules choose among them.
    Policies,
    /// A log is made, mounted and appended to.
    Log,
    /// Values are summed up, batches taken in, and series grouped.
    Aggregate,
    /// Bodies of measures are read.
    Json,
    /// Splits are read from blocks and written to them.
    Codec,
    /// All of these, the log in memory.
    All,
}

/// A part, how large its input is, and how often its work is done.
#[derive(Clone, Copy, Debug, PartialEq, Eq)]
pub struct Job {
    pub part: Part,
    pub size: u64,
    pub rounds: u64,
    /// Whether a fourth word names the folder of the log.
    pub in_folder: bool,
}

/// The most that a size may be.
const LARGEST: u64 = 50_000;

/// The most rounds.
const MOST_ROUNDS: u64 = 1_000;

/// The job of these words: a part, a size up to 50,000, and a number of rounds up to 1,000. A fourth
/// word is the folder of the part `log`, which else is in memory.
pub fn job_of(words: &[String]) -> Option<Job>
    ensures job { result ≡ job_of (texts words.now) }
    ensures size { IfSome result (λ job. job.size ≤ 50000) }
    ensures folder { IfSome result (λ job. job.in_folder ≡ true → length words.now ≡ 4) }
{
    match words {
        [] => None,
        [part, more @ ..] => job_behind(part, more),
    }
}

fn job_behind(part: &String, more: &[String]) -> Option<Job>
    ensures job { result ≡ job_behind (string_bytes part.now) (texts more.now) }
    ensures size { IfSome result (λ job. job.size ≤ 50000) }
    ensures folder { IfSome result (λ job. job.in_folder ≡ true → length more.now ≡ 3) }
{
    match more {
        [size, rounds] => job_with(part, size, rounds, false),
        [size, rounds, _folder] => job_in_folder(part, size, rounds),
        _ => None,
    }
}

#[tactic(auto, unfolding(crate::specs::Words::job_in_folder))]
fn job_in_folder(part: &String, size: &String, rounds: &String) -> Option<Job>
    ensures job { result ≡ job_in_folder (string_bytes part.now) (string_bytes size.now) (string_bytes rounds.now) }
    ensures size { IfSome result (λ job. job.size ≤ 50000) }
{
    if is(part, "log") {
        job_with(part, size, rounds, true)
    } else {
        None
    }
}

#[tactic(auto, unfolding(crate::specs::Words::job_with))]
fn job_with(part: &String, size: &String, rounds: &String, in_folder: bool) -> Option<Job>
    ensures job { result ≡ job_with (string_bytes part.now) (string_bytes size.now) (string_bytes rounds.now) in_folder }
    ensures size { IfSome result (λ job. job.size ≤ 50000) }
    ensures folder { IfSome result (λ job. job.in_folder ≡ in_folder) }
{
    let part = part_of(part)?;
    let size = number_up_to(LARGEST, size)?;
    let rounds = number_up_to(MOST_ROUNDS, rounds)?;
    Some(Job {
        part,
        size,
        rounds,
        in_folder,
    })
}

fn part_of(word: &String) -> Option<Part>
    ensures { result ≡ part_of (string_bytes word.now) }
{
    if is(word, "values") {
        return Some(Part::Values);
    }
    if is(word, "stamps") {
        return Some(Part::Stamps);
    }
    if is(word, "print") {
        return Some(Part::Print);
    }
    if is(word, "policies") {
        return Some(Part::Policies);
    }
    if is(word, "log") {
        return Some(Part::Log);
    }
    if is(word, "aggregate") {
        return Some(Part::Aggregate);
    }
    if is(word, "json") {
        return Some(Part::Json);
    }
    if is(word, "codec") {
        return Some(Part::Codec);
    }
    if is(word, "all") {
        return Some(Part::All);
    }
    None
}

/// The number from 1 to `most` that the word spells.
fn number_up_to(most: u64, word: &String) -> Option<u64>
    requires { most ≤ 2 ^ 32 }
    ensures value { result ≡ number_up_to most (string_bytes word.now) }
    ensures limit { IfSome result (λ n. n ≤ most) }
{
    let digits = word.as_bytes();
    if !are_digits(digits) {
        return None;
    }
    let number = number_onto(0, digits);
    if number == 0 || number > most {
        return None;
    }
    Some(number)
}

/// Whether the word is this text.
fn is(word: &String, text: &str) -> bool
    ensures { result ≡ bytes_eq (string_bytes word.now) text.now }
{
    word.as_bytes() == text.as_bytes()
}
