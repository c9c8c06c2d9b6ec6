// Bodies of several metrics.
ghost use Rattle.std.specs.Prelude.{◌≡◌, List, length, IfOk, IfErr};
ghost use Rattle.series_model.specs.declared.measure.Measure.{Measure};
ghost use Rattle.series_model.specs.declared.metric.MetricId.{MetricId};
ghost use Rattle.measure_json.specs.Batch.{id_of, id_at, entry_at, runs_out, entries_from, entries_at, entries_of, batch_read};
ghost use Rattle.measure_json.specs.Fault.{Gives, Answers, IsWithin};
ghost use Rattle.measure_json.specs.Grammar.{IsBatch};
ghost use Rattle.measure_json.specs.Items.{items_within};

use crate::fault::{BodyFault, JsonKind, ReadError, body_fault, fault_at, syntax};
use crate::marks::{colon_at, mark_at, next_at, opened, skip_blank};
use crate::measures::measures_at;
use crate::text::string_at;
use gno_num::skip;
use series_model::{Batch, MetricId};
use std::alloc::Global;
use uuid::Uuid;

// The identifier of a text, in any of the forms of UUIDs.
fn id_of(text: &[u8]) -> Option<MetricId>
    ensures { result ≡ id_of text.now }
{
    match Uuid::try_parse_ascii(text) {
        Ok(id) => Some(MetricId(id.as_u128())),
        Err(_) => None,
    }
}

// An identifier, and what follows it.
#[tactic(auto, unfolding(crate::specs::Batch::id_at))]
fn id_at<'a>(text: &'a [u8], unescaped: &mut Vec<u8>) -> Result<(MetricId, &'a [u8]), ReadError>
    ensures { Gives (λ found. (found.0, found.1.now)) result (id_at text.now) }
{
    let inside = mark_at(b'"', text)?;
    let (spelled, rest) = string_at(inside, unescaped)?;
    match id_of(spelled.bytes(unescaped.as_slice())) {
        Some(id) => Ok((id, rest)),
        None => Err(fault_at(JsonKind::BadId, text)),
    }
}

// An identifier with its measures, and what follows them.
#[tactic(auto, unfolding(crate::specs::Batch::entry_at))]
fn entry_at<'a>(
    alloc: Global,
    text: &'a [u8],
    unescaped: &mut Vec<u8>,
) -> Result<((MetricId, Batch), &'a [u8]), ReadError>
    ensures { Gives (λ found. (found.0, found.1.now)) result (entry_at text.now) }
{
    let (id, behind) = id_at(text, unescaped)?;
    let measures = colon_at(behind)?;
    match measures_at(alloc, measures, unescaped) {
        Ok((batch, rest)) => Ok(((id, batch), rest)),
        Err(error) => Err(error),
    }
}

// One entry or more, up to the closing brace.
fn entries_within<'a>(
    alloc: Global,
    text: &'a [u8],
    unescaped: &mut Vec<u8>,
) -> Result<(Vec<(MetricId, Batch)>, &'a [u8]), ReadError>
    ensures { Gives (λ found. (found.0.items, found.1.now)) result (items_within entry_at 125 runs_out (length text.now) text.now) }
{
    let mut entries = Vec::new(alloc);
    let len = text.len();
    let mut rest = text;
    for _ in 0..len {
        let (entry, behind) = match entry_at(alloc, rest, unescaped) {
            Ok(found) => found,
            Err(error) => return Err(error),
        };
        entries.push(entry)?;
        let (another, next) = next_at(b'}', behind)?;
        if !another {
            return Ok((entries, next));
        }
        rest = next;
    }
    Err(syntax(&[]))
}

fn entries_from<'a>(
    alloc: Global,
    text: &'a [u8],
    unescaped: &mut Vec<u8>,
) -> Result<(Vec<(MetricId, Batch)>, &'a [u8]), ReadError>
    ensures { Gives (λ found. (found.0.items, found.1.now)) result (entries_from text.now) }
{
    let (closes, rest) = skip(b'}', text);
    if closes {
        return Ok((Vec::new(alloc), rest));
    }
    entries_within(alloc, text, unescaped)
}

#[tactic(auto, unfolding(crate::specs::Batch::entries_at))]
fn entries_at<'a>(
    alloc: Global,
    text: &'a [u8],
    unescaped: &mut Vec<u8>,
) -> Result<(Vec<(MetricId, Batch)>, &'a [u8]), ReadError>
    ensures { Gives (λ found. (found.0.items, found.1.now)) result (entries_at text.now) }
{
    let inside = opened(b'{', text)?;
    entries_from(alloc, skip_blank(inside), unescaped)
}

#[tactic(auto, unfolding(crate::specs::Batch::entries_of))]
fn entries_of(alloc: Global, text: &[u8]) -> Result<Vec<(MetricId, Batch)>, ReadError>
    ensures { Gives (λ entries. entries.items) result (entries_of text.now) }
{
    let mut unescaped = Vec::new(alloc);
    let (entries, behind) = match entries_at(alloc, skip_blank(text), &mut unescaped) {
        Ok(found) => found,
        Err(error) => return Err(error),
    };
    let rest = skip_blank(behind);
    if rest.is_empty() {
        Ok(entries)
    } else {
        Err(syntax(rest))
    }
}

/// The measures of several metrics: a JSON object (RFC 8259) whose keys are identifiers, in any
/// form of text that `uuid` reads, and whose members are bodies of measures. They come in the
/// order of the text; a repeated key stands there again.
pub fn read_batch(alloc: Global, body: &[u8]) -> Result<Vec<(MetricId, Batch)>, BodyFault>
    // What it means: the entries in the order of the text, or the first fault from the left.
    ensures exact { Answers (λ entries. entries.items) result (batch_read body.now) }

    // What is read is in the grammar; what is in the grammar is read, unless memory runs out.
    ensures found { IfOk result (λ entries. IsBatch body.now entries.items) }
    ensures only { (entries : List (MetricId × List Measure)) → IsBatch body.now entries
        → Answers (λ found. found.items) result (Ok entries) }
    // The place of a fault is a byte of the body, or its end.
    ensures place { IfErr result (IsWithin body.now) }
{
    batch_answer(alloc, body)
}

#[tactic(auto, unfolding(crate::specs::Batch::batch_read))]
fn batch_answer(alloc: Global, body: &[u8]) -> Result<Vec<(MetricId, Batch)>, BodyFault>
    ensures exact { Answers (λ entries. entries.items) result (batch_read body.now) }
    ensures place { IfErr result (IsWithin body.now) }
{
    match entries_of(alloc, body) {
        Ok(entries) => Ok(entries),
        Err(error) => Err(body_fault(error, body)),
    }
}
