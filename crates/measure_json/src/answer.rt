// The text of an answer.
ghost use Rattle.std.specs.Prelude.{◌≡◌, ◌++◌, IfOk, OnOk, OnErr};
ghost use Rattle.measure_json.specs.Answer.{answer_json, rows_json, row_json, value_json};

use gno_num::{Frac, Memory, frac_text};
use gno_time::{seconds_text, stamp_text};
use series_model::{Answer, Row};
use std::alloc::Global;

/// Appends the rows as a JSON list without spaces, each as `[stamp,granularity,value]`. A value is
/// printed rounded to the nearest unit of 10^-6, or exactly, as `[num,den]` in these units. After
/// `Memory` nothing is appended.
pub fn write_answer(answer: &Answer, exact: bool, out: &mut Vec<u8>) -> Result<(), Memory>
    ensures ok { OnOk result (out.new.items ≡ out.old.items ++ answer_json exact answer.now) }
    ensures err { OnErr result (out.new.items ≡ out.old.items) }
{
    let text = answer_text(*out.allocator(), answer, exact)?;
    out.extend_from_slice(&text)?;
    Ok(())
}

// The text in a vector of its own, so that want of memory leaves the caller's as it was.
fn answer_text(alloc: Global, answer: &Answer, exact: bool) -> Result<Vec<u8>, Memory>
    ensures { IfOk result (λ text. text.items ≡ answer_json exact answer.now) }
{
    let mut text = Vec::new(alloc);
    text.push(b'[')?;
    append_rows(answer.rows(), exact, &mut text)?;
    text.push(b']')?;
    Ok(text)
}

// After `Memory` some first bytes may be appended; so with the functions below.
fn append_rows(rows: &[Row], exact: bool, text: &mut Vec<u8>) -> Result<(), Memory>
    ensures { OnOk result (text.new.items ≡ text.old.items ++ rows_json exact rows.now) }
{
    let Some((first, others)) = rows.split_first() else {
        return Ok(());
    };
    append_row(first, exact, text)?;
    for row in others {
        text.push(b',')?;
        append_row(row, exact, text)?;
    }
    Ok(())
}

fn append_row(row: &Row, exact: bool, text: &mut Vec<u8>) -> Result<(), Memory>
    ensures { OnOk result (text.new.items ≡ text.old.items ++ row_json exact row.now) }
{
    text.extend_from_slice(b"[\"")?;
    stamp_text(row.at, text)?;
    text.extend_from_slice(b"\",")?;
    seconds_text(row.granularity, text)?;
    text.push(b',')?;
    append_value(row.value, exact, text)?;
    text.push(b']')?;
    Ok(())
}

fn append_value(value: Frac, exact: bool, text: &mut Vec<u8>) -> Result<(), Memory>
    ensures { OnOk result (text.new.items ≡ text.old.items ++ value_json exact value) }
{
    if !exact {
        return frac_text(value, text);
    }
    let num = value.num();
    let den = value.den();
    let pair = format!(in *text.allocator(); "[{num},{den}]")?;
    text.extend_from_slice(pair.as_bytes())?;
    Ok(())
}
