//! The lines of rows, and those of what a transaction answers.
ghost use Rattle.std.specs.Prelude.{◌≡◌, ◌++◌, OnOk, flat_map};
ghost use Rattle.sdd_words.specs.Replies.{row_line, query_lines, queries_from, outcome_lines};

use crate::write::{put, put_count, put_values};
use sdd_base::{Answer, AnswerRow, NoMemory, Reply, Row, Value};

#[inline(always)]
fn put_row(out: &mut Vec<u8>, values: &[Value]) -> Result<(), NoMemory>
    ensures { OnOk result (out.new.items ≡ out.old.items ++ row_line values.now) }
{
    put(out, b"row")?;
    put_values(out, values)?;
    out.push(b'\n')?;
    Ok(())
}

/// Puts the lines of rows. Costs time linear in them.
#[tactic(auto, using(crate::proofs::Written::item_written, crate::proofs::Written::items_written))]
pub fn put_rows(out: &mut Vec<u8>, rows: &[Row]) -> Result<(), NoMemory>
    ensures { OnOk result (out.new.items ≡ out.old.items ++ flat_map row_line rows.now) }
{
    'rows: for row in rows {
        put_row(out, row.as_slice())?;
    }
    Ok(())
}

/// Puts the lines of an answer's rows.
#[tactic(auto, using(crate::proofs::Written::item_written, crate::proofs::Written::items_written))]
fn put_answer(out: &mut Vec<u8>, rows: &[AnswerRow]) -> Result<(), NoMemory>
    ensures { OnOk result (out.new.items ≡ out.old.items ++ flat_map row_line rows.now) }
{
    'rows: for row in rows {
        put_row(out, row.as_slice())?;
    }
    Ok(())
}

/// The answer of the query with this number.
fn put_query(out: &mut Vec<u8>, number: usize, rows: &Answer) -> Result<(), NoMemory>
    ensures { OnOk result (out.new.items ≡ out.old.items ++ query_lines number rows.now) }
{
    put(out, b"query ")?;
    put_count(out, number as u64)?;
    put(out, b" ")?;
    put_count(out, rows.as_slice().len() as u64)?;
    put(out, b"\n")?;
    put_answer(out, rows.as_slice())
}

#[tactic(auto, using(crate::proofs::Queries::queries_go_on, crate::proofs::Queries::queries_end))]
fn put_queries(out: &mut Vec<u8>, answers: &[Answer]) -> Result<(), NoMemory>
    ensures { OnOk result (out.new.items ≡ out.old.items ++ queries_from 1 answers.now) }
{
    'queries: for (i, rows) in answers.iter().enumerate() {
        put_query(out, i + 1, rows)?;
    }
    Ok(())
}

/// Room for the first line of an outcome, the longest being ` overflow`.
const OUTCOME_ROOM: usize = 10;

/// Room for the line of a query, whose numbers have 64 bits.
const QUERY_ROOM: usize = 48;

/// Room for the word of a row and the end of its line.
const ROW_ROOM: usize = 4;

/// Room for a space and a whole number.
const NUMBER_ROOM: usize = 21;

/// Room for a space and two quotes.
const QUOTES_ROOM: usize = 3;

fn room_for_value(value: &Value) -> usize {
    match value {
        Value::Int(_) => NUMBER_ROOM,
        Value::Text(text) => text.as_str().len().saturating_add(QUOTES_ROOM),
    }
}

fn room_for_row(row: &AnswerRow) -> usize {
    let mut room = ROW_ROOM;
    for value in row.as_slice() {
        room = room.saturating_add(room_for_value(value));
    }
    room
}

fn room_for_rows(rows: &Answer) -> usize {
    let mut room = QUERY_ROOM;
    for row in rows.as_slice() {
        room = room.saturating_add(room_for_row(row));
    }
    room
}

/// The number of bytes in which what `put_outcome` puts fits, but for backslashes in texts, so that
/// room can be made at once. Takes time in the values, and no memory.
pub fn room_for_outcome(reply: &Reply) -> usize {
    let mut room = OUTCOME_ROOM;
    if let Reply::Rows(answers) = reply {
        for rows in answers.as_slice() {
            room = room.saturating_add(room_for_rows(rows));
        }
    }
    room
}

/// Puts what became of a transaction, from after its name on. Costs time linear in the lines.
pub fn put_outcome(out: &mut Vec<u8>, reply: &Reply) -> Result<(), NoMemory>
    ensures { OnOk result (out.new.items ≡ out.old.items ++ outcome_lines reply.now) }
{
    match reply {
        Reply::Rows(answers) => {
            put(out, b" ok\n")?;
            put_queries(out, answers.as_slice())
        }
        Reply::Overflow => put(out, b" overflow\n"),
        Reply::TooMany => put(out, b" toomany\n"),
    }
}
