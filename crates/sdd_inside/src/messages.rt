//! Packets and their messages in a line.
ghost use Rattle.std.specs.Prelude.{◌≡◌, ◌++◌, ◌∷◌, codes, length, OnOk};
ghost use Rattle.sdd_inside.specs.Json.{array, also, quoted, member};
ghost use Rattle.sdd_inside.specs.Pieces.{kind_before};
ghost use Rattle.sdd_inside.specs.Messages.{of_class, rows_of, rows_json, values_json, message_json, ack_json, packet_json};
ghost use Rattle.sdd_inside.specs.Words.{time_json, class_json, txn_json, attempt_json, cond_json, change_json};

use crate::delta::InFlight;
use crate::kinds::{put_class, put_kind, put_time};
use crate::numbers::put_decimal;
use crate::pieces::put;
use crate::to_json::{ToJson, put_also, put_name, put_opening, tell_also, tell_list};
use crate::words::put_attempt;
use itoa::Buffer;
use sdd_script::{Catalogue, Changes, ClassNo, Conds, NoMemory, Ts, Txn, TxnNo};
use sdd_wire::{Msg, UseCounts, UseRows, ValueList};

/// Puts an attempt as a member.
#[tactic(auto, using(crate::proofs::Members::member_put))]
#[inline(always)]
pub(crate) fn put_attempt_member(
    out: &mut Vec<u8>,
    txns: &[Txn],
    txn: TxnNo,
    attempt: u64,
) -> Result<(), NoMemory>
    ensures { OnOk result (out.new.items ≡ out.old.items ++ also (codes "txn") (attempt_json txns.now txn attempt)) }
{
    put_name(out, b",\"txn\":")?;
    put_attempt(out, txns, txn, attempt)
}

/// Puts a READ, with its attempt and its conditions.
fn put_read(
    out: &mut Vec<u8>,
    catalogue: &Catalogue,
    txns: &[Txn],
    class: ClassNo,
    time: Ts,
    txn: TxnNo,
    attempt: u64,
    conds: &Conds,
) -> Result<(), NoMemory>
    ensures { OnOk result (
        out.new.items
        ≡ out.old.items
        ++ (of_class (codes "READ") catalogue.now txns.now class time
        ++ (also (codes "txn") (attempt_json txns.now txn attempt)
        ++ also (codes "conds") (array (cond_json catalogue.now txns.now) conds.now)))) }
{
    put_class(
        out,
        b",\"kind\":\"READ\",\"class\":\"",
        catalogue,
        txns,
        class,
        time,
    )?;
    put_attempt_member(out, txns, txn, attempt)?;
    tell_list(out, b",\"conds\":[", conds.as_slice(), catalogue, txns)
}

/// Puts a WRITE, with its transaction and its changes.
fn put_write(
    out: &mut Vec<u8>,
    catalogue: &Catalogue,
    txns: &[Txn],
    class: ClassNo,
    time: Ts,
    txn: TxnNo,
    changes: &Changes,
) -> Result<(), NoMemory>
    ensures { OnOk result (
        out.new.items
        ≡ out.old.items
        ++ (of_class (codes "WRITE") catalogue.now txns.now class time
        ++ (also (codes "txn") (txn_json catalogue.now txns.now txn)
        ++ also (codes "changes") (array (change_json catalogue.now txns.now) changes.now)))) }
{
    put_class(
        out,
        b",\"kind\":\"WRITE\",\"class\":\"",
        catalogue,
        txns,
        class,
        time,
    )?;
    tell_also(out, b",\"txn\":", &txn, catalogue, txns)?;
    tell_list(out, b",\"changes\":[", changes.as_slice(), catalogue, txns)
}

/// Puts a REJECT, with the class and the time of the WRITE for which the READ is rejected.
fn put_reject(
    out: &mut Vec<u8>,
    catalogue: &Catalogue,
    txns: &[Txn],
    class: ClassNo,
    time: Ts,
    by: ClassNo,
    write: Ts,
) -> Result<(), NoMemory>
    ensures { OnOk result (
        out.new.items
        ≡ out.old.items
        ++ (of_class (codes "REJECT") catalogue.now txns.now class time
        ++ (also (codes "by") (class_json catalogue.now txns.now by)
        ++ also (codes "write") (time_json catalogue.now txns.now write)))) }
{
    put_class(
        out,
        b",\"kind\":\"REJECT\",\"class\":\"",
        catalogue,
        txns,
        class,
        time,
    )?;
    tell_also(out, b",\"by\":", &by, catalogue, txns)?;
    tell_also(out, b",\"write\":", &write, catalogue, txns)
}

/// The rows of all uses together.
fn rows_of(counts: &[(u32, u64)]) -> u128
    ensures { result ≡ rows_of counts.now }
{
    let mut rows = 0;
    'counts: for count in counts {
        rows += count.1 as u128;
    }
    rows
}

#[tactic(auto, using(crate::proofs::Members::member_put))]
fn put_rows(out: &mut Vec<u8>, rows: u128) -> Result<(), NoMemory>
    ensures { OnOk result (out.new.items ≡ out.old.items ++ rows_json rows) }
{
    let mut buffer = Buffer::new();
    put_name(out, b",\"rows\":")?;
    put(out, buffer.format(rows).as_bytes())
}

/// Puts a message that tells how many rows there are.
fn put_counted(
    out: &mut Vec<u8>,
    before: &[u8],
    catalogue: &Catalogue,
    txns: &[Txn],
    class: ClassNo,
    time: Ts,
    rows: u128,
) -> Result<(), NoMemory>
    requires { before.now
        ≡ 44 ∷ member (codes "kind") (quoted (kind_before before.now)) ++ codes ",\"class\":\"" }
    ensures { OnOk result (
        out.new.items
        ≡ out.old.items
        ++ (of_class (kind_before before.now) catalogue.now txns.now class time ++ rows_json rows)) }
{
    put_class(out, before, catalogue, txns, class, time)?;
    put_rows(out, rows)
}

/// Puts a message that has values.
fn put_valued(
    out: &mut Vec<u8>,
    before: &[u8],
    catalogue: &Catalogue,
    txns: &[Txn],
    class: ClassNo,
    time: Ts,
    values: &ValueList,
) -> Result<(), NoMemory>
    requires { before.now
        ≡ 44 ∷ member (codes "kind") (quoted (kind_before before.now)) ++ codes ",\"class\":\"" }
    ensures { OnOk result (
        out.new.items
        ≡ out.old.items
        ++ (of_class (kind_before before.now) catalogue.now txns.now class time ++ values_json (length values.now))) }
{
    put_class(out, before, catalogue, txns, class, time)?;
    put_also(out, b",\"values\":", values.as_slice().len() as u64)
}

fn put_ready(
    out: &mut Vec<u8>,
    catalogue: &Catalogue,
    txns: &[Txn],
    class: ClassNo,
    time: Ts,
    counts: &UseCounts,
) -> Result<(), NoMemory>
    ensures { OnOk result (
        out.new.items
        ≡ out.old.items
        ++ (of_class (codes "READY") catalogue.now txns.now class time ++ rows_json (rows_of counts.now))) }
{
    let rows = rows_of(counts.as_slice());
    put_counted(
        out,
        b",\"kind\":\"READY\",\"class\":\"",
        catalogue,
        txns,
        class,
        time,
        rows,
    )
}

fn put_shipped(
    out: &mut Vec<u8>,
    catalogue: &Catalogue,
    txns: &[Txn],
    class: ClassNo,
    time: Ts,
    rows: &UseRows,
) -> Result<(), NoMemory>
    ensures { OnOk result (
        out.new.items
        ≡ out.old.items
        ++ (of_class (codes "ROWS") catalogue.now txns.now class time ++ rows_json (length rows.now))) }
{
    let rows = rows.as_slice().len() as u128;
    put_counted(
        out,
        b",\"kind\":\"ROWS\",\"class\":\"",
        catalogue,
        txns,
        class,
        time,
        rows,
    )
}

impl ToJson for Msg {
    ghost json = { message_json };

    fn tell(&self, out: &mut Vec<u8>, catalogue: &Catalogue, txns: &[Txn]) -> Result<(), NoMemory> {
        match self {
            Msg::Read {
                ts,
                class,
                txn,
                attempt,
                conds,
                ..
            } => put_read(out, catalogue, txns, *class, *ts, *txn, *attempt, conds),
            Msg::Ready { ts, class, counts } => {
                put_ready(out, catalogue, txns, *class, *ts, counts)
            }
            Msg::Reject {
                ts,
                class,
                by,
                write,
            } => put_reject(out, catalogue, txns, *class, *ts, *by, *write),
            Msg::Fetch { ts, class, .. } => {
                put_class(
                    out,
                    b",\"kind\":\"FETCH\",\"class\":\"",
                    catalogue,
                    txns,
                    *class,
                    *ts,
                )
            }
            Msg::Values {
                ts,
                class,
                values,
                ..
            } => put_valued(
                out,
                b",\"kind\":\"VALUES\",\"class\":\"",
                catalogue,
                txns,
                *class,
                *ts,
                values,
            ),
            Msg::Reduce {
                ts,
                class,
                values,
                ..
            } => put_valued(
                out,
                b",\"kind\":\"REDUCE\",\"class\":\"",
                catalogue,
                txns,
                *class,
                *ts,
                values,
            ),
            Msg::Reduced {
                ts,
                class,
                count,
                ..
            } => put_counted(
                out,
                b",\"kind\":\"REDUCED\",\"class\":\"",
                catalogue,
                txns,
                *class,
                *ts,
                *count as u128,
            ),
            Msg::Ship { ts, class } => put_class(
                out,
                b",\"kind\":\"SHIP\",\"class\":\"",
                catalogue,
                txns,
                *class,
                *ts,
            ),
            Msg::Rows { ts, class, rows } => {
                put_shipped(out, catalogue, txns, *class, *ts, rows)
            }
            Msg::Write {
                ts,
                class,
                txn,
                changes,
            } => put_write(out, catalogue, txns, *class, *ts, *txn, changes),
            Msg::Null { class, time } => put_class(
                out,
                b",\"kind\":\"NULL\",\"class\":\"",
                catalogue,
                txns,
                *class,
                *time,
            ),
            Msg::Ask { class, time } => put_class(
                out,
                b",\"kind\":\"ASK\",\"class\":\"",
                catalogue,
                txns,
                *class,
                *time,
            ),
            Msg::Hold => put_kind(out, b",\"kind\":\"HOLD\""),
            Msg::Held { time } => put_time(out, b",\"kind\":\"HELD\"", *time),
            Msg::Done { ts } => put_time(out, b",\"kind\":\"DONE\"", *ts),
            Msg::Release { ts } => put_time(out, b",\"kind\":\"RELEASE\"", *ts),
        }
    }
}

/// Puts an acknowledgement.
#[tactic(auto, using(crate::proofs::Members::alone_put))]
#[inline(always)]
pub(crate) fn put_ack(out: &mut Vec<u8>, upto: u32) -> Result<(), NoMemory>
    ensures { OnOk result (out.new.items ≡ out.old.items ++ ack_json upto) }
{
    put_opening(out, b"{\"ack\":", u64::from(upto))?;
    put(out, b"}")
}

/// Puts the number of a message and the message.
#[tactic(auto, using(crate::proofs::Members::object_put))]
fn put_message(
    out: &mut Vec<u8>,
    number: u32,
    message: &Msg,
    catalogue: &Catalogue,
    txns: &[Txn],
) -> Result<(), NoMemory>
    ensures { OnOk result (
        out.new.items
        ≡ out.old.items ++ packet_json catalogue.now txns.now (InFlight.First number message.now)) }
{
    put_opening(out, b"{\"n\":", u64::from(number))?;
    message.tell(out, catalogue, txns)?;
    put(out, b"}")
}

impl ToJson for InFlight {
    ghost json = { packet_json };

    fn tell(&self, out: &mut Vec<u8>, catalogue: &Catalogue, txns: &[Txn]) -> Result<(), NoMemory> {
        match self {
            InFlight::Ack(upto) => put_ack(out, *upto),
            InFlight::Again(number) => put_decimal(out, u64::from(*number)),
            InFlight::First(number, message) => {
                put_message(out, *number, message, catalogue, txns)
            }
        }
    }
}
