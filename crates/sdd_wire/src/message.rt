//! Messages: a tag, and the fields after it.
ghost use Rattle.std.specs.Prelude.{◌≡◌};
ghost use Rattle.sdd_base.specs.Readings.{GivesReading};
ghost use Rattle.sdd_wire.specs.Spelling.{spelled};
ghost use Rattle.sdd_wire.specs.Fits.{FitsMsg};
ghost use Rattle.sdd_wire.specs.Reading.{fault_in, message_at, read_at, ready_at, reject_at, fetch_at, values_at, reduce_at, reduced_at, ship_at};
ghost use Rattle.sdd_wire.specs.Reading.{rows_at, write_at, null_at, ask_at, held_at, done_at, release_at};

use crate::fault::WireFault;
use crate::fields::{put_five, put_four, put_one, put_three, put_two};
use crate::msg::{Msg, UseCounts, UseRows, ValueList};
use crate::source::Source;
use crate::spelled::Spelled;
use sdd_base::{Changes, ClassNo, Conds, NoMemory, Ts, TxnNo, Uses};
use std::alloc::Global;

#[tactic(auto, unfolding(crate::specs::Reading::read_at))]
fn read_read(alloc: Global, source: &mut Source<'_>) -> Result<Msg, WireFault>
    ensures { GivesReading fault_in (λ msg. (msg, source.new)) result (read_at source.old) }
{
    Ok(Msg::Read {
        ts: Ts::read(alloc, source)?,
        class: ClassNo::read(alloc, source)?,
        txn: TxnNo::read(alloc, source)?,
        attempt: u64::read(alloc, source)?,
        conds: Conds::read(alloc, source)?,
        uses: Uses::read(alloc, source)?,
    })
}

#[tactic(auto, unfolding(crate::specs::Reading::ready_at))]
fn read_ready(alloc: Global, source: &mut Source<'_>) -> Result<Msg, WireFault>
    ensures { GivesReading fault_in (λ msg. (msg, source.new)) result (ready_at source.old) }
{
    Ok(Msg::Ready {
        ts: Ts::read(alloc, source)?,
        class: ClassNo::read(alloc, source)?,
        counts: UseCounts::read(alloc, source)?,
    })
}

#[tactic(auto, unfolding(crate::specs::Reading::reject_at))]
fn read_reject(alloc: Global, source: &mut Source<'_>) -> Result<Msg, WireFault>
    ensures { GivesReading fault_in (λ msg. (msg, source.new)) result (reject_at source.old) }
{
    Ok(Msg::Reject {
        ts: Ts::read(alloc, source)?,
        class: ClassNo::read(alloc, source)?,
        by: ClassNo::read(alloc, source)?,
        write: Ts::read(alloc, source)?,
    })
}

#[tactic(auto, unfolding(crate::specs::Reading::fetch_at))]
fn read_fetch(alloc: Global, source: &mut Source<'_>) -> Result<Msg, WireFault>
    ensures { GivesReading fault_in (λ msg. (msg, source.new)) result (fetch_at source.old) }
{
    Ok(Msg::Fetch {
        ts: Ts::read(alloc, source)?,
        class: ClassNo::read(alloc, source)?,
        use_no: u32::read(alloc, source)?,
        column: u32::read(alloc, source)?,
    })
}

#[tactic(auto, unfolding(crate::specs::Reading::values_at))]
fn read_values(alloc: Global, source: &mut Source<'_>) -> Result<Msg, WireFault>
    ensures { GivesReading fault_in (λ msg. (msg, source.new)) result (values_at source.old) }
{
    Ok(Msg::Values {
        ts: Ts::read(alloc, source)?,
        class: ClassNo::read(alloc, source)?,
        use_no: u32::read(alloc, source)?,
        values: ValueList::read(alloc, source)?,
    })
}

#[tactic(auto, unfolding(crate::specs::Reading::reduce_at))]
fn read_reduce(alloc: Global, source: &mut Source<'_>) -> Result<Msg, WireFault>
    ensures { GivesReading fault_in (λ msg. (msg, source.new)) result (reduce_at source.old) }
{
    Ok(Msg::Reduce {
        ts: Ts::read(alloc, source)?,
        class: ClassNo::read(alloc, source)?,
        use_no: u32::read(alloc, source)?,
        column: u32::read(alloc, source)?,
        values: ValueList::read(alloc, source)?,
    })
}

#[tactic(auto, unfolding(crate::specs::Reading::reduced_at))]
fn read_reduced(alloc: Global, source: &mut Source<'_>) -> Result<Msg, WireFault>
    ensures { GivesReading fault_in (λ msg. (msg, source.new)) result (reduced_at source.old) }
{
    Ok(Msg::Reduced {
        ts: Ts::read(alloc, source)?,
        class: ClassNo::read(alloc, source)?,
        use_no: u32::read(alloc, source)?,
        count: u64::read(alloc, source)?,
    })
}

#[tactic(auto, unfolding(crate::specs::Reading::ship_at))]
fn read_ship(alloc: Global, source: &mut Source<'_>) -> Result<Msg, WireFault>
    ensures { GivesReading fault_in (λ msg. (msg, source.new)) result (ship_at source.old) }
{
    Ok(Msg::Ship {
        ts: Ts::read(alloc, source)?,
        class: ClassNo::read(alloc, source)?,
    })
}

#[tactic(auto, unfolding(crate::specs::Reading::rows_at))]
fn read_rows(alloc: Global, source: &mut Source<'_>) -> Result<Msg, WireFault>
    ensures { GivesReading fault_in (λ msg. (msg, source.new)) result (rows_at source.old) }
{
    Ok(Msg::Rows {
        ts: Ts::read(alloc, source)?,
        class: ClassNo::read(alloc, source)?,
        rows: UseRows::read(alloc, source)?,
    })
}

#[tactic(auto, unfolding(crate::specs::Reading::write_at))]
fn read_write(alloc: Global, source: &mut Source<'_>) -> Result<Msg, WireFault>
    ensures { GivesReading fault_in (λ msg. (msg, source.new)) result (write_at source.old) }
{
    Ok(Msg::Write {
        ts: Ts::read(alloc, source)?,
        class: ClassNo::read(alloc, source)?,
        txn: TxnNo::read(alloc, source)?,
        changes: Changes::read(alloc, source)?,
    })
}

#[tactic(auto, unfolding(crate::specs::Reading::null_at))]
fn read_null(alloc: Global, source: &mut Source<'_>) -> Result<Msg, WireFault>
    ensures { GivesReading fault_in (λ msg. (msg, source.new)) result (null_at source.old) }
{
    Ok(Msg::Null {
        class: ClassNo::read(alloc, source)?,
        time: Ts::read(alloc, source)?,
    })
}

#[tactic(auto, unfolding(crate::specs::Reading::ask_at))]
fn read_ask(alloc: Global, source: &mut Source<'_>) -> Result<Msg, WireFault>
    ensures { GivesReading fault_in (λ msg. (msg, source.new)) result (ask_at source.old) }
{
    Ok(Msg::Ask {
        class: ClassNo::read(alloc, source)?,
        time: Ts::read(alloc, source)?,
    })
}

#[tactic(auto, unfolding(crate::specs::Reading::held_at))]
fn read_held(alloc: Global, source: &mut Source<'_>) -> Result<Msg, WireFault>
    ensures { GivesReading fault_in (λ msg. (msg, source.new)) result (held_at source.old) }
{
    Ok(Msg::Held {
        time: Ts::read(alloc, source)?,
    })
}

#[tactic(auto, unfolding(crate::specs::Reading::done_at))]
fn read_done(alloc: Global, source: &mut Source<'_>) -> Result<Msg, WireFault>
    ensures { GivesReading fault_in (λ msg. (msg, source.new)) result (done_at source.old) }
{
    Ok(Msg::Done {
        ts: Ts::read(alloc, source)?,
    })
}

#[tactic(auto, unfolding(crate::specs::Reading::release_at))]
fn read_release(alloc: Global, source: &mut Source<'_>) -> Result<Msg, WireFault>
    ensures { GivesReading fault_in (λ msg. (msg, source.new)) result (release_at source.old) }
{
    Ok(Msg::Release {
        ts: Ts::read(alloc, source)?,
    })
}

impl Spelled for Msg {
    ghost spelling = { spelled };

    ghost reading = { message_at };

    ghost fits = { FitsMsg };

    fn put(&self, out: &mut Vec<u8>) -> Result<(), NoMemory> {
        match self {
            Msg::Read {
                ts,
                class,
                txn,
                attempt,
                conds,
                uses,
            } => {
                put_five(out, 1, ts, class, txn, attempt, conds)?;
                uses.put(out)
            }
            Msg::Ready { ts, class, counts } => put_three(out, 2, ts, class, counts),
            Msg::Reject {
                ts,
                class,
                by,
                write,
            } => put_four(out, 3, ts, class, by, write),
            Msg::Fetch {
                ts,
                class,
                use_no,
                column,
            } => put_four(out, 4, ts, class, use_no, column),
            Msg::Values {
                ts,
                class,
                use_no,
                values,
            } => put_four(out, 5, ts, class, use_no, values),
            Msg::Reduce {
                ts,
                class,
                use_no,
                column,
                values,
            } => put_five(out, 6, ts, class, use_no, column, values),
            Msg::Reduced {
                ts,
                class,
                use_no,
                count,
            } => put_four(out, 7, ts, class, use_no, count),
            Msg::Ship { ts, class } => put_two(out, 8, ts, class),
            Msg::Rows { ts, class, rows } => put_three(out, 9, ts, class, rows),
            Msg::Write {
                ts,
                class,
                txn,
                changes,
            } => put_four(out, 10, ts, class, txn, changes),
            Msg::Null { class, time } => put_two(out, 11, class, time),
            Msg::Ask { class, time } => put_two(out, 12, class, time),
            Msg::Hold => {
                out.push(13)?;
                Ok(())
            }
            Msg::Held { time } => put_one(out, 14, time),
            Msg::Done { ts } => put_one(out, 15, ts),
            Msg::Release { ts } => put_one(out, 16, ts),
        }
    }

    #[tactic(auto, unfolding(crate::specs::Reading::message_at), using(crate::proofs::Numbered::none_there))]
    fn read(alloc: Global, source: &mut Source<'_>) -> Result<Self, WireFault> {
        let place = source.place();
        match source.byte()? {
            1 => read_read(alloc, source),
            2 => read_ready(alloc, source),
            3 => read_reject(alloc, source),
            4 => read_fetch(alloc, source),
            5 => read_values(alloc, source),
            6 => read_reduce(alloc, source),
            7 => read_reduced(alloc, source),
            8 => read_ship(alloc, source),
            9 => read_rows(alloc, source),
            10 => read_write(alloc, source),
            11 => read_null(alloc, source),
            12 => read_ask(alloc, source),
            13 => Ok(Msg::Hold),
            14 => read_held(alloc, source),
            15 => read_done(alloc, source),
            16 => read_release(alloc, source),
            _ => Err(WireFault::Bad(place)),
        }
    }
}
