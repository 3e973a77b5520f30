//! Copies of messages, those that own lists by a function each.
ghost use Rattle.std.specs.Prelude.{◌≡◌, IfOk};
ghost use Rattle.sdd_wire.specs.declared.msg.Msg.TheVariants.{Read, Ready, Values, Reduce, Rows, Write};

use crate::msg::{Msg, UseCounts, UseRows, ValueList};
use sdd_base::{Changes, ClassNo, Conds, NoMemory, Parcel, Ts, TxnNo, Uses};

fn copy_read(
    ts: Ts,
    class: ClassNo,
    txn: TxnNo,
    attempt: u64,
    conds: &Conds,
    uses: &Uses,
) -> Result<Msg, NoMemory>
    ensures { IfOk result (λ copy. copy ≡ Read ts class txn attempt conds.now uses.now) }
{
    Ok(Msg::Read {
        ts,
        class,
        txn,
        attempt,
        conds: conds.copy()?,
        uses: uses.copy()?,
    })
}

fn copy_ready(ts: Ts, class: ClassNo, counts: &UseCounts) -> Result<Msg, NoMemory>
    ensures { IfOk result (λ copy. copy ≡ Ready ts class counts.now) }
{
    Ok(Msg::Ready {
        ts,
        class,
        counts: counts.copy()?,
    })
}

fn copy_values(ts: Ts, class: ClassNo, use_no: u32, values: &ValueList) -> Result<Msg, NoMemory>
    ensures { IfOk result (λ copy. copy ≡ Values ts class use_no values.now) }
{
    Ok(Msg::Values {
        ts,
        class,
        use_no,
        values: values.copy()?,
    })
}

fn copy_reduce(
    ts: Ts,
    class: ClassNo,
    use_no: u32,
    column: u32,
    values: &ValueList,
) -> Result<Msg, NoMemory>
    ensures { IfOk result (λ copy. copy ≡ Reduce ts class use_no column values.now) }
{
    Ok(Msg::Reduce {
        ts,
        class,
        use_no,
        column,
        values: values.copy()?,
    })
}

fn copy_rows(ts: Ts, class: ClassNo, rows: &UseRows) -> Result<Msg, NoMemory>
    ensures { IfOk result (λ copy. copy ≡ Rows ts class rows.now) }
{
    Ok(Msg::Rows {
        ts,
        class,
        rows: rows.copy()?,
    })
}

fn copy_write(ts: Ts, class: ClassNo, txn: TxnNo, changes: &Changes) -> Result<Msg, NoMemory>
    ensures { IfOk result (λ copy. copy ≡ Write ts class txn changes.now) }
{
    Ok(Msg::Write {
        ts,
        class,
        txn,
        changes: changes.copy()?,
    })
}

impl Parcel for Msg {
    fn copy(&self) -> Result<Self, NoMemory> {
        match self {
            Msg::Read {
                ts,
                class,
                txn,
                attempt,
                conds,
                uses,
            } => copy_read(*ts, *class, *txn, *attempt, conds, uses),
            Msg::Ready { ts, class, counts } => copy_ready(*ts, *class, counts),
            Msg::Reject {
                ts,
                class,
                by,
                write,
            } => Ok(Msg::Reject {
                ts: *ts,
                class: *class,
                by: *by,
                write: *write,
            }),
            Msg::Fetch {
                ts,
                class,
                use_no,
                column,
            } => Ok(Msg::Fetch {
                ts: *ts,
                class: *class,
                use_no: *use_no,
                column: *column,
            }),
            Msg::Values {
                ts,
                class,
                use_no,
                values,
            } => copy_values(*ts, *class, *use_no, values),
            Msg::Reduce {
                ts,
                class,
                use_no,
                column,
                values,
            } => copy_reduce(*ts, *class, *use_no, *column, values),
            Msg::Reduced {
                ts,
                class,
                use_no,
                count,
            } => Ok(Msg::Reduced {
                ts: *ts,
                class: *class,
                use_no: *use_no,
                count: *count,
            }),
            Msg::Ship { ts, class } => Ok(Msg::Ship {
                ts: *ts,
                class: *class,
            }),
            Msg::Rows { ts, class, rows } => copy_rows(*ts, *class, rows),
            Msg::Write {
                ts,
                class,
                txn,
                changes,
            } => copy_write(*ts, *class, *txn, changes),
            Msg::Null { class, time } => Ok(Msg::Null {
                class: *class,
                time: *time,
            }),
            Msg::Ask { class, time } => Ok(Msg::Ask {
                class: *class,
                time: *time,
            }),
            Msg::Hold => Ok(Msg::Hold),
            Msg::Held { time } => Ok(Msg::Held { time: *time }),
            Msg::Done { ts } => Ok(Msg::Done { ts: *ts }),
            Msg::Release { ts } => Ok(Msg::Release { ts: *ts }),
        }
    }
}
