//! A copy of a fragment to which an earlier put comes after a deletion.
use sdd_copy::FragCopy;
use sdd_script::{Change, FragNo, NoMemory, Row, Ts, Value};
use std::alloc::Global;
use std::slice;

pub fn stays_deleted(alloc: Global) -> Result<bool, NoMemory> {
    let copy = delete_row(alloc)?;
    has_no_row(&copy)
}

fn has_no_row(copy: &FragCopy) -> Result<bool, NoMemory> {
    let rows = rows_of(copy)?;
    Ok(rows.is_empty())
}

pub fn comes_back(alloc: Global) -> Result<bool, NoMemory> {
    let last = row(alloc, 3)?;
    is_put_back(alloc, &last)
}

fn is_put_back(alloc: Global, last: &Row) -> Result<bool, NoMemory> {
    let copy = put_row(alloc, delete_row(alloc)?, 91, 3)?;
    has_row(&copy, last)
}

/// Whether the row is the only one.
fn has_row(copy: &FragCopy, row: &Row) -> Result<bool, NoMemory> {
    let rows = rows_of(copy)?;
    Ok(rows.as_slice() == slice::from_ref(row))
}

/// The row is deleted at 90, and then one is put at 70.
fn delete_row(alloc: Global) -> Result<FragCopy, NoMemory> {
    let copy = write_row(start_copy(alloc)?, 90, None)?;
    put_row(alloc, copy, 70, 2)
}

fn start_copy(alloc: Global) -> Result<FragCopy, NoMemory> {
    let first = row(alloc, 1)?;
    FragCopy::new(alloc, slice::from_ref(&first), 1)
}

fn put_row(alloc: Global, copy: FragCopy, ts: u64, value: i64) -> Result<FragCopy, NoMemory> {
    let row = row(alloc, value)?;
    write_row(copy, ts, Some(row))
}

fn write_row(copy: FragCopy, ts: u64, row: Option<Row>) -> Result<FragCopy, NoMemory> {
    let mut copy = copy;
    let frag = FragNo(1);
    if !copy.live() {
        return Err(NoMemory);
    }
    copy.write(Ts(ts), Change { frag, key: 4, row })?;
    Ok(copy)
}

fn rows_of(copy: &FragCopy) -> Result<Vec<Row>, NoMemory> {
    if !copy.live() {
        return Err(NoMemory);
    }
    copy.rows()
}

fn row(alloc: Global, value: i64) -> Result<Row, NoMemory> {
    let items = vec![in alloc; Value::Int(4), Value::Int(value)]?;
    Row::from_vec(items)
}
