//! A message and its bytes, and bytes that are no message.
use sdd_script::{ClassNo, NoMemory, Ts};
use sdd_wire::{Msg, WireFault, decode, encode};
use std::alloc::Global;

/// A NULL of class 2 with time 191.
fn null() -> Msg {
    Msg::Null {
        class: ClassNo(2),
        time: Ts(191),
    }
}

/// Its bytes: 11, which says that it is a NULL, and the class and the time, the highest byte first.
pub fn is_spelled(alloc: Global) -> Result<bool, NoMemory> {
    let bytes = null_bytes(alloc)?;
    Ok(bytes.as_slice() == b"\x0b\0\0\0\x02\0\0\0\0\0\0\0\xbf".as_slice())
}

fn null_bytes(alloc: Global) -> Result<Vec<u8>, NoMemory> {
    let null = null();
    encode(alloc, &null)
}

pub fn is_read(alloc: Global) -> Result<bool, NoMemory> {
    let bytes = null_bytes(alloc)?;
    Ok(reads_null(alloc, bytes.as_slice()))
}

fn reads_null(alloc: Global, bytes: &[u8]) -> bool {
    match decode_message(alloc, bytes) {
        Ok(found) => is_null(&found),
        Err(_) => false,
    }
}

fn is_null(found: &Msg) -> bool {
    match found {
        Msg::Null { class, time } => *class == ClassNo(2) && *time == Ts(191),
        _ => false,
    }
}

/// The message that the bytes spell, or where they break. No clause says so, so that callers are
/// proved quickly.
fn decode_message(alloc: Global, bytes: &[u8]) -> Result<Msg, WireFault> {
    decode(alloc, bytes)
}

/// One byte too many, one too few, and a byte that begins no message.
pub fn break_there(alloc: Global) -> Result<bool, NoMemory> {
    let mut bytes = null_bytes(alloc)?;
    bytes.push(0)?;
    let more = breaks_at(alloc, bytes.as_slice(), 13);
    let _ = bytes.pop();
    let _ = bytes.pop();
    let cut = breaks_at(alloc, bytes.as_slice(), 5);
    Ok(cut && more && breaks_at(alloc, &[0], 0))
}

fn breaks_at(alloc: Global, bytes: &[u8], place: u64) -> bool {
    match decode_message(alloc, bytes) {
        Ok(_) => false,
        Err(fault) => fault == WireFault::Bad(place),
    }
}
