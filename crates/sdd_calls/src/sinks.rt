//! A sink that takes all of a text as long as it has room.
use sdd_script::{NoMemory, SureSink, write_text};
use std::alloc::Global;

pub fn takes_five(alloc: Global) -> Result<bool, NoMemory> {
    let mut sink = SureSink::new(alloc, 5)?;
    let taken = write_text(&mut sink, b"abcde").is_ok();
    let over = write_text(&mut sink, b"f").is_ok();
    Ok(taken && !over && sink.taken() == b"abcde".as_slice())
}
