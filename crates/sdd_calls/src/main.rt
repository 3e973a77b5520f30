//! Calls, each with ample memory, the public functions of the lower crates that take memory and that no
//! command of the program reaches, and those of which a worked example shows more than a command.
//!
//! No contract says when memory runs out, so a body that always returns `NoMemory` is proved too. The
//! calls of a command are made by the cases of `sdd_cases`, these here. Each answer is compared
//! with what is expected, and one line is printed: a name of the call, and `yes` or `no`. Where memory
//! runs out, or what is made can't be read, the lines from there on are missing.
#![tactic(auto)]

mod advices;
mod bank;
mod catalogues;
mod copies;
mod graphs;
mod line;
mod messages;
mod names;
mod sinks;
mod transactions;

use line::tell;
use sdd_script::NoMemory;
use std::alloc::Global;
use std::io::{self, Write};

fn main(rt: HostRuntime) -> io::Result<()> {
    let mut text = Vec::new(rt.alloc());
    let _ = tell_all(rt.alloc(), &mut text);
    io::writer(&rt).write_all(text.as_slice())
}

fn tell_all(alloc: Global, out: &mut Vec<u8>) -> Result<(), NoMemory> {
    tell_values(alloc, out)?;
    tell_graphs(alloc, out)?;
    tell_messages(alloc, out)?;
    bank::tell_calls(alloc, out)
}

fn tell_values(alloc: Global, out: &mut Vec<u8>) -> Result<(), NoMemory> {
    tell(out, b"names", names::accept_names_only(alloc))?;
    tell(out, b"texts", names::accept_texts_only(alloc))?;
    tell(out, b"a sink that always takes", sinks::takes_five(alloc))
}

fn tell_graphs(alloc: Global, out: &mut Vec<u8>) -> Result<(), NoMemory> {
    tell(out, b"blocks of two triangles", graphs::two_blocks(alloc))?;
    tell(out, b"one block of 64 classes", graphs::one_block(alloc))?;
    tell(out, b"a deleted row", copies::stays_deleted(alloc))?;
    tell(out, b"a row that is put later", copies::comes_back(alloc))
}

fn tell_messages(alloc: Global, out: &mut Vec<u8>) -> Result<(), NoMemory> {
    tell(out, b"encode", messages::is_spelled(alloc))?;
    tell(out, b"decode", messages::is_read(alloc))?;
    tell(
        out,
        b"decode what is no message",
        messages::break_there(alloc),
    )
}
