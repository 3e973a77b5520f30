//! A line that is printed.
use sdd_script::{NoMemory, put};

/// Puts a line: a name, and whether it holds. Puts nothing where memory ran out before that was known.
pub fn tell(out: &mut Vec<u8>, name: &[u8], holds: Result<bool, NoMemory>) -> Result<(), NoMemory> {
    match holds {
        Ok(holds) => put_line(out, name, holds),
        Err(_) => Err(NoMemory),
    }
}

fn put_line(out: &mut Vec<u8>, name: &[u8], holds: bool) -> Result<(), NoMemory> {
    put(out, name)?;
    put(out, if holds { b": yes\n" } else { b": no\n" })
}
