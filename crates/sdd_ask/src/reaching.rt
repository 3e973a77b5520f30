//! What tasks of classes lead to.
ghost use Rattle.std.specs.Prelude.{◌≡◌, IfOk};
ghost use Rattle.sdd_ask.specs.Flags.{flag_at, flags_of};
ghost use Rattle.sdd_ask.specs.Reaching.{begins, goes_on, is_held, moves};

use crate::flags::{CELLS, WIDTH, flag_at};
use sdd_base::NoMemory;
use std::alloc::Global;

/// From which class's passing it leads to which: a class itself, those for which it waits, and those for
/// which a reader waits that waits for it too.
pub(crate) fn moves(alloc: Global, waits: &[bool]) -> Result<Vec<bool>, NoMemory>
    ensures { IfOk result (λ flags. flags.items ≡ flags_of (moves (flag_at waits.now))) }
{
    Ok(
        (0..CELLS)
            .map(|cell| is_move(waits, cell / WIDTH, cell % WIDTH))
            .collect(alloc)?,
    )
}

fn is_move(waits: &[bool], j: u32, m: u32) -> bool
    ensures { result ≡ moves (flag_at waits.now) j m }
{
    j == m || flag_at(waits, j, m) || is_held(waits, j, m)
}

/// Whether a class waits for both.
fn is_held(waits: &[bool], j: u32, m: u32) -> bool
    ensures { result ≡ is_held (flag_at waits.now) j m }
{
    (0..WIDTH).any(|r| flag_at(waits, r, j) && flag_at(waits, r, m))
}

/// From which class's attempt it leads to which class's passing, or to itself.
pub(crate) fn begins(
    alloc: Global,
    awaits: &[bool],
    passing: &[bool],
) -> Result<Vec<bool>, NoMemory>
    ensures { IfOk result (λ flags.
        flags.items ≡ flags_of (begins (flag_at awaits.now) (flag_at passing.now))) }
{
    Ok(
        (0..CELLS)
            .map(|cell| is_begun(awaits, passing, cell / WIDTH, cell % WIDTH))
            .collect(alloc)?,
    )
}

fn is_begun(awaits: &[bool], passing: &[bool], c: u32, k: u32) -> bool
    ensures { result ≡ begins (flag_at awaits.now) (flag_at passing.now) c k }
{
    c == k || goes_on(awaits, passing, c, k)
}

/// Whether an attempt of the class awaits one whose passing leads there.
fn goes_on(awaits: &[bool], passing: &[bool], c: u32, k: u32) -> bool
    ensures { result ≡ goes_on (flag_at awaits.now) (flag_at passing.now) c k }
{
    (0..WIDTH).any(|j| flag_at(awaits, c, j) && flag_at(passing, j, k))
}
