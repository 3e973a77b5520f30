//! Relations of classes, as lists of flags.
ghost use Rattle.std.specs.Prelude.{◌≡◌, IfOk, length};
ghost use Rattle.sdd_ask.specs.Flags.{Tells, closed, flag_at, flags_of, through};

use sdd_base::NoMemory;
use std::alloc::Global;

/// One more than the greatest number that a class may have.
pub(crate) const WIDTH: u32 = 65;

/// A flag for each two numbers below `WIDTH`.
pub(crate) const CELLS: u32 = WIDTH * WIDTH;

/// Whether the first class is related to the second.
pub(crate) fn flag_at(flags: &[bool], i: u32, j: u32) -> bool
    ensures { result ≡ flag_at flags.now i j }
{
    let cell = u64::from(i) * u64::from(WIDTH) + u64::from(j);
    match flags.get(cell as usize) {
        Some(flag) => *flag,
        None => false,
    }
}

/// The relation with all chains of it. Costs time in the third power of `WIDTH`.
pub(crate) fn closed(alloc: Global, flags: &[bool]) -> Result<Vec<bool>, NoMemory>
    requires { length flags.now ≡ CELLS }
    ensures { IfOk result (λ all. Tells all.items (closed (flag_at flags.now) WIDTH)) }
{
    let mut all = flags.to_vec(alloc)?;
    'classes: for k in 0..WIDTH {
        all = through_class(alloc, &all, k)?;
    }
    Ok(all)
}

/// The relation, and where two are related through class k.
fn through_class(alloc: Global, flags: &[bool], k: u32) -> Result<Vec<bool>, NoMemory>
    ensures { IfOk result (λ all. all.items ≡ flags_of (through (flag_at flags.now) k)) }
{
    Ok(
        (0..CELLS)
            .map(|cell| are_linked(flags, k, cell / WIDTH, cell % WIDTH))
            .collect(alloc)?,
    )
}

fn are_linked(flags: &[bool], k: u32, i: u32, j: u32) -> bool
    ensures { result ≡ through (flag_at flags.now) k i j }
{
    flag_at(flags, i, j) || (flag_at(flags, i, k) && flag_at(flags, k, j))
}
