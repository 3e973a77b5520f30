ghost use Rattle.std.specs.Prelude.{◌<◌, ◌^◌, IfOk, All, length};
ghost use Rattle.sdd_blocks.specs.Numbered.{AreNumbered};

use sdd_base::NoMemory;
use std::alloc::Global;

/// Numbers for the marks, which are below `limit`: equal marks have one number, from 1 in the order of
/// their first places, and the mark 0 has the number 0.
pub(crate) fn numbers(alloc: Global, marks: &[u32], limit: u32) -> Result<Vec<u32>, NoMemory>
    requires few { length marks.now < 2 ^ 32 }
    requires below { All (λ mark. mark < limit) marks.now }
    ensures { IfOk result (λ numbers. AreNumbered marks.now numbers.items) }
{
    let mut given = vec![in alloc; 0; limit as usize]?;
    let mut numbers = Vec::with_capacity(alloc, marks.len())?;
    let mut last = 0;
    for mark in marks {
        if *mark != 0 && given[*mark as usize] == 0 {
            last += 1;
            given[*mark as usize] = last;
        }
        numbers.push(given[*mark as usize])?;
    }
    Ok(numbers)
}
