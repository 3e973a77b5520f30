//! What a module keeps for each class, from class 0 on.
ghost use Rattle.std.specs.Prelude.{◌≡◌, OnOk};
ghost use Rattle.sdd_pipe.specs.Pipes.{update};
ghost use Rattle.sdd_rules.specs.dm.Copies.{reduced_at};
ghost use Rattle.sdd_dm.specs.Heads.{waits_at};
ghost use Rattle.sdd_dm.specs.State.{frozen_of};

use sdd_copy::Space;
use sdd_module::{ClassNo, NoMemory, Ts, Value};

/// Whether the head of a class waits.
pub fn waits_at(waits: &[bool], class: ClassNo) -> bool
    ensures { result ≡ waits_at waits.now class.0 }
{
    match waits.get(class.0 as usize) {
        Some(waits) => *waits,
        None => false,
    }
}

/// Notes whether the head of a class waits.
pub fn set_waiting(waits: &mut Vec<bool>, class: ClassNo, waiting: bool)
    ensures { waits.new.items ≡ update class.0 (λ w. waiting) waits.old.items }
{
    let at = class.0 as usize;
    if at < waits.len() {
        waits[at] = waiting;
    }
}

/// Puts rows in the place of those that a class had, which it gives.
pub fn put_space(
    spaces: &mut Vec<Option<Space>>,
    class: ClassNo,
    space: Option<Space>,
) -> Option<Space>
    ensures old { result ≡ frozen_of spaces.old.items class.0 }
    ensures new { spaces.new.items ≡ update class.0 (λ f. space) spaces.old.items }
{
    let at = class.0 as usize;
    if at >= spaces.len() {
        return None;
    }
    std::mem::replace(&mut spaces[at], space)
}

/// Reduces the rows that a class has, where they are those of the READ with this timestamp.
pub fn reduce_space(
    spaces: &mut Vec<Option<Space>>,
    class: ClassNo,
    ts: Ts,
    use_no: u32,
    column: u32,
    values: &[Value],
) -> Result<(), NoMemory>
    ensures { OnOk result (spaces.new.items
        ≡ update class.0 (reduced_at ts.0 use_no column values.now) spaces.old.items) }
{
    let at = class.0 as usize;
    if at < spaces.len() {
        reduce_slot(&mut spaces[at], ts, use_no, column, values)?;
    }
    Ok(())
}

fn reduce_slot(
    slot: &mut Option<Space>,
    ts: Ts,
    use_no: u32,
    column: u32,
    values: &[Value],
) -> Result<(), NoMemory>
    ensures { OnOk result (slot.new ≡ reduced_at ts.0 use_no column values.now slot.old) }
{
    match slot {
        None => Ok(()),
        Some(space) => {
            if space.ts().0 != ts.0 {
                return Ok(());
            }
            space.reduce(use_no, column, values)
        }
    }
}
