ghost use Rattle.std.specs.Prelude.{◌≡◌, IfOk, OnOk};
ghost use Rattle.sdd_wire.specs.Spelling.{spelled};
ghost use Rattle.sdd_wire.specs.Fits.{FitsMsg};

use crate::msg::Msg;
use crate::spelled::Spelled;
use sdd_base::NoMemory;
use std::alloc::Global;

/// About the most bytes of a tag and the fields that aren't items of a list.
const USUAL_FIELDS: usize = 40;

/// Most conditions, uses, rows and changes have no more bytes.
const USUAL_ITEM: usize = 48;

/// Most counts and values have no more bytes.
const USUAL_VALUE: usize = 16;

fn room_for(items: usize, each: usize) -> usize {
    items.saturating_mul(each).saturating_add(USUAL_FIELDS)
}

/// A number of bytes that is enough for most messages like this one.
fn usual_room(msg: &Msg) -> usize {
    match msg {
        Msg::Read { conds, uses, .. } => {
            let conds = conds.as_slice().len();
            room_for(conds.saturating_add(uses.as_slice().len()), USUAL_ITEM)
        }
        Msg::Ready { counts, .. } => room_for(counts.as_slice().len(), USUAL_VALUE),
        Msg::Values { values, .. } => room_for(values.as_slice().len(), USUAL_VALUE),
        Msg::Reduce { values, .. } => room_for(values.as_slice().len(), USUAL_VALUE),
        Msg::Rows { rows, .. } => room_for(rows.as_slice().len(), USUAL_ITEM),
        Msg::Write { changes, .. } => room_for(changes.as_slice().len(), USUAL_ITEM),
        _ => USUAL_FIELDS,
    }
}

/// The bytes that spell the message. Costs time and memory linear in them, and for most messages
/// one block of memory.
pub fn encode(alloc: Global, msg: &Msg) -> Result<Vec<u8>, NoMemory>
    ensures spelling { IfOk result (λ bytes. bytes.items ≡ spelled msg.now) }
    ensures fits { OnOk result (FitsMsg msg.now) }
{
    let mut bytes = Vec::with_capacity(alloc, usual_room(msg))?;
    msg.put(&mut bytes)?;
    Ok(bytes)
}
