ghost use Rattle.std.specs.Prelude.{◌≡◌, ◌≤◌, ◌++◌, [], ◌∷◌, ℕ, List, map, true, false, All, IfOk, IsErrOf, OnOk};
ghost use Rattle.sdd_needs.specs.All.{Call, Msg, puts, puts_past};
ghost use Rattle.sdd_sites.specs.Carries.{Carries};
ghost use Rattle.sdd_sites.specs.Kinds.{AreLinked};

use crate::ends::WorldEnd;
use crate::mail::Mail;
use sdd_base::{NoMemory, Site};
use sdd_history::{History, Recs};
use sdd_wire::{Msg, Outs};
use std::collections::VecDeque;

/// Adds records of an event after the others; out of memory leaves some of them added.
pub fn record_all(history: &mut History, event: u32, recs: Recs) -> Result<(), NoMemory>
    requires { All (λ earlier. earlier.0 ≤ event) history.old }
    ensures { OnOk result (history.new ≡ history.old ++ map (λ r. (event, r)) recs) }
{
    for rec in recs.into_vec() {
        history.push(event, rec)?;
    }
    Ok(())
}

/// Puts a message on its link, or ends where there is no number for it.
fn send_one(net: &mut Mail, at: Site, to: Site, msg: Msg) -> Result<(), WorldEnd>
    requires { (tms : ℕ) × (dms : ℕ) × (calls : List (Call Msg))
        × Carries net.old tms dms calls × AreLinked tms dms at ((to, msg) ∷ []) }
    ensures ok { IfOk result (λ _. (tms : ℕ) (dms : ℕ) (calls : List (Call Msg))
        → Carries net.old tms dms calls → AreLinked tms dms at ((to, msg) ∷ [])
        → (puts_past calls at ((to, msg) ∷ []) ≡ false)
        × Carries net.new tms dms (puts at ((to, msg) ∷ []) calls)) }
    ensures limit { IsErrOf result WorldEnd.Limit → (tms : ℕ) (dms : ℕ) (calls : List (Call Msg))
        → Carries net.old tms dms calls → AreLinked tms dms at ((to, msg) ∷ [])
        → puts_past calls at ((to, msg) ∷ []) ≡ true }
{
    if net.count_sent(at, to) == u32::MAX {
        return Err(WorldEnd::Limit);
    }
    net.send(at, to, msg)?;
    Ok(())
}

/// Puts messages on their links, in order, or ends at the first for which there is no number, or
/// out of memory; those before it are sent then. Costs for each message what `Mail::send` does.
pub fn send_all(net: &mut Mail, at: Site, out: Outs) -> Result<(), WorldEnd>
    requires { (tms : ℕ) × (dms : ℕ) × (calls : List (Call Msg))
        × Carries net.old tms dms calls × AreLinked tms dms at out }
    ensures ok { IfOk result (λ _. (tms : ℕ) (dms : ℕ) (calls : List (Call Msg))
        → Carries net.old tms dms calls → AreLinked tms dms at out → (puts_past calls at out ≡ false)
        × Carries net.new tms dms (puts at out calls)) }
    ensures limit { IsErrOf result WorldEnd.Limit → (tms : ℕ) (dms : ℕ) (calls : List (Call Msg))
        → Carries net.old tms dms calls → AreLinked tms dms at out → puts_past calls at out ≡ true }
{
    let mut left = VecDeque::from_vec(out.into_vec());
    while let Some((to, msg)) = left.pop_front() {
        send_one(net, at, to, msg)?;
    }
    Ok(())
}
