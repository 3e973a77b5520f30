ghost use Rattle.std.specs.Prelude.{◌≡◌, ◌≤◌, ◌<◌, [], ◌∷◌, ◌++◌, length, take, slice_get, option_map, Some, All, OnOk, OnErr};

use crate::record::Rec;
use sdd_base::NoMemory;
use std::alloc::Global;
use std::marker::Model;

/// The records of a run, each with the number of its event, in the order in which they were made.
///
/// Contracts see the list of pairs of event and record. The number of an event never falls from a
/// record to the next one. The readers take no memory, and constant time.
#[derive(Drop)]
pub struct History {
    records: Vec<(u32, Rec)>,
}

impl Model for History {
    ghost use Rattle.sdd_history.specs.Records.{History as RecordList, IsInOrder};

    ghost Value = { RecordList };

    ghost view = { λ h. h.records.items };

    ghost invariant = { λ h. IsInOrder h.records.items };
}

impl History {
    /// The history without records.
    pub fn new(alloc: Global) -> History
        ensures { result ≡ [] }
    {
        History {
            records: Vec::new(alloc),
        }
    }

    /// Adds a record at the end. Takes constant time, but for growth.
    pub fn push(&mut self, event: u32, rec: Rec) -> Result<(), NoMemory>
        requires { All (λ earlier. earlier.0 ≤ event) self.old }
        ensures ok { OnOk result (self.new ≡ self.old ++ (event, rec) ∷ []) }
        ensures err { OnErr result (self.new ≡ self.old) }
    {
        self.records.push((event, rec))?;
        Ok(())
    }

    /// The records, lent.
    pub fn as_slice(&self) -> &[(u32, Rec)]
        ensures { result.now ≡ self.now }
    {
        self.records.as_slice()
    }

    /// How many records there are.
    pub fn len(&self) -> u64
        ensures { result ≡ length self.now }
    {
        self.records.len() as u64
    }

    /// The event of record k, counted from 0.
    #[tactic(auto, using(crate::proofs::Earlier::earlier_events))]
    pub fn event(&self, k: u64) -> u32
        requires { k < length self.now }
        ensures value { option_map (λ found. found.0) (slice_get self.now k) ≡ Some result }
        ensures order { All (λ earlier. earlier.0 ≤ result) (take k self.now) }
    {
        self.records[k as usize].0
    }

    /// Record k, counted from 0.
    pub fn rec(&self, k: u64) -> &Rec
        requires { k < length self.now }
        ensures { option_map (λ found. found.1) (slice_get self.now k) ≡ Some result.now }
    {
        &self.records[k as usize].1
    }
}
