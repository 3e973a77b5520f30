//! The data modules that said what they applied.
ghost use Rattle.std.specs.Prelude.{◌≡◌, ◌≤◌, ◌++◌, ◌∷◌, ◌||◌, [], ℕ, false, filter, map, not, IfOk, OnOk};
ghost use Rattle.std.specs.BTreeSet.{contains};
ghost use Rattle.std.specs.List.{list_any};
ghost use Rattle.sdd_moments.specs.obligations.All.{MAX_DMS, dm_no, numbers_to};
ghost use Rattle.sdd_moments.specs.obligations.links.Finding.{pair_cmp};
ghost use Rattle.sdd_watch.specs.Looking.{says, says_one};

use sdd_moments::{Arrived, DmNo, NoMemory, Purpose, Site, Ts};
use std::alloc::Global;
use std::collections::BTreeSet;

/// The DONEs that were handed to the module for undeclared transactions, by timestamps and data
/// modules.
#[derive(Drop)]
pub(crate) struct Dones {
    said: BTreeSet<(u64, u8)>,
}

impl Dones {
    /// No DONE has been received yet.
    pub(crate) fn new(alloc: Global) -> Dones
        ensures { (t d : ℕ) → contains pair_cmp result.said (t, d) ≡ false }
    {
        Dones {
            said: BTreeSet::new(alloc),
        }
    }

    /// Notes a message of a data module, where it is a DONE.
    fn note_one(&mut self, dm: DmNo, message: &(u32, Purpose)) -> Result<(), NoMemory>
        ensures { OnOk result ((t d : ℕ) → contains pair_cmp self.new.said (t, d)
            ≡ (says_one t d dm.0 message.now || contains pair_cmp self.old.said (t, d))) }
    {
        if let Purpose::Applied(ts) = message.1 {
            self.said.insert((ts.0, dm.0))?;
        }
        Ok(())
    }

    /// Notes the messages of a data module that are DONEs.
    #[tactic(auto, using(crate::proofs::Saying::said_more, crate::proofs::Saying::said_end))]
    fn note_all(&mut self, dm: DmNo, messages: &[(u32, Purpose)]) -> Result<(), NoMemory>
        ensures { OnOk result ((t d : ℕ) → contains pair_cmp self.new.said (t, d)
            ≡ (list_any (says_one t d dm.0) messages.now
            || contains pair_cmp self.old.said (t, d))) }
    {
        'messages: for message in messages {
            self.note_one(dm, message)?;
        }
        Ok(())
    }

    /// Notes the messages that were handed over on a link, where it is one from a data module.
    fn note_on(&mut self, one: &Arrived) -> Result<(), NoMemory>
        ensures { OnOk result ((t d : ℕ) → contains pair_cmp self.new.said (t, d)
            ≡ (says t d one.now || contains pair_cmp self.old.said (t, d))) }
    {
        match (one.from, one.to) {
            (Site::D(dm), Site::U) => self.note_all(dm, one.messages.as_slice()),
            _ => Ok(()),
        }
    }

    /// Notes the messages that were handed over.
    #[tactic(auto, using(crate::proofs::Saying::said_more, crate::proofs::Saying::said_end))]
    pub(crate) fn note(&mut self, arrived: &[Arrived]) -> Result<(), NoMemory>
        ensures { OnOk result ((t d : ℕ) → contains pair_cmp self.new.said (t, d)
            ≡ (list_any (says t d) arrived.now || contains pair_cmp self.old.said (t, d))) }
    {
        'links: for one in arrived {
            self.note_on(one)?;
        }
        Ok(())
    }

    /// Whether a data module said that what was committed with a timestamp is applied there.
    fn has(&self, ts: Ts, dm: DmNo) -> bool
        ensures { result ≡ contains pair_cmp self.now.said (ts.0, dm.0) }
    {
        self.said.contains(&(ts.0, dm.0))
    }

    /// Adds a data module, where it didn't say so.
    fn add_missing(&self, ts: Ts, dm: DmNo, missing: &mut Vec<DmNo>) -> Result<(), NoMemory>
        ensures { OnOk result (missing.new.items ≡ missing.old.items
            ++ map dm_no
            (filter (λ d. not (contains pair_cmp self.now.said (ts.0, d))) (dm.0 ∷ []))) }
    {
        if !self.has(ts, dm) {
            missing.push(dm)?;
        }
        Ok(())
    }

    /// The data modules, of so many, that didn't say so.
    pub(crate) fn missing_dms(&self, alloc: Global, ts: Ts, dms: u32) -> Result<Vec<DmNo>, NoMemory>
        requires { dms ≤ MAX_DMS }
        ensures { IfOk result (λ missing. missing.items
            ≡ map dm_no
            (filter (λ d. not (contains pair_cmp self.now.said (ts.0, d))) (numbers_to dms))) }
    {
        let mut missing = Vec::new(alloc);
        for number in 1..dms + 1 {
            self.add_missing(ts, DmNo(number as u8), &mut missing)?;
        }
        Ok(missing)
    }
}
