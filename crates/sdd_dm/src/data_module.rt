ghost use Rattle.std.specs.Prelude.{◌≡◌, ◌≤◌, ℕ, [], IfOk, OnErr, IsTrue, length, true};
ghost use Rattle.std.specs.Option.{option_copied, option_map};
ghost use Rattle.std.specs.List.{All};
ghost use Rattle.sdd_module.specs.All.{D, Does, FitsStart, Handed, Log, Setting, has_copy, number_of};
ghost use Rattle.sdd_copy.specs.Copies.{is_here, Represent};
ghost use Rattle.sdd_rules.specs.dm.Copies.{dated};
ghost use Rattle.sdd_rules.specs.dm.Due.{next};
ghost use Rattle.sdd_rules.specs.dm.Fits.{fits};
ghost use Rattle.sdd_dm.specs.Represents.{Represents};
ghost use Rattle.sdd_rules.specs.dm.Waiting.{IsAwaited};
ghost use Rattle.sdd_dm.specs.Waiting.{holders_in, unmet_in};
ghost use Rattle.sdd_pipe.specs.Digest.{passed_to};
ghost use Rattle.sdd_pipe.specs.Pipes.{pipe_at};

use crate::holding::ClassNos;
use crate::parts::Parts;
use sdd_copy::Copies;
use sdd_module::{
    Catalogue, ClassNo, Cond, Conds, DmNo, Module, Msg, NoMemory, Outcome, RelNo, Row, Site, Ts,
};
use std::alloc::Global;
use std::marker::Model;

/// A data module: it takes the messages that are handed to its site, and answers, applies, rejects
/// and asks as its log makes due.
///
/// A message costs O(log n) in what it touches: the changes of a WRITE, the rows that a READ
/// freezes. Before each act and once at the end the heads of the pipes are looked at, at most one a
/// class, so 65; an empty pipe, or a READ or WRITE that is kept by what kept it last, costs one
/// test, or as many as one READ has conditions. What isn't kept so costs the conditions of the READ,
/// or, for a WRITE, of all READs that wait: once for each message, and once more each time that
/// what kept it ends.
#[derive(Drop)]
pub struct DataModule {
    parts: Parts,
    live: bool,
}

impl Model for DataModule {
    ghost use Rattle.sdd_module.specs.All.{Kept};
    ghost use Rattle.sdd_dm.specs.State.{State};

    ghost Value = { Kept State };

    ghost view = { λ m. record { live = m.live; value = m.parts } };
}

impl DataModule {
    /// The data module `dm` of a catalogue, which begins with these rows: of two with one key the
    /// later stands. It keeps those of the fragments that it has copies of.
    ///
    /// O(n log n) for n rows, and O(c + f) for c classes and f fragments.
    pub fn new(
        alloc: Global,
        catalogue: &Catalogue,
        dm: DmNo,
        rows: &[(RelNo, Row)],
    ) -> Result<DataModule, NoMemory>
        requires { All (FitsStart catalogue.now) rows.now }
        ensures { IfOk result (λ made. Represents made
            (record { catalogue = catalogue.now; site = D dm; rows = rows.now }) []) }
    {
        Ok(DataModule {
            parts: Parts::new(alloc, catalogue, dm, rows)?,
            live: true,
        })
    }

    /// The copies of its fragments, lent: they hold what the changes in the log leave. O(1),
    /// and takes no memory.
    pub fn copies(&self) -> &Copies
        ensures live { (setting : Setting) (log : Log) → Represents self.now setting log
            → IsTrue result.now.live }
        ensures represent { (setting : Setting) (log : Log) → Represents self.now setting log
            → Represent result.now.value (dated setting log) }
        ensures here { (setting : Setting) (log : Log) → Represents self.now setting log
            → (f : ℕ) → has_copy setting.catalogue (number_of setting.site) f ≡ true
            → is_here result.now.value f ≡ true }
    {
        &self.parts.copies
    }

    /// How many pipes there are: one for class 0 and for each class after it. Takes no memory.
    pub fn pipe_count(&self) -> u32
        ensures { result ≡ length self.now.value.pipes }
    {
        self.parts.pipes.count()
    }

    /// How many messages in the pipe of a class aren't processed. O(1), and takes no memory.
    pub fn count_unprocessed(&self, class: ClassNo) -> usize
        ensures { result ≡ length (pipe_at self.now.value.pipes class.0).unprocessed }
    {
        self.parts.pipes.len(class)
    }

    /// The greatest time that a class has passed: None exactly where it has passed none. O(1), and
    /// takes no memory.
    pub fn passed_to(&self, class: ClassNo) -> Option<Ts>
        ensures { option_map (λ ts. ts.0) result ≡ passed_to (pipe_at self.now.value.pipes class.0) }
    {
        self.parts.pipes.passed_to(class)
    }

    /// Of the READ of a class, where it waits, the conditions whose classes haven't passed their
    /// times; None exactly where none waits. Costs copies of these.
    pub fn unmet_conds(&self, class: ClassNo) -> Result<Option<Conds>, NoMemory>
        ensures { IfOk result (λ conds. conds
            ≡ unmet_in self.now.value.pipes self.now.value.waits class.0) }
    {
        self.parts.unmet_conds(class)
    }

    /// For the WRITE at the head of the pipe of a class, the classes whose READ waits and must not
    /// see it; None exactly where no WRITE is there. Costs the conditions of all READs that wait
    /// times the changes.
    pub fn holders(&self, class: ClassNo) -> Result<Option<ClassNos>, NoMemory>
        ensures { IfOk result (λ classes. classes
            ≡ holders_in self.now.value.pipes self.now.value.waits class.0) }
    {
        self.parts.holders(class)
    }

    /// Of the READ of a class with this timestamp, where it waits, the first condition whose class
    /// hasn't passed its time; None exactly where no such READ waits. O(n) for n conditions, and
    /// takes no memory.
    pub fn waits(&self, class: ClassNo, ts: Ts) -> Option<&Cond>
        ensures { (setting : Setting) (log : Log) → Represents self.now setting log
            → class.0 ≤ length setting.catalogue.classes
            → IsAwaited setting log class.0 ts.0 (option_copied result) }
    {
        self.parts.awaited_cond(class, ts)
    }
}

impl Module for DataModule {
    ghost represents = { Represents };

    ghost next = { next };

    ghost fits = { fits };

    ghost is_live = { λ m. m.live };

    fn live(&self) -> bool {
        self.live
    }

    fn take(&mut self, from: Site, msg: Msg) -> Result<Outcome, NoMemory> {
        self.live = false;
        let draft = self.parts.work(from, msg)?;
        self.live = true;
        Ok(draft.finish())
    }
}
