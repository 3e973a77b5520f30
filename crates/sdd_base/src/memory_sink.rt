ghost use Rattle.std.specs.Prelude.{◌≡◌, ℕ, ◌≤◌, ◌<◌, ◌+◌, ◌-◌, ◌^◌, ◌↔◌, ◌⊎◌, [], length, take, min, Some, IfOk, IsOk, IsErr, OnErr};
ghost use Rattle.sdd_base.specs.Outside.{HasCause, with_end};
ghost use Rattle.sdd_base.specs.Memory.{Refuses, IsFull, called};

use crate::failures::Failures;
use crate::files::CallNos;
use crate::no_memory::NoMemory;
use crate::shelf::Failed;
use crate::sink::Sink;
use std::alloc::Global;
use std::marker::Model;

/// A sink in memory, which fails only where no room is left.
#[derive(Drop)]
pub struct SureSink {
    taken: Vec<u8>,
    room: usize,
    faults: u64,
}

impl Model for SureSink {
    ghost use Rattle.std.specs.Prelude.{◌≤◌, ◌+◌, vec_len, vec_capacity};
    ghost use Rattle.sdd_base.specs.Memory.{SinkState};

    ghost Value = { SinkState };

    ghost view = { λ s. record { taken = s.taken.items; room = s.room; faults = s.faults } };

    ghost invariant = { λ s. vec_len s.taken + s.room ≤ vec_capacity s.taken };
}

impl SureSink {
    /// An empty sink with room for so many bytes, which are allocated here.
    pub fn new(alloc: Global, room: usize) -> Result<Self, NoMemory>
        ensures { IfOk result (λ s. s ≡ record { taken = []; room = room; faults = 0 }) }
    {
        Ok(SureSink {
            taken: Vec::with_capacity(alloc, room)?,
            room,
            faults: 0,
        })
    }

    /// The bytes taken so far.
    pub fn taken(&self) -> &[u8]
        ensures { result.now ≡ self.now.taken }
    {
        self.taken.as_slice()
    }

    /// Counts a fault.
    pub(crate) fn fail(&mut self)
        ensures counted { self.new ≡ record self.old { faults = min (self.old.faults + 1) (2 ^ 64 - 1) } }
        ensures later { self.old.faults ≤ self.new.faults }
    {
        self.faults = self.faults.saturating_add(1);
    }
}

impl Sink for SureSink {
    ghost taken = { λ s. Some s.taken };

    ghost faults = { λ s. s.faults };

    ghost sure = { λ s room. room ≤ s.room };

    fn write(&mut self, bytes: &[u8]) -> Result<usize, Failed>
        ensures bound { IfOk result (λ n. n ≤ length bytes.now) }
        ensures progress { IfOk result (λ n. 0 < length bytes.now → 0 < n) }
        ensures taken { IfOk result (λ n. Some self.new.taken ≡ with_end (Some self.old.taken) (take n bytes.now)) }
        ensures kept { OnErr result (Some self.new.taken ≡ Some self.old.taken) }
        ensures cause { HasCause self.old.faults self.new.faults result }
        ensures surely { (room : ℕ) → length bytes.now ≤ room → room ≤ self.old.room → IsOk result × (self.new.faults ≡ self.old.faults) }
        ensures room { (room : ℕ) → room ≤ self.old.room → IfOk result (λ n. room - n ≤ self.new.room) }

        // It fails exactly where a piece comes and no room is left, and else takes all that fits.
        ensures full { IsErr result ↔ IsFull self.old (length bytes.now) }
        ensures count { IfOk result (λ n. n ≡ min self.old.room (length bytes.now)) }
    {
        let n = self.room.min(bytes.len());
        if n == 0 && !bytes.is_empty() {
            self.fail();
            return Err(Failed);
        }
        match self.taken.extend_from_slice(&bytes[..n]) {
            Ok(()) => {
                self.room -= n;
                Ok(n)
            }
            Err(_) => unreachable!(),
        }
    }
}

/// A sink in memory with listed calls that fail and short writes.
#[derive(Drop)]
pub struct MemSink {
    inner: SureSink,
    failures: Failures,
}

impl Model for MemSink {
    ghost use Rattle.sdd_base.specs.Memory.{FailingSink};

    ghost Value = { FailingSink };

    ghost view = { λ s. record { sink = s.inner; failing = s.failures } };
}

impl MemSink {
    /// An empty sink with room for so many bytes, which are allocated here. A write takes at most
    /// `most` bytes, and the listed calls fail.
    pub fn new(alloc: Global, room: usize, most: usize, fails: CallNos) -> Result<Self, NoMemory>
        ensures sink { IfOk result (λ s. s.sink ≡ record { taken = []; room = room; faults = 0 }) }
        ensures failing { IfOk result (λ s. s.failing ≡ record { most = most; fails = fails; calls = 0 }) }
    {
        Ok(MemSink {
            inner: SureSink::new(alloc, room)?,
            failures: Failures::new(most, fails),
        })
    }

    /// The bytes taken so far.
    pub fn taken(&self) -> &[u8]
        ensures { result.now ≡ self.now.sink.taken }
    {
        self.inner.taken()
    }
}

impl Sink for MemSink {
    ghost taken = { λ s. Some s.sink.taken };

    ghost faults = { λ s. s.sink.faults };

    ghost sure = { λ s room. ⊥ };

    fn write(&mut self, bytes: &[u8]) -> Result<usize, Failed>
        ensures bound { IfOk result (λ n. n ≤ length bytes.now) }
        ensures progress { IfOk result (λ n. 0 < length bytes.now → 0 < n) }
        ensures taken { IfOk result (λ n. Some self.new.sink.taken ≡ with_end (Some self.old.sink.taken) (take n bytes.now)) }
        ensures kept { OnErr result (Some self.new.sink.taken ≡ Some self.old.sink.taken) }
        ensures cause { HasCause self.old.sink.faults self.new.sink.faults result }
        ensures surely { (room : ℕ) → length bytes.now ≤ room → ⊥ → IsOk result × (self.new.sink.faults ≡ self.old.sink.faults) }
        ensures room { (room : ℕ) → ⊥ → IfOk result (λ n. ⊥) }

        // It fails exactly where it is listed or nothing of a piece can be taken, and else takes all that it may.
        ensures refuses { IsErr result ↔ Refuses self.old (length bytes.now) }
        ensures count { IfOk result (λ n. n ≡ min (min self.old.failing.most self.old.sink.room) (length bytes.now)) }
        ensures called { self.new.failing ≡ called self.old.failing }
    {
        let listed = self.failures.next_call_fails();
        let most = self.failures.most().min(bytes.len());
        if listed || (most == 0 && !bytes.is_empty()) {
            self.inner.fail();
            return Err(Failed);
        }
        let (front, _) = bytes.split_at(most);
        self.inner.write(front)
    }
}
