ghost use Rattle.std.specs.Prelude.{◌≡◌, ◌≤◌, ◌<◌, ℕ, List, Option, length, take, None, IfOk, OnErr, IsOk};
ghost use Rattle.std.specs.Io.KnownBytes.{Keeps, WriteAppends};
ghost use Rattle.sdd_lang.specs.base.Outside.{HasCause, with_end};

use sdd_lang::{Failed, Sink};
use std::io::{self, ErrorKind, Write};
use std::thread::sleep;
use std::time::{Clock, Duration};

/// For how many milliseconds a stream that can take nothing now is left alone before it is asked again.
const PAUSE: u64 = 1;

/// A stream of the system, and the clock by which it is waited for. What it took is unknown; what each
/// call hands to it is not.
///
/// Where the stream says that it can take nothing now, or that the call was interrupted, it is asked
/// again: a reader that is slow is waited for, also where the stream was opened so that it doesn't
/// block.
#[derive(Drop)]
pub struct HostSink<'c, W: Write + Drop, C: Clock> {
    inner: W,
    clock: &'c C,
    faults: u64,
}

impl<'c, W: Write + Drop, C: Clock> HostSink<'c, W, C> {
    pub fn new(inner: W, clock: &'c C) -> Self {
        HostSink {
            inner,
            clock,
            faults: 0,
        }
    }

    /// Waits where a stream that gave this fault may be asked again; says whether it may.
    fn awaits(&self, fault: &io::Error) -> bool {
        match fault.kind() {
            ErrorKind::Interrupted => true,
            ErrorKind::WouldBlock => {
                sleep(self.clock, Duration::from_millis(PAUSE));
                true
            }
            _ => false,
        }
    }

    /// Hands bytes to the stream, until it takes some or has another fault than that it can't now.
    #[tactic(auto, using(crate::proofs::Offered::keeps_all, crate::proofs::Offered::keeps_on, crate::proofs::Offered::takes_on))]
    fn offer(&mut self, bytes: &[u8]) -> io::Result<usize>
        ensures bound { IfOk result (λ n. n ≤ length bytes.now) }
        ensures faults { self.new.faults ≡ self.old.faults }
        ensures passes { WriteAppends (W.contents self.old.inner) (W.contents self.new.inner) result bytes.now }
    {
        for _ in 0..u64::MAX {
            match self.inner.write(bytes) {
                Ok(n) => return Ok(n),
                Err(fault) => {
                    if !self.awaits(&fault) {
                        return Err(fault);
                    }
                }
            }
        }
        self.inner.write(bytes)
    }
}

impl<'c, W: Write + Drop, C: Clock> Sink for HostSink<'c, W, C> {
    ghost taken = { λ s. None };

    ghost faults = { λ s. s.faults };

    ghost sure = { λ s room. ⊥ };

    fn write(&mut self, bytes: &[u8]) -> Result<usize, Failed>
        ensures bound { IfOk result (λ n. n ≤ length bytes.now) }
        ensures progress { IfOk result (λ n. 0 < length bytes.now → 0 < n) }
        ensures taken { IfOk result (λ n. None ≡ with_end None (take n bytes.now)) }
        ensures kept { OnErr result (◌≡◌ {A = Option (List ℕ)} None None) }
        ensures cause { HasCause self.old.faults self.new.faults result }
        ensures surely { (room : ℕ) → length bytes.now ≤ room → ⊥
            → IsOk result × (self.new.faults ≡ self.old.faults) }
        ensures room { (room : ℕ) → ⊥ → IfOk result (λ n. ⊥) }

        // The stream took the front of the piece that the call gives as taken, and nothing else; where it fails, nothing.
        ensures passes { WriteAppends (W.contents self.old.inner) (W.contents self.new.inner) result bytes.now }
    {
        if let Ok(n) = self.offer(bytes) {
            if n > 0 || bytes.is_empty() {
                return Ok(n);
            }
        }
        self.faults = self.faults.saturating_add(1);
        Err(Failed)
    }
}
