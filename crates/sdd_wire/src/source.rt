ghost use Rattle.std.specs.Prelude.{◌≡◌, length, IfOk};
ghost use Rattle.sdd_base.specs.Readings.{GivesReading};
ghost use Rattle.sdd_base.specs.Words.{is_empty};
ghost use Rattle.sdd_wire.specs.Source.{source_of, place, piece_at, byte_at, flag_at};
ghost use Rattle.sdd_wire.specs.Reading.{fault_in};

use crate::fault::WireFault;
use std::marker::Model;

/// The bytes that are left to be read, of so many.
#[derive(Drop)]
pub(crate) struct Source<'a> {
    whole: usize,
    left: &'a [u8],
}

impl<'a> Model for Source<'a> {
    ghost use Rattle.std.specs.Prelude.{◌≤◌, length};
    ghost use Rattle.sdd_wire.specs.Source.{Source as Bytes};

    ghost Value = { Bytes };

    ghost view = { λ s. record { whole = s.whole; left = s.left.now } };

    ghost invariant = { λ s. length s.left.now ≤ s.whole };
}

impl<'a> Source<'a> {
    /// All bytes are left.
    pub(crate) fn new(bytes: &'a [u8]) -> Source<'a>
        ensures { result ≡ source_of bytes.now }
    {
        Source {
            whole: bytes.len(),
            left: bytes,
        }
    }

    /// The place of the first byte that is left, counted from 0.
    pub(crate) fn place(&self) -> u64
        ensures { result ≡ place self.now }
    {
        (self.whole - self.left.len()) as u64
    }

    /// Whether no bytes are left.
    pub(crate) fn is_empty(&self) -> bool
        ensures { result ≡ is_empty self.now.left }
    {
        self.left.is_empty()
    }

    /// The next `n` bytes.
    pub(crate) fn piece(&mut self, n: usize) -> Result<&'a [u8], WireFault>
        ensures read { GivesReading fault_in (λ p. (p.now, self.new)) result (piece_at n self.old) }
        ensures length { IfOk result (λ p. length p.now ≡ n) }
    {
        if self.left.len() < n {
            return Err(WireFault::Bad(self.place()));
        }
        let (piece, rest) = self.left.split_at(n);
        self.left = rest;
        Ok(piece)
    }

    /// The next byte.
    pub(crate) fn byte(&mut self) -> Result<u8, WireFault>
        ensures { GivesReading fault_in (λ byte. (byte, self.new)) result (byte_at self.old) }
    {
        match self.left {
            [first, rest @ ..] => {
                self.left = rest;
                Ok(*first)
            }
            [] => Err(WireFault::Bad(self.place())),
        }
    }

    /// The next byte, which is 0 or 1.
    pub(crate) fn flag(&mut self) -> Result<bool, WireFault>
        ensures { GivesReading fault_in (λ is_set. (is_set, self.new)) result (flag_at self.old) }
    {
        let place = self.place();
        match self.byte()? {
            0 => Ok(false),
            1 => Ok(true),
            _ => Err(WireFault::Bad(place)),
        }
    }
}
