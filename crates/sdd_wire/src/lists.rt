ghost use Rattle.std.specs.Prelude.{◌≡◌, ◌++◌, flat_map, OnOk};
ghost use Rattle.std.specs.List.{AllByRecursion};
ghost use Rattle.sdd_base.specs.Readings.{GivesReading};
ghost use Rattle.sdd_wire.specs.Source.{items_at, list_at, pair_at, option_at};
ghost use Rattle.sdd_wire.specs.Spelling.{spelled_list, spelled_pair, spelled_option};
ghost use Rattle.sdd_wire.specs.Fits.{FitsList, FitsPair, FitsOption};
ghost use Rattle.sdd_wire.specs.Reading.{fault_in};

use crate::fault::WireFault;
use crate::source::Source;
use crate::spelled::Spelled;
use sdd_base::{Listed, NoMemory, Shared};
use std::alloc::Global;

impl<A: Spelled, B: Spelled> Spelled for (A, B) {
    ghost spelling = { spelled_pair A.spelling B.spelling };

    ghost reading = { pair_at A.reading B.reading };

    ghost fits = { FitsPair A.fits B.fits };

    fn put(&self, out: &mut Vec<u8>) -> Result<(), NoMemory> {
        self.0.put(out)?;
        self.1.put(out)
    }

    fn read(alloc: Global, source: &mut Source<'_>) -> Result<Self, WireFault> {
        Ok((A::read(alloc, source)?, B::read(alloc, source)?))
    }
}

impl<A: Spelled> Spelled for Option<A> {
    ghost spelling = { spelled_option A.spelling };

    ghost reading = { option_at A.reading };

    ghost fits = { FitsOption A.fits };

    fn put(&self, out: &mut Vec<u8>) -> Result<(), NoMemory> {
        match self {
            Some(value) => {
                out.push(1)?;
                value.put(out)
            }
            None => {
                out.push(0)?;
                Ok(())
            }
        }
    }

    fn read(alloc: Global, source: &mut Source<'_>) -> Result<Self, WireFault> {
        if source.flag()? {
            Ok(Some(A::read(alloc, source)?))
        } else {
            Ok(None)
        }
    }
}

/// A list has room for so many items of its count before the first one is read.
const FEW: u64 = 32;

fn put_items<T: Spelled>(out: &mut Vec<u8>, items: &[T]) -> Result<(), NoMemory>
    ensures spelling { OnOk result (out.new.items ≡ out.old.items ++ flat_map T.spelling items.now) }
    ensures fits { OnOk result (AllByRecursion T.fits items.now) }
{
    'items: for item in items {
        item.put(out)?;
    }
    Ok(())
}

#[tactic(auto, using(crate::proofs::Items::goes_on, crate::proofs::Items::ends, crate::proofs::Items::is_done))]
fn read_items<T: Spelled>(
    alloc: Global,
    count: u64,
    source: &mut Source<'_>,
) -> Result<Vec<T>, WireFault>
    ensures { GivesReading fault_in (λ v. (v.items, source.new)) result (items_at T.reading count source.old) }
{
    let mut items = Vec::with_capacity(alloc, count.min(FEW) as usize)?;
    'items: for _ in 0..count {
        items.push(T::read(alloc, source)?)?;
    }
    Ok(items)
}

impl<T: Spelled> Spelled for Listed<T> {
    ghost spelling = { spelled_list T.spelling };

    ghost reading = { list_at T.reading };

    ghost fits = { FitsList T.fits };

    fn put(&self, out: &mut Vec<u8>) -> Result<(), NoMemory> {
        let items = self.as_slice();
        (items.len() as u64).put(out)?;
        put_items(out, items)
    }

    /// Takes room for the first few items at once, and for a later one only once those before
    /// it have been read, whatever the count says.
    fn read(alloc: Global, source: &mut Source<'_>) -> Result<Self, WireFault> {
        let count = u64::read(alloc, source)?;
        Ok(Listed::from_vec(read_items(alloc, count, source)?))
    }
}

/// A list that copies share is spelled as another one.
impl<T: Spelled> Spelled for Shared<T> {
    ghost spelling = { spelled_list T.spelling };

    ghost reading = { list_at T.reading };

    ghost fits = { FitsList T.fits };

    fn put(&self, out: &mut Vec<u8>) -> Result<(), NoMemory> {
        let items = self.as_slice();
        (items.len() as u64).put(out)?;
        put_items(out, items)
    }

    fn read(alloc: Global, source: &mut Source<'_>) -> Result<Self, WireFault> {
        let count = u64::read(alloc, source)?;
        Ok(Shared::from_vec(read_items(alloc, count, source)?)?)
    }
}
