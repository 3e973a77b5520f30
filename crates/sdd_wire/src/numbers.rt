ghost use Rattle.std.specs.Int.{w32, w64};
ghost use Rattle.sdd_wire.specs.Source.{number_at};
ghost use Rattle.sdd_wire.specs.Spelling.{spelled_u32, spelled_u64, spelled_i64, spelled_class, spelled_rel, spelled_frag, spelled_txn, spelled_ts};
ghost use Rattle.sdd_wire.specs.Fits.{FitsU32, FitsU64, FitsI64, FitsClass, FitsRel, FitsFrag, FitsTxnNo, FitsTs};
ghost use Rattle.sdd_wire.specs.Reading.{i64_at, class_at, rel_at, frag_at, txn_at, ts_at};

use crate::fault::WireFault;
use crate::source::Source;
use crate::spelled::Spelled;
use sdd_base::{ClassNo, FragNo, NoMemory, RelNo, Ts, TxnNo};
use std::alloc::Global;

impl Spelled for u32 {
    ghost spelling = { spelled_u32 };

    ghost reading = { number_at w32 };

    ghost fits = { FitsU32 };

    #[tactic(auto, unfolding(crate::specs::Spelling::spelled_u32))]
    fn put(&self, out: &mut Vec<u8>) -> Result<(), NoMemory> {
        let number = *self;
        out.extend_from_slice(&number.to_be_bytes())?;
        Ok(())
    }

    #[tactic(auto, unfolding(crate::specs::Source::number_at))]
    fn read(_alloc: Global, source: &mut Source<'_>) -> Result<Self, WireFault> {
        let bytes = source.piece(4)?;
        Ok(u32::from_be_bytes([bytes[0], bytes[1], bytes[2], bytes[3]]))
    }
}

impl Spelled for u64 {
    ghost spelling = { spelled_u64 };

    ghost reading = { number_at w64 };

    ghost fits = { FitsU64 };

    #[tactic(auto, unfolding(crate::specs::Spelling::spelled_u64))]
    fn put(&self, out: &mut Vec<u8>) -> Result<(), NoMemory> {
        let number = *self;
        out.extend_from_slice(&number.to_be_bytes())?;
        Ok(())
    }

    #[tactic(auto, unfolding(crate::specs::Source::number_at))]
    fn read(_alloc: Global, source: &mut Source<'_>) -> Result<Self, WireFault> {
        let bytes = source.piece(8)?;
        Ok(u64::from_be_bytes([
            bytes[0], bytes[1], bytes[2], bytes[3], bytes[4], bytes[5], bytes[6], bytes[7],
        ]))
    }
}

impl Spelled for i64 {
    ghost spelling = { spelled_i64 };

    ghost reading = { i64_at };

    ghost fits = { FitsI64 };

    #[tactic(auto, unfolding(crate::specs::Spelling::spelled_i64))]
    fn put(&self, out: &mut Vec<u8>) -> Result<(), NoMemory> {
        let number = *self;
        out.extend_from_slice(&number.to_be_bytes())?;
        Ok(())
    }

    #[tactic(auto, unfolding(crate::specs::Reading::i64_at))]
    fn read(alloc: Global, source: &mut Source<'_>) -> Result<Self, WireFault> {
        Ok(u64::read(alloc, source)?.cast_signed())
    }
}

impl Spelled for ClassNo {
    ghost spelling = { spelled_class };

    ghost reading = { class_at };

    ghost fits = { FitsClass };

    fn put(&self, out: &mut Vec<u8>) -> Result<(), NoMemory> {
        self.0.put(out)
    }

    #[tactic(auto, unfolding(crate::specs::Reading::class_at))]
    fn read(alloc: Global, source: &mut Source<'_>) -> Result<Self, WireFault> {
        Ok(ClassNo(u32::read(alloc, source)?))
    }
}

impl Spelled for RelNo {
    ghost spelling = { spelled_rel };

    ghost reading = { rel_at };

    ghost fits = { FitsRel };

    fn put(&self, out: &mut Vec<u8>) -> Result<(), NoMemory> {
        self.0.put(out)
    }

    #[tactic(auto, unfolding(crate::specs::Reading::rel_at))]
    fn read(alloc: Global, source: &mut Source<'_>) -> Result<Self, WireFault> {
        Ok(RelNo(u32::read(alloc, source)?))
    }
}

impl Spelled for FragNo {
    ghost spelling = { spelled_frag };

    ghost reading = { frag_at };

    ghost fits = { FitsFrag };

    fn put(&self, out: &mut Vec<u8>) -> Result<(), NoMemory> {
        self.0.put(out)
    }

    #[tactic(auto, unfolding(crate::specs::Reading::frag_at))]
    fn read(alloc: Global, source: &mut Source<'_>) -> Result<Self, WireFault> {
        Ok(FragNo(u32::read(alloc, source)?))
    }
}

impl Spelled for TxnNo {
    ghost spelling = { spelled_txn };

    ghost reading = { txn_at };

    ghost fits = { FitsTxnNo };

    fn put(&self, out: &mut Vec<u8>) -> Result<(), NoMemory> {
        self.0.put(out)
    }

    #[tactic(auto, unfolding(crate::specs::Reading::txn_at))]
    fn read(alloc: Global, source: &mut Source<'_>) -> Result<Self, WireFault> {
        Ok(TxnNo(u32::read(alloc, source)?))
    }
}

impl Spelled for Ts {
    ghost spelling = { spelled_ts };

    ghost reading = { ts_at };

    ghost fits = { FitsTs };

    fn put(&self, out: &mut Vec<u8>) -> Result<(), NoMemory> {
        self.0.put(out)
    }

    #[tactic(auto, unfolding(crate::specs::Reading::ts_at))]
    fn read(alloc: Global, source: &mut Source<'_>) -> Result<Self, WireFault> {
        Ok(Ts(u64::read(alloc, source)?))
    }
}
