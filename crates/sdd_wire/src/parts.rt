ghost use Rattle.sdd_wire.specs.Spelling.{spelled_restriction, spelled_use, spelled_cond, spelled_change};
ghost use Rattle.sdd_wire.specs.Fits.{FitsRestriction, FitsUse, FitsCond, FitsChange};
ghost use Rattle.sdd_wire.specs.Reading.{restriction_at, use_at, cond_at, change_at};

use crate::fault::WireFault;
use crate::source::Source;
use crate::spelled::Spelled;
use sdd_base::{
    Change, ClassNo, Cond, FragNo, Frags, NoMemory, Op, RelNo, Restriction, Restrictions, Row, Ts,
    Use, Value,
};
use std::alloc::Global;

impl Spelled for Restriction {
    ghost spelling = { spelled_restriction };

    ghost reading = { restriction_at };

    ghost fits = { FitsRestriction };

    fn put(&self, out: &mut Vec<u8>) -> Result<(), NoMemory> {
        self.column.put(out)?;
        self.op.put(out)?;
        self.value.put(out)
    }

    #[tactic(auto, unfolding(crate::specs::Reading::restriction_at))]
    fn read(alloc: Global, source: &mut Source<'_>) -> Result<Self, WireFault> {
        Ok(Restriction {
            column: u32::read(alloc, source)?,
            op: Op::read(alloc, source)?,
            value: Value::read(alloc, source)?,
        })
    }
}

impl Spelled for Use {
    ghost spelling = { spelled_use };

    ghost reading = { use_at };

    ghost fits = { FitsUse };

    fn put(&self, out: &mut Vec<u8>) -> Result<(), NoMemory> {
        self.number.put(out)?;
        self.rel.put(out)?;
        self.frags.put(out)?;
        self.restrictions.put(out)
    }

    #[tactic(auto, unfolding(crate::specs::Reading::use_at))]
    fn read(alloc: Global, source: &mut Source<'_>) -> Result<Self, WireFault> {
        Ok(Use {
            number: u32::read(alloc, source)?,
            rel: RelNo::read(alloc, source)?,
            frags: Frags::read(alloc, source)?,
            restrictions: Restrictions::read(alloc, source)?,
        })
    }
}

impl Spelled for Cond {
    ghost spelling = { spelled_cond };

    ghost reading = { cond_at };

    ghost fits = { FitsCond };

    fn put(&self, out: &mut Vec<u8>) -> Result<(), NoMemory> {
        self.class.put(out)?;
        self.time.put(out)?;
        self.frags.put(out)
    }

    #[tactic(auto, unfolding(crate::specs::Reading::cond_at))]
    fn read(alloc: Global, source: &mut Source<'_>) -> Result<Self, WireFault> {
        Ok(Cond {
            class: ClassNo::read(alloc, source)?,
            time: Ts::read(alloc, source)?,
            frags: Frags::read(alloc, source)?,
        })
    }
}

impl Spelled for Change {
    ghost spelling = { spelled_change };

    ghost reading = { change_at };

    ghost fits = { FitsChange };

    fn put(&self, out: &mut Vec<u8>) -> Result<(), NoMemory> {
        self.frag.put(out)?;
        self.key.put(out)?;
        self.row.put(out)
    }

    #[tactic(auto, unfolding(crate::specs::Reading::change_at))]
    fn read(alloc: Global, source: &mut Source<'_>) -> Result<Self, WireFault> {
        Ok(Change {
            frag: FragNo::read(alloc, source)?,
            key: i64::read(alloc, source)?,
            row: Option::<Row>::read(alloc, source)?,
        })
    }
}
