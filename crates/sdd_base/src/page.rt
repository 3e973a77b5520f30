ghost use Rattle.std.specs.Prelude.{◌≡◌, IfOk};

use crate::no_memory::NoMemory;
use crate::parcel::Parcel;
use std::alloc::Global;
use std::marker::Model;
use std::rc::Rc;

/// Bytes that don't change any more. Contracts see the bytes. Copies share one place in memory, so
/// a copy costs constant time.
#[derive(Drop)]
pub struct Page {
    bytes: Rc<Vec<u8>>,
}

impl Model for Page {
    ghost use Rattle.std.specs.Prelude.{ℕ, List};

    ghost Value = { List ℕ };

    ghost view = { λ p. p.bytes.value.items };
}

impl Page {
    /// Takes the bytes, which are not copied.
    pub fn of(alloc: Global, bytes: Vec<u8>) -> Result<Page, NoMemory>
        ensures { IfOk result (λ page. page ≡ bytes.items) }
    {
        Ok(Page {
            bytes: Rc::new(alloc, bytes)?,
        })
    }

    /// The bytes, lent. Takes no memory.
    pub fn as_slice(&self) -> &[u8]
        ensures { result.now ≡ self.now }
    {
        self.bytes.as_slice()
    }
}

impl Parcel for Page {
    fn copy(&self) -> Result<Self, NoMemory> {
        Ok(Page {
            bytes: self.bytes.clone()?,
        })
    }
}
