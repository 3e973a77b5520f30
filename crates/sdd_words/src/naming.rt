//! Names, by their bytes.
ghost use Rattle.std.specs.Prelude.{◌≡◌, IfOk};
ghost use Rattle.sdd_words.specs.Names.{name_in};

use sdd_base::{Name, NoMemory};
use std::alloc::Global;

/// The name that bytes are, or None exactly where they are none.
pub fn read_name(alloc: Global, bytes: &[u8]) -> Result<Option<Name>, NoMemory>
    ensures { IfOk result (λ name. name ≡ name_in bytes.now) }
{
    match std::str::from_utf8(bytes) {
        Ok(text) => Name::new(alloc, text),
        Err(_) => Ok(None),
    }
}
