ghost use Rattle.std.specs.Prelude.{◌≡◌, IfOk};

use sdd_script::{Bytes, NoMemory};
use std::alloc::Global;

/// A copy of the bytes.
pub(crate) fn copied(alloc: Global, bytes: &[u8]) -> Result<Bytes, NoMemory>
    ensures { IfOk result (λ made. made ≡ bytes.now) }
{
    Ok(Bytes::from_vec(Vec::from_slice(alloc, bytes)?))
}
