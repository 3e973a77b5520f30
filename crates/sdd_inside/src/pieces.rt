//! Pieces of a text.
ghost use Rattle.std.specs.Prelude.{◌≡◌, ◌++◌, OnOk};

use sdd_script::NoMemory;

/// Puts bytes, as `put` of sdd_script does, and is copied to where it is called: there most pieces are
/// constants of a few bytes, which then are a store or two.
#[inline(always)]
pub(crate) fn put(out: &mut Vec<u8>, bytes: &[u8]) -> Result<(), NoMemory>
    ensures { OnOk result (out.new.items ≡ out.old.items ++ bytes.now) }
{
    out.extend_from_slice(bytes)?;
    Ok(())
}
