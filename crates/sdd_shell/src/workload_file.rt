//! Reading the workload's file.
ghost use Rattle.std.specs.Prelude.{◌≡◌, IfOk, IfErr, MatchResult, Some, Ok};
ghost use Rattle.sdd_script.specs.Valid.{IsValid};
ghost use Rattle.sdd_script.specs.Walk.{workload};
ghost use Rattle.sdd_shell.specs.Accepting.{AcceptsWorkload};
ghost use Rattle.sdd_shell.specs.NamedFiles.{BlamesWorkload};
ghost use Rattle.sdd_shell.specs.States.{shelf_by};
ghost use Rattle.sdd_shell.specs.Verdict.{ComesOfFiles, Explains};

use crate::catalogue_file::read_named;
use crate::status::Status;
use sdd_lang::{Catalogue, MAX_WORKLOAD_BYTES, Shelf};
use sdd_script::{Workload, read_workload};
use std::alloc::Global;

/// The workload that the bytes give for the catalogue.
fn read_workload_bytes(
    alloc: Global,
    bytes: &[u8],
    catalogue: &Catalogue,
) -> Result<Workload, Status>
    ensures answered { MatchResult result
        (λ w. workload catalogue.now bytes.now ≡ Ok w) (λ s. Explains s (BlamesWorkload (Some (workload catalogue.now bytes.now)))) }
    ensures valid { IfOk result (λ w. IsValid catalogue.now w) }
    ensures errors { IfErr result ComesOfFiles }
    ensures read { IfErr result (λ s. s ≡ Status.ReadFault → ⊥) }
{
    Ok(read_workload(alloc, bytes, catalogue)?)
}

/// The workload for the catalogue in the file of this name.
///
/// `BadWorkload` where the file has a fault, which is its first one (a file of more than
/// `MAX_WORKLOAD_BYTES` has one); `ReadFault` where a call of the shelf failed, whose count of faults then
/// rose; `NoMemory` where memory ran out. No other status comes. Of the file at most a byte past that limit
/// is read; takes one of the shelf's numbers of open files.
pub fn accepted_workload<S: Shelf>(
    alloc: Global,
    shelf: &mut S,
    name: &str,
    catalogue: &Catalogue,
) -> Result<Workload, Status>
    ensures accepts { AcceptsWorkload catalogue.now name.now
        (shelf_by S.files S.is_open S.opened S.faults S.sure shelf.old)
        (shelf_by S.files S.is_open S.opened S.faults S.sure shelf.new) result }
    ensures valid { IfOk result (λ w. IsValid catalogue.now w) }
{
    let bytes = read_named(alloc, shelf, name, MAX_WORKLOAD_BYTES)?;
    read_workload_bytes(alloc, bytes.as_slice(), catalogue)
}
