//! Reading files, and the catalogue's among them.
ghost use Rattle.std.specs.Prelude.{◌≡◌, ◌^◌, ◌<◌, ℕ, List, IfOk, IfErr, MatchResult, Some, Ok};
ghost use Rattle.sdd_lang.specs.base.declared.files.ShelfFile.{ShelfFile};
ghost use Rattle.sdd_lang.specs.base.Outside.{ReadsTo, find_file};
ghost use Rattle.sdd_catread.specs.Reading.{catalogue_in};
ghost use Rattle.sdd_shell.specs.Accepting.{AcceptsCatalogue, ReadsOne};
ghost use Rattle.sdd_shell.specs.Endings.{HasReadOf};
ghost use Rattle.sdd_shell.specs.NamedFiles.{BlamesCatalogue};
ghost use Rattle.sdd_shell.specs.States.{shelf_by};
ghost use Rattle.sdd_shell.specs.Verdict.{ComesOfFiles, Explains};

use crate::status::Status;
use sdd_catread::read_catalogue;
use sdd_lang::{Catalogue, MAX_CATALOGUE_BYTES, Shelf, read_file};
use std::alloc::Global;

/// Reads the file of this name to its end, or one byte past the limit, by which a caller sees that it is too long.
///
/// `ReadFault` where a call of the shelf failed: there is no such file, it doesn't open, or a read of it
/// fails; the shelf's count of faults then rose. `NoMemory` where memory ran out. No other status comes.
/// Takes time and memory linear in the bytes read, and one of the shelf's numbers of open files.
pub fn read_named<S: Shelf>(
    alloc: Global,
    shelf: &mut S,
    name: &str,
    limit: usize,
) -> Result<Vec<u8>, Status>
    requires { limit < 2 ^ 32 }
    ensures read { IfOk result (λ v. (fs : List ShelfFile) → S.files shelf.old ≡ Some fs → ReadsTo limit (find_file fs name.now) v.items) }
    ensures ended { IfOk result (λ v. (file : ℕ) × HasReadOf limit name.now v.items
        (shelf_by S.files S.is_open S.opened S.faults S.sure shelf.old)
        (shelf_by S.files S.is_open S.opened S.faults S.sure shelf.new) file) }
    ensures silent { IfErr result (λ s. Explains s (λ _. ⊥)) }
    ensures leaves { ReadsOne name.now
        (shelf_by S.files S.is_open S.opened S.faults S.sure shelf.old)
        (shelf_by S.files S.is_open S.opened S.faults S.sure shelf.new) result }
{
    Ok(read_file(alloc, shelf, name, limit)?)
}

/// The catalogue that the bytes give.
fn read_catalogue_bytes(alloc: Global, bytes: &[u8]) -> Result<Catalogue, Status>
    ensures answered { MatchResult result (λ catalogue. catalogue_in bytes.now ≡ Ok catalogue)
        (λ s. Explains s (BlamesCatalogue (Some (catalogue_in bytes.now)))) }
    ensures errors { IfErr result ComesOfFiles }
    ensures read { IfErr result (λ s. s ≡ Status.ReadFault → ⊥) }
{
    Ok(read_catalogue(alloc, bytes)?)
}

/// The catalogue in the file of this name.
///
/// `BadCatalogue` where the file has a fault, which is its first one (a file of more than
/// `MAX_CATALOGUE_BYTES` has one); `ReadFault` where a call of the shelf failed, whose count of faults then
/// rose; `NoMemory` where memory ran out. No other status comes. Of the file at most a byte past that limit
/// is read; takes one of the shelf's numbers of open files.
pub fn accepted_catalogue<S: Shelf>(
    alloc: Global,
    shelf: &mut S,
    name: &str,
) -> Result<Catalogue, Status>
    ensures { AcceptsCatalogue name.now
        (shelf_by S.files S.is_open S.opened S.faults S.sure shelf.old)
        (shelf_by S.files S.is_open S.opened S.faults S.sure shelf.new) result }
{
    let bytes = read_named(alloc, shelf, name, MAX_CATALOGUE_BYTES)?;
    read_catalogue_bytes(alloc, bytes.as_slice())
}
