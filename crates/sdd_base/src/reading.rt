ghost use Rattle.std.specs.Prelude.{◌≡◌, ℕ, ◌≤◌, ◌+◌, ◌<◌, ◌^◌, List, length, take, IfOk, IfSome, IsOk, IsErrOf, IsSome, Some};
ghost use Rattle.sdd_base.specs.declared.files.ShelfFile.{ShelfFile};
ghost use Rattle.sdd_base.specs.Outside.{HasRead, Rose, ReadsTo, KeepsOpen, find_file};
ghost use Rattle.sdd_base.specs.declared.reading.ReadError.TheVariants.{NoMemory};

use crate::shelf::{Failed, Shelf};
use std::alloc::{AllocError, Global};

/// How many bytes a call of `read` asks for.
const PIECE: usize = 4096;

/// Why a file wasn't read.
#[derive(Clone, Copy)]
pub enum ReadError {
    /// A call of the shelf failed, and its count of faults rose.
    Fault,
    NoMemory,
}

/// Reads a file to its end, or one byte past the limit, by which a caller sees that it is too long.
///
/// Takes time linear in the bytes read, and one of the shelf's numbers of open files.
#[tactic(auto, using(crate::proofs::Taken::more_front, crate::proofs::Taken::no_front))]
pub fn read_file<S: Shelf>(
    alloc: Global,
    shelf: &mut S,
    name: &str,
    limit: usize,
) -> Result<Vec<u8>, ReadError>
    requires { limit < 2 ^ 32 }
    ensures bytes { IfOk result (λ v. IfSome (S.files shelf.old) (λ fs. ReadsTo limit (find_file fs name.now) v.items)) }

    // The file was opened here, by its name, and read to its end, or exactly one byte past the limit.
    ensures ended { IfOk result (λ v. (f : ℕ) × HasRead limit (S.files shelf.old) (S.is_open shelf.old)
        (S.is_open shelf.new) (S.opened shelf.new) name.now v.items f) }
    ensures others { KeepsOpen (λ _. Unit {0}) (S.is_open shelf.old) (S.is_open shelf.new) (S.opened shelf.old) (S.opened shelf.new) }
    ensures files { S.files shelf.new ≡ S.files shelf.old }
    ensures later { S.faults shelf.old ≤ S.faults shelf.new }
    ensures fault { IsErrOf result ReadError.Fault → Rose (S.faults shelf.old) (S.faults shelf.new) }
    ensures surely { (free : ℕ) (fs : List ShelfFile) → S.sure shelf.old (free + 1) → S.files shelf.old ≡ Some fs → IsSome (find_file fs name.now)
        → (IsErrOf result ReadError.Fault → ⊥) × S.sure shelf.new free × (S.faults shelf.new ≡ S.faults shelf.old) }
{
    let mut bytes = Vec::new(alloc);
    let file = match shelf.open_file(name) {
        Ok(file) => file,
        Err(_) => return Err(ReadError::Fault),
    };
    let mut buf = [0u8; PIECE];
    'fill: while bytes.len() <= limit {
        let want = (limit + 1 - bytes.len()).min(PIECE);
        let (piece, _) = buf.split_at_mut(want);
        match shelf.read(file, piece) {
            Ok(0) => return Ok(bytes),
            Ok(n) => match bytes.extend_from_slice(&piece[..n]) {
                Ok(()) => {}
                Err(_) => return Err(ReadError::NoMemory),
            },
            Err(_) => return Err(ReadError::Fault),
        }
    }
    Ok(bytes)
}
