ghost use Rattle.std.specs.Prelude.{◌≡◌, ℕ, ◌≤◌, ◌<◌, ◌+◌, ◌-◌, ◌^◌, ◌↔◌, List, [], length, slice_get, take, drop, min, Some, None, IfOk, IfSome, IsOk, IsErr, MatchOption};
ghost use Rattle.sdd_base.specs.Outside.{HasCause, Opens, KeepsOpen, ReadGives, find_file};
ghost use Rattle.sdd_base.specs.Memory.{CannotOpen, RefusesToOpen, IsListed, called, file_at, name_at, rest_at};

use crate::failures::Failures;
use crate::files::{CallNos, Files, ShelfFile};
use crate::open_files::{MAX_OPEN_FILES, OpenFile, OpenFiles};
use crate::shelf::{Failed, FileNo, Shelf};
use std::marker::Model;

/// A shelf in memory. Its `open_file` fails only for a name that it hasn't or for a fifth file, and
/// its `read` never fails.
#[derive(Drop)]
pub struct SureShelf {
    files: Files,
    opened: OpenFiles,
    faults: u64,
}

impl Model for SureShelf {
    ghost use Rattle.std.specs.Prelude.{map};
    ghost use Rattle.sdd_base.specs.Memory.{ShelfState, opened_at};

    ghost Value = { ShelfState };

    ghost view = { λ s. record { files = s.files; opened = map (opened_at s.files) s.opened; faults = s.faults } };
}

impl SureShelf {
    /// A shelf of these files, none of them open. Takes no memory.
    pub fn new(files: Files) -> Self
        ensures { result ≡ record { files = files; opened = []; faults = 0 } }
    {
        SureShelf {
            files,
            opened: OpenFiles::new(),
            faults: 0,
        }
    }

    /// Counts a fault.
    fn fail(&mut self)
        ensures counted { self.new ≡ record self.old { faults = min (self.old.faults + 1) (2 ^ 64 - 1) } }
        ensures later { self.old.faults ≤ self.new.faults }
    {
        self.faults = self.faults.saturating_add(1);
    }
}

impl Shelf for SureShelf {
    ghost use Rattle.sdd_base.specs.declared.open_files.TheConstants.{MAX_OPEN_FILES};

    ghost files = { λ s. Some s.files };

    ghost is_open = { λ s f. f < length s.opened };

    ghost opened = { λ s f. slice_get s.opened f };

    ghost faults = { λ s. s.faults };

    ghost sure = { λ s free. length s.opened + free ≤ MAX_OPEN_FILES };

    fn open_file(&mut self, name: &str) -> Result<FileNo, Failed>
        ensures files { Some self.new.files ≡ Some self.old.files }
        ensures opens { Opens (Some self.old.files) (λ f. f < length self.old.opened) (λ f. f < length self.new.opened) (slice_get self.new.opened) name.now result }
        ensures others { KeepsOpen (λ _. Unit {0}) (λ f. f < length self.old.opened) (λ f. f < length self.new.opened) (slice_get self.old.opened) (slice_get self.new.opened) }
        ensures cause { HasCause self.old.faults self.new.faults result }
        ensures surely { (free : ℕ) → length self.old.opened + (free + 1) ≤ MAX_OPEN_FILES → IfSome (Some self.old.files) (λ fs. IfSome (find_file fs name.now) (λ _.
            IsOk result × (length self.new.opened + free ≤ MAX_OPEN_FILES) × (self.new.faults ≡ self.old.faults))) }

        // It fails exactly for an absent name or a fifth file.
        ensures fails { IsErr result ↔ CannotOpen self.old name.now }
    {
        if self.opened.len() < MAX_OPEN_FILES {
            if let Some(file) = find(self.files.as_slice(), name) {
                let number = self.opened.len() as u32;
                self.opened.push(OpenFile { file, at: 0 });
                return Ok(FileNo(number));
            }
        }
        self.fail();
        Err(Failed)
    }

    fn read(&mut self, f: FileNo, buf: &mut [u8]) -> Result<usize, Failed>
        requires { f.0 < length self.old.opened }
        ensures bound { IfOk result (λ n. n ≤ length buf.new) }
        ensures files { Some self.new.files ≡ Some self.old.files }
        ensures gives { ReadGives (slice_get self.old.opened f.0) (slice_get self.new.opened f.0) result buf.new }
        ensures others { KeepsOpen (λ g. g ≡ f.0 → ⊥) (λ g. g < length self.old.opened) (λ g. g < length self.new.opened) (slice_get self.old.opened) (slice_get self.new.opened) }
        ensures open { f.0 < length self.new.opened }
        ensures cause { HasCause self.old.faults self.new.faults result }
        ensures surely { (free : ℕ) → length self.old.opened + free ≤ MAX_OPEN_FILES → IsOk result × (length self.new.opened + free ≤ MAX_OPEN_FILES) × (self.new.faults ≡ self.old.faults) }

        // It never fails, and gives all that fits.
        ensures succeeds { IsOk result }
        ensures count { IfOk result (λ n. IfSome (slice_get self.old.opened f.0) (λ file. n ≡ min (length buf.new) (length file.unread))) }
    {
        let opened = self.opened.at(f.0);
        let (n, next) = read_at(self.files.as_slice(), opened, buf);
        self.opened.put(f.0, next);
        Ok(n)
    }
}

/// The index of the first file of that name.
fn find(files: &[ShelfFile], name: &str) -> Option<usize>
    ensures first { MatchOption result (find_file files.now name.now ≡ None) (λ i. find_file files.now name.now ≡ Some (file_at files.now i)) }
    ensures named { IfSome result (λ i. name_at files.now i ≡ name.now) }
{
    'files: for (i, file) in files.iter().enumerate() {
        if file.name.as_slice() == name.as_bytes() {
            return Some(i);
        }
    }
    None
}

/// Copies what is unread of an opened file into the front of the buffer, as far as there is room.
/// How much that was, and what is opened then.
fn read_at(files: &[ShelfFile], opened: OpenFile, buf: &mut [u8]) -> (usize, OpenFile)
    ensures next { result.1 ≡ record opened { at = opened.at + result.0 } }
    ensures front { take result.0 buf.new ≡ take result.0 (rest_at files.now opened) }
    ensures count { result.0 ≡ min (length buf.new) (length (rest_at files.now opened)) }
{
    match files.get(opened.file) {
        None => (0, opened),
        Some(file) => {
            let (n, at) = copy_from(file.bytes.as_slice(), opened.at, buf);
            (
                n,
                OpenFile {
                    file: opened.file,
                    at,
                },
            )
        }
    }
}

/// Copies what stands from an index on, as far as there is room. How much that was, and the index
/// after it.
fn copy_from(bytes: &[u8], at: usize, buf: &mut [u8]) -> (usize, usize)
    ensures next { result.1 ≡ at + result.0 }
    ensures front { take result.0 buf.new ≡ take result.0 (drop at bytes.now) }
    ensures count { result.0 ≡ min (length buf.new) (length (drop at bytes.now)) }
{
    if at >= bytes.len() {
        return (0, at);
    }
    let (_, rest) = bytes.split_at(at);
    let n = rest.len().min(buf.len());
    buf[..n].copy_from_slice(&rest[..n]);
    (n, at + n)
}

/// A shelf in memory with listed calls that fail and short reads.
#[derive(Drop)]
pub struct MemShelf {
    inner: SureShelf,
    failures: Failures,
}

impl Model for MemShelf {
    ghost use Rattle.std.specs.Prelude.{◌≤◌};
    ghost use Rattle.sdd_base.specs.Memory.{FailingShelf};

    ghost Value = { FailingShelf };

    ghost view = { λ s. record { shelf = s.inner; failing = s.failures } };

    ghost invariant = { λ s. 1 ≤ s.failures.most };
}

impl MemShelf {
    /// A shelf of these files, none of them open. A read gives at most `most` bytes, and the listed
    /// calls fail. Takes no memory.
    pub fn new(files: Files, most: usize, fails: CallNos) -> Self
        requires { 1 ≤ most }
        ensures shelf { result.shelf ≡ record { files = files; opened = []; faults = 0 } }
        ensures failing { result.failing ≡ record { most = most; fails = fails; calls = 0 } }
    {
        MemShelf {
            inner: SureShelf::new(files),
            failures: Failures::new(most, fails),
        }
    }
}

impl Shelf for MemShelf {
    ghost use Rattle.sdd_base.specs.declared.open_files.TheConstants.{MAX_OPEN_FILES};

    ghost files = { λ s. Some s.shelf.files };

    ghost is_open = { λ s f. f < length s.shelf.opened };

    ghost opened = { λ s f. slice_get s.shelf.opened f };

    ghost faults = { λ s. s.shelf.faults };

    ghost sure = { λ s free. (s.failing.fails ≡ []) × (length s.shelf.opened + free ≤ MAX_OPEN_FILES) };

    fn open_file(&mut self, name: &str) -> Result<FileNo, Failed>
        ensures files { Some self.new.shelf.files ≡ Some self.old.shelf.files }
        ensures opens { Opens (Some self.old.shelf.files) (λ f. f < length self.old.shelf.opened) (λ f. f < length self.new.shelf.opened) (slice_get self.new.shelf.opened) name.now result }
        ensures others { KeepsOpen (λ _. Unit {0}) (λ f. f < length self.old.shelf.opened) (λ f. f < length self.new.shelf.opened) (slice_get self.old.shelf.opened) (slice_get self.new.shelf.opened) }
        ensures cause { HasCause self.old.shelf.faults self.new.shelf.faults result }
        ensures surely { (free : ℕ) → (self.old.failing.fails ≡ []) × (length self.old.shelf.opened + (free + 1) ≤ MAX_OPEN_FILES) → IfSome (Some self.old.shelf.files) (λ fs. IfSome (find_file fs name.now) (λ _.
            IsOk result × ((self.new.failing.fails ≡ []) × (length self.new.shelf.opened + free ≤ MAX_OPEN_FILES)) × (self.new.shelf.faults ≡ self.old.shelf.faults))) }

        // It fails exactly where it is listed, for an absent name and for a fifth file.
        ensures fails { IsErr result ↔ RefusesToOpen self.old name.now }
        ensures called { self.new.failing ≡ called self.old.failing }
    {
        if self.failures.next_call_fails() {
            self.inner.fail();
            return Err(Failed);
        }
        self.inner.open_file(name)
    }

    fn read(&mut self, f: FileNo, buf: &mut [u8]) -> Result<usize, Failed>
        requires { f.0 < length self.old.shelf.opened }
        ensures bound { IfOk result (λ n. n ≤ length buf.new) }
        ensures files { Some self.new.shelf.files ≡ Some self.old.shelf.files }
        ensures gives { ReadGives (slice_get self.old.shelf.opened f.0) (slice_get self.new.shelf.opened f.0) result buf.new }
        ensures others { KeepsOpen (λ g. g ≡ f.0 → ⊥) (λ g. g < length self.old.shelf.opened) (λ g. g < length self.new.shelf.opened) (slice_get self.old.shelf.opened) (slice_get self.new.shelf.opened) }
        ensures open { f.0 < length self.new.shelf.opened }
        ensures cause { HasCause self.old.shelf.faults self.new.shelf.faults result }
        ensures surely { (free : ℕ) → (self.old.failing.fails ≡ []) × (length self.old.shelf.opened + free ≤ MAX_OPEN_FILES) → IsOk result × ((self.new.failing.fails ≡ []) × (length self.new.shelf.opened + free ≤ MAX_OPEN_FILES)) × (self.new.shelf.faults ≡ self.old.shelf.faults) }

        // It fails exactly where it is listed, and else gives all that it may.
        ensures fails { IsErr result ↔ IsListed self.old.failing }
        ensures count { IfOk result (λ n. IfSome (slice_get self.old.shelf.opened f.0) (λ file. n ≡ min (min self.old.failing.most (length buf.new)) (length file.unread))) }
        ensures called { self.new.failing ≡ called self.old.failing }
    {
        if self.failures.next_call_fails() {
            self.inner.fail();
            return Err(Failed);
        }
        let most = self.failures.most().min(buf.len());
        let (front, _) = buf.split_at_mut(most);
        self.inner.read(f, front)
    }
}
