ghost use Rattle.std.specs.Prelude.{◌≡◌, ℕ, ◌≤◌, ◌+◌, List, length, Option, IfOk, OnErr, IfSome, IsOk};
ghost use Rattle.sdd_base.specs.Outside.{HasCause, Opened, Opens, KeepsOpen, ReadGives, find_file};
ghost use Rattle.sdd_base.specs.declared.files.ShelfFile.{ShelfFile};

/// A fault of the outside. The count of the object that answers it rose in that call.
#[derive(Clone, Copy)]
pub struct Failed;

/// The number that `open_file` gave to a file of one shelf.
#[derive(Clone, Copy)]
pub struct FileNo(pub u32);

/// Files to read, by name.
///
/// What a shelf holds is known or not, and no call changes which. What is known binds each call: a
/// read gives what is unread, in order, and 0 bytes only at the end. Files of the system aren't known.
pub trait Shelf {
    // The files, where they are known.
    ghost files: { Self → Option (List ShelfFile) };
    // The numbers that `open_file` gave.
    ghost is_open: { Self → ℕ → Type 0 };
    // The opened file that has the number, where it is known: its name, and the bytes that aren't read yet.
    ghost opened: { Self → ℕ → Option Opened };
    // How often a call has failed. The count stands still at its type's end.
    ghost faults: { Self → ℕ };
    // While so many places are free, opening a file that is there never fails, and reading never does.
    ghost sure: { Self → ℕ → Type 0 };

    /// Opens a file with all its bytes unread. An absent name is a fault. Takes no memory.
    fn open_file(&mut self, name: &str) -> Result<FileNo, Failed>
        ensures files { files self.new ≡ files self.old }
        ensures opens { Opens (files self.old) (is_open self.old) (is_open self.new) (opened self.new) name.now result }
        ensures others { KeepsOpen (λ _. Unit {0}) (is_open self.old) (is_open self.new) (opened self.old) (opened self.new) }
        ensures cause { HasCause (faults self.old) (faults self.new) result }
        ensures surely { (free : ℕ) → sure self.old (free + 1) → IfSome (files self.old) (λ fs. IfSome (find_file fs name.now) (λ _.
            IsOk result × sure self.new free × (faults self.new ≡ faults self.old))) };

    /// Reads unread bytes into the front of the buffer, and gives how many. 0 bytes into a buffer
    /// that isn't empty are the end. Takes no memory.
    fn read(&mut self, f: FileNo, buf: &mut [u8]) -> Result<usize, Failed>
        requires { is_open self.old f.0 }
        ensures bound { IfOk result (λ n. n ≤ length buf.new) }
        ensures files { files self.new ≡ files self.old }
        ensures gives { ReadGives (opened self.old f.0) (opened self.new f.0) result buf.new }
        ensures others { KeepsOpen (λ g. g ≡ f.0 → ⊥) (is_open self.old) (is_open self.new) (opened self.old) (opened self.new) }
        ensures open { is_open self.new f.0 }
        ensures cause { HasCause (faults self.old) (faults self.new) result }
        ensures surely { (free : ℕ) → sure self.old free → IsOk result × sure self.new free × (faults self.new ≡ faults self.old) };
}
