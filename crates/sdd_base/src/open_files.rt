ghost use Rattle.std.specs.Prelude.{◌≡◌, ◌<◌, ◌≤◌, [], ◌∷◌, ◌++◌, length, slice_get, slice_set};

use std::marker::Model;

/// How many files of a shelf in memory may be open.
pub const MAX_OPEN_FILES: usize = 4;

/// An opened file: its index among the files, and how many of its bytes were read.
#[derive(Clone, Copy)]
pub struct OpenFile {
    pub file: usize,
    pub at: usize,
}

/// The opened files of a shelf in memory, by their numbers. They take no memory.
#[derive(Drop)]
pub struct OpenFiles {
    slots: [OpenFile; MAX_OPEN_FILES],
    count: usize,
}

impl Model for OpenFiles {
    ghost use Rattle.std.specs.Prelude.{List, ◌≡◌, ◌≤◌, length, take};
    ghost use Rattle.sdd_base.specs.declared.open_files.OpenFile.{OpenFile};
    ghost use Rattle.sdd_base.specs.declared.open_files.TheConstants.{MAX_OPEN_FILES};

    ghost Value = { List OpenFile };

    ghost view = { λ p. take p.count p.slots };

    ghost invariant = { λ p. (p.count ≤ MAX_OPEN_FILES) × (length p.slots ≡ MAX_OPEN_FILES) };
}

impl OpenFiles {
    pub fn new() -> Self
        ensures { result ≡ [] }
    {
        OpenFiles {
            slots: [OpenFile { file: 0, at: 0 }; MAX_OPEN_FILES],
            count: 0,
        }
    }

    pub fn len(&self) -> usize
        ensures count { result ≡ length self.now }
        ensures most { result ≤ MAX_OPEN_FILES }
    {
        self.count
    }

    pub fn at(&self, number: u32) -> OpenFile
        requires { number < length self.now }
        ensures { slice_get self.now number ≡ Some result }
    {
        self.slots[number as usize]
    }

    pub fn push(&mut self, file: OpenFile)
        requires { length self.old < MAX_OPEN_FILES }
        ensures { self.new ≡ self.old ++ file ∷ [] }
    {
        self.slots[self.count] = file;
        self.count += 1;
    }

    pub fn put(&mut self, number: u32, file: OpenFile)
        requires { number < length self.old }
        ensures { self.new ≡ slice_set self.old number file }
    {
        self.slots[number as usize] = file;
    }
}
