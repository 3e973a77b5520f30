ghost use Rattle.std.specs.Prelude.{◌≡◌, ◌<◌, ◌++◌, ◌∷◌, [], IfOk, IfSome, is_some, not, length, if◌then◌else◌};
ghost use Rattle.std.specs.List.{position};
ghost use Rattle.std.specs.Str.{bytes_eq};
ghost use Rattle.sdd_script.specs.Occurrences.{number_named};

use indexmap::IndexSet;
use sdd_lang::NoMemory;
use std::alloc::Global;
use std::marker::Model;

/// At most 2,048 names in their order, each found by a hash. Contracts see their bytes.
#[derive(Drop)]
pub struct Names {
    set: IndexSet<String>,
}

impl Model for Names {
    ghost use Rattle.std.specs.Prelude.{List, ℕ, ◌≤◌, length, map, string_bytes};

    ghost Value = { List (List ℕ) };

    ghost view = { λ n. map string_bytes n.set.keys };

    ghost invariant = { λ n. length n.set.keys ≤ 2048 };
}

impl Names {
    /// No names. Takes no memory.
    pub fn new(alloc: Global) -> Names
        ensures { result ≡ [] }
    {
        Names {
            set: IndexSet::new(alloc),
        }
    }

    /// How many names there are.
    pub fn len(&self) -> usize
        ensures { result ≡ length self.now }
    {
        self.set.len()
    }

    /// Where the name is, or None exactly where it isn't there.
    fn find(&self, name: &str) -> Option<usize>
        ensures place { result ≡ position (bytes_eq name.now) self.now }
        ensures within { IfSome result (λ i. i < 2048) }
    {
        self.set.get_index_of(name)
    }

    /// Whether the name is there.
    pub fn has(&self, name: &str) -> bool
        ensures { result ≡ is_some (position (bytes_eq name.now) self.now) }
    {
        self.find(name).is_some()
    }

    /// The number of the name, from 1, or None exactly where it isn't there.
    pub fn number_of(&self, name: &str) -> Option<u32>
        ensures { result ≡ number_named self.now name.now }
    {
        let place = self.find(name)?;
        Some(place as u32 + 1)
    }

    /// Puts a name at the end where it isn't there yet, and returns whether it did so.
    pub fn add(&mut self, alloc: Global, name: &str) -> Result<bool, NoMemory>
        requires { length self.old < 2048 }
        ensures fresh { IfOk result (λ fresh. fresh ≡ not (is_some (position (bytes_eq name.now) self.old))) }
        ensures names { IfOk result
            (λ fresh. self.new ≡ (if fresh then self.old ++ name.now ∷ [] else self.old)) }
    {
        match self.set.insert(name.to_string(alloc)?) {
            Ok(fresh) => Ok(fresh),
            Err(_) => Err(NoMemory),
        }
    }
}
