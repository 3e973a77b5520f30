ghost use Rattle.std.specs.Prelude.{◌≡◌, ◌<◌, ◌++◌, ◌∷◌, [], length, map, replicate, slice_index_or, slice_set, OnOk, IfOk};
ghost use Rattle.sdd_links.specs.Groups.{groups, chains};

use crate::chain::add_chain;
use sdd_lang::NoMemory;
use std::alloc::Global;
use std::marker::Model;

/// Numbers in groups: of each key, from 0, the numbers that are paired with it.
#[derive(Drop)]
pub struct Groups {
    lists: Vec<Vec<usize>>,
}

impl Model for Groups {
    ghost use Rattle.std.specs.Prelude.{map};
    ghost use Rattle.sdd_links.specs.Groups as definitions;

    ghost Value = { definitions.Groups };

    ghost view = { λ g. map (λ list. list.items) g.lists.items };
}

impl Groups {
    /// The groups of so many keys, each with its numbers in the order of the pairs. A pair with
    /// another key is passed over.
    ///
    /// O(p + n) for p pairs and n keys.
    #[tactic(auto, using(crate::proofs::Grouped::groups_of_none, crate::proofs::Grouped::groups_long))]
    pub fn of(alloc: Global, pairs: &[(usize, usize)], count: usize) -> Result<Groups, NoMemory>
        ensures { IfOk result (λ made. made ≡ groups pairs.now count) }
    {
        let mut made = Groups::empty(alloc, count)?;
        for (key, number) in pairs {
            if *key < count {
                made.add(*key, *number)?;
            }
        }
        Ok(made)
    }

    /// So many empty groups.
    fn empty(alloc: Global, count: usize) -> Result<Groups, NoMemory>
        ensures { IfOk result (λ made. made ≡ replicate count []) }
    {
        let mut lists = Vec::new(alloc);
        for _ in 0..count {
            lists.push(Vec::new(alloc))?;
        }
        Ok(Groups { lists })
    }

    /// Adds a number to a group.
    fn add(&mut self, key: usize, number: usize) -> Result<(), NoMemory>
        requires { key < length self.old }
        ensures { OnOk result (self.new ≡ slice_set self.old key (slice_index_or self.old key [] ++ number ∷ [])) }
    {
        self.lists[key].push(number)?;
        Ok(())
    }

    /// How many groups there are. Takes no memory.
    pub fn len(&self) -> usize
        ensures { result ≡ length self.now }
    {
        self.lists.len()
    }

    /// The group of a key; a key that isn't there has none. Takes no memory.
    pub fn get(&self, key: usize) -> &[usize]
        ensures { result.now ≡ slice_index_or self.now key [] }
    {
        match self.lists.get(key) {
            Some(list) => list.as_slice(),
            None => &[],
        }
    }

    /// Adds a link between each two neighbours in a group, but none from a number to itself.
    ///
    /// O(p) for p numbers in all.
    pub fn add_chains(&self, links: &mut Vec<(usize, usize)>) -> Result<(), NoMemory>
        ensures { OnOk result (links.new.items ≡ links.old.items ++ chains self.now) }
    {
        for list in &self.lists {
            add_chain(links, list.as_slice())?;
        }
        Ok(())
    }
}
