//! What the transactions of a workload may change, by relation.
ghost use Rattle.std.specs.Prelude.{◌≡◌, ◌++◌, ◌&&◌, map, not, IfOk, OnOk};
ghost use Rattle.std.specs.List.{list_any};
ghost use Rattle.sdd_robust_laws.specs.Accesses.{are_apart, meets};
ghost use Rattle.sdd_robust.specs.Changing.{changes_in, changes_of, held, is_missed, list_of, misses_by, misses_one};

use crate::meeting::{are_apart, meets};
use crate::member::Member;
use sdd_lang::{NoMemory, RelNo};
use sdd_robust_laws::Access;
use std::alloc::Global;
use std::marker::Model;

/// Lists of changes. Relations have numbers from 1 to 64.
const LISTS: u32 = 65;

/// What a transaction may change by one access.
#[derive(Clone, Copy)]
pub(crate) struct Changing<'a> {
    pub(crate) change: Access,
    pub(crate) member: &'a Member,
}

/// Transactions, with what they may change laid out by relation.
#[derive(Drop)]
pub struct Changes<'a> {
    all: &'a [Member],
    lists: Vec<Vec<Changing<'a>>>,
}

impl<'a> Model for Changes<'a> {
    ghost use Rattle.std.specs.Prelude.{◌≡◌, List, map};
    ghost use Rattle.sdd_robust.specs.Changing.{held, lists_of};
    ghost use Rattle.sdd_robust.specs.declared.member.Member.{Member};

    ghost Value = { List Member };

    ghost view = { λ c. c.all.now };

    ghost invariant = { λ c. map (λ v. held v.items) c.lists.items ≡ lists_of c.all.now };
}

/// Adds the changes of a transaction that stand in the list.
fn add_changes<'a>(
    found: &mut Vec<Changing<'a>>,
    member: &'a Member,
    list: u32,
) -> Result<(), NoMemory>
    ensures { OnOk result (held found.new.items ≡ held found.old.items ++ changes_of list member.now) }
{
    'accesses: for access in member.accesses.as_slice() {
        if access.changes && access.rel.0.min(LISTS - 1) == list {
            found.push(Changing {
                change: *access,
                member,
            })?;
        }
    }
    Ok(())
}

/// The changes that stand in the list.
fn changes_in<'a>(
    alloc: Global,
    all: &'a [Member],
    list: u32,
) -> Result<Vec<Changing<'a>>, NoMemory>
    ensures { IfOk result (λ found. held found.items ≡ changes_in all.now list) }
{
    let mut found = Vec::new(alloc);
    'members: for member in all {
        add_changes(&mut found, member, list)?;
    }
    Ok(found)
}

fn is_missed(pivot: &[Access], read: &Access, change: &Changing) -> bool
    ensures { result ≡ is_missed pivot.now read.now (change.now.change, change.now.member.now) }
{
    meets(read, &change.change) && !are_apart(pivot, change.member.accesses.as_slice())
}

fn one_is_missed(pivot: &[Access], read: &Access, changes: &[Changing]) -> bool
    ensures { result ≡ list_any (λ c. is_missed pivot.now read.now (c.change, c.member.now)) changes.now }
{
    changes.iter().any(|change| is_missed(pivot, read, change))
}

impl<'a> Changes<'a> {
    /// Costs time in the accesses, and memory for those that change.
    pub fn of(alloc: Global, all: &'a [Member]) -> Result<Changes<'a>, NoMemory>
        ensures { IfOk result (λ changes. changes ≡ all.now) }
    {
        let mut lists = Vec::new(alloc);
        'lists: for list in 0..LISTS {
            lists.push(changes_in(alloc, all, list)?)?;
        }
        Ok(Changes { all, lists })
    }

    /// The changes of the relation, and maybe of others.
    fn list(&self, rel: RelNo) -> &[Changing<'a>]
        ensures { held result.now ≡ changes_in self.now (list_of rel.0) }
    {
        self.lists[rel.0.min(LISTS - 1) as usize].as_slice()
    }

    /// Whether the transaction may miss, by this access, what another one changes that may run while
    /// it does, and both commit.
    pub fn misses_by(&self, pivot: &[Access], read: &Access) -> bool
        ensures { result ≡ misses_by self.now pivot.now read.now }
    {
        read.reads && one_is_missed(pivot, read, self.list(read.rel))
    }

    /// Whether the transaction may miss what another one changes that may run while it does, and both
    /// commit. Costs for each access time in the changes of its relation, and for those that it meets
    /// time in the accesses of both transactions.
    pub fn misses_one(&self, pivot: &[Access]) -> bool
        ensures { result ≡ misses_one self.now pivot.now }
    {
        pivot.iter().any(|read| self.misses_by(pivot, read))
    }
}
