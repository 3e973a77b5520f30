ghost use Rattle.std.specs.Prelude.{◌≡◌, ◌+◌, ◌≤◌, ◌∷◌, [], map, IfOk, OnOk};
ghost use Rattle.sdd_rules.specs.attempt.Exchange.{count_of};
ghost use Rattle.sdd_rules.specs.All.{counted, counts_for};
ghost use Rattle.sdd_exchange.specs.Counts.{is_other, count_in, numbered};

use crate::queries::Asking;
use sdd_module::{DmNo, NoMemory};
use std::alloc::Global;
use std::marker::Model;

/// How many rows of a use a module holds.
type Count = ((u32, DmNo), u64);

/// How many rows are held, of each use at each module: what was counted last.
#[derive(Drop)]
pub(crate) struct Counts {
    items: Vec<Count>,
}

impl Model for Counts {
    ghost use Rattle.std.specs.Prelude.{ℕ, List, map};
    ghost use Rattle.sdd_exchange.specs.Counts.{numbered};

    ghost Value = { List ((ℕ × ℕ) × ℕ) };

    ghost view = { λ c. map numbered c.items.items };
}

impl Counts {
    pub(crate) fn new(alloc: Global) -> Counts
        ensures { result ≡ [] }
    {
        Counts {
            items: Vec::new(alloc),
        }
    }

    /// Counts the rows of a use at a module, in the place of an earlier count. Costs time in all
    /// counts.
    pub(crate) fn put(&mut self, dm: DmNo, use_no: u32, rows: u64) -> Result<(), NoMemory>
        ensures { OnOk result (self.new ≡ counted dm.0 ((use_no, rows) ∷ []) self.old) }
    {
        self.items.retain(|count| is_other(count, use_no, dm));
        self.items.push(((use_no, dm), rows))?;
        Ok(())
    }

    /// Counts the rows of uses at a module.
    pub(crate) fn put_all(&mut self, dm: DmNo, news: &[(u32, u64)]) -> Result<(), NoMemory>
        ensures { OnOk result (self.new ≡ counted dm.0 news.now self.old) }
    {
        for new in news {
            self.put(dm, new.0, new.1)?;
        }
        Ok(())
    }

    /// The rows of the uses of a query, in order.
    pub(crate) fn for_query(&self, alloc: Global, query: &Asking) -> Result<Vec<u128>, NoMemory>
        requires { query.now.before + query.now.uses ≤ 192 }
        ensures { IfOk result (λ rows. rows.items ≡ counts_for self.now query.now) }
    {
        let mut all = Vec::with_capacity(alloc, query.uses as usize)?;
        for part in 1..query.uses + 1 {
            all.push(rows_of(&self.items, query.before + part))?;
        }
        Ok(all)
    }
}

fn is_other(count: &Count, use_no: u32, dm: DmNo) -> bool
    ensures { result ≡ is_other dm.0 use_no count.now }
{
    count.0.0 != use_no || count.0.1.0 != dm.0
}

/// The rows of a use at all modules together.
fn rows_of(counts: &[Count], use_no: u32) -> u128
    ensures { result ≡ count_of (map numbered counts.now) use_no }
{
    let mut rows = 0;
    for count in counts {
        rows += count_in(count, use_no) as u128;
    }
    rows
}

/// The rows that are counted, where it is of the use.
fn count_in(count: &Count, use_no: u32) -> u64
    ensures { result ≡ count_in use_no count.now }
{
    if count.0.0 == use_no { count.1 } else { 0 }
}
