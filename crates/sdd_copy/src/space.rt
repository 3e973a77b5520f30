ghost use Rattle.std.specs.Prelude.{◌≡◌, ℕ, OnOk, OnErr, IfOk, IsTrue, length};
ghost use Rattle.std.specs.List.{All};
ghost use Rattle.sdd_copy.specs.Contents.{Dated, contents};
ghost use Rattle.sdd_copy.specs.Copies.{rows_at, Represent, AreHere};
ghost use Rattle.sdd_copy.specs.Frozen.{frozen_for, rows_of, values_in, reduced, counts_of, all_rows};

use crate::copies::Copies;
use crate::freezing::rows_for;
use crate::reducing::{reduce_use, set_of, values_of};
use sdd_lang::{Listed, NoMemory, Row, RowList, Ts, Use, Value};
use std::alloc::Global;
use std::collections::BTreeSet;
use std::marker::Model;

/// The rows that are held for the uses of one attempt: as its READ froze them, and since then
/// reduced. Columns count from 1; one that a row doesn't have holds the number 0.
#[derive(Drop)]
pub struct Space {
    ts: Ts,
    uses: Vec<(u32, RowList)>,
    alloc: Global,
}

impl Model for Space {
    ghost use Rattle.sdd_copy.specs.Frozen.{Frozen};

    ghost Value = { Frozen };

    ghost view = { λ s. record { ts = s.ts.0; uses = s.uses.items } };
}

impl Space {
    /// The rows of these uses for the attempt with timestamp `ts`: of each fragment of a use the
    /// rows of its copy that meet the use's restrictions; of a fragment without a copy none.
    ///
    /// O(m + k) for each use, where m items are looked at and k rows are held, of which each is
    /// copied once; O(m + k log k) where the keys of one fragment don't follow those of the one
    /// before. Restrictions on the key column leave the items to look at whose keys they allow,
    /// found in O(log n) for n items of a copy.
    pub fn freeze(alloc: Global, ts: Ts, uses: &[Use], copies: &Copies) -> Result<Space, NoMemory>
        requires { IsTrue copies.now.live }
        ensures rows { IfOk result (λ space.
            space ≡ frozen_for (rows_at copies.now.value) ts.0 uses.now) }
        ensures contents { IfOk result (λ space. (xs : Dated) → Represent copies.now.value xs
            → All (AreHere copies.now.value) uses.now
            → space ≡ frozen_for (λ f. contents f xs) ts.0 uses.now) }
    {
        let mut frozen = Vec::with_capacity(alloc, uses.len())?;
        for one in uses {
            frozen.push((one.number, rows_for(alloc, one, copies)?))?;
        }
        Ok(Space {
            ts,
            uses: frozen,
            alloc,
        })
    }

    /// The timestamp of the attempt.
    pub fn ts(&self) -> Ts
        ensures { result.0 ≡ self.now.ts }
    {
        self.ts
    }

    /// The rows of a use, lent; none where it isn't there.
    fn rows_of(&self, use_no: u32) -> &[Row]
        ensures { result.now ≡ rows_of use_no self.now }
    {
        for (number, rows) in &self.uses {
            if *number == use_no {
                return rows.as_slice();
            }
        }
        &[]
    }

    /// How many rows are held for a use. O(u) for u uses. Takes no memory.
    pub fn count(&self, use_no: u32) -> u64
        ensures { result ≡ length (rows_of use_no self.now) }
    {
        self.rows_of(use_no).len() as u64
    }

    /// How many rows are held for each use, in the order of the uses. O(u) for u uses.
    pub fn counts(&self) -> Result<Listed<(u32, u64)>, NoMemory>
        ensures { IfOk result (λ counts. counts ≡ counts_of self.now) }
    {
        let mut counts = Vec::with_capacity(self.alloc, self.uses.len())?;
        for (number, rows) in &self.uses {
            counts.push((*number, rows.as_slice().len() as u64))?;
        }
        Ok(Listed::from_vec(counts))
    }

    /// The distinct values of a column of a use, ascending. O(n log n) for n rows.
    pub fn values(&self, use_no: u32, column: u32) -> Result<Listed<Value>, NoMemory>
        ensures { IfOk result (λ values. values ≡ values_in (rows_of use_no self.now) column) }
    {
        let known = values_of(self.alloc, self.rows_of(use_no), column)?;
        list_values(self.alloc, known)
    }

    /// Keeps of a use the rows whose column is among the values. Where memory runs out, all stays
    /// as it was.
    ///
    /// O((n + v) log v) for n rows and v values, which are copied into a set.
    pub fn reduce(&mut self, use_no: u32, column: u32, values: &[Value]) -> Result<(), NoMemory>
        ensures ok { OnOk result (self.new ≡ reduced use_no column values.now self.old) }
        ensures err { OnErr result (self.new ≡ self.old) }
    {
        let known = set_of(self.alloc, values)?;
        for one in self.uses.iter_mut() {
            reduce_use(self.alloc, one, use_no, column, &known);
        }
        Ok(())
    }

    /// All rows with the numbers of their uses, by use and then by key. O(n) for n rows, which are
    /// moved.
    pub fn ship(self) -> Result<Listed<(u32, Row)>, NoMemory>
        ensures { IfOk result (λ rows. rows ≡ all_rows self) }
    {
        let Space { ts: _, uses, alloc } = self;
        let mut all = Vec::with_capacity(alloc, count_all(uses.as_slice()))?;
        for (number, rows) in uses {
            for row in rows.into_vec() {
                all.push((number, row))?;
            }
        }
        Ok(Listed::from_vec(all))
    }
}

/// How many rows all uses have, so that room is made for them at once.
fn count_all(uses: &[(u32, RowList)]) -> usize {
    let mut count: usize = 0;
    for (_, rows) in uses {
        count = count.saturating_add(rows.as_slice().len());
    }
    count
}

/// The values of a set, ascending.
fn list_values(alloc: Global, known: BTreeSet<Value>) -> Result<Listed<Value>, NoMemory>
    ensures { IfOk result (λ values. values ≡ known.keys) }
{
    let mut values = Vec::with_capacity(alloc, known.len())?;
    for value in known {
        values.push(value)?;
    }
    Ok(Listed::from_vec(values))
}
