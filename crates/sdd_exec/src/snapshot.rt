ghost use Rattle.std.specs.Prelude.{◌≡◌, true, false, [], ◌∷◌, ◌++◌, OnOk, OnErr, IfOk, IsTrue};
ghost use Rattle.sdd_lang.specs.All.{rows_lent};
ghost use Rattle.sdd_shipped.specs.Snapshots.{rows_for};

use sdd_lang::{NoMemory, Row};
use std::alloc::Global;
use std::marker::Model;

/// Rows that were shipped for the uses of a transaction, each with the number of its use. Contracts
/// see the list of them.
#[derive(Drop)]
pub struct Snapshot {
    rows: Vec<(u32, Row)>,
    live: bool,
}

impl Model for Snapshot {
    ghost use Rattle.sdd_lang.specs.All.{Kept};
    ghost use Rattle.sdd_shipped.specs.Snapshots.{Shipped};

    ghost Value = { Kept Shipped };

    ghost view = { λ s. record { live = s.live; value = s.rows.items } };
}

impl Snapshot {
    /// No row.
    pub fn new(alloc: Global) -> Snapshot
        ensures { result ≡ record { live = true; value = [] } }
    {
        Snapshot::of(Vec::new(alloc))
    }

    /// The rows as they came, of which one may stand there more than once. Moves them.
    pub fn of(rows: Vec<(u32, Row)>) -> Snapshot
        ensures { result ≡ record { live = true; value = rows.items } }
    {
        Snapshot { rows, live: true }
    }

    /// Adds a row of a use. A row may be added more than once.
    pub fn add(&mut self, use_no: u32, row: Row) -> Result<(), NoMemory>
        requires live { IsTrue self.old.live }
        ensures ok { OnOk result (self.new ≡ record { live = true; value = self.old.value ++ (use_no, row) ∷ [] }) }
        ensures err { OnErr result (self.new.live ≡ false) }
    {
        self.live = false;
        self.rows.push((use_no, row))?;
        self.live = true;
        Ok(())
    }

    /// Whether rows may be added.
    pub fn live(&self) -> bool
        ensures { result ≡ self.now.live }
    {
        self.live
    }

    /// The rows of a use, in the order in which they came. Costs time with all rows.
    pub(crate) fn rows_for(&self, alloc: Global, use_no: u64) -> Result<Vec<&Row>, NoMemory>
        ensures { IfOk result (λ rows. rows_lent rows.items ≡ rows_for self.now.value use_no) }
    {
        rows_of(alloc, self.rows.as_slice(), use_no)
    }
}

/// Adds the row, where it is of the use.
fn add_row<'a>(
    rows: &mut Vec<&'a Row>,
    shipped: &'a (u32, Row),
    use_no: u64,
) -> Result<(), NoMemory>
    ensures { OnOk result (rows_lent rows.new.items ≡ rows_lent rows.old.items ++ rows_for (shipped.now ∷ []) use_no) }
{
    if u64::from(shipped.0) == use_no {
        rows.push(&shipped.1)?;
    }
    Ok(())
}

/// How many rows of the use there are, for which room is made at once.
fn count_of(shipped: &[(u32, Row)], use_no: u64) -> usize {
    shipped
        .iter()
        .filter(|one| u64::from(one.0) == use_no)
        .count()
}

/// The rows of a use.
#[tactic(auto, using(crate::proofs::Shipping::rows_for_more))]
fn rows_of(alloc: Global, shipped: &[(u32, Row)], use_no: u64) -> Result<Vec<&Row>, NoMemory>
    ensures { IfOk result (λ rows. rows_lent rows.items ≡ rows_for shipped.now use_no) }
{
    let mut rows = Vec::with_capacity(alloc, count_of(shipped, use_no))?;
    for one in shipped {
        add_row(&mut rows, one, use_no)?;
    }
    Ok(rows)
}
