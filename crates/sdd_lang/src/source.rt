ghost use Rattle.std.specs.Prelude.{◌≡◌, ℕ, List, IfOk};
ghost use Rattle.sdd_base.specs.declared.number.RelNo.{RelNo};
ghost use Rattle.sdd_lang.specs.declared.condition.Ref.{Ref};
ghost use Rattle.sdd_lang.specs.declared.condition.Condition.{Condition};
ghost use Rattle.sdd_lang.specs.Database.{Row, Database};
ghost use Rattle.sdd_lang.specs.Source.{within, entries_of};

use crate::condition::{Condition, Ref};
use sdd_base::{Answer, Listed, NoMemory, RelNo, Row};
use std::alloc::Global;

/// A row with its key.
#[derive(Drop)]
pub struct Entry {
    pub key: i64,
    pub row: Row,
}

/// Rows of one relation, ascending by key.
pub type Entries = Listed<Entry>;

/// Where the rows come from on which a transaction's statements work.
///
/// A statement is known by how many uses stand before it in its transaction: it has one use
/// for each relation that it reads.
pub trait Source {
    // What a query finds.
    ghost found: { Self → ℕ → List Ref → List RelNo → List Condition → List Row };
    // What an update or delete works on.
    ghost chosen: { Self → ℕ → ℕ → List Condition → Database };

    /// What a query finds, or None where this is more than so many rows.
    fn query(
        &self,
        alloc: Global,
        before: u32,
        out: &[Ref],
        rels: &[RelNo],
        conds: &[Condition],
        room: usize,
    ) -> Result<Option<Answer>, NoMemory>
        ensures { IfOk result (λ rows. rows ≡ within room (found self.now before out.now rels.now conds.now)) };

    /// The rows that an update or delete works on, with their keys.
    fn find_matching(
        &self,
        alloc: Global,
        before: u32,
        rel: RelNo,
        conds: &[Condition],
    ) -> Result<Entries, NoMemory>
        ensures { IfOk result (λ entries. entries_of rel.0 entries ≡ chosen self.now before rel.0 conds.now) };
}
