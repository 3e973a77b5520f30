ghost use Rattle.std.specs.Prelude.{◌≡◌};

use sdd_lang::{ClassParts, Events, Listed, RelNo, Row, Txn};

/// The initial rows, each with its relation. Of two with one key the later one stands.
pub type StartRows = Listed<(RelNo, Row)>;

/// Transactions, which are numbered from 1.
pub type Txns = Listed<Txn>;

/// Class lists, of which each `redeclare` puts the next one in force.
pub type ClassLists = Listed<ClassParts>;

/// What a run works on.
#[derive(Drop)]
pub struct Workload {
    pub rows: StartRows,
    pub txns: Txns,
    pub lists: ClassLists,
    pub events: Events,
}
