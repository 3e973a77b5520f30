ghost use Rattle.std.specs.Prelude.{◌≡◌, ◌==◌, ◌++◌, ◌∷◌, [], OnOk};
ghost use Rattle.std.specs.List.{list_any};
ghost use Rattle.sdd_lang.specs.All.{TxnNo};

use sdd_lang::{NoMemory, TxnNo};
use std::alloc::Global;
use std::marker::Model;

/// The transactions that were submitted, in order.
///
/// Most workloads submit them in the order of their numbers; then to ask for one takes constant time.
#[derive(Drop)]
pub struct Submitted {
    numbers: Vec<TxnNo>,
    /// No number is greater.
    most: u32,
}

impl Model for Submitted {
    ghost use Rattle.std.specs.Prelude.{List, ◌≤◌};
    ghost use Rattle.std.specs.List.{All};
    ghost use Rattle.sdd_lang.specs.All.{TxnNo};

    ghost Value = { List TxnNo };

    ghost view = { λ s. s.numbers.items };

    ghost invariant = { λ s. All (λ (t : TxnNo). t.0 ≤ s.most) s.numbers.items };
}

impl Submitted {
    /// No transactions. Takes no memory.
    pub fn new(alloc: Global) -> Self
        ensures { result ≡ [] }
    {
        Submitted {
            numbers: Vec::new(alloc),
            most: 0,
        }
    }

    /// Whether the transaction is among them. Costs time in them where a later one is.
    pub fn has(&self, txn: TxnNo) -> bool
        ensures { result ≡ list_any (λ (t : TxnNo). t.0 == txn.0) self.now }
    {
        if self.most < txn.0 {
            return false;
        }
        self.numbers.iter().any(|other| other.0 == txn.0)
    }

    /// Puts a transaction behind the others.
    #[tactic(auto, using(crate::proofs::Submissions::one_more))]
    pub fn add(&mut self, txn: TxnNo) -> Result<(), NoMemory>
        ensures { OnOk result (self.new ≡ self.old ++ txn ∷ []) }
    {
        self.numbers.push(txn)?;
        if self.most < txn.0 {
            self.most = txn.0;
        }
        Ok(())
    }
}
