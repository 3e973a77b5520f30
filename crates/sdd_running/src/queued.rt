ghost use Rattle.std.specs.Prelude.{◌≡◌, ◌<◌, ◌^◌, suc};
ghost use Rattle.sdd_rules.specs.attempt.Queues.{txn_of};

use sdd_module::{Txn, TxnNo};
use std::marker::Model;

/// A transaction in a queue.
#[derive(Drop)]
pub struct Queued {
    pub number: TxnNo,
    pub text: Txn,
    /// How often it started.
    pub tries: u64,
}

impl Model for Queued {
    ghost use Rattle.sdd_rules.specs.attempt.Queues as queues;

    ghost Value = { queues.Queued };

    ghost view = { λ q. record { number = q.number.0; text = q.text; tries = q.tries } };
}

impl Queued {
    /// The transaction.
    pub fn txn(&self) -> TxnNo
        ensures { result ≡ txn_of self.now }
    {
        self.number
    }

    /// Counts one more start.
    pub fn add_try(&mut self)
        requires { suc self.old.tries < 2 ^ 64 }
        ensures { self.new ≡ record self.old { tries = suc self.old.tries } }
    {
        self.tries += 1;
    }
}
