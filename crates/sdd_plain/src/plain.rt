ghost use Rattle.std.specs.Prelude.{◌≡◌, All, IfOk, OnOk, OnErr, IsTrue, false, true};
ghost use Rattle.sdd_lang.specs.All.{FitsStart, FitsTxn, after_changes, chosen_in, database_of, effect, serial};
ghost use Rattle.sdd_lang.specs.Source.{found_in};

use crate::rows::Rows;
use sdd_exec::join;
use sdd_lang::{
    Answer, Catalogue, Condition, Effect, Entries, Listed, NoMemory, Ref, RelNo, Reply, Row,
    Source, Txn, effect_over,
};
use std::alloc::Global;
use std::marker::Model;

/// The replies of transactions, in their order.
pub type Replies = Listed<Reply>;

/// One database without copies, on which transactions run one after the other.
///
/// It is live until a call to which it is lent by `&mut` answers `NoMemory`. After that it is only
/// dropped.
#[derive(Drop)]
pub struct Plain {
    alloc: Global,
    rows: Rows,
    live: bool,
}

impl Model for Plain {
    ghost use Rattle.sdd_lang.specs.All.{Database, Kept};

    ghost Value = { Kept Database };

    ghost view = { λ p. record { live = p.live; value = p.rows } };
}

impl Plain {
    /// The database of these rows: of two with one key the later stands.
    ///
    /// Costs a logarithmic step for each row, and time and memory linear in the rows.
    pub fn new(
        alloc: Global,
        catalogue: &Catalogue,
        rows: &[(RelNo, Row)],
    ) -> Result<Self, NoMemory>
        requires { All (FitsStart catalogue.now) rows.now }
        ensures { IfOk result (λ plain. plain ≡ record { live = true; value = database_of catalogue.now rows.now }) }
    {
        Ok(Plain {
            alloc,
            rows: Rows::from_rows(alloc, catalogue, rows)?,
            live: true,
        })
    }

    /// False once a call to which it was lent ran out of memory. Takes no memory.
    pub fn live(&self) -> bool
        ensures { result ≡ self.now.live }
    {
        self.live
    }

    /// Runs the transaction on the database and answers the user. A transaction that fails changes
    /// nothing.
    ///
    /// A query costs what `sdd_exec::join` costs over the rows that may stand in its parts. To find
    /// these costs time in the rows of each part's relation, as it does for an update or a delete;
    /// where a key is restricted, in the rows alone whose keys are allowed. A change costs a
    /// logarithmic step.
    #[tactic(auto, using(sdd_lang::proofs::Sources::effect_over_database))]
    pub fn run(&mut self, catalogue: &Catalogue, txn: &Txn) -> Result<Reply, NoMemory>
        requires live { IsTrue self.old.live }
        requires fits { FitsTxn catalogue.now txn.now }
        ensures reply { IfOk result (λ reply. reply ≡ (effect catalogue.now self.old.value txn.now).reply) }
        ensures after { OnOk result (self.new ≡ record { live = true; value = after_changes catalogue.now self.old.value (effect catalogue.now self.old.value txn.now).changes }) }
        ensures err { OnErr result (self.new.live ≡ false) }
    {
        self.live = false;
        let Effect { reply, changes } = effect_over(self.alloc, catalogue, txn, &*self)?;
        self.rows.apply(catalogue, changes)?;
        self.live = true;
        Ok(reply)
    }

    /// Runs the transactions one after the other, each on the database that the one before left.
    pub fn run_all(&mut self, catalogue: &Catalogue, txns: &[Txn]) -> Result<Replies, NoMemory>
        requires live { IsTrue self.old.live }
        requires fit { All (FitsTxn catalogue.now) txns.now }
        ensures replies { IfOk result (λ replies. replies ≡ (serial catalogue.now self.old.value txns.now).0) }
        ensures after { OnOk result (self.new ≡ record { live = true; value = (serial catalogue.now self.old.value txns.now).1 }) }
        ensures err { OnErr result (self.new.live ≡ false) }
    {
        let mut replies = Vec::new(self.alloc);
        'txns: for txn in txns {
            let reply = self.run(catalogue, txn)?;
            self.live = false;
            replies.push(reply)?;
            self.live = true;
        }
        Ok(Replies::from_vec(replies))
    }
}

impl Source for Plain {
    ghost found = { λ plain. found_in plain.value };

    ghost chosen = { λ plain. chosen_in plain.value };

    #[tactic(auto, using(crate::proofs::Answering::answer_standing))]
    fn query(
        &self,
        alloc: Global,
        _before: u32,
        out: &[Ref],
        rels: &[RelNo],
        conds: &[Condition],
        room: usize,
    ) -> Result<Option<Answer>, NoMemory> {
        let parts = self.rows.parts(alloc, rels, conds)?;
        join(alloc, &parts, out, conds, room)
    }

    fn find_matching(
        &self,
        alloc: Global,
        _before: u32,
        rel: RelNo,
        conds: &[Condition],
    ) -> Result<Entries, NoMemory> {
        self.rows.find_matching(alloc, rel, conds)
    }
}
