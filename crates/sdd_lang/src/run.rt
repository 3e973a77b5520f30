//! A transaction under way.
ghost use Rattle.std.specs.Prelude.{◌≡◌, ◌<◌, ◌+◌, ◌^◌, nat_lt, not, [], ◌∷◌, ◌++◌, IfOk, OnOk, Some, None, cond, length, map, IsTrue};
ghost use Rattle.sdd_base.specs.declared.limits.TheConstants.{MAX_REPLY_ROWS};
ghost use Rattle.sdd_base.specs.declared.reply.Reply.TheVariants.{Rows};
ghost use Rattle.sdd_lang.specs.Database.{key_in};
ghost use Rattle.sdd_lang.specs.Effect.{with_change, with_updates, with_deletes, rows_in, change_of};
ghost use Rattle.sdd_lang.specs.Fits.{IsRelation, FitsStatement};
ghost use Rattle.sdd_lang.specs.Run.{Run, TakesStatement};
ghost use Rattle.sdd_lang.specs.Source.{uses_in};

use crate::assign::Assign;
use crate::condition::{Condition, Ref};
use crate::effect::Effect;
use crate::pending::Pending;
use crate::source::Source;
use crate::statement::Stmt;
use crate::tuple::key_of;
use sdd_base::{Answer, Answers, MAX_REPLY_ROWS, NoMemory, Parcel, RelNo, Reply, Row};
use sdd_catalog::Catalogue;
use std::alloc::Global;
use std::marker::Model;

/// What is known after some statements of a transaction.
#[derive(Drop)]
pub(crate) struct Run {
    // How many uses the statements have had.
    before: u32,
    answers: Vec<Answer>,
    // How many rows the answers may still get.
    room: usize,
    changes: Pending,
}

impl Model for Run {
    ghost use Rattle.std.specs.Prelude.{◌≡◌, ◌+◌};
    ghost use Rattle.sdd_base.specs.declared.limits.TheConstants.{MAX_REPLY_ROWS};
    ghost use Rattle.sdd_lang.specs.Effect.{rows_in};
    ghost use Rattle.sdd_lang.specs.Run.{Run};

    ghost Value = { Run };

    ghost view = { λ r. record { before = r.before; answers = r.answers.items; changed = r.changes } };

    ghost invariant = { λ r. r.room + rows_in r.answers.items ≡ MAX_REPLY_ROWS };
}

impl Run {
    pub(crate) fn new(alloc: Global) -> Self
        ensures { result ≡ record { before = 0; answers = []; changed = [] } }
    {
        Run {
            before: 0,
            answers: Vec::new(alloc),
            room: MAX_REPLY_ROWS,
            changes: Pending::new(alloc),
        }
    }

    fn put(&mut self, catalogue: &Catalogue, rel: RelNo, row: &Row) -> Result<(), NoMemory>
        requires { IsRelation catalogue.now rel.0 }
        ensures { OnOk result (self.new ≡ record self.old { changed = with_change catalogue.now self.old.changed rel.0 (key_in catalogue.now rel.0 row.now) (Some row.now) }) }
    {
        let key = key_of(catalogue, rel, row);
        self.changes.put(catalogue, rel, &key, Some(row.copy()?))
    }

    /// False where the answers have too many rows together.
    #[tactic(auto, using(crate::proofs::Running::room_left))]
    fn query<S: Source>(
        &mut self,
        alloc: Global,
        source: &S,
        out: &[Ref],
        rels: &[RelNo],
        conds: &[Condition],
    ) -> Result<bool, NoMemory>
        requires { self.old.before + length rels.now < 2 ^ 32 }
        ensures found { IfOk result (λ fits. IsTrue fits → self.new ≡ record self.old { before = self.old.before + length rels.now; answers = self.old.answers ++ S.found source.now self.old.before out.now rels.now conds.now ∷ [] }) }
        ensures many { IfOk result (λ fits. fits ≡ not (nat_lt MAX_REPLY_ROWS (rows_in self.old.answers + length (S.found source.now self.old.before out.now rels.now conds.now)))) }
    {
        match source.query(alloc, self.before, out, rels, conds, self.room)? {
            Some(rows) => {
                let count = rows.as_slice().len();
                self.answers.push(rows)?;
                self.room -= count;
                self.before += rels.len() as u32;
                Ok(true)
            }
            None => Ok(false),
        }
    }

    /// False where a sum leaves the range of a whole number.
    fn update<S: Source>(
        &mut self,
        alloc: Global,
        catalogue: &Catalogue,
        source: &S,
        rel: RelNo,
        sets: &[Assign],
        conds: &[Condition],
    ) -> Result<bool, NoMemory>
        requires rel { IsRelation catalogue.now rel.0 }
        requires few { self.old.before + 1 < 2 ^ 32 }
        ensures before { IfOk result (λ _. self.new.before ≡ self.old.before + 1) }
        ensures answers { IfOk result (λ _. self.new.answers ≡ self.old.answers) }
        ensures changed { IfOk result (λ fits. cond fits (Some self.new.changed) None ≡ with_updates catalogue.now sets.now self.old.changed (S.chosen source.now self.old.before rel.0 conds.now)) }
    {
        let entries = source.find_matching(alloc, self.before, rel, conds)?;
        self.before += 1;
        self.changes
            .update(catalogue, rel, sets, entries.as_slice())
    }

    fn delete<S: Source>(
        &mut self,
        alloc: Global,
        catalogue: &Catalogue,
        source: &S,
        rel: RelNo,
        conds: &[Condition],
    ) -> Result<(), NoMemory>
        requires rel { IsRelation catalogue.now rel.0 }
        requires few { self.old.before + 1 < 2 ^ 32 }
        ensures { OnOk result (self.new ≡ record self.old { before = self.old.before + 1; changed = with_deletes catalogue.now self.old.changed (S.chosen source.now self.old.before rel.0 conds.now) }) }
    {
        let entries = source.find_matching(alloc, self.before, rel, conds)?;
        self.before += 1;
        self.changes.delete(catalogue, rel, entries.as_slice())
    }

    /// Takes one more statement, or answers how the transaction fails at it.
    pub(crate) fn take<S: Source>(
        &mut self,
        alloc: Global,
        catalogue: &Catalogue,
        source: &S,
        statement: &Stmt,
    ) -> Result<Option<Reply>, NoMemory>
        requires fits { FitsStatement catalogue.now statement.now }
        requires few { self.old.before + uses_in statement.now < 2 ^ 32 }
        ensures before { IfOk result (λ failure. failure ≡ None → self.new.before ≡ self.old.before + uses_in statement.now) }
        ensures takes { IfOk result (TakesStatement catalogue.now (S.found source.now) (S.chosen source.now) statement.now self.old self.new) }
    {
        match statement {
            Stmt::Put { rel, row } => {
                self.put(catalogue, *rel, row)?;
                Ok(None)
            }
            Stmt::Query { out, rels, conds } => {
                let (out, rels, conds) = (out.as_slice(), rels.as_slice(), conds.as_slice());
                match self.query(alloc, source, out, rels, conds)? {
                    true => Ok(None),
                    false => Ok(Some(Reply::TooMany)),
                }
            }
            Stmt::Update { rel, sets, conds } => {
                let (sets, conds) = (sets.as_slice(), conds.as_slice());
                match self.update(alloc, catalogue, source, *rel, sets, conds)? {
                    true => Ok(None),
                    false => Ok(Some(Reply::Overflow)),
                }
            }
            Stmt::Delete { rel, conds } => {
                self.delete(alloc, catalogue, source, *rel, conds.as_slice())?;
                Ok(None)
            }
        }
    }

    /// The effect, where no statement is left.
    pub(crate) fn into_effect(self, alloc: Global) -> Result<Effect, NoMemory>
        ensures { IfOk result (λ effect. effect ≡ record { reply = Rows self.answers; changes = map change_of self.changed }) }
    {
        let Run {
            answers,
            changes,
            ..
        } = self;
        Ok(Effect {
            reply: Reply::Rows(Answers::from_vec(answers)),
            changes: changes.into_changes(alloc)?,
        })
    }
}
