ghost use Rattle.std.specs.Prelude.{◌≡◌, ℕ, IfOk, OnOk};
ghost use Rattle.sdd_rules.specs.All.{Serves, commit_act};
ghost use Rattle.sdd_module.specs.All.{Bases, Database, FitsTxn, IsDatabase, effect, with_act};
ghost use Rattle.sdd_attempt.specs.Lines.{attempt_of};

use crate::writes::{Committing, send_writes};
use sdd_exec::{Snapshot, effect};
use sdd_module::{Catalogue, ClassNo, Draft, Effect, NoMemory, PrintedReply, Rec, Row, Txn};
use sdd_running::{Queued, Running};
use std::alloc::Global;

/// Commits an attempt of the class: its Commit is recorded, with its WRITEs.
pub(crate) fn commit_attempt(
    alloc: Global,
    catalogue: &Catalogue,
    class: ClassNo,
    queued: &Queued,
    running: Running,
    draft: &mut Draft,
) -> Result<(), NoMemory>
    requires { FitsTxn catalogue.now queued.now.text }
    ensures { OnOk result (
        (bases : Bases) → ((ts : ℕ) → IsDatabase catalogue.now (bases ts))
        → Serves catalogue.now queued.now.text running.exchange.found (bases running.ts)
        → draft.new ≡ with_act (commit_act catalogue.now bases class.0 (attempt_of queued.now running)) draft.old) }
{
    let Running { ts, exchange } = running;
    let values = exchange.values();
    let rows = exchange.rows();
    let effect = effect_from(alloc, catalogue, &queued.text, exchange.into_found())?;
    let attempt = Committing {
        class,
        txn: queued.number,
        ts,
    };
    send_writes(alloc, catalogue, attempt, effect.changes.as_slice(), draft)?;
    let reply = PrintedReply::of(alloc, &effect.reply)?;
    draft.record(Rec::Commit {
        txn: queued.number,
        attempt: queued.tries,
        reply,
        changes: effect.changes,
        values,
        rows,
    })?;
    Ok(())
}

/// The effect on each database that the rows serve.
fn effect_from(
    alloc: Global,
    catalogue: &Catalogue,
    text: &Txn,
    rows: Vec<(u32, Row)>,
) -> Result<Effect, NoMemory>
    requires { FitsTxn catalogue.now text.now }
    ensures { IfOk result (λ made.
        (db : Database) → IsDatabase catalogue.now db → Serves catalogue.now text.now rows.items db
        → made ≡ effect catalogue.now db text.now) }
{
    effect(alloc, catalogue, text, &Snapshot::of(rows))
}
