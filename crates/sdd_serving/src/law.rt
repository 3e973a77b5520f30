//! Laws of the exchange: facts about the definitions, each carried by the contract of a function.
//! A program has no need to call them.
ghost use Rattle.std.specs.Prelude.{ℕ, ◌≡◌, ◌≢◌, Bool, List, map};
ghost use Rattle.sdd_laws.specs.protocol.declared.entry.Entry as table_line;
ghost use Rattle.sdd_laws.specs.lang.declared.statement.Stmt as statement;
ghost use Rattle.sdd_laws.specs.All.{CopyRows, Database, FitsTxn, Row, effect, effect_over, reduced, uses_of};
ghost use Rattle.sdd_rules.specs.All.{Exchange, Has, Move, Queued, Reducing, Serves, Shipped, after_hand, after_send, begins, chosen_for, found_for, read_to};
ghost use Rattle.sdd_rules.specs.wire.declared.msg.Msg as message;
ghost use Rattle.sdd_serving.specs.Following.{Follows, Suits};
ghost use Rattle.sdd_serving.specs.Freezing.{asked_at, frozen_space, HasCopies};
ghost use Rattle.sdd_serving.specs.Reducing.{Space, all_held};
ghost use Rattle.sdd_serving.specs.Runs.{Stage, Runs};

use sdd_laws::{Catalogue, Txn};

/// What the modules of an attempt hold serves the database that has the copies which they froze,
/// however far a run of the exchange has come.
pub fn law_exchange_serves(catalogue: &Catalogue, txn: &Txn)
    requires { FitsTxn catalogue.now txn.now }
    ensures { (c ts : ℕ) (dms : List ℕ) (copies : ℕ → CopyRows) (db : Database) (space : Space) (stage : Stage)
        → HasCopies catalogue.now c txn.now dms copies db
        → Runs dms txn.now.statements (asked_at catalogue.now c txn.now)
        (frozen_space catalogue.now c txn.now ts copies) space stage
        → Serves catalogue.now txn.now (all_held dms space) db }
{
    catalogue.law_is_sound();
}

/// So what the transaction does to that database follows from the rows that are held.
pub fn law_shipped_effect(catalogue: &Catalogue, txn: &Txn)
    requires { FitsTxn catalogue.now txn.now }
    ensures { (c ts : ℕ) (dms : List ℕ) (copies : ℕ → CopyRows) (db : Database) (space : Space) (stage : Stage)
        → HasCopies catalogue.now c txn.now dms copies db
        → Runs dms txn.now.statements (asked_at catalogue.now c txn.now)
        (frozen_space catalogue.now c txn.now ts copies) space stage
        → effect_over catalogue.now (found_for (all_held dms space)) (chosen_for catalogue.now (all_held dms space)) txn.now
        ≡ effect catalogue.now db txn.now }
{
    catalogue.law_is_sound();
}

/// In which order rows arrive, and how often one does, doesn't matter.
pub fn law_arrival(catalogue: &Catalogue, txn: &Txn)
    ensures { (db : Database) (a b : Shipped)
        → ((s : ℕ × Row) → Has a s → Has b s) → ((s : ℕ × Row) → Has b s → Has a s)
        → Serves catalogue.now txn.now a db → Serves catalogue.now txn.now b db }
{}

/// The exchange of an attempt follows a run: from its Start on, with each message that is handed to
/// it and each that it sends, and with each REDUCE that is handed to one of its modules.
pub fn law_exchange_follows(catalogue: &Catalogue)
    ensures start { (table : List table_line.Entry) (c : ℕ) (q : Queued) (own p2 : ℕ) (dms : List ℕ) (first : Space)
        → Follows dms q.text.statements (asked_at catalogue.now c q.text) first first
        (begins q.text (map (read_to catalogue.now table c q (uses_of catalogue.now q.text) own p2) dms)) }
    ensures hand { (dms : List ℕ) (statements : List statement.Stmt) (asked : ℕ → ℕ → Bool) (first : Space) (ts c : ℕ)
        (space : Space) (x : Exchange) (d : ℕ) (msg : message.Msg)
        → Follows dms statements asked first space x → Suits ts c space d x msg
        → Follows dms statements asked first space (after_hand ts c d msg x) }
    ensures send { (dms : List ℕ) (statements : List statement.Stmt) (asked : ℕ → ℕ → Bool) (first : Space)
        (space : Space) (x : Exchange)
        → Follows dms statements asked first space x → Follows dms statements asked first space (after_send x) }
    ensures reduce { (dms : List ℕ) (statements : List statement.Stmt) (asked : ℕ → ℕ → Bool) (first : Space)
        (space after : Space) (x : Exchange) (m : Move) (d : ℕ)
        → Follows dms statements asked first space x → x.phase ≡ Reducing m
        → after d ≡ reduced m.target.part m.target.column x.union (space d)
        → ((b : ℕ) → b ≢ d → after b ≡ space b)
        → Follows dms statements asked first after x }
{}
