ghost use Rattle.std.specs.Prelude.{◌≡◌, ◌≤◌, ◌↔◌, ◌++◌, ◌∷◌, ℕ, List, None, [], false, true};
ghost use Rattle.sdd_obligations.specs.invariants.All.{Catalogue, Change, ClassNo, Cond, D, DmNo, Does, Hand, Input, IsPermitted, IsTable, Log, Msg, Read, Rec, Records, Site, Ts, TxnNo, Use, Write, active, home, is_wait, local_of, on_hold, queue, setting_of, takes_part};
ghost use Rattle.sdd_obligations.specs.graph.Edges.{IsClassOf};
ghost use Rattle.sdd_obligations.specs.protocol.declared.entry.Entry as line;
ghost use Rattle.sdd_obligations.specs.history.declared.record.Rec.TheVariants.{Reject as Rejected};
ghost use Rattle.sdd_obligations.specs.tm.Views.{view_of};
ghost use Rattle.sdd_progress.specs.Answers.{EndsAnEvent, IsAnsweredIn, IsAppliedIn};
ghost use Rattle.sdd_progress.specs.Free.{IsFree, IsFreeClass, IsInNoBlock};

/// A class is free exactly where each edge at its nodes has block 0 in the protocol table.
pub fn law_free_by_blocks()
    ensures { (catalogue : Catalogue) (table : List line.Entry) (class : ℕ) → IsTable catalogue table
        → IsFree catalogue class ↔ IsInNoBlock table class }
{}

/// No attempt of a free class has a Wait or a Reject.
pub fn law_free_undisturbed()
    ensures waits_never { (given : Input) (log : Log) (class : ℕ) (d : DmNo) (rec : Rec)
        (sends : List (Site × Msg)) → IsFreeClass given class
        → IsPermitted given (Does (D d) (Records class rec sends) ∷ log)
        → is_wait rec ≡ true → ⊥ }
    ensures rejected_never { (given : Input) (log : Log) (class : ℕ) (d : DmNo) (txn : TxnNo)
        (attempt : ℕ) (dm : DmNo) (by : ClassNo) (write : Ts) (sends : List (Site × Msg))
        → IsFreeClass given class
        → IsPermitted given
        (Does (D d) (Records class (Rejected txn attempt dm by write) sends) ∷ log) → ⊥ }
{}

/// A READ of a free class is answered, and a WRITE of one applied, before the event is over in
/// which it is handed over.
pub fn law_free_processed()
    ensures answered { (given : Input) (class : ℕ) (d : DmNo) (from : Site) (number : ℕ)
        (later log : Log) (ts : Ts) (of : ClassNo) (txn : TxnNo) (attempt : ℕ)
        (conds : List Cond) (uses : List Use)
        → IsFreeClass given class → 1 ≤ d.0 → d.0 ≤ given.catalogue.dms → of.0 ≡ class
        → EndsAnEvent given
        (later ++ Hand from (D d) number (Read ts of txn attempt conds uses) ∷ log)
        → IsAnsweredIn d class txn attempt later }
    ensures applied { (given : Input) (class : ℕ) (d : DmNo) (from : Site) (number : ℕ)
        (later log : Log) (ts : Ts) (of : ClassNo) (txn : TxnNo) (changes : List Change)
        → IsFreeClass given class → 1 ≤ d.0 → d.0 ≤ given.catalogue.dms → of.0 ≡ class
        → EndsAnEvent given (later ++ Hand from (D d) number (Write ts of txn changes) ∷ log)
        → IsAppliedIn d class txn ts later }
{}

/// Where an event is over, a class whose site takes part and isn't on hold has nothing in its queue
/// while it is idle: the head of its queue starts at once. At a site that is down it waits.
pub fn law_idle_starts()
    ensures { (given : Input) (class : ℕ) (log : Log) → EndsAnEvent given log
        → IsClassOf given.catalogue class → takes_part (home given.catalogue class) log ≡ true
        → on_hold (view_of (setting_of given (home given.catalogue class))
        (local_of given (home given.catalogue class) log)) ≡ false
        → active (setting_of given (home given.catalogue class)) class
        (local_of given (home given.catalogue class) log) ≡ None
        → queue (setting_of given (home given.catalogue class)) class
        (local_of given (home given.catalogue class) log) ≡ [] }
{}
