ghost use Rattle.std.specs.Prelude.{◌≡◌, ◌≤◌, ◌++◌, ◌∷◌, ℕ, List, Some, true};
ghost use Rattle.sdd_obligations.specs.invariants.All.{Change, ClassNo, Cond, D, Did, DmNo, Does, Each, Input, IsDueEach, IsPermitted, IsSoundCatalogue, Log, Msg, Read, Rec, Records, Setting, Site, Ts, TxnNo, Use, Wait, Write, head, home, is_processing, number_of, pipe_at, waits};
ghost use Rattle.sdd_obligations.specs.graph.Edges.{IsClassOf};
ghost use Rattle.sdd_obligations.specs.history.declared.record.Rec.TheVariants.{Reject as Rejected};
ghost use Rattle.sdd_obligations.specs.site_module.SiteLog as site;
ghost use Rattle.sdd_obligations.specs.dm.Due.{holds_back};
ghost use Rattle.sdd_progress.specs.Rejections.{IsAnswerOf, IsRejectOf};

/// A READ is rejected only where a WRITE at or after the time of one of its conditions, of the
/// class that the condition names and changing a fragment that it names, was processed there
/// before.
pub fn law_rejected()
    ensures { (given : Input) (log : Log) (d : DmNo) (class : ℕ) (txn : TxnNo) (attempt : ℕ)
        (dm : DmNo) (by : ClassNo) (write : Ts) (sends : List (Site × Msg))
        → IsPermitted given
        (Does (D d) (Records class (Rejected txn attempt dm by write) sends) ∷ log)
        → IsRejectOf given log d class txn attempt by write }
{}

/// A READ that waits is never rejected: what processes it is its Answer; and an attempt that had a
/// Wait at a module has no Reject there.
pub fn law_not_rejected()
    ensures processed { (setting : Setting) (class : ℕ) (log : site.Log) (rec : Rec)
        (sends : List (Site × Msg))
        → Each (IsDueEach setting) (Did (Records class rec sends) ∷ log)
        → waits class log ≡ true → is_processing rec ≡ true → IsAnswerOf class log rec }
    ensures never_both { (given : Input) (d : DmNo) (class : ℕ) (later before : Log)
        (txn other : TxnNo) (attempt another : ℕ) (dm dm2 : DmNo) (conds : List Cond)
        (by : ClassNo) (write : Ts) (sends more : List (Site × Msg))
        → IsPermitted given
        (Does (D d) (Records class (Rejected other another dm2 by write) more)
        ∷ (later ++ Does (D d) (Records class (Wait txn attempt dm conds) sends) ∷ before))
        → number_of (home given.catalogue class) ≤ 63
        → txn.0 ≡ other.0 → attempt ≡ another → ⊥ }
{}

/// A READ of an undeclared transaction is never rejected, and holds no WRITE of a declared class
/// back.
pub fn law_undeclared()
    ensures rejected_never { (given : Input) (log : Log) (d : DmNo) (txn : TxnNo) (attempt : ℕ)
        (dm : DmNo) (by : ClassNo) (write : Ts) (sends : List (Site × Msg))
        → IsSoundCatalogue given.catalogue → 1 ≤ d.0 → d.0 ≤ given.catalogue.dms
        → IsPermitted given (Does (D d) (Records 0 (Rejected txn attempt dm by write) sends) ∷ log)
        → ⊥ }
    ensures holds_none { (given : Input) (class : ℕ) (d : DmNo) (log : Log) (ts : Ts)
        (of : ClassNo) (txn : TxnNo) (attempt : ℕ) (conds : List Cond) (uses : List Use)
        (write : Ts) (of_write : ClassNo) (writer : TxnNo) (changes : List Change)
        → IsPermitted given log → IsSoundCatalogue given.catalogue → IsClassOf given.catalogue class
        → 1 ≤ d.0 → d.0 ≤ given.catalogue.dms
        → head (pipe_at given 0 d log) ≡ Some (Read ts of txn attempt conds uses)
        → head (pipe_at given class d log) ≡ Some (Write write of_write writer changes)
        → holds_back class write.0 changes (Some (Read ts of txn attempt conds uses)) ≡ true → ⊥ }
{}
