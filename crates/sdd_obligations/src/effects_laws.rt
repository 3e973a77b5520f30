ghost use Rattle.std.specs.Prelude.{◌≡◌, ℕ, List, map, Some};
ghost use Rattle.std.specs.List.{All, IsDistinct};
ghost use Rattle.std.specs.Ordering.{is_eq};
ghost use Rattle.sdd_invariants.specs.All.{Change, ClassNo, D, DmNo, FitsChange, Input, IsDatabase, IsPermitted, Log, Site, Ts, TxnNo, Write, base_of, item_cmp, message_at, setting_of};
ghost use Rattle.sdd_needs.specs.Inputs.{FitsInput};

/// Each database of snapshots is a database of the catalogue.
pub fn law_databases()
    ensures { (given : Input) (log : Log) → FitsInput given → IsPermitted given log
        → (ts : ℕ) → IsDatabase given.catalogue (base_of given log ts) }
{}

/// The changes of a WRITE that was put on the link to a data module are of different items; the
/// module has a copy of the fragment of each, and the row that it leaves has its key.
pub fn law_writes()
    ensures items { (given : Input) (log : Log) (from : Site) (d : DmNo) (n : ℕ) (ts : Ts)
        (class : ClassNo) (txn : TxnNo) (changes : List Change)
        → FitsInput given → IsPermitted given log
        → message_at from (D d) n log ≡ Some (Write ts class txn changes)
        → IsDistinct (λ x y. is_eq (item_cmp x y)) (map (λ x. (x.frag.0, x.key)) changes) }
    ensures each { (given : Input) (log : Log) (from : Site) (d : DmNo) (n : ℕ) (ts : Ts)
        (class : ClassNo) (txn : TxnNo) (changes : List Change)
        → FitsInput given → IsPermitted given log
        → message_at from (D d) n log ≡ Some (Write ts class txn changes)
        → All (FitsChange (setting_of given (D d))) changes }
{}
