//! Laws of histories in pieces.
ghost use Rattle.std.specs.Prelude.{ℕ, ◌≡◌, ◌++◌, List};
ghost use Rattle.sdd_certify.specs.Pieces.{GoesOn, ServesBoth};
ghost use Rattle.sdd_script.specs.All.{Catalogue, Database, Txn, serial};
ghost use Rattle.sdd_script.specs.declared.workload.Workload.{Workload};
ghost use Rattle.sdd_verify.specs.Verified.{IsVerified};

/// Serial execution in two parts: what transactions reply is what the first of them reply, and then
/// what the others reply on the database that these left.
pub fn law_in_parts()
    ensures { (catalogue : Catalogue) (db : Database) (front rest : List Txn) → serial catalogue db (front ++ rest)
        ≡ (
          (serial catalogue db front).0 ++ (serial catalogue (serial catalogue db front).1 rest).0,
          (serial catalogue (serial catalogue db front).1 rest).1,
        ) }
{}

/// Two reports, the second of a workload that begins with the rows that the first report's order
/// leaves: where both are verified, one plain database that runs both orders, one after the other,
/// gives the replies of both. It is left as the second order leaves it, so that a third report can go
/// on there.
pub fn law_two_reports()
    ensures { (catalogue : Catalogue) (first next : Workload) (one two : List ℕ)
        → (v : IsVerified catalogue first one) → (w : IsVerified catalogue next two)
        → GoesOn catalogue first v.order next → ServesBoth catalogue first next v.order w.order }
{}
