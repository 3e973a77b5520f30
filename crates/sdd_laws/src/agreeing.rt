//! Copies of modules that began with different rows.
ghost use Rattle.std.specs.Prelude.{ℕ, ◌≡◌, List};
ghost use Rattle.sdd_lang.specs.All.{Catalogue, RelNo, Row};
ghost use Rattle.sdd_history.specs.Records.{History};
ghost use Rattle.sdd_laws.specs.Agreeing.{AgreeOnFragment};
ghost use Rattle.sdd_laws.specs.Copied.{AreAppliedAlike};
ghost use Rattle.sdd_laws.specs.Snapshots.{copy_at};

/// Equal copies, also of modules that began with different rows: two copies of a fragment are equal
/// where the first rows of the two modules agree on it, and of the transactions that change it the
/// same are applied. Takes no memory.
pub fn law_agreeing_copies()
    ensures { (catalogue : Catalogue) (mine other : List (RelNo × Row)) (h : History) (f a j b k : ℕ)
        → AgreeOnFragment catalogue mine other f → AreAppliedAlike h f a j b k
        → copy_at catalogue mine h a j f ≡ copy_at catalogue other h b k f }
{}
