ghost use Rattle.std.specs.Prelude.{◌≡◌, [], ◌∷◌};
ghost use Rattle.sdd_laws.specs.All.{misses_both, reads_before, serial_order, starts_again, txn_no, waits_at_two, waits_for_other};
ghost use Rattle.sdd_history_examples.specs.Catalogues.{bridge, one_reader, crossing, one_class, one_writer, both_classes, one_era, two_eras};
ghost use Rattle.sdd_history_examples.specs.Histories.{one_after_other, runs_alone, redeclares};
ghost use Rattle.sdd_history_examples.specs.Keeping.{KeepsAll, BreaksConditions};
ghost use Rattle.sdd_history_examples.specs.Texts.{put_and_query, rows_of_two, two_puts_and_query, two_of_both, query_and_put, two_of_one_class, undeclared_between, put_then_query};

/// Keeps the laws: a put and a query, which is answered before the put comes to its module. The
/// conflict graph has no cycle, and nobody waits. Takes no memory.
pub fn law_reads_before()
    ensures keeps { KeepsAll bridge (one_era bridge) [] put_and_query reads_before }
    ensures order { serial_order bridge reads_before ≡ txn_no 2 ∷ txn_no 1 ∷ [] }
{}

/// Keeps the laws: a query of two modules, which waits at both for the puts that are up to its time.
/// Takes no memory.
pub fn law_waits_at_two()
    ensures keeps { KeepsAll one_reader (one_era one_reader) rows_of_two two_puts_and_query waits_at_two }
    ensures order { serial_order one_reader waits_at_two ≡ txn_no 1 ∷ txn_no 2 ∷ [] }
{}

/// Keeps the laws: each of two transactions reads what the other writes, and the second waits for the
/// first. Takes no memory.
pub fn law_waits_for_other()
    ensures keeps { KeepsAll crossing (one_era crossing) [] two_of_both waits_for_other }
    ensures order { serial_order crossing waits_for_other ≡ txn_no 1 ∷ txn_no 2 ∷ [] }
{}

/// Keeps the laws: a query that comes after a later put is rejected, and starts again. Takes no memory.
pub fn law_starts_again()
    ensures keeps { KeepsAll crossing (one_era crossing) [] query_and_put starts_again }
    ensures order { serial_order crossing starts_again ≡ txn_no 2 ∷ txn_no 1 ∷ [] }
{}

/// Keeps the laws: two transactions of one class, of which the second starts when the first is
/// committed, and sees what it changed. Takes no memory.
pub fn law_one_after_other()
    ensures keeps { KeepsAll one_class (one_era one_class) [] two_of_one_class one_after_other }
    ensures order { serial_order one_class one_after_other ≡ txn_no 1 ∷ txn_no 2 ∷ [] }
{}

/// Keeps the laws: a transaction that no class covers runs alone, after a put and before the next.
/// Takes no memory.
pub fn law_runs_alone()
    ensures keeps { KeepsAll one_writer (one_era one_writer) [] undeclared_between runs_alone }
    ensures order { serial_order one_writer runs_alone ≡ txn_no 1 ∷ txn_no 2 ∷ txn_no 3 ∷ [] }
{}

/// Keeps the laws: a further class list is in force when what was submitted before is done.
/// Takes no memory.
pub fn law_redeclares()
    ensures keeps { KeepsAll both_classes two_eras [] put_then_query redeclares }
    ensures order { serial_order both_classes redeclares ≡ txn_no 1 ∷ txn_no 2 ∷ [] }
{}

/// Read conditions are needed: a history that keeps every other law, in which two transactions precede
/// one another, so that it has no serial order. Takes no memory.
pub fn law_conditions_needed()
    ensures { BreaksConditions crossing (one_era crossing) [] two_of_both misses_both }
{}
