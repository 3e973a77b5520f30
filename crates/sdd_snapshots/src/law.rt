ghost use Rattle.sdd_snapshots.specs.Theorems.{SnapshotsByTable, SnapshotsLeaveNoCycle};

/// A law: where no read of a conflict graph has P3, transactions that each read one database as it is
/// when they begin, of each class one at a time, have no cycle of precedence. So for such classes
/// snapshot isolation is enough. Takes no memory.
pub fn law_snapshots_leave_no_cycle()
    ensures by_graph { SnapshotsLeaveNoCycle }
    ensures by_table { SnapshotsByTable }
{}
