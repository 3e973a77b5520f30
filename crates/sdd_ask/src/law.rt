ghost use Rattle.sdd_ask.specs.Enough.{EnoughLeavesNoCycle};

/// A law: where the answer is that snapshot isolation is enough, transactions of the catalogue's
/// classes that run under it on one database, of each class one at a time, have no cycle of precedence.
/// Takes no memory.
pub fn law_enough()
    ensures { EnoughLeavesNoCycle }
{}
