ghost use Rattle.sdd_progress.specs.Theorems.{DiagonalsListed, NoneWaits, NoPathToWriter, TableFits};

/// A law: the graph of waits of a catalogue's protocol table fits the block numbers of its conflict
/// graph. Takes no memory.
#[tactic(auto, using(crate::proofs::TableFits::table_fits))]
pub fn law_table_fits()
    ensures { TableFits }
{}

/// A law: each diagonal of the table with protocol P2 or P3 is one of the graph of waits. Takes no
/// memory.
#[tactic(auto, using(crate::proofs::ListedDiagonals::diagonals_listed))]
pub fn law_diagonals_listed()
    ensures { DiagonalsListed }
{}

/// A law: in a graph of waits that fits its block numbers no arcs lead from the reader of a P2
/// diagonal to its writer. Takes no memory.
#[tactic(auto, using(crate::proofs::Paths::no_path_to_writer))]
pub fn law_no_path_to_writer()
    ensures { NoPathToWriter }
{}

/// A law: over a graph of waits that fits its block numbers, if each READ that waits has the times
/// of a Start and waits because of another one that waits, no READ waits. Takes no memory.
pub fn law_no_ring_waits()
    ensures { NoneWaits }
{}
