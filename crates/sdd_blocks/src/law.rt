ghost use Rattle.sdd_blocks.specs.Laws.{OneNumbering, OneNumberACycle, ClosedWalksAreCycles};

/// A law: a graph has one list of block numbers at most. Takes no memory.
#[tactic(auto, using(crate::proofs::OneNumbering::one_numbering))]
pub fn law_one_numbering()
    ensures { OneNumbering }
{}

/// A law: the edges of one simple cycle have one number, which isn't 0. Takes no memory.
#[tactic(auto, using(crate::proofs::CycleNumbers::one_number_a_cycle))]
pub fn law_one_number_a_cycle()
    ensures { OneNumberACycle }
{}

/// A law: a closed walk of two steps or more that meets no node twice is a simple cycle, unless it goes
/// along one edge and back. Takes no memory.
#[tactic(auto, using(crate::proofs::ClosedWalks::closed_walks_are_cycles))]
pub fn law_closed_walks_are_cycles()
    ensures { ClosedWalksAreCycles }
{}
