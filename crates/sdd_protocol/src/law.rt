ghost use Rattle.sdd_protocol.specs.Laws.{OneBlock, OneProtocol, OneTable};

use sdd_catalog::Catalogue;

/// A law of every catalogue: the diagonals of one reader and one writer lie in one block, and so have
/// one protocol. Takes no memory.
#[tactic(auto, using(crate::proofs::Laws::one_block, crate::proofs::Laws::one_protocol))]
pub fn law_one_protocol(catalogue: &Catalogue)
    ensures block { OneBlock catalogue.now }
    ensures protocol { OneProtocol catalogue.now }
{}

/// A law of every catalogue: it has one table. Takes no memory.
#[tactic(auto, using(crate::proofs::Laws::one_table))]
pub fn law_one_table(catalogue: &Catalogue)
    ensures { OneTable catalogue.now }
{}
