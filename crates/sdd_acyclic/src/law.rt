ghost use Rattle.sdd_acyclic.specs.Theorems.{ProtocolsLeaveNoCycle, ForestsLeaveNoCycle};
ghost use Rattle.sdd_catalog.specs.Catalogue.{Catalogue};
ghost use Rattle.sdd_protocol.specs.Protocols.{IsTable};
ghost use Rattle.sdd_protocol.specs.declared.entry.Entry.{Entry};
ghost use Rattle.std.specs.Prelude.{List};

/// A law: transactions of which each reader sees, of the writers of each block of the conflict graph,
/// exactly those below one time, and which run undeclared ones alone, have no cycle of precedence.
/// Takes no memory.
#[tactic(auto, using(crate::proofs::Theorems::protocols_leave_no_cycle))]
pub fn law_protocols_leave_no_cycle()
    ensures { ProtocolsLeaveNoCycle }
{}

/// A law: where the conflict graph has no simple cycle, transactions of declared classes have no cycle
/// of precedence, whatever the protocols. Takes no memory.
#[tactic(auto, using(crate::proofs::Theorems::forests_leave_no_cycle))]
pub fn law_forests_leave_no_cycle()
    ensures { ForestsLeaveNoCycle }
{}

/// A law: every catalogue has a protocol table. Takes no memory.
pub fn law_each_table()
    ensures { (catalogue : Catalogue) → (entries : List Entry) × IsTable catalogue entries }
{}
