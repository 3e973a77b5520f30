ghost use Rattle.sdd_advise.specs.Laws.{AdvicesSayTheTable, GoodAdviceIsRight};

use sdd_catalog::Catalogue;

/// A law of every catalogue: good advice for a diagonal says the protocol that the table says. Takes no
/// memory.
pub fn law_good_advice_is_right(catalogue: &Catalogue)
    ensures { GoodAdviceIsRight catalogue.now }
{}

/// A law of every catalogue: good advice for all diagonals, in their order, says what the table says of
/// its diagonals. Takes no memory.
pub fn law_advices_say_the_table(catalogue: &Catalogue)
    ensures { AdvicesSayTheTable catalogue.now }
{}
