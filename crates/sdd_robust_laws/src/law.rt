ghost use Rattle.sdd_robust_laws.specs.Theorems.{ShownIsRobust};

use sdd_lang::Catalogue;

/// A law: where no transaction of a workload is dangerous, each run of them under snapshot isolation,
/// each any number of times, has an order in which one database that runs them one after the other
/// gives their replies, and is left with the same rows. Takes no memory.
pub fn law_robust(catalogue: &Catalogue)
    ensures { ShownIsRobust catalogue.now }
{
    catalogue.law_is_sound();
}
