//! The laws of reading and writing, which hold of every catalogue.
ghost use Rattle.sdd_script.specs.Laws.{ReadsAgain, ReadsSpelling};

use sdd_lang::Catalogue;

/// Reading and spelling are inverse: the spelling of each workload that the catalogue allows is
/// read as this workload, and each file that is read spells what it is read as, which the catalogue
/// allows. Takes no time and no memory.
pub fn law_round_trip(catalogue: &Catalogue)
    ensures again { ReadsAgain catalogue.now }
    ensures spelled { ReadsSpelling catalogue.now }
{
    catalogue.law_is_sound();
}
