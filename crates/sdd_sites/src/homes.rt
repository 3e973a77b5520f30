ghost use Rattle.std.specs.Prelude.{◌≡◌, Some};
ghost use Rattle.sdd_needs.specs.All.{Catalogue as OfCatalogue, class_for};
ghost use Rattle.sdd_needs.specs.lang.Fits.{FitsTxn};
ghost use Rattle.sdd_needs.specs.logs.Due.{home_of};

use sdd_base::{ClassNo, Site};
use sdd_catalog::Catalogue;
use sdd_lang::{Txn, class_for};

/// The site at which a transaction is submitted: that of its class. Costs what `class_for` does.
pub fn home(catalogue: &Catalogue, txn: &Txn) -> Site
    requires { FitsTxn catalogue.now txn.now }
    ensures { result ≡ home_of catalogue.now (Some txn.now) }
{
    home_in(txn, class_for(catalogue, txn))
}

/// The site at which a transaction of this class is submitted. Takes no memory.
pub fn home_in(txn: &Txn, class: ClassNo) -> Site
    ensures { (catalogue : OfCatalogue) → class.0 ≡ class_for catalogue txn.now
        → result ≡ home_of catalogue (Some txn.now) }
{
    if class.0 == 0 {
        Site::U
    } else {
        Site::T(txn.tm)
    }
}
