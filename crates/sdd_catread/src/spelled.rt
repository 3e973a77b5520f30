ghost use Rattle.std.specs.Prelude.{Result};
ghost use Rattle.toml.specs.Data.{Data};
ghost use Rattle.toml.specs.View.{view as data_of};
ghost use Rattle.sdd_catalog.specs.declared.fault.CatFault.{CatFault};
ghost use Rattle.sdd_catread.specs.declared.location.Location.{Location as LocationOf};
ghost use Rattle.sdd_base.specs.Readings.{GivesReading};
ghost use Rattle.sdd_catalog.specs.Rules.{fault_in};
ghost use Rattle.sdd_catread.specs.Values.{whole_of, name_of};

use crate::fields::{name, whole};
use crate::location::Location;
use sdd_base::Name;
use sdd_catalog::CatError;
use std::alloc::Global;
use toml::Value;

/// What a value of the file spells.
pub(crate) trait Spelled: Sized + Drop {
    /// What the value at a location spells, or its first fault.
    ghost spelled: { LocationOf → Data → Result Self CatFault };

    fn read(alloc: Global, location: Location, value: &Value) -> Result<Self, CatError>
        ensures { GivesReading fault_in (λ x. x) result (spelled location (data_of value.now)) };
}

impl Spelled for u32 {
    ghost spelled = { whole_of };

    fn read(_alloc: Global, location: Location, value: &Value) -> Result<Self, CatError> {
        whole(location, value)
    }
}

impl Spelled for Name {
    ghost spelled = { name_of };

    fn read(alloc: Global, location: Location, value: &Value) -> Result<Self, CatError> {
        name(alloc, location, value)
    }
}
