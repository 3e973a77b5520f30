//! Another class list is put in force in a world, once its links are quiet.
ghost use Rattle.std.specs.Prelude.{IfOk, IsErrOf};
ghost use Rattle.sdd_sites.specs.needs.All.{Input, Log};
ghost use Rattle.sdd_world.specs.Represents.{EndsBy, Redeclaring, Represents};

use crate::world::World;
use sdd_catalog::Catalogue;
use sdd_sites::{Table, WorldEnd};

impl<'a> World<'a> {
    /// Puts a class list in force at all transaction modules, at the greatest bound of their
    /// clocks. It is an event, with a number and no record.
    pub(crate) fn put_in_force(
        &mut self,
        catalogue: &'a Catalogue,
        table: &'a Table,
    ) -> Result<(), WorldEnd>
        requires { (g : Input) × (log : Log) × Redeclaring self.old g log
            (record { catalogue = catalogue.now; table = table.now }) }
        ensures ok { IfOk result (λ _. (g : Input) (log : Log) → Redeclaring self.old g log
            (record { catalogue = catalogue.now; table = table.now })
            → (more : Log) × Represents self.new g more) }
        ensures limit { IsErrOf result WorldEnd.Limit → (g : Input) (log : Log)
            → Redeclaring self.old g log (record { catalogue = catalogue.now; table = table.now })
            → EndsBy g }
    {
        if self.marks == u32::MAX {
            return Err(WorldEnd::Limit);
        }
        self.marks += 1;
        let t = self.sites.greatest_bound(self.catalogue);
        self.sites.put_in_force(catalogue, table, t);
        self.catalogue = catalogue;
        Ok(())
    }
}
