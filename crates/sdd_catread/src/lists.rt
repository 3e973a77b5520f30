ghost use Rattle.std.specs.Prelude.{◌≡◌, map};
ghost use Rattle.toml.specs.View.{view as data_of, table_view};
ghost use Rattle.toml.specs.Data.{get_member};
ghost use Rattle.sdd_base.specs.Readings.{GivesReading, along};
ghost use Rattle.sdd_catalog.specs.Rules.{fault_in};
ghost use Rattle.sdd_catread.specs.Faults.{numbered};
ghost use Rattle.sdd_catread.specs.Form.{list_of, list_or_none};

use crate::fields::{elements, find};
use crate::location::Location;
use crate::spelled::Spelled;
use sdd_base::Listed;
use sdd_catalog::{CatError, Part};
use std::alloc::Global;
use toml::{Table, Value};

fn read_each<T: Spelled>(
    alloc: Global,
    location: Location,
    values: &[Value],
) -> Result<Listed<T>, CatError>
    ensures { GivesReading fault_in (λ l. l) result (along (λ _. T.spelled location) 1 (map data_of values.now)) }
{
    let mut items = Vec::new(alloc);
    'values: for value in values {
        items.push(T::read(alloc, location, value)?)?;
    }
    Ok(Listed::from_vec(items))
}

/// The parts that tables spell, each of which is a location of its own.
pub(crate) fn read_parts<T: Spelled>(
    alloc: Global,
    part: Part,
    tables: &[Value],
) -> Result<Listed<T>, CatError>
    ensures { GivesReading fault_in (λ l. l) result (numbered T.spelled part (map data_of tables.now)) }
{
    let mut items = Vec::new(alloc);
    'tables: for (index, table) in tables.iter().enumerate() {
        let location = Location::at_index(part, index);
        items.push(T::read(alloc, location, table)?)?;
    }
    Ok(Listed::from_vec(items))
}

/// What the elements of an array spell.
pub(crate) fn list<T: Spelled>(
    alloc: Global,
    location: Location,
    value: &Value,
) -> Result<Listed<T>, CatError>
    ensures { GivesReading fault_in (λ l. l) result (list_of T.spelled location (data_of value.now)) }
{
    read_each(alloc, location, elements(location, value)?)
}

/// What the elements of the field spell. There are none where it is absent.
pub(crate) fn list_or_none<T: Spelled>(
    alloc: Global,
    location: Location,
    table: &Table,
    name: &str,
) -> Result<Listed<T>, CatError>
    ensures { GivesReading fault_in (λ l. l) result (list_or_none T.spelled location (get_member name.now (table_view table.now))) }
{
    match find(table, name) {
        Some(value) => list(alloc, location, value),
        None => Ok(Listed::from_vec(Vec::new(alloc))),
    }
}
