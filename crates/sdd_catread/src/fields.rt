ghost use Rattle.std.specs.Prelude.{◌≡◌, Ok, map, option_map, string_bytes};
ghost use Rattle.std.specs.List.{list_any, list_all};
ghost use Rattle.std.specs.Map.{keys_of};
ghost use Rattle.std.specs.Str.{bytes_eq};
ghost use Rattle.toml.specs.View.{view as data_of, table_view};
ghost use Rattle.toml.specs.Data.{get_member};
ghost use Rattle.sdd_base.specs.Readings.{GivesReading};
ghost use Rattle.sdd_catalog.specs.Rules.{fault_in};
ghost use Rattle.sdd_catread.specs.Values.{table_of, only, present, whole_of, key_of, key_or, name_in, name_of, kind_in, kind_of, elements_of, is_table, array_of_tables, tables_or_none};

use crate::location::Location;
use sdd_base::Name;
use sdd_catalog::{CatError, CatRule, Kind};
use std::alloc::Global;
use toml::{Table, Value};

/// The fields of a table.
pub(crate) fn table(location: Location, value: &Value) -> Result<&Table, CatError>
    ensures { GivesReading fault_in (λ t. table_view t.now) result (table_of location (data_of value.now)) }
{
    match value {
        Value::Table(fields) => Ok(fields),
        _ => Err(location.breaks(CatRule::WrongKind)),
    }
}

fn is_listed(key: &str, names: &[&str]) -> bool
    ensures { result ≡ list_any (λ n. bytes_eq key.now n.now) names.now }
{
    names.iter().any(|name| key == *name)
}

fn has_only(table: &Table, names: &[&str]) -> bool
    ensures { result ≡ list_all (λ k. list_any (λ n. bytes_eq (string_bytes k) n.now) names.now) (keys_of table.now.entries) }
{
    table.keys().all(|key| is_listed(key.as_str(), names))
}

/// Refuses a table with a field that isn't listed.
pub(crate) fn only(location: Location, table: &Table, names: &[&str]) -> Result<(), CatError>
    ensures { GivesReading fault_in (λ _. table_view table.now) result (only location (map (λ n. n.now) names.now) (table_view table.now)) }
{
    if has_only(table, names) {
        Ok(())
    } else {
        Err(location.breaks(CatRule::UnknownField))
    }
}

/// The field, where it is there.
pub(crate) fn find<'a>(table: &'a Table, key: &str) -> Option<&'a Value>
    ensures { option_map (λ v. data_of v.now) result ≡ get_member key.now (table_view table.now) }
{
    table.get(key)
}

/// The field, which may not be absent.
pub(crate) fn field<'a>(
    location: Location,
    table: &'a Table,
    key: &str,
) -> Result<&'a Value, CatError>
    ensures { GivesReading fault_in (λ v. data_of v.now) result (present location (get_member key.now (table_view table.now))) }
{
    match find(table, key) {
        Some(value) => Ok(value),
        None => Err(location.breaks(CatRule::MissingField)),
    }
}

/// A whole number from 0 to 4294967295.
pub(crate) fn whole(location: Location, value: &Value) -> Result<u32, CatError>
    ensures { GivesReading fault_in (λ n. n) result (whole_of location (data_of value.now)) }
{
    match value {
        Value::Integer(number) => match u32::try_from(*number) {
            Ok(number) => Ok(number),
            Err(_) => Err(location.breaks(CatRule::WrongKind)),
        },
        _ => Err(location.breaks(CatRule::WrongKind)),
    }
}

fn key(location: Location, value: &Value) -> Result<i64, CatError>
    ensures { GivesReading fault_in (λ k. k) result (key_of location (data_of value.now)) }
{
    match value {
        Value::Integer(number) => Ok(*number),
        _ => Err(location.breaks(CatRule::WrongKind)),
    }
}

/// The field, which is a key's value, or what its absence means.
pub(crate) fn key_or(
    location: Location,
    table: &Table,
    name: &str,
    absent: i64,
) -> Result<i64, CatError>
    ensures { GivesReading fault_in (λ k. k) result (key_or location absent (get_member name.now (table_view table.now))) }
{
    match find(table, name) {
        Some(value) => key(location, value),
        None => Ok(absent),
    }
}

fn spelled_name(alloc: Global, location: Location, text: &str) -> Result<Name, CatError>
    ensures { GivesReading fault_in (λ n. n) result (name_in location text.now) }
{
    match Name::new(alloc, text)? {
        Some(name) => Ok(name),
        None => Err(location.breaks(CatRule::WrongKind)),
    }
}

/// A name.
pub(crate) fn name(alloc: Global, location: Location, value: &Value) -> Result<Name, CatError>
    ensures { GivesReading fault_in (λ n. n) result (name_of location (data_of value.now)) }
{
    match value {
        Value::String(text) => spelled_name(alloc, location, text.as_str()),
        _ => Err(location.breaks(CatRule::WrongKind)),
    }
}

fn spelled_kind(location: Location, word: &str) -> Result<Kind, CatError>
    ensures { GivesReading fault_in (λ k. k) result (kind_in location word.now) }
{
    if word == "int" {
        Ok(Kind::Int)
    } else if word == "text" {
        Ok(Kind::Text)
    } else {
        Err(location.breaks(CatRule::WrongKind))
    }
}

/// The kind of a column.
pub(crate) fn kind(location: Location, value: &Value) -> Result<Kind, CatError>
    ensures { GivesReading fault_in (λ k. k) result (kind_of location (data_of value.now)) }
{
    match value {
        Value::String(word) => spelled_kind(location, word.as_str()),
        _ => Err(location.breaks(CatRule::WrongKind)),
    }
}

/// The elements of an array.
pub(crate) fn elements(location: Location, value: &Value) -> Result<&[Value], CatError>
    ensures { GivesReading fault_in (λ vs. map data_of vs.now) result (elements_of location (data_of value.now)) }
{
    match value {
        Value::Array(values) => Ok(values.as_slice()),
        _ => Err(location.breaks(CatRule::WrongKind)),
    }
}

fn all_tables(values: &[Value]) -> bool
    ensures { result ≡ list_all (λ v. is_table (data_of v)) values.now }
{
    values.iter().all(|value| value.is_table())
}

#[tactic(auto, using(crate::proofs::Views::list_all_map))]
fn array_of_tables(location: Location, value: &Value) -> Result<&[Value], CatError>
    ensures { GivesReading fault_in (λ vs. map data_of vs.now) result (array_of_tables location (data_of value.now)) }
{
    let tables = elements(location, value)?;
    if all_tables(tables) {
        Ok(tables)
    } else {
        Err(location.breaks(CatRule::WrongKind))
    }
}

/// The field, which is an array of tables, and empty where it is absent.
pub(crate) fn tables<'a>(
    location: Location,
    table: &'a Table,
    name: &str,
) -> Result<&'a [Value], CatError>
    ensures { GivesReading fault_in (λ vs. map data_of vs.now) result (tables_or_none location (get_member name.now (table_view table.now))) }
{
    match find(table, name) {
        Some(value) => array_of_tables(location, value),
        None => Ok(&[]),
    }
}
