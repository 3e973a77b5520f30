ghost use Rattle.std.specs.Prelude.{◌≡◌, IfOk, Ok};
ghost use Rattle.toml.specs.View.{table_view};
ghost use Rattle.sdd_catalog.specs.Catalogue.{parts_of};
ghost use Rattle.sdd_base.specs.Readings.{GivesReading};
ghost use Rattle.sdd_catalog.specs.Rules.{fault_in};
ghost use Rattle.sdd_catread.specs.Form.{parts_at};
ghost use Rattle.sdd_catread.specs.Reading.{parts_in, catalogue_in};

use crate::fields::{field, only, tables, whole};
use crate::lists::read_parts;
use crate::location::Location;
use sdd_base::MAX_CATALOGUE_BYTES;
use sdd_catalog::{CatError, CatRule, Catalogue, Part, Parts};
use std::alloc::Global;
use toml::Table;

#[tactic(auto, unfolding(crate::specs::Form::parts_at))]
fn parts(alloc: Global, fields: &Table) -> Result<Parts, CatError>
    ensures { GivesReading fault_in (λ p. p) result (parts_at (table_view fields.now)) }
{
    let top = Location {
        part: Part::Top,
        number: 0,
    };
    only(
        top,
        fields,
        &["tms", "dms", "relation", "fragment", "class"],
    )?;
    let tms = whole(top, field(top, fields, "tms")?)?;
    let dms = whole(top, field(top, fields, "dms")?)?;
    let relations = tables(top, fields, "relation")?;
    let fragments = tables(top, fields, "fragment")?;
    let classes = tables(top, fields, "class")?;
    Ok(Parts {
        tms,
        dms,
        relations: read_parts(alloc, Part::Relation, relations)?,
        fragments: read_parts(alloc, Part::Fragment, fragments)?,
        classes: read_parts(alloc, Part::Class, classes)?,
    })
}

#[tactic(auto, unfolding(crate::specs::Reading::parts_in), using(crate::proofs::Views::document_of_slice, crate::proofs::Views::no_document))]
fn parts_in(alloc: Global, bytes: &[u8]) -> Result<Parts, CatError>
    ensures { GivesReading fault_in (λ p. p) result (parts_in bytes.now) }
{
    let top = Location {
        part: Part::Top,
        number: 0,
    };
    if bytes.len() > MAX_CATALOGUE_BYTES {
        return Err(top.breaks(CatRule::TooLong));
    }
    match toml::table_from_slice(alloc, bytes) {
        Ok(fields) => parts(alloc, &fields),
        Err(e) if e.is_memory() => Err(CatError::NoMemory),
        Err(_) => Err(top.breaks(CatRule::NotToml)),
    }
}

/// The catalogue that a TOML file of these bytes gives, or its first fault: of its length, of
/// TOML's grammar, of the form of its tables, and at last of what its parts say of each other.
///
/// Costs the reading of the TOML, and what `Catalogue::build` does.
#[tactic(auto, unfolding(crate::specs::Reading::catalogue_in))]
pub fn read_catalogue(alloc: Global, bytes: &[u8]) -> Result<Catalogue, CatError>
    ensures exact { GivesReading fault_in (λ built. built) result (catalogue_in bytes.now) }
    ensures parts { IfOk result (λ built. parts_in bytes.now ≡ Ok (parts_of built)) }
{
    let parts = parts_in(alloc, bytes)?;
    Catalogue::build(alloc, &parts)
}
