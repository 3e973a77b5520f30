ghost use Rattle.sdd_catread.specs.Form.{column_at, relation_at, fragment_at, read_at, class_at};

use crate::fields::{field, key_or, kind, name, only, table, whole};
use crate::lists::{list, list_or_none};
use crate::location::Location;
use crate::spelled::Spelled;
use sdd_catalog::{CatError, ClassPart, ColumnPart, FragmentPart, ReadPart, RelationPart};
use std::alloc::Global;
use toml::Value;

impl Spelled for ColumnPart {
    ghost spelled = { column_at };

    #[tactic(auto, unfolding(crate::specs::Form::column_at))]
    fn read(alloc: Global, location: Location, value: &Value) -> Result<Self, CatError> {
        let fields = table(location, value)?;
        only(location, fields, &["name", "kind"])?;
        Ok(ColumnPart {
            name: name(alloc, location, field(location, fields, "name")?)?,
            kind: kind(location, field(location, fields, "kind")?)?,
        })
    }
}

impl Spelled for RelationPart {
    ghost spelled = { relation_at };

    #[tactic(auto, unfolding(crate::specs::Form::relation_at))]
    fn read(alloc: Global, location: Location, value: &Value) -> Result<Self, CatError> {
        let fields = table(location, value)?;
        only(location, fields, &["name", "columns", "key"])?;
        Ok(RelationPart {
            name: name(alloc, location, field(location, fields, "name")?)?,
            columns: list(alloc, location, field(location, fields, "columns")?)?,
            key: name(alloc, location, field(location, fields, "key")?)?,
        })
    }
}

impl Spelled for FragmentPart {
    ghost spelled = { fragment_at };

    #[tactic(auto, unfolding(crate::specs::Form::fragment_at))]
    fn read(alloc: Global, location: Location, value: &Value) -> Result<Self, CatError> {
        let fields = table(location, value)?;
        only(
            location,
            fields,
            &["name", "relation", "from", "to", "copies"],
        )?;
        Ok(FragmentPart {
            name: name(alloc, location, field(location, fields, "name")?)?,
            relation: name(alloc, location, field(location, fields, "relation")?)?,
            from: key_or(location, fields, "from", i64::MIN)?,
            to: key_or(location, fields, "to", i64::MAX)?,
            copies: list(alloc, location, field(location, fields, "copies")?)?,
        })
    }
}

impl Spelled for ReadPart {
    ghost spelled = { read_at };

    #[tactic(auto, unfolding(crate::specs::Form::read_at))]
    fn read(alloc: Global, location: Location, value: &Value) -> Result<Self, CatError> {
        let fields = table(location, value)?;
        only(location, fields, &["fragment", "at"])?;
        Ok(ReadPart {
            fragment: name(alloc, location, field(location, fields, "fragment")?)?,
            at: whole(location, field(location, fields, "at")?)?,
        })
    }
}

impl Spelled for ClassPart {
    ghost spelled = { class_at };

    #[tactic(auto, unfolding(crate::specs::Form::class_at))]
    fn read(alloc: Global, location: Location, value: &Value) -> Result<Self, CatError> {
        let fields = table(location, value)?;
        only(location, fields, &["name", "tm", "reads", "writes"])?;
        Ok(ClassPart {
            name: name(alloc, location, field(location, fields, "name")?)?,
            tm: whole(location, field(location, fields, "tm")?)?,
            reads: list_or_none(alloc, location, fields, "reads")?,
            writes: list_or_none(alloc, location, fields, "writes")?,
        })
    }
}
