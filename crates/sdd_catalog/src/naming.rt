ghost use Rattle.std.specs.Prelude.{ℕ, ◌≡◌, ◌≤◌, length, map, IfOk};
ghost use Rattle.std.specs.List.{All};
ghost use Rattle.sdd_catalog.specs.Names.{name_at};
ghost use Rattle.sdd_catalog.specs.Catalogue.{column_part, relation_part, fragment_part, read_part, class_part};
ghost use Rattle.sdd_catalog.specs.Numbers.{HasKey, NamesRelation, NamesFragments, AreRead, AreWritten};

use crate::named::name_at;
use crate::parts::{
    ClassPart, ClassParts, ColumnPart, ColumnParts, CopyNos, FragmentPart, FragmentParts, Names,
    ReadPart, ReadParts, RelationPart, RelationParts,
};
use crate::resolved::{Class, Column, Fragment, Read, Relation};
use sdd_base::{DmNo, FragNo, Listed, NoMemory, Parcel};
use std::alloc::Global;

fn name_column(column: &Column) -> Result<ColumnPart, NoMemory>
    ensures { IfOk result (λ part. part ≡ column_part column.now) }
{
    Ok(ColumnPart {
        name: column.name.copy()?,
        kind: column.kind,
    })
}

fn name_columns(alloc: Global, columns: &[Column]) -> Result<ColumnParts, NoMemory>
    ensures { IfOk result (λ parts. parts ≡ map column_part columns.now) }
{
    let mut parts = Vec::new(alloc);
    for column in columns {
        parts.push(name_column(column)?)?;
    }
    Ok(Listed::from_vec(parts))
}

fn name_relation(alloc: Global, relation: &Relation) -> Result<RelationPart, NoMemory>
    requires { HasKey relation.now }
    ensures { IfOk result (λ part. part ≡ relation_part relation.now) }
{
    let columns = relation.columns.as_slice();
    Ok(RelationPart {
        name: relation.name.copy()?,
        columns: name_columns(alloc, columns)?,
        key: name_at(columns, relation.key)?,
    })
}

/// The relations with the names of their keys.
pub(crate) fn name_relations(
    alloc: Global,
    relations: &[Relation],
) -> Result<RelationParts, NoMemory>
    requires { All HasKey relations.now }
    ensures { IfOk result (λ parts. parts ≡ map relation_part relations.now) }
{
    let mut parts = Vec::new(alloc);
    for relation in relations {
        parts.push(name_relation(alloc, relation)?)?;
    }
    Ok(Listed::from_vec(parts))
}

fn number_copies(alloc: Global, copies: &[DmNo]) -> Result<CopyNos, NoMemory>
    ensures { IfOk result (λ numbers. numbers ≡ map (λ d. d.0) copies.now) }
{
    let mut numbers = Vec::new(alloc);
    for copy in copies {
        numbers.push(u32::from(copy.0))?;
    }
    Ok(Listed::from_vec(numbers))
}

fn name_fragment(
    alloc: Global,
    relations: &[Relation],
    fragment: &Fragment,
) -> Result<FragmentPart, NoMemory>
    requires { NamesRelation (length relations.now) fragment.now }
    ensures { IfOk result (λ part. part ≡ fragment_part (map (λ r. r.name) relations.now) fragment.now) }
{
    Ok(FragmentPart {
        name: fragment.name.copy()?,
        relation: name_at(relations, fragment.rel.0)?,
        from: fragment.least,
        to: fragment.greatest,
        copies: number_copies(alloc, fragment.copies.as_slice())?,
    })
}

/// The fragments with the names of their relations.
pub(crate) fn name_fragments(
    alloc: Global,
    relations: &[Relation],
    fragments: &[Fragment],
) -> Result<FragmentParts, NoMemory>
    requires { All (NamesRelation (length relations.now)) fragments.now }
    ensures { IfOk result (λ parts. parts ≡ map (fragment_part (map (λ r. r.name) relations.now)) fragments.now) }
{
    let mut parts = Vec::new(alloc);
    for fragment in fragments {
        parts.push(name_fragment(alloc, relations, fragment)?)?;
    }
    Ok(Listed::from_vec(parts))
}

fn name_read(fragments: &[Fragment], read: Read) -> Result<ReadPart, NoMemory>
    requires from { 1 ≤ read.fragment.0 }
    requires to { read.fragment.0 ≤ length fragments.now }
    ensures { IfOk result (λ part. part ≡ read_part (map (λ f. f.name) fragments.now) read) }
{
    Ok(ReadPart {
        fragment: name_at(fragments, read.fragment.0)?,
        at: u32::from(read.at.0),
    })
}

fn name_reads(alloc: Global, fragments: &[Fragment], reads: &[Read]) -> Result<ReadParts, NoMemory>
    requires { AreRead (length fragments.now) reads.now }
    ensures { IfOk result (λ parts. parts ≡ map (read_part (map (λ f. f.name) fragments.now)) reads.now) }
{
    let mut parts = Vec::new(alloc);
    for read in reads {
        parts.push(name_read(fragments, *read)?)?;
    }
    Ok(Listed::from_vec(parts))
}

fn name_writes(alloc: Global, fragments: &[Fragment], writes: &[FragNo]) -> Result<Names, NoMemory>
    requires { AreWritten (length fragments.now) writes.now }
    ensures { IfOk result (λ names. names ≡ map (λ w. name_at (map (λ f. f.name) fragments.now) w.0) writes.now) }
{
    let mut names = Vec::new(alloc);
    for frag in writes {
        names.push(name_at(fragments, frag.0)?)?;
    }
    Ok(Listed::from_vec(names))
}

fn name_class(alloc: Global, fragments: &[Fragment], class: &Class) -> Result<ClassPart, NoMemory>
    requires { NamesFragments (length fragments.now) class.now }
    ensures { IfOk result (λ part. part ≡ class_part (map (λ f. f.name) fragments.now) class.now) }
{
    Ok(ClassPart {
        name: class.name.copy()?,
        tm: u32::from(class.tm.0),
        reads: name_reads(alloc, fragments, class.reads.as_slice())?,
        writes: name_writes(alloc, fragments, class.writes.as_slice())?,
    })
}

/// The classes with the names of the fragments that they read and write.
pub(crate) fn name_classes(
    alloc: Global,
    fragments: &[Fragment],
    classes: &[Class],
) -> Result<ClassParts, NoMemory>
    requires { All (NamesFragments (length fragments.now)) classes.now }
    ensures { IfOk result (λ parts. parts ≡ map (class_part (map (λ f. f.name) fragments.now)) classes.now) }
{
    let mut parts = Vec::new(alloc);
    for class in classes {
        parts.push(name_class(alloc, fragments, class)?)?;
    }
    Ok(Listed::from_vec(parts))
}
