ghost use Rattle.std.specs.Prelude.{◌≡◌, ◌<◌, ◌^◌, ◌-◌, length, map, IfOk, All};
ghost use Rattle.sdd_catalog.specs.Names.{number_of};
ghost use Rattle.sdd_catalog.specs.Catalogue.{column_of, relation_of, fragment_from, read_of, class_of, relation_names, fragment_names};
ghost use Rattle.sdd_base.specs.Name.{IsName};
ghost use Rattle.sdd_base.specs.Numbers.{dm_no, frag_no};
ghost use Rattle.sdd_catalog.specs.Naming.{IsNamed};
ghost use Rattle.sdd_catalog.specs.Resolving.{HaveNumbers, IsModule, IsAtModules, RunsAtModules};

use crate::indexed::IndexedParts;
use crate::named::{copy_name, number_of};
use crate::parts::{ClassPart, ColumnPart, FragmentPart, Parts, ReadPart, RelationPart};
use crate::resolved::{
    Class, Classes, Column, Columns, Copies, Fragment, Fragments, Read, Reads, Relation, Relations,
};
use sdd_base::{DmNo, FragNo, Frags, Listed, Name, NoMemory, RelNo, TmNo};
use std::alloc::Global;

fn resolve_column(column: &ColumnPart) -> Result<Column, NoMemory>
    ensures value { IfOk result (λ resolved. resolved ≡ column_of column.now) }
    ensures named { IfOk result (λ resolved. IsName resolved.name) }
{
    Ok(Column {
        name: copy_name(&column.name)?,
        kind: column.kind,
    })
}

fn resolve_columns(alloc: Global, columns: &[ColumnPart]) -> Result<Columns, NoMemory>
    ensures value { IfOk result (λ resolved. resolved ≡ map column_of columns.now) }
    ensures named { IfOk result (λ resolved. All (λ c. IsName c.name) resolved) }
{
    let mut resolved = Vec::new(alloc);
    for column in columns {
        resolved.push(resolve_column(column)?)?;
    }
    Ok(Listed::from_vec(resolved))
}

fn resolve_relation(alloc: Global, relation: &RelationPart) -> Result<Relation, NoMemory>
    requires { length relation.now.columns < 2 ^ 32 - 1 }
    ensures value { IfOk result (λ resolved. resolved ≡ relation_of relation.now) }
    ensures named { IfOk result (λ resolved. IsNamed resolved) }
{
    let columns = relation.columns.as_slice();
    Ok(Relation {
        name: copy_name(&relation.name)?,
        columns: resolve_columns(alloc, columns)?,
        key: number_of(&relation.key, columns),
    })
}

/// The relations with the numbers of their keys.
pub(crate) fn resolve_relations(
    alloc: Global,
    relations: &[RelationPart],
) -> Result<Relations, NoMemory>
    requires { HaveNumbers relations.now }
    ensures value { IfOk result (λ resolved. resolved ≡ map relation_of relations.now) }
    ensures named { IfOk result (λ resolved. All IsNamed resolved) }
{
    let mut resolved = Vec::new(alloc);
    for relation in relations {
        resolved.push(resolve_relation(alloc, relation)?)?;
    }
    Ok(Listed::from_vec(resolved))
}

fn resolve_copies(alloc: Global, copies: &[u32]) -> Result<Copies, NoMemory>
    requires { All IsModule copies.now }
    ensures { IfOk result (λ resolved. resolved ≡ map dm_no copies.now) }
{
    let mut resolved = Vec::new(alloc);
    for copy in copies {
        resolved.push(DmNo(*copy as u8))?;
    }
    Ok(Listed::from_vec(resolved))
}

fn resolve_fragment(
    alloc: Global,
    relations: &[RelationPart],
    fragment: &FragmentPart,
) -> Result<Fragment, NoMemory>
    requires relations { length relations.now < 2 ^ 32 - 1 }
    requires copies { IsAtModules fragment.now }
    ensures value { IfOk result (λ resolved. resolved ≡ fragment_from (relation_names relations.now) fragment.now) }
    ensures named { IfOk result (λ resolved. IsName resolved.name) }
{
    Ok(Fragment {
        name: copy_name(&fragment.name)?,
        rel: RelNo(number_of(&fragment.relation, relations)),
        least: fragment.from,
        greatest: fragment.to,
        copies: resolve_copies(alloc, fragment.copies.as_slice())?,
    })
}

/// The fragments with the numbers of their relations.
pub(crate) fn resolve_fragments(
    alloc: Global,
    relations: &[RelationPart],
    fragments: &[FragmentPart],
) -> Result<Fragments, NoMemory>
    requires relations { length relations.now < 2 ^ 32 - 1 }
    requires copies { All IsAtModules fragments.now }
    ensures value { IfOk result (λ resolved. resolved ≡ map (fragment_from (relation_names relations.now)) fragments.now) }
    ensures named { IfOk result (λ resolved. All (λ f. IsName f.name) resolved) }
{
    let mut resolved = Vec::new(alloc);
    for fragment in fragments {
        resolved.push(resolve_fragment(alloc, relations, fragment)?)?;
    }
    Ok(Listed::from_vec(resolved))
}

fn resolve_read(parts: &IndexedParts, read: &ReadPart) -> Read
    requires fragments { length parts.now.fragments < 2 ^ 32 - 1 }
    requires module { IsModule read.now.at }
    ensures { result ≡ read_of (fragment_names parts.now.fragments) read.now }
{
    Read {
        fragment: FragNo(parts.number_of(&read.fragment)),
        at: DmNo(read.at as u8),
    }
}

fn resolve_reads(alloc: Global, parts: &IndexedParts, reads: &[ReadPart]) -> Result<Reads, NoMemory>
    requires fragments { length parts.now.fragments < 2 ^ 32 - 1 }
    requires modules { All (λ r. IsModule r.at) reads.now }
    ensures { IfOk result (λ resolved. resolved ≡ map (read_of (fragment_names parts.now.fragments)) reads.now) }
{
    let mut resolved = Vec::new(alloc);
    for read in reads {
        resolved.push(resolve_read(parts, read))?;
    }
    Ok(Listed::from_vec(resolved))
}

fn resolve_writes(alloc: Global, parts: &IndexedParts, writes: &[Name]) -> Result<Frags, NoMemory>
    requires { length parts.now.fragments < 2 ^ 32 - 1 }
    ensures { IfOk result (λ resolved. resolved ≡ map (λ name. frag_no (number_of name (fragment_names parts.now.fragments))) writes.now) }
{
    let mut resolved = Vec::new(alloc);
    for name in writes {
        resolved.push(FragNo(parts.number_of(name)))?;
    }
    Ok(Listed::from_vec(resolved))
}

fn resolve_class(alloc: Global, parts: &IndexedParts, class: &ClassPart) -> Result<Class, NoMemory>
    requires fragments { length parts.now.fragments < 2 ^ 32 - 1 }
    requires modules { RunsAtModules class.now }
    ensures value { IfOk result (λ resolved. resolved ≡ class_of (fragment_names parts.now.fragments) class.now) }
    ensures named { IfOk result (λ resolved. IsName resolved.name) }
{
    Ok(Class {
        name: copy_name(&class.name)?,
        tm: TmNo(class.tm as u8),
        reads: resolve_reads(alloc, parts, class.reads.as_slice())?,
        writes: resolve_writes(alloc, parts, class.writes.as_slice())?,
    })
}

fn resolve_each_class(
    alloc: Global,
    parts: &IndexedParts,
    classes: &[ClassPart],
) -> Result<Classes, NoMemory>
    requires fragments { length parts.now.fragments < 2 ^ 32 - 1 }
    requires modules { All RunsAtModules classes.now }
    ensures value { IfOk result (λ resolved. resolved ≡ map (class_of (fragment_names parts.now.fragments)) classes.now) }
    ensures named { IfOk result (λ resolved. All (λ c. IsName c.name) resolved) }
{
    let mut resolved = Vec::new(alloc);
    for class in classes {
        resolved.push(resolve_class(alloc, parts, class)?)?;
    }
    Ok(Listed::from_vec(resolved))
}

/// The classes of the parts, with the numbers of the fragments that they read and write.
pub(crate) fn resolve_classes(alloc: Global, parts: &Parts) -> Result<Classes, NoMemory>
    requires fragments { length parts.now.fragments < 2 ^ 32 - 1 }
    requires modules { All RunsAtModules parts.now.classes }
    ensures value { IfOk result (λ resolved. resolved ≡ map (class_of (fragment_names parts.now.fragments)) parts.now.classes) }
    ensures named { IfOk result (λ resolved. All (λ c. IsName c.name) resolved) }
{
    let indexed = IndexedParts::of(alloc, parts)?;
    resolve_each_class(alloc, &indexed, parts.classes.as_slice())
}
