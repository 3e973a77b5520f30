//! The catalogue: which relations, fragments and classes there are, and at which modules.
#![tactic(auto)]

mod catalogue;
mod class_rules;
mod count_rules;
mod fault;
mod first_fault;
mod fragment_rules;
mod indexed;
mod named;
mod naming;
mod parts;
mod range_rules;
mod ranges;
mod relation_rules;
mod resolve;
mod resolved;

pub use catalogue::Catalogue;
pub use fault::{CatError, CatFault, CatRule, Counted, Part};
pub use parts::{
    ClassPart, ClassParts, ColumnPart, ColumnParts, CopyNos, FragmentPart, FragmentParts, Kind,
    Names, Parts, ReadPart, ReadParts, RelationPart, RelationParts,
};
pub use resolved::{
    Class, Classes, Column, Columns, Copies, Fragment, Fragments, Read, Reads, Relation, Relations,
};
