ghost use Rattle.std.specs.Prelude.{◌≡◌, ◌≤◌, ◌<◌, [], ◌∷◌, ◌++◌, length, filter, slice_get, All, Some, IfOk, OnOk};
ghost use Rattle.sdd_catalog.specs.Catalogue.{numbers_to};
ghost use Rattle.sdd_graph.specs.Edges.{IsClassOf};
ghost use Rattle.sdd_protocol.specs.FragmentMarks.{is_marked};
ghost use Rattle.sdd_protocol.specs.Attempts.{condition_by, conditions_on};
ghost use Rattle.sdd_protocol.specs.Conditions.{conditions};
ghost use Rattle.sdd_protocol.specs.DiagonalIndex.{IsIndexed};
ghost use Rattle.sdd_protocol.specs.Protocols.{entry_of, is_between};

use crate::asked::Asked;
use crate::attempt::Attempt;
use crate::condition::condition_on;
use crate::diagonal_index::DiagonalIndex;
use crate::entry::Entry;
use crate::protocol::Protocol;
use sdd_base::{ClassNo, Cond, DmNo, FragNo, MAX_CLASSES, NoMemory, Ts};
use sdd_catalog::Catalogue;
use sdd_graph::Edge;
use std::alloc::Global;
use std::marker::Model;

/// A protocol table, which contracts see as the list of its entries.
#[derive(Drop)]
pub struct Table {
    alloc: Global,
    entries: Vec<Entry>,
    index: DiagonalIndex,
}

impl Model for Table {
    ghost use Rattle.std.specs.Prelude.{List};
    ghost use Rattle.sdd_protocol.specs.declared.entry.Entry.{Entry};
    ghost use Rattle.sdd_protocol.specs.DiagonalIndex.{IsIndexed};

    ghost Value = { List Entry };

    ghost view = { λ t. t.entries.items };

    ghost invariant = { λ t. IsIndexed t.entries.items t.index };
}

impl Table {
    pub(crate) fn new(alloc: Global, entries: Vec<Entry>, index: DiagonalIndex) -> Table
        requires { IsIndexed entries.items index }
        ensures { result ≡ entries.items }
    {
        Table {
            alloc,
            entries,
            index,
        }
    }

    /// How many entries there are. Takes no memory.
    pub fn len(&self) -> u32
        ensures { result ≡ length self.now }
    {
        let _ = &self.index;
        self.entries.len() as u32
    }

    /// The edge at a place, counted from 0, with its block and its protocol. Takes no memory.
    pub fn at(&self, k: u32) -> (Edge, u32, Protocol)
        requires { k < length self.now }
        ensures { slice_get self.now k ≡ Some (entry_of result.0 result.1 result.2) }
    {
        let entry = self.entries[k as usize];
        (entry.edge, entry.block, entry.protocol)
    }

    /// All entries, in the order of the edges. Takes no memory.
    pub fn entries(&self) -> &[Entry]
        ensures { result.now ≡ self.now }
    {
        self.entries.as_slice()
    }

    /// The read conditions of an attempt of the class that reads the fragments, at a data module:
    /// ascending by class, one for each class to which a diagonal of P2 or P3 leads from this one for one
    /// of the fragments that is read at the module, with these fragments, ascending. `own` is the
    /// attempt's timestamp, which P3 asks for, and `p2` the time that P2 asks for. The table is the
    /// catalogue's.
    ///
    /// Costs time in the class's diagonals, in the catalogue's classes and fragments, and in the given
    /// fragments times what the class reads.
    pub fn condition(
        &self,
        catalogue: &Catalogue,
        class: ClassNo,
        dm: DmNo,
        frags: &[FragNo],
        own: Ts,
        p2: Ts,
    ) -> Result<Vec<Cond>, NoMemory>
        requires class { IsClassOf catalogue.now class.0 }
        requires frags { All (λ f. (1 ≤ f.0) × (f.0 ≤ length catalogue.now.fragments)) frags.now }
        ensures { IfOk result (λ conds.
            conds.items ≡ conditions catalogue.now self.now class.0 dm.0 frags.now own.0 p2.0) }
    {
        catalogue.law_is_sound();
        let asked = Asked::of(self.alloc, catalogue, class, dm, frags)?;
        self.conditions(&asked, Attempt { class, own, p2 }, catalogue.classes())
    }

    /// The conditions on so many classes.
    fn conditions(
        &self,
        asked: &Asked,
        attempt: Attempt,
        classes: u32,
    ) -> Result<Vec<Cond>, NoMemory>
        requires { classes ≤ MAX_CLASSES }
        ensures { IfOk result (λ conds.
            conds.items
            ≡ conditions_on (is_marked asked.now) self.now attempt (numbers_to classes)) }
    {
        let mut conds = Vec::new(self.alloc);
        for writer in 1..classes + 1 {
            self.add_condition(&mut conds, asked, attempt, ClassNo(writer))?;
        }
        Ok(conds)
    }

    /// Adds the condition on a writer, where there is one.
    fn add_condition(
        &self,
        conds: &mut Vec<Cond>,
        asked: &Asked,
        attempt: Attempt,
        writer: ClassNo,
    ) -> Result<(), NoMemory>
        ensures { OnOk result (
            conds.new.items
            ≡ conds.old.items
            ++ conditions_on (is_marked asked.now) self.now attempt (writer.0 ∷ [])) }
    {
        if let Some(cond) = self.condition_on(asked, attempt, writer)? {
            conds.push(cond)?;
        }
        Ok(())
    }

    /// The condition on a writer.
    fn condition_on(
        &self,
        asked: &Asked,
        attempt: Attempt,
        writer: ClassNo,
    ) -> Result<Option<Cond>, NoMemory>
        ensures { IfOk result (λ found.
            found ≡ condition_by (is_marked asked.now) self.now attempt writer.0) }
    {
        let diagonals = self.diagonals(attempt.class, writer);
        condition_on(self.alloc, diagonals, asked, attempt, writer)
    }

    /// A part of the table that has all diagonals from the reader to the writer.
    fn diagonals(&self, reader: ClassNo, writer: ClassNo) -> &[Entry]
        ensures { filter (λ e. is_between reader.0 writer.0 e.edge) result.now
            ≡ filter (λ e. is_between reader.0 writer.0 e.edge) self.now }
    {
        let (from, to) = self.index.range(reader, writer);
        &self.entries.as_slice()[from as usize..to as usize]
    }
}
