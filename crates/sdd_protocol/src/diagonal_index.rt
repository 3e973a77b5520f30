ghost use Rattle.std.specs.Prelude.{◌≡◌, ◌*◌, ◌+◌, ◌^◌, ◌<◌, ◌≤◌, length, All, IfOk};
ghost use Rattle.sdd_protocol.specs.DiagonalIndex.{range_of, no_diagonals, with_edge, IsIndexOf, HasCell};

use crate::entry::Entry;
use sdd_base::{ClassNo, MAX_CLASSES, NoMemory};
use sdd_blocks::MAX_EDGES;
use sdd_graph::Edge;
use std::alloc::Global;
use std::marker::Model;

/// For each reader and each writer a range of a list of entries that has the diagonals between them.
#[derive(Drop)]
pub(crate) struct DiagonalIndex {
    width: u32,
    ranges: Vec<(u32, u32)>,
}

impl Model for DiagonalIndex {
    ghost use Rattle.std.specs.Prelude.{◌≡◌, ◌*◌, ◌<◌, ◌^◌, length};
    ghost use Rattle.sdd_protocol.specs.DiagonalIndex as index;

    ghost Value = { index.DiagonalIndex };

    ghost view = { λ p. record { width = p.width; ranges = p.ranges.items } };

    ghost invariant = { λ p. length p.ranges.items ≡ p.width * p.width };
}

impl DiagonalIndex {
    /// The index of the entries, whose diagonals name classes below a width. One pass over the entries.
    pub(crate) fn of(
        alloc: Global,
        entries: &[Entry],
        width: u32,
    ) -> Result<DiagonalIndex, NoMemory>
        requires few { length entries.now ≤ MAX_EDGES }
        requires width { width ≤ MAX_CLASSES + 1 }
        requires cells { All (λ e. HasCell width e.edge) entries.now }
        ensures { IfOk result (λ index. IsIndexOf entries.now (length entries.now) index) }
    {
        let mut index = DiagonalIndex::none(alloc, width)?;
        for (k, entry) in entries.iter().enumerate() {
            index.add(entry.edge, k as u32);
        }
        Ok(index)
    }

    fn none(alloc: Global, width: u32) -> Result<DiagonalIndex, NoMemory>
        requires { width ≤ MAX_CLASSES + 1 }
        ensures { IfOk result (λ index. index ≡ no_diagonals width) }
    {
        let ranges = vec![in alloc; (0, 0); width as usize * width as usize]?;
        Ok(DiagonalIndex { width, ranges })
    }

    /// Widens the range of a diagonal to its place.
    fn add(&mut self, edge: Edge, place: u32)
        requires cell { HasCell self.old.width edge }
        requires few { place < MAX_EDGES }
        ensures { self.new ≡ with_edge self.old edge place }
    {
        if let Edge::Diagonal(reader, writer, _) = edge {
            let cell = reader.0 as usize * self.width as usize + writer.0 as usize;
            let (from, to) = self.ranges[cell];
            self.ranges[cell] = (if to == 0 { place } else { from }, place + 1);
        }
    }

    /// The range for a reader and a writer.
    pub(crate) fn range(&self, reader: ClassNo, writer: ClassNo) -> (u32, u32)
        ensures { result ≡ range_of self.now reader.0 writer.0 }
    {
        let cell = reader.0 as usize * self.width as usize + writer.0 as usize;
        match self.ranges.get(cell) {
            Some(range) => *range,
            None => (0, 0),
        }
    }
}
