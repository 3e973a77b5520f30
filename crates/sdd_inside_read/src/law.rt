ghost use Rattle.std.specs.List.{AllByRecursion, flat_map};
ghost use Rattle.std.specs.Prelude.{◌≡◌, ◌++◌, List, map};
ghost use Rattle.sdd_inside.specs.Lines.{beginning, line};
ghost use Rattle.sdd_inside.specs.declared.delta.Delta.{Delta};
ghost use Rattle.sdd_inside_read.specs.LineReader.{event_lines, read_line};
ghost use Rattle.sdd_inside_read.specs.Small.{HasSmallNumbers};
ghost use Rattle.sdd_inside_read.specs.Told.{told};
ghost use Rattle.sdd_report.specs.declared.copies.CopyTable.{CopyTable};
ghost use Rattle.sdd_script.specs.All.{Catalogue, Txn};

/// A law: the bytes of a line give back what it tells of links, queues and pipes: the packet that was taken, how
/// many messages are handed over, the packets that were put, and what came to queues and pipes and went from
/// them. Classes and transactions come back by their names, and a message by the text of its members.
pub fn law_line_read()
    ensures { (catalogue : Catalogue) (txns : List Txn) (change : Delta) → HasSmallNumbers change
        → read_line (line catalogue txns change) ≡ told catalogue txns change }
{}

/// A law: a text of a first line and the lines of events is cut into its lines, byte by byte, and each of them
/// gives back what it tells.
pub fn law_lines_read()
    ensures { (catalogue : Catalogue) (txns : List Txn) (copies : List CopyTable) (changes : List Delta)
        → AllByRecursion HasSmallNumbers changes
        → map read_line (event_lines (beginning catalogue txns copies ++ flat_map (line catalogue txns) changes))
        ≡ map (told catalogue txns) changes }
{}
