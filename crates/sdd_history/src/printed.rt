ghost use Rattle.std.specs.Prelude.{◌≡◌, [], IfOk};
ghost use Rattle.sdd_words.specs.Replies.{outcome_lines};

use sdd_base::{NoMemory, Page, Reply};
use sdd_words::{put_outcome, room_for_outcome};
use std::alloc::Global;
use std::marker::Model;
use std::snapshot::Snapshot;

/// For lines that take less, no room is made at first: making it and giving back what is left costs
/// more than growing.
const MIN_ROOM: usize = 1024;

/// A reply of which only its lines in a report are kept, as they stand after the name of the
/// transaction. Contracts see the reply.
#[derive(Drop)]
pub struct PrintedReply {
    lines: Page,
    reply: Snapshot<Reply>,
}

impl Model for PrintedReply {
    ghost use Rattle.std.specs.Prelude.{◌≡◌};
    ghost use Rattle.sdd_base.specs.declared.reply.Reply.{Reply as Outcome};
    ghost use Rattle.sdd_words.specs.Replies.{outcome_lines};

    ghost Value = { Outcome };

    ghost view = { λ p. p.reply.value };

    ghost invariant = { λ p. p.lines ≡ outcome_lines p.reply.value };
}

/// No bytes yet, with room for the lines of the reply where they are many.
fn empty_lines(alloc: Global, reply: &Reply) -> Result<Vec<u8>, NoMemory>
    ensures { IfOk result (λ lines. lines.items ≡ []) }
{
    let room = room_for_outcome(reply);
    if room < MIN_ROOM {
        return Ok(Vec::new(alloc));
    }
    Ok(Vec::with_capacity(alloc, room)?)
}

impl PrintedReply {
    /// Prints a reply. Costs time linear in its lines, and takes memory for them.
    pub fn of(alloc: Global, reply: &Reply) -> Result<PrintedReply, NoMemory>
        ensures { IfOk result (λ printed. printed ≡ reply.now) }
    {
        let mut lines = empty_lines(alloc, reply)?;
        put_outcome(&mut lines, reply)?;
        lines.shrink_to_fit();
        Ok(PrintedReply {
            lines: Page::of(alloc, lines)?,
            reply: Snapshot::of(reply),
        })
    }

    /// The lines, lent. Takes no memory.
    pub fn lines(&self) -> &Page
        ensures { result.now ≡ outcome_lines self.now }
    {
        &self.lines
    }
}
