//! How a call ends whose answer is known.
ghost use Rattle.std.specs.Prelude.{◌≡◌};
ghost use Rattle.sdd_shell.specs.States.{EndsWith, IsWritten, SurelyWritten, sink_by};
ghost use Rattle.sdd_shell.specs.Status.{line_of};
ghost use Rattle.sdd_shell.specs.Taking.{TakesOrFaults};

use crate::status::Status;
use crate::telling::tell;
use sdd_lang::{Pages, Sink, write_pages};

/// Writes the whole text.
fn print<O: Sink>(out: &mut O, text: &Pages) -> Status
    ensures written { IsWritten text.now (sink_by O.taken O.faults O.sure out.old) (sink_by O.taken O.faults O.sure out.new) result }
    ensures surely { SurelyWritten text.now (sink_by O.taken O.faults O.sure out.old) (sink_by O.taken O.faults O.sure out.new) result }
{
    match write_pages(out, text) {
        Ok(()) => Status::Done,
        Err(_) => Status::WriteFault,
    }
}

/// Writes the whole text to `out`, or else the status's line to `err`, which is `usage` where the words
/// are none of the forms. Takes no memory.
pub fn end_call<O: Sink, E: Sink>(
    answer: Result<Pages, Status>,
    usage: &[u8],
    out: &mut O,
    err: &mut E,
) -> Status
    ensures ends { EndsWith answer (sink_by O.taken O.faults O.sure out.old) (sink_by O.taken O.faults O.sure out.new) result }
    ensures line { TakesOrFaults (E.sure err.old) (E.taken err.old) (E.taken err.new) (E.faults err.old) (E.faults err.new) (line_of usage.now result) }
{
    match answer {
        Ok(text) => {
            let status = print(out, &text);
            tell(err, usage, status);
            status
        }
        Err(status) => {
            tell(err, usage, status);
            status
        }
    }
}
