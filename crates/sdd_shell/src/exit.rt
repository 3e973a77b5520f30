//! How the process ends.
ghost use Rattle.std.specs.Prelude.{◌≡◌, codes};
ghost use Rattle.std.specs.Process.{exit_status};
ghost use Rattle.sdd_shell.specs.Status.{number_of_status};
ghost use Rattle.sdd_shell.specs.Taking.{TakesOrFaults};

use crate::status::Status;
use crate::telling::tell;
use sdd_lang::Sink;
use std::process::ExitCode;

/// The exit status of the process, which says how the call ended.
pub fn exit_code(status: Status) -> ExitCode
    ensures { exit_status result ≡ number_of_status status }
{
    ExitCode::from(status.number())
}

/// Writes that memory ran out, and gives the number that says so.
pub fn end_out_of_memory<E: Sink>(err: &mut E) -> ExitCode
    ensures code { exit_status result ≡ number_of_status Status.NoMemory }
    ensures line { TakesOrFaults (E.sure err.old) (E.taken err.old) (E.taken err.new) (E.faults err.old) (E.faults err.new) (codes "no memory\n") }
{
    tell(err, b"", Status::NoMemory);
    exit_code(Status::NoMemory)
}
