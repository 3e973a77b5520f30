//! The command that carries out transaction control.
ghost use Rattle.std.specs.Prelude.{◌≡◌, IfOk, IfErr, MatchResult, Some, Ok};
ghost use Rattle.sdd_control.specs.Script.{IsSoundScript};
ghost use Rattle.sdd_control.specs.Walk.{control_script};
ghost use Rattle.sdd_shell.specs.Requests.{AnswersRequest};
ghost use Rattle.sdd_shell.specs.States.{shelf_by};
ghost use Rattle.sdd_shell.specs.Verdict.{ComesOfFiles, Explains};
ghost use Rattle.sdd_commands.specs.Accepting.{AcceptsScript};
ghost use Rattle.sdd_commands.specs.Requests.{about_script};
ghost use Rattle.sdd_commands.specs.OverScript.{BlamesScript};

use sdd_control::{ControlScript, read_control, write_report};
use sdd_lang::{MAX_WORKLOAD_BYTES, Pages, Shelf};
use sdd_shell::{Status, read_named};
use std::alloc::Global;

/// The script that the bytes give.
fn read_script_bytes(alloc: Global, bytes: &[u8]) -> Result<ControlScript, Status>
    ensures answered { MatchResult result (λ s. control_script bytes.now ≡ Ok s) (λ s. Explains s (BlamesScript (Some (control_script bytes.now)))) }
    ensures sound { IfOk result IsSoundScript }
    ensures errors { IfErr result ComesOfFiles }
    ensures read { IfErr result (λ s. s ≡ Status.ReadFault → ⊥) }
{
    Ok(read_control(alloc, bytes)?)
}

/// The script in the file of this name, or its first fault.
fn accepted_script<S: Shelf>(
    alloc: Global,
    shelf: &mut S,
    name: &str,
) -> Result<ControlScript, Status>
    ensures accepts { AcceptsScript name.now
        (shelf_by S.files S.is_open S.opened S.faults S.sure shelf.old)
        (shelf_by S.files S.is_open S.opened S.faults S.sure shelf.new) result }
    ensures sound { IfOk result IsSoundScript }
{
    let bytes = read_named(alloc, shelf, name, MAX_WORKLOAD_BYTES)?;
    read_script_bytes(alloc, bytes.as_slice())
}

/// What `control` answers over the script in the file.
pub fn control_answer<S: Shelf>(alloc: Global, shelf: &mut S, file: &str) -> Result<Pages, Status>
    ensures { AnswersRequest (about_script file.now)
        (shelf_by S.files S.is_open S.opened S.faults S.sure shelf.old)
        (shelf_by S.files S.is_open S.opened S.faults S.sure shelf.new) result }
{
    let script = accepted_script(alloc, shelf, file)?;
    let text = write_report(alloc, &script)?;
    Ok(Pages::of(alloc, text.into_vec()))
}
