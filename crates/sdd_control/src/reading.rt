//! The lines of a control file, one after the other.
ghost use Rattle.std.specs.Prelude.{◌≡◌, ◌≤◌, ◌^◌, [], Err, length, IfOk};
ghost use Rattle.sdd_control.specs.Script.{IsSoundScript};
ghost use Rattle.sdd_control.specs.declared.stage.Stage.TheVariants.{First};
ghost use Rattle.sdd_control.specs.Faults.{GivesLine, Tells};
ghost use Rattle.sdd_control.specs.Walk.{control_script, is_ended, nothing_read, one_line, tail_rules, walk_bytes};

use crate::draft::Draft;
use crate::fault::{LineError, at_line, must, refuse};
use crate::line::read_line;
use crate::script::ControlScript;
use crate::stage::Stage;
use sdd_script::{MAX_WORKLOAD_BYTES, WorkError, WorkFault, WorkRule, next_line, text_of};
use std::alloc::Global;

fn is_ended(stage: Stage) -> bool
    ensures { result ≡ is_ended stage }
{
    match stage {
        Stage::Ended(_) => true,
        _ => false,
    }
}

fn read_one(alloc: Global, draft: &mut Draft, line: &[u8]) -> Result<(), LineError>
    ensures { GivesLine (λ _. draft.new) result (one_line draft.old line.now) }
{
    must(WorkRule::BadLine, !is_ended(draft.stage()))?;
    read_line(alloc, draft, line)
}

fn rule_of_tail(tail: &[u8]) -> WorkRule
    ensures { Err result ≡ tail_rules First [] tail.now }
{
    match tail {
        [] => WorkRule::NoEnd,
        _ => match text_of(tail) {
            Some(_) => WorkRule::NoEnd,
            None => WorkRule::NotUtf8,
        },
    }
}

/// The script, where nothing stands after the last newline.
fn finish(draft: Draft, tail: &[u8]) -> Result<ControlScript, LineError>
    ensures { GivesLine (λ script. script) result (tail_rules draft.stage draft.acts tail.now) }
{
    match draft.stage() {
        Stage::Ended(head) => match tail {
            [] => Ok(ControlScript {
                backups: head.backups,
                writes: head.writes,
                acts: draft.into_acts(),
            }),
            _ => refuse(WorkRule::BadLine),
        },
        _ => refuse(rule_of_tail(tail)),
    }
}

#[tactic(auto, unfolding(crate::specs::Walk::walk))]
fn read_lines(alloc: Global, draft: Draft, bytes: &[u8]) -> Result<ControlScript, WorkError>
    requires { length bytes.now ≤ 2 ^ 26 }
    ensures { Tells result (walk_bytes 1 draft bytes.now) }
{
    let mut draft = draft;
    let mut rest = bytes;
    let mut line = 1;
    'lines: while let Some((text, behind)) = next_line(rest) {
        at_line(line, read_one(alloc, &mut draft, text))?;
        rest = behind;
        line += 1;
    }
    at_line(line, finish(draft, rest))
}

/// The script that a file gives, or its first fault: that of the first line at fault, and on it the
/// first rule that is broken. Costs time and memory linear in the bytes.
pub fn read_control(alloc: Global, bytes: &[u8]) -> Result<ControlScript, WorkError>
    ensures exact { Tells result (control_script bytes.now) }
    ensures sound { IfOk result IsSoundScript }
{
    read_bytes(alloc, bytes)
}

fn read_bytes(alloc: Global, bytes: &[u8]) -> Result<ControlScript, WorkError>
    ensures { Tells result (control_script bytes.now) }
{
    if bytes.len() > MAX_WORKLOAD_BYTES {
        return Err(WorkError::Fault(WorkFault {
            line: 0,
            rule: WorkRule::TooLong,
        }));
    }
    read_lines(alloc, Draft::new(alloc), bytes)
}
