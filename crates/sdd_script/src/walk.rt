//! The lines of a workload, one after the other.
ghost use Rattle.std.specs.Prelude.{◌≡◌, ◌≤◌, ◌^◌, length, IfOk, MatchResult, Ok, Err};
ghost use Rattle.sdd_lang.specs.All.{GivesReading};
ghost use Rattle.sdd_script.specs.Rules.{rule_in};
ghost use Rattle.sdd_script.specs.ReadResults.{Tells};
ghost use Rattle.sdd_script.specs.Valid.{Accepts};
ghost use Rattle.sdd_script.specs.Walk.{one_line, tail_rules, walk_bytes, nothing_read, workload_of_state, workload};

use crate::fault::{LineError, WorkError, WorkFault, WorkRule, at_line, must, refuse};
use crate::grown::Grown;
use crate::names::Names;
use crate::place::Place;
use crate::reader::read_line;
use crate::state::State;
use crate::submitted::Submitted;
use crate::workload::Workload;
use sdd_lang::{Catalogue, MAX_WORKLOAD_BYTES};
use sdd_words::{next_line, text_of};
use std::alloc::Global;
use std::mem;

fn read_one(
    alloc: Global,
    catalogue: &Catalogue,
    state: &mut State,
    line: &[u8],
) -> Result<(), LineError>
    ensures { GivesReading rule_in (λ _. state.new) result (one_line catalogue.now state.old line.now) }
{
    must(WorkRule::BadLine, !state.place.is_ended())?;
    read_line(alloc, catalogue, state, line)
}

/// What stands after the last newline.
fn check_tail(state: &State, tail: &[u8]) -> Result<(), LineError>
    ensures { GivesReading rule_in (λ _. state.now) result (tail_rules state.now tail.now) }
{
    match tail {
        [] => must(WorkRule::NoEnd, state.place.is_ended()),
        _ => {
            must(WorkRule::BadLine, !state.place.is_ended())?;
            must(WorkRule::NotUtf8, text_of(tail).is_some())?;
            refuse(WorkRule::NoEnd)
        }
    }
}

fn nothing_read(alloc: Global, catalogue: &Catalogue) -> State
    ensures { result ≡ nothing_read catalogue.now }
{
    State {
        place: Place::Rows,
        rows: Grown::new(alloc),
        written: 0,
        names: Names::new(alloc),
        txns: Grown::new(alloc),
        statements: Grown::new(alloc),
        lists: Grown::new(alloc),
        classes: catalogue.classes(),
        submitted: Submitted::new(alloc),
        events: Grown::new(alloc),
    }
}

#[tactic(auto, unfolding(crate::specs::Walk::walk))]
fn read_lines(
    alloc: Global,
    catalogue: &Catalogue,
    state: &mut State,
    bytes: &[u8],
) -> Result<(), WorkError>
    requires { length bytes.now ≤ 2 ^ 26 }
    ensures { MatchResult result
        (λ _. walk_bytes catalogue.now 1 state.old bytes.now ≡ Ok state.new)
        (λ e. Tells (Err e) (walk_bytes catalogue.now 1 state.old bytes.now)) }
{
    let mut rest = bytes;
    let mut line = 1;
    'lines: while let Some((text, behind)) = next_line(rest) {
        at_line(line, read_one(alloc, catalogue, state, text))?;
        rest = behind;
        line += 1;
    }
    at_line(line, check_tail(state, rest))
}

/// Takes the workload that the lines have said out of the state. Takes no memory.
fn take_workload(alloc: Global, state: &mut State) -> Workload
    ensures { workload_of_state (Ok state.old) ≡ Ok result }
{
    Workload {
        rows: mem::replace(&mut state.rows, Grown::new(alloc)).into_listed(),
        txns: mem::replace(&mut state.txns, Grown::new(alloc)).into_listed(),
        lists: mem::replace(&mut state.lists, Grown::new(alloc)).into_listed(),
        events: mem::replace(&mut state.events, Grown::new(alloc)).into_listed(),
    }
}

/// The workload of all lines, read from this state on.
fn read_all(
    alloc: Global,
    catalogue: &Catalogue,
    state: &mut State,
    bytes: &[u8],
) -> Result<Workload, WorkError>
    requires { length bytes.now ≤ 2 ^ 26 }
    ensures { Tells result (workload_of_state (walk_bytes catalogue.now 1 state.old bytes.now)) }
{
    read_lines(alloc, catalogue, state, bytes)?;
    Ok(take_workload(alloc, state))
}

/// The workload that a file gives, or its first fault: that of the first line at fault, and on it the
/// first rule that is broken.
///
/// A workload that is given is one that the catalogue allows, and the bytes are its spelling.
/// Costs time linear in the bytes, the relations and columns of the catalogue apart, which are looked
/// through for each name. Costs memory linear in the bytes.
pub fn read_workload(
    alloc: Global,
    bytes: &[u8],
    catalogue: &Catalogue,
) -> Result<Workload, WorkError>
    ensures exact { Tells result (workload catalogue.now bytes.now) }
    ensures accepted { IfOk result (λ work. Accepts catalogue.now bytes.now work) }
{
    catalogue.law_is_sound();
    read_bytes(alloc, bytes, catalogue)
}

fn read_bytes(alloc: Global, bytes: &[u8], catalogue: &Catalogue) -> Result<Workload, WorkError>
    ensures { Tells result (workload catalogue.now bytes.now) }
{
    if bytes.len() > MAX_WORKLOAD_BYTES {
        return Err(WorkError::Fault(WorkFault {
            line: 0,
            rule: WorkRule::TooLong,
        }));
    }
    let mut state = nothing_read(alloc, catalogue);
    read_all(alloc, catalogue, &mut state, bytes)
}
