//! What the heads of the pipes may do.
ghost use Rattle.std.specs.Prelude.{◌≡◌, IfOk};
ghost use Rattle.std.specs.List.{list_all};
ghost use Rattle.std.specs.Option.{option_copied};
ghost use Rattle.sdd_conditions.specs.Conditions.{is_met_in};
ghost use Rattle.sdd_dm.specs.Heads.{first_step, judge_in, step_at};
ghost use Rattle.sdd_dm.specs.Waiting.{waiting_in, first_unmet, unmet_in};

use crate::hints::Hints;
use crate::holding::is_held;
use crate::slots::waits_at;
use sdd_conditions::{all_met, first_unmet, lacks_at, last_write, place_unmet, spoiler, unmet};
use sdd_module::{ClassNo, Cond, Conds, Msg, NoMemory, Ts};
use sdd_pipe::Pipes;
use sdd_rules::Step;
use std::alloc::Global;

/// The first head that may do something, from class 0 on.
///
/// It looks at each head, at most one a class. An empty pipe, a NULL and, while what kept it last
/// still does, a READ that waits cost O(1), a WRITE that is held as much as the conditions of the
/// READ that holds it; else a READ costs its conditions, and a WRITE those of all waiting READs,
/// which happens once for each message and once more for each time that what kept it ends.
pub fn first_step(
    alloc: Global,
    pipes: &Pipes,
    waits: &[bool],
    hints: &mut Hints,
) -> Result<Option<(ClassNo, Step)>, NoMemory>
    ensures { IfOk result (λ step. step ≡ first_step pipes.now.value waits.now) }
{
    for class in 0..pipes.count() {
        if let Some(step) = step_of(alloc, pipes, waits, hints, ClassNo(class))? {
            return Ok(Some((ClassNo(class), step)));
        }
    }
    Ok(None)
}

/// What the head of the pipe of a class may do, where it may do something.
fn step_of(
    alloc: Global,
    pipes: &Pipes,
    waits: &[bool],
    hints: &mut Hints,
    class: ClassNo,
) -> Result<Option<Step>, NoMemory>
    ensures { IfOk result (λ step. step ≡ step_at pipes.now.value waits.now class.0) }
{
    match pipes.head(class) {
        None => Ok(None),
        Some(Msg::Null { .. }) => Ok(Some(Step::Processes)),
        Some(Msg::Write { ts, changes, .. }) => {
            if is_held(pipes, waits, hints, class, *ts, changes.as_slice()) {
                return Ok(None);
            }
            Ok(Some(Step::Processes))
        }
        Some(Msg::Read { conds, .. }) => {
            if !waits_at(waits, class) {
                return Ok(Some(judge(alloc, pipes, conds.as_slice())?));
            }
            if may_answer(pipes, hints, class, conds.as_slice()) {
                return Ok(Some(Step::Processes));
            }
            Ok(None)
        }
        Some(_) => Ok(None),
    }
}

/// What a READ may do that doesn't wait yet.
fn judge(alloc: Global, pipes: &Pipes, conds: &[Cond]) -> Result<Step, NoMemory>
    ensures { IfOk result (λ step. step ≡ judge_in pipes.now.value conds.now) }
{
    match spoiler(pipes, conds) {
        Some(cond) => Ok(Step::Refuses(cond.class, last_write(pipes, cond))),
        None => {
            let lacking = unmet(alloc, pipes, conds)?;
            if lacking.as_slice().is_empty() {
                Ok(Step::Processes)
            } else {
                Ok(Step::Waits(lacking))
            }
        }
    }
}

/// Whether a waiting READ of a class may be answered: all its conditions are met. The one at the
/// place of the hint is tested first.
fn may_answer(pipes: &Pipes, hints: &mut Hints, class: ClassNo, conds: &[Cond]) -> bool
    ensures { result ≡ list_all (is_met_in pipes.now.value) conds.now }
{
    if lacks_at(pipes, conds, hints.at(class)) {
        return false;
    }
    if all_met(pipes, conds) {
        return true;
    }
    hints.set(class, place_unmet(pipes, conds));
    false
}

/// Of the READ of a class, where it waits, the conditions that aren't met.
pub fn unmet_conds(
    alloc: Global,
    pipes: &Pipes,
    waits: &[bool],
    class: ClassNo,
) -> Result<Option<Conds>, NoMemory>
    ensures { IfOk result (λ conds. conds ≡ unmet_in pipes.now.value waits.now class.0) }
{
    if !waits_at(waits, class) {
        return Ok(None);
    }
    match pipes.head(class) {
        Some(Msg::Read { conds, .. }) => Ok(Some(unmet(alloc, pipes, conds.as_slice())?)),
        _ => Ok(None),
    }
}

/// Of the READ of a class with this timestamp, where it waits, the first condition that isn't met.
pub fn awaited_cond<'a>(
    pipes: &'a Pipes,
    waits: &[bool],
    class: ClassNo,
    ts: Ts,
) -> Option<&'a Cond>
    ensures { option_copied result ≡ first_unmet pipes.now.value
        (waiting_in pipes.now.value waits.now class.0 ts.0) }
{
    if !waits_at(waits, class) {
        return None;
    }
    match pipes.head(class) {
        Some(Msg::Read { ts: own, conds, .. }) => {
            if own.0 != ts.0 {
                return None;
            }
            first_unmet(pipes, conds.as_slice())
        }
        _ => None,
    }
}
