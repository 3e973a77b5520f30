//! What the conditions of READs ask of the pipes.
ghost use Rattle.std.specs.Prelude.{◌≡◌, not, find, IfOk, IsTrue, false};
ghost use Rattle.std.specs.List.{list_all};
ghost use Rattle.std.specs.Option.{option_copied};
ghost use Rattle.sdd_conditions.specs.Conditions.{is_met_in, last_write_in, or_zero, spoils_in, unmet};

use sdd_base::{Cond, Conds, NoMemory, Parcel, Ts};
use sdd_pipe::Pipes;
use std::alloc::Global;

/// Whether the condition's class has passed its time.
fn is_met(pipes: &Pipes, cond: &Cond) -> bool
    ensures { result ≡ is_met_in pipes.now.value cond.now }
{
    pipes.passed(cond.class, cond.time)
}

/// The conditions whose classes haven't passed their times.
pub fn unmet(alloc: Global, pipes: &Pipes, conds: &[Cond]) -> Result<Conds, NoMemory>
    ensures { IfOk result (λ lacking. lacking ≡ unmet pipes.now.value conds.now) }
{
    let mut lacking = Vec::new(alloc);
    for cond in conds {
        if !is_met(pipes, cond) {
            lacking.push(cond.copy()?)?;
        }
    }
    Ok(Conds::from_vec(lacking))
}

/// Whether a WRITE for the condition was processed at its time or later.
fn spoils(pipes: &Pipes, cond: &Cond) -> bool
    ensures { result ≡ spoils_in pipes.now.value cond.now }
{
    match pipes.last_write(cond.class, cond.frags.as_slice()) {
        None => false,
        Some(write) => cond.time.0 <= write.0,
    }
}

/// The first condition that is spoilt.
pub fn spoiler<'a>(pipes: &Pipes, conds: &'a [Cond]) -> Option<&'a Cond>
    ensures { option_copied result ≡ find (spoils_in pipes.now.value) conds.now }
{
    conds.iter().find(|cond| spoils(pipes, cond))
}

/// The timestamp of the last WRITE for the condition, 0 where there is none.
pub fn last_write(pipes: &Pipes, cond: &Cond) -> Ts
    ensures { result.0 ≡ or_zero (last_write_in pipes.now.value cond.now) }
{
    match pipes.last_write(cond.class, cond.frags.as_slice()) {
        None => Ts(0),
        Some(write) => write,
    }
}

/// Whether all conditions are met.
pub fn all_met(pipes: &Pipes, conds: &[Cond]) -> bool
    ensures { result ≡ list_all (is_met_in pipes.now.value) conds.now }
{
    conds.iter().all(|cond| is_met(pipes, cond))
}

/// The place of the first condition that isn't met.
pub fn place_unmet(pipes: &Pipes, conds: &[Cond]) -> u32 {
    match conds.iter().position(|cond| !is_met(pipes, cond)) {
        None => 0,
        Some(place) => u32::try_from(place).unwrap_or(0),
    }
}

/// Whether the condition at a place isn't met.
pub fn lacks_at(pipes: &Pipes, conds: &[Cond], place: u32) -> bool
    ensures { IsTrue result → list_all (is_met_in pipes.now.value) conds.now ≡ false }
{
    match conds.get(place as usize) {
        Some(cond) => !is_met(pipes, cond),
        _ => false,
    }
}

/// The first condition that isn't met.
pub fn first_unmet<'a>(pipes: &Pipes, conds: &'a [Cond]) -> Option<&'a Cond>
    ensures { option_copied result ≡ find (λ d. not (is_met_in pipes.now.value d)) conds.now }
{
    conds.iter().find(|cond| !is_met(pipes, cond))
}
