ghost use Rattle.std.specs.Prelude.{◌≡◌, option_map};
ghost use Rattle.std.specs.List.{find, position};
ghost use Rattle.sdd_asks.specs.Asks.{answers, time_by, without_first};

use sdd_rules::{Asked, Clock, Ts};
use std::collections::VecDeque;

/// Takes away the first ASK that can be answered, where the active attempt has this timestamp or
/// no attempt is active. Takes no memory; costs the length of the queue.
pub fn take_first(asks: &mut VecDeque<Asked>, active: Option<Ts>) -> Option<Asked>
    ensures taken { result ≡ find (answers (option_map (λ t. t.0) active)) asks.old.items }
    ensures left { asks.new.items ≡ without_first (answers (option_map (λ t. t.0) active)) asks.old.items }
{
    match first_place(asks, active) {
        None => None,
        Some(place) => asks.remove(place),
    }
}

fn first_place(asks: &VecDeque<Asked>, active: Option<Ts>) -> Option<usize>
    ensures { result ≡ position (answers (option_map (λ t. t.0) active)) asks.now.items }
{
    asks.iter().position(|ask| answers(active, ask))
}

/// Whether an ASK can be answered, where the active attempt has this timestamp or no attempt is
/// active.
pub fn answers(active: Option<Ts>, ask: &Asked) -> bool
    ensures { result ≡ answers (option_map (λ t. t.0) active) ask.now }
{
    match active {
        None => true,
        Some(ts) => ask.time.0 <= ts.0,
    }
}

/// The time of a NULL: the timestamp of the active attempt, or the clock's bound where none is.
pub fn answer_time(clock: &Clock, active: Option<Ts>) -> Ts
    ensures { result.0 ≡ time_by clock.now (option_map (λ t. t.0) active) }
{
    match active {
        None => clock.bound(),
        Some(ts) => ts,
    }
}
