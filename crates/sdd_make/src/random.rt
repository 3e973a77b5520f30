//! Numbers that are drawn one after the other.
ghost use Rattle.std.specs.Prelude.{◌≡◌, ◌≤◌, ◌<◌};
ghost use Rattle.sdd_make.specs.Draws.{next, draw};

use std::marker::Model;

/// A generator of numbers, which contracts see as its state.
#[derive(Drop)]
pub struct Random {
    state: u32,
}

impl Model for Random {
    ghost use Rattle.std.specs.Prelude.{ℕ};

    ghost Value = { ℕ };

    ghost view = { λ r. r.state };
}

impl Random {
    pub fn new(seed: u32) -> Random
        ensures { result ≡ seed }
    {
        Random { state: seed }
    }

    /// A number below a bound.
    pub fn draw(&mut self, below: u32) -> u32
        requires { 1 ≤ below }
        ensures below { result < below }
        ensures made { result ≡ (draw below self.old).0 }
        ensures state { self.new ≡ (draw below self.old).1 }
    {
        self.state = next(self.state);
        self.state / 65536 % below
    }
}

/// The state that follows a state.
fn next(state: u32) -> u32
    ensures { result ≡ next state }
{
    ((u64::from(state) * 1103515245 + 12345) % 2147483648) as u32
}
