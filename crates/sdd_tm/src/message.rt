//! What a module looks at in a message.
ghost use Rattle.std.specs.Prelude.{◌≡◌};
ghost use Rattle.sdd_tm.specs.Handing as messages;

use sdd_attempt::{ClassNo, Msg, Ts};

/// The time by which a message pushes the clock.
pub(crate) fn push_of(msg: &Msg) -> Ts
    ensures { result.0 ≡ messages.push_of msg.now }
{
    match msg {
        Msg::Ask { time, .. } => *time,
        Msg::Reject { write, .. } => *write,
        Msg::Release { ts } => *ts,
        Msg::Held { time } => *time,
        _ => Ts(0),
    }
}

/// The class that a message names, where it can change something of it.
pub(crate) fn class_named(msg: &Msg) -> Option<ClassNo>
    ensures { result ≡ messages.class_named msg.now }
{
    match msg {
        Msg::Ready { class, .. } => Some(*class),
        Msg::Reject { class, .. } => Some(*class),
        Msg::Values { class, .. } => Some(*class),
        Msg::Reduced { class, .. } => Some(*class),
        Msg::Rows { class, .. } => Some(*class),
        Msg::Ask { class, .. } => Some(*class),
        _ => None,
    }
}
