ghost use Rattle.std.specs.Prelude.{◌≡◌, [], option_map, IfOk};
ghost use Rattle.sdd_module.specs.All.{head_of, is_empty, tail_of};
ghost use Rattle.sdd_rules.specs.attempt.Exchange.{to_all};
ghost use Rattle.sdd_exchange.specs.Outbox.{addressed, numbered};
ghost use Rattle.sdd_module.specs.wire.declared.msg.Msg.TheVariants as msgs;

use crate::modules::DmNos;
use sdd_module::{ClassNo, DmNo, Msg, NoMemory, Parcel, Ref, Ts, ValueList};
use std::alloc::Global;
use std::collections::VecDeque;
use std::marker::Model;

/// The messages that an attempt is still to send, each with its module, in order.
#[derive(Drop)]
pub(crate) struct Outbox {
    items: VecDeque<(DmNo, Msg)>,
}

impl Model for Outbox {
    ghost use Rattle.std.specs.Prelude.{ℕ, List, map};
    ghost use Rattle.sdd_exchange.specs.Outbox.{numbered};
    ghost use Rattle.sdd_module.specs.All.{Msg};

    ghost Value = { List (ℕ × Msg) };

    ghost view = { λ o. map numbered o.items.items };
}

impl Outbox {
    pub(crate) fn new(alloc: Global) -> Outbox
        ensures { result ≡ [] }
    {
        Outbox {
            items: VecDeque::new(alloc),
        }
    }

    /// FETCH of a column, to each of the modules.
    #[tactic(auto, using(crate::proofs::Addressed::all_addressed))]
    pub(crate) fn fetches(
        alloc: Global,
        ts: Ts,
        class: ClassNo,
        source: Ref,
        dms: &DmNos,
    ) -> Result<Outbox, NoMemory>
        ensures { IfOk result (λ outbox.
            outbox ≡ to_all (msgs.Fetch ts class source.part source.column) dms.now) }
    {
        Ok(Outbox {
            items: fetch_messages(alloc, ts, class, source, dms.as_slice())?,
        })
    }

    /// REDUCE of a column to the values, to each of the modules.
    #[tactic(auto, using(crate::proofs::Addressed::all_addressed))]
    pub(crate) fn reduces(
        alloc: Global,
        ts: Ts,
        class: ClassNo,
        target: Ref,
        values: &ValueList,
        dms: &DmNos,
    ) -> Result<Outbox, NoMemory>
        ensures { IfOk result (λ outbox.
            outbox ≡ to_all (msgs.Reduce ts class target.part target.column values.now) dms.now) }
    {
        Ok(Outbox {
            items: reduce_messages(alloc, ts, class, target, values, dms.as_slice())?,
        })
    }

    /// SHIP, to each of the modules.
    #[tactic(auto, using(crate::proofs::Addressed::all_addressed))]
    pub(crate) fn ships(
        alloc: Global,
        ts: Ts,
        class: ClassNo,
        dms: &DmNos,
    ) -> Result<Outbox, NoMemory>
        ensures { IfOk result (λ outbox. outbox ≡ to_all (msgs.Ship ts class) dms.now) }
    {
        Ok(Outbox {
            items: ship_messages(alloc, ts, class, dms.as_slice())?,
        })
    }

    pub(crate) fn is_empty(&self) -> bool
        ensures { result ≡ is_empty self.now }
    {
        self.items.is_empty()
    }

    /// Takes the next message.
    pub(crate) fn next(&mut self) -> Option<(DmNo, Msg)>
        ensures message { option_map numbered result ≡ head_of self.old }
        ensures rest { self.new ≡ tail_of self.old }
    {
        self.items.pop_front()
    }
}

fn fetch_messages(
    alloc: Global,
    ts: Ts,
    class: ClassNo,
    source: Ref,
    dms: &[DmNo],
) -> Result<VecDeque<(DmNo, Msg)>, NoMemory>
    ensures { IfOk result (λ messages.
        messages.items ≡ addressed (msgs.Fetch ts class source.part source.column) dms.now) }
{
    let mut messages = VecDeque::with_capacity(alloc, dms.len())?;
    for dm in dms {
        messages.push_back((
            *dm,
            Msg::Fetch {
                ts,
                class,
                use_no: source.part,
                column: source.column,
            },
        ))?;
    }
    Ok(messages)
}

fn reduce_messages(
    alloc: Global,
    ts: Ts,
    class: ClassNo,
    target: Ref,
    values: &ValueList,
    dms: &[DmNo],
) -> Result<VecDeque<(DmNo, Msg)>, NoMemory>
    ensures { IfOk result (λ messages.
        messages.items
        ≡ addressed (msgs.Reduce ts class target.part target.column values.now) dms.now) }
{
    let mut messages = VecDeque::with_capacity(alloc, dms.len())?;
    for dm in dms {
        let values = values.copy()?;
        messages.push_back((
            *dm,
            Msg::Reduce {
                ts,
                class,
                use_no: target.part,
                column: target.column,
                values,
            },
        ))?;
    }
    Ok(messages)
}

fn ship_messages(
    alloc: Global,
    ts: Ts,
    class: ClassNo,
    dms: &[DmNo],
) -> Result<VecDeque<(DmNo, Msg)>, NoMemory>
    ensures { IfOk result (λ messages. messages.items ≡ addressed (msgs.Ship ts class) dms.now) }
{
    let mut messages = VecDeque::with_capacity(alloc, dms.len())?;
    for dm in dms {
        messages.push_back((*dm, Msg::Ship { ts, class }))?;
    }
    Ok(messages)
}
