//! What a message does that is handed to the module.
ghost use Rattle.std.specs.Prelude.{◌≡◌, ◌<◌, ℕ, OnOk, IfOk, IsTrue, length, Some, None};
ghost use Rattle.std.specs.Option.{option_map};
ghost use Rattle.sdd_copy.specs.Frozen.{values_in};
ghost use Rattle.sdd_pipe.specs.Pipes.{update};
ghost use Rattle.sdd_rules.specs.dm.Copies.{rows_held, all_held, reduced_at};
ghost use Rattle.sdd_dm.specs.State.{State, frozen_of, class_of_pipe, arrived, state_answered, with_answers, state_handed, notes_handed};

use crate::parts::Parts;
use crate::slots::{put_space, reduce_space};
use sdd_module::{ClassNo, Draft, Msg, NoMemory, Rec, Site, Ts, UseRows, Value, ValueList};

impl Parts {
    /// Takes a message: a READ, WRITE or NULL goes to the pipe of its class, and a READ is recorded;
    /// a FETCH, REDUCE or SHIP is answered from the frozen rows.
    pub fn hand(&mut self, from: Site, msg: Msg, draft: &mut Draft) -> Result<(), NoMemory>
        requires pipes_live { IsTrue self.old.pipes_live }
        requires known { (c : ℕ) → class_of_pipe msg ≡ Some c → c < length self.old.pipes }
        ensures state { OnOk result (self.new ≡ state_handed msg self.old) }
        ensures notes { OnOk result (draft.new ≡ notes_handed from msg self.old draft.old) }
    {
        self.record_arrival(&msg, draft)?;
        match class_of_pipe(&msg) {
            Some(class) => self.pipes.put(class, msg),
            None => self.tell(from, msg, draft),
        }
    }

    /// Records that a READ arrives.
    fn record_arrival(&self, msg: &Msg, draft: &mut Draft) -> Result<(), NoMemory>
        ensures { OnOk result (draft.new ≡ arrived msg.now self.now draft.old) }
    {
        match msg {
            Msg::Read { txn, attempt, .. } => draft.record(Rec::Arrive {
                txn: *txn,
                attempt: *attempt,
                dm: self.dm,
            }),
            _ => Ok(()),
        }
    }

    /// Answers a FETCH, REDUCE or SHIP.
    fn tell(&mut self, from: Site, msg: Msg, draft: &mut Draft) -> Result<(), NoMemory>
        ensures state { OnOk result (self.new ≡ state_answered msg self.old) }
        ensures notes { OnOk result (draft.new ≡ with_answers from msg self.old draft.old) }
    {
        match msg {
            Msg::Fetch {
                ts,
                class,
                use_no,
                column,
            } => {
                let values = self.values(class, use_no, column)?;
                draft.send(
                    from,
                    Msg::Values {
                        ts,
                        class,
                        use_no,
                        values,
                    },
                )
            }
            Msg::Reduce {
                ts,
                class,
                use_no,
                column,
                values,
            } => {
                let count = self.reduce(class, ts, use_no, column, values.as_slice())?;
                draft.send(
                    from,
                    Msg::Reduced {
                        ts,
                        class,
                        use_no,
                        count,
                    },
                )
            }
            Msg::Ship { ts, class } => {
                let rows = self.ship(class)?;
                draft.send(from, Msg::Rows { ts, class, rows })
            }
            _ => Ok(()),
        }
    }

    fn values(&self, class: ClassNo, use_no: u32, column: u32) -> Result<ValueList, NoMemory>
        ensures { IfOk result (λ values.
            values ≡ values_in (rows_held use_no (frozen_of self.now.frozen class.0)) column) }
    {
        match self.spaces.get(class.0 as usize) {
            Some(Some(space)) => space.values(use_no, column),
            _ => Ok(ValueList::from_vec(Vec::new(self.alloc))),
        }
    }

    fn count(&self, class: ClassNo, use_no: u32) -> u64
        ensures { result ≡ length (rows_held use_no (frozen_of self.now.frozen class.0)) }
    {
        match self.spaces.get(class.0 as usize) {
            Some(Some(space)) => space.count(use_no),
            _ => 0,
        }
    }

    /// Reduces the rows of a use, and counts those that are left.
    fn reduce(
        &mut self,
        class: ClassNo,
        ts: Ts,
        use_no: u32,
        column: u32,
        values: &[Value],
    ) -> Result<u64, NoMemory>
        ensures state { OnOk result (self.new ≡ record self.old {
          frozen = update class.0 (reduced_at ts.0 use_no column values.now) self.old.frozen;
        }) }
        ensures count { IfOk result (λ count. count ≡ length (rows_held use_no
            (frozen_of (update class.0 (reduced_at ts.0 use_no column values.now) self.old.frozen)
            class.0))) }
    {
        reduce_space(&mut self.spaces, class, ts, use_no, column, values)?;
        Ok(self.count(class, use_no))
    }

    fn ship(&mut self, class: ClassNo) -> Result<UseRows, NoMemory>
        ensures rows { IfOk result (λ rows.
            rows ≡ all_held (frozen_of self.old.frozen class.0)) }
        ensures state { OnOk result (self.new ≡ record self.old {
          frozen = update class.0 (λ f. None) self.old.frozen;
        }) }
    {
        match put_space(&mut self.spaces, class, None) {
            Some(space) => space.ship(),
            None => Ok(UseRows::from_vec(Vec::new(self.alloc))),
        }
    }
}

/// The class of a READ, WRITE or NULL.
fn class_of_pipe(msg: &Msg) -> Option<ClassNo>
    ensures { option_map (λ class. class.0) result ≡ class_of_pipe msg.now }
{
    match msg {
        Msg::Read { class, .. } => Some(*class),
        Msg::Write { class, .. } => Some(*class),
        Msg::Null { class, .. } => Some(*class),
        _ => None,
    }
}
