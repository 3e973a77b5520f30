//! What the head of a pipe does.
ghost use Rattle.std.specs.Prelude.{◌≡◌, ◌<◌, ◌++◌, ◌∷◌, [], OnOk, IfOk, IsTrue, fold, length, map, true, Some};
ghost use Rattle.sdd_copy.specs.Copies.{with_change};
ghost use Rattle.sdd_copy.specs.Frozen.{counts_of};
ghost use Rattle.sdd_copy.specs.Items.{dated};
ghost use Rattle.sdd_module.specs.All.{Read, Write, with_act, with_sends};
ghost use Rattle.sdd_pipe.specs.Pipes.{update};
ghost use Rattle.sdd_rules.specs.declared.step.Step.TheVariants.{Processes, Refuses, Waits};
ghost use Rattle.sdd_rules.specs.dm.Due.{ask_for};
ghost use Rattle.sdd_dm.specs.Heads.{head_at, step_at};
ghost use Rattle.sdd_dm.specs.State.{State, act_in, frozen_now, head_taken, state_after, notes_after};

use crate::parts::Parts;
use crate::slots::{put_space, set_waiting};
use sdd_copy::Space;
use sdd_module::{
    Changes, ClassNo, Cond, Conds, Draft, Msg, NoMemory, Rec, Site, Ts, TxnNo, Use, UseCounts,
};
use sdd_rules::Step;

impl Parts {
    /// Does what the head of a class may do.
    pub fn perform(&mut self, class: ClassNo, step: Step, draft: &mut Draft) -> Result<(), NoMemory>
        requires live { IsTrue self.old.copies.live }
        requires pipes_live { IsTrue self.old.pipes_live }
        requires known { class.0 < length self.old.pipes }
        requires step { step_at self.old.pipes self.old.waits class.0 ≡ Some step }
        ensures state { OnOk result (self.new
            ≡ state_after self.old class.0 (head_at self.old.pipes class.0) step) }
        ensures notes { OnOk result (draft.new
            ≡ notes_after self.old class.0 (head_at self.old.pipes class.0) step draft.old) }
    {
        match step {
            Step::Processes => self.process(class, draft),
            Step::Refuses(by, write) => self.refuse(class, by, write, draft),
            Step::Waits(conds) => self.wait(class, conds, draft),
        }
    }

    /// Processes the head of a class: a NULL passes, a WRITE is applied, a READ is answered.
    fn process(&mut self, class: ClassNo, draft: &mut Draft) -> Result<(), NoMemory>
        requires live { IsTrue self.old.copies.live }
        requires pipes_live { IsTrue self.old.pipes_live }
        requires known { class.0 < length self.old.pipes }
        requires step { step_at self.old.pipes self.old.waits class.0 ≡ Some Processes }
        ensures state { OnOk result (self.new
            ≡ state_after self.old class.0 (head_at self.old.pipes class.0) Processes) }
        ensures notes { OnOk result (draft.new
            ≡ notes_after self.old class.0 (head_at self.old.pipes class.0) Processes draft.old) }
    {
        match self.take(class) {
            Some(Msg::Null { class: of, time }) => draft.record(Rec::Pass {
                class: of,
                dm: self.dm,
                time,
            }),
            Some(
                Msg::Write {
                    ts,
                    class: of,
                    txn,
                    changes,
                },
            ) => self.apply(class, of, ts, txn, changes, draft),
            Some(
                Msg::Read {
                    ts,
                    class: of,
                    txn,
                    attempt,
                    conds: _,
                    uses,
                },
            ) => self.answer(class, of, ts, txn, attempt, uses.as_slice(), draft),
            _ => Ok(()),
        }
    }

    /// Applies the changes of a WRITE, and answers one of class 0.
    fn apply(
        &mut self,
        class: ClassNo,
        of: ClassNo,
        ts: Ts,
        txn: TxnNo,
        changes: Changes,
        draft: &mut Draft,
    ) -> Result<(), NoMemory>
        requires live { IsTrue self.old.copies.live }
        ensures state { OnOk result (self.new ≡ record self.old {
          copies = record {
            live = true;
            value = fold with_change self.old.copies.value (dated ts.0 changes);
          };
        }) }
        ensures notes { OnOk result (draft.new
            ≡ with_act (act_in self.old class.0 (Write ts of txn changes) Processes) draft.old) }
    {
        self.copies.apply(ts, changes)?;
        draft.record(Rec::Apply {
            txn,
            class: of,
            dm: self.dm,
            ts,
        })?;
        if class.0 == 0 {
            return draft.send(Site::U, Msg::Done { ts });
        }
        Ok(())
    }

    /// Freezes the rows of a READ, and sends how many they are.
    fn answer(
        &mut self,
        class: ClassNo,
        of: ClassNo,
        ts: Ts,
        txn: TxnNo,
        attempt: u64,
        uses: &[Use],
        draft: &mut Draft,
    ) -> Result<(), NoMemory>
        requires live { IsTrue self.old.copies.live }
        ensures state { OnOk result (self.new ≡ record self.old {
          frozen = update class.0 (λ f. Some (frozen_now self.old ts.0 uses.now)) self.old.frozen;
        }) }
        ensures notes { OnOk result (draft.new
            ≡ with_act (act_in self.old class.0 (Read ts of txn attempt [] uses.now) Processes)
            draft.old) }
    {
        let counts = self.freeze(class, ts, uses)?;
        draft.record(Rec::Answer {
            txn,
            attempt,
            dm: self.dm,
        })?;
        draft.send(
            self.source(class),
            Msg::Ready {
                ts,
                class: of,
                counts,
            },
        )
    }

    /// Takes the head of a class off its pipe; what is next there doesn't wait.
    fn take(&mut self, class: ClassNo) -> Option<Msg>
        requires pipes_live { IsTrue self.old.pipes_live }
        requires known { class.0 < length self.old.pipes }
        ensures head { result ≡ head_at self.old.pipes class.0 }
        ensures state { self.new ≡ head_taken class.0 self.old }
    {
        set_waiting(&mut self.waits, class, false);
        self.pipes.take(class)
    }

    /// Freezes the rows of the uses of a READ, in place of those that its class had, and counts
    /// them.
    fn freeze(&mut self, class: ClassNo, ts: Ts, uses: &[Use]) -> Result<UseCounts, NoMemory>
        requires live { IsTrue self.old.copies.live }
        ensures counts { IfOk result (λ counts.
            counts ≡ counts_of (frozen_now self.old ts.0 uses.now)) }
        ensures state { OnOk result (self.new ≡ record self.old {
          frozen = update class.0 (λ f. Some (frozen_now self.old ts.0 uses.now)) self.old.frozen;
        }) }
    {
        let space = Space::freeze(self.alloc, ts, uses, &self.copies)?;
        let counts = space.counts()?;
        put_space(&mut self.spaces, class, Some(space));
        Ok(counts)
    }

    /// Rejects the READ at the head of a class.
    fn refuse(
        &mut self,
        class: ClassNo,
        by: ClassNo,
        write: Ts,
        draft: &mut Draft,
    ) -> Result<(), NoMemory>
        requires pipes_live { IsTrue self.old.pipes_live }
        requires known { class.0 < length self.old.pipes }
        requires step { step_at self.old.pipes self.old.waits class.0 ≡ Some (Refuses by write) }
        ensures state { OnOk result (self.new
            ≡ state_after self.old class.0 (head_at self.old.pipes class.0) (Refuses by write)) }
        ensures notes { OnOk result (draft.new
            ≡ notes_after self.old class.0 (head_at self.old.pipes class.0) (Refuses by write)
            draft.old) }
    {
        let head = self.take(class);
        match &head {
            Some(
                Msg::Read {
                    ts,
                    class: of,
                    txn,
                    attempt,
                    ..
                },
            ) => self.reject_read(class, *of, *ts, *txn, *attempt, by, write, draft),
            _ => Ok(()),
        }
    }

    /// Records that a READ of a class is rejected, and sends the REJECT.
    fn reject_read(
        &self,
        class: ClassNo,
        of: ClassNo,
        ts: Ts,
        txn: TxnNo,
        attempt: u64,
        by: ClassNo,
        write: Ts,
        draft: &mut Draft,
    ) -> Result<(), NoMemory>
        ensures { OnOk result (draft.new
            ≡ with_act (act_in self.now class.0 (Read ts of txn attempt [] []) (Refuses by write))
            draft.old) }
    {
        draft.record(Rec::Reject {
            txn,
            attempt,
            dm: self.dm,
            class: by,
            ts: write,
        })?;
        draft.send(
            self.source(class),
            Msg::Reject {
                ts,
                class: of,
                by,
                write,
            },
        )
    }

    /// Lets the READ at the head of a class wait, and asks for NULLs.
    fn wait(&mut self, class: ClassNo, conds: Conds, draft: &mut Draft) -> Result<(), NoMemory>
        requires known { class.0 < length self.old.pipes }
        requires step { step_at self.old.pipes self.old.waits class.0 ≡ Some (Waits conds) }
        ensures state { OnOk result (self.new
            ≡ state_after self.old class.0 (head_at self.old.pipes class.0) (Waits conds)) }
        ensures notes { OnOk result (draft.new
            ≡ notes_after self.old class.0 (head_at self.old.pipes class.0) (Waits conds)
            draft.old) }
    {
        let (txn, attempt) = match self.pipes.head(class) {
            Some(Msg::Read { txn, attempt, .. }) => (*txn, *attempt),
            _ => return Ok(()),
        };
        self.ask(conds.as_slice(), draft)?;
        draft.record(Rec::Wait {
            txn,
            attempt,
            dm: self.dm,
            conds,
        })?;
        set_waiting(&mut self.waits, class, true);
        Ok(())
    }

    /// Sends an ASK for each condition to the site that runs its class.
    fn ask(&self, conds: &[Cond], draft: &mut Draft) -> Result<(), NoMemory>
        ensures { OnOk result (draft.new ≡ record draft.old {
          out = with_sends (map (ask_for self.now.home) conds.now) draft.old.out;
        }) }
    {
        for cond in conds {
            draft.send(
                self.source(cond.class),
                Msg::Ask {
                    class: cond.class,
                    time: cond.time,
                },
            )?;
        }
        Ok(())
    }
}
