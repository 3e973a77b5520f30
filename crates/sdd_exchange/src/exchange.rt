ghost use Rattle.std.specs.Prelude.{◌≡◌, ◌<◌, ◌+◌, ◌^◌, ◌==◌, ◌&&◌, ◌++◌, [], ◌∷◌, List, filter_map, length, map, IfOk, OnOk, option_map, not};
ghost use Rattle.sdd_module.specs.All.{Msg, Site, head_of, is_empty, with_values};
ghost use Rattle.sdd_rules.specs.All.{after_hand, after_send, answered, begins, counted, fetches, goes_on, is_over, module_read, phase_ends};
ghost use Rattle.sdd_rules.specs.attempt.Exchange.{reduces, ships};
ghost use Rattle.sdd_exchange.specs.Outbox.{numbered};
ghost use Rattle.sdd_exchange.specs.Phases.{awaited_in, move_of};
ghost use Rattle.sdd_exchange.specs.Room.{AreSmall, IsSmallText};
ghost use Rattle.sdd_rules.specs.attempt.Standings.{lowest};

use crate::answer::Answer;
use crate::counts::Counts;
use crate::modules::{DmNos, Modules};
use crate::outbox::Outbox;
use crate::phase::{Phase, Reduction, next_reduction};
use crate::queries::{Asking, askings};
use sdd_module::{ClassNo, DmNo, Msg, NoMemory, Row, Ts, Txn, UseRows, Value, ValueList};
use sdd_semijoin::Step;
use sdd_union::{list_values, unite};
use std::alloc::Global;
use std::collections::{BTreeSet, VecDeque};
use std::marker::Model;

/// How an attempt asks its modules for rows: how far it has come, and what is known of them.
#[derive(Drop)]
pub struct Exchange {
    alloc: Global,
    modules: Modules,
    phase: Phase,
    to_send: Outbox,
    lacks: DmNos,
    counts: Counts,
    left: VecDeque<Asking>,
    done: Vec<Step>,
    union: BTreeSet<Value>,
    values: u128,
    rows: u128,
    found: Vec<(u32, Row)>,
}

impl Model for Exchange {
    ghost use Rattle.sdd_rules.specs.attempt.Exchange as exchanges;
    ghost use Rattle.sdd_exchange.specs.Phases.{phase_of};

    ghost Value = { exchanges.Exchange };

    ghost view = { λ x.
        record {
          modules = x.modules;
          phase = phase_of x.phase;
          to_send = x.to_send;
          lacks = x.lacks;
          counts = x.counts;
          left = x.left.items;
          done = x.done.items;
          union = x.union.keys;
          values = x.values;
          rows = x.rows;
          found = x.found.items;
        } };
}

impl Exchange {
    /// The exchange of an attempt of this transaction whose Start sends READs to these modules.
    pub fn begin(alloc: Global, text: &Txn, modules: Modules) -> Result<Exchange, NoMemory>
        requires { IsSmallText text.now }
        ensures { IfOk result (λ x.
            (reads : List (Site × Msg)) → modules ≡ filter_map module_read reads
            → x ≡ begins text.now reads) }
    {
        let lacks = modules.all(alloc)?;
        let phase = if modules.is_empty() {
            Phase::Over
        } else {
            Phase::Reading
        };
        Ok(Exchange {
            alloc,
            modules,
            phase,
            to_send: Outbox::new(alloc),
            lacks,
            counts: Counts::new(alloc),
            left: askings(alloc, text)?,
            done: Vec::new(alloc),
            union: BTreeSet::new(alloc),
            values: 0,
            rows: 0,
            found: Vec::new(alloc),
        })
    }

    /// Whether a message is to be sent.
    pub fn has_to_send(&self) -> bool
        ensures { result ≡ not (is_empty self.now.to_send) }
    {
        !self.to_send.is_empty()
    }

    /// Whether the attempt may commit, once nothing is to be sent.
    pub fn is_over(&self) -> bool
        ensures { result ≡ is_over self.now.phase }
    {
        match self.phase {
            Phase::Over => true,
            _ => false,
        }
    }

    /// What it awaits; nothing where it is over.
    pub fn awaits(&self) -> Option<Answer>
        ensures { result ≡ awaited_in self.now.phase }
    {
        match self.phase {
            Phase::Reading => Some(Answer::Ready),
            Phase::Fetching(_) => Some(Answer::Values),
            Phase::Reducing(_) => Some(Answer::Reduced),
            Phase::Shipping => Some(Answer::Rows),
            Phase::Over => None,
        }
    }

    /// The modules whose answer is missing.
    pub fn missing_dms(&self) -> &[DmNo]
        ensures { map (λ n. n.0) result.now ≡ self.now.lacks }
    {
        self.lacks.as_slice()
    }

    /// Of the modules whose answer is missing, the one with the lowest number.
    pub fn lowest_missing(&self) -> Option<DmNo>
        ensures { option_map (λ n. n.0) result ≡ lowest self.now.lacks }
    {
        self.lacks.lowest()
    }

    /// How many values were sent for the attempt so far.
    pub fn values(&self) -> u128
        ensures { result ≡ self.now.values }
    {
        self.values
    }

    /// How many rows were sent for the attempt so far.
    pub fn rows(&self) -> u128
        ensures { result ≡ self.now.rows }
    {
        self.rows
    }

    /// The rows that came, each with the number of its use.
    pub fn into_found(self) -> Vec<(u32, Row)>
        ensures { result.items ≡ self.found }
    {
        self.found
    }

    /// Takes the next message that is to be sent.
    pub fn next_send(&mut self) -> Option<(DmNo, Msg)>
        ensures message { option_map numbered result ≡ head_of self.old.to_send }
        ensures rest { self.new ≡ after_send self.old }
    {
        self.to_send.next()
    }

    /// Takes a message of a module: the attempt is of this class and has this timestamp, and what
    /// answers another attempt changes nothing.
    ///
    /// Costs time in the counts that are held and in what the message carries; where it is the last
    /// answer that was missing, also what the next messages carry.
    pub fn hand(&mut self, ts: Ts, class: ClassNo, dm: DmNo, msg: Msg) -> Result<(), NoMemory>
        requires small { AreSmall self.old.left }
        requires values { (after_hand ts.0 class.0 dm.0 msg self.old).values < 2 ^ 128 }
        requires rows { self.old.rows ≡ length self.old.found }
        ensures { OnOk result (self.new ≡ after_hand ts.0 class.0 dm.0 msg self.old) }
    {
        match msg {
            Msg::Ready {
                ts: t,
                class: k,
                counts,
            } => {
                if !is_own(t, k, ts, class) {
                    return Ok(());
                }
                self.take_counts(ts, class, dm, counts.as_slice())
            }
            Msg::Values {
                ts: t,
                class: k,
                use_no: _,
                values,
            } => {
                if !is_own(t, k, ts, class) {
                    return Ok(());
                }
                self.take_values(ts, class, dm, values)
            }
            Msg::Reduced {
                ts: t,
                class: k,
                use_no,
                count,
            } => {
                if !is_own(t, k, ts, class) {
                    return Ok(());
                }
                self.take_count(ts, class, dm, use_no, count)
            }
            Msg::Rows {
                ts: t,
                class: k,
                rows,
            } => {
                if !is_own(t, k, ts, class) {
                    return Ok(());
                }
                self.take_rows(ts, class, dm, rows)
            }
            _ => Ok(()),
        }
    }

    /// A module has answered its READ: so many rows are held there for each use.
    fn take_counts(
        &mut self,
        ts: Ts,
        class: ClassNo,
        dm: DmNo,
        counts: &[(u32, u64)],
    ) -> Result<(), NoMemory>
        requires small { AreSmall self.old.left }
        requires values { (answered ts.0 class.0 dm.0 (record self.old {
          counts = counted dm.0 counts.now self.old.counts;
        })).values < 2 ^ 128 }
        ensures { OnOk result (self.new ≡ answered ts.0 class.0 dm.0 (record self.old {
          counts = counted dm.0 counts.now self.old.counts;
        })) }
    {
        self.counts.put_all(dm, counts)?;
        self.answer(ts, class, dm)
    }

    /// A module has answered a FETCH with these values.
    fn take_values(
        &mut self,
        ts: Ts,
        class: ClassNo,
        dm: DmNo,
        values: ValueList,
    ) -> Result<(), NoMemory>
        requires small { AreSmall self.old.left }
        requires fit { self.old.values + length values < 2 ^ 128 }
        requires values { (answered ts.0 class.0 dm.0 (record self.old {
          union = with_values self.old.union values;
          values = self.old.values + length values;
        })).values < 2 ^ 128 }
        ensures { OnOk result (self.new ≡ answered ts.0 class.0 dm.0 (record self.old {
          union = with_values self.old.union values;
          values = self.old.values + length values;
        })) }
    {
        self.values += values.as_slice().len() as u128;
        unite(&mut self.union, values)?;
        self.answer(ts, class, dm)
    }

    /// A module has answered a REDUCE: so many rows of the use are left there.
    fn take_count(
        &mut self,
        ts: Ts,
        class: ClassNo,
        dm: DmNo,
        use_no: u32,
        count: u64,
    ) -> Result<(), NoMemory>
        requires small { AreSmall self.old.left }
        requires values { (answered ts.0 class.0 dm.0 (record self.old {
          counts = counted dm.0 ((use_no, count) ∷ []) self.old.counts;
        })).values < 2 ^ 128 }
        ensures { OnOk result (self.new ≡ answered ts.0 class.0 dm.0 (record self.old {
          counts = counted dm.0 ((use_no, count) ∷ []) self.old.counts;
        })) }
    {
        self.counts.put(dm, use_no, count)?;
        self.answer(ts, class, dm)
    }

    /// A module has answered the SHIP with these rows.
    fn take_rows(&mut self, ts: Ts, class: ClassNo, dm: DmNo, rows: UseRows) -> Result<(), NoMemory>
        requires small { AreSmall self.old.left }
        requires rows { self.old.rows ≡ length self.old.found }
        requires values { (answered ts.0 class.0 dm.0 (record self.old {
          found = self.old.found ++ rows;
          rows = self.old.rows + length rows;
        })).values < 2 ^ 128 }
        ensures { OnOk result (self.new ≡ answered ts.0 class.0 dm.0 (record self.old {
          found = self.old.found ++ rows;
          rows = self.old.rows + length rows;
        })) }
    {
        put_behind(&mut self.found, rows.into_vec())?;
        self.rows = self.found.len() as u128;
        self.answer(ts, class, dm)
    }

    /// A module has answered.
    fn answer(&mut self, ts: Ts, class: ClassNo, dm: DmNo) -> Result<(), NoMemory>
        requires small { AreSmall self.old.left }
        requires values { (answered ts.0 class.0 dm.0 self.old).values < 2 ^ 128 }
        ensures { OnOk result (self.new ≡ answered ts.0 class.0 dm.0 self.old) }
    {
        self.lacks.remove(dm);
        if !self.lacks.is_empty() {
            return Ok(());
        }
        self.end_phase(ts, class)
    }

    /// All answers of the phase came.
    fn end_phase(&mut self, ts: Ts, class: ClassNo) -> Result<(), NoMemory>
        requires small { AreSmall self.old.left }
        requires values { (phase_ends ts.0 class.0 self.old self.old.phase).values < 2 ^ 128 }
        ensures { OnOk result (self.new ≡ phase_ends ts.0 class.0 self.old self.old.phase) }
    {
        match self.phase {
            Phase::Reading => self.go_on(ts, class),
            Phase::Fetching(one) => self.reduce(ts, class, one),
            Phase::Reducing(_) => self.go_on(ts, class),
            Phase::Shipping => {
                self.phase = Phase::Over;
                Ok(())
            }
            Phase::Over => Ok(()),
        }
    }

    /// The next move of the first query that has one; where none has, the rows are shipped.
    fn go_on(&mut self, ts: Ts, class: ClassNo) -> Result<(), NoMemory>
        requires small { AreSmall self.old.left }
        requires values { (goes_on ts.0 class.0 self.old self.old.left self.old.done).values < 2 ^ 128 }
        ensures { OnOk result (
            self.new ≡ goes_on ts.0 class.0 self.old self.old.left self.old.done) }
    {
        while let Some(query) = self.left.front() {
            let counts = self.counts.for_query(self.alloc, query)?;
            match next_reduction(query, &counts, &self.done) {
                Some(one) => {
                    self.done.push(one.step)?;
                    return self.fetch(ts, class, one);
                }
                None => {
                    self.left.pop_front();
                    self.done.clear();
                }
            }
        }
        self.ship(ts, class)
    }

    /// FETCH goes to the modules of the source; where there is none, no value comes.
    fn fetch(&mut self, ts: Ts, class: ClassNo, one: Reduction) -> Result<(), NoMemory>
        requires { (fetches ts.0 class.0 (move_of one) self.old).values < 2 ^ 128 }
        ensures { OnOk result (self.new ≡ fetches ts.0 class.0 (move_of one) self.old) }
    {
        self.union.clear();
        let dms = self.modules.with_use(self.alloc, one.source.part)?;
        if dms.is_empty() {
            return self.reduce(ts, class, one);
        }
        self.phase = Phase::Fetching(one);
        self.to_send = Outbox::fetches(self.alloc, ts, class, one.source, &dms)?;
        self.lacks = dms;
        Ok(())
    }

    /// REDUCE with the values that came goes to the modules of the target.
    fn reduce(&mut self, ts: Ts, class: ClassNo, one: Reduction) -> Result<(), NoMemory>
        requires { (reduces ts.0 class.0 (move_of one) self.old).values < 2 ^ 128 }
        ensures { OnOk result (self.new ≡ reduces ts.0 class.0 (move_of one) self.old) }
    {
        let dms = self.modules.with_use(self.alloc, one.target.part)?;
        let values = list_values(self.alloc, &self.union)?;
        self.values += values.as_slice().len() as u128 * dms.len() as u128;
        self.phase = Phase::Reducing(one);
        self.to_send = Outbox::reduces(self.alloc, ts, class, one.target, &values, &dms)?;
        self.lacks = dms;
        Ok(())
    }

    /// SHIP goes to all modules.
    fn ship(&mut self, ts: Ts, class: ClassNo) -> Result<(), NoMemory>
        ensures { OnOk result (self.new ≡ ships ts.0 class.0 self.old) }
    {
        let dms = self.modules.all(self.alloc)?;
        self.phase = Phase::Shipping;
        self.left.clear();
        self.done.clear();
        self.to_send = Outbox::ships(self.alloc, ts, class, &dms)?;
        self.lacks = dms;
        Ok(())
    }
}

/// Whether a message with this timestamp and class answers the attempt of the class.
fn is_own(t: Ts, k: ClassNo, ts: Ts, class: ClassNo) -> bool
    ensures { result ≡ ((t.0 == ts.0) && (k.0 == class.0)) }
{
    t == ts && k == class
}

/// Puts rows after those that came before. The first ones are taken as they are.
fn put_behind(found: &mut Vec<(u32, Row)>, mut rows: Vec<(u32, Row)>) -> Result<(), NoMemory>
    ensures { OnOk result (found.new.items ≡ found.old.items ++ rows.items) }
{
    if found.is_empty() {
        *found = rows;
        return Ok(());
    }
    found.append(&mut rows)?;
    Ok(())
}
