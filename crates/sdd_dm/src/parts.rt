//! The parts of a data module.
ghost use Rattle.std.specs.Prelude.{◌≡◌, ◌<◌, ℕ, [], IfOk, OnOk, IsTrue, length, Some, None};
ghost use Rattle.std.specs.List.{All};
ghost use Rattle.std.specs.Option.{option_copied};
ghost use Rattle.sdd_module.specs.All.{D, FitsStart};
ghost use Rattle.sdd_dm.specs.Heads.{first_step};
ghost use Rattle.sdd_dm.specs.Represents.{Shows, Worked};
ghost use Rattle.sdd_dm.specs.State.{class_of_pipe};
ghost use Rattle.sdd_rules.specs.dm.Views.{source_of};
ghost use Rattle.sdd_dm.specs.Waiting.{waiting_in, first_unmet, holders_in, unmet_in};

use crate::hints::Hints;
use crate::holding::{ClassNos, holders};
use crate::judging::{awaited_cond, first_step, unmet_conds};
use crate::starting::{first_copies, no_spaces, no_waits, sources};
use sdd_copy::{Copies, Space};
use sdd_module::{
    Catalogue, ClassNo, Cond, Conds, DmNo, Draft, Msg, NoMemory, RelNo, Row, Site, Ts,
    law_rows_make_database,
};
use sdd_pipe::Pipes;
use sdd_rules::Step;
use std::alloc::Global;
use std::marker::Model;

/// The parts of a data module: its number, the site of each class, its pipes and which of their
/// heads wait, its copies, and by class the rows that are frozen and what kept its head from acting
/// when it was looked at last.
#[derive(Drop)]
pub struct Parts {
    pub dm: DmNo,
    pub sources: Vec<Site>,
    pub pipes: Pipes,
    pub waits: Vec<bool>,
    pub copies: Copies,
    pub spaces: Vec<Option<Space>>,
    pub hints: Hints,
    pub alloc: Global,
}

impl Model for Parts {
    ghost use Rattle.sdd_dm.specs.State.{State};

    ghost Value = { State };

    ghost view = { λ p. record {
      home = record { dm = p.dm; sources = p.sources.items };
      pipes_live = p.pipes.live;
      pipes = p.pipes.value;
      waits = p.waits.items;
      copies = p.copies;
      frozen = p.spaces.items;
    } };
}

impl Parts {
    /// The parts of a module to which nothing was handed.
    pub fn new(
        alloc: Global,
        catalogue: &Catalogue,
        dm: DmNo,
        rows: &[(RelNo, Row)],
    ) -> Result<Parts, NoMemory>
        requires { All (FitsStart catalogue.now) rows.now }
        ensures shows { IfOk result (λ parts. Shows
            (record { catalogue = catalogue.now; site = D dm; rows = rows.now }) parts []) }
        ensures quiet { IfOk result (λ parts. first_step parts.pipes parts.waits ≡ None) }
    {
        catalogue.law_is_sound();
        law_rows_make_database(catalogue, rows);
        let classes = catalogue.classes();
        let sources = sources(alloc, catalogue)?;
        let pipes = Pipes::new(alloc, classes)?;
        let waits = no_waits(alloc, classes + 1)?;
        let copies = first_copies(alloc, catalogue, dm, rows)?;
        let spaces = no_spaces(alloc, classes + 1)?;
        let hints = Hints::new(alloc, classes + 1)?;
        Ok(Parts {
            dm,
            sources,
            pipes,
            waits,
            copies,
            spaces,
            hints,
            alloc,
        })
    }

    /// Takes a message, and then lets the first head do what it may, until none may do something.
    pub fn work(&mut self, from: Site, msg: Msg) -> Result<Draft, NoMemory>
        requires live { IsTrue self.old.copies.live }
        requires pipes_live { IsTrue self.old.pipes_live }
        requires flags { length self.old.waits ≡ length self.old.pipes }
        requires known { (c : ℕ) → class_of_pipe msg ≡ Some c → c < length self.old.pipes }
        ensures worked { IfOk result (λ draft. Worked from msg self.old self.new draft) }
        ensures quiet { OnOk result (first_step self.new.pipes self.new.waits ≡ None) }
    {
        let mut draft = Draft::new(self.alloc);
        self.hand(from, msg, &mut draft)?;
        while let Some((class, step)) = self.first_step()? {
            self.perform(class, step, &mut draft)?;
        }
        Ok(draft)
    }

    /// The site that runs a class.
    pub fn source(&self, class: ClassNo) -> Site
        ensures { result ≡ source_of self.now.home class.0 }
    {
        self.sources
            .get(class.0 as usize)
            .copied()
            .unwrap_or(Site::U)
    }

    /// The first head that may do something, from class 0 on.
    fn first_step(&mut self) -> Result<Option<(ClassNo, Step)>, NoMemory>
        ensures step { IfOk result (λ step. step ≡ first_step self.new.pipes self.new.waits) }
        ensures same { self.new ≡ self.old }
    {
        first_step(
            self.alloc,
            &self.pipes,
            self.waits.as_slice(),
            &mut self.hints,
        )
    }

    /// Of the READ of a class, where it waits, the conditions that aren't met.
    pub fn unmet_conds(&self, class: ClassNo) -> Result<Option<Conds>, NoMemory>
        ensures { IfOk result (λ conds. conds ≡ unmet_in self.now.pipes self.now.waits class.0) }
    {
        unmet_conds(self.alloc, &self.pipes, self.waits.as_slice(), class)
    }

    /// For the WRITE at the head of a class, the classes whose READ holds it back.
    pub fn holders(&self, class: ClassNo) -> Result<Option<ClassNos>, NoMemory>
        ensures { IfOk result (λ classes. classes ≡ holders_in self.now.pipes self.now.waits class.0) }
    {
        holders(self.alloc, &self.pipes, self.waits.as_slice(), class)
    }

    /// Of the READ of a class with this timestamp, where it waits, the first condition that isn't
    /// met.
    pub fn awaited_cond(&self, class: ClassNo, ts: Ts) -> Option<&Cond>
        ensures { option_copied result ≡ first_unmet self.now.pipes
            (waiting_in self.now.pipes self.now.waits class.0 ts.0) }
    {
        awaited_cond(&self.pipes, self.waits.as_slice(), class, ts)
    }
}
