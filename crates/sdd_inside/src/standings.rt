//! How sites stand, in a line.
ghost use Rattle.std.specs.Prelude.{◌≡◌, ◌++◌, ◌∷◌, codes, OnOk};
ghost use Rattle.sdd_script.specs.base.declared.site.Site.TheVariants as sites;
ghost use Rattle.sdd_inside.specs.Json.{quoted, also, member};
ghost use Rattle.sdd_inside.specs.Pieces.{phase_in};
ghost use Rattle.sdd_inside.specs.Standings.{phase_word, stage_word, attempt_members, phase_members, active_json, question_json, head_json, standing, tm_flags, tm_lists, u_stage, u_lists, dm_members, site_state_json};

use crate::messages::put_attempt_member;
use crate::pieces::put;
use crate::standing::{Active, DmState, Head, Phase, Question, SiteState, Stage, TmState, UState};
use crate::to_json::{ToJson, put_also, put_if, tell_first, tell_list, tell_some, tell_triple};
use sdd_script::{Catalogue, NoMemory, Site, Txn};

/// Puts a member that is one of a few words.
#[tactic(auto, unfolding(crate::specs::Json::also))]
#[inline(always)]
fn put_word(out: &mut Vec<u8>, text: &[u8]) -> Result<(), NoMemory>
    requires { text.now ≡ 44 ∷ member (codes "phase") (quoted (phase_in text.now)) }
    ensures { OnOk result (
        out.new.items ≡ out.old.items ++ also (codes "phase") (quoted (phase_in text.now))) }
{
    put(out, text)
}

/// Puts what an attempt waits for.
#[inline(always)]
fn put_phase(out: &mut Vec<u8>, phase: Phase) -> Result<(), NoMemory>
    ensures { OnOk result (out.new.items ≡ out.old.items ++ also (codes "phase") (quoted (phase_word phase))) }
{
    match phase {
        Phase::Reading => put_word(out, b",\"phase\":\"reading\""),
        Phase::Fetching => put_word(out, b",\"phase\":\"fetching\""),
        Phase::Reducing => put_word(out, b",\"phase\":\"reducing\""),
        Phase::Shipping => put_word(out, b",\"phase\":\"shipping\""),
    }
}

/// Puts what the module for undeclared transactions is doing.
fn put_stage(out: &mut Vec<u8>, stage: Stage) -> Result<(), NoMemory>
    ensures { OnOk result (out.new.items ≡ out.old.items ++ also (codes "phase") (quoted (stage_word stage))) }
{
    match stage {
        Stage::Idle => put_word(out, b",\"phase\":\"idle\""),
        Stage::Holding => put_word(out, b",\"phase\":\"holding\""),
        Stage::Reading => put_word(out, b",\"phase\":\"reading\""),
        Stage::Writing => put_word(out, b",\"phase\":\"writing\""),
    }
}

fn put_active_attempt(out: &mut Vec<u8>, active: &Active, txns: &[Txn]) -> Result<(), NoMemory>
    ensures { OnOk result (out.new.items ≡ out.old.items ++ attempt_members txns.now active.now) }
{
    put_attempt_member(out, txns, active.txn, active.attempt)?;
    put_also(out, b",\"time\":", active.time.0)
}

fn put_active_phase(
    out: &mut Vec<u8>,
    active: &Active,
    catalogue: &Catalogue,
    txns: &[Txn],
) -> Result<(), NoMemory>
    ensures { OnOk result (out.new.items ≡ out.old.items ++ phase_members catalogue.now txns.now active.now) }
{
    put_phase(out, active.phase)?;
    tell_some(out, b",\"lacks\":[", &active.lacks, catalogue, txns)
}

impl ToJson for Active {
    ghost json = { active_json };

    #[tactic(auto, using(crate::proofs::Members::object_of_two))]
    fn tell(&self, out: &mut Vec<u8>, catalogue: &Catalogue, txns: &[Txn]) -> Result<(), NoMemory> {
        tell_first(out, b"{\"class\":", &self.class, catalogue, txns)?;
        put_active_attempt(out, self, txns)?;
        put_active_phase(out, self, catalogue, txns)?;
        put(out, b"}")
    }
}

impl ToJson for Question {
    ghost json = { question_json };

    fn tell(&self, out: &mut Vec<u8>, catalogue: &Catalogue, txns: &[Txn]) -> Result<(), NoMemory> {
        tell_triple(out, &self.class, &self.from, &self.time, catalogue, txns)
    }
}

impl ToJson for Head {
    ghost json = { head_json };

    #[tactic(auto, using(crate::proofs::Members::object_put))]
    fn tell(&self, out: &mut Vec<u8>, catalogue: &Catalogue, txns: &[Txn]) -> Result<(), NoMemory> {
        match self {
            Head::Waits { class, conds } => {
                tell_first(out, b"{\"class\":", class, catalogue, txns)?;
                tell_list(out, b",\"waits\":[", conds.as_slice(), catalogue, txns)?;
                put(out, b"}")
            }
            Head::Held { class, readers } => {
                tell_first(out, b"{\"class\":", class, catalogue, txns)?;
                tell_list(out, b",\"held\":[", readers.as_slice(), catalogue, txns)?;
                put(out, b"}")
            }
        }
    }
}

fn put_tm_flags(out: &mut Vec<u8>, state: &TmState) -> Result<(), NoMemory>
    ensures { OnOk result (out.new.items ≡ out.old.items ++ tm_flags state.now) }
{
    put_if(out, b",\"down\":true", state.is_down)?;
    put_also(out, b",\"clock\":", state.clock)?;
    put_if(out, b",\"hold\":true", state.on_hold)?;
    put_if(out, b",\"owes\":true", state.owes_held)
}

fn put_tm_lists(
    out: &mut Vec<u8>,
    state: &TmState,
    catalogue: &Catalogue,
    txns: &[Txn],
) -> Result<(), NoMemory>
    ensures { OnOk result (out.new.items ≡ out.old.items ++ tm_lists catalogue.now txns.now state.now) }
{
    tell_some(out, b",\"asks\":[", &state.asks, catalogue, txns)?;
    tell_some(out, b",\"active\":[", &state.active, catalogue, txns)
}

fn put_u_stage(out: &mut Vec<u8>, state: &UState) -> Result<(), NoMemory>
    ensures { OnOk result (out.new.items ≡ out.old.items ++ u_stage state.now) }
{
    put_also(out, b",\"clock\":", state.clock)?;
    put_stage(out, state.stage)
}

fn put_u_lists(
    out: &mut Vec<u8>,
    state: &UState,
    catalogue: &Catalogue,
    txns: &[Txn],
) -> Result<(), NoMemory>
    ensures { OnOk result (out.new.items ≡ out.old.items ++ u_lists catalogue.now txns.now state.now) }
{
    tell_some(out, b",\"lacks\":[", &state.lacks, catalogue, txns)?;
    tell_some(out, b",\"active\":[", &state.active, catalogue, txns)
}

fn put_dm_members(
    out: &mut Vec<u8>,
    state: &DmState,
    catalogue: &Catalogue,
    txns: &[Txn],
) -> Result<(), NoMemory>
    ensures { OnOk result (out.new.items ≡ out.old.items ++ dm_members catalogue.now txns.now state.now) }
{
    put_if(out, b",\"down\":true", state.is_down)?;
    tell_some(out, b",\"heads\":[", &state.heads, catalogue, txns)
}

#[tactic(auto, using(crate::proofs::Members::object_of_two))]
fn put_u(
    out: &mut Vec<u8>,
    state: &UState,
    catalogue: &Catalogue,
    txns: &[Txn],
) -> Result<(), NoMemory>
    ensures { OnOk result (
        out.new.items
        ≡ out.old.items
        ++ standing catalogue.now txns.now sites.U
        (u_stage state.now ++ u_lists catalogue.now txns.now state.now)) }
{
    tell_first(out, b"{\"at\":", &Site::U, catalogue, txns)?;
    put_u_stage(out, state)?;
    put_u_lists(out, state, catalogue, txns)?;
    put(out, b"}")
}

#[tactic(auto, using(crate::proofs::Members::object_of_two))]
fn put_tm(
    out: &mut Vec<u8>,
    state: &TmState,
    catalogue: &Catalogue,
    txns: &[Txn],
) -> Result<(), NoMemory>
    ensures { OnOk result (
        out.new.items
        ≡ out.old.items
        ++ standing catalogue.now txns.now (sites.T state.now.tm)
        (tm_flags state.now ++ tm_lists catalogue.now txns.now state.now)) }
{
    tell_first(out, b"{\"at\":", &Site::T(state.tm), catalogue, txns)?;
    put_tm_flags(out, state)?;
    put_tm_lists(out, state, catalogue, txns)?;
    put(out, b"}")
}

#[tactic(auto, using(crate::proofs::Members::object_put))]
fn put_dm(
    out: &mut Vec<u8>,
    state: &DmState,
    catalogue: &Catalogue,
    txns: &[Txn],
) -> Result<(), NoMemory>
    ensures { OnOk result (
        out.new.items
        ≡ out.old.items
        ++ standing catalogue.now txns.now (sites.D state.now.dm)
        (dm_members catalogue.now txns.now state.now)) }
{
    tell_first(out, b"{\"at\":", &Site::D(state.dm), catalogue, txns)?;
    put_dm_members(out, state, catalogue, txns)?;
    put(out, b"}")
}

impl ToJson for SiteState {
    ghost json = { site_state_json };

    fn tell(&self, out: &mut Vec<u8>, catalogue: &Catalogue, txns: &[Txn]) -> Result<(), NoMemory> {
        match self {
            SiteState::U(state) => put_u(out, state, catalogue, txns),
            SiteState::T(state) => put_tm(out, state, catalogue, txns),
            SiteState::D(state) => put_dm(out, state, catalogue, txns),
        }
    }
}
