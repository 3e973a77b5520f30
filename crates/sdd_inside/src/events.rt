//! Events as a workload spells them.
ghost use Rattle.std.specs.Prelude.{◌≡◌, ◌++◌, ◌∷◌, [], codes, true, OnOk};
ghost use Rattle.std.specs.Fmt.{decimal};
ghost use Rattle.std.specs.List.{list_all};
ghost use Rattle.sdd_script.specs.words.Words.{line_bytes, spaced};
ghost use Rattle.sdd_script.specs.All.{Plain};
ghost use Rattle.sdd_script.specs.Spelling.{site_word, count_word, event_words};
ghost use Rattle.sdd_inside.specs.Json.{escaped, is_verbatim};
ghost use Rattle.sdd_inside.specs.Words.{event_json};

use crate::escape::put_verbatim;
use crate::names::txn_name;
use crate::numbers::put_decimal;
use crate::pieces::put;
use sdd_script::{Event, NoMemory, Site, Txn};

#[inline(always)]
fn put_number(out: &mut Vec<u8>, number: u32) -> Result<(), NoMemory>
    ensures { OnOk result (out.new.items ≡ out.old.items ++ spaced (count_word number)) }
{
    put(out, b" ")?;
    put_decimal(out, u64::from(number))
}

/// Puts the word of a module after a space: in one piece where its number has at most two digits, as
/// all modules of a catalogue have.
#[tactic(auto, using(crate::proofs::Digits::one, crate::proofs::Digits::two))]
#[inline(always)]
fn put_module(out: &mut Vec<u8>, letter: u8, number: u8) -> Result<(), NoMemory>
    ensures { OnOk result (out.new.items ≡ out.old.items ++ 32 ∷ letter ∷ decimal number) }
{
    if number < 10 {
        return put(out, &[b' ', letter, b'0' + number]);
    }
    if number < 100 {
        return put(out, &[b' ', letter, b'0' + number / 10, b'0' + number % 10]);
    }
    put(out, &[b' ', letter])?;
    put_decimal(out, u64::from(number))
}

fn put_site(out: &mut Vec<u8>, site: Site) -> Result<(), NoMemory>
    ensures { OnOk result (out.new.items ≡ out.old.items ++ spaced (site_word site)) }
{
    match site {
        Site::U => put(out, b" U"),
        Site::T(tm) => put_module(out, b'T', tm.0),
        Site::D(dm) => put_module(out, b'D', dm.0),
    }
}

// Keywords, sites and numbers have no byte that a string escapes: what is put is escaped already.

#[tactic(auto, using(crate::proofs::EventWords::put_of_site))]
fn put_at(out: &mut Vec<u8>, key: &[u8], site: Site) -> Result<(), NoMemory>
    requires { list_all is_verbatim key.now ≡ true }
    ensures { OnOk result (
        out.new.items
        ≡ out.old.items ++ escaped (line_bytes (Plain key.now ∷ site_word site ∷ []))) }
{
    put(out, key)?;
    put_site(out, site)
}

#[tactic(auto, using(crate::proofs::EventWords::put_of_link))]
#[inline(always)]
fn put_link(out: &mut Vec<u8>, key: &[u8], from: Site, to: Site) -> Result<(), NoMemory>
    requires { list_all is_verbatim key.now ≡ true }
    ensures { OnOk result (
        out.new.items
        ≡ out.old.items
        ++ escaped (line_bytes (Plain key.now ∷ site_word from ∷ site_word to ∷ []))) }
{
    put(out, key)?;
    put_site(out, from)?;
    put_site(out, to)
}

#[tactic(auto, using(crate::proofs::EventWords::put_of_place))]
#[inline(always)]
fn put_place(
    out: &mut Vec<u8>,
    key: &[u8],
    from: Site,
    to: Site,
    place: u32,
) -> Result<(), NoMemory>
    requires { list_all is_verbatim key.now ≡ true }
    ensures { OnOk result (
        out.new.items
        ≡ out.old.items
        ++ escaped (line_bytes (Plain key.now ∷ site_word from ∷ site_word to ∷ count_word place ∷ []))) }
{
    put(out, key)?;
    put_site(out, from)?;
    put_site(out, to)?;
    put_number(out, place)
}

#[tactic(auto, using(crate::proofs::EventWords::put_of_tick))]
fn put_tick(out: &mut Vec<u8>, key: &[u8], site: Site, n: u32) -> Result<(), NoMemory>
    requires { list_all is_verbatim key.now ≡ true }
    ensures { OnOk result (
        out.new.items
        ≡ out.old.items
        ++ escaped (line_bytes (Plain key.now ∷ site_word site ∷ count_word n ∷ []))) }
{
    put(out, key)?;
    put_site(out, site)?;
    put_number(out, n)
}

#[tactic(auto, using(crate::proofs::EventWords::put_of_name))]
fn put_submit(out: &mut Vec<u8>, name: &[u8]) -> Result<(), NoMemory>
    requires { list_all is_verbatim name.now ≡ true }
    ensures { OnOk result (
        out.new.items
        ≡ out.old.items
        ++ escaped (line_bytes (Plain (codes "submit") ∷ Plain name.now ∷ []))) }
{
    put(out, b"submit ")?;
    put_verbatim(out, name)
}

fn put_words(out: &mut Vec<u8>, txns: &[Txn], event: Event) -> Result<(), NoMemory>
    ensures { OnOk result (
        out.new.items ≡ out.old.items ++ escaped (line_bytes (event_words txns.now event))) }
{
    match event {
        Event::Submit(txn) => put_submit(out, txn_name(txns, txn)),
        Event::Deliver { from, to, place } => put_place(out, b"deliver", from, to, place),
        Event::Lose { from, to, place } => put_place(out, b"lose", from, to, place),
        Event::Repeat { from, to, place } => put_place(out, b"repeat", from, to, place),
        Event::Resend { from, to } => put_link(out, b"resend", from, to),
        Event::Tick { tm, n } => put_tick(out, b"tick", Site::T(tm), n),
        Event::Settle => put(out, b"settle"),
        Event::Redeclare => put(out, b"redeclare"),
        Event::Down(at) => put_at(out, b"down", at),
        Event::Up(at) => put_at(out, b"up", at),
    }
}

/// Puts an event as a string.
#[tactic(auto, using(crate::proofs::EventWords::between_quotes))]
pub(crate) fn put_event(out: &mut Vec<u8>, txns: &[Txn], event: Event) -> Result<(), NoMemory>
    ensures { OnOk result (out.new.items ≡ out.old.items ++ event_json txns.now event) }
{
    put(out, b"\"")?;
    put_words(out, txns, event)?;
    put(out, b"\"")
}
