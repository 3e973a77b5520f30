//! The text that a control file makes, piece by piece.
ghost use Rattle.std.specs.Prelude.{◌≡◌, ◌+◌, ◌-◌, ◌<◌, ◌≤◌, ◌^◌, ◌∷◌, ◌++◌, [], length, IsTrue, IfOk, OnOk};
ghost use Rattle.sdd_control.specs.Control.{live_at, next_note, run_after, run_of, with_event};
ghost use Rattle.sdd_control.specs.Report.{ending, note_line, note_lines, note_words, report, site_line, site_lines, spaced, status_words, value_word};
ghost use Rattle.sdd_control.specs.Script.{IsSoundScript};
ghost use Rattle.sdd_backups.specs.Standing.{finished, stopped, value};
ghost use Rattle.sdd_backups.specs.Steps.{FitAll, FitsAct};
ghost use Rattle.sdd_backups.specs.declared.note.Note.TheVariants.{Tell as Telling};

use crate::control::Control;
use crate::script::ControlScript;
use sdd_backups::{Act, Note, Val};
use sdd_script::{Bytes, NoMemory, put, put_count};
use std::alloc::Global;

fn put_value(out: &mut Vec<u8>, val: Val) -> Result<(), NoMemory>
    ensures { OnOk result (out.new.items ≡ out.old.items ++ value_word val) }
{
    match val {
        Val::Unknown => put(out, b"unknown"),
        Val::All => put(out, b"all"),
        Val::Nought => put(out, b"none"),
    }
}

fn put_spaced_value(out: &mut Vec<u8>, val: Val) -> Result<(), NoMemory>
    ensures { OnOk result (out.new.items ≡ out.old.items ++ 32 ∷ value_word val) }
{
    put(out, b" ")?;
    put_value(out, val)
}

fn put_spaced(out: &mut Vec<u8>, number: u32) -> Result<(), NoMemory>
    ensures { OnOk result (out.new.items ≡ out.old.items ++ spaced number) }
{
    put(out, b" ")?;
    put_count(out, u64::from(number))
}

/// A word and the number of a site.
fn put_site(out: &mut Vec<u8>, word: &[u8], site: u32) -> Result<(), NoMemory>
    ensures { OnOk result (out.new.items ≡ out.old.items ++ (word.now ++ spaced site)) }
{
    put(out, word)?;
    put_spaced(out, site)
}

/// A word and two numbers.
fn put_two(out: &mut Vec<u8>, word: &[u8], first: u32, second: u32) -> Result<(), NoMemory>
    ensures { OnOk result (
        out.new.items ≡ out.old.items ++ (word.now ++ spaced first ++ spaced second)) }
{
    put_site(out, word, first)?;
    put_spaced(out, second)
}

fn put_tell(out: &mut Vec<u8>, from: u32, to: u32, val: Val) -> Result<(), NoMemory>
    ensures { OnOk result (out.new.items ≡ out.old.items ++ note_words (Telling from to val)) }
{
    put_two(out, b"tell", from, to)?;
    put_spaced_value(out, val)
}

fn put_site_value(out: &mut Vec<u8>, word: &[u8], site: u32, val: Val) -> Result<(), NoMemory>
    ensures { OnOk result (
        out.new.items ≡ out.old.items ++ (word.now ++ spaced site ++ 32 ∷ value_word val)) }
{
    put_site(out, word, site)?;
    put_spaced_value(out, val)
}

fn put_note(out: &mut Vec<u8>, note: &Note) -> Result<(), NoMemory>
    ensures { OnOk result (out.new.items ≡ out.old.items ++ note_words note.now) }
{
    match *note {
        Note::Tell(from, to, val) => put_tell(out, from, to, val),
        Note::Write(site, number) => put_two(out, b"write", site, number),
        Note::Finish(site, val) => put_site_value(out, b"finish", site, val),
        Note::Nothing => put(out, b"nothing"),
        Note::Dropped => put(out, b"dropped"),
        Note::Gone(site, other) => put_two(out, b"gone", site, other),
        Note::Ok(site, other) => put_two(out, b"ok", site, other),
        Note::Ignored(site) => put_site(out, b"ignored", site),
        Note::Value { at, val, .. } => put_site_value(out, b"value", at, val),
        Note::Stop(site) => put_site(out, b"stop", site),
    }
}

fn put_note_line(out: &mut Vec<u8>, number: u32, note: &Note) -> Result<(), NoMemory>
    ensures { OnOk result (out.new.items ≡ out.old.items ++ note_line number note.now) }
{
    put_count(out, u64::from(number))?;
    put(out, b" ")?;
    put_note(out, note)?;
    put(out, b"\n")
}

/// Lets an event happen, and adds the line of its note.
fn put_event(
    out: &mut Vec<u8>,
    number: u32,
    control: &mut Control,
    act: &Act,
) -> Result<(), NoMemory>
    requires live { IsTrue control.old.live }
    requires fits { FitsAct control.old.value.backups act.now }
    ensures text { OnOk result (
        out.new.items
        ≡ out.old.items ++ note_line number (next_note control.old.value act.now)) }
    ensures control { OnOk result (control.new ≡ live_at (with_event control.old.value act.now)) }
{
    let note = control.step(act)?;
    put_note_line(out, number, &note)
}

fn put_events(out: &mut Vec<u8>, control: &mut Control, acts: &[Act]) -> Result<(), NoMemory>
    requires live { IsTrue control.old.live }
    requires few { length acts.now ≤ 2 ^ 18 }
    requires fit { FitAll control.old.value.backups acts.now }
    ensures text { OnOk result (
        out.new.items ≡ out.old.items ++ note_lines 1 control.old.value acts.now) }
    ensures control { OnOk result (control.new ≡ live_at (run_after control.old.value acts.now)) }
{
    let mut rest = acts;
    let mut number = 1;
    'events: while let [act, more @ ..] = rest {
        put_event(out, number, control, act)?;
        number += 1;
        rest = more;
    }
    Ok(())
}

fn put_status(out: &mut Vec<u8>, control: &Control, site: u32) -> Result<(), NoMemory>
    requires live { IsTrue control.now.live }
    requires site { site ≤ control.now.value.backups }
    ensures { let log = control.now.value.log in
        OnOk result (out.new.items
        ≡ out.old.items
        ++ status_words (stopped log site) (value log site) (finished log site)) }
{
    if control.stopped(site) {
        return put(out, b"stopped");
    }
    put_value(out, control.value(site))?;
    if control.finished(site) {
        return put(out, b" finished");
    }
    Ok(())
}

fn put_site_line(out: &mut Vec<u8>, control: &Control, site: u32) -> Result<(), NoMemory>
    requires live { IsTrue control.now.live }
    requires site { site ≤ control.now.value.backups }
    ensures { OnOk result (
        out.new.items ≡ out.old.items ++ site_line control.now.value.log site) }
{
    put_site(out, b"site", site)?;
    put(out, b" ")?;
    put_status(out, control, site)?;
    put(out, b"\n")
}

fn put_site_lines(out: &mut Vec<u8>, control: &Control, backups: u32) -> Result<(), NoMemory>
    requires live { IsTrue control.now.live }
    requires backups { control.now.value.backups ≡ backups }
    requires few { backups ≤ 8 }
    ensures { OnOk result (
        out.new.items ≡ out.old.items ++ site_lines control.now.value.log 0 (backups + 1)) }
{
    'sites: for site in 0..backups + 1 {
        put_site_line(out, control, site)?;
    }
    Ok(())
}

fn put_ending(out: &mut Vec<u8>, control: &Control, backups: u32) -> Result<(), NoMemory>
    requires live { IsTrue control.now.live }
    requires backups { control.now.value.backups ≡ backups }
    requires few { backups ≤ 8 }
    ensures { OnOk result (out.new.items ≡ out.old.items ++ ending control.now.value) }
{
    put_site_lines(out, control, backups)?;
    put_site(out, b"writes", control.written())?;
    put(out, b"\nend\n")
}

/// The lines of a run that begins, and how it stands at its end.
fn put_report(
    out: &mut Vec<u8>,
    control: &mut Control,
    script: &ControlScript,
) -> Result<(), NoMemory>
    requires sound { IsSoundScript script.now }
    requires begins { control.old ≡ live_at (run_of script.now.backups script.now.writes []) }
    ensures { OnOk result (out.new.items ≡ out.old.items ++ report script.now) }
{
    put_events(out, control, script.acts.as_slice())?;
    put_ending(out, control, script.backups)
}

/// The text of a run that begins. The caller owns the run, so that it is dropped at one place.
fn report_of_run(
    alloc: Global,
    control: &mut Control,
    script: &ControlScript,
) -> Result<Bytes, NoMemory>
    requires sound { IsSoundScript script.now }
    requires begins { control.old ≡ live_at (run_of script.now.backups script.now.writes []) }
    ensures { IfOk result (λ text. text ≡ report script.now) }
{
    let mut text = Vec::new(alloc);
    put_report(&mut text, control, script)?;
    Ok(Bytes::from_vec(text))
}

/// The text that a script makes. Costs time and memory linear in its events, each of which takes
/// time linear in the sites.
pub fn write_report(alloc: Global, script: &ControlScript) -> Result<Bytes, NoMemory>
    requires { IsSoundScript script.now }
    ensures { IfOk result (λ text. text ≡ report script.now) }
{
    let mut control = Control::new(alloc, script.backups, script.writes)?;
    report_of_run(alloc, &mut control, script)
}
