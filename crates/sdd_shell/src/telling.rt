//! The line on standard error. Writing it takes no memory.
ghost use Rattle.std.specs.Prelude.{◌≡◌, ◌++◌, flat_map};
ghost use Rattle.sdd_shell.specs.Taking.{TakesOrFaults};
ghost use Rattle.sdd_shell.specs.Status.{part_word, number_word, rule_word, counted_word, counted_words, work_rule_word, many_word, many_words, line_of, fault_line, work_fault_line};

use crate::status::Status;
use itoa::Buffer;
use sdd_lang::{CatFault, CatRule, Counted, Part, Sink, write_text};
use sdd_script::{Counts, WorkFault, WorkRule};

/// Writes pieces one after the other, until a call fails.
fn tell_pieces<E: Sink>(err: &mut E, pieces: &[&[u8]])
    ensures { TakesOrFaults (E.sure err.old) (E.taken err.old) (E.taken err.new) (E.faults err.old) (E.faults err.new) (flat_map (λ p. p.now) pieces.now) }
{
    'pieces: for piece in pieces {
        match write_text(err, piece) {
            Ok(()) => {}
            Err(_) => return,
        }
    }
}

/// The word for the part, before its number where it has one.
fn word_for_part(part: Part) -> &'static [u8]
    ensures { result.now ≡ part_word part }
{
    match part {
        Part::Top => b"top",
        Part::Relation => b"relation ",
        Part::Fragment => b"fragment ",
        Part::Class => b"class ",
    }
}

fn word_for_rule(rule: CatRule) -> &'static [u8]
    ensures { result.now ≡ rule_word rule }
{
    match rule {
        CatRule::TooMany(_) => b"TooMany",
        CatRule::DuplicateName => b"DuplicateName",
        CatRule::UnknownName => b"UnknownName",
        CatRule::BadKey => b"BadKey",
        CatRule::RangeGap => b"RangeGap",
        CatRule::RangeOverlap => b"RangeOverlap",
        CatRule::NoCopy => b"NoCopy",
        CatRule::ReadsWhereNoCopy => b"ReadsWhereNoCopy",
        CatRule::NotToml => b"NotToml",
        CatRule::MissingField => b"MissingField",
        CatRule::WrongKind => b"WrongKind",
        CatRule::UnknownField => b"UnknownField",
        CatRule::TooLong => b"TooLong",
        CatRule::TooFew(_) => b"TooFew",
    }
}

fn word_for_counted(counted: Counted) -> &'static [u8]
    ensures { result.now ≡ counted_word counted }
{
    match counted {
        Counted::Tm => b" tm",
        Counted::Dm => b" dm",
        Counted::Relation => b" relation",
        Counted::Column => b" column",
        Counted::Fragment => b" fragment",
        Counted::Class => b" class",
        Counted::Read => b" read",
    }
}

/// What was counted, where something was.
fn word_for_count(rule: CatRule) -> &'static [u8]
    ensures { result.now ≡ counted_words rule }
{
    match rule {
        CatRule::TooMany(counted) => word_for_counted(counted),
        CatRule::TooFew(counted) => word_for_counted(counted),
        _ => b"",
    }
}

/// The number of the part, where it has one.
fn number_piece<'a>(buffer: &'a mut Buffer, fault: CatFault) -> &'a [u8]
    ensures { result.now ≡ number_word fault.part fault.number }
{
    match fault.part {
        Part::Top => b"",
        _ => buffer.format(fault.number).as_bytes(),
    }
}

fn tell_fault<E: Sink>(err: &mut E, fault: CatFault)
    ensures { TakesOrFaults (E.sure err.old) (E.taken err.old) (E.taken err.new) (E.faults err.old) (E.faults err.new) (fault_line fault) }
{
    let mut buffer = Buffer::new();
    tell_pieces(
        err,
        &[
            b"catalogue: ",
            word_for_part(fault.part),
            number_piece(&mut buffer, fault),
            b": ",
            word_for_rule(fault.rule),
            word_for_count(fault.rule),
            b"\n",
        ],
    );
}

fn word_for_work_rule(rule: WorkRule) -> &'static [u8]
    ensures { result.now ≡ work_rule_word rule }
{
    match rule {
        WorkRule::NotUtf8 => b"NotUtf8",
        WorkRule::TooLong => b"TooLong",
        WorkRule::BadLine => b"BadLine",
        WorkRule::UnknownName => b"UnknownName",
        WorkRule::WrongKind => b"WrongKind",
        WorkRule::DuplicateTxn => b"DuplicateTxn",
        WorkRule::SubmittedTwice => b"SubmittedTwice",
        WorkRule::TooMany(_) => b"TooMany",
        WorkRule::KeyChanged => b"KeyChanged",
        WorkRule::BadNumber => b"BadNumber",
        WorkRule::BadEvent => b"BadEvent",
        WorkRule::NoEnd => b"NoEnd",
        WorkRule::BadClass => b"BadClass",
    }
}

fn word_for_many(many: Counts) -> &'static [u8]
    ensures { result.now ≡ many_word many }
{
    match many {
        Counts::Row => b" row",
        Counts::Txn => b" txn",
        Counts::Statement => b" statement",
        Counts::Part => b" part",
        Counts::Cond => b" cond",
        Counts::Column => b" column",
        Counts::Event => b" event",
        Counts::Class => b" class",
        Counts::Read => b" read",
        Counts::List => b" list",
    }
}

/// The name of what there are too many of; none where the rule counts nothing.
fn word_for_work_count(rule: WorkRule) -> &'static [u8]
    ensures { result.now ≡ many_words rule }
{
    match rule {
        WorkRule::TooMany(many) => word_for_many(many),
        _ => b"",
    }
}

fn tell_work_fault<E: Sink>(err: &mut E, fault: WorkFault)
    ensures { TakesOrFaults (E.sure err.old) (E.taken err.old) (E.taken err.new) (E.faults err.old) (E.faults err.new) (work_fault_line fault) }
{
    let mut buffer = Buffer::new();
    tell_pieces(
        err,
        &[
            b"workload: line ",
            buffer.format(fault.line).as_bytes(),
            b": ",
            word_for_work_rule(fault.rule),
            word_for_work_count(fault.rule),
            b"\n",
        ],
    );
}

/// Writes the status's line, which is `usage` where the words are none of the forms.
pub fn tell<E: Sink>(err: &mut E, usage: &[u8], status: Status)
    ensures { TakesOrFaults (E.sure err.old) (E.taken err.old) (E.taken err.new) (E.faults err.old) (E.faults err.new) (line_of usage.now status) }
{
    match status {
        Status::Done => tell_pieces(err, &[]),
        Status::Usage => tell_pieces(err, &[usage]),
        Status::BadCatalogue(fault) => tell_fault(err, fault),
        Status::BadWorkload(fault) => tell_work_fault(err, fault),
        Status::ReadFault => tell_pieces(err, &[b"read fault\n"]),
        Status::WriteFault => tell_pieces(err, &[b"write fault\n"]),
        Status::NoMemory => tell_pieces(err, &[b"no memory\n"]),
        Status::Limit => tell_pieces(err, &[b"limit\n"]),
    }
}
