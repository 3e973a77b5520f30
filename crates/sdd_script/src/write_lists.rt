//! Writing the lines of class lists.
ghost use Rattle.std.specs.Prelude.{◌≡◌, ◌++◌, ℕ, List, flat_map, OnOk};
ghost use Rattle.sdd_lang.specs.All.{ReadPart};
ghost use Rattle.sdd_script.specs.Spelling.{ended, class_words, reads_words, writes_words, class_bytes, list_bytes};

use crate::write_words::put_plain;
use sdd_lang::{ClassPart, ClassParts, Name, NoMemory, ReadPart};
use sdd_words::{put, put_count};

fn put_class_header(out: &mut Vec<u8>, class: &ClassPart) -> Result<(), NoMemory>
    ensures { OnOk result (out.new.items ≡ out.old.items ++ ended (class_words class.now)) }
{
    put(out, b"class")?;
    put_plain(out, class.name.as_str().as_bytes())?;
    put(out, b" T")?;
    put_count(out, u64::from(class.tm))?;
    put(out, b"\n")
}

fn put_read(out: &mut Vec<u8>, read: &ReadPart) -> Result<(), NoMemory>
    ensures { OnOk result (out.new.items ≡ out.old.items ++ ended (reads_words read.now)) }
{
    put(out, b"reads")?;
    put_plain(out, read.fragment.as_str().as_bytes())?;
    put(out, b" D")?;
    put_count(out, u64::from(read.at))?;
    put(out, b"\n")
}

fn put_write(out: &mut Vec<u8>, fragment: &Name) -> Result<(), NoMemory>
    ensures { OnOk result (out.new.items ≡ out.old.items ++ ended (writes_words fragment.now)) }
{
    put(out, b"writes")?;
    put_plain(out, fragment.as_str().as_bytes())?;
    put(out, b"\n")
}

#[tactic(auto, using(crate::proofs::Lists::written))]
fn put_reads(out: &mut Vec<u8>, reads: &[ReadPart]) -> Result<(), NoMemory>
    ensures { OnOk result (
        out.new.items ≡ out.old.items
        ++ flat_map (λ (r : ReadPart). ended (reads_words r)) reads.now
        ) }
{
    'reads: for read in reads {
        put_read(out, read)?;
    }
    Ok(())
}

#[tactic(auto, using(crate::proofs::Lists::written))]
fn put_writes(out: &mut Vec<u8>, fragments: &[Name]) -> Result<(), NoMemory>
    ensures { OnOk result (
        out.new.items ≡ out.old.items
        ++ flat_map (λ (f : List ℕ). ended (writes_words f)) fragments.now
        ) }
{
    'fragments: for fragment in fragments {
        put_write(out, fragment)?;
    }
    Ok(())
}

fn put_class(out: &mut Vec<u8>, class: &ClassPart) -> Result<(), NoMemory>
    ensures { OnOk result (out.new.items ≡ out.old.items ++ class_bytes class.now) }
{
    put_class_header(out, class)?;
    put_reads(out, class.reads.as_slice())?;
    put_writes(out, class.writes.as_slice())?;
    Ok(())
}

#[tactic(auto, using(crate::proofs::Lists::written))]
fn put_classes(out: &mut Vec<u8>, classes: &[ClassPart]) -> Result<(), NoMemory>
    ensures { OnOk result (out.new.items ≡ out.old.items ++ flat_map class_bytes classes.now) }
{
    'classes: for class in classes {
        put_class(out, class)?;
    }
    Ok(())
}

fn put_list(out: &mut Vec<u8>, classes: &[ClassPart]) -> Result<(), NoMemory>
    ensures { OnOk result (out.new.items ≡ out.old.items ++ list_bytes classes.now) }
{
    put(out, b"list\n")?;
    put_classes(out, classes)?;
    put(out, b"done\n")?;
    Ok(())
}

/// Puts the lines of class lists.
#[tactic(auto, using(crate::proofs::Lists::written))]
pub fn put_lists(out: &mut Vec<u8>, lists: &[ClassParts]) -> Result<(), NoMemory>
    ensures { OnOk result (out.new.items ≡ out.old.items ++ flat_map list_bytes lists.now) }
{
    'lists: for list in lists {
        put_list(out, list.as_slice())?;
    }
    Ok(())
}
