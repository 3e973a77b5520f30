//! A text that is made in pages, so that its large parts need not be copied.
ghost use Rattle.std.specs.Prelude.{◌≡◌, ℕ, ◌≤◌, ◌-◌, ◌++◌, length, take, flat_map, OnOk, OnErr, IsOk};
ghost use Rattle.sdd_base.specs.Outside.{HasCause, with_end};

use crate::no_memory::NoMemory;
use crate::page::Page;
use crate::parcel::Parcel;
use crate::shelf::Failed;
use crate::sink::Sink;
use crate::writing::write_text;
use std::alloc::Global;
use std::marker::Model;
use std::mem;

/// A page of fewer bytes is copied after what stands before it, rather than shared.
const MIN_SHARED_BYTES: usize = 4096;

/// A text in pages, one after the other. Contracts see the whole text. Where memory runs out in a
/// call, the text is not to be used.
#[derive(Drop)]
pub struct Pages {
    alloc: Global,
    done: Vec<Page>,
    last: Vec<u8>,
}

impl Model for Pages {
    ghost use Rattle.std.specs.Prelude.{ℕ, List, ◌++◌, flat_map};

    ghost Value = { List ℕ };

    ghost view = { λ p. flat_map (λ page. page) p.done.items ++ p.last.items };
}

impl Pages {
    /// A text that has one page yet, which is not copied. Takes no memory.
    pub fn of(alloc: Global, page: Vec<u8>) -> Pages
        ensures { result ≡ page.items }
    {
        Pages {
            alloc,
            done: Vec::new(alloc),
            last: page,
        }
    }

    /// Adds bytes, which are copied.
    pub fn put(&mut self, bytes: &[u8]) -> Result<(), NoMemory>
        ensures { OnOk result (self.new ≡ self.old ++ bytes.now) }
    {
        self.last.extend_from_slice(bytes)?;
        Ok(())
    }

    /// Adds a page, which is not copied.
    pub fn add(&mut self, page: Vec<u8>) -> Result<(), NoMemory>
        ensures { OnOk result (self.new ≡ self.old ++ page.items) }
    {
        let before = mem::replace(&mut self.last, page);
        self.done.push(Page::of(self.alloc, before)?)?;
        Ok(())
    }

    /// Adds a page that others have too. Costs time linear in it where it is small, and constant
    /// time where it is large.
    pub fn share(&mut self, page: &Page) -> Result<(), NoMemory>
        ensures { OnOk result (self.new ≡ self.old ++ page.now) }
    {
        if page.as_slice().len() < MIN_SHARED_BYTES {
            return self.put(page.as_slice());
        }
        let before = mem::replace(&mut self.last, Vec::new(self.alloc));
        self.done.push(Page::of(self.alloc, before)?)?;
        self.done.push(page.copy()?)?;
        Ok(())
    }

    /// The pages but the last, and the last one.
    pub(crate) fn parts(&self) -> (&[Page], &[u8])
        ensures { flat_map (λ page. page) result.0.now ++ result.1.now ≡ self.now }
    {
        (self.done.as_slice(), self.last.as_slice())
    }
}

/// Writes pages, one after the other. After a fault the sink took the first part of their bytes.
fn write_each<O: Sink>(out: &mut O, pages: &[Page]) -> Result<(), Failed>
    ensures done { OnOk result (
        O.taken out.new ≡ with_end (O.taken out.old) (flat_map (λ page. page) pages.now)) }
    ensures front { OnErr result ((n : ℕ)
        × (O.taken out.new
        ≡ with_end (O.taken out.old) (take n (flat_map (λ page. page) pages.now)))) }
    ensures cause { HasCause (O.faults out.old) (O.faults out.new) result }
    ensures surely { (room : ℕ) → length (flat_map (λ page. page) pages.now) ≤ room
        → O.sure out.old room → IsOk result × (O.faults out.new ≡ O.faults out.old) }
    ensures room { (room : ℕ) → length (flat_map (λ page. page) pages.now) ≤ room
        → O.sure out.old room → O.sure out.new (room - length (flat_map (λ page. page) pages.now)) }
{
    'pages: for page in pages {
        write_text(out, page.as_slice())?;
    }
    Ok(())
}

/// Writes a finished text to its end, page by page. After a fault the sink took its first part.
/// Takes no memory.
pub fn write_pages<O: Sink>(out: &mut O, text: &Pages) -> Result<(), Failed>
    ensures done { OnOk result (O.taken out.new ≡ with_end (O.taken out.old) text.now) }
    ensures front { OnErr result ((n : ℕ)
        × (O.taken out.new ≡ with_end (O.taken out.old) (take n text.now))) }
    ensures cause { HasCause (O.faults out.old) (O.faults out.new) result }
    ensures surely { (room : ℕ) → length text.now ≤ room → O.sure out.old room
        → IsOk result × (O.faults out.new ≡ O.faults out.old) }
    ensures room { (room : ℕ) → length text.now ≤ room → O.sure out.old room
        → O.sure out.new (room - length text.now) }
{
    let (pages, last) = text.parts();
    write_each(out, pages)?;
    write_text(out, last)
}
