ghost use Rattle.std.specs.Prelude.{◌≡◌, ◌≢◌, ◌<◌, ◌≤◌, ℕ, None, IfOk, IfSome, IsOk, length};
ghost use Rattle.std.specs.Result.{result_ok as ok};
ghost use Rattle.sdd_lang.specs.base.Outside.{HasCause, KeepsOpen, ReadGives};
ghost use Rattle.sdd_shell.specs.HostFiles.{ReadsOf};

use sdd_lang::{Failed, FileNo, Shelf};
use std::fs;
use std::io::Read;
use std::rt::Files;

/// Files of the system, of which four may be opened. What they hold is unknown; from which file each
/// call reads is not.
#[derive(Drop)]
pub struct HostShelf<'a, R: Files + Drop> {
    rt: &'a R,
    opened: Opened<R::File>,
    count: u32,
    faults: u64,
}

impl<'a, R: Files + Drop> HostShelf<'a, R> {
    /// A shelf with no file opened.
    pub fn new(rt: &'a R) -> Self {
        HostShelf {
            rt,
            opened: Opened {
                first: None,
                second: None,
                third: None,
                fourth: None,
            },
            count: 0,
            faults: 0,
        }
    }
}

impl<'a, R: Files + Drop> Shelf for HostShelf<'a, R> {
    ghost files = { λ s. None };

    ghost is_open = { λ s f. f < s.count };

    ghost opened = { λ s f. None };

    ghost faults = { λ s. s.faults };

    ghost sure = { λ s free. ⊥ };

    fn open_file(&mut self, name: &str) -> Result<FileNo, Failed> {
        match fs::open(self.rt, name) {
            Ok(file) => {
                let place = self.count;
                match place {
                    0 => self.opened.first = Some(file),
                    1 => self.opened.second = Some(file),
                    2 => self.opened.third = Some(file),
                    3 => self.opened.fourth = Some(file),
                    _ => {
                        self.faults = self.faults.saturating_add(1);
                        return Err(Failed);
                    }
                }
                self.count = place + 1;
                Ok(FileNo(place))
            }
            Err(_) => {
                self.faults = self.faults.saturating_add(1);
                Err(Failed)
            }
        }
    }

    fn read(&mut self, f: FileNo, buf: &mut [u8]) -> Result<usize, Failed>
        requires { f.0 < self.old.count }
        ensures bound { IfOk result (λ n. n ≤ length buf.new) }
        ensures gives { ReadGives None None result buf.new }
        ensures others { KeepsOpen (λ g. g ≡ f.0 → ⊥) (λ g. g < self.old.count) (λ g. g < self.new.count) (λ g. None) (λ g. None) }
        ensures open { f.0 < self.new.count }
        ensures cause { HasCause self.old.faults self.new.faults result }
        ensures surely { (free : ℕ) → ⊥ → IsOk result × ⊥ × (self.new.faults ≡ self.old.faults) }

        // What is given was unread in the file with the number, and isn't any more.
        ensures first { f.0 ≡ 0 → ReadsOf R.File.remaining self.old.opened.first self.new.opened.first (ok result) buf.new }
        ensures second { f.0 ≡ 1 → ReadsOf R.File.remaining self.old.opened.second self.new.opened.second (ok result) buf.new }
        ensures third { f.0 ≡ 2 → ReadsOf R.File.remaining self.old.opened.third self.new.opened.third (ok result) buf.new }
        ensures fourth { f.0 ≡ 3 → ReadsOf R.File.remaining self.old.opened.fourth self.new.opened.fourth (ok result) buf.new }
    {
        if let Some(n) = self.opened.read(f.0, buf) {
            return Ok(n);
        }
        self.faults = self.faults.saturating_add(1);
        Err(Failed)
    }
}

/// The files that are open, by their numbers.
#[derive(Drop)]
struct Opened<F: Read + Drop> {
    first: Option<F>,
    second: Option<F>,
    third: Option<F>,
    fourth: Option<F>,
}

impl<F: Read + Drop> Opened<F> {
    /// Reads from the file with the number, or gives None where the system refuses.
    fn read(&mut self, number: u32, buf: &mut [u8]) -> Option<usize>
        ensures bound { IfSome result (λ n. n ≤ length buf.new) }

        // What is given was unread in the file with the number, and isn't any more.
        ensures first { number ≡ 0 → ReadsOf F.remaining self.old.first self.new.first result buf.new }
        ensures second { number ≡ 1 → ReadsOf F.remaining self.old.second self.new.second result buf.new }
        ensures third { number ≡ 2 → ReadsOf F.remaining self.old.third self.new.third result buf.new }
        ensures fourth { number ≡ 3 → ReadsOf F.remaining self.old.fourth self.new.fourth result buf.new }

        // The others stay as they were.
        ensures not_first { number ≢ 0 → self.new.first ≡ self.old.first }
        ensures not_second { number ≢ 1 → self.new.second ≡ self.old.second }
        ensures not_third { number ≢ 2 → self.new.third ≡ self.old.third }
    {
        match number {
            0 => read_some(&mut self.first, buf),
            1 => read_some(&mut self.second, buf),
            2 => read_some(&mut self.third, buf),
            _ => read_some(&mut self.fourth, buf),
        }
    }
}

/// Reads from the file, where there is one.
fn read_some<F: Read + Drop>(file: &mut Option<F>, buf: &mut [u8]) -> Option<usize>
    ensures bound { IfSome result (λ n. n ≤ length buf.new) }
    ensures reads { ReadsOf F.remaining file.old file.new result buf.new }
{
    match file {
        Some(file) => match file.read(buf) {
            Ok(n) => Some(n),
            Err(_) => None,
        },
        None => None,
    }
}
