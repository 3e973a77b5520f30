//! Named texts, and the lines that spell them.
ghost use Rattle.std.specs.Prelude.{◌≡◌, ◌++◌, ◌∷◌, [], OnOk};

use anyhow::{Context, Result, bail};
use std::alloc::Global;

/// Bytes with a name.
#[derive(Drop)]
pub struct Text {
    pub name: String,
    pub bytes: Vec<u8>,
}

impl Text {
    /// An empty text.
    pub fn new(alloc: Global, name: &str) -> Result<Self> {
        Ok(Text {
            name: String::from_str(alloc, name)?,
            bytes: Vec::new(alloc),
        })
    }

    /// The same bytes under another name.
    pub fn copy_as(&self, alloc: Global, name: &str) -> Result<Self> {
        let name = String::from_str(alloc, name)?;
        let bytes = Vec::from_slice(alloc, self.bytes.as_slice())?;
        Ok(Text { name, bytes })
    }

    /// Adds what a line stands for.
    pub fn add(&mut self, alloc: Global, line: &str) -> Result<()> {
        let (times, piece) = match line.strip_prefix("*") {
            None => (1, line),
            Some(rest) => split_count(rest)?,
        };
        for _ in 0..times {
            self.add_piece(alloc, piece)?;
        }
        Ok(())
    }

    fn add_piece(&mut self, alloc: Global, piece: &str) -> Result<()> {
        if let Some(line) = piece.strip_prefix("|") {
            return add_line(&mut self.bytes, line);
        }
        if let Some(text) = piece.strip_prefix(">") {
            self.bytes.extend_from_slice(text.as_bytes())?;
            return Ok(());
        }
        match piece.strip_prefix("=") {
            None => bail!("not a line of a text"),
            Some(spelled) => add_spelled(alloc, &mut self.bytes, spelled),
        }
    }

    /// How many lines end in it.
    pub fn lines(&self) -> usize {
        self.bytes.iter().filter(|byte| **byte == b'\n').count()
    }
}

/// Adds the bytes that hexadecimal digits spell.
fn add_spelled(alloc: Global, out: &mut Vec<u8>, spelled: &str) -> Result<()> {
    let bytes = hex::decode(alloc, spelled)?;
    out.extend_from_slice(bytes.as_slice())?;
    Ok(())
}

/// Adds a line with its end.
fn add_line(out: &mut Vec<u8>, line: &str) -> Result<()>
    ensures { OnOk result (out.new.items ≡ out.old.items ++ line.now ++ 10 ∷ []) }
{
    out.extend_from_slice(line.as_bytes())?;
    out.push(b'\n')?;
    Ok(())
}

/// The count and the line of `N LINE`.
fn split_count(rest: &str) -> Result<(u32, &str)> {
    let (count, piece) = rest.split_once(' ').context("a count without a line")?;
    Ok((count.parse::<u32>()?, piece))
}

/// The front of so many lines, or all where there are no more.
pub fn front(bytes: &[u8], lines: usize) -> &[u8] {
    let mut left = lines;
    for (at, byte) in bytes.iter().enumerate() {
        if left == 0 {
            return &bytes[..at];
        }
        if *byte == b'\n' {
            left -= 1;
        }
    }
    bytes
}
