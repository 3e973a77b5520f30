//! What a case asks.
use crate::text::Text;
use anyhow::{Context, Result, bail};
use std::alloc::Global;

/// How much a sink takes, in all, where its case doesn't say.
const ROOM: usize = 1 << 20;

/// What makes the runs of a case differ.
#[derive(Drop)]
pub enum Each {
    /// There is one run.
    Alone,
    /// Each run has one more line of the file.
    Cut(String),
    /// Each run has one more byte of the file.
    CutByte(String),
    /// In each run the next call of the shelf fails.
    ShelfCall,
    /// In each run the next call of the sink for the text fails.
    OutCall,
}

/// The program whose call a case makes.
#[derive(Clone, Copy)]
pub enum Program {
    Sdd1,
    Inside,
    Ask,
}

/// How a sink is made to fail. A call's number 0 is that of none.
#[derive(Clone, Copy)]
pub struct Taking {
    pub room: usize,
    pub most: usize,
    pub fails: u64,
}

impl Taking {
    const ALL: Taking = Taking {
        room: ROOM,
        most: usize::MAX,
        fails: 0,
    };
}

/// A call of a program, with the files and sinks that it has.
#[derive(Drop)]
pub struct Case {
    pub name: String,
    pub program: Program,
    pub words: Vec<String>,
    pub files: Vec<Text>,
    pub reads: usize,
    pub shelf_fails: u64,
    pub out: Taking,
    pub err: Taking,
    pub each: Each,
}

impl Case {
    /// A call without words over an empty shelf, in which nothing fails.
    pub fn new(alloc: Global, name: &str) -> Result<Self> {
        Ok(Case {
            name: String::from_str(alloc, name)?,
            program: Program::Sdd1,
            words: Vec::new(alloc),
            files: Vec::new(alloc),
            reads: usize::MAX,
            shelf_fails: 0,
            out: Taking::ALL,
            err: Taking::ALL,
            each: Each::Alone,
        })
    }

    /// Takes a line that sets one thing.
    pub fn set(&mut self, alloc: Global, key: &str, value: &str) -> Result<()> {
        match key {
            "program" => self.program = program_named(value)?,
            "words" => self.words = words(alloc, value)?,
            "each" => self.each = self.each_of(alloc, value)?,
            _ => self.set_number(key, value)?,
        }
        Ok(())
    }

    fn set_number(&mut self, key: &str, value: &str) -> Result<()> {
        let number = value.parse::<u32>().context("a number")?;
        match key {
            "reads" => self.reads = number as usize,
            "shelf-fails" => self.shelf_fails = number as u64,
            "out-takes" => self.out.most = number as usize,
            "out-room" => self.out.room = number as usize,
            "out-fails" => self.out.fails = number as u64,
            "err-takes" => self.err.most = number as usize,
            "err-room" => self.err.room = number as usize,
            "err-fails" => self.err.fails = number as u64,
            _ => bail!("no such line"),
        }
        Ok(())
    }

    fn each_of(&self, alloc: Global, value: &str) -> Result<Each> {
        match value {
            "shelf-call" => Ok(Each::ShelfCall),
            "out-call" => Ok(Each::OutCall),
            _ => match value.split_once(' ') {
                Some(("cut", name)) => Ok(Each::Cut(self.name_of(alloc, name)?)),
                Some(("cut-byte", name)) => Ok(Each::CutByte(self.name_of(alloc, name)?)),
                _ => bail!("no such runs"),
            },
        }
    }

    /// The name of a file that is there.
    fn name_of(&self, alloc: Global, name: &str) -> Result<String> {
        self.file(name).context("no such file")?;
        Ok(String::from_str(alloc, name)?)
    }

    /// The file of a name.
    pub fn file(&self, name: &str) -> Option<&Text> {
        self.files.iter().find(|file| file.name.as_str() == name)
    }
}

fn program_named(name: &str) -> Result<Program> {
    match name {
        "sdd1" => Ok(Program::Sdd1),
        "sdd1_inside" => Ok(Program::Inside),
        "sdd1_ask" => Ok(Program::Ask),
        _ => bail!("no such program"),
    }
}

fn words(alloc: Global, line: &str) -> Result<Vec<String>> {
    let mut words = Vec::new(alloc);
    for word in line.split(' ') {
        words.push(String::from_str(alloc, word)?)?;
    }
    Ok(words)
}
