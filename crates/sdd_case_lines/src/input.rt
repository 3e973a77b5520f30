//! The reader of the lines.
use crate::case::Case;
use crate::text::Text;
use anyhow::{Context, Result, bail, ensure};
use std::alloc::Global;

/// Where the lines of a text go.
#[derive(Clone, Copy)]
enum Place {
    /// No text is begun.
    Nowhere,
    /// To the last kept text.
    Kept,
    /// To the last file of the case.
    File,
}

/// What was read so far.
#[derive(Drop)]
pub struct CaseReader {
    kept: Vec<Text>,
    names: Vec<String>,
    case: Option<Case>,
    place: Place,
}

impl CaseReader {
    /// Before the first line.
    pub fn new(alloc: Global) -> Self {
        CaseReader {
            kept: Vec::new(alloc),
            names: Vec::new(alloc),
            case: None,
            place: Place::Nowhere,
        }
    }

    /// Takes the next line, and gives the case that it ends, where it ends one.
    pub fn take(&mut self, alloc: Global, line: &str) -> Result<Option<Case>> {
        if line.is_empty() || line.starts_with("#") {
            return Ok(None);
        }
        match line.split_once(' ') {
            Some(("keep", name)) => self.begin_kept(alloc, name),
            Some(("case", name)) => self.begin_case(alloc, name),
            _ => {
                self.take_within(alloc, line)?;
                Ok(None)
            }
        }
    }

    /// The case that the end of the text ends, where it ends one.
    pub fn end(&mut self) -> Option<Case> {
        self.case.take()
    }

    /// Takes a line of a case or of a text.
    fn take_within(&mut self, alloc: Global, line: &str) -> Result<()> {
        match line.split_once(' ') {
            Some(("text", name)) => self.begin_file(alloc, name),
            Some(("file", names)) => self.add_file(alloc, names),
            _ => self.take_other(alloc, line),
        }
    }

    /// Begins a kept text, and gives the case before it.
    fn begin_kept(&mut self, alloc: Global, name: &str) -> Result<Option<Case>> {
        ensure!(self.kept_text(name).is_none(), "a second text of this name");
        self.kept.push(Text::new(alloc, name)?)?;
        self.place = Place::Kept;
        Ok(self.case.take())
    }

    /// Begins a case, and gives the one before it.
    fn begin_case(&mut self, alloc: Global, name: &str) -> Result<Option<Case>> {
        ensure!(
            self.names.iter().all(|other| other.as_str() != name),
            "a second case of this name"
        );
        self.names.push(String::from_str(alloc, name)?)?;
        let begun = Case::new(alloc, name)?;
        self.place = Place::Nowhere;
        Ok(self.case.replace(begun))
    }

    fn begin_file(&mut self, alloc: Global, name: &str) -> Result<()> {
        self.push_file(Text::new(alloc, name)?)?;
        self.place = Place::File;
        Ok(())
    }

    fn add_file(&mut self, alloc: Global, names: &str) -> Result<()> {
        let (name, kept) = names.split_once(' ').context("a file without a text")?;
        let text = self.kept_text(kept).context("no such text")?;
        let file = text.copy_as(alloc, name)?;
        self.push_file(file)?;
        self.place = Place::Nowhere;
        Ok(())
    }

    fn push_file(&mut self, file: Text) -> Result<()> {
        match &mut self.case {
            None => bail!("a file without a case"),
            Some(case) => {
                case.files.push(file)?;
                Ok(())
            }
        }
    }

    /// A line of a text, or one that sets something of the case.
    fn take_other(&mut self, alloc: Global, line: &str) -> Result<()> {
        if line.starts_with(['|', '>', '=', '*']) {
            return self.add_line(alloc, line);
        }
        let (key, value) = line.split_once(' ').context("no such line")?;
        match &mut self.case {
            None => bail!("no case is begun"),
            Some(case) => case.set(alloc, key, value),
        }
    }

    fn add_line(&mut self, alloc: Global, line: &str) -> Result<()> {
        match self.place {
            Place::Nowhere => bail!("no text is begun"),
            Place::Kept => add_to_last(alloc, &mut self.kept, line),
            Place::File => match &mut self.case {
                None => bail!("no text is begun"),
                Some(case) => add_to_last(alloc, &mut case.files, line),
            },
        }
    }

    fn kept_text(&self, name: &str) -> Option<&Text> {
        self.kept.iter().find(|text| text.name.as_str() == name)
    }
}

fn add_to_last(alloc: Global, texts: &mut Vec<Text>, line: &str) -> Result<()> {
    match texts.last_mut() {
        None => bail!("no text is begun"),
        Some(text) => text.add(alloc, line),
    }
}
