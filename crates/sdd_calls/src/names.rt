//! Words that are names, and texts.
use sdd_script::{Name, NoMemory, Text};
use std::alloc::Global;

/// A word that is a name, one that the formats use, and the longest name and one letter more.
pub fn accept_names_only(alloc: Global) -> Result<bool, NoMemory> {
    let word = is_name(alloc, "acct")?;
    let used = is_name(alloc, "from")?;
    let most = are_name(alloc, 32)?;
    let over = are_name(alloc, 33)?;
    Ok(word && !used && most && !over)
}

/// The longest text and one letter more, and the end of a line.
pub fn accept_texts_only(alloc: Global) -> Result<bool, NoMemory> {
    let most = are_text(alloc, 255)?;
    let over = are_text(alloc, 256)?;
    let end = is_text(alloc, "\n")?;
    Ok(most && !over && !end)
}

fn is_name(alloc: Global, text: &str) -> Result<bool, NoMemory> {
    match Name::new(alloc, text)? {
        Some(_) => Ok(true),
        None => Ok(false),
    }
}

/// Whether so many letters are a name.
fn are_name(alloc: Global, count: u32) -> Result<bool, NoMemory> {
    let text = letters(alloc, count)?;
    is_name(alloc, text.as_str())
}

fn is_text(alloc: Global, text: &str) -> Result<bool, NoMemory> {
    match Text::new(alloc, text)? {
        Some(_) => Ok(true),
        None => Ok(false),
    }
}

/// Whether so many letters are a text.
fn are_text(alloc: Global, count: u32) -> Result<bool, NoMemory> {
    let text = letters(alloc, count)?;
    is_text(alloc, text.as_str())
}

fn letters(alloc: Global, count: u32) -> Result<String, NoMemory> {
    let mut text = String::new(alloc);
    for _ in 0..count {
        text.push('a')?;
    }
    Ok(text)
}
