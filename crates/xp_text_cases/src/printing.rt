//! What functions answered, as it is printed: a word and what is answered, with commas between.
use anyhow::{Result, bail};
use std::alloc::{AllocError, Global};
use std::fmt::Display;
use xp_base::{Byts, Txt};
use xp_bytea::write_bytea;
use xp_characters::TextFault;

/// The most bytes of a text that is printed itself, and not its size.
const SHOWN: usize = 100;

/// Adds a comma where something stands before it, and a word.
pub fn put_word(out: &mut String, word: &str) -> Result<(), AllocError> {
    if !out.is_empty() {
        write!(out, ", ")?;
    }
    write!(out, "{word}")
}

/// Adds a word where it holds.
pub fn put_if(out: &mut String, holds: bool, word: &str) -> Result<(), AllocError> {
    if holds {
        put_word(out, word)?;
    }
    Ok(())
}

/// Adds a word and a value.
pub fn put_value<T: Display + Drop>(
    out: &mut String,
    word: &str,
    value: T,
) -> Result<(), AllocError> {
    put_word(out, word)?;
    write!(out, " {value}")
}

/// Adds a word and a text in quotes, or how large it is.
pub fn put_text(out: &mut String, word: &str, text: &str) -> Result<(), AllocError> {
    put_word(out, word)?;
    if text.len() > SHOWN {
        let size = text.len();
        return write!(out, " {size} bytes");
    }
    write!(out, " '{text}'")
}

/// Adds a word and a text, or why there is none.
pub fn put_answer(out: &mut String, word: &str, answer: Result<Txt, TextFault>) -> Result<()> {
    match answer {
        Ok(text) => put_text(out, word, text.as_str())?,
        Err(TextFault::Raised(error)) => put_value(out, word, error)?,
        Err(TextFault::Memory) => bail!("no memory"),
    }
    Ok(())
}

/// Adds a word and bytes in their text form, or how many they are.
pub fn put_bytes(alloc: Global, out: &mut String, word: &str, bytes: &[u8]) -> Result<()> {
    put_word(out, word)?;
    if bytes.len() > SHOWN {
        let size = bytes.len();
        write!(out, " {size} bytes")?;
        return Ok(());
    }
    let mut text = Byts::new(alloc);
    write_bytea(alloc, bytes, &mut text)?;
    let text = str::from_utf8(text.as_slice())?;
    write!(out, " {text}")?;
    Ok(())
}

/// Adds a word and bytes, or why there are none.
pub fn put_octets(
    alloc: Global,
    out: &mut String,
    word: &str,
    answer: Result<Byts, TextFault>,
) -> Result<()> {
    match answer {
        Ok(bytes) => put_bytes(alloc, out, word, bytes.as_slice())?,
        Err(TextFault::Raised(error)) => put_value(out, word, error)?,
        Err(TextFault::Memory) => bail!("no memory"),
    }
    Ok(())
}
