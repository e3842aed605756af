//! What the text of a catalogue has, line by line.
use anyhow::Result;
use sha2::{Digest, Sha256};
use std::alloc::Global;
use std::str;

/// The SHA-256 digest of the text.
pub fn digest_text(alloc: Global, given: &[u8]) -> Result<String> {
    let mut out = String::new(alloc);
    for byte in Sha256::digest(given) {
        write!(out, "{byte:02x}")?;
    }
    Ok(out)
}

/// How many records there are of each kind.
pub fn kinds_text(alloc: Global, given: &[u8]) -> Result<String> {
    let text = str::from_utf8(given)?;
    let mut out = String::new(alloc);
    for kind in ["type,", "range,", "function,", "cast,", "operator,"] {
        let count = text.lines().filter(|line| line.starts_with(kind)).count();
        write!(out, "{count} of {kind}\n")?;
    }
    write!(out, "{} of all kinds\n", text.lines().count())?;
    Ok(out)
}

/// How many functions have the name and the arguments of one before.
pub fn twice_text(alloc: Global, given: &[u8]) -> Result<String> {
    let text = str::from_utf8(given)?;
    let mut seen = Vec::new(alloc);
    let mut twice = 0u64;
    for line in text.lines().filter(|line| line.starts_with("function,")) {
        let mut fields = line.split(',').skip(1);
        let key = (fields.next(), fields.next());
        if seen.contains(&key) {
            twice = twice.saturating_add(1);
        }
        seen.push(key)?;
    }
    Ok(format!(in alloc; "{twice} functions")?)
}
