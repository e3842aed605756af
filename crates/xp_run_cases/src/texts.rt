//! Texts that are too long for a table.
use anyhow::{Result, ensure};
use std::alloc::Global;
use xp_cases::bytes;

/// The most bytes that a text is padded to.
const LIMIT: usize = 20_000_000;

/// The most operators that stand side by side.
const SUMMANDS: u32 = 199;

/// The text with newlines behind it, so many bytes in all.
pub fn padded(alloc: Global, text: &[u8], length: usize) -> Result<Vec<u8>> {
    ensure!(length < LIMIT, "too long");
    let mut padded = text.to_vec(alloc)?;
    for _ in text.len()..length {
        padded.push(b'\n')?;
    }
    Ok(padded)
}

/// A header of so many columns of int4, `c1` the first, and what stands behind it.
pub fn wide_rows(alloc: Global, count: u32, more: &str) -> Result<Vec<u8>> {
    let mut header = String::new(alloc);
    for column in 0..count {
        let comma = if column == 0 { "" } else { "," };
        write!(header, "{comma}c{} int4", u64::from(column) + 1)?;
    }
    let mut rows = header.as_bytes().to_vec(alloc)?;
    rows.extend_from_slice(bytes(alloc, more)?.as_slice())?;
    Ok(rows)
}

/// The header `x int4` and so many rows `1`.
pub fn many_rows(alloc: Global, count: u32) -> Result<Vec<u8>> {
    let mut rows = b"x int4\n".to_vec(alloc)?;
    for _ in 0..count {
        rows.extend_from_slice(b"1\n")?;
    }
    Ok(rows)
}

/// A sum of 598 nodes: of the number in front, and for each `+1` of a number, its cast and the sum.
fn put_sum(script: &mut String) -> Result<()> {
    write!(script, ",1.5")?;
    for _ in 0..SUMMANDS {
        write!(script, "+1")?;
    }
    Ok(())
}

/// A SELECT, behind two blanks, of one number, so many sums of 598 nodes, so many numbers of one
/// node, and what stands behind them.
pub fn select_of_nodes(alloc: Global, sums: u32, numbers: u32, more: &str) -> Result<String> {
    let mut script = String::new(alloc);
    write!(script, "  SELECT 1")?;
    for _ in 0..sums {
        put_sum(&mut script)?;
    }
    for _ in 0..numbers {
        write!(script, ",1")?;
    }
    write!(script, "{more}")?;
    Ok(script)
}
