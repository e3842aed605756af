//! Records and texts that are too long for a table.
use crate::answers::{fault_text, loaded};
use crate::bases::with_record;
use crate::rows::counts_text;
use anyhow::{Result, ensure};
use std::alloc::{AllocError, Global};

/// A record of a function with that many arguments of type int4, whose body isn't one.
fn function_of(alloc: Global, count: u32) -> Result<String, AllocError> {
    let mut text = String::from_str(alloc, "function,f,int4")?;
    for _ in 1..count {
        text.push_str(" int4")?;
    }
    text.push_str(",f,int4,immutable,t,nobody")?;
    Ok(text)
}

fn answer_text(alloc: Global, text: &[u8]) -> Result<String> {
    match loaded(alloc, text)? {
        Ok(catalog) => Ok(counts_text(alloc, catalog.counts())?),
        Err(fault) => Ok(fault_text(alloc, fault)?),
    }
}

/// What is answered to a function of that many arguments.
pub fn arguments_text(alloc: Global, given: &[u8], count: &str) -> Result<String> {
    let count: u32 = count.parse()?;
    ensure!(count < 1000, "too many");
    let record = function_of(alloc, count)?;
    let text = with_record(alloc, given, record.as_str())?;
    answer_text(alloc, text.as_slice())
}

/// What is answered to a text of that many records: a type, and functions of that type. A record
/// of no kind stands behind the first 20,000.
pub fn records_text(alloc: Global, count: &str) -> Result<String> {
    let count: u32 = count.parse()?;
    ensure!(count < 30_000, "too many");
    let mut text = String::from_str(alloc, "type,int4,N,f\n")?;
    for k in 1..count {
        if k < 20_000 {
            write!(text, "function,f{k},,f,int4,immutable,t,none\n")?;
        } else {
            text.push_str("view,x\n")?;
        }
    }
    answer_text(alloc, text.as_bytes())
}
