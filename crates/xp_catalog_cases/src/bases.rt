//! The texts behind which records stand, by name.
use anyhow::{Result, bail};
use std::alloc::Global;
use xp_shipped::shipped;

/// What a division of integers needs.
const SMALL: &str = "\
type,bool,B,t
type,int4,N,f
function,div,int4 int4,f,int4,immutable,t,div_int4_int4
operator,/,int4,int4,div
";

/// Types of most kinds, and functions with and without bodies.
const LARGER: &str = "\
type,bool,B,t
type,int4,N,f
type,int8,N,f
type,text,S,t
type,varchar,S,f
type,float8,N,t
type,any,P,f
type,anyelement,P,f
type,anyarray,P,f
type,anycompatible,P,f
domain,posint,int4,t,VALUE > 0
range,int4range,int4
function,div,int4 int4,f,int4,immutable,t,div_int4_int4
function,half,int4,f,int4,stable,t,none
function,wide,int4,f,float8,immutable,t,none
operator,/,int4,int4,div
cast,int4,int8,implicit,none
";

/// A record of each kind.
const WORKED: &str = "\
type,int4,N,f
type,text,S,t
type,any,P,f
range,int4range,int4
domain,posint,int4,t,VALUE > 0
function,div,int4 int4,f,int4,immutable,t,none
operator,/,int4,int4,div
cast,int4,text,explicit,none
";

/// What records say that isn't usual.
const UNUSUAL: &str = "\
type,int4,N,f
type,text,S,t
domain,d,int4,t,VALUE > 0
range,r,int4
function,f,int4 text[],t,int4,stable,f,none
function,g,int4,f,text,volatile,t,none
cast,int4,text,assignment,g
cast,text,int4,explicit,none
operator,@,,int4,g
";

/// The text of that name.
pub fn base(alloc: Global, name: &str) -> Result<Vec<u8>> {
    let mut out = Vec::new(alloc);
    match name {
        "small" => out.extend_from_slice(SMALL.as_bytes())?,
        "larger" => out.extend_from_slice(LARGER.as_bytes())?,
        "worked" => out.extend_from_slice(WORKED.as_bytes())?,
        "unusual" => out.extend_from_slice(UNUSUAL.as_bytes())?,
        "shipped" => out.extend_from_slice(shipped(alloc)?.as_slice())?,
        _ => bail!("no such base"),
    }
    Ok(out)
}

/// The text with one record more.
pub fn with_record(alloc: Global, text: &[u8], record: &str) -> Result<Vec<u8>> {
    let mut out = Vec::new(alloc);
    out.extend_from_slice(text)?;
    out.extend_from_slice(record.as_bytes())?;
    out.push(b'\n')?;
    Ok(out)
}
