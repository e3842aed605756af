//! The numbered lines of a block, each with the newline that ends it.
ghost use Rattle.std.specs.Prelude.{◌≡◌, ◌++◌, IfOk, OnOk, codes, string_bytes};
ghost use Rattle.std.specs.Fmt.{decimal};
ghost use Rattle.xp_run.specs.Blocks.{early_line, error_line, ok_line, refused_line, types_line, uses_line};
ghost use Rattle.xp_run.specs.Uses.{type_names, use_words};

use crate::uses::{push_names, use_words};
use itoa::Buffer;
use std::alloc::{AllocError, Global};
use xp_analyse::Use;
use xp_base::{Code, TypeNo};
use xp_catalog::Catalog;

/// The front of a line: the number of its statement, and its word.
fn begin(k: u64, word: &str, line: &mut String) -> Result<(), AllocError>
    ensures { OnOk result (string_bytes line.new ≡ codes "-- " ++ decimal k ++ word.now) }
{
    line.clear();
    line.push_str("-- ")?;
    line.push_str(Buffer::new().format(k))?;
    line.push_str(word)
}

/// `-- K types T,T`
pub fn types(
    catalog: &Catalog,
    k: u64,
    types: &[TypeNo],
    line: &mut String,
) -> Result<(), AllocError>
    ensures { OnOk result (string_bytes line.new ≡ types_line k (type_names catalog.now types.now)) }
{
    begin(k, " types ", line)?;
    push_names(catalog, types, line)?;
    line.push_str("\n")
}

/// `-- K uses WORDS`
pub fn uses(alloc: Global, catalog: &Catalog, k: u64, one: Use) -> Result<String, AllocError>
    ensures { IfOk result (λ line. string_bytes line ≡ uses_line k (use_words catalog.now one)) }
{
    let words = use_words(alloc, catalog, one)?;
    format!(in alloc; "-- {k} uses {words}\n")
}

/// `-- K ok ROWS`
pub fn ok(k: u64, rows: u128, line: &mut String) -> Result<(), AllocError>
    ensures { OnOk result (string_bytes line.new ≡ ok_line k rows) }
{
    begin(k, " ok ", line)?;
    line.push_str(Buffer::new().format(rows))?;
    line.push_str("\n")
}

/// `-- K error CODE early`
pub fn early(alloc: Global, k: u64, code: Code) -> Result<String, AllocError>
    ensures { IfOk result (λ line. string_bytes line ≡ early_line k code) }
{
    let (state, word) = (code.state(), code.word());
    format!(in alloc; "-- {k} error {state} {word} early\n")
}

/// `-- K error CODE row R`
pub fn error(alloc: Global, k: u64, code: Code, row: u128) -> Result<String, AllocError>
    ensures { IfOk result (λ line. string_bytes line ≡ error_line k code row) }
{
    let (state, word) = (code.state(), code.word());
    format!(in alloc; "-- {k} error {state} {word} row {row}\n")
}

/// `-- K refused CODE byte B`
pub fn refused(alloc: Global, k: u64, code: Code, at: u64) -> Result<String, AllocError>
    ensures { IfOk result (λ line. string_bytes line ≡ refused_line k code at) }
{
    let (state, word) = (code.state(), code.word());
    format!(in alloc; "-- {k} refused {state} {word} byte {at}\n")
}
