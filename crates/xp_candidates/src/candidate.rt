//! A candidate, and lists of them.
ghost use Rattle.std.specs.Prelude.{◌≡◌, ◌++◌, OnOk, option_to_list};

use sqlite_items::Items;
use std::alloc::AllocError;
use xp_base::{RowNo, TypeNo};

/// A record that may be meant by a call, by the types that it declares for the call's inputs.
#[derive(Debug, Drop)]
pub struct Candidate {
    pub row: RowNo,
    /// One type per input.
    pub declared: Items<TypeNo>,
    /// The type of the result, as declared.
    pub result_type: TypeNo,
    /// How many inputs stand for the elements of a variadic parameter, and 0 where none do.
    pub expanded: u32,
}

/// Adds a candidate at the end, where there is one.
pub fn push_some(candidates: &mut Vec<Candidate>, form: Option<Candidate>) -> Result<(), AllocError>
    ensures { OnOk result (candidates.new.items ≡ candidates.old.items ++ option_to_list form) }
{
    if let Some(candidate) = form {
        candidates.push(candidate)?;
    }
    Ok(())
}
