//! The operators that a name and a number of operands may mean.
ghost use Rattle.std.specs.Prelude.{◌≡◌, ◌<◌, IfOk, length, option_to_list};
ghost use Rattle.std.specs.List.{All};
ghost use Rattle.std.specs.Option.{ForSome};
ghost use Rattle.xp_catalog.specs.Known.{IsKnownOper};
ghost use Rattle.xp_catalog.specs.Lookups.{operands};
ghost use Rattle.xp_candidates.specs.Accepted.{IsCandidate};
ghost use Rattle.xp_oper.specs.Candidates.{candidate_of, candidates, form_of, is_meant};

use sqlite_items::Items;
use std::alloc::{AllocError, Global};
use xp_base::{RowNo, TypeNo};
use xp_candidates::{Candidate, push_some};
use xp_catalog::{Catalog, OperRow};

fn operands(alloc: Global, oper: &OperRow) -> Result<Items<TypeNo>, AllocError>
    ensures { IfOk result (λ types. types ≡ operands oper.now.left oper.now.right) }
{
    match oper.left {
        Some(left) => Items::from_slice(alloc, &[left, oper.right]),
        None => Items::from_slice(alloc, &[oper.right]),
    }
}

fn count_of_operands(oper: &OperRow) -> usize
    ensures { result ≡ length (operands oper.now.left oper.now.right) }
{
    match oper.left {
        Some(_) => 2,
        None => 1,
    }
}

fn is_meant(name: &str, count: usize, oper: &OperRow) -> bool
    ensures { result ≡ is_meant name.now count oper.now }
{
    oper.name.as_str() == name && count_of_operands(oper) == count
}

fn candidate_of(
    alloc: Global,
    c: &Catalog,
    number: u32,
    oper: &OperRow,
) -> Result<Candidate, AllocError>
    requires { IsKnownOper c.now oper.now }
    ensures value { IfOk result (λ candidate. candidate ≡ candidate_of c.now number oper.now) }
    ensures known { IfOk result (IsCandidate c.now (length (operands oper.now.left oper.now.right))) }
{
    Ok(Candidate {
        row: RowNo(number),
        declared: operands(alloc, oper)?,
        result_type: c.func_row(oper.function).result,
        expanded: 0,
    })
}

/// The candidate that a record is, where it is meant.
fn form_of(
    alloc: Global,
    c: &Catalog,
    name: &str,
    count: usize,
    number: u32,
    oper: &OperRow,
) -> Result<Option<Candidate>, AllocError>
    requires known { IsKnownOper c.now oper.now }
    requires number { number < length c.now.opers }
    ensures value { IfOk result (λ form. option_to_list form ≡ form_of c.now name.now count number oper.now) }
    ensures known { IfOk result (λ form. ForSome form (IsCandidate c.now count)) }
    ensures row { IfOk result (λ form. ForSome form (λ candidate. candidate.row.0 < length c.now.opers)) }
{
    if !is_meant(name, count, oper) {
        return Ok(None);
    }
    Ok(Some(candidate_of(alloc, c, number, oper)?))
}

/// The operators of that name with that many operands, in the order of their records.
pub fn candidates(
    alloc: Global,
    c: &Catalog,
    name: &str,
    count: usize,
) -> Result<Vec<Candidate>, AllocError>
    ensures value { IfOk result (λ list. list.items ≡ candidates c.now name.now count) }
    ensures known { IfOk result (λ list. All (IsCandidate c.now count) list.items) }
    ensures rows { IfOk result (λ list. All (λ candidate. candidate.row.0 < length c.now.opers) list.items) }
{
    let mut candidates = Vec::new(alloc);
    for number in 0..c.counts().opers {
        let oper = c.oper_row(RowNo(number));
        let form = form_of(alloc, c, name, count, number, oper)?;
        push_some(&mut candidates, form)?;
    }
    Ok(candidates)
}
