//! The functions that a name and a number of arguments may mean.
ghost use Rattle.std.specs.Prelude.{◌≡◌, ◌<◌, ◌≤◌, IfOk, length};
ghost use Rattle.std.specs.List.{All};
ghost use Rattle.std.specs.Option.{ForSome, option_to_list};
ghost use Rattle.xp_base.specs.declared.limits.TheConstants.{ARGUMENT_LIMIT};
ghost use Rattle.xp_catalog.specs.Known.{IsKnownFunc};
ghost use Rattle.xp_catalog.specs.Lookups.{same_types};
ghost use Rattle.xp_candidates.specs.Accepted.{IsCandidate};
ghost use Rattle.xp_candidates.specs.Forms.{forms_from};
ghost use Rattle.xp_func.specs.Candidates.{candidates, forms_of, is_covered, is_meant, named_forms, own_form, unexpanded, unexpanded_of};

use crate::expanded::expansion;
use sqlite_items::Items;
use std::alloc::{AllocError, Global};
use xp_base::{RowNo, TypeNo};
use xp_candidates::{Candidate, push_some};
use xp_catalog::{Catalog, FuncRow};

pub fn same_types(a: &[TypeNo], b: &[TypeNo]) -> bool
    ensures { result ≡ same_types a.now b.now }
{
    a == b
}

fn is_meant(name: &str, count: usize, variadic: bool, func: &FuncRow) -> bool
    ensures { result ≡ is_meant name.now count variadic func.now }
{
    func.name.as_str() == name && func.variadic == variadic && func.args.len() == count
}

/// A record as it stands.
pub fn unexpanded_of(alloc: Global, number: u32, func: &FuncRow) -> Result<Candidate, AllocError>
    ensures { IfOk result (λ candidate. candidate ≡ unexpanded_of number func.now) }
{
    Ok(Candidate {
        row: RowNo(number),
        declared: Items::from_slice(alloc, func.args.as_slice())?,
        result_type: func.result,
        expanded: 0,
    })
}

/// A record as it stands, where it is meant.
fn own_form(
    alloc: Global,
    c: &Catalog,
    name: &str,
    count: usize,
    variadic: bool,
    number: u32,
    func: &FuncRow,
) -> Result<Option<Candidate>, AllocError>
    requires known { IsKnownFunc c.now func.now }
    requires number { number < length c.now.funcs }
    ensures value { IfOk result (λ form. option_to_list form ≡ own_form name.now count variadic number func.now) }
    ensures known { IfOk result (λ form. ForSome form (IsCandidate c.now count)) }
    ensures row { IfOk result (λ form. ForSome form (λ candidate. candidate.row.0 < length c.now.funcs)) }
{
    if !is_meant(name, count, variadic, func) {
        return Ok(None);
    }
    Ok(Some(unexpanded_of(alloc, number, func)?))
}

/// The records of that name with that many arguments, variadic or not, as they stand.
fn unexpanded(
    alloc: Global,
    c: &Catalog,
    name: &str,
    count: usize,
    variadic: bool,
) -> Result<Vec<Candidate>, AllocError>
    ensures value { IfOk result (λ list. list.items ≡ unexpanded c.now name.now count variadic) }
    ensures known { IfOk result (λ list. All (IsCandidate c.now count) list.items) }
    ensures rows { IfOk result (λ list. All (λ candidate. candidate.row.0 < length c.now.funcs) list.items) }
{
    let mut candidates = Vec::new(alloc);
    for number in 0..c.counts().funcs {
        let func = c.func_row(RowNo(number));
        let form = own_form(alloc, c, name, count, variadic, number, func)?;
        push_some(&mut candidates, form)?;
    }
    Ok(candidates)
}

/// Whether one of these has the same arguments.
fn is_covered(plain: &[Candidate], candidate: &Candidate) -> bool
    ensures { result ≡ is_covered plain.now candidate.now }
{
    for other in plain {
        if same_types(other.declared.as_slice(), candidate.declared.as_slice()) {
            return true;
        }
    }
    false
}

/// What a record gives for a call of `count` arguments: itself, or expanded where none of `plain`
/// has the same arguments.
fn form_of(
    alloc: Global,
    c: &Catalog,
    count: usize,
    plain: &[Candidate],
    number: u32,
    func: &FuncRow,
) -> Result<Option<Candidate>, AllocError>
    requires known { IsKnownFunc c.now func.now }
    requires number { number < length c.now.funcs }
    requires room { count ≤ ARGUMENT_LIMIT }
    ensures value { IfOk result (λ form. option_to_list form ≡ forms_of c.now count plain.now number func.now) }
    ensures known { IfOk result (λ form. ForSome form (IsCandidate c.now count)) }
    ensures row { IfOk result (λ form. ForSome form (λ candidate. candidate.row.0 < length c.now.funcs)) }
{
    if func.variadic {
        match expansion(alloc, c, count, number, func)? {
            Some(candidate) if !is_covered(plain, &candidate) => Ok(Some(candidate)),
            _ => Ok(None),
        }
    } else if func.args.len() == count {
        Ok(Some(unexpanded_of(alloc, number, func)?))
    } else {
        Ok(None)
    }
}

/// What a record gives where it has the name.
fn named_form(
    alloc: Global,
    c: &Catalog,
    name: &str,
    count: usize,
    plain: &[Candidate],
    number: u32,
    func: &FuncRow,
) -> Result<Option<Candidate>, AllocError>
    requires known { IsKnownFunc c.now func.now }
    requires number { number < length c.now.funcs }
    requires room { count ≤ ARGUMENT_LIMIT }
    ensures value { IfOk result (λ form. option_to_list form ≡ named_forms c.now name.now count plain.now number func.now) }
    ensures known { IfOk result (λ form. ForSome form (IsCandidate c.now count)) }
    ensures row { IfOk result (λ form. ForSome form (λ candidate. candidate.row.0 < length c.now.funcs)) }
{
    if func.name.as_str() == name {
        form_of(alloc, c, count, plain, number, func)
    } else {
        Ok(None)
    }
}

/// The records of that name, those that are variadic expanded.
fn forms(
    alloc: Global,
    c: &Catalog,
    name: &str,
    count: usize,
    plain: &[Candidate],
) -> Result<Vec<Candidate>, AllocError>
    requires { count ≤ ARGUMENT_LIMIT }
    ensures value { IfOk result (λ list. list.items ≡ forms_from (named_forms c.now name.now count plain.now) 0 c.now.funcs) }
    ensures known { IfOk result (λ list. All (IsCandidate c.now count) list.items) }
    ensures rows { IfOk result (λ list. All (λ candidate. candidate.row.0 < length c.now.funcs) list.items) }
{
    let mut candidates = Vec::new(alloc);
    for number in 0..c.counts().funcs {
        let func = c.func_row(RowNo(number));
        let form = named_form(alloc, c, name, count, plain, number, func)?;
        push_some(&mut candidates, form)?;
    }
    Ok(candidates)
}

/// The candidates in the order of their records. Behind the word VARIADIC they are the variadic
/// records alone, as they stand.
pub fn candidates(
    alloc: Global,
    c: &Catalog,
    name: &str,
    count: usize,
    variadic: bool,
) -> Result<Vec<Candidate>, AllocError>
    requires { count ≤ ARGUMENT_LIMIT }
    ensures value { IfOk result (λ list. list.items ≡ candidates c.now name.now count variadic) }
    ensures known { IfOk result (λ list. All (IsCandidate c.now count) list.items) }
    ensures rows { IfOk result (λ list. All (λ candidate. candidate.row.0 < length c.now.funcs) list.items) }
{
    if variadic {
        return unexpanded(alloc, c, name, count, true);
    }
    let plain = unexpanded(alloc, c, name, count, false)?;
    forms(alloc, c, name, count, &plain)
}
