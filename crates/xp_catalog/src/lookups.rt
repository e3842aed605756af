//! Places in lists of rows.
ghost use Rattle.std.specs.Prelude.{◌≡◌, ◌<◌, IfSome, length};
ghost use Rattle.std.specs.List.{position};
ghost use Rattle.xp_catalog.specs.Lookups.{has_arguments, has_operands, has_type_name, is_between, operands, same_types};

use crate::{CastRow, FuncRow, OperRow, TypeRow};
use xp_base::TypeNo;

fn same_types(a: &[TypeNo], b: &[TypeNo]) -> bool
    ensures { result ≡ same_types a.now b.now }
{
    a == b
}

/// Whether these are the operands: one for a prefix operator, else left and right.
fn takes(left: Option<TypeNo>, right: TypeNo, args: &[TypeNo]) -> bool
    ensures { result ≡ same_types (operands left right) args.now }
{
    match left {
        Some(left) => same_types(&[left, right], args),
        None => same_types(&[right], args),
    }
}

/// The place of the first type of that name.
pub fn place_of_type(types: &[TypeRow], name: &[u8]) -> Option<usize>
    ensures value { result ≡ position (has_type_name name.now) types.now }
    ensures within { IfSome result (λ place. place < length types.now) }
{
    types
        .iter()
        .position(|row| row.name.as_str().as_bytes() == name)
}

/// The place of the first cast from one type to the other.
pub fn place_of_cast(casts: &[CastRow], from: TypeNo, to: TypeNo) -> Option<usize>
    ensures value { result ≡ position (is_between from to) casts.now }
    ensures within { IfSome result (λ place. place < length casts.now) }
{
    casts
        .iter()
        .position(|row| row.from == from && row.to == to)
}

/// The place of the first function of that name with exactly these arguments.
pub fn place_of_func(funcs: &[FuncRow], name: &[u8], args: &[TypeNo]) -> Option<usize>
    ensures value { result ≡ position (has_arguments name.now args.now) funcs.now }
    ensures within { IfSome result (λ place. place < length funcs.now) }
{
    funcs.iter().position(|row| {
        row.name.as_str().as_bytes() == name && same_types(row.args.as_slice(), args)
    })
}

/// The place of the first operator of that name with exactly these operands.
pub fn place_of_oper(opers: &[OperRow], name: &[u8], args: &[TypeNo]) -> Option<usize>
    ensures value { result ≡ position (has_operands name.now args.now) opers.now }
    ensures within { IfSome result (λ place. place < length opers.now) }
{
    opers.iter().position(|row| {
        row.name.as_str().as_bytes() == name && takes(row.left, row.right, args)
    })
}
