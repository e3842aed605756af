//! The words of the overloads that are chosen.
ghost use Rattle.std.specs.Prelude.{◌≡◌, ◌++◌, [], IfOk, OnOk, slice_get, string_bytes};
ghost use Rattle.std.specs.Option.{option_map_or};
ghost use Rattle.xp_run.specs.Uses.{argument_names, function_words, operand_names, operator_words, type_name, type_names, use_words};

use std::alloc::{AllocError, Global};
use xp_analyse::Use;
use xp_base::{RowNo, TypeNo};
use xp_catalog::{Catalog, FuncRow, OperRow};

/// The name of a type; a number that is no type's has none.
fn name_of(catalog: &Catalog, ty: TypeNo) -> &str
    ensures { result.now ≡ type_name catalog.now ty }
{
    if ty.0 < catalog.counts().types {
        catalog.type_row(ty).name.as_str()
    } else {
        ""
    }
}

/// Adds the names of the types, with commas between.
pub fn push_names(catalog: &Catalog, types: &[TypeNo], out: &mut String) -> Result<(), AllocError>
    ensures { OnOk result (string_bytes out.new ≡ string_bytes out.old ++ type_names catalog.now types.now) }
{
    let [first, others @ ..] = types else {
        return Ok(());
    };
    out.push_str(name_of(catalog, *first))?;
    for other in others {
        out.push_str(",")?;
        out.push_str(name_of(catalog, *other))?;
    }
    Ok(())
}

/// The declared types of a function's arguments, with commas between. In a variadic record the last
/// has a word before it.
#[tactic(auto, using(crate::proofs::Names::one_more))]
fn argument_names(
    alloc: Global,
    catalog: &Catalog,
    variadic: bool,
    types: &[TypeNo],
) -> Result<String, AllocError>
    ensures { IfOk result (λ names. string_bytes names ≡ argument_names catalog.now variadic types.now) }
{
    let mut names = String::new(alloc);
    let [before @ .., last] = types else {
        return Ok(names);
    };
    for ty in before {
        names.push_str(name_of(catalog, *ty))?;
        names.push_str(",")?;
    }
    if variadic {
        names.push_str("variadic ")?;
    }
    names.push_str(name_of(catalog, *last))?;
    Ok(names)
}

fn function_words(
    alloc: Global,
    catalog: &Catalog,
    function: &FuncRow,
    ty: TypeNo,
) -> Result<String, AllocError>
    ensures { IfOk result (λ words. string_bytes words ≡ function_words catalog.now ty function.now) }
{
    let name = function.name.as_str();
    let arguments = argument_names(alloc, catalog, function.variadic, function.args.as_slice())?;
    let given = name_of(catalog, ty);
    format!(in alloc; "function {name}({arguments}) -> {given}")
}

/// The declared types of an operator's operands. A prefix operator has one.
fn operand_names(
    alloc: Global,
    catalog: &Catalog,
    left: Option<TypeNo>,
    right: TypeNo,
) -> Result<String, AllocError>
    ensures { IfOk result (λ names. string_bytes names ≡ operand_names catalog.now left right) }
{
    let right = name_of(catalog, right);
    match left {
        None => String::from_str(alloc, right),
        Some(left) => {
            let left = name_of(catalog, left);
            format!(in alloc; "{left},{right}")
        }
    }
}

fn operator_words(
    alloc: Global,
    catalog: &Catalog,
    operator: &OperRow,
    ty: TypeNo,
) -> Result<String, AllocError>
    ensures { IfOk result (λ words. string_bytes words ≡ operator_words catalog.now ty operator.now) }
{
    let name = operator.name.as_str();
    let operands = operand_names(alloc, catalog, operator.left, operator.right)?;
    let given = name_of(catalog, ty);
    format!(in alloc; "operator {name}({operands}) -> {given}")
}

fn function_use(
    alloc: Global,
    catalog: &Catalog,
    row: RowNo,
    ty: TypeNo,
) -> Result<String, AllocError>
    ensures { IfOk result (λ words. string_bytes words ≡ option_map_or (function_words catalog.now ty) (slice_get catalog.now.funcs row.0) []) }
{
    if row.0 < catalog.counts().funcs {
        function_words(alloc, catalog, catalog.func_row(row), ty)
    } else {
        Ok(String::new(alloc))
    }
}

fn operator_use(
    alloc: Global,
    catalog: &Catalog,
    row: RowNo,
    ty: TypeNo,
) -> Result<String, AllocError>
    ensures { IfOk result (λ words. string_bytes words ≡ option_map_or (operator_words catalog.now ty) (slice_get catalog.now.opers row.0) []) }
{
    if row.0 < catalog.counts().opers {
        operator_words(alloc, catalog, catalog.oper_row(row), ty)
    } else {
        Ok(String::new(alloc))
    }
}

/// The words of an overload that is chosen; a number that is no record's has none.
pub fn use_words(alloc: Global, catalog: &Catalog, one: Use) -> Result<String, AllocError>
    ensures { IfOk result (λ words. string_bytes words ≡ use_words catalog.now one) }
{
    match one {
        Use::Function { row, result } => function_use(alloc, catalog, row, result),
        Use::Operator { row, result } => operator_use(alloc, catalog, row, result),
        Use::Cast { target } => {
            let target = name_of(catalog, target);
            format!(in alloc; "cast {target}")
        }
    }
}
