//! The rows of types, and lists with more rows.
ghost use Rattle.std.specs.Prelude.{◌≡◌, ◌^◌, ◌<◌, [], ◌∷◌, ◌++◌, IfOk, codes, length, string_bytes};
ghost use Rattle.xp_catalog.specs.Contents.{array_row, category_at, type_row, unknown_row, with_array, with_type};

use crate::names::pseudo_type;
use crate::{TypeKind, TypeRow};
use sqlite_items::Items;
use std::alloc::{AllocError, Global};
use xp_base::{Memory, Name, TypeNo};

/// The items with one more at the end.
pub fn pushed<T: Drop>(items: Items<T>, item: T) -> Result<Items<T>, Memory>
    ensures { IfOk result (λ list. list ≡ items ++ item ∷ []) }
{
    let mut items = items;
    items.push(item)?;
    Ok(items)
}

/// The type `unknown`, which no record gives.
pub fn first_row(alloc: Global) -> Result<TypeRow, Memory>
    ensures { IfOk result (λ row. row ≡ unknown_row) }
{
    Ok(TypeRow {
        name: Name::from_str(alloc, "unknown")?,
        category: b'X',
        preferred: false,
        kind: TypeKind::Plain,
        line: 0,
    })
}

fn array_text(alloc: Global, name: &str) -> Result<String, AllocError>
    ensures { IfOk result (λ text. string_bytes text ≡ name.now ++ codes "[]") }
{
    let mut text = String::from_str(alloc, name)?;
    text.push_str("[]")?;
    Ok(text)
}

/// The array type of the type with that number.
fn array_row(alloc: Global, number: u32, element: &TypeRow) -> Result<TypeRow, Memory>
    ensures { IfOk result (λ row. row ≡ array_row number element.now) }
{
    Ok(TypeRow {
        name: Name::from_string(array_text(alloc, element.name.as_str())?),
        category: b'A',
        preferred: false,
        kind: TypeKind::Array {
            element: TypeNo(number),
        },
        line: element.line,
    })
}

/// The types with one more behind them, and behind that its array type.
pub fn with_array(
    alloc: Global,
    types: Items<TypeRow>,
    row: TypeRow,
) -> Result<Items<TypeRow>, Memory>
    requires { length types < 2 ^ 32 }
    ensures { IfOk result (λ list. list ≡ with_array types row) }
{
    let array = array_row(alloc, types.len() as u32, &row)?;
    pushed(pushed(types, row)?, array)
}

/// The types with a plain type or a pseudo-type behind them. A plain type has an array type.
pub fn with_type(
    alloc: Global,
    types: Items<TypeRow>,
    name: Name,
    category: u8,
    preferred: bool,
    line: u32,
) -> Result<Items<TypeRow>, Memory>
    requires { length types < 2 ^ 32 }
    ensures { IfOk result (λ list. list ≡ with_type types name category preferred line) }
{
    if let Some(pseudo) = pseudo_type(name.as_str().as_bytes()) {
        return pushed(
            types,
            TypeRow {
                name,
                category,
                preferred,
                kind: TypeKind::Pseudo(pseudo),
                line,
            },
        );
    }
    let row = TypeRow {
        name,
        category,
        preferred,
        kind: TypeKind::Plain,
        line,
    };
    with_array(alloc, types, row)
}

/// The category of a type.
pub fn category_at(types: &[TypeRow], number: TypeNo) -> u8
    requires { number.0 < length types.now }
    ensures { result ≡ category_at types.now number }
{
    types[number.0 as usize].category
}
