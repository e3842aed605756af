//! Arrays of the fields of a text.
ghost use Rattle.std.specs.Prelude.{◌≡◌, ◌∷◌, [], ◌<◌, IfOk, IfSome, MatchOption, length, map, option_copied, string_bytes, None};
ghost use Rattle.std.specs.Char.{encode_utf8};
ghost use Rattle.std.specs.Str.{chars};
ghost use Rattle.xp_array.specs.Strings.{divided as divided_of, field_value as field_value_of, to_array};
ghost use Rattle.xp_base.specs.OrMemory.{OrMemory};
ghost use Rattle.xp_characters.specs.Faults.{is_memory};
ghost use Rattle.xp_text.specs.Fields.{fields as fields_of};

use crate::limits::{bytes_of_all, check_array};
use sqlite_items::Items;
use std::alloc::Global;
use xp_base::{Memory, Txt};
use xp_characters::{TextFault, first_character};
use xp_value::{Array, Value};

/// The first field and what stands behind its delimiter, where there is one that isn't empty.
fn cut<'a>(text: &'a str, delimiter: &str) -> Option<(&'a str, &'a str)>
    ensures cases { MatchOption result (fields_of delimiter.now text.now ≡ text.now ∷ []) (λ r. fields_of delimiter.now text.now ≡ r.0.now ∷ fields_of delimiter.now r.1.now) }
    ensures shorter { IfSome result (λ r. length r.1.now < length text.now) }
{
    if delimiter.is_empty() {
        return None;
    }
    match text.split_once(delimiter) {
        Some((field, behind)) => Some((field, behind)),
        None => None,
    }
}

/// A field as a value, which is null where the field equals the other text.
fn field_value(field: String, null: Option<&str>) -> Value
    ensures { result ≡ field_value_of (option_copied null.entry) (string_bytes field) }
{
    if let Some(text) = null {
        if field.as_str() == text {
            return Value::Null;
        }
    }
    Value::Text(Txt::from_string(field))
}

/// The fields between delimiters.
fn fields(alloc: Global, text: &str, delimiter: &str, null: Option<&str>) -> Result<Array, Memory>
    ensures { IfOk result (λ array. array ≡ map (field_value_of (option_copied null.entry)) (fields_of delimiter.now text.now)) }
{
    let mut values = Items::new(alloc);
    let mut rest = text;
    while let Some((field, behind)) = cut(rest, delimiter) {
        let owned = String::from_str(alloc, field)?;
        values.push(field_value(owned, null))?;
        rest = behind;
    }
    let last = String::from_str(alloc, rest)?;
    values.push(field_value(last, null))?;
    Ok(values)
}

/// The characters, each a field.
fn characters(alloc: Global, text: &str, null: Option<&str>) -> Result<Array, Memory>
    ensures { IfOk result (λ array. array ≡ map (field_value_of (option_copied null.entry)) (map encode_utf8 (chars text.now))) }
{
    let mut values = Items::new(alloc);
    let mut rest = text;
    while let Some((c, behind)) = first_character(rest) {
        let mut owned = String::new(alloc);
        owned.push(c)?;
        values.push(field_value(owned, null))?;
        rest = behind;
    }
    Ok(values)
}

/// The fields of a text, of which an empty one has none.
fn divided(
    alloc: Global,
    text: &str,
    delimiter: Option<&str>,
    null: Option<&str>,
) -> Result<Array, Memory>
    ensures { IfOk result (λ array. array ≡ map (field_value_of (option_copied null.entry)) (divided_of text.now (option_copied delimiter.entry))) }
{
    if text.is_empty() {
        return Ok(Items::new(alloc));
    }
    match delimiter {
        Some(between) => fields(alloc, text, between, null),
        None => characters(alloc, text, null),
    }
}

/// The fields of the text between delimiters, with null for those that equal the third text; null
/// where the text is. A null delimiter divides it into its characters, and an empty one not at all.
pub fn string_to_array_nulls(
    alloc: Global,
    text: Option<&str>,
    delimiter: Option<&str>,
    null: Option<&str>,
) -> Result<Option<Array>, TextFault>
    ensures value { OrMemory is_memory (to_array (option_copied text.entry) (option_copied delimiter.entry) (option_copied null.entry)) result }
{
    let Some(whole) = text else {
        return Ok(None);
    };
    let array = divided(alloc, whole, delimiter, null)?;
    check_array(array.len(), bytes_of_all(array.as_slice()))?;
    Ok(Some(array))
}

/// The fields of the text between delimiters; null where the text is. A null delimiter divides it
/// into its characters, and an empty one not at all.
pub fn string_to_array(
    alloc: Global,
    text: Option<&str>,
    delimiter: Option<&str>,
) -> Result<Option<Array>, TextFault>
    ensures value { OrMemory is_memory (to_array (option_copied text.entry) (option_copied delimiter.entry) None) result }
{
    string_to_array_nulls(alloc, text, delimiter, None)
}
