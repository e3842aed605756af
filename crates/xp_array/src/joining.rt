//! Texts of the elements of an array, one behind the other.
ghost use Rattle.std.specs.Prelude.{◌≡◌, ◌+◌, ◌<◌, ◌≤◌, ◌++◌, IfErr, OnOk, false, length, option_copied, string_bytes, None, Some};
ghost use Rattle.xp_array.specs.Strings.{shown as shown_of, shown_all, to_string};
ghost use Rattle.xp_base.specs.OrMemory.{OrMemory};
ghost use Rattle.xp_base.specs.declared.limits.TheConstants.{VALUE_LIMIT};
ghost use Rattle.xp_characters.specs.Faults.{is_memory, limited, too_large};

use std::alloc::Global;
use xp_base::Txt;
use xp_characters::{TextFault, check_size};
use xp_value::Value;

/// An element's text, or another one in the place of null.
fn shown<'a>(value: &'a Value, null: Option<&'a str>) -> Option<&'a str>
    ensures { option_copied result ≡ shown_of (option_copied null.entry) value.now }
{
    match value {
        Value::Text(text) => Some(text.as_str()),
        _ => null,
    }
}

/// Adds a piece, where the text with it isn't too large.
fn put(out: &mut String, piece: &str) -> Result<(), TextFault>
    ensures ok { OnOk result (string_bytes out.new ≡ string_bytes out.old ++ piece.now) }
    ensures within { OnOk result (length (string_bytes out.new) ≤ VALUE_LIMIT) }
    ensures large { IfErr result (λ e. is_memory e ≡ false → (e ≡ too_large) × (VALUE_LIMIT < length (string_bytes out.old) + length piece.now)) }
{
    check_size(out.len().saturating_add(piece.len()))?;
    out.push_str(piece)?;
    Ok(())
}

/// The elements with the delimiter between each two.
fn shown_together(
    alloc: Global,
    elements: &[Value],
    delimiter: &str,
    null: Option<&str>,
) -> Result<Txt, TextFault>
    ensures { OrMemory is_memory (limited (shown_all elements.now delimiter.now (option_copied null.entry))) result }
{
    let mut text = String::new(alloc);
    let mut between = "";
    for element in elements {
        if let Some(piece) = shown(element, null) {
            put(&mut text, between)?;
            put(&mut text, piece)?;
            between = delimiter;
        }
    }
    Ok(Txt::from_string(text))
}

/// The texts of the elements that aren't null, with the delimiter between each two.
pub fn array_to_string(alloc: Global, a: &[Value], delimiter: &str) -> Result<Txt, TextFault>
    ensures { OrMemory is_memory (limited (shown_all a.now delimiter.now None)) result }
{
    shown_together(alloc, a, delimiter, None)
}

/// The texts of the elements, nulls as a text of their own unless that is null, with the delimiter
/// between each two; null where the array or the delimiter is.
pub fn array_to_string_nulls(
    alloc: Global,
    a: Option<&[Value]>,
    delimiter: Option<&str>,
    null: Option<&str>,
) -> Result<Option<Txt>, TextFault>
    ensures value { OrMemory is_memory (to_string (option_copied a.entry) (option_copied delimiter.entry) (option_copied null.entry)) result }
{
    let (Some(elements), Some(delimiter)) = (a, delimiter) else {
        return Ok(None);
    };
    let text = shown_together(alloc, elements, delimiter, null)?;
    Ok(Some(text))
}
