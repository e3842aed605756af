//! The texts of an array's elements, from the text of the array.
ghost use Rattle.std.specs.Prelude.{◌≡◌, ◌++◌, ◌<◌, ◌≤◌, IfErr, IfOk, false, length, MatchOption, None, Some, Ok, Err, option_copied};
ghost use Rattle.xp_array.specs.inner.Characters.{character as character_of};
ghost use Rattle.xp_array.specs.Read.{behind_comma as behind_comma_of, element as element_of, element_texts as element_texts_of, elements as elements_of, inside as inside_of, is_blank as is_blank_of, is_end as is_end_of, is_null as is_null_of, not_empty, quoted as quoted_of, unquoted as unquoted_of};
ghost use Rattle.xp_base.specs.OrMemory.{OrMemory};
ghost use Rattle.xp_base.specs.declared.limits.TheConstants.{ELEMENT_LIMIT};
ghost use Rattle.xp_characters.specs.Faults.{is_memory};

use crate::marks::{is_mark, is_null_word, is_space, past_space};
use sqlite_items::Items;
use std::alloc::Global;
use xp_base::{Byts, ELEMENT_LIMIT, EvalError, Memory};
use xp_characters::TextFault;

/// The texts of an array's elements, None for null.
pub type ElementTexts = Items<Option<Byts>>;

const BAD_TEXT: TextFault = TextFault::Raised(EvalError::BadText);

/// The bytes of an element up to the quote that ends it, and what stands behind that.
fn quoted(alloc: Global, text: &[u8]) -> Result<Option<(Byts, &[u8])>, Memory>
    ensures { IfOk result (λ found. MatchOption found (quoted_of false text.now ≡ None) (λ r. quoted_of false text.now ≡ Some (r.0, r.1.now))) }
{
    let mut bytes = Byts::new(alloc);
    let mut is_plain = false;
    let mut rest = text;
    while let [c, behind @ ..] = rest {
        rest = behind;
        if !is_plain && *c == b'"' {
            return Ok(Some((bytes, rest)));
        }
        is_plain = !is_plain && *c == b'\\';
        if !is_plain {
            bytes.append(&[*c])?;
        }
    }
    Ok(None)
}

/// Whether a mark or the end of the text stands there.
fn is_end(text: &[u8]) -> bool
    ensures { result ≡ is_end_of text.now }
{
    match text {
        [c, ..] => is_mark(*c),
        [] => true,
    }
}

/// The bytes that one character of an element without quotes stands for, and what stands behind it:
/// behind a backslash a byte is plain, and a backslash at the end of the text stands for none.
fn character(text: &[u8]) -> (&[u8], &[u8])
    requires { 0 < length text.now }
    ensures value { (result.0.now, result.1.now) ≡ character_of text.now }
    ensures shorter { length result.1.now < length text.now }
{
    match text {
        [b'\\', c, behind @ ..] => (&text[1..2], behind),
        [b'\\'] => (&text[1..], &text[1..]),
        [_, behind @ ..] => (&text[..1], behind),
        [] => (text, text),
    }
}

/// The bytes of an element without quotes, and what stands from its end on.
fn unquoted(alloc: Global, text: &[u8]) -> Result<(Byts, &[u8]), Memory>
    ensures { IfOk result (λ r. unquoted_of false text.now ≡ (r.0, r.1.now)) }
{
    let mut bytes = Byts::new(alloc);
    let mut rest = text;
    while !rest.is_empty() {
        let word = past_space(rest);
        if is_end(word) {
            return Ok((bytes, word));
        }
        bytes.append(&rest[..rest.len() - word.len()])?;
        let (byte, behind) = character(word);
        bytes.append(byte)?;
        rest = behind;
    }
    Ok((bytes, rest))
}

/// Whether NULL stands there alone, up to a mark or the end of the text.
fn is_null(text: &[u8]) -> bool
    ensures { result ≡ is_null_of text.now }
{
    text.len() >= 4 && is_null_word(&text[..4]) && is_end(past_space(&text[4..]))
}

/// The element without quotes that begins the text, which isn't empty, and what stands behind it.
#[tactic(auto, using(crate::proofs::Elements::some_bytes))]
fn bare_element(alloc: Global, text: &[u8]) -> Result<(Option<Byts>, &[u8]), TextFault>
    ensures ok { IfOk result (λ r. not_empty (unquoted_of false text.now) ≡ Ok (r.0, r.1.now)) }
    ensures err { IfErr result (λ e. is_memory e ≡ false → not_empty (unquoted_of false text.now) ≡ Err e) }
{
    let (bytes, behind) = unquoted(alloc, text)?;
    if bytes.as_slice().is_empty() {
        return Err(BAD_TEXT);
    }
    Ok((Some(bytes), behind))
}

/// The element that begins the text, and what stands behind it.
fn element(alloc: Global, text: &[u8]) -> Result<(Option<Byts>, &[u8]), TextFault>
    ensures ok { IfOk result (λ r. element_of text.now ≡ Ok (r.0, r.1.now)) }
    ensures err { IfErr result (λ e. is_memory e ≡ false → element_of text.now ≡ Err e) }
{
    match text {
        [] => Err(BAD_TEXT),
        [b'{', ..] => Err(TextFault::Raised(EvalError::Dimensions)),
        [b'"', inner @ ..] => match quoted(alloc, inner)? {
            Some((bytes, behind)) => Ok((Some(bytes), past_space(behind))),
            None => Err(BAD_TEXT),
        },
        _ if is_null(text) => Ok((None, past_space(&text[4..]))),
        _ => bare_element(alloc, text),
    }
}

fn is_blank(text: &[u8]) -> bool
    ensures { result ≡ is_blank_of text.now }
{
    text.iter().all(|c| is_space(*c))
}

/// What stands behind a comma, or nothing behind the brace that ends the array.
fn behind_comma(text: &[u8]) -> Result<Option<&[u8]>, TextFault>
    ensures ok { IfOk result (λ r. behind_comma_of text.now ≡ Ok (option_copied r)) }
    ensures err { IfErr result (λ e. behind_comma_of text.now ≡ Err e) }
{
    match text {
        [b',', behind @ ..] => Ok(Some(behind)),
        [b'}', behind @ ..] if is_blank(behind) => Ok(None),
        _ => Err(BAD_TEXT),
    }
}

/// The elements up to the end of the array, of which there may be so many.
fn elements(alloc: Global, text: &[u8], limit: u32) -> Result<ElementTexts, TextFault>
    ensures { OrMemory is_memory (elements_of limit text.now) result }
{
    let mut texts = Items::new(alloc);
    let mut rest = text;
    for _ in 0..limit {
        let (first, behind) = match element(alloc, past_space(rest)) {
            Ok(found) => found,
            Err(fault) => return Err(fault),
        };
        texts.push(first)?;
        match behind_comma(behind)? {
            Some(more) => rest = more,
            None => return Ok(texts),
        }
    }
    Err(TextFault::Raised(EvalError::Limit))
}

/// The elements behind the opening brace.
fn inside(alloc: Global, text: &[u8], limit: u32) -> Result<ElementTexts, TextFault>
    ensures { OrMemory is_memory (inside_of limit text.now) result }
{
    match text {
        [] => Err(BAD_TEXT),
        [b'}', behind @ ..] if is_blank(behind) => Ok(Items::new(alloc)),
        [b'}', ..] => Err(BAD_TEXT),
        _ => elements(alloc, text, limit),
    }
}

/// The elements of an array of at most so many.
fn array_texts(alloc: Global, text: &[u8], limit: u32) -> Result<ElementTexts, TextFault>
    ensures { OrMemory is_memory (element_texts_of limit text.now) result }
{
    match past_space(text) {
        [b'{', behind @ ..] => inside(alloc, past_space(behind), limit),
        _ => Err(BAD_TEXT),
    }
}

/// The texts of the elements of the array that the text is, None for null; or the first fault of
/// its form.
pub fn element_texts(alloc: Global, text: &[u8]) -> Result<ElementTexts, TextFault>
    ensures { OrMemory is_memory (element_texts_of ELEMENT_LIMIT text.now) result }
{
    array_texts(alloc, text, ELEMENT_LIMIT)
}
