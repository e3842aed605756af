//! The text of an array, from the texts of its elements.
ghost use Rattle.std.specs.Prelude.{◌≡◌, ◌∷◌, [], ◌++◌, OnErr, OnOk, flat_map, if◌then◌else◌, ◌==◌, ◌||◌};
ghost use Rattle.std.specs.List.{join_by, list_any};
ghost use Rattle.xp_array.specs.Marks.{backslash, comma, quote};
ghost use Rattle.xp_array.specs.Written.{array_text, element_text, escaped, is_special as is_special_of, needs_quotes as needs_quotes_of};

use crate::marks::{is_mark, is_null_word, is_space};
use std::alloc::Global;
use xp_base::{Byts, Memory};

/// A comma, brace, quote, backslash or white space.
fn is_special(c: u8) -> bool
    ensures { result ≡ is_special_of c }
{
    is_mark(c) || c == b'\\' || is_space(c)
}

fn has_special(text: &[u8]) -> bool
    ensures { result ≡ list_any is_special_of text.now }
{
    text.iter().any(|c| is_special(*c))
}

/// Whether the text of an element has to stand in quotes.
fn needs_quotes(text: &[u8]) -> bool
    ensures { result ≡ needs_quotes_of text.now }
{
    text.is_empty() || has_special(text) || is_null_word(text)
}

/// Adds a byte, behind a backslash where it is a quote or a backslash.
fn put_byte(out: &mut Byts, c: u8) -> Result<(), Memory>
    ensures { OnOk result (out.new ≡ out.old ++ (if c == quote || c == backslash then backslash ∷ c ∷ [] else c ∷ [])) }
{
    if c == b'"' || c == b'\\' {
        return out.append(&[b'\\', c]);
    }
    out.append(&[c])
}

fn put_escaped(out: &mut Byts, text: &[u8]) -> Result<(), Memory>
    ensures { OnOk result (out.new ≡ out.old ++ escaped text.now) }
{
    for c in text {
        put_byte(out, *c)?;
    }
    Ok(())
}

fn put_quoted(out: &mut Byts, text: &[u8]) -> Result<(), Memory>
    ensures { OnOk result (out.new ≡ out.old ++ quote ∷ (escaped text.now ++ quote ∷ [])) }
{
    out.append(b"\"")?;
    put_escaped(out, text)?;
    out.append(b"\"")
}

fn put_element(out: &mut Byts, text: &Option<Byts>) -> Result<(), Memory>
    ensures { OnOk result (out.new ≡ out.old ++ element_text text.now) }
{
    let Some(bytes) = text else {
        return out.append(b"NULL");
    };
    if needs_quotes(bytes.as_slice()) {
        return put_quoted(out, bytes.as_slice());
    }
    out.append(bytes.as_slice())
}

/// Adds the elements, each behind a comma.
fn put_others(out: &mut Byts, texts: &[Option<Byts>]) -> Result<(), Memory>
    ensures { OnOk result (out.new ≡ out.old ++ flat_map (λ text. (comma ∷ []) ++ element_text text) texts.now) }
{
    for text in texts {
        out.append(b",")?;
        put_element(out, text)?;
    }
    Ok(())
}

/// Adds the elements with a comma between each two.
fn put_elements(out: &mut Byts, texts: &[Option<Byts>]) -> Result<(), Memory>
    ensures { OnOk result (out.new ≡ out.old ++ join_by element_text (comma ∷ []) texts.now) }
{
    let [first, others @ ..] = texts else {
        return Ok(());
    };
    put_element(out, first)?;
    put_others(out, others)
}

/// Adds the text of the array whose elements have these texts, None for null; or nothing, where
/// memory is short.
pub fn write_array(alloc: Global, texts: &[Option<Byts>], out: &mut Byts) -> Result<(), Memory>
    ensures ok { OnOk result (out.new ≡ out.old ++ array_text texts.now) }
    ensures err { OnErr result (out.new ≡ out.old) }
{
    let mut whole = Byts::new(alloc);
    whole.append(b"{")?;
    put_elements(&mut whole, texts)?;
    whole.append(b"}")?;
    out.append(whole.as_slice())
}
