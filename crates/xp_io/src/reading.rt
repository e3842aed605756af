//! From a text to a value.
ghost use Rattle.std.specs.Prelude.{◌≡◌, ◌<◌, ◌≤◌, Err, IfOk, MatchResult, Ok, false, length, true};
ghost use Rattle.xp_bytea.specs.Texts.{bytes_in};
ghost use Rattle.xp_io.specs.Forms.{Reads, by_form, bytes_value, input, is_clean};
ghost use Rattle.xp_value.specs.Null.{is_null};
ghost use Rattle.xp_io.specs.Representations.{is_built, shape_of};
ghost use Rattle.xp_value.specs.Representation.{is_of, plain};

use crate::booleans::input_bool;
use crate::integers::input_integer;
use crate::representations::rep_of;
use crate::space::trimmed;
use std::alloc::Global;
use std::str;
use thiserror::Error;
use xp_base::{Byts, EvalError, Memory, Txt, TypeNo, VALUE_LIMIT};
use xp_bytea::read_bytea;
use xp_catalog::Catalog;
use xp_characters::TextFault;
use xp_date::read_date;
use xp_numeric::read_numeric;
use xp_value::{Rep, Value};

/// Why a text gave no value.
#[derive(Clone, Copy, Debug, PartialEq, Eq, Error)]
pub enum InFault {
    /// It is no text of the type.
    #[error("{0}")]
    Bad(EvalError),
    #[error("out of memory")]
    Memory,
}

impl From<Memory> for InFault {
    ghost use Rattle.xp_io.specs.declared.reading.InFault.TheVariants as fault;

    ghost from_gives = { λ _ e. e ≡ fault.Memory };

    fn from(_: Memory) -> InFault {
        InFault::Memory
    }
}

impl From<EvalError> for InFault {
    ghost use Rattle.xp_io.specs.declared.reading.InFault.TheVariants as fault;

    ghost from_gives = { λ error e. e ≡ fault.Bad error };

    fn from(error: EvalError) -> InFault {
        InFault::Bad(error)
    }
}

/// The bytes as a text, which is UTF-8 and has no zero byte.
#[tactic(auto, using(crate::proofs::Clean::is_clean_text, crate::proofs::Clean::no_utf8, crate::proofs::Clean::zero_byte))]
fn clean(text: &[u8]) -> Result<&str, EvalError>
    ensures { MatchResult result (λ t. (t.now ≡ text.now) × (is_clean text.now ≡ true)) (λ e. (e ≡ EvalError.BadCharacter) × (is_clean text.now ≡ false)) }
{
    let Ok(checked) = str::from_utf8(text) else {
        return Err(EvalError::BadCharacter);
    };
    if text.contains(&0) {
        return Err(EvalError::BadCharacter);
    }
    Ok(checked)
}

/// The bytes that the text is, which are no more than its own.
fn bytes_in(alloc: Global, text: &[u8]) -> Result<Byts, InFault>
    ensures value { MatchResult result (λ bytes. bytes_in text.now ≡ Ok bytes) (λ e. Reads (bytes_value (bytes_in text.now)) (Err e)) }
    ensures short { IfOk result (λ bytes. length bytes ≤ length text.now) }
{
    match read_bytea(alloc, text) {
        Ok(bytes) => Ok(bytes),
        Err(TextFault::Raised(error)) => Err(InFault::Bad(error)),
        Err(TextFault::Memory) => Err(InFault::Memory),
    }
}

/// The value that the text is, by the form of the representation.
fn by_form(alloc: Global, rep: Rep, text: &str) -> Result<Value, InFault>
    ensures value { Reads (by_form (plain rep) text.now) result }
    ensures fits { is_built rep ≡ true → length text.now ≤ VALUE_LIMIT → IfOk result (λ v. is_of (plain rep) v ≡ true) }
    ensures not_null { IfOk result (λ v. is_null v ≡ false) }
{
    let bytes = text.as_bytes();
    match rep {
        Rep::Bool => Ok(Value::Bool(input_bool(bytes)?)),
        Rep::Int2 => Ok(Value::Int(input_integer(16, bytes)?)),
        Rep::Int4 => Ok(Value::Int(input_integer(32, bytes)?)),
        Rep::Int8 => Ok(Value::Int(input_integer(64, bytes)?)),
        Rep::Num => Ok(Value::Num(read_numeric(trimmed(bytes))?)),
        Rep::Day => Ok(Value::Day(read_date(trimmed(bytes))?)),
        Rep::Text => Ok(Value::Text(Txt::from_str(alloc, text)?)),
        Rep::Pad => Ok(Value::Pad(Txt::from_str(alloc, text)?)),
        Rep::Bytes => Ok(Value::Bytes(bytes_in(alloc, bytes)?)),
        _ => Ok(Value::Opaque(Txt::from_str(alloc, text)?)),
    }
}

/// The value that the text is where values are kept so, which is never null.
pub fn read_text(alloc: Global, rep: Rep, text: &[u8]) -> Result<Value, InFault>
    ensures value { Reads (input (plain rep) text.now) result }
    ensures fits { is_built rep ≡ true → IfOk result (λ v. is_of (plain rep) v ≡ true) }
    ensures not_null { IfOk result (λ v. is_null v ≡ false) }
{
    let text = clean(text)?;
    if text.len() > VALUE_LIMIT as usize {
        return Err(InFault::Bad(EvalError::Limit));
    }
    by_form(alloc, rep, text)
}

/// The value of the type that the text is, which is never null.
pub fn read_value(alloc: Global, c: &Catalog, t: TypeNo, text: &[u8]) -> Result<Value, InFault>
    requires { t.0 < length c.now.types }
    ensures value { Reads (input (shape_of c.now t) text.now) result }
    ensures fits { IfOk result (λ v. is_of (shape_of c.now t) v ≡ true) }
    ensures not_null { IfOk result (λ v. is_null v ≡ false) }
{
    read_text(alloc, rep_of(c, t), text)
}
