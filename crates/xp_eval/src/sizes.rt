//! Texts brought to a length in characters (manual 8.3), and numerics to a precision and a scale.
ghost use Rattle.std.specs.Prelude.{◌≡◌, ◌++◌, IfOk, length, replicate, true};
ghost use Rattle.std.specs.Str.{chars};
ghost use Rattle.xp_base.specs.FromLeft.{and_then};
ghost use Rattle.xp_call.specs.Calls.{Calls};
ghost use Rattle.xp_meaning.specs.Evaluable.{is_sizing_built};
ghost use Rattle.xp_meaning.specs.Nodes.{limited, sized, unless_null};
ghost use Rattle.xp_tree.specs.declared.parts.Modifier.TheVariants as modifier;
ghost use Rattle.xp_eval.specs.Real.{real};
ghost use Rattle.xp_eval.specs.Sizes.{ends_blank, front, padded, shortened, sized_to};

use crate::decimals::of_digits;
use crate::texts::limited_text;
use std::alloc::Global;
use xp_base::{EvalError, Memory, Txt, VALUE_LIMIT};
use xp_call::CallFault;
use xp_tree::{Modifier, NodeType};
use xp_value::{Rep, Value};

/// How many characters the text has.
fn char_count(text: &str) -> usize
    ensures { result ≡ length (chars text.now) }
{
    text.chars().count()
}

/// The first characters of the text.
fn front(alloc: Global, text: &str, n: usize) -> Result<Txt, Memory>
    ensures { IfOk result (λ t. t ≡ front n text.now) }
{
    let front: String = text.chars().take(n).collect(alloc)?;
    Ok(Txt::from_string(front))
}

/// Whether spaces alone stand behind the first characters.
fn ends_blank(text: &str, n: usize) -> bool
    ensures { result ≡ ends_blank n text.now }
{
    text.chars().skip(n).all(|c| c == ' ')
}

/// The text, which a longer one is cut to where `cut` says so or spaces alone would go.
fn shortened(alloc: Global, text: Txt, n: usize, cut: bool) -> Result<Txt, CallFault>
    ensures { Calls (shortened n cut text) result }
{
    if char_count(text.as_str()) <= n {
        return Ok(text);
    }
    if cut || ends_blank(text.as_str(), n) {
        return Ok(front(alloc, text.as_str(), n)?);
    }
    Err(CallFault::Raised(EvalError::TooLong))
}

/// The text with so many spaces behind it.
fn with_spaces(alloc: Global, text: &str, spaces: usize) -> Result<Txt, Memory>
    ensures { IfOk result (λ t. t ≡ text.now ++ replicate spaces 32) }
{
    let mut padded = String::from_str(alloc, text)?;
    for _space in 0..spaces {
        padded.push_str(" ")?;
    }
    Ok(Txt::from_string(padded))
}

/// The text with spaces at its end up to so many characters.
fn padded(alloc: Global, text: Txt, n: usize) -> Result<Value, CallFault>
    ensures { Calls (limited (Value.Pad (padded n text))) result }
{
    let spaces = n.saturating_sub(char_count(text.as_str()));
    let bytes = text.as_str().len();
    if bytes > VALUE_LIMIT as usize || spaces > VALUE_LIMIT as usize - bytes {
        return Err(CallFault::Raised(EvalError::Limit));
    }
    if spaces == 0 {
        return Ok(Value::Pad(text));
    }
    Ok(Value::Pad(with_spaces(alloc, text.as_str(), spaces)?))
}

/// A text of at most, or where it is padded of exactly, so many characters; null stays null.
fn of_length(alloc: Global, n: u32, cut: bool, value: Value) -> Result<Value, CallFault>
    ensures { Calls (unless_null (λ v. and_then (sized_to (modifier.Length n) cut v) limited) value) result }
{
    match value {
        Value::Null => Ok(Value::Null),
        Value::Text(text) => {
            let text = shortened(alloc, text, n as usize, cut)?;
            limited_text(Rep::Text, text).map_err(CallFault::Raised)
        }
        Value::Pad(text) => {
            let text = shortened(alloc, text, n as usize, cut)?;
            padded(alloc, text, n as usize)
        }
        _ => Err(CallFault::Raised(EvalError::Limit)),
    }
}

/// A text or a numeric of the type, brought to the modifier; null stays null.
#[tactic(auto, using(crate::proofs::Lengths::of_text, crate::proofs::Lengths::of_numeric))]
pub fn sized(
    alloc: Global,
    modifier: Modifier,
    cut: bool,
    ty: NodeType,
    value: Value,
) -> Result<Value, CallFault>
    requires { is_sizing_built modifier ty.rep ≡ true }
    ensures { Calls (unless_null (sized real modifier cut ty) value) result }
{
    match modifier {
        Modifier::Length(n) => of_length(alloc, n, cut, value),
        Modifier::Digits { p, s } => of_digits(p, s, cut, value),
        Modifier::None => unreachable!(),
    }
}
