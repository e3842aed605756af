//! What texts the bodies make (manual 9.4).
ghost use Rattle.std.specs.Prelude.{◌≡◌, [], ◌∷◌, ◌++◌, IfOk};
ghost use Rattle.std.specs.Str.{chars, encode_utf8_all};
ghost use Rattle.xp_base.specs.OrMemory.{OrMemory};
ghost use Rattle.xp_characters.specs.Characters.{over};
ghost use Rattle.xp_characters.specs.Faults.{is_memory, limited};
ghost use Rattle.xp_text.specs.Made.{times, truth as truth_of};
ghost use Rattle.xp_value.specs.Order.{unpadded};
ghost use Rattle.xp_call.specs.Calls.{Calls};
ghost use Rattle.xp_call.specs.MadeTexts.{changed, cut as cut_of, exchanged, of_made_texts, padded, trimmed};

use crate::answers::text_value;
use crate::arguments::{int4, pad, text, truth};
use crate::fault::CallFault;
use std::alloc::Global;
use xp_base::{EvalError, Memory, Txt};
use xp_characters::TextFault;
use xp_text::{
    anytext, bpchar_bool, btrim, btrim_set, cat_text, chr, left, lower, lpad, lpad_fill, ltrim,
    ltrim_set, repeat, replace, reverse, right, rpad, rpad_fill, rtrim, rtrim_set, split_part,
    substr_text, substr_text_count, text_bool, text_bpchar, textany, translate, upper,
    varchar_bool, varchar_bpchar,
};
use xp_value::Value;

/// Which two texts are joined; one of them may be what another value was cast to.
#[derive(Clone, Copy, Debug, PartialEq, Eq)]
pub enum Joining {
    Texts,
    TextAndAny,
    AnyAndText,
}

/// A type of texts.
#[derive(Clone, Copy, Debug, PartialEq, Eq)]
pub enum TextType {
    Text,
    Varchar,
}

/// How all characters of a text are changed.
#[derive(Clone, Copy, Debug, PartialEq, Eq)]
pub enum Change {
    Upper,
    Lower,
    Reverse,
}

/// What of a text a number leaves.
#[derive(Clone, Copy, Debug, PartialEq, Eq)]
pub enum Cut {
    /// From that place on.
    From,
    Left,
    Right,
}

/// Where a text is filled up.
#[derive(Clone, Copy, Debug, PartialEq, Eq)]
pub enum Padding {
    Before,
    Behind,
}

/// The ends of a text that characters are taken off.
#[derive(Clone, Copy, Debug, PartialEq, Eq)]
pub enum Ends {
    Left,
    Right,
    Both,
}

/// What takes the place of parts of a text.
#[derive(Clone, Copy, Debug, PartialEq, Eq)]
pub enum Exchange {
    /// A text that of another.
    Replace,
    /// Characters that of others.
    Translate,
}

/// Which text a body makes. Numbers are int4.
#[derive(Clone, Copy, Debug, PartialEq, Eq)]
pub enum TextMaking {
    Join(Joining),
    /// Of a padded text.
    OfPadded(TextType),
    OfBool(TextType),
    /// A padded text of a truth value.
    PaddedOfBool,
    Change(Change),
    Cut(Cut),
    /// So many characters from a place on.
    Part,
    Repeat,
    /// With spaces.
    Pad(Padding),
    /// With a text.
    PadWith(Padding),
    /// Of spaces.
    Trim(Ends),
    /// Of the characters of a text.
    TrimSet(Ends),
    Exchange(Exchange),
    /// One of the fields between delimiters.
    Field,
    /// The character with a code point.
    OfCode,
}

// ---- what they give

fn joined(alloc: Global, word: Joining, a: &str, b: &str) -> Result<Txt, TextFault>
    ensures { OrMemory is_memory (limited (a.now ++ b.now)) result }
{
    match word {
        Joining::Texts => cat_text(alloc, a, b),
        Joining::TextAndAny => textany(alloc, a, b),
        Joining::AnyAndText => anytext(alloc, a, b),
    }
}

fn of_padded(alloc: Global, to: TextType, a: &str) -> Result<Txt, Memory>
    ensures { IfOk result (λ text. text ≡ unpadded a.now) }
{
    match to {
        TextType::Text => text_bpchar(alloc, a),
        TextType::Varchar => varchar_bpchar(alloc, a),
    }
}

fn of_bool(alloc: Global, to: TextType, a: bool) -> Result<Txt, Memory>
    ensures { IfOk result (λ text. text ≡ truth_of a) }
{
    match to {
        TextType::Text => text_bool(alloc, a),
        TextType::Varchar => varchar_bool(alloc, a),
    }
}

fn changed_text(alloc: Global, word: Change, a: &str) -> Result<Txt, Memory>
    ensures { IfOk result (λ text. text ≡ changed word a.now) }
{
    match word {
        Change::Upper => upper(alloc, a),
        Change::Lower => lower(alloc, a),
        Change::Reverse => reverse(alloc, a),
    }
}

fn cut_text(alloc: Global, word: Cut, a: &str, n: i32) -> Result<Txt, Memory>
    ensures { IfOk result (λ text. text ≡ over (λ cs. cut_of word cs n) a.now) }
{
    match word {
        Cut::From => substr_text(alloc, a, n),
        Cut::Left => left(alloc, a, n),
        Cut::Right => right(alloc, a, n),
    }
}

fn pad_to(alloc: Global, word: Padding, a: &str, n: i32) -> Result<Txt, TextFault>
    ensures { OrMemory is_memory (limited (encode_utf8_all (padded word (chars a.now) (times n) (32 ∷ [])))) result }
{
    match word {
        Padding::Before => lpad(alloc, a, n),
        Padding::Behind => rpad(alloc, a, n),
    }
}

fn pad_with(alloc: Global, word: Padding, a: &str, n: i32, fill: &str) -> Result<Txt, TextFault>
    ensures { OrMemory is_memory (limited (encode_utf8_all (padded word (chars a.now) (times n) (chars fill.now)))) result }
{
    match word {
        Padding::Before => lpad_fill(alloc, a, n, fill),
        Padding::Behind => rpad_fill(alloc, a, n, fill),
    }
}

fn trimmed_text(alloc: Global, ends: Ends, a: &str) -> Result<Txt, Memory>
    ensures { IfOk result (λ text. text ≡ over (trimmed ends (32 ∷ [])) a.now) }
{
    match ends {
        Ends::Left => ltrim(alloc, a),
        Ends::Right => rtrim(alloc, a),
        Ends::Both => btrim(alloc, a),
    }
}

fn trimmed_of_set(alloc: Global, ends: Ends, a: &str, set: &str) -> Result<Txt, Memory>
    ensures { IfOk result (λ text. text ≡ over (trimmed ends (chars set.now)) a.now) }
{
    match ends {
        Ends::Left => ltrim_set(alloc, a, set),
        Ends::Right => rtrim_set(alloc, a, set),
        Ends::Both => btrim_set(alloc, a, set),
    }
}

fn exchange_parts(
    alloc: Global,
    word: Exchange,
    a: &str,
    old: &str,
    new: &str,
) -> Result<Txt, TextFault>
    ensures { OrMemory is_memory (limited (encode_utf8_all (exchanged word (chars a.now) (chars old.now) (chars new.now)))) result }
{
    match word {
        Exchange::Replace => replace(alloc, a, old, new),
        Exchange::Translate => translate(alloc, a, old, new),
    }
}

// ---- calls

#[tactic(auto, using(crate::proofs::Answered::as_text))]
fn call_join(alloc: Global, word: Joining, args: &[Value]) -> Result<Value, CallFault>
    ensures { Calls (of_made_texts (TextMaking.Join word) args.now) result }
{
    let [first, second] = args else {
        return Err(CallFault::Raised(EvalError::Limit));
    };
    match (text(first), text(second)) {
        (Some(a), Some(b)) => text_value(joined(alloc, word, a, b)),
        _ => Err(CallFault::Raised(EvalError::Limit)),
    }
}

fn call_of_padded(alloc: Global, to: TextType, args: &[Value]) -> Result<Value, CallFault>
    ensures { Calls (of_made_texts (TextMaking.OfPadded to) args.now) result }
{
    let [only] = args else {
        return Err(CallFault::Raised(EvalError::Limit));
    };
    match pad(only) {
        Some(a) => Ok(Value::Text(of_padded(alloc, to, a)?)),
        None => Err(CallFault::Raised(EvalError::Limit)),
    }
}

fn call_of_bool(alloc: Global, to: TextType, args: &[Value]) -> Result<Value, CallFault>
    ensures { Calls (of_made_texts (TextMaking.OfBool to) args.now) result }
{
    let [only] = args else {
        return Err(CallFault::Raised(EvalError::Limit));
    };
    match truth(only) {
        Some(a) => Ok(Value::Text(of_bool(alloc, to, a)?)),
        None => Err(CallFault::Raised(EvalError::Limit)),
    }
}

fn call_padded_of_bool(alloc: Global, args: &[Value]) -> Result<Value, CallFault>
    ensures { Calls (of_made_texts TextMaking.PaddedOfBool args.now) result }
{
    let [only] = args else {
        return Err(CallFault::Raised(EvalError::Limit));
    };
    match truth(only) {
        Some(a) => Ok(Value::Pad(bpchar_bool(alloc, a)?)),
        None => Err(CallFault::Raised(EvalError::Limit)),
    }
}

fn call_change(alloc: Global, word: Change, args: &[Value]) -> Result<Value, CallFault>
    ensures { Calls (of_made_texts (TextMaking.Change word) args.now) result }
{
    let [only] = args else {
        return Err(CallFault::Raised(EvalError::Limit));
    };
    match text(only) {
        Some(a) => Ok(Value::Text(changed_text(alloc, word, a)?)),
        None => Err(CallFault::Raised(EvalError::Limit)),
    }
}

fn call_cut(alloc: Global, word: Cut, args: &[Value]) -> Result<Value, CallFault>
    ensures { Calls (of_made_texts (TextMaking.Cut word) args.now) result }
{
    let [first, second] = args else {
        return Err(CallFault::Raised(EvalError::Limit));
    };
    match (text(first), int4(second)) {
        (Some(a), Some(n)) => Ok(Value::Text(cut_text(alloc, word, a, n)?)),
        _ => Err(CallFault::Raised(EvalError::Limit)),
    }
}

#[tactic(auto, using(crate::proofs::Answered::as_text))]
fn call_part(alloc: Global, args: &[Value]) -> Result<Value, CallFault>
    ensures { Calls (of_made_texts TextMaking.Part args.now) result }
{
    let [first, second, third] = args else {
        return Err(CallFault::Raised(EvalError::Limit));
    };
    match (text(first), int4(second), int4(third)) {
        (Some(a), Some(n), Some(count)) => text_value(substr_text_count(alloc, a, n, count)),
        _ => Err(CallFault::Raised(EvalError::Limit)),
    }
}

#[tactic(auto, using(crate::proofs::Answered::as_text))]
fn call_repeat(alloc: Global, args: &[Value]) -> Result<Value, CallFault>
    ensures { Calls (of_made_texts TextMaking.Repeat args.now) result }
{
    let [first, second] = args else {
        return Err(CallFault::Raised(EvalError::Limit));
    };
    match (text(first), int4(second)) {
        (Some(a), Some(n)) => text_value(repeat(alloc, a, n)),
        _ => Err(CallFault::Raised(EvalError::Limit)),
    }
}

#[tactic(auto, using(crate::proofs::Answered::as_text))]
fn call_pad(alloc: Global, word: Padding, args: &[Value]) -> Result<Value, CallFault>
    ensures { Calls (of_made_texts (TextMaking.Pad word) args.now) result }
{
    let [first, second] = args else {
        return Err(CallFault::Raised(EvalError::Limit));
    };
    match (text(first), int4(second)) {
        (Some(a), Some(n)) => text_value(pad_to(alloc, word, a, n)),
        _ => Err(CallFault::Raised(EvalError::Limit)),
    }
}

#[tactic(auto, using(crate::proofs::Answered::as_text))]
fn call_pad_with(alloc: Global, word: Padding, args: &[Value]) -> Result<Value, CallFault>
    ensures { Calls (of_made_texts (TextMaking.PadWith word) args.now) result }
{
    let [first, second, third] = args else {
        return Err(CallFault::Raised(EvalError::Limit));
    };
    match (text(first), int4(second), text(third)) {
        (Some(a), Some(n), Some(fill)) => text_value(pad_with(alloc, word, a, n, fill)),
        _ => Err(CallFault::Raised(EvalError::Limit)),
    }
}

fn call_trim(alloc: Global, ends: Ends, args: &[Value]) -> Result<Value, CallFault>
    ensures { Calls (of_made_texts (TextMaking.Trim ends) args.now) result }
{
    let [only] = args else {
        return Err(CallFault::Raised(EvalError::Limit));
    };
    match text(only) {
        Some(a) => Ok(Value::Text(trimmed_text(alloc, ends, a)?)),
        None => Err(CallFault::Raised(EvalError::Limit)),
    }
}

fn call_trim_set(alloc: Global, ends: Ends, args: &[Value]) -> Result<Value, CallFault>
    ensures { Calls (of_made_texts (TextMaking.TrimSet ends) args.now) result }
{
    let [first, second] = args else {
        return Err(CallFault::Raised(EvalError::Limit));
    };
    match (text(first), text(second)) {
        (Some(a), Some(set)) => Ok(Value::Text(trimmed_of_set(alloc, ends, a, set)?)),
        _ => Err(CallFault::Raised(EvalError::Limit)),
    }
}

#[tactic(auto, using(crate::proofs::Answered::as_text))]
fn call_exchange(alloc: Global, word: Exchange, args: &[Value]) -> Result<Value, CallFault>
    ensures { Calls (of_made_texts (TextMaking.Exchange word) args.now) result }
{
    let [first, second, third] = args else {
        return Err(CallFault::Raised(EvalError::Limit));
    };
    match (text(first), text(second), text(third)) {
        (Some(a), Some(old), Some(new)) => text_value(exchange_parts(alloc, word, a, old, new)),
        _ => Err(CallFault::Raised(EvalError::Limit)),
    }
}

#[tactic(auto, using(crate::proofs::Answered::as_text))]
fn call_field(alloc: Global, args: &[Value]) -> Result<Value, CallFault>
    ensures { Calls (of_made_texts TextMaking.Field args.now) result }
{
    let [first, second, third] = args else {
        return Err(CallFault::Raised(EvalError::Limit));
    };
    match (text(first), text(second), int4(third)) {
        (Some(a), Some(delimiter), Some(n)) => text_value(split_part(alloc, a, delimiter, n)),
        _ => Err(CallFault::Raised(EvalError::Limit)),
    }
}

#[tactic(auto, using(crate::proofs::Answered::as_text))]
fn call_of_code(alloc: Global, args: &[Value]) -> Result<Value, CallFault>
    ensures { Calls (of_made_texts TextMaking.OfCode args.now) result }
{
    let [only] = args else {
        return Err(CallFault::Raised(EvalError::Limit));
    };
    match int4(only) {
        Some(n) => text_value(chr(alloc, n)),
        None => Err(CallFault::Raised(EvalError::Limit)),
    }
}

/// The text that the body makes of these values.
pub fn make_text(alloc: Global, making: TextMaking, args: &[Value]) -> Result<Value, CallFault>
    ensures { Calls (of_made_texts making args.now) result }
{
    match making {
        TextMaking::Join(word) => call_join(alloc, word, args),
        TextMaking::OfPadded(to) => call_of_padded(alloc, to, args),
        TextMaking::OfBool(to) => call_of_bool(alloc, to, args),
        TextMaking::PaddedOfBool => call_padded_of_bool(alloc, args),
        TextMaking::Change(word) => call_change(alloc, word, args),
        TextMaking::Cut(word) => call_cut(alloc, word, args),
        TextMaking::Part => call_part(alloc, args),
        TextMaking::Repeat => call_repeat(alloc, args),
        TextMaking::Pad(word) => call_pad(alloc, word, args),
        TextMaking::PadWith(word) => call_pad_with(alloc, word, args),
        TextMaking::Trim(ends) => call_trim(alloc, ends, args),
        TextMaking::TrimSet(ends) => call_trim_set(alloc, ends, args),
        TextMaking::Exchange(word) => call_exchange(alloc, word, args),
        TextMaking::Field => call_field(alloc, args),
        TextMaking::OfCode => call_of_code(alloc, args),
    }
}
