//! Values, their order and copies.
//!
//! A value is written `null`, `bool true`, `int N`, `num N SCALE` (N in units of the last
//! decimal), `text 'T'`, `pad 'T'`, `bytes N ..`, `day N`, `array N ..` (an element may be
//! `null`), `range empty`, `range LOWER UPPER` (`-` where it is infinite) or `opaque 'T'`.
use anyhow::{Result, bail, ensure};
use sqlite_items::Items;
use std::alloc::Global;
use std::cmp::Ordering;
use xp_base::{Byts, DIGIT_LIMIT, Dec, Txt};
use xp_value::{Range, RangeKind, Value, order, same};

fn quoted(alloc: Global, text: &str) -> Result<Txt> {
    match text.strip_prefix('\'') {
        Some(rest) => match rest.strip_suffix('\'') {
            Some(inner) => Ok(Txt::from_str(alloc, inner)?),
            None => bail!("a quote is wanted at the end"),
        },
        None => bail!("a quote is wanted"),
    }
}

fn number(text: &str) -> Result<Value> {
    let Some((units, scale)) = text.split_once(' ') else {
        bail!("a scale is wanted");
    };
    let units: i64 = units.parse()?;
    let scale: u8 = scale.parse()?;
    ensure!(scale <= DIGIT_LIMIT, "the scale is too great");
    let coef = units.unsigned_abs() as u128;
    let neg = units < 0;
    Ok(Value::Num(Dec { neg, coef, scale }))
}

fn bytes(alloc: Global, text: &str) -> Result<Value> {
    let mut bytes = Byts::new(alloc);
    for word in text.split(' ') {
        let byte: u8 = word.parse()?;
        bytes.append(&[byte])?;
    }
    Ok(Value::Bytes(bytes))
}

fn element(word: &str) -> Result<Value> {
    if word == "null" {
        return Ok(Value::Null);
    }
    Ok(Value::Int(word.parse()?))
}

fn array(alloc: Global, text: &str) -> Result<Value> {
    let mut values = Items::new(alloc);
    for word in text.split(' ') {
        if !word.is_empty() {
            values.push(element(word)?)?;
        }
    }
    Ok(Value::Arr(values))
}

fn bound(word: &str) -> Result<Option<i64>> {
    if word == "-" {
        return Ok(None);
    }
    Ok(Some(word.parse()?))
}

fn range(text: &str) -> Result<Value> {
    let kind = RangeKind::Int4;
    match text.split_once(' ') {
        Some((lower, upper)) => {
            let (lower, upper) = (bound(lower)?, bound(upper)?);
            Ok(Value::Rng(Range::Bounds { lower, upper, kind }))
        }
        None => Ok(Value::Rng(Range::Empty { kind })),
    }
}

fn value(alloc: Global, text: &str) -> Result<Value> {
    let (word, rest) = text.split_once(' ').unwrap_or((text, ""));
    match word {
        "null" => Ok(Value::Null),
        "bool" => Ok(Value::Bool(rest.parse()?)),
        "int" => Ok(Value::Int(rest.parse()?)),
        "num" => number(rest),
        "text" => Ok(Value::Text(quoted(alloc, rest)?)),
        "pad" => Ok(Value::Pad(quoted(alloc, rest)?)),
        "bytes" => bytes(alloc, rest),
        "day" => Ok(Value::Day(rest.parse()?)),
        "array" => array(alloc, rest),
        "range" => range(rest),
        "opaque" => Ok(Value::Opaque(quoted(alloc, rest)?)),
        _ => bail!("no such kind of value"),
    }
}

/// The values of a case, with ` | ` between.
pub fn values(alloc: Global, text: &str) -> Result<Items<Value>> {
    let mut values = Items::new(alloc);
    for part in text.split(" | ") {
        values.push(value(alloc, part)?)?;
    }
    Ok(values)
}

fn ordering_word(ordering: Ordering) -> &'static str {
    match ordering {
        Ordering::Less => "before",
        Ordering::Equal => "equal",
        Ordering::Greater => "after",
    }
}

/// How two values are ordered, the other way round too, and whether they are the same.
pub fn order_text(alloc: Global, text: &str) -> Result<String> {
    let values = values(alloc, text)?;
    let [a, b] = values.as_slice() else {
        bail!("two values are wanted");
    };
    let (there, back) = (ordering_word(order(a, b)), ordering_word(order(b, a)));
    let sort = if same(a, b) {
        "the same"
    } else {
        "not the same"
    };
    Ok(format!(in alloc; "{there}, the other way {back}, {sort}")?)
}

/// Whether each of two places holds values in the order of the places.
fn is_in_place(values: &[Value], at: usize) -> bool {
    let Some(a) = values.get(at) else {
        return false;
    };
    for (place, b) in values.iter().enumerate() {
        if order(a, b) != at.cmp(&place) {
            return false;
        }
    }
    true
}

/// Whether the values ascend strictly, each compared with each.
pub fn ascending_text(alloc: Global, text: &str) -> Result<String> {
    let values = values(alloc, text)?;
    for at in 0..values.len() {
        if !is_in_place(values.as_slice(), at) {
            return Ok(format!(in alloc; "no, at value {at}")?);
        }
    }
    Ok(String::from_str(alloc, "yes")?)
}

/// Whether a copy of an array of the values is the same.
pub fn copy_text(alloc: Global, text: &str) -> Result<String> {
    let all = Value::Arr(values(alloc, text)?);
    let copied = all.copy(alloc)?;
    let answer = if same(&copied, &all) {
        "the same"
    } else {
        "another"
    };
    Ok(String::from_str(alloc, answer)?)
}
