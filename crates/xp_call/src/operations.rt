//! What the bodies do, and which body does what (manual 9.1 to 9.5, 9.7, 9.9).
ghost use Rattle.std.specs.Prelude.{◌≡◌, ◌<◌};
ghost use Rattle.xp_call.specs.Integers.{wider};
ghost use Rattle.xp_call.specs.Operations.{operation_at};
ghost use Rattle.xp_call.specs.inner.Comparisons.{comparison_word as comparison_of};
ghost use Rattle.xp_call.specs.inner.Places as places;

use crate::bytes::{BytesMaking, BytesOperation};
use crate::dates::{DateOperation, date_at};
use crate::made_texts::TextMaking;
use crate::numerics::{NumericOperation, numeric_at};
use crate::text_places::text_at;
use crate::texts::TextOperation;
use xp_base::BodyNo;

/// An integer type.
#[derive(Clone, Copy, Debug, PartialEq, Eq)]
pub enum IntType {
    Int2,
    Int4,
    Int8,
}

impl IntType {
    /// The type that has all numbers of both.
    pub fn wider(self, other: IntType) -> IntType
        ensures { result ≡ wider self other }
    {
        match (self, other) {
            (IntType::Int8, _) | (_, IntType::Int8) => IntType::Int8,
            (IntType::Int4, _) | (_, IntType::Int4) => IntType::Int4,
            (IntType::Int2, IntType::Int2) => IntType::Int2,
        }
    }
}

/// What gives an integer of two integers.
#[derive(Clone, Copy, Debug, PartialEq, Eq)]
pub enum Binary {
    Add,
    Subtract,
    Multiply,
    Divide,
    Modulo,
    And,
    Or,
    Xor,
}

/// What gives an integer of one integer.
#[derive(Clone, Copy, Debug, PartialEq, Eq)]
pub enum Unary {
    Not,
    Negate,
    Plus,
    Absolute,
}

/// Where the bits of an integer are moved.
#[derive(Clone, Copy, Debug, PartialEq, Eq)]
pub enum Shift {
    Left,
    Right,
}

/// How two values are compared.
#[derive(Clone, Copy, Debug, PartialEq, Eq)]
pub enum Comparison {
    Equal,
    NotEqual,
    Less,
    AtMost,
    Greater,
    AtLeast,
}

/// What a body does, and the types of its arguments.
#[derive(Clone, Copy, Debug, PartialEq, Eq)]
pub enum Operation {
    /// Both are taken in the wider type.
    Binary(Binary, IntType, IntType),
    Unary(Unary, IntType),
    /// By an int4.
    Shift(Shift, IntType),
    Compare(Comparison, IntType, IntType),
    CompareBools(Comparison),
    Cast { from: IntType, to: IntType },
    /// Whether an int4 isn't 0.
    BoolOfInt4,
    /// 1 for true, and 0 for false.
    Int4OfBool,
    HexOfInt4,
    HexOfInt8,
    Numeric(NumericOperation),
    Text(TextOperation),
    MakeText(TextMaking),
    Bytes(BytesOperation),
    MakeBytes(BytesMaking),
    Date(DateOperation),
}

/// The integer type at a place among the three.
pub fn int_type_at(place: u32) -> IntType
    ensures { result ≡ places.int_type_at place }
{
    match place {
        0 => IntType::Int2,
        1 => IntType::Int4,
        _ => IntType::Int8,
    }
}

/// The word of the first family at a place among its words.
fn arithmetic_word(place: u32) -> Binary
    ensures { result ≡ places.arithmetic_word place }
{
    match place {
        0 => Binary::Add,
        1 => Binary::Subtract,
        2 => Binary::Multiply,
        _ => Binary::Divide,
    }
}

/// The comparison at a place among the six.
pub fn comparison_word(place: u32) -> Comparison
    ensures { result ≡ comparison_of place }
{
    match place {
        0 => Comparison::Equal,
        1 => Comparison::NotEqual,
        2 => Comparison::Less,
        3 => Comparison::AtMost,
        4 => Comparison::Greater,
        _ => Comparison::AtLeast,
    }
}

/// Sums, differences, products and quotients: a word has nine bodies, one for each pair of types.
fn arithmetic_at(place: u32) -> Operation
    ensures { result ≡ places.arithmetic_at place }
{
    let (a, b) = (int_type_at(place / 3 % 3), int_type_at(place % 3));
    Operation::Binary(arithmetic_word(place / 9), a, b)
}

/// Comparisons of integers, which have nine bodies a word too.
fn comparison_at(place: u32) -> Operation
    ensures { result ≡ places.comparison_at place }
{
    let (a, b) = (int_type_at(place / 3 % 3), int_type_at(place % 3));
    Operation::Compare(comparison_word(place / 9), a, b)
}

/// What gives an integer of the type that it takes: a type has ten bodies.
fn within_type_at(place: u32) -> Operation
    ensures { result ≡ places.within_type_at place }
{
    let a = int_type_at(place / 10);
    match place % 10 {
        0 => Operation::Binary(Binary::Modulo, a, a),
        1 => Operation::Binary(Binary::And, a, a),
        2 => Operation::Binary(Binary::Or, a, a),
        3 => Operation::Binary(Binary::Xor, a, a),
        4 => Operation::Unary(Unary::Not, a),
        5 => Operation::Unary(Unary::Negate, a),
        6 => Operation::Unary(Unary::Plus, a),
        7 => Operation::Unary(Unary::Absolute, a),
        8 => Operation::Shift(Shift::Left, a),
        _ => Operation::Shift(Shift::Right, a),
    }
}

fn cast(from: IntType, to: IntType) -> Operation
    ensures { result ≡ Operation.Cast from to }
{
    Operation::Cast { from, to }
}

/// Casts, texts of digits, and comparisons of booleans.
fn other_at(place: u32) -> Operation
    ensures { result ≡ places.other_at place }
{
    match place {
        0 => cast(IntType::Int4, IntType::Int2),
        1 => cast(IntType::Int8, IntType::Int2),
        2 => cast(IntType::Int2, IntType::Int4),
        3 => cast(IntType::Int8, IntType::Int4),
        4 => Operation::Int4OfBool,
        5 => cast(IntType::Int2, IntType::Int8),
        6 => cast(IntType::Int4, IntType::Int8),
        7 => Operation::BoolOfInt4,
        8 => Operation::HexOfInt4,
        9 => Operation::HexOfInt8,
        other => Operation::CompareBools(comparison_word(other - 10)),
    }
}

/// Numerics, texts and byte strings, dates.
fn later_at(place: u32) -> Option<Operation>
    ensures { result ≡ places.later_at place }
{
    if place < 30 {
        Some(Operation::Numeric(numeric_at(place)))
    } else if place < 107 {
        text_at(place - 30)
    } else if place < 119 {
        Some(Operation::Date(date_at(place - 107)))
    } else {
        None
    }
}

/// What the body at this place of the table does. A place says it without the names there.
#[tactic(auto, unfolding(crate::specs::inner::Places::operation_by_place))]
fn operation_by_place(place: u32) -> Option<Operation>
    ensures { result ≡ places.operation_by_place place }
{
    if place < 36 {
        Some(arithmetic_at(place))
    } else if place < 90 {
        Some(comparison_at(place - 36))
    } else if place < 120 {
        Some(within_type_at(place - 90))
    } else if place < 136 {
        Some(other_at(place - 120))
    } else {
        later_at(place - 136)
    }
}

/// What the body does, if it is built.
#[tactic(auto, using(crate::proofs::Places::by_place))]
pub fn operation_at(body: BodyNo) -> Option<Operation>
    ensures { result ≡ operation_at body }
{
    operation_by_place(body.0)
}
