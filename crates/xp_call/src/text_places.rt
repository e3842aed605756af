//! Which body of texts and byte strings does what, by its place among them.
ghost use Rattle.std.specs.Prelude.{◌≡◌, ◌<◌};
ghost use Rattle.xp_call.specs.inner.TextPlaces as places;

use crate::bytes::{BytesMaking, BytesOperation};
use crate::made_texts::{Change, Cut, Ends, Exchange, Joining, Padding, TextMaking, TextType};
use crate::operations::{Operation, comparison_word};
use crate::texts::{Matching, Measure, TextOperation};

fn joined_at(place: u32) -> Operation
    ensures { result ≡ places.joined_at place }
{
    match place {
        0 => Operation::MakeText(TextMaking::Join(Joining::Texts)),
        1 => Operation::MakeBytes(BytesMaking::Join),
        2 => Operation::MakeText(TextMaking::Join(Joining::TextAndAny)),
        _ => Operation::MakeText(TextMaking::Join(Joining::AnyAndText)),
    }
}

/// Comparisons, each over three types.
fn compared_at(place: u32) -> Operation
    ensures { result ≡ places.compared_at place }
{
    let word = comparison_word(place / 3);
    match place % 3 {
        0 => Operation::Text(TextOperation::Compare(word)),
        1 => Operation::Text(TextOperation::ComparePadded(word)),
        _ => Operation::Bytes(BytesOperation::Compare(word)),
    }
}

fn matching_word(place: u32) -> Matching
    ensures { result ≡ places.matching_word place }
{
    match place {
        0 => Matching::Like,
        1 => Matching::NotLike,
        2 => Matching::LikeInAnyCase,
        _ => Matching::NotLikeInAnyCase,
    }
}

/// LIKE and ILIKE, each over texts and padded texts.
fn matched_at(place: u32) -> Operation
    ensures { result ≡ places.matched_at place }
{
    let word = matching_word(place / 2);
    match place % 2 {
        0 => Operation::Text(TextOperation::Match(word)),
        _ => Operation::Text(TextOperation::MatchPadded(word)),
    }
}

/// LIKE over byte strings, and casts.
fn cast_at(place: u32) -> Operation
    ensures { result ≡ places.cast_at place }
{
    match place {
        0 => Operation::Bytes(BytesOperation::Like),
        1 => Operation::Bytes(BytesOperation::NotLike),
        2 => Operation::MakeText(TextMaking::OfPadded(TextType::Text)),
        3 => Operation::MakeText(TextMaking::OfBool(TextType::Text)),
        4 => Operation::MakeText(TextMaking::OfPadded(TextType::Varchar)),
        5 => Operation::MakeText(TextMaking::OfBool(TextType::Varchar)),
        _ => Operation::MakeText(TextMaking::PaddedOfBool),
    }
}

fn measure_word(place: u32) -> Measure
    ensures { result ≡ places.measure_word place }
{
    match place {
        0 => Measure::Length,
        _ => Measure::OctetLength,
    }
}

/// Lengths, each over three types.
fn measured_at(place: u32) -> Operation
    ensures { result ≡ places.measured_at place }
{
    let word = measure_word(place / 3);
    match place % 3 {
        0 => Operation::Text(TextOperation::Measure(word)),
        1 => Operation::Text(TextOperation::MeasurePadded(word)),
        _ => Operation::Bytes(BytesOperation::Measure(word)),
    }
}

/// Letters, and parts and places of texts and byte strings.
fn placed_at(place: u32) -> Operation
    ensures { result ≡ places.placed_at place }
{
    match place {
        0 => Operation::MakeText(TextMaking::Change(Change::Upper)),
        1 => Operation::MakeText(TextMaking::Change(Change::Lower)),
        2 => Operation::MakeText(TextMaking::Change(Change::Reverse)),
        3 => Operation::MakeText(TextMaking::Cut(Cut::From)),
        4 => Operation::MakeText(TextMaking::Part),
        5 => Operation::MakeBytes(BytesMaking::From),
        6 => Operation::MakeBytes(BytesMaking::Part),
        7 => Operation::Text(TextOperation::Place),
        _ => Operation::Bytes(BytesOperation::Place),
    }
}

/// Texts of a length.
fn sized_at(place: u32) -> TextMaking
    ensures { result ≡ places.sized_at place }
{
    match place {
        0 => TextMaking::Cut(Cut::Left),
        1 => TextMaking::Cut(Cut::Right),
        2 => TextMaking::Repeat,
        3 => TextMaking::Pad(Padding::Before),
        4 => TextMaking::PadWith(Padding::Before),
        5 => TextMaking::Pad(Padding::Behind),
        _ => TextMaking::PadWith(Padding::Behind),
    }
}

fn ends_word(place: u32) -> Ends
    ensures { result ≡ places.ends_word place }
{
    match place {
        0 => Ends::Left,
        1 => Ends::Right,
        _ => Ends::Both,
    }
}

fn trimmed_at(place: u32) -> TextMaking
    ensures { result ≡ places.trimmed_at place }
{
    let ends = ends_word(place / 2);
    match place % 2 {
        0 => TextMaking::Trim(ends),
        _ => TextMaking::TrimSet(ends),
    }
}

/// Exchanges, fields and code points.
fn rewritten_at(place: u32) -> Operation
    ensures { result ≡ places.rewritten_at place }
{
    match place {
        0 => Operation::MakeText(TextMaking::Exchange(Exchange::Replace)),
        1 => Operation::MakeText(TextMaking::Exchange(Exchange::Translate)),
        2 => Operation::MakeText(TextMaking::Field),
        3 => Operation::Text(TextOperation::StartsWith),
        4 => Operation::Text(TextOperation::FirstCode),
        _ => Operation::MakeText(TextMaking::OfCode),
    }
}

/// Bytes as digits, and single bytes.
fn coded_at(place: u32) -> Operation
    ensures { result ≡ places.coded_at place }
{
    match place {
        0 => Operation::MakeBytes(BytesMaking::Encode),
        1 => Operation::MakeBytes(BytesMaking::Decode),
        2 => Operation::Bytes(BytesOperation::Get),
        _ => Operation::MakeBytes(BytesMaking::Set),
    }
}

/// What joins, compares, matches, converts or measures.
fn whole_at(place: u32) -> Operation
    ensures { result ≡ places.whole_at place }
{
    if place < 4 {
        joined_at(place)
    } else if place < 22 {
        compared_at(place - 4)
    } else if place < 30 {
        matched_at(place - 22)
    } else if place < 37 {
        cast_at(place - 30)
    } else {
        measured_at(place - 37)
    }
}

/// What takes apart or rewrites. Two bodies that take any number of values aren't built.
fn edited_at(place: u32) -> Option<Operation>
    ensures { result ≡ places.edited_at place }
{
    if place < 9 {
        Some(placed_at(place))
    } else if place < 16 {
        Some(Operation::MakeText(sized_at(place - 9)))
    } else if place < 22 {
        Some(Operation::MakeText(trimmed_at(place - 16)))
    } else if place < 28 {
        Some(rewritten_at(place - 22))
    } else if place < 30 {
        None
    } else {
        Some(coded_at(place - 30))
    }
}

/// What the body at this place among those of texts and byte strings does, if it is built.
#[tactic(auto, unfolding(crate::specs::inner::TextPlaces::text_at))]
pub fn text_at(place: u32) -> Option<Operation>
    ensures { result ≡ places.text_at place }
{
    if place < 43 {
        Some(whole_at(place))
    } else {
        edited_at(place - 43)
    }
}
