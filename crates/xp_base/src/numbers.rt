//! The numbers by which types, rows and bodies are named, and places in a script.

/// The number of a type in its catalogue. 0 is the type `unknown`.
#[derive(Clone, Copy, Debug, PartialEq, Eq, PartialOrd, Ord)]
pub struct TypeNo(pub u32);

/// The number of a row in its list of a catalogue, from 0 in file order.
#[derive(Clone, Copy, Debug, PartialEq, Eq, PartialOrd, Ord)]
pub struct RowNo(pub u32);

/// The number of a body in the table of bodies, from 0.
#[derive(Clone, Copy, Debug, PartialEq, Eq, PartialOrd, Ord)]
pub struct BodyNo(pub u32);

/// The bytes of a script from `start` up to `end`, counted from 0.
#[derive(Clone, Copy, Debug, PartialEq, Eq)]
pub struct Span {
    pub start: u32,
    pub end: u32,
}
