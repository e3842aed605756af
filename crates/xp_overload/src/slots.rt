//! What stands at one position: the type of an input, or the type that a candidate declares.
use sqlite_items::Items;
use xp_base::TypeNo;

/// A type with its category (manual 53.64), and whether it is preferred there. An
/// unknown input has category X.
#[derive(Clone, Copy, Debug, PartialEq, Eq)]
pub struct InSlot {
    pub ty: TypeNo,
    pub category: u8,
    pub preferred: bool,
}

/// The slots that a candidate declares, one per input.
pub type CandSlots = Items<InSlot>;

/// The category of what is unknown.
pub const UNKNOWN_CATEGORY: u8 = b'X';

/// The category of strings.
pub const STRING_CATEGORY: u8 = b'S';
