//! Overloads that are used.
use sqlite_items::Items;
use xp_base::{RowNo, TypeNo};

/// An overload that is chosen, with the type of its result in that call.
#[derive(Clone, Copy, Debug, PartialEq, Eq)]
pub enum Use {
    Function { row: RowNo, result: TypeNo },
    Operator { row: RowNo, result: TypeNo },
    /// A call that stands for a cast.
    Cast { target: TypeNo },
}

/// Overloads in the order in which they are chosen.
pub type Uses = Items<Use>;
