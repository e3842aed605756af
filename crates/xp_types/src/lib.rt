//! What a type is, the path from one type to another, and the type that several come to. It stands
//! on the catalogue's rows and look-ups, and never asks for memory.
#![tactic(auto)]

mod common_type;
mod laws;
mod paths;
mod readers;

pub use common_type::{CommonType, common};
pub use laws::{elements_are_no_arrays, literal_and_same, other_casts_change_nothing};
pub use paths::{PathKind, converts, path};
pub use readers::{
    UNKNOWN, array_of, base, category, element, is_array, is_known, preferred, pseudo_type, subtype,
};
