//! Analyses statements over a catalogue: the trees of their expressions with their types and the
//! overloads that are chosen, or the first refusal with its byte (manual 4.2 and 10); and the checks
//! of the catalogue's domains, before any statement. It stands on what an expression means and on how
//! the columns of VALUES and of UNION ALL come to one type. It reads no script and evaluates nothing.
#![tactic(auto)]

mod begins;
mod checks;
mod domains;
mod fault;
mod gather;
mod joined;
mod lists;
mod ready;
mod settle;
mod statement;
mod store;
mod texts;
mod typed;
mod untyped;

pub use checks::prepare;
pub use fault::CheckFault;
pub use statement::analyse;
pub use typed::{TypeNos, Typed, TypedArm, TypedArms};
pub use xp_resolve::{Refusal, Use, Uses};
