//! LIKE and ILIKE over texts, padded texts and bytes (manual 9.7.1). It stands on the characters of
//! xp_characters, takes no memory, and never looks at a text more often than its pattern has parts.
#![tactic(auto)]

mod bodies;
mod matching;
mod parts;
mod units;

pub use bodies::{
    ilike_bpchar, ilike_text, like_bpchar, like_bytea, like_text, nilike_bpchar, nilike_text,
    nlike_bpchar, nlike_bytea, nlike_text,
};
