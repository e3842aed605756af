//! What a statement is made: trees, their types, and the overloads that are chosen.
use sqlite_items::Items;
use xp_base::TypeNo;
use xp_resolve::Uses;
use xp_tree::Trees;

/// The types of the columns that a statement gives, from left to right.
pub type TypeNos = Items<TypeNo>;

/// The trees of one SELECT.
#[derive(Drop)]
pub struct TypedArm {
    pub trees: Trees,
    /// Whether each row is gone through; else the trees are evaluated once.
    pub over_rows: bool,
}

/// The SELECTs of a statement, in their order.
pub type TypedArms = Items<TypedArm>;

/// A statement whose names and types are settled.
#[derive(Drop)]
pub struct Typed {
    pub types: TypeNos,
    pub arms: TypedArms,
    /// The overloads in the order in which they are chosen.
    pub uses: Uses,
}
