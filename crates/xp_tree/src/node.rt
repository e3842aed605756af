//! Nodes.
use crate::parts::{Callee, Modifier, NodeType, Way};
use crate::tree::Tree;
use sqlite_items::Items;
use xp_base::{Name, RowNo};
use xp_value::Value;

/// Trees in order.
pub type Trees = Items<Tree>;

/// The arms of CASE, in order.
pub type CaseArms = Items<CaseArm>;

/// An arm of CASE.
#[cycle(tree)]
#[derive(Drop)]
pub struct CaseArm {
    pub condition: Tree,
    pub result: Tree,
}

/// A node over trees. `ty` is the type of its value.
#[cycle(tree)]
#[derive(Drop)]
pub enum Node {
    Constant {
        value: Value,
        ty: NodeType,
    },
    /// A column of the rows, counted from 0.
    Column {
        number: u32,
        name: Name,
        ty: NodeType,
    },
    /// VALUE in a check.
    Given {
        ty: NodeType,
    },
    Call {
        callee: Callee,
        args: Trees,
        ty: NodeType,
    },
    /// The text that stands for the value.
    Output {
        arg: Tree,
        ty: NodeType,
    },
    /// The value that the text stands for.
    Input {
        arg: Tree,
        ty: NodeType,
    },
    /// The value as it stands, under another type.
    Relabel {
        arg: Tree,
        ty: NodeType,
    },
    /// Each element of an array converted.
    Elements {
        arg: Tree,
        way: Way,
        ty: NodeType,
    },
    /// The value brought to a modifier; a longer text is cut where `cut` says so.
    Sizing {
        arg: Tree,
        modifier: Modifier,
        cut: bool,
        ty: NodeType,
    },
    /// The value kept where the domain takes it. VALUE in `check` is the argument's value.
    Domain {
        arg: Tree,
        domain: RowNo,
        not_null: bool,
        check: Option<Tree>,
        ty: NodeType,
    },
    And {
        left: Tree,
        right: Tree,
        ty: NodeType,
    },
    Or {
        left: Tree,
        right: Tree,
        ty: NodeType,
    },
    Not {
        arg: Tree,
        ty: NodeType,
    },
    IsNull {
        arg: Tree,
        ty: NodeType,
    },
    IsTrue {
        arg: Tree,
        ty: NodeType,
    },
    IsFalse {
        arg: Tree,
        ty: NodeType,
    },
    IsUnknown {
        arg: Tree,
        ty: NodeType,
    },
    Case {
        arms: CaseArms,
        otherwise: Tree,
        ty: NodeType,
    },
    Coalesce {
        args: Trees,
        ty: NodeType,
    },
    Greatest {
        args: Trees,
        ty: NodeType,
    },
    Least {
        args: Trees,
        ty: NodeType,
    },
    Array {
        args: Trees,
        ty: NodeType,
    },
    NullIf {
        callee: Callee,
        left: Tree,
        right: Tree,
        ty: NodeType,
    },
    Distinct {
        callee: Callee,
        left: Tree,
        right: Tree,
        ty: NodeType,
    },
    Subscript {
        array: Tree,
        index: Tree,
        ty: NodeType,
    },
}
