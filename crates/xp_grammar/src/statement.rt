//! Statements as they are written.
use crate::ast::{Ast, Exprs};
use crate::types::TypeWords;
use xp_base::{Name, Span};

/// An expression of SELECT, with its label.
#[derive(Drop)]
pub struct Item {
    pub expr: Ast,
    pub label: Option<Name>,
}

/// The expressions of one SELECT.
pub type Items = sqlite_items::Items<Item>;

/// One SELECT, with the place of the UNION before it, the first with that of its SELECT.
#[derive(Drop)]
pub struct SelectArm {
    pub at: Span,
    pub items: Items,
}

/// The SELECTs between which UNION ALL stands.
pub type ItemLists = sqlite_items::Items<SelectArm>;

/// The lists of VALUES.
pub type ExprLists = sqlite_items::Items<Exprs>;

/// A statement, with the place of its first token.
#[derive(Drop)]
pub enum Statement {
    Select {
        at: Span,
        items: Items,
    },
    UnionAll {
        at: Span,
        arms: ItemLists,
    },
    Values {
        at: Span,
        lists: ExprLists,
    },
    Store {
        at: Span,
        target: TypeWords,
        source: Ast,
    },
    Describe {
        at: Span,
        exprs: Exprs,
    },
    Explain {
        at: Span,
        expr: Ast,
    },
    ExplainAnalyze {
        at: Span,
        expr: Ast,
    },
}
