//! Expressions as they are written, with the places at which what they mean may be refused (manual 4.2).
use crate::types::TypeWords;
use sqlite_items::{Boxed, Items};
use xp_base::{Dec, Name, Span, Txt};

/// Expressions with commas between.
pub type Exprs = Items<Ast>;

#[derive(Clone, Copy, Debug, PartialEq, Eq)]
pub enum TruthTest {
    Null,
    True,
    False,
    Unknown,
}

#[derive(Clone, Copy, Debug, PartialEq, Eq)]
pub enum Selection {
    Coalesce,
    Greatest,
    Least,
}

#[derive(Clone, Copy, Debug, PartialEq, Eq)]
pub enum Side {
    Both,
    Leading,
    Trailing,
}

/// An expression. `at` is the token by which it is reported: its operator, word, name or opening bracket.
#[cycle(ast)]
#[derive(Drop)]
pub enum Ast {
    Number {
        at: Span,
        value: Dec,
        whole: bool,
    },
    /// A number of too many digits.
    Wide {
        at: Span,
    },
    Text {
        at: Span,
        text: Txt,
    },
    Bool {
        at: Span,
        value: bool,
    },
    Null {
        at: Span,
    },
    Column {
        at: Span,
        name: Name,
    },
    /// A type's name before a string.
    Typed {
        target: Boxed<TypeWords>,
        at: Span,
        text: Txt,
    },
    /// An expression in parentheses.
    Paren {
        at: Span,
        inner: Boxed<Ast>,
    },
    Call {
        at: Span,
        name: Name,
        args: Exprs,
        variadic: bool,
    },
    /// By `::` or CAST.
    Cast {
        at: Span,
        inner: Boxed<Ast>,
        target: Boxed<TypeWords>,
    },
    Case {
        at: Span,
        operand: Option<Boxed<Ast>>,
        arms: Items<Arm>,
        otherwise: Option<Boxed<Ast>>,
    },
    Selection {
        at: Span,
        selection: Selection,
        args: Exprs,
    },
    NullIf {
        at: Span,
        left: Boxed<Ast>,
        right: Boxed<Ast>,
    },
    Array {
        at: Span,
        elements: Exprs,
    },
    /// `POSITION(part IN whole)`
    Position {
        at: Span,
        part: Boxed<Ast>,
        whole: Boxed<Ast>,
    },
    /// SUBSTRING with commas.
    Substring {
        at: Span,
        args: Exprs,
    },
    /// SUBSTRING with FROM or FOR.
    SubstringFrom {
        at: Span,
        text: Boxed<Ast>,
        from: Option<Boxed<Ast>>,
        length: Option<Boxed<Ast>>,
    },
    /// `TRIM(side text, set)`
    Trim {
        at: Span,
        side: Option<Side>,
        text: Boxed<Ast>,
        set: Option<Boxed<Ast>>,
    },
    /// `TRIM(side set FROM text)`
    TrimFrom {
        at: Span,
        side: Option<Side>,
        set: Option<Boxed<Ast>>,
        text: Boxed<Ast>,
    },
    Extract {
        at: Span,
        field_at: Span,
        field: Txt,
        source: Boxed<Ast>,
    },
    Subscript {
        at: Span,
        array: Boxed<Ast>,
        index: Boxed<Ast>,
    },
    /// A prefix `+` or `-`.
    Sign {
        at: Span,
        name: Name,
        arg: Boxed<Ast>,
    },
    Power {
        at: Span,
        name: Name,
        left: Boxed<Ast>,
        right: Boxed<Ast>,
    },
    /// `*`, `/` or `%`
    Product {
        at: Span,
        name: Name,
        left: Boxed<Ast>,
        right: Boxed<Ast>,
    },
    /// `+` or `-` between two operands.
    Sum {
        at: Span,
        name: Name,
        left: Boxed<Ast>,
        right: Boxed<Ast>,
    },
    /// Any other operator before its one operand.
    Prefix {
        at: Span,
        name: Name,
        arg: Boxed<Ast>,
    },
    /// Any other operator between two operands.
    Other {
        at: Span,
        name: Name,
        left: Boxed<Ast>,
        right: Boxed<Ast>,
    },
    Between {
        at: Span,
        negated: bool,
        arg: Boxed<Ast>,
        low: Boxed<Ast>,
        high: Boxed<Ast>,
    },
    In {
        at: Span,
        negated: bool,
        arg: Boxed<Ast>,
        list: Exprs,
    },
    Like {
        at: Span,
        negated: bool,
        any_case: bool,
        left: Boxed<Ast>,
        right: Boxed<Ast>,
    },
    Compare {
        at: Span,
        name: Name,
        left: Boxed<Ast>,
        right: Boxed<Ast>,
    },
    /// IS, ISNULL or NOTNULL.
    Is {
        at: Span,
        negated: bool,
        test: TruthTest,
        arg: Boxed<Ast>,
    },
    IsDistinct {
        at: Span,
        negated: bool,
        left: Boxed<Ast>,
        right: Boxed<Ast>,
    },
    Not {
        at: Span,
        arg: Boxed<Ast>,
    },
    And {
        at: Span,
        left: Boxed<Ast>,
        right: Boxed<Ast>,
    },
    Or {
        at: Span,
        left: Boxed<Ast>,
        right: Boxed<Ast>,
    },
}

/// An arm of CASE, with the place of its WHEN.
#[cycle(ast)]
#[derive(Drop)]
pub struct Arm {
    pub at: Span,
    pub when: Ast,
    pub gives: Ast,
}
