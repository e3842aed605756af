//! The lists of expressions of a statement, as they stand in it.
ghost use Rattle.std.specs.Prelude.{◌≡◌, ◌<◌, get_or, length};
ghost use Rattle.xp_analyse.specs.Lists.{lists_of};
ghost use Rattle.xp_analyse.specs.inner.Views.{list_in, lists_in};

use xp_grammar::{Ast, Exprs, Item, SelectArm, Statement};

/// Expressions from left to right.
#[derive(Clone, Copy)]
pub enum ExpressionList<'a> {
    /// Each with its label.
    Items(&'a [Item]),
    Plain(&'a [Ast]),
}

impl<'a> ExpressionList<'a> {
    pub fn len(self) -> usize
        ensures { result ≡ length (list_in self.entry) }
    {
        match self {
            ExpressionList::Items(items) => items.len(),
            ExpressionList::Plain(expressions) => expressions.len(),
        }
    }

    /// The expression at that place.
    pub fn at(self, place: usize) -> &'a Ast
        requires { place < length (list_in self) }
        ensures { result.now ≡ get_or (list_in self.entry) place result.now }
    {
        match self {
            ExpressionList::Items(items) => &items[place].expr,
            ExpressionList::Plain(expressions) => &expressions[place],
        }
    }
}

/// The lists of a statement in their order.
#[derive(Clone, Copy)]
pub enum ExpressionLists<'a> {
    One(ExpressionList<'a>),
    Arms(&'a [SelectArm]),
    Lists(&'a [Exprs]),
}

impl<'a> ExpressionLists<'a> {
    /// Those of the statement.
    pub fn of(s: &'a Statement) -> ExpressionLists<'a>
        ensures { lists_in result ≡ lists_of s.now }
    {
        match s {
            Statement::Select { items, .. } => {
                ExpressionLists::One(ExpressionList::Items(items.as_slice()))
            }
            Statement::UnionAll { arms, .. } => ExpressionLists::Arms(arms.as_slice()),
            Statement::Values { lists, .. } => ExpressionLists::Lists(lists.as_slice()),
            Statement::Describe { exprs, .. } => {
                ExpressionLists::One(ExpressionList::Plain(exprs.as_slice()))
            }
            Statement::Store { .. }
            | Statement::Explain { .. }
            | Statement::ExplainAnalyze { .. } => ExpressionLists::Lists(&[]),
        }
    }

    pub fn len(self) -> usize
        ensures { result ≡ length (lists_in self.entry) }
    {
        match self {
            ExpressionLists::One(_) => 1,
            ExpressionLists::Arms(arms) => arms.len(),
            ExpressionLists::Lists(lists) => lists.len(),
        }
    }

    /// The list at that place.
    pub fn at(self, place: usize) -> ExpressionList<'a>
        requires { place < length (lists_in self) }
        ensures { list_in result ≡ get_or (lists_in self.entry) place (list_in result) }
    {
        match self {
            ExpressionLists::One(list) => list,
            ExpressionLists::Arms(arms) => ExpressionList::Items(arms[place].items.as_slice()),
            ExpressionLists::Lists(lists) => ExpressionList::Plain(lists[place].as_slice()),
        }
    }
}
