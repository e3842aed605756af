//! What reads by the grammar. The function for an expression within another is a parameter, so that
//! each rule is proved by itself.
ghost use Rattle.std.specs.Prelude.{◌≤◌, ◌<◌, length, IfOk};
ghost use Rattle.xp_grammar.specs.inner.Machine.{parse};
ghost use Rattle.xp_grammar.specs.Table.{Level, Tree};
ghost use Rattle.xp_parser.specs.inner.Nests.{Nests};
ghost use Rattle.xp_parser.specs.inner.Parts as part;
ghost use Rattle.xp_parser.specs.inner.Reading.{Reads};

use crate::cursor::Cursor;
use crate::parse_error::ParseError;
use sqlite_items::Boxed;
use std::alloc::Global;
use xp_grammar::Ast;

/// Which expression stands within another.
#[derive(Clone, Copy, Debug)]
pub(crate) enum Nested {
    Expression,
    /// An operand of OR.
    Conjunction,
    /// An operand of AND.
    Negation,
    /// One that binds more tightly than comparisons.
    Operation,
    /// An operand of an operator without a level of its own.
    Prefixed,
    /// An operand of `+` and `-`.
    Product,
    /// An operand of `*`, `/` and `%`.
    Power,
    /// An operand of `^`.
    Signed,
}

#[derive(Clone, Copy)]
pub(crate) struct Grammar<F> {
    pub(crate) alloc: Global,
    /// How many tokens there are.
    pub(crate) room: usize,
    pub(crate) nested: F,
}

impl<F: Fn(Global, Nested, &mut Cursor<'_>) -> Result<Boxed<Ast>, ParseError>> Grammar<F> {
    #[tactic(auto, using(xp_grammar::proofs::Turns::parse_takes))]
    pub(crate) fn expr(&self, tokens: &mut Cursor<'_>) -> Result<Boxed<Ast>, ParseError>
        requires nests { Nests self.now.room (F.pre self.now.nested) (F.post self.now.nested) }
        requires fewer { length tokens.old < self.now.room }
        ensures value { Reads Tree (parse Level.E0 tokens.old) result tokens.new }
        ensures fewer { IfOk result (λ _. length tokens.new < length tokens.old) }
    {
        (self.nested)(self.alloc, Nested::Expression, tokens)
    }

    #[tactic(auto, using(xp_grammar::proofs::Turns::parse_takes))]
    pub(crate) fn operation(&self, tokens: &mut Cursor<'_>) -> Result<Boxed<Ast>, ParseError>
        requires nests { Nests self.now.room (F.pre self.now.nested) (F.post self.now.nested) }
        requires fewer { length tokens.old < self.now.room }
        ensures value { Reads Tree (parse Level.E6 tokens.old) result tokens.new }
        ensures fewer { IfOk result (λ _. length tokens.new < length tokens.old) }
    {
        (self.nested)(self.alloc, Nested::Operation, tokens)
    }

    /// An expression of any kind that stands within another.
    #[tactic(auto, using(crate::proofs::ChainLaws::nested_less))]
    pub(crate) fn within(
        &self,
        which: Nested,
        tokens: &mut Cursor<'_>,
    ) -> Result<Boxed<Ast>, ParseError>
        requires nests { Nests self.now.room (F.pre self.now.nested) (F.post self.now.nested) }
        requires fewer { length tokens.old < self.now.room }
        ensures value { Reads Tree (part.nested which tokens.old) result tokens.new }
        ensures fewer { IfOk result (λ _. length tokens.new ≤ length tokens.old) }
    {
        (self.nested)(self.alloc, which, tokens)
    }
}
