//! Operators that group from the left (manual 4.1.6).
ghost use Rattle.std.specs.Prelude.{◌≡◌, ◌≤◌, [], ◌∷◌, length, IfOk};
ghost use Rattle.xp_grammar.specs.inner.Machine.{parse};
ghost use Rattle.xp_grammar.specs.inner.Machine as machine;
ghost use Rattle.xp_grammar.specs.Table as table;
ghost use Rattle.xp_grammar.specs.Table.{Level, Tree};
ghost use Rattle.xp_parser.specs.inner.Nests.{Nests};
ghost use Rattle.xp_parser.specs.inner.Parts as part;
ghost use Rattle.xp_parser.specs.inner.Reading.{Reads};

use crate::cursor::Cursor;
use crate::grammar::{Grammar, Nested};
use crate::held;
use crate::parse_error::ParseError;
use sqlite_items::Boxed;
use std::alloc::Global;
use xp_base::Memory;
use xp_grammar::{Ast, Class, Kind};
use xp_token::{Token, Word};

/// The operators of one level.
#[derive(Clone, Copy, Debug)]
pub(crate) enum Chain {
    Or,
    And,
    /// Those without a level of their own.
    Other,
    /// `+` and `-`
    Sum,
    /// `*`, `/` and `%`
    Product,
    /// `^`
    Power,
}

impl Chain {
    fn operator(self) -> Kind
        ensures { result ≡ part.chain_operator self }
    {
        match self {
            Chain::Or => Kind::Word(Word::Or),
            Chain::And => Kind::Word(Word::And),
            Chain::Other => Kind::Other,
            Chain::Sum => Kind::Sign,
            Chain::Product => Kind::Times,
            Chain::Power => Kind::Power,
        }
    }

    /// Which expression stands on either side.
    fn operand(self) -> Nested
        ensures { result ≡ part.chain_operand self }
    {
        match self {
            Chain::Or => Nested::Conjunction,
            Chain::And => Nested::Negation,
            Chain::Other => Nested::Prefixed,
            Chain::Sum => Nested::Product,
            Chain::Product => Nested::Power,
            Chain::Power => Nested::Signed,
        }
    }
}

/// Two operands with an operator of the level between.
fn joined(
    alloc: Global,
    chain: Chain,
    operator: &Token,
    left: Boxed<Ast>,
    right: Boxed<Ast>,
) -> Result<Boxed<Ast>, Memory>
    ensures { IfOk result (λ e. part.chain_join chain (Tree left) (table.Word operator.now ∷ Tree right ∷ []) ≡ Tree e) }
{
    let at = operator.span;
    let ast = match chain {
        Chain::Or => Ast::Or { at, left, right },
        Chain::And => Ast::And { at, left, right },
        Chain::Other => Ast::Other {
            at,
            name: held::name(alloc, operator)?,
            left,
            right,
        },
        Chain::Sum => Ast::Sum {
            at,
            name: held::name(alloc, operator)?,
            left,
            right,
        },
        Chain::Product => Ast::Product {
            at,
            name: held::name(alloc, operator)?,
            left,
            right,
        },
        Chain::Power => Ast::Power {
            at,
            name: held::name(alloc, operator)?,
            left,
            right,
        },
    };
    Ok(Boxed::new(alloc, ast)?)
}

impl<F: Fn(Global, Nested, &mut Cursor<'_>) -> Result<Boxed<Ast>, ParseError>> Grammar<F> {
    /// The operators of a level and their operands, behind the first operand.
    #[tactic(auto, using(crate::proofs::ChainLaws::more_chain), unfolding(crate::specs::inner::Parts::chain_part))]
    fn more(
        &self,
        chain: Chain,
        tokens: &mut Cursor<'_>,
        first: Boxed<Ast>,
    ) -> Result<Boxed<Ast>, ParseError>
        requires nests { Nests self.now.room (F.pre self.now.nested) (F.post self.now.nested) }
        requires fewer { length tokens.old ≤ self.now.room }
        ensures { Reads Tree (machine.more (part.chain_level chain) (Tree first) tokens.old) result tokens.new }
    {
        let mut left = first;
        'operands: while let Some(operator) = tokens.eat(Class::Only(chain.operator())) {
            let right = self.within(chain.operand(), tokens)?;
            left = joined(self.alloc, chain, operator, left, right)?;
        }
        Ok(left)
    }

    /// Operands of OR.
    #[tactic(auto, using(xp_grammar::proofs::Turns::parse_less, crate::proofs::ChainLaws::or_is))]
    pub(crate) fn or(&self, tokens: &mut Cursor<'_>) -> Result<Boxed<Ast>, ParseError>
        requires nests { Nests self.now.room (F.pre self.now.nested) (F.post self.now.nested) }
        requires fewer { length tokens.old ≤ self.now.room }
        ensures { Reads Tree (parse Level.E0 tokens.old) result tokens.new }
    {
        let first = self.and(tokens)?;
        self.more(Chain::Or, tokens, first)
    }

    /// Operands of AND.
    #[tactic(auto, using(xp_grammar::proofs::Turns::parse_less, crate::proofs::ChainLaws::and_is))]
    pub(crate) fn and(&self, tokens: &mut Cursor<'_>) -> Result<Boxed<Ast>, ParseError>
        requires nests { Nests self.now.room (F.pre self.now.nested) (F.post self.now.nested) }
        requires fewer { length tokens.old ≤ self.now.room }
        ensures { Reads Tree (parse Level.E1 tokens.old) result tokens.new }
    {
        let first = self.not(tokens)?;
        self.more(Chain::And, tokens, first)
    }

    /// An operand of any other operator, which may begin with such operators itself.
    #[tactic(auto, using(xp_grammar::proofs::Turns::parse_less, crate::proofs::ChainLaws::right_is), unfolding(crate::specs::inner::Parts::prefix_then))]
    pub(crate) fn prefixed(&self, tokens: &mut Cursor<'_>) -> Result<Boxed<Ast>, ParseError>
        requires nests { Nests self.now.room (F.pre self.now.nested) (F.post self.now.nested) }
        requires fewer { length tokens.old ≤ self.now.room }
        ensures { Reads Tree (part.right_part tokens.old) result tokens.new }
    {
        match tokens.eat(Class::Only(Kind::Other)) {
            Some(operator) => {
                let arg = self.within(Nested::Prefixed, tokens)?;
                let name = held::name(self.alloc, operator)?;
                let at = operator.span;
                Ok(Boxed::new(self.alloc, Ast::Prefix { at, name, arg })?)
            }
            None => self.sum(tokens),
        }
    }

    /// Operands of any other operator.
    #[tactic(auto, using(crate::proofs::ChainLaws::right_less, crate::proofs::ChainLaws::other_is))]
    pub(crate) fn other(&self, tokens: &mut Cursor<'_>) -> Result<Boxed<Ast>, ParseError>
        requires nests { Nests self.now.room (F.pre self.now.nested) (F.post self.now.nested) }
        requires fewer { length tokens.old ≤ self.now.room }
        ensures { Reads Tree (parse Level.E6 tokens.old) result tokens.new }
    {
        let first = self.prefixed(tokens)?;
        self.more(Chain::Other, tokens, first)
    }

    /// Operands of `+` and `-`.
    #[tactic(auto, using(xp_grammar::proofs::Turns::parse_less, crate::proofs::ChainLaws::sum_is))]
    fn sum(&self, tokens: &mut Cursor<'_>) -> Result<Boxed<Ast>, ParseError>
        requires nests { Nests self.now.room (F.pre self.now.nested) (F.post self.now.nested) }
        requires fewer { length tokens.old ≤ self.now.room }
        ensures { Reads Tree (parse Level.E7 tokens.old) result tokens.new }
    {
        let first = self.product(tokens)?;
        self.more(Chain::Sum, tokens, first)
    }

    /// Operands of `*`, `/` and `%`.
    #[tactic(auto, using(xp_grammar::proofs::Turns::parse_less, crate::proofs::ChainLaws::product_is))]
    pub(crate) fn product(&self, tokens: &mut Cursor<'_>) -> Result<Boxed<Ast>, ParseError>
        requires nests { Nests self.now.room (F.pre self.now.nested) (F.post self.now.nested) }
        requires fewer { length tokens.old ≤ self.now.room }
        ensures { Reads Tree (parse Level.E8 tokens.old) result tokens.new }
    {
        let first = self.power(tokens)?;
        self.more(Chain::Product, tokens, first)
    }

    /// Operands of `^`.
    #[tactic(auto, using(xp_grammar::proofs::Turns::parse_less, crate::proofs::ChainLaws::power_is))]
    pub(crate) fn power(&self, tokens: &mut Cursor<'_>) -> Result<Boxed<Ast>, ParseError>
        requires nests { Nests self.now.room (F.pre self.now.nested) (F.post self.now.nested) }
        requires fewer { length tokens.old ≤ self.now.room }
        ensures { Reads Tree (parse Level.E9 tokens.old) result tokens.new }
    {
        let first = self.signed(tokens)?;
        self.more(Chain::Power, tokens, first)
    }
}
