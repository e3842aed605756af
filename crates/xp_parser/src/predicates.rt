//! NOT, tests, comparisons and ranges (manual 9.1, 9.2, 9.7.1 and 9.24.1).
ghost use Rattle.std.specs.Prelude.{◌≡◌, ◌≤◌, length, IfOk};
ghost use Rattle.xp_grammar.specs.inner.Machine.{parse};
ghost use Rattle.xp_grammar.specs.Table.{Level, Tree, at};
ghost use Rattle.xp_parser.specs.inner.Nests.{Nests};
ghost use Rattle.xp_parser.specs.inner.Parts as part;
ghost use Rattle.xp_parser.specs.inner.Reading.{Reads};

use crate::cursor::Cursor;
use crate::grammar::{Grammar, Nested};
use crate::held;
use crate::parse_error::ParseError;
use sqlite_items::Boxed;
use std::alloc::{AllocError, Global};
use xp_grammar::{Ast, Class, Kind, TruthTest};
use xp_token::{Mark, Token, Word};

impl<F: Fn(Global, Nested, &mut Cursor<'_>) -> Result<Boxed<Ast>, ParseError>> Grammar<F> {
    #[tactic(auto, using(crate::proofs::TestLaws::not_is), unfolding(crate::specs::inner::Parts::not_part))]
    pub(crate) fn not(&self, tokens: &mut Cursor<'_>) -> Result<Boxed<Ast>, ParseError>
        requires nests { Nests self.now.room (F.pre self.now.nested) (F.post self.now.nested) }
        requires fewer { length tokens.old ≤ self.now.room }
        ensures { Reads Tree (parse Level.E2 tokens.old) result tokens.new }
    {
        match tokens.eat(Class::Only(Kind::Word(Word::Not))) {
            Some(word) => {
                let arg = self.within(Nested::Negation, tokens)?;
                let at = word.span;
                Ok(Boxed::new(self.alloc, Ast::Not { at, arg })?)
            }
            None => self.test(tokens),
        }
    }

    #[tactic(auto, using(xp_grammar::proofs::Turns::parse_less, crate::proofs::TestLaws::test_is), unfolding(crate::specs::inner::Parts::test_part, crate::specs::inner::Parts::test_then))]
    fn test(&self, tokens: &mut Cursor<'_>) -> Result<Boxed<Ast>, ParseError>
        requires nests { Nests self.now.room (F.pre self.now.nested) (F.post self.now.nested) }
        requires fewer { length tokens.old ≤ self.now.room }
        ensures { Reads Tree (parse Level.E3 tokens.old) result tokens.new }
    {
        let arg = self.compared(tokens)?;
        if let Some(word) = tokens.eat(Class::Only(Kind::Word(Word::Is))) {
            return self.is(tokens, arg, word);
        }
        if let Some(word) = tokens.eat(Class::Only(Kind::Word(Word::Isnull))) {
            return Ok(self.null_test(arg, word, false)?);
        }
        if let Some(word) = tokens.eat(Class::Only(Kind::Word(Word::Notnull))) {
            return Ok(self.null_test(arg, word, true)?);
        }
        Ok(arg)
    }

    fn null_test(
        &self,
        arg: Boxed<Ast>,
        word: &Token,
        negated: bool,
    ) -> Result<Boxed<Ast>, AllocError>
        ensures { IfOk result (λ e. e ≡ Ast.Is (at word.now) negated TruthTest.Null arg) }
    {
        Boxed::new(
            self.alloc,
            Ast::Is {
                at: word.span,
                negated,
                test: TruthTest::Null,
                arg,
            },
        )
    }

    /// Behind the word IS.
    #[tactic(auto, unfolding(crate::specs::inner::Parts::is_then))]
    fn is(
        &self,
        tokens: &mut Cursor<'_>,
        arg: Boxed<Ast>,
        word: &Token,
    ) -> Result<Boxed<Ast>, ParseError>
        requires nests { Nests self.now.room (F.pre self.now.nested) (F.post self.now.nested) }
        requires fewer { length tokens.old ≤ self.now.room }
        ensures { Reads Tree (part.is_then (Tree arg) word.now tokens.old) result tokens.new }
    {
        match tokens.eat(Class::Only(Kind::Word(Word::Not))) {
            Some(_) => self.is_end(tokens, arg, word, true),
            None => self.is_end(tokens, arg, word, false),
        }
    }

    /// Behind IS or IS NOT.
    #[tactic(auto, unfolding(crate::specs::inner::Parts::is_end))]
    fn is_end(
        &self,
        tokens: &mut Cursor<'_>,
        arg: Boxed<Ast>,
        word: &Token,
        negated: bool,
    ) -> Result<Boxed<Ast>, ParseError>
        requires nests { Nests self.now.room (F.pre self.now.nested) (F.post self.now.nested) }
        requires fewer { length tokens.old ≤ self.now.room }
        ensures { Reads Tree (part.is_end negated (Tree arg) word.now tokens.old) result tokens.new }
    {
        let at = word.span;
        if let Some(word) = tokens.eat(Class::TruthTests) {
            let test = held::test(word);
            return Ok(Boxed::new(
                self.alloc,
                Ast::Is {
                    at,
                    negated,
                    test,
                    arg,
                },
            )?);
        }
        tokens.expect(Class::Only(Kind::Word(Word::Distinct)))?;
        tokens.expect(Class::Only(Kind::Word(Word::From)))?;
        let right = self.compared(tokens)?;
        Ok(Boxed::new(
            self.alloc,
            Ast::IsDistinct {
                at,
                negated,
                left: arg,
                right,
            },
        )?)
    }

    /// One comparison at most.
    #[tactic(auto, using(xp_grammar::proofs::Turns::parse_less, crate::proofs::TestLaws::compared_is), unfolding(crate::specs::inner::Parts::compared_part))]
    fn compared(&self, tokens: &mut Cursor<'_>) -> Result<Boxed<Ast>, ParseError>
        requires nests { Nests self.now.room (F.pre self.now.nested) (F.post self.now.nested) }
        requires fewer { length tokens.old ≤ self.now.room }
        ensures { Reads Tree (parse Level.E4 tokens.old) result tokens.new }
    {
        let left = self.range(tokens)?;
        match tokens.eat(Class::Only(Kind::Compare)) {
            Some(operator) => {
                let right = self.range(tokens)?;
                let name = held::name(self.alloc, operator)?;
                let at = operator.span;
                Ok(Boxed::new(
                    self.alloc,
                    Ast::Compare {
                        at,
                        name,
                        left,
                        right,
                    },
                )?)
            }
            None => Ok(left),
        }
    }

    /// One BETWEEN, IN, LIKE or ILIKE at most.
    #[tactic(auto, using(xp_grammar::proofs::Turns::parse_less, crate::proofs::TestLaws::range_is), unfolding(crate::specs::inner::Parts::range_part, crate::specs::inner::Parts::range_then))]
    fn range(&self, tokens: &mut Cursor<'_>) -> Result<Boxed<Ast>, ParseError>
        requires nests { Nests self.now.room (F.pre self.now.nested) (F.post self.now.nested) }
        requires fewer { length tokens.old ≤ self.now.room }
        ensures { Reads Tree (parse Level.E5 tokens.old) result tokens.new }
    {
        let left = self.other(tokens)?;
        if let Some(_) = tokens.eat(Class::Only(Kind::Word(Word::Not))) {
            return self.not_range(tokens, left);
        }
        if let Some(word) = tokens.eat(Class::Only(Kind::Word(Word::Between))) {
            return self.between(tokens, left, word, false);
        }
        if let Some(word) = tokens.eat(Class::Only(Kind::Word(Word::In))) {
            return self.in_list(tokens, left, word, false);
        }
        if let Some(word) = tokens.eat(Class::Likes) {
            return self.like(tokens, left, word, false);
        }
        Ok(left)
    }

    /// Behind the word NOT that stands behind an operand.
    #[tactic(auto, unfolding(crate::specs::inner::Parts::not_range_then))]
    fn not_range(&self, tokens: &mut Cursor<'_>, left: Boxed<Ast>) -> Result<Boxed<Ast>, ParseError>
        requires nests { Nests self.now.room (F.pre self.now.nested) (F.post self.now.nested) }
        requires fewer { length tokens.old ≤ self.now.room }
        ensures { Reads Tree (part.not_range_then (Tree left) tokens.old) result tokens.new }
    {
        if let Some(word) = tokens.eat(Class::Only(Kind::Word(Word::Between))) {
            return self.between(tokens, left, word, true);
        }
        if let Some(word) = tokens.eat(Class::Only(Kind::Word(Word::In))) {
            return self.in_list(tokens, left, word, true);
        }
        let word = tokens.expect(Class::Likes)?;
        self.like(tokens, left, word, true)
    }

    /// Behind the word BETWEEN.
    #[tactic(auto, using(xp_grammar::proofs::Turns::parse_less), unfolding(crate::specs::inner::Parts::between_then))]
    fn between(
        &self,
        tokens: &mut Cursor<'_>,
        arg: Boxed<Ast>,
        word: &Token,
        negated: bool,
    ) -> Result<Boxed<Ast>, ParseError>
        requires nests { Nests self.now.room (F.pre self.now.nested) (F.post self.now.nested) }
        requires fewer { length tokens.old ≤ self.now.room }
        ensures { Reads Tree (part.between_then negated (Tree arg) word.now tokens.old) result tokens.new }
    {
        let low = self.other(tokens)?;
        tokens.expect(Class::Only(Kind::Word(Word::And)))?;
        let high = self.other(tokens)?;
        let at = word.span;
        Ok(Boxed::new(
            self.alloc,
            Ast::Between {
                at,
                negated,
                arg,
                low,
                high,
            },
        )?)
    }

    /// Behind the word IN.
    #[tactic(auto, using(xp_grammar::proofs::Turns::parse_less), unfolding(crate::specs::inner::Parts::in_then))]
    fn in_list(
        &self,
        tokens: &mut Cursor<'_>,
        arg: Boxed<Ast>,
        word: &Token,
        negated: bool,
    ) -> Result<Boxed<Ast>, ParseError>
        requires nests { Nests self.now.room (F.pre self.now.nested) (F.post self.now.nested) }
        requires fewer { length tokens.old ≤ self.now.room }
        ensures { Reads Tree (part.in_then negated (Tree arg) word.now tokens.old) result tokens.new }
    {
        tokens.expect(Class::Only(Kind::Mark(Mark::OpenParen)))?;
        let list = self.list(tokens)?;
        tokens.expect(Class::Only(Kind::Mark(Mark::CloseParen)))?;
        let at = word.span;
        Ok(Boxed::new(
            self.alloc,
            Ast::In {
                at,
                negated,
                arg,
                list,
            },
        )?)
    }

    /// Behind the word LIKE or ILIKE.
    #[tactic(auto, using(xp_grammar::proofs::Turns::parse_less), unfolding(crate::specs::inner::Parts::like_then))]
    fn like(
        &self,
        tokens: &mut Cursor<'_>,
        left: Boxed<Ast>,
        word: &Token,
        negated: bool,
    ) -> Result<Boxed<Ast>, ParseError>
        requires nests { Nests self.now.room (F.pre self.now.nested) (F.post self.now.nested) }
        requires fewer { length tokens.old ≤ self.now.room }
        ensures { Reads Tree (part.like_then negated (Tree left) word.now tokens.old) result tokens.new }
    {
        let right = self.other(tokens)?;
        let at = word.span;
        let any_case = held::any_case(word);
        Ok(Boxed::new(
            self.alloc,
            Ast::Like {
                at,
                negated,
                any_case,
                left,
                right,
            },
        )?)
    }
}
