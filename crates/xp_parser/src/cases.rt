//! CASE (manual 9.18.1).
ghost use Rattle.std.specs.Prelude.{◌≤◌, ◌<◌, length};
ghost use Rattle.xp_grammar.specs.inner.Machine.{parse};
ghost use Rattle.xp_grammar.specs.Table.{Level, Tree, Cases, at, case_of};
ghost use Rattle.xp_parser.specs.inner.Nests.{Nests};
ghost use Rattle.xp_parser.specs.inner.Parts as part;
ghost use Rattle.xp_parser.specs.inner.Reading.{Reads};

use crate::cursor::Cursor;
use crate::grammar::{Grammar, Nested};
use crate::parse_error::ParseError;
use sqlite_items::{Boxed, Items};
use std::alloc::Global;
use xp_grammar::{Arm, Ast, Class, Kind};
use xp_token::{Token, Word};

impl<F: Fn(Global, Nested, &mut Cursor<'_>) -> Result<Boxed<Ast>, ParseError>> Grammar<F> {
    /// Behind the word CASE.
    #[tactic(auto, using(xp_grammar::proofs::Turns::parse_less, crate::proofs::PrimaryLaws::starts_arms), unfolding(crate::specs::inner::Parts::case_then))]
    pub(crate) fn cases(
        &self,
        tokens: &mut Cursor<'_>,
        word: &Token,
    ) -> Result<Boxed<Ast>, ParseError>
        requires nests { Nests self.now.room (F.pre self.now.nested) (F.post self.now.nested) }
        requires fewer { length tokens.old < self.now.room }
        ensures { Reads Tree (part.case_then word.now tokens.old) result tokens.new }
    {
        if tokens.sees(Kind::Word(Word::When)) {
            let arms = self.arms(tokens)?;
            return self.case_end(tokens, word, None, arms);
        }
        let operand = self.expr(tokens)?;
        let arms = self.arms(tokens)?;
        self.case_end(tokens, word, Some(operand), arms)
    }

    /// One WHEN with its THEN or more.
    #[tactic(auto, using(crate::proofs::PrimaryLaws::arms_is, crate::proofs::PrimaryLaws::more_arms), unfolding(crate::specs::inner::Parts::arm_then, crate::specs::inner::Parts::more_arms_part))]
    fn arms(&self, tokens: &mut Cursor<'_>) -> Result<Items<Arm>, ParseError>
        requires nests { Nests self.now.room (F.pre self.now.nested) (F.post self.now.nested) }
        requires fewer { length tokens.old ≤ self.now.room }
        ensures { Reads Cases (parse Level.Arms tokens.old) result tokens.new }
    {
        let mut arms = Items::new(self.alloc);
        let mut word = tokens.expect(Class::Only(Kind::Word(Word::When)))?;
        'arms: loop {
            let when = self.expr(tokens)?;
            tokens.expect(Class::Only(Kind::Word(Word::Then)))?;
            let gives = self.expr(tokens)?;
            arms.push(Arm {
                at: word.span,
                when: when.into_inner(),
                gives: gives.into_inner(),
            })?;
            match tokens.eat(Class::Only(Kind::Word(Word::When))) {
                Some(next) => word = next,
                None => return Ok(arms),
            }
        }
    }

    /// Behind the last THEN and what it gives.
    #[tactic(auto, unfolding(crate::specs::inner::Parts::end_then))]
    fn case_end(
        &self,
        tokens: &mut Cursor<'_>,
        word: &Token,
        operand: Option<Boxed<Ast>>,
        arms: Items<Arm>,
    ) -> Result<Boxed<Ast>, ParseError>
        requires nests { Nests self.now.room (F.pre self.now.nested) (F.post self.now.nested) }
        requires fewer { length tokens.old < self.now.room }
        ensures { Reads Tree (part.end_then (case_of (at word.now) operand) (Cases arms) tokens.old) result tokens.new }
    {
        let at = word.span;
        let otherwise = match tokens.eat(Class::Only(Kind::Word(Word::Else))) {
            Some(_) => Some(self.expr(tokens)?),
            None => None,
        };
        tokens.expect(Class::Only(Kind::Word(Word::End)))?;
        Ok(Boxed::new(
            self.alloc,
            Ast::Case {
                at,
                operand,
                arms,
                otherwise,
            },
        )?)
    }
}
