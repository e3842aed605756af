//! Expressions with commas between, and the arguments of calls (manual 4.2.6 and 4.3).
ghost use Rattle.std.specs.Prelude.{◌<◌, length, IfOk};
ghost use Rattle.xp_grammar.specs.inner.Machine.{parse};
ghost use Rattle.xp_grammar.specs.Table.{Level, Trees};
ghost use Rattle.xp_parser.specs.inner.Nests.{Nests};
ghost use Rattle.xp_parser.specs.inner.Parts as part;
ghost use Rattle.xp_parser.specs.inner.Reading.{Reads};

use crate::cursor::Cursor;
use crate::grammar::{Grammar, Nested};
use crate::parse_error::ParseError;
use sqlite_items::{Boxed, Items};
use std::alloc::Global;
use xp_grammar::{Ast, Class, Exprs, Kind};
use xp_token::{Mark, Word};

/// The arguments of a call, with the word VARIADIC before the last or not.
#[derive(Drop)]
pub(crate) struct Arguments {
    pub(crate) args: Exprs,
    pub(crate) variadic: bool,
}

impl<F: Fn(Global, Nested, &mut Cursor<'_>) -> Result<Boxed<Ast>, ParseError>> Grammar<F> {
    /// One expression or more, with commas between.
    #[tactic(auto, using(crate::proofs::ListLaws::shown_is, crate::proofs::ListLaws::more_shown), unfolding(crate::specs::inner::Parts::more_shown_part))]
    pub(crate) fn list(&self, tokens: &mut Cursor<'_>) -> Result<Exprs, ParseError>
        requires nests { Nests self.now.room (F.pre self.now.nested) (F.post self.now.nested) }
        requires fewer { length tokens.old < self.now.room }
        ensures value { Reads Trees (parse Level.Shown tokens.old) result tokens.new }
        ensures fewer { IfOk result (λ _. length tokens.new < length tokens.old) }
    {
        let mut found = Items::new(self.alloc);
        let first = self.expr(tokens)?;
        found.push(first.into_inner())?;
        'commas: while let Some(_) = tokens.eat(Class::Only(Kind::Mark(Mark::Comma))) {
            let next = self.expr(tokens)?;
            found.push(next.into_inner())?;
        }
        Ok(found)
    }

    /// Arguments, of which the last alone may have the word VARIADIC before it.
    #[tactic(auto, using(crate::proofs::ListLaws::args_is, crate::proofs::ListLaws::more_args, crate::proofs::ListLaws::args_end), unfolding(crate::specs::inner::Parts::args_part, crate::specs::inner::Parts::more_args_part))]
    pub(crate) fn args(&self, tokens: &mut Cursor<'_>) -> Result<Arguments, ParseError>
        requires nests { Nests self.now.room (F.pre self.now.nested) (F.post self.now.nested) }
        requires fewer { length tokens.old < self.now.room }
        ensures { Reads part.arguments (parse Level.Args tokens.old) result tokens.new }
    {
        let mut args = Items::new(self.alloc);
        'commas: loop {
            if let Some(_) = tokens.eat(Class::Only(Kind::Word(Word::Variadic))) {
                let last = self.expr(tokens)?;
                args.push(last.into_inner())?;
                return Ok(Arguments {
                    args,
                    variadic: true,
                });
            }
            let next = self.expr(tokens)?;
            args.push(next.into_inner())?;
            if let None = tokens.eat(Class::Only(Kind::Mark(Mark::Comma))) {
                return Ok(Arguments {
                    args,
                    variadic: false,
                });
            }
        }
    }
}
