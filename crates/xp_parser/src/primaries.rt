//! Constants, columns, calls, parentheses and the forms of their own (manual 4.2).
ghost use Rattle.std.specs.Prelude.{◌≡◌, ◌≤◌, ◌<◌, length, IfOk};
ghost use Rattle.xp_grammar.specs.inner.Machine.{parse};
ghost use Rattle.xp_grammar.specs.Table.{Level, Tree, at, name_of, one_word};
ghost use Rattle.xp_parser.specs.inner.Nests.{Nests};
ghost use Rattle.xp_parser.specs.inner.Parts as part;
ghost use Rattle.xp_parser.specs.inner.Reading.{Reads};

use crate::cursor::Cursor;
use crate::grammar::{Grammar, Nested};
use crate::lists::Arguments;
use crate::parse_error::ParseError;
use crate::{held, types};
use sqlite_items::{Boxed, Items};
use std::alloc::Global;
use xp_base::Memory;
use xp_grammar::{Ast, Class, Kind, TypeModifier, TypeWords};
use xp_token::{Mark, Token, Word};

impl<F: Fn(Global, Nested, &mut Cursor<'_>) -> Result<Boxed<Ast>, ParseError>> Grammar<F> {
    /// An operand without operators around it.
    #[tactic(auto, using(crate::proofs::PrimaryLaws::primary_is), unfolding(crate::specs::inner::Parts::primary_part))]
    pub(crate) fn primary(&self, tokens: &mut Cursor<'_>) -> Result<Boxed<Ast>, ParseError>
        requires nests { Nests self.now.room (F.pre self.now.nested) (F.post self.now.nested) }
        requires fewer { length tokens.old ≤ self.now.room }
        ensures { Reads Tree (parse Level.E12 tokens.old) result tokens.new }
    {
        if let Some(word) = tokens.eat(Class::Constants) {
            return Ok(Boxed::new(self.alloc, held::constant(self.alloc, word)?)?);
        }
        if let Some(word) = tokens.eat(Class::Names) {
            return self.named(tokens, word);
        }
        if let Some(word) = tokens.eat(Class::Only(Kind::Mark(Mark::OpenParen))) {
            return self.paren(tokens, word);
        }
        if let Some(word) = tokens.eat(Class::Only(Kind::Word(Word::Cast))) {
            return self.cast_as(tokens, word);
        }
        self.worded(tokens)
    }

    /// CASE, or a form with a word before its bracket.
    #[tactic(auto, unfolding(crate::specs::inner::Parts::worded_part))]
    fn worded(&self, tokens: &mut Cursor<'_>) -> Result<Boxed<Ast>, ParseError>
        requires nests { Nests self.now.room (F.pre self.now.nested) (F.post self.now.nested) }
        requires fewer { length tokens.old ≤ self.now.room }
        ensures { Reads Tree (part.worded_part tokens.old) result tokens.new }
    {
        if let Some(word) = tokens.eat(Class::Only(Kind::Word(Word::Case))) {
            return self.cases(tokens, word);
        }
        if let Some(word) = tokens.eat(Class::Selections) {
            return self.selection(tokens, word);
        }
        self.form(tokens)
    }

    /// Behind a name.
    #[tactic(auto, unfolding(crate::specs::inner::Parts::named_then))]
    fn named(&self, tokens: &mut Cursor<'_>, word: &Token) -> Result<Boxed<Ast>, ParseError>
        requires nests { Nests self.now.room (F.pre self.now.nested) (F.post self.now.nested) }
        requires fewer { length tokens.old < self.now.room }
        ensures { Reads Tree (part.named_then word.now tokens.old) result tokens.new }
    {
        let at = word.span;
        if let Some(constant) = tokens.eat(Class::Only(Kind::String)) {
            return Ok(self.typed_constant(word, constant)?);
        }
        if let Some(_) = tokens.eat(Class::Only(Kind::Mark(Mark::OpenParen))) {
            return self.call(tokens, word);
        }
        let name = held::name(self.alloc, word)?;
        Ok(Boxed::new(self.alloc, Ast::Column { at, name })?)
    }

    fn typed_constant(&self, word: &Token, constant: &Token) -> Result<Boxed<Ast>, Memory>
        ensures { IfOk result (λ e. e ≡ Ast.Typed (one_word word.now) (at constant.now) (name_of constant.now)) }
    {
        let target = TypeWords {
            at: word.span,
            name: held::type_name(self.alloc, word)?,
            modifier: TypeModifier::None,
            array: false,
        };
        let at = constant.span;
        let text = held::text(self.alloc, constant)?;
        let target = Boxed::new(self.alloc, target)?;
        Ok(Boxed::new(self.alloc, Ast::Typed { target, at, text })?)
    }

    /// Behind the first bracket of a call.
    #[tactic(auto, unfolding(crate::specs::inner::Parts::call_then))]
    fn call(&self, tokens: &mut Cursor<'_>, word: &Token) -> Result<Boxed<Ast>, ParseError>
        requires nests { Nests self.now.room (F.pre self.now.nested) (F.post self.now.nested) }
        requires fewer { length tokens.old < self.now.room }
        ensures { Reads Tree (part.call_then word.now tokens.old) result tokens.new }
    {
        let at = word.span;
        if let Some(_) = tokens.eat(Class::Only(Kind::Mark(Mark::CloseParen))) {
            let name = held::name(self.alloc, word)?;
            let args = Items::new(self.alloc);
            let variadic = false;
            return Ok(Boxed::new(
                self.alloc,
                Ast::Call {
                    at,
                    name,
                    args,
                    variadic,
                },
            )?);
        }
        let Arguments { args, variadic } = self.args(tokens)?;
        tokens.expect(Class::Only(Kind::Mark(Mark::CloseParen)))?;
        let name = held::name(self.alloc, word)?;
        Ok(Boxed::new(
            self.alloc,
            Ast::Call {
                at,
                name,
                args,
                variadic,
            },
        )?)
    }

    /// Behind the opening parenthesis.
    #[tactic(auto, unfolding(crate::specs::inner::Parts::paren_then))]
    fn paren(&self, tokens: &mut Cursor<'_>, word: &Token) -> Result<Boxed<Ast>, ParseError>
        requires nests { Nests self.now.room (F.pre self.now.nested) (F.post self.now.nested) }
        requires fewer { length tokens.old < self.now.room }
        ensures { Reads Tree (part.paren_then word.now tokens.old) result tokens.new }
    {
        let inner = self.expr(tokens)?;
        tokens.expect(Class::Only(Kind::Mark(Mark::CloseParen)))?;
        let at = word.span;
        Ok(Boxed::new(self.alloc, Ast::Paren { at, inner })?)
    }

    /// Behind the word CAST.
    #[tactic(auto, unfolding(crate::specs::inner::Parts::cast_then))]
    fn cast_as(&self, tokens: &mut Cursor<'_>, word: &Token) -> Result<Boxed<Ast>, ParseError>
        requires nests { Nests self.now.room (F.pre self.now.nested) (F.post self.now.nested) }
        requires fewer { length tokens.old < self.now.room }
        ensures { Reads Tree (part.cast_then word.now tokens.old) result tokens.new }
    {
        tokens.expect(Class::Only(Kind::Mark(Mark::OpenParen)))?;
        let inner = self.expr(tokens)?;
        tokens.expect(Class::Only(Kind::Word(Word::As)))?;
        let target = Boxed::new(self.alloc, types::full(self.alloc, tokens)?)?;
        tokens.expect(Class::Only(Kind::Mark(Mark::CloseParen)))?;
        let at = word.span;
        Ok(Boxed::new(self.alloc, Ast::Cast { at, inner, target })?)
    }

    /// Behind COALESCE, GREATEST or LEAST.
    #[tactic(auto, unfolding(crate::specs::inner::Parts::selection_then))]
    fn selection(&self, tokens: &mut Cursor<'_>, word: &Token) -> Result<Boxed<Ast>, ParseError>
        requires nests { Nests self.now.room (F.pre self.now.nested) (F.post self.now.nested) }
        requires fewer { length tokens.old < self.now.room }
        ensures { Reads Tree (part.selection_then word.now tokens.old) result tokens.new }
    {
        tokens.expect(Class::Only(Kind::Mark(Mark::OpenParen)))?;
        let args = self.list(tokens)?;
        tokens.expect(Class::Only(Kind::Mark(Mark::CloseParen)))?;
        let at = word.span;
        let selection = held::selection(word);
        Ok(Boxed::new(
            self.alloc,
            Ast::Selection {
                at,
                selection,
                args,
            },
        )?)
    }
}
