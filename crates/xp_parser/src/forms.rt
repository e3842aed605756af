//! The forms with words within their brackets (manual 9.4, 9.9.1, 9.18.3 and 4.2.12).
ghost use Rattle.std.specs.Prelude.{◌≤◌, ◌<◌, length};
ghost use Rattle.xp_grammar.specs.Table.{Tree};
ghost use Rattle.xp_parser.specs.inner.Nests.{Nests};
ghost use Rattle.xp_parser.specs.inner.Parts as part;
ghost use Rattle.xp_parser.specs.inner.Reading.{Reads};

use crate::cursor::Cursor;
use crate::grammar::{Grammar, Nested};
use crate::held;
use crate::parse_error::ParseError;
use sqlite_items::{Boxed, Items};
use std::alloc::Global;
use xp_base::Span;
use xp_grammar::{Ast, Class, Kind, Side};
use xp_token::{Mark, Token, Word};

impl<F: Fn(Global, Nested, &mut Cursor<'_>) -> Result<Boxed<Ast>, ParseError>> Grammar<F> {
    /// NULLIF, ARRAY, POSITION, SUBSTRING, TRIM or EXTRACT.
    #[tactic(auto, unfolding(crate::specs::inner::Parts::forms_part))]
    pub(crate) fn form(&self, tokens: &mut Cursor<'_>) -> Result<Boxed<Ast>, ParseError>
        requires nests { Nests self.now.room (F.pre self.now.nested) (F.post self.now.nested) }
        requires fewer { length tokens.old ≤ self.now.room }
        ensures { Reads Tree (part.forms_part tokens.old) result tokens.new }
    {
        if let Some(word) = tokens.eat(Class::Only(Kind::Word(Word::Nullif))) {
            return self.nullif(tokens, word);
        }
        if let Some(word) = tokens.eat(Class::Only(Kind::Word(Word::Array))) {
            return self.array(tokens, word);
        }
        if let Some(word) = tokens.eat(Class::Only(Kind::Word(Word::Position))) {
            return self.position(tokens, word);
        }
        if let Some(word) = tokens.eat(Class::Only(Kind::Word(Word::Substring))) {
            return self.substring(tokens, word);
        }
        if let Some(word) = tokens.eat(Class::Only(Kind::Word(Word::Trim))) {
            return self.trim(tokens, word);
        }
        let word = tokens.expect(Class::Only(Kind::Word(Word::Extract)))?;
        self.extract(tokens, word)
    }

    /// Behind the word NULLIF.
    #[tactic(auto, unfolding(crate::specs::inner::Parts::nullif_then))]
    fn nullif(&self, tokens: &mut Cursor<'_>, word: &Token) -> Result<Boxed<Ast>, ParseError>
        requires nests { Nests self.now.room (F.pre self.now.nested) (F.post self.now.nested) }
        requires fewer { length tokens.old < self.now.room }
        ensures { Reads Tree (part.nullif_then word.now tokens.old) result tokens.new }
    {
        tokens.expect(Class::Only(Kind::Mark(Mark::OpenParen)))?;
        let left = self.expr(tokens)?;
        tokens.expect(Class::Only(Kind::Mark(Mark::Comma)))?;
        let right = self.expr(tokens)?;
        tokens.expect(Class::Only(Kind::Mark(Mark::CloseParen)))?;
        let at = word.span;
        Ok(Boxed::new(self.alloc, Ast::NullIf { at, left, right })?)
    }

    /// Behind the word ARRAY.
    #[tactic(auto, unfolding(crate::specs::inner::Parts::array_then))]
    fn array(&self, tokens: &mut Cursor<'_>, word: &Token) -> Result<Boxed<Ast>, ParseError>
        requires nests { Nests self.now.room (F.pre self.now.nested) (F.post self.now.nested) }
        requires fewer { length tokens.old < self.now.room }
        ensures { Reads Tree (part.array_then word.now tokens.old) result tokens.new }
    {
        let at = word.span;
        tokens.expect(Class::Only(Kind::Mark(Mark::OpenBracket)))?;
        if let Some(_) = tokens.eat(Class::Only(Kind::Mark(Mark::CloseBracket))) {
            let elements = Items::new(self.alloc);
            return Ok(Boxed::new(self.alloc, Ast::Array { at, elements })?);
        }
        let elements = self.list(tokens)?;
        tokens.expect(Class::Only(Kind::Mark(Mark::CloseBracket)))?;
        Ok(Boxed::new(self.alloc, Ast::Array { at, elements })?)
    }

    /// Behind the word POSITION.
    #[tactic(auto, unfolding(crate::specs::inner::Parts::position_then))]
    fn position(&self, tokens: &mut Cursor<'_>, word: &Token) -> Result<Boxed<Ast>, ParseError>
        requires nests { Nests self.now.room (F.pre self.now.nested) (F.post self.now.nested) }
        requires fewer { length tokens.old < self.now.room }
        ensures { Reads Tree (part.position_then word.now tokens.old) result tokens.new }
    {
        tokens.expect(Class::Only(Kind::Mark(Mark::OpenParen)))?;
        let part = self.operation(tokens)?;
        tokens.expect(Class::Only(Kind::Word(Word::In)))?;
        let whole = self.operation(tokens)?;
        tokens.expect(Class::Only(Kind::Mark(Mark::CloseParen)))?;
        let at = word.span;
        Ok(Boxed::new(self.alloc, Ast::Position { at, part, whole })?)
    }

    /// Behind the word EXTRACT.
    #[tactic(auto, unfolding(crate::specs::inner::Parts::extract_then))]
    fn extract(&self, tokens: &mut Cursor<'_>, word: &Token) -> Result<Boxed<Ast>, ParseError>
        requires nests { Nests self.now.room (F.pre self.now.nested) (F.post self.now.nested) }
        requires fewer { length tokens.old < self.now.room }
        ensures { Reads Tree (part.extract_then word.now tokens.old) result tokens.new }
    {
        tokens.expect(Class::Only(Kind::Mark(Mark::OpenParen)))?;
        let named = tokens.expect(Class::Fields)?;
        tokens.expect(Class::Only(Kind::Word(Word::From)))?;
        let source = self.expr(tokens)?;
        tokens.expect(Class::Only(Kind::Mark(Mark::CloseParen)))?;
        let at = word.span;
        let field_at = named.span;
        let field = held::text(self.alloc, named)?;
        Ok(Boxed::new(
            self.alloc,
            Ast::Extract {
                at,
                field_at,
                field,
                source,
            },
        )?)
    }

    /// Behind the word SUBSTRING.
    #[tactic(auto, unfolding(crate::specs::inner::Parts::substring_then))]
    fn substring(&self, tokens: &mut Cursor<'_>, word: &Token) -> Result<Boxed<Ast>, ParseError>
        requires nests { Nests self.now.room (F.pre self.now.nested) (F.post self.now.nested) }
        requires fewer { length tokens.old < self.now.room }
        ensures { Reads Tree (part.substring_then word.now tokens.old) result tokens.new }
    {
        tokens.expect(Class::Only(Kind::Mark(Mark::OpenParen)))?;
        let text = self.expr(tokens)?;
        if let Some(_) = tokens.eat(Class::Only(Kind::Mark(Mark::Comma))) {
            return self.substring_listed(tokens, word, text);
        }
        if let Some(_) = tokens.eat(Class::Only(Kind::Word(Word::From))) {
            return self.substring_from(tokens, word, text);
        }
        if let Some(_) = tokens.eat(Class::Only(Kind::Word(Word::For))) {
            return self.substring_for(tokens, word, text);
        }
        tokens.expect(Class::Only(Kind::Mark(Mark::CloseParen)))?;
        let mut args = Items::new(self.alloc);
        args.push(text.into_inner())?;
        let at = word.span;
        Ok(Boxed::new(self.alloc, Ast::Substring { at, args })?)
    }

    /// Behind the first comma of SUBSTRING.
    #[tactic(auto, unfolding(crate::specs::inner::Parts::listed_then))]
    fn substring_listed(
        &self,
        tokens: &mut Cursor<'_>,
        word: &Token,
        text: Boxed<Ast>,
    ) -> Result<Boxed<Ast>, ParseError>
        requires nests { Nests self.now.room (F.pre self.now.nested) (F.post self.now.nested) }
        requires fewer { length tokens.old < self.now.room }
        ensures { Reads Tree (part.listed_then word.now (Tree text) tokens.old) result tokens.new }
    {
        let mut args = Items::new(self.alloc);
        args.push(text.into_inner())?;
        let others = self.list(tokens)?;
        tokens.expect(Class::Only(Kind::Mark(Mark::CloseParen)))?;
        args.append(others)?;
        let at = word.span;
        Ok(Boxed::new(self.alloc, Ast::Substring { at, args })?)
    }

    /// Behind the word FROM of SUBSTRING.
    #[tactic(auto, unfolding(crate::specs::inner::Parts::begun_then))]
    fn substring_from(
        &self,
        tokens: &mut Cursor<'_>,
        word: &Token,
        text: Boxed<Ast>,
    ) -> Result<Boxed<Ast>, ParseError>
        requires nests { Nests self.now.room (F.pre self.now.nested) (F.post self.now.nested) }
        requires fewer { length tokens.old < self.now.room }
        ensures { Reads Tree (part.begun_then word.now (Tree text) tokens.old) result tokens.new }
    {
        let from = Some(self.expr(tokens)?);
        let length = match tokens.eat(Class::Only(Kind::Word(Word::For))) {
            Some(_) => Some(self.expr(tokens)?),
            None => None,
        };
        tokens.expect(Class::Only(Kind::Mark(Mark::CloseParen)))?;
        let at = word.span;
        Ok(Boxed::new(
            self.alloc,
            Ast::SubstringFrom {
                at,
                text,
                from,
                length,
            },
        )?)
    }

    /// Behind the word FOR of SUBSTRING without FROM.
    #[tactic(auto, unfolding(crate::specs::inner::Parts::ended_then))]
    fn substring_for(
        &self,
        tokens: &mut Cursor<'_>,
        word: &Token,
        text: Boxed<Ast>,
    ) -> Result<Boxed<Ast>, ParseError>
        requires nests { Nests self.now.room (F.pre self.now.nested) (F.post self.now.nested) }
        requires fewer { length tokens.old < self.now.room }
        ensures { Reads Tree (part.ended_then word.now (Tree text) tokens.old) result tokens.new }
    {
        let from = None;
        let length = Some(self.expr(tokens)?);
        tokens.expect(Class::Only(Kind::Mark(Mark::CloseParen)))?;
        let at = word.span;
        Ok(Boxed::new(
            self.alloc,
            Ast::SubstringFrom {
                at,
                text,
                from,
                length,
            },
        )?)
    }

    /// Behind the word TRIM.
    #[tactic(auto, unfolding(crate::specs::inner::Parts::trim_then))]
    fn trim(&self, tokens: &mut Cursor<'_>, word: &Token) -> Result<Boxed<Ast>, ParseError>
        requires nests { Nests self.now.room (F.pre self.now.nested) (F.post self.now.nested) }
        requires fewer { length tokens.old < self.now.room }
        ensures { Reads Tree (part.trim_then word.now tokens.old) result tokens.new }
    {
        tokens.expect(Class::Only(Kind::Mark(Mark::OpenParen)))?;
        match tokens.eat(Class::Sides) {
            Some(side) => self.trim_side(tokens, word.span, Some(held::side(side))),
            None => self.trim_side(tokens, word.span, None),
        }
    }

    /// Behind the side of TRIM, or where it would stand.
    #[tactic(auto, unfolding(crate::specs::inner::Parts::sided_then))]
    fn trim_side(
        &self,
        tokens: &mut Cursor<'_>,
        at: Span,
        side: Option<Side>,
    ) -> Result<Boxed<Ast>, ParseError>
        requires nests { Nests self.now.room (F.pre self.now.nested) (F.post self.now.nested) }
        requires fewer { length tokens.old < self.now.room }
        ensures { Reads Tree (part.sided_then at side tokens.old) result tokens.new }
    {
        if let Some(_) = tokens.eat(Class::Only(Kind::Word(Word::From))) {
            return self.trim_from(tokens, at, side, None);
        }
        let first = self.expr(tokens)?;
        self.trim_end(tokens, at, side, first)
    }

    /// Behind the first expression of TRIM.
    #[tactic(auto, unfolding(crate::specs::inner::Parts::trimmed_then, crate::specs::inner::Parts::set_source_then, crate::specs::inner::Parts::source_then))]
    fn trim_end(
        &self,
        tokens: &mut Cursor<'_>,
        at: Span,
        side: Option<Side>,
        first: Boxed<Ast>,
    ) -> Result<Boxed<Ast>, ParseError>
        requires nests { Nests self.now.room (F.pre self.now.nested) (F.post self.now.nested) }
        requires fewer { length tokens.old < self.now.room }
        ensures { Reads Tree (part.trimmed_then at side (Tree first) tokens.old) result tokens.new }
    {
        if let Some(_) = tokens.eat(Class::Only(Kind::Word(Word::From))) {
            return self.trim_from(tokens, at, side, Some(first));
        }
        let set = match tokens.eat(Class::Only(Kind::Mark(Mark::Comma))) {
            Some(_) => Some(self.expr(tokens)?),
            None => None,
        };
        tokens.expect(Class::Only(Kind::Mark(Mark::CloseParen)))?;
        let text = first;
        Ok(Boxed::new(
            self.alloc,
            Ast::Trim {
                at,
                side,
                text,
                set,
            },
        )?)
    }

    /// Behind the word FROM of TRIM.
    #[tactic(auto, unfolding(crate::specs::inner::Parts::source_then))]
    fn trim_from(
        &self,
        tokens: &mut Cursor<'_>,
        at: Span,
        side: Option<Side>,
        set: Option<Boxed<Ast>>,
    ) -> Result<Boxed<Ast>, ParseError>
        requires nests { Nests self.now.room (F.pre self.now.nested) (F.post self.now.nested) }
        requires fewer { length tokens.old < self.now.room }
        ensures { Reads Tree (part.source_then at side set tokens.old) result tokens.new }
    {
        let text = self.expr(tokens)?;
        tokens.expect(Class::Only(Kind::Mark(Mark::CloseParen)))?;
        Ok(Boxed::new(
            self.alloc,
            Ast::TrimFrom {
                at,
                side,
                set,
                text,
            },
        )?)
    }
}
