//! Signs, casts and subscripts (manual 4.2.3, 4.2.9 and 4.1.6).
ghost use Rattle.std.specs.Prelude.{◌≡◌, ◌≤◌, ◌<◌, length, IfOk};
ghost use Rattle.xp_grammar.specs.inner.Machine.{parse};
ghost use Rattle.xp_grammar.specs.Table.{Level, Tree};
ghost use Rattle.xp_grammar.specs.Table as table;
ghost use Rattle.xp_parser.specs.inner.Nests.{Nests};
ghost use Rattle.xp_parser.specs.inner.Parts as part;
ghost use Rattle.xp_parser.specs.inner.Reading.{Reads};

use crate::cursor::Cursor;
use crate::grammar::{Grammar, Nested};
use crate::parse_error::ParseError;
use crate::{held, types};
use sqlite_items::Boxed;
use std::alloc::{AllocError, Global};
use xp_base::Span;
use xp_grammar::{Ast, Class, Kind, TypeWords};
use xp_token::{Mark, Token};

/// What was read of an operand. Where it ends in a type, brackets may still go on with that.
#[derive(Drop)]
pub(crate) enum Operand {
    Plain(Boxed<Ast>),
    Cast {
        inner: Boxed<Ast>,
        at: Span,
        target: Boxed<TypeWords>,
    },
}

/// What stands in brackets, and whether it is one whole number.
#[derive(Drop)]
pub(crate) struct Index {
    at: Boxed<Ast>,
    whole: bool,
}

fn array_of(alloc: Global, target: Boxed<TypeWords>) -> Result<Boxed<TypeWords>, AllocError>
    ensures { IfOk result (λ t. t ≡ table.array_of target) }
{
    let target = target.into_inner();
    Boxed::new(
        alloc,
        TypeWords {
            at: target.at,
            name: target.name,
            modifier: target.modifier,
            array: true,
        },
    )
}

/// An operand as an expression.
fn close(alloc: Global, operand: Operand) -> Result<Boxed<Ast>, AllocError>
    ensures { IfOk result (λ e. Tree e ≡ table.closed (part.operand operand)) }
{
    match operand {
        Operand::Plain(inner) => Ok(inner),
        Operand::Cast { inner, at, target } => Boxed::new(alloc, Ast::Cast { at, inner, target }),
    }
}

impl<F: Fn(Global, Nested, &mut Cursor<'_>) -> Result<Boxed<Ast>, ParseError>> Grammar<F> {
    #[tactic(auto, using(crate::proofs::OperandLaws::signed_is), unfolding(crate::specs::inner::Parts::signed_part))]
    pub(crate) fn signed(&self, tokens: &mut Cursor<'_>) -> Result<Boxed<Ast>, ParseError>
        requires nests { Nests self.now.room (F.pre self.now.nested) (F.post self.now.nested) }
        requires fewer { length tokens.old ≤ self.now.room }
        ensures { Reads Tree (parse Level.E10 tokens.old) result tokens.new }
    {
        match tokens.eat(Class::Only(Kind::Sign)) {
            Some(operator) => {
                let arg = self.within(Nested::Signed, tokens)?;
                let name = held::name(self.alloc, operator)?;
                let at = operator.span;
                Ok(Boxed::new(self.alloc, Ast::Sign { at, name, arg })?)
            }
            None => {
                let operand = self.operand(tokens)?;
                Ok(close(self.alloc, operand)?)
            }
        }
    }

    #[tactic(auto, using(crate::proofs::OperandLaws::operand_is, crate::proofs::OperandLaws::more_operand, xp_grammar::proofs::Turns::parse_takes), unfolding(crate::specs::inner::Parts::more_part))]
    fn operand(&self, tokens: &mut Cursor<'_>) -> Result<Operand, ParseError>
        requires nests { Nests self.now.room (F.pre self.now.nested) (F.post self.now.nested) }
        requires fewer { length tokens.old ≤ self.now.room }
        ensures { Reads part.operand (parse Level.E11 tokens.old) result tokens.new }
    {
        let mut operand = Operand::Plain(self.primary(tokens)?);
        'turns: loop {
            match tokens.eat(Class::Only(Kind::Mark(Mark::DoubleColon))) {
                Some(colons) => operand = self.cast(tokens, operand, colons)?,
                None => match tokens.eat(Class::Only(Kind::Mark(Mark::OpenBracket))) {
                    Some(bracket) => operand = self.brackets(tokens, operand, bracket)?,
                    None => return Ok(operand),
                },
            }
        }
    }

    /// A type behind an operand, behind its colons.
    #[tactic(auto, unfolding(crate::specs::inner::Parts::cast_part))]
    fn cast(
        &self,
        tokens: &mut Cursor<'_>,
        operand: Operand,
        colons: &Token,
    ) -> Result<Operand, ParseError>
        ensures { Reads part.operand (part.cast_part (part.operand operand) colons.now tokens.old) result tokens.new }
    {
        let target = types::basic(self.alloc, tokens)?;
        let target = Boxed::new(self.alloc, target)?;
        Ok(Operand::Cast {
            inner: close(self.alloc, operand)?,
            at: colons.span,
            target,
        })
    }

    /// What stands in brackets, behind the first.
    #[tactic(auto, unfolding(crate::specs::inner::Parts::index_part))]
    fn index(&self, tokens: &mut Cursor<'_>) -> Result<Index, ParseError>
        requires nests { Nests self.now.room (F.pre self.now.nested) (F.post self.now.nested) }
        requires fewer { length tokens.old < self.now.room }
        ensures { Reads part.found_index (part.index_part tokens.old) result tokens.new }
    {
        let number = tokens.sees(Kind::Whole);
        let before = tokens.left();
        let at = self.expr(tokens)?;
        let whole = number && before - tokens.left() == 1;
        tokens.expect(Class::Only(Kind::Mark(Mark::CloseBracket)))?;
        Ok(Index { at, whole })
    }

    /// Brackets behind an operand, behind the first.
    #[tactic(auto, unfolding(crate::specs::inner::Parts::bracket_part))]
    fn brackets(
        &self,
        tokens: &mut Cursor<'_>,
        operand: Operand,
        bracket: &Token,
    ) -> Result<Operand, ParseError>
        requires nests { Nests self.now.room (F.pre self.now.nested) (F.post self.now.nested) }
        requires fewer { length tokens.old < self.now.room }
        ensures { Reads part.operand (part.bracket_part (part.operand operand) bracket.now tokens.old) result tokens.new }
    {
        match operand {
            Operand::Plain(array) => {
                let index = self.index(tokens)?;
                Ok(Operand::Plain(self.subscript(array, bracket, index.at)?))
            }
            Operand::Cast { inner, at, target } => {
                if let Some(_) = tokens.eat(Class::Only(Kind::Mark(Mark::CloseBracket))) {
                    let target = array_of(self.alloc, target)?;
                    return Ok(Operand::Cast { inner, at, target });
                }
                let index = self.index(tokens)?;
                if index.whole {
                    let target = array_of(self.alloc, target)?;
                    return Ok(Operand::Cast { inner, at, target });
                }
                let array = Boxed::new(self.alloc, Ast::Cast { at, inner, target })?;
                Ok(Operand::Plain(self.subscript(array, bracket, index.at)?))
            }
        }
    }

    fn subscript(
        &self,
        array: Boxed<Ast>,
        bracket: &Token,
        index: Boxed<Ast>,
    ) -> Result<Boxed<Ast>, AllocError>
        ensures { IfOk result (λ e. e ≡ Ast.Subscript (table.at bracket.now) array index) }
    {
        let at = bracket.span;
        Boxed::new(self.alloc, Ast::Subscript { at, array, index })
    }
}
