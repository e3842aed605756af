//! One statement from all tokens of a list (manual 4.1).
ghost use Rattle.xp_grammar.specs.Reads.{read};
ghost use Rattle.xp_grammar.specs.Table.{Tree};
ghost use Rattle.xp_parser.specs.inner.Parts.{nested};
ghost use Rattle.xp_parser.specs.inner.Reading.{Answers, Reads};

use crate::cursor::Cursor;
use crate::grammar::{Grammar, Nested};
use crate::parse_error::ParseError;
use sqlite_items::Boxed;
use std::alloc::Global;
use xp_grammar::{Ast, Statement};
use xp_token::Token;

/// An expression within another.
fn read_nested(
    alloc: Global,
    which: Nested,
    tokens: &mut Cursor<'_>,
) -> Result<Boxed<Ast>, ParseError>
    ensures { Reads Tree (nested which tokens.old) result tokens.new }
{
    let grammar = Grammar {
        alloc,
        room: tokens.left(),
        nested: read_nested,
    };
    match which {
        Nested::Expression => grammar.or(tokens),
        Nested::Conjunction => grammar.and(tokens),
        Nested::Negation => grammar.not(tokens),
        Nested::Operation => grammar.other(tokens),
        Nested::Prefixed => grammar.prefixed(tokens),
        Nested::Product => grammar.product(tokens),
        Nested::Power => grammar.power(tokens),
        Nested::Signed => grammar.signed(tokens),
    }
}

/// The statement that all of the tokens are, which have no End among them.
#[tactic(auto, using(crate::proofs::StatementLaws::read_err, crate::proofs::StatementLaws::read_ended, crate::proofs::StatementLaws::read_on))]
pub(crate) fn whole(alloc: Global, tokens: &[Token]) -> Result<Statement, ParseError>
    ensures { Answers result (read tokens.now) }
{
    let mut cursor = Cursor::new(tokens);
    let grammar = Grammar {
        alloc,
        room: tokens.len(),
        nested: read_nested,
    };
    let statement = grammar.statement(&mut cursor)?;
    let left = cursor.left();
    if left == 0 {
        Ok(statement.into_inner())
    } else {
        Err(ParseError::Syntax { left })
    }
}
