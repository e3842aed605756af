//! The tokens that are still to be read.
ghost use Rattle.std.specs.Prelude.{◌≡◌, ◌<◌, length, IfOk, MatchOption};
ghost use Rattle.xp_grammar.specs.Kinds.{ahead, same};
ghost use Rattle.xp_grammar.specs.inner.Machine as machine;
ghost use Rattle.xp_parser.specs.inner.Reading.{Eats, Reads, seen};

use crate::parse_error::ParseError;
use std::marker::Model;
use xp_grammar::{Class, Kind, token_kind};
use xp_token::Token;

#[derive(Drop)]
pub(crate) struct Cursor<'a> {
    rest: &'a [Token],
}

impl<'a> Model for Cursor<'a> {
    ghost use Rattle.std.specs.Prelude.{List};
    ghost use Rattle.std.specs.Coded.{coded_list};
    ghost use Rattle.xp_token.specs.declared.token.Token.{Token as TheToken};
    ghost use Rattle.xp_token.specs.contracts.token.Token.{the_row};

    ghost Value = { List TheToken };

    ghost coded = { coded_list the_row.coded };

    ghost view = { λ c. c.rest.now };
}

impl<'a> Cursor<'a> {
    pub(crate) fn new(tokens: &'a [Token]) -> Cursor<'a>
        ensures { result ≡ tokens.now }
    {
        Cursor { rest: tokens }
    }

    /// How many tokens are left.
    pub(crate) fn left(&self) -> usize
        ensures { result ≡ length self.now }
    {
        self.rest.len()
    }

    /// Whether the next token is of the kind.
    pub(crate) fn sees(&self, kind: Kind) -> bool
        ensures { result ≡ same (ahead self.now) kind }
    {
        match self.rest {
            [first, ..] => token_kind(first) == kind,
            [] => Kind::Nothing == kind,
        }
    }

    /// The next token, where it is of the class.
    pub(crate) fn eat(&mut self, class: Class) -> Option<&'a Token>
        ensures value { Eats (machine.eat class self.old) result self.new }
        ensures fewer { MatchOption result (self.new ≡ self.old) (λ _. length self.new < length self.old) }
    {
        match self.rest {
            [first, rest @ ..] if class.has(token_kind(first)) => {
                self.rest = rest;
                Some(first)
            }
            _ => None,
        }
    }

    /// The next token, which has to be of the class.
    pub(crate) fn expect(&mut self, class: Class) -> Result<&'a Token, ParseError>
        ensures value { Reads seen (machine.expect class self.old) result self.new }
        ensures fewer { IfOk result (λ _. length self.new < length self.old) }
    {
        match self.rest {
            [first, rest @ ..] if class.has(token_kind(first)) => {
                self.rest = rest;
                Ok(first)
            }
            _ => Err(ParseError::Syntax {
                left: self.rest.len(),
            }),
        }
    }
}
