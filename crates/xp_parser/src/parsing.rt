//! A list of tokens as a statement.
ghost use Rattle.std.specs.Prelude.{◌≡◌, ◌+◌, ◌-◌, ◌≤◌, length, true, IfOk};
ghost use Rattle.xp_grammar.specs.Reads.{read};
ghost use Rattle.xp_token.specs.Ended.{are_plain};
ghost use Rattle.xp_token.specs.Lexemes.{all_placed};
ghost use Rattle.xp_parser.specs.Parses as spec;
ghost use Rattle.xp_parser.specs.WellFormed.{is_well_formed};

use crate::fault::ParseFault;
use crate::parse_error::ParseError;
use crate::reading::whole;
use std::alloc::Global;
use xp_depth::first_deep;
use xp_grammar::Statement;
use xp_token::{Token, Tokens};

/// The byte at which the token at this place begins.
fn start_at(tokens: &[Token], place: usize) -> u32
    ensures { result ≡ spec.start_at tokens.now place }
{
    match tokens.get(place) {
        Some(token) => token.span.start,
        None => 0,
    }
}

/// The statement that the words are, which are all tokens but the End.
fn parse_words(alloc: Global, tokens: &[Token], words: &[Token]) -> Result<Statement, ParseFault>
    requires { words.now ≡ spec.words tokens.now }
    ensures { spec.Answers (spec.settled tokens.now (read words.now)) result }
{
    match whole(alloc, words) {
        Ok(statement) => Ok(statement),
        Err(ParseError::Syntax { left }) => Err(ParseFault::Syntax {
            at: start_at(tokens, words.len() - left),
        }),
        Err(ParseError::Memory) => Err(ParseFault::Memory),
    }
}

/// The fault where `left` of the words up to and with the first deep one, at this place, are left
/// from the first with which no statement continues.
fn fault_within(tokens: &[Token], place: usize, left: usize) -> ParseFault
    requires { left ≤ place + 1 }
    ensures { spec.settled_deep tokens.now place (Err left) ≡ Err result }
{
    if left == 0 {
        ParseFault::TooDeep {
            at: start_at(tokens, place),
        }
    } else {
        ParseFault::Syntax {
            at: start_at(tokens, place - (left - 1)),
        }
    }
}

/// The fault in these first words, the last of which is the first deep one, at this place.
fn parse_deep(
    alloc: Global,
    tokens: &[Token],
    words: &[Token],
    place: usize,
) -> Result<Statement, ParseFault>
    requires { length words.now ≡ place + 1 }
    ensures { spec.Answers (spec.settled_deep tokens.now place (read words.now)) result }
{
    match whole(alloc, words) {
        Ok(statement) => {
            drop(statement);
            Err(ParseFault::TooDeep {
                at: start_at(tokens, place),
            })
        }
        Err(ParseError::Syntax { left }) => Err(fault_within(tokens, place, left)),
        Err(ParseError::Memory) => Err(ParseFault::Memory),
    }
}

/// The statement that the tokens are, as the function on lists tells it.
#[tactic(auto, unfolding(crate::specs::Parses::parsed))]
fn answer(alloc: Global, tokens: &[Token]) -> Result<Statement, ParseFault>
    requires { spec.ends_in_end tokens.now ≡ true }
    ensures { spec.Answers (spec.parsed tokens.now) result }
{
    let words = &tokens[..tokens.len() - 1];
    match first_deep(alloc, words) {
        Ok(None) => parse_words(alloc, tokens, words),
        Ok(Some(place)) => parse_deep(alloc, tokens, &words[..place + 1], place),
        Err(_) => Err(ParseFault::Memory),
    }
}

/// The statement that the tokens before the End are.
pub fn parse(alloc: Global, tokens: &Tokens) -> Result<Statement, ParseFault>
    requires { spec.ends_in_end tokens.now ≡ true }
    // What is answered is what the tokens are.
    ensures right { spec.IsRight tokens.now result }
    // They are nothing else, and what they are is answered, unless memory ran out.
    ensures only { (answer : spec.Answer) → spec.IsAnswer tokens.now answer → spec.Answers answer result }
    // The answer is told by a function of the tokens.
    ensures value { spec.Answers (spec.parsed tokens.now) result }
    // Of plain numbers comes a well-formed statement: only arguments of a call and elements of an array may be none.
    ensures formed { IfOk result (λ s. are_plain (all_placed tokens.now) ≡ true → is_well_formed s ≡ true) }
{
    answer(alloc, tokens.as_slice())
}
