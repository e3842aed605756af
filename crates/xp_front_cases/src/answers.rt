//! What is answered for a case: a word that says which function is called, and its text.
ghost use Rattle.std.specs.Prelude.{◌≡◌, true};
ghost use Rattle.xp_parser.specs.Parses.{ends_in_end};

use crate::shown::statement_text;
use anyhow::{Result, bail, ensure};
use std::alloc::{AllocError, Global};
use xp_cases::{Answers, bytes};
use xp_lexer::{LexFault, Lexed, lex};
use xp_parser::{ParseFault, parse};
use xp_token::{Token, TokenKind, Tokens};

const LIMIT: usize = 1_000_000;

fn put_kind(out: &mut String, kind: &TokenKind) -> Result<(), AllocError> {
    match kind {
        TokenKind::Name(name) => write!(out, "{}", name.as_str()),
        TokenKind::Quoted(name) => write!(out, "\"{}\"", name.as_str()),
        TokenKind::Word(word) => write!(out, "{word:?}"),
        TokenKind::Str(text) => write!(out, "'{}'", text.as_str()),
        TokenKind::Number { value, whole } => {
            let sort = if *whole { " whole" } else { "" };
            write!(out, "{}/{}{sort}", value.coef, value.scale)
        }
        TokenKind::Wide => write!(out, "wide"),
        TokenKind::Operator(name) => write!(out, "op {}", name.as_str()),
        TokenKind::Mark(mark) => write!(out, "{mark:?}"),
        TokenKind::End => write!(out, "end"),
    }
}

fn put_token(out: &mut String, token: &Token) -> Result<(), AllocError> {
    write!(out, "{}-{} ", token.span.start, token.span.end)?;
    put_kind(out, &token.kind)?;
    write!(out, ", ")
}

fn tokens_text(alloc: Global, lexed: &Lexed) -> Result<String, AllocError> {
    let mut out = String::new(alloc);
    for token in lexed.tokens.as_slice() {
        put_token(&mut out, token)?;
    }
    write!(out, "next {}", lexed.next)?;
    Ok(out)
}

fn lex_fault_text(alloc: Global, fault: LexFault) -> Result<String, AllocError> {
    match fault {
        LexFault::BadByte { at } => format!(in alloc; "bad {at}"),
        LexFault::Unclosed { start } => format!(in alloc; "unclosed {start}"),
        LexFault::TooManyTokens { at } => format!(in alloc; "too many {at}"),
        LexFault::Memory => format!(in alloc; "memory"),
    }
}

fn parse_fault_text(alloc: Global, fault: ParseFault) -> Result<String, AllocError> {
    match fault {
        ParseFault::Syntax { at } => format!(in alloc; "syntax {at}"),
        ParseFault::TooDeep { at } => format!(in alloc; "deep {at}"),
        ParseFault::Memory => format!(in alloc; "memory"),
    }
}

/// The tokens of the statement at a place.
fn lex_answer(alloc: Global, text: &str, from: u64) -> Result<String> {
    let text = bytes(alloc, text)?;
    ensure!(text.len() < LIMIT, "too long");
    ensure!(from <= text.len() as u64, "behind the text");
    match lex(alloc, &text, from) {
        Ok(lexed) => Ok(tokens_text(alloc, &lexed)?),
        Err(fault) => Ok(lex_fault_text(alloc, fault)?),
    }
}

/// How many tokens there are, the end counted.
fn count_answer(alloc: Global, text: &str) -> Result<String> {
    let text = bytes(alloc, text)?;
    ensure!(text.len() < LIMIT, "too long");
    match lex(alloc, &text, 0) {
        Ok(lexed) => Ok(format!(in alloc; "{} tokens", lexed.tokens.len())?),
        Err(fault) => Ok(lex_fault_text(alloc, fault)?),
    }
}

/// The statement that the tokens are, whole or as the word alone.
fn tokens_answer(alloc: Global, tokens: &Tokens, whole: bool) -> Result<String, AllocError>
    requires { ends_in_end tokens.now ≡ true }
{
    match parse(alloc, tokens) {
        Ok(statement) if whole => statement_text(alloc, &statement),
        Ok(_) => format!(in alloc; "a statement"),
        Err(fault) => parse_fault_text(alloc, fault),
    }
}

#[tactic(auto, using(xp_parser::proofs::Ended::ended_ends))]
fn parse_answer(alloc: Global, text: &str, whole: bool) -> Result<String> {
    let text = bytes(alloc, text)?;
    ensure!(text.len() < LIMIT, "too long");
    match lex(alloc, &text, 0) {
        Ok(lexed) => Ok(tokens_answer(alloc, &lexed.tokens, whole)?),
        Err(fault) => Ok(lex_fault_text(alloc, fault)?),
    }
}

fn from_answer(alloc: Global, text: &str) -> Result<String> {
    let Some((from, text)) = text.split_once(' ') else {
        bail!("a place and a text are wanted");
    };
    lex_answer(alloc, text, from.parse()?)
}

/// The cases of tokens and statements.
pub struct Fronts;

impl Answers for Fronts {
    fn answer(&self, alloc: Global, case: &str) -> Result<String> {
        let (word, text) = case.split_once(' ').unwrap_or((case, ""));
        match word {
            "lex" => lex_answer(alloc, text, 0),
            "lex-from" => from_answer(alloc, text),
            "count" => count_answer(alloc, text),
            "parse" => parse_answer(alloc, text, true),
            "read" => parse_answer(alloc, text, false),
            _ => bail!("no such function"),
        }
    }
}
