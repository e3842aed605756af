//! The tokens of a statement.
ghost use Rattle.std.specs.Prelude.{◌≡◌, ◌<◌, ◌≤◌, ◌^◌, ◌-◌, length, drop, true, false, IfOk};
ghost use Rattle.xp_base.specs.declared.limits.TheConstants.{TOKEN_LIMIT};
ghost use Rattle.xp_lexer.specs.inner.Cutting as spec;
ghost use Rattle.xp_lexer.specs.Lexed as told;
ghost use Rattle.xp_lexer.specs.Meaning as meaning;
ghost use Rattle.xp_lexer.specs.Grammar.{IsAnswer, IsRight};
ghost use Rattle.xp_token.specs.Ended as ended;
ghost use Rattle.xp_token.specs.Ended.{is_ended, are_plain};
ghost use Rattle.xp_token.specs.Lexemes.{seen, placed, all_placed};

use crate::bytes::{byte, is_name_byte};
use crate::lexed::{LexFault, Lexed};
use crate::scan::scan_next;
use crate::scan_error::ScanError;
use std::alloc::Global;
use xp_base::{Span, TOKEN_LIMIT};
use xp_token::{Token, TokenKind, Tokens};

fn is_end(kind: &TokenKind) -> bool
    ensures { result ≡ ended.is_end (seen kind.now) }
{
    matches!(kind, TokenKind::End)
}

fn is_number(kind: &TokenKind) -> bool
    ensures { result ≡ meaning.is_number (seen kind.now) }
{
    matches!(kind, TokenKind::Number { .. } | TokenKind::Wide)
}

fn is_operator(kind: &TokenKind) -> bool
    ensures { result ≡ spec.is_operator (seen kind.now) }
{
    matches!(kind, TokenKind::Operator(_))
}

/// A letter, a digit or an underscore stands directly behind a number.
fn is_trailing_junk(kind: &TokenKind, rest: &[u8]) -> bool
    ensures { result ≡ meaning.is_trailing_junk (seen kind.now) rest.now }
{
    is_number(kind) && is_name_byte(byte(rest, 0))
}

/// The token between a text and its rest, where the whole has `total` bytes.
fn token_at(total: usize, z: &[u8], rest: &[u8], kind: TokenKind) -> Token
    requires whole { total < 2 ^ 32 }
    requires text { length z.now ≤ total }
    requires rest { length rest.now ≤ total }
    ensures { placed result ≡ meaning.token_at total z.now rest.now (seen kind) }
{
    Token {
        span: Span {
            start: (total - z.len()) as u32,
            end: (total - rest.len()) as u32,
        },
        kind,
    }
}

/// A token that is no end may stand here.
#[tactic(auto, unfolding(crate::specs::inner::Cutting::admitted))]
fn admit(count: usize, z: &[u8], rest: &[u8], kind: &TokenKind) -> Result<(), ScanError>
    requires { count ≤ TOKEN_LIMIT }
    ensures { spec.Gives (λ x. x) result (spec.admitted (TOKEN_LIMIT - count) z.now rest.now (seen kind.now)) }
{
    if count == TOKEN_LIMIT as usize {
        return Err(ScanError::TooManyTokens { left: z.len() });
    }
    if is_trailing_junk(kind, rest) {
        return Err(ScanError::BadByte { left: rest.len() });
    }
    Ok(())
}

/// The tokens of the statement at the front, with its end, and the text behind it.
fn statement(alloc: Global, total: usize, mut z: &[u8]) -> Result<(Tokens, &[u8]), ScanError>
    requires whole { total < 2 ^ 32 }
    requires text { length z.now ≤ total }
    ensures value { spec.Gives (λ x. (all_placed x.0, x.1.now)) result (spec.statement total TOKEN_LIMIT false z.entry.now) }
    ensures within { IfOk result (λ x. length x.1.now ≤ length z.entry.now) }
{
    let mut tokens = Tokens::new(alloc);
    let mut alone = false;
    loop {
        let (found, rest) = scan_next(alloc, alone, z)?;
        alone = false;
        if let Some(kind) = found {
            if is_end(&kind) {
                tokens.push(token_at(total, z, rest, kind))?;
                return Ok((tokens, rest));
            }
            admit(tokens.len(), z, rest, &kind)?;
            alone = is_operator(&kind);
            tokens.push(token_at(total, z, rest, kind))?;
        }
        z = rest;
    }
}

/// The place of a trouble, in a whole of `total` bytes.
fn fault_of(total: usize, trouble: ScanError) -> LexFault
    ensures { result ≡ meaning.fault_of total trouble }
{
    match trouble {
        ScanError::BadByte { left } => LexFault::BadByte {
            at: total.saturating_sub(left) as u64,
        },
        ScanError::Unclosed { left } => LexFault::Unclosed {
            start: total.saturating_sub(left) as u64,
        },
        ScanError::TooManyTokens { left } => LexFault::TooManyTokens {
            at: total.saturating_sub(left) as u64,
        },
        ScanError::Memory => LexFault::Memory,
    }
}

/// The tokens of the statement that begins at `from`, as the function on lists gives them.
#[tactic(auto, unfolding(crate::specs::Lexed::lexed))]
fn answer(alloc: Global, text: &[u8], from: u64) -> Result<Lexed, LexFault>
    requires within { from ≤ length text.now }
    requires fits { length text.now < 2 ^ 32 }
    ensures { told.Answers result (told.lexed text.now from) }
{
    let total = text.len();
    match statement(alloc, total, &text[from as usize..]) {
        Ok((tokens, rest)) => Ok(Lexed {
            tokens,
            next: (total - rest.len()) as u64,
        }),
        Err(trouble) => Err(fault_of(total, trouble)),
    }
}

/// The tokens of the statement that begins at `from`.
pub fn lex(alloc: Global, text: &[u8], from: u64) -> Result<Lexed, LexFault>
    requires within { from ≤ length text.now }
    requires fits { length text.now < 2 ^ 32 }
    // What is answered is what the statement is.
    ensures right { IsRight text.now from result }
    // The statement is nothing else, and what it is is answered, unless memory ran out.
    ensures only { (answer : meaning.Answer) → IsAnswer text.now from answer → told.Answers result answer }
    // The answer is told by a function of the text.
    ensures value { told.Answers result (told.lexed text.now from) }
    // An End stands behind tokens that are none.
    ensures ends { IfOk result (λ l. is_ended (all_placed l.tokens) ≡ true) }
    // A number isn't negative, and a whole one has no decimals.
    ensures plain { IfOk result (λ l. are_plain (all_placed l.tokens) ≡ true) }
    // Each statement takes a byte of the text, as long as there is one.
    ensures within { IfOk result (λ l. l.next ≤ length text.now) }
    ensures behind { IfOk result (λ l. from < length text.now → from < l.next) }
{
    answer(alloc, text, from)
}
