//! What the statements of a script answer, one after the other.
ghost use Rattle.std.specs.Prelude.{◌≡◌, ◌<◌, ◌≤◌, ◌^◌, ℕ, suc, length, option_map, IfOk};
ghost use Rattle.xp_run.specs.Script.{answers_from, with_first};
ghost use Rattle.xp_run.specs.inner.Analyses.{AreReadied, answer_of};
ghost use Rattle.xp_run.specs.inner.Usable.{AreUsable};

use crate::analysis::{Analysis, analyse_some, refused};
use crate::inputs::Inputs;
use std::alloc::Global;
use xp_base::{Code, Memory};
use xp_lexer::{LexFault, lex};

/// What analysis makes of the statement at a place, if one stands there, and the place behind it.
#[derive(Drop)]
pub struct NextStatement {
    pub analysis: Option<Analysis>,
    pub next: u64,
}

/// Analyses the statement that begins at this byte of the script. Behind a lexical fault the script
/// is at its end.
pub fn next_statement(alloc: Global, inputs: &Inputs, at: u64) -> Result<NextStatement, Memory>
    requires usable { AreUsable inputs.now }
    requires within { at < length inputs.now.script }
    requires fits { length inputs.now.script < 2 ^ 32 }
    ensures answers { IfOk result (λ read. (n : ℕ) → answers_from (suc n) inputs.now at ≡ with_first (option_map (answer_of inputs.now.rows) read.analysis) (answers_from n inputs.now read.next)) }
    ensures ready { IfOk result (λ read. AreReadied read.analysis) }
    ensures behind { IfOk result (λ read. at < read.next) }
    ensures within { IfOk result (λ read. read.next ≤ length inputs.now.script) }
{
    let script = inputs.script.as_slice();
    let end = script.len() as u64;
    let (analysis, next) = match lex(alloc, script, at) {
        Ok(lexed) => (analyse_some(alloc, inputs, &lexed.tokens)?, lexed.next),
        Err(LexFault::BadByte { at }) => (Some(refused(Code::BadByte, at)), end),
        Err(LexFault::Unclosed { start }) => (Some(refused(Code::Unclosed, start)), end),
        Err(LexFault::TooManyTokens { at }) => (Some(refused(Code::TooManyTokens, at)), end),
        Err(LexFault::Memory) => return Err(Memory),
    };
    Ok(NextStatement { analysis, next })
}
