//! Analyses a statement: from its tokens to what it answers.
ghost use Rattle.std.specs.Prelude.{◌≡◌, IfOk, Some, option_map, true};
ghost use Rattle.xp_token.specs.Lexemes.{all_placed};
ghost use Rattle.xp_parser.specs.Parses.{ends_in_end, parsed};
ghost use Rattle.xp_analyse.specs.Statements.{is_evaluated};
ghost use Rattle.xp_run.specs.Script.{parsed_answer, statement_answer, tokens_answer};
ghost use Rattle.xp_run.specs.inner.Analyses.{AreReadied, IsReady, answer_of};
ghost use Rattle.xp_run.specs.inner.Usable.{AreUsable};

use crate::inputs::Inputs;
use std::alloc::Global;
use xp_analyse::{Refusal, Typed, analyse};
use xp_base::{Code, Memory};
use xp_grammar::Statement;
use xp_parser::{ParseFault, parse};
use xp_token::Tokens;

/// What a statement answers, before it is evaluated.
#[derive(Drop)]
pub enum Analysis {
    /// Why it is refused, and the byte of the script where.
    Refused { code: Code, at: u64 },
    Described(Typed),
    /// Its trees are to be evaluated.
    Evaluated(Typed),
}

/// Whether the trees of the statement are to be evaluated.
fn is_evaluated(statement: &Statement) -> bool
    ensures { result ≡ is_evaluated statement.now }
{
    !matches!(statement, Statement::Describe { .. })
}

/// Analyses a statement over what the run works on.
fn analyse_statement(
    alloc: Global,
    inputs: &Inputs,
    statement: &Statement,
) -> Result<Analysis, Memory>
    requires { AreUsable inputs.now }
    ensures value { IfOk result (λ analysis. Some (answer_of inputs.now.rows analysis) ≡ statement_answer inputs.now statement.now) }
    ensures ready { IfOk result IsReady }
{
    match analyse(
        alloc,
        &inputs.catalog,
        &inputs.checks,
        &inputs.header,
        statement,
    ) {
        Ok(typed) if is_evaluated(statement) => Ok(Analysis::Evaluated(typed)),
        Ok(typed) => Ok(Analysis::Described(typed)),
        Err(Refusal::At { code, at }) => Ok(Analysis::Refused { code, at }),
        Err(Refusal::Memory) => Err(Memory),
    }
}

pub fn refused(code: Code, at: u64) -> Analysis
    ensures { result ≡ Analysis.Refused code at }
{
    Analysis::Refused { code, at }
}

/// Analyses what the tokens of a statement say.
fn analyse_tokens(alloc: Global, inputs: &Inputs, tokens: &Tokens) -> Result<Analysis, Memory>
    requires usable { AreUsable inputs.now }
    requires ends { ends_in_end tokens.now ≡ true }
    ensures value { IfOk result (λ analysis. Some (answer_of inputs.now.rows analysis) ≡ parsed_answer inputs.now (parsed tokens.now)) }
    ensures ready { IfOk result IsReady }
{
    match parse(alloc, tokens) {
        Ok(statement) => {
            let analysis = analyse_statement(alloc, inputs, &statement);
            drop(statement);
            analysis
        }
        Err(ParseFault::Syntax { at }) => Ok(refused(Code::Syntax, u64::from(at))),
        Err(ParseFault::TooDeep { at }) => Ok(refused(Code::TooDeep, u64::from(at))),
        Err(ParseFault::Memory) => Err(Memory),
    }
}

/// Analyses what the tokens say, if there is one before the End.
pub fn analyse_some(
    alloc: Global,
    inputs: &Inputs,
    tokens: &Tokens,
) -> Result<Option<Analysis>, Memory>
    requires usable { AreUsable inputs.now }
    requires ends { ends_in_end tokens.now ≡ true }
    ensures value { IfOk result (λ analysis. option_map (answer_of inputs.now.rows) analysis ≡ tokens_answer inputs.now (all_placed tokens.now)) }
    ensures ready { IfOk result AreReadied }
{
    if tokens.len() == 1 {
        return Ok(None);
    }
    Ok(Some(analyse_tokens(alloc, inputs, tokens)?))
}
