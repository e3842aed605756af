//! The expression that the text of a check is.
ghost use Rattle.std.specs.Prelude.{◌≡◌, IfOk, option_map};
ghost use Rattle.xp_token.specs.Lexemes.{all_placed};
ghost use Rattle.xp_analyse.specs.Checks as spec;

use std::alloc::Global;
use xp_base::{Byts, Memory};
use xp_grammar::{Ast, Statement};
use xp_token::Tokens;

/// The statement that describes the expression.
pub fn statement_text(alloc: Global, check: &[u8]) -> Result<Byts, Memory>
    ensures { IfOk result (λ text. text ≡ spec.statement_text check.now) }
{
    let mut text = Byts::new(alloc);
    text.append(b"DESCRIBE ")?;
    text.append(check)?;
    Ok(text)
}

/// The expression, where DESCRIBE has one alone.
pub fn described_one(statement: &Statement) -> Option<&Ast>
    ensures { option_map (λ e. e.now) result ≡ spec.described_one statement.now }
{
    match statement {
        Statement::Describe { exprs, .. } => match exprs.as_slice() {
            [expression] => Some(expression),
            _ => None,
        },
        Statement::Select { .. }
        | Statement::UnionAll { .. }
        | Statement::Values { .. }
        | Statement::Store { .. }
        | Statement::Explain { .. }
        | Statement::ExplainAnalyze { .. } => None,
    }
}

/// Whether the End stands behind a text of that many bytes, and for no `;`.
#[tactic(auto, using(crate::proofs::CheckTexts::last_ends))]
pub fn ends_behind(tokens: &Tokens, end: u64) -> bool
    ensures { result ≡ spec.ends_behind end (all_placed tokens.now) }
{
    match tokens.as_slice().last() {
        Some(last) => u64::from(last.span.start) == end,
        None => false,
    }
}
