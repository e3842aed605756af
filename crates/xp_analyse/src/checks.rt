//! The checks of a catalogue's domains (manual, CREATE DOMAIN).
ghost use Rattle.std.specs.Prelude.{◌≡◌, ◌+◌, IfOk, IfSome, option_and_then, true};
ghost use Rattle.xp_base.specs.OrMemory.{OrMemory};
ghost use Rattle.xp_bodies.specs.Fits.{IsFitted};
ghost use Rattle.xp_coerce.specs.Asked.{AreTruths, IsSource};
ghost use Rattle.xp_parser.specs.Parses.{ends_in_end};
ghost use Rattle.xp_token.specs.Lexemes.{all_placed};
ghost use Rattle.xp_tree.specs.Term.{type_of};
ghost use Rattle.xp_tree.specs.Typed.{IsBool};
ghost use Rattle.xp_resolve.specs.inner.Sources.{IsScene, IsValued};
ghost use Rattle.xp_analyse.specs.Checks as spec;
ghost use Rattle.xp_analyse.specs.inner.Ahead.{AreBelow};

use crate::domains::has_domain;
use crate::fault::CheckFault;
use crate::texts::{described_one, ends_behind, statement_text};
use std::alloc::Global;
use xp_base::{Memory, RowNo, SCRIPT_LIMIT, TypeNo};
use xp_catalog::{Catalog, DomainRow, Header};
use xp_eval::is_evaluable;
use xp_expressions::{nothing_yet, resolve};
use xp_grammar::Ast;
use xp_lexer::{LexFault, lex};
use xp_parser::{ParseFault, parse};
use xp_resolve::{Refusal, Scene};
use xp_token::Tokens;
use xp_tree::{Checks, Tree};

/// Whether the type is that of truth values.
fn is_truth(c: &Catalog, ty: TypeNo) -> bool
    ensures { result ≡ spec.is_truth c.now ty }
{
    match c.type_named("bool") {
        Some(truth) => ty == truth,
        None => false,
    }
}

/// Whether the tree may be a check.
fn may_check(c: &Catalog, tree: &Tree) -> bool
    ensures { result ≡ spec.may_check c.now tree.now }
{
    is_truth(c, tree.type_of()) && !has_domain(tree) && is_evaluable(tree)
}

/// The tree, where it may be a check.
#[tactic(auto, using(crate::proofs::Truths::check_truth))]
fn kept(c: &Catalog, tree: Tree) -> Option<Tree>
    requires { IsSource c.now tree }
    ensures value { result ≡ spec.kept c.now tree }
    ensures truth { IfSome result (λ check. IsBool (type_of check)) }
{
    // the rules of records say how values of the type named bool are kept
    c.is_well_formed_law();
    if may_check(c, &tree) {
        Some(tree)
    } else {
        None
    }
}

/// The tree of the expression, where it may be a check.
fn check_tree(alloc: Global, scene: &Scene<'_>, expression: &Ast) -> Result<Option<Tree>, Memory>
    requires { IsScene scene.now }
    ensures value { IfOk result (λ check. check ≡ spec.check_tree scene.now expression.now) }
    ensures truth { IfOk result (λ check. IfSome check (λ t. IsBool (type_of t))) }
{
    match resolve(alloc, scene, expression, nothing_yet(alloc)) {
        Ok(made) => Ok(kept(scene.catalog(), made.part.tree)),
        Err(Refusal::At { .. }) => Ok(None),
        Err(Refusal::Memory) => Err(Memory),
    }
}

/// The tree of what the tokens of a text of that many bytes describe, where it may be a check.
fn check_of_tokens(
    alloc: Global,
    scene: &Scene<'_>,
    tokens: &Tokens,
    end: u64,
) -> Result<Option<Tree>, Memory>
    requires scene { IsScene scene.now }
    requires ends { ends_in_end tokens.now ≡ true }
    ensures value { IfOk result (λ check. check ≡ option_and_then (spec.check_tree scene.now) (spec.one_of_tokens end (all_placed tokens.now))) }
    ensures truth { IfOk result (λ check. IfSome check (λ t. IsBool (type_of t))) }
{
    if !ends_behind(tokens, end) {
        return Ok(None);
    }
    match parse(alloc, tokens) {
        Ok(statement) => match described_one(&statement) {
            Some(expression) => check_tree(alloc, scene, expression),
            None => Ok(None),
        },
        Err(ParseFault::Syntax { .. }) => Ok(None),
        Err(ParseFault::TooDeep { .. }) => Ok(None),
        Err(ParseFault::Memory) => Err(Memory),
    }
}

/// The tree of what the text describes, where it may be a check.
fn check_of_text(alloc: Global, scene: &Scene<'_>, text: &[u8]) -> Result<Option<Tree>, Memory>
    requires { IsScene scene.now }
    ensures value { IfOk result (λ check. check ≡ option_and_then (spec.check_tree scene.now) (spec.expression_of text.now)) }
    ensures truth { IfOk result (λ check. IfSome check (λ t. IsBool (type_of t))) }
{
    let end = text.len() as u64;
    if end > SCRIPT_LIMIT {
        return Ok(None);
    }
    match lex(alloc, text, 0) {
        Ok(lexed) => check_of_tokens(alloc, scene, &lexed.tokens, end),
        Err(
            LexFault::BadByte { .. } | LexFault::Unclosed { .. } | LexFault::TooManyTokens { .. },
        ) => Ok(None),
        Err(LexFault::Memory) => Err(Memory),
    }
}

/// The domain's check, where it is one.
fn check_of(
    alloc: Global,
    c: &Catalog,
    before: &Checks,
    domain: &DomainRow,
) -> Result<Option<Tree>, Memory>
    requires fitted { IsFitted c.now }
    requires before { AreTruths before.now }
    requires base { IsValued c.now domain.now.base }
    ensures value { IfOk result (λ check. check ≡ spec.check_of c.now before.now domain.now) }
    ensures truth { IfOk result (λ check. IfSome check (λ t. IsBool (type_of t))) }
{
    let text = statement_text(alloc, domain.check.as_slice())?;
    let columns = Header::new(alloc);
    let scene = Scene::of_check(c, before, &columns, domain.base);
    check_of_text(alloc, &scene, text.as_slice())
}

/// The checks with that of the domain, where it has a text for one.
fn with_check(
    alloc: Global,
    c: &Catalog,
    before: Checks,
    number: RowNo,
    domain: &DomainRow,
) -> Result<Checks, CheckFault>
    requires fitted { IsFitted c.now }
    requires before { AreTruths before }
    requires below { AreBelow number.0 before }
    requires base { IsValued c.now domain.now.base }
    ensures value { OrMemory spec.is_memory (spec.with_check c.now before number domain.now) result }
    ensures truths { IfOk result AreTruths }
    ensures below { IfOk result (AreBelow (number.0 + 1)) }
{
    if domain.check.as_slice().is_empty() {
        return Ok(before);
    }
    match check_of(alloc, c, &before, domain)? {
        Some(check) => Ok(before.add(number, check)?),
        None => Err(CheckFault::BadCheck { line: domain.line }),
    }
}

/// The checks of the catalogue's domains as trees over VALUE, or the first domain whose check is
/// refused: its text is no expression, or one that isn't of type bool, looks at a domain, or can't
/// be evaluated.
pub fn prepare(alloc: Global, c: &Catalog) -> Result<Checks, CheckFault>
    requires { IsFitted c.now }
    ensures value { OrMemory spec.is_memory (spec.prepared c.now) result }
    ensures truths { IfOk result AreTruths }
{
    // the rules of records say that a domain is over a type of values
    c.is_well_formed_law();
    let mut checks = Checks::new(alloc);
    for number in 0..c.counts().domains {
        let row = RowNo(number);
        checks = with_check(alloc, c, checks, row, c.domain_row(row))?;
    }
    Ok(checks)
}
