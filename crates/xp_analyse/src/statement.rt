//! Statements.
ghost use Rattle.std.specs.Prelude.{◌≡◌, ◌≤◌, [], IfOk, length, map, true};
ghost use Rattle.std.specs.List.{All};
ghost use Rattle.xp_base.specs.OrMemory.{OrMemory};
ghost use Rattle.xp_base.specs.declared.limits.TheConstants.{COLUMN_LIMIT};
ghost use Rattle.xp_bodies.specs.Fits.{IsFitted};
ghost use Rattle.xp_call.specs.Calls.{is_built};
ghost use Rattle.xp_coerce.specs.Asked.{AreTruths};
ghost use Rattle.xp_meaning.specs.Evaluable.{all_evaluable};
ghost use Rattle.xp_named.specs.Columns.{AreColumns};
ghost use Rattle.xp_resolve.specs.inner.Sources.{IsScene};
ghost use Rattle.xp_resolve.specs.Made.{is_memory};
ghost use Rattle.xp_tree.specs.Term.{terms};
ghost use Rattle.xp_analyse.specs.Lists.{lists_of};
ghost use Rattle.xp_analyse.specs.Statements as spec;
ghost use Rattle.xp_analyse.specs.inner.Views.{lists_in};

use crate::gather::gather;
use crate::joined::joined;
use crate::lists::ExpressionLists;
use crate::ready::{some_unready, typed_of};
use crate::settle::all_settled;
use crate::store::store;
use crate::typed::Typed;
use crate::untyped::left_without_text;
use sqlite_items::Items;
use std::alloc::Global;
use xp_base::Code;
use xp_catalog::{Catalog, Header};
use xp_grammar::Statement;
use xp_resolve::{Refusal, Scene, Uses, refused};
use xp_tree::{Checks, Trees};

/// The first byte of the statement's first token.
fn place_of(s: &Statement) -> u64
    ensures { result ≡ spec.place_of s.now }
{
    let at = match s {
        Statement::Select { at, .. }
        | Statement::UnionAll { at, .. }
        | Statement::Values { at, .. }
        | Statement::Store { at, .. }
        | Statement::Describe { at, .. }
        | Statement::Explain { at, .. }
        | Statement::ExplainAnalyze { at, .. } => at,
    };
    u64::from(at.start)
}

/// Whether the trees of the statement are to be evaluated.
fn is_evaluated(s: &Statement) -> bool
    ensures { result ≡ spec.is_evaluated s.now }
{
    !matches!(s, Statement::Describe { .. })
}

/// Whether each row is gone through.
fn is_over_rows(s: &Statement) -> bool
    ensures { result ≡ spec.is_over_rows s.now }
{
    !matches!(s, Statement::Values { .. })
}

/// The columns that the statement sees: all of them, or none.
fn columns_seen<'a>(s: &Statement, columns: &'a Header, none: &'a Header) -> &'a Header
    requires { none.now ≡ [] }
    ensures { result.now ≡ spec.columns_seen s.now columns.now }
{
    if matches!(s, Statement::Values { .. }) {
        none
    } else {
        columns
    }
}

/// The lists of trees, which have to be ready where they are to be evaluated.
fn readied(
    alloc: Global,
    s: &Statement,
    lists: ExpressionLists<'_>,
    uses: Uses,
    trees: Items<Trees>,
) -> Result<Typed, Refusal>
    requires lists { lists_in lists ≡ lists_of s.now }
    requires shape { map length trees ≡ map length (lists_of s.now) }
    ensures value { OrMemory is_memory (spec.readied s.now uses trees) result }
    ensures ready { spec.is_evaluated s.now ≡ true → IfOk result (λ typed. All (λ arm. all_evaluable is_built (terms arm.trees) ≡ true) typed.arms) }
{
    if is_evaluated(s) {
        if let Some(at) = some_unready(lists, trees.as_slice()) {
            return refused(Code::NoBody, at);
        }
    }
    Ok(typed_of(alloc, is_over_rows(s), uses, trees)?)
}

/// A statement over lists of expressions.
fn analyse_lists(alloc: Global, scene: &Scene<'_>, s: &Statement) -> Result<Typed, Refusal>
    requires { IsScene scene.now }
    ensures value { OrMemory is_memory (spec.analysed_lists scene.now s.now) result }
    ensures ready { spec.is_evaluated s.now ≡ true → IfOk result (λ typed. All (λ arm. all_evaluable is_built (terms arm.trees) ≡ true) typed.arms) }
{
    let lists = ExpressionLists::of(s);
    let made = gather(alloc, scene, lists)?;
    let table = joined(alloc, scene, s, made.progress.nodes, made.lists)?;
    if let Some(at) = left_without_text(scene.catalog(), lists) {
        return refused(Code::UnknownType, at);
    }
    let all = all_settled(alloc, scene, table)?;
    readied(alloc, s, lists, made.progress.uses, all.lists)
}

/// Analyses a statement over the catalogue, the checks of its domains and the columns of the rows.
/// The trees of a statement other than DESCRIBE can be evaluated.
#[tactic(auto, unfolding(crate::specs::Statements::analysed))]
pub fn analyse(
    alloc: Global,
    c: &Catalog,
    k: &Checks,
    h: &Header,
    s: &Statement,
) -> Result<Typed, Refusal>
    requires fitted { IsFitted c.now }
    requires checks { AreTruths k.now }
    requires columns { AreColumns c.now h.now }
    requires few { length h.now ≤ COLUMN_LIMIT }
    ensures value { OrMemory is_memory (spec.analysed c.now k.now h.now s.now) result }
    ensures ready { spec.is_evaluated s.now ≡ true → IfOk result (λ typed. All (λ arm. all_evaluable is_built (terms arm.trees) ≡ true) typed.arms) }
{
    let none = Header::new(alloc);
    let scene = Scene::new(c, k, columns_seen(s, h, &none), place_of(s));
    match s {
        Statement::Select { .. }
        | Statement::UnionAll { .. }
        | Statement::Values { .. }
        | Statement::Describe { .. } => analyse_lists(alloc, &scene, s),
        Statement::Store { target, source, .. } => store(alloc, &scene, target, source),
        Statement::Explain { .. } | Statement::ExplainAnalyze { .. } => {
            refused(Code::NotBuilt, scene.start())
        }
    }
}
