//! The checks of domains. No expression is read here, so the check of each domain that has one is
//! `VALUE IS NULL`.
ghost use Rattle.std.specs.Prelude.{◌≡◌, ◌<◌, IfOk, None, length};
ghost use Rattle.xp_tree.specs.Checked.{check_of};
ghost use Rattle.xp_tree.specs.Term.{type_of};
ghost use Rattle.xp_tree.specs.Typed.{IsBool};
ghost use Rattle.xp_coerce.specs.Asked.{AreTruths};

use anyhow::{Result, bail, ensure};
use std::alloc::Global;
use xp_base::{Memory, RowNo};
use xp_catalog::Catalog;
use xp_coerce::node_type;
use xp_tree::{Checks, Tree};
use xp_value::Rep;

fn check(alloc: Global, c: &Catalog, domain: RowNo) -> Result<Tree>
    requires { domain.0 < length c.now.domains }
    ensures { IfOk result (λ t. IsBool (type_of t)) }
{
    let Some(truth) = c.type_named("bool") else {
        bail!("bool is wanted");
    };
    let ty = node_type(c, truth);
    ensure!(ty.rep == Rep::Bool, "bool is wanted");
    let value = Tree::make_given(alloc, node_type(c, c.domain_row(domain).base))?;
    Ok(Tree::make_isnull(alloc, value, ty)?)
}

/// The checks with that of one more domain.
#[tactic(auto, using(crate::proofs::Truths::truths_more))]
fn added(checks: Checks, domain: RowNo, check: Tree) -> Result<Checks, Memory>
    requires new { check_of checks domain ≡ None }
    requires truths { AreTruths checks }
    requires truth { IsBool (type_of check) }
    ensures { IfOk result AreTruths }
{
    checks.add(domain, check)
}

fn with_check(alloc: Global, c: &Catalog, checks: Checks, domain: RowNo) -> Result<Checks>
    requires domain { domain.0 < length c.now.domains }
    requires truths { AreTruths checks }
    ensures { IfOk result AreTruths }
{
    if c.domain_row(domain).check.as_slice().is_empty() {
        return Ok(checks);
    }
    ensure!(checks.check_of(domain).is_none(), "the domain has a check");
    let check = check(alloc, c, domain)?;
    Ok(added(checks, domain, check)?)
}

/// The checks of all domains.
pub fn checks_of(alloc: Global, c: &Catalog) -> Result<Checks>
    ensures { IfOk result AreTruths }
{
    let mut checks = Checks::new(alloc);
    for domain in 0..c.counts().domains {
        checks = with_check(alloc, c, checks, RowNo(domain))?;
    }
    Ok(checks)
}
