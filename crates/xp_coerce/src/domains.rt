//! Domains, which look at values (manual, CREATE DOMAIN).
ghost use Rattle.std.specs.Prelude.{◌≡◌, IfOk, IfSome};
ghost use Rattle.xp_types.specs.Within.{IsType};
ghost use Rattle.xp_tree.specs.Checked.{check_of};
ghost use Rattle.xp_tree.specs.Term.{type_of};
ghost use Rattle.xp_tree.specs.Typed.{IsBool, IsTyped};
ghost use Rattle.xp_coerce.specs.Asked.{AreTruths};
ghost use Rattle.xp_coerce.specs.Coerced.{guarded};
ghost use Rattle.xp_coerce.specs.Types.{node_type};
ghost use Rattle.xp_coerce.specs.inner.Alike.{IsAlike};

use crate::types::node_type;
use std::alloc::Global;
use xp_base::{Memory, RowNo, TypeNo};
use xp_catalog::{Catalog, TypeKind};
use xp_tree::{Checks, Tree};

/// A copy of the domain's check, where it has one.
#[tactic(auto, using(crate::proofs::Guards::found_truth))]
fn check_of(alloc: Global, k: &Checks, domain: RowNo) -> Result<Option<Tree>, Memory>
    requires { AreTruths k.now }
    ensures value { IfOk result (λ check. check ≡ check_of k.now domain) }
    ensures typed { IfOk result (λ check. IfSome check IsTyped) }
    ensures truth { IfOk result (λ check. IfSome check (λ t. IsBool (type_of t))) }
{
    match k.check_of(domain) {
        Some(check) => {
            check.is_typed_law();
            Ok(Some(check.copy(alloc)?))
        }
        None => Ok(None),
    }
}

/// The tree under the NOT NULL and the check of the domain, where the type is one.
pub fn guarded(
    alloc: Global,
    c: &Catalog,
    k: &Checks,
    t: Tree,
    target: TypeNo,
) -> Result<Tree, Memory>
    requires checks { AreTruths k.now }
    requires target { IsType c.now target }
    requires alike { IsAlike c.now target (type_of t) }
    ensures value { IfOk result (λ a. a ≡ guarded c.now k.now target t) }
    ensures typed { IfOk result (λ a. type_of a ≡ node_type c.now target) }
{
    t.is_typed_law();
    match c.type_row(target).kind {
        TypeKind::Domain { row } => {
            let not_null = c.domain_row(row).not_null;
            let check = check_of(alloc, k, row)?;
            Tree::make_domain(alloc, t, row, not_null, check, node_type(c, target))
        }
        _ => Ok(t),
    }
}
