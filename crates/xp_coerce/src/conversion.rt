//! Conversions of trees.
ghost use Rattle.std.specs.Prelude.{◌≡◌, IfOk, true};
ghost use Rattle.xp_base.specs.OrMemory.{OrMemory};
ghost use Rattle.xp_bodies.specs.Fits.{IsFitted};
ghost use Rattle.xp_types.specs.Within.{IsType};
ghost use Rattle.xp_tree.specs.Term.{type_of};
ghost use Rattle.xp_coerce.specs.Asked.{AreTruths, IsSource};
ghost use Rattle.xp_coerce.specs.Coerced.{coerced, is_memory};
ghost use Rattle.xp_named.specs.Modifiers.{takes_modifier};
ghost use Rattle.xp_coerce.specs.Types.{node_type};

use crate::along::{converted, sized};
use crate::domains::guarded;
use crate::fault::CoerceFault;
use std::alloc::Global;
use xp_base::TypeNo;
use xp_catalog::{Catalog, Context};
use xp_tree::{Checks, Modifier, Tree};

/// The tree whose value is that of `t` as the target's, along the path between the types in that
/// context. A longer text than the modifier allows is cut by an explicit cast alone. The NOT NULL and
/// the check of a domain stand on top. `t` is given up on a refusal.
pub fn coerce(
    alloc: Global,
    c: &Catalog,
    k: &Checks,
    t: Tree,
    target: TypeNo,
    modifier: Modifier,
    context: Context,
) -> Result<Tree, CoerceFault>
    requires fitted { IsFitted c.now }
    requires checks { AreTruths k.now }
    requires source { IsSource c.now t }
    requires target { IsType c.now target }
    requires modifier { takes_modifier c.now target modifier ≡ true }
    ensures value { OrMemory is_memory (coerced c.now k.now t target modifier context) result }
    ensures typed { IfOk result (λ a. type_of a ≡ node_type c.now target) }
{
    // the rules of records say which types have the names of those that take modifiers
    c.is_well_formed_law();
    let converted = converted(alloc, c, t, target, context)?;
    let sized = sized(alloc, converted, modifier, context)?;
    Ok(guarded(alloc, c, k, sized, target)?)
}
