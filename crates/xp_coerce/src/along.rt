//! Conversions along paths.
ghost use Rattle.std.specs.Prelude.{◌≡◌, IfOk, true};
ghost use Rattle.xp_base.specs.OrMemory.{OrMemory};
ghost use Rattle.xp_bodies.specs.Fits.{IsFitted};
ghost use Rattle.xp_catalog.specs.declared.rows.Context.{Context};
ghost use Rattle.xp_types.specs.Within.{IsType};
ghost use Rattle.xp_tree.specs.Term.{type_of};
ghost use Rattle.xp_tree.specs.Typed.{takes_modifier};
ghost use Rattle.xp_coerce.specs.Asked.{IsSource};
ghost use Rattle.xp_coerce.specs.Coerced.{converted, cuts, is_memory, sized};
ghost use Rattle.xp_coerce.specs.inner.Alike.{IsAlike};

use crate::fault::CoerceFault;
use crate::literals::read;
use crate::types::node_type;
use crate::ways::{converted_by, element_way, way_of};
use std::alloc::Global;
use xp_base::{Memory, TypeNo};
use xp_catalog::{Catalog, Context};
use xp_tree::{Modifier, Tree};
use xp_types::{PathKind, base, path};

/// The tree along the path to the target, which of a domain is the path to its base.
pub fn converted(
    alloc: Global,
    c: &Catalog,
    t: Tree,
    target: TypeNo,
    context: Context,
) -> Result<Tree, CoerceFault>
    requires fitted { IsFitted c.now }
    requires source { IsSource c.now t }
    requires target { IsType c.now target }
    ensures value { OrMemory is_memory (converted c.now t target context) result }
    ensures alike { IfOk result (λ a. IsAlike c.now target (type_of a)) }
{
    // what the rules of records say of the path's types, and what the tree's nodes ask for
    c.is_well_formed_law();
    t.is_typed_law();
    let from = t.type_of();
    let to = base(c, target);
    match path(c, from, target, context) {
        PathKind::Literal => read(alloc, c, t, to),
        PathKind::Same => Ok(t),
        PathKind::Elements => {
            let way = element_way(c, from, to, context);
            Ok(Tree::make_elements(alloc, t, way, node_type(c, to))?)
        }
        PathKind::NoPath => Err(CoerceFault::CannotCoerce { from, to: target }),
        found => {
            let way = way_of(c, found);
            Ok(converted_by(alloc, way, t, node_type(c, to))?)
        }
    }
}

/// Whether a longer text is cut.
fn cuts(context: Context) -> bool
    ensures { result ≡ cuts context }
{
    context == Context::Explicit
}

/// The tree brought to the modifier, where there is one.
pub fn sized(alloc: Global, t: Tree, modifier: Modifier, context: Context) -> Result<Tree, Memory>
    requires { takes_modifier (type_of t) modifier ≡ true }
    ensures value { IfOk result (λ a. a ≡ sized modifier context t) }
    ensures typed { IfOk result (λ a. type_of a ≡ type_of t) }
{
    t.is_typed_law();
    let ty = t.node_type();
    match modifier {
        Modifier::None => Ok(t),
        _ => Tree::make_sizing(alloc, t, modifier, cuts(context), ty),
    }
}
