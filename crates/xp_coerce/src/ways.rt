//! How values are converted along paths.
ghost use Rattle.std.specs.Prelude.{◌≡◌, ◌<◌, [], ◌∷◌, IfOk, Some, length, option_map, slice_get};
ghost use Rattle.xp_types.specs.Within.{HasCast, IsType};
ghost use Rattle.xp_types.specs.declared.paths.PathKind.TheVariants.{Cast};
ghost use Rattle.xp_tree.specs.Typed.{IsTyped};
ghost use Rattle.xp_coerce.specs.Ways.{cast_callee, converted_by, element_way, func_callee, way_of};

use sqlite_items::Items;
use std::alloc::Global;
use xp_base::{Memory, RowNo, TypeNo};
use xp_catalog::{CastMethod, Catalog, Context, Volatility};
use xp_tree::{Callee, NodeType, Tree, Trees, Way};
use xp_types::{PathKind, base, element, path};

/// A call of the function of that row.
pub fn callee_of(c: &Catalog, row: RowNo) -> Callee
    requires { row.0 < length c.now.funcs }
    ensures { option_map (func_callee row) (slice_get c.now.funcs row.0) ≡ Some result }
{
    let func = c.func_row(row);
    Callee {
        row,
        from_cast: false,
        body: func.body,
        strict: func.strict,
        volatility: func.volatility,
    }
}

/// A call of a cast that has no function.
fn cast_callee(row: RowNo) -> Callee
    ensures { result ≡ cast_callee row }
{
    Callee {
        row,
        from_cast: true,
        body: None,
        strict: true,
        volatility: Volatility::Immutable,
    }
}

fn way_of_cast(c: &Catalog, row: RowNo) -> Way
    requires { row.0 < length c.now.casts }
    ensures { result ≡ way_of c.now (Cast row) }
{
    match c.cast_row(row).method {
        CastMethod::Binary => Way::ByRelabel,
        CastMethod::None => Way::ByBody(cast_callee(row)),
        CastMethod::Function(number) => Way::ByBody(callee_of(c, number)),
    }
}

/// How the path converts a value.
pub fn way_of(c: &Catalog, path: PathKind) -> Way
    requires { HasCast c.now path }
    ensures { result ≡ way_of c.now path }
{
    match path {
        PathKind::Cast(row) => way_of_cast(c, row),
        PathKind::ByOutput => Way::ByOutput,
        PathKind::ByInput => Way::ByInput,
        _ => Way::ByRelabel,
    }
}

/// How the elements of one array type become those of another.
pub fn element_way(c: &Catalog, s: TypeNo, t: TypeNo, context: Context) -> Way
    requires s { IsType c.now s }
    requires t { IsType c.now t }
    ensures { result ≡ element_way c.now s t context }
{
    match (element(c, base(c, s)), element(c, base(c, t))) {
        (Some(from), Some(to)) => way_of(c, path(c, from, to, context)),
        _ => Way::ByRelabel,
    }
}

/// A list of one tree.
fn only(alloc: Global, t: Tree) -> Result<Trees, Memory>
    ensures { IfOk result (λ list. list ≡ t ∷ []) }
{
    let mut list = Items::new(alloc);
    list.push(t)?;
    Ok(list)
}

/// The node of that type that converts the tree's value in this way.
pub fn converted_by(alloc: Global, way: Way, t: Tree, ty: NodeType) -> Result<Tree, Memory>
    requires { IsTyped (converted_by way t ty) }
    ensures { IfOk result (λ a. a ≡ converted_by way t ty) }
{
    match way {
        Way::ByBody(callee) => Tree::make_call(alloc, callee, only(alloc, t)?, ty),
        Way::ByOutput => Tree::make_output(alloc, t, ty),
        Way::ByInput => Tree::make_input(alloc, t, ty),
        Way::ByRelabel => Tree::make_relabel(alloc, t, ty),
    }
}
