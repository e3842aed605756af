//! A call that stands for a cast.
ghost use Rattle.std.specs.Prelude.{◌≡◌, ◌<◌, IfSome, length};
ghost use Rattle.xp_types.specs.Within.{AreTypes};
ghost use Rattle.xp_func.specs.Request.{cast_request, is_binary, is_castable};

use xp_base::{RowNo, TypeNo};
use xp_catalog::{CastMethod, Catalog, Context, TypeKind};
use xp_types::{PathKind, path};

fn is_binary(c: &Catalog, row: RowNo) -> bool
    requires { row.0 < length c.now.casts }
    ensures { result ≡ is_binary c.now row }
{
    c.cast_row(row).method == CastMethod::Binary
}

/// Whether the explicit path is that of an unknown literal, without a function, or through text.
fn is_castable(c: &Catalog, input: TypeNo, ty: TypeNo) -> bool
    requires input { input.0 < length c.now.types }
    requires ty { ty.0 < length c.now.types }
    ensures { result ≡ is_castable c.now input ty }
{
    if matches!(c.type_row(ty).kind, TypeKind::Pseudo(_)) {
        return false;
    }
    match path(c, input, ty, Context::Explicit) {
        PathKind::Literal
        | PathKind::Same
        | PathKind::Relabel
        | PathKind::ByOutput
        | PathKind::ByInput => true,
        PathKind::Cast(row) => is_binary(c, row),
        PathKind::Elements | PathKind::NoPath => false,
    }
}

/// The type that the call asks to cast to, where it does.
pub fn cast_request(c: &Catalog, name: &str, inputs: &[TypeNo], variadic: bool) -> Option<TypeNo>
    requires { AreTypes c.now inputs.now }
    ensures value { result ≡ cast_request c.now name.now inputs.now variadic }
    ensures within { IfSome result (λ type. type.0 < length c.now.types) }
{
    match inputs {
        [input] if !variadic => {
            let ty = c.type_named(name)?;
            if is_castable(c, *input, ty) {
                Some(ty)
            } else {
                None
            }
        }
        _ => None,
    }
}
