//! Operands that are truth values.
ghost use Rattle.std.specs.Prelude.{◌≡◌, IfOk, Some, codes, true};
ghost use Rattle.xp_base.specs.OrMemory.{OrMemory};
ghost use Rattle.xp_catalog.specs.Lookups.{type_named};
ghost use Rattle.xp_coerce.specs.Asked.{IsSource};
ghost use Rattle.xp_coerce.specs.Types.{node_type};
ghost use Rattle.xp_tree.specs.Term.{type_of};
ghost use Rattle.xp_tree.specs.Typed.{IsBool};
ghost use Rattle.xp_types.specs.Readers.{is_known};
ghost use Rattle.xp_types.specs.Within.{IsType};
ghost use Rattle.xp_resolve.specs.Made.{is_memory};
ghost use Rattle.xp_resolve.specs.inner.Sources.{IsScene};
ghost use Rattle.xp_forms.specs.Truths as spec;

use std::alloc::Global;
use xp_base::{Code, TypeNo};
use xp_catalog::{Catalog, Context};
use xp_named::Refusal;
use xp_resolve::{Converted, Part, Scene, convert, plainly, refused};
use xp_types::{base, is_known};

/// The type bool, which is asked for at that place.
#[tactic(auto, using(crate::proofs::Named::bool_kept))]
pub fn bool_type(c: &Catalog, at: u64) -> Result<TypeNo, Refusal>
    ensures value { result ≡ spec.bool_type c.now at }
    ensures within { IfOk result (IsType c.now) }
    ensures known { IfOk result (λ bool. is_known bool ≡ true) }
    ensures kept { IfOk result (λ bool. IsBool (node_type c.now bool)) }
{
    // the rules of records say how values of the type of that name are kept
    c.is_well_formed_law();
    match c.type_named("bool") {
        Some(ty) => Ok(ty),
        None => refused(Code::UnknownType, at),
    }
}

fn may_be_truth(c: &Catalog, bool_type: TypeNo, ty: TypeNo) -> bool
    requires { IsType c.now ty }
    ensures { result ≡ spec.may_be_truth c.now bool_type ty }
{
    !is_known(ty) || base(c, ty).0 == bool_type.0
}

/// The operand as a truth value, which is asked for at that place.
pub fn as_truth(
    alloc: Global,
    scene: &Scene<'_>,
    at: u64,
    nodes: u64,
    ty: TypeNo,
    part: Part,
) -> Result<Converted, Refusal>
    requires scene { IsScene scene.now }
    requires source { IsSource scene.now.c part.tree }
    requires within { IsType scene.now.c ty }
    ensures value { OrMemory is_memory (spec.as_truth scene.now at nodes ty part) result }
    ensures typed { IfOk result (λ one. type_of one.tree ≡ node_type scene.now.c ty) }
{
    if may_be_truth(scene.catalog(), ty, part.tree.type_of()) {
        convert(
            alloc,
            scene,
            at,
            nodes,
            part,
            plainly(ty),
            Context::Implicit,
        )
    } else {
        refused(Code::NotBoolean, at)
    }
}
