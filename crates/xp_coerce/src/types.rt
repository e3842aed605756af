//! The types of nodes.
ghost use Rattle.std.specs.Prelude.{◌≡◌};
ghost use Rattle.xp_types.specs.Within.{IsType};
ghost use Rattle.xp_coerce.specs.Types.{node_type};

use xp_base::TypeNo;
use xp_catalog::Catalog;
use xp_io::{element_rep, rep_of};
use xp_tree::NodeType;

/// The type of a node's value, with how its values are kept.
pub fn node_type(c: &Catalog, ty: TypeNo) -> NodeType
    requires { IsType c.now ty }
    ensures { result ≡ node_type c.now ty }
{
    NodeType {
        no: ty,
        rep: rep_of(c, ty),
        element: element_rep(c, ty),
    }
}
