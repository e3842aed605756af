//! The constructors of trees: one for each node.
use crate::node::{CaseArms, Node, Trees};
use crate::parts::{Callee, Modifier, NodeType, Way};
use crate::tree::Tree;
use std::alloc::Global;
use xp_base::{Memory, Name, RowNo};
use xp_value::Value;

impl Tree {
    ghost use Rattle.std.specs.Prelude.{◌≡◌, IfOk};
    ghost use Rattle.xp_tree.specs.Term.{constant, column, given, output, input, relabel, elements, sizing, negation, is_null, is_true, is_false, is_unknown, conjunction, disjunction, null_if, distinct, subscript, call, coalesce, greatest, least, array, leaf, one, two, many, case, terms};
    ghost use Rattle.xp_tree.specs.View.{arms_of, checked_by};
    ghost use Rattle.xp_tree.specs.Typed.{IsTyped};

    /// A constant.
    pub fn make_constant(alloc: Global, value: Value, ty: NodeType) -> Result<Tree, Memory>
        requires { IsTyped (leaf (constant value) ty) }
        ensures { IfOk result (λ t. t ≡ leaf (constant value) ty) }
    {
        Tree::over(alloc, Node::Constant { value, ty })
    }

    /// A column of the rows, counted from 0.
    pub fn make_column(alloc: Global, number: u32, name: Name, ty: NodeType) -> Result<Tree, Memory>
        requires { IsTyped (leaf (column number name) ty) }
        ensures { IfOk result (λ t. t ≡ leaf (column number name) ty) }
    {
        Tree::over(alloc, Node::Column { number, name, ty })
    }

    /// VALUE in a check.
    pub fn make_given(alloc: Global, ty: NodeType) -> Result<Tree, Memory>
        requires { IsTyped (leaf given ty) }
        ensures { IfOk result (λ t. t ≡ leaf given ty) }
    {
        Tree::over(alloc, Node::Given { ty })
    }

    /// A call of what the callee says.
    pub fn make_call(
        alloc: Global,
        callee: Callee,
        args: Trees,
        ty: NodeType,
    ) -> Result<Tree, Memory>
        requires { IsTyped (many (call callee) (terms args) ty) }
        ensures { IfOk result (λ t. t ≡ many (call callee) (terms args) ty) }
    {
        Tree::over(alloc, Node::Call { callee, args, ty })
    }

    /// The text that stands for the value.
    pub fn make_output(alloc: Global, arg: Tree, ty: NodeType) -> Result<Tree, Memory>
        requires { IsTyped (one output arg ty) }
        ensures { IfOk result (λ t. t ≡ one output arg ty) }
    {
        Tree::over(alloc, Node::Output { arg, ty })
    }

    /// The value that the text stands for.
    pub fn make_input(alloc: Global, arg: Tree, ty: NodeType) -> Result<Tree, Memory>
        requires { IsTyped (one input arg ty) }
        ensures { IfOk result (λ t. t ≡ one input arg ty) }
    {
        Tree::over(alloc, Node::Input { arg, ty })
    }

    /// The value under another type.
    pub fn make_relabel(alloc: Global, arg: Tree, ty: NodeType) -> Result<Tree, Memory>
        requires { IsTyped (one relabel arg ty) }
        ensures { IfOk result (λ t. t ≡ one relabel arg ty) }
    {
        Tree::over(alloc, Node::Relabel { arg, ty })
    }

    /// Each element of an array converted.
    pub fn make_elements(alloc: Global, arg: Tree, way: Way, ty: NodeType) -> Result<Tree, Memory>
        requires { IsTyped (one (elements way) arg ty) }
        ensures { IfOk result (λ t. t ≡ one (elements way) arg ty) }
    {
        Tree::over(alloc, Node::Elements { arg, way, ty })
    }

    /// The value brought to a modifier.
    pub fn make_sizing(
        alloc: Global,
        arg: Tree,
        modifier: Modifier,
        cut: bool,
        ty: NodeType,
    ) -> Result<Tree, Memory>
        requires { IsTyped (one (sizing modifier cut) arg ty) }
        ensures { IfOk result (λ t. t ≡ one (sizing modifier cut) arg ty) }
    {
        Tree::over(
            alloc,
            Node::Sizing {
                arg,
                modifier,
                cut,
                ty,
            },
        )
    }

    /// The value where the domain takes it.
    pub fn make_domain(
        alloc: Global,
        arg: Tree,
        domain: RowNo,
        not_null: bool,
        check: Option<Tree>,
        ty: NodeType,
    ) -> Result<Tree, Memory>
        requires { IsTyped (checked_by arg domain not_null check ty) }
        ensures { IfOk result (λ t. t ≡ checked_by arg domain not_null check ty) }
    {
        Tree::over(
            alloc,
            Node::Domain {
                arg,
                domain,
                not_null,
                check,
                ty,
            },
        )
    }

    /// AND.
    pub fn make_and(alloc: Global, left: Tree, right: Tree, ty: NodeType) -> Result<Tree, Memory>
        requires { IsTyped (two conjunction left right ty) }
        ensures { IfOk result (λ t. t ≡ two conjunction left right ty) }
    {
        Tree::over(alloc, Node::And { left, right, ty })
    }

    /// OR.
    pub fn make_or(alloc: Global, left: Tree, right: Tree, ty: NodeType) -> Result<Tree, Memory>
        requires { IsTyped (two disjunction left right ty) }
        ensures { IfOk result (λ t. t ≡ two disjunction left right ty) }
    {
        Tree::over(alloc, Node::Or { left, right, ty })
    }

    /// NOT.
    pub fn make_not(alloc: Global, arg: Tree, ty: NodeType) -> Result<Tree, Memory>
        requires { IsTyped (one negation arg ty) }
        ensures { IfOk result (λ t. t ≡ one negation arg ty) }
    {
        Tree::over(alloc, Node::Not { arg, ty })
    }

    /// IS NULL.
    pub fn make_isnull(alloc: Global, arg: Tree, ty: NodeType) -> Result<Tree, Memory>
        requires { IsTyped (one is_null arg ty) }
        ensures { IfOk result (λ t. t ≡ one is_null arg ty) }
    {
        Tree::over(alloc, Node::IsNull { arg, ty })
    }

    /// IS TRUE.
    pub fn make_istrue(alloc: Global, arg: Tree, ty: NodeType) -> Result<Tree, Memory>
        requires { IsTyped (one is_true arg ty) }
        ensures { IfOk result (λ t. t ≡ one is_true arg ty) }
    {
        Tree::over(alloc, Node::IsTrue { arg, ty })
    }

    /// IS FALSE.
    pub fn make_isfalse(alloc: Global, arg: Tree, ty: NodeType) -> Result<Tree, Memory>
        requires { IsTyped (one is_false arg ty) }
        ensures { IfOk result (λ t. t ≡ one is_false arg ty) }
    {
        Tree::over(alloc, Node::IsFalse { arg, ty })
    }

    /// IS UNKNOWN.
    pub fn make_isunknown(alloc: Global, arg: Tree, ty: NodeType) -> Result<Tree, Memory>
        requires { IsTyped (one is_unknown arg ty) }
        ensures { IfOk result (λ t. t ≡ one is_unknown arg ty) }
    {
        Tree::over(alloc, Node::IsUnknown { arg, ty })
    }

    /// CASE.
    pub fn make_case(
        alloc: Global,
        arms: CaseArms,
        otherwise: Tree,
        ty: NodeType,
    ) -> Result<Tree, Memory>
        requires { IsTyped (case (arms_of arms) otherwise ty) }
        ensures { IfOk result (λ t. t ≡ case (arms_of arms) otherwise ty) }
    {
        Tree::over(
            alloc,
            Node::Case {
                arms,
                otherwise,
                ty,
            },
        )
    }

    /// COALESCE.
    pub fn make_coalesce(alloc: Global, args: Trees, ty: NodeType) -> Result<Tree, Memory>
        requires { IsTyped (many coalesce (terms args) ty) }
        ensures { IfOk result (λ t. t ≡ many coalesce (terms args) ty) }
    {
        Tree::over(alloc, Node::Coalesce { args, ty })
    }

    /// GREATEST.
    pub fn make_greatest(alloc: Global, args: Trees, ty: NodeType) -> Result<Tree, Memory>
        requires { IsTyped (many greatest (terms args) ty) }
        ensures { IfOk result (λ t. t ≡ many greatest (terms args) ty) }
    {
        Tree::over(alloc, Node::Greatest { args, ty })
    }

    /// LEAST.
    pub fn make_least(alloc: Global, args: Trees, ty: NodeType) -> Result<Tree, Memory>
        requires { IsTyped (many least (terms args) ty) }
        ensures { IfOk result (λ t. t ≡ many least (terms args) ty) }
    {
        Tree::over(alloc, Node::Least { args, ty })
    }

    /// An array of the values.
    pub fn make_array(alloc: Global, args: Trees, ty: NodeType) -> Result<Tree, Memory>
        requires { IsTyped (many array (terms args) ty) }
        ensures { IfOk result (λ t. t ≡ many array (terms args) ty) }
    {
        Tree::over(alloc, Node::Array { args, ty })
    }

    /// NULLIF, by the operator `=` that the callee is.
    pub fn make_nullif(
        alloc: Global,
        callee: Callee,
        left: Tree,
        right: Tree,
        ty: NodeType,
    ) -> Result<Tree, Memory>
        requires { IsTyped (two (null_if callee) left right ty) }
        ensures { IfOk result (λ t. t ≡ two (null_if callee) left right ty) }
    {
        Tree::over(
            alloc,
            Node::NullIf {
                callee,
                left,
                right,
                ty,
            },
        )
    }

    /// IS DISTINCT FROM, by the operator `=` that the callee is.
    pub fn make_distinct(
        alloc: Global,
        callee: Callee,
        left: Tree,
        right: Tree,
        ty: NodeType,
    ) -> Result<Tree, Memory>
        requires { IsTyped (two (distinct callee) left right ty) }
        ensures { IfOk result (λ t. t ≡ two (distinct callee) left right ty) }
    {
        Tree::over(
            alloc,
            Node::Distinct {
                callee,
                left,
                right,
                ty,
            },
        )
    }

    /// An element of an array.
    pub fn make_subscript(
        alloc: Global,
        of: Tree,
        index: Tree,
        ty: NodeType,
    ) -> Result<Tree, Memory>
        requires { IsTyped (two subscript of index ty) }
        ensures { IfOk result (λ t. t ≡ two subscript of index ty) }
    {
        Tree::over(
            alloc,
            Node::Subscript {
                array: of,
                index,
                ty,
            },
        )
    }
}
