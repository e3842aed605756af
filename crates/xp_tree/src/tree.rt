//! Trees, each a node over trees.
use crate::copies::{copy_node, parents_first};
use crate::drops::largest_part;
use crate::kept::{is_fixed_over, is_open_over, size_over};
use crate::node::Node;
use crate::parts::NodeType;
use crate::stacks::Made;
use sqlite_items::Boxed;
use std::alloc::Global;
use std::marker::Model;
use xp_base::{Memory, TypeNo};

/// A typed tree. What is asked of it again and again, its size and whether it is constant, is kept
/// beside its node.
#[cycle(tree)]
pub struct Tree {
    top: Boxed<Node>,
    size: u64,
    fixed: bool,
    given: bool,
}

impl Model for Tree {
    ghost use Rattle.xp_tree.specs.Term.{Term};
    ghost use Rattle.xp_tree.specs.inner.Heights.{spaced};
    ghost use Rattle.xp_tree.specs.inner.Coding.{term_code};
    ghost use Rattle.std.specs.Coded.{codes};
    ghost use Rattle.xp_value.specs.contracts.value.Value as value;

    ghost Value = { Term };

    ghost coded = { term_code (Prim.hlevel (codes, value.the_row.coded)) };

    ghost use Rattle.xp_tree.specs.View.{term_of};

    ghost view = { λ t. term_of t.top };

    ghost use Rattle.xp_tree.specs.Kept.{IsKept};

    ghost invariant = { λ t. IsKept (term_of t.top) t.size t.fixed t.given };

    ghost size = { spaced };

    ghost use Rattle.xp_tree.specs.inner.Falls.{depth_le_height};

    ghost size_decreases = { λ a h. depth_le_height a.top };
}

impl Drop for Tree {
    #[cycle(drop)]
    fn drop(mut self) {
        'down: loop {
            let Tree {
                top,
                size: _,
                fixed: _,
                given: _,
            } = self;
            match largest_part(top.into_inner()) {
                Some(tree) => self = tree,
                None => return,
            }
        }
    }
}

impl Tree {
    ghost use Rattle.xp_tree.specs.View.{term_of};
    ghost use Rattle.xp_tree.specs.Typed.{IsTyped};
    ghost use Rattle.xp_tree.specs.Term.{is_const, is_fixed as fixed_of, is_open as open_of, size as size_of, type_of as of};
    ghost use Rattle.std.specs.Prelude.{◌≡◌, IfOk, min, ◌^◌, ◌-◌};

    /// The tree whose top is this node.
    pub(crate) fn over(alloc: Global, node: Node) -> Result<Tree, Memory>
        requires { IsTyped (term_of node) }
        ensures { IfOk result (λ t. t ≡ term_of node) }
    {
        let (size, fixed, given) = (size_over(&node), is_fixed_over(&node), is_open_over(&node));
        Ok(Tree {
            top: Boxed::new(alloc, node)?,
            size,
            fixed,
            given,
        })
    }

    pub fn top(&self) -> &Node
        ensures value { self.now ≡ term_of result.now }
        ensures typed { IsTyped (term_of result.now) }
    {
        self.top.get()
    }

    pub fn into_top(self) -> Node
        ensures value { self ≡ term_of result }
        ensures typed { IsTyped (term_of result) }
    {
        let Tree {
            top,
            size: _,
            fixed: _,
            given: _,
        } = self;
        top.into_inner()
    }

    /// The number of nodes, those of checks counted, or the greatest u64 where that number is larger.
    pub fn size(&self) -> u64
        ensures { result ≡ min (size_of self.now) (2 ^ 64 - 1) }
    {
        self.size
    }

    /// Whether the tree has one value whatever the row (manual 4.2.14).
    pub fn is_const(&self) -> bool
        ensures { result ≡ is_const self.now }
    {
        self.fixed && !self.given
    }

    /// Whether every node but VALUE is the same for each row.
    pub fn is_fixed(&self) -> bool
        ensures { result ≡ fixed_of self.now }
    {
        self.fixed
    }

    /// Whether VALUE stands in it outside the domain node that gives it.
    pub fn is_open(&self) -> bool
        ensures { result ≡ open_of self.now }
    {
        self.given
    }

    /// An equal tree.
    #[tactic(auto, using(crate::proofs::Orders::made_next))]
    pub fn copy(&self, alloc: Global) -> Result<Tree, Memory>
        ensures { IfOk result (λ t. t ≡ self.now) }
    {
        let mut listed = parents_first(alloc, self)?;
        let mut made = Made::new(alloc);
        'listed: while let Some(tree) = listed.pop() {
            let node = copy_node(alloc, tree.top(), &mut made)?;
            made.push(Tree::over(alloc, node)?)?;
        }
        Ok(made.take())
    }

    /// A law: every node has what it asks for. It does nothing: a proof is told so where it is called.
    pub fn is_typed_law(&self)
        ensures { IsTyped self.now }
    {
        let _top = self.top();
    }

    /// The type of its value, with how its values are kept.
    pub fn node_type(&self) -> NodeType
        ensures { result ≡ of self.now }
    {
        match self.top() {
            Node::Constant { ty, .. }
            | Node::Column { ty, .. }
            | Node::Given { ty }
            | Node::Call { ty, .. }
            | Node::Output { ty, .. }
            | Node::Input { ty, .. }
            | Node::Relabel { ty, .. }
            | Node::Elements { ty, .. }
            | Node::Sizing { ty, .. }
            | Node::Domain { ty, .. }
            | Node::And { ty, .. }
            | Node::Or { ty, .. }
            | Node::Not { ty, .. }
            | Node::IsNull { ty, .. }
            | Node::IsTrue { ty, .. }
            | Node::IsFalse { ty, .. }
            | Node::IsUnknown { ty, .. }
            | Node::Case { ty, .. }
            | Node::Coalesce { ty, .. }
            | Node::Greatest { ty, .. }
            | Node::Least { ty, .. }
            | Node::Array { ty, .. }
            | Node::NullIf { ty, .. }
            | Node::Distinct { ty, .. }
            | Node::Subscript { ty, .. } => *ty,
        }
    }

    /// The number of the type of its value.
    pub fn type_of(&self) -> TypeNo
        ensures { result ≡ (of self.now).no }
    {
        self.node_type().no
    }
}
