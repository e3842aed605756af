//! Stacks of trees, which contracts see as lists, the top first.
use crate::tree::Tree;
use sqlite_items::Items;
use std::alloc::Global;
use std::marker::Model;
use xp_base::Memory;

/// Trees that are looked at, the next one last.
#[derive(Drop)]
pub struct Waiting<'a> {
    trees: Items<&'a Tree>,
}

impl<'a> Model for Waiting<'a> {
    ghost use Rattle.std.specs.Prelude.{List};
    ghost use Rattle.std.specs.Coded.{coded_list};
    ghost use Rattle.xp_tree.specs.Term.{Term};
    ghost use Rattle.xp_tree.specs.contracts.tree.Tree as tree;
    ghost use Rattle.xp_tree.specs.inner.Order.{top_first};

    ghost Value = { List Term };

    ghost coded = { coded_list tree.the_row.coded };

    ghost view = { λ w. top_first (λ t. t.now) w.trees };
}

impl<'a> Waiting<'a> {
    ghost use Rattle.std.specs.Prelude.{◌≡◌, [], ◌∷◌, MatchOption, OnOk};

    pub fn new(alloc: Global) -> Waiting<'a>
        ensures { result ≡ [] }
    {
        Waiting {
            trees: Items::new(alloc),
        }
    }

    #[tactic(auto, using(crate::proofs::Orders::pushed))]
    pub fn push(&mut self, tree: &'a Tree) -> Result<(), Memory>
        ensures { OnOk result (self.new ≡ tree.now ∷ self.old) }
    {
        self.trees.push(tree)?;
        Ok(())
    }

    #[tactic(auto, using(crate::proofs::Orders::pushed))]
    pub fn pop(&mut self) -> Option<&'a Tree>
        ensures { MatchOption result ((self.old ≡ []) × (self.new ≡ [])) (λ tree. self.old ≡ tree.now ∷ self.new) }
    {
        self.trees.pop()
    }
}

/// Trees that were made, the next one last.
#[derive(Drop)]
pub struct Made {
    trees: Items<Tree>,
}

impl Model for Made {
    ghost use Rattle.std.specs.Prelude.{List};
    ghost use Rattle.std.specs.Coded.{coded_list};
    ghost use Rattle.xp_tree.specs.Term.{Term};
    ghost use Rattle.xp_tree.specs.contracts.tree.Tree as tree;
    ghost use Rattle.xp_tree.specs.inner.Order.{top_first};

    ghost Value = { List Term };

    ghost coded = { coded_list tree.the_row.coded };

    ghost view = { λ m. top_first (λ t. t) m.trees };
}

impl Made {
    ghost use Rattle.std.specs.Prelude.{◌≡◌, ◌<◌, [], ◌∷◌, length, OnOk};

    pub fn new(alloc: Global) -> Made
        ensures { result ≡ [] }
    {
        Made {
            trees: Items::new(alloc),
        }
    }

    #[tactic(auto, using(crate::proofs::Orders::pushed))]
    pub fn push(&mut self, tree: Tree) -> Result<(), Memory>
        ensures { OnOk result (self.new ≡ tree ∷ self.old) }
    {
        self.trees.push(tree)?;
        Ok(())
    }

    #[tactic(auto, using(crate::proofs::Orders::pushed))]
    pub fn take(&mut self) -> Tree
        requires { 0 < length self.old }
        ensures { self.old ≡ result ∷ self.new }
    {
        match self.trees.pop() {
            Some(tree) => tree,
            None => unreachable!(),
        }
    }
}
