//! Trees that are taken one by one from the left.
use crate::lists::reversed;
use crate::made::{Part, Parts};
use sqlite_items::Items;
use std::alloc::Global;
use std::marker::Model;
use xp_base::Memory;

/// Trees that are still to be taken, the next one last.
#[derive(Drop)]
pub struct Queue {
    parts: Items<Part>,
}

impl Model for Queue {
    ghost use Rattle.std.specs.Prelude.{List, reverse};
    ghost use Rattle.std.specs.Coded.{codes};
    ghost use Rattle.xp_resolve.specs.declared.made.Part.{Part};
    ghost use Rattle.xp_tree.specs.contracts.tree.Tree as tree;

    ghost Value = { List Part };

    ghost coded = { Prim.hlevel (codes, tree.the_row.coded) };

    ghost view = { λ q. reverse q.parts };
}

impl Queue {
    ghost use Rattle.std.specs.Prelude.{◌≡◌, [], ◌∷◌, IfOk, MatchOption};

    #[tactic(auto, using(crate::proofs::Queues::turned_twice))]
    pub fn new(alloc: Global, parts: Parts) -> Result<Queue, Memory>
        ensures { IfOk result (λ q. q ≡ parts) }
    {
        Ok(Queue {
            parts: reversed(alloc, parts)?,
        })
    }

    /// The next one.
    #[tactic(auto, using(crate::proofs::Queues::popped))]
    pub fn pop(&mut self) -> Option<Part>
        ensures { MatchOption result ((self.old ≡ []) × (self.new ≡ [])) (λ part. self.old ≡ part ∷ self.new) }
    {
        self.parts.pop()
    }
}
