//! The checks of a catalogue's domains.
ghost use Rattle.std.specs.Prelude.{◌≡◌, [], ◌∷◌, ◌++◌, IfOk, None, option_map};
ghost use Rattle.xp_tree.specs.Checked.{check_of};

use crate::tree::Tree;
use sqlite_items::Items;
use std::alloc::Global;
use std::marker::Model;
use xp_base::{Memory, RowNo};

/// A domain's check, as a tree in which VALUE stands for the value.
#[derive(Drop)]
pub struct DomainCheck {
    pub domain: RowNo,
    pub check: Tree,
}

/// The checks of domains, which contracts see as a list.
#[derive(Drop)]
pub struct Checks {
    checks: Items<DomainCheck>,
}

impl Model for Checks {
    ghost use Rattle.std.specs.Prelude.{List};
    ghost use Rattle.xp_tree.specs.declared.checks.DomainCheck.{DomainCheck};
    ghost use Rattle.xp_tree.specs.contracts.tree.Tree as tree;
    ghost use Rattle.std.specs.Coded.{codes};

    ghost Value = { List DomainCheck };

    ghost coded = { Prim.hlevel (codes, tree.the_row.coded) };

    ghost view = { λ k. k.checks };
}

impl Checks {
    /// No checks yet, which takes no memory.
    pub fn new(alloc: Global) -> Checks
        ensures { result ≡ [] }
    {
        Checks {
            checks: Items::new(alloc),
        }
    }

    /// The checks with one more, of a domain that has none yet. Without memory they are given up.
    pub fn add(self, domain: RowNo, check: Tree) -> Result<Checks, Memory>
        requires { check_of self domain ≡ None }
        ensures { IfOk result (λ k. k ≡ self ++ record { domain = domain; check = check } ∷ []) }
    {
        let Checks { mut checks } = self;
        checks.push(DomainCheck { domain, check })?;
        Ok(Checks { checks })
    }

    /// The check of the domain, where one was added.
    pub fn check_of(&self, domain: RowNo) -> Option<&Tree>
        ensures { option_map (λ t. t.now) result ≡ check_of self.now domain }
    {
        for entry in self.checks.as_slice() {
            if entry.domain == domain {
                return Some(&entry.check);
            }
        }
        None
    }
}
