//! One more node over a tree of a truth value, by the word that names it.
ghost use Rattle.std.specs.Prelude.{IfOk};
ghost use Rattle.xp_tree.specs.Term.{type_of};
ghost use Rattle.xp_tree.specs.Typed.{IsBool};

use crate::{one, several, two, typed};
use anyhow::{Result, bail};
use std::alloc::Global;
use xp_tree::Tree;

pub fn link(alloc: Global, of: &str, word: &str, tree: Tree) -> Result<Tree>
    requires { IsBool (type_of tree) }
    ensures { IfOk result (λ t. IsBool (type_of t)) }
{
    match of {
        "one" => one::link(alloc, word, tree),
        "two" => two::link(alloc, word, tree),
        "several" => several::link(alloc, word, tree),
        "typed" => typed::link(alloc, word, tree),
        _ => bail!("no such family"),
    }
}
