//! Trees of a truth value, deep and wide, and what is answered for one.
ghost use Rattle.std.specs.Prelude.{◌≡◌, IfOk};
ghost use Rattle.xp_tree.specs.Term.{type_of};
ghost use Rattle.xp_tree.specs.Typed.{IsBool};

use crate::links::link;
use anyhow::{Result, bail};
use sqlite_items::Items;
use std::alloc::Global;
use xp_base::{Memory, Name, RowNo, TypeNo};
use xp_cases::Answers;
use xp_catalog::Volatility;
use xp_tree::{Callee, NodeType, Tree};
use xp_value::Rep;

/// The cases of deep trees.
pub struct Deep;

pub const TRUTH: NodeType = NodeType {
    no: TypeNo(16),
    rep: Rep::Bool,
    element: Rep::Opaque,
};

/// A callee without a body, which takes arguments of any type.
pub const CALLEE: Callee = Callee {
    row: RowNo(0),
    from_cast: false,
    body: None,
    strict: true,
    volatility: Volatility::Immutable,
};

/// A column of the type.
pub fn column(alloc: Global, ty: NodeType) -> Result<Tree, Memory>
    ensures { IfOk result (λ t. type_of t ≡ ty) }
{
    let name = Name::from_str(alloc, "c")?;
    Tree::make_column(alloc, 0, name, ty)
}

/// A column under so many nodes.
fn chain(alloc: Global, of: &str, word: &str, links: u32) -> Result<Tree>
    ensures { IfOk result (λ t. IsBool (type_of t)) }
{
    let mut tree = column(alloc, TRUTH)?;
    'links: for _link in 0..links {
        tree = link(alloc, of, word, tree)?;
    }
    Ok(tree)
}

/// AND over a tree and its copy, on so many levels.
fn balanced(alloc: Global, levels: u32) -> Result<Tree>
    ensures { IfOk result (λ t. IsBool (type_of t)) }
{
    let mut tree = column(alloc, TRUTH)?;
    'levels: for _level in 0..levels {
        tree.is_typed_law();
        let copy = tree.copy(alloc)?;
        tree = Tree::make_and(alloc, copy, tree, TRUTH)?;
    }
    Ok(tree)
}

/// A call of so many columns.
#[tactic(auto, using(crate::proofs::Pushed::all_typed_pushed))]
fn wide(alloc: Global, columns: u32) -> Result<Tree> {
    let mut args = Items::new(alloc);
    'columns: for _column in 0..columns {
        let column = column(alloc, TRUTH)?;
        column.is_typed_law();
        args.push(column)?;
    }
    Ok(Tree::make_call(alloc, CALLEE, args, TRUTH)?)
}

fn made(alloc: Global, of: &str, word: &str, count: u32) -> Result<Tree> {
    match word {
        "balanced" => balanced(alloc, count),
        "wide" => wide(alloc, count),
        _ => chain(alloc, of, word, count),
    }
}

impl Answers for Deep {
    fn answer(&self, alloc: Global, case: &str) -> Result<String> {
        let Some((of, rest)) = case.split_once(' ') else {
            bail!("a node is wanted");
        };
        let Some((word, count)) = rest.split_once(' ') else {
            bail!("a count is wanted");
        };
        let tree = made(alloc, of, word, count.parse()?)?;
        let copy = tree.copy(alloc)?;
        let (nodes, copied) = (tree.size(), copy.size());
        drop(tree);
        drop(copy);
        Ok(format!(in alloc; "{nodes} nodes, {copied} in the copy")?)
    }
}
