//! Nodes over texts and arrays, with a node that makes a truth value of them again.
ghost use Rattle.std.specs.Prelude.{◌≡◌, [], ◌∷◌, IfOk};
ghost use Rattle.xp_tree.specs.Term.{type_of};
ghost use Rattle.xp_tree.specs.Typed.{IsBool};

use crate::trees::{CALLEE, TRUTH, column};
use anyhow::{Result, bail};
use sqlite_items::Items;
use std::alloc::Global;
use xp_base::{Memory, TypeNo};
use xp_tree::{NodeType, Tree, Trees, Way};
use xp_value::Rep;

const TEXT: NodeType = NodeType {
    no: TypeNo(25),
    rep: Rep::Text,
    element: Rep::Opaque,
};

const NUMBER: NodeType = NodeType {
    no: TypeNo(23),
    rep: Rep::Int4,
    element: Rep::Opaque,
};

const TRUTHS: NodeType = NodeType {
    no: TypeNo(1000),
    rep: Rep::Arr,
    element: Rep::Bool,
};

fn alone(alloc: Global, a: Tree) -> Result<Trees, Memory>
    ensures { IfOk result (λ args. args ≡ a ∷ []) }
{
    let mut args = Items::new(alloc);
    args.push(a)?;
    Ok(args)
}

/// A call that gives a value of the type.
fn called(alloc: Global, tree: Tree, ty: NodeType) -> Result<Tree, Memory>
    ensures { IfOk result (λ t. type_of t ≡ ty) }
{
    tree.is_typed_law();
    Tree::make_call(alloc, CALLEE, alone(alloc, tree)?, ty)
}

fn output(alloc: Global, tree: Tree) -> Result<Tree, Memory>
    ensures { IfOk result (λ t. IsBool (type_of t)) }
{
    tree.is_typed_law();
    called(alloc, Tree::make_output(alloc, tree, TEXT)?, TRUTH)
}

fn input(alloc: Global, tree: Tree) -> Result<Tree, Memory>
    ensures { IfOk result (λ t. IsBool (type_of t)) }
{
    let text = called(alloc, tree, TEXT)?;
    text.is_typed_law();
    Tree::make_input(alloc, text, TRUTH)
}

fn elements(alloc: Global, tree: Tree) -> Result<Tree, Memory>
    ensures { IfOk result (λ t. IsBool (type_of t)) }
{
    let array = called(alloc, tree, TRUTHS)?;
    array.is_typed_law();
    called(
        alloc,
        Tree::make_elements(alloc, array, Way::ByRelabel, TRUTHS)?,
        TRUTH,
    )
}

fn array(alloc: Global, tree: Tree) -> Result<Tree, Memory>
    requires { IsBool (type_of tree) }
    ensures { IfOk result (λ t. IsBool (type_of t)) }
{
    tree.is_typed_law();
    let array = Tree::make_array(alloc, alone(alloc, tree)?, TRUTHS)?;
    array.is_typed_law();
    let index = column(alloc, NUMBER)?;
    index.is_typed_law();
    Tree::make_subscript(alloc, array, index, TRUTH)
}

pub fn link(alloc: Global, word: &str, tree: Tree) -> Result<Tree>
    requires { IsBool (type_of tree) }
    ensures { IfOk result (λ t. IsBool (type_of t)) }
{
    match word {
        "output" => Ok(output(alloc, tree)?),
        "input" => Ok(input(alloc, tree)?),
        "elements" => Ok(elements(alloc, tree)?),
        "array" => Ok(array(alloc, tree)?),
        _ => bail!("no such node"),
    }
}
