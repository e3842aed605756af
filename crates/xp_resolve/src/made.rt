//! What is made of a statement: trees, and how many nodes they have together.
ghost use Rattle.std.specs.Prelude.{◌≡◌, ◌+◌, ◌-◌, ◌^◌, min};
ghost use Rattle.xp_tree.specs.Term.{size};
ghost use Rattle.xp_resolve.specs.Made.{counted, finished, refused};

use crate::scene::Scene;
use crate::typed::Uses;
use sqlite_items::Items;
use xp_base::{Code, NODE_LIMIT};
use xp_named::Refusal;
use xp_tree::Tree;

/// The tree of an expression.
#[derive(Drop)]
pub struct Part {
    pub tree: Tree,
    /// The place at which it is refused where it is a literal that isn't a text of the type it gets.
    pub at: u64,
}

/// Trees from left to right.
pub type Parts = Items<Part>;

/// What is made so far of a statement.
#[derive(Drop)]
pub struct Progress {
    /// How many nodes its trees have together.
    pub nodes: u64,
    /// The overloads that are chosen.
    pub uses: Uses,
}

/// A tree, and what is made so far with it.
#[derive(Drop)]
pub struct Made {
    pub part: Part,
    pub progress: Progress,
}

/// Trees, and what is made so far with them.
#[derive(Drop)]
pub struct Gathered {
    pub parts: Parts,
    pub progress: Progress,
}

/// A refusal at that place.
pub fn refused<T>(code: Code, at: u64) -> Result<T, Refusal>
    ensures { result ≡ refused code at }
{
    Err(Refusal::At { code, at })
}

/// The number of nodes, unless it is above the limit.
pub fn counted(scene: &Scene<'_>, nodes: u64) -> Result<u64, Refusal>
    ensures { result ≡ counted scene.now nodes }
{
    if nodes <= u64::from(NODE_LIMIT) {
        Ok(nodes)
    } else {
        refused(Code::TooBig, scene.start())
    }
}

/// The tree, with its nodes beside those of the trees that were made before it.
pub fn finished(
    scene: &Scene<'_>,
    at: u64,
    before: u64,
    uses: Uses,
    tree: Tree,
) -> Result<Made, Refusal>
    ensures { result ≡ finished scene.now at before uses tree }
{
    let nodes = counted(scene, before.saturating_add(tree.size()))?;
    Ok(Made {
        part: Part { tree, at },
        progress: Progress { nodes, uses },
    })
}
