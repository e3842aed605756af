//! ARRAY without elements, whose type is that of the cast right above it (manual 4.2.12).
ghost use Rattle.std.specs.Prelude.{◌≡◌};
ghost use Rattle.xp_resolve.specs.Scene.{Scene};
ghost use Rattle.xp_expressions.specs.Expressions.{meaning};

use xp_grammar::Ast;

/// The place of the expression, where it is an ARRAY without elements, in parentheses or not.
pub fn empty_place(ast: &Ast) -> Option<u64>
    ensures { (scene : Scene) → result ≡ (meaning scene ast.now).empty }
{
    match ast {
        Ast::Paren { inner, .. } => empty_place(inner.get()),
        Ast::Array { at, elements } if elements.as_slice().is_empty() => Some(u64::from(at.start)),
        _ => None,
    }
}
