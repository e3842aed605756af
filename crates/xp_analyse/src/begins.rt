//! Where an expression begins.
ghost use Rattle.std.specs.Prelude.{◌≡◌};
ghost use Rattle.xp_analyse.specs.Begins as spec;

use xp_grammar::Ast;

/// The first byte of the expression.
pub fn first_of(ast: &Ast) -> u64
    ensures { result ≡ spec.first_of ast.now }
{
    match ast {
        Ast::Number { at, .. }
        | Ast::Wide { at }
        | Ast::Text { at, .. }
        | Ast::Bool { at, .. }
        | Ast::Null { at }
        | Ast::Column { at, .. }
        | Ast::Paren { at, .. }
        | Ast::Call { at, .. }
        | Ast::Case { at, .. }
        | Ast::Selection { at, .. }
        | Ast::NullIf { at, .. }
        | Ast::Array { at, .. }
        | Ast::Position { at, .. }
        | Ast::Substring { at, .. }
        | Ast::SubstringFrom { at, .. }
        | Ast::Trim { at, .. }
        | Ast::TrimFrom { at, .. }
        | Ast::Extract { at, .. }
        | Ast::Sign { at, .. }
        | Ast::Prefix { at, .. }
        | Ast::Not { at, .. } => u64::from(at.start),
        Ast::Typed { target, .. } => u64::from(target.get().at.start),
        Ast::Cast { at, inner, .. } => u64::from(at.start).min(first_of(inner.get())),
        Ast::Subscript { array, .. } => first_of(array.get()),
        Ast::Between { arg, .. } | Ast::In { arg, .. } | Ast::Is { arg, .. } => first_of(arg.get()),
        Ast::Power { left, .. }
        | Ast::Product { left, .. }
        | Ast::Sum { left, .. }
        | Ast::Other { left, .. }
        | Ast::Like { left, .. }
        | Ast::Compare { left, .. }
        | Ast::IsDistinct { left, .. }
        | Ast::And { left, .. }
        | Ast::Or { left, .. } => first_of(left.get()),
    }
}
