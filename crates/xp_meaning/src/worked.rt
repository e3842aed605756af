//! What trees give, and what is permitted of them, computed from the definitions alone.
ghost use Rattle.std.specs.Prelude.{◌≡◌, [], ◌∷◌, Ok, Err, pos, true, false};
ghost use Rattle.xp_base.specs.declared.codes.EvalError.{EvalError};
ghost use Rattle.xp_base.specs.declared.codes.EvalError.TheVariants.{DivisionByZero};
ghost use Rattle.xp_base.specs.declared.numbers.BodyNo.{BodyNo};
ghost use Rattle.xp_base.specs.declared.numbers.RowNo.{RowNo};
ghost use Rattle.xp_tree.specs.declared.parts.NodeType.{NodeType};
ghost use Rattle.xp_meaning.specs.Early.{early};
ghost use Rattle.xp_meaning.specs.Evaluable.{is_evaluable};
ghost use Rattle.xp_meaning.specs.Meaning.{outcome};
ghost use Rattle.xp_meaning.specs.Permits.{Permits};
ghost use Rattle.xp_meaning.specs.Primitives.{Primitives};
ghost use Rattle.xp_meaning.specs.Worked.{AreThese, DividesByZero, IsThis, false_and_quotient, null_over_quotient, one_unless, over_column, quotient};
ghost use Rattle.xp_tree.specs.Term.{column, conjunction, constant, leaf, two};

use xp_value::Value;

/// A law: worked rows of the meaning of trees.
pub fn worked_outcomes()
    ensures stops { (p : Primitives) (ty : NodeType) → outcome p [] Value.Null (two conjunction (leaf (constant (Value.Bool false)) ty) (leaf (column 0 []) ty) ty) ≡ Ok (Value.Bool false) }
{}

/// A law: worked rows of what is permitted, 1/0 being an error.
pub fn worked_permits()
    // false AND 1/0
    ensures arm_raises { (p : Primitives) (d : BodyNo) (r : RowNo) (ty : NodeType) → DividesByZero p d
        → AreThese (Permits p [] Value.Null (false_and_quotient d r ty)) (Ok (Value.Bool false)) (Err DivisionByZero) }
    // CASE WHEN x THEN 1 ELSE 1/0 END, where x is true
    ensures constant_part { (p : Primitives) (d : BodyNo) (r : RowNo) (ty : NodeType) → DividesByZero p d
        → AreThese (Permits p (Value.Bool true ∷ []) Value.Null (one_unless d r ty (quotient d r ty))) (Ok (Value.Int (pos 1))) (Err DivisionByZero) }
    // CASE WHEN x THEN 1 ELSE 1/y END, where x is true and y is 0
    ensures no_constant_part { (p : Primitives) (d : BodyNo) (r : RowNo) (ty : NodeType) → DividesByZero p d
        → IsThis (Permits p (Value.Bool true ∷ Value.Int (pos 0) ∷ []) Value.Null (one_unless d r ty (over_column d r ty))) (Ok (Value.Int (pos 1))) }
    // NULL / (1/0)
    ensures strict_null { (p : Primitives) (d : BodyNo) (r : RowNo) (ty : NodeType) → DividesByZero p d
        → AreThese (Permits p [] Value.Null (null_over_quotient d r ty)) (Ok Value.Null) (Err DivisionByZero) }
{}
