//! Expressions, whose parts are resolved from left to right before the form itself.
ghost use Rattle.std.specs.Prelude.{◌≡◌, ◌≤◌, ◌<◌, ◌+◌, ◌∷◌, [], ℕ, IfOk, List, Ok, Option, Result, codes, length, map, option_map};
ghost use Rattle.xp_base.specs.FromLeft.{and_then};
ghost use Rattle.xp_base.specs.OrMemory.{OrMemory};
ghost use Rattle.xp_coerce.specs.Asked.{IsSource};
ghost use Rattle.xp_grammar.specs.declared.ast.Ast.{Ast};
ghost use Rattle.xp_named.specs.declared.refusal.Refusal.{Refusal};
ghost use Rattle.xp_resolve.specs.declared.made.Gathered.{Gathered};
ghost use Rattle.xp_resolve.specs.inner.Sources.{AreSources, IsScene};
ghost use Rattle.xp_resolve.specs.Made.{is_memory};
ghost use Rattle.xp_forms.specs.Rewritten.{lower_operator, upper_operator};
ghost use Rattle.xp_forms.specs.inner.Arms.{AreResolved, IsResolved};
ghost use Rattle.xp_expressions.specs.declared.branches.ArmsMade.{ArmsMade};
ghost use Rattle.xp_expressions.specs.inner.Arms.{branch_of};
ghost use Rattle.xp_expressions.specs.inner.Halves.{both_halved};
ghost use Rattle.xp_expressions.specs.Branches as branches;
ghost use Rattle.xp_expressions.specs.Casts as casts;
ghost use Rattle.xp_expressions.specs.Composed as composed;
ghost use Rattle.xp_expressions.specs.Operands as gathering;
ghost use Rattle.xp_expressions.specs.Words as by_words;
ghost use Rattle.xp_expressions.specs.Expressions.{meaning, resolved};

use crate::branches::{ArmMade, ArmsMade, arm_of, case_over, no_arms, with_when};
use crate::casts::{cast_operand, empty_cast, typed};
use crate::composed::{
    alone, array, beside, connective, distinction, like, negation, null_if, selection, subscript,
    test,
};
use crate::empty::empty_place;
use crate::operands::{
    begun, over_arguments, over_operands, over_swapped, over_written, trim_name, with_made,
    with_one, with_text,
};
use sqlite_items::Boxed;
use std::alloc::Global;
use xp_base::{Code, EvalError, Span};
use xp_forms::{
    Both, Connective, between_connective, first_half, in_connective, lower_operator,
    member_operator, upper_operator,
};
use xp_grammar::{Arm, Ast, TypeWords};
use xp_resolve::{
    Gathered, Made, Order, Progress, Refusal, Scene, named_column, null_literal, number, refused,
    text_literal, truth,
};

/// The expression, behind what is made so far of the statement. It is refused as the first of its
/// parts that is refused, or else as its own form is.
#[cycle(resolve)]
pub fn resolve(
    alloc: Global,
    scene: &Scene<'_>,
    ast: &Ast,
    progress: Progress,
) -> Result<Made, Refusal>
    requires scene { IsScene scene.now }
    ensures value { OrMemory is_memory (resolved scene.now ast.now progress) result }
    ensures source { IfOk result (λ m. IsSource scene.now.c m.part.tree) }
{
    let nodes = progress.nodes;
    match ast {
        Ast::Number { at, value, whole } => {
            number(alloc, scene, u64::from(at.start), *value, *whole, progress)
        }
        Ast::Wide { at } => refused(Code::Raised(EvalError::Limit), u64::from(at.start)),
        Ast::Text { at, text } => {
            text_literal(alloc, scene, u64::from(at.start), text.as_str(), progress)
        }
        Ast::Bool { at, value } => truth(alloc, scene, u64::from(at.start), *value, progress),
        Ast::Null { at } => null_literal(alloc, scene, u64::from(at.start), progress),
        Ast::Column { at, name } => {
            named_column(alloc, scene, u64::from(at.start), name.as_str(), progress)
        }
        Ast::Typed { target, at, text } => {
            typed(alloc, scene, *at, target.get(), text.as_str(), progress)
        }
        Ast::Paren { at: _, inner } => resolve(alloc, scene, inner.get(), progress),
        Ast::Call {
            at,
            name,
            args,
            variadic,
        } => {
            let all = gather(alloc, scene, args.as_slice(), progress);
            over_arguments(
                alloc,
                scene,
                Order::AsWritten,
                *at,
                name.as_str(),
                *variadic,
                nodes,
                all,
            )
        }
        Ast::Cast { at, inner, target } => {
            cast(alloc, scene, *at, target.get(), inner.get(), progress)
        }
        Ast::Case {
            at,
            operand,
            arms,
            otherwise,
        } => choice(
            alloc,
            scene,
            *at,
            arms.as_slice(),
            operand,
            otherwise,
            progress,
        ),
        Ast::Selection {
            at,
            selection: which,
            args,
        } => {
            let all = gather(alloc, scene, args.as_slice(), progress);
            selection(alloc, scene, *at, *which, nodes, all)
        }
        Ast::NullIf { at, left, right } => {
            let both = pair(alloc, scene, left.get(), right.get(), progress);
            null_if(alloc, scene, *at, nodes, both)
        }
        Ast::Array { at, elements } => {
            let all = gather(alloc, scene, elements.as_slice(), progress);
            array(alloc, scene, *at, nodes, all)
        }
        Ast::Position { at, part, whole } => {
            let both = pair(alloc, scene, part.get(), whole.get(), progress);
            over_swapped(alloc, scene, *at, "position", nodes, both)
        }
        Ast::Substring { at, args } => {
            let all = gather(alloc, scene, args.as_slice(), progress);
            over_written(alloc, scene, *at, "substring", nodes, all)
        }
        Ast::SubstringFrom {
            at,
            text,
            from,
            length,
        } => {
            let one = first(alloc, scene, text.get(), progress);
            let two = with_place(alloc, scene, *at, one, from);
            let all = with_optional(alloc, scene, two, length);
            over_written(alloc, scene, *at, "substring", nodes, all)
        }
        Ast::Trim {
            at,
            side,
            text,
            set,
        } => {
            let one = first(alloc, scene, text.get(), progress);
            let all = with_optional(alloc, scene, one, set);
            over_written(alloc, scene, *at, trim_name(*side), nodes, all)
        }
        Ast::TrimFrom {
            at,
            side,
            set,
            text,
        } => {
            let some = with_optional(alloc, scene, Ok(begun(alloc, progress)), set);
            let all = with_operand(alloc, scene, some, text.get());
            over_swapped(alloc, scene, *at, trim_name(*side), nodes, all)
        }
        Ast::Extract {
            at,
            field_at,
            field,
            source,
        } => {
            let one = with_text(alloc, scene, *field_at, field.as_str(), progress);
            let both = with_operand(alloc, scene, one, source.get());
            over_written(alloc, scene, *at, "extract", nodes, both)
        }
        Ast::Subscript { at, array, index } => {
            let operands = both(alloc, scene, array.get(), index.get(), progress);
            subscript(alloc, scene, *at, nodes, operands)
        }
        Ast::Sign { at, name, arg } | Ast::Prefix { at, name, arg } => {
            let one = first(alloc, scene, arg.get(), progress);
            over_operands(alloc, scene, *at, name.as_str(), nodes, one)
        }
        Ast::Power {
            at,
            name,
            left,
            right,
        }
        | Ast::Product {
            at,
            name,
            left,
            right,
        }
        | Ast::Sum {
            at,
            name,
            left,
            right,
        }
        | Ast::Other {
            at,
            name,
            left,
            right,
        }
        | Ast::Compare {
            at,
            name,
            left,
            right,
        } => operation(
            alloc,
            scene,
            *at,
            name.as_str(),
            left.get(),
            right.get(),
            progress,
        ),
        Ast::Between {
            at,
            negated,
            arg,
            low,
            high,
        } => between(
            alloc,
            scene,
            *at,
            *negated,
            arg.get(),
            low.get(),
            high.get(),
            progress,
        ),
        Ast::In {
            at,
            negated,
            arg,
            list,
        } => inside(
            alloc,
            scene,
            *at,
            *negated,
            list.as_slice(),
            arg.get(),
            progress,
        ),
        Ast::Like {
            at,
            negated,
            any_case,
            left,
            right,
        } => {
            let both = pair(alloc, scene, left.get(), right.get(), progress);
            like(alloc, scene, *at, *negated, *any_case, nodes, both)
        }
        Ast::Is {
            at,
            negated,
            test: which,
            arg,
        } => {
            let operand = resolve(alloc, scene, arg.get(), progress);
            test(alloc, scene, *at, *which, *negated, nodes, operand)
        }
        Ast::IsDistinct {
            at,
            negated,
            left,
            right,
        } => {
            let both = pair(alloc, scene, left.get(), right.get(), progress);
            distinction(alloc, scene, *at, *negated, nodes, both)
        }
        Ast::Not { at, arg } => {
            let operand = resolve(alloc, scene, arg.get(), progress);
            negation(alloc, scene, *at, nodes, operand)
        }
        Ast::And { at, left, right } => {
            let operands = both(alloc, scene, left.get(), right.get(), progress);
            connective(alloc, scene, *at, Connective::And, nodes, operands)
        }
        Ast::Or { at, left, right } => {
            let operands = both(alloc, scene, left.get(), right.get(), progress);
            connective(alloc, scene, *at, Connective::Or, nodes, operands)
        }
    }
}

/// The operand, behind those before it.
#[cycle(resolve)]
pub fn with_operand(
    alloc: Global,
    scene: &Scene<'_>,
    before: Result<Gathered, Refusal>,
    operand: &Ast,
) -> Result<Gathered, Refusal>
    requires scene { IsScene scene.now }
    requires sources { IfOk before (λ g. AreSources scene.now.c g.parts) }
    ensures value { (said : Result Gathered Refusal) → OrMemory is_memory said before
        → OrMemory is_memory (and_then said (gathering.with_operand (resolved scene.now operand.now))) result }
    ensures sources { IfOk result (λ g. AreSources scene.now.c g.parts) }
    ensures count { (n : ℕ) → IfOk before (λ g. length g.parts ≡ n) → IfOk result (λ g. length g.parts ≡ n + 1) }
{
    match before {
        Ok(before) => {
            let made = resolve(alloc, scene, operand, before.progress);
            with_made(before.parts, made)
        }
        Err(refusal) => Err(refusal),
    }
}

/// The one operand, or the first.
#[cycle(resolve)]
fn first(
    alloc: Global,
    scene: &Scene<'_>,
    operand: &Ast,
    progress: Progress,
) -> Result<Gathered, Refusal>
    requires scene { IsScene scene.now }
    ensures value { OrMemory is_memory (gathering.with_operand (resolved scene.now operand.now) (gathering.begun progress)) result }
    ensures sources { IfOk result (λ g. AreSources scene.now.c g.parts) }
    ensures count { IfOk result (λ g. length g.parts ≡ 1) }
{
    with_operand(alloc, scene, Ok(begun(alloc, progress)), operand)
}

/// Two operands.
#[cycle(resolve)]
fn pair(
    alloc: Global,
    scene: &Scene<'_>,
    left: &Ast,
    right: &Ast,
    progress: Progress,
) -> Result<Gathered, Refusal>
    requires scene { IsScene scene.now }
    ensures value { OrMemory is_memory (gathering.gathered (Ok (gathering.begun progress)) (resolved scene.now left.now ∷ resolved scene.now right.now ∷ [])) result }
    ensures sources { IfOk result (λ g. AreSources scene.now.c g.parts) }
    ensures two { IfOk result (λ g. length g.parts ≡ 2) }
{
    let one = first(alloc, scene, left, progress);
    with_operand(alloc, scene, one, right)
}

/// Two operands, side by side.
#[cycle(resolve)]
fn both(
    alloc: Global,
    scene: &Scene<'_>,
    left: &Ast,
    right: &Ast,
    progress: Progress,
) -> Result<Both, Refusal>
    requires scene { IsScene scene.now }
    ensures value { OrMemory is_memory (gathering.both (resolved scene.now left.now) (resolved scene.now right.now) progress) result }
    ensures left { IfOk result (λ b. IsSource scene.now.c b.left.tree) }
    ensures right { IfOk result (λ b. IsSource scene.now.c b.right.tree) }
{
    match resolve(alloc, scene, left, progress) {
        Ok(left) => {
            let right = resolve(alloc, scene, right, left.progress);
            beside(left.part, right)
        }
        Err(refusal) => Err(refusal),
    }
}

/// An operand that may be left out.
#[cycle(resolve)]
fn with_optional(
    alloc: Global,
    scene: &Scene<'_>,
    before: Result<Gathered, Refusal>,
    operand: &Option<Boxed<Ast>>,
) -> Result<Gathered, Refusal>
    requires scene { IsScene scene.now }
    requires sources { IfOk before (λ g. AreSources scene.now.c g.parts) }
    ensures value { (said : Result Gathered Refusal) → OrMemory is_memory said before
        → OrMemory is_memory (gathering.gathered said (gathering.optional (option_map (resolved scene.now) operand.now))) result }
    ensures sources { IfOk result (λ g. AreSources scene.now.c g.parts) }
{
    match operand {
        Some(operand) => with_operand(alloc, scene, before, operand.get()),
        None => before,
    }
}

/// The operand behind FROM, which is 1 where it is left out.
#[cycle(resolve)]
fn with_place(
    alloc: Global,
    scene: &Scene<'_>,
    at: Span,
    before: Result<Gathered, Refusal>,
    operand: &Option<Boxed<Ast>>,
) -> Result<Gathered, Refusal>
    requires scene { IsScene scene.now }
    requires sources { IfOk before (λ g. AreSources scene.now.c g.parts) }
    ensures value { (said : Result Gathered Refusal) → OrMemory is_memory said before
        → OrMemory is_memory (and_then said (gathering.with_operand (by_words.or_one scene.now at (option_map (resolved scene.now) operand.now)))) result }
    ensures sources { IfOk result (λ g. AreSources scene.now.c g.parts) }
{
    match operand {
        Some(operand) => with_operand(alloc, scene, before, operand.get()),
        None => with_one(alloc, scene, at, before),
    }
}

/// The operands from left to right.
#[cycle(resolve)]
fn gather(
    alloc: Global,
    scene: &Scene<'_>,
    operands: &[Ast],
    progress: Progress,
) -> Result<Gathered, Refusal>
    requires scene { IsScene scene.now }
    ensures value { OrMemory is_memory (gathering.gathered (Ok (gathering.begun progress)) (map (resolved scene.now) operands.now)) result }
    ensures sources { IfOk result (λ g. AreSources scene.now.c g.parts) }
{
    let mut all = Ok(begun(alloc, progress));
    'operands: for operand in operands {
        all = with_operand(alloc, scene, all, operand);
    }
    all
}

/// The operator of that name over two operands.
#[cycle(resolve)]
fn operation(
    alloc: Global,
    scene: &Scene<'_>,
    at: Span,
    name: &str,
    left: &Ast,
    right: &Ast,
    progress: Progress,
) -> Result<Made, Refusal>
    requires scene { IsScene scene.now }
    ensures value { OrMemory is_memory (by_words.operator scene.now at name.now (resolved scene.now left.now ∷ resolved scene.now right.now ∷ []) progress) result }
    ensures source { IfOk result (λ m. IsSource scene.now.c m.part.tree) }
{
    let nodes = progress.nodes;
    let both = pair(alloc, scene, left, right, progress);
    over_operands(alloc, scene, at, name, nodes, both)
}

/// [NOT] BETWEEN: the operators over the operand and each bound, side by side.
#[cycle(resolve)]
fn bounds(
    alloc: Global,
    scene: &Scene<'_>,
    at: Span,
    negated: bool,
    operand: &Ast,
    low: &Ast,
    high: &Ast,
    progress: Progress,
) -> Result<Both, Refusal>
    requires scene { IsScene scene.now }
    ensures value { OrMemory is_memory (gathering.both
        (by_words.operator scene.now at (lower_operator negated) (resolved scene.now operand.now ∷ resolved scene.now low.now ∷ []))
        (by_words.operator scene.now at (upper_operator negated) (resolved scene.now operand.now ∷ resolved scene.now high.now ∷ [])) progress) result }
    ensures left { IfOk result (λ b. IsSource scene.now.c b.left.tree) }
    ensures right { IfOk result (λ b. IsSource scene.now.c b.right.tree) }
{
    match operation(
        alloc,
        scene,
        at,
        lower_operator(negated),
        operand,
        low,
        progress,
    ) {
        Ok(lower) => {
            let upper = operation(
                alloc,
                scene,
                at,
                upper_operator(negated),
                operand,
                high,
                lower.progress,
            );
            beside(lower.part, upper)
        }
        Err(refusal) => Err(refusal),
    }
}

/// [NOT] BETWEEN, whose operand is resolved for each bound.
#[cycle(resolve)]
fn between(
    alloc: Global,
    scene: &Scene<'_>,
    at: Span,
    negated: bool,
    operand: &Ast,
    low: &Ast,
    high: &Ast,
    progress: Progress,
) -> Result<Made, Refusal>
    requires scene { IsScene scene.now }
    ensures value { OrMemory is_memory (composed.between scene.now at negated (resolved scene.now operand.now) (resolved scene.now low.now) (resolved scene.now high.now) progress) result }
    ensures source { IfOk result (λ m. IsSource scene.now.c m.part.tree) }
{
    let nodes = progress.nodes;
    let both = bounds(alloc, scene, at, negated, operand, low, high, progress);
    connective(alloc, scene, at, between_connective(negated), nodes, both)
}

/// Members of [NOT] IN in two halves, side by side.
#[cycle(resolve)]
fn both_halves(
    alloc: Global,
    scene: &Scene<'_>,
    at: Span,
    negated: bool,
    list: &[Ast],
    operand: &Ast,
    progress: Progress,
) -> Result<Both, Refusal>
    requires scene { IsScene scene.now }
    requires several { 1 < length list.now }
    ensures value { (depth : ℕ) → length list.now ≤ depth + 1 → OrMemory is_memory (both_halved scene.now at negated depth (map (composed.member scene.now at negated (resolved scene.now operand.now)) (map (resolved scene.now) list.now)) progress) result }
    ensures left { IfOk result (λ b. IsSource scene.now.c b.left.tree) }
    ensures right { IfOk result (λ b. IsSource scene.now.c b.right.tree) }
{
    let (before, behind) = list.split_at(first_half(list.len()));
    match halves(alloc, scene, at, negated, before, operand, progress) {
        Ok(left) => {
            let right = halves(alloc, scene, at, negated, behind, operand, left.progress);
            beside(left.part, right)
        }
        Err(refusal) => Err(refusal),
    }
}

/// Members of [NOT] IN, connected by halves. The operand is resolved for each.
#[cycle(resolve)]
fn halves(
    alloc: Global,
    scene: &Scene<'_>,
    at: Span,
    negated: bool,
    list: &[Ast],
    operand: &Ast,
    progress: Progress,
) -> Result<Made, Refusal>
    requires scene { IsScene scene.now }
    ensures value { (depth : ℕ) → length list.now ≤ depth → OrMemory is_memory (composed.halved scene.now at negated depth (map (composed.member scene.now at negated (resolved scene.now operand.now)) (map (resolved scene.now) list.now)) progress) result }
    ensures source { IfOk result (λ m. IsSource scene.now.c m.part.tree) }
{
    match list {
        [] => refused(Code::Undefined, u64::from(at.start)),
        [only] => operation(
            alloc,
            scene,
            at,
            member_operator(negated),
            operand,
            only,
            progress,
        ),
        _ => {
            let nodes = progress.nodes;
            let both = both_halves(alloc, scene, at, negated, list, operand, progress);
            connective(alloc, scene, at, in_connective(negated), nodes, both)
        }
    }
}

/// [NOT] IN.
#[cycle(resolve)]
fn inside(
    alloc: Global,
    scene: &Scene<'_>,
    at: Span,
    negated: bool,
    list: &[Ast],
    operand: &Ast,
    progress: Progress,
) -> Result<Made, Refusal>
    requires scene { IsScene scene.now }
    ensures value { OrMemory is_memory (composed.inside scene.now at negated (resolved scene.now operand.now) (map (resolved scene.now) list.now) progress) result }
    ensures source { IfOk result (λ m. IsSource scene.now.c m.part.tree) }
{
    match list {
        [] => refused(Code::Undefined, u64::from(at.start)),
        [only] => {
            let both = operation(
                alloc,
                scene,
                at,
                member_operator(negated),
                operand,
                only,
                progress,
            );
            alone(alloc, scene, at, both)
        }
        _ => halves(alloc, scene, at, negated, list, operand, progress),
    }
}

/// The condition of an arm of CASE: behind CASE with an operand, that the operand is equal to it.
#[cycle(resolve)]
fn condition(
    alloc: Global,
    scene: &Scene<'_>,
    at: Span,
    when: &Ast,
    operand: &Option<Boxed<Ast>>,
    progress: Progress,
) -> Result<Made, Refusal>
    requires scene { IsScene scene.now }
    ensures value { (gives : gathering.Resolution) → OrMemory is_memory (branches.condition scene.now (option_map (resolved scene.now) operand.now) (record { at = at; when = resolved scene.now when.now; gives = gives }) progress) result }
    ensures source { IfOk result (λ m. IsSource scene.now.c m.part.tree) }
{
    match operand {
        Some(operand) => operation(alloc, scene, at, "=", operand.get(), when, progress),
        None => resolve(alloc, scene, when, progress),
    }
}

/// An arm of CASE: the condition, and then the result.
#[cycle(resolve)]
fn arm_made(
    alloc: Global,
    scene: &Scene<'_>,
    arm: &Arm,
    operand: &Option<Boxed<Ast>>,
    progress: Progress,
) -> Result<ArmMade, Refusal>
    requires scene { IsScene scene.now }
    ensures value { OrMemory is_memory (branches.arm scene.now (option_map (resolved scene.now) operand.now) (branch_of scene.now arm.now) progress) result }
    ensures resolved { IfOk result (λ m. IsResolved scene.now.c m.when) }
{
    match condition(alloc, scene, arm.at, &arm.when, operand, progress) {
        Ok(when) => {
            let gives = resolve(alloc, scene, &arm.gives, when.progress);
            arm_of(arm.at, when.part, gives)
        }
        Err(refusal) => Err(refusal),
    }
}

/// The arm of CASE, behind those before it.
#[cycle(resolve)]
fn with_arm(
    alloc: Global,
    scene: &Scene<'_>,
    before: Result<ArmsMade, Refusal>,
    arm: &Arm,
    operand: &Option<Boxed<Ast>>,
) -> Result<ArmsMade, Refusal>
    requires scene { IsScene scene.now }
    requires resolved { IfOk before (λ all. AreResolved scene.now.c all.whens) }
    ensures value { (said : Result ArmsMade Refusal) → OrMemory is_memory said before
        → OrMemory is_memory (and_then said (branches.with_arm scene.now (option_map (resolved scene.now) operand.now) (branch_of scene.now arm.now))) result }
    ensures resolved { IfOk result (λ all. AreResolved scene.now.c all.whens) }
{
    match before {
        Ok(before) => {
            let made = arm_made(alloc, scene, arm, operand, before.progress);
            with_when(before.whens, made)
        }
        Err(refusal) => Err(refusal),
    }
}

/// The arms of CASE from left to right.
#[cycle(resolve)]
fn arms_of(
    alloc: Global,
    scene: &Scene<'_>,
    arms: &[Arm],
    operand: &Option<Boxed<Ast>>,
    progress: Progress,
) -> Result<ArmsMade, Refusal>
    requires scene { IsScene scene.now }
    ensures value { OrMemory is_memory (branches.arms scene.now (option_map (resolved scene.now) operand.now) (Ok (branches.no_arms progress)) (map (branch_of scene.now) arms.now)) result }
    ensures resolved { IfOk result (λ all. AreResolved scene.now.c all.whens) }
{
    let mut all = Ok(no_arms(alloc, progress));
    'arms: for arm in arms {
        all = with_arm(alloc, scene, all, arm, operand);
    }
    all
}

/// What stands behind ELSE, which is NULL where it is left out.
#[cycle(resolve)]
fn or_null(
    alloc: Global,
    scene: &Scene<'_>,
    at: Span,
    otherwise: &Option<Boxed<Ast>>,
    progress: Progress,
) -> Result<Made, Refusal>
    requires scene { IsScene scene.now }
    ensures value { OrMemory is_memory (branches.or_null scene.now at (option_map (resolved scene.now) otherwise.now) progress) result }
    ensures source { IfOk result (λ m. IsSource scene.now.c m.part.tree) }
{
    match otherwise {
        Some(otherwise) => resolve(alloc, scene, otherwise.get(), progress),
        None => null_literal(alloc, scene, u64::from(at.start), progress),
    }
}

/// CASE.
#[cycle(resolve)]
fn choice(
    alloc: Global,
    scene: &Scene<'_>,
    at: Span,
    arms: &[Arm],
    operand: &Option<Boxed<Ast>>,
    otherwise: &Option<Boxed<Ast>>,
    progress: Progress,
) -> Result<Made, Refusal>
    requires scene { IsScene scene.now }
    ensures value { OrMemory is_memory (branches.choice scene.now at (option_map (resolved scene.now) operand.now) (map (branch_of scene.now) arms.now) (option_map (resolved scene.now) otherwise.now) progress) result }
    ensures source { IfOk result (λ m. IsSource scene.now.c m.part.tree) }
{
    let nodes = progress.nodes;
    match arms_of(alloc, scene, arms, operand, progress) {
        Ok(all) => {
            let last = or_null(alloc, scene, at, otherwise, all.progress);
            case_over(alloc, scene, at, nodes, all.whens, last)
        }
        Err(refusal) => Err(refusal),
    }
}

/// A cast, which gives an ARRAY without elements its type.
#[cycle(resolve)]
fn cast(
    alloc: Global,
    scene: &Scene<'_>,
    at: Span,
    words: &TypeWords,
    operand: &Ast,
    progress: Progress,
) -> Result<Made, Refusal>
    requires scene { IsScene scene.now }
    ensures value { OrMemory is_memory (casts.cast scene.now at words.now (meaning scene.now operand.now).empty (resolved scene.now operand.now) progress) result }
    ensures source { IfOk result (λ m. IsSource scene.now.c m.part.tree) }
{
    match empty_place(operand) {
        Some(place) => empty_cast(alloc, scene, at, words, place, progress),
        None => {
            let nodes = progress.nodes;
            let made = resolve(alloc, scene, operand, progress);
            cast_operand(alloc, scene, at, words, nodes, made)
        }
    }
}
