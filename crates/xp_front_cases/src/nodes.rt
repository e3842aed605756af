//! What is printed of each node of an expression: its head, and the parts behind it.
use sqlite_items::Boxed;
use std::alloc::AllocError;
use xp_base::{Dec, Span};
use xp_grammar::{Arm, Ast, Item, Selection, Side, TruthTest, TypeWords};

/// What a node begins with.
#[derive(Drop)]
pub enum Head<'a> {
    /// The word of a node with parts.
    Word(&'static str),
    /// The same with a name.
    Named(&'static str, &'a str),
    /// A word or a name alone.
    Bare(&'a str),
    Quoted(&'a str),
    Number(Dec, bool),
}

/// What may be left to print.
#[derive(Drop)]
pub enum Part<'a> {
    Nothing,
    Say(&'static str),
    Label(&'a str),
    Field(Span, &'a str),
    Text(&'a str),
    Type(&'a TypeWords),
    Expr(&'a Ast),
    /// A part that may be missing, with its label.
    Maybe(&'static str, &'a Option<Boxed<Ast>>),
    Exprs(&'a [Ast]),
    Arms(&'a [Arm]),
    Items(&'a [Item]),
    Arm(&'a Arm),
    Item(&'a Item),
}

/// A line that is printed, and the parts that are still to be printed, the next one last.
#[derive(Drop)]
pub struct Line<'a> {
    pub out: String,
    pub left: Vec<Part<'a>>,
}

fn selection_word(selection: Selection) -> &'static str {
    match selection {
        Selection::Coalesce => "coalesce",
        Selection::Greatest => "greatest",
        Selection::Least => "least",
    }
}

fn side_word(side: Option<Side>) -> &'static str {
    match side {
        None => "trim",
        Some(Side::Both) => "trim-both",
        Some(Side::Leading) => "trim-leading",
        Some(Side::Trailing) => "trim-trailing",
    }
}

fn test_word(test: TruthTest, negated: bool) -> &'static str {
    match (test, negated) {
        (TruthTest::Null, false) => "null",
        (TruthTest::True, false) => "true",
        (TruthTest::False, false) => "false",
        (TruthTest::Unknown, false) => "unknown",
        (TruthTest::Null, true) => "not-null",
        (TruthTest::True, true) => "not-true",
        (TruthTest::False, true) => "not-false",
        (TruthTest::Unknown, true) => "not-unknown",
    }
}

fn either(test: bool, yes: &'static str, no: &'static str) -> &'static str {
    if test { yes } else { no }
}

fn put_head(out: &mut String, head: Head<'_>, at: Span) -> Result<(), AllocError> {
    match head {
        Head::Word(word) => write!(out, " ({word}@{}", at.start),
        Head::Named(word, name) => write!(out, " ({word} {name}@{}", at.start),
        Head::Bare(word) => write!(out, " {word}@{}", at.start),
        Head::Quoted(text) => write!(out, " '{text}'@{}", at.start),
        Head::Number(value, true) => write!(out, " {}@{}", value.coef, at.start),
        Head::Number(value, false) => {
            write!(out, " {}/{}@{}", value.coef, value.scale, at.start)
        }
    }
}

fn leaf(line: &mut Line<'_>, head: Head<'_>, at: Span) -> Result<(), AllocError> {
    put_head(&mut line.out, head, at)
}

fn one<'a>(
    line: &mut Line<'a>,
    head: Head<'_>,
    at: Span,
    part: Part<'a>,
) -> Result<(), AllocError> {
    put_head(&mut line.out, head, at)?;
    line.left.push(Part::Say(")"))?;
    line.left.push(part)?;
    Ok(())
}

fn two<'a>(
    line: &mut Line<'a>,
    head: Head<'_>,
    at: Span,
    first: Part<'a>,
    second: Part<'a>,
) -> Result<(), AllocError> {
    one(line, head, at, second)?;
    line.left.push(first)?;
    Ok(())
}

fn three<'a>(
    line: &mut Line<'a>,
    head: Head<'_>,
    at: Span,
    first: Part<'a>,
    second: Part<'a>,
    third: Part<'a>,
) -> Result<(), AllocError> {
    two(line, head, at, second, third)?;
    line.left.push(first)?;
    Ok(())
}

/// A node with two operands.
fn pair<'a>(
    line: &mut Line<'a>,
    head: Head<'_>,
    at: Span,
    left: &'a Boxed<Ast>,
    right: &'a Boxed<Ast>,
) -> Result<(), AllocError> {
    two(
        line,
        head,
        at,
        Part::Expr(left.get()),
        Part::Expr(right.get()),
    )
}

fn call_node<'a>(line: &mut Line<'a>, expr: &'a Ast) -> Result<(), AllocError> {
    match expr {
        Ast::Call {
            at,
            name,
            args,
            variadic,
        } => one(
            line,
            Head::Named(either(*variadic, "variadic", "call"), name.as_str()),
            *at,
            Part::Exprs(args.as_slice()),
        ),
        Ast::Cast { at, inner, target } => two(
            line,
            Head::Word("cast"),
            *at,
            Part::Expr(inner.get()),
            Part::Type(target.get()),
        ),
        Ast::Case {
            at,
            operand,
            arms,
            otherwise,
        } => three(
            line,
            Head::Word("case"),
            *at,
            Part::Maybe("of", operand),
            Part::Arms(arms.as_slice()),
            Part::Maybe("else", otherwise),
        ),
        Ast::Selection {
            at,
            selection,
            args,
        } => one(
            line,
            Head::Word(selection_word(*selection)),
            *at,
            Part::Exprs(args.as_slice()),
        ),
        Ast::NullIf { at, left, right } => pair(line, Head::Word("nullif"), *at, left, right),
        Ast::Array { at, elements } => {
            one(
                line,
                Head::Word("array"),
                *at,
                Part::Exprs(elements.as_slice()),
            )
        }
        Ast::Number { at, value, whole } => leaf(line, Head::Number(*value, *whole), *at),
        Ast::Wide { at } => leaf(line, Head::Bare("wide"), *at),
        Ast::Text { at, text } => leaf(line, Head::Quoted(text.as_str()), *at),
        Ast::Bool { at, value } => leaf(line, Head::Bare(either(*value, "true", "false")), *at),
        Ast::Null { at } => leaf(line, Head::Bare("null"), *at),
        Ast::Column { at, name } => leaf(line, Head::Bare(name.as_str()), *at),
        Ast::Typed { target, at, text } => two(
            line,
            Head::Word("typed"),
            *at,
            Part::Type(target.get()),
            Part::Text(text.as_str()),
        ),
        _ => Ok(()),
    }
}

fn text_node<'a>(line: &mut Line<'a>, expr: &'a Ast) -> Result<(), AllocError> {
    match expr {
        Ast::Position { at, part, whole } => pair(line, Head::Word("position"), *at, part, whole),
        Ast::Substring { at, args } => {
            one(
                line,
                Head::Word("substring"),
                *at,
                Part::Exprs(args.as_slice()),
            )
        }
        Ast::SubstringFrom {
            at,
            text,
            from,
            length,
        } => three(
            line,
            Head::Word("substring"),
            *at,
            Part::Expr(text.get()),
            Part::Maybe("from", from),
            Part::Maybe("for", length),
        ),
        Ast::Trim {
            at,
            side,
            text,
            set,
        } => two(
            line,
            Head::Word(side_word(*side)),
            *at,
            Part::Expr(text.get()),
            Part::Maybe("set", set),
        ),
        Ast::TrimFrom {
            at,
            side,
            set,
            text,
        } => three(
            line,
            Head::Word(side_word(*side)),
            *at,
            Part::Maybe("set", set),
            Part::Say(" from"),
            Part::Expr(text.get()),
        ),
        Ast::Extract {
            at,
            field_at,
            field,
            source,
        } => two(
            line,
            Head::Word("extract"),
            *at,
            Part::Field(*field_at, field.as_str()),
            Part::Expr(source.get()),
        ),
        _ => call_node(line, expr),
    }
}

fn test_node<'a>(line: &mut Line<'a>, expr: &'a Ast) -> Result<(), AllocError> {
    match expr {
        Ast::Between {
            at,
            negated,
            arg,
            low,
            high,
        } => three(
            line,
            Head::Word(either(*negated, "not-between", "between")),
            *at,
            Part::Expr(arg.get()),
            Part::Expr(low.get()),
            Part::Expr(high.get()),
        ),
        Ast::In {
            at,
            negated,
            arg,
            list,
        } => two(
            line,
            Head::Word(either(*negated, "not-in", "in")),
            *at,
            Part::Expr(arg.get()),
            Part::Exprs(list.as_slice()),
        ),
        Ast::Like {
            at,
            negated,
            any_case,
            left,
            right,
        } => {
            let like = either(*negated, "not-like", "like");
            let ilike = either(*negated, "not-ilike", "ilike");
            pair(
                line,
                Head::Word(either(*any_case, ilike, like)),
                *at,
                left,
                right,
            )
        }
        Ast::Is {
            at,
            negated,
            test,
            arg,
        } => one(
            line,
            Head::Word(test_word(*test, *negated)),
            *at,
            Part::Expr(arg.get()),
        ),
        Ast::IsDistinct {
            at,
            negated,
            left,
            right,
        } => {
            let word = either(*negated, "not-distinct", "distinct");
            pair(line, Head::Word(word), *at, left, right)
        }
        Ast::Not { at, arg } => one(line, Head::Word("not"), *at, Part::Expr(arg.get())),
        Ast::And { at, left, right } => pair(line, Head::Word("and"), *at, left, right),
        Ast::Or { at, left, right } => pair(line, Head::Word("or"), *at, left, right),
        _ => text_node(line, expr),
    }
}

/// Prints the head of an expression, and leaves its parts.
pub fn put_node<'a>(line: &mut Line<'a>, expr: &'a Ast) -> Result<(), AllocError> {
    match expr {
        Ast::Paren { at, inner } => one(line, Head::Word("paren"), *at, Part::Expr(inner.get())),
        Ast::Subscript { at, array, index } => pair(
            line,
            Head::Word("subscript"),
            *at,
            array,
            index,
        ),
        Ast::Sign { at, name, arg } => one(
            line,
            Head::Named("sign", name.as_str()),
            *at,
            Part::Expr(arg.get()),
        ),
        Ast::Prefix { at, name, arg } => one(
            line,
            Head::Named("prefix", name.as_str()),
            *at,
            Part::Expr(arg.get()),
        ),
        Ast::Power {
            at,
            name,
            left,
            right,
        } => { pair(line, Head::Named("power", name.as_str()), *at, left, right) }
        Ast::Product {
            at,
            name,
            left,
            right,
        } => {
            pair(
                line,
                Head::Named("product", name.as_str()),
                *at,
                left,
                right,
            )
        }
        Ast::Sum {
            at,
            name,
            left,
            right,
        } => { pair(line, Head::Named("sum", name.as_str()), *at, left, right) }
        Ast::Other {
            at,
            name,
            left,
            right,
        } => { pair(line, Head::Named("other", name.as_str()), *at, left, right) }
        Ast::Compare {
            at,
            name,
            left,
            right,
        } => {
            pair(
                line,
                Head::Named("compare", name.as_str()),
                *at,
                left,
                right,
            )
        }
        _ => test_node(line, expr),
    }
}
