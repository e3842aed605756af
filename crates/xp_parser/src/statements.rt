//! Statements, the items of SELECT and the lists of VALUES (manual 7.3, 7.4 and 7.7).
ghost use Rattle.std.specs.Prelude.{◌≡◌, ◌≤◌, ◌<◌, length, IfOk};
ghost use Rattle.xp_grammar.specs.inner.Machine.{parse};
ghost use Rattle.xp_grammar.specs.Table.{Level, Labelled, Labels, Lists, Selected, Stated, selected};
ghost use Rattle.xp_parser.specs.inner.Nests.{Nests};
ghost use Rattle.xp_parser.specs.inner.Reading.{Reads};
ghost use Rattle.xp_parser.specs.inner.StatementParts as part;

use crate::cursor::Cursor;
use crate::grammar::{Grammar, Nested};
use crate::parse_error::ParseError;
use crate::{held, types};
use sqlite_items::{Boxed, Items};
use std::alloc::Global;
use xp_grammar::{Ast, Class, Exprs, Item, Kind, SelectArm, Statement};
use xp_token::{Mark, Token, Word};

/// The statement of SELECTs with UNION ALL between.
#[tactic(auto, using(crate::proofs::StatementLaws::selected_one, crate::proofs::StatementLaws::selected_more))]
fn united(mut arms: Items<SelectArm>) -> Statement
    requires { 0 < length arms }
    ensures { Stated result ≡ selected arms }
{
    if arms.len() == 1 {
        let SelectArm { at, items } = arms.remove(0);
        return Statement::Select { at, items };
    }
    let at = arms.as_slice()[0].at;
    Statement::UnionAll { at, arms }
}

impl<F: Fn(Global, Nested, &mut Cursor<'_>) -> Result<Boxed<Ast>, ParseError>> Grammar<F> {
    #[tactic(auto, using(crate::proofs::StatementLaws::item_is), unfolding(crate::specs::inner::StatementParts::item_part))]
    fn item(&self, tokens: &mut Cursor<'_>) -> Result<Item, ParseError>
        requires nests { Nests self.now.room (F.pre self.now.nested) (F.post self.now.nested) }
        requires fewer { length tokens.old < self.now.room }
        ensures value { Reads Labelled (parse Level.Item tokens.old) result tokens.new }
        ensures fewer { IfOk result (λ _. length tokens.new < length tokens.old) }
    {
        let expr = self.expr(tokens)?;
        let label = match tokens.eat(Class::Only(Kind::Word(Word::As))) {
            Some(_) => {
                let word = tokens.expect(Class::Names)?;
                Some(held::name(self.alloc, word)?)
            }
            None => None,
        };
        Ok(Item {
            expr: expr.into_inner(),
            label,
        })
    }

    #[tactic(auto, using(crate::proofs::StatementLaws::items_is, crate::proofs::StatementLaws::more_items), unfolding(crate::specs::inner::StatementParts::more_items_part))]
    fn items(&self, tokens: &mut Cursor<'_>) -> Result<Items<Item>, ParseError>
        requires nests { Nests self.now.room (F.pre self.now.nested) (F.post self.now.nested) }
        requires fewer { length tokens.old < self.now.room }
        ensures { Reads Labels (parse Level.Items tokens.old) result tokens.new }
    {
        let mut found = Items::new(self.alloc);
        let first = self.item(tokens)?;
        found.push(first)?;
        'commas: while let Some(_) = tokens.eat(Class::Only(Kind::Mark(Mark::Comma))) {
            let next = self.item(tokens)?;
            found.push(next)?;
        }
        Ok(found)
    }

    /// SELECTs with UNION ALL between.
    #[tactic(auto, using(xp_grammar::proofs::Turns::parse_less, crate::proofs::StatementLaws::selects_is, crate::proofs::StatementLaws::more_selects), unfolding(crate::specs::inner::StatementParts::select_then, crate::specs::inner::StatementParts::more_selects_part))]
    fn selects(&self, tokens: &mut Cursor<'_>) -> Result<Items<SelectArm>, ParseError>
        requires nests { Nests self.now.room (F.pre self.now.nested) (F.post self.now.nested) }
        requires fewer { length tokens.old ≤ self.now.room }
        ensures value { Reads Selected (parse Level.Selects tokens.old) result tokens.new }
        ensures some { IfOk result (λ arms. 0 < length arms) }
    {
        let mut arms = Items::new(self.alloc);
        let mut word = tokens.expect(Class::Only(Kind::Word(Word::Select)))?;
        'arms: loop {
            let items = self.items(tokens)?;
            arms.push(SelectArm {
                at: word.span,
                items,
            })?;
            match tokens.eat(Class::Only(Kind::Word(Word::Union))) {
                Some(union) => {
                    tokens.expect(Class::Only(Kind::Word(Word::All)))?;
                    tokens.expect(Class::Only(Kind::Word(Word::Select)))?;
                    word = union;
                }
                None => return Ok(arms),
            }
        }
    }

    /// The lists of VALUES.
    #[tactic(auto, using(crate::proofs::StatementLaws::rows_is, crate::proofs::StatementLaws::more_rows), unfolding(crate::specs::inner::StatementParts::rows_part, crate::specs::inner::StatementParts::more_rows_part))]
    fn rows(&self, tokens: &mut Cursor<'_>) -> Result<Items<Exprs>, ParseError>
        requires nests { Nests self.now.room (F.pre self.now.nested) (F.post self.now.nested) }
        requires fewer { length tokens.old ≤ self.now.room }
        ensures { Reads Lists (parse Level.Rows tokens.old) result tokens.new }
    {
        let mut lists = Items::new(self.alloc);
        'commas: loop {
            tokens.expect(Class::Only(Kind::Mark(Mark::OpenParen)))?;
            let list = self.list(tokens)?;
            tokens.expect(Class::Only(Kind::Mark(Mark::CloseParen)))?;
            lists.push(list)?;
            if let None = tokens.eat(Class::Only(Kind::Mark(Mark::Comma))) {
                return Ok(lists);
            }
        }
    }

    /// Behind the word STORE.
    #[tactic(auto, using(xp_grammar::proofs::Turns::parse_less), unfolding(crate::specs::inner::StatementParts::store_then))]
    fn store(&self, tokens: &mut Cursor<'_>, word: &Token) -> Result<Boxed<Statement>, ParseError>
        requires nests { Nests self.now.room (F.pre self.now.nested) (F.post self.now.nested) }
        requires fewer { length tokens.old < self.now.room }
        ensures { Reads Stated (part.store_then word.now tokens.old) result tokens.new }
    {
        let target = types::full(self.alloc, tokens)?;
        tokens.expect(Class::Only(Kind::Word(Word::From)))?;
        let source = self.expr(tokens)?;
        let at = word.span;
        let source = source.into_inner();
        Ok(Boxed::new(self.alloc, Statement::Store { at, target, source })?)
    }

    /// Behind the word EXPLAIN.
    #[tactic(auto, unfolding(crate::specs::inner::StatementParts::explain_then))]
    fn explain(&self, tokens: &mut Cursor<'_>, word: &Token) -> Result<Boxed<Statement>, ParseError>
        requires nests { Nests self.now.room (F.pre self.now.nested) (F.post self.now.nested) }
        requires fewer { length tokens.old < self.now.room }
        ensures { Reads Stated (part.explain_then word.now tokens.old) result tokens.new }
    {
        let at = word.span;
        match tokens.eat(Class::Only(Kind::Word(Word::Analyze))) {
            Some(_) => {
                let expr = self.expr(tokens)?.into_inner();
                Ok(Boxed::new(self.alloc, Statement::ExplainAnalyze { at, expr })?)
            }
            None => {
                let expr = self.expr(tokens)?.into_inner();
                Ok(Boxed::new(self.alloc, Statement::Explain { at, expr })?)
            }
        }
    }

    #[tactic(auto, using(crate::proofs::StatementLaws::statement_is), unfolding(crate::specs::inner::StatementParts::statement_part))]
    pub(crate) fn statement(&self, tokens: &mut Cursor<'_>) -> Result<Boxed<Statement>, ParseError>
        requires nests { Nests self.now.room (F.pre self.now.nested) (F.post self.now.nested) }
        requires fewer { length tokens.old ≤ self.now.room }
        ensures { Reads Stated (parse Level.Statement tokens.old) result tokens.new }
    {
        if let Some(word) = tokens.eat(Class::Only(Kind::Word(Word::Values))) {
            let lists = self.rows(tokens)?;
            let at = word.span;
            return Ok(Boxed::new(self.alloc, Statement::Values { at, lists })?);
        }
        if let Some(word) = tokens.eat(Class::Only(Kind::Word(Word::Store))) {
            return self.store(tokens, word);
        }
        if let Some(word) = tokens.eat(Class::Only(Kind::Word(Word::Describe))) {
            let exprs = self.list(tokens)?;
            let at = word.span;
            return Ok(Boxed::new(self.alloc, Statement::Describe { at, exprs })?);
        }
        if let Some(word) = tokens.eat(Class::Only(Kind::Word(Word::Explain))) {
            return self.explain(tokens, word);
        }
        let arms = self.selects(tokens)?;
        Ok(Boxed::new(self.alloc, united(arms))?)
    }
}
