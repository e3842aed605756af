//! What holds of every text, whatever lexer reads it.
ghost use Rattle.std.specs.Prelude.{◌≡◌, ◌≢◌, ◌↔◌, ◌<◌, ◌^◌, ℕ, [], length, codes, true, Err};
ghost use Rattle.xp_base.specs.Operators.{is_operator, is_operator_name};
ghost use Rattle.xp_token.specs.Lexemes.{OperatorOf};
ghost use Rattle.xp_lexer.specs.declared.lexed.LexFault.TheVariants as fault;
ghost use Rattle.xp_lexer.specs.Bytes.{Text};
ghost use Rattle.xp_lexer.specs.Grammar.{IsAnswer, Reads};
ghost use Rattle.xp_lexer.specs.Lexed.{lexed};
ghost use Rattle.xp_lexer.specs.Meaning.{Answer, spelled};

/// `lexed` says of a text exactly what the grammar of tokens says, so what is stated by `lexed` is
/// stated by the grammar. It does nothing: its contract is the law.
pub fn lexed_is_the_grammar()
    ensures exact { (text : Text) (from : ℕ) (answer : Answer) → length text < 2 ^ 32
        → (lexed text from ≡ answer) ↔ IsAnswer text from answer }
    ensures no_memory { (text : Text) (from : ℕ) → length text < 2 ^ 32 → lexed text from ≢ Err fault.Memory }
{}

/// What spells an operator is what is read as one operator token, of all bytes and no others: `!=`
/// as `<>`, and `=>` too, though it names none. It does nothing: its contract is the law.
pub fn operator_names_are_tokens()
    ensures token { (text : Text) → (is_operator text ≡ true) ↔ Reads text (OperatorOf (spelled text)) [] }
    ensures named { (text : Text) → (is_operator_name text ≡ true)
        ↔ (Reads text (OperatorOf text) [] × (text ≢ codes "=>")) }
{}
