//! What holds of the forms, by definitions alone.
ghost use Rattle.std.specs.Prelude.{◌≡◌, ℕ, List, [], Some, false, true};
ghost use Rattle.xp_io.specs.Integers.{whole_number};
ghost use Rattle.xp_lexer.specs.Grammar.{Reads};
ghost use Rattle.xp_lexer.specs.Meaning.{number_of};
ghost use Rattle.xp_token.specs.Lexemes.{NumberOf};

/// A law: a text is taken as a whole number exactly where the lexer reads all of it as one, and the
/// numbers are the same. A number of more than 38 digits is too wide for the lexer.
#[tactic(auto, using(crate::proofs::Lexer::is_read, crate::proofs::Scripts::is_whole_number))]
pub fn whole_numbers_are_the_lexers()
    ensures read { (text : List ℕ) (n : ℕ) → whole_number text ≡ Some n → Reads text (number_of n 0 true) [] }
    ensures taken { (text : List ℕ) (n : ℕ) → Reads text (NumberOf false n 0 true) [] → whole_number text ≡ Some n }
{}
