//! What holds of the grammar, whatever parser reads by it.
ghost use Rattle.std.specs.Prelude.{◌≡◌, ℕ, Bool, List, Ok, Err};
ghost use Rattle.xp_token.specs.declared.token.Token.{Token};
ghost use Rattle.xp_grammar.specs.declared.statement.Statement.{Statement};
ghost use Rattle.xp_grammar.specs.Reads.{Fault, IsStatement, read};
ghost use Rattle.xp_grammar.specs.Table.{Level, Value, Stated};
ghost use Rattle.xp_grammar.specs.declared.kind.Kind.{Kind};
ghost use Rattle.xp_grammar.specs.inner.Machine.{trie, tails, first};
ghost use Rattle.xp_grammar.specs.inner.Tries.{lines_of, turns_of, begins};

/// A list of tokens is at most one statement. `read` finds it where there is one, and finds nothing
/// else; where there is none it names the first token with which no statement continues, by the
/// number of tokens from it on. It does nothing: its contract is the law.
pub fn grammar_has_one_reading()
    ensures one { (ts : List Token) (v w : Value) → IsStatement ts v → IsStatement ts w → v ≡ w }
    ensures sound { (ts : List Token) (v : Value) → read ts ≡ Ok v → IsStatement ts v }
    ensures complete { (ts : List Token) (v : Value) → IsStatement ts v → read ts ≡ Ok v }
    ensures fault { (ts : List Token) (n : ℕ) → read ts ≡ Err n → Fault ts n }
{}

/// Whatever is derived as a statement builds one: no line of the grammar builds `Wrong` of what is
/// derived from its symbols. It does nothing: its contract is the law.
pub fn derivation_builds_a_statement()
    ensures { (ts : List Token) (v : Value) → IsStatement ts v → (s : Statement) × (v ≡ Stated s) }
{}

/// What `read` goes by is computed from the table: the lines of a level, read together as far as
/// they begin alike, how a level goes on, and the kinds that begin it. It does nothing: its contract
/// is the law.
pub fn reading_goes_by_the_table()
    ensures lines { (m : Level) → trie m ≡ lines_of m }
    ensures turns { (m : Level) (b : Bool) → tails m b ≡ turns_of m b }
    ensures firsts { (m : Level) (a : Kind) → first m a ≡ begins m a }
{}
