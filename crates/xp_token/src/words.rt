//! The reserved words.
ghost use Rattle.std.specs.Prelude.{◌≡◌, map};
ghost use Rattle.xp_token.specs.Words as spec;

/// A word that is a name only in quotes.
#[derive(Clone, Copy, Debug, PartialEq, Eq)]
pub enum Word {
    All,
    Analyze,
    And,
    Array,
    As,
    Between,
    Both,
    Case,
    Cast,
    Coalesce,
    Describe,
    Distinct,
    Else,
    End,
    Explain,
    Extract,
    False,
    For,
    From,
    Greatest,
    Ilike,
    In,
    Is,
    Isnull,
    Leading,
    Least,
    Like,
    Not,
    Notnull,
    Null,
    Nullif,
    Or,
    Position,
    Select,
    Store,
    Substring,
    Then,
    Trailing,
    Trim,
    True,
    Union,
    Unknown,
    Values,
    Variadic,
    When,
}

const WORDS: [(&str, Word); 45] = [
    ("all", Word::All),
    ("analyze", Word::Analyze),
    ("and", Word::And),
    ("array", Word::Array),
    ("as", Word::As),
    ("between", Word::Between),
    ("both", Word::Both),
    ("case", Word::Case),
    ("cast", Word::Cast),
    ("coalesce", Word::Coalesce),
    ("describe", Word::Describe),
    ("distinct", Word::Distinct),
    ("else", Word::Else),
    ("end", Word::End),
    ("explain", Word::Explain),
    ("extract", Word::Extract),
    ("false", Word::False),
    ("for", Word::For),
    ("from", Word::From),
    ("greatest", Word::Greatest),
    ("ilike", Word::Ilike),
    ("in", Word::In),
    ("is", Word::Is),
    ("isnull", Word::Isnull),
    ("leading", Word::Leading),
    ("least", Word::Least),
    ("like", Word::Like),
    ("not", Word::Not),
    ("notnull", Word::Notnull),
    ("null", Word::Null),
    ("nullif", Word::Nullif),
    ("or", Word::Or),
    ("position", Word::Position),
    ("select", Word::Select),
    ("store", Word::Store),
    ("substring", Word::Substring),
    ("then", Word::Then),
    ("trailing", Word::Trailing),
    ("trim", Word::Trim),
    ("true", Word::True),
    ("union", Word::Union),
    ("unknown", Word::Unknown),
    ("values", Word::Values),
    ("variadic", Word::Variadic),
    ("when", Word::When),
];

fn lookup(mut entries: &[(&str, Word)], name: &str) -> Option<Word>
    ensures { result ≡ spec.lookup (map (λ e. (e.0.now, e.1)) entries.entry.now) name.now }
{
    while let [entry, rest @ ..] = entries {
        if entry.0 == name {
            return Some(entry.1);
        }
        entries = rest;
    }
    None
}

/// The reserved word that is spelled so, in lower case.
pub fn word_named(name: &str) -> Option<Word>
    ensures { result ≡ spec.word_named name.now }
{
    lookup(&WORDS, name)
}
