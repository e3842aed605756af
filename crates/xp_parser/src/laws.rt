//! What holds of the function by which `parse` is told.
ghost use Rattle.std.specs.Prelude.{◌≡◌, List};
ghost use Rattle.xp_token.specs.declared.token.Token.{Token};
ghost use Rattle.xp_parser.specs.Parses.{Answer, IsAnswer, parsed};

/// What `parsed` says of tokens is what the grammar and the depth say of them, and they say nothing
/// else; in particular it never speaks of memory. It does nothing: its contract is the law.
pub fn parsed_is_exact()
    ensures sound { (all : List Token) → IsAnswer all (parsed all) }
    ensures complete { (all : List Token) (answer : Answer) → IsAnswer all answer → parsed all ≡ answer }
{}
