//! Which texts are arrays, and how arrays are written, computed from the definitions alone.
ghost use Rattle.std.specs.Prelude.{◌≡◌, [], ◌∷◌, codes, Err, None, Ok, Some};
ghost use Rattle.xp_array.specs.Read.{bad_text, element_texts, nested};
ghost use Rattle.xp_array.specs.Written.{array_text};
ghost use Rattle.xp_characters.specs.Faults.{too_large};

/// A law: worked rows of the text form.
pub fn worked_texts()
    ensures elements { element_texts 3 (codes " { a b , \"c,\\\"\" , Null } ") ≡ Ok (Some (codes "a b") ∷ Some (codes "c,\"") ∷ None ∷ []) }
    ensures empty { element_texts 3 (codes " { } ") ≡ Ok [] }
    ensures quoted_null { element_texts 3 (codes "{\"null\"}") ≡ Ok (Some (codes "null") ∷ []) }
    ensures plain_null { element_texts 3 (codes "{\\null}") ≡ Ok (Some (codes "null") ∷ []) }
    ensures plain_space { element_texts 3 (codes "{a\\  }") ≡ Ok (Some (codes "a ") ∷ []) }
    ensures quoted_empty { element_texts 3 (codes "{\"\"}") ≡ Ok (Some [] ∷ []) }
    ensures bare_empty { element_texts 3 (codes "{a,}") ≡ Err bad_text }
    ensures brace_first { element_texts 3 (codes "{a, {b}}") ≡ Err nested }
    ensures brace_later { element_texts 3 (codes "{a{b}}") ≡ Err bad_text }
    ensures unclosed { element_texts 3 (codes "{\"a}") ≡ Err bad_text }
    ensures behind { element_texts 3 (codes "{a} b") ≡ Err bad_text }
    ensures one_more { element_texts 1 (codes "{a,") ≡ Err too_large }
    ensures written { array_text (Some (codes "a") ∷ None ∷ Some (codes "Null") ∷ Some [] ∷ Some (codes "b c") ∷ Some (codes "\"") ∷ []) ≡ codes "{a,NULL,\"Null\",\"\",\"b c\",\"\\\"\"}" }
    ensures none_written { array_text [] ≡ codes "{}" }
{}
