//! The bytes that mean something in the text of an array.
ghost use Rattle.std.specs.Prelude.{◌≡◌, ◌≤◌, length, map};
ghost use Rattle.std.specs.Str.{bytes_eq};
ghost use Rattle.xp_array.specs.Marks.{is_mark as is_mark_of, is_null_word as is_null_word_of, is_space as is_space_of, past_space as past_space_of};

/// A comma, a brace or a quote.
pub fn is_mark(c: u8) -> bool
    ensures { result ≡ is_mark_of c }
{
    c == b',' || c == b'{' || c == b'}' || c == b'"'
}

/// Space, tab, newline, vertical tab, form feed or carriage return.
pub fn is_space(c: u8) -> bool
    ensures { result ≡ is_space_of c }
{
    c == b' ' || (b'\t' <= c && c <= b'\r')
}

/// The text without the white space in front.
pub fn past_space(mut text: &[u8]) -> &[u8]
    ensures value { result.now ≡ past_space_of text.entry.now }
    ensures shorter { length result.now ≤ length text.entry.now }
{
    while let [c, rest @ ..] = text {
        if !is_space(*c) {
            break;
        }
        text = rest;
    }
    text
}

/// NULL in any case.
pub fn is_null_word(text: &[u8]) -> bool
    ensures { result ≡ is_null_word_of text.now }
{
    text.eq_ignore_ascii_case(b"null")
}
