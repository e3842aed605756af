//! White space around a text.
ghost use Rattle.std.specs.Prelude.{◌≡◌};
ghost use Rattle.xp_io.specs.Space.{trimmed, trimmed_end, trimmed_front};
ghost use Rattle.xp_lexer.specs.Bytes.{is_space};

/// Space, tab, newline, vertical tab, form feed or carriage return.
fn is_space(b: u8) -> bool
    ensures { result ≡ is_space b }
{
    b == b' ' || (b'\t' <= b && b <= b'\r')
}

/// The text without white space in front.
fn trimmed_front(mut text: &[u8]) -> &[u8]
    ensures { result.now ≡ trimmed_front text.entry.now }
{
    while let [b, rest @ ..] = text {
        if !is_space(*b) {
            break;
        }
        text = rest;
    }
    text
}

/// The text without white space at its end.
fn trimmed_end(mut text: &[u8]) -> &[u8]
    ensures { result.now ≡ trimmed_end text.entry.now }
{
    while let [rest @ .., b] = text {
        if !is_space(*b) {
            break;
        }
        text = rest;
    }
    text
}

/// The text without white space at both ends.
pub fn trimmed(text: &[u8]) -> &[u8]
    ensures { result.now ≡ trimmed text.now }
{
    trimmed_end(trimmed_front(text))
}
