//! White space and comments.
ghost use Rattle.std.specs.Prelude.{◌≡◌, ◌<◌, ◌≤◌, ◌^◌, length, option_map, IfSome, false};
ghost use Rattle.xp_lexer.specs.inner.Cutting as spec;

use crate::bytes::{byte, is_space};

/// The text from the end of the line on.
pub fn line_rest(mut z: &[u8]) -> &[u8]
    ensures rest { result.now ≡ spec.line_rest z.entry.now }
    ensures within { length result.now ≤ length z.entry.now }
{
    while let [b, tail @ ..] = z {
        if *b == b'\n' {
            break;
        }
        z = tail;
    }
    z
}

/// The text behind the comment whose opening stood before `z`.
pub fn comment_rest(mut z: &[u8]) -> Option<&[u8]>
    requires { length z.now < 2 ^ 63 }
    ensures rest { option_map (λ rest. rest.now) result ≡ spec.comment_rest 1 false z.entry.now }
    ensures within { IfSome result (λ rest. length rest.now ≤ length z.entry.now) }
{
    let mut depth: usize = 1;
    let mut is_second = false;
    while let [b, tail @ ..] = z {
        if is_second {
            if depth == 0 {
                return Some(tail);
            }
            is_second = false;
        } else if *b == b'/' && byte(tail, 0) == b'*' {
            depth += 1;
            is_second = true;
        } else if *b == b'*' && byte(tail, 0) == b'/' {
            depth -= 1;
            is_second = true;
        }
        z = tail;
    }
    None
}

/// The text from a quote on that goes on with a string constant: white space with a newline in it
/// stands before that quote.
pub fn continued(mut z: &[u8]) -> Option<&[u8]>
    ensures rest { option_map (λ rest. rest.now) result ≡ spec.continued false z.entry.now }
    ensures within { IfSome result (λ rest. (length rest.now ≤ length z.entry.now) × (0 < length rest.now)) }
{
    let mut has_newline = false;
    while let [b, tail @ ..] = z {
        if has_newline && *b == b'\'' {
            return Some(z);
        }
        if !is_space(*b) {
            return None;
        }
        has_newline = has_newline || *b == b'\n';
        z = tail;
    }
    None
}
