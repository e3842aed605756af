//! What spells an operator.
ghost use Rattle.std.specs.Prelude.{◌≡◌, ◌<◌, ◌==◌, length};
ghost use Rattle.std.specs.List.{list_all, list_any};
ghost use Rattle.xp_base.specs.Operators.{begins_with, has_pair, is_operator, is_operator_byte, is_operator_name, is_sign, is_special_byte, may_end};

fn has_byte(bytes: &[u8], byte: u8) -> bool
    ensures { result ≡ list_any (λ b. b == byte) bytes.now }
{
    bytes.iter().any(|b| *b == byte)
}

/// Whether the byte is a character of operators (manual 4.1.3).
pub fn is_operator_byte(b: u8) -> bool
    ensures { result ≡ is_operator_byte b }
{
    has_byte(b"+-*/<>=~!@#%^&|`?", b)
}

/// Whether the byte lets an operator end in `+` or `-`.
pub fn is_special_byte(b: u8) -> bool
    ensures { result ≡ is_special_byte b }
{
    has_byte(b"~!@#%^&|`?", b)
}

/// Whether the byte is `+` or `-`.
pub fn is_sign(b: u8) -> bool
    ensures { result ≡ is_sign b }
{
    b == b'+' || b == b'-'
}

fn has_special_byte(name: &[u8]) -> bool
    ensures { result ≡ list_any is_special_byte name.now }
{
    name.iter().any(|b| is_special_byte(*b))
}

fn has_operator_bytes(name: &[u8]) -> bool
    ensures { result ≡ list_all is_operator_byte name.now }
{
    name.iter().all(|b| is_operator_byte(*b))
}

/// Whether the first byte stands right before the second somewhere.
fn has_pair(first: u8, second: u8, bytes: &[u8]) -> bool
    ensures { result ≡ has_pair first second bytes.now }
{
    let mut follows = false;
    for b in bytes {
        if follows && *b == second {
            return true;
        }
        follows = *b == first;
    }
    false
}

/// Whether a last `+` or `-` is part of the operator.
fn may_end(name: &[u8]) -> bool
    requires { 0 < length name.now }
    ensures { result ≡ may_end name.now }
{
    let last = name[name.len() - 1];
    name.len() == 1 || !is_sign(last) || has_special_byte(name)
}

fn is_operator(name: &[u8]) -> bool
    ensures { result ≡ is_operator name.now }
{
    !name.is_empty()
        && has_operator_bytes(name)
        && !has_pair(b'-', b'-', name)
        && !has_pair(b'/', b'*', name)
        && may_end(name)
}

/// Whether the bytes are one whole operator that may be given a meaning: `=>` is none, and `!=`
/// is read as `<>`.
pub fn is_operator_name(name: &[u8]) -> bool
    ensures { result ≡ is_operator_name name.now }
{
    is_operator(name) && name != b"=>".as_slice() && name != b"!=".as_slice()
}
