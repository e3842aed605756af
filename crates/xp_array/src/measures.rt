//! Lengths and dimensions.
ghost use Rattle.std.specs.Prelude.{◌≡◌, ◌≤◌, IfSome, length, option_map};
ghost use Rattle.xp_array.specs.Measured.{dimensions, in_dimension as in_dimension_of, length_in, lower_in};

use xp_value::Value;

/// How many elements.
pub fn cardinality(a: &[Value]) -> usize
    ensures { result ≡ length a.now }
{
    a.len()
}

/// How many dimensions; none where the array is empty.
pub fn array_ndims(a: &[Value]) -> Option<usize>
    ensures { result ≡ dimensions a.now }
{
    match a {
        [] => None,
        _ => Some(1),
    }
}

/// What is said of the one dimension of an array that isn't empty.
fn in_dimension(dimension: i32, a: &[Value], said: usize) -> Option<usize>
    ensures { result ≡ in_dimension_of dimension a.now said }
{
    if a.is_empty() || dimension != 1 {
        return None;
    }
    Some(said)
}

/// How many elements the dimension has; null for an array without it.
pub fn array_length(a: &[Value], dimension: i32) -> Option<usize>
    ensures { result ≡ length_in a.now dimension }
{
    in_dimension(dimension, a, a.len())
}

/// The last subscript of the dimension; null for an array without it.
pub fn array_upper(a: &[Value], dimension: i32) -> Option<usize>
    ensures { result ≡ length_in a.now dimension }
{
    array_length(a, dimension)
}

/// The first subscript of the dimension; null for an array without it.
pub fn array_lower(a: &[Value], dimension: i32) -> Option<usize>
    ensures { result ≡ lower_in a.now dimension }
{
    in_dimension(dimension, a, 1)
}
