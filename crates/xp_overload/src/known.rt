//! The candidate that accepts the unknown inputs as having the type of the known ones (manual
//! 10.2 step 3.f).
ghost use Rattle.std.specs.Prelude.{◌≡◌, filter, length};
ghost use Rattle.xp_overload.specs.Places.{is_marked, kept};
ghost use Rattle.xp_overload.specs.Choosing.{as_known_type};

/// How many of those that are left the mask marks.
fn count_marked(marks: &[bool], keep: &[bool]) -> usize
    requires { length marks.now ≡ length keep.now }
    ensures { result ≡ length (filter (is_marked marks.now) (kept keep.now)) }
{
    let mut count = 0;
    for place in 0..keep.len() {
        if keep[place] && marks[place] {
            count += 1;
        }
    }
    count
}

/// Leaves those that the mask marks.
fn keep_marked(marks: &[bool], keep: &mut [bool])
    requires { length marks.now ≡ length keep.old }
    ensures { kept keep.new ≡ filter (is_marked marks.now) (kept keep.old) }
{
    for place in 0..keep.len() {
        if keep[place] {
            keep[place] = marks[place];
        }
    }
}

/// Leaves the one that accepts the inputs as having one type, or all where it isn't one.
pub fn keep_as_known(as_known: &[bool], keep: &mut [bool])
    requires { length as_known.now ≡ length keep.old }
    ensures { kept keep.new ≡ as_known_type (is_marked as_known.now) (kept keep.old) }
{
    if count_marked(as_known, keep) == 1 {
        keep_marked(as_known, keep);
    }
}
