//! What a mask marks.
ghost use Rattle.std.specs.Prelude.{◌≡◌, length};
ghost use Rattle.xp_overload.specs.Places.{kept};
ghost use Rattle.xp_candidates.specs.inner.Marked.{IsWithin, first_two};

/// Whether none, one or more are marked, with the first two places.
#[derive(Clone, Copy, Debug, PartialEq, Eq)]
pub enum Marked {
    Nothing,
    One(usize),
    Several { first: usize, second: usize },
}

/// The first two places that a mask marks.
pub fn first_two(marks: &[bool]) -> Marked
    ensures value { result ≡ first_two (kept marks.now) }
    ensures within { IsWithin (length marks.now) result }
{
    let mut found = None;
    for place in 0..marks.len() {
        if marks[place] {
            match found {
                None => found = Some(place),
                Some(first) => {
                    return Marked::Several {
                        first,
                        second: place,
                    };
                }
            }
        }
    }
    match found {
        Some(place) => Marked::One(place),
        None => Marked::Nothing,
    }
}
