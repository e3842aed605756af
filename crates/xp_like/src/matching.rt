//! Whether a text matches a pattern: what stands before the first `%` has to stand at the text's
//! start, and what stands between two `%` is taken at the first place where it is found.
ghost use Rattle.std.specs.Prelude.{◌≡◌, ◌+◌, ◌<◌, ◌≤◌, length, false};
ghost use Rattle.xp_like.specs.Patterns.{matches as matches_so, parts, some_end};
ghost use Rattle.xp_like.specs.inner.Runs.{Finds, IsNearer, Leads, NoLonger, is_nil};

use crate::parts::first_part;
use crate::units::Units;

/// What the parts of a pattern before its first `%` find at the start of a text.
#[derive(Clone, Copy)]
pub enum Run<U> {
    /// They aren't there.
    Fails,
    /// They are, and no `%` follows; this is left of the text.
    Ends { text: U },
    /// They are, before a `%`; this stands behind them in the pattern and in the text.
    Any { pattern: U, text: U },
}

fn find_run<U: Units>(pattern: U, text: U) -> Run<U>
    ensures found { Finds U.units (parts (U.units pattern)) (U.units text) result }
    ensures shorter { NoLonger U.units (U.units pattern) (U.units text) result }
{
    let mut place = pattern;
    let mut rest = text;
    while let Some((part, behind)) = first_part(place) {
        if part.is_any_text() {
            return Run::Any {
                pattern: behind,
                text: rest,
            };
        }
        let Some((unit, others)) = rest.first() else {
            return Run::Fails;
        };
        if !part.takes(unit) {
            return Run::Fails;
        }
        place = behind;
        rest = others;
    }
    Run::Ends { text: rest }
}

fn is_empty<U: Units>(text: U) -> bool
    ensures { result ≡ is_nil (U.units text) }
{
    text.first().is_none()
}

/// Where the search for a pattern at the ends of a text goes on.
#[derive(Clone, Copy)]
pub enum Next<U> {
    Done { found: bool },
    Search { pattern: U, text: U },
}

/// The search behind the first unit of the text.
fn later<U: Units>(pattern: U, text: U) -> Next<U>
    requires { matches_so (parts (U.units pattern)) (U.units text) ≡ false }
    ensures leads { Leads U.units (parts (U.units pattern)) (U.units text) result }
    ensures nearer { IsNearer U.units (U.units pattern) (U.units text) result }
{
    match text.first() {
        Some((_, rest)) => Next::Search {
            pattern,
            text: rest,
        },
        None => Next::Done { found: false },
    }
}

/// One step of the search.
fn step<U: Units>(pattern: U, text: U) -> Next<U>
    ensures leads { Leads U.units (parts (U.units pattern)) (U.units text) result }
    ensures nearer { IsNearer U.units (U.units pattern) (U.units text) result }
{
    match find_run(pattern, text) {
        Run::Any {
            pattern: behind,
            text: rest,
        } => Next::Search {
            pattern: behind,
            text: rest,
        },
        Run::Ends { text: rest } => {
            if is_empty(rest) {
                return Next::Done { found: true };
            }
            later(pattern, text)
        }
        Run::Fails => later(pattern, text),
    }
}

/// Whether some end of the text matches the pattern.
fn matches_end<U: Units>(pattern: U, text: U) -> bool
    ensures { result ≡ some_end (matches_so (parts (U.units pattern))) (U.units text) }
{
    let mut place = pattern;
    let mut rest = text;
    loop {
        match step(place, rest) {
            Next::Done { found } => return found,
            Next::Search { pattern, text } => {
                place = pattern;
                rest = text;
            }
        }
    }
}

/// Whether the text matches the pattern, in at most as many steps as the pattern's parts times the
/// text's units.
pub fn matches<U: Units>(pattern: U, text: U) -> bool
    ensures { result ≡ matches_so (parts (U.units pattern)) (U.units text) }
{
    match find_run(pattern, text) {
        Run::Fails => false,
        Run::Ends { text: rest } => is_empty(rest),
        Run::Any {
            pattern: behind,
            text: rest,
        } => matches_end(behind, rest),
    }
}
