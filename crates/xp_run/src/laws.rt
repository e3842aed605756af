//! Laws on the definitions of the report.
ghost use Rattle.std.specs.Prelude.{ℕ};
ghost use Rattle.xp_catalog.specs.Contents.{Contents};
ghost use Rattle.xp_run.specs.Answer.{Answer};
ghost use Rattle.xp_run.specs.LastLine.{EndsAsItSays};

/// A law: whether a block ends in `ok` is what its last line says.
pub fn blocks_end_as_they_say()
    ensures { (c : Contents) (k : ℕ) (answer : Answer) → EndsAsItSays c k answer }
{}
