//! What follows from the rules of records alone.
ghost use Rattle.std.specs.Prelude.{ℕ};
ghost use Rattle.xp_catalog.specs.Contents.{Contents};
ghost use Rattle.xp_catalog.specs.OneRow.{HasOneRowEach};
ghost use Rattle.xp_catalog.specs.WellFormed.{IsBuilt};

/// A look-up finds the one row that there is: no two rows of a catalogue have one name, and with it
/// the same types where look-ups take some. It does nothing: its contract is the law.
pub fn look_ups_find_the_one_row()
    ensures { (n : ℕ) (c : Contents) → IsBuilt n c → HasOneRowEach c }
{}
