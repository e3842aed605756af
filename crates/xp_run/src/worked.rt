//! Worked reports, which the check computes from the definitions alone.
ghost use Rattle.std.specs.Prelude.{◌≡◌, codes};
ghost use Rattle.xp_run.specs.Report.{report, text_of};
ghost use Rattle.xp_run.specs.inner.Worked.{over_small};

/// The reports on three scripts over the small catalogue (`docs/catalogue.md`). It does nothing: its
/// contract shows what the definitions say.
pub fn worked_reports()
    ensures syntax { text_of (report (over_small (codes "SELECT 1 +"))) ≡ codes "-- 1 refused 42601 syntax byte 10\n" }
    ensures unclosed { text_of (report (over_small (codes "SELECT 'ab"))) ≡ codes "-- 1 refused 42601 unclosed byte 7\n" }
    ensures empty { text_of (report (over_small (codes ";;"))) ≡ codes "" }
{}
