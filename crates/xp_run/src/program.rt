//! The run.
ghost use Rattle.std.specs.Prelude.{◌≡◌, ◌≤◌, Some, option_map};
ghost use Rattle.xp_base.specs.Growth.{Rose};
ghost use Rattle.xp_run.specs.Inputs.{named};
ghost use Rattle.xp_run.specs.Causes.{HasCause, IsDoneOrMemory, IsReady};
ghost use Rattle.xp_run.specs.Run.{Reports};

use crate::ending::{Ending, Exit, exit_of};
use crate::inputs::load_inputs;
use crate::report::write_report;
use crate::words::text_names;
use crate::writing::WriteError;
use std::alloc::Global;
use xp_base::{Shelf, Sink, Txt};

fn run_named<F: Shelf, K: Sink>(
    alloc: Global,
    catalog: &str,
    script: &str,
    rows: Option<&Txt>,
    shelf: &mut F,
    out: &mut K,
) -> Exit
    ensures report { Reports (F.held shelf.old) (Some (record { catalog = catalog.now; script = script.now; rows = option_map (λ name. name.now) rows.entry })) (K.contents out.old) (K.contents out.new) result }
    ensures cause { HasCause (F.held shelf.old) (Some (record { catalog = catalog.now; script = script.now; rows = option_map (λ name. name.now) rows.entry })) (Rose (F.faults shelf.old) (F.faults shelf.new)) (Rose (K.faults out.old) (K.faults out.new)) result.end }
    ensures memory { result.end ≡ Ending.Memory → K.faults out.new ≡ K.faults out.old }
    ensures shelf { F.faults shelf.old ≤ F.faults shelf.new }
    ensures sink { K.faults out.old ≤ K.faults out.new }
    ensures same { F.held shelf.new ≡ F.held shelf.old }
{
    let inputs = match load_inputs(alloc, catalog, script, rows, shelf) {
        Ok(inputs) => inputs,
        Err(end) => return exit_of(end, true),
    };
    match write_report(alloc, &inputs, out) {
        Ok(fine) => exit_of(Ending::Done { steps: 0 }, fine),
        Err(WriteError::Failed) => exit_of(Ending::WriteFault, true),
        Err(WriteError::Memory) => exit_of(Ending::Memory, true),
    }
}

/// Reads the texts that the words name off the shelf, and puts the report on the script into the
/// sink. The words are those behind the program's name.
pub fn run<F: Shelf, K: Sink>(alloc: Global, words: &[Txt], shelf: &mut F, out: &mut K) -> Exit
    // What is written, of the texts that the words name, and the status.
    ensures report { Reports (F.held shelf.old) (named words.now) (K.contents out.old) (K.contents out.new) result }

    // Why each ending comes.
    ensures cause { HasCause (F.held shelf.old) (named words.now) (Rose (F.faults shelf.old) (F.faults shelf.new)) (Rose (K.faults out.old) (K.faults out.new)) result.end }

    // Texts that are in order are answered to the end, unless a count rises.
    ensures complete { IsReady (F.held shelf.old) (named words.now)
        → ¬ Rose (F.faults shelf.old) (F.faults shelf.new) → ¬ Rose (K.faults out.old) (K.faults out.new) → IsDoneOrMemory result.end }

    // Where memory ran out, no put failed: the sink's count stands where it was.
    ensures memory { result.end ≡ Ending.Memory → K.faults out.new ≡ K.faults out.old }

    ensures shelf { F.faults shelf.old ≤ F.faults shelf.new }
    ensures sink { K.faults out.old ≤ K.faults out.new }
    ensures same { F.held shelf.new ≡ F.held shelf.old }
{
    match text_names(words) {
        Some(names) => run_named(
            alloc,
            names.catalog.as_str(),
            names.script.as_str(),
            names.rows,
            shelf,
            out,
        ),
        None => exit_of(Ending::BadWords, true),
    }
}
