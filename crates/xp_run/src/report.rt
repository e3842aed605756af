//! Writes the report on a script, a block for each statement.
ghost use Rattle.std.specs.Prelude.{◌≡◌, ◌-◌, ◌^◌, ◌<◌, ◌≤◌, ◌&&◌, IfOk, OnOk, length, option_map};
ghost use Rattle.xp_run.specs.Report.{all_ok, report, steps_in, text_of};
ghost use Rattle.xp_run.specs.inner.Analyses.{AreReadied, answer_of};
ghost use Rattle.xp_run.specs.inner.Turns.{is_fine_turn, number_after, text_after};
ghost use Rattle.xp_run.specs.inner.Usable.{AreUsable};
ghost use Rattle.xp_run.specs.inner.Writing.{Writes};

use crate::analysis::Analysis;
use crate::block::write_block;
use crate::inputs::Inputs;
use crate::printer::Printer;
use crate::script::{NextStatement, next_statement};
use crate::writing::WriteError;
use std::alloc::Global;
use xp_base::Sink;

/// The number of the next statement, and whether all blocks so far end in `ok`.
#[derive(Clone, Copy, Debug)]
struct Tally {
    next: u64,
    all_ok: bool,
}

/// Writes the block of the next statement, if there is one.
fn write_some<K: Sink>(
    alloc: Global,
    inputs: &Inputs,
    analysis: Option<Analysis>,
    tally: Tally,
    printer: &mut Printer,
    out: &mut K,
) -> Result<Tally, WriteError>
    requires ready { AreReadied analysis }
    requires fits { tally.next < 2 ^ 64 - 1 }
    ensures wrote { Writes (K.contents out.old) (K.contents out.new) (text_after inputs.now.catalog tally.next (option_map (answer_of inputs.now.rows) analysis)) (K.faults out.old) (K.faults out.new) result }
    ensures next { IfOk result (λ after. after.next ≡ number_after tally.next (option_map (answer_of inputs.now.rows) analysis)) }
    ensures fine { IfOk result (λ after. after.all_ok ≡ (tally.all_ok && is_fine_turn (option_map (answer_of inputs.now.rows) analysis))) }
    ensures rises { K.faults out.old ≤ K.faults out.new }
{
    let Some(analysis) = analysis else {
        return Ok(tally);
    };
    let fine = write_block(alloc, inputs, tally.next, &analysis, printer, out)?;
    Ok(Tally {
        next: tally.next + 1,
        all_ok: tally.all_ok && fine,
    })
}

/// Writes the report. At `Ok`, says whether every block ends in `ok`; no statement takes a machine
/// step.
pub fn write_report<K: Sink>(
    alloc: Global,
    inputs: &Inputs,
    out: &mut K,
) -> Result<bool, WriteError>
    requires usable { AreUsable inputs.now }
    requires fits { length inputs.now.script < 2 ^ 32 }
    ensures wrote { Writes (K.contents out.old) (K.contents out.new) (text_of (report inputs.now)) (K.faults out.old) (K.faults out.new) result }
    ensures fine { IfOk result (λ fine. fine ≡ all_ok (report inputs.now)) }
    ensures steps { OnOk result (steps_in (report inputs.now) ≡ 0) }
    ensures rises { K.faults out.old ≤ K.faults out.new }
{
    let mut printer = Printer::new(alloc);
    let mut at: u64 = 0;
    let mut tally = Tally {
        next: 1,
        all_ok: true,
    };
    while at < inputs.script.as_slice().len() as u64 {
        let NextStatement { analysis, next } = next_statement(alloc, inputs, at)?;
        tally = write_some(alloc, inputs, analysis, tally, &mut printer, out)?;
        at = next;
    }
    Ok(tally.all_ok)
}
