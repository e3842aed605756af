//! Writes the block of a statement, each line by one put as it arises.
ghost use Rattle.std.specs.Prelude.{◌≡◌, ◌≤◌, ◌++◌, ◌∷◌, [], IfOk, ◌&&◌, is_none, is_ok};
ghost use Rattle.std.specs.List.{concat, list_all};
ghost use Rattle.xp_run.specs.Answer.{evaluation, is_fine, output_rows};
ghost use Rattle.xp_run.specs.Blocks.{lines_of, ok_line, outcome_lines, row_lines, types_line, uses_lines};
ghost use Rattle.xp_run.specs.Uses.{type_names};
ghost use Rattle.xp_run.specs.inner.Analyses.{AreReady, IsReady, answer_of};
ghost use Rattle.xp_run.specs.inner.Writing.{Writes};

use crate::analysis::Analysis;
use crate::arms::{first_early, write_rows};
use crate::inputs::Inputs;
use crate::lines;
use crate::printer::Printer;
use crate::writing::{WriteError, put_line};
use std::alloc::Global;
use xp_analyse::{Typed, TypedArm, Use};
use xp_base::{Sink, TypeNo};
use xp_catalog::Catalog;
use xp_value::Row;

#[tactic(auto, using(crate::proofs::Written::writes_nothing))]
fn write_types<K: Sink>(
    catalog: &Catalog,
    k: u64,
    types: &[TypeNo],
    line: &mut String,
    out: &mut K,
) -> Result<(), WriteError>
    ensures wrote { Writes (K.contents out.old) (K.contents out.new) (types_line k (type_names catalog.now types.now)) (K.faults out.old) (K.faults out.new) result }
    ensures rises { K.faults out.old ≤ K.faults out.new }
{
    lines::types(catalog, k, types, line)?;
    put_line(line.as_bytes(), out)
}

#[tactic(auto, using(crate::proofs::Written::writes_nothing))]
fn write_uses<K: Sink>(
    alloc: Global,
    catalog: &Catalog,
    k: u64,
    uses: &[Use],
    out: &mut K,
) -> Result<(), WriteError>
    ensures wrote { Writes (K.contents out.old) (K.contents out.new) (concat (uses_lines catalog.now k uses.now)) (K.faults out.old) (K.faults out.new) result }
    ensures rises { K.faults out.old ≤ K.faults out.new }
{
    for one in uses {
        put_line(lines::uses(alloc, catalog, k, *one)?.as_bytes(), out)?;
    }
    Ok(())
}

/// Writes `-- K ok ROWS`.
#[tactic(auto, using(crate::proofs::Written::writes_nothing))]
fn write_ok<K: Sink>(k: u64, rows: u128, line: &mut String, out: &mut K) -> Result<(), WriteError>
    ensures wrote { Writes (K.contents out.old) (K.contents out.new) (ok_line k rows) (K.faults out.old) (K.faults out.new) result }
    ensures rises { K.faults out.old ≤ K.faults out.new }
{
    lines::ok(k, rows, line)?;
    put_line(line.as_bytes(), out)
}

/// Writes the overloads that are chosen, and the line behind them.
fn write_described<K: Sink>(
    alloc: Global,
    catalog: &Catalog,
    k: u64,
    uses: &[Use],
    line: &mut String,
    out: &mut K,
) -> Result<(), WriteError>
    ensures wrote { Writes (K.contents out.old) (K.contents out.new) (concat (uses_lines catalog.now k uses.now ++ ok_line k 0 ∷ [])) (K.faults out.old) (K.faults out.new) result }
    ensures rises { K.faults out.old ≤ K.faults out.new }
{
    write_uses(alloc, catalog, k, uses, out)?;
    write_ok(k, 0, line, out)
}

/// Writes the output rows, and the line behind them. At `Ok`, says whether that line is `ok`.
fn write_evaluated<K: Sink>(
    alloc: Global,
    k: u64,
    arms: &[TypedArm],
    rows: &[Row],
    printer: &mut Printer,
    out: &mut K,
) -> Result<bool, WriteError>
    requires { AreReady arms.now }
    ensures wrote { Writes (K.contents out.old) (K.contents out.new) (concat (row_lines k 0 (output_rows rows.now arms.now))) (K.faults out.old) (K.faults out.new) result }
    ensures fine { IfOk result (λ fine. fine ≡ list_all is_ok (output_rows rows.now arms.now)) }
    ensures rises { K.faults out.old ≤ K.faults out.new }
{
    match write_rows(alloc, k, arms, rows, printer, out)? {
        Some(count) => {
            write_ok(k, count, &mut printer.line, out)?;
            Ok(true)
        }
        None => Ok(false),
    }
}

/// Writes the lines behind that of the types. At `Ok`, says whether the last is `ok`.
#[tactic(auto, using(crate::proofs::Written::writes_nothing))]
fn write_outcome<K: Sink>(
    alloc: Global,
    k: u64,
    arms: &[TypedArm],
    rows: &[Row],
    printer: &mut Printer,
    out: &mut K,
) -> Result<bool, WriteError>
    requires { AreReady arms.now }
    ensures wrote { Writes (K.contents out.old) (K.contents out.new) (concat (outcome_lines k (evaluation rows.now arms.now).early (evaluation rows.now arms.now).rows)) (K.faults out.old) (K.faults out.new) result }
    ensures fine { IfOk result (λ fine. fine ≡ (is_none (evaluation rows.now arms.now).early && list_all is_ok (evaluation rows.now arms.now).rows)) }
    ensures rises { K.faults out.old ≤ K.faults out.new }
{
    match first_early(alloc, arms)? {
        Some(error) => {
            put_line(lines::early(alloc, k, error.code())?.as_bytes(), out)?;
            Ok(false)
        }
        None => write_evaluated(alloc, k, arms, rows, printer, out),
    }
}

/// Writes the block of statement `k`. At `Ok`, says whether it ends in `ok`.
pub fn write_block<K: Sink>(
    alloc: Global,
    inputs: &Inputs,
    k: u64,
    analysis: &Analysis,
    printer: &mut Printer,
    out: &mut K,
) -> Result<bool, WriteError>
    requires { IsReady analysis.now }
    ensures wrote { Writes (K.contents out.old) (K.contents out.new) (concat (lines_of inputs.now.catalog k (answer_of inputs.now.rows analysis.now))) (K.faults out.old) (K.faults out.new) result }
    ensures fine { IfOk result (λ fine. fine ≡ is_fine (answer_of inputs.now.rows analysis.now)) }
    ensures rises { K.faults out.old ≤ K.faults out.new }
{
    match analysis {
        Analysis::Refused { code, at } => {
            put_line(lines::refused(alloc, k, *code, *at)?.as_bytes(), out)?;
            Ok(false)
        }
        Analysis::Described(typed) => {
            let (catalog, line) = (&inputs.catalog, &mut printer.line);
            write_types(catalog, k, typed.types.as_slice(), line, out)?;
            write_described(alloc, catalog, k, typed.uses.as_slice(), line, out)?;
            Ok(true)
        }
        Analysis::Evaluated(typed) => {
            let types = typed.types.as_slice();
            write_types(&inputs.catalog, k, types, &mut printer.line, out)?;
            let (arms, rows) = (typed.arms.as_slice(), inputs.rows.as_slice());
            write_outcome(alloc, k, arms, rows, printer, out)
        }
    }
}
