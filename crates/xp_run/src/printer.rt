//! Prints rows, as the csv crate's default writer writes them.
ghost use Rattle.std.specs.Prelude.{◌≡◌, ◌++◌, [], OnOk};
ghost use Rattle.csv.specs.Records.{fields_of};
ghost use Rattle.csv.specs.Writing.{default_writer, row_text, writer_under};
ghost use Rattle.xp_run.specs.Fields.{row_line};
ghost use Rattle.xp_run.specs.inner.Printing.{IsIdle};

use crate::fields::set_fields;
use csv::{ByteRecord, Error, Writer, WriterBuilder};
use std::alloc::Global;
use std::marker::Model;
use xp_base::Memory;
use xp_value::Value;

/// The most bytes that a writer goes on from.
const TEXT_LIMIT: usize = 65_536;

/// A writer of rows of any width.
fn new_writer(alloc: Global) -> Writer<Vec<u8>>
    ensures idle { IsIdle result }
    ensures empty { (writer_under result).items ≡ [] }
{
    WriterBuilder::new()
        .flexible(true)
        .from_writer(Vec::new(alloc))
}

/// Puts a new writer in the place of one. A function pays at its entry for the room of all that it
/// may make, and a writer has much: so no other makes one on the way of a row.
#[inline(never)]
fn start_anew(alloc: Global, writer: &mut Writer<Vec<u8>>)
    ensures { IsIdle writer.new }
{
    *writer = new_writer(alloc);
}

/// Puts a new writer in the place of one with much text.
fn renew(alloc: Global, writer: &mut Writer<Vec<u8>>)
    requires { IsIdle writer.old }
    ensures { IsIdle writer.new }
{
    if writer.get_ref().len() > TEXT_LIMIT {
        start_anew(alloc, writer);
    }
}

/// Writes a record behind the text that is there, and holds nothing back.
#[tactic(auto, using(crate::proofs::Plain::row_same))]
fn write_record(writer: &mut Writer<Vec<u8>>, fields: &ByteRecord) -> Result<(), Error>
    requires { IsIdle writer.old }
    ensures idle { OnOk result (IsIdle writer.new) }
    ensures text { OnOk result ((writer_under writer.new).items ≡ (writer_under writer.old).items ++ row_text default_writer (fields_of fields.now)) }
{
    writer.write_byte_record(fields)?;
    writer.flush()
}

/// Prints one row after the other by one writer, since a new one costs more than a row. Contracts see
/// it as the line of the last row.
#[derive(Drop)]
pub struct RowPrinter {
    alloc: Global,
    fields: ByteRecord,
    writer: Writer<Vec<u8>>,
    /// Where the line begins in the writer's text.
    start: usize,
}

impl Model for RowPrinter {
    ghost use Rattle.std.specs.Prelude.{◌≤◌, ℕ, List, drop, length};
    ghost use Rattle.csv.specs.Writing.{writer_under};
    ghost use Rattle.xp_run.specs.inner.Printing.{IsIdle};

    ghost Value = { List ℕ };

    ghost view = { λ p. drop p.start (writer_under p.writer).items };

    ghost invariant = { λ p. IsIdle p.writer × (p.start ≤ length (writer_under p.writer).items) };
}

impl RowPrinter {
    /// No row yet, which takes no memory.
    pub fn new(alloc: Global) -> RowPrinter
        ensures { result ≡ [] }
    {
        RowPrinter {
            alloc,
            fields: ByteRecord::new(alloc),
            writer: new_writer(alloc),
            start: 0,
        }
    }

    pub fn line(&self) -> &[u8]
        ensures { result.now ≡ self.now }
    {
        &self.writer.get_ref()[self.start..]
    }

    /// Prints a row.
    pub fn print(&mut self, values: &[Value]) -> Result<(), Memory>
        ensures { OnOk result (self.new ≡ row_line values.now) }
    {
        set_fields(self.alloc, values, &mut self.fields)?;
        renew(self.alloc, &mut self.writer);
        self.start = self.writer.get_ref().len();
        if write_record(&mut self.writer, &self.fields).is_err() {
            start_anew(self.alloc, &mut self.writer);
            self.start = 0;
            return Err(Memory);
        }
        Ok(())
    }
}

/// What lines are made in, kept from one line to the next.
#[derive(Drop)]
pub struct Printer {
    pub line: String,
    pub rows: RowPrinter,
}

impl Printer {
    pub fn new(alloc: Global) -> Printer {
        Printer {
            line: String::new(alloc),
            rows: RowPrinter::new(alloc),
        }
    }
}
