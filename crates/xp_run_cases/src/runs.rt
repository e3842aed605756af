//! What is answered to a case. A catalogue is a file of the folder by its name, or `shipped`, or
//! several of these with `+` between, one behind the other.
//!
//! | Case | Runs |
//! |---|---|
//! | `CATALOG SCRIPT` | a script without rows |
//! | `rows CATALOG ROWS => SCRIPT` | a script over rows |
//! | `with CATALOG RECORDS => SCRIPT` | a script, over a catalogue with these records behind it |
//! | `with CATALOG RECORDS => ROWS => SCRIPT` | the same over rows |
//! | `wide CATALOG COUNT MORE => SCRIPT` | the same over so many columns |
//! | `many CATALOG COUNT => SCRIPT` | the same over so many rows |
//! | `nodes CATALOG SUMS NUMBERS MORE` | a script of many nodes |
//! | `words WORD..` | the words, over texts in memory |
//! | `padded CATALOG SCRIPT [ROWS]` | the same texts, with newlines behind them |
//! | `files WORD..` | the words, over the files of the folder |
use crate::texts::{many_rows, padded, select_of_nodes, wide_rows};
use anyhow::{Result, bail};
use std::alloc::Global;
use std::fs;
use std::rt::Files;
use xp_base::{Byts, MemoryShelf, MemorySink, Shelf, StoredFile, Txt};
use xp_cases::{Answers, bytes};
use xp_files::FileShelf;
use xp_run::run;
use xp_shipped::shipped;

const ROOM: u64 = 65_536;

const SCRIPT: &[u8] = b"SELECT 7 / 2";

const ROWS: &[u8] = b"x int4\n1\n2\n";

/// The forms of cases that begin with a word of their own; every other begins with a catalogue.
#[derive(Clone, Copy)]
enum Form {
    Rows,
    Records,
    Wide,
    Many,
    Nodes,
    Words,
    Padded,
    Files,
}

impl Form {
    fn named(word: &str) -> Option<Form> {
        match word {
            "rows" => Some(Form::Rows),
            "with" => Some(Form::Records),
            "wide" => Some(Form::Wide),
            "many" => Some(Form::Many),
            "nodes" => Some(Form::Nodes),
            "words" => Some(Form::Words),
            "padded" => Some(Form::Padded),
            "files" => Some(Form::Files),
            _ => None,
        }
    }
}

/// Answers by runs over texts in memory, or over the files of the system.
#[derive(Drop)]
pub struct Runs<'a, R> {
    rt: &'a R,
}

fn stored(alloc: Global, name: &str, bytes: &[u8]) -> Result<StoredFile> {
    let mut text = Byts::new(alloc);
    text.append(bytes)?;
    Ok(StoredFile {
        name: Txt::from_str(alloc, name)?,
        text,
    })
}

/// A shelf with three texts, `small`, `script` and `rows`.
fn shelf_of(alloc: Global, catalog: &[u8], script: &[u8], rows: &[u8]) -> Result<MemoryShelf> {
    let catalog = stored(alloc, "small", catalog)?;
    let script = stored(alloc, "script", script)?;
    let rows = stored(alloc, "rows", rows)?;
    let files = vec![in alloc; catalog, script, rows]?;
    Ok(MemoryShelf::new(files, Vec::new(alloc)))
}

/// The lines of the report, and then how the run ended.
fn run_over<F: Shelf>(alloc: Global, words: &str, shelf: &mut F) -> Result<String> {
    let mut all = Vec::new(alloc);
    for word in words.split_whitespace() {
        all.push(Txt::from_str(alloc, word)?)?;
    }
    let mut sink = MemorySink::new(alloc, Vec::new(alloc));
    sink.reserve(ROOM)?;
    let exit = run(alloc, &all, shelf, &mut sink);
    let report = str::from_utf8(sink.contents())?;
    let mut shown = String::new(alloc);
    for line in report.lines() {
        write!(shown, "{line}\n  ")?;
    }
    write!(shown, "{}, status {}", exit.end, exit.status)?;
    Ok(shown)
}

fn over_script(alloc: Global, catalog: &[u8], script: &[u8]) -> Result<String> {
    let mut shelf = shelf_of(alloc, catalog, script, ROWS)?;
    run_over(alloc, "run small script", &mut shelf)
}

fn over_rows(alloc: Global, catalog: &[u8], script: &[u8], rows: &[u8]) -> Result<String> {
    let mut shelf = shelf_of(alloc, catalog, script, rows)?;
    run_over(alloc, "run small script rows", &mut shelf)
}

/// What stands before the first blank, and what stands behind it.
fn cut(text: &str) -> (&str, &str) {
    text.split_once(' ').unwrap_or((text, ""))
}

/// The words for the rows, and the bytes of the script behind `=>`, which no statement takes.
fn rows_and_script(alloc: Global, text: &str) -> Result<(&str, Vec<u8>)> {
    let Some((rows, script)) = text.split_once(" => ") else {
        bail!("rows, => and a script are wanted");
    };
    Ok((rows, bytes(alloc, script)?))
}

impl<'a, R: Files + AllocGlobal> Runs<'a, R> {
    pub fn new(rt: &'a R) -> Runs<'a, R> {
        Runs { rt }
    }

    /// The shipped catalogue, or that of a file of the folder.
    fn one_catalog(&self, alloc: Global, name: &str) -> Result<Vec<u8>> {
        if name == "shipped" {
            return Ok(shipped(alloc)?.as_slice().to_vec(alloc)?);
        }
        let path = format!(in alloc; "{name}.csv")?;
        Ok(fs::read(self.rt, path.as_str())?)
    }

    /// The catalogues of these names, one behind the other.
    fn catalog(&self, alloc: Global, names: &str) -> Result<Vec<u8>> {
        let mut whole = Vec::new(alloc);
        for name in names.split('+') {
            whole.extend_from_slice(self.one_catalog(alloc, name)?.as_slice())?;
        }
        Ok(whole)
    }

    fn scripts(&self, alloc: Global, name: &str, script: &str) -> Result<String> {
        let catalog = self.catalog(alloc, name)?;
        over_script(alloc, &catalog, &bytes(alloc, script)?)
    }

    fn rows(&self, alloc: Global, text: &str) -> Result<String> {
        let (name, rest) = cut(text);
        let (rows, script) = rows_and_script(alloc, rest)?;
        over_rows(
            alloc,
            &self.catalog(alloc, name)?,
            &script,
            &bytes(alloc, rows)?,
        )
    }

    fn with_records(&self, alloc: Global, text: &str) -> Result<String> {
        let (name, rest) = cut(text);
        let Some((records, rest)) = rest.split_once(" => ") else {
            bail!("records, => and a script are wanted");
        };
        let mut catalog = self.catalog(alloc, name)?;
        catalog.extend_from_slice(bytes(alloc, records)?.as_slice())?;
        match rest.split_once(" => ") {
            Some((rows, script)) => {
                let rows = bytes(alloc, rows)?;
                over_rows(alloc, &catalog, &bytes(alloc, script)?, &rows)
            }
            None => over_script(alloc, &catalog, &bytes(alloc, rest)?),
        }
    }

    fn wide(&self, alloc: Global, text: &str) -> Result<String> {
        let (name, rest) = cut(text);
        let (header, script) = rows_and_script(alloc, rest)?;
        let (count, more) = cut(header);
        let rows = wide_rows(alloc, count.parse()?, more)?;
        over_rows(alloc, &self.catalog(alloc, name)?, &script, &rows)
    }

    fn many(&self, alloc: Global, text: &str) -> Result<String> {
        let (name, rest) = cut(text);
        let (count, script) = rows_and_script(alloc, rest)?;
        let rows = many_rows(alloc, count.parse()?)?;
        over_rows(alloc, &self.catalog(alloc, name)?, &script, &rows)
    }

    fn nodes(&self, alloc: Global, text: &str) -> Result<String> {
        let (name, rest) = cut(text);
        let (sums, rest) = cut(rest);
        let (numbers, more) = cut(rest);
        let script = select_of_nodes(alloc, sums.parse()?, numbers.parse()?, more)?;
        over_script(alloc, &self.catalog(alloc, name)?, script.as_bytes())
    }

    fn words(&self, alloc: Global, words: &str) -> Result<String> {
        let small = self.catalog(alloc, "small")?;
        run_over(alloc, words, &mut shelf_of(alloc, &small, SCRIPT, ROWS)?)
    }

    fn padded(&self, alloc: Global, lengths: &str) -> Result<String> {
        let (catalog, rest) = cut(lengths);
        let (script, rows) = cut(rest);
        let small = self.catalog(alloc, "small")?;
        let catalog = padded(alloc, &small, catalog.parse()?)?;
        let script = padded(alloc, SCRIPT, script.parse()?)?;
        if rows.is_empty() {
            return over_script(alloc, &catalog, &script);
        }
        let rows = padded(alloc, ROWS, rows.parse()?)?;
        over_rows(alloc, &catalog, &script, &rows)
    }
}

impl<R: Files + AllocGlobal> Answers for Runs<'_, R> {
    fn answer(&self, alloc: Global, case: &str) -> Result<String> {
        let (word, rest) = cut(case);
        match Form::named(word) {
            Some(Form::Rows) => self.rows(alloc, rest),
            Some(Form::Records) => self.with_records(alloc, rest),
            Some(Form::Wide) => self.wide(alloc, rest),
            Some(Form::Many) => self.many(alloc, rest),
            Some(Form::Nodes) => self.nodes(alloc, rest),
            Some(Form::Words) => self.words(alloc, rest),
            Some(Form::Padded) => self.padded(alloc, rest),
            Some(Form::Files) => run_over(alloc, rest, &mut FileShelf::new(self.rt)),
            None => self.scripts(alloc, word, rest),
        }
    }
}
