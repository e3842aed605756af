//! Runs over shelves and sinks that fail.
use std::alloc::Global;
use std::process::Abort;
use std::test::Fail;
use xp_base::{Byts, EvalError, MemoryShelf, MemorySink, QuietShelf, QuietSink, StoredFile, Txt};
use xp_catalog::Why;
use xp_rows::RowsFault;
use xp_run::{Ending, Exit, run};

const SMALL: &str =
    "type,bool,B,t\ntype,int4,N,f\nfunction,div,int4 int4,f,int4,immutable,t,div_int4_int4\noperator,/,int4,int4,div\n";

fn stored(alloc: Global, name: &str, bytes: &str) -> Result<StoredFile, Fail> {
    let name = Txt::from_str(alloc, name)?;
    let mut text = Byts::new(alloc);
    text.append(bytes.as_bytes())?;
    Ok(StoredFile { name, text })
}

// The small catalogue as `c`, the script as `s`, and one row as `r`.
fn files(alloc: Global, script: &str) -> Result<Vec<StoredFile>, Fail> {
    let catalog = stored(alloc, "c", SMALL)?;
    let script = stored(alloc, "s", script)?;
    let rows = stored(alloc, "r", "x int4\n1\n")?;
    Ok(vec![in alloc; catalog, script, rows]?)
}

fn words(alloc: Global) -> Result<Vec<Txt>, Fail> {
    let mut all = Vec::new(alloc);
    for word in ["run", "c", "s", "r"] {
        all.push(Txt::from_str(alloc, word)?)?;
    }
    Ok(all)
}

// Runs over a shelf that fails at load `load` and a sink that fails at put `put`, and checks how the
// run ends and what is written.
fn ends(
    rt: &impl Abort,
    alloc: Global,
    calls: (u64, u64),
    exit: Exit,
    output: &str,
) -> Result<(), Fail> {
    let files = files(alloc, "SELECT 7 / 2; SELECT x")?;
    let mut shelf = MemoryShelf::new(files, vec![in alloc; calls.0]?);
    let mut sink = MemorySink::new(alloc, vec![in alloc; calls.1]?);
    sink.reserve(4096)?;
    let ended = run(alloc, &words(alloc)?, &mut shelf, &mut sink);
    assert_eq!(rt; ended, exit);
    assert_eq!(rt; sink.contents(), output.as_bytes());
    Ok(())
}

#[test]
fn a_failing_load_is_a_read_fault(rt: HostRuntime) -> Result<(), Fail> {
    let fault = Exit {
        status: 3,
        end: Ending::ReadFault,
    };
    for load in [1, 2, 3] {
        ends(&rt, rt.alloc(), (load, 0), fault, "")?;
    }
    Ok(())
}

#[test]
fn a_failing_put_leaves_the_lines_before_it(rt: HostRuntime) -> Result<(), Fail> {
    let rows = [
        (1, ""),
        (2, "-- 1 types int4\n"),
        (3, "-- 1 types int4\n3\n"),
        (4, "-- 1 types int4\n3\n-- 1 ok 1\n"),
        (5, "-- 1 types int4\n3\n-- 1 ok 1\n-- 2 types int4\n"),
        (6, "-- 1 types int4\n3\n-- 1 ok 1\n-- 2 types int4\n1\n"),
    ];
    let fault = Exit {
        status: 4,
        end: Ending::WriteFault,
    };
    for (put, before) in rows {
        ends(&rt, rt.alloc(), (0, put), fault, before)?;
    }
    Ok(())
}

#[test]
fn a_quiet_run_comes_to_its_end(rt: HostRuntime) -> Result<(), Fail> {
    let alloc = rt.alloc();
    let mut shelf = QuietShelf::new(files(alloc, "SELECT 7 / 2")?);
    let exit = run(alloc, &words(alloc)?, &mut shelf, &mut QuietSink);
    let done = Exit {
        status: 0,
        end: Ending::Done { steps: 0 },
    };
    assert_eq!(rt; exit, done);
    Ok(())
}

#[test]
fn each_ending_has_its_line(rt: HostRuntime) -> Result<(), Fail> {
    let bad = Ending::BadCatalog {
        line: 3,
        why: Why::Duplicate,
    };
    let header = RowsFault::Header {
        column: 2,
        why: Why::BadName,
    };
    let field = RowsFault::Field {
        row: 2,
        column: 1,
        error: EvalError::BadText,
    };
    let width = RowsFault::Width { row: 1 };
    let many = RowsFault::TooMany { row: 100001 };
    let rows = [
        (bad, "BadCatalog line 3 Duplicate"),
        (
            Ending::BadRows { fault: header },
            "BadRows header column 2 BadName",
        ),
        (Ending::BadRows { fault: width }, "BadRows width row 1"),
        (
            Ending::BadRows { fault: field },
            "BadRows field row 2 column 1 bad_text",
        ),
        (
            Ending::BadRows { fault: many },
            "BadRows TooMany row 100001",
        ),
        (Ending::BadWords, "BadWords"),
        (Ending::TooLong { read: 1048577 }, "TooLong 1048577"),
        (Ending::ReadFault, "ReadFault"),
        (Ending::WriteFault, "WriteFault"),
        (Ending::Memory, "Memory"),
    ];
    for (end, line) in rows {
        assert_eq!(rt; format!(in rt.alloc(); "{end}")?.as_str(), line);
    }
    Ok(())
}
