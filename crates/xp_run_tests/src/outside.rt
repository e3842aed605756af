//! The outside: texts, codes, shelves and sinks, in memory and of the system.
use std::alloc::Global;
use std::fs;
use std::process::Abort;
use std::test::Fail;
use xp_base::{
    Byts, Code, EvalError, Failed, LoadFault, MemoryShelf, MemorySink, Name, QuietShelf, QuietSink,
    Shelf, Sink, StoredFile, Txt,
};
use xp_files::{FileShelf, StdSink};

fn stored(rt: &impl Abort, alloc: Global) -> Result<Vec<StoredFile>, Fail> {
    let name = Txt::from_str(alloc, "a")?;
    let mut text = Byts::new(alloc);
    text.append(b"12")?;
    text.append(b"345")?;
    assert_eq!(rt; text.as_slice(), b"12345".as_slice());
    Ok(vec![in alloc; StoredFile { name, text }]?)
}

#[test]
fn texts_are_made_and_given_back(rt: HostRuntime) -> Result<(), Fail> {
    let alloc = rt.alloc();
    assert_eq!(rt; Name::from_str(alloc, "int4")?.as_str(), "int4");
    assert_eq!(rt; Txt::from_str(alloc, "é")?.as_str(), "é");
    let owned = String::from_str(alloc, "div")?;
    assert_eq!(rt; Name::from_string(owned).as_str(), "div");
    Ok(())
}

#[test]
fn codes_print_their_state_and_word(rt: HostRuntime) {
    let rows = [
        (Code::Syntax, "42601", "syntax"),
        (Code::NotBuilt, "0A000", "not_built"),
        (Code::Indeterminate, "42P18", "indeterminate"),
        (
            EvalError::DivisionByZero.code(),
            "22012",
            "division_by_zero",
        ),
        (EvalError::BadSubscript.code(), "2202E", "bad_subscript"),
    ];
    for (code, state, word) in rows {
        assert_eq!(rt; code.state(), state);
        assert_eq!(rt; code.word(), word);
    }
}

#[test]
fn a_shelf_fails_at_the_calls_it_is_told(rt: HostRuntime) -> Result<(), Fail> {
    let alloc = rt.alloc();
    let files = stored(&rt, alloc)?;
    let mut shelf = MemoryShelf::new(files, vec![in alloc; 2]?);
    assert_eq!(rt; shelf.load(alloc, "a", 5)?.as_slice(), b"12345".as_slice());
    assert_eq!(rt; shelf.load(alloc, "a", 5).err(), Some(LoadFault::Failed));
    assert_eq!(rt;
        shelf.load(alloc, "a", 4).err(),
        Some(LoadFault::TooLong { read: 5 })
    );
    assert_eq!(rt; shelf.load(alloc, "b", 4).err(), Some(LoadFault::Failed));
    let mut quiet = QuietShelf::new(stored(&rt, alloc)?);
    assert_eq!(rt; quiet.load(alloc, "a", 5)?.as_slice(), b"12345".as_slice());
    Ok(())
}

#[test]
fn a_sink_takes_what_its_room_holds(rt: HostRuntime) -> Result<(), Fail> {
    let alloc = rt.alloc();
    let mut sink = MemorySink::new(alloc, vec![in alloc; 2]?);
    sink.reserve(5)?;
    sink.put(b"ab")?;
    assert_eq!(rt; sink.put(b"c"), Err(Failed));
    assert_eq!(rt; sink.put(b"cdef"), Err(Failed));
    sink.put(b"cde")?;
    assert_eq!(rt; sink.put(b"f"), Err(Failed));
    assert_eq!(rt; sink.contents(), b"abcde".as_slice());
    assert_eq!(rt; QuietSink.put(b"x"), Ok(()));
    Ok(())
}

#[test]
fn a_file_is_read_within_its_limit(rt: HostRuntime) -> Result<(), Fail> {
    let alloc = rt.alloc();
    fs::write(&rt, "shelf_test.txt", "12345")?;
    let mut shelf = FileShelf::new(&rt);
    let whole = shelf.load(alloc, "shelf_test.txt", 5)?;
    assert_eq!(rt; whole.as_slice(), b"12345".as_slice());
    assert_eq!(rt;
        shelf.load(alloc, "shelf_test.txt", 4).err(),
        Some(LoadFault::TooLong { read: 5 })
    );
    fs::remove_file(&rt, "shelf_test.txt")?;
    assert_eq!(rt;
        shelf.load(alloc, "shelf_test.txt", 5).err(),
        Some(LoadFault::Failed)
    );
    Ok(())
}

#[test]
fn standard_output_takes_a_piece(rt: HostRuntime) -> Result<(), Fail> {
    StdSink::new(&rt).put(b"a piece\n")?;
    Ok(())
}
