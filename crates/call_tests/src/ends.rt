// Tests of `HostStore`, which reads files, of `HostSink`, which writes to a writer, and of the sinks in memory, `MemSink` and `CountSink`.
use crate::missed::{Missed, expect};
use bt_base::{
    CountSink, FetchFault, Gate, HostSink, HostStore, MemSink, OpenGate, PutFault, Sink, Store,
};
use std::alloc::{AllocError, Global};
use std::fs;
use std::fs::File;
use std::io::{BufWriter, Write};
use std::rt::Files;

// The name of a file, the maximum number of bytes to fetch, the result of the fetch, and the fetched bytes. If the file is too long, the
// fetched bytes are one more than the maximum.
type Fetch = (&'static str, u32, Result<(), FetchFault>, &'static [u8]);

static FETCHES: [Fetch; 5] = [
    ("text", 4, Ok(()), b"abc"),
    ("text", 3, Ok(()), b"abc"),
    ("text", 2, Err(FetchFault::TooLong), b"abc"),
    ("none", 3, Err(FetchFault::Failed), b""),
    (".", 3, Err(FetchFault::Failed), b""),
];

// Returns whether fetching at most `cap` bytes of the text `name` has the result `answer` and gives these bytes.
fn gives(
    store: &mut impl Store,
    alloc: Global,
    name: &str,
    cap: u32,
    answer: &Result<(), FetchFault>,
    bytes: &[u8],
) -> bool {
    let mut text = Vec::new(alloc);
    let got = store.fetch(name, &mut text, cap);
    got == *answer && text.as_slice() == bytes
}

fn all_give(store: &mut impl Store, alloc: Global) -> Result<(), Missed> {
    for (row, (name, cap, answer, bytes)) in FETCHES.iter().enumerate() {
        expect(row, gives(store, alloc, name, *cap, answer, bytes))?;
    }
    Ok(())
}

#[test]
fn reads_files(rt: HostRuntime) -> Result<(), Missed> {
    fs::write(&rt, "text", "abc")?;
    let given = all_give(&mut HostStore::over(&rt), rt.alloc());
    fs::remove_file(&rt, "text")?;
    given
}

fn long_text(alloc: Global) -> Result<Vec<u8>, AllocError> {
    let mut text = Vec::new(alloc);
    for number in 0..20_000u32 {
        text.push((number % 251) as u8)?;
    }
    Ok(text)
}

// The maximum number of bytes to fetch of a text of 20,000 bytes, the result of the fetch, and the number of fetched bytes.
static LONG: [(u32, Result<(), FetchFault>, usize); 2] = [
    (20_000, Ok(()), 20_000),
    (19_998, Err(FetchFault::TooLong), 19_999),
];

fn gives_long(store: &mut impl Store, alloc: Global, text: &[u8]) -> Result<(), Missed> {
    for (row, (cap, answer, count)) in LONG.iter().enumerate() {
        let start = text.get(..*count).unwrap_or(b"");
        expect(row, gives(store, alloc, "long", *cap, answer, start))?;
    }
    Ok(())
}

#[test]
fn reads_a_file_in_many_chunks(rt: HostRuntime) -> Result<(), Missed> {
    let text = long_text(rt.alloc())?;
    fs::write(&rt, "long", text.as_slice())?;
    let given = gives_long(&mut HostStore::over(&rt), rt.alloc(), text.as_slice());
    fs::remove_file(&rt, "long")?;
    given
}

// The bytes of a call of `put`, and the expected result of the call.
type Put = (&'static [u8], Result<(), PutFault>);

// Makes these calls of `put` in turn. Returns whether each has the expected result.
fn takes(sink: &mut impl Sink, puts: &[Put]) -> bool {
    for (bytes, answer) in puts {
        if sink.put(bytes) != *answer {
            return false;
        }
    }
    true
}

static FLUSHED: [Put; 1] = [(b"ab", Ok(()))];

static WRITTEN: [Put; 3] = [(b"ab", Ok(())), (b"", Ok(())), (b"c", Ok(()))];

static REFUSED: [Put; 1] = [(b"abc", Err(PutFault::Failed))];

// Makes these calls of `put` on a sink that writes to the file `name`. Returns whether each has its expected result and the file then has
// this text, while the sink still exists.
fn shows<W: Write + Drop>(
    rt: &impl Files,
    alloc: Global,
    to: W,
    puts: &[Put],
    name: &str,
    text: &[u8],
) -> bool {
    let mut sink = HostSink::over(to);
    takes(&mut sink, puts) && gives(&mut HostStore::over(rt), alloc, name, 9, &Ok(()), text)
}

#[test]
fn each_put_is_flushed(rt: HostRuntime) -> Result<(), Missed> {
    let to = BufWriter::new(rt.alloc(), File::create(&rt, "flushed")?)?;
    let shown = shows(&rt, rt.alloc(), to, &FLUSHED, "flushed", b"ab");
    fs::remove_file(&rt, "flushed")?;
    expect(0, shown)
}

#[test]
fn writes_to_a_writer(rt: HostRuntime) -> Result<(), Missed> {
    let to = File::create(&rt, "written")?;
    let shown = shows(&rt, rt.alloc(), to, &WRITTEN, "written", b"abc");
    fs::remove_file(&rt, "written")?;
    expect(0, shown)?;
    expect(1, is_full(File::create(&rt, "/dev/full")?))
}

fn is_full<W: Write + Drop>(to: W) -> bool {
    takes(&mut HostSink::over(to), &REFUSED)
}

static CUT: [Put; 3] = [
    (b"abc", Ok(())),
    (b"def", Err(PutFault::Failed)),
    (b"ghijklm", Err(PutFault::Failed)),
];

// Makes the calls of `put` in `CUT` on a sink with room for eight bytes. The second call is set to fail after one byte. Returns whether
// each call has its expected result and the sink then has the right bytes.
fn is_cut(alloc: Global) -> Result<bool, AllocError> {
    let mut sink = MemSink::with_room(alloc, 8)?;
    sink.fail_at(2, 1)?;
    Ok(takes(&mut sink, &CUT) && sink.bytes() == b"abcdghij".as_slice())
}

static COUNTED: [Put; 1] = [(b"abc", Ok(()))];

fn is_counted() -> bool {
    let mut count = CountSink::new();
    takes(&mut count, &COUNTED) && count.count() == 3
}

#[test]
fn a_sink_in_memory_fails_where_it_is_told(rt: HostRuntime) -> Result<(), Missed> {
    expect(0, is_cut(rt.alloc())?)?;
    OpenGate.enter(0, 0);
    expect(1, is_counted())
}
