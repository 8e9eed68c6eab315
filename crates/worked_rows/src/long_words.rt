// Tests of the limit of 255 bytes on the words of chain files and net files.
use run_bench::Text::Filled;
use run_bench::{Bench, CHAIN, Ending, NETS, RowFault, Text};
use std::alloc::Global;
use std::thread::Threads;

// A kind of file: the chain file or the net file. The fields are the name of the test table for its words, the name of the text, the
// command line that reads the text, and the refusal line for a word that is too long.
#[derive(Drop)]
struct File {
    table: &'static str,
    name: &'static str,
    line: &'static str,
    refusal: &'static str,
}

const CHAIN_FILE: File = File {
    table: "long words of a chain file",
    name: "c",
    line: "chain c",
    refusal: "c line 1: word not allowed\n",
};

const NET_FILE: File = File {
    table: "long words of a net file",
    name: "n",
    line: "cover c n drv rcv",
    refusal: "n line 1: word not allowed\n",
};

// The text before the letters of a word, the maximum number of letters, the text after the letters, and the result of a run with the
// maximum number of letters.
type Long = (&'static str, usize, &'static str, Ending<'static>);

const ONE_PART: Ending<'static> = Ending::Scans(
    "SIR 2 TDI (3) TDO (1) MASK (3);\nSDR 9 TDI (0A5) TDO (14A) MASK (1FF);\n",
);

const NO_PART: Ending<'static> = Ending::Refused("c: no part in the chain\n");

const NO_ENTITY: Ending<'static> = Ending::Refused("c line 1: entity not given\n");

const NO_NUMBER: Ending<'static> = Ending::Refused("c line 1: number not allowed\n");

// A row for each kind of statement and each word in it, except the first word.
static CHAINS: [Long; 12] = [
    ("BYPASS ", 255, " 2", ONE_PART),
    ("BYPASS U1 ", 255, "", NO_NUMBER),
    ("DEVICE ", 255, " DRV -", NO_ENTITY),
    ("DEVICE U1 ", 255, " -", NO_ENTITY),
    ("DEVICE U1 DRV ", 255, "", NO_ENTITY),
    ("INERT ", 255, "", NO_PART),
    ("SUPPLY ", 255, "", NO_PART),
    ("PULL ", 255, " 1", NO_PART),
    ("PULL N ", 255, "", NO_NUMBER),
    ("LINK ", 255, " 1 2", NO_PART),
    ("LINK R1 ", 255, " 2", NO_PART),
    ("LINK R1 1 ", 255, "", NO_PART),
];

// The name of a net, and the word for a pin. That word consists of the part's name, a dot and the pin's name.
static NET_FILES: [Long; 2] = [
    (
        "NET ",
        255,
        " X.1",
        Ending::PutsAll(Filled {
            of: "",
            lines: 0,
            head: "NETS 1 COVERED 0\nNET ",
            piece: "A",
            count: 255,
            tail: " DARK\n",
        }),
    ),
    (
        "NET N X.",
        253,
        "",
        Ending::Puts("NETS 1 COVERED 0\nNET N DARK\n"),
    ),
];

// Checks a run of the file's command line. The text of the file is `head`, `count` letters and `tail`.
fn ends_with(
    rt: &(impl Threads + Sync),
    alloc: Global,
    file: &File,
    row: usize,
    [head, tail]: [&'static str; 2],
    count: usize,
    ending: Ending,
) -> Result<(), RowFault> {
    let text = Text::Filled {
        of: "",
        lines: 0,
        head,
        piece: "A",
        count,
        tail,
    };
    let mut bench = Bench::with_board(alloc, CHAIN, NETS)?;
    text.add_to(alloc, &mut bench.store, file.name)?;
    bench.ends(rt, file.table, row, file.line, ending)
}

// For each word, checks a run with the maximum number of letters. Then checks that btest refuses the word with one letter more.
fn words_have_a_limit(
    rt: &(impl Threads + Sync),
    alloc: Global,
    file: &File,
    words: &[Long],
) -> Result<(), RowFault> {
    for (row, (head, most, tail, ending)) in words.iter().enumerate() {
        ends_with(rt, alloc, file, row, [*head, *tail], *most, *ending)?;
        let more = most.saturating_add(1);
        let refused = Ending::Refused(file.refusal);
        ends_with(rt, alloc, file, row, [*head, *tail], more, refused)?;
    }
    Ok(())
}

#[test]
fn words_have_at_most_255_bytes(rt: HostRuntime) -> Result<(), RowFault> {
    words_have_a_limit(&rt, rt.alloc(), &CHAIN_FILE, &CHAINS)?;
    words_have_a_limit(&rt, rt.alloc(), &NET_FILE, &NET_FILES)
}
