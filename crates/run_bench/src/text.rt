// The texts that the rows of a test table use. A row (`Row`) is a run of the program with its expected result. A large text is built only
// when its row is run.
use bt_base::MemStore;
use std::alloc::{AllocError, Global};

/// A text that a row uses.
#[derive(Clone, Copy)]
pub enum Text {
    /// These characters.
    Plain(&'static str),
    /// These bytes, which may be invalid UTF-8.
    Bytes(&'static [u8]),
    /// A text after edits, which apply in turn. Each edit replaces every occurrence of its first string with its second string.
    Edited(&'static str, &'static [(&'static str, &'static str)]),
    /// A string that is repeated this many times.
    Repeated(&'static str, usize),
    /// The first lines of a text, followed by another text. The number is the number of lines to take.
    Front(&'static str, usize, &'static str),
    /// The first lines of a text, followed by a head, a string that is repeated, and a tail.
    Filled {
        /// The text from which the lines are taken.
        of: &'static str,
        /// The number of lines to take from the text.
        lines: usize,
        /// The text before the repeated string.
        head: &'static str,
        /// The repeated string.
        piece: &'static str,
        /// The number of times that the string is repeated.
        count: usize,
        /// The text after the repeated string.
        tail: &'static str,
    },
    /// A head, followed by one copy of a string for each number of `first..end`. In each copy, the number replaces each `#`.
    Numbered {
        /// The text before the copies.
        head: &'static str,
        /// The string to copy.
        piece: &'static str,
        /// The first number.
        first: u32,
        /// The number after the last number.
        end: u32,
    },
    /// The BSDL text of a device with this name and this number of boundary cells, which must be at least 1. All the cells are internal.
    Cells(&'static str, u32),
}

impl Text {
    /// Returns the bytes of the text.
    pub fn bytes(&self, alloc: Global) -> Result<Vec<u8>, AllocError> {
        match self {
            Text::Plain(text) => text.as_bytes().to_vec(alloc),
            Text::Bytes(bytes) => bytes.to_vec(alloc),
            Text::Edited(text, edits) => edited(alloc, text, edits),
            Text::Repeated(piece, count) => Ok(piece.repeat(alloc, *count)?.into_bytes()),
            Text::Front(of, lines, tail) => filled(alloc, of, *lines, ["", "", tail], 0),
            Text::Filled {
                of,
                lines,
                head,
                piece,
                count,
                tail,
            } => filled(alloc, of, *lines, [head, piece, tail], *count),
            Text::Numbered {
                head,
                piece,
                first,
                end,
            } => numbered(alloc, head, piece, *first, *end),
            Text::Cells(name, cells) => internal_cells(alloc, name, *cells),
        }
    }

    /// Adds the text to a store.
    pub fn add_to(
        &self,
        alloc: Global,
        store: &mut MemStore,
        name: &str,
    ) -> Result<(), AllocError> {
        let bytes = self.bytes(alloc)?;
        store.add(name, &bytes)
    }
}

// Returns the text after these edits, which apply in turn.
fn edited(alloc: Global, text: &str, edits: &[(&str, &str)]) -> Result<Vec<u8>, AllocError> {
    let mut edited = String::from_str(alloc, text)?;
    for (old, new) in edits {
        edited = edited.as_str().replace(alloc, *old, new)?;
    }
    Ok(edited.into_bytes())
}

// Returns the first `lines` lines of `of`, followed by the head, `count` copies of the piece, and the tail.
fn filled(
    alloc: Global,
    of: &str,
    lines: usize,
    [head, piece, tail]: [&str; 3],
    count: usize,
) -> Result<Vec<u8>, AllocError> {
    let mut text = String::new(alloc);
    for line in of.split_inclusive('\n').take(lines) {
        text.push_str(line)?;
    }
    text.push_str(head)?;
    text.push_str(&piece.repeat(alloc, count)?)?;
    text.push_str(tail)?;
    Ok(text.into_bytes())
}

fn numbered(
    alloc: Global,
    head: &str,
    piece: &str,
    first: u32,
    end: u32,
) -> Result<Vec<u8>, AllocError> {
    let mut text = String::from_str(alloc, head)?;
    for number in first..end {
        let digits = format!(in alloc; "{number}")?;
        text.push_str(&piece.replace(alloc, '#', &digits)?)?;
    }
    Ok(text.into_bytes())
}

// The beginning of a BSDL text, up to and including the entry of cell 0. `#` stands for the name, and `@` for the number of cells.
const FRONT: &str = r#"entity # is
generic (PHYSICAL_PIN_MAP : string := "P");
port (TDI, TMS, TCK : in bit; TDO : out bit);
use STD_1149_1_1994.all;
attribute PIN_MAP of # : entity is PHYSICAL_PIN_MAP;
constant P : PIN_MAP_STRING := "TDI:T1, TDO:T2, TMS:T3, TCK:T4";
attribute TAP_SCAN_IN of TDI : signal is true;
attribute TAP_SCAN_OUT of TDO : signal is true;
attribute TAP_SCAN_MODE of TMS : signal is true;
attribute TAP_SCAN_CLOCK of TCK : signal is (10.0e6, BOTH);
attribute INSTRUCTION_LENGTH of # : entity is 2;
attribute INSTRUCTION_OPCODE of # : entity is "BYPASS (11), EXTEST (00), SAMPLE (10)";
attribute INSTRUCTION_CAPTURE of # : entity is "01";
attribute BOUNDARY_LENGTH of # : entity is @;
attribute BOUNDARY_REGISTER of # : entity is
"0 (BC_1, *, internal, X)"#;

fn internal_cells(alloc: Global, name: &str, cells: u32) -> Result<Vec<u8>, AllocError> {
    let count = format!(in alloc; "{cells}")?;
    let front = FRONT.replace(alloc, '#', name)?;
    let mut text = front.as_str().replace(alloc, '@', &count)?;
    for cell in 1..cells {
        text.push_str(&format!(in alloc; ",\" &\n\"{cell} (BC_1, *, internal, X)")?)?;
    }
    text.push_str(&format!(in alloc; "\";\nend {name};\n")?)?;
    Ok(text.into_bytes())
}
