// The SVF text of one scan. `line` is a buffer in which each line is made before it is written. A
// row has the bits of TDI, TDO or MASK.
ghost use Rattle.std.specs.Prelude.{◌≡◌, ◌↔◌, ◌+◌, ◌*◌, ◌<◌, ◌≤◌, [], ◌∷◌, ◌++◌, true, false, length, take, drop, IsTrue};
ghost use Rattle.std.specs.List.{list_any};
ghost use Rattle.board_defs.specs.Limits.{most_bits};
ghost use Rattle.bt_base.specs.Puts.{Puts};
ghost use Rattle.bt_bits.specs.Hex.{hex_text, digit_count};
ghost use Rattle.tap_defs.specs.chain.Scan.{scan_bits};
ghost use Rattle.tap_defs.specs.chain.Text.{broken, scan_text};
ghost use Rattle.svf_writer.specs.inner.Fields.{command_text, fields_text, fields_length, fields_lines};
ghost use Rattle.svf_writer.specs.Rows.{IsMasked};

use bt_base::{PutFault, Sink};
use bt_bits::{Line, Row};
use tap_defs::Shape;

// The largest number of characters of a scan statement that is written in one line, without the
// line feed.
const MAX_SHORT: usize = 80;

// The largest number of digits in a line of a scan statement that is written in several lines.
const LINE_DIGITS: u32 = 64;

// Replaces the line by the command and the length of the scan.
#[tactic(auto, using(bt_bits::proofs::DecimalLemmas::decimal_is_short))]
fn begin(ir: bool, tdi: &Row, line: &mut Line)
    ensures text { line.new ≡ command_text ir tdi.now.bits }
    ensures short { length line.new ≤ 24 }
{
    line.clear();
    line.push(if ir { b"SIR " } else { b"SDR " });
    line.push_number(u64::from(tdi.len()));
}

// Appends a label and the digits of a row to the line. The line must have room for the text.
fn push_field(label: &[u8], row: &Row, line: &mut Line)
    requires room { length line.old + length label.now + digit_count (length row.now.bits) ≤ 1024 }
    ensures text { line.new ≡ line.old ++ (label.now ++ hex_text row.now.bits) }
    ensures longer { length line.new
        ≡ length line.old + length label.now + digit_count (length row.now.bits) }
{
    line.push(label);
    row.put_hex(0, row.digit_count(), line);
}

// Appends the fields of a scan and a line feed to the line with the command. The rows must have the
// same length, and the line must have room for the fields.
fn push_fields(compare: bool, tdi: &Row, tdo: &Row, mask: &Row, line: &mut Line)
    requires tdo { length tdo.now.bits ≡ length tdi.now.bits }
    requires mask { length mask.now.bits ≡ length tdi.now.bits }
    requires room { length line.old + 3 * digit_count (length tdi.now.bits) ≤ 1000 }
    ensures { line.new
        ≡ line.old
        ++ (fields_text false tdi.now.bits tdo.now.bits mask.now.bits compare ++ 10 ∷ []) }
{
    push_field(b" TDI (", tdi, line);
    if compare {
        push_field(b") TDO (", tdo, line);
        push_field(b") MASK (", mask, line);
    }
    line.push(b");\n");
}

// Returns the number of characters of a scan's fields in one line. Each field has `digits` digits,
// at most `most_bits`.
fn fields_length(compare: bool, digits: u32) -> usize
    requires { digits ≤ most_bits }
    ensures { result ≡ fields_length compare digits }
{
    let digits = digits as usize;
    if compare {
        b" TDI () TDO () MASK ();".len() + 3 * digits
    } else {
        b" TDI ();".len() + digits
    }
}

// Appends 64 digits of the row's field and a line feed to the line. Then writes the line and
// empties it. The field must have 64 digits from digit `from` on, and the line must have at most 6
// bytes.
fn put_full_line<K: Sink>(
    row: &Row,
    from: u32,
    line: &mut Line,
    out: &mut K,
) -> Result<(), PutFault>
    requires digits { from + 64 ≤ digit_count (length row.now.bits) }
    requires room { length line.old ≤ 6 }
    ensures text { Puts (K.shown out.old) (K.shown out.new)
        (line.old ++ (take 64 (drop from (hex_text row.now.bits)) ++ 10 ∷ [])) result }
    ensures empty { line.new ≡ [] }
{
    row.put_hex(from, LINE_DIGITS, line);
    line.push(b"\n");
    let done = out.put(line.bytes());
    line.clear();
    done
}

// Returns whether the fields of a scan fit into the line with its command, which may have at most
// 80 characters. The line must already have the command, and the row must have at most `most_bits`
// bits.
fn has_room(compare: bool, tdi: &Row, line: &Line) -> bool
    requires { length tdi.now.bits ≤ most_bits }
    ensures { IsTrue result
        ↔ (length line.now + fields_length compare (digit_count (length tdi.now.bits)) ≤ 80) }
{
    line.len() + fields_length(compare, tdi.digit_count()) <= MAX_SHORT
}

// Writes a field in lines of its own: the label, then the digits, at most 64 in a line, and then
// `end`. The label must have at most 6 bytes, and `end` at most 3.
fn put_field<K: Sink>(
    label: &[u8],
    row: &Row,
    end: &[u8],
    line: &mut Line,
    out: &mut K,
) -> Result<(), PutFault>
    requires label { length label.now ≤ 6 }
    requires end { length end.now ≤ 3 }
    ensures { Puts (K.shown out.old) (K.shown out.new)
        (label.now ++ (broken 64 (hex_text row.now.bits) ++ end.now)) result }
{
    let count = row.digit_count();
    let mut from = 0;
    line.clear();
    line.push(label);
    while count - from > LINE_DIGITS {
        put_full_line(row, from, line, out)?;
        from += LINE_DIGITS;
    }
    row.put_hex(from, count - from, line);
    line.push(end);
    out.put(line.bytes())
}

// Writes the fields of a scan that compares some bit, each in lines of its own. The rows must have
// the same length.
fn put_compared<K: Sink>(
    tdi: &Row,
    tdo: &Row,
    mask: &Row,
    line: &mut Line,
    out: &mut K,
) -> Result<(), PutFault>
    requires tdo { length tdo.now.bits ≡ length tdi.now.bits }
    requires mask { length mask.now.bits ≡ length tdi.now.bits }
    ensures { Puts (K.shown out.old) (K.shown out.new)
        (fields_lines tdi.now.bits tdo.now.bits mask.now.bits true) result }
{
    put_field(b"TDI (", tdi, b")\n", line, out)?;
    put_field(b"TDO (", tdo, b")\n", line, out)?;
    put_field(b"MASK (", mask, b");\n", line, out)
}

// Writes the fields of a scan, each in lines of its own. The rows must have the same length.
fn put_fields<K: Sink>(
    compare: bool,
    tdi: &Row,
    tdo: &Row,
    mask: &Row,
    line: &mut Line,
    out: &mut K,
) -> Result<(), PutFault>
    requires tdo { length tdo.now.bits ≡ length tdi.now.bits }
    requires mask { length mask.now.bits ≡ length tdi.now.bits }
    ensures { Puts (K.shown out.old) (K.shown out.new)
        (fields_lines tdi.now.bits tdo.now.bits mask.now.bits compare) result }
{
    if compare {
        put_compared(tdi, tdo, mask, line, out)
    } else {
        put_field(b"TDI (", tdi, b");\n", line, out)
    }
}

// Writes a scan that does not fit into one line: the line with the command, and then the fields.
// `line` must have the command, at most 24 bytes. The rows must have the same length, at most
// `most_bits`.
fn put_lines<K: Sink>(
    compare: bool,
    tdi: &Row,
    tdo: &Row,
    mask: &Row,
    line: &mut Line,
    out: &mut K,
) -> Result<(), PutFault>
    requires bits { length tdi.now.bits ≤ most_bits }
    requires tdo { length tdo.now.bits ≡ length tdi.now.bits }
    requires mask { length mask.now.bits ≡ length tdi.now.bits }
    requires room { length line.old ≤ 24 }
    ensures { Puts (K.shown out.old) (K.shown out.new)
        ((line.old ++ 10 ∷ []) ++ fields_lines tdi.now.bits tdo.now.bits mask.now.bits compare) result }
{
    line.push(b"\n");
    out.put(line.bytes())?;
    put_fields(compare, tdi, tdo, mask, line, out)
}

/// Writes the statement of a scan (SVF Revision E, SIR and SDR). A statement of at most 80
/// characters is one line. A longer statement has its command in one line, and each field in lines
/// of at most 64 digits. Each line is one write to the sink.
///
/// The rows must have the same length, from 1 to 65,535 bits. `shape.compare` must say whether the
/// mask has a 1. Wherever TDO has a 1, the mask must have a 1. The call allocates nothing. `line`
/// is a buffer for one line of text, and its content is unspecified afterwards. The call fails only
/// if the sink fails. The sink has then taken a prefix of the text.
pub fn write_scan<K: Sink>(
    shape: Shape,
    tdi: &Row,
    tdo: &Row,
    mask: &Row,
    line: &mut Line,
    out: &mut K,
) -> Result<(), PutFault>
    requires some { 0 < length tdi.now.bits }
    requires bits { length tdi.now.bits ≤ most_bits }
    requires tdo { length tdo.now.bits ≡ length tdi.now.bits }
    requires mask { length mask.now.bits ≡ length tdi.now.bits }
    requires compare { shape.compare ≡ list_any (λ bit. bit) mask.now.bits }
    requires masked { IsMasked tdo.now.bits mask.now.bits }
    ensures { Puts (K.shown out.old) (K.shown out.new)
        (scan_text (record { ir = shape.ir; bits = scan_bits tdi.now.bits tdo.now.bits mask.now.bits })) result }
{
    begin(shape.ir, tdi, line);
    if has_room(shape.compare, tdi, line) {
        push_fields(shape.compare, tdi, tdo, mask, line);
        out.put(line.bytes())
    } else {
        put_lines(shape.compare, tdi, tdo, mask, line, out)
    }
}
