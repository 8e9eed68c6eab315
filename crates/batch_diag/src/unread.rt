// The blocks of a batch whose logs have yet to be read.
ghost use Rattle.std.specs.Prelude.{◌+◌, ◌<◌, ◌^◌, length};

/// A block whose log has yet to be read: the line number of its title, the id in the title, and the text `own` from the line after the
/// title up to the next title or the end of the batch's text.
#[derive(Clone, Copy)]
pub struct UnreadBlock<'a> {
    pub line: usize,
    pub id: &'a [u8],
    pub own: &'a [u8],
    ghost short: { line + length own.now < 2 ^ 32 },
}

/// Fewer than 2^32 blocks whose logs have yet to be read, with the number of rows of each log and the number of bits in each row.
#[derive(Drop)]
pub struct Reading<'a> {
    pub unread: Vec<UnreadBlock<'a>>,
    pub rows: u64,
    pub len: u32,
    ghost few: { length unread.items < 2 ^ 32 },
}
