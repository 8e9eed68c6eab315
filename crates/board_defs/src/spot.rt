// A place in a text.

/// The place of a word in a text: the number of its line and its number among the words of that line. Both count from
/// 1.
#[derive(Clone, Copy, Debug)]
pub struct Spot {
    pub line: u32,
    pub word: u32,
}
