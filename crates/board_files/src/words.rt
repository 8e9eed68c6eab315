// Checks of the words in a board's files.
ghost use Rattle.std.specs.Prelude.{◌≡◌, map, option_map, option_copied};
ghost use Rattle.std.specs.List.{list_all, list_any};
ghost use Rattle.board_files.specs.Words.{is_part, is_symbol_word, is_symbol_byte, is_dot, one_of, two_of, three_of};

use text_lines::is_word;

fn has_dot(word: &[u8]) -> bool
    ensures { result ≡ list_any is_dot word.now }
{
    word.iter().any(|b| *b == b'.')
}

/// Returns whether the word may be the name of a part: 1 to 255 visible ASCII bytes without `.`.
pub fn is_part(word: &[u8]) -> bool
    ensures { result ≡ is_part word.now }
{
    is_word(word) && !has_dot(word)
}

fn is_symbol_byte(b: u8) -> bool
    ensures { result ≡ is_symbol_byte b }
{
    b.is_ascii_alphanumeric() || b == b'_'
}

fn has_symbol_bytes(word: &[u8]) -> bool
    ensures { result ≡ list_all is_symbol_byte word.now }
{
    word.iter().all(|b| is_symbol_byte(*b))
}

/// Returns whether the word has 1 to 255 bytes, each a letter, a digit or `_`.
pub fn is_symbol(word: &[u8]) -> bool
    ensures { result ≡ is_symbol_word word.now }
{
    is_word(word) && has_symbol_bytes(word)
}

pub fn one_of<'a>(words: &[&'a [u8]]) -> Option<&'a [u8]>
    ensures { option_copied result ≡ one_of (map (λ w. w.now) words.now) }
{
    match words {
        [a] => Some(*a),
        _ => None,
    }
}

pub fn two_of<'a>(words: &[&'a [u8]]) -> Option<(&'a [u8], &'a [u8])>
    ensures { option_map (λ w. (w.0.now, w.1.now)) result ≡ two_of (map (λ w. w.now) words.now) }
{
    match words {
        [a, b] => Some((*a, *b)),
        _ => None,
    }
}

pub fn three_of<'a>(words: &[&'a [u8]]) -> Option<(&'a [u8], &'a [u8], &'a [u8])>
    ensures { option_map (λ w. (w.0.now, w.1.now, w.2.now)) result
        ≡ three_of (map (λ w. w.now) words.now) }
{
    match words {
        [a, b, c] => Some((*a, *b, *c)),
        _ => None,
    }
}
