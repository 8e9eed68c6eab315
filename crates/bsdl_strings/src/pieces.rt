//! Splits a string of a BSDL text into pieces: groups of letters, digits and `_`, and single other
//! bytes. Blanks separate pieces.
ghost use Rattle.std.specs.Prelude.{◌≡◌, [], ◌∷◌, length, MatchOption, IfSome, true, false, ◌≤◌};
ghost use Rattle.std.specs.List.{take_while};
ghost use Rattle.bsdl_strings.specs.Pieces.{is_string_blank, is_word_byte, starts_word, starts_blank, is_end, pieces};

fn is_space(byte: u8) -> bool
    ensures { result ≡ is_string_blank byte }
{
    byte == b' ' || byte == b'\t'
}

pub(crate) fn joins_word(byte: u8) -> bool
    ensures { result ≡ is_word_byte byte }
{
    byte.is_ascii_alphanumeric() || byte == b'_'
}

fn blanks(text: &[u8]) -> usize
    ensures count { result ≡ length (take_while is_string_blank text.now) }
    ensures within { result ≤ length text.now }
{
    text.iter().take_while(|byte| is_space(**byte)).count()
}

fn word_bytes(text: &[u8]) -> usize
    ensures count { result ≡ length (take_while is_word_byte text.now) }
    ensures within { result ≤ length text.now }
{
    text.iter().take_while(|byte| joins_word(**byte)).count()
}

/// Returns the text without the blanks at its front.
fn past_blanks(text: &[u8]) -> &[u8]
    ensures same { pieces result.now ≡ pieces text.now }
    ensures no_blank { starts_blank result.now ≡ false }
{
    text.split_at(blanks(text)).1
}

/// Returns the letters, digits and `_` at the front, and the text after them. The text must begin
/// with one of these bytes.
fn word_piece(text: &[u8]) -> (&[u8], &[u8])
    requires { starts_word text.now ≡ true }
    ensures pieces { pieces text.now ≡ result.0.now ∷ pieces result.1.now }
    ensures some { is_end result.0.now ≡ false }
{
    text.split_at(word_bytes(text))
}

/// Returns the piece at the front and the text after it. Returns None if the text has only blanks or is empty.
#[tactic(auto, unfolding(crate::specs::Pieces::pieces))]
pub(crate) fn next_piece(text: &[u8]) -> Option<(&[u8], &[u8])>
    ensures pieces { MatchOption result (pieces text.now ≡ [] ∷ [])
        (λ x. pieces text.now ≡ x.0.now ∷ pieces x.1.now) }
    ensures some { IfSome result (λ x. is_end x.0.now ≡ false) }
{
    let text = past_blanks(text);
    match text {
        [] => None,
        [first, rest @ ..] => {
            if joins_word(*first) {
                Some(word_piece(text))
            } else {
                Some((text.split_at(1).0, rest))
            }
        }
    }
}

/// Returns the text after `mark` if the first byte is `mark`, and `mark` is not a blank, a letter, a
/// digit or `_`. This test is faster than `next_piece`. If the result is None, the next piece may
/// still be the mark, after blanks.
#[inline]
#[tactic(auto, unfolding(crate::specs::Pieces::pieces))]
pub(crate) fn after_mark(text: &[u8], mark: u8) -> Option<&[u8]>
    ensures { IfSome result (λ rest. pieces text.now ≡ (mark ∷ []) ∷ pieces rest.now) }
{
    match text {
        [first, rest @ ..] if *first == mark && !is_space(mark) && !joins_word(mark) => Some(rest),
        _ => None,
    }
}
