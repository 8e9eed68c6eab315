// The words of a net file that name pins.
ghost use Rattle.std.specs.Prelude.{◌≡◌, ◌≤◌, ◌-◌, ◌^◌, ◌++◌, All, vec_len, length, map, IfOk, OnOk, slice_get, unwrap_or};
ghost use Rattle.first_places.specs.Places.{once};
ghost use Rattle.board_files.specs.Files.{HasFewPins};
ghost use Rattle.board_lines.specs.NetWords.{lent_word, same_place, net_names, net_number, net_words, line_words};

use crate::names::numbered_names;
use board_defs::Spot;
use board_files::{NetLine, PinWord, line_names};
use first_places::once_by;
use short_lists::ShortSlice;
use std::alloc::{AllocError, Global};

/// A pin: the name of its part, and its own name.
pub type PinName<'a> = (&'a [u8], &'a [u8]);

/// A word that names a pin: the number of the word's net, the pin, and the line of the word and its
/// number in this line.
pub type NetWord<'a> = ((u32, PinName<'a>), Spot);

/// The names of the nets in a net file.
#[derive(Drop)]
pub struct NetNames<'a> {
    /// The distinct names, in the order of their first lines. The number of a net is the index of
    /// its name in this list.
    pub names: Vec<&'a [u8]>,
    /// The number of each line's net.
    pub numbers: Vec<u32>,
}

/// Returns the names of the nets, and the number of each line's net.
pub fn net_names<'a>(
    alloc: Global,
    lines: ShortSlice<'a, NetLine>,
) -> Result<NetNames<'a>, AllocError>
    ensures names { IfOk result
        (λ net. map (λ n. n.now) net.names.items ≡ net_names lines.entry.items.now) }
    ensures few { IfOk result (λ net. vec_len net.names ≤ length lines.entry.items.now) }
    ensures numbers { IfOk result
        (λ net. net.numbers.items
        ≡ map (λ line. net_number (net_names lines.entry.items.now) line.name) lines.entry.items.now) }
{
    let names = line_names(alloc, lines.items)?;
    let (different, numbers) = numbered_names(alloc, ShortSlice { items: &names })?;
    Ok(NetNames {
        names: different,
        numbers,
    })
}

fn number_at(numbers: &[u32], place: usize) -> u32
    ensures { result ≡ unwrap_or (slice_get numbers.now place) 0 }
{
    match numbers.get(place) {
        Some(number) => *number,
        None => 0,
    }
}

/// Appends a word for each pin of a line. The first pin of a line is word 3 of the line. The line
/// must have at most 2^32 - 3 pins.
fn push_line<'a>(
    words: &mut Vec<NetWord<'a>>,
    net: u32,
    line: u32,
    pins: &'a [PinWord],
) -> Result<(), AllocError>
    requires { length pins.now ≤ 2 ^ 32 - 3 }
    ensures { OnOk result
        (map lent_word words.new.items
        ≡ map lent_word words.old.items ++ line_words net line 3 pins.now) }
{
    let mut word = 3usize;
    for pin in pins {
        let spot = Spot {
            line,
            word: word as u32,
        };
        words.push(((net, (pin.part.bytes(), pin.pin.bytes())), spot))?;
        word += 1;
    }
    Ok(())
}

/// Returns the words that name pins, in the order of the file. `numbers` must have the number of
/// each line's net, and each line must have fewer than 2^32 words.
pub fn net_words<'a>(
    alloc: Global,
    numbers: &[u32],
    lines: &'a [NetLine],
) -> Result<Vec<NetWord<'a>>, AllocError>
    requires numbers { numbers.now
        ≡ map (λ line. net_number (net_names lines.now) line.name) lines.now }
    requires short { All HasFewPins lines.now }
    ensures { IfOk result (λ words. map lent_word words.items ≡ net_words lines.now) }
{
    let mut words = Vec::new(alloc);
    for i in 0..lines.len() {
        let line = &lines[i];
        let net = number_at(numbers, i);
        push_line(&mut words, net, line.line, line.pins.as_slice())?;
    }
    Ok(words)
}

/// Returns the words, leaving out each word that repeats the net and the pin of an earlier word.
pub fn once_words<'a>(alloc: Global, words: &[NetWord<'a>]) -> Result<Vec<NetWord<'a>>, AllocError>
    ensures { IfOk result
        (λ kept. map lent_word kept.items ≡ once same_place (map lent_word words.now)) }
{
    once_by(alloc, words)
}
