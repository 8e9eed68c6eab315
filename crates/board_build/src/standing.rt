// The words of a net file without those that repeat a pin of their net, with facts about the pins.
ghost use Rattle.std.specs.Prelude.{◌≡◌, All, map, true, None, IfOk};
ghost use Rattle.board_lines.specs.Names.{named, names_of};
ghost use Rattle.board_lines.specs.declared.names.Naming.TheVariants.{Inert};
ghost use Rattle.board_files.specs.Files.{HasFewPins};
ghost use Rattle.board_lines.specs.NetWords.{net_names, net_number, standing_words};
ghost use Rattle.board_lines.specs.ChainParts.{pin_places};
ghost use Rattle.board_build.specs.inner.Marked.{mark_word, marked_twice, seen_word};

use crate::marked::{MarkedWord, marked_words};
use crate::seen_pins::pins_differ;
use crate::selected_chain::SelectedChain;
use board_files::NetLine;
use board_lines::{net_words, once_words};
use std::alloc::{AllocError, Global};
use std::marker::Model;

/// The standing words of a net file, in the order of the file. A word is standing if no earlier word
/// of the same net names the same pin.
#[derive(Drop)]
pub struct StandingWords<'a> {
    words: Vec<MarkedWord<'a>>,
    /// True only if no two words name the same pin.
    differ: bool,
}

impl<'a> Model for StandingWords<'a> {
    ghost use Rattle.std.specs.Prelude.{◌≡◌, List, map, true, None};
    ghost use Rattle.board_build.specs.inner.Marked.{Marked, marked_twice, seen_word};

    ghost Value = { List Marked };

    ghost view = { λ a. map seen_word a.words.items };

    ghost invariant = { λ a. a.differ ≡ true → marked_twice (map seen_word a.words.items) ≡ None };
}

impl<'a> StandingWords<'a> {
    pub fn words(&self) -> &[MarkedWord<'a>]
        ensures { map seen_word result.now ≡ self.now }
    {
        &self.words
    }

    /// Returns true only if no two words name the same pin. In that case the words need not be
    /// compared.
    pub fn differ(&self) -> bool
        ensures { result ≡ true → marked_twice self.now ≡ None }
    {
        self.differ
    }
}

/// Returns the standing words of these net lines, each with facts about its pin. `numbers` must
/// have the number of each line's net, and each line must have fewer than 2^32 words.
///
/// If no two words name the same pin, as on most boards, every word is standing, and no two words
/// need to be compared.
pub fn standing_words<'a>(
    alloc: Global,
    chain: &SelectedChain<'_>,
    numbers: &[u32],
    nets: &'a [NetLine],
) -> Result<StandingWords<'a>, AllocError>
    requires numbers { numbers.now
        ≡ map (λ line. net_number (net_names nets.now) line.name) nets.now }
    requires short { All HasFewPins nets.now }
    ensures { IfOk result
        (λ standing. standing
        ≡ map
        (mark_word chain.now.parts (pin_places chain.now.parts)
        (names_of (named Inert chain.now.lines))) (standing_words nets.now)) }
{
    let words = net_words(alloc, numbers, nets)?;
    let marked = marked_words(alloc, chain, &words)?;
    if pins_differ(alloc, chain.parts(), &marked)? {
        return Ok(StandingWords {
            words: marked,
            differ: true,
        });
    }
    let once = once_words(alloc, &words)?;
    let marked = marked_words(alloc, chain, &once)?;
    Ok(StandingWords {
        words: marked,
        differ: false,
    })
}
