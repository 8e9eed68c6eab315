// Reads texts from a store.
ghost use Rattle.std.specs.Prelude.{◌≡◌, [], ◌∷◌, map};
ghost use Rattle.btest_cli.specs.Texts.{wanted_log, text_called};
ghost use Rattle.btest_cli.specs.inner.Failures.{wanted_view};
ghost use Rattle.btest_cli.specs.inner.Reads.{AreAll, IsOne, Reads};

use crate::failure::Unread;
use bt_base::{FetchFault, Store};
use command_line::{BsdlNames, FileName};
use short_lists::{ShortText, ShortTexts};
use std::alloc::Global;

// The largest number of bytes of a chain file, a net file or a BSDL text.
const MOST_BYTES: u32 = 4_194_304;

// The largest number of bytes of a response log, or of a batch of logs in one text.
const MOST_LOG_BYTES: u32 = 67_108_864;

/// A text to read: its name, and the largest number of bytes that it may have.
#[derive(Clone, Copy)]
pub struct Wanted<'a> {
    pub name: &'a str,
    pub limit: u32,
}

// Returns the `Wanted` for the chain file, net file or BSDL text with this name: the name, with the
// limit `MOST_BYTES`.
fn text_called<'a>(name: &'a str) -> Wanted<'a>
    ensures { wanted_view result ≡ text_called name.entry.now }
{
    Wanted {
        name,
        limit: MOST_BYTES,
    }
}

// Returns the `Wanted` for the response log or batch of logs with this name: the name, with the limit `MOST_LOG_BYTES`.
fn log_called<'a>(name: &'a str) -> Wanted<'a>
    ensures { wanted_view result ≡ wanted_log name.entry.now }
{
    Wanted {
        name,
        limit: MOST_LOG_BYTES,
    }
}

// Reads a text of at most `wanted.limit` bytes.
fn read_wanted<'a, S: Store>(
    alloc: Global,
    wanted: Wanted<'a>,
    store: &mut S,
) -> Result<ShortText, Unread<'a>>
    ensures { Reads IsOne (wanted_view wanted.entry ∷ []) (S.held store.old) (S.held store.new)
        (S.faults store.old) (S.faults store.new) (S.asked store.old) (S.asked store.new) result }
{
    let mut text = Vec::new(alloc);
    match store.fetch(wanted.name, &mut text, wanted.limit) {
        Ok(()) => Ok(ShortText::of(text)),
        Err(FetchFault::Failed) => Err(Unread::Failed(wanted)),
        Err(FetchFault::TooLong) => Err(Unread::TooLong(wanted)),
        Err(FetchFault::Memory(_)) => Err(Unread::Memory),
    }
}

// Reads the chain file, net file or BSDL text with this name, of at most `MOST_BYTES` bytes.
fn read_text<'a, S: Store>(
    alloc: Global,
    name: &'a str,
    store: &mut S,
) -> Result<ShortText, Unread<'a>>
    ensures { Reads IsOne (text_called name.entry.now ∷ []) (S.held store.old) (S.held store.new)
        (S.faults store.old) (S.faults store.new) (S.asked store.old) (S.asked store.new) result }
{
    read_wanted(alloc, text_called(name), store)
}

/// Reads a chain file, a net file or a BSDL text of at most `MOST_BYTES` bytes.
pub fn read_file<'a, S: Store>(
    alloc: Global,
    name: &FileName<'a>,
    store: &mut S,
) -> Result<ShortText, Unread<'a>>
    ensures { Reads IsOne (text_called name.now ∷ []) (S.held store.old) (S.held store.new)
        (S.faults store.old) (S.faults store.new) (S.asked store.old) (S.asked store.new) result }
{
    read_text(alloc, name.as_str(), store)
}

/// Reads a response log or a batch of logs of at most `MOST_LOG_BYTES` bytes.
pub fn read_log<'a, S: Store>(
    alloc: Global,
    name: &FileName<'a>,
    store: &mut S,
) -> Result<ShortText, Unread<'a>>
    ensures { Reads IsOne (wanted_log name.now ∷ []) (S.held store.old) (S.held store.new)
        (S.faults store.old) (S.faults store.new) (S.asked store.old) (S.asked store.new) result }
{
    read_wanted(alloc, log_called(name.as_str()), store)
}

/// Reads BSDL texts in order, each of at most `MOST_BYTES` bytes. Stops at the first failure and returns it: a text that
/// cannot be read, a text that is too long, or lack of memory.
pub fn read_texts<'a, S: Store>(
    alloc: Global,
    names: &BsdlNames<'a>,
    store: &mut S,
) -> Result<ShortTexts, Unread<'a>>
    ensures { Reads AreAll (map text_called names.now) (S.held store.old) (S.held store.new)
        (S.faults store.old) (S.faults store.new) (S.asked store.old) (S.asked store.new) result }
{
    let names = names.as_slice();
    let mut texts = Vec::new(alloc);
    for name in names {
        let text = match read_text(alloc, *name, store) {
            Ok(text) => text,
            Err(failure) => return Err(failure),
        };
        let Ok(()) = texts.push(text.into_bytes()) else {
            return Err(Unread::Memory);
        };
    }
    Ok(ShortTexts::of(texts))
}
