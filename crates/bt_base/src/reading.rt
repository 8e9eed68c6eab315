//! Reads the remaining bytes of a reader, up to a limit.
ghost use Rattle.std.specs.Prelude.{◌≡◌, ℕ, ◌+◌, ◌<◌, ◌≤◌, ◌||◌, [], length, take, OnOk, IfOk, IsErrOf, IfSome, is_err, false, Option, List};
ghost use Rattle.std.specs.Io.{ReadsAtMost};
ghost use Rattle.std.specs.Io.KnownBytes.{ReadConsumes};
ghost use Rattle.bt_base.specs.Faults.{is_failed};
ghost use Rattle.bt_base.specs.inner.Reading.{GivesNext};

use crate::FetchFault;
use std::io;
use std::io::Read;

/// A reader that remembers whether a read has failed.
#[derive(Drop)]
pub(crate) struct Watched<R> {
    from: R,
    failed: bool,
}

impl<R> Watched<R> {
    pub(crate) fn over(from: R) -> Self
        ensures from { result.from ≡ from }
        ensures failed { result.failed ≡ false }
    {
        Watched {
            from,
            failed: false,
        }
    }
}

impl<R: Read> Read for Watched<R> {
    ghost remaining = { λ w. R.remaining w.from };

    fn read(&mut self, buf: &mut [u8]) -> io::Result<usize>
        ensures bound { ReadsAtMost result buf.new }
        ensures bytes { ReadConsumes (R.remaining self.old.from) (R.remaining self.new.from) result
            buf.new }
        ensures failed { self.new.failed ≡ (self.old.failed || is_err result) }
    {
        let answer = self.from.read(buf);
        if answer.is_err() {
            self.failed = true;
        }
        answer
    }
}

/// Reads the remaining bytes of the reader into `into`, which must be empty. If there are more than
/// `cap` bytes, reads `cap + 1` bytes and returns `TooLong`. Returns `Failed` if and only if a read
/// fails.
pub(crate) fn read_all<R: Read>(
    from: &mut Watched<R>,
    into: &mut Vec<u8>,
    cap: u32,
) -> Result<(), FetchFault>
    requires { into.old.items ≡ [] }
    ensures whole { OnOk result
        (IfSome (R.remaining from.old.from) (λ left. into.new.items ≡ left)) }
    ensures short { OnOk result (length into.new.items ≤ cap) }
    ensures cut { IsErrOf result FetchFault.TooLong → length into.new.items ≡ cap + 1 }
    ensures too_long { IsErrOf result FetchFault.TooLong
        → IfSome (R.remaining from.old.from) (λ left. into.new.items ≡ take (cap + 1) left) }
    ensures failed { from.new.failed ≡ (from.old.failed || is_failed result) }
{
    let limit = cap as usize + 1;
    while into.len() < limit {
        let most = limit - into.len();
        if read_some(from, into, most)? == 0 {
            return Ok(());
        }
    }
    Err(FetchFault::TooLong)
}

// Makes one read of at most `most` bytes, and appends the bytes that it read. Returns their number,
// which is 0 only at the reader's end. `most` must not be 0.
fn read_some<R: Read>(
    from: &mut Watched<R>,
    into: &mut Vec<u8>,
    most: usize,
) -> Result<usize, FetchFault>
    requires { 0 < most }
    ensures within { IfOk result (λ n. n ≤ most) }
    ensures next { IfOk result
        (λ n. GivesNext (R.remaining from.old.from) (R.remaining from.new.from) into.old.items
        into.new.items n) }
    ensures failed { from.new.failed ≡ (from.old.failed || is_failed result) }
    ensures not_too_long { IsErrOf result FetchFault.TooLong → ⊥ }
{
    let mut chunk = [0u8; 8192];
    let most = most.min(chunk.len());
    let Ok(count) = from.read(&mut chunk[..most]) else {
        return Err(FetchFault::Failed);
    };
    into.extend_from_slice(&chunk[..count])
        .map_err(FetchFault::Memory)?;
    Ok(count)
}
