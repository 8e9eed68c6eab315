//! Writes a piece of bytes to a writer, and flushes the writer.
ghost use Rattle.std.specs.Prelude.{◌≡◌, OnOk, true, false};
ghost use Rattle.std.specs.Io.KnownBytes.{Appends, Keeps};

use std::io;

/// A writer that remembers whether it has been flushed since its last write.
#[derive(Drop)]
pub(crate) struct Flushed<W> {
    to: W,
    flushed: bool,
}

impl<W> Flushed<W> {
    pub(crate) fn over(to: W) -> Self
        ensures { result.to ≡ to }
    {
        Flushed { to, flushed: false }
    }
}

impl<W: io::Write> Flushed<W> {
    fn write(&mut self, piece: &[u8]) -> io::Result<()>
        ensures bytes { OnOk result
            (Appends (W.contents self.old.to) (W.contents self.new.to) piece.now) }
        ensures flushed { self.new.flushed ≡ false }
    {
        self.flushed = false;
        self.to.write_all(piece)
    }

    fn flush(&mut self) -> io::Result<()>
        ensures bytes { Keeps (W.contents self.old.to) (W.contents self.new.to) }
        ensures flushed { OnOk result (self.new.flushed ≡ true) }
    {
        self.to.flush()?;
        self.flushed = true;
        Ok(())
    }
}

/// Writes the whole piece and flushes the writer. A write that takes none of the remaining bytes is
/// an error.
pub(crate) fn write_whole<W: io::Write>(to: &mut Flushed<W>, piece: &[u8]) -> io::Result<()>
    ensures bytes { OnOk result (Appends (W.contents to.old.to) (W.contents to.new.to) piece.now) }
    ensures flushed { OnOk result (to.new.flushed ≡ true) }
{
    to.write(piece)?;
    to.flush()
}
