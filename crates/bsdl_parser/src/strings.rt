//! Reads strings. A string is one string token, or several string tokens joined by `&`.
ghost use Rattle.std.specs.Prelude.{◌≡◌, map};
ghost use Rattle.std.specs.Char.{to_ascii_uppercase};
ghost use Rattle.grammars.specs.Turn.{turn_of};
ghost use Rattle.grammars.specs.Grammar.{reader_of_grammar};
ghost use Rattle.bsdl_parser.specs.inner.Reading.{ReadsTokens};
ghost use Rattle.bsdl_parser.specs.Bsdl.{string_piece, string};

use crate::cursor::Cursor;
use crate::stop::Stop;
use board_defs::Name;

/// Returns a name with these bytes in upper case.
fn upper(mut content: Vec<u8>) -> Name
    ensures { result ≡ map to_ascii_uppercase content.items }
{
    content.as_mut_slice().make_ascii_uppercase();
    Name::from_vec(content)
}

impl<'a> Cursor<'a> {
    /// Reads one string token and the mark after it, which is `&` or `close`. Appends the bytes between the token's
    /// quotes to `content`. Returns whether another string token follows.
    #[tactic(auto, unfolding(crate::specs::Bsdl::string_piece))]
    fn piece(&mut self, close: &[u8], content: &mut Vec<u8>) -> Result<bool, Stop>
        ensures { ReadsTokens
            (reader_of_grammar (string_piece close.now (map to_ascii_uppercase content.old.items)))
            self.old self.new result
            (λ joined. turn_of joined (map to_ascii_uppercase content.new.items)) }
    {
        let text = self.text_bytes()?;
        content.extend_from_slice(text)?;
        self.either_mark(b"&", close)
    }

    /// Reads a string and the mark `close` after it. Returns the string in upper case.
    pub(crate) fn string(&mut self, close: &[u8]) -> Result<Name, Stop>
        ensures { ReadsTokens (reader_of_grammar (string close.now)) self.old self.new result
            (λ name. name) }
    {
        let mut content = Vec::new(self.allocator());
        while self.piece(close, &mut content)? {}
        Ok(upper(content))
    }
}
