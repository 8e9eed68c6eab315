//! Reads the items of a file: generic, port, use, constant and attribute items.
ghost use Rattle.std.specs.Prelude.{◌≡◌, map};
ghost use Rattle.std.specs.Char.{to_ascii_uppercase};
ghost use Rattle.grammars.specs.Turn.{turn_of};
ghost use Rattle.grammars.specs.Grammar.{turns, reader_of_grammar};
ghost use Rattle.bsdl_parser.specs.inner.Reading.{ReadsTokens};
ghost use Rattle.bsdl_parser.specs.Bsdl.{fallback, generic, used_package, constant, item_word, item_begin, item, no_items};
ghost use Rattle.bsdl_parser.specs.inner.Views.{items_of};

use crate::cursor::{Cursor, bytes_at, is_word};
use crate::draft::{Draft, ItemWord};
use crate::entity::Constant;
use crate::stop::Stop;
use board_defs::Name;
use grammars::spells;

/// Returns the kind of item that the word begins. Returns None if no item begins with the word, or
/// if this item may not follow the items in `draft`.
fn begun(word: &[u8], draft: &Draft) -> Option<ItemWord>
    ensures { result ≡ item_word (items_of draft.now) (map to_ascii_uppercase word.now) }
{
    if spells(word, b"GENERIC") {
        if draft.has_generic {
            None
        } else {
            Some(ItemWord::Generic)
        }
    } else if spells(word, b"PORT") {
        if draft.has_port {
            None
        } else {
            Some(ItemWord::Port)
        }
    } else if spells(word, b"USE") {
        Some(ItemWord::Use)
    } else if spells(word, b"CONSTANT") {
        Some(ItemWord::Constant)
    } else if spells(word, b"ATTRIBUTE") {
        Some(ItemWord::Attribute)
    } else if spells(word, b"END") && draft.has_generic && draft.has_port {
        Some(ItemWord::End)
    } else {
        None
    }
}

impl<'a> Cursor<'a> {
    fn fallback_if(&mut self, is_given: bool) -> Result<Option<Name>, Stop>
        ensures { ReadsTokens (reader_of_grammar (fallback is_given)) self.old self.new result
            (λ name. name) }
    {
        if is_given {
            self.mark(b"=")?;
            Ok(Some(self.string(b")")?))
        } else {
            Ok(None)
        }
    }

    /// Reads a generic item after its first word. Returns the default of PHYSICAL_PIN_MAP, if there is one.
    #[tactic(auto, unfolding(crate::specs::Bsdl::generic))]
    fn generic_item(&mut self) -> Result<Option<Name>, Stop>
        ensures { ReadsTokens (reader_of_grammar generic) self.old self.new result (λ name. name) }
    {
        self.mark(b"(")?;
        self.keyword(b"PHYSICAL_PIN_MAP")?;
        self.mark(b":")?;
        self.keyword(b"STRING")?;
        let is_given = self.either_mark(b":", b")")?;
        let fallback = self.fallback_if(is_given)?;
        self.mark(b";")?;
        Ok(fallback)
    }

    /// Reads a use item after its first word. Returns the name of the package.
    #[tactic(auto, unfolding(crate::specs::Bsdl::used_package))]
    fn use_item(&mut self) -> Result<Name, Stop>
        ensures { ReadsTokens (reader_of_grammar used_package) self.old self.new result
            (λ name. name) }
    {
        let name = self.word()?;
        self.mark(b".")?;
        self.keyword(b"ALL")?;
        self.mark(b";")?;
        Ok(name)
    }

    /// Reads a constant item after its first word.
    #[tactic(auto, unfolding(crate::specs::Bsdl::constant))]
    fn constant_item(&mut self) -> Result<Constant, Stop>
        ensures { ReadsTokens (reader_of_grammar constant) self.old self.new result
            (λ constant. constant) }
    {
        let name = self.word()?;
        self.mark(b":")?;
        self.keyword(b"PIN_MAP_STRING")?;
        self.mark(b":")?;
        self.mark(b"=")?;
        let text = self.string(b";")?;
        Ok(Constant { name, text })
    }

    fn item_begin(&mut self, draft: &Draft) -> Result<ItemWord, Stop>
        ensures { ReadsTokens (reader_of_grammar (item_begin (items_of draft.now))) self.old
            self.new result (λ word. word) }
    {
        match self.rest {
            [token, rest @ ..] if is_word(token.kind) => {
                let word = begun(bytes_at(self.text, token), draft).ok_or(Stop::Stray)?;
                self.rest = rest;
                Ok(word)
            }
            _ => Err(Stop::Stray),
        }
    }

    /// Reads one item and adds it to `draft`. Returns false if it reads the word `end` instead of
    /// an item.
    #[tactic(auto, unfolding(crate::specs::Bsdl::item, crate::specs::Bsdl::item_after))]
    fn item(&mut self, draft: &mut Draft) -> Result<bool, Stop>
        ensures { ReadsTokens (reader_of_grammar (item (items_of draft.old))) self.old self.new
            result (λ more. turn_of more (items_of draft.new)) }
    {
        match self.item_begin(draft)? {
            ItemWord::Generic => {
                draft.fallback = self.generic_item()?;
                draft.has_generic = true;
            }
            ItemWord::Port => {
                draft.ports = self.port_item()?;
                draft.has_port = true;
            }
            ItemWord::Use => draft.uses.push(self.use_item()?)?,
            ItemWord::Constant => draft.constants.push(self.constant_item()?)?,
            ItemWord::Attribute => {
                if let Some(attribute) = self.attribute_item()? {
                    draft.attributes.push(attribute)?;
                }
            }
            ItemWord::End => return Ok(false),
        }
        Ok(true)
    }

    /// Reads the items up to and including the word `end`.
    pub(crate) fn items(&mut self) -> Result<Draft, Stop>
        ensures { ReadsTokens (reader_of_grammar (turns item no_items)) self.old self.new result
            (λ draft. items_of draft) }
    {
        let mut draft = Draft {
            has_generic: false,
            fallback: None,
            has_port: false,
            ports: Vec::new(self.allocator()),
            uses: Vec::new(self.allocator()),
            constants: Vec::new(self.allocator()),
            attributes: Vec::new(self.allocator()),
        };
        while self.item(&mut draft)? {}
        Ok(draft)
    }
}
