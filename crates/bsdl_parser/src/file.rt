//! Reads a whole file.
ghost use Rattle.std.specs.Prelude.{◌≡◌};
ghost use Rattle.grammars.specs.Grammar.{reader_of_grammar};
ghost use Rattle.bsdl_parser.specs.inner.Reading.{ReadsTokens};
ghost use Rattle.bsdl_parser.specs.Bsdl.{file, close_of, entity_from_items};
ghost use Rattle.bsdl_parser.specs.inner.Views.{items_of};

use crate::cursor::Cursor;
use crate::draft::Draft;
use crate::entity::Entity;
use crate::stop::Stop;
use board_defs::{Items, Name};

fn entity_from(name: Name, draft: Draft) -> Entity
    ensures { result ≡ entity_from_items name (items_of draft) }
{
    let Draft {
        has_generic: _,
        fallback,
        has_port: _,
        ports,
        uses,
        constants,
        attributes,
    } = draft;
    Entity {
        name,
        fallback,
        ports: Items::of(ports),
        uses: Items::of(uses),
        constants: Items::of(constants),
        attributes: Items::of(attributes),
    }
}

impl<'a> Cursor<'a> {
    fn close(&mut self, is_named: bool) -> Result<(), Stop>
        ensures { ReadsTokens (reader_of_grammar (close_of is_named)) self.old self.new result
            (λ x. x) }
    {
        if is_named { self.mark(b";") } else { Ok(()) }
    }

    /// Reads a file from the front of the tokens. Returns its entity.
    #[tactic(auto, unfolding(crate::specs::Bsdl::file))]
    pub(crate) fn file(&mut self) -> Result<Entity, Stop>
        ensures { ReadsTokens (reader_of_grammar file) self.old self.new result (λ entity. entity) }
    {
        self.keyword(b"ENTITY")?;
        let name = self.word()?;
        self.keyword(b"IS")?;
        let draft = self.items()?;
        let is_named = self.word_or_mark(b";")?;
        self.close(is_named)?;
        Ok(entity_from(name, draft))
    }
}
