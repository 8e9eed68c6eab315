//! Reads the port item. It consists of groups. A group declares one or more ports, which have the same mode and the
//! same range.
ghost use Rattle.std.specs.Prelude.{◌≡◌, ◌++◌, [], OnOk};
ghost use Rattle.grammars.specs.Turn.{turn_of};
ghost use Rattle.grammars.specs.Grammar.{turns, reader_of_grammar};
ghost use Rattle.bsdl_parser.specs.inner.Reading.{ReadsTokens};
ghost use Rattle.bsdl_parser.specs.Bsdl.{port_name, range, range_of, ports_of, port_group, ports};

use crate::cursor::Cursor;
use crate::entity::{Port, Range};
use crate::stop::Stop;
use board_defs::{Mode, Name};
use std::alloc::AllocError;

/// Appends a port with this mode and this range for each name.
fn add_ports(
    ports: &mut Vec<Port>,
    names: Vec<Name>,
    mode: Mode,
    range: Option<Range>,
) -> Result<(), AllocError>
    ensures { OnOk result (ports.new.items ≡ ports.old.items ++ ports_of names.items mode range) }
{
    for name in names {
        ports.push(Port { name, mode, range })?;
    }
    Ok(())
}

impl<'a> Cursor<'a> {
    /// Reads one name and the mark after it, which is `,` or `:`. Adds the name to `names`. Returns whether another
    /// name follows.
    #[tactic(auto, unfolding(crate::specs::Bsdl::port_name))]
    fn port_name(&mut self, names: &mut Vec<Name>) -> Result<bool, Stop>
        ensures { ReadsTokens (reader_of_grammar (port_name names.old.items)) self.old self.new
            result (λ more. turn_of more names.new.items) }
    {
        let name = self.word()?;
        names.push(name)?;
        self.either_mark(b",", b":")
    }

    fn port_names(&mut self) -> Result<Vec<Name>, Stop>
        ensures { ReadsTokens (reader_of_grammar (turns port_name [])) self.old self.new result
            (λ names. names.items) }
    {
        let mut names = Vec::new(self.allocator());
        while self.port_name(&mut names)? {}
        Ok(names)
    }

    #[tactic(auto, unfolding(crate::specs::Bsdl::range))]
    fn range(&mut self) -> Result<Range, Stop>
        ensures { ReadsTokens (reader_of_grammar range) self.old self.new result (λ range. range) }
    {
        self.mark(b"(")?;
        let left = self.integer()?;
        let up = self.either_word(b"TO", b"DOWNTO")?;
        let right = self.integer()?;
        self.mark(b")")?;
        Ok(Range { left, right, up })
    }

    fn range_if(&mut self, is_vector: bool) -> Result<Option<Range>, Stop>
        ensures { ReadsTokens (reader_of_grammar (range_of is_vector)) self.old self.new result
            (λ range. range) }
    {
        if is_vector {
            Ok(Some(self.range()?))
        } else {
            Ok(None)
        }
    }

    /// Reads one group and the mark after it, which is `;` or `)`. Adds the ports of the group to `ports`. Returns
    /// whether another group follows.
    #[tactic(auto, unfolding(crate::specs::Bsdl::port_group, crate::specs::Bsdl::group))]
    fn port_group(&mut self, ports: &mut Vec<Port>) -> Result<bool, Stop>
        ensures { ReadsTokens (reader_of_grammar (port_group ports.old.items)) self.old self.new
            result (λ more. turn_of more ports.new.items) }
    {
        let names = self.port_names()?;
        let mode = self.mode()?;
        let is_vector = self.either_word(b"BIT_VECTOR", b"BIT")?;
        let range = self.range_if(is_vector)?;
        add_ports(ports, names, mode, range)?;
        self.either_mark(b";", b")")
    }

    fn port_groups(&mut self) -> Result<Vec<Port>, Stop>
        ensures { ReadsTokens (reader_of_grammar (turns port_group [])) self.old self.new result
            (λ ports. ports.items) }
    {
        let mut ports = Vec::new(self.allocator());
        while self.port_group(&mut ports)? {}
        Ok(ports)
    }

    /// Reads a port item after its first word. Returns its ports.
    #[tactic(auto, unfolding(crate::specs::Bsdl::ports))]
    pub(crate) fn port_item(&mut self) -> Result<Vec<Port>, Stop>
        ensures { ReadsTokens (reader_of_grammar ports) self.old self.new result
            (λ ports. ports.items) }
    {
        self.mark(b"(")?;
        let ports = self.port_groups()?;
        self.mark(b";")?;
        Ok(ports)
    }
}
