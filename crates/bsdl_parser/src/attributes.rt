//! Reads attribute items. Skips the items of all attributes that this program does not use.
ghost use Rattle.std.specs.Prelude.{◌≡◌, map};
ghost use Rattle.std.specs.Char.{to_ascii_uppercase};
ghost use Rattle.grammars.specs.Turn.{turn_of};
ghost use Rattle.grammars.specs.Grammar.{turns, reader_of_grammar};
ghost use Rattle.bsdl_parser.specs.inner.Reading.{ReadsTokens};
ghost use Rattle.bsdl_parser.specs.Bsdl.{used, of_class, plain_value, port_value, clock_value, number_value, text_value, value_of, skipped_token, attribute_name, attribute};

use crate::cursor::Cursor;
use crate::draft::AttrForm;
use crate::entity::{Attr, AttrValue, Attribute};
use crate::stop::Stop;
use board_defs::Name;
use grammars::spells;

/// Returns the attribute with this name and the form of its value, or None if this program does not
/// use the attribute. The case of the name does not matter.
fn used_attribute(name: &[u8]) -> Option<(Attribute, AttrForm)>
    ensures { result ≡ used (map to_ascii_uppercase name.now) }
{
    if spells(name, b"PIN_MAP") {
        Some((Attribute::PinMap, AttrForm::Plain))
    } else if spells(name, b"TAP_SCAN_IN") {
        Some((Attribute::TapScanIn, AttrForm::Port))
    } else if spells(name, b"TAP_SCAN_OUT") {
        Some((Attribute::TapScanOut, AttrForm::Port))
    } else if spells(name, b"TAP_SCAN_MODE") {
        Some((Attribute::TapScanMode, AttrForm::Port))
    } else if spells(name, b"TAP_SCAN_CLOCK") {
        Some((Attribute::TapScanClock, AttrForm::Clock))
    } else if spells(name, b"INSTRUCTION_LENGTH") {
        Some((Attribute::InstructionLength, AttrForm::Number))
    } else if spells(name, b"INSTRUCTION_OPCODE") {
        Some((Attribute::InstructionOpcode, AttrForm::Text))
    } else if spells(name, b"INSTRUCTION_CAPTURE") {
        Some((Attribute::InstructionCapture, AttrForm::Text))
    } else if spells(name, b"BOUNDARY_LENGTH") {
        Some((Attribute::BoundaryLength, AttrForm::Number))
    } else if spells(name, b"BOUNDARY_REGISTER") {
        Some((Attribute::BoundaryRegister, AttrForm::Text))
    } else if spells(name, b"TAP_SCAN_RESET") {
        Some((Attribute::TapScanReset, AttrForm::Port))
    } else if spells(name, b"IDCODE_REGISTER") {
        Some((Attribute::IdcodeRegister, AttrForm::Text))
    } else if spells(name, b"COMPLIANCE_PATTERNS") {
        Some((Attribute::CompliancePatterns, AttrForm::Text))
    } else if spells(name, b"COMPONENT_CONFORMANCE") {
        Some((Attribute::ComponentConformance, AttrForm::Text))
    } else {
        None
    }
}

impl<'a> Cursor<'a> {
    fn attribute_name(&mut self) -> Result<Option<(Attribute, AttrForm)>, Stop>
        ensures { ReadsTokens (reader_of_grammar attribute_name) self.old self.new result
            (λ known. known) }
    {
        let name = self.word_bytes()?;
        Ok(used_attribute(name))
    }

    /// Reads `of`, a word, `:`, the word in `class`, and `is`. Returns the word after `of`.
    #[tactic(auto, unfolding(crate::specs::Bsdl::of_class))]
    fn of_class(&mut self, class: &[u8]) -> Result<&'a [u8], Stop>
        ensures { ReadsTokens (reader_of_grammar (of_class class.now)) self.old self.new result
            (λ word. map to_ascii_uppercase word.now) }
    {
        self.keyword(b"OF")?;
        let word = self.word_bytes()?;
        self.mark(b":")?;
        self.keyword(class)?;
        self.keyword(b"IS")?;
        Ok(word)
    }

    #[tactic(auto, unfolding(crate::specs::Bsdl::plain_value))]
    fn plain_value(&mut self) -> Result<AttrValue, Stop>
        ensures { ReadsTokens (reader_of_grammar plain_value) self.old self.new result
            (λ value. value) }
    {
        self.of_class(b"ENTITY")?;
        self.keyword(b"PHYSICAL_PIN_MAP")?;
        self.mark(b";")?;
        Ok(AttrValue::Plain)
    }

    #[tactic(auto, unfolding(crate::specs::Bsdl::port_value))]
    fn port_value(&mut self) -> Result<AttrValue, Stop>
        ensures { ReadsTokens (reader_of_grammar port_value) self.old self.new result
            (λ value. value) }
    {
        let port = self.of_class(b"SIGNAL")?;
        self.keyword(b"TRUE")?;
        self.mark(b";")?;
        Ok(AttrValue::Port(Name::in_upper_case(self.allocator(), port)?))
    }

    #[tactic(auto, unfolding(crate::specs::Bsdl::clock_value))]
    fn clock_value(&mut self) -> Result<AttrValue, Stop>
        ensures { ReadsTokens (reader_of_grammar clock_value) self.old self.new result
            (λ value. value) }
    {
        let port = self.of_class(b"SIGNAL")?;
        self.mark(b"(")?;
        self.number()?;
        self.mark(b",")?;
        self.either_word(b"BOTH", b"LOW")?;
        self.mark(b")")?;
        self.mark(b";")?;
        Ok(AttrValue::Port(Name::in_upper_case(self.allocator(), port)?))
    }

    #[tactic(auto, unfolding(crate::specs::Bsdl::number_value))]
    fn number_value(&mut self) -> Result<AttrValue, Stop>
        ensures { ReadsTokens (reader_of_grammar number_value) self.old self.new result
            (λ value. value) }
    {
        self.of_class(b"ENTITY")?;
        let number = self.integer()?;
        self.mark(b";")?;
        Ok(AttrValue::Number(number))
    }

    #[tactic(auto, unfolding(crate::specs::Bsdl::text_value))]
    fn text_value(&mut self) -> Result<AttrValue, Stop>
        ensures { ReadsTokens (reader_of_grammar text_value) self.old self.new result
            (λ value. value) }
    {
        self.of_class(b"ENTITY")?;
        let text = self.string(b";")?;
        Ok(AttrValue::Text(text))
    }

    fn value(&mut self, form: AttrForm) -> Result<AttrValue, Stop>
        ensures { ReadsTokens (reader_of_grammar (value_of form)) self.old self.new result
            (λ value. value) }
    {
        match form {
            AttrForm::Plain => self.plain_value(),
            AttrForm::Port => self.port_value(),
            AttrForm::Clock => self.clock_value(),
            AttrForm::Number => self.number_value(),
            AttrForm::Text => self.text_value(),
        }
    }

    /// Skips one token. Returns false if the token is `;`, which ends the item, and otherwise true.
    #[tactic(auto, unfolding(crate::specs::Bsdl::skipped_token))]
    fn skipped_token(&mut self) -> Result<bool, Stop>
        ensures { ReadsTokens (reader_of_grammar (skipped_token tt)) self.old self.new result
            (λ more. turn_of more tt) }
    {
        let more = self.other_than(b";")?;
        Ok(more)
    }

    /// Skips all tokens up to and including the next `;`.
    fn skipped(&mut self) -> Result<(), Stop>
        ensures { ReadsTokens (reader_of_grammar (turns skipped_token tt)) self.old self.new result
            (λ x. x) }
    {
        'tokens: while self.skipped_token()? {}
        Ok(())
    }

    /// Reads an attribute item after its first word. If this program does not use the attribute,
    /// skips the item and returns None.
    #[tactic(auto, unfolding(crate::specs::Bsdl::attribute))]
    pub(crate) fn attribute_item(&mut self) -> Result<Option<Attr>, Stop>
        ensures { ReadsTokens (reader_of_grammar attribute) self.old self.new result
            (λ attribute. attribute) }
    {
        match self.attribute_name()? {
            Some((attribute, form)) => {
                let value = self.value(form)?;
                Ok(Some(Attr {
                    number: attribute.number(),
                    value,
                }))
            }
            None => {
                self.skipped()?;
                Ok(None)
            }
        }
    }
}
