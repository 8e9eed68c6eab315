//! The rules of a device, and the report of a rule that a device breaks.
ghost use Rattle.std.specs.Prelude.{◌≡◌};
ghost use Rattle.device_rules.specs.RuleNumbers.{rule_number, broken_at};

/// A rule that a device must keep. A report gives the number of the item that breaks the rule. Ports, entries and
/// opcodes are counted from 1.
#[derive(Clone, Copy)]
pub enum Rule {
    /// V1, on the attributes and on the pin map of the package. `device_check` checks this rule, and its `DeviceFault`
    /// says what the item is.
    Mandatory,
    /// V2, on the ports. The item is a port.
    Ports,
    /// V3, on the TAP attributes and the compliance patterns. The item is the number of an attribute.
    TestPort,
    /// V4, on the pin map. The item is an entry of the pin map.
    PinMap,
    /// V5, on the names and the lengths of the opcodes. The item is an opcode.
    Opcodes,
    /// V6, on the codes of the instructions that a test loads. The item is 1 for the preload code, 2 for EXTEST, 3 for
    /// BYPASS.
    Instructions,
    /// V7, on the capture pattern and the IDCODE pattern. The item is 1 for the capture pattern, 2 for the IDCODE
    /// pattern.
    Patterns,
    /// V8, on the numbers of the cells. The item is the number of a cell.
    Cells,
    /// V9, on the port bits of the entries. The item is an entry of the boundary register.
    Places,
    /// V10, on the controls of the entries. The item is an entry of the boundary register.
    Controls,
    /// V11, on the disable values of a control cell. The item is the number of a cell.
    DisableValues,
    /// V12, on the entries for the capture stage and the update latch of a cell. The item is the number of a cell.
    Stages,
    /// V13, on the drivers of a port bit. The item is an entry of the boundary register.
    Drivers,
    /// V14, on the ports of the entries: no entry drives a port of mode in or linkage, and no entry is on a TAP port.
    /// The item is an entry of the boundary register.
    Modes,
}

impl Rule {
    /// Returns the rule's number, from 1 to 14. Faults contain this number.
    pub fn number(self) -> u32
        ensures { result ≡ rule_number self }
    {
        match self {
            Rule::Mandatory => 1,
            Rule::Ports => 2,
            Rule::TestPort => 3,
            Rule::PinMap => 4,
            Rule::Opcodes => 5,
            Rule::Instructions => 6,
            Rule::Patterns => 7,
            Rule::Cells => 8,
            Rule::Places => 9,
            Rule::Controls => 10,
            Rule::DisableValues => 11,
            Rule::Stages => 12,
            Rule::Drivers => 13,
            Rule::Modes => 14,
        }
    }

    /// Returns the report that `item` is the first item that breaks this rule.
    pub(crate) fn broken_at(self, item: u32) -> Broken
        ensures { result ≡ broken_at self item }
    {
        Broken {
            rule: self.number(),
            item,
        }
    }
}

/// A rule that a device breaks, by its number from 2 to 14, and the first item that breaks it. The variants of `Rule`
/// say what the items are.
#[derive(Clone, Copy, Debug, PartialEq, Eq)]
pub struct Broken {
    pub rule: u32,
    pub item: u32,
}
