//! Laws of the rules on a draft, which is a device as its BSDL text states it. Each law is the contract of a function that
//! does nothing.
ghost use Rattle.std.specs.Prelude.{◌≡◌, ℕ, List, Option, None};
ghost use Rattle.board_defs.specs.declared.device.Edition.{Edition};
ghost use Rattle.board_defs.specs.declared.device.Symbol.{Symbol};
ghost use Rattle.bsdl_parser.specs.declared.entity.Port.{Port};
ghost use Rattle.bsdl_strings.specs.declared.values.Compliance.{Compliance};
ghost use Rattle.bsdl_strings.specs.declared.values.Entry.{Entry};
ghost use Rattle.bsdl_strings.specs.declared.values.MapEntry.{MapEntry};
ghost use Rattle.bsdl_strings.specs.declared.values.Opcode.{Opcode};
ghost use Rattle.device_rules.specs.declared.draft.Draft.{Draft};
ghost use Rattle.device_rules.specs.declared.draft.TapPorts.{TapPorts};
ghost use Rattle.first_places.specs.Items.{IsFound, IsLeast};
ghost use Rattle.device_rules.specs.Ports.{breaks_port, v2};
ghost use Rattle.device_rules.specs.Taps.{v3};
ghost use Rattle.device_rules.specs.PinMap.{breaks_map, v4};
ghost use Rattle.instruction_rules.specs.Instructions.{breaks_opcode, v5, v6, v7};
ghost use Rattle.device_rules.specs.Cells.{breaks_control, has_two_values, is_crowded, v8, v10, v11, v12};
ghost use Rattle.device_rules.specs.Numbered.{breaks_attribute, lacks_code, breaks_pattern, IsWrongCell};
ghost use Rattle.device_rules.specs.Places.{breaks_place, breaks_driver, breaks_mode, v9, v13, v14};
ghost use Rattle.device_rules.specs.Raw.{raw_device, HasLengths};
ghost use Rattle.device_rules.specs.Rules.{first_rule, KeepsRules};
ghost use Rattle.board_defs.specs.DeviceRules.{IsDevice};

/// If `first_rule` finds no broken rule, none of the rules V2 to V14 is broken.
pub fn all_rules_hold()
    ensures { (draft : Draft) → first_rule draft ≡ None → KeepsRules draft }
{}

/// If the function of a rule returns None, no item breaks the rule. Otherwise the function returns
/// the first port, entry or opcode that breaks it, or the lowest number of an attribute,
/// instruction, pattern or cell that breaks it. V8 looks for an entry outside the register before
/// it looks for a cell without an entry.
pub fn finds_the_first()
    ensures v2 { (ports : List Port) → IsFound breaks_port ports (v2 ports) }
    ensures v3 { (ports : List Port) (taps : TapPorts) (compliance : Option Compliance)
        → IsLeast (breaks_attribute ports taps compliance) 14 (v3 ports taps compliance) }
    ensures v4 { (ports : List Port) (entries : List MapEntry)
        → IsFound (breaks_map ports) entries (v4 ports entries) }
    ensures v5 { (ir : ℕ) (ops : List Opcode) → IsFound (breaks_opcode ir) ops (v5 ir ops) }
    ensures v6 { (edition : Edition) (ops : List Opcode)
        → IsLeast (lacks_code edition ops) 4 (v6 edition ops) }
    ensures v7 { (ir : ℕ) (capture : List Symbol) (idcode : Option (List Symbol))
        → IsLeast (breaks_pattern ir capture idcode) 3 (v7 ir capture idcode) }
    ensures v8 { (boundary : ℕ) (entries : List Entry)
        → IsWrongCell boundary entries (v8 boundary entries) }
    ensures v9 { (ports : List Port) (entries : List Entry)
        → IsFound (λ before entry. breaks_place ports entry) entries (v9 ports entries) }
    ensures v10 { (entries : List Entry)
        → IsFound (λ before entry. breaks_control entries entry) entries (v10 entries) }
    ensures v11 { (boundary : ℕ) (entries : List Entry)
        → IsLeast (has_two_values entries) boundary (v11 boundary entries) }
    ensures v12 { (boundary : ℕ) (entries : List Entry)
        → IsLeast (is_crowded entries) boundary (v12 boundary entries) }
    ensures v13 { (ports : List Port) (entries : List Entry)
        → IsFound (breaks_driver ports) entries (v13 ports entries) }
    ensures v14 { (ports : List Port) (taps : TapPorts) (entries : List Entry)
        → IsFound (λ before entry. breaks_mode ports taps entry) entries (v14 ports taps entries) }
{}

/// If a draft breaks no rule and the lengths of its registers are in their ranges, the record that
/// `raw_device` makes of it keeps the rules of devices.
pub fn devices_keep_rules()
    ensures { (draft : Draft) → HasLengths draft → first_rule draft ≡ None
        → IsDevice (raw_device draft) }
{}
