//! Calls of laws of `bsdl_lexer`, `bsdl_parser`, `bsdl_strings`, `device_rules`, `device_check` and `btest_core`, about BSDL texts and the
//! rules for the devices that they describe, and about the texts of a board.
ghost use Rattle.std.specs.Prelude.{◌≡◌, ◌^◌, ◌<◌, ◌≤◌, ℕ, List, Option, length, None, Ok, All, IfSome};
ghost use Rattle.board_defs.specs.declared.device.Symbol.{Symbol};
ghost use Rattle.board_defs.specs.declared.device.Edition.{Edition};
ghost use Rattle.board_defs.specs.Limits.{most_parts};
ghost use Rattle.board_defs.specs.declared.board.RawBoard.{RawBoard};
ghost use Rattle.board_defs.specs.declared.device.RawDevice.{RawDevice};
ghost use Rattle.board_defs.specs.BoardRules.{IsBoard};
ghost use Rattle.board_defs.specs.DeviceRules.{IsDevice};
ghost use Rattle.first_places.specs.Items.{IsFound, IsLeast};
ghost use Rattle.bsdl_lexer.specs.declared.token.Token.{Token};
ghost use Rattle.bsdl_lexer.specs.Tokens.{AreTokens};
ghost use Rattle.bsdl_parser.specs.declared.entity.Entity.{Entity};
ghost use Rattle.bsdl_parser.specs.declared.entity.Port.{Port};
ghost use Rattle.bsdl_parser.specs.Lexeme.{Lexeme, lexemes};
ghost use Rattle.bsdl_parser.specs.Answer.{Derives};
ghost use Rattle.bsdl_parser.specs.Entity.{HaveKinds, IsSmall};
ghost use Rattle.bsdl_strings.specs.declared.values.MapEntry.{MapEntry};
ghost use Rattle.bsdl_strings.specs.declared.values.Opcode.{Opcode};
ghost use Rattle.bsdl_strings.specs.declared.values.Entry.{Entry};
ghost use Rattle.bsdl_strings.specs.declared.values.Compliance.{Compliance};
ghost use Rattle.bsdl_strings.specs.Strings.{IsPinMap, AreOpcodes, IsBoundary, IsPattern, IsCompliance};
ghost use Rattle.instruction_rules.specs.Instructions.{breaks_opcode, v5, v6, v7};
ghost use Rattle.device_rules.specs.declared.draft.Draft.{Draft};
ghost use Rattle.device_rules.specs.declared.draft.TapPorts.{TapPorts};
ghost use Rattle.device_rules.specs.Rules.{first_rule, KeepsRules};
ghost use Rattle.device_rules.specs.Ports.{breaks_port, v2};
ghost use Rattle.device_rules.specs.Taps.{v3};
ghost use Rattle.device_rules.specs.PinMap.{breaks_map, v4};
ghost use Rattle.device_rules.specs.Cells.{breaks_control, has_two_values, is_crowded, v8, v10, v11, v12};
ghost use Rattle.device_rules.specs.Numbered.{breaks_attribute, lacks_code, breaks_pattern, IsWrongCell};
ghost use Rattle.device_rules.specs.Places.{breaks_place, breaks_driver, breaks_mode, v9, v13, v14};
ghost use Rattle.device_check.specs.Needed.{v1};
ghost use Rattle.device_check.specs.NumberedSources.{breaks_source, reported};
ghost use Rattle.btest_core.specs.DevicesRead.{IsDeviceText};
ghost use Rattle.btest_core.specs.BoardRead.{Denotes};
ghost use Rattle.btest_core.specs.IdentsRead.{Ident, AreIdents};

/// States that a text has at most one token list.
pub fn token_lists_are_unique()
    ensures { (text : List ℕ) (tokens others : List Token) → AreTokens text tokens
        → AreTokens text others → tokens ≡ others }
{
    bsdl_lexer::law::token_lists_are_unique();
}

/// States that the grammar derives at most one entity from a list of tokens.
pub fn token_lists_derive_one_entity()
    ensures { (tokens : List Lexeme) (entity other : Entity) → Derives tokens entity
        → Derives tokens other → entity ≡ other }
{
    bsdl_parser::law::token_lists_derive_one_entity();
}

/// States that the value of each attribute of a derived entity has the kind that the attribute's number requires. If the text has fewer
/// than 2^32 bytes, the entity has fewer than 2^32 ports, and its texts have fewer than 2^32 bytes each.
pub fn entities_keep_their_limits()
    ensures kinds { (tokens : List Lexeme) (entity : Entity) → Derives tokens entity
        → HaveKinds entity }
    ensures small { (text : List ℕ) (tokens : List Token) (entity : Entity) → length text < 2 ^ 32
        → AreTokens text tokens → Derives (lexemes text tokens) entity → IsSmall entity }
{
    bsdl_parser::law::entities_keep_their_limits();
}

/// States that a string has at most one value of each kind.
pub fn strings_have_one_value()
    ensures pin_map { (text : List ℕ) (a b : List MapEntry) → IsPinMap text a → IsPinMap text b
        → a ≡ b }
    ensures opcodes { (text : List ℕ) (a b : List Opcode) → AreOpcodes text a → AreOpcodes text b
        → a ≡ b }
    ensures pattern { (text : List ℕ) (a b : List Symbol) → IsPattern text a → IsPattern text b
        → a ≡ b }
    ensures compliance { (text : List ℕ) (a b : Compliance) → IsCompliance text a
        → IsCompliance text b → a ≡ b }
    ensures boundary { (text : List ℕ) (a b : List Entry) → IsBoundary text a → IsBoundary text b
        → a ≡ b }
{
    bsdl_strings::law::strings_have_one_value();
}

/// States that none of the rules V2 to V14 is broken if `first_rule` finds no broken rule.
pub fn all_rules_hold()
    ensures { (draft : Draft) → first_rule draft ≡ None → KeepsRules draft }
{
    device_rules::law::all_rules_hold();
}

/// States that the function of each rule returns the first item, or the lowest number, that breaks the rule, or None if nothing breaks it.
/// V8 looks for an entry outside the register before it looks for a cell without an entry.
pub fn finds_the_first()
    ensures v2 { (ports : List Port) → IsFound breaks_port ports (v2 ports) }
    ensures v3 { (ports : List Port) (taps : TapPorts) (compliance : Option Compliance)
        → IsLeast (breaks_attribute ports taps compliance) 14 (v3 ports taps compliance) }
    ensures v4 { (ports : List Port) (entries : List MapEntry)
        → IsFound (breaks_map ports) entries (v4 ports entries) }
    ensures v5 { (ir : ℕ) (ops : List Opcode) → IsFound (breaks_opcode ir) ops (v5 ir ops) }
    ensures v6 { (edition : Edition) (ops : List Opcode)
        → IsLeast (lacks_code edition ops) 4 (v6 edition ops) }
    ensures v7 { (ir : ℕ) (capture : List Symbol) (idcode : Option (List Symbol))
        → IsLeast (breaks_pattern ir capture idcode) 3 (v7 ir capture idcode) }
    ensures v8 { (boundary : ℕ) (entries : List Entry)
        → IsWrongCell boundary entries (v8 boundary entries) }
    ensures v9 { (ports : List Port) (entries : List Entry)
        → IsFound (λ before entry. breaks_place ports entry) entries (v9 ports entries) }
    ensures v10 { (entries : List Entry)
        → IsFound (λ before entry. breaks_control entries entry) entries (v10 entries) }
    ensures v11 { (boundary : ℕ) (entries : List Entry)
        → IsLeast (has_two_values entries) boundary (v11 boundary entries) }
    ensures v12 { (boundary : ℕ) (entries : List Entry)
        → IsLeast (is_crowded entries) boundary (v12 boundary entries) }
    ensures v13 { (ports : List Port) (entries : List Entry)
        → IsFound (breaks_driver ports) entries (v13 ports entries) }
    ensures v14 { (ports : List Port) (taps : TapPorts) (entries : List Entry)
        → IsFound (λ before entry. breaks_mode ports taps entry) entries (v14 ports taps entries) }
{
    device_rules::law::finds_the_first();
}

/// States that rule V1 reports the lowest number of an attribute or pin map that breaks it. If the rule holds, none of them breaks it.
pub fn least_source_is_reported()
    ensures { (entity : Entity) (given : Option (List ℕ))
        → IsLeast (breaks_source entity given) 16 (reported (v1 entity given)) }
{
    device_check::law::least_source_is_reported();
}

/// States that a device that a text denotes keeps the rules of a device, and that a board that texts denote keeps the rules of a board. If
/// the answer for the identification codes of a chain is a list, the list has 1 to 255 items, and each pattern among them has 32 symbols.
pub fn inputs_keep_rules()
    ensures device { (text : List ℕ) (device : RawDevice) → IsDeviceText text (Ok device)
        → IsDevice device }
    ensures idents { (chain : List ℕ) (texts : List (List ℕ)) (idents : List Ident)
        → AreIdents chain texts (Ok idents)
        → (0 < length idents) × (length idents ≤ most_parts)
        × All (λ ident. IfSome ident (λ code. length code ≡ 32)) idents }
    ensures board { (chain nets : List ℕ) (texts : List (List ℕ)) (board : RawBoard)
        → Denotes chain nets texts board → IsBoard board }
{
    btest_core::law::inputs_keep_rules();
}
