// Lines that replace lines of `DRV` and make it a text of the 2001 edition.

pub const OF_2001: &str = "use STD_1149_1_2001.all;\n";

/// Instructions of a text of 2001: PRELOAD has a code of its own, and the code of EXTEST is not all zeros.
pub const PRELOADS: &str =
    "attribute INSTRUCTION_OPCODE of DRV : entity is \"BYPASS (11), EXTEST (01), SAMPLE (10), PRELOAD (00)\";\n";

pub const CONFORMS: &str =
    "attribute COMPONENT_CONFORMANCE of DRV : entity is \"STD_1149_1_2001\";\nend DRV;\n";
