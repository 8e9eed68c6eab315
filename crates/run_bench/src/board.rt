// The files of a board with a driver and a receiver, and the scans of its test.

/// The lines that btest writes before the scans of an SVF text.
pub const HEAD: &str = "TRST OFF;\nENDIR IDLE;\nENDDR IDLE;\nSTATE RESET;\nSTATE IDLE;\n";

/// The line that btest writes after the scans.
pub const TAIL: &str = "STATE RESET;\n";

/// The chain file of the board.
pub const CHAIN: &str = "DEVICE U1 DRV -\nDEVICE U2 RCV -\n";

/// The net file of the board. Each of its two nets joins an output of the driver to an input of the receiver.
pub const NETS: &str = "NET N1 U1.1 U2.1\nNET N2 U1.2 U2.2\n";

/// The scans of the board's test.
pub const SCANS: &str =
    "SIR 4 TDI (A) TDO (5) MASK (F);\nSDR 4 TDI (0);\nSIR 4 TDI (0) TDO (5) MASK (F);\n\
     SDR 4 TDI (4);\nSDR 4 TDI (8) TDO (1) MASK (3);\nSDR 4 TDI (0) TDO (2) MASK (3);\n";
