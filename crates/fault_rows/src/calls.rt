// A successful run of each command, on a board of a driver and a receiver.
use run_bench::Text::Plain;
use run_bench::{Bench, CHAIN, NETS, Named};
use std::alloc::{AllocError, Global};

/// A run of a command that writes its whole output.
#[derive(Clone, Copy)]
pub struct Command {
    /// The words of the command line.
    pub line: &'static str,
    /// The names of the texts that the run reads, in the order of the reads.
    pub names: &'static [&'static str],
    /// The text that the run writes.
    pub text: &'static str,
}

// The SVF text of the board's test. It is also the text of the walking test, since each of the two codes has a single 1.
const BOARD_TEST: &str = "TRST OFF;\nENDIR IDLE;\nENDDR IDLE;\nSTATE RESET;\nSTATE IDLE;\n\
     SIR 4 TDI (A) TDO (5) MASK (F);\nSDR 4 TDI (0);\nSIR 4 TDI (0) TDO (5) MASK (F);\n\
     SDR 4 TDI (4);\nSDR 4 TDI (8) TDO (1) MASK (3);\nSDR 4 TDI (0) TDO (2) MASK (3);\nSTATE RESET;\n";

/// A successful run of each command.
pub const COMMANDS: [Command; 10] = [
    Command {
        line: "chain c drv rcv",
        names: &["c", "drv", "rcv"],
        text: "TRST OFF;\nENDIR IDLE;\nENDDR IDLE;\nSTATE RESET;\nSTATE IDLE;\n\
               SIR 4 TDI (F) TDO (5) MASK (F);\nSDR 10 TDI (0A5) TDO (294) MASK (3FF);\nSTATE RESET;\n",
    },
    Command {
        line: "ident c drv rcv",
        names: &["c", "drv", "rcv"],
        text: "TRST OFF;\nENDIR IDLE;\nENDDR IDLE;\nSTATE RESET;\nSTATE IDLE;\n\
               SDR 2 TDI (0) TDO (0) MASK (3);\nSTATE RESET;\n",
    },
    Command {
        line: "svf c n drv rcv",
        names: &["c", "n", "drv", "rcv"],
        text: BOARD_TEST,
    },
    Command {
        line: "walk c n drv rcv",
        names: &["c", "n", "drv", "rcv"],
        text: BOARD_TEST,
    },
    Command {
        line: "device drv",
        names: &["drv"],
        text: "ENTITY DRV\nPACKAGE P\nIR 2 SAMPLE 10 IDCODE -\nPORT TDI IN T1\nPORT TMS IN T3\n\
               PORT TCK IN T4\nPORT TDO OUT T2\nPORT Q OUT 1 2\n\
               CELL 0 OUTPUT2 Q(1) X\nCELL 1 OUTPUT2 Q(2) X\n",
    },
    Command {
        line: "cover c n drv rcv",
        names: &["c", "n", "drv", "rcv"],
        text: "NETS 2 COVERED 2\n",
    },
    Command {
        line: "make 2",
        names: &[],
        text: "DEVICES 2 NETS 72 COVERED 72 PASSES 2 SCANS 19 BYTES 2373\n",
    },
    Command {
        line: "diagnose 2 g c n drv rcv",
        names: &["g", "c", "n", "drv", "rcv"],
        text: "FAIL 3\nstuck N1 0\nopen U1.1 0\nopen U2.1 0\n",
    },
    Command {
        line: "groups w c n drv rcv",
        names: &["w", "c", "n", "drv", "rcv"],
        text: "GROUPS 1\nGROUP 2\nNET N1\nNET N2\n",
    },
    Command {
        line: "batch 2 b c n drv rcv",
        names: &["b", "c", "n", "drv", "rcv"],
        text: "BOARD A\nPASS\nBOARD B\nFAIL 3\nstuck N1 0\nopen U1.1 0\nopen U2.1 0\n",
    },
];

/// The texts of logs for the board: a log of its test, a log of its walking test, and a batch.
pub const LOGS: [Named; 3] = [
    ("g", Plain("0\n2\n")),
    ("w", Plain("3\n3\n")),
    ("b", Plain("BOARD A\n1\n2\nBOARD B\n0\n2\n")),
];

/// Returns a bench with the texts that the runs of `COMMANDS` read.
pub fn bench_of(alloc: Global) -> Result<Bench, AllocError> {
    let mut bench = Bench::with_board(alloc, CHAIN, NETS)?;
    bench.add(&LOGS)?;
    Ok(bench)
}
