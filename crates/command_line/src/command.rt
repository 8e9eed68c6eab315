// The commands of the program.
use crate::number::PartCount;
use side_by_side::Workers;

/// The files of a command that reads a chain.
#[derive(Drop)]
pub struct ChainFiles<File, Files> {
    /// The chain file.
    pub chain: File,
    /// The BSDL files.
    pub bsdl: Files,
}

/// The files of a command that reads a board.
#[derive(Drop)]
pub struct BoardFiles<File, Files> {
    /// The chain file.
    pub chain: File,
    /// The net file.
    pub nets: File,
    /// The BSDL files.
    pub bsdl: Files,
}

/// The files of a command that reads response logs.
#[derive(Drop)]
pub struct LogFiles<File, Files> {
    /// The file with one or more response logs.
    pub log: File,
    /// The files of the board to which the logs belong.
    pub board: BoardFiles<File, Files>,
}

/// The commands of the program, generic over the types of a file and of the list of BSDL files. These are types of names if the command
/// comes from the command line, and types of texts once the files are read.
#[derive(Drop)]
pub enum Command<File, Files> {
    /// Writes the test of the length of a chain.
    Chain(ChainFiles<File, Files>),
    /// Writes the test of the identification codes of the devices in a chain.
    Ident(ChainFiles<File, Files>),
    /// Lists the device that a BSDL file describes.
    Device(File),
    /// Writes the coverage list of a board.
    Cover(BoardFiles<File, Files>),
    /// Writes the test of a board.
    Svf(BoardFiles<File, Files>),
    /// Writes the walking test of a board.
    Walk(BoardFiles<File, Files>),
    /// Summarizes a generated board with this number of parts.
    Make(PartCount),
    /// Diagnoses a board.
    Diagnose {
        /// The number of threads that work on the diagnosis.
        workers: Workers,
        /// The response log and the files of the board.
        files: LogFiles<File, Files>,
    },
    /// Finds the groups of shorted nets of a board from a response log of the walking test.
    Groups(LogFiles<File, Files>),
    /// Diagnoses many boards of the same design.
    Batch {
        /// The number of threads that work on the diagnoses.
        workers: Workers,
        /// The file with the response logs of the boards, and the files of the design.
        files: LogFiles<File, Files>,
    },
}
