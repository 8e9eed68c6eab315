// The texts of a command. Each text has fewer than 2^32 bytes.
use command_line::{BoardFiles, ChainFiles, Command, LogFiles};
use short_lists::{ShortText, ShortTexts};

/// The texts of a chain: a chain file and BSDL files.
pub type ChainTexts = ChainFiles<ShortText, ShortTexts>;

/// The texts of a board: a chain file, a net file and BSDL files.
pub type BoardTexts = BoardFiles<ShortText, ShortTexts>;

/// A text of one or more response logs, and the texts of the board to which the logs belong.
pub type LogTexts = LogFiles<ShortText, ShortTexts>;

/// A command with the texts of its files.
pub type Request = Command<ShortText, ShortTexts>;
