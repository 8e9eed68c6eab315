// A block of a batch.
use board_defs::Name;
use response_log::Log;

/// The log of one board, with the board's id. Several blocks may have the same id.
#[derive(Drop)]
pub struct Block {
    pub id: Name,
    pub log: Log,
}
