// A board with the positions of its parts in data scans.
ghost use Rattle.plan_tables.specs.Tables.{AreFirsts};

use board_defs::Board;

/// A board with the position of each part's first bit in data scans.
#[derive(Drop)]
pub struct PlacedBoard<'a> {
    pub board: &'a Board,
    pub firsts: &'a [u32],
    ghost placed: { AreFirsts board.now.chain firsts.now },
}
