// The rows for the expected bits and the mask of a scan.
use bt_bits::Row;

/// The expected bits of a scan, and the mask of the bits that are compared. One value borrows both rows, so that a
/// call needs only one argument for them.
#[derive(Drop)]
pub struct ComparedRows<'a> {
    pub tdo: &'a mut Row,
    pub mask: &'a mut Row,
}
