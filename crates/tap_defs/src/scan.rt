// The kind of a scan, and its rows of TDI, TDO and MASK bits.
ghost use Rattle.std.specs.Prelude.{◌≡◌};
ghost use Rattle.tap_defs.specs.chain.ScanRows.{AreSameRows, HaveRoomFor};

use bt_bits::Row;

/// The kind of a scan: whether it scans instructions (SIR) or data (SDR), and whether it compares some bit.
#[derive(Clone, Copy)]
pub struct Shape {
    pub ir: bool,
    pub compare: bool,
}

/// The three rows of a scan, owned by this value: the bits that are shifted in, the bits that are
/// expected at TDO, and the mask of the bits that are compared.
#[derive(Drop)]
pub struct StoredRows {
    pub tdi: Row,
    pub tdo: Row,
    pub mask: Row,
}

/// The three rows of a scan, borrowed together, so that a function that fills them takes one argument.
#[derive(Drop)]
pub struct ScanRows<'a> {
    pub tdi: &'a mut Row,
    pub tdo: &'a mut Row,
    pub mask: &'a mut Row,
}

impl ScanRows<'_> {
    /// Copies each stored row into its counterpart. Each row must have room for the bits of its
    /// counterpart.
    pub fn copy_from(&mut self, stored: &StoredRows)
        requires { HaveRoomFor stored.now self.old }
        ensures tdi { self.new.tdi.now.bits ≡ stored.now.tdi.bits }
        ensures tdo { self.new.tdo.now.bits ≡ stored.now.tdo.bits }
        ensures mask { self.new.mask.now.bits ≡ stored.now.mask.bits }
        ensures kept { AreSameRows self.old self.new }
    {
        self.tdi.copy_row(&stored.tdi);
        self.tdo.copy_row(&stored.tdo);
        self.mask.copy_row(&stored.mask);
    }
}
