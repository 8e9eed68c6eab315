// A log of the walking test, and the walk nets whose rows the log has.
ghost use Rattle.std.specs.Prelude.{◌≡◌, ◌<◌, ◌^◌, [], length, slice_index_or, All, IfOk};
ghost use Rattle.bt_bits.specs.Digits.{digits_of};
ghost use Rattle.response_log.specs.Kept.{AreRowDigits};
ghost use Rattle.response_log.specs.LogRows.{HasSize};
ghost use Rattle.walk_test.specs.inner.Reading.{compared_bits, AreLoggedNets, HasPlaces};

use crate::digits::MaskedRow;
use crate::filling::set_all;
use crate::tables::NetCells;
use bt_bits::Row;
use response_log::Log;
use std::alloc::{AllocError, Global};
use std::marker::Model;

/// A log, the cells of the nets whose rows the log has, and the mask of a row. Row `j` of the log is the row in which
/// the net at index `j` of `nets` carries 1. The mask has a 1 at each compared position of these nets.
#[derive(Drop)]
pub struct WalkLog<'a> {
    log: &'a Log,
    nets: &'a [NetCells],
    mask: Row,
}

impl<'a> Model for WalkLog<'a> {
    ghost use Rattle.walk_test.specs.inner.Reading.{AreLoggedNets, LoggedNets, logged_nets};

    ghost Value = { LoggedNets };

    ghost view = { λ a. logged_nets a.log.now a.nets.now a.mask.bits };

    ghost invariant = { λ a. AreLoggedNets (logged_nets a.log.now a.nets.now a.mask.bits) };
}

// Returns a row of `len` bits with a 1 at each compared position of the nets.
fn compared_row(alloc: Global, nets: &[NetCells], len: u32) -> Result<Row, AllocError>
    ensures { IfOk result (λ row. row.bits ≡ compared_bits len nets.now) }
{
    let mut row = Row::with_room(alloc, len)?;
    row.clear(len);
    for net in nets {
        set_all(net.compared.as_slice(), &mut row);
    }
    Ok(row)
}

impl<'a> WalkLog<'a> {
    /// Returns the log with these nets. The log must have a row of `len` bits for each net. There must be fewer than
    /// 2^32 nets. Each net must have compared positions, all below `len`.
    pub fn of(
        alloc: Global,
        log: &'a Log,
        nets: &'a [NetCells],
        len: u32,
    ) -> Result<WalkLog<'a>, AllocError>
        requires few { length nets.now < 2 ^ 32 }
        requires size { HasSize (length nets.now) len log.now }
        requires places { All (HasPlaces len) nets.now }
        ensures log { IfOk result (λ logged. logged.log ≡ log.now) }
        ensures nets { IfOk result (λ logged. logged.nets ≡ nets.now) }
    {
        let mask = compared_row(alloc, nets, len)?;
        Ok(WalkLog { log, nets, mask })
    }

    /// Does nothing. The contract states these facts: the log has one row for each net and fewer than 2^32 rows, each row
    /// is as long as the mask, each net has a compared position, and the mask has a 1 exactly at the compared positions of
    /// the nets.
    pub fn laws(&self)
        ensures { AreLoggedNets self.now }
    {
        let _known = &self.log;
    }

    /// Returns the cells of the nets.
    pub fn nets(&self) -> &[NetCells]
        ensures { result.now ≡ self.now.nets }
    {
        self.nets
    }

    /// Returns the number of rows of the log.
    #[inline]
    pub fn rows(&self) -> u32
        ensures { result ≡ length self.now.log }
    {
        self.log.rows() as u32
    }

    /// Returns the number of bits of each row.
    pub fn len(&self) -> u32
        ensures { result ≡ length self.now.mask }
    {
        self.mask.len()
    }

    /// Returns row `j`, which must be a row of the log, with the mask of the compared bits.
    #[inline]
    pub fn row(&self, j: u32) -> MaskedRow<'_>
        requires { j < length self.now.log }
        ensures digits { AreRowDigits (slice_index_or self.now.log j []) result.digits.now }
        ensures mask { result.mask.now ≡ digits_of self.now.mask }
        ensures bits { length (slice_index_or self.now.log j []) ≡ length self.now.mask }
    {
        MaskedRow {
            digits: self.log.digits(u64::from(j)),
            mask: self.mask.digits(),
        }
    }
}
