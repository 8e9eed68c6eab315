//! The rule on the ports.
ghost use Rattle.std.specs.Prelude.{◌≡◌, ◌<◌, ◌^◌, length, IfOk};
ghost use Rattle.device_rules.specs.Ports.{range_in_order, width, v2};

use board_defs::MOST_BITS;
use bsdl_parser::{Port, Range};
use std::alloc::{AllocError, Global};
use std::collections::HashSet;

/// Returns whether the range is in order: `to` with left ≤ right, or `downto` with right ≤ left. Returns true if there is no range.
fn is_in_order(range: Option<Range>) -> bool
    ensures { result ≡ range_in_order range }
{
    match range {
        None => true,
        Some(range) => {
            if range.up {
                range.left <= range.right
            } else {
                range.right <= range.left
            }
        }
    }
}

/// Returns the number of bits of a port with this range, which is 1 if there is no range or if the
/// range is out of order.
pub(crate) fn bit_count(range: Option<Range>) -> u64
    ensures count { result ≡ width range }
    ensures fits { result < 2 ^ 33 }
{
    match range {
        None => 1,
        Some(range) => {
            if range.up {
                u64::from(range.right.saturating_sub(range.left)) + 1
            } else {
                u64::from(range.left.saturating_sub(range.right)) + 1
            }
        }
    }
}

/// Checks rule V2. Returns the number of the first wrong port, counted from 1. A port is wrong if
/// an earlier port has its name, if its range is out of order, or if the ports up to this one have
/// more than `MOST_BITS` bits. There must be fewer than 2^32 ports.
#[tactic(auto, unfolding(crate::specs::Ports::v2))]
pub(crate) fn wrong_port(alloc: Global, ports: &[Port]) -> Result<Option<u32>, AllocError>
    requires { length ports.now < 2 ^ 32 }
    ensures { IfOk result (λ item. item ≡ v2 ports.now) }
{
    let mut seen: HashSet<&[u8]> = HashSet::new(alloc);
    let mut bits = 0u64;
    for (i, port) in ports.iter().enumerate() {
        let name = port.name.bytes();
        let known = seen.contains(name);
        let ordered = is_in_order(port.range);
        let more = bits + bit_count(port.range);
        if known || !ordered || u64::from(MOST_BITS) < more {
            return Ok(Some(i as u32 + 1));
        }
        seen.insert(name)?;
        bits = more;
    }
    Ok(None)
}
