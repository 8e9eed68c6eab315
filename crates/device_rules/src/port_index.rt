//! An index of ports. It finds a port by its name, and the number of a port bit by the name and the
//! index of the bit. The ports must keep rule V2: their names differ, their ranges are in order, and
//! they have at most 65,535 bits.
ghost use Rattle.std.specs.Prelude.{◌≡◌, ◌<◌, ◌^◌, Some, None, true, length, take, IfOk, IfSome};
ghost use Rattle.std.specs.Option.{option_copied};
ghost use Rattle.std.specs.List.{position_from};
ghost use Rattle.device_rules.specs.Ports.{v2, bit_total, port_of, port_number, all_port_bits, is_bit_named, bit_number};
ghost use Rattle.device_rules.specs.inner.Index.{AreBitStarts, index_place};

use crate::name_index::NameIndex;
use crate::ports::bit_count;
use bsdl_parser::{Port, Range};
use bsdl_strings::PortWord;
use std::alloc::{AllocError, Global};
use std::marker::Model;

/// Returns the number of bits before each port, followed by the number of all bits. The ports must
/// keep rule V2.
fn starts_of(alloc: Global, ports: &[Port]) -> Result<Vec<u32>, AllocError>
    requires { v2 ports.now ≡ None }
    ensures { IfOk result (λ starts. AreBitStarts ports.now starts.items) }
{
    let mut starts = Vec::new(alloc);
    let mut bits = 0u64;
    for port in ports {
        starts.push(bits as u32)?;
        bits += bit_count(port.range);
    }
    starts.push(bits as u32)?;
    Ok(starts)
}

/// Returns the place of index `number` in the range, or None if the range does not have the index. Places count from 0,
/// from left to right. Without a range, the only bit has no index and place 0: the result is 0 if `number` is None, and
/// otherwise None. With a range, the result is None if `number` is None.
fn place_in(range: Option<Range>, number: Option<u32>) -> Option<u32>
    ensures { result ≡ index_place range number }
{
    match (range, number) {
        (None, None) => Some(0),
        (Some(range), Some(number)) => {
            if range.up {
                if range.left <= number && number <= range.right {
                    Some(number - range.left)
                } else {
                    None
                }
            } else if range.right <= number && number <= range.left {
                Some(range.left - number)
            } else {
                None
            }
        }
        _ => None,
    }
}

/// The numbers of the two ports that were last found in the name index. Both are 0 at first. Consecutive
/// entries often name one port, or two ports in turn, so a look-up tries these two ports before it
/// searches the name index. The numbers never change a result. They only save time.
#[derive(Clone, Copy, Debug, PartialEq, Eq)]
pub struct Near {
    last: u32,
    before: u32,
}

impl Near {
    /// Returns the port numbers with which a series of look-ups begins.
    pub fn new() -> Near {
        Near { last: 0, before: 0 }
    }
}

/// The ports of a device, which keep rule V2, with an index: the number of each port by its name,
/// the number of bits before each port, and the number of all bits. In contracts, the value is the
/// list of the ports.
#[derive(Drop)]
pub struct PortIndex<'a> {
    ports: NameIndex<'a, Port>,
    starts: Vec<u32>,
}

impl<'a> Model for PortIndex<'a> {
    ghost use Rattle.std.specs.Prelude.{List};
    ghost use Rattle.bsdl_parser.specs.declared.entity.Port.{Port};
    ghost use Rattle.device_rules.specs.inner.Index.{IsIndex};

    ghost Value = { List Port };

    ghost view = { λ a. a.ports };

    ghost invariant = { λ a. IsIndex a.ports a.starts.items };
}

impl<'a> PortIndex<'a> {
    /// Returns these ports with their index. The ports must keep rule V2, and there must be fewer
    /// than 2^32 of them.
    pub fn of(alloc: Global, ports: &'a [Port]) -> Result<PortIndex<'a>, AllocError>
        requires short { length ports.now < 2 ^ 32 }
        requires rule { v2 ports.now ≡ None }
        ensures { IfOk result (λ index. index ≡ ports.now) }
    {
        let starts = starts_of(alloc, ports)?;
        let ports = NameIndex::of(alloc, ports)?;
        Ok(PortIndex { ports, starts })
    }

    /// Returns the list of the ports.
    pub fn as_slice(&self) -> &[Port]
        ensures ports { result.now ≡ self.now }
        ensures short { length result.now < 2 ^ 32 }
        ensures rule { v2 result.now ≡ None }
    {
        self.ports.as_slice()
    }

    /// Returns whether the port at `place` has this name. If it has, no other port has the name,
    /// since port names differ. The contract allows a wrong false, which would only cost time.
    fn has_name(&self, place: u32, name: &[u8]) -> bool
        ensures { result ≡ true → port_number self.now name.now ≡ Some place }
    {
        match self.as_slice().get(place as usize) {
            Some(port) => port.name.bytes() == name,
            None => false,
        }
    }

    /// Looks up the name in the name index, and returns the number of the port with this name, if there is
    /// one.
    fn mapped_number(&self, name: &[u8]) -> Option<u32>
        ensures { result ≡ port_number self.now name.now }
    {
        self.ports.place_of(name)
    }

    /// Returns the number of the port with this name, if there is one.
    fn number_of(&self, near: &mut Near, name: &[u8]) -> Option<u32>
        ensures { result ≡ port_number self.now name.now }
    {
        if self.has_name(near.last, name) {
            return Some(near.last);
        }
        if self.has_name(near.before, name) {
            return Some(near.before);
        }
        let number = self.mapped_number(name)?;
        near.before = near.last;
        near.last = number;
        Some(number)
    }

    /// Returns the port with this name, if there is one.
    pub fn port_at(&self, near: &mut Near, name: &[u8]) -> Option<&Port>
        ensures { option_copied result ≡ port_of self.now name.now }
    {
        let ports = self.as_slice();
        match self.number_of(near, name) {
            Some(number) => Some(&ports[number as usize]),
            None => None,
        }
    }

    /// Returns the number of bits before port `number`, which must be one of the ports.
    fn start_of(&self, number: u32) -> u32
        requires { number < length self.now }
        ensures { result ≡ bit_total (take number self.now) }
    {
        self.starts[number as usize]
    }

    /// Returns the total number of port bits.
    pub fn total_bits(&self) -> u32
        ensures { result ≡ bit_total self.now }
    {
        self.starts[self.ports.as_slice().len()]
    }

    /// Returns the number of the port bit with this name and index, if there is one.
    fn bit_in(&self, near: &mut Near, name: &[u8], index: Option<u32>) -> Option<u32>
        ensures number { result
            ≡ position_from (is_bit_named name.now index) 0 (all_port_bits self.now) }
        ensures few { IfSome result (λ bit. bit < bit_total self.now) }
    {
        let ports = self.as_slice();
        match self.number_of(near, name) {
            None => None,
            Some(port) => match place_in(ports[port as usize].range, index) {
                None => None,
                Some(place) => Some(self.start_of(port) + place),
            },
        }
    }

    /// Returns the number of the port bit that the word names, or None if the word names no port bit.
    pub fn bit_at(&self, near: &mut Near, word: &PortWord) -> Option<u32>
        ensures number { result ≡ bit_number self.now word.now }
        ensures few { IfSome result (λ bit. bit < bit_total self.now) }
    {
        match word {
            PortWord::Star => None,
            PortWord::Plain(name) => self.bit_in(near, name.bytes(), None),
            PortWord::Index(name, index) => self.bit_in(near, name.bytes(), Some(*index)),
        }
    }
}
