//! The port bits that the compliance patterns name.
ghost use Rattle.std.specs.Prelude.{◌≡◌, option_map, IfOk};
ghost use Rattle.std.specs.List.{list_any};
ghost use Rattle.device_rules.specs.inner.Index.{HasBits, has_key, key_of, names_bit, compliance_words};

use bsdl_strings::{Compliance, PortWord};
use std::alloc::{AllocError, Global};
use std::collections::HashSet;
use std::marker::Model;

/// A bit that compliance patterns name: the name of its port and its index.
type Key<'a> = (&'a [u8], Option<u32>);

/// Returns the name and the index that the word gives, or None for `*`.
fn key_of(word: &PortWord) -> Option<Key>
    ensures { option_map (λ key. (key.0.now, key.1)) result ≡ key_of word.now }
{
    match word {
        PortWord::Star => None,
        PortWord::Plain(name) => Some((name.bytes(), None)),
        PortWord::Index(name, index) => Some((name.bytes(), Some(*index))),
    }
}

/// Returns the words that name the bits of the compliance patterns. Returns no words if there are
/// no patterns.
fn words_of(compliance: &Option<Compliance>) -> &[PortWord]
    ensures { result.now ≡ compliance_words compliance.now }
{
    match compliance {
        Some(compliance) => compliance.ports.as_slice(),
        None => &[],
    }
}

/// Returns the set of bits that these words name.
fn bits_of<'a>(alloc: Global, words: &'a [PortWord]) -> Result<HashSet<Key<'a>>, AllocError>
    ensures { IfOk result (λ bits. HasBits bits words.now) }
{
    let mut bits = HashSet::new(alloc);
    for word in words {
        if let Some(key) = key_of(word) {
            bits.insert(key)?;
        }
    }
    Ok(bits)
}

fn has_key(bits: &HashSet<Key>, name: &[u8], index: Option<u32>) -> bool
    ensures { result ≡ has_key bits.now (name.entry, index) }
{
    bits.contains(&(name, index))
}

/// The compliance patterns of a device, if it has any, and the set of bits that they name. In
/// contracts, the value is the patterns, or None.
#[derive(Drop)]
pub struct NamedBits<'a> {
    compliance: &'a Option<Compliance>,
    bits: HashSet<Key<'a>>,
}

impl<'a> Model for NamedBits<'a> {
    ghost use Rattle.std.specs.Prelude.{Option};
    ghost use Rattle.bsdl_strings.specs.declared.values.Compliance.{Compliance};
    ghost use Rattle.device_rules.specs.inner.Index.{HasBits, compliance_words};

    ghost Value = { Option Compliance };

    ghost view = { λ a. a.compliance.now };

    ghost invariant = { λ a. HasBits a.bits (compliance_words a.compliance.now) };
}

impl<'a> NamedBits<'a> {
    /// Returns these patterns with the set of bits that they name. The set is empty if there are no
    /// patterns.
    pub fn of(
        alloc: Global,
        compliance: &'a Option<Compliance>,
    ) -> Result<NamedBits<'a>, AllocError>
        ensures { IfOk result (λ named. named ≡ compliance.now) }
    {
        let bits = bits_of(alloc, words_of(compliance))?;
        Ok(NamedBits { compliance, bits })
    }

    /// Returns whether the patterns name the bit with this port name and index. Returns false if there
    /// are no patterns.
    pub fn has(&self, name: &[u8], index: Option<u32>) -> bool
        ensures { result ≡ list_any (names_bit name.now index) (compliance_words self.now) }
    {
        match self.compliance {
            None => false,
            Some(_) => has_key(&self.bits, name, index),
        }
    }
}
