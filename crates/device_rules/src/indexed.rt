//! A device as a BSDL text states it, with an index of its ports.
ghost use Rattle.std.specs.Prelude.{◌≡◌, None, IfOk};
ghost use Rattle.device_rules.specs.Ports.{v2};
ghost use Rattle.device_rules.specs.Rules.{HasShortLists};

use crate::draft::Draft;
use crate::port_index::PortIndex;
use std::alloc::{AllocError, Global};
use std::marker::Model;

/// A draft whose ports keep rule V2, with an index of the ports. V2 says that port names differ,
/// that ranges are in order, and that there are at most 65,535 port bits. In contracts, the value
/// is the draft.
#[derive(Drop)]
pub struct IndexedDraft<'a> {
    text: &'a Draft,
    ports: PortIndex<'a>,
}

impl<'a> Model for IndexedDraft<'a> {
    ghost use Rattle.std.specs.Prelude.{◌≡◌};
    ghost use Rattle.device_rules.specs.declared.draft.Draft.{Draft};
    ghost use Rattle.device_rules.specs.Rules.{HasShortLists};

    ghost Value = { Draft };

    ghost view = { λ a. a.text.now };

    ghost invariant = { λ a. HasShortLists a.text.now × (a.ports ≡ a.text.now.ports) };
}

impl<'a> IndexedDraft<'a> {
    /// Returns the draft with an index of its ports. The ports must keep rule V2, and the draft's
    /// lists must be shorter than 2^32.
    pub fn of(alloc: Global, text: &'a Draft) -> Result<IndexedDraft<'a>, AllocError>
        requires short { HasShortLists text.now }
        requires rule { v2 text.now.ports ≡ None }
        ensures { IfOk result (λ draft. draft ≡ text.now) }
    {
        let ports = PortIndex::of(alloc, text.ports.as_slice())?;
        Ok(IndexedDraft { text, ports })
    }

    /// Returns the draft.
    pub fn text(&self) -> &Draft
        ensures text { result.now ≡ self.now }
        ensures short { HasShortLists self.now }
    {
        self.text
    }

    /// Returns the index of the ports.
    pub fn ports(&self) -> &PortIndex<'a>
        ensures { result.now ≡ self.now.ports }
    {
        &self.ports
    }
}
