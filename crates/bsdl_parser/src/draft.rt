//! The items of an entity that a cursor has read, the kinds of items, and the forms of attribute values.
use crate::entity::{Attr, Constant, Port};
use board_defs::Name;

/// The items of an entity that a cursor has read so far.
#[derive(Drop)]
pub(crate) struct Draft {
    pub has_generic: bool,
    pub fallback: Option<Name>,
    pub has_port: bool,
    pub ports: Vec<Port>,
    pub uses: Vec<Name>,
    pub constants: Vec<Constant>,
    pub attributes: Vec<Attr>,
}

/// The kind of an item, which the item's first word determines, or the end of the items.
#[derive(Clone, Copy)]
pub(crate) enum ItemWord {
    Generic,
    Port,
    Use,
    Constant,
    Attribute,
    End,
}

/// The form of the value of an attribute that this program uses.
#[derive(Clone, Copy)]
pub(crate) enum AttrForm {
    Plain,
    Port,
    Clock,
    Number,
    Text,
}
