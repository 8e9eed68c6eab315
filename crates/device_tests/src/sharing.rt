//! Tests that the public types of the BSDL crates are `Send` and `Sync`.
use bsdl_lexer::{LexFault, Token, TokenKind};
use bsdl_parser::{Attr, AttrValue, Attribute, Constant, Entity, ParseFault, Port, Range};
use bsdl_strings::{Compliance, Entry, MapEntry, Opcode, PortWord, StringFault};
use device_check::DeviceFault;
use device_rules::{Broken, Draft, DraftFault, Rule, TapPorts};

fn is_shared<T: Send + Sync>() {}

#[test]
fn tokens_and_entities_may_be_shared() {
    is_shared::<Token>();
    is_shared::<TokenKind>();
    is_shared::<LexFault>();
    is_shared::<Entity>();
    is_shared::<Port>();
    is_shared::<Range>();
    is_shared::<Constant>();
    is_shared::<Attr>();
    is_shared::<AttrValue>();
    is_shared::<Attribute>();
    is_shared::<ParseFault>();
}

#[test]
fn values_of_strings_may_be_shared() {
    is_shared::<MapEntry>();
    is_shared::<Opcode>();
    is_shared::<PortWord>();
    is_shared::<Entry>();
    is_shared::<Compliance>();
    is_shared::<StringFault>();
}

#[test]
fn drafts_and_faults_of_devices_may_be_shared() {
    is_shared::<Broken>();
    is_shared::<Rule>();
    is_shared::<Draft>();
    is_shared::<DraftFault>();
    is_shared::<TapPorts>();
    is_shared::<DeviceFault>();
}
