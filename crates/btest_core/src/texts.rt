// The entities of BSDL texts.
ghost use Rattle.std.specs.Prelude.{◌≡◌, ◌<◌, ◌^◌, All, IfOk, IfErr, IfSome, length, map, vec_len};
ghost use Rattle.bsdl_lexer.specs.Tokens.{AreTokens};
ghost use Rattle.bsdl_parser.specs.Entity.{HaveKinds, IsSmall};
ghost use Rattle.answers.specs.Gives.{Gives};
ghost use Rattle.btest_core.specs.Answers.{input_told};
ghost use Rattle.btest_core.specs.TextsRead.{IsTextFault, IsEntityOf, AreEntities};

use crate::fault::InputFault;
use bsdl_lexer::{LexFault, Token, lex};
use bsdl_parser::{Entity, ParseFault, parse};
use short_lists::{ShortSlice, TextList, TextSlice};
use std::alloc::Global;

/// Returns the entity that a BSDL text describes, or the text's first fault. `text` is the number
/// of the text, which the fault reports. The text must have fewer than 2^32 bytes.
pub fn read_entity(alloc: Global, bytes: &[u8], text: u32) -> Result<Entity, InputFault>
    requires { length bytes.now < 2 ^ 32 }
    ensures read { Gives input_told (λ entity. entity) (IsEntityOf bytes.now text) result }
    ensures kinds { IfOk result HaveKinds }
    ensures small { IfOk result IsSmall }
{
    let tokens = tokens_of(alloc, ShortSlice { items: bytes }, text)?;
    match parse(alloc, bytes, &tokens) {
        Ok(entity) => Ok(entity),
        Err(ParseFault::Memory(e)) => Err(InputFault::Memory(e)),
        Err(fault) => Err(InputFault::Parse { text, fault }),
    }
}

// Returns the tokens of a BSDL text, or the fault of the point at which the lexer stops. The fault
// reports the text as number `text`.
fn tokens_of(alloc: Global, bytes: TextSlice<'_>, text: u32) -> Result<Vec<Token>, InputFault>
    ensures tokens { IfOk result (λ tokens. AreTokens bytes.entry.items.now tokens.items) }
    ensures fault { IfErr result
        (λ fault. IfSome (input_told fault) (IsTextFault bytes.entry.items.now text)) }
{
    let mut tokens = Vec::new(alloc);
    match lex(bytes.items, &mut tokens) {
        Ok(()) => Ok(tokens),
        Err(LexFault::Memory(e)) => Err(InputFault::Memory(e)),
        Err(fault) => Err(InputFault::Lex { text, fault }),
    }
}

/// Returns the entities that BSDL texts describe, in the order of the texts, or the first fault of
/// the first text that has a fault.
pub(crate) fn entities(alloc: Global, texts: TextList<'_>) -> Result<Vec<Entity>, InputFault>
    ensures read { Gives input_told (λ entities. entities.items)
        (AreEntities (map (λ text. text.items) texts.entry.items.now)) result }
    ensures kinds { IfOk result (λ entities. All HaveKinds entities.items) }
    ensures small { IfOk result (λ entities. All IsSmall entities.items) }
    ensures number { IfOk result (λ entities. vec_len entities ≡ length texts.entry.items.now) }
{
    let mut entities = Vec::new(alloc);
    for (text, bytes) in texts.items.iter().enumerate() {
        let entity = match read_entity(alloc, bytes, text as u32) {
            Ok(entity) => entity,
            Err(fault) => return Err(fault),
        };
        entities.push(entity)?;
    }
    Ok(entities)
}
