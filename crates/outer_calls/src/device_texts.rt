//! Calls of `bsdl_lexer`, `bsdl_parser` and `device_check` that split a BSDL text into tokens, read the entity that the tokens describe,
//! and make the device of the entity.
ghost use Rattle.std.specs.Prelude.{◌≡◌, ◌^◌, ◌<◌, [], List, Result, length, IfOk, option_copied};
ghost use Rattle.answers.specs.Gives.{Gives};
ghost use Rattle.board_defs.specs.declared.device.RawDevice.{RawDevice};
ghost use Rattle.bsdl_lexer.specs.declared.token.Token.{Token};
ghost use Rattle.bsdl_lexer.specs.declared.token.LexFault.{LexFault};
ghost use Rattle.bsdl_lexer.specs.Answer.{AreFirst, IsLexAnswer, lex_told};
ghost use Rattle.bsdl_lexer.specs.Tokens.{AreTokens};
ghost use Rattle.bsdl_parser.specs.declared.entity.Entity.{Entity};
ghost use Rattle.bsdl_parser.specs.declared.fault.ParseFault.{ParseFault};
ghost use Rattle.bsdl_parser.specs.Answer.{IsParseAnswer, parse_told};
ghost use Rattle.bsdl_parser.specs.Entity.{HaveKinds, IsSmall};
ghost use Rattle.bsdl_parser.specs.Lexeme.{lexemes};
ghost use Rattle.device_check.specs.declared.fault.DeviceFault.{DeviceFault};
ghost use Rattle.device_check.specs.SoundDevice.{IsDeviceAnswer, device_told};

use board_defs::Device;
use bsdl_lexer::{LexFault, Token};
use bsdl_parser::{Entity, ParseFault};
use device_check::DeviceFault;
use std::alloc::Global;

/// Appends the tokens of the text to `out`, which must be empty. The text must be shorter than 2^32 bytes. On a fault of the text, `out`
/// contains the tokens before the place of the fault. If memory runs out, `out` contains the tokens found until then.
pub fn lex(bytes: &[u8], out: &mut Vec<Token>) -> Result<(), LexFault>
    requires short { length bytes.now < 2 ^ 32 }
    requires empty { out.old.items ≡ [] }
    ensures answer { Gives lex_told (λ done. done) (IsLexAnswer bytes.now out.new.items) result }
    ensures only { Gives lex_told (λ done. done)
        (λ answer. (tokens : List Token) (other : Result (Unit {0}) LexFault)
        → IsLexAnswer bytes.now tokens other → (tokens ≡ out.new.items) × (other ≡ answer)) result }
    ensures first { AreFirst bytes.now out.new.items }
{
    bsdl_lexer::lex(bytes, out)
}

/// Returns the entity that the text describes, or the text's first fault. `tokens` must be the tokens of the text `bytes`, and `bytes` must
/// be shorter than 2^32.
pub fn parse(alloc: Global, bytes: &[u8], tokens: &[Token]) -> Result<Entity, ParseFault>
    requires short { length bytes.now < 2 ^ 32 }
    requires tokens { AreTokens bytes.now tokens.now }
    ensures answer { Gives parse_told (λ entity. entity)
        (IsParseAnswer bytes.now (lexemes bytes.now tokens.now)) result }
    ensures only { Gives parse_told (λ entity. entity)
        (λ answer. (other : Result Entity ParseFault)
        → IsParseAnswer bytes.now (lexemes bytes.now tokens.now) other → other ≡ answer) result }
    ensures kinds { IfOk result HaveKinds }
    ensures small { IfOk result IsSmall }
{
    bsdl_parser::parse(alloc, bytes, tokens)
}

/// Returns the device that the entity describes in this package, or the first rule or string that fails. If `package` is None, uses the
/// default package of the entity's generic item. The entity must have fewer than 2^32 ports and texts of fewer than
/// 2^32 bytes.
pub fn device(alloc: Global, entity: &Entity, package: Option<&[u8]>) -> Result<Device, DeviceFault>
    requires small { IsSmall entity.now }
    ensures answer { Gives device_told (λ device. device)
        (IsDeviceAnswer entity.now (option_copied «package».entry)) result }
    ensures only { Gives device_told (λ device. device)
        (λ answer. (other : Result RawDevice DeviceFault)
        → IsDeviceAnswer entity.now (option_copied «package».entry) other → other ≡ answer) result }
{
    device_check::device(alloc, entity, package)
}
