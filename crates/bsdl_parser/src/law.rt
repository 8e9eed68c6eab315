//! Laws of the definitions. Each law is the contract of a function that does nothing.
ghost use Rattle.std.specs.Prelude.{◌≡◌, ◌^◌, ◌<◌, ℕ, List, Result, length};
ghost use Rattle.bsdl_lexer.specs.declared.token.Token.{Token};
ghost use Rattle.bsdl_lexer.specs.Tokens.{AreTokens};
ghost use Rattle.bsdl_parser.specs.declared.entity.Entity.{Entity};
ghost use Rattle.bsdl_parser.specs.declared.fault.ParseFault.{ParseFault};
ghost use Rattle.bsdl_parser.specs.Lexeme.{Lexeme, lexemes};
ghost use Rattle.bsdl_parser.specs.Answer.{Derives, IsParseAnswer};
ghost use Rattle.bsdl_parser.specs.Entity.{HaveKinds, IsSmall};

/// The grammar derives at most one entity from a list of tokens.
pub fn token_lists_derive_one_entity()
    ensures { (tokens : List Lexeme) (entity other : Entity) → Derives tokens entity
        → Derives tokens other → entity ≡ other }
{}

/// A text and a list of tokens have exactly one answer: either the entity that the grammar derives
/// from the tokens, or the first fault.
pub fn token_lists_have_one_answer()
    ensures some { (text : List ℕ) (tokens : List Lexeme)
        → (answer : Result Entity ParseFault) × IsParseAnswer text tokens answer }
    ensures one { (text : List ℕ) (tokens : List Lexeme) (answer other : Result Entity ParseFault)
        → IsParseAnswer text tokens answer → IsParseAnswer text tokens other → answer ≡ other }
{}

/// The value of each attribute of a derived entity has the kind that the attribute's number
/// requires. If the tokens belong to a text of fewer than 2^32 bytes, the entity has fewer than 2^32
/// ports, and its texts have fewer than 2^32 bytes each.
pub fn entities_keep_their_limits()
    ensures kinds { (tokens : List Lexeme) (entity : Entity) → Derives tokens entity
        → HaveKinds entity }
    ensures small { (text : List ℕ) (tokens : List Token) (entity : Entity) → length text < 2 ^ 32
        → AreTokens text tokens → Derives (lexemes text tokens) entity → IsSmall entity }
{}
