//! Laws of the definitions. Each law is the contract of a function that does nothing.
ghost use Rattle.std.specs.Prelude.{◌≡◌, ℕ, List, Result};
ghost use Rattle.bsdl_lexer.specs.declared.token.Token.{Token};
ghost use Rattle.bsdl_lexer.specs.declared.token.LexFault.{LexFault};
ghost use Rattle.bsdl_lexer.specs.Tokens.{AreTokens};
ghost use Rattle.bsdl_lexer.specs.Answer.{IsLexAnswer};

/// A text has exactly one answer: all its tokens, or the tokens before its first fault together
/// with this fault.
pub fn texts_have_one_answer()
    ensures some { (text : List ℕ)
        → (tokens : List Token) × (answer : Result (Unit {0}) LexFault)
        × IsLexAnswer text tokens answer }
    ensures one { (text : List ℕ) (tokens others : List Token)
        (answer other : Result (Unit {0}) LexFault) → IsLexAnswer text tokens answer
        → IsLexAnswer text others other → (tokens ≡ others) × (answer ≡ other) }
{}

/// A text has at most one token list.
pub fn token_lists_are_unique()
    ensures { (text : List ℕ) (tokens others : List Token) → AreTokens text tokens
        → AreTokens text others → tokens ≡ others }
{}
