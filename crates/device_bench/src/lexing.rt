// Checks of the tokens of BSDL texts.
use crate::case::{CaseFault, compare};
use crate::shown::add_bytes;
use crate::source::Source;
use bsdl_lexer::{LexFault, Token, lex};
use std::alloc::{AllocError, Global};

/// Checks the result of the lexer on each text, and the number of tokens that it finds.
pub fn lexings_hold(
    alloc: Global,
    cases: &[(Source, Result<(), LexFault>, usize)],
) -> Result<(), CaseFault> {
    for (case, (source, wanted, count)) in cases.iter().enumerate() {
        let text = source.bytes(alloc)?;
        let mut tokens = Vec::new(alloc);
        let found = lex(&text, &mut tokens);
        if found != *wanted || tokens.len() != *count {
            let found = format!(in alloc; "{found:?} {}", tokens.len())?;
            return Err(CaseFault::Ended { case, found });
        }
    }
    Ok(())
}

/// Checks the tokens of each text, or the message of the lexer's fault. The expected tokens are written as text with one token on each
/// line: its kind, its bytes and its line number.
pub fn tokens_hold(alloc: Global, cases: &[(Source, &'static str)]) -> Result<(), CaseFault> {
    for (case, (source, wanted)) in cases.iter().enumerate() {
        let text = source.bytes(alloc)?;
        let mut tokens = Vec::new(alloc);
        let shown = match lex(&text, &mut tokens) {
            Ok(()) => shown_tokens(alloc, &text, &tokens)?,
            Err(fault) => format!(in alloc; "{fault}")?,
        };
        compare(case, shown, wanted)?;
    }
    Ok(())
}

fn shown_tokens(alloc: Global, text: &[u8], tokens: &[Token]) -> Result<String, AllocError> {
    let mut shown = String::new(alloc);
    for token in tokens {
        let kind = format!(in alloc; "{:?} ", token.kind)?;
        shown.push_str(kind.as_str())?;
        match text.get(token.start as usize..token.end as usize) {
            Some(bytes) => add_bytes(bytes, &mut shown)?,
            None => shown.push_str("?")?,
        }
        let line = format!(in alloc; " {}\n", token.line)?;
        shown.push_str(line.as_str())?;
    }
    Ok(shown)
}
