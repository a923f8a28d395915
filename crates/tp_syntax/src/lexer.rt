//! From a text to its tokens (ES 201 873-1, Annex A: identifiers, comments, terminals).
ghost use Rattle.std.specs.Prelude.{◌≡◌, ◌≤◌, ◌++◌, IfErr, IfOk, IsTrue, OnOk, length, map};
ghost use Rattle.std.specs.Option.{option_map};
ghost use Rattle.tp_syntax.specs.Cut.{AreTokens, TokensAreUnique, newlines, placed};
ghost use Rattle.tp_syntax.specs.TextFaults.{AreWithinLimits, GoodTextsAreAccepted, IsMemory, IsRefused};
ghost use Rattle.tp_syntax.specs.Lexeme.{lexeme_of, placed_lexeme};
ghost use Rattle.tp_syntax.specs.Word.{WordsAreSpelled};

use crate::byte::{Kind, byte_kind};
use crate::piece::piece;
use crate::script_fault::ScriptFault;
use crate::token::{Placed, Token};
use std::alloc::Global;
use tp_common::limit::TEXT_LIMIT;

/// Returns the tokens of the text, in order, each with its line. It reads the text once, and
/// borrows names from it.
///
/// It returns the first fault in the text:
/// - 15 `Limit` at line 0, before all others: the text has more than [`TEXT_LIMIT`] bytes;
/// - 10 `Syntax` at the line of a byte that begins no token, of the opening quote of a text that
///   isn't closed or contains a character other than 32 to 126, of the `/*` of a comment that isn't
///   closed (`/*/` isn't);
/// - 15 `Limit` at the line of a name of more than 64 characters, or of a number above
///   9223372036854775808.
pub fn lex<'t>(alloc: Global, text: &'t [u8]) -> Result<Vec<Placed<'t>>, ScriptFault>
    ensures tokens { IfOk result (λ v. AreTokens text.now (map placed_lexeme v.items)) }
    ensures limits { IfOk result (λ v. AreWithinLimits (map placed_lexeme v.items)) }
    ensures short { OnOk result (length text.now ≤ 1048576) }
    ensures refused { IfErr result (IsRefused text.now) }
{
    if text.len() > TEXT_LIMIT {
        return Err(ScriptFault::limit(0));
    }
    let mut tokens = Vec::new(alloc);
    let mut rest = text;
    let mut line: u32 = 1;
    // The label is the loop's name in its proof.
    'pieces: while !rest.is_empty() {
        // White space is passed here, which is faster than as a piece with no token.
        if let Kind::Blank = byte_kind(rest[0]) {
            let (blank, after) = rest.split_at(1);
            line += lines_in(false, blank);
            rest = after;
            continue;
        }
        let (found, size) = piece(alloc, rest, line)?;
        let (bytes, after) = rest.split_at(size);
        // Read before `add`, which takes the token.
        let is_token = found.is_some();
        add(&mut tokens, found, line)?;
        // A text within the limit has fewer lines than 2^32, so the sum fits.
        line += lines_in(is_token, bytes);
        rest = after;
    }
    Ok(tokens)
}

/// A text has one list of tokens, so that [`lex`] returns the only possible one. This is a law
/// without work.
pub fn tokens_are_unique()
    ensures { TokensAreUnique }
{}

/// [`lex`] refuses no good text: if a text has tokens within the limits and isn't too long, `lex`
/// can refuse it only because memory runs out. This is a law without work.
pub fn good_texts_are_accepted()
    ensures { GoodTextsAreAccepted }
{}

/// Bytes spell a reserved word if and only if they are its spelling. This is a law without work.
pub fn words_are_spelled()
    ensures { WordsAreSpelled }
{}

fn add<'t>(
    tokens: &mut Vec<Placed<'t>>,
    found: Option<Token<'t>>,
    line: u32,
) -> Result<(), ScriptFault>
    ensures added { OnOk result (map placed_lexeme tokens.new.items
        ≡ map placed_lexeme tokens.old.items ++ placed (option_map lexeme_of found.entry) line) }
    ensures memory { IfErr result IsMemory }
{
    if let Some(token) = found {
        tokens.push(Placed { token, line })?;
    }
    Ok(())
}

fn lines_in(is_token: bool, piece: &[u8]) -> u32
    requires short { length piece.now ≤ 1048576 }
    requires token { IsTrue is_token → newlines piece.now ≡ 0 }
    ensures value { result ≡ newlines piece.now }
    ensures bound { result ≤ length piece.now }
{
    // A token contains no line end, so that its bytes aren't looked at.
    if is_token {
        return 0;
    }
    piece.iter().filter(|byte| **byte == b'\n').count() as u32
}
