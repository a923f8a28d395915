//! Texts cut into lines, lines into words, and bytes as a text.
ghost use Rattle.std.specs.Prelude.{◌≡◌, ◌∷◌, ◌++◌, ◌<◌, ◌==◌, MatchOption, length, position, true};
ghost use Rattle.std.specs.Option.{option_copied};
ghost use Rattle.std.specs.Str.{IsUtf8};
ghost use Rattle.tp_common.specs.Cutting.{IsFrontOf, IsLeftOf, after_space, lacks, lines_of, words_after, words_of};

use std::str;

fn find_byte(separator: u8, text: &[u8]) -> Option<usize>
    ensures { result ≡ position (λ byte. byte == separator) text.now }
{
    text.iter().position(|byte| *byte == separator)
}

/// The first line of a text that isn't empty, and the text after it. A line ends at a byte 10,
/// which is in neither and which the last line may lack.
pub fn first_line(text: &[u8]) -> (&[u8], &[u8])
    requires { 0 < length text.now }
    ensures lines { lines_of text.now ≡ result.0.now ∷ lines_of result.1.now }
    ensures shorter { length result.1.now < length text.now }
    ensures front { IsFrontOf text.now result.0.now }
    ensures left { IsLeftOf text.now result.1.now }
{
    match find_byte(b'\n', text) {
        Some(place) => (&text[..place], &text[place + 1..]),
        None => (text, &text[text.len()..]),
    }
}

/// The first word of a line, and the rest after the space that follows it. The rest is `None` if
/// the line has only one word, and empty if the line ends with its only space. A word contains no
/// space. It is empty if the line is, or begins with a space.
pub fn first_word(line: &[u8]) -> (&[u8], Option<&[u8]>)
    ensures words { words_of line.now ≡ result.0.now ∷ words_after (option_copied result.1) }
    ensures parts { line.now ≡ result.0.now ++ after_space (option_copied result.1) }
    ensures word { lacks 32 result.0.now ≡ true }
{
    match find_byte(b' ', line) {
        Some(place) => (&line[..place], Some(&line[place + 1..])),
        None => (line, None),
    }
}

/// The bytes as a text, or `None` if and only if they aren't UTF-8.
pub fn utf8_text(bytes: &[u8]) -> Option<&str>
    ensures { MatchOption result (¬ IsUtf8 bytes.now) (λ text. text.now ≡ bytes.now) }
{
    match str::from_utf8(bytes) {
        Ok(text) => Some(text),
        Err(_) => None,
    }
}
