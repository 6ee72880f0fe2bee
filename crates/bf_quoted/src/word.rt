//! Words of a shell's line.
ghost use Rattle.std.specs.Prelude.{◌≡◌, ◌++◌, OnOk, IfOk, string_bytes, encode_utf8};
ghost use Rattle.std.specs.List.{flat_map, list_all, list_any};
ghost use Rattle.std.specs.Str.{bytes_eq, chars};
ghost use Rattle.bf_quoted.specs.Words.{is_bare_byte_in, is_bare_word_in, reserved_words, octal, quoted_char, escaped_char, quoted};

use crate::seen::{has_unseen, is_unseen};
use bf_value::OutOfMemory;
use std::alloc::Global;

/// Words that a shell reads as keywords where a program's name may stand.
const RESERVED: [&str; 17] = [
    "case", "coproc", "do", "done", "elif", "else", "esac", "fi", "for", "function", "if", "in",
    "select", "then", "time", "until", "while",
];

/// Answers whether a shell reads this byte as itself outside of quotes.
fn is_bare_byte(byte: u8) -> bool
    ensures { result ≡ is_bare_byte_in byte }
{
    byte.is_ascii_alphanumeric() || b"_@+:,./-".contains(&byte)
}

/// Answers whether a shell reads each of these bytes as itself outside of quotes.
fn are_bare_bytes(bytes: &[u8]) -> bool
    ensures { result ≡ list_all is_bare_byte_in bytes.now }
{
    bytes.iter().all(|byte| is_bare_byte(*byte))
}

/// Answers whether `words` has this word.
fn is_among(word: &str, words: &[&str]) -> bool
    ensures { result ≡ list_any (λ known. bytes_eq known.now word.now) words.now }
{
    words.iter().any(|known| *known == word)
}

/// Answers whether this word is one of a shell's keywords, such as `if`.
fn is_reserved(word: &str) -> bool
    ensures { result ≡ list_any (λ reserved. bytes_eq reserved word.now) reserved_words }
{
    is_among(word, &RESERVED)
}

/// Answers whether a shell reads this word as itself without quotes.
fn is_bare_word(word: &str) -> bool
    ensures { result ≡ is_bare_word_in word.now }
{
    1 <= word.len() && are_bare_bytes(word.as_bytes()) && !is_reserved(word)
}

/// Adds a character of a word in the form that stands for it between a shell's `'` and `'`.
fn push_quoted_char(text: &mut String, c: char) -> Result<(), OutOfMemory>
    ensures { OnOk result (string_bytes text.new ≡ string_bytes text.old ++ quoted_char c) }
{
    if c == '\'' {
        text.push_str("'\\''")?;
    } else {
        text.push(c)?;
    }
    Ok(())
}

/// Adds a word's characters in the form that stands for them between a shell's `'` and `'`, without these.
fn push_in_quotes(text: &mut String, word: &str) -> Result<(), OutOfMemory>
    ensures { OnOk result (string_bytes text.new
        ≡ string_bytes text.old ++ flat_map quoted_char (chars word.now)) }
{
    for c in word.chars() {
        push_quoted_char(text, c)?;
    }
    Ok(())
}

/// Adds a byte as a backslash and three octal digits, in the form `\033`.
fn push_octal(text: &mut String, byte: u8) -> Result<(), OutOfMemory>
    ensures { OnOk result (string_bytes text.new ≡ string_bytes text.old ++ octal byte) }
{
    text.push_str("\\")?;
    text.push(char::from(b'0' + byte / 64))?;
    text.push(char::from(b'0' + byte / 8 % 8))?;
    text.push(char::from(b'0' + byte % 8))?;
    Ok(())
}

/// Adds each byte as a backslash and three octal digits, in the form `\033`.
fn push_octals(text: &mut String, bytes: &[u8]) -> Result<(), OutOfMemory>
    ensures { OnOk result (string_bytes text.new
        ≡ string_bytes text.old ++ flat_map octal bytes.now) }
{
    for byte in bytes {
        push_octal(text, *byte)?;
    }
    Ok(())
}

/// Makes a text of one character.
fn text_of_char(alloc: Global, c: char) -> Result<String, OutOfMemory>
    ensures { IfOk result (λ text. string_bytes text ≡ encode_utf8 c) }
{
    let mut text = String::new(alloc);
    text.push(c)?;
    Ok(text)
}

/// Adds a character of a word in the form that stands for it between a shell's `$'` and `'`.
fn push_escaped_char(alloc: Global, text: &mut String, c: char) -> Result<(), OutOfMemory>
    ensures { OnOk result (string_bytes text.new ≡ string_bytes text.old ++ escaped_char c) }
{
    if is_unseen(c) {
        return push_octals(text, text_of_char(alloc, c)?.as_bytes());
    }
    if c == '\'' || c == '\\' {
        text.push_str("\\")?;
    }
    text.push(c)?;
    Ok(())
}

/// Adds a word's characters in the form that stands for them between a shell's `$'` and `'`, without these.
fn push_escaped(alloc: Global, text: &mut String, word: &str) -> Result<(), OutOfMemory>
    ensures { OnOk result (string_bytes text.new
        ≡ string_bytes text.old ++ flat_map escaped_char (chars word.now)) }
{
    for c in word.chars() {
        push_escaped_char(alloc, text, c)?;
    }
    Ok(())
}

/// Adds a word so that a shell reads it as itself: bare where that works; in `$'..'` where it has a character that a
/// terminal wouldn't show as itself; else in `'..'`.
pub fn push_quoted(alloc: Global, text: &mut String, word: &str) -> Result<(), OutOfMemory>
    ensures { OnOk result (string_bytes text.new ≡ string_bytes text.old ++ quoted word.now) }
{
    if is_bare_word(word) {
        text.push_str(word)?;
        return Ok(());
    }
    if has_unseen(word) {
        text.push_str("$'")?;
        push_escaped(alloc, text, word)?;
    } else {
        text.push_str("'")?;
        push_in_quotes(text, word)?;
    }
    text.push_str("'")?;
    Ok(())
}
