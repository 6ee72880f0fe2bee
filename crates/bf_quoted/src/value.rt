//! Values as JSON text on a terminal.
ghost use Rattle.std.specs.Prelude.{◌≡◌, ◌<◌, ◌++◌, OnOk, string_bytes};
ghost use Rattle.std.specs.Char.{digit_char};
ghost use Rattle.std.specs.List.{flat_map};
ghost use Rattle.std.specs.Str.{chars};
ghost use Rattle.bf_quoted.specs.Values.{escape, escape_of, shown_char, shown, shown_in_lines, shown_lines};

use crate::seen::is_unseen;
use bf_value::OutOfMemory;

/// Gives the lower-case hexadecimal digit of a number below 16.
fn hex_digit(value: u32) -> char
    requires { value < 16 }
    ensures { result ≡ digit_char value }
{
    if value < 10 {
        char::from(b'0' + value as u8)
    } else {
        char::from(b'a' + (value - 10) as u8)
    }
}

/// Adds JSON's escape of this number, in the form `\u001b`.
fn push_escape(text: &mut String, code: u32) -> Result<(), OutOfMemory>
    requires { code < 65_536 }
    ensures { OnOk result (string_bytes text.new ≡ string_bytes text.old ++ escape code) }
{
    text.push_str("\\u")?;
    text.push(hex_digit(code / 4_096))?;
    text.push(hex_digit(code / 256 % 16))?;
    text.push(hex_digit(code / 16 % 16))?;
    text.push(hex_digit(code % 16))?;
    Ok(())
}

/// Adds JSON's escape of a character; past `\u{ffff}` those of the two halves of its surrogate pair.
fn push_escape_of(text: &mut String, c: char) -> Result<(), OutOfMemory>
    ensures { OnOk result (string_bytes text.new ≡ string_bytes text.old ++ escape_of c) }
{
    let code = c as u32;
    if code < 65_536 {
        return push_escape(text, code);
    }
    push_escape(text, 0xd7c0 + code / 1_024)?;
    push_escape(text, 0xdc00 + code % 1_024)?;
    Ok(())
}

/// Adds a character, or JSON's escape of it where a terminal wouldn't show it as itself.
fn push_shown_char(text: &mut String, c: char) -> Result<(), OutOfMemory>
    ensures { OnOk result (string_bytes text.new ≡ string_bytes text.old ++ shown_char c) }
{
    if is_unseen(c) {
        return push_escape_of(text, c);
    }
    text.push(c)?;
    Ok(())
}

/// Adds `json`, a value's compact JSON or another text, with an escape for each character that a terminal wouldn't show
/// as itself.
pub fn push_shown_value(text: &mut String, json: &str) -> Result<(), OutOfMemory>
    ensures { OnOk result (string_bytes text.new ≡ string_bytes text.old ++ shown json.now) }
{
    for c in json.chars() {
        push_shown_char(text, c)?;
    }
    Ok(())
}

/// Adds a character of a text of several lines: a line feed as it is, and any other as `push_shown_char` does.
fn push_shown_in_lines(text: &mut String, c: char) -> Result<(), OutOfMemory>
    ensures { OnOk result (string_bytes text.new ≡ string_bytes text.old ++ shown_in_lines c) }
{
    if c == '\n' {
        text.push(c)?;
        return Ok(());
    }
    push_shown_char(text, c)
}

/// Adds a text of several lines, with an escape for each character but line feeds that a terminal wouldn't show as
/// itself.
pub fn push_shown_lines(text: &mut String, lines: &str) -> Result<(), OutOfMemory>
    ensures { OnOk result (string_bytes text.new ≡ string_bytes text.old ++ shown_lines lines.now) }
{
    for c in lines.chars() {
        push_shown_in_lines(text, c)?;
    }
    Ok(())
}
