//! A file's name as `explain` prints it.

ghost use Rattle.std.specs.Prelude.{◌≡◌, ◌++◌, IfOk, OnOk, chars, flat_map, string_bytes};
ghost use Rattle.commands.specs.ShownName.{hex_digit, shown_char};

use std::alloc::{AllocError, Global};

/// Returns the digit of a number's last four bits.
fn hex_digit(number: u32) -> char
    ensures { result ≡ hex_digit number }
{
    let digit = (number % 16) as u8;
    if digit < 10 {
        (b'0' + digit) as char
    } else {
        (b'a' + (digit - 10)) as char
    }
}

/// Appends a character, or its escape if it is a control character.
fn push_shown(text: &mut String, c: char) -> Result<(), AllocError>
    ensures { OnOk result (string_bytes text.new ≡ string_bytes text.old ++ shown_char c) }
{
    if !c.is_control() {
        return text.push(c);
    }
    let code = c as u32;
    text.push_str("\\x")?;
    text.push(hex_digit(code / 16))?;
    text.push(hex_digit(code))
}

/// Returns a name with escapes in place of control characters, such as `\x1b`.
pub fn shown_name(alloc: Global, name: &str) -> Result<String, AllocError>
    ensures { IfOk result (λ text. string_bytes text ≡ flat_map shown_char (chars name.now)) }
{
    let mut text = String::new(alloc);
    for c in name.chars() {
        push_shown(&mut text, c)?;
    }
    Ok(text)
}
