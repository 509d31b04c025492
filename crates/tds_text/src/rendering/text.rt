ghost use Rattle.std.specs.Prelude.{◌≡◌, ◌<◌, ◌++◌, OnOk, string_bytes};
ghost use Rattle.tds_text.specs.Texts.{hex_digit, hex2, hex4, is_plain, unit_text, shown, comma_behind};

use std::alloc::AllocError;

/// Appends a text: each unit as itself where it is plain, else as `\u` and four digits.
pub fn put_units(text: &mut String, units: &[u16]) -> Result<(), AllocError>
    ensures { OnOk result (string_bytes text.new ≡ string_bytes text.old ++ shown units.now) }
{
    for unit in units {
        put_unit(text, *unit)?;
    }
    Ok(())
}

fn put_unit(text: &mut String, unit: u16) -> Result<(), AllocError>
    ensures { OnOk result (string_bytes text.new ≡ string_bytes text.old ++ unit_text unit) }
{
    if (32..=126).contains(&unit) && unit != 92 {
        return text.push(char::from(unit as u8));
    }
    text.push_str("\\u")?;
    put_hex4(text, unit)
}

/// Appends a byte in two hexadecimal digits, in lower case.
#[tactic(auto, unfolding(crate::specs::Texts::hex2))]
pub fn put_hex2(text: &mut String, byte: u8) -> Result<(), AllocError>
    ensures { OnOk result (string_bytes text.new ≡ string_bytes text.old ++ hex2 byte) }
{
    text.push(hex_digit_of(u16::from(byte) / 16 % 16))?;
    text.push(hex_digit_of(u16::from(byte) % 16))
}

/// Appends a number in four hexadecimal digits, in lower case.
#[tactic(auto, unfolding(crate::specs::Texts::hex4))]
pub fn put_hex4(text: &mut String, number: u16) -> Result<(), AllocError>
    ensures { OnOk result (string_bytes text.new ≡ string_bytes text.old ++ hex4 number) }
{
    text.push(hex_digit_of(number / 4096 % 16))?;
    text.push(hex_digit_of(number / 256 % 16))?;
    text.push(hex_digit_of(number / 16 % 16))?;
    text.push(hex_digit_of(number % 16))
}

fn hex_digit_of(number: u16) -> char
    requires { number < 16 }
    ensures value { result ≡ hex_digit number }
    ensures ascii { result < 128 }
{
    let digit = number as u8;
    char::from(if digit < 10 {
        b'0' + digit
    } else {
        b'a' - 10 + digit
    })
}

/// Appends the comma that stands before an item with so many before it.
pub(crate) fn put_comma(text: &mut String, before: usize) -> Result<(), AllocError>
    ensures { OnOk result (string_bytes text.new ≡ string_bytes text.old ++ comma_behind before) }
{
    match before {
        0 => Ok(()),
        _ => text.push_str(","),
    }
}
