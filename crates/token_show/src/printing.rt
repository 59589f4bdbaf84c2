// One character printed.
ghost use Rattle.std.specs.Prelude.{◌≡◌, ◌<◌, ◌∷◌, ◌++◌, length};
ghost use Rattle.plain_tokens.specs.Printed.{is_code, small_hex_digit, printed_by};
ghost use Rattle.token_show.specs.Options.{listed};

// The bytes of a printed character, in order.
#[derive(Clone, Copy)]
pub(crate) struct Glyph {
    pub(crate) first: u8,
    pub(crate) second: Option<u8>,
    pub(crate) third: Option<u8>,
    pub(crate) fourth: Option<u8>,
}

// Whether a parameter's value is the code of this character.
fn is_code(value: i32, c: u8) -> bool
    ensures { result ≡ is_code value c }
{
    value >= 0 && value as u32 == u32::from(c)
}

// 0 to 9 and a to f.
fn small_hex_digit(d: u8) -> u8
    requires { d < 16 }
    ensures { result ≡ small_hex_digit d }
{
    if d < 10 { b'0' + d } else { b'a' + (d - 10) }
}

// A character that is printed, where `newline` is the value of `\newlinechar`.
pub(crate) fn print_character(newline: i32, c: u8) -> Glyph
    ensures { printed_by newline c ≡ result.first ∷ (listed result.second ++ (listed result.third ++ listed result.fourth)) }
{
    if is_code(newline, c) {
        alone(b'\n')
    } else if c >= 32 && c <= 126 {
        alone(c)
    } else if c < 64 {
        hats(c + 64, None)
    } else if c < 128 {
        hats(c - 64, None)
    } else {
        hats(small_hex_digit(c / 16), Some(small_hex_digit(c % 16)))
    }
}

// How many bytes a printed character has.
pub(crate) fn printed_len(newline: i32, c: u8) -> u8
    ensures { result ≡ length (printed_by newline c) }
{
    if is_code(newline, c) || (c >= 32 && c <= 126) {
        1
    } else if c < 128 {
        3
    } else {
        4
    }
}

fn alone(byte: u8) -> Glyph
    ensures { result ≡ record { first = byte; second = None; third = None; fourth = None } }
{
    Glyph {
        first: byte,
        second: None,
        third: None,
        fourth: None,
    }
}

fn hats(third: u8, fourth: Option<u8>) -> Glyph
    ensures { result ≡ record { first = 94; second = Some 94; third = Some third; fourth = fourth } }
{
    Glyph {
        first: b'^',
        second: Some(b'^'),
        third: Some(third),
        fourth,
    }
}
