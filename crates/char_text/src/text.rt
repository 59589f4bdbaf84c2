// The text, and what is put into it.
ghost use Rattle.std.specs.Prelude.{◌≡◌, ℕ, ◌+◌, ◌≤◌, ◌<◌, true, List, [], ◌∷◌, ◌++◌, length, map};
ghost use Rattle.std.specs.Fmt.{decimal, digit_glyph};
ghost use Rattle.plain_tokens.specs.Numerals.{whole_number, hexadecimal, fraction_digits, scaled};

use arrayvec::ArrayVec;
use itoa::Buffer;
use std::marker::Model;

/// A text of at most 80 bytes. Contracts see it as the list of its bytes.
///
/// Each call that puts something has the condition that there is room for it, and none refuses.
#[derive(Drop)]
pub struct Text {
    bytes: ArrayVec<u8, 80>,
}

impl Model for Text {
    ghost Value = { List ℕ };

    ghost view = { λ text. text.bytes.items };
}

impl Text {
    /// The empty text.
    pub fn new() -> Text
        ensures { result ≡ [] }
    {
        Text {
            bytes: ArrayVec::new(),
        }
    }

    /// The bytes of the text.
    pub fn bytes(&self) -> &[u8]
        ensures bytes { result.now ≡ self.now }
        ensures fits { length result.now ≤ 80 }
    {
        self.bytes.as_slice()
    }

    /// Puts one character.
    pub fn put_char(&mut self, c: u8)
        requires { length self.old < 80 }
        ensures { self.new ≡ self.old ++ c ∷ [] }
    {
        self.bytes.push(c);
    }

    /// Puts a whole number, as `\number` prints it.
    pub fn put_int(&mut self, n: i32)
        requires { length self.old + length (whole_number n) ≤ 80 }
        ensures { self.new ≡ self.old ++ whole_number n }
    {
        let mut buffer = Buffer::new();
        self.put_bytes(buffer.format(n).as_bytes());
    }

    /// Puts a count, such as a line number.
    pub fn put_count(&mut self, n: u64)
        requires { length self.old + length (decimal n) ≤ 80 }
        ensures { self.new ≡ self.old ++ decimal n }
    {
        let mut buffer = Buffer::new();
        self.put_bytes(buffer.format(n).as_bytes());
    }

    /// Puts a scaled number, without its unit: `s` sp as points, or `s`/65536 of another unit.
    ///
    /// *TeX: The Program*, part 7 (`print_scaled`).
    pub fn put_scaled(&mut self, s: i32)
        requires { length self.old + length (scaled s) ≤ 80 }
        ensures { self.new ≡ self.old ++ scaled s }
    {
        if s < 0 {
            self.put_char(b'-');
        }
        let magnitude = s.unsigned_abs();
        self.put_count(u64::from(magnitude / 65536));
        self.put_char(b'.');
        self.put_fraction(magnitude % 65536);
    }

    /// Puts a number in capital hexadecimal digits, as in `\char"41`.
    ///
    /// *TeX: The Program*, part 5 (`print_hex`), without its `"`.
    pub fn put_hex(&mut self, n: u32)
        requires { length self.old + length (hexadecimal n) ≤ 80 }
        ensures { self.new ≡ self.old ++ hexadecimal n }
    {
        let mut digits = [0; 8];
        let mut start = 8;
        let mut left = n;
        loop {
            start -= 1;
            digits[start] = hex_digit(left % 16);
            left /= 16;
            if left == 0 {
                break;
            }
        }
        self.put_bytes(&digits[start..]);
    }

    // Puts the digits of fraction/65536.
    fn put_fraction(&mut self, fraction: u32)
        requires below { fraction < 65536 }
        requires room { length self.old + length (fraction_digits fraction) ≤ 80 }
        ensures { self.new ≡ self.old ++ map (λ digit. 48 + digit) (fraction_digits fraction) }
    {
        let mut left = 10 * fraction + 5;
        let mut unit = 10;
        let mut more = 5u32;
        while more > 0 {
            if unit > 65536 {
                left = left + 32768 - 50000;
            }
            self.put_char(b'0' + (left / 65536) as u8);
            left = 10 * (left % 65536);
            unit = 10 * unit;
            if left <= unit {
                break;
            }
            more -= 1;
        }
    }

    /// Puts bytes as they are.
    pub fn put_bytes(&mut self, text: &[u8])
        requires { length self.old + length text.now ≤ 80 }
        ensures { self.new ≡ self.old ++ text.now }
    {
        let _ = self.bytes.try_extend_from_slice(text);
    }
}

fn hex_digit(value: u32) -> u8
    requires { value < 16 }
    ensures { result ≡ digit_glyph true value }
{
    if value < 10 {
        b'0' + value as u8
    } else {
        b'A' + (value as u8 - 10)
    }
}
