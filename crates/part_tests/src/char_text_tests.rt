// Texts as TeX prints them.
use char_text::{
    Roman, Text, count_length, hexadecimal_length, scaled_length, whole_number_length,
};

fn scaled_text(s: i32) -> Text {
    let mut text = Text::new();
    scaled_length(s);
    text.put_scaled(s);
    text
}

fn int_text(n: i32) -> Text {
    let mut text = Text::new();
    whole_number_length(n);
    text.put_int(n);
    text
}

fn count_text(n: u64) -> Text {
    let mut text = Text::new();
    count_length(n);
    text.put_count(n);
    text
}

fn hex_text(n: u32) -> Text {
    let mut text = Text::new();
    hexadecimal_length(n);
    text.put_hex(n);
    text
}

// Whether the numeral of `n` has these letters, and then none.
fn is_roman(n: i32, letters: &[u8]) -> bool {
    let mut numeral = Roman::new(n);
    for letter in letters {
        if numeral.next() != Some(*letter) {
            return false;
        }
    }
    numeral.next().is_none()
}

// Among them 1in, .5in, the largest dimension and 1sp.
const SCALED_NUMBERS: [(i32, &[u8]); 8] = [
    (4736286, b"72.26999"),
    (2368143, b"36.135"),
    (1073741823, b"16383.99998"),
    (65536, b"1.0"),
    (-3, b"-0.00005"),
    (1, b"0.00002"),
    (0, b"0.0"),
    (i32::MIN, b"-32768.0"),
];

// Whether these numbers have these texts.
fn are_scaled(rows: &[(i32, &[u8])]) -> bool {
    for (s, wanted) in rows {
        if scaled_text(*s).bytes() != *wanted {
            return false;
        }
    }
    true
}

const WHOLE_NUMBERS: [(i32, &[u8]); 3] = [
    (0, b"0"),
    (-2147483648, b"-2147483648"),
    (2147483647, b"2147483647"),
];

fn are_whole(rows: &[(i32, &[u8])]) -> bool {
    for (n, wanted) in rows {
        if int_text(*n).bytes() != *wanted {
            return false;
        }
    }
    true
}

const HEXADECIMAL_NUMBERS: [(u32, &[u8]); 5] = [
    (0x41, b"41"),
    (0x141, b"141"),
    (0, b"0"),
    (0xABCDEF, b"ABCDEF"),
    (u32::MAX, b"FFFFFFFF"),
];

fn are_hexadecimal(rows: &[(u32, &[u8])]) -> bool {
    for (n, wanted) in rows {
        if hex_text(*n).bytes() != *wanted {
            return false;
        }
    }
    true
}

const ROMAN_NUMERALS: [(i32, &[u8]); 6] = [
    (1987, b"mcmlxxxvii"),
    (1444, b"mcdxliv"),
    (999, b"cmxcix"),
    (4000, b"mmmm"),
    (0, b""),
    (-5, b""),
];

fn are_roman(rows: &[(i32, &[u8])]) -> bool {
    for (n, letters) in rows {
        if !is_roman(*n, *letters) {
            return false;
        }
    }
    true
}

// Whether the numbers in all forms have their texts.
fn have_their_texts() -> bool {
    let count = count_text(18446744073709551615);
    are_scaled(&SCALED_NUMBERS)
        && are_whole(&WHOLE_NUMBERS)
        && count.bytes() == b"18446744073709551615".as_slice()
        && are_hexadecimal(&HEXADECIMAL_NUMBERS)
        && are_roman(&ROMAN_NUMERALS)
}

#[test]
fn numbers_have_their_texts(rt: HostRuntime) {
    assert!(rt; have_their_texts());
}

#[test]
fn room_for_eighty_bytes(rt: HostRuntime) {
    let mut text = Text::new();
    for place in 0..80usize {
        text.put_char(b'a' + (place % 26) as u8);
    }
    assert!(rt; text.bytes().len() == 80);
}
