// The machine's own words, printed.
ghost use Rattle.std.specs.Prelude.{◌≡◌, ◌+◌, ◌≤◌, ◌∷◌, ◌++◌, [], length, IsTrue, if◌then◌else◌};
ghost use Rattle.std.specs.Fmt.{decimal, signed_decimal};
ghost use Rattle.plain_tokens.specs.Printed.{is_code, character_of};
ghost use Rattle.plain_state.specs.Reports.{fresh_line};
ghost use Rattle.token_show.specs.Bytes.{all_printed};
ghost use Rattle.token_show.specs.Views.{IsView};
ghost use Rattle.transcript.specs.Plain.{is_plain};

use char_text::{Text, count_length, whole_number_length};
use token_show::{View, show_bytes};

// A line feed, where the column isn't 0.
pub(crate) fn fresh_line(in_line: bool) -> Text
    ensures text { result ≡ fresh_line in_line }
    ensures short { length result ≤ 1 }
{
    let mut text = Text::new();
    if in_line {
        text.put_char(b'\n');
    }
    text
}

// A character from 32 to 126, printed.
fn fixed_byte(newline: i32, c: u8) -> u8
    ensures { result ≡ (if is_code newline c then 10 else c) }
{
    if newline >= 0 && newline as u32 == u32::from(c) {
        b'\n'
    } else {
        c
    }
}

// Puts characters from 32 to 126, printed.
pub(crate) fn put_fixed(text: &mut Text, newline: i32, characters: &[u8])
    requires plain { IsTrue (is_plain characters.now) }
    requires room { length text.old + length characters.now ≤ 80 }
    ensures text { text.new ≡ text.old ++ all_printed newline characters.now }
    ensures length { length text.new ≡ length text.old + length characters.now }
{
    for c in characters {
        text.put_char(fixed_byte(newline, *c));
    }
}

// Puts a number, printed.
pub(crate) fn put_number(text: &mut Text, newline: i32, n: u64)
    requires { length text.old ≤ 60 }
    ensures text { text.new ≡ text.old ++ all_printed newline (decimal n) }
    ensures length { length text.new ≤ length text.old + 20 }
{
    let mut number = Text::new();
    count_length(n);
    number.put_count(n);
    put_fixed(text, newline, number.bytes());
}

// Puts a number that may be below 0, printed.
pub(crate) fn put_signed(text: &mut Text, newline: i32, n: i32)
    requires { length text.old ≤ 60 }
    ensures text { text.new ≡ text.old ++ all_printed newline (signed_decimal n) }
    ensures length { length text.new ≤ length text.old + 11 }
{
    let mut number = Text::new();
    whole_number_length(n);
    number.put_int(n);
    put_fixed(text, newline, number.bytes());
}

// Puts the escape character, if there is one, printed.
pub(crate) fn put_escape(text: &mut Text, view: View<'_>)
    requires names { IsView view }
    requires room { length text.old ≤ 76 }
    ensures text { text.new ≡ text.old ++ all_printed view.entry.names.newline (character_of view.entry.names.escape) }
    ensures length { length text.new ≤ length text.old + 4 }
{
    let Some(c) = view.names.escape() else { return };
    let one = [c];
    let mut shown = show_bytes(view, &one);
    while let Some(byte) = shown.next() {
        text.put_char(byte);
    }
}
