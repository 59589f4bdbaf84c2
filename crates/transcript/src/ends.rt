// The lines with which the machine ends.
ghost use Rattle.std.specs.Prelude.{◌≡◌, ◌≤◌, ◌+◌, ◌∷◌, ◌++◌, ◌==◌, [], codes, decimal, length, OnOk, IfErr, IsTrue, if◌then◌else◌};
ghost use Rattle.plain_tokens.specs.Printed.{escaped};
ghost use Rattle.plain_state.specs.Reports.{fresh_line, printed_line, hundred_line, end_in_group, end_in_conditional, emergency, no_end_line, no_file_line};
ghost use Rattle.token_show.specs.Bytes.{all_printed};
ghost use Rattle.token_show.specs.Views.{style_of, IsView};
ghost use Rattle.transcript.specs.Plain.{is_plain};
ghost use Rattle.transcript.specs.Taken.{Took, TookFront};

use crate::fixed::{fresh_line, put_escape, put_fixed, put_number};
use crate::report::show_primitive;
use crate::writing::put_around;
use char_text::Text;
use token_show::View;
use world_io::{Fault, Sink};

// Puts a line of these characters, printed.
fn put_line(text: &mut Text, view: View<'_>, characters: &[u8])
    requires plain { IsTrue (is_plain characters.now) }
    requires room { length text.old + length characters.now ≤ 79 }
    ensures text { text.new ≡ text.old ++ printed_line (style_of view.entry) characters.now }
    ensures length { length text.new ≡ length text.old + length characters.now + 1 }
{
    put_fixed(text, view.names.newline, characters);
    text.put_char(b'\n');
}

/// The line behind the hundredth report.
pub fn hundred_line(view: View<'_>) -> Text
    ensures { result ≡ hundred_line (style_of view.entry) }
{
    let mut text = Text::new();
    put_line(
        &mut text,
        view,
        b"(That makes 100 errors; please try again.)",
    );
    text
}

// Puts the line that says in how many groups `\end` came.
fn put_depth(text: &mut Text, view: View<'_>, depth: u32)
    requires names { IsView view }
    requires room { length text.old ≤ 1 }
    ensures { text.new ≡ text.old ++ end_in_group (style_of view.entry) depth }
{
    let newline = view.names.newline;
    put_fixed(text, newline, b"(");
    put_escape(text, view);
    put_fixed(text, newline, b"end occurred inside a group at level ");
    put_number(text, newline, u64::from(depth));
    put_fixed(text, newline, b")");
    text.put_char(b'\n');
}

// What stands in the line of an open conditional before its name.
fn end_words(view: View<'_>) -> Text
    requires { IsView view }
    ensures { result ≡ all_printed view.entry.names.newline (codes "(" ++ (escaped (style_of view.entry) (codes "end") ++ codes " occurred when ")) }
{
    let newline = view.names.newline;
    let mut text = Text::new();
    put_fixed(&mut text, newline, b"(");
    put_escape(&mut text, view);
    put_fixed(&mut text, newline, b"end occurred when ");
    text
}

// And what stands behind it: the line on which it began.
fn begun_words(newline: i32, line: u64) -> Text
    ensures { result ≡ all_printed newline (codes " on line " ++ (decimal line ++ codes " was incomplete)")) ++ 10 ∷ [] }
{
    let mut text = Text::new();
    put_fixed(&mut text, newline, b" on line ");
    put_number(&mut text, newline, line);
    put_fixed(&mut text, newline, b" was incomplete)");
    text.put_char(b'\n');
    text
}

/// Writes the line of `\end` for an open conditional, which is this primitive and began on this line.
///
/// *TeX: The Program*, part 51 (`final_cleanup`).
///
/// # Errors
/// A write failed or wanted memory; the sink took a front of the line.
pub fn write_end_in_conditional<S: Sink>(
    out: &mut S,
    in_line: &mut bool,
    view: View<'_>,
    number: u16,
    line: u64,
) -> Result<(), Fault>
    requires { IsView view }
    ensures ok { OnOk result (Took (S.told out.old) (S.told out.new) in_line.old in_line.new (end_in_conditional (style_of view.entry) number line)) }
    ensures err { IfErr result (λ fault. TookFront (S.told out.old) (S.told out.new) in_line.old in_line.new (end_in_conditional (style_of view.entry) number line) fault) }
{
    let before = end_words(view);
    let behind = begun_words(view.names.newline, line);
    put_around(
        out,
        in_line,
        before.bytes(),
        show_primitive(view, number),
        behind.bytes(),
    )
}

/// A fresh line, and where groups are open, the line that says in how many of them `\end` came.
pub fn end_lines(view: View<'_>, in_line: bool, depth: u32) -> Text
    requires { IsView view }
    ensures { result ≡ fresh_line in_line ++ (if depth == 0 then [] else end_in_group (style_of view.entry) depth) }
{
    let mut text = fresh_line(in_line);
    if depth > 0 {
        put_depth(&mut text, view, depth);
    }
    text
}

/// The lines of a run that comes to the end of its file, on a fresh line.
pub fn no_end_lines(view: View<'_>, in_line: bool) -> Text
    ensures { result ≡ fresh_line in_line ++ (emergency (style_of view.entry) ++ no_end_line (style_of view.entry)) }
{
    let mut text = fresh_line(in_line);
    put_line(&mut text, view, b"! Emergency stop.");
    put_line(&mut text, view, b"*** (job aborted, no legal \\end found)");
    text
}

/// The lines behind the report that a job's file isn't held.
pub fn no_file_lines(view: View<'_>) -> Text
    ensures { result ≡ emergency (style_of view.entry) ++ no_file_line (style_of view.entry) }
{
    let mut text = Text::new();
    put_line(&mut text, view, b"! Emergency stop.");
    put_line(
        &mut text,
        view,
        b"*** (job aborted, file error in nonstop mode)",
    );
    text
}
