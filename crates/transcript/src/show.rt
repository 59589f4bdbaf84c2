// What `\show` and `\showthe` write.
ghost use Rattle.std.specs.Prelude.{◌≡◌, ◌≤◌, ◌++◌, codes, length, OnOk, IfErr, IfSome, IsTrue};
ghost use Rattle.token_lists.specs.Table.{IsHeld};
ghost use Rattle.token_lists.specs.Ids.{id_of};
ghost use Rattle.plain_tokens.specs.Printed.{printed_all, shown_all};
ghost use Rattle.plain_state.specs.Reports.{fresh_line, macro_feed, shown_meaning_bytes, shown_value_bytes};
ghost use Rattle.token_show.specs.Bytes.{all_printed};
ghost use Rattle.token_show.specs.Views.{style_of, list_tokens, IsView};
ghost use Rattle.transcript.specs.Given.{tokens_given};
ghost use Rattle.transcript.specs.Plain.{is_plain};
ghost use Rattle.transcript.specs.Reported.{token_name, equals_behind};
ghost use Rattle.transcript.specs.Taken.{Took, TookFront};

use crate::fixed::{fresh_line, put_fixed};
use crate::report::line_number;
use crate::said::{Said, SaidParts};
use crate::writing::put_said;
use char_text::Text;
use tex_defs::{Meaning, Token};
use token_lists::ListRef;
use token_show::{Shown, View, meaning_head, name_text, show_bytes, show_list};
use world_io::{Fault, Sink};

// What stands before all: a line feed, where the column isn't 0, and the mark of what is shown.
fn shown_mark(newline: i32, in_line: bool) -> Text
    ensures { result ≡ fresh_line in_line ++ all_printed newline (codes "> ") }
{
    let mut text = fresh_line(in_line);
    put_fixed(&mut text, newline, b"> ");
    text
}

// A token that is a name, and nothing of another.
fn show_name<'a>(view: View<'a>, token: Token) -> Shown<'a>
    requires { IsView view }
    ensures { result ≡ printed_all (style_of view.entry) (token_name (style_of view.entry) token) }
{
    match token {
        Token::Named(name) | Token::Marked(name) => name_text(view, name),
        _ => show_bytes(view, b""),
    }
}

// What stands between a name and its meaning.
fn equals_behind(token: Token) -> &'static [u8]
    ensures text { result.now ≡ equals_behind token }
    ensures plain { IsTrue (is_plain result.now) }
    ensures short { length result.now ≤ 1 }
{
    match token {
        Token::Named(_) | Token::Marked(_) => b"=",
        _ => b"",
    }
}

// The same, printed.
fn equals_text(newline: i32, token: Token) -> Text
    ensures { result ≡ all_printed newline (equals_behind token) }
{
    let mut text = Text::new();
    put_fixed(&mut text, newline, equals_behind(token));
    text
}

// The line feed behind `macro:`.
fn macro_feed(meaning: Meaning<()>) -> &'static [u8]
    ensures { result.now ≡ macro_feed meaning }
{
    match meaning {
        Meaning::Macro {
            long: _,
            outer: _,
            list: (),
        } => b"\n",
        _ => b"",
    }
}

// The tokens of a macro's list shown, and nothing where there is no list.
fn show_listed<'a>(view: View<'a>, list: Option<&'a ListRef>) -> Shown<'a>
    requires names { IsView view }
    requires held { IfSome list (λ r. IsHeld view.lists.now (id_of r.now)) }
    ensures { result ≡ shown_all (style_of view.entry) (tokens_given (λ r. list_tokens view.entry r.now) list.entry) }
{
    match list {
        Some(list) => show_list(view, list),
        None => show_bytes(view, b""),
    }
}

/// Writes what a token means, on a fresh line, of a macro with the tokens of its list, and then the number of the line that is
/// being read. Only a macro has a list.
///
/// *The TeXbook*, chapter 24 (`\show`); *TeX: The Program*, part 49 (`show_whatever`).
///
/// # Errors
/// A write failed or wanted memory; the sink took a front of the text.
pub fn write_shown_meaning<S: Sink>(
    out: &mut S,
    in_line: &mut bool,
    view: View<'_>,
    line: u64,
    token: Token,
    meaning: Meaning<()>,
    list: Option<&ListRef>,
) -> Result<(), Fault>
    requires names { IsView view }
    requires held { IfSome list (λ r. IsHeld view.lists.now (id_of r.now)) }
    ensures ok { OnOk result (Took (S.told out.old) (S.told out.new) in_line.old in_line.new (shown_meaning_bytes (style_of view.entry) in_line.old line token meaning (tokens_given (λ r. list_tokens view.entry r.now) list.entry))) }
    ensures err { IfErr result (λ fault. TookFront (S.told out.old) (S.told out.new) in_line.old in_line.new (shown_meaning_bytes (style_of view.entry) in_line.old line token meaning (tokens_given (λ r. list_tokens view.entry r.now) list.entry)) fault) }
{
    let mark = shown_mark(view.names.newline, *in_line);
    let equals = equals_text(view.names.newline, token);
    let behind = line_number(view.names.newline, b"", line);
    let name = Said::new(mark.bytes(), show_name(view, token), equals.bytes());
    let head = Said::new(b"", meaning_head(view, &meaning), macro_feed(meaning));
    let tokens = Said::new(b"", show_listed(view, list), behind.bytes());
    put_said(out, in_line, SaidParts::three(name, head, tokens))
}

/// Writes a value, on a fresh line: its text, or the tokens of its list, and then the number of the line that is being read. A value
/// with a list has no text, and a text of another value no list.
///
/// *The TeXbook*, chapter 24 (`\showthe`); *TeX: The Program*, part 49 (`show_whatever`).
///
/// # Errors
/// A write failed or wanted memory; the sink took a front of the text.
pub fn write_shown_value<S: Sink>(
    out: &mut S,
    in_line: &mut bool,
    view: View<'_>,
    line: u64,
    text: &[u8],
    list: Option<&ListRef>,
) -> Result<(), Fault>
    requires names { IsView view }
    requires held { IfSome list (λ r. IsHeld view.lists.now (id_of r.now)) }
    ensures ok { OnOk result (Took (S.told out.old) (S.told out.new) in_line.old in_line.new (shown_value_bytes (style_of view.entry) in_line.old line text.now (tokens_given (λ r. list_tokens view.entry r.now) list.entry))) }
    ensures err { IfErr result (λ fault. TookFront (S.told out.old) (S.told out.new) in_line.old in_line.new (shown_value_bytes (style_of view.entry) in_line.old line text.now (tokens_given (λ r. list_tokens view.entry r.now) list.entry)) fault) }
{
    let mark = shown_mark(view.names.newline, *in_line);
    let behind = line_number(view.names.newline, b"", line);
    let value = Said::new(mark.bytes(), show_bytes(view, text), b"");
    let tokens = Said::new(b"", show_listed(view, list), behind.bytes());
    put_said(out, in_line, SaidParts::two(value, tokens))
}
