// Messages, token lines and runaway texts.
ghost use Rattle.std.specs.Prelude.{◌≡◌, ◌≤◌, ◌++◌, ◌∷◌, codes, length, OnOk, IfErr, IfSome, IsTrue, if◌then◌else◌, []};
ghost use Rattle.token_lists.specs.Table.{IsHeld};
ghost use Rattle.token_lists.specs.Ids.{build_id};
ghost use Rattle.plain_tokens.specs.Printed.{shown_all};
ghost use Rattle.plain_state.specs.Reports.{fresh_line, message_bytes, token_line_bytes, runaway_word, runaway_bytes};
ghost use Rattle.token_show.specs.Bytes.{all_printed};
ghost use Rattle.token_show.specs.Views.{style_of, build_tokens, IsView};
ghost use Rattle.transcript.specs.Given.{tokens_given};
ghost use Rattle.transcript.specs.Plain.{is_plain};
ghost use Rattle.transcript.specs.Taken.{Took, TookFront};

use crate::fixed::{fresh_line, put_fixed};
use crate::writing::put_around;
use char_text::Text;
use tex_defs::Meaning;
use tex_syntax::Scanned;
use token_lists::Build;
use token_show::{Shown, View, meaning_head, show_built, show_bytes, show_runaway};
use world_io::{Fault, Sink};

// The tokens of a list shown, and nothing where there is no list.
pub(crate) fn show_given<'a>(view: View<'a>, list: Option<&'a Build>) -> Shown<'a>
    requires names { IsView view }
    requires held { IfSome list (λ build. IsHeld view.lists.now (build_id build.now)) }
    ensures { result ≡ shown_all (style_of view.entry) (tokens_given (λ build. build_tokens view.entry build.now) list.entry) }
{
    match list {
        Some(build) => show_built(view, build),
        None => show_bytes(view, b""),
    }
}

/// Writes a message: a space where the column isn't 0, and a list as it is shown; no tokens where there is no list.
///
/// *The TeXbook*, chapter 24 (`\message`).
///
/// # Errors
/// A write failed or wanted memory; the sink took a front of the message.
pub fn write_message<S: Sink>(
    out: &mut S,
    in_line: &mut bool,
    view: View<'_>,
    list: Option<&Build>,
) -> Result<(), Fault>
    requires names { IsView view }
    requires held { IfSome list (λ build. IsHeld view.lists.now (build_id build.now)) }
    ensures ok { OnOk result (Took (S.told out.old) (S.told out.new) in_line.old in_line.new (message_bytes (style_of view.entry) in_line.old (tokens_given (λ build. build_tokens view.entry build.now) list.entry))) }
    ensures err { IfErr result (λ fault. TookFront (S.told out.old) (S.told out.new) in_line.old in_line.new (message_bytes (style_of view.entry) in_line.old (tokens_given (λ build. build_tokens view.entry build.now) list.entry)) fault) }
{
    let mut space = Text::new();
    if *in_line {
        put_fixed(&mut space, view.names.newline, b" ");
    }
    put_around(out, in_line, space.bytes(), show_given(view, list), b"")
}

/// Writes the line for a token that only typesetting would use: its meaning in braces, on a line of its own.
///
/// # Errors
/// A write failed or wanted memory; the sink took a front of the line.
pub fn write_token_line<S: Sink>(
    out: &mut S,
    in_line: &mut bool,
    view: View<'_>,
    meaning: Meaning<()>,
) -> Result<(), Fault>
    requires { IsView view }
    ensures ok { OnOk result (Took (S.told out.old) (S.told out.new) in_line.old in_line.new (token_line_bytes (style_of view.entry) in_line.old meaning)) }
    ensures err { IfErr result (λ fault. TookFront (S.told out.old) (S.told out.new) in_line.old in_line.new (token_line_bytes (style_of view.entry) in_line.old meaning) fault) }
{
    let mut before = fresh_line(*in_line);
    put_fixed(&mut before, view.names.newline, b"{");
    let mut behind = Text::new();
    put_fixed(&mut behind, view.names.newline, b"}");
    behind.put_char(b'\n');
    put_around(
        out,
        in_line,
        before.bytes(),
        meaning_head(view, &meaning),
        behind.bytes(),
    )
}

// What runs away.
fn runaway_words(what: Scanned) -> &'static [u8]
    ensures text { result.now ≡ codes "Runaway " ++ (runaway_word what ++ codes "?") }
    ensures plain { IsTrue (is_plain result.now) }
    ensures short { length result.now ≤ 20 }
{
    match what {
        Scanned::Definition => b"Runaway definition?",
        Scanned::Use => b"Runaway argument?",
        Scanned::Text => b"Runaway text?",
    }
}

// The line before a definition, an argument or a text that runs away.
fn runaway_head(what: Scanned, newline: i32, in_line: bool) -> Text
    ensures { result ≡ fresh_line in_line ++ (all_printed newline (codes "Runaway " ++ (runaway_word what ++ codes "?")) ++ 10 ∷ []) }
{
    let mut head = fresh_line(in_line);
    put_fixed(&mut head, newline, runaway_words(what));
    head.put_char(b'\n');
    head
}

/// What is shown of a definition, an argument or a text that runs away without a token.
pub fn empty_runaway(what: Scanned, view: View<'_>, in_line: bool) -> Text
    ensures { result ≡ runaway_bytes what (style_of view.entry) in_line [] }
{
    runaway_head(what, view.names.newline, in_line)
}

/// Writes what was built of a list whose definition, argument or text runs away, on a fresh line.
///
/// *TeX: The Program*, part 22 (`runaway`).
///
/// # Errors
/// A write failed or wanted memory; the sink took a front of the text.
pub fn write_runaway<S: Sink>(
    out: &mut S,
    in_line: &mut bool,
    view: View<'_>,
    what: Scanned,
    build: &Build,
) -> Result<(), Fault>
    requires names { IsView view }
    requires held { IsHeld view.lists.now (build_id build.now) }
    ensures ok { OnOk result (Took (S.told out.old) (S.told out.new) in_line.old in_line.new (runaway_bytes what (style_of view.entry) in_line.old (build_tokens view.entry build.now))) }
    ensures err { IfErr result (λ fault. TookFront (S.told out.old) (S.told out.new) in_line.old in_line.new (runaway_bytes what (style_of view.entry) in_line.old (build_tokens view.entry build.now)) fault) }
{
    let head = runaway_head(what, view.names.newline, *in_line);
    put_around(out, in_line, head.bytes(), show_runaway(view, build), b"")
}
