// Reports.
ghost use Rattle.std.specs.Prelude.{◌≡◌, ◌≤◌, ◌+◌, ◌∷◌, ◌++◌, [], ℕ, ℤ, codes, length, OnOk, IfErr, IfSome, IsTrue};
ghost use Rattle.std.specs.Fmt.{decimal};
ghost use Rattle.plain_state.specs.Reports.{fresh_line, unit_taken, second_line, report_bytes, error_message_bytes, missing_file_bytes};
ghost use Rattle.token_lists.specs.Table.{IsHeld};
ghost use Rattle.token_lists.specs.Ids.{build_id};
ghost use Rattle.plain_tokens.specs.Printed.{Style, escaped, primitive_word, printed_all};
ghost use Rattle.token_show.specs.Bytes.{all_printed};
ghost use Rattle.token_show.specs.Views.{style_of, build_tokens, IsView};
ghost use Rattle.transcript.specs.Given.{tokens_given};
ghost use Rattle.transcript.specs.Plain.{is_plain};
ghost use Rattle.transcript.specs.Reported.{opening, prefix_opening, ended_opening, forbidden_opening, subject, closing_words, closing_printed, closing_name, IsFixed};
ghost use Rattle.transcript.specs.Taken.{Took, TookFront};

use crate::fixed::{fresh_line, put_escape, put_fixed, put_number, put_signed};
use crate::message::show_given;
use crate::said::{Said, SaidParts};
use crate::writing::{ends_in_line, put_around, put_said};
use char_text::Text;
use tex_defs::Meaning;
use tex_syntax::{Report, Scanned, UnitTaken};
use token_lists::Build;
use token_show::{Shown, View, meaning_head, name_text, show_bytes};
use world_io::{Fault, Sink};

// What stands before a report: a line feed, where the column isn't 0, and the mark of a report.
fn report_mark(newline: i32, in_line: bool) -> Text
    ensures text { result ≡ fresh_line in_line ++ all_printed newline (codes "! ") }
    ensures short { length result ≤ 3 }
{
    let mut text = fresh_line(in_line);
    put_fixed(&mut text, newline, b"! ");
    text
}

// Puts the report of a character's code.
fn put_bad_code(text: &mut Text, newline: i32, n: i32)
    requires { length text.old ≤ 3 }
    ensures { (style : Style) → text.new ≡ text.old ++ all_printed newline (opening style (Report.BadCharacterCode n)) }
{
    put_fixed(text, newline, b"Bad character code (");
    put_signed(text, newline, n);
    put_fixed(text, newline, b")");
}

// Puts the report of a register's number.
fn put_bad_register(text: &mut Text, newline: i32, n: i32)
    requires { length text.old ≤ 3 }
    ensures { (style : Style) → text.new ≡ text.old ++ all_printed newline (opening style (Report.BadRegisterCode n)) }
{
    put_fixed(text, newline, b"Bad register code (");
    put_signed(text, newline, n);
    put_fixed(text, newline, b")");
}

// Puts the report of the code of a mathematical character.
fn put_bad_mathchar(text: &mut Text, newline: i32, n: i32)
    requires { length text.old ≤ 3 }
    ensures { (style : Style) → text.new ≡ text.old ++ all_printed newline (opening style (Report.BadMathchar n)) }
{
    put_fixed(text, newline, b"Bad mathchar (");
    put_signed(text, newline, n);
    put_fixed(text, newline, b")");
}

// Puts the first line of the report of a magnification that isn't the earlier one.
fn put_incompatible_magnification(text: &mut Text, newline: i32, n: i32)
    requires { length text.old ≤ 3 }
    ensures { (style : Style) → (earlier : ℕ) → text.new ≡ text.old ++ all_printed newline (opening style (Report.IncompatibleMagnification n earlier)) }
{
    put_fixed(text, newline, b"Incompatible magnification (");
    put_signed(text, newline, n);
    put_fixed(text, newline, b");");
}

// Puts the report of a magnification that is out of its range.
fn put_illegal_magnification(text: &mut Text, newline: i32, n: i32)
    requires { length text.old ≤ 3 }
    ensures { (style : Style) → text.new ≡ text.old ++ all_printed newline (opening style (Report.IllegalMagnification n)) }
{
    put_fixed(
        text,
        newline,
        b"Illegal magnification has been changed to 1000 (",
    );
    put_signed(text, newline, n);
    put_fixed(text, newline, b")");
}

// Puts the report of a code that is out of the range 0 to `greatest`.
fn put_invalid_code(text: &mut Text, newline: i32, n: i32, greatest: u32)
    requires { length text.old ≤ 3 }
    ensures { (style : Style) → text.new ≡ text.old ++ all_printed newline (opening style (Report.InvalidCode n greatest)) }
{
    put_fixed(text, newline, b"Invalid code (");
    put_signed(text, newline, n);
    put_fixed(text, newline, b"), should be in the range 0..");
    put_number(text, newline, u64::from(greatest));
}

// Puts the report of a code that is more than `greatest`.
fn put_great_code(text: &mut Text, newline: i32, n: i32, greatest: u32)
    requires { length text.old ≤ 3 }
    ensures { (style : Style) → text.new ≡ text.old ++ all_printed newline (opening style (Report.CodeTooGreat n greatest)) }
{
    put_fixed(text, newline, b"Invalid code (");
    put_signed(text, newline, n);
    put_fixed(text, newline, b"), should be at most ");
    put_number(text, newline, u64::from(greatest));
}

// Puts the report of `\long` or `\outer` before a command with which they don't go, up to that command.
fn put_prefix(text: &mut Text, view: View<'_>)
    requires names { IsView view }
    requires short { length text.old ≤ 3 }
    ensures { text.new ≡ text.old ++ all_printed view.entry.names.newline (prefix_opening (style_of view.entry)) }
{
    put_fixed(text, view.names.newline, b"You can't use `");
    put_escape(text, view);
    put_fixed(text, view.names.newline, b"long' or `");
    put_escape(text, view);
    put_fixed(text, view.names.newline, b"outer' with `");
}

// Puts these characters, and a word behind the escape character.
fn put_word(text: &mut Text, view: View<'_>, before: &[u8], word: &[u8])
    requires names { IsView view }
    requires plain { IsTrue (is_plain before.now) }
    requires plain_word { IsTrue (is_plain word.now) }
    requires room { length text.old + length before.now + length word.now ≤ 70 }
    ensures { text.new ≡ text.old ++ all_printed view.entry.names.newline (before.now ++ escaped (style_of view.entry) word.now) }
{
    put_fixed(text, view.names.newline, before);
    put_escape(text, view);
    put_fixed(text, view.names.newline, word);
}

// What stands before the name where a file ended.
fn ended_while(what: Scanned) -> &'static [u8]
    ensures text { result.now ≡ ended_opening what }
    ensures plain { IsTrue (is_plain result.now) }
    ensures short { length result.now ≤ 60 }
{
    match what {
        Scanned::Definition => b"File ended while scanning definition of ",
        Scanned::Use => b"File ended while scanning use of ",
        Scanned::Text => b"File ended while scanning text of ",
    }
}

// What stands before the name where the name of an `\outer` macro came.
fn forbidden_while(what: Scanned) -> &'static [u8]
    ensures text { result.now ≡ forbidden_opening what }
    ensures plain { IsTrue (is_plain result.now) }
    ensures short { length result.now ≤ 70 }
{
    match what {
        Scanned::Definition => b"Forbidden control sequence found while scanning definition of ",
        Scanned::Use => b"Forbidden control sequence found while scanning use of ",
        Scanned::Text => b"Forbidden control sequence found while scanning text of ",
    }
}

// The report of an illegal unit, by what is taken in its place.
fn illegal_unit(taken: UnitTaken) -> &'static [u8]
    ensures text { result.now ≡ codes "Illegal unit of measure (" ++ (unit_taken taken ++ codes ")") }
    ensures plain { IsTrue (is_plain result.now) }
    ensures short { length result.now ≤ 70 }
{
    match taken {
        UnitTaken::Pt => b"Illegal unit of measure (pt inserted)",
        UnitTaken::Mu => b"Illegal unit of measure (mu inserted)",
        UnitTaken::Filll => b"Illegal unit of measure (replaced by filll)",
    }
}

// A report's text, up to the name or meaning in it, where no number and no escape character stands in it.
fn fixed_opening(report: Report) -> &'static [u8]
    requires { IsFixed report }
    ensures text { (style : Style) → result.now ≡ opening style report }
    ensures plain { IsTrue (is_plain result.now) }
    ensures short { length result.now ≤ 70 }
{
    match report {
        Report::UndefinedName => b"Undefined control sequence",
        Report::InvalidCharacter => b"Text line contains an invalid character",
        Report::ImproperConstant => b"Improper alphabetic constant",
        Report::MissingNumber => b"Missing number, treated as zero",
        Report::NumberTooBig => b"Number too big",
        Report::CantUseAfter(_, _) => b"You can't use `",
        Report::DimensionTooLarge => b"Dimension too large",
        Report::IllegalUnit(taken) => illegal_unit(taken),
        Report::ArithmeticOverflow => b"Arithmetic overflow",
        Report::IncompatibleUnits => b"Incompatible glue units",
        Report::MissingBrace => b"Missing { inserted",
        Report::FileEnded(what, _) => ended_while(what),
        Report::Forbidden(what, _) => forbidden_while(what),
        Report::MissingName => b"Missing control sequence inserted",
        Report::NotConsecutive => b"Parameters must be numbered consecutively",
        Report::AlreadyNine => b"You already have nine parameters",
        Report::IllegalNumber(_) => b"Illegal parameter number in definition of ",
        Report::UseMismatch(_) => b"Use of ",
        Report::ExtraBrace(_) => b"Argument of ",
        Report::ParagraphEnded(_) => b"Paragraph ended before ",
        Report::PrefixWith(_) => b"You can't use a prefix with `",
        Report::TooManyBraces => b"Too many }'s",
        Report::MissingRightBrace => b"Missing } inserted",
        Report::MissingRelation(_) => b"Missing = inserted for ",
        Report::ExtraFiOrElse(_) => b"Extra ",
        Report::IncompleteConditional(_, _) => b"Incomplete ",
        Report::BadCharacterCode(_)
        | Report::BadRegisterCode(_)
        | Report::BadMathchar(_)
        | Report::IncompatibleMagnification(_, _)
        | Report::IllegalMagnification(_)
        | Report::InvalidCode(_, _)
        | Report::CodeTooGreat(_, _)
        | Report::LongOrOuterWith(_)
        | Report::MissingEndcsname
        | Report::ExtraEndcsname
        | Report::ForgottenEndgroup
        | Report::ExtraEndgroup => b"",
    }
}

// Puts a report's text, up to the name or meaning in it.
fn put_opening(text: &mut Text, view: View<'_>, report: Report)
    requires names { IsView view }
    requires short { length text.old ≤ 3 }
    ensures { text.new ≡ text.old ++ all_printed view.entry.names.newline (opening (style_of view.entry) report) }
{
    match report {
        Report::BadCharacterCode(n) => put_bad_code(text, view.names.newline, n),
        Report::BadRegisterCode(n) => put_bad_register(text, view.names.newline, n),
        Report::BadMathchar(n) => put_bad_mathchar(text, view.names.newline, n),
        Report::IncompatibleMagnification(n, _) => {
            put_incompatible_magnification(text, view.names.newline, n);
        }
        Report::IllegalMagnification(n) => put_illegal_magnification(text, view.names.newline, n),
        Report::InvalidCode(n, greatest) => put_invalid_code(text, view.names.newline, n, greatest),
        Report::CodeTooGreat(n, greatest) => put_great_code(text, view.names.newline, n, greatest),
        Report::LongOrOuterWith(_) => put_prefix(text, view),
        Report::MissingEndcsname => put_word(text, view, b"Missing ", b"endcsname inserted"),
        Report::ExtraEndcsname => put_word(text, view, b"Extra ", b"endcsname"),
        Report::ForgottenEndgroup => {
            put_word(text, view, b"Extra }, or forgotten ", b"endgroup");
        }
        Report::ExtraEndgroup => put_word(text, view, b"Extra ", b"endgroup"),
        other => put_fixed(text, view.names.newline, fixed_opening(other)),
    }
}

// The name of a primitive.
pub(crate) fn show_primitive<'a>(view: View<'a>, number: u16) -> Shown<'a>
    requires { IsView view }
    ensures { result ≡ printed_all (style_of view.entry) (escaped (style_of view.entry) (primitive_word number)) }
{
    meaning_head(view, &Meaning::<()>::Prim(number))
}

// The name or meaning in a report's text, if there is one.
fn show_subject<'a>(view: View<'a>, report: Report) -> Shown<'a>
    requires { IsView view }
    ensures { result ≡ printed_all (style_of view.entry) (subject (style_of view.entry) report) }
{
    match report {
        Report::FileEnded(_, name)
        | Report::Forbidden(_, name)
        | Report::IllegalNumber(name)
        | Report::UseMismatch(name)
        | Report::ExtraBrace(name)
        | Report::ParagraphEnded(name) => name_text(view, name),
        Report::PrefixWith(meaning)
        | Report::LongOrOuterWith(meaning)
        | Report::CantUseAfter(meaning, _) => meaning_head(view, &meaning),
        Report::MissingRelation(number)
        | Report::ExtraFiOrElse(number)
        | Report::IncompleteConditional(number, _) => show_primitive(view, number),
        _ => show_bytes(view, b""),
    }
}

// What stands in a report's text behind the name or meaning in it, up to a number.
fn closing_words(report: Report) -> &'static [u8]
    ensures text { result.now ≡ closing_words report }
    ensures plain { IsTrue (is_plain result.now) }
    ensures short { length result.now ≤ 40 }
{
    match report {
        Report::PrefixWith(_) | Report::LongOrOuterWith(_) => b"'",
        Report::CantUseAfter(_, _) => b"' after ",
        Report::UseMismatch(_) => b" doesn't match its definition",
        Report::ExtraBrace(_) => b" has an extra }",
        Report::ParagraphEnded(_) => b" was complete",
        Report::IncompleteConditional(_, _) => b"; all text was ignored after line ",
        _ => b"",
    }
}

// The second line of the report of a magnification that isn't the earlier one, printed, up to its dot.
fn retained_text(newline: i32, in_line: bool, earlier: u16) -> Text
    ensures { (n : ℤ) → result ≡ fresh_line in_line ++ all_printed newline (second_line (Report.IncompatibleMagnification n earlier)) }
{
    let mut text = fresh_line(in_line);
    put_fixed(
        &mut text,
        newline,
        b" the previous value will be retained (",
    );
    put_number(&mut text, newline, u64::from(earlier));
    put_fixed(&mut text, newline, b")");
    text
}

// What stands in a report behind the name or meaning in its text, printed: of a report with a second line all of that line
// but the dot, behind a line feed where the column isn't 0.
fn closing_text(newline: i32, in_line: bool, report: Report) -> Text
    ensures { result ≡ closing_printed newline in_line report }
{
    match report {
        Report::IncompatibleMagnification(_, earlier) => retained_text(newline, in_line, earlier),
        other => {
            let mut text = Text::new();
            put_fixed(&mut text, newline, closing_words(other));
            if let Report::IncompleteConditional(_, line) = other {
                put_number(&mut text, newline, line);
            }
            text
        }
    }
}

// The name of a primitive that closes a report's text, if there is one.
fn show_closing_name<'a>(view: View<'a>, report: Report) -> Shown<'a>
    requires { IsView view }
    ensures { result ≡ printed_all (style_of view.entry) (closing_name (style_of view.entry) report) }
{
    match report {
        Report::CantUseAfter(_, number) => show_primitive(view, number),
        _ => show_bytes(view, b""),
    }
}

// What stands behind a report: what closes it, and the number of the line that is being read.
pub(crate) fn line_number(newline: i32, close: &[u8], line: u64) -> Text
    requires plain { IsTrue (is_plain close.now) }
    requires short { length close.now ≤ 30 }
    ensures { result ≡ all_printed newline close.now ++ (all_printed newline (codes ".") ++ (10 ∷ (all_printed newline (codes "l.") ++ (all_printed newline (decimal line) ++ 10 ∷ [])))) }
{
    let mut text = Text::new();
    put_fixed(&mut text, newline, close);
    put_fixed(&mut text, newline, b".");
    text.put_char(b'\n');
    put_fixed(&mut text, newline, b"l.");
    put_number(&mut text, newline, line);
    text.put_char(b'\n');
    text
}

/// Writes a report on a fresh line, its second line, where it has one, on another, and then the number of the line that is being
/// read, 0 where there is none.
///
/// *TeX: The Program*, part 6 (`error`).
///
/// # Errors
/// A write failed or wanted memory; the sink took a front of the report.
pub fn write_report<S: Sink>(
    out: &mut S,
    in_line: &mut bool,
    view: View<'_>,
    line: u64,
    report: Report,
) -> Result<(), Fault>
    requires { IsView view }
    ensures ok { OnOk result (Took (S.told out.old) (S.told out.new) in_line.old in_line.new (report_bytes (style_of view.entry) in_line.old line report)) }
    ensures err { IfErr result (λ fault. TookFront (S.told out.old) (S.told out.new) in_line.old in_line.new (report_bytes (style_of view.entry) in_line.old line report) fault) }
{
    let mut before = report_mark(view.names.newline, *in_line);
    put_opening(&mut before, view, report);
    let opened = before.bytes();
    let in_opened = ends_in_line(*in_line, opened);
    let close = closing_text(view.names.newline, in_opened, report);
    let behind = line_number(view.names.newline, b"", line);
    let text = Said::new(opened, show_subject(view, report), close.bytes());
    let last = Said::new(b"", show_closing_name(view, report), behind.bytes());
    put_said(out, in_line, SaidParts::two(text, last))
}

/// Writes a report whose text is a list as a message has it, no tokens where there is no list, and then the number of the line
/// that is being read.
///
/// *The TeXbook*, chapter 24 (`\errmessage`); *TeX: The Program*, part 49 (`issue_message`).
///
/// # Errors
/// A write failed or wanted memory; the sink took a front of the report.
pub fn write_error_message<S: Sink>(
    out: &mut S,
    in_line: &mut bool,
    view: View<'_>,
    line: u64,
    list: Option<&Build>,
) -> Result<(), Fault>
    requires names { IsView view }
    requires held { IfSome list (λ build. IsHeld view.lists.now (build_id build.now)) }
    ensures ok { OnOk result (Took (S.told out.old) (S.told out.new) in_line.old in_line.new (error_message_bytes (style_of view.entry) in_line.old line (tokens_given (λ build. build_tokens view.entry build.now) list.entry))) }
    ensures err { IfErr result (λ fault. TookFront (S.told out.old) (S.told out.new) in_line.old in_line.new (error_message_bytes (style_of view.entry) in_line.old line (tokens_given (λ build. build_tokens view.entry build.now) list.entry)) fault) }
{
    let before = report_mark(view.names.newline, *in_line);
    let behind = line_number(view.names.newline, b"", line);
    put_around(
        out,
        in_line,
        before.bytes(),
        show_given(view, list),
        behind.bytes(),
    )
}

/// Writes the report that a file isn't held, with its name printed, and the number of the line that is read.
///
/// # Errors
/// A write failed or wanted memory; the sink took a front of the report.
pub fn write_missing_file<S: Sink>(
    out: &mut S,
    in_line: &mut bool,
    view: View<'_>,
    line: u64,
    file: &[u8],
) -> Result<(), Fault>
    requires { IsView view }
    ensures ok { OnOk result (Took (S.told out.old) (S.told out.new) in_line.old in_line.new (missing_file_bytes (style_of view.entry) in_line.old line file.now)) }
    ensures err { IfErr result (λ fault. TookFront (S.told out.old) (S.told out.new) in_line.old in_line.new (missing_file_bytes (style_of view.entry) in_line.old line file.now) fault) }
{
    let mut before = report_mark(view.names.newline, *in_line);
    put_fixed(&mut before, view.names.newline, b"I can't find file `");
    let behind = line_number(view.names.newline, b"'", line);
    put_around(
        out,
        in_line,
        before.bytes(),
        show_bytes(view, file),
        behind.bytes(),
    )
}
