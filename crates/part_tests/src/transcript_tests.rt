// What `\show`, `\showthe`, `\errmessage` and reports write, and the lines of a run's ends.
ghost use Rattle.std.specs.Prelude.{◌≡◌};
ghost use Rattle.token_lists.specs.Table.{IsHeld};
ghost use Rattle.token_lists.specs.Ids.{build_id, id_of};
ghost use Rattle.token_show.specs.Views.{IsView};
ghost use Rattle.cs_hash.specs.Names.{Knows};

use crate::tables::Tables;
use crate::token_show_tests::{BRACKETS, append_all, categories};
use char_text::Text;
use std::alloc::Global;
use tex_defs::{Meaning, Name, Token};
use tex_syntax::{Report, UnitTaken};
use token_lists::{Build, ListRef};
use token_show::{NamesView, View};
use transcript::{
    end_lines, hundred_line, no_end_lines, no_file_lines, write_end_in_conditional,
    write_error_message, write_message, write_report, write_shown_meaning, write_shown_value,
    write_token_line,
};
use world_io::MemSink;

const LONG: Meaning<()> = Meaning::Macro {
    long: true,
    outer: false,
    list: (),
};

// The names and lists of these tables at INITEX's parameters: a backslash is the escape character, and 0 the newline character.
fn view_of<'a>(tables: &'a Tables, categories: &'a [u8; 256]) -> View<'a>
    requires { Knows tables.now.hash tables.now.pool.kept }
    ensures names { IsView result }
    ensures lists { result.lists.now ≡ tables.now.lists }
{
    View {
        lists: &tables.lists,
        names: NamesView {
            hash: &tables.hash,
            pool: &tables.pool,
            categories,
            escape: 92,
            newline: 0,
        },
    }
}

// Whether this is shown of a token on line 2, at the beginning of a line, where it is no macro.
fn is_shown(
    view: View<'_>,
    mut sink: MemSink,
    token: Token,
    meaning: Meaning<()>,
    wanted: &[u8],
) -> bool
    requires { IsView view }
{
    let mut in_line = false;
    write_shown_meaning(&mut sink, &mut in_line, view, 2, token, meaning, None).is_ok()
        && !in_line
        && sink.calls() == 1
        && sink.bytes() == wanted
}

// Whether this is written of a macro with this list on line 7, where the column isn't 0.
fn is_macro_shown(view: View<'_>, mut sink: MemSink, list: &ListRef, wanted: &[u8]) -> bool
    requires names { IsView view }
    requires held { IsHeld view.lists.now (id_of list.now) }
{
    let foo = Token::Named(Name::Word(1));
    let mut in_line = true;
    write_shown_meaning(&mut sink, &mut in_line, view, 7, foo, LONG, Some(list)).is_ok()
        && sink.calls() == 1
        && sink.bytes() == wanted
}

// Whether this is shown of a number on line 2, at the beginning of a line.
fn is_number_shown(view: View<'_>, mut sink: MemSink, number: &[u8], wanted: &[u8]) -> bool
    requires { IsView view }
{
    let mut in_line = false;
    write_shown_value(&mut sink, &mut in_line, view, 2, number, None).is_ok()
        && !in_line
        && sink.bytes() == wanted
}

// Whether this is shown of a register with this list on line 7, where the column isn't 0.
fn is_register_shown(view: View<'_>, mut sink: MemSink, list: &ListRef, wanted: &[u8]) -> bool
    requires names { IsView view }
    requires held { IsHeld view.lists.now (id_of list.now) }
{
    let mut in_line = true;
    write_shown_value(&mut sink, &mut in_line, view, 7, b"", Some(list)).is_ok()
        && !in_line
        && sink.bytes() == wanted
}

// Whether this is written of a list that is the text of a report on line 3.
fn is_message(view: View<'_>, mut sink: MemSink, list: &Build, wanted: &[u8]) -> bool
    requires names { IsView view }
    requires held { IsHeld view.lists.now (build_id list.now) }
{
    let mut in_line = false;
    write_error_message(&mut sink, &mut in_line, view, 3, Some(list)).is_ok()
        && sink.calls() == 1
        && sink.bytes() == wanted
}

// Whether this is written of a message with this list, where the column isn't 0.
fn is_written(view: View<'_>, mut sink: MemSink, list: &Build, wanted: &[u8]) -> bool
    requires names { IsView view }
    requires held { IsHeld view.lists.now (build_id list.now) }
{
    let mut in_line = true;
    write_message(&mut sink, &mut in_line, view, Some(list)).is_ok()
        && in_line
        && sink.calls() == 1
        && sink.bytes() == wanted
}

// Whether this is written of a token with this meaning, which only typesetting would use, where the column isn't 0.
fn is_token_line(view: View<'_>, mut sink: MemSink, meaning: Meaning<()>, wanted: &[u8]) -> bool
    requires { IsView view }
{
    let mut in_line = true;
    write_token_line(&mut sink, &mut in_line, view, meaning).is_ok()
        && !in_line
        && sink.calls() == 1
        && sink.bytes() == wanted
}

// Whether this is written of a report on line 5.
fn is_report(view: View<'_>, mut sink: MemSink, report: Report, wanted: &[u8]) -> bool
    requires { IsView view }
{
    let mut in_line = false;
    write_report(&mut sink, &mut in_line, view, 5, report).is_ok()
        && sink.calls() == 1
        && sink.bytes() == wanted
}

// Whether tokens are shown that are no macros, and a number, and an extra `\endcsname` is reported.
fn are_tokens_shown(alloc: Global, tables: &Tables) -> bool
    requires { Knows tables.now.hash tables.now.pool.kept }
{
    let categories = categories();
    let view = view_of(tables, &categories);
    let undefined = Token::Named(Name::Word(1));
    let letter = Token::Char {
        cat: 11,
        code: b'a',
    };
    let meaning = Meaning::Char {
        cat: 11,
        code: b'a',
    };
    is_shown(
        view,
        MemSink::new(alloc),
        undefined,
        Meaning::Undefined,
        b"> \\undefd=undefined.\nl.2\n",
    ) && is_shown(
        view,
        MemSink::new(alloc),
        letter,
        meaning,
        b"> the letter a.\nl.2\n",
    ) && is_token_line(view, MemSink::new(alloc), meaning, b"\n{the letter a}\n")
        && is_number_shown(view, MemSink::new(alloc), b"-5", b"> -5.\nl.2\n")
        && is_report(
            view,
            MemSink::new(alloc),
            Report::ExtraEndcsname,
            b"! Extra \\endcsname.\nl.5\n",
        )
}

#[test]
fn tokens_shown(rt: HostRuntime) {
    let shown = match Tables::new(rt.alloc(), b"undefd") {
        Ok(tables) => are_tokens_shown(rt.alloc(), &tables),
        Err(_) => false,
    };
    assert!(rt; shown);
}

// The reports of groups that don't match, as TeX words them.
static GROUP_REPORTS: [(Report, &[u8]); 4] = [
    (Report::TooManyBraces, b"! Too many }'s.\nl.5\n"),
    (
        Report::ForgottenEndgroup,
        b"! Extra }, or forgotten \\endgroup.\nl.5\n",
    ),
    (Report::ExtraEndgroup, b"! Extra \\endgroup.\nl.5\n"),
    (Report::MissingRightBrace, b"! Missing } inserted.\nl.5\n"),
];

// The reports of arithmetic, of `\the` and of units, as TeX words them.
static VALUE_REPORTS: [(Report, &[u8]); 8] = [
    (
        Report::BadMathchar(32768),
        b"! Bad mathchar (32768).\nl.5\n",
    ),
    (
        Report::CantUseAfter(Meaning::RelaxMarked, 62),
        b"! You can't use `\\relax' after \\the.\nl.5\n",
    ),
    (
        Report::CantUseAfter(
            Meaning::Char {
                cat: 11,
                code: b'a',
            },
            32,
        ),
        b"! You can't use `the letter a' after \\advance.\nl.5\n",
    ),
    (Report::ArithmeticOverflow, b"! Arithmetic overflow.\nl.5\n"),
    (Report::DimensionTooLarge, b"! Dimension too large.\nl.5\n"),
    (
        Report::IllegalUnit(UnitTaken::Pt),
        b"! Illegal unit of measure (pt inserted).\nl.5\n",
    ),
    (
        Report::IllegalUnit(UnitTaken::Mu),
        b"! Illegal unit of measure (mu inserted).\nl.5\n",
    ),
    (
        Report::IllegalUnit(UnitTaken::Filll),
        b"! Illegal unit of measure (replaced by filll).\nl.5\n",
    ),
];

// The reports of magnifications, as TeX words them.
static MAGNIFICATION_REPORTS: [(Report, &[u8]); 3] = [
    (
        Report::IncompatibleMagnification(2000, 1000),
        b"! Incompatible magnification (2000);\n the previous value will be retained (1000).\nl.5\n",
    ),
    (
        Report::IllegalMagnification(0),
        b"! Illegal magnification has been changed to 1000 (0).\nl.5\n",
    ),
    (
        Report::IllegalMagnification(-1000),
        b"! Illegal magnification has been changed to 1000 (-1000).\nl.5\n",
    ),
];

// The reports of conditionals, as TeX words them: of `\ifnum`, `\else` and `\ifx`.
static CONDITIONAL_REPORTS: [(Report, &[u8]); 3] = [
    (
        Report::MissingRelation(67),
        b"! Missing = inserted for \\ifnum.\nl.5\n",
    ),
    (Report::ExtraFiOrElse(83), b"! Extra \\else.\nl.5\n"),
    (
        Report::IncompleteConditional(77, 2),
        b"! Incomplete \\ifx; all text was ignored after line 2.\nl.5\n",
    ),
];

// Whether they are written like this.
fn are_reported(alloc: Global, tables: &Tables, reports: &[(Report, &[u8])]) -> bool
    requires { Knows tables.now.hash tables.now.pool.kept }
{
    let categories = categories();
    let view = view_of(tables, &categories);
    for (report, wanted) in reports {
        if !is_report(view, MemSink::new(alloc), *report, wanted) {
            return false;
        }
    }
    true
}

#[test]
fn groups_reported(rt: HostRuntime) {
    let reported = match Tables::new(rt.alloc(), b"foo") {
        Ok(tables) => are_reported(rt.alloc(), &tables, &GROUP_REPORTS),
        Err(_) => false,
    };
    assert!(rt; reported);
}

#[test]
fn conditionals_reported(rt: HostRuntime) {
    let reported = match Tables::new(rt.alloc(), b"foo") {
        Ok(tables) => are_reported(rt.alloc(), &tables, &CONDITIONAL_REPORTS),
        Err(_) => false,
    };
    assert!(rt; reported);
}

#[test]
fn magnifications_reported(rt: HostRuntime) {
    let reported = match Tables::new(rt.alloc(), b"foo") {
        Ok(tables) => are_reported(rt.alloc(), &tables, &MAGNIFICATION_REPORTS),
        Err(_) => false,
    };
    assert!(rt; reported);
}

#[test]
fn values_reported(rt: HostRuntime) {
    let reported = match Tables::new(rt.alloc(), b"foo") {
        Ok(tables) => are_reported(rt.alloc(), &tables, &VALUE_REPORTS),
        Err(_) => false,
    };
    assert!(rt; reported);
}

fn is_text(text: Text, wanted: &[u8]) -> bool {
    text.bytes() == wanted
}

// Whether `\end` outside and inside a group leaves these lines.
fn are_end_lines(view: View<'_>) -> bool
    requires { IsView view }
{
    let inside = b"(\\end occurred inside a group at level 1)\n";
    let fresh = b"\n(\\end occurred inside a group at level 1)\n";
    is_text(end_lines(view, false, 0), b"")
        && is_text(end_lines(view, true, 0), b"\n")
        && is_text(end_lines(view, false, 1), inside)
        && is_text(end_lines(view, true, 1), fresh)
}

// Whether `\end` leaves this line where `\iftrue` is open, which began on line 2.
fn is_conditional_left(view: View<'_>, mut sink: MemSink, wanted: &[u8]) -> bool
    requires { IsView view }
{
    let mut in_line = false;
    write_end_in_conditional(&mut sink, &mut in_line, view, 79, 2).is_ok()
        && !in_line
        && sink.bytes() == wanted
}

// Whether these lines come where a run ends without `\end`.
fn are_stops(view: View<'_>) -> bool
    requires { IsView view }
{
    let hundred = b"(That makes 100 errors; please try again.)\n";
    let no_end = b"\n! Emergency stop.\n*** (job aborted, no legal \\end found)\n";
    let no_file = b"! Emergency stop.\n*** (job aborted, file error in nonstop mode)\n";
    is_text(hundred_line(view), hundred)
        && is_text(no_end_lines(view, true), no_end)
        && is_text(no_file_lines(view), no_file)
}

// Whether runs end with these lines.
fn are_ends(alloc: Global, tables: &Tables) -> bool
    requires { Knows tables.now.hash tables.now.pool.kept }
{
    let categories = categories();
    let view = view_of(tables, &categories);
    let left = b"(\\end occurred when \\iftrue on line 2 was incomplete)\n";
    are_end_lines(view) && is_conditional_left(view, MemSink::new(alloc), left) && are_stops(view)
}

#[test]
fn ends_of_runs(rt: HostRuntime) {
    let ended = match Tables::new(rt.alloc(), b"foo") {
        Ok(tables) => are_ends(rt.alloc(), &tables),
        Err(_) => false,
    };
    assert!(rt; ended);
}

// Whether the list of a message is reported.
fn is_list_reported(alloc: Global, tables: &Tables, list: &Build) -> bool
    requires knows { Knows tables.now.hash tables.now.pool.kept }
    requires held { IsHeld tables.now.lists (build_id list.now) }
{
    let categories = categories();
    let view = view_of(tables, &categories);
    is_message(view, MemSink::new(alloc), list, b"! #1->[#1].\nl.3\n")
        && is_written(view, MemSink::new(alloc), list, b" #1->[#1]")
}

// Whether a macro and a register of this list are shown.
fn is_list_shown(alloc: Global, tables: &Tables, list: &ListRef) -> bool
    requires knows { Knows tables.now.hash tables.now.pool.kept }
    requires held { IsHeld tables.now.lists (id_of list.now) }
{
    let categories = categories();
    let view = view_of(tables, &categories);
    let wanted = b"\n> \\foo=\\long macro:\n#1->[#1].\nl.7\n";
    is_macro_shown(view, MemSink::new(alloc), list, wanted)
        && is_register_shown(view, MemSink::new(alloc), list, b"\n> #1->[#1].\nl.7\n")
}

// Whether a list is reported as the text of a message while it is built, and then shown of a macro.
fn are_lists_written(alloc: Global, tables: &mut Tables) -> bool
    requires { Knows tables.old.hash tables.old.pool.kept }
{
    let Ok(mut build) = tables.lists.begin() else {
        return false;
    };
    let appended = append_all(&mut tables.lists, &mut build, &BRACKETS);
    let reported = is_list_reported(alloc, tables, &build);
    let list = tables.lists.finish(build);
    let shown = is_list_shown(alloc, tables, &list);
    tables.lists.release(list);
    appended.is_ok() && reported && shown
}

#[test]
fn lists_written(rt: HostRuntime) {
    let written = match Tables::new(rt.alloc(), b"foo") {
        Ok(mut tables) => are_lists_written(rt.alloc(), &mut tables),
        Err(_) => false,
    };
    assert!(rt; written);
}
