// A command that is read by its row.
ghost use Rattle.std.specs.Prelude.{◌≡◌, ◌+◌, List, [], ◌∷◌, IfSome, None, true, false};
ghost use Rattle.tex_defs.specs.declared.Token.{Token};
ghost use Rattle.rows.specs.declared.words.Value.TheVariants as value_of;
ghost use Rattle.rows.specs.Readings.{Fed, Tok, Noted, Fetched, Val};
ghost use Rattle.rows.specs.Commands.{command_ask};
ghost use Rattle.rows.specs.Run.{row};
ghost use Rattle.row_frames.specs.Views as rows_view;
ghost use Rattle.row_frames.specs.Resumes as rows_resume;
ghost use Rattle.plain_readings.specs.Readings.{kept_list};
ghost use Rattle.reading_frames.specs.Views.{has_no_token, kept_list_of, listed_ask, Lists};
ghost use Rattle.reading_frames.specs.Resumes.{asked_count, resume_command, command_lists, command_count, has_list, listed_count, with_list, IsOver};
ghost use Rattle.reading_frames.specs.Resumes as resumes;

use equivalents::Val as StoredValue;
use row_frames::{Kept, RowFrame, note_due};
use rows::{Call, Effect, Phrase, Value};
use tex_defs::{Name, Seen, Token};
use tex_syntax::{Report, Want};

/// Where a command stands: in its row, or at what it does at its end. The list with which it does this is the one on top, if it is listed, and
/// else the list of no token.
#[derive(Clone, Copy)]
pub enum CommandScan {
    Reads(RowFrame),
    Acts(Call, Effect),
    ActsOn(Call, Effect, bool),
    Defines(Call, Name, bool),
    Ended,
}

/// What a command asks for, by its row or at its end. Where a list is spoken of, it is the one on top, if it is listed, and else the list of no
/// token.
#[must_use]
#[derive(Clone, Copy)]
pub enum ListedAsk {
    More(Want),
    /// An inner reading, and whether it begins with the last token.
    Inner(Phrase, bool),
    /// The command does this, and ends.
    Acts(Call, Effect),
    /// The command does this with the list, and whether that is listed, and ends.
    ActsOn(Call, Effect, bool),
    /// The list becomes that of the macro of this name, and whether it is listed, and the command ends.
    Defines(Call, Name, bool),
    Ends,
    /// A report, and whether the last token is put back before it.
    Tells(Report, bool),
    /// A token that is inserted, the report behind it, and whether the last token is put back before.
    Inserts(Token, Report, bool),
    /// The name becomes `\relax`, by this command.
    Relaxes(Call, Name),
}

/// What a command asks for by its row, over a list of no token.
#[inline(always)]
fn of_row(asked: row_frames::Ask) -> ListedAsk
    ensures is { (held : Lists) → listed_ask held result ≡ rows_view.ask_of [] asked }
    ensures count { asked_count result ≡ 0 }
{
    match asked {
        row_frames::Ask::More(want) => ListedAsk::More(want),
        row_frames::Ask::Inner(phrase, begins) => ListedAsk::Inner(phrase, begins),
        row_frames::Ask::Acts(call, effect) => ListedAsk::Acts(call, effect),
        row_frames::Ask::ActsOn(call, effect) => ListedAsk::ActsOn(call, effect, false),
        row_frames::Ask::Defines(call, name) => ListedAsk::Defines(call, name, false),
        row_frames::Ask::Ends => ListedAsk::Ends,
        row_frames::Ask::Tells(report, back) => ListedAsk::Tells(report, back),
        row_frames::Ask::Inserts(token, report, back) => ListedAsk::Inserts(token, report, back),
        row_frames::Ask::Relaxes(call, name) => ListedAsk::Relaxes(call, name),
    }
}

/// What a command asks for where it stands in its row.
#[inline(always)]
fn asked_in(row: &RowFrame) -> ListedAsk
    ensures is { (held : Lists) → listed_ask held result ≡ rows_resume.resume row.now [] }
    ensures count { asked_count result ≡ 0 }
{
    if row.left.is_none() {
        let mut at_end = *row;
        at_end.kept = Kept::Start;
        return of_row(at_end.first_ask());
    }
    match row.kept {
        Kept::Start => of_row(row.first_ask()),
        Kept::Looking(_, want) => ListedAsk::More(want),
        Kept::Within(kind) => ListedAsk::Inner(kind, true),
        Kept::Numbered(_) => ListedAsk::Inner(Phrase::Integer, false),
        Kept::Noting(note, _) => of_row(note_due(note)),
        Kept::Retrying(_, _, note) => of_row(note_due(note)),
    }
}

/// A row is fed, and comes to this if it is over; the list that came last is listed or has no token.
fn over_behind(row: &mut RowFrame, y: row_frames::Fed, listed: bool) -> Option<CommandScan>
    ensures over { IfSome result (λ s. (ts : List Token) (held : Lists) (fed : List Fed) → ts ≡ kept_list_of listed held → rows_resume.resume row.old (rows_view.fed_of ts y ∷ fed) ≡ resume_command s held fed) }
    ensures goes_on { result ≡ None → (ts : List Token) (fed : List Fed) → rows_resume.resume row.old (rows_view.fed_of ts y ∷ fed) ≡ rows_resume.resume row.new fed }
    ensures ended { IfSome result (λ s. IsOver s listed) }
{
    match row.feed(y) {
        row_frames::Ask::Acts(call, effect) => Some(CommandScan::Acts(call, effect)),
        row_frames::Ask::ActsOn(call, effect) => Some(CommandScan::ActsOn(call, effect, listed)),
        row_frames::Ask::Defines(call, name) => Some(CommandScan::Defines(call, name, listed)),
        row_frames::Ask::Ends => Some(CommandScan::Ended),
        row_frames::Ask::More(_) | row_frames::Ask::Inner(..) => None,
        row_frames::Ask::Tells(..) | row_frames::Ask::Inserts(..) => None,
        row_frames::Ask::Relaxes(..) => None,
    }
}

/// Whether a list that comes with a value is kept: only where it has a token.
fn keeps(value: Value, is_empty: bool) -> bool
    ensures { result ≡ resumes.keeps value is_empty }
{
    match value {
        Value::List => !is_empty,
        Value::Plain(_) => false,
    }
}

impl CommandScan {
    /// A command begins.
    pub fn new(call: Call) -> CommandScan
        ensures asks { (held : Lists) (fed : List Fed) → row call fed ≡ resume_command result held fed }
        ensures lists { (held : Lists) (fed : List Fed) → kept_list (command_ask (row call fed)) ≡ command_lists result held fed }
        ensures count { command_count result ≡ 0 }
    {
        CommandScan::Reads(RowFrame::new(call))
    }

    /// What it asks for where it stands.
    #[inline(always)]
    pub fn ask(&self) -> ListedAsk
        ensures is { (held : Lists) → listed_ask held result ≡ resume_command self.now held [] }
        ensures count { asked_count result ≡ command_count self.now }
    {
        match self {
            CommandScan::Reads(row) => asked_in(row),
            CommandScan::Acts(call, effect) => ListedAsk::Acts(*call, *effect),
            CommandScan::ActsOn(call, effect, listed) => ListedAsk::ActsOn(*call, *effect, *listed),
            CommandScan::Defines(call, name, listed) => ListedAsk::Defines(*call, *name, *listed),
            CommandScan::Ended => ListedAsk::Ends,
        }
    }

    /// Whether the list on top is its own.
    pub fn is_listed(&self) -> bool
        ensures { result ≡ has_list self.now }
    {
        match self {
            CommandScan::ActsOn(_, _, listed) => *listed,
            CommandScan::Defines(_, _, listed) => *listed,
            _ => false,
        }
    }

    /// Takes a token.
    pub fn feed(&mut self, x: Seen)
        ensures asks { (held : Lists) (fed : List Fed) → resume_command self.old held (Tok x ∷ fed) ≡ resume_command self.new held fed }
        ensures lists { (held : Lists) (fed : List Fed) → command_lists self.old held (Tok x ∷ fed) ≡ command_lists self.new held fed }
        ensures count { command_count self.new ≡ command_count self.old }
    {
        match self {
            CommandScan::Reads(row) => match over_behind(row, row_frames::Fed::Token(x), false) {
                Some(over) => *self = over,
                None => {}
            },
            CommandScan::Acts(..) | CommandScan::ActsOn(..) => {}
            CommandScan::Defines(..) | CommandScan::Ended => {}
        }
    }

    /// Goes on behind its note.
    pub fn noted(&mut self)
        ensures asks { (held : Lists) (fed : List Fed) → resume_command self.old held (Noted ∷ fed) ≡ resume_command self.new held fed }
        ensures lists { (held : Lists) (fed : List Fed) → command_lists self.old held (Noted ∷ fed) ≡ command_lists self.new held fed }
        ensures count { command_count self.new ≡ command_count self.old }
    {
        match self {
            CommandScan::Reads(row) => match over_behind(row, row_frames::Fed::Noted, false) {
                Some(over) => *self = over,
                None => {}
            },
            CommandScan::Acts(..) | CommandScan::ActsOn(..) => {}
            CommandScan::Defines(..) | CommandScan::Ended => {}
        }
    }

    /// What stands at a location came, for which it never asks.
    pub fn fetched(&mut self, value: StoredValue<()>)
        ensures asks { (held : Lists) (fed : List Fed) → resume_command self.old held (Fetched value ∷ fed) ≡ resume_command self.new held fed }
        ensures lists { (held : Lists) (fed : List Fed) → command_lists self.old held (Fetched value ∷ fed) ≡ command_lists self.new held fed }
        ensures count { command_count self.new ≡ command_count self.old }
    {
        match self {
            CommandScan::Reads(row) => {
                match over_behind(row, row_frames::Fed::Fetched(value), false) {
                    Some(over) => *self = over,
                    None => {}
                }
            }
            CommandScan::Acts(..) | CommandScan::ActsOn(..) => {}
            CommandScan::Defines(..) | CommandScan::Ended => {}
        }
    }

    /// Takes a value, and says whether it keeps the list that came with it, which may have no token.
    pub fn feed_value(&mut self, value: Value, is_empty: bool) -> bool
        ensures asks { (ts : List Token) → is_empty ≡ has_no_token ts → (held : Lists) (fed : List Fed) → resume_command self.old held (Val value ts ∷ fed) ≡ resume_command self.new (with_list result ts held) fed }
        ensures lists { (ts : List Token) → is_empty ≡ has_no_token ts → (held : Lists) (fed : List Fed) → command_lists self.old held (Val value ts ∷ fed) ≡ command_lists self.new (with_list result ts held) fed }
        ensures count { command_count self.new ≡ listed_count result + command_count self.old }
        ensures kept { result ≡ true → is_empty ≡ false }
        ensures list { result ≡ true → value ≡ value_of.List }
    {
        let listed = keeps(value, is_empty);
        let CommandScan::Reads(row) = self else {
            return false;
        };
        let Some(over) = over_behind(row, row_frames::Fed::Value(value), listed) else {
            return false;
        };
        *self = over;
        over.is_listed()
    }
}
