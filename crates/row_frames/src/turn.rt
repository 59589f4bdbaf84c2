// What a frame is fed with, what it asks for, and what a stage makes of what it is fed with.
ghost use Rattle.std.specs.Prelude.{◌≡◌, List, [], ◌∷◌};
ghost use Rattle.tex_defs.specs.declared.Token.{Token};
ghost use Rattle.rows.specs.declared.words.Datum.{Datum};
ghost use Rattle.rows.specs.declared.stage.Stage.{Stage};
ghost use Rattle.rows.specs.declared.command.Call.{Call};
ghost use Rattle.rows.specs.Readings.{Tok, Val};
ghost use Rattle.rows.specs.Readings as reading;
ghost use Rattle.rows.specs.Run.{Asks, looks, again, begins, inner, numbers, noted, valued, comes, due};
ghost use Rattle.row_frames.specs.Data.{values};
ghost use Rattle.row_frames.specs.Views.{ask_of, fed_of, IsOpen};
ghost use Rattle.row_frames.specs.declared.turn.Kept.TheVariants as kept_at;
ghost use Rattle.row_frames.specs.Resumes.{within, IsTurn};

use crate::data::Data;
use crate::stages::{numbered_by, on_token, on_value, start};
use equivalents::Val as StoredValue;
use rows::{Bank, Call, Datum, Effect, Got, Met, Next, Note, Phrase, Stage, Start, Value};
use tex_defs::{Name, Seen, Token};
use tex_syntax::{Report, Want};

/// What a command is fed with.
#[derive(Clone, Copy)]
pub enum Fed {
    Token(Seen),
    /// The value of an inner reading; its list of tokens is kept by whoever feeds the frame.
    Value(Value),
    /// A report was written, or a name made `\relax`.
    Noted,
    /// What stands at a location, which no command asks for.
    Fetched(StoredValue<()>),
}

/// What a command asks for.
#[derive(Clone, Copy)]
pub enum Ask {
    More(Want),
    /// An inner reading, and whether it begins with the last token.
    Inner(Phrase, bool),
    /// The command does this, and ends.
    Acts(Call, Effect),
    /// The command does this with the list that was read last, and ends.
    ActsOn(Call, Effect),
    /// The list that was read last becomes that of the macro of this name, and the command ends.
    Defines(Call, Name),
    /// The command ends.
    Ends,
    /// A report, and whether the last token is given back before it.
    Tells(Report, bool),
    /// A token that is inserted, the report behind it, and whether the last token is given back before.
    Inserts(Token, Report, bool),
    /// The name becomes `\relax`, by this command.
    Relaxes(Call, Name),
}

/// Where in its stage a command stands.
#[derive(Clone, Copy)]
pub enum Kept {
    /// Before all.
    Start,
    /// It looks at a token, in this call.
    Looking(Call, Want),
    /// An inner reading goes on, which began with the token that the stage before left.
    Within(Phrase),
    /// An integer goes on, the number of a register or of a character, whose location is read.
    Numbered(Bank),
    /// The note comes, and then this.
    Noting(Note, Next),
    /// The note comes, and then the stage is read again.
    Retrying(Call, Want, Note),
}

/// What a stage makes of what it is fed with.
#[derive(Clone, Copy)]
pub enum Turn {
    /// It goes on here, and asks for this.
    Stays(Kept, Ask),
    Takes(Datum),
    Passes,
    /// The next stage begins with the token.
    Leaves,
    Gathers,
    Defines,
    /// The command goes on as this one, from the beginning.
    Becomes(Call),
    /// The command, an assignment, is over, and has assigned nothing.
    Unassigned(Call),
    /// The command is over.
    Ends,
}

/// What a note asks for.
pub fn note_due(note: Note) -> Ask
    ensures { (ts : List Token) → ask_of ts result ≡ due note }
{
    match note {
        Note::Tells(report, back) => Ask::Tells(report, back),
        Note::Inserts(token, report, back) => Ask::Inserts(token, report, back),
        Note::Relaxes(call, name) => Ask::Relaxes(call, name),
    }
}

/// What comes behind a note.
fn behind_note(next: Next) -> Turn
    ensures { (s : Stage) (c : Call) (ds : List Datum) (ts : List Token) (y : reading.Fed) → IsTurn s c ds ts y (λ fed. comes next fed) result }
{
    match next {
        Next::Takes(datum) => Turn::Takes(datum),
        Next::Stops => Turn::Ends,
        Next::Unassigned(call) => Turn::Unassigned(call),
        Next::Becomes(call) => Turn::Becomes(call),
    }
}

/// What is made of a token that a stage looks at.
fn look(stage: Stage, call: Call, want: Want, x: Seen) -> Turn
    ensures { (d : Call) (ds : List Datum) (ts : List Token) → IsTurn stage d ds ts (Tok x) (λ fed. looks stage call want (Tok x ∷ fed)) result }
{
    match on_token(stage, call, x) {
        Met::Takes(datum) => Turn::Takes(datum),
        Met::Passes => Turn::Passes,
        Met::Leaves => Turn::Leaves,
        Met::Skips(call) => Turn::Stays(Kept::Looking(call, want), Ask::More(want)),
        Met::Notes(note, next) => Turn::Stays(Kept::Noting(note, next), note_due(note)),
        Met::Retries(note) => Turn::Stays(Kept::Retrying(call, want, note), note_due(note)),
        Met::Numbers(bank) => {
            Turn::Stays(Kept::Numbered(bank), Ask::Inner(Phrase::Integer, false))
        }
        Met::Begins(kind) => Turn::Stays(Kept::Within(kind), Ask::Inner(kind, true)),
        Met::Becomes(call) => Turn::Becomes(call),
    }
}

/// What is made of a value.
fn gain(got: Got, value: Value) -> Turn
    ensures { (s : Stage) (c : Call) (ds : List Datum) (ts : List Token) → IsTurn s c ds ts (Val value ts) (λ fed. valued got ts fed) result }
{
    match got {
        Got::Takes(datum) => Turn::Takes(datum),
        Got::Tells(report, next) => {
            let note = Note::Tells(report, false);
            Turn::Stays(Kept::Noting(note, next), Ask::Tells(report, false))
        }
        Got::Gathers => Turn::Gathers,
        Got::Defines => Turn::Defines,
    }
}

/// What is made of what comes where a stage looks at a token.
fn looked(stage: Stage, call: Call, want: Want, y: Fed) -> Turn
    ensures { (d : Call) (ds : List Datum) (ts : List Token) → IsTurn stage d ds ts (fed_of ts y) (λ fed. looks stage call want (fed_of ts y ∷ fed)) result }
{
    match y {
        Fed::Token(x) => look(stage, call, want, x),
        Fed::Value(_) => Turn::Ends,
        Fed::Noted => Turn::Ends,
        Fed::Fetched(_) => Turn::Ends,
    }
}

/// What is made of what comes where a stage is an inner reading.
fn begun(stage: Stage, kind: Phrase, y: Fed) -> Turn
    ensures { (c : Call) (ds : List Datum) (ts : List Token) → IsTurn stage c ds ts (fed_of ts y) (λ fed. begins stage kind (fed_of ts y ∷ fed)) result }
{
    match y {
        Fed::Token(_) => Turn::Stays(Kept::Within(kind), Ask::Inner(kind, true)),
        Fed::Value(value) => gain(on_value(stage, value), value),
        Fed::Noted => Turn::Ends,
        Fed::Fetched(_) => Turn::Ends,
    }
}

/// What is made of what comes in an inner reading that began with a token.
fn behind(stage: Stage, kind: Phrase, y: Fed) -> Turn
    ensures { (c : Call) (ds : List Datum) (ts : List Token) → IsTurn stage c ds ts (fed_of ts y) (λ fed. inner stage kind (fed_of ts y ∷ fed)) result }
{
    match y {
        Fed::Value(value) => gain(on_value(stage, value), value),
        Fed::Token(_) => Turn::Ends,
        Fed::Noted => Turn::Ends,
        Fed::Fetched(_) => Turn::Ends,
    }
}

/// What is made of what comes where the number of a register or of a character is read.
fn numbered(bank: Bank, y: Fed) -> Turn
    ensures { (s : Stage) (c : Call) (ds : List Datum) (ts : List Token) → IsTurn s c ds ts (fed_of ts y) (λ fed. numbers bank (fed_of ts y ∷ fed)) result }
{
    match y {
        Fed::Value(value) => gain(numbered_by(bank, value), value),
        Fed::Token(_) => Turn::Ends,
        Fed::Noted => Turn::Ends,
        Fed::Fetched(_) => Turn::Ends,
    }
}

/// What is made of what comes at a note.
fn noted(note: Note, next: Next, y: Fed) -> Turn
    ensures { (s : Stage) (c : Call) (ds : List Datum) (ts : List Token) → IsTurn s c ds ts (fed_of ts y) (λ fed. noted note next (fed_of ts y ∷ fed)) result }
{
    match y {
        Fed::Noted => behind_note(next),
        Fed::Token(_) => Turn::Ends,
        Fed::Value(_) => Turn::Ends,
        Fed::Fetched(_) => Turn::Ends,
    }
}

/// What is made of what comes at a note behind which the stage is read again.
fn looks_again(stage: Stage, call: Call, want: Want, note: Note, y: Fed) -> Turn
    ensures { (d : Call) (ds : List Datum) (ts : List Token) → IsTurn stage d ds ts (fed_of ts y) (λ fed. again stage call want note (fed_of ts y ∷ fed)) result }
{
    match y {
        Fed::Noted => Turn::Stays(Kept::Looking(call, want), Ask::More(want)),
        Fed::Token(_) => Turn::Ends,
        Fed::Value(_) => Turn::Ends,
        Fed::Fetched(_) => Turn::Ends,
    }
}

/// What a stage makes of what it is fed with.
pub fn take(stage: Stage, call: Call, read: &Data, kept: Kept, y: Fed) -> Turn
    ensures { (ts : List Token) → IsTurn stage call (values read.now) ts (fed_of ts y) (λ fed. within stage call (values read.now) kept (fed_of ts y ∷ fed)) result }
{
    match kept {
        Kept::Start => match start(stage, call, read) {
            Start::Looks(want) => looked(stage, call, want, y),
            Start::Begins(kind) => begun(stage, kind, y),
        },
        Kept::Looking(call, want) => looked(stage, call, want, y),
        Kept::Within(kind) => behind(stage, kind, y),
        Kept::Numbered(bank) => numbered(bank, y),
        Kept::Noting(note, next) => noted(note, next, y),
        Kept::Retrying(call, want, note) => looks_again(stage, call, want, note, y),
    }
}

/// What a stage asks for at first.
pub fn opening(stage: Stage, call: Call, read: &Data) -> Ask
    ensures asks { (ts : List Token) → within stage call (values read.now) kept_at.Start [] ≡ Asks (ask_of ts result) }
    ensures open { IsOpen result }
{
    match start(stage, call, read) {
        Start::Looks(want) => Ask::More(want),
        Start::Begins(kind) => Ask::Inner(kind, false),
    }
}
