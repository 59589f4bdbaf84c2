// The frame of a command that is read by its row.
ghost use Rattle.std.specs.Prelude.{◌≤◌, ◌+◌, length};
ghost use Rattle.rows.specs.Table.{stages_left};
ghost use Rattle.row_frames.specs.Data.{values};

use crate::data::{Data, name};
use crate::effects::{as_definition, command_effect};
use crate::turn::{Ask, Fed, Kept, Turn, opening, take};
use rows::{Call, Effect, Row, row_of};

/// Where a command stands: what is left of its row, where in the first stage of that, and what it has read.
#[derive(Clone, Copy)]
pub struct RowFrame {
    /// As which command it goes on.
    pub call: Call,
    /// Whether it began as another, a prefix.
    pub is_turned: bool,
    pub left: Option<Row>,
    pub read: Data,
    pub kept: Kept,
    ghost few: { length (values read) + length (stages_left left) ≤ 4 },
}

impl RowFrame {
    ghost use Rattle.std.specs.Prelude.{◌≡◌, List, [], ◌∷◌};
    ghost use Rattle.tex_defs.specs.declared.Token.{Token};
    ghost use Rattle.rows.specs.Readings as reading;
    ghost use Rattle.rows.specs.Table.{stages_of};
    ghost use Rattle.rows.specs.Run.{row, run};
    ghost use Rattle.row_frames.specs.Views.{ask_of, fed_of, IsOpen};
    ghost use Rattle.row_frames.specs.Resumes.{resume, turn_of};
    ghost use Rattle.row_frames.specs.declared.turn.Kept.TheVariants as kept_at;

    /// A command begins, perhaps as the one that goes on behind prefixes.
    #[tactic(auto, using(crate::proofs::Rows::at_most_four))]
    fn begin(call: Call, is_turned: bool) -> RowFrame
        ensures stands { (fed : List reading.Fed) → run (λ c more. turn_of is_turned c more) call (stages_of call.head) [] fed ≡ resume result fed }
        ensures call { result.call ≡ call }
        ensures starts { result.kept ≡ kept_at.Start }
    {
        RowFrame {
            call,
            is_turned,
            left: Some(row_of(call.head).0),
            read: Data::Zero,
            kept: Kept::Start,
        }
    }

    /// A command begins.
    pub fn new(call: Call) -> RowFrame
        ensures stands { (fed : List reading.Fed) → row call fed ≡ resume result fed }
        ensures call { result.call ≡ call }
        ensures starts { result.kept ≡ kept_at.Start }
    {
        RowFrame::begin(call, false)
    }

    /// What a command asks for that stands before a stage, or behind the last.
    pub fn first_ask(&self) -> Ask
        ensures asks { self.now.kept ≡ kept_at.Start → (ts : List Token) → resume self.now [] ≡ ask_of ts result }
    {
        match self.left {
            Some(stages) => opening(stages.first(), self.call, &self.read),
            None => Ask::Acts(self.call, command_effect(self.call, &self.read)),
        }
    }

    /// The command goes on as another.
    fn go_on_as(&mut self, call: Call) -> Ask
        ensures answer { (ts : List Token) → turn_of self.old.is_turned call [] ≡ ask_of ts result }
        ensures goes_on { IsOpen result → (fed : List reading.Fed) → turn_of self.old.is_turned call fed ≡ resume self.new fed }
    {
        if self.is_turned {
            return Ask::Ends;
        }
        *self = RowFrame::begin(call, true);
        self.first_ask()
    }

    /// Takes a token, a value or a note.
    pub fn feed(&mut self, y: Fed) -> Ask
        ensures answer { (ts : List Token) → resume self.old (fed_of ts y ∷ []) ≡ ask_of ts result }
        ensures goes_on { IsOpen result → (ts : List Token) (fed : List reading.Fed) → resume self.old (fed_of ts y ∷ fed) ≡ resume self.new fed }
    {
        let stages = match self.left {
            Some(stages) => stages,
            None => return Ask::Acts(self.call, command_effect(self.call, &self.read)),
        };
        match take(stages.first(), self.call, &self.read, self.kept, y) {
            Turn::Stays(kept, ask) => {
                self.kept = kept;
                ask
            }
            Turn::Takes(datum) => {
                self.left = stages.rest();
                self.read.push(datum);
                self.kept = Kept::Start;
                self.first_ask()
            }
            Turn::Passes => {
                self.left = stages.rest();
                self.kept = Kept::Start;
                self.first_ask()
            }
            Turn::Leaves => {
                self.left = stages.rest();
                self.kept = Kept::Start;
                self.feed(y)
            }
            Turn::Gathers => Ask::ActsOn(self.call, command_effect(self.call, &self.read)),
            Turn::Defines => Ask::Defines(as_definition(self.call), name(self.read.first())),
            Turn::Becomes(call) => self.go_on_as(call),
            Turn::Unassigned(call) => Ask::Acts(call, Effect::Unassigned),
            Turn::Ends => Ask::Ends,
        }
    }
}
