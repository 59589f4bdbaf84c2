// Skipped text. *The TeXbook*, chapter 20; *TeX: The Program*, part 28 (`pass_text`).
ghost use Rattle.std.specs.Prelude.{◌≡◌};
ghost use Rattle.conditionals.specs.Skipping as skipping;

use prim_table::{Class, first_number};
use tex_defs::{Meaning, Seen};

/// The number of `\fi`.
const FI: u16 = 82;

/// The number of `\else`.
const ELSE: u16 = 83;

/// The number of `\or`.
const OR: u16 = 84;

/// What ends skipped text or a part of a conditional.
#[derive(Clone, Copy)]
pub enum Ender {
    Fi,
    Else,
    Or,
}

/// What a token is to a conditional.
#[derive(Clone, Copy)]
pub enum Part {
    /// One of the 17 conditionals, from `\if` to `\ifcase`.
    Conditional,
    Ends(Ender),
    /// Anything else.
    Plain,
}

/// Skipped text, fed token by token: it counts the conditionals that are open in it.
#[derive(Clone, Copy)]
pub struct Skip {
    /// How many conditionals of the text are open; it stays at the greatest `u64`, which no text of fewer than 2^64 - 1 tokens reaches.
    pub depth: u64,
}

/// What a token of this meaning is to a conditional.
pub fn part_of(meaning: Meaning<()>) -> Part
    ensures { result ≡ skipping.part meaning }
{
    match meaning {
        Meaning::Prim(number) => {
            if first_number(Class::Conditional) <= number && number < FI {
                Part::Conditional
            } else if number == FI {
                Part::Ends(Ender::Fi)
            } else if number == ELSE {
                Part::Ends(Ender::Else)
            } else if number == OR {
                Part::Ends(Ender::Or)
            } else {
                Part::Plain
            }
        }
        _ => Part::Plain,
    }
}

/// The number of the primitive.
pub fn ender_number(ender: Ender) -> u16
    ensures { result ≡ skipping.ender_number ender }
{
    match ender {
        Ender::Fi => FI,
        Ender::Else => ELSE,
        Ender::Or => OR,
    }
}

impl Skip {
    ghost use Rattle.std.specs.Prelude.{◌≡◌, ◌+◌, ◌<◌, ◌^◌, List, [], ◌∷◌, ◌++◌, length, IfSome, OnSome, IfNone};
    ghost use Rattle.tex_defs.specs.declared.Seen.{Seen};
    ghost use Rattle.conditionals.specs.Skipping.{IsSkipped, GoesOn, part, ends_at, open_behind};

    /// No token was skipped yet.
    pub fn new() -> Skip
        ensures is { result.depth ≡ 0 }
        ensures goes_on { GoesOn result.depth [] }
    {
        Skip { depth: 0 }
    }

    /// Takes a token: where it ends the skipped text, as which ender it does so, and the next text begins.
    pub fn feed(&mut self, seen: Seen) -> Option<Ender>
        ensures skipped { (read : List Seen) → GoesOn self.old.depth read → length read + 1 < 2 ^ 64 → IfSome result (λ e. IsSkipped (read ++ seen ∷ []) (length read) e) }
        ensures goes_on { (read : List Seen) → GoesOn self.old.depth read → length read + 1 < 2 ^ 64 → IfNone result (GoesOn self.new.depth (read ++ seen ∷ [])) }
        ensures again { OnSome result (GoesOn self.new.depth []) }
        ensures ends { result ≡ ends_at self.old.depth (part seen.meaning) }
        ensures open { IfNone result (self.new.depth ≡ open_behind self.old.depth (part seen.meaning)) }
    {
        match part_of(seen.meaning) {
            Part::Conditional => {
                self.depth = self.depth.saturating_add(1);
                None
            }
            Part::Ends(ender) => {
                if self.depth == 0 {
                    Some(ender)
                } else {
                    self.close(ender);
                    None
                }
            }
            Part::Plain => None,
        }
    }

    /// Among open conditionals, the innermost of which a `\fi` closes.
    fn close(&mut self, ender: Ender)
        requires { 0 < self.old.depth }
        ensures { self.new.depth ≡ skipping.depth_behind ender self.old.depth }
    {
        match ender {
            Ender::Fi => self.depth -= 1,
            Ender::Else | Ender::Or => {}
        }
    }
}
