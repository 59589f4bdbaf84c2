// Where a conditional goes on by the value of its test. *The TeXbook*, chapter 20; *TeX: The Program*, part 28 (`conditional`, `change_if_limit`).
ghost use Rattle.std.specs.Prelude.{◌≡◌};
ghost use Rattle.conditionals.specs.Choices as choices;

use crate::limits::Limit;
use crate::skip::Ender;

/// The value of a test.
#[derive(Clone, Copy)]
pub enum Value {
    Truth(bool),
    /// The number of a case of `\ifcase`.
    Case(i32),
}

/// What a conditional skips to.
#[derive(Clone, Copy)]
pub enum Aim {
    /// Nothing: its branch is read.
    Branch,
    /// The case behind so many `\or`s, or its `\else` or `\fi`, where one comes first.
    Case(u32),
    /// Its `\else` or `\fi`; and whether its own `\or` is reported.
    Other(bool),
    /// Its `\fi`: what is behind an `\else` or an `\or` that ends a branch that was read.
    Fi,
}

/// How skipping ends.
#[derive(Clone, Copy)]
pub enum End {
    /// The conditional has this limit, and its text is read.
    Reads(Limit),
    /// It closes.
    Closes,
}

/// What is done at an ender behind which skipping goes on.
#[derive(Clone, Copy)]
pub enum Passing {
    Nothing,
    /// The topmost of the conditionals above it closes.
    ClosesAbove,
    /// "Extra \or" is reported.
    ExtraOr,
}

/// What an ender comes to.
#[must_use]
#[derive(Clone, Copy)]
pub enum Step {
    /// This is done, and text is skipped for what is sought then.
    Skips(Passing, Choice),
    Ends(End),
}

/// What a conditional seeks: by the value of its test, or its `\fi` behind a branch that was read.
#[derive(Clone, Copy)]
pub struct Choice {
    pub aim: Aim,
    /// How many conditionals stand above it, which its test left open.
    pub above: u32,
}

/// What a conditional with a test of this value skips to.
pub fn aim_of(value: Value) -> Aim
    ensures { result ≡ choices.aim value }
{
    match value {
        Value::Truth(true) => Aim::Branch,
        Value::Truth(false) => Aim::Other(true),
        Value::Case(n) => {
            if n < 0 {
                Aim::Other(false)
            } else {
                Aim::Case(n.unsigned_abs())
            }
        }
    }
}

impl Aim {
    ghost use Rattle.std.specs.Prelude.{◌≡◌};

    /// The limit with which text is read, where none is skipped.
    pub fn start(self) -> Option<Limit>
        ensures { result ≡ choices.start self }
    {
        match self {
            Aim::Branch => Some(Limit::Branch),
            Aim::Case(0) => Some(Limit::Case),
            Aim::Case(_) | Aim::Other(_) | Aim::Fi => None,
        }
    }
}

impl Choice {
    ghost use Rattle.std.specs.Prelude.{◌≡◌, ◌<◌, List, [], ◌∷◌};
    ghost use Rattle.conditionals.specs.declared.skip.Ender.{Ender};
    ghost use Rattle.conditionals.specs.Choices.{end, passing, start, step, end_behind, passing_behind, IsOpen};

    /// Takes the ender to which text was skipped.
    pub fn feed(self, ender: Ender) -> Step
        ensures step { result ≡ step self.aim self.above ender }
        ensures end { (es : List Ender) → end self.aim self.above (ender ∷ es) ≡ end_behind result es }
        ensures passing { (es : List Ender) (e : Ender) → passing_behind result (passing self.aim self.above [] ender) (passing self.aim self.above (ender ∷ es) e) es e }
        ensures goes_on { IsOpen result }
    {
        if let Some(limit) = self.aim.start() {
            Step::Ends(End::Reads(limit))
        } else if self.above > 0 {
            self.feed_above(ender)
        } else {
            self.feed_own(ender)
        }
    }

    /// Where conditionals stand above it.
    #[tactic(auto, using(crate::proofs::Enders::none_yet))]
    fn feed_above(self, ender: Ender) -> Step
        requires skips { start self.aim ≡ choices.none }
        requires above { 0 < self.above }
        ensures step { result ≡ step self.aim self.above ender }
        ensures end { (es : List Ender) → end self.aim self.above (ender ∷ es) ≡ end_behind result es }
        ensures passing { (es : List Ender) (e : Ender) → passing_behind result (passing self.aim self.above [] ender) (passing self.aim self.above (ender ∷ es) e) es e }
        ensures goes_on { IsOpen result }
    {
        match ender {
            Ender::Fi => Step::Skips(
                Passing::ClosesAbove,
                Choice {
                    aim: self.aim,
                    above: self.above - 1,
                },
            ),
            Ender::Else => Step::Skips(Passing::Nothing, self),
            Ender::Or => Step::Skips(Passing::Nothing, self),
        }
    }

    /// Where the ender is its own.
    fn feed_own(self, ender: Ender) -> Step
        requires skips { start self.aim ≡ choices.none }
        requires own { self.above ≡ 0 }
        ensures step { result ≡ step self.aim self.above ender }
        ensures end { (es : List Ender) → end self.aim self.above (ender ∷ es) ≡ end_behind result es }
        ensures passing { (es : List Ender) (e : Ender) → passing_behind result (passing self.aim self.above [] ender) (passing self.aim self.above (ender ∷ es) e) es e }
        ensures goes_on { IsOpen result }
    {
        match (ender, self.aim) {
            (Ender::Fi, _) => Step::Ends(End::Closes),
            (Ender::Else, Aim::Fi) => Step::Skips(Passing::Nothing, self),
            (Ender::Else, _) => Step::Ends(End::Reads(Limit::AfterElse)),
            (Ender::Or, _) => self.feed_or(),
        }
    }

    /// At an `\or` of its own.
    #[tactic(auto, using(crate::proofs::Enders::none_yet))]
    fn feed_or(self) -> Step
        requires skips { start self.aim ≡ choices.none }
        requires own { self.above ≡ 0 }
        ensures step { result ≡ step self.aim self.above choices.or }
        ensures end { (es : List Ender) → end self.aim self.above (choices.or ∷ es) ≡ end_behind result es }
        ensures passing { (es : List Ender) (e : Ender) → passing_behind result (passing self.aim self.above [] choices.or) (passing self.aim self.above (choices.or ∷ es) e) es e }
        ensures goes_on { IsOpen result }
    {
        match self.aim {
            Aim::Branch => Step::Ends(End::Reads(Limit::Branch)),
            Aim::Case(n) => {
                if n > 1 {
                    Step::Skips(
                        Passing::Nothing,
                        Choice {
                            aim: Aim::Case(n - 1),
                            above: self.above,
                        },
                    )
                } else {
                    Step::Ends(End::Reads(Limit::Case))
                }
            }
            Aim::Other(true) => Step::Skips(Passing::ExtraOr, self),
            Aim::Other(false) | Aim::Fi => Step::Skips(Passing::Nothing, self),
        }
    }
}
