// A text that is composed of bytes and of what is shown between them.
ghost use Rattle.std.specs.Prelude.{◌≡◌, [], ◌∷◌, ◌++◌, MatchOption};
ghost use Rattle.transcript.specs.Given.{text_given};

use std::marker::Model;
use token_show::Shown;

// What is left of such a text. Contracts see it as the list of its bytes.
#[derive(Drop)]
pub(crate) struct Said<'a> {
    before: &'a [u8],
    shown: Shown<'a>,
    behind: &'a [u8],
}

impl<'a> Model for Said<'a> {
    ghost use Rattle.std.specs.Prelude.{ℕ, List, ◌++◌};

    ghost Value = { List ℕ };

    ghost view = { λ a. a.before.now ++ (a.shown ++ a.behind.now) };
}

impl<'a> Said<'a> {
    // What is shown, between these bytes.
    pub(crate) fn new(before: &'a [u8], shown: Shown<'a>, behind: &'a [u8]) -> Said<'a>
        ensures { result ≡ before.now ++ (shown.entry ++ behind.now) }
    {
        Said {
            before,
            shown,
            behind,
        }
    }

    // The next byte; `None` exactly where none is left.
    pub(crate) fn next(&mut self) -> Option<u8>
        ensures { MatchOption result ((self.old ≡ []) × (self.new ≡ [])) (λ byte. self.old ≡ byte ∷ self.new) }
    {
        if let [byte, rest @ ..] = self.before {
            self.before = rest;
            return Some(*byte);
        }
        if let Some(byte) = self.shown.next() {
            return Some(byte);
        }
        match self.behind {
            [] => None,
            [byte, rest @ ..] => {
                self.behind = rest;
                Some(*byte)
            }
        }
    }
}

// At most three such texts, one behind the other, that are written at once. Contracts see the list of their bytes.
#[derive(Drop)]
pub(crate) struct SaidParts<'a> {
    first: Said<'a>,
    second: Option<Said<'a>>,
    third: Option<Said<'a>>,
}

impl<'a> Model for SaidParts<'a> {
    ghost use Rattle.std.specs.Prelude.{ℕ, List, ◌++◌};
    ghost use Rattle.transcript.specs.Given.{text_given};

    ghost Value = { List ℕ };

    ghost view = { λ a. a.first ++ (text_given a.second ++ text_given a.third) };
}

// The next byte of a text that may be there; `None` exactly where none is left.
fn next_given(said: &mut Option<Said<'_>>) -> Option<u8>
    ensures { MatchOption result ((text_given said.old ≡ []) × (text_given said.new ≡ [])) (λ byte. text_given said.old ≡ byte ∷ text_given said.new) }
{
    match said.as_mut() {
        Some(said) => said.next(),
        None => None,
    }
}

impl<'a> SaidParts<'a> {
    // One text.
    #[tactic(auto, using(crate::proofs::Joins::alone))]
    pub(crate) fn one(said: Said<'a>) -> SaidParts<'a>
        ensures { result ≡ said.entry }
    {
        SaidParts {
            first: said,
            second: None,
            third: None,
        }
    }

    // Two texts.
    #[tactic(auto, using(crate::proofs::Joins::alone))]
    pub(crate) fn two(first: Said<'a>, second: Said<'a>) -> SaidParts<'a>
        ensures { result ≡ first.entry ++ second.entry }
    {
        SaidParts {
            first,
            second: Some(second),
            third: None,
        }
    }

    // Three texts.
    pub(crate) fn three(first: Said<'a>, second: Said<'a>, third: Said<'a>) -> SaidParts<'a>
        ensures { result ≡ first.entry ++ (second.entry ++ third.entry) }
    {
        SaidParts {
            first,
            second: Some(second),
            third: Some(third),
        }
    }

    // The next byte; `None` exactly where none is left.
    pub(crate) fn next(&mut self) -> Option<u8>
        ensures { MatchOption result ((self.old ≡ []) × (self.new ≡ [])) (λ byte. self.old ≡ byte ∷ self.new) }
    {
        if let Some(byte) = self.first.next() {
            return Some(byte);
        }
        if let Some(byte) = next_given(&mut self.second) {
            return Some(byte);
        }
        next_given(&mut self.third)
    }
}
