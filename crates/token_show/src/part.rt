// A part of a text: a character that may stand in front, and bytes that are borrowed.
ghost use Rattle.std.specs.Prelude.{◌≡◌, [], ◌∷◌, ◌++◌, MatchOption};
ghost use Rattle.token_show.specs.Options.{listed};

use std::marker::Model;

// What is left of a part. Contracts see it as the list of its characters.
#[derive(Drop)]
pub(crate) struct Part<'a> {
    front: Option<u8>,
    bytes: &'a [u8],
}

impl<'a> Model for Part<'a> {
    ghost use Rattle.std.specs.Prelude.{ℕ, List, ◌++◌};
    ghost use Rattle.token_show.specs.Options.{listed};

    ghost Value = { List ℕ };

    ghost view = { λ a. listed a.front ++ a.bytes.now };
}

impl<'a> Part<'a> {
    // A part of these characters.
    pub(crate) fn new(front: Option<u8>, bytes: &'a [u8]) -> Part<'a>
        ensures { result ≡ listed front ++ bytes.now }
    {
        Part { front, bytes }
    }

    // The next character; `None` exactly where none is left.
    pub(crate) fn next(&mut self) -> Option<u8>
        ensures { MatchOption result ((self.old ≡ []) × (self.new ≡ [])) (λ c. self.old ≡ c ∷ self.new) }
    {
        if let Some(c) = self.front {
            self.front = None;
            return Some(c);
        }
        match self.bytes {
            [] => None,
            [c, rest @ ..] => {
                self.bytes = rest;
                Some(*c)
            }
        }
    }
}
