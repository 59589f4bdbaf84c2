// A walk along the tokens of a list.
ghost use Rattle.std.specs.Prelude.{◌≡◌, [], ◌∷◌, MatchOption};
ghost use Rattle.token_lists.specs.Table.{tokens_at, IsHeld};
ghost use Rattle.token_lists.specs.Ids.{id_of, build_id};

use mem_words::Place;
use std::marker::Model;
use tex_defs::Token;
use token_lists::{Build, ListRef, Lists};

// Whose tokens a walk goes along.
#[derive(Clone, Copy, Drop)]
pub(crate) enum Source<'a> {
    Nothing,
    Finished(&'a ListRef),
    Built(&'a Build),
}

// The tokens of a list that are left. Contracts see them as a list.
#[derive(Drop)]
pub(crate) struct Walk<'a> {
    lists: &'a Lists,
    source: Source<'a>,
    // The place of the next token.
    at: Option<Place>,
    // How many tokens were passed.
    index: u32,
}

impl<'a> Model for Walk<'a> {
    ghost use Rattle.std.specs.Prelude.{List};
    ghost use Rattle.tex_defs.specs.declared.Token.{Token as PlainToken};

    ghost Value = { List PlainToken };

    ghost use Rattle.token_show.specs.Walks.{walk_view, IsWalk};

    ghost view = { walk_view };

    ghost invariant = { IsWalk };
}

impl<'a> Walk<'a> {
    // No tokens.
    pub(crate) fn nothing(lists: &'a Lists) -> Walk<'a>
        ensures { result ≡ [] }
    {
        Walk {
            lists,
            source: Source::Nothing,
            at: None,
            index: 0,
        }
    }

    // The tokens of a list.
    pub(crate) fn of_list(lists: &'a Lists, list: &'a ListRef) -> Walk<'a>
        requires { IsHeld lists.now (id_of list.now) }
        ensures { result ≡ tokens_at lists.now (id_of list.now) }
    {
        Walk {
            lists,
            source: Source::Finished(list),
            at: lists.first(list),
            index: 0,
        }
    }

    // The tokens of a list that is being built.
    pub(crate) fn of_build(lists: &'a Lists, build: &'a Build) -> Walk<'a>
        requires { IsHeld lists.now (build_id build.now) }
        ensures { result ≡ tokens_at lists.now (build_id build.now) }
    {
        Walk {
            lists,
            source: Source::Built(build),
            at: lists.first_built(build),
            index: 0,
        }
    }

    // Leaves the tokens that are left.
    pub(crate) fn leave(&mut self)
        ensures { self.new ≡ [] }
    {
        self.source = Source::Nothing;
        self.at = None;
    }

    // The next token; `None` exactly where none is left.
    pub(crate) fn next(&mut self) -> Option<Token>
        ensures { MatchOption result ((self.old ≡ []) × (self.new ≡ [])) (λ t. self.old ≡ t ∷ self.new) }
    {
        let Some(place) = self.at else { return None };
        // A list is no longer than the words that are used.
        let _used = self.lists.used();
        let token = self.lists.token(place);
        self.at = self.lists.next(place);
        self.index += 1;
        Some(token)
    }
}
