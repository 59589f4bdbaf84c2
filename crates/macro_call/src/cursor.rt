// A place in a list of tokens.
ghost use Rattle.std.specs.Prelude.{◌≡◌, ◌<◌, [], ℕ, length, Some};
ghost use Rattle.token_lists.specs.Table.{IsHeld};
ghost use Rattle.token_lists.specs.Ids.{id_of, build_id};
ghost use Rattle.plain_tokens.specs.Arguments.{delimiters_of};
ghost use Rattle.macro_call.specs.Cursors.{IsOn, IsSomewhere, Steps, StepsAlong, StepsPlace, delimiter_at, rest_at, is_mark};

use mem_words::Place;
use tex_defs::Token;
use token_lists::{Build, ListRef, Lists};

/// A place in a list of tokens: that of a token, or the end.
#[derive(Clone, Copy)]
pub struct Cursor {
    at: Option<Place>,
    index: usize,
}

/// At the first token of a list.
pub fn at_first(lists: &Lists, list: &ListRef) -> Cursor
    requires { IsHeld lists.now (id_of list.now) }
    ensures on { IsOn lists.now (id_of list.now) result }
    ensures first { result.index ≡ 0 }
{
    Cursor {
        at: lists.first(list),
        index: 0,
    }
}

/// At the first token of a list that is being built.
pub fn at_first_built(lists: &Lists, build: &Build) -> Cursor
    requires { IsHeld lists.now (build_id build.now) }
    ensures on { IsOn lists.now (build_id build.now) result }
    ensures first { result.index ≡ 0 }
{
    Cursor {
        at: lists.first_built(build),
        index: 0,
    }
}

impl Cursor {
    /// How many tokens of the list stand in front.
    pub fn index(self) -> usize
        ensures { result ≡ self.index }
    {
        self.index
    }

    /// The token here, and the place behind it.
    #[inline(always)]
    pub fn next(self, lists: &Lists) -> Option<(Token, Cursor)>
        requires { IsSomewhere lists.now self }
        ensures { (id : ℕ) → IsOn lists.now id self → Steps lists.now id self result }
    {
        let place = self.at?;
        let _used = lists.used();
        let next = Cursor {
            at: lists.next(place),
            index: self.index + 1,
        };
        Some((lists.token(place), next))
    }

    /// The place behind the macro's place that stands here, if one does.
    #[inline(always)]
    pub fn behind_place(self, lists: &Lists) -> Option<Cursor>
        requires { IsSomewhere lists.now self }
        ensures { (id : ℕ) → IsOn lists.now id self → StepsPlace lists.now id self result }
    {
        match self.next(lists) {
            Some((Token::Place(_), next)) => Some(next),
            _ => None,
        }
    }

    /// The same along a delimiter, which ends before the next place and the end mark.
    #[inline(always)]
    pub fn next_along(self, lists: &Lists) -> Option<(Token, Cursor)>
        requires { IsSomewhere lists.now self }
        ensures { (id : ℕ) → IsOn lists.now id self → StepsAlong lists.now id self result }
    {
        let (token, next) = self.next(lists)?;
        if is_mark(token) {
            return None;
        }
        Some((token, next))
    }

    // The delimiter's token here, which is one, and the place behind it.
    #[inline(always)]
    pub fn delimiting(self, lists: &Lists, list: &ListRef) -> (Token, Cursor)
        requires on { IsOn lists.now (id_of list.now) self }
        requires some { 0 < length (delimiter_at lists.now (id_of list.now) self) }
        ensures { StepsAlong lists.now (id_of list.now) self (Some result) }
    {
        match self.next_along(lists) {
            Some(step) => step,
            None => unreachable!(),
        }
    }

    /// Behind the delimiter that stands here.
    #[inline(always)]
    pub fn behind_delimiter(self, lists: &Lists, list: &ListRef) -> Cursor
        requires { IsOn lists.now (id_of list.now) self }
        ensures on { IsOn lists.now (id_of list.now) result }
        ensures ends { delimiter_at lists.now (id_of list.now) result ≡ [] }
        ensures same { delimiters_of (rest_at lists.now (id_of list.now) result) ≡ delimiters_of (rest_at lists.now (id_of list.now) self) }
    {
        let mut from = self;
        while let Some((_, next)) = from.next_along(lists) {
            from = next;
        }
        from
    }
}

// Whether a token ends a delimiter.
#[inline(always)]
fn is_mark(x: Token) -> bool
    ensures { result ≡ is_mark x }
{
    match x {
        Token::Place(_) => true,
        Token::EndPlaces => true,
        _ => false,
    }
}
