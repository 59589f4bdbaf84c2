// A list that is being read.
ghost use Rattle.std.specs.Prelude.{◌≡◌, ℕ, ◌<◌, ◌+◌, [], ◌∷◌, None, MatchOption, IsSome, IfSome, is_some, drop, slice_get};
ghost use Rattle.token_lists.specs.Table.{IsHeld, tokens_at};
ghost use Rattle.token_lists.specs.Ids.{id_of};
ghost use Rattle.token_lists.specs.Accounts.{IsReading};
ghost use Rattle.input_stack.specs.Rest.{IsAt, rest, number};
ghost use Rattle.input_stack.specs.Calls.{IsText, body_of};

use mem_words::Place;
use tex_defs::Token;
use token_lists::{ListRef, Lists};

/// A place in a list: that of a token, or past the last, and how many tokens stand before it.
#[derive(Clone, Copy)]
pub struct Spot {
    at: Option<Place>,
    read: u32,
}

/// A holder of a list, the place of the list's next token, and how many tokens were read.
pub struct Reader {
    list: ListRef,
    at: Option<Place>,
    read: u32,
}

impl Reader {
    /// A reader at the front of a list.
    #[inline(always)]
    pub fn new(lists: &Lists, list: ListRef) -> Reader
        requires { IsHeld lists.now (id_of list) }
        ensures same { number result ≡ id_of list }
        ensures list { result.list ≡ list }
        ensures at_front { IsAt lists.now result }
        ensures whole { rest lists.now result ≡ tokens_at lists.now (id_of list) }
    {
        let at = lists.first(&list);
        Reader { list, at, read: 0 }
    }

    /// The next token, if one is left.
    #[inline(always)]
    pub fn peek(&self, lists: &Lists) -> Option<Token>
        requires { IsAt lists.now self.now }
        ensures { result ≡ slice_get (rest lists.now self.now) 0 }
    {
        match self.at {
            Some(place) => Some(lists.token(place)),
            None => None,
        }
    }

    /// Whether a token is left.
    #[inline(always)]
    pub fn is_left(&self, lists: &Lists) -> bool
        requires { IsAt lists.now self.now }
        ensures { result ≡ is_some (slice_get (rest lists.now self.now) 0) }
    {
        let _lists = lists;
        self.at.is_some()
    }

    /// Reads the next token, if one is left.
    #[inline(always)]
    pub fn pull(&mut self, lists: &Lists) -> Option<Token>
        requires { IsAt lists.now self.old }
        ensures same { number self.new ≡ number self.old }
        ensures list { self.new.list ≡ self.old.list }
        ensures at_next { IsAt lists.now self.new }
        ensures token { MatchOption result (rest lists.now self.old ≡ []) (λ t. rest lists.now self.old ≡ t ∷ rest lists.now self.new) }
        ensures end { MatchOption result (self.new ≡ self.old) (λ _. Unit {0}) }
    {
        let Some(place) = self.at else { return None };
        let token = lists.token(place);
        // No list is longer than the words in use, so that the count goes on.
        let _words = lists.used();
        self.at = lists.next(place);
        self.read += 1;
        Some(token)
    }

    /// Reads the next token, if one is left that is no parameter number.
    #[inline(always)]
    pub fn pull_text(&mut self, lists: &Lists) -> Option<Token>
        requires { IsAt lists.now self.old }
        ensures same { number self.new ≡ number self.old }
        ensures list { self.new.list ≡ self.old.list }
        ensures at_next { IsAt lists.now self.new }
        ensures token { IfSome result (λ t. rest lists.now self.old ≡ t ∷ rest lists.now self.new) }
        ensures text { IfSome result (λ t. IsText t) }
        ensures stays { result ≡ None → self.new ≡ self.old }
    {
        let Some(place) = self.at else { return None };
        let token = lists.token(place);
        if let Token::Number(_) = token {
            return None;
        }
        // No list is longer than the words in use, so that the count goes on.
        let _words = lists.used();
        self.at = lists.next(place);
        self.read += 1;
        Some(token)
    }

    /// Goes behind the first end mark of what is left: to a macro's body. Without one nothing is left.
    #[inline(always)]
    pub fn skip_places(&mut self, lists: &Lists)
        requires { IsAt lists.now self.old }
        ensures same { number self.new ≡ number self.old }
        ensures list { self.new.list ≡ self.old.list }
        ensures at_next { IsAt lists.now self.new }
        ensures body { rest lists.now self.new ≡ body_of (rest lists.now self.old) }
    {
        while let Some(token) = self.pull(lists) {
            if let Token::EndPlaces = token {
                return;
            }
        }
    }

    /// Where the next token stands.
    #[inline(always)]
    pub fn spot(&self) -> Spot
        ensures at { result.at ≡ self.now.at }
        ensures read { result.read ≡ self.now.read }
    {
        Spot {
            at: self.at,
            read: self.read,
        }
    }

    /// The token at a spot of the list, if one stands there.
    #[inline(always)]
    pub fn at(&self, lists: &Lists, spot: Spot) -> Option<Token>
        requires { IsReading lists.now (number self.now) spot.at spot.read }
        ensures { result ≡ slice_get (drop spot.read (tokens_at lists.now (number self.now))) 0 }
    {
        match spot.at {
            Some(place) => Some(lists.token(place)),
            None => None,
        }
    }

    /// The spot behind one where a token stands.
    pub fn behind(&self, lists: &Lists, spot: Spot) -> Spot
        requires reading { IsReading lists.now (number self.now) spot.at spot.read }
        requires some { IsSome (slice_get (drop spot.read (tokens_at lists.now (number self.now))) 0) }
        ensures reading { IsReading lists.now (number self.now) result.at result.read }
        ensures read { result.read ≡ spot.read + 1 }
    {
        let Some(place) = spot.at else { return spot };
        // No list is longer than the words in use, so that the count goes on.
        let _words = lists.used();
        Spot {
            at: lists.next(place),
            read: spot.read + 1,
        }
    }

    /// Goes on at a spot of the list.
    pub fn go_to(&mut self, spot: Spot)
        ensures list { self.new.list ≡ self.old.list }
        ensures at { self.new.at ≡ spot.at }
        ensures read { self.new.read ≡ spot.read }
    {
        self.at = spot.at;
        self.read = spot.read;
    }

    /// The list, which is given back.
    pub fn into_list(self) -> ListRef
        ensures same { id_of result ≡ number self }
        ensures list { result ≡ self.list }
    {
        let Reader {
            list,
            at: _,
            read: _,
        } = self;
        list
    }
}
