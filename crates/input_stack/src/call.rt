// A macro call that is being read, or another list that is shared.
ghost use Rattle.std.specs.Prelude.{◌≡◌, ◌+◌, ◌<◌, ◌^◌, List, Option, Some, None, IfSome, IsSome, IsTrue, MatchOption, is_some, false, drop, length, slice_get};
ghost use Rattle.token_lists.specs.Table.{IsHeld, tokens_at, holders_at};
ghost use Rattle.token_lists.specs.declared.ListRef.{ListRef};
ghost use Rattle.token_lists.specs.Ids.{id_of};
ghost use Rattle.token_lists.specs.Accounts.{IsReading, Moves, Keeps, Covers, none, holds};
ghost use Rattle.input_stack.specs.Puts.{first, without_gaps, is_empty};
ghost use Rattle.input_stack.specs.Calls.{IsText, substituted, token_items};
ghost use Rattle.input_stack.specs.Rest.{IsAt, rest, number};
ghost use Rattle.input_stack.specs.Whole.{with_arguments};
ghost use Rattle.input_stack.specs.CallViews.{cells_in, open_tokens, open_number, open_holds, items_of, readers_hold, call_open, met, is_gap, is_opening, AreAt, IsCall, IsSettled, IsCountable, CallPulls, AreHeld, Shares, HandsOn, Closes};
ghost use Rattle.input_stack.specs.Lasting.{Lasts};

use crate::met::Met;
use crate::reader::{Reader, Spot};
use crate::release::let_go;
use std::mem;
use tex_defs::Token;
use token_lists::{ListRef, Lists};

/// A macro's body, or another shared list, that is being read, the argument whose level stands on it, and how many arguments the call
/// has. These stand on a stack beside the levels, and are handed to what reads them.
pub struct Call {
    body: Reader,
    argument: Option<Reader>,
    count: u32,
}

// The first token of a list, if it has one.
#[inline(always)]
fn first_token(lists: &Lists, list: &ListRef) -> Option<Token>
    requires { IsHeld lists.now (id_of list.now) }
    ensures { result ≡ slice_get (tokens_at lists.now (id_of list.now)) 0 }
{
    match lists.first(list) {
        Some(place) => Some(lists.token(place)),
        None => None,
    }
}

// What a token of a body stands for, which comes first of it.
#[inline(always)]
fn item_of(lists: &Lists, args: &[Option<ListRef>], token: Token) -> Met
    requires { AreHeld lists.now args.now }
    ensures { Some result ≡ met (first (token_items (cells_in lists.now args.now) token)) }
{
    if let Token::Number(n) = token {
        let place = (n as usize).saturating_sub(1);
        if place < args.len() {
            return match &args[place] {
                Some(list) => match first_token(lists, list) {
                    Some(first) => Met::First(first),
                    None => Met::Gap,
                },
                None => Met::Gap,
            };
        }
    }
    Met::Text(token)
}

// A second holder of a list, behind the list's first token.
fn opened(lists: &mut Lists, list: &ListRef) -> Reader
    requires held { IsHeld lists.old (id_of list.now) }
    requires countable { holders_at lists.old (id_of list.now) + 1 < 2 ^ 32 }
    ensures same { number result ≡ id_of list.now }
    ensures at_next { IsAt lists.new result }
    ensures left { rest lists.new result ≡ drop 1 (tokens_at lists.old (id_of list.now)) }
    ensures shares { Shares lists.old lists.new (holds (id_of list.now)) }
{
    let shared = lists.share(list);
    let mut reader = Reader::new(lists, shared);
    let _first = reader.pull(lists);
    reader
}

// Lets the holder go that an argument's level has, if one is open.
#[inline(always)]
fn let_level_go(lists: &mut Lists, argument: Option<Reader>)
    requires { IfSome argument (λ r. IsHeld lists.old (number r)) }
    ensures account { Moves lists.old lists.new (open_holds argument) none }
    ensures kept { Keeps lists.old lists.new (open_holds argument) }
    ensures lasting { Lasts lists.old lists.new }
    ensures free { argument ≡ None → lists.new ≡ lists.old }
{
    if let Some(reader) = argument {
        let_go(lists, reader.into_list());
    }
}

// The first token of what a token of a body stands for, and the argument of which it is.
#[inline(always)]
fn hand_on(lists: &mut Lists, args: &[Option<ListRef>], token: Token) -> (Token, Option<Reader>)
    requires held { AreHeld lists.old args.now }
    requires some { is_gap (first (token_items (cells_in lists.old args.now) token)) ≡ false }
    requires countable { IsCountable lists.old (first (token_items (cells_in lists.old args.now) token)) }
    ensures { HandsOn lists.old lists.new (token_items (cells_in lists.old args.now) token) result.0 result.1 }
{
    if let Token::Number(n) = token {
        let place = (n as usize).saturating_sub(1);
        if place < args.len() {
            if let Some(list) = &args[place] {
                if let Some(first) = first_token(lists, list) {
                    return (first, Some(opened(lists, list)));
                }
            }
        }
    }
    (token, None)
}

// Whether a token comes that is no parameter number.
#[inline(always)]
fn is_text(next: Option<Token>) -> bool
    ensures { IsTrue result → MatchOption next ⊥ IsText }
{
    match next {
        None | Some(Token::Number(_)) => false,
        Some(_) => true,
    }
}

impl Call {
    /// A call that reads what is left of a list.
    pub fn new(body: Reader, count: u32) -> Call
        ensures { result ≡ record { body = body; argument = None; count = count } }
    {
        Call {
            body,
            argument: None,
            count,
        }
    }

    /// How many of its levels are an argument's: 1 or none.
    #[inline(always)]
    pub fn argument_levels(&self) -> u32
        ensures { result ≡ call_open self.now.argument }
    {
        match self.argument {
            Some(_) => 1,
            None => 0,
        }
    }

    /// How many arguments it has.
    pub fn arguments(&self) -> u32
        ensures { result ≡ self.now.count }
    {
        self.count
    }

    // The next token of the argument whose level is open, if one is left.
    #[inline(always)]
    fn later(&self, lists: &Lists) -> Option<Token>
        requires { IfSome self.now.argument (λ r. IsAt lists.now r) }
        ensures { result ≡ slice_get (open_tokens lists.now self.now.argument) 0 }
    {
        match &self.argument {
            Some(argument) => argument.peek(lists),
            None => None,
        }
    }

    // The spot in the macro's list behind the gaps in front of the body.
    #[inline(always)]
    fn behind_gaps(&self, lists: &Lists, args: &[Option<ListRef>]) -> Spot
        requires { IsCall lists.now (with_arguments args.now self.now) }
        ensures reading { IsReading lists.now (number self.now.body) result.at result.read }
        ensures behind { substituted (cells_in lists.now args.now) (drop result.read (tokens_at lists.now (number self.now.body))) ≡ without_gaps (substituted (cells_in lists.now args.now) (rest lists.now self.now.body)) }
    {
        let mut spot = self.body.spot();
        while let Some(token) = self.body.at(lists, spot) {
            let Met::Gap = item_of(lists, args, token) else {
                return spot;
            };
            spot = self.body.behind(lists, spot);
        }
        spot
    }

    /// The next item that is no gap, if one is left.
    #[inline(always)]
    pub fn next(&self, lists: &Lists, args: &[Option<ListRef>]) -> Option<Met>
        requires { IsCall lists.now (with_arguments args.now self.now) }
        ensures { result ≡ met (first (without_gaps (items_of lists.now (with_arguments args.now self.now)))) }
    {
        if let Some(token) = self.later(lists) {
            return Some(Met::Later(token));
        }
        let spot = self.behind_gaps(lists, args);
        match self.body.at(lists, spot) {
            Some(token) => Some(item_of(lists, args, token)),
            None => None,
        }
    }

    // Whether the next item is at hand: a further token of the open argument, or a token of the body that is no parameter
    // number.
    #[inline(always)]
    fn is_at_hand(&self, lists: &Lists) -> bool
        requires { AreAt lists.now self.now.body self.now.argument }
        ensures { (args : List (Option ListRef)) → IsTrue result → IsSome (first (without_gaps (items_of lists.now (with_arguments args self.now)))) }
    {
        match &self.argument {
            Some(argument) => argument.is_left(lists),
            None => is_text(self.body.peek(lists)),
        }
    }

    /// Whether an item is left that is no gap.
    #[inline(always)]
    pub fn is_left(&self, lists: &Lists, args: &[Option<ListRef>]) -> bool
        requires { IsCall lists.now (with_arguments args.now self.now) }
        ensures { result ≡ is_some (first (without_gaps (items_of lists.now (with_arguments args.now self.now)))) }
    {
        self.is_at_hand(lists) || self.next(lists, args).is_some()
    }

    /// Whether nothing is left of it.
    #[inline(always)]
    pub fn is_finished(&self, lists: &Lists) -> bool
        requires { AreAt lists.now self.now.body self.now.argument }
        ensures { (args : List (Option ListRef)) → result ≡ is_empty (items_of lists.now (with_arguments args self.now)) }
    {
        self.later(lists).is_none() && self.body.peek(lists).is_none()
    }

    /// An argument's level of which no token is left goes, with its holder. Whether one went.
    #[inline(always)]
    pub fn close_argument(&mut self, lists: &mut Lists) -> bool
        requires call { AreAt lists.old self.old.body self.old.argument }
        requires held { Covers lists.old (open_holds self.old.argument) }
        ensures closes { (args : List (Option ListRef)) → Closes lists.old lists.new (with_arguments args self.old) (with_arguments args self.new) result }
        ensures count { self.new.count ≡ self.old.count }
        ensures lasting { Lasts lists.old lists.new }
    {
        if self.later(lists).is_some() {
            return false;
        }
        let argument = mem::replace(&mut self.argument, None);
        let went = argument.is_some();
        let_level_go(lists, argument);
        went
    }

    /// The next item, where it is at hand: a further token of the open argument, or a token of the body that is no
    /// parameter number.
    #[inline(always)]
    pub fn quick(&mut self, lists: &Lists) -> Option<Token>
        requires { AreAt lists.now self.old.body self.old.argument }
        ensures pulls { (args : List (Option ListRef)) → AreHeld lists.now args → IfSome result (λ t. CallPulls lists.now lists.now (with_arguments args self.old) (with_arguments args self.new) (without_gaps (items_of lists.now (with_arguments args self.old))) (Some t)) }
        ensures closed { (args : List (Option ListRef)) → IfSome result (λ _. is_opening (met (first (without_gaps (items_of lists.now (with_arguments args self.old))))) ≡ false) }
        ensures count { self.new.count ≡ self.old.count }
        ensures stays { result ≡ None → self.new ≡ self.old }
    {
        match &mut self.argument {
            Some(argument) => argument.pull(lists),
            None => self.body.pull_text(lists),
        }
    }

    /// Passes over the gaps in front, and hands on the item behind them.
    pub fn pull(&mut self, lists: &mut Lists, args: &[Option<ListRef>]) -> Option<Token>
        requires call { IsCall lists.old (with_arguments args.now self.old) }
        requires settled { IsSettled (open_number self.old.argument) (items_of lists.old (with_arguments args.now self.old)) }
        requires countable { IsCountable lists.old (first (without_gaps (items_of lists.old (with_arguments args.now self.old)))) }
        ensures pulls { CallPulls lists.old lists.new (with_arguments args.now self.old) (with_arguments args.now self.new) (without_gaps (items_of lists.old (with_arguments args.now self.old))) result }
        ensures count { self.new.count ≡ self.old.count }
    {
        if let Some(argument) = &mut self.argument {
            return argument.pull(lists);
        }
        let spot = self.behind_gaps(lists, args);
        self.body.go_to(spot);
        let Some(token) = self.body.pull(lists) else {
            return None;
        };
        let (handed, argument) = hand_on(lists, args, token);
        let none = mem::replace(&mut self.argument, argument);
        let_level_go(lists, none);
        Some(handed)
    }

    /// Lets its own list go, and the holder that an argument's level on it has.
    pub fn release(self, lists: &mut Lists)
        requires held { Covers lists.old (readers_hold self.body self.argument) }
        ensures account { Moves lists.old lists.new (readers_hold self.body self.argument) none }
        ensures kept { Keeps lists.old lists.new (readers_hold self.body self.argument) }
        ensures size { length lists.new ≡ length lists.old }
    {
        let Call {
            body,
            argument,
            count: _,
        } = self;
        let_go(lists, body.into_list());
        let_level_go(lists, argument);
    }
}
