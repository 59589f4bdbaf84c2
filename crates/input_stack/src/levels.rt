// What a level is and what is left of it.
ghost use Rattle.std.specs.Prelude.{◌≡◌, ◌-◌, ◌≤◌, List, MatchOption, Option, false, length, option_map, take, true, vec_capacity};
ghost use Rattle.token_lists.specs.declared.ListRef.{ListRef};
ghost use Rattle.token_lists.specs.Accounts.{Moves, Keeps, Covers, none};
ghost use Rattle.input_stack.specs.Lasting.{Lasts};
ghost use Rattle.input_stack.specs.CallViews.{is_opening, met, opens};
ghost use Rattle.input_stack.specs.Levels.{level_item, is_level_finished, is_level_passed, LevelCloses};
ghost use Rattle.input_stack.specs.Stacks.{IsLevel};
ghost use Rattle.input_stack.specs.View.{level_holds, level_open};
ghost use Rattle.input_stack.specs.Reads.{AreReadersAt, level_readers_hold};
ghost use Rattle.input_stack.specs.Wholes.{whole, own, beneath, level_count};

use crate::level::Level;
use crate::met::Met;
use crate::release::{let_cells_go, let_go};
use token_lists::{ListRef, Lists};

/// How many levels of arguments stand on it.
#[inline(always)]
pub fn argument_levels(level: &Level) -> u32
    ensures { (args : List (Option ListRef)) → result ≡ level_open (whole args level.now) }
{
    match level {
        Level::Call(call) => call.argument_levels(),
        Level::List(_) | Level::Source(_) => 0,
    }
}

// How many arguments its call has.
#[inline(always)]
fn arguments(level: &Level) -> u32
    ensures { result ≡ level_count level.now }
{
    match level {
        Level::Call(call) => call.arguments(),
        Level::List(_) | Level::Source(_) => 0,
    }
}

/// Where its own arguments begin among so many, which are those of all levels up to it.
#[inline(always)]
pub fn first_own(level: &Level, count: usize) -> usize
    requires { level_count level.now ≤ count }
    ensures { result ≡ count - level_count level.now }
{
    count - arguments(level) as usize
}

/// Whether it is a list or a call of which nothing is left.
#[inline(always)]
pub fn is_finished(level: &Level, lists: &Lists) -> bool
    requires { AreReadersAt lists.now level.now }
    ensures { (args : List (Option ListRef)) → result ≡ is_level_finished lists.now (whole args level.now) }
{
    match level {
        Level::List(reader) => reader.peek(lists).is_none(),
        Level::Call(call) => call.is_finished(lists),
        Level::Source(_) => false,
    }
}

// The next item of a list or a call that is no gap, if one is left.
#[inline(always)]
fn next_item(level: &Level, args: &[Option<ListRef>], lists: &Lists) -> Option<Met>
    requires { IsLevel lists.now (whole args.now level.now) }
    ensures { result ≡ met (level_item lists.now (whole args.now level.now)) }
{
    match level {
        Level::List(reader) => match reader.peek(lists) {
            Some(token) => Some(Met::Text(token)),
            None => None,
        },
        Level::Call(call) => call.next(lists, args),
        Level::Source(_) => None,
    }
}

// Whether an item is an argument's first token, if there is an item.
fn opens(next: Option<Met>) -> Option<bool>
    ensures { result ≡ option_map opens next }
{
    match next {
        None => None,
        Some(Met::First(_)) => Some(true),
        Some(_) => Some(false),
    }
}

/// Whether its next item is an argument's first token; `None` where it is a list or a call of which nothing is left but gaps.
#[inline(always)]
pub fn next_opens(level: &Level, args: &[Option<ListRef>], lists: &Lists) -> Option<bool>
    requires { IsLevel lists.now (whole args.now level.now) }
    ensures { MatchOption result (is_level_passed lists.now (whole args.now level.now) ≡ true) (λ o. (is_level_passed lists.now (whole args.now level.now) ≡ false) × (o ≡ is_opening (met (level_item lists.now (whole args.now level.now))))) }
{
    match level {
        Level::Source(_) => Some(false),
        Level::List(_) | Level::Call(_) => opens(next_item(level, args, lists)),
    }
}

/// Whether it is a list or a call of which nothing is left but gaps.
#[inline(always)]
pub fn is_passed(level: &Level, args: &[Option<ListRef>], lists: &Lists) -> bool
    requires { IsLevel lists.now (whole args.now level.now) }
    ensures { result ≡ is_level_passed lists.now (whole args.now level.now) }
{
    match level {
        Level::Source(_) => false,
        Level::List(_) | Level::Call(_) => next_item(level, args, lists).is_none(),
    }
}

/// The level of an argument of which no token is left goes. Whether one went.
#[inline(always)]
pub fn close_argument(level: &mut Level, lists: &mut Lists) -> bool
    requires level { AreReadersAt lists.old level.old }
    requires held { Covers lists.old (level_readers_hold level.old) }
    ensures closes { (args : List (Option ListRef)) → LevelCloses lists.old lists.new (whole args level.old) (whole args level.new) result }
    ensures count { level_count level.new ≡ level_count level.old }
    ensures lasting { Lasts lists.old lists.new }
{
    match level {
        Level::Call(call) => call.close_argument(lists),
        Level::List(_) | Level::Source(_) => false,
    }
}

// Lets all that it holds go but the arguments of its call.
#[inline(always)]
fn let_readers_go(level: Level, lists: &mut Lists)
    requires { Covers lists.old (level_readers_hold level) }
    ensures account { Moves lists.old lists.new (level_readers_hold level) none }
    ensures kept { Keeps lists.old lists.new (level_readers_hold level) }
    ensures lasting { Lasts lists.old lists.new }
{
    match level {
        Level::List(reader) => let_go(lists, reader.into_list()),
        Level::Call(call) => call.release(lists),
        Level::Source(_) => {}
    }
}

/// Lets all that it holds go, with its own arguments, which are on top of those of all levels.
#[inline(always)]
pub fn release(level: Level, arguments: &mut Vec<Option<ListRef>>, lists: &mut Lists)
    requires count { level_count level ≤ length arguments.old.items }
    requires held { Covers lists.old (level_holds (whole (own arguments.old.items level) level)) }
    ensures beneath { arguments.new.items ≡ beneath arguments.old.items level }
    ensures capacity { vec_capacity arguments.new ≡ vec_capacity arguments.old }
    ensures account { Moves lists.old lists.new (level_holds (whole (own arguments.old.items level) level)) none }
    ensures kept { Keeps lists.old lists.new (level_holds (whole (own arguments.old.items level) level)) }
    ensures lasting { Lasts lists.old lists.new }
{
    let first = first_own(&level, arguments.len());
    let_readers_go(level, lists);
    let_cells_go(arguments, first, lists);
}
