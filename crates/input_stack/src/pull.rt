// What one level gives.
ghost use Rattle.std.specs.Prelude.{◌≡◌, length, false, List, Option, None, Some, IfSome, is_some, cond};
ghost use Rattle.token_lists.specs.declared.ListRef.{ListRef};
ghost use Rattle.line_lexer.specs.declared.Ahead.TheVariants as ahead;
ghost use Rattle.input_stack.specs.Pulls.{answer_of};
ghost use Rattle.input_stack.specs.Stacks.{IsLevel, IsUnfinished};
ghost use Rattle.input_stack.specs.CallViews.{IsCountable};
ghost use Rattle.input_stack.specs.Reads.{AreReadersAt};
ghost use Rattle.input_stack.specs.Wholes.{whole, level_count};
ghost use Rattle.input_stack.specs.Levels.{LevelPulls, HandsAtOnce, IsLevelInBuffer, level_item, is_level_passed, level_looks};

use crate::level::{Level, Pulled};
use line_lexer::{Ahead, Lexed, looks, next};
use tex_defs::Token;
use token_lists::{ListRef, Lists};
use world_io::InId;

fn line_answer(id: Option<InId>, lexed: Lexed) -> Pulled
    ensures { result ≡ answer_of id lexed }
{
    match lexed {
        Lexed::End => match id {
            Some(_) => Pulled::LineEnd,
            None => Pulled::ReadEnd,
        },
        other => Pulled::Lexed(other),
    }
}

/// The next item of a list or a call, where it is a token at hand that opens no level.
#[inline(always)]
pub fn quick_level(level: &mut Level, lists: &Lists) -> Option<Token>
    requires { AreReadersAt lists.now level.old }
    ensures gives { (args : List (Option ListRef)) → IsLevel lists.now (whole args level.old) → IfSome result (λ t. HandsAtOnce lists.now (whole args level.old) (whole args level.new) t) }
    ensures count { level_count level.new ≡ level_count level.old }
    ensures stays { result ≡ None → level.new ≡ level.old }
{
    match level {
        Level::List(reader) => reader.pull(lists),
        Level::Call(call) => call.quick(lists),
        Level::Source(_) => None,
    }
}

/// Whether a list or a call has an item left that is no gap.
#[inline(always)]
pub fn has_item(level: &Level, args: &[Option<ListRef>], lists: &Lists) -> bool
    requires { IsLevel lists.now (whole args.now level.now) }
    ensures { result ≡ is_some (level_item lists.now (whole args.now level.now)) }
{
    match level {
        Level::List(reader) => reader.is_left(lists),
        Level::Call(call) => call.is_left(lists, args),
        Level::Source(_) => false,
    }
}

/// What an unfinished level gives, of which more is left than gaps.
pub fn pull_level(
    level: &mut Level,
    args: &[Option<ListRef>],
    lists: &mut Lists,
    bytes: &mut [u8],
    categories: &[u8; 256],
) -> Pulled
    requires level { IsLevel lists.old (whole args.now level.old) }
    requires unfinished { IsUnfinished lists.old (whole args.now level.old) }
    requires more { is_level_passed lists.old (whole args.now level.old) ≡ false }
    requires countable { IsCountable lists.old (level_item lists.old (whole args.now level.old)) }
    requires in_buffer { IsLevelInBuffer (whole args.now level.old) (length bytes.old) }
    ensures size { length bytes.new ≡ length bytes.old }
    ensures pulls { LevelPulls lists.old lists.new categories.now bytes.old bytes.new (whole args.now level.old) (whole args.now level.new) result }
    ensures count { level_count level.new ≡ level_count level.old }
{
    match level {
        Level::List(reader) => match reader.pull(lists) {
            Some(token) => Pulled::Token(token),
            None => Pulled::Bottom,
        },
        Level::Call(call) => match call.pull(lists, args) {
            Some(token) => Pulled::Token(token),
            None => Pulled::Bottom,
        },
        Level::Source(source) => {
            let lexed = next(bytes, &mut source.line, categories);
            line_answer(source.id, lexed)
        }
    }
}

// A token comes, or nothing of this level.
#[inline(always)]
fn token_if(left: bool) -> Option<Ahead>
    ensures { result ≡ cond left (Some ahead.Token) None }
{
    if left { Some(Ahead::Token) } else { None }
}

/// What an unfinished level gives next, where it gives something.
#[inline(always)]
pub fn level_looks(
    level: &Level,
    args: &[Option<ListRef>],
    lists: &Lists,
    bytes: &[u8],
    categories: &[u8; 256],
) -> Option<Ahead>
    requires level { IsLevel lists.now (whole args.now level.now) }
    requires in_buffer { IsLevelInBuffer (whole args.now level.now) (length bytes.now) }
    ensures { result ≡ level_looks lists.now categories.now bytes.now (whole args.now level.now) }
{
    match level {
        Level::List(reader) => token_if(reader.is_left(lists)),
        Level::Call(call) => token_if(call.is_left(lists, args)),
        Level::Source(source) => Some(looks(bytes, &source.line, categories)),
    }
}
