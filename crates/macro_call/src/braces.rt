// The outer braces of an argument.
ghost use Rattle.std.specs.Prelude.{◌≡◌, length};
ghost use Rattle.token_lists.specs.Table.{tokens_at};
ghost use Rattle.token_lists.specs.Accounts.{Moves, none};
ghost use Rattle.token_lists.specs.Ids.{build_id, IsBuilding};
ghost use Rattle.plain_tokens.specs.Arguments.{is_group, without_braces};
ghost use Rattle.macro_call.specs.Braces.{closes_last};
ghost use Rattle.macro_call.specs.Cursors.{IsOn, rest_at};
ghost use Rattle.macro_call.specs.Tables.{IsOnly};

use crate::cursor::{Cursor, at_first_built};
use crate::matches::behind;
use crate::tokens::is_begin;
use token_lists::{Build, Lists};

// Whether the group that is open in front of a place closes with the last token, and not before.
fn closes_last(lists: &Lists, build: &Build, begin: Cursor) -> bool
    requires on { IsOn lists.now (build_id build.now) begin }
    requires second { begin.index ≡ 1 }
    ensures { result ≡ closes_last 1 (rest_at lists.now (build_id build.now) begin) }
{
    let mut from = begin;
    let mut groups = 1usize;
    while let Some((token, next)) = from.next(lists) {
        groups = behind(groups, token);
        from = next;
        if groups == 0 {
            return from.next(lists).is_none();
        }
    }
    false
}

// Whether the list is exactly one group.
fn is_group(lists: &Lists, build: &Build) -> bool
    requires { IsBuilding lists.now build.now }
    ensures { result ≡ is_group (tokens_at lists.now (build_id build.now)) }
{
    let Some((first, from)) = at_first_built(lists, build).next(lists) else {
        return false;
    };
    is_begin(first) && closes_last(lists, build, from)
}

// A list that is exactly one group loses its braces.
pub fn without_braces(lists: &mut Lists, build: &mut Build)
    requires { IsBuilding lists.old build.old }
    ensures same { build_id build.new ≡ build_id build.old }
    ensures building { IsBuilding lists.new build.new }
    ensures stripped { tokens_at lists.new (build_id build.old) ≡ without_braces (tokens_at lists.old (build_id build.old)) }
    ensures others { IsOnly lists.old lists.new (build_id build.old) }
    ensures account { Moves lists.old lists.new none none }
    ensures length { length lists.new ≡ length lists.old }
{
    if is_group(lists, build) {
        lists.drop_first(build);
        lists.drop_last(build);
    }
}
