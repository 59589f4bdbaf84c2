// Places in a list of tokens, and the characters from one on.
ghost use Rattle.std.specs.Prelude.{◌≡◌, ◌+◌, ◌<◌, ◌≤◌, ◌++◌, length, take, drop, IfSome, MatchOption};
ghost use Rattle.token_lists.specs.Table.{tokens_at, IsHeld};
ghost use Rattle.token_lists.specs.Ids.{id_of, build_id};
ghost use Rattle.macro_call.specs.Cursors.{IsOn, rest_at};
ghost use Rattle.plain_tokens.specs.Tokens.{code_of, character_codes};

use macro_call::{Cursor, at_first, at_first_built};
use tex_defs::Token;
use token_lists::{Build, ListRef, Lists};

/// The place behind so many tokens of a list, or its end. The call walks along them.
pub fn behind(lists: &Lists, list: &ListRef, count: usize) -> Cursor
    requires { IsHeld lists.now (id_of list.now) }
    ensures on { IsOn lists.now (id_of list.now) result }
    ensures rest { rest_at lists.now (id_of list.now) result ≡ drop count (tokens_at lists.now (id_of list.now)) }
{
    let mut from = at_first(lists, list);
    for _k in 0..count {
        match from.next(lists) {
            Some((_, next)) => from = next,
            None => return from,
        }
    }
    from
}

// How many codes a token has: a character has one, no other token has.
fn code_count(token: Token) -> usize
    ensures { result ≡ length (code_of token) }
{
    match token {
        Token::Char { cat: _, code: _ } => 1,
        _ => 0,
    }
}

/// How many codes the characters of a list have, if these are no more than `room`.
pub fn spelt_length(lists: &Lists, build: &Build, room: usize) -> Option<usize>
    requires { IsHeld lists.now (build_id build.now) }
    ensures count { IfSome result (λ n. n ≡ length (character_codes (tokens_at lists.now (build_id build.now)))) }
    ensures fits { MatchOption result (room < length (character_codes (tokens_at lists.now (build_id build.now)))) (λ n. n ≤ room) }
{
    let mut count = 0;
    let mut from = at_first_built(lists, build);
    while let Some((token, next)) = from.next(lists) {
        let more = code_count(token);
        if more > room - count {
            return None;
        }
        count += more;
        from = next;
    }
    Some(count)
}

// The code of a character goes into the buffer, at this place; no other token has one. Answers the place behind it.
fn put_code(buffer: &mut [u8], place: usize, token: Token) -> usize
    requires { place + length (code_of token) ≤ length buffer.old }
    ensures behind { result ≡ place + length (code_of token) }
    ensures front { take (place + length (code_of token)) buffer.new ≡ take place buffer.old ++ code_of token }
    ensures length { length buffer.new ≡ length buffer.old }
{
    let Token::Char { cat: _, code } = token else {
        return place;
    };
    buffer[place] = code;
    place + 1
}

/// The codes of the characters of a list go into the buffer, from this place on. They have room.
pub fn spell(lists: &Lists, build: &Build, buffer: &mut [u8], from: usize)
    requires held { IsHeld lists.now (build_id build.now) }
    requires room { from + length (character_codes (tokens_at lists.now (build_id build.now))) ≤ length buffer.old }
    ensures front { take (from + length (character_codes (tokens_at lists.now (build_id build.now)))) buffer.new ≡ take from buffer.old ++ character_codes (tokens_at lists.now (build_id build.now)) }
{
    let mut place = from;
    let mut at = at_first_built(lists, build);
    while let Some((token, next)) = at.next(lists) {
        place = put_code(buffer, place, token);
        at = next;
    }
}
