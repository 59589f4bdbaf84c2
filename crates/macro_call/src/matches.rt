// Partial matches of a delimiter.
ghost use Rattle.std.specs.Prelude.{◌≡◌, ◌+◌, ◌-◌, ◌<◌, ◌≤◌, ◌^◌, ◌++◌, ◌∷◌, ◌==◌, ◌&&◌, [], false, length, take, drop};
ghost use Rattle.token_lists.specs.Ids.{id_of};
ghost use Rattle.plain_tokens.specs.Arguments.{is_prefix, partial, unmatched, open_behind};
ghost use Rattle.macro_call.specs.Cursors.{IsOn, IsAhead, IsBehindFront, delimiter_at};

use crate::cursor::Cursor;
use crate::tokens::{is_begin, is_end, same};
use tex_defs::Token;
use token_lists::{ListRef, Lists};

// Where the first tokens from one place on, as many as `count`, and then x, begin the delimiter: the place in it behind
// these.
fn behind_front(
    lists: &Lists,
    list: &ListRef,
    delimiter: Cursor,
    from: Cursor,
    count: usize,
    x: Token,
) -> Option<Cursor>
    requires on { IsOn lists.now (id_of list.now) delimiter }
    requires from_on { IsOn lists.now (id_of list.now) from }
    requires inside { count < length (delimiter_at lists.now (id_of list.now) delimiter) }
    requires from_inside { count ≤ length (delimiter_at lists.now (id_of list.now) from) }
    ensures { IsBehindFront lists.now (id_of list.now) delimiter (take count (delimiter_at lists.now (id_of list.now) from) ++ x ∷ []) (count + 1) result }
{
    let mut wanted = delimiter;
    let mut met = from;
    for _k in 0..count {
        let (a, next) = met.delimiting(lists, list);
        let (b, behind) = wanted.delimiting(lists, list);
        if !same(a, b) {
            return None;
        }
        met = next;
        wanted = behind;
    }
    let (b, behind) = wanted.delimiting(lists, list);
    if !same(x, b) {
        return None;
    }
    Some(behind)
}

// The groups that are open behind a token.
#[inline(always)]
pub fn behind(depth: usize, x: Token) -> usize
    requires { depth + 1 < 2 ^ 64 }
    ensures { result ≡ open_behind depth x }
{
    if is_begin(x) {
        depth + 1
    } else if is_end(x) && depth > 0 {
        depth - 1
    } else {
        depth
    }
}

// A match that x doesn't go on with, or that began where groups were open, begins again as early as it can: what `advance_match` answers then.
fn begin_again(
    lists: &Lists,
    list: &ListRef,
    delimiter: Cursor,
    matched: usize,
    depth: usize,
    x: Token,
) -> (usize, Cursor)
    requires on { IsOn lists.now (id_of list.now) delimiter }
    requires inside { matched < length (delimiter_at lists.now (id_of list.now) delimiter) }
    requires shallow { depth + matched + 1 < 2 ^ 64 }
    requires fails { ((depth == 0) && is_prefix (take matched (delimiter_at lists.now (id_of list.now) delimiter) ++ x ∷ []) (delimiter_at lists.now (id_of list.now) delimiter)) ≡ false }
    ensures within { result.0 ≤ matched + 1 }
    ensures part { partial (delimiter_at lists.now (id_of list.now) delimiter) depth (take matched (delimiter_at lists.now (id_of list.now) delimiter) ++ x ∷ []) ≡ drop result.0 (take matched (delimiter_at lists.now (id_of list.now) delimiter) ++ x ∷ []) }
    ensures rest { unmatched (delimiter_at lists.now (id_of list.now) delimiter) depth (take matched (delimiter_at lists.now (id_of list.now) delimiter) ++ x ∷ []) ≡ take result.0 (take matched (delimiter_at lists.now (id_of list.now) delimiter) ++ x ∷ []) }
    ensures next { IsAhead lists.now (id_of list.now) delimiter (matched + 1 - result.0) result.1 }
{
    let mut groups = depth;
    let mut from = delimiter;
    for i in 0..matched {
        let (d, second) = from.delimiting(lists, list);
        groups = behind(groups, d);
        from = second;
        if groups == 0 {
            if let Some(next) = behind_front(lists, list, delimiter, from, matched - i - 1, x) {
                return (i + 1, next);
            }
        }
    }
    (matched + 1, delimiter)
}

// How many of the matched tokens, and then x, no match can need any more, and the place in the delimiter behind the
// others, which are the partial match. `next` is that behind the matched tokens: where x stands there, the match goes on.
// Where it began, `depth` groups were open.
pub fn advance_match(
    lists: &Lists,
    list: &ListRef,
    delimiter: Cursor,
    next: Cursor,
    matched: usize,
    depth: usize,
    x: Token,
) -> (usize, Cursor)
    requires on { IsOn lists.now (id_of list.now) delimiter }
    requires next { IsAhead lists.now (id_of list.now) delimiter matched next }
    requires inside { matched < length (delimiter_at lists.now (id_of list.now) delimiter) }
    requires shallow { depth + matched + 1 < 2 ^ 64 }
    ensures within { result.0 ≤ matched + 1 }
    ensures part { partial (delimiter_at lists.now (id_of list.now) delimiter) depth (take matched (delimiter_at lists.now (id_of list.now) delimiter) ++ x ∷ []) ≡ drop result.0 (take matched (delimiter_at lists.now (id_of list.now) delimiter) ++ x ∷ []) }
    ensures rest { unmatched (delimiter_at lists.now (id_of list.now) delimiter) depth (take matched (delimiter_at lists.now (id_of list.now) delimiter) ++ x ∷ []) ≡ take result.0 (take matched (delimiter_at lists.now (id_of list.now) delimiter) ++ x ∷ []) }
    ensures next { IsAhead lists.now (id_of list.now) delimiter (matched + 1 - result.0) result.1 }
{
    let (wanted, behind) = next.delimiting(lists, list);
    if depth == 0 && same(x, wanted) {
        return (0, behind);
    }
    // Most tokens neither go on with a match nor begin one.
    if matched == 0 {
        return (1, delimiter);
    }
    begin_again(lists, list, delimiter, matched, depth, x)
}
