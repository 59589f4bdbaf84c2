// Lists that are being built, as the list in work is.
ghost use Rattle.std.specs.Prelude.{◌≡◌, ◌≢◌, ◌≤◌, ◌++◌, ◌∷◌, [], length, take, OnOk, OnErr, IfErr};
ghost use Rattle.token_lists.specs.Table.{tokens_at};
ghost use Rattle.token_lists.specs.Accounts.{Moves, none};
ghost use Rattle.token_lists.specs.Ids.{id_of, build_id, IsBuilding};
ghost use Rattle.token_lists.specs.Refusals.{IsFull};
ghost use Rattle.macro_call.specs.Cursors.{IsOn, delimiter_at};
ghost use Rattle.macro_call.specs.Tables.{IsOnly, IsGrownByPart};

use crate::cursor::Cursor;
use tex_defs::{Full, Token};
use token_lists::{Build, ListRef, Lists};

// Appends a token.
#[inline(always)]
pub fn store(lists: &mut Lists, build: &mut Build, token: Token) -> Result<(), Full>
    requires { IsBuilding lists.old build.old }
    ensures same { build_id build.new ≡ build_id build.old }
    ensures building { IsBuilding lists.new build.new }
    ensures grown { OnOk result (tokens_at lists.new (build_id build.old) ≡ tokens_at lists.old (build_id build.old) ++ token ∷ []) }
    ensures others { IsOnly lists.old lists.new (build_id build.old) }
    ensures account { Moves lists.old lists.new none none }
    ensures err { OnErr result (lists.new ≡ lists.old) }
    ensures full { IfErr result (λ f. IsFull f lists.new) }
    ensures length { length lists.new ≡ length lists.old }
{
    lists.append(build, token)
}

// Appends the first tokens of a delimiter.
#[inline(always)]
pub fn store_front(
    lists: &mut Lists,
    list: &ListRef,
    build: &mut Build,
    delimiter: Cursor,
    count: usize,
) -> Result<(), Full>
    requires building { IsBuilding lists.old build.old }
    requires on { IsOn lists.old (id_of list.now) delimiter }
    requires apart { id_of list.now ≢ build_id build.old }
    requires inside { count ≤ length (delimiter_at lists.old (id_of list.now) delimiter) }
    ensures same { build_id build.new ≡ build_id build.old }
    ensures building { IsBuilding lists.new build.new }
    ensures grown { OnOk result (tokens_at lists.new (build_id build.old) ≡ tokens_at lists.old (build_id build.old) ++ take count (delimiter_at lists.old (id_of list.now) delimiter)) }
    ensures others { IsOnly lists.old lists.new (build_id build.old) }
    ensures account { Moves lists.old lists.new none none }
    ensures err { OnErr result (IsGrownByPart (tokens_at lists.old (build_id build.old)) (tokens_at lists.new (build_id build.old)) (take count (delimiter_at lists.old (id_of list.now) delimiter))) }
    ensures full { IfErr result (λ f. IsFull f lists.new) }
    ensures length { length lists.new ≡ length lists.old }
{
    let mut from = delimiter;
    for _i in 0..count {
        let (token, next) = from.delimiting(lists, list);
        if let Err(full) = store(lists, build, token) {
            return Err(full);
        }
        from = next;
    }
    Ok(())
}
