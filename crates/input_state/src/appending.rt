// Tokens that go to the end of a list that is being built.
ghost use Rattle.std.specs.Prelude.{◌≡◌, ◌≢◌, ℕ, ◌<◌, ◌+◌, ◌++◌, [], ◌∷◌, length, map, OnOk, OnErr, IfErr};
ghost use Rattle.equivalents.specs.Cases.{case_codes, case_changed, changed_code};
ghost use Rattle.token_lists.specs.Table.{words, tokens_at};
ghost use Rattle.token_lists.specs.Ids.{build_id, IsBuilding};
ghost use Rattle.token_lists.specs.Accounts.{Moves, none};
ghost use Rattle.token_lists.specs.Refusals.{IsFull};
ghost use Rattle.macro_call.specs.Cursors.{IsOn, rest_at};
ghost use Rattle.input_state.specs.Changes.{IsOnly};
ghost use Rattle.input_state.specs.Appends.{changed, IsElsewhere, IsAppendedInPart};

use eqtb_save::{CodeKind, Eqtb, Loc, Val};
use macro_call::Cursor;
use tex_defs::{Full, Name, Token};
use token_lists::{Build, Lists};

/// What becomes of a token where it is appended.
#[derive(Clone, Copy)]
pub enum Change {
    Nothing,
    /// A character becomes a capital letter, or a small one.
    Case(bool),
}

/// Appends a token. What is used then says that there was room for it.
#[inline(always)]
pub fn append(lists: &mut Lists, build: &mut Build, token: Token) -> Result<(), Full>
    requires { IsBuilding lists.old build.old }
    ensures same { build_id build.new ≡ build_id build.old }
    ensures building { IsBuilding lists.new build.new }
    ensures grown { OnOk result (tokens_at lists.new (build_id build.old) ≡ tokens_at lists.old (build_id build.old) ++ token ∷ []) }
    ensures others { IsOnly lists.old lists.new (build_id build.old) }
    ensures account { Moves lists.old lists.new none none }
    ensures room { OnOk result (words lists.old < length lists.old) }
    ensures words { words lists.new + length (tokens_at lists.old (build_id build.old)) ≡ words lists.old + length (tokens_at lists.new (build_id build.old)) }
    ensures err { OnErr result (lists.new ≡ lists.old) }
    ensures full { IfErr result (λ f. IsFull f lists.old) }
    ensures length { length lists.new ≡ length lists.old }
{
    match lists.append(build, token) {
        Ok(()) => {
            let _words = lists.used();
            Ok(())
        }
        Err(full) => Err(full),
    }
}

// The capital letter of a character, or its small one; where that has the code 0, the character itself.
fn change_code(table: &Eqtb, upper: bool, code: u8) -> u8
    ensures { result ≡ changed_code (case_codes upper table.now.groups.now) code }
{
    let kind = if upper {
        CodeKind::Uppercase
    } else {
        CodeKind::Lowercase
    };
    match table.value(Loc::Code { kind, code }) {
        Val::Number(n) if n > 0 && n < 256 => n as u8,
        _ => code,
    }
}

// A token as `\uppercase` or `\lowercase` changes it.
fn change_case(table: &Eqtb, upper: bool, token: Token) -> Token
    ensures { result ≡ case_changed (case_codes upper table.now.groups.now) token }
{
    match token {
        Token::Char { cat, code } => Token::Char {
            cat,
            code: change_code(table, upper, code),
        },
        Token::Named(Name::Active(code)) => {
            Token::Named(Name::Active(change_code(table, upper, code)))
        }
        other => other,
    }
}

fn apply(change: Change, table: &Eqtb, token: Token) -> Token
    ensures { result ≡ changed change table.now.groups.now token }
{
    match change {
        Change::Nothing => token,
        Change::Case(upper) => change_case(table, upper, token),
    }
}

/// Appends the tokens from this place on, each of them changed so. The place is in another list.
pub fn append_from(
    lists: &mut Lists,
    build: &mut Build,
    from: Cursor,
    table: &Eqtb,
    change: Change,
) -> Result<(), Full>
    requires building { IsBuilding lists.old build.old }
    requires elsewhere { IsElsewhere lists.old (build_id build.old) from }
    ensures same { build_id build.new ≡ build_id build.old }
    ensures building { IsBuilding lists.new build.new }
    ensures grown { OnOk result ((id : ℕ) → IsOn lists.old id from → id ≢ build_id build.old → tokens_at lists.new (build_id build.old) ≡ tokens_at lists.old (build_id build.old) ++ map (changed change table.now.groups.now) (rest_at lists.old id from)) }
    ensures others { IsOnly lists.old lists.new (build_id build.old) }
    ensures account { Moves lists.old lists.new none none }
    ensures words { words lists.new + length (tokens_at lists.old (build_id build.old)) ≡ words lists.old + length (tokens_at lists.new (build_id build.old)) }
    ensures err { OnErr result ((id : ℕ) → IsOn lists.old id from → id ≢ build_id build.old → IsAppendedInPart (map (changed change table.now.groups.now) (rest_at lists.old id from)) (tokens_at lists.old (build_id build.old)) (tokens_at lists.new (build_id build.old))) }
    ensures full { IfErr result (λ f. IsFull f lists.new) }
    ensures length { length lists.new ≡ length lists.old }
{
    let mut at = from;
    while let Some((token, next)) = at.next(lists) {
        let _words = lists.used();
        append(lists, build, apply(change, table, token))?;
        at = next;
    }
    Ok(())
}
