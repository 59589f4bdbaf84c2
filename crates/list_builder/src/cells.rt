// Tokens that go into a list that is being built.
ghost use Rattle.std.specs.Prelude.{◌≡◌, ◌<◌, ◌++◌, ◌∷◌, [], ℕ, length, OnOk, OnErr, IfErr, IfSome, IsSome, None};
ghost use Rattle.token_lists.specs.Table.{tokens_at, entry_at, holders_at};
ghost use Rattle.token_lists.specs.Accounts.{Moves, none, cell_holds};
ghost use Rattle.token_lists.specs.Ids.{id_of, build_id, IsBuilding};
ghost use Rattle.token_lists.specs.Refusals.{IsFull};
ghost use Rattle.plain_state.specs.Definitions.{with_cell};
ghost use Rattle.list_builder.specs.Stages.{grown};
ghost use Rattle.list_builder.specs.Scans.{cell_tokens, build_holds, work_by, IsBuildingIn, OwnsBuild, IsOnly, IsFront, IsGrownByPart};

use crate::stage::Step;
use tex_defs::{Full, Token};
use token_lists::{Build, ListRef, Lists};

// Appends a token.
fn store(lists: &mut Lists, build: &mut Build, token: Token) -> Result<(), Full>
    requires { IsBuilding lists.old build.old }
    ensures same { build_id build.new ≡ build_id build.old }
    ensures building { IsBuilding lists.new build.new }
    ensures grown { OnOk result (tokens_at lists.new (build_id build.old) ≡ tokens_at lists.old (build_id build.old) ++ token ∷ []) }
    ensures others { IsOnly lists.old lists.new (build_id build.old) }
    ensures account { Moves lists.old lists.new none none }
    ensures err { OnErr result (lists.new ≡ lists.old) }
    ensures full { IfErr result (λ f. IsFull f lists.new) }
{
    lists.append(build, token)
}

// Appends a token, if there is one.
fn store_cell(lists: &mut Lists, build: &mut Build, cell: Option<Token>) -> Result<(), Full>
    requires { IsBuilding lists.old build.old }
    ensures same { build_id build.new ≡ build_id build.old }
    ensures building { IsBuilding lists.new build.new }
    ensures grown { OnOk result (tokens_at lists.new (build_id build.old) ≡ with_cell (tokens_at lists.old (build_id build.old)) cell) }
    ensures others { IsOnly lists.old lists.new (build_id build.old) }
    ensures account { Moves lists.old lists.new none none }
    ensures some { OnErr result (IsSome cell) }
    ensures err { OnErr result (lists.new ≡ lists.old) }
    ensures full { IfErr result (λ f. IsFull f lists.new) }
{
    match cell {
        Some(token) => store(lists, build, token),
        None => Ok(()),
    }
}

// Appends the tokens of a step.
fn store_step(lists: &mut Lists, build: &mut Build, step: Step) -> Result<(), Full>
    requires { IsBuilding lists.old build.old }
    ensures same { build_id build.new ≡ build_id build.old }
    ensures building { IsBuilding lists.new build.new }
    ensures grown { OnOk result (tokens_at lists.new (build_id build.old) ≡ grown step (tokens_at lists.old (build_id build.old))) }
    ensures others { IsOnly lists.old lists.new (build_id build.old) }
    ensures account { Moves lists.old lists.new none none }
    ensures cut_short { OnErr result (IsGrownByPart (tokens_at lists.old (build_id build.old)) (tokens_at lists.new (build_id build.old)) (grown step (tokens_at lists.old (build_id build.old)))) }
    ensures full { IfErr result (λ f. IsFull f lists.new) }
{
    if let Err(full) = store_cell(lists, build, step.first) {
        return Err(full);
    }
    store_cell(lists, build, step.second)
}

// The same, of the list in work.
pub fn grow(lists: &mut Lists, work: &mut Option<Build>, step: Step) -> Result<(), Full>
    requires { IsBuildingIn lists.old work.old }
    ensures building { IsBuildingIn lists.new work.new }
    ensures same { (h : ℕ) → build_holds work.new h ≡ build_holds work.old h }
    ensures grown { OnOk result (work_by lists.new work.new ≡ grown step (work_by lists.old work.old)) }
    ensures others { (h : ℕ) → build_holds work.old h ≡ 0 → entry_at lists.new h ≡ entry_at lists.old h }
    ensures account { Moves lists.old lists.new none none }
    ensures cut_short { OnErr result (IsGrownByPart (work_by lists.old work.old) (work_by lists.new work.new) (grown step (work_by lists.old work.old))) }
    ensures full { IfErr result (λ f. IsFull f lists.new) }
{
    match work {
        Some(build) => store_step(lists, build, step),
        None => unreachable!(),
    }
}

// Appends the tokens of a list that somebody else holds.
pub fn copy(lists: &mut Lists, work: &mut Option<Build>, list: &ListRef) -> Result<(), Full>
    requires building { IsBuildingIn lists.old work.old }
    requires outside { build_holds work.old (id_of list.now) < holders_at lists.old (id_of list.now) }
    ensures building { IsBuildingIn lists.new work.new }
    ensures same { (h : ℕ) → build_holds work.new h ≡ build_holds work.old h }
    ensures grown { OnOk result (work_by lists.new work.new ≡ work_by lists.old work.old ++ tokens_at lists.old (id_of list.now)) }
    ensures others { (h : ℕ) → build_holds work.old h ≡ 0 → entry_at lists.new h ≡ entry_at lists.old h }
    ensures account { Moves lists.old lists.new none none }
    ensures cut_short { OnErr result (IsFront (work_by lists.old work.old) (work_by lists.new work.new) (work_by lists.old work.old ++ tokens_at lists.old (id_of list.now))) }
    ensures full { IfErr result (λ f. IsFull f lists.new) }
{
    match work {
        Some(build) => lists.append_copy(build, list),
        None => unreachable!(),
    }
}

// The list is complete: none where it has no token.
pub fn complete(lists: &mut Lists, work: Option<Build>) -> Option<ListRef>
    requires { IsBuildingIn lists.old work }
    ensures tokens { cell_tokens lists.new result ≡ work_by lists.old work }
    ensures listed { IfSome result (λ r. 0 < length (tokens_at lists.new (id_of r))) }
    ensures others { (h : ℕ) → build_holds work h ≡ 0 → entry_at lists.new h ≡ entry_at lists.old h }
    ensures account { Moves lists.old lists.new (build_holds work) (cell_holds result) }
{
    let Some(build) = work else {
        return None;
    };
    if lists.first_built(&build).is_none() {
        lists.abandon(build);
        return None;
    }
    Some(lists.finish(build))
}

// Frees the list in work, if there is one.
pub fn abandon(lists: &mut Lists, work: Option<Build>)
    requires { OwnsBuild lists.old work }
    ensures account { Moves lists.old lists.new (build_holds work) none }
    ensures others { (h : ℕ) → build_holds work h ≡ 0 → entry_at lists.new h ≡ entry_at lists.old h }
    ensures free { work ≡ None → lists.new ≡ lists.old }
{
    if let Some(build) = work {
        lists.abandon(build);
    }
}
