//! Parts that hold lists and read them, as the crates above do, and one life of a list.

ghost use Rattle.std.specs.Prelude.{◌≡◌, ℕ, ◌+◌, ◌<◌, ◌^◌, length, slice_get, slice_set, slice_index_or, IfOk, IfSome, IfNone, IsSome, ◌↔◌, None, Some};
ghost use Rattle.token_lists.specs.Accounts.{IsReading, Moves, Covers, Keeps, none, holds, cell_holds, cells_hold};
ghost use Rattle.token_lists.specs.Table.{tokens_at, holders_at, IsHeld};
ghost use Rattle.token_lists.specs.Ids.{id_of, build_id, IsBuilding};

use mem_words::Place;
use std::mem;
use tex_defs::{Full, Name, Table, Token};
use token_lists::{Build, ListRef, Lists};

// What an input level does, which keeps a list, the place of its next token and the place's index.
fn pull(lists: &Lists, list: &ListRef, place: Place, index: usize) -> (Token, Option<Place>)
    requires { IsReading lists.now (id_of list.now) (Some place) index }
    ensures token { slice_get (tokens_at lists.now (id_of list.now)) index ≡ Some result.0 }
    ensures reading { IsReading lists.now (id_of list.now) result.1 (index + 1) }
{
    (lists.token(place), lists.next(place))
}

// What a register does that gets another's list: the one holder moves from its old list to the other.
fn set_register(lists: &mut Lists, from: &ListRef, register: ListRef) -> ListRef
    requires from_held { IsHeld lists.old (id_of from.now) }
    requires old_held { IsHeld lists.old (id_of register) }
    requires countable { holders_at lists.old (id_of from.now) + 1 < 2 ^ 32 }
    ensures same { id_of result ≡ id_of from.now }
    ensures account { Moves lists.old lists.new (holds (id_of register)) (holds (id_of from.now)) }
{
    let shared = lists.share(from);
    lists.release(register);
    shared
}

// A list that is read, the place of its next token, and how many tokens were read. It holds its list once.
struct Level {
    list: ListRef,
    at: Option<Place>,
    index: usize,
}

impl Level {
    // A level at the first token of a list, of which it is one more holder.
    fn enter(lists: &mut Lists, list: &ListRef) -> Level
        requires held { IsHeld lists.old (id_of list.now) }
        requires countable { holders_at lists.old (id_of list.now) + 1 < 2 ^ 32 }
        ensures same { id_of result.list ≡ id_of list.now }
        ensures reading { IsReading lists.new (id_of result.list) result.at result.index }
        ensures account { Moves lists.old lists.new none (holds (id_of result.list)) }
    {
        let list = lists.share(list);
        let at = lists.first(&list);
        Level { list, at, index: 0 }
    }

    // The next token, if one is left.
    fn pull(&mut self, lists: &Lists) -> Option<Token>
        requires { IsReading lists.now (id_of self.old.list) self.old.at self.old.index }
        ensures same { id_of self.new.list ≡ id_of self.old.list }
        ensures reading { IsReading lists.now (id_of self.new.list) self.new.at self.new.index }
        ensures ends { IsSome result ↔ (self.old.index < length (tokens_at lists.now (id_of self.old.list))) }
        ensures token { IfSome result (λ t. slice_get (tokens_at lists.now (id_of self.old.list)) self.old.index ≡ Some t) }
        ensures steps { IfSome result (λ t. self.new.index ≡ self.old.index + 1) }
    {
        let Some(place) = self.at else { return None };
        // A list is no longer than a u32 tells, so that the index goes on.
        let _len = lists.len(&self.list);
        let (token, next) = pull(lists, &self.list, place, self.index);
        self.at = next;
        self.index += 1;
        Some(token)
    }
}

// Registers, each with a list or none. They hold together what their cells hold.
struct Registers {
    cells: Vec<Option<ListRef>>,
}

fn share_cell(lists: &mut Lists, cell: &Option<ListRef>) -> Option<ListRef>
    requires held { IfSome cell.now (λ r. IsHeld lists.old (id_of r)) }
    requires countable { IfSome cell.now (λ r. holders_at lists.old (id_of r) + 1 < 2 ^ 32) }
    ensures same { result ≡ cell.now }
    ensures account { Moves lists.old lists.new none (cell_holds cell.now) }
    ensures kept { Keeps lists.old lists.new none }
{
    match cell {
        Some(list) => Some(lists.share(list)),
        None => None,
    }
}

pub fn release_cell(lists: &mut Lists, cell: Option<ListRef>)
    requires { IfSome cell (λ r. IsHeld lists.old (id_of r)) }
    ensures account { Moves lists.old lists.new (cell_holds cell) none }
    ensures kept { Keeps lists.old lists.new (cell_holds cell) }
{
    if let Some(list) = cell {
        lists.release(list);
    }
}

impl Registers {
    // Gives one register the list of another.
    fn assign(&mut self, lists: &mut Lists, from: usize, to: usize)
        requires from_in { from < length self.old.cells.items }
        requires to_in { to < length self.old.cells.items }
        requires covered { Covers lists.old (cells_hold self.old.cells.items) }
        requires few { (h : ℕ) → holders_at lists.old h + 1 < 2 ^ 32 }
        ensures after { self.new.cells.items ≡ slice_set self.old.cells.items to (slice_index_or self.old.cells.items from None) }
        ensures account { Moves lists.old lists.new (cells_hold self.old.cells.items) (cells_hold self.new.cells.items) }
        ensures covered { Covers lists.new (cells_hold self.new.cells.items) }
        ensures kept { Keeps lists.old lists.new (cells_hold self.old.cells.items) }
    {
        let shared = share_cell(lists, &self.cells[from]);
        let old = mem::replace(&mut self.cells[to], shared);
        release_cell(lists, old);
    }
}

// A level goes on reading its list where the register that has it gets another.
fn assign_while_read(
    registers: &mut Registers,
    level: &Level,
    lists: &mut Lists,
    from: usize,
    to: usize,
)
    requires from_in { from < length registers.old.cells.items }
    requires to_in { to < length registers.old.cells.items }
    requires covered { Covers lists.old (λ h. holds (id_of level.now.list) h + cells_hold registers.old.cells.items h) }
    requires few { (h : ℕ) → holders_at lists.old h + 1 < 2 ^ 32 }
    requires reading { IsReading lists.old (id_of level.now.list) level.now.at level.now.index }
    ensures covered { Covers lists.new (λ h. holds (id_of level.now.list) h + cells_hold registers.new.cells.items h) }
    ensures reading { IsReading lists.new (id_of level.now.list) level.now.at level.now.index }
    ensures same { tokens_at lists.new (id_of level.now.list) ≡ tokens_at lists.old (id_of level.now.list) }
{
    registers.assign(lists, from, to);
}

// Appends a word in braces. Each list has as many holders as before.
fn append_braced(lists: &mut Lists, build: &mut Build) -> Result<(), Full>
    requires { IsBuilding lists.old build.old }
    ensures same { build_id build.new ≡ build_id build.old }
    ensures building { IsBuilding lists.new build.new }
    ensures account { Moves lists.old lists.new none none }
{
    lists.append(build, Token::Char { cat: 1, code: 123 })?;
    lists.append(build, Token::Named(Name::Word(65535)))?;
    lists.append(build, Token::Char { cat: 2, code: 125 })
}

// Takes the outer tokens off.
fn drop_braces(lists: &mut Lists, build: &mut Build)
    requires { IsBuilding lists.old build.old }
    ensures { IsBuilding lists.new build.new }
{
    if lists.first_built(build).is_some() {
        lists.drop_first(build);
    }
    if lists.first_built(build).is_some() {
        lists.drop_last(build);
    }
}

// What is told of a list: words used, holders, tokens, its mark and its first token.
fn told(lists: &Lists, list: &ListRef) -> (u32, u32, u32, u32, Option<Token>)
    requires { IsHeld lists.now (id_of list.now) }
{
    let first = match lists.first(list) {
        Some(place) => Some(lists.token(place)),
        None => None,
    };
    (
        lists.used(),
        lists.holders(list),
        lists.len(list),
        lists.mark(list),
        first,
    )
}

// Whether a word in braces loses them, is shared and marked, and its last holder frees it.
fn is_freed_by_its_last_holder(lists: &mut Lists) -> bool {
    let Ok(mut build) = lists.begin() else {
        return false;
    };
    let braced = append_braced(lists, &mut build);
    let full = lists.append(&mut build, Token::EndPlaces);
    drop_braces(lists, &mut build);
    let list = lists.finish(build);
    let other = lists.share(&list);
    lists.set_mark(&other, 7);
    let shared = told(lists, &list);
    lists.release(list);
    let alone = told(lists, &other);
    lists.release(other);
    let word = Some(Token::Named(Name::Word(65535)));
    let refusal = Full {
        table: Table::MainMemorySize,
        used: 4,
        size: 4,
    };
    braced.is_ok()
        && full == Err(refusal)
        && shared == (2, 2, 1, 7, word)
        && alone == (2, 1, 1, 7, word)
        && lists.used() == 0
}

#[test]
fn last_holder_frees(rt: HostRuntime) {
    let freed = match Lists::new(rt.alloc(), 4) {
        Ok(mut lists) => is_freed_by_its_last_holder(&mut lists) && lists.size() == 4,
        Err(_) => false,
    };
    assert!(rt; freed);
}

// A list of a word in braces, if there is room for it.
fn braced(lists: &mut Lists) -> Option<ListRef>
    ensures held { IfSome result (λ r. IsHeld lists.new (id_of r)) }
    ensures account { IfSome result (λ r. Moves lists.old lists.new none (holds (id_of r))) }
    ensures none { IfNone result (Moves lists.old lists.new none none) }
{
    let Ok(mut build) = lists.begin() else {
        return None;
    };
    match append_braced(lists, &mut build) {
        Ok(()) => Some(lists.finish(build)),
        Err(_) => {
            lists.abandon(build);
            None
        }
    }
}

// Whether a list of a word in braces is as another one and as itself.
fn is_as_another(lists: &mut Lists) -> bool {
    let Some(list) = braced(lists) else {
        return false;
    };
    let Some(other) = braced(lists) else {
        lists.release(list);
        return false;
    };
    let same = lists.same(&list, &other) && lists.same(&list, &list);
    lists.release(other);
    lists.release(list);
    same
}

#[test]
fn lists_are_compared(rt: HostRuntime) {
    let same = match Lists::new(rt.alloc(), 8) {
        Ok(mut lists) => is_as_another(&mut lists) && lists.size() == 8,
        Err(_) => false,
    };
    assert!(rt; same);
}

// Whether a list's first token is a parameter's number, and whether it is the end of a parameter text.
fn first_kind(lists: &Lists, list: &ListRef) -> (bool, bool)
    requires { IsHeld lists.now (id_of list.now) }
{
    match lists.first(list) {
        Some(place) => (lists.is_parameter_number(place), lists.is_end_mark(place)),
        None => (false, false),
    }
}

// The kind of this token, read in a list of its own.
fn kind_of(lists: &mut Lists, token: Token) -> Option<(bool, bool)> {
    let Ok(mut build) = lists.begin() else {
        return None;
    };
    let appended = lists.append(&mut build, token);
    let list = lists.finish(build);
    let kind = first_kind(lists, &list);
    lists.release(list);
    if appended.is_ok() { Some(kind) } else { None }
}

// Whether a parameter's number, the end of a parameter text and what stands next to both are told apart.
fn are_told_apart(lists: &mut Lists) -> bool {
    kind_of(lists, Token::Number(0)) == Some((true, false))
        && kind_of(lists, Token::Number(255)) == Some((true, false))
        && kind_of(lists, Token::Place(255)) == Some((false, false))
        && kind_of(lists, Token::EndPlaces) == Some((false, true))
        && kind_of(lists, Token::Char { cat: 1, code: 123 }) == Some((false, false))
}

#[test]
fn kinds_are_told_apart(rt: HostRuntime) {
    let apart = match Lists::new(rt.alloc(), 2) {
        Ok(mut lists) => are_told_apart(&mut lists) && lists.size() == 2,
        Err(_) => false,
    };
    assert!(rt; apart);
}
