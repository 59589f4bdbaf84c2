//! All that assignments change, under groups: the table of equivalents and the save stack.
//!
//! *The TeXbook*, chapter 24; *TeX: The Program*, parts 17 and 19.
#![tactic(auto)]

ghost use Rattle.std.specs.Prelude.{◌≡◌, ℕ, ◌+◌, ◌<◌, ◌≤◌, ◌^◌, length, true, vec_capacity, IfOk, IfSome, OnOk, OnErr, MatchBool, MatchOption, MatchResult, Some, None, [], map, false, slice_index_or, pos};
ghost use Rattle.tex_defs.specs.Sizes.{first_out_of_range};
ghost use Rattle.token_lists.specs.Table.{holders_at};
ghost use Rattle.token_lists.specs.Accounts.{Moves, Covers, Keeps, none};
ghost use Rattle.token_lists.specs.Ids.{id_of};
ghost use Rattle.save_stack.specs.Groups.{depth, top, last_entry};
ghost use Rattle.save_stack.specs.Mapped.{mapped};
ghost use Rattle.save_stack.specs.Closing.{closed, kind_last};
ghost use Rattle.save_stack.specs.Accounts.{KeepsAll};
ghost use Rattle.plain_tokens.specs.Meanings.{fixed_locations, location, fixed_meaning, is_listed, meaning_to_let, met, name_meaning, seen, seen_as, whole_meaning};
ghost use Rattle.plain_tokens.specs.Tables.{refused};
ghost use Rattle.std.specs.Option.{option_map};
ghost use Rattle.equivalents.specs.declared.values.Loc.TheVariants as loc;
ghost use Rattle.equivalents.specs.Tables.{get};
ghost use Rattle.equivalents.specs.Locations.{Suits, index, locations_without_names, value_seen};
ghost use Rattle.equivalents.specs.Groups.{saves, current_group, depth as groups_depth, set_demands, group_demands, token_demands, IsLocation};
ghost use Rattle.equivalents.specs.Holding.{list_of, value_list, lists_held, lists_outside};
ghost use Rattle.equivalents.specs.Laws.{AreAlike};
ghost use Rattle.meanings.specs.Kept.{numbered_meaning};
ghost use Rattle.meanings.specs.Holding.{meaning_holds, with_holder, without_holder, Lasts};
ghost use Rattle.eqtb_save.specs.Values.{numbered_value, categories_in};
ghost use Rattle.eqtb_save.specs.Holding.{val_holds, held, replaced_list, entry_holds, most_holders, MarksLast};
ghost use Rattle.eqtb_save.specs.Table.{Table, first_table, begun_by, GivesNext, set_at, set_all, group_opened, name_entered, token_kept, IsAssignable, HasRoom, CanClose, Closes, mirrored};

mod first;
pub mod laws;
mod values;

pub use equivalents::{CodeKind, Glue, Loc, Val};
use first::{WITHOUT_NAMES, put_first};
use meanings::{FIXED, Kept, fixed, location, marked, without_list};
use save_stack::{Groups, Saved};
pub use save_stack::{Closed, GroupKind};
use std::alloc::{AllocError, Global};
use std::marker::Model;
use tex_defs::{Full, Meaning, Name, Seen, Sizes, Table, Token};
use token_lists::{ListRef, Lists};
pub use values::Value;
use values::{category_of, index, meant, number, release, share, value_seen};

/// One table of all current values, with the values that the open groups saved.
#[must_use]
pub struct Eqtb {
    groups: Groups<Value>,
    // The category codes once more, for the lexer.
    categories: [u8; 256],
    // The tokens of a group that was closed, of which so many have been handed out, and the group's kind.
    closing: Vec<Token>,
    given: usize,
    ending: Option<GroupKind>,
    sizes: Sizes,
}

// Clauses see the machine's groups, and what a closed group has still to give.
impl Model for Eqtb {
    ghost use Rattle.std.specs.Prelude.{drop, vec_capacity};
    ghost use Rattle.save_stack.specs.Mapped.{mapped};
    ghost use Rattle.equivalents.specs.Flat.{groups_of};
    ghost use Rattle.eqtb_save.specs.Values.{numbered_value};
    ghost use Rattle.eqtb_save.specs.Table.{Table, IsSound};

    ghost Value = { Table };

    ghost view = { λ e. record { groups = groups_of (mapped numbered_value e.groups); closing = drop e.given e.closing.items; ending = e.ending; sizes = e.sizes } };

    ghost invariant = { λ e. IsSound e.categories (mapped numbered_value e.groups) e.closing.items (vec_capacity e.closing) e.given e.ending e.sizes };
}

/// The location of what a name means, if the name has one.
pub fn name_loc(name: Name) -> Option<Loc>
    ensures { result ≡ option_map (λ k. loc.Means k) (location name) }
{
    match location(name) {
        Some(at) => Some(Loc::Means(at as u32)),
        None => None,
    }
}

// Where a location has a category code, that of its value.
fn note(categories: &mut [u8; 256], groups: &Groups<Value>, at: u32)
    requires { at < length groups.now.levels }
    ensures { categories.new ≡ mirrored categories.old (top (mapped numbered_value groups.now).maps) at }
{
    if at < 256 {
        categories[at as usize] = category_of(groups.get(at));
    }
}

// The category codes among the values.
fn codes_of(groups: &Groups<Value>) -> [u8; 256]
    requires { 256 ≤ length groups.now.levels }
    ensures { result ≡ categories_in (top (mapped numbered_value groups.now).maps) }
{
    groups.recall();
    let mut codes = [0; 256];
    for i in 0..256u32 {
        codes[i as usize] = category_of(groups.get(i));
    }
    codes
}

// The tokens of the innermost group, whose saved values were taken back, in the order in which they come; then the group goes.
fn drain(groups: &mut Groups<Value>, closing: &mut Vec<Token>) -> GroupKind
    requires open { 0 < depth groups.old }
    requires taken_back { last_entry groups.old.entries ≡ None }
    requires empty { closing.old.items ≡ [] }
    requires room { length (top groups.old.tokens) ≤ vec_capacity closing.old }
    ensures tokens { closing.new.items ≡ top groups.old.tokens }
    ensures group { groups.new ≡ closed groups.old }
    ensures kind { kind_last groups.old.kinds ≡ Some result }
    ensures capacity { vec_capacity closing.new ≡ vec_capacity closing.old }
    ensures account { KeepsAll groups.old groups.new }
{
    let mut step = groups.finish_step();
    while let Closed::After(token) = step {
        closing.push_reserved(token);
        step = groups.finish_step();
    }
    match step {
        Closed::Done(kind) => kind,
        Closed::After(_) => unreachable!(),
    }
}

// Lets the list of a saved value go, if it has one; a mark has none.
fn release_entry(lists: &mut Lists, entry: Option<Saved<Value>>)
    requires { Covers lists.old (entry_holds entry) }
    ensures account { Moves lists.old lists.new (entry_holds entry) none }
    ensures kept { Keeps lists.old lists.new (entry_holds entry) }
    ensures length { length lists.new ≡ length lists.old }
    ensures marks { MarksLast lists.old lists.new }
{
    if let Some(
        Saved {
            loc: _,
            value,
            level: _,
        },
    ) = entry
    {
        release(lists, value);
    }
}

impl Eqtb {
    /// INITEX's values, where the primitives of these numbers mean something; no group is open.
    ///
    /// # Errors
    /// There is no room for them, or for as many saved values as the sizes admit. No other call takes memory.
    pub fn new(alloc: Global, sizes: &Sizes, known: &[u16]) -> Result<Eqtb, AllocError>
        requires { first_out_of_range sizes.now ≡ None }
        ensures first { IfOk result (λ e. e ≡ first_table (is_listed known.now) sizes.now) }
        ensures free { IfOk result (λ e. (h : ℕ) → held e h ≡ 0) }
    {
        let most = WITHOUT_NAMES + FIXED + sizes.hash_size as usize;
        let closing = Vec::with_capacity(alloc, sizes.save_size as usize)?;
        let mut groups = match Groups::new(alloc, most as u32, sizes.save_size) {
            Ok(groups) => groups,
            Err(error) => {
                closing.destroy_empty();
                return Err(error);
            }
        };
        put_first(&mut groups, known);
        let categories = codes_of(&groups);
        Ok(Eqtb {
            groups,
            categories,
            closing,
            given: 0,
            ending: None,
            sizes: *sizes,
        })
    }

    // The number of a location that is there.
    fn place(&self, loc: Loc) -> u32
        requires { IsLocation self.now.groups loc }
        ensures number { result ≡ index loc }
        ensures within { result < length self.now.groups.levels }
    {
        let _count = self.groups.locations();
        index(loc)
    }

    /// What stands at a location.
    pub fn get(&self, loc: Loc) -> &Value
        requires { IsLocation self.now.groups loc }
        ensures value { numbered_value result.now ≡ get self.now.groups.now loc }
        ensures held { (h : ℕ) → val_holds (numbered_value result.now) h ≤ held self.now h }
    {
        self.groups.get(self.place(loc))
    }

    /// The category codes, by their characters.
    pub fn categories(&self) -> &[u8; 256]
        ensures { result.now ≡ self.now.groups.now.categories }
    {
        &self.categories
    }

    /// The save size that is used: one for each open group, each saved value and each token for a group's end.
    pub fn entries(&self) -> u32
        ensures used { result ≡ saves self.now.groups }
        ensures fits { result ≤ self.now.sizes.save_size }
    {
        self.groups.used()
    }

    /// How many groups are open.
    pub fn depth(&self) -> u32
        ensures { result ≡ groups_depth self.now.groups }
    {
        self.groups.depth()
    }

    /// The kind of the innermost open group, if one is open.
    pub fn kind(&self) -> Option<GroupKind>
        ensures { result ≡ current_group self.now.groups }
    {
        self.groups.kind()
    }

    /// The same value, with one more holder of its list: it takes no word. The list has fewer than 2^32 - 1 holders.
    pub fn shared(&self, lists: &mut Lists, loc: Loc) -> Value
        requires within { IsLocation self.now.groups loc }
        requires covered { Covers lists.old (held self.now) }
        requires countable { IfSome (value_list (get self.now.groups.now loc)) (λ id. holders_at lists.old id + 1 < 2 ^ 32) }
        ensures same { numbered_value result ≡ get self.now.groups.now loc }
        ensures after { lists.new ≡ with_holder (value_list (get self.now.groups.now loc)) lists.old }
        ensures account { Moves lists.old lists.new none (val_holds (numbered_value result)) }
        ensures kept { Keeps lists.old lists.new none }
    {
        share(lists, self.get(loc))
    }

    /// Why a local assignment to this location has no room now, if it has none.
    pub fn refusal(&self, loc: Loc) -> Option<Full>
        requires { IsLocation self.now.groups loc }
        ensures { result ≡ refused self.now.sizes (set_demands false self.now.groups loc) }
    {
        if self.groups.is_present(self.place(loc)) || self.groups.used() < self.sizes.save_size {
            return None;
        }
        Some(self.groups.refusal())
    }

    /// A local assignment. The new value is stored before the old one is let go, so a location that gets a share of
    /// its own list keeps it. No word is taken.
    ///
    /// # Errors
    /// The location was last assigned at another level, and the save stack has no room for its old value. The old value stands,
    /// and the new one was let go.
    pub fn define(&mut self, lists: &mut Lists, loc: Loc, value: Value) -> Result<(), Full>
        requires within { IsLocation self.old.groups loc }
        requires suits { Suits loc (numbered_value value) }
        requires covered { Covers lists.old (λ h. val_holds (numbered_value value) h + held self.old h) }
        ensures refused { MatchResult result (λ _. refused self.old.sizes (set_demands false self.old.groups loc) ≡ None) (λ full. refused self.old.sizes (set_demands false self.old.groups loc) ≡ Some full) }
        ensures ok { OnOk result (self.new ≡ set_at self.old loc (numbered_value value)) }
        ensures err { OnErr result (self.new ≡ self.old) }
        ensures let_go { OnOk result (lists.new ≡ without_holder (replaced_list self.old.groups loc) lists.old) }
        ensures unused { OnErr result (lists.new ≡ without_holder (value_list (numbered_value value)) lists.old) }
        ensures account { Moves lists.old lists.new (λ h. val_holds (numbered_value value) h + held self.old h) (held self.new) }
        ensures kept { Keeps lists.old lists.new (λ h. val_holds (numbered_value value) h + held self.old h) }
        ensures lasting { Lasts lists.old lists.new }
    {
        let at = self.place(loc);
        match self.groups.define(at, value) {
            Ok(Some(old)) => {
                note(&mut self.categories, &self.groups, at);
                release(lists, old);
                Ok(())
            }
            Ok(None) => {
                note(&mut self.categories, &self.groups, at);
                Ok(())
            }
            Err((full, value)) => {
                release(lists, value);
                Err(full)
            }
        }
    }

    /// A global assignment. It saves nothing and can't be refused.
    pub fn gdefine(&mut self, lists: &mut Lists, loc: Loc, value: Value)
        requires within { IsLocation self.old.groups loc }
        requires suits { Suits loc (numbered_value value) }
        requires covered { Covers lists.old (λ h. val_holds (numbered_value value) h + held self.old h) }
        ensures after { self.new ≡ set_all self.old loc (numbered_value value) }
        ensures let_go { lists.new ≡ without_holder (value_list (get self.old.groups.now loc)) lists.old }
        ensures account { Moves lists.old lists.new (λ h. val_holds (numbered_value value) h + held self.old h) (held self.new) }
        ensures kept { Keeps lists.old lists.new (λ h. val_holds (numbered_value value) h + held self.old h) }
        ensures lasting { Lasts lists.old lists.new }
    {
        let at = self.place(loc);
        let old = self.groups.gdefine(at, value);
        note(&mut self.categories, &self.groups, at);
        release(lists, old);
    }

    /// Does nothing. Its contract tells that what is held stays within the tables, so that a list's holders can be counted, that there is
    /// a map outside for each open group, with as many names as the present one, and that each list that holds again behind the innermost
    /// group, or one around it, is held now.
    pub fn recall(&self)
        ensures bounded { (h : ℕ) → held self.now h ≤ most_holders self.now }
        ensures few { length self.now.groups.now.meanings ≤ fixed_locations + self.now.sizes.hash_size }
        ensures saves { saves self.now.groups ≤ self.now.sizes.save_size }
        ensures maps { length self.now.groups.outer ≡ groups_depth self.now.groups }
        ensures entries { length self.now.groups.entries ≡ groups_depth self.now.groups }
        ensures tokens { length self.now.groups.tokens ≡ groups_depth self.now.groups }
        ensures levels { length self.now.groups.levels ≡ locations_without_names + length self.now.groups.now.meanings }
        ensures alike { AreAlike self.now.groups }
        ensures outside { (id : ℕ) → is_listed (lists_outside self.now.groups.outer) id ≡ true → is_listed (lists_held self.now.groups) id ≡ true }
    {
        let _count = self.groups.locations();
        self.groups.recall();
    }

    /// The value of an integer parameter, by its place.
    pub fn integer(&self, i: u8) -> i32
        requires { i < 55 }
        ensures { result ≡ slice_index_or self.now.groups.now.integers i (pos 0) }
    {
        number(self.get(Loc::Integer(i)))
    }

    /// What stands at a location, without its list.
    pub fn value(&self, loc: Loc) -> Val<()>
        requires { IsLocation self.now.groups loc }
        ensures { result ≡ value_seen (get self.now.groups.now loc) }
    {
        value_seen(self.get(loc))
    }

    // NAMES

    // How many locations names have.
    fn names(&self) -> usize
        ensures count { result ≡ length self.now.groups.now.meanings }
        ensures few { locations_without_names + result < 2 ^ 32 }
    {
        self.groups.locations() as usize - WITHOUT_NAMES
    }

    /// Whether one more name of two or more characters may be entered.
    pub fn has_room(&self) -> bool
        ensures { MatchBool result (HasRoom self.now) (HasRoom self.now → ⊥) }
    {
        self.names() < FIXED + self.sizes.hash_size as usize
    }

    /// Gives the next name of two or more characters its location, in room that is there. It is undefined, at each level.
    pub fn enter(&mut self)
        requires { HasRoom self.old }
        ensures after { self.new ≡ name_entered self.old }
        ensures account { (h : ℕ) → held self.new h ≡ held self.old h }
    {
        self.groups.add(Val::Meant(Meaning::Undefined));
    }

    /// Whether a name may be assigned: it has a location, and if it has two or more characters, it was entered.
    pub fn is_placed(&self, name: Name) -> bool
        ensures { MatchBool result (IsAssignable self.now name) (IsAssignable self.now name → ⊥) }
    {
        match location(name) {
            Some(at) => at < self.names(),
            None => false,
        }
    }

    // What stands at a name's location, if it has one and was entered.
    fn cell(&self, name: Name) -> Option<&Kept>
        ensures meaning { MatchOption result (name_meaning self.now.groups.now.meanings name ≡ fixed_meaning name) (λ kept. name_meaning self.now.groups.now.meanings name ≡ numbered_meaning kept.now) }
        ensures held { IfSome result (λ kept. (h : ℕ) → meaning_holds (numbered_meaning kept.now) h ≤ held self.now h) }
    {
        let at = location(name)?;
        if at < self.names() {
            return meant(self.groups.get((WITHOUT_NAMES + at) as u32));
        }
        None
    }

    /// What a name means, as readings see it: a macro without its list. A name that wasn't entered is undefined.
    pub fn meaning(&self, name: Name) -> Meaning<()>
        ensures { result ≡ seen_as (name_meaning self.now.groups.now.meanings name) }
    {
        match self.cell(name) {
            Some(kept) => meanings::seen(kept),
            None => fixed(name),
        }
    }

    /// A token with what it means: a character means itself, and a name, marked by `\noexpand` or not, what it means now.
    pub fn seen(&self, token: Token) -> Seen
        ensures { result ≡ seen self.now.groups.now.meanings token }
    {
        let meaning = match token {
            Token::Char { cat, code } => Meaning::Char { cat, code },
            Token::Named(name) | Token::Marked(name) => self.meaning(name),
            Token::Place(_) | Token::Number(_) | Token::EndPlaces => Meaning::Undefined,
        };
        Seen { token, meaning }
    }

    /// A token as it is handed on: a name that `\noexpand` marked is the plain name, which this once means `\relax` where it
    /// would be expanded.
    pub fn met(&self, token: Token) -> Seen
        ensures { result ≡ met self.now.groups.now.meanings token }
    {
        match token {
            Token::Marked(name) => Seen {
                token: Token::Named(name),
                meaning: marked(self.meaning(name)),
            },
            other => self.seen(other),
        }
    }

    /// The list of a name that is a macro. Only what the frozen `\endwrite` means is a macro without a list.
    pub fn list(&self, name: Name) -> Option<&ListRef>
        ensures list { MatchOption result (list_of (name_meaning self.now.groups.now.meanings name) ≡ None) (λ r. list_of (name_meaning self.now.groups.now.meanings name) ≡ Some (id_of r.now)) }
        ensures held { IfSome result (λ r. 0 < held self.now (id_of r.now)) }
    {
        match self.cell(name) {
            Some(kept) => meanings::list_of(kept),
            None => None,
        }
    }

    // What a token means, where a macro's list has one holder more.
    fn whole(&self, lists: &mut Lists, token: Token) -> Kept
        requires covered { Covers lists.old (held self.now) }
        requires countable { IfSome (list_of (whole_meaning self.now.groups.now.meanings token)) (λ id. holders_at lists.old id + 1 < 2 ^ 32) }
        ensures same { numbered_meaning result ≡ whole_meaning self.now.groups.now.meanings token }
        ensures held { (h : ℕ) → meaning_holds (numbered_meaning result) h ≤ held self.now h }
        ensures after { lists.new ≡ with_holder (list_of (whole_meaning self.now.groups.now.meanings token)) lists.old }
        ensures account { Moves lists.old lists.new none (meaning_holds (numbered_meaning result)) }
        ensures kept { Keeps lists.old lists.new none }
    {
        match token {
            Token::Named(name) | Token::Marked(name) => match self.cell(name) {
                Some(kept) => meanings::share(lists, kept),
                None => without_list(fixed(name)),
            },
            Token::Char { cat, code } => Meaning::Char { cat, code },
            Token::Place(_) | Token::Number(_) | Token::EndPlaces => Meaning::Undefined,
        }
    }

    /// What `\let` gives a name from a token that was handed on (*The TeXbook*, chapter 20): what a name means, with one
    /// holder more of a macro's list, or a character. Each list has fewer than 2^32 - 1 holders.
    pub fn to_let(&self, lists: &mut Lists, x: Seen) -> Kept
        requires covered { Covers lists.old (held self.now) }
        requires countable { IfSome (list_of (meaning_to_let self.now.groups.now.meanings x)) (λ id. holders_at lists.old id + 1 < 2 ^ 32) }
        ensures same { numbered_meaning result ≡ meaning_to_let self.now.groups.now.meanings x }
        ensures held { (h : ℕ) → meaning_holds (numbered_meaning result) h ≤ held self.now h }
        ensures after { lists.new ≡ with_holder (list_of (meaning_to_let self.now.groups.now.meanings x)) lists.old }
        ensures account { Moves lists.old lists.new none (meaning_holds (numbered_meaning result)) }
        ensures kept { Keeps lists.old lists.new none }
    {
        match x.meaning {
            Meaning::RelaxMarked => Meaning::RelaxMarked,
            _ => self.whole(lists, x.token),
        }
    }

    // GROUPS

    /// Opens a group. It copies nothing.
    ///
    /// # Errors
    /// The save stack is full, or else as many groups are open as may be.
    pub fn open_group(&mut self, kind: GroupKind) -> Result<(), Full>
        ensures refused { MatchResult result (λ _. refused self.old.sizes (group_demands self.old.groups) ≡ None) (λ full. refused self.old.sizes (group_demands self.old.groups) ≡ Some full) }
        ensures ok { OnOk result (self.new ≡ group_opened self.old kind) }
        ensures err { OnErr result (self.new ≡ self.old) }
        ensures account { (h : ℕ) → held self.new h ≡ held self.old h }
    {
        if self.groups.used() == self.sizes.save_size {
            return Err(self.groups.refusal());
        }
        if self.groups.depth() == self.sizes.grouping_levels {
            return Err(Full {
                table: Table::GroupingLevels,
                used: self.sizes.grouping_levels,
                size: self.sizes.grouping_levels,
            });
        }
        self.groups.open_group(kind)
    }

    /// Keeps a token for the end of the innermost group. A group is open.
    ///
    /// # Errors
    /// The save stack is full.
    pub fn after_group(&mut self, token: Token) -> Result<(), Full>
        requires { 0 < groups_depth self.old.groups }
        ensures refused { MatchResult result (λ _. refused self.old.sizes (token_demands self.old.groups) ≡ None) (λ full. refused self.old.sizes (token_demands self.old.groups) ≡ Some full) }
        ensures ok { OnOk result (self.new ≡ token_kept self.old token) }
        ensures err { OnErr result (self.new ≡ self.old) }
        ensures account { (h : ℕ) → held self.new h ≡ held self.old h }
    {
        self.groups.after_group(token)
    }

    /// The innermost group goes, with its saved values: each value is restored, or let go where the location was assigned globally since. Its
    /// tokens are still to be given; what an earlier group had still to give is given no more.
    pub fn close_group(&mut self, lists: &mut Lists)
        requires open { 0 < groups_depth self.old.groups }
        requires covered { Covers lists.old (held self.old) }
        ensures after { self.new ≡ begun_by (current_group self.old.groups) self.old }
        ensures began { self.new.ending ≡ None → ⊥ }
        ensures account { Moves lists.old lists.new (held self.old) (held self.new) }
        ensures kept { Keeps lists.old lists.new (held self.old) }
        ensures lasting { Lasts lists.old lists.new }
        ensures length { length lists.new ≡ length lists.old }
        ensures marks { MarksLast lists.old lists.new }
    {
        while let Some((at, value)) = self.groups.take_back() {
            note(&mut self.categories, &self.groups, at);
            release(lists, value);
        }
        self.groups.recall();
        self.closing.clear();
        self.given = 0;
        let kind = drain(&mut self.groups, &mut self.closing);
        self.ending = Some(kind);
    }

    /// The next token of the group that is being closed, the last first, or its end.
    pub fn next_closing(&mut self) -> Closed
        requires { self.old.ending ≡ None → ⊥ }
        ensures step { GivesNext result self.old self.new }
        ensures account { (h : ℕ) → held self.new h ≡ held self.old h }
    {
        if self.given < self.closing.len() {
            let token = self.closing[self.given];
            self.given += 1;
            return Closed::After(token);
        }
        let Some(kind) = self.ending else {
            unreachable!()
        };
        self.ending = None;
        Closed::Done(kind)
    }

    /// One step of the innermost group's end. At the first the group goes with its saved values ([`Eqtb::close_group`]). Then come its tokens,
    /// the last first, and at last its kind. A group is open or being closed.
    pub fn close_step(&mut self, lists: &mut Lists) -> Closed
        requires open { CanClose self.old }
        requires covered { Covers lists.old (held self.old) }
        ensures step { Closes result self.old self.new }
        ensures account { Moves lists.old lists.new (held self.old) (held self.new) }
        ensures kept { Keeps lists.old lists.new (held self.old) }
        ensures lasting { Lasts lists.old lists.new }
        ensures length { length lists.new ≡ length lists.old }
        ensures marks { MarksLast lists.old lists.new }
    {
        match self.ending {
            None => {
                self.close_group(lists);
                self.next_closing()
            }
            Some(_) => self.next_closing(),
        }
    }

    /// Lets all lists go, and with them the table.
    pub fn close(self, lists: &mut Lists)
        requires { Covers lists.old (held self) }
        ensures account { Moves lists.old lists.new (held self) none }
        ensures kept { Keeps lists.old lists.new (held self) }
        ensures length { length lists.new ≡ length lists.old }
        ensures marks { MarksLast lists.old lists.new }
    {
        let Eqtb {
            groups,
            categories: _,
            closing: _,
            given: _,
            ending: _,
            sizes: _,
        } = self;
        let (mut values, mut saved) = groups.into_values();
        while let Some(value) = values.pop() {
            release(lists, value);
        }
        values.destroy_empty();
        while let Some(entry) = saved.pop() {
            release_entry(lists, entry);
        }
        saved.destroy_empty();
    }
}
