//! Groups of assignments over one table, with a save stack: *The TeXbook*, chapter 24; *TeX: The Program*, part 19.
//!
//! A location is a place of the table. Each has a value, and the level at which it was last assigned: the number of the groups that
//! were open then, and 0 at the outermost level and after a global assignment. A local assignment saves the old value and its level where
//! the location was last assigned at another level than the present one, and the end of a group takes the saved values back.
//! Contracts see a whole map of values for each level instead (`Stack`, in specs/Groups.antt).
//!
//! The size of the save stack counts entries: one for each open group, each saved value and each token that is kept by `\aftergroup`.
#![tactic(auto)]

ghost use Rattle.std.specs.Prelude.{◌≡◌, ◌+◌, ◌<◌, ◌≤◌, length, IfOk, IfErr, OnOk, OnErr, IfNone, IfSome, Some, None, false, Option, ◌++◌, ◌∷◌, [], vec_capacity};
ghost use Rattle.save_stack.specs.Groups.{Stack, IsAt, depth, top, below, used, is_present, defined, gdefined, opened, with_token, took_back, gone, last_entry, old_value, current_group, replaced, restored, Fits, IsSaveFull, IsFullFor, begun, extended};
ghost use Rattle.save_stack.specs.Table.{split};
ghost use Rattle.save_stack.specs.Origins.{AreHeld};
ghost use Rattle.save_stack.specs.Closing.{ClosesBy};
ghost use Rattle.save_stack.specs.Accounts.{SetBalances, SetAllBalances, TakingBalances, KeepsAll, Gains, HandsBackAll};
ghost use Rattle.tex_defs.specs.declared.Table.TheVariants.{SaveSize};

use std::alloc::{AllocError, Global};
use std::marker::Model;
use std::mem;
use tex_defs::{Full, Table, Token};

/// What a location had outside a group: its value, and the level of the assignment that gave it.
#[derive(Debug, Drop)]
pub struct Saved<V> {
    pub loc: u32,
    pub value: V,
    pub level: u32,
}

/// How a group was opened: by a brace, or by `\begingroup`.
#[derive(Clone, Copy, Debug, PartialEq, Eq, Drop)]
pub enum GroupKind {
    Simple,
    SemiSimple,
}

/// What a step of a group's end answers.
#[derive(Clone, Copy, Debug, Drop)]
pub enum Closed {
    /// The last token of those that come after the group and weren't handed out yet.
    After(Token),
    /// The group is gone; it was of this kind.
    Done(GroupKind),
}

/// A table of values, and the open groups.
#[derive(Drop)]
pub struct Groups<V> {
    // the value of each location now
    values: Vec<V>,
    // the level of each location's last assignment
    levels: Vec<u32>,
    // the saved values, with a mark where each group begins
    saved: Vec<Option<Saved<V>>>,
    // the tokens that come after the groups, with the same marks
    after: Vec<Option<Token>>,
    kinds: Vec<GroupKind>,
    // how many entries the save stack may have
    size: u32,
    // how many locations there may be
    most: u32,
}

// Clauses see a whole map for each level, and the save book.
impl<V> Model for Groups<V> {
    ghost use Rattle.save_stack.specs.Groups.{Stack};

    ghost Value = { Stack V };

    ghost use Rattle.std.specs.Prelude.{vec_capacity};
    ghost use Rattle.save_stack.specs.Table.{stack_of, IsSound};

    ghost view = { λ g. stack_of g.values.items g.levels.items g.saved.items g.after.items g.kinds.items g.size g.most };

    ghost invariant = { λ g. IsSound g.values.items g.levels.items g.saved.items g.after.items g.kinds.items g.size g.most (vec_capacity g.saved) (vec_capacity g.after) (vec_capacity g.kinds) (vec_capacity g.values) (vec_capacity g.levels) };
}

// The refusal of a save stack of this size.
fn save_full(size: u32) -> Full
    ensures table { result.table ≡ SaveSize }
    ensures used { result.used ≡ size }
    ensures size { result.size ≡ size }
{
    Full {
        table: Table::SaveSize,
        used: size,
        size,
    }
}

// Takes off the mark of a group whose saved values were taken back.
fn drop_mark<V>(saved: &mut Vec<Option<Saved<V>>>)
    requires some { 0 < length (split saved.old.items) }
    requires marked { last_entry (split saved.old.items) ≡ None }
    ensures mark { saved.old.items ≡ saved.new.items ++ None ∷ [] }
    ensures capacity { vec_capacity saved.new ≡ vec_capacity saved.old }
{
    match saved.pop() {
        Some(Some(kept)) => {
            saved.push_reserved(Some(kept));
        }
        _ => {}
    }
}

impl<V> Groups<V> {
    /// The outermost level alone, without locations, and with room for `most` of them and for `size` entries of the save stack.
    ///
    /// # Errors
    /// There is no memory for them. No other call takes memory.
    pub fn new(alloc: Global, most: u32, size: u32) -> Result<Groups<V>, AllocError>
        ensures { IfOk result (λ g. g ≡ begun [] size most) }
    {
        let values = Vec::with_capacity(alloc, most as usize)?;
        let levels = match Vec::with_capacity(alloc, most as usize) {
            Ok(levels) => levels,
            Err(error) => {
                values.destroy_empty();
                return Err(error);
            }
        };
        let room = size as usize;
        let saved = match Vec::with_capacity(alloc, room) {
            Ok(saved) => saved,
            Err(error) => {
                values.destroy_empty();
                return Err(error);
            }
        };
        let after = match Vec::with_capacity(alloc, room) {
            Ok(after) => after,
            Err(error) => {
                values.destroy_empty();
                saved.destroy_empty();
                return Err(error);
            }
        };
        let kinds = match Vec::with_capacity(alloc, room) {
            Ok(kinds) => kinds,
            Err(error) => {
                values.destroy_empty();
                saved.destroy_empty();
                return Err(error);
            }
        };
        Ok(Groups {
            values,
            levels,
            saved,
            after,
            kinds,
            size,
            most,
        })
    }

    /// How many locations there are.
    pub fn locations(&self) -> u32
        ensures count { result ≡ length self.now.levels }
        ensures fits { result ≤ self.now.most }
    {
        self.levels.len() as u32
    }

    /// Adds a location, which has this value at each level and counts as assigned at the outermost one.
    pub fn add(&mut self, value: V)
        requires { length self.old.levels < self.old.most }
        ensures after { self.new ≡ extended self.old value }
        ensures account { Gains self.old value self.new }
    {
        self.values.push_reserved(value);
        self.levels.push_reserved(0);
    }

    /// The value of a location now.
    pub fn get(&self, loc: u32) -> &V
        requires { loc < length self.now.levels }
        ensures { IsAt (top self.now.maps) loc result.now }
    {
        &self.values[loc as usize]
    }

    /// Does nothing. Its contract tells that each value of an outer level's map is in the innermost map or is saved, how many groups
    /// the maps, entries and tokens are of, and that what is used never passes the size.
    pub fn recall(&self)
        ensures held { AreHeld self.now }
        ensures maps { length self.now.maps ≡ depth self.now + 1 }
        ensures entries { length self.now.entries ≡ depth self.now }
        ensures tokens { length self.now.tokens ≡ depth self.now }
        ensures fits { used self.now ≤ self.now.size }
        ensures located { length (top self.now.maps) ≡ length self.now.levels }
    {
        let _kinds = &self.kinds;
    }

    /// Whether a location was last assigned at the present level, so that a local assignment saves nothing.
    pub fn is_present(&self, loc: u32) -> bool
        requires { loc < length self.now.levels }
        ensures { result ≡ is_present self.now loc }
    {
        self.levels[loc as usize] as usize == self.kinds.len()
    }

    /// The number of open groups.
    pub fn depth(&self) -> u32
        ensures { result ≡ depth self.now }
    {
        self.kinds.len() as u32
    }

    /// The kind of the innermost open group.
    pub fn kind(&self) -> Option<GroupKind>
        ensures { result ≡ current_group self.now }
    {
        self.kinds.last().copied()
    }

    /// The number of entries of the save stack: one for each open group, each saved value and each token that is kept.
    pub fn used(&self) -> u32
        ensures used { result ≡ used self.now }
        ensures fits { result ≤ self.now.size }
    {
        (self.saved.len() + self.after.len() - self.kinds.len()) as u32
    }

    /// A local assignment. The old value is saved where the location was last assigned at another level than the present one; else
    /// nothing holds it any more, and it is handed back.
    ///
    /// # Errors
    /// An entry is needed and none is free. Nothing changes, and the new value is handed back.
    pub fn define(&mut self, loc: u32, value: V) -> Result<Option<V>, (Full, V)>
        requires { loc < length self.old.levels }
        ensures ok { OnOk result (self.new ≡ defined self.old loc value) }
        ensures back { IfOk result (λ o. o ≡ replaced self.old loc value) }
        ensures room { OnOk result (Fits self.old loc) }
        ensures err { OnErr result (self.new ≡ self.old) }
        ensures value { IfErr result (λ e. e.1 ≡ value) }
        ensures full { IfErr result (λ e. IsFullFor e.0 self.old loc) }
        ensures account { SetBalances self.old value result self.new }
        ensures group { is_present self.old loc ≡ false → 0 < length self.old.entries }
    {
        let depth = self.kinds.len() as u32;
        let at = loc as usize;
        let level = self.levels[at];
        if level == depth {
            return Ok(Some(mem::replace(&mut self.values[at], value)));
        }
        let used = self.saved.len() + self.after.len() - self.kinds.len();
        if used as u32 == self.size {
            return Err((save_full(self.size), value));
        }
        let old = mem::replace(&mut self.values[at], value);
        self.saved.push_reserved(Some(Saved {
            loc,
            value: old,
            level,
        }));
        self.levels[at] = depth;
        Ok(None)
    }

    /// A global assignment: the value holds at every level. The old value of the innermost level is handed back; the others are saved,
    /// until the ends of their groups hand them out. It needs no entry.
    pub fn gdefine(&mut self, loc: u32, value: V) -> V
        requires { loc < length self.old.levels }
        ensures after { self.new ≡ gdefined self.old loc value }
        ensures back { result ≡ old_value self.old loc value }
        ensures account { SetAllBalances self.old value result self.new }
    {
        let at = loc as usize;
        self.levels[at] = 0;
        mem::replace(&mut self.values[at], value)
    }

    /// The refusal of a save stack of which all entries are used.
    pub fn refusal(&self) -> Full
        requires { used self.now ≡ self.now.size }
        ensures { IsSaveFull result self.now }
    {
        save_full(self.size)
    }

    /// Opens a group, which takes one entry.
    ///
    /// # Errors
    /// All entries are used. Nothing changes.
    pub fn open_group(&mut self, kind: GroupKind) -> Result<(), Full>
        ensures ok { OnOk result (self.new ≡ opened self.old kind) }
        ensures account { KeepsAll self.old self.new }
        ensures room { OnOk result (used self.old < self.old.size) }
        ensures err { OnErr result (self.new ≡ self.old) }
        ensures full { IfErr result (λ f. IsSaveFull f self.old) }
    {
        let used = self.saved.len() + self.after.len() - self.kinds.len();
        if used as u32 == self.size {
            return Err(save_full(self.size));
        }
        self.saved.push_reserved(None);
        self.after.push_reserved(None);
        self.kinds.push_reserved(kind);
        Ok(())
    }

    /// Keeps a token for the end of the innermost group (`\aftergroup`), which takes one entry.
    ///
    /// # Errors
    /// All entries are used. Nothing changes.
    pub fn after_group(&mut self, token: Token) -> Result<(), Full>
        requires { 0 < depth self.old }
        ensures ok { OnOk result (self.new ≡ with_token self.old token) }
        ensures account { KeepsAll self.old self.new }
        ensures room { OnOk result (used self.old < self.old.size) }
        ensures err { OnErr result (self.new ≡ self.old) }
        ensures full { IfErr result (λ f. IsSaveFull f self.old) }
    {
        let used = self.saved.len() + self.after.len() - self.kinds.len();
        if used as u32 == self.size {
            return Err(save_full(self.size));
        }
        self.after.push_reserved(Some(token));
        Ok(())
    }

    /// A step of a group's end: takes back the last saved value of the innermost group, and hands out the value that nothing holds any
    /// more, with its location: the saved one where the location was assigned globally since. `None` comes once none is left; then the
    /// map is that of the level outside.
    pub fn take_back(&mut self) -> Option<(u32, V)>
        requires { 0 < depth self.old }
        ensures after { self.new ≡ took_back (last_entry self.old.entries) self.old }
        ensures back { result ≡ gone (last_entry self.old.entries) self.old }
        ensures within { IfSome result (λ p. p.0 < length self.new.levels) }
        ensures none { IfNone result (top self.old.maps ≡ top (below self.old.maps)) }
        ensures restores { restored self.new ≡ restored self.old }
        ensures last { IfNone result (restored self.old ≡ self.old) }
        ensures account { TakingBalances self.old result self.new }
    {
        match self.saved.pop() {
            Some(Some(Saved { loc, value, level })) => {
                let at = loc as usize;
                if self.levels[at] == 0 {
                    return Some((loc, value));
                }
                self.levels[at] = level;
                Some((loc, mem::replace(&mut self.values[at], value)))
            }
            Some(None) => {
                self.saved.push_reserved(None);
                None
            }
            None => None,
        }
    }

    /// The next step of a group's end, once its saved values were taken back: hands out the last of its tokens, or takes the group away
    /// where there is none left.
    pub fn finish_step(&mut self) -> Closed
        requires open { 0 < depth self.old }
        requires taken_back { last_entry self.old.entries ≡ None }
        ensures step { ClosesBy result self.old self.new }
        ensures account { KeepsAll self.old self.new }
    {
        match self.after.pop() {
            Some(Some(token)) => Closed::After(token),
            Some(None) => {
                drop_mark(&mut self.saved);
                match self.kinds.pop() {
                    Some(kind) => Closed::Done(kind),
                    None => unreachable!(),
                }
            }
            None => unreachable!(),
        }
    }

    /// Ends the table: the values of all locations now, and the saved ones with a mark (`None`) where each group begins.
    pub fn into_values(self) -> (Vec<V>, Vec<Option<Saved<V>>>)
        ensures values { result.0.items ≡ top self.maps }
        ensures saved { split result.1.items ≡ self.entries }
        ensures account { HandsBackAll self result.0.items result.1.items }
    {
        let Groups {
            values,
            levels: _,
            saved,
            after: _,
            kinds: _,
            size: _,
            most: _,
        } = self;
        (values, saved)
    }
}
