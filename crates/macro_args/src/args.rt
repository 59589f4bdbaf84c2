// The arguments of a call.
ghost use Rattle.std.specs.Prelude.{◌≡◌, length};

use crate::cells::{drop_empty_cells, release_cell};
use std::mem;
use token_lists::{ListRef, Lists};

/// The arguments of a call, at most nine. An argument without tokens has no list.
///
/// *The TeXbook*, chapter 20. They must be spent: each list has a holder here.
#[must_use]
pub struct Args {
    /// The lists, one for each argument, and none behind the last.
    pub lists: [Option<ListRef>; 9],
    /// How many arguments there are.
    pub count: usize,
    ghost nine: { length lists ≡ 9 },
}

impl Args {
    ghost use Rattle.std.specs.Prelude.{◌≡◌, ◌+◌, ◌<◌, ◌≤◌, ◌++◌, ◌∷◌, [], ℕ, slice_set, take, vec_capacity};
    ghost use Rattle.token_lists.specs.Accounts.{Moves, Covers, Keeps, none, cell_holds};
    ghost use Rattle.macro_args.specs.Args.{args_hold, args_in, cell_tokens, IsFilled};

    /// No arguments.
    pub fn none() -> Args
        ensures empty { result.count ≡ 0 }
        ensures filled { IsFilled result }
        ensures account { (h : ℕ) → args_hold result h ≡ 0 }
    {
        Args {
            lists: [None, None, None, None, None, None, None, None, None],
            count: 0,
        }
    }

    /// One argument more; without tokens it has no list.
    pub fn keep(&mut self, lists: &mut Lists, cell: Option<ListRef>)
        requires room { self.old.count < 9 }
        requires filled { IsFilled self.old }
        ensures unchanged { lists.new ≡ lists.old }
        ensures filled { IsFilled self.new }
        ensures count { self.new.count ≡ self.old.count + 1 }
        ensures lists { self.new.lists ≡ slice_set self.old.lists self.old.count cell }
        ensures account { (h : ℕ) → args_hold self.new h ≡ args_hold self.old h + cell_holds cell h }
        ensures tokens { args_in lists.new self.new ≡ args_in lists.old self.old ++ cell_tokens lists.old cell ∷ [] }
    {
        let old = mem::replace(&mut self.lists[self.count], cell);
        release_cell(lists, old);
        self.count += 1;
    }

    /// Puts the arguments on a stack that has room for them, in their order.
    pub fn push_onto(self, stack: &mut Vec<Option<ListRef>>)
        requires filled { IsFilled self }
        requires room { length stack.old.items + self.count ≤ vec_capacity stack.old }
        ensures items { stack.new.items ≡ stack.old.items ++ take self.count self.lists }
        ensures capacity { vec_capacity stack.new ≡ vec_capacity stack.old }
    {
        let Args { mut lists, count } = self;
        let mut place = 0;
        while place < count {
            let cell = mem::replace(&mut lists[place], None);
            stack.push_reserved(cell);
            place += 1;
        }
        drop_empty_cells(lists);
    }

    /// Lets all arguments go.
    #[inline(always)]
    pub fn release(self, lists: &mut Lists)
        requires { Covers lists.old (args_hold self) }
        ensures account { Moves lists.old lists.new (args_hold self) none }
        ensures kept { Keeps lists.old lists.new (args_hold self) }
        ensures size { length lists.new ≡ length lists.old }
    {
        let Args {
            lists: [a, b, c, d, e, f, g, h, i],
            count: _,
        } = self;
        release_cell(lists, a);
        release_cell(lists, b);
        release_cell(lists, c);
        release_cell(lists, d);
        release_cell(lists, e);
        release_cell(lists, f);
        release_cell(lists, g);
        release_cell(lists, h);
        release_cell(lists, i);
    }
}
