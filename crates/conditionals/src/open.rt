// The open conditionals. *The TeXbook*, chapter 20; *TeX: The Program*, part 28 (`cond_ptr`, `if_limit`, `cur_if`, `if_line`).
ghost use Rattle.std.specs.Prelude.{◌≡◌, ◌≤◌, ◌<◌, ◌+◌, ◌^◌, List, [], ◌∷◌, drop, length, reverse, slice_get, IfOk, IfErr, OnOk};
ghost use Rattle.conditionals.specs.Open as stack;
ghost use Rattle.conditionals.specs.Open.{above, above_sought, innermost_test, limit_of, opened, stack_full, with_limit};

use crate::choice::Aim;
use crate::limits::Limit;
use std::alloc::{AllocError, Global};
use std::marker::Model;
use tex_defs::{Full, Table};

/// An open conditional.
#[derive(Clone, Copy)]
pub struct Conditional {
    /// The number of its primitive.
    pub number: u16,
    /// The number of the line on which it began; 0 where no file was open.
    pub line: u64,
    pub limit: Limit,
}

/// All open conditionals, and room for as many as the condition stack's size.
#[derive(Drop)]
pub struct Conditionals {
    /// The outermost first.
    stack: Vec<Conditional>,
    size: u32,
}

impl Model for Conditionals {
    ghost use Rattle.std.specs.Prelude.{reverse, vec_capacity};
    ghost use Rattle.conditionals.specs.Open.{Stack, IsRoomy};

    ghost Value = { Stack };

    ghost view = { λ c. record { items = reverse c.stack.items; size = c.size } };

    ghost invariant = { λ c. IsRoomy c.stack.items c.size (vec_capacity c.stack) };
}

/// How many of these, the outermost first, stand above the innermost whose test is under way.
fn above_test(stack: &[Conditional]) -> usize
    ensures { result ≡ above (reverse stack.now) }
{
    stack
        .iter()
        .rev()
        .position(|c| matches!(c.limit, Limit::Test))
        .unwrap_or(stack.len())
}

/// The value of a test that reads nothing, by the number of its primitive: `\ifvmode`, `\ifhmode`, `\ifmmode`, `\ifinner`, `\iftrue` and `\iffalse`.
///
/// The mode is always vertical, and not an inner one.
pub fn constant_test(number: u16) -> Option<bool>
    ensures { result ≡ stack.constant_test number }
{
    match number {
        70 | 79 => Some(true),
        71..=73 | 80 => Some(false),
        _ => None,
    }
}

impl Conditionals {
    /// None is open, and there is room for `size` of them.
    ///
    /// # Errors
    /// There is no room for them. No other call takes memory.
    pub fn new(alloc: Global, size: u32) -> Result<Conditionals, AllocError>
        ensures { IfOk result (λ conditionals. conditionals ≡ record { items = []; size = size }) }
    {
        let stack = Vec::with_capacity(alloc, size as usize)?;
        Ok(Conditionals { stack, size })
    }

    /// How many are open.
    pub fn count(&self) -> u32
        ensures is { result ≡ length self.now.items }
        ensures within { result ≤ self.now.size }
    {
        self.stack.len() as u32
    }

    /// One more begins, on this line: its test is under way.
    ///
    /// # Errors
    /// As many are open as there may be. Nothing has changed then.
    pub fn begin(&mut self, number: u16, line: u64) -> Result<(), Full>
        ensures begins { OnOk result (self.new ≡ record { items = opened number line self.old.items; size = self.old.size }) }
        ensures room { OnOk result (length self.old.items < self.old.size) }
        ensures full { IfErr result (λ full. full ≡ stack_full self.old) }
        ensures refused { IfErr result (λ full. self.old.size ≤ length self.old.items) }
        ensures unchanged { IfErr result (λ full. self.new ≡ self.old) }
    {
        let used = self.count();
        if used == self.size {
            return Err(Full {
                table: Table::ConditionStackSize,
                used,
                size: self.size,
            });
        }
        self.stack.push_reserved(Conditional {
            number,
            line,
            limit: Limit::Test,
        });
        Ok(())
    }

    /// How far the innermost has come, if one is open.
    pub fn limit(&self) -> Option<Limit>
        ensures { result ≡ limit_of self.now.items }
    {
        self.stack.last().map(|c| c.limit)
    }

    /// The number of the innermost, or 0 where none is open.
    pub fn innermost_test(&self) -> u16
        ensures { result ≡ innermost_test self.now.items }
    {
        self.stack.last().map_or(0, |c| c.number)
    }

    /// How many stand above the one for which this is sought: above the innermost, where it is a `\fi` alone, and else above the innermost
    /// whose test is under way.
    pub fn above_sought(&self, aim: Aim) -> u32
        ensures { result ≡ above_sought aim self.now.items }
    {
        match aim {
            Aim::Fi => 0,
            Aim::Branch | Aim::Case(_) | Aim::Other(_) => above_test(&self.stack) as u32,
        }
    }

    /// The innermost whose test is under way has come so far.
    pub fn set_limit(&mut self, limit: Limit)
        ensures { self.new ≡ record { items = with_limit limit self.old.items; size = self.old.size } }
    {
        let count = self.stack.len();
        let above = above_test(&self.stack);
        if above < count {
            self.stack[count - 1 - above].limit = limit;
        }
    }

    /// The innermost closes, if one is open.
    pub fn close(&mut self)
        ensures { self.new ≡ record { items = drop 1 self.old.items; size = self.old.size } }
    {
        let _closed = self.stack.pop();
    }

    /// This one, where the innermost is number 0.
    pub fn get(&self, number: u32) -> Option<Conditional>
        ensures { result ≡ slice_get self.now.items number }
    {
        self.stack.iter().rev().nth(number as usize).copied()
    }
}
