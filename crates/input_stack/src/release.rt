// Holders that go.
ghost use Rattle.std.specs.Prelude.{◌≡◌, ◌≤◌, IfSome, length, take, drop, vec_capacity};
ghost use Rattle.token_lists.specs.Table.{IsHeld};
ghost use Rattle.token_lists.specs.Ids.{id_of};
ghost use Rattle.token_lists.specs.Accounts.{Moves, Keeps, Covers, none, holds, cell_holds, cells_hold};
ghost use Rattle.input_stack.specs.Lasting.{Lasts};

use token_lists::{ListRef, Lists};

/// Lets a holder of a list go.
pub fn let_go(lists: &mut Lists, list: ListRef)
    requires { IsHeld lists.old (id_of list) }
    ensures account { Moves lists.old lists.new (holds (id_of list)) none }
    ensures kept { Keeps lists.old lists.new (holds (id_of list)) }
    ensures lasting { Lasts lists.old lists.new }
{
    lists.release(list);
}

// Lets a holder of a list go, if there is one.
fn let_cell_go(lists: &mut Lists, cell: Option<ListRef>)
    requires { IfSome cell (λ r. IsHeld lists.old (id_of r)) }
    ensures account { Moves lists.old lists.new (cell_holds cell) none }
    ensures kept { Keeps lists.old lists.new (cell_holds cell) }
    ensures lasting { Lasts lists.old lists.new }
{
    if let Some(list) = cell {
        let_go(lists, list);
    }
}

/// The cells behind so many go, each with its holder of a list if it has one.
#[inline(always)]
pub fn let_cells_go(cells: &mut Vec<Option<ListRef>>, left: usize, lists: &mut Lists)
    requires within { left ≤ length cells.old.items }
    requires held { Covers lists.old (cells_hold (drop left cells.old.items)) }
    ensures left { cells.new.items ≡ take left cells.old.items }
    ensures capacity { vec_capacity cells.new ≡ vec_capacity cells.old }
    ensures account { Moves lists.old lists.new (cells_hold (drop left cells.old.items)) none }
    ensures kept { Keeps lists.old lists.new (cells_hold (drop left cells.old.items)) }
    ensures lasting { Lasts lists.old lists.new }
{
    while cells.len() > left {
        let Some(cell) = cells.pop() else {
            unreachable!()
        };
        let_cell_go(lists, cell);
    }
}
