// Holders of lists.
ghost use Rattle.std.specs.Prelude.{◌≡◌, IfSome, None, length};
ghost use Rattle.token_lists.specs.Table.{IsHeld};
ghost use Rattle.token_lists.specs.Accounts.{Moves, Keeps, none, cell_holds};
ghost use Rattle.token_lists.specs.Ids.{id_of};
ghost use Rattle.macro_args.specs.Args.{AreNone};

use token_lists::{ListRef, Lists};

// Lets a holder go, if there is one.
#[inline(always)]
pub fn release_cell(lists: &mut Lists, cell: Option<ListRef>)
    requires { IfSome cell (λ r. IsHeld lists.old (id_of r)) }
    ensures account { Moves lists.old lists.new (cell_holds cell) none }
    ensures kept { Keeps lists.old lists.new (cell_holds cell) }
    ensures size { length lists.new ≡ length lists.old }
    ensures free { cell ≡ None → lists.new ≡ lists.old }
{
    if let Some(list) = cell {
        lists.release(list);
    }
}

// A cell without a list goes.
fn drop_empty_cell(cell: Option<ListRef>)
    requires { cell ≡ None }
{
    match cell {
        None => {}
        Some(_list) => unreachable!(),
    }
}

// Cells without lists go.
pub fn drop_empty_cells(lists: [Option<ListRef>; 9])
    requires { AreNone lists }
{
    let [a, b, c, d, e, f, g, h, i] = lists;
    drop_empty_cell(a);
    drop_empty_cell(b);
    drop_empty_cell(c);
    drop_empty_cell(d);
    drop_empty_cell(e);
    drop_empty_cell(f);
    drop_empty_cell(g);
    drop_empty_cell(h);
    drop_empty_cell(i);
}
