// Lists with more than one holder.
ghost use Rattle.std.specs.Prelude.{◌≡◌, ℕ, ◌+◌, ◌<◌, ◌^◌, None, Some, IfSome, MatchOption};
ghost use Rattle.plain_tokens.specs.Arguments.{has_parameters};
ghost use Rattle.plain_tokens.specs.Meanings.{meaning_to_let};
ghost use Rattle.token_lists.specs.Table.{IsHeld, holders_at, tokens_at};
ghost use Rattle.token_lists.specs.Ids.{id_of};
ghost use Rattle.token_lists.specs.Accounts.{Moves, Keeps, holds, none};
ghost use Rattle.macro_args.specs.Args.{args_hold};
ghost use Rattle.input_stack.specs.CallViews.{Shares};
ghost use Rattle.input_stack.specs.Lasting.{Lasts};
ghost use Rattle.input_state.specs.AtLocations.{list_number};
ghost use Rattle.equivalents.specs.Groups.{IsLocation};
ghost use Rattle.equivalents.specs.Holding.{list_of};
ghost use Rattle.equivalents.specs.Locations.{tokens_of};
ghost use Rattle.eqtb_save.specs.Values.{numbered_value};
ghost use Rattle.eqtb_save.specs.Holding.{held};

use eqtb_save::{Eqtb, Loc, Val, Value};
use macro_args::Args;
use tex_defs::{Meaning, Seen, Token};
use token_lists::{ListRef, Lists};

/// Whether a macro's list has a parameter text.
#[inline(always)]
pub fn has_parameters(lists: &Lists, list: &ListRef) -> bool
    requires { IsHeld lists.now (id_of list.now) }
    ensures { result ≡ has_parameters (tokens_at lists.now (id_of list.now)) }
{
    match lists.first(list) {
        Some(place) => !lists.is_end_mark(place),
        None => false,
    }
}

/// A second holder.
pub fn share(lists: &mut Lists, list: &ListRef) -> ListRef
    requires held { IsHeld lists.old (id_of list.now) }
    requires countable { holders_at lists.old (id_of list.now) + 1 < 2 ^ 32 }
    ensures same { id_of result ≡ id_of list.now }
    ensures shares { Shares lists.old lists.new (holds (id_of result)) }
{
    lists.share(list)
}

/// Lets a holder go.
pub fn let_go(lists: &mut Lists, list: ListRef)
    requires { IsHeld lists.old (id_of list) }
    ensures account { Moves lists.old lists.new (holds (id_of list)) none }
    ensures kept { Keeps lists.old lists.new (holds (id_of list)) }
    ensures lasting { Lasts lists.old lists.new }
{
    lists.release(list);
}

/// Lets a holder go, and with it no arguments.
pub fn give_back(lists: &mut Lists, list: ListRef, args: Args)
    requires held { IsHeld lists.old (id_of list) }
    requires no_arguments { (h : ℕ) → args_hold args h ≡ 0 }
    ensures account { Moves lists.old lists.new (holds (id_of list)) none }
    ensures kept { Keeps lists.old lists.new (holds (id_of list)) }
    ensures lasting { Lasts lists.old lists.new }
{
    let_go(lists, list);
    args.release(lists);
}

// The list of a value that is one.
fn list_of(value: &Value) -> Option<&ListRef>
    ensures { MatchOption result (tokens_of (numbered_value value.now) ≡ None) (λ r. tokens_of (numbered_value value.now) ≡ Some (id_of r.now)) }
{
    match value {
        Val::Tokens(Some(list)) => Some(list),
        _ => None,
    }
}

/// The list that stands at a location, if one does.
pub fn list_at(table: &Eqtb, loc: Loc) -> Option<&ListRef>
    requires { IsLocation table.now.groups loc }
    ensures list { MatchOption result (list_number table.now.groups loc ≡ None) (λ r. list_number table.now.groups loc ≡ Some (id_of r.now)) }
    ensures held { IfSome result (λ r. 0 < held table.now (id_of r.now)) }
{
    list_of(table.get(loc))
}

/// The list of the macro that a token means, as `\let` would give it, if it means one with a list.
pub fn list_to_let(table: &Eqtb, x: Seen) -> Option<&ListRef>
    ensures list { MatchOption result (list_of (meaning_to_let table.now.groups.now.meanings x) ≡ None) (λ r. list_of (meaning_to_let table.now.groups.now.meanings x) ≡ Some (id_of r.now)) }
    ensures held { IfSome result (λ r. 0 < held table.now (id_of r.now)) }
{
    match (x.meaning, x.token) {
        (Meaning::RelaxMarked, _) => None,
        (_, Token::Named(name) | Token::Marked(name)) => table.list(name),
        _ => None,
    }
}
