//! What holds of each stack of levels. The functions do nothing; their contracts are the laws.
ghost use Rattle.std.specs.Prelude.{◌≡◌, ℕ, ◌+◌, List, [], Option, None, ◌<◌, ◌≤◌, length};
ghost use Rattle.tex_defs.specs.declared.Token.{Token};
ghost use Rattle.input_stack.specs.Calls.{Argument, spelt, substituted, filled};
ghost use Rattle.input_stack.specs.Flat.{placed, used_after, used_arguments_after};
ghost use Rattle.input_stack.specs.Puts.{Put, used, used_arguments};
ghost use Rattle.token_lists.specs.Table.{Entry};
ghost use Rattle.token_lists.specs.Accounts.{Moves, Keeps, Covers};
ghost use Rattle.input_stack.specs.Pending.{times, held_lists, levels, arguments};
ghost use Rattle.input_stack.specs.View.{pending, held, innermost, IsSourceOnTop};
ghost use Rattle.input_stack.specs.Stacks.{IsStack};

use crate::InputStack;

/// Where other parts change which lists they hold, the levels stand on, and what is pending stays.
pub fn others_leave_pending(stack: &InputStack)
    ensures { (old new : List (Option Entry)) (before after : ℕ → ℕ) → IsStack old stack.now → Covers old (λ h. before h + held stack.now h) → Moves old new before after → Keeps old new before → IsStack new stack.now × (pending new stack.now ≡ pending old stack.now) }
{
    let _ = stack;
}

/// What the stack holds are the lists of the Puts that are pending, each as often as it stands among them.
pub fn puts_are_held(stack: &InputStack)
    ensures { (table : List (Option Entry)) (h : ℕ) → held stack.now h ≡ times h (held_lists (pending table stack.now)) }
{
    let _ = stack;
}

/// Each level that stands and each argument of a call holds one list at most. So no list is held more often than levels
/// and arguments stand, which are within the sizes of the input stack and of the parameter stack.
pub fn few_are_held(stack: &InputStack)
    ensures standing { (table : List (Option Entry)) (h : ℕ) → IsStack table stack.now → held stack.now h ≤ levels (pending table stack.now) + arguments (pending table stack.now) }
    ensures sizes { (table : List (Option Entry)) (h : ℕ) → IsStack table stack.now → held stack.now h ≤ stack.now.size + stack.now.parameter_size }
{
    let _ = stack;
}

/// A file, or a line of `\read`, is on top where nothing stands in front of its line.
pub fn source_is_on_top(stack: &InputStack)
    ensures { (table : List (Option Entry)) → (pending table stack.now).puts ≡ [] → 0 < length (pending table stack.now).sources → IsSourceOnTop (innermost stack.now) }
{
    let _ = stack;
}

/// What is used of the levels and of the arguments may be read off the flat list of all items, by the numbers of the
/// Puts that placed them.
pub fn puts_are_one_list()
    ensures used { (puts : List Put) → used_after None (placed puts) ≡ used puts }
    ensures arguments { (puts : List Put) → used_arguments_after None (placed puts) ≡ used_arguments puts }
{}

/// The items of a macro call spell the body with the arguments' tokens in their places; gaps spell nothing.
pub fn calls_are_spelt()
    ensures { (arguments : List (Option Argument)) (body : List Token) → spelt (substituted arguments body) ≡ filled arguments body }
{}
