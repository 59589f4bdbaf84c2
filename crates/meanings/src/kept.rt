// Meanings with their lists.
ghost use Rattle.std.specs.Prelude.{◌≡◌, ◌+◌, ◌<◌, ◌^◌, IfSome, MatchOption, None, Some};
ghost use Rattle.token_lists.specs.Table.{IsHeld, holders_at};
ghost use Rattle.token_lists.specs.Accounts.{Moves, Keeps, none};
ghost use Rattle.token_lists.specs.Ids.{id_of};
ghost use Rattle.plain_tokens.specs.Meanings.{seen_as, first_meaning, is_listed, marked_meaning};
ghost use Rattle.meanings.specs.Kept.{numbered_meaning, numbered_list, without_list};
ghost use Rattle.equivalents.specs.Holding.{list_of};
ghost use Rattle.meanings.specs.Holding.{list_holds, meaning_holds, with_holder, without_holder, Lasts};

use plain_tokens::is_expandable;
use tex_defs::Meaning;
use token_lists::{ListRef, Lists};

/// A meaning as it is kept: a macro has its list, but for one that means what the frozen `\endwrite` does, which has none.
pub type Kept = Meaning<Option<ListRef>>;

// The meaning as readings see it.
pub fn seen(kept: &Kept) -> Meaning<()>
    ensures { result ≡ seen_as (numbered_meaning kept.now) }
{
    match kept {
        Meaning::Undefined => Meaning::Undefined,
        Meaning::RelaxMarked => Meaning::RelaxMarked,
        Meaning::Char { cat, code } => Meaning::Char {
            cat: *cat,
            code: *code,
        },
        Meaning::CharGiven(code) => Meaning::CharGiven(*code),
        Meaning::MathGiven(code) => Meaning::MathGiven(*code),
        Meaning::Register { kind, no } => Meaning::Register {
            kind: *kind,
            no: *no,
        },
        Meaning::Prim(number) => Meaning::Prim(*number),
        Meaning::Macro {
            long,
            outer,
            list: _,
        } => Meaning::Macro {
            long: *long,
            outer: *outer,
            list: (),
        },
    }
}

// The list of a macro.
pub fn list_of(kept: &Kept) -> Option<&ListRef>
    ensures list { MatchOption result (list_of (numbered_meaning kept.now) ≡ None) (λ r. list_of (numbered_meaning kept.now) ≡ Some (id_of r.now)) }
{
    match kept {
        Meaning::Macro {
            long: _,
            outer: _,
            list,
        } => list.as_ref(),
        _ => None,
    }
}

// A meaning that is no macro's, as it is kept.
pub fn without_list(meaning: Meaning<()>) -> Kept
    ensures { numbered_meaning result ≡ without_list meaning }
{
    match meaning {
        Meaning::Undefined => Meaning::Undefined,
        Meaning::RelaxMarked => Meaning::RelaxMarked,
        Meaning::Char { cat, code } => Meaning::Char { cat, code },
        Meaning::CharGiven(code) => Meaning::CharGiven(code),
        Meaning::MathGiven(code) => Meaning::MathGiven(code),
        Meaning::Register { kind, no } => Meaning::Register { kind, no },
        Meaning::Prim(number) => Meaning::Prim(number),
        Meaning::Macro {
            long,
            outer,
            list: (),
        } => Meaning::Macro {
            long,
            outer,
            list: None,
        },
    }
}

// What the name of a primitive means at first, where these primitives mean something.
pub fn known(numbers: &[u16], number: u16) -> Kept
    ensures { numbered_meaning result ≡ first_meaning (is_listed numbers.now) number }
{
    if numbers.contains(&number) {
        Meaning::Prim(number)
    } else {
        Meaning::Undefined
    }
}

// What a name means behind `\noexpand`.
pub fn marked(meaning: Meaning<()>) -> Meaning<()>
    ensures { result ≡ marked_meaning meaning }
{
    if is_expandable(meaning) {
        return Meaning::RelaxMarked;
    }
    meaning
}

// One more holder of a list, if there is one.
pub fn share_list(lists: &mut Lists, list: &Option<ListRef>) -> Option<ListRef>
    requires held { IfSome list.now (λ r. IsHeld lists.old (id_of r)) }
    requires countable { IfSome list.now (λ r. holders_at lists.old (id_of r) + 1 < 2 ^ 32) }
    ensures same { numbered_list result ≡ numbered_list list.now }
    ensures after { lists.new ≡ with_holder (numbered_list list.now) lists.old }
    ensures account { Moves lists.old lists.new none (list_holds (numbered_list result)) }
    ensures kept { Keeps lists.old lists.new none }
{
    match list {
        Some(list) => Some(lists.share(list)),
        None => None,
    }
}

// The same meaning, where a macro's list has one more holder.
pub fn share(lists: &mut Lists, kept: &Kept) -> Kept
    requires held { IfSome (list_of (numbered_meaning kept.now)) (λ id. IsHeld lists.old id) }
    requires countable { IfSome (list_of (numbered_meaning kept.now)) (λ id. holders_at lists.old id + 1 < 2 ^ 32) }
    ensures same { numbered_meaning result ≡ numbered_meaning kept.now }
    ensures after { lists.new ≡ with_holder (list_of (numbered_meaning kept.now)) lists.old }
    ensures account { Moves lists.old lists.new none (meaning_holds (numbered_meaning result)) }
    ensures kept { Keeps lists.old lists.new none }
{
    match kept {
        Meaning::Macro { long, outer, list } => Meaning::Macro {
            long: *long,
            outer: *outer,
            list: share_list(lists, list),
        },
        other => without_list(seen(other)),
    }
}

// Lets a list go, if there is one.
pub fn release_list(lists: &mut Lists, list: Option<ListRef>)
    requires { IfSome (numbered_list list) (λ id. IsHeld lists.old id) }
    ensures after { lists.new ≡ without_holder (numbered_list list) lists.old }
    ensures account { Moves lists.old lists.new (list_holds (numbered_list list)) none }
    ensures kept { Keeps lists.old lists.new (list_holds (numbered_list list)) }
    ensures lasting { Lasts lists.old lists.new }
{
    if let Some(list) = list {
        lists.release(list);
    }
}

// Lets the list of a meaning go, if it has one.
pub fn release(lists: &mut Lists, kept: Kept)
    requires { IfSome (list_of (numbered_meaning kept)) (λ id. IsHeld lists.old id) }
    ensures after { lists.new ≡ without_holder (list_of (numbered_meaning kept)) lists.old }
    ensures account { Moves lists.old lists.new (meaning_holds (numbered_meaning kept)) none }
    ensures kept { Keeps lists.old lists.new (meaning_holds (numbered_meaning kept)) }
    ensures lasting { Lasts lists.old lists.new }
{
    if let Meaning::Macro {
        long: _,
        outer: _,
        list,
    } = kept
    {
        release_list(lists, list);
    }
}
