// Values as they are kept: with a holder of each list.
ghost use Rattle.std.specs.Prelude.{◌≡◌, ◌+◌, ◌<◌, ◌^◌, IfSome, MatchOption, None, Some};
ghost use Rattle.token_lists.specs.Table.{IsHeld, holders_at};
ghost use Rattle.token_lists.specs.Accounts.{Moves, Keeps, none};
ghost use Rattle.token_lists.specs.Ids.{id_of};
ghost use Rattle.equivalents.specs.declared.values.Val.TheVariants as val;
ghost use Rattle.equivalents.specs.Locations.{category_of, number_value, first_code, first_register, index, value_seen, IsMeaning};
ghost use Rattle.equivalents.specs.Holding.{value_list};
ghost use Rattle.meanings.specs.Kept.{numbered_meaning};
ghost use Rattle.meanings.specs.Holding.{with_holder, without_holder, Lasts};
ghost use Rattle.eqtb_save.specs.Values.{numbered_value};
ghost use Rattle.eqtb_save.specs.Holding.{val_holds};

use equivalents::{CodeKind, Loc, Val};
use meanings::{Kept, seen};
use tex_defs::RegisterKind;
use token_lists::{ListRef, Lists};

/// A value as it is kept: a macro and a token list have a holder of their list.
pub type Value = Val<Option<ListRef>>;

fn first_code(kind: CodeKind) -> u32
    ensures { result ≡ first_code kind }
{
    match kind {
        CodeKind::Category => 0,
        CodeKind::Lowercase => 256,
        CodeKind::Uppercase => 512,
        CodeKind::SpaceFactor => 768,
        CodeKind::Math => 1024,
        CodeKind::Delimiter => 1280,
    }
}

fn first_register(kind: RegisterKind) -> u32
    ensures { result ≡ first_register kind }
{
    match kind {
        RegisterKind::Count => 1630,
        RegisterKind::Dimen => 1886,
        RegisterKind::Skip => 2142,
        RegisterKind::Muskip => 2398,
        RegisterKind::Toks => 2654,
    }
}

// The number of a location.
pub fn index(loc: Loc) -> u32
    requires { index loc < 2 ^ 32 }
    ensures { result ≡ index loc }
{
    match loc {
        Loc::Code { kind, code } => first_code(kind) + code as u32,
        Loc::Integer(i) => 1536 + i as u32,
        Loc::Dimension(i) => 1591 + i as u32,
        Loc::Glue(i) => 1612 + i as u32,
        Loc::Register { kind, no } => first_register(kind) + no as u32,
        Loc::Tokens(i) => 2910 + i as u32,
        Loc::Means(n) => 2918 + n,
    }
}

// The category code that a value is.
pub fn category_of(value: &Value) -> u8
    ensures { result ≡ category_of (numbered_value value.now) }
{
    match value {
        Val::Number(n) if *n >= 0 && *n < 16 => *n as u8,
        _ => 0,
    }
}

// The meaning that a value is.
pub fn meant(value: &Value) -> Option<&Kept>
    ensures { MatchOption result (IsMeaning (numbered_value value.now) → ⊥) (λ kept. numbered_value value.now ≡ val.Meant (numbered_meaning kept.now)) }
{
    match value {
        Val::Meant(kept) => Some(kept),
        _ => None,
    }
}

// A value as readings see it: without its list.
pub fn value_seen(value: &Value) -> Val<()>
    ensures { result ≡ value_seen (numbered_value value.now) }
{
    match value {
        Val::Number(n) => Val::Number(*n),
        Val::Skip(glue) => Val::Skip(*glue),
        Val::Meant(kept) => Val::Meant(seen(kept)),
        Val::Tokens(_) => Val::Tokens(()),
    }
}

// The number that a value is.
pub fn number(value: &Value) -> i32
    ensures { result ≡ number_value (numbered_value value.now) }
{
    match value {
        Val::Number(n) => *n,
        _ => 0,
    }
}

// Lets the list of a value go, if it has one.
pub fn release(lists: &mut Lists, value: Value)
    requires { IfSome (value_list (numbered_value value)) (λ id. IsHeld lists.old id) }
    ensures after { lists.new ≡ without_holder (value_list (numbered_value value)) lists.old }
    ensures account { Moves lists.old lists.new (val_holds (numbered_value value)) none }
    ensures kept { Keeps lists.old lists.new (val_holds (numbered_value value)) }
    ensures lasting { Lasts lists.old lists.new }
{
    match value {
        Val::Meant(meaning) => meanings::release(lists, meaning),
        Val::Tokens(list) => meanings::release_list(lists, list),
        Val::Number(_) => {}
        Val::Skip(_) => {}
    }
}

// The same value, where its list has one more holder.
pub fn share(lists: &mut Lists, value: &Value) -> Value
    requires held { IfSome (value_list (numbered_value value.now)) (λ id. IsHeld lists.old id) }
    requires countable { IfSome (value_list (numbered_value value.now)) (λ id. holders_at lists.old id + 1 < 2 ^ 32) }
    ensures same { numbered_value result ≡ numbered_value value.now }
    ensures after { lists.new ≡ with_holder (value_list (numbered_value value.now)) lists.old }
    ensures account { Moves lists.old lists.new none (val_holds (numbered_value result)) }
    ensures kept { Keeps lists.old lists.new none }
{
    match value {
        Val::Number(n) => Val::Number(*n),
        Val::Skip(glue) => Val::Skip(*glue),
        Val::Meant(meaning) => Val::Meant(meanings::share(lists, meaning)),
        Val::Tokens(list) => Val::Tokens(meanings::share_list(lists, list)),
    }
}
