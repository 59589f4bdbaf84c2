// The call whose arguments are gathered.
ghost use Rattle.std.specs.Prelude.{◌≡◌, true, IfOk, IfErr, OnOk, OnErr, Some};
ghost use Rattle.token_lists.specs.Table.{IsHeld, tokens_at};
ghost use Rattle.token_lists.specs.Ids.{id_of};
ghost use Rattle.token_lists.specs.Refusals.{IsFull};
ghost use Rattle.plain_tokens.specs.Meanings.{name_meaning};
ghost use Rattle.plain_tokens.specs.Arguments.{has_parameters, begins_with_place, mode_of};
ghost use Rattle.macro_call.specs.PlainScans.{first_scan};
ghost use Rattle.input_state.specs.Callings as calls;
ghost use Rattle.eqtb_save.specs.Table.{Table};
ghost use Rattle.equivalents.specs.Holding.{list_of};
ghost use Rattle.input_state.specs.declared.gathering.Gathering.TheVariants as gathering;
ghost use Rattle.input_state.specs.HeldViews.{calling_of, texts, IsCall, IsScanning, HasArguments};
ghost use Rattle.input_state.specs.CallFeeds.{Feeds, CutShort};
ghost use Rattle.input_state.specs.Calls.{text_of};
ghost use Rattle.input_state.specs.Recalls.{Recalls, stopped, with_arguments, HasNoWork};

use crate::CallEnd;
use eqtb_save::Eqtb;
use macro_args::Args;
use macro_call::{ArgScan, CallAsk};
use std::mem;
use tex_defs::{Full, Name, Token};
use token_lists::{ListRef, Lists};

/// A call of a macro, with what is gathered of its arguments.
pub enum Gathering {
    /// None is gathered.
    None,
    /// The scanner takes more tokens.
    Gathers(Name, ArgScan),
    /// It takes no more, for this cause.
    Stopped(Name, CallEnd, ArgScan),
    /// All arguments are there.
    Gathered(Name, Args),
}

impl Gathering {
    /// The name and the scanner of a call that takes tokens.
    pub fn into_scan(self) -> (Name, ArgScan)
        requires { IsScanning self }
        ensures { self ≡ gathering.Gathers result.0 result.1 }
    {
        match self {
            Gathering::Gathers(name, scan) => (name, scan),
            Gathering::None => unreachable!(),
            Gathering::Stopped(_name, _end, _scan) => unreachable!(),
            Gathering::Gathered(_name, _args) => unreachable!(),
        }
    }

    /// The name and the arguments of a call that has all of them.
    pub fn into_args(self) -> (Name, Args)
        requires { HasArguments self }
        ensures { self ≡ gathering.Gathered result.0 result.1 }
    {
        match self {
            Gathering::Gathered(name, args) => (name, args),
            Gathering::None => unreachable!(),
            Gathering::Gathers(_name, _scan) => unreachable!(),
            Gathering::Stopped(_name, _end, _scan) => unreachable!(),
        }
    }

    /// No call is left, and no list.
    pub fn end(self)
        requires { self ≡ gathering.None }
    {
        match self {
            Gathering::None => {}
            Gathering::Gathers(_name, _scan) => unreachable!(),
            Gathering::Stopped(_name, _end, _scan) => unreachable!(),
            Gathering::Gathered(_name, _args) => unreachable!(),
        }
    }
}

/// A call of a macro begins, whose list is this one: `long` tells whether it is `\long`. Where the parameter text begins
/// with a place, the first argument's list is begun.
pub fn begin(lists: &mut Lists, list: &ListRef, name: Name, long: bool) -> Result<Gathering, Full>
    requires held { IsHeld lists.old (id_of list.now) }
    requires gathers { has_parameters (tokens_at lists.old (id_of list.now)) ≡ true }
    ensures recalls { IfOk result (λ call. (t : Table) → list_of (name_meaning t.groups.now.meanings name) ≡ Some (id_of list.now) → Recalls lists.old lists.new t gathering.None call) }
    ensures first { IfOk result (λ call. calling_of lists.new call ≡ calls.Gathering name (first_scan (tokens_at lists.old (id_of list.now)) (mode_of long))) }
    ensures err { OnErr result (lists.new ≡ lists.old) }
    ensures place { OnErr result (begins_with_place (tokens_at lists.old (id_of list.now)) ≡ true) }
    ensures full { IfErr result (λ f. IsFull f lists.old) }
{
    let scan = ArgScan::new(lists, list, long)?;
    Ok(Gathering::Gathers(name, scan))
}

// A call that takes tokens takes no more, for this cause.
fn stop(call: &mut Gathering, end: CallEnd)
    requires { IsScanning call.old }
    ensures { call.new ≡ stopped end call.old }
{
    let (name, scan) = mem::replace(call, Gathering::None).into_scan();
    mem::replace(call, Gathering::Stopped(name, end, scan)).end();
}

// All arguments of a call are there: its scanner goes.
fn gathered(call: &mut Gathering)
    requires scanning { IsScanning call.old }
    requires whole { HasNoWork call.old }
    ensures { call.new ≡ with_arguments call.old }
{
    let (name, scan) = mem::replace(call, Gathering::None).into_scan();
    mem::replace(call, Gathering::Gathered(name, scan.into_args())).end();
}

/// Feeds a token to the scanner of a call, which stays where it is as long as it takes tokens.
pub fn feed(lists: &mut Lists, table: &Eqtb, call: &mut Gathering, token: Token) -> Result<(), Full>
    requires scanning { IsScanning call.old }
    requires sound { IsCall lists.old table.now call.old }
    ensures recalls { Recalls lists.old lists.new table.now call.old call.new }
    ensures ok { OnOk result (Feeds (text_of (texts lists.old) table.now.groups.now.meanings) token (calling_of lists.old call.old) (calling_of lists.new call.new)) }
    ensures err { OnErr result (CutShort (text_of (texts lists.old) table.now.groups.now.meanings) token (calling_of lists.old call.old) (calling_of lists.new call.new)) }
    ensures full { IfErr result (λ f. IsFull f lists.new) }
{
    let Gathering::Gathers(name, scan) = call else {
        unreachable!()
    };
    let Some(list) = table.list(*name) else {
        unreachable!()
    };
    match scan.feed(lists, list, token) {
        Ok(CallAsk::More) => Ok(()),
        Ok(CallAsk::ExtraBrace) => Ok(()),
        Ok(CallAsk::Gathered) => {
            gathered(call);
            Ok(())
        }
        Ok(CallAsk::Mismatch) => {
            stop(call, CallEnd::Mismatch);
            Ok(())
        }
        Ok(CallAsk::ParEnded(silent)) => {
            stop(call, CallEnd::ParEnded(silent));
            Ok(())
        }
        Err(full) => {
            stop(call, CallEnd::Full);
            Err(full)
        }
    }
}
