// Runs: rules, one after another.
ghost use Rattle.std.specs.Prelude.{◌≡◌, ◌<◌, IfOk, IfErr, IfSome, OnOk, MatchResult, None, true, false};
ghost use Rattle.tex_defs.specs.Places.{Rose};
ghost use Rattle.world_io.specs.declared.traits.Fault.TheVariants.{Failed, NoMemory};
ghost use Rattle.line_reader.specs.Readers.{AreOpen};
ghost use Rattle.engine_state.specs.Steps.{weight, stops_run, IsFree, StepsIf, asks_now, wants_token};
ghost use Rattle.stomach.specs.declared.early.Early.TheVariants as early;
ghost use Rattle.stomach.specs.Ahead.{Knows, needs_step as plain_needs_step};
ghost use Rattle.stomach.specs.AtHand.{IsAtHand};
ghost use Rattle.stomach.specs.Innermost.{IsInnermost};
ghost use Rattle.stomach.specs.Read.{ReadsTo, AreTied};
ghost use Rattle.stomach.specs.Ran.{RuledTo, FreeTo, RanTo, StoppedTo};

use crate::ahead::{has_token, read_ahead};
use crate::early::Early;
use crate::files::{close_ended, open_file};
use crate::innermost::{Innermost, wanted};
use crate::rules::{rule, rule_of_token};
use engine_state::{Engine, Ruled};
use line_reader::Readers;
use tex_syntax::{Outcome, Want};
use world_io::{Files, Sink};

/// How a run came to its end.
#[derive(Clone, Copy)]
pub enum Ended {
    Halted(Outcome),
    Steps,
}

/// Whether the next rule needs a step; `wants`: whether it wants a token.
#[inline(always)]
fn needs_step(engine: &Engine, wants: bool) -> bool
    requires { wants ≡ wants_token (asks_now engine.now) }
    ensures { result ≡ plain_needs_step engine.now }
{
    engine.input.has_next() || wants && engine.input.is_ready()
}

/// How the next token is wanted, where it is at hand: a list or a call in front has it left.
#[inline(always)]
fn at_hand(engine: &Engine) -> Option<Option<Want>>
    ensures { IfSome result (λ want. IsAtHand engine.now want) }
{
    match wanted(engine) {
        Some(want) if has_token(engine, true) => Some(want),
        _ => None,
    }
}

/// Does one rule of the machine, with at most one step. The reader of a file that ends is closed.
fn one_rule<F: Files, S: Sink>(
    engine: &mut Engine,
    innermost: &Innermost,
    readers: &mut Readers,
    files: &mut F,
    out: &mut S,
) -> Result<Ruled, Early>
    requires innermost { IsInnermost engine.old innermost.now }
    requires idle { engine.old.input.making ≡ None }
    requires running { engine.old.stopped ≡ false }
    requires open { AreOpen readers.old.readers (F.told files.old) }
    requires knows { AreTied readers.old engine.old → Knows engine.old readers.old.readers }
    ensures rule { ReadsTo readers.old.readers readers.new.readers (F.told files.old) (F.told files.new) (λ all left. RuledTo readers.old engine.old (S.told out.old) readers.new engine.new (S.told out.new) all left result) }
    ensures light { IfOk result (λ ruled. IsFree ruled → weight engine.new < weight engine.old) }
    ensures step { IfOk result (λ ruled. StepsIf ruled (plain_needs_step engine.old)) }
    ensures open { AreOpen readers.new.readers (F.told files.new) }
    ensures fault { IfErr result (λ e. e ≡ early.Unread Failed → Rose (F.told files.old).read_faults (F.told files.new).read_faults) }
    ensures want { IfErr result (λ e. e ≡ early.Unread NoMemory → Rose (F.told files.old).wants (F.told files.new).wants) }
    ensures idle { OnOk result (engine.new.input.making ≡ None) }
    ensures running { IfOk result (λ ruled. stops_run ruled ≡ false → engine.new.stopped ≡ false) }
{
    if engine.input.has_next() {
        engine.begin_file()?;
        return Ok(Ruled::Step);
    }
    if innermost.opens_file() {
        return open_file(engine, readers, files, out);
    }
    let ruled = rule(engine, innermost, out);
    close_ended(engine, readers, files);
    Ok(ruled?)
}

/// Makes the rules that need no step, until the next one needs one, with this innermost reading, or the run ends. The files are read on where they must be.
fn run_to_step<F: Files, S: Sink>(
    engine: &mut Engine,
    innermost: &mut Innermost,
    readers: &mut Readers,
    files: &mut F,
    out: &mut S,
) -> Result<Option<Outcome>, Early>
    requires idle { engine.old.input.making ≡ None }
    requires running { engine.old.stopped ≡ false }
    requires open { AreOpen readers.old.readers (F.told files.old) }
    ensures waits { IfOk result (λ o. o ≡ None → plain_needs_step engine.new ≡ true) }
    ensures innermost { IfOk result (λ o. o ≡ None → IsInnermost engine.new innermost.new) }
    ensures runs { IfOk result (λ o. o ≡ None → engine.new.stopped ≡ false) }
    ensures knows { IfOk result (λ o. o ≡ None → AreTied readers.new engine.new → Knows engine.new readers.new.readers) }
    ensures run { ReadsTo readers.old.readers readers.new.readers (F.told files.old) (F.told files.new) (λ all left. FreeTo readers.old engine.old (S.told out.old) readers.new engine.new (S.told out.new) all left result) }
    ensures open { AreOpen readers.new.readers (F.told files.new) }
    ensures fault { IfErr result (λ e. e ≡ early.Unread Failed → Rose (F.told files.old).read_faults (F.told files.new).read_faults) }
    ensures want { IfErr result (λ e. e ≡ early.Unread NoMemory → Rose (F.told files.old).wants (F.told files.new).wants) }
    ensures idle { OnOk result (engine.new.input.making ≡ None) }
{
    loop {
        innermost.look(engine);
        let wants = innermost.wants_token();
        if has_token(engine, wants) {
            return Ok(None);
        }
        read_ahead(engine, readers, files, wants)?;
        if needs_step(engine, wants) {
            return Ok(None);
        }
        match one_rule(engine, innermost, readers, files, out)? {
            Ruled::Halted(outcome) => return Ok(Some(outcome)),
            Ruled::Step => unreachable!(),
            Ruled::Free => {}
        }
    }
}

/// Goes on for at most n steps: to the end of the run, or to where it needs one step more. The open files are read on by
/// windows of 256 bytes, each only where it gives the next line. Files are opened and closed as the run goes on; those that are open at its end stay open.
///
/// # Errors
/// A table has no room for the machine's next move, a write failed or wanted memory, or a file's next bytes were needed
/// and didn't come, or it couldn't be opened: the engine stands for that moment.
pub fn run_steps<F: Files, S: Sink>(
    engine: &mut Engine,
    readers: &mut Readers,
    files: &mut F,
    out: &mut S,
    n: u64,
) -> Result<Ended, Early>
    requires idle { engine.old.input.making ≡ None }
    requires running { engine.old.stopped ≡ false }
    requires open { AreOpen readers.old.readers (F.told files.old) }
    // Whatever the files have left when the call ends, and whatever the openings behind it find: the machine's run from where all the bytes that
    // they had left stand in the files is this one.
    ensures run { ReadsTo readers.old.readers readers.new.readers (F.told files.old) (F.told files.new) (λ all left. MatchResult result
        (λ ended. RanTo readers.old engine.old (S.told out.old) engine.new (S.told out.new) n ended all left)
        (λ e. StoppedTo readers.old engine.old (S.told out.old) engine.new (S.told out.new) n e all left)) }
    ensures open { AreOpen readers.new.readers (F.told files.new) }
    ensures fault { IfErr result (λ e. e ≡ early.Unread Failed → Rose (F.told files.old).read_faults (F.told files.new).read_faults) }
    ensures want { IfErr result (λ e. e ≡ early.Unread NoMemory → Rose (F.told files.old).wants (F.told files.new).wants) }
    ensures idle { OnOk result (engine.new.input.making ≡ None) }
    ensures stopped { engine.new.stopped ≡ true }
{
    let ended = make_run(engine, readers, files, out, n);
    engine.stopped = true;
    ended
}

/// Goes on for at most n steps; that the run has stopped isn't noted. The first case is the step of a token at hand.
#[inline(never)]
fn make_run<F: Files, S: Sink>(
    engine: &mut Engine,
    readers: &mut Readers,
    files: &mut F,
    out: &mut S,
    n: u64,
) -> Result<Ended, Early>
    requires idle { engine.old.input.making ≡ None }
    requires running { engine.old.stopped ≡ false }
    requires open { AreOpen readers.old.readers (F.told files.old) }
    ensures run { ReadsTo readers.old.readers readers.new.readers (F.told files.old) (F.told files.new) (λ all left. MatchResult result
        (λ ended. RanTo readers.old engine.old (S.told out.old) engine.new (S.told out.new) n ended all left)
        (λ e. StoppedTo readers.old engine.old (S.told out.old) engine.new (S.told out.new) n e all left)) }
    ensures open { AreOpen readers.new.readers (F.told files.new) }
    ensures fault { IfErr result (λ e. e ≡ early.Unread Failed → Rose (F.told files.old).read_faults (F.told files.new).read_faults) }
    ensures want { IfErr result (λ e. e ≡ early.Unread NoMemory → Rose (F.told files.old).wants (F.told files.new).wants) }
    ensures idle { OnOk result (engine.new.input.making ≡ None) }
{
    let mut taken = 0;
    let mut innermost = Innermost::none();
    loop {
        if taken != n {
            if let Some(want) = at_hand(engine) {
                match rule_of_token(engine, out, want)? {
                    Ruled::Halted(outcome) => return Ok(Ended::Halted(outcome)),
                    Ruled::Step => {
                        taken += 1;
                        continue;
                    }
                    Ruled::Free => unreachable!(),
                }
            }
        }
        if let Some(outcome) = run_to_step(engine, &mut innermost, readers, files, out)? {
            return Ok(Ended::Halted(outcome));
        }
        if taken == n {
            engine.input.end_token_lists();
            return Ok(Ended::Steps);
        }
        match one_rule(engine, &innermost, readers, files, out)? {
            Ruled::Halted(outcome) => return Ok(Ended::Halted(outcome)),
            Ruled::Step => taken += 1,
            Ruled::Free => unreachable!(),
        }
    }
}
