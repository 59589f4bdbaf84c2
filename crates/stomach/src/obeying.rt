// What the stomach and the readings make of a token that isn't expanded.
ghost use Rattle.std.specs.Prelude.{◌≡◌, IfOk, IfErr, OnOk, None, [], ◌∷◌};
ghost use Rattle.plain_machine.specs.States.{GroupOpened};
ghost use Rattle.plain_machine.specs.Plan.{begun, brace_met, endgroup_met, character, command, primitive, register};
ghost use Rattle.engine_state.specs.Clauses.{CutsFree, DoesSilently, GoesOnward, CutsOnward};
ghost use Rattle.engine_state.specs.CutReadings.{CutsIn};
ghost use Rattle.engine_state.specs.Stands.{Stands, SameFrames};
ghost use Rattle.engine_state.specs.Rules.{DoesOnward};
ghost use Rattle.plain_machine.specs.Weights.{pending_weight};
ghost use Rattle.engine_state.specs.Steps.{IsFree, IsHalted};
ghost use Rattle.engine_state.specs.declared.outcome.Ruled.TheVariants.{Step};
ghost use Rattle.stomach.specs.Clauses.{HandsToken};
ghost use Rattle.stomach.specs.Obeying.{Obeys, is_dropped as plain_dropped};
ghost use Rattle.input_state.specs.Callings.{NotCalling};

use engine_state::{Broken, Engine, Last, Ruled};
use gullet::call_of;
use reading_frames::Opening;
use rows::{Head, Phrase, find_row};
use save_stack::GroupKind;
use tex_defs::{Meaning, RegisterKind, Seen, Token};
use tex_syntax::{Report, Want};
use world_io::Sink;

/// The number of `\relax`.
const RELAX: u16 = 1;

/// The number of `\begingroup`.
const BEGINGROUP: u16 = 2;

/// The number of `\endgroup`.
const ENDGROUP: u16 = 3;

/// The number of `\endcsname`.
const ENDCSNAME: u16 = 4;

/// The number of `\end`.
const END: u16 = 6;

/// The category of a character that opens a group, and of one that closes it.
const BEGIN_GROUP: u8 = 1;

const END_GROUP: u8 = 2;

/// A right brace, which is inserted.
const RIGHT_BRACE: Token = Token::Char {
    cat: END_GROUP,
    code: b'}',
};

/// A group opens.
fn open_group(engine: &mut Engine, kind: GroupKind) -> Result<Ruled, Broken>
    requires idle { engine.old.input.making ≡ None }
    requires uncalled { engine.old.input.call ≡ NotCalling }
    ensures rule { IfOk result (DoesSilently Stands DoesOnward engine.old engine.new (λ _. GroupOpened kind ∷ [])) }
    ensures err { IfErr result (λ b. CutsFree engine.old engine.new (λ _. GroupOpened kind ∷ []) b) }
    ensures step { IfOk result (λ ruled. ruled ≡ Step) }
    ensures column { engine.new.in_line ≡ engine.old.in_line }
    ensures frames { SameFrames engine.old engine.new }
    ensures light { OnOk result (pending_weight engine.new.input.pending ≡ pending_weight engine.old.input.pending) }
    ensures idle { OnOk result (engine.new.input.making ≡ None) }
{
    engine.open_group(kind)?;
    Ok(Ruled::Step)
}

/// A right brace in the stomach. *TeX: The Program*, part 47 (`handle_right_brace`, `extra_right_brace`).
fn meet_brace<S: Sink>(engine: &mut Engine, out: &mut S) -> Result<Ruled, Broken>
    requires idle { engine.old.input.making ≡ None }
    requires uncalled { engine.old.input.call ≡ NotCalling }
    ensures rule { IfOk result (λ ruled. GoesOnward engine.old engine.new (S.told out.old) (S.told out.new) (λ page. brace_met page page.group) ruled) }
    ensures err { IfErr result (λ b. CutsOnward engine.old engine.new (S.told out.old) (S.told out.new) (λ page. brace_met page page.group) b) }
    ensures on { IfOk result (λ ruled. IsFree ruled → ⊥) }
    ensures frames { SameFrames engine.old engine.new }
    ensures light { OnOk result (pending_weight engine.new.input.pending ≡ pending_weight engine.old.input.pending) }
    ensures idle { OnOk result (engine.new.input.making ≡ None) }
{
    match engine.input.group_kind() {
        None => engine.report_only(out, Report::TooManyBraces),
        Some(GroupKind::Simple) => {
            engine.end_group()?;
            Ok(Ruled::Step)
        }
        Some(GroupKind::SemiSimple) => engine.report_only(out, Report::ForgottenEndgroup),
    }
}

/// `\endgroup`, as this token: in a group that a brace opened, it is put back and a right brace inserted. *TeX: The Program*, part 47
/// (`off_save`).
fn meet_endgroup<S: Sink>(engine: &mut Engine, out: &mut S, token: Token) -> Result<Ruled, Broken>
    requires idle { engine.old.input.making ≡ None }
    requires uncalled { engine.old.input.call ≡ NotCalling }
    ensures rule { IfOk result (λ ruled. GoesOnward engine.old engine.new (S.told out.old) (S.told out.new) (λ page. endgroup_met page token page.group) ruled) }
    ensures err { IfErr result (λ b. CutsOnward engine.old engine.new (S.told out.old) (S.told out.new) (λ page. endgroup_met page token page.group) b) }
    ensures on { IfOk result (λ ruled. IsFree ruled → ⊥) }
    ensures frames { SameFrames engine.old engine.new }
    ensures light { OnOk result (pending_weight engine.new.input.pending ≡ pending_weight engine.old.input.pending) }
    ensures idle { OnOk result (engine.new.input.making ≡ None) }
{
    match engine.input.group_kind() {
        None => engine.report_only(out, Report::ExtraEndgroup),
        Some(GroupKind::SemiSimple) => {
            engine.end_group()?;
            Ok(Ruled::Step)
        }
        Some(GroupKind::Simple) => {
            engine.put_one(token)?;
            engine.put_one(RIGHT_BRACE)?;
            engine.report_only(out, Report::MissingRightBrace)
        }
    }
}

/// A command is read by its row.
fn begin_row(engine: &mut Engine, token: Token, head: Head) -> Result<Ruled, Broken>
    requires idle { engine.old.input.making ≡ None }
    requires uncalled { engine.old.input.call ≡ NotCalling }
    ensures rule { IfOk result (DoesSilently Stands DoesOnward engine.old engine.new (λ _. begun token head)) }
    ensures err { IfErr result (λ b. CutsFree engine.old engine.new (λ _. begun token head) b) }
    ensures step { IfOk result (λ ruled. ruled ≡ Step) }
    ensures column { engine.new.in_line ≡ engine.old.in_line }
    ensures frames { OnOk result (Obeys engine.old engine.new) }
    ensures light { OnOk result (pending_weight engine.new.input.pending ≡ pending_weight engine.old.input.pending) }
    ensures call { OnOk result (engine.new.input.call ≡ engine.old.input.call) }
    ensures idle { OnOk result (engine.new.input.making ≡ None) }
{
    engine.begin(Opening::Reads(Phrase::Command(call_of(token, head))))?;
    Ok(Ruled::Step)
}

/// What a primitive in the stomach comes to that isn't expanded.
fn obey_primitive<S: Sink>(
    engine: &mut Engine,
    out: &mut S,
    token: Token,
    number: u16,
) -> Result<Ruled, Broken>
    requires idle { engine.old.input.making ≡ None }
    requires uncalled { engine.old.input.call ≡ NotCalling }
    ensures rule { IfOk result (λ ruled. GoesOnward engine.old engine.new (S.told out.old) (S.told out.new) (λ page. primitive page token number) ruled) }
    ensures err { IfErr result (λ b. CutsOnward engine.old engine.new (S.told out.old) (S.told out.new) (λ page. primitive page token number) b) }
    ensures halts { IfOk result (λ ruled. IsHalted ruled → SameFrames engine.old engine.new) }
    ensures on { IfOk result (λ ruled. IsFree ruled → ⊥) }
    ensures frames { OnOk result (Obeys engine.old engine.new) }
    ensures light { OnOk result (pending_weight engine.new.input.pending ≡ pending_weight engine.old.input.pending) }
    ensures call { OnOk result (engine.new.input.call ≡ engine.old.input.call) }
    ensures idle { OnOk result (engine.new.input.making ≡ None) }
{
    let head = Head::Primitive(number);
    if find_row(head).is_some() {
        return begin_row(engine, token, head);
    }
    match number {
        END => engine.halt(out, Last::End),
        RELAX => Ok(Ruled::Step),
        BEGINGROUP => open_group(engine, GroupKind::SemiSimple),
        ENDGROUP => meet_endgroup(engine, out, token),
        ENDCSNAME => engine.report_only(out, Report::ExtraEndcsname),
        _ => {
            engine.token_line(out, Meaning::Prim(number))?;
            Ok(Ruled::Step)
        }
    }
}

/// The name of a register, which is an assignment where registers of its kind have a row. *TeX: The Program*, part 49 (`assign_int`).
fn obey_register<S: Sink>(
    engine: &mut Engine,
    out: &mut S,
    token: Token,
    kind: RegisterKind,
    no: u8,
) -> Result<Ruled, Broken>
    requires idle { engine.old.input.making ≡ None }
    requires uncalled { engine.old.input.call ≡ NotCalling }
    ensures rule { IfOk result (λ ruled. GoesOnward engine.old engine.new (S.told out.old) (S.told out.new) (λ page. register page token kind no) ruled) }
    ensures err { IfErr result (λ b. CutsOnward engine.old engine.new (S.told out.old) (S.told out.new) (λ page. register page token kind no) b) }
    ensures step { IfOk result (λ ruled. ruled ≡ Step) }
    ensures frames { OnOk result (Obeys engine.old engine.new) }
    ensures light { OnOk result (pending_weight engine.new.input.pending ≡ pending_weight engine.old.input.pending) }
    ensures call { OnOk result (engine.new.input.call ≡ engine.old.input.call) }
    ensures idle { OnOk result (engine.new.input.making ≡ None) }
{
    let head = Head::Register(kind, no);
    if find_row(head).is_some() {
        return begin_row(engine, token, head);
    }
    engine.token_line(out, Meaning::Register { kind, no })?;
    Ok(Ruled::Step)
}

/// A character in the stomach, explicit or implicit: braces open and close groups.
fn obey_character<S: Sink>(
    engine: &mut Engine,
    out: &mut S,
    cat: u8,
    code: u8,
) -> Result<Ruled, Broken>
    requires idle { engine.old.input.making ≡ None }
    requires uncalled { engine.old.input.call ≡ NotCalling }
    ensures rule { IfOk result (λ ruled. GoesOnward engine.old engine.new (S.told out.old) (S.told out.new) (λ page. character page cat code) ruled) }
    ensures err { IfErr result (λ b. CutsOnward engine.old engine.new (S.told out.old) (S.told out.new) (λ page. character page cat code) b) }
    ensures on { IfOk result (λ ruled. IsFree ruled → ⊥) }
    ensures frames { SameFrames engine.old engine.new }
    ensures light { OnOk result (pending_weight engine.new.input.pending ≡ pending_weight engine.old.input.pending) }
    ensures idle { OnOk result (engine.new.input.making ≡ None) }
{
    match cat {
        BEGIN_GROUP => open_group(engine, GroupKind::Simple),
        END_GROUP => meet_brace(engine, out),
        _ => {
            engine.token_line(out, Meaning::Char { cat, code })?;
            Ok(Ruled::Step)
        }
    }
}

/// Obeys a token that isn't expanded. *TeX: The Program*, part 46 (`main_control`).
///
/// # Errors
/// There is no room for what comes, or a write failed: the engine stands for the moment before.
pub(crate) fn obey<S: Sink>(engine: &mut Engine, out: &mut S, x: Seen) -> Result<Ruled, Broken>
    requires idle { engine.old.input.making ≡ None }
    requires uncalled { engine.old.input.call ≡ NotCalling }
    ensures rule { IfOk result (λ ruled. GoesOnward engine.old engine.new (S.told out.old) (S.told out.new) (λ page. command page x.token x.meaning) ruled) }
    ensures err { IfErr result (λ b. CutsOnward engine.old engine.new (S.told out.old) (S.told out.new) (λ page. command page x.token x.meaning) b) }
    ensures halts { IfOk result (λ ruled. IsHalted ruled → SameFrames engine.old engine.new) }
    ensures on { IfOk result (λ ruled. IsFree ruled → ⊥) }
    ensures frames { OnOk result (Obeys engine.old engine.new) }
    ensures light { OnOk result (pending_weight engine.new.input.pending ≡ pending_weight engine.old.input.pending) }
    ensures call { OnOk result (engine.new.input.call ≡ engine.old.input.call) }
    ensures idle { OnOk result (engine.new.input.making ≡ None) }
{
    match x.meaning {
        Meaning::Prim(number) => obey_primitive(engine, out, x.token, number),
        Meaning::Register { kind, no } => obey_register(engine, out, x.token, kind, no),
        Meaning::RelaxMarked => Ok(Ruled::Step),
        Meaning::Char { cat, code } => obey_character(engine, out, cat, code),
        meaning => {
            engine.token_line(out, meaning)?;
            Ok(Ruled::Step)
        }
    }
}

/// Whether a reading that wants a token so drops this one.
#[inline(always)]
fn is_dropped(want: Want, x: Seen) -> bool
    ensures { result ≡ plain_dropped want x }
{
    match (want, x.meaning) {
        (Want::Nonblank | Want::Command, Meaning::Char { cat: 10, code: _ }) => true,
        (Want::Command, Meaning::RelaxMarked | Meaning::Prim(RELAX)) => true,
        _ => false,
    }
}

/// A token that isn't expanded is fed to the innermost reading, or obeyed where none is open.
///
/// # Errors
/// There is no room for what comes, or a write failed: the engine stands for the moment before.
#[inline(always)]
pub(crate) fn hand_on<S: Sink>(
    engine: &mut Engine,
    out: &mut S,
    want: Option<Want>,
    x: Seen,
) -> Result<Ruled, Broken>
    requires idle { engine.old.input.making ≡ None }
    requires uncalled { want ≡ None → engine.old.input.call ≡ NotCalling }
    ensures rule { IfOk result (HandsToken DoesOnward engine.old engine.new (S.told out.old) (S.told out.new) want x) }
    ensures err { IfErr result (HandsToken (λ sizes s e _. CutsIn sizes s e) engine.old engine.new (S.told out.old) (S.told out.new) want x) }
    ensures halts { IfOk result (λ ruled. IsHalted ruled → SameFrames engine.old engine.new) }
    ensures obeyed { IfOk result (λ ruled. IsHalted ruled → want ≡ None) }
    ensures on { IfOk result (λ ruled. IsFree ruled → ⊥) }
    ensures idle { OnOk result (engine.new.input.making ≡ None) }
{
    match want {
        None => obey(engine, out, x),
        Some(want) if is_dropped(want, x) => Ok(Ruled::Step),
        Some(_) => {
            engine.feed(x)?;
            Ok(Ruled::Step)
        }
    }
}
