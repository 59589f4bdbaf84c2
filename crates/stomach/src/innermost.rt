// The innermost reading, by what it asks for.
ghost use Rattle.std.specs.Prelude.{◌≡◌, IfSome};
ghost use Rattle.engine_state.specs.Steps.{asks_now, wants_token};
ghost use Rattle.stomach.specs.AtHand.{IsWanted};
ghost use Rattle.stomach.specs.Innermost.{IsInnermost, innermost_wants, innermost_opens};
ghost use Rattle.input_state.specs.Callings.{NotCalling};

use engine_state::Engine;
use input_state::Call;
use macro_call::CallAsk;
use reading_frames::Ask;
use rows::Effect;
use tex_syntax::Want;

/// The innermost reading: a call that gathers its arguments, or a frame by what it asks for, or none. It is looked at where a rule begins.
#[derive(Clone, Copy)]
pub enum Innermost {
    Call(Call),
    Frame(Option<Ask>),
}

impl Innermost {
    /// None is open.
    pub fn none() -> Innermost {
        Innermost::Frame(None)
    }

    /// Becomes that of an engine.
    #[inline(always)]
    pub fn look(&mut self, engine: &Engine)
        ensures is { IsInnermost engine.now self.new }
        ensures wants { innermost_wants self.new ≡ wants_token (asks_now engine.now) }
    {
        match engine.input.call() {
            Some(call) => *self = Innermost::Call(call),
            None if engine.readings.count() == 0 => *self = Innermost::Frame(None),
            None => match engine.readings.body_want() {
                Some(want) => *self = Innermost::Frame(Some(Ask::More(want))),
                None => self.ask(engine),
            },
        }
    }

    /// Becomes the innermost frame of an engine, by what it asks for.
    // Each case by itself: the frequent ones are a few bytes, and the answer isn't copied whole.
    fn ask(&mut self, engine: &Engine)
        requires uncalled { engine.now.input.call ≡ NotCalling }
        ensures is { IsInnermost engine.now self.new }
        ensures wants { innermost_wants self.new ≡ wants_token (asks_now engine.now) }
    {
        match engine.readings.ask() {
            None => *self = Innermost::Frame(None),
            Some(Ask::More(want)) => *self = Innermost::Frame(Some(Ask::More(want))),
            ask => *self = Innermost::Frame(ask),
        }
    }

    /// Whether it wants a token, as the stomach does where no reading is open.
    #[inline(always)]
    pub fn wants_token(&self) -> bool
        ensures { result ≡ innermost_wants self.now }
    {
        match self {
            Innermost::Call(call) => matches!(call.ask, CallAsk::More),
            Innermost::Frame(None) => true,
            Innermost::Frame(Some(Ask::More(_))) => true,
            Innermost::Frame(Some(_)) => false,
        }
    }

    /// Whether the next rule opens a file: `\\input` has read its name.
    #[inline(always)]
    pub fn opens_file(&self) -> bool
        ensures { result ≡ innermost_opens self.now }
    {
        matches!(
            self,
            Innermost::Frame(Some(Ask::ActsOn(_, Effect::StartInput(_), _)))
        )
    }
}

/// How the innermost reading wants the next token, where it is a call that takes one, a body or, where none is open, the stomach.
#[inline(always)]
pub fn wanted(engine: &Engine) -> Option<Option<Want>>
    ensures { IfSome result (λ want. IsWanted engine.now want) }
{
    match engine.input.call() {
        Some(call) => match call.ask {
            CallAsk::More => Some(Some(Want::Raw)),
            _ => None,
        },
        None if engine.readings.count() == 0 => Some(None),
        None => match engine.readings.body_want() {
            Some(want) => Some(Some(want)),
            None => None,
        },
    }
}
