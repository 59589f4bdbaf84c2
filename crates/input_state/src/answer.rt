// What a reading gives, and how calls are told apart.
ghost use Rattle.std.specs.Prelude.{◌≡◌};
ghost use Rattle.input_state.specs.Callings.{ended_asks};

use line_lexer::Lexed;
use macro_call::CallAsk;
use tex_defs::{Name, Token};

/// What a reading from what is pending gives.
#[derive(Clone, Copy, PartialEq, Eq)]
pub enum Pulled {
    /// A token of a list in front.
    Token(Token),
    /// A character or a name of the line, never an invalid character or the end. A name's letters stand in the line
    /// buffer.
    Lexeme(Lexed),
    /// The next line was taken.
    Taken,
    /// An invalid character stood next, and is skipped.
    Invalid,
    /// The file ended, and is closed.
    FileOver,
    /// Nothing is left.
    Nothing,
}

/// How a name is called.
#[derive(Clone, Copy, PartialEq, Eq)]
pub enum CallKind {
    /// It is no macro, or it means what the frozen `\endwrite` does.
    None,
    /// The macro has no parameter text: its body is put at once.
    AtOnce,
    /// Its parameter text is matched first, and its arguments are gathered.
    Gathers,
}

/// Why a call takes no more tokens, and hasn't its arguments.
#[derive(Clone, Copy)]
pub enum CallEnd {
    /// The tokens in front of the first place don't match.
    Mismatch,
    /// A `\par` ended it; where this is true, without a report.
    ParEnded(bool),
    /// The memory was full as it was fed: it asks for a token as before.
    Full,
}

impl CallEnd {
    /// What the call asks for then.
    pub fn ask(self) -> CallAsk
        ensures { result ≡ ended_asks self }
    {
        match self {
            CallEnd::Mismatch => CallAsk::Mismatch,
            CallEnd::ParEnded(silent) => CallAsk::ParEnded(silent),
            CallEnd::Full => CallAsk::More,
        }
    }
}

/// A call whose arguments are gathered: the macro's name, and what the call asks for.
#[derive(Clone, Copy)]
pub struct Call {
    pub name: Name,
    pub ask: CallAsk,
}
