//! The lexer of lines: the characters and names of the rest of a line, one by one, by the category codes
//! that hold when each is asked for, with the `^^` notation.
//!
//! *The TeXbook*, chapters 7 and 8; *TeX: The Program*, part 24.
#![tactic(auto)]

mod heads;
mod lex;
mod names;

ghost use Rattle.std.specs.Prelude.{◌≡◌, ◌+◌, ◌^◌, ◌<◌, ◌≤◌, length, take, drop};
ghost use Rattle.plain_tokens.specs.Lex.{lexed};
ghost use Rattle.line_lexer.specs.Answers.{rest_of, given, GoesOn, looks_of, last_place, moved_by};

use heads::begin;
use lex::lex;
use plain_tokens::LineState;

/// A line that is being read: its rest stands in a buffer from the byte `at` to the byte before `end`, its
/// end character among them if it has one.
#[derive(Clone, Copy, PartialEq, Eq)]
pub struct Line {
    pub at: usize,
    pub end: usize,
    pub state: LineState,
}

/// What the rest of a line gives.
#[derive(Clone, Copy, PartialEq, Eq)]
pub enum Lexed {
    /// A character with its category code.
    Char { cat: u8, code: u8 },
    /// An active character.
    Active(u8),
    /// A name of one character.
    Single(u8),
    /// A name of two characters or more: the bytes of the buffer from `from` to the one before `to`.
    Word { from: usize, to: usize },
    /// The name without characters.
    Empty,
    /// The name `par`, at an empty line.
    Par,
    /// A character that is invalid. It has gone.
    Invalid,
    /// The line is used up.
    End,
}

impl Lexed {
    // The answer on a line that begins at `start` of a buffer, from the answer on the line alone.
    fn moved(self, start: usize) -> Lexed
        requires { start + last_place self < 2 ^ 64 }
        ensures { result ≡ moved_by start self }
    {
        match self {
            Lexed::Word { from, to } => Lexed::Word {
                from: start + from,
                to: start + to,
            },
            other => other,
        }
    }
}

/// What a line will give next.
#[derive(Clone, Copy, PartialEq, Eq)]
pub enum Ahead {
    /// A character or a name.
    Token,
    /// An invalid character.
    Invalid,
    /// Nothing more.
    End,
}

/// What the rest of the line gives next by these category codes, and where the line's reading stands then.
///
/// The rest of the line stands in `bytes` from `line.at` to the byte before `line.end`, and only these bytes
/// may change: the letters of a name with `^^` in it are written one behind the other, so that `Word` is a
/// range of them, and a character behind a name is written in place of the `^^` that stands for it.
///
/// *The TeXbook*, chapter 8; *TeX: The Program*, part 24 (`get_next`).
pub fn next(bytes: &mut [u8], line: &mut Line, categories: &[u8; 256]) -> Lexed
    requires in_order { line.old.at ≤ line.old.end }
    requires within { line.old.end ≤ length bytes.old }
    ensures gives { given bytes.new line.new.state (rest_of bytes.new line.new) result ≡ lexed categories.now line.old.state (rest_of bytes.old line.old) }
    ensures goes_on { GoesOn line.old line.new result }
    ensures before { take line.old.at bytes.new ≡ take line.old.at bytes.old }
    ensures behind { drop line.old.end bytes.new ≡ drop line.old.end bytes.old }
{
    let start = line.at;
    let answer = lex(&mut bytes[start..line.end], line.state, categories);
    line.at = start + answer.next;
    line.state = answer.state;
    answer.lexed.moved(start)
}

/// What the rest of the line would give next. Nothing changes.
pub fn looks(bytes: &[u8], line: &Line, categories: &[u8; 256]) -> Ahead
    requires in_order { line.now.at ≤ line.now.end }
    requires within { line.now.end ≤ length bytes.now }
    ensures { result ≡ looks_of (lexed categories.now line.now.state (rest_of bytes.now line.now)) }
{
    match begin(&bytes[line.at..line.end], line.state, categories) {
        None => Ahead::End,
        Some(head) if categories[head.code as usize] == 15 => Ahead::Invalid,
        Some(_) => Ahead::Token,
    }
}
