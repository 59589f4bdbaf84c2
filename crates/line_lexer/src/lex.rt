// What a whole rest of a line gives.
ghost use Rattle.std.specs.Prelude.{◌≡◌, ◌≤◌, [], drop, length};
ghost use Rattle.plain_tokens.specs.Lex as plain;
ghost use Rattle.plain_tokens.specs.Lex.{lexed};
ghost use Rattle.line_lexer.specs.Answers.{given, Takes};
ghost use Rattle.line_lexer.specs.Begins.{UsesUp};

use crate::Lexed;
use crate::heads::begin;
use crate::names::{Answer, escaped};
use plain_tokens::LineState;

/// What the end of a line gives.
fn end_of_line(state: LineState) -> Lexed
    ensures { given [] state [] result ≡ plain.line_ended state }
{
    match state {
        LineState::NewLine => Lexed::Par,
        LineState::Middle => Lexed::Char { cat: 10, code: 32 },
        LineState::SkipBlanks => Lexed::End,
    }
}

/// What this rest of a line gives, with the places in it.
pub fn lex(line: &mut [u8], state: LineState, categories: &[u8; 256]) -> Answer
    ensures gives { given line.new result.state (drop result.next line.new) result.lexed ≡ lexed categories.now state line.old }
    ensures takes { Takes 0 result.next result.lexed }
    ensures ends { UsesUp (length line.new) state result }
    ensures inside { result.next ≤ length line.new }
{
    let Some(head) = begin(line, state, categories) else {
        return Answer {
            lexed: Lexed::End,
            state,
            next: line.len(),
        };
    };
    let code = head.code;
    let (lexed, behind) = match categories[code as usize] {
        0 => return escaped(line, head.next, state, categories),
        5 => {
            return Answer {
                lexed: end_of_line(state),
                state,
                next: line.len(),
            };
        }
        10 => (Lexed::Char { cat: 10, code: 32 }, LineState::SkipBlanks),
        13 => (Lexed::Active(code), LineState::Middle),
        15 => (Lexed::Invalid, state),
        cat => (Lexed::Char { cat, code }, LineState::Middle),
    };
    Answer {
        lexed,
        state: behind,
        next: head.next,
    }
}
