// What an escape character begins.
ghost use Rattle.std.specs.Prelude.{◌≡◌, ◌-◌, ◌≤◌, ◌<◌, ◌∷◌, take, drop, length};
ghost use Rattle.plain_tokens.specs.Lex as plain;
ghost use Rattle.line_lexer.specs.Answers.{given, Takes};
ghost use Rattle.line_lexer.specs.Begins.{named};

use crate::Lexed;
use crate::heads::{Head, head_at};
use plain_tokens::LineState;

/// What the rest of a line gives, with the state behind it and the place where what is left begins.
#[derive(Clone, Copy)]
pub struct Answer {
    pub lexed: Lexed,
    pub state: LineState,
    pub next: usize,
}

/// The end of a run of letters, and where what is behind it begins.
#[derive(Clone, Copy)]
struct Run {
    end: usize,
    rest: usize,
}

/// Reads the letters from `at` on, and writes them there one behind the other. What is behind them begins
/// with its head.
fn letters(line: &mut [u8], at: usize, categories: &[u8; 256]) -> Run
    requires { at ≤ length line.old }
    ensures name { take (result.end - at) (drop at line.new) ≡ plain.letters categories.now (drop at line.old) }
    ensures rest { drop result.rest line.new ≡ plain.behind_letters categories.now (drop at line.old) }
    ensures before { take at line.new ≡ take at line.old }
    ensures from { at ≤ result.end }
    ensures in_order { result.end ≤ result.rest }
    ensures within { result.rest ≤ length line.new }
{
    let mut end = at;
    let mut next = at;
    while let Some(head) = head_at(line, next, categories) {
        if categories[head.code as usize] != 11 {
            line[head.next - 1] = head.code;
            return Run {
                end,
                rest: head.next - 1,
            };
        }
        line[end] = head.code;
        end += 1;
        next = head.next;
    }
    Run {
        end,
        rest: line.len(),
    }
}

/// The name of letters that begins with this one.
fn name_of_letters(line: &mut [u8], first: Head, categories: &[u8; 256]) -> Answer
    requires further { 0 < first.next }
    requires within { first.next ≤ length line.old }
    ensures gives { given line.new result.state (drop result.next line.new) result.lexed ≡ named categories.now first.code (drop first.next line.old) }
    ensures takes { Takes 0 result.next result.lexed }
    ensures inside { result.next ≤ length line.new }
{
    let start = first.next - 1;
    line[start] = first.code;
    let run = letters(line, first.next, categories);
    let lexed = if run.end == first.next {
        Lexed::Single(first.code)
    } else {
        Lexed::Word {
            from: start,
            to: run.end,
        }
    };
    Answer {
        lexed,
        state: LineState::SkipBlanks,
        next: run.rest,
    }
}

/// What stands behind an escape character.
pub fn escaped(line: &mut [u8], at: usize, state: LineState, categories: &[u8; 256]) -> Answer
    requires further { 0 < at }
    requires within { at ≤ length line.old }
    ensures gives { given line.new result.state (drop result.next line.new) result.lexed ≡ plain.escaped categories.now state (drop at line.old) }
    ensures takes { Takes 0 result.next result.lexed }
    ensures inside { result.next ≤ length line.new }
{
    let Some(head) = head_at(line, at, categories) else {
        return Answer {
            lexed: Lexed::Empty,
            state,
            next: line.len(),
        };
    };
    let state = match categories[head.code as usize] {
        11 => return name_of_letters(line, head, categories),
        10 => LineState::SkipBlanks,
        _ => LineState::Middle,
    };
    Answer {
        lexed: Lexed::Single(head.code),
        state,
        next: head.next,
    }
}
