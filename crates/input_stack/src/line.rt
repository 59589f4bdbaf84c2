ghost use Rattle.std.specs.Prelude.{◌≡◌, ◌+◌, ◌≤◌, ◌++◌, length, take, drop, option_to_list};
ghost use Rattle.line_lexer.specs.Answers.{rest_of, span};
ghost use Rattle.plain_tokens.specs.declared.line_state.LineState.TheVariants.{NewLine};

use line_lexer::Line;
use plain_tokens::LineState;

/// The line that stands in a buffer from one byte to before another, at its front, as a new line. Its end character,
/// if it gets one, is written behind it: the value of `\endlinechar` when the line is taken.
pub fn line_in(bytes: &mut [u8], from: usize, to: usize, end: Option<u8>) -> Line
    requires in_order { from ≤ to }
    requires within { to + length (option_to_list end) ≤ length bytes.old }
    ensures line { result ≡ record { at = from; end = to + length (option_to_list end); state = NewLine } }
    ensures rest { rest_of bytes.new result ≡ span bytes.old from to ++ option_to_list end }
    ensures before { take to bytes.new ≡ take to bytes.old }
    ensures behind { drop result.end bytes.new ≡ drop result.end bytes.old }
{
    match end {
        None => Line {
            at: from,
            end: to,
            state: LineState::NewLine,
        },
        Some(code) => {
            bytes[to] = code;
            Line {
                at: from,
                end: to + 1,
                state: LineState::NewLine,
            }
        }
    }
}
