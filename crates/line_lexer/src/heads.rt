// The heads of a line: characters, and what `^^` stands for.
ghost use Rattle.std.specs.Prelude.{◌≡◌, ◌+◌, ◌≤◌, ◌<◌, ◌∷◌, [], MatchOption, true, drop, length, slice_index};
ghost use Rattle.plain_tokens.specs.Lex as plain;
ghost use Rattle.plain_tokens.specs.Lex.{headed, lexed, behind_hats};
ghost use Rattle.line_lexer.specs.Begins.{IsHead, Begins};

use plain_tokens::LineState;

/// The head of a rest of a line: its code, and where what is behind it begins.
#[derive(Clone, Copy)]
pub struct Head {
    pub code: u8,
    pub next: usize,
}

/// Whether this is a digit of the form with two hexadecimal digits, which has small letters.
fn is_hexadecimal(c: u8) -> bool
    ensures { result ≡ plain.is_hexadecimal c }
{
    (48 <= c && c <= 57) || (97 <= c && c <= 102)
}

/// The value of a hexadecimal digit.
fn hexadecimal_value(c: u8) -> u8
    requires { plain.is_hexadecimal c ≡ true }
    ensures value { result ≡ plain.hexadecimal_value c }
    ensures small { result < 16 }
{
    if 97 <= c { c - 87 } else { c - 48 }
}

/// The code 64 away.
fn shifted(c: u8) -> u8
    requires { c < 128 }
    ensures { result ≡ plain.shifted c }
{
    if c < 64 { c + 64 } else { c - 64 }
}

/// The character that `^^` and the code at `at` stand for.
#[tactic(auto, using(crate::proofs::LineRests::drop_at, crate::proofs::LineRests::drop_end))]
fn replaced(line: &[u8], at: usize) -> Head
    requires here { at < length line.now }
    requires low { slice_index line.now at < 128 }
    ensures value { behind_hats (slice_index line.now at) (drop (at + 1) line.now) ≡ result.code ∷ drop result.next line.now }
    ensures further { at < result.next }
    ensures within { result.next ≤ length line.now }
{
    let c = line[at];
    if at + 1 < line.len() && is_hexadecimal(c) && is_hexadecimal(line[at + 1]) {
        let d = line[at + 1];
        return Head {
            code: 16 * hexadecimal_value(c) + hexadecimal_value(d),
            next: at + 2,
        };
    }
    Head {
        code: shifted(c),
        next: at + 1,
    }
}

/// Whether `^^` begins with this head.
#[tactic(auto, using(crate::proofs::LineRests::drop_at, crate::proofs::LineRests::drop_end))]
fn has_hats(line: &[u8], head: &Head, categories: &[u8; 256]) -> bool
    requires { head.now.next ≤ length line.now }
    ensures says { result ≡ plain.has_hats categories.now (head.now.code ∷ drop head.now.next line.now) }
    ensures code { result ≡ true → (head.now.next + 1 < length line.now) × (slice_index line.now (head.now.next + 1) < 128) }
{
    categories[head.code as usize] == 7
        && head.next + 1 < line.len()
        && line[head.next] == head.code
        && line[head.next + 1] < 128
}

/// The head of the line from `at` on, if there is one.
#[tactic(auto, using(crate::proofs::LineRests::drop_at, crate::proofs::LineHats::hats_on, crate::proofs::LineHats::no_hats, crate::proofs::LineHats::headed_end))]
pub fn head_at(line: &[u8], at: usize, categories: &[u8; 256]) -> Option<Head>
    requires { at ≤ length line.now }
    ensures { MatchOption result (headed categories.now (drop at line.now) ≡ []) (λ h. IsHead categories.now line.now at h) }
{
    if at == line.len() {
        return None;
    }
    let mut head = Head {
        code: line[at],
        next: at + 1,
    };
    while has_hats(line, &head, categories) {
        head = replaced(line, head.next + 1);
    }
    Some(head)
}

/// The head with which begins what the line gives, if it gives something.
#[tactic(auto, using(crate::proofs::LineBegins::head_gives, crate::proofs::LineBegins::ignored_goes, crate::proofs::LineBegins::space_goes, crate::proofs::LineBegins::comment_ends, crate::proofs::LineBegins::line_ends, crate::proofs::LineBegins::nothing_left))]
pub fn begin(line: &[u8], state: LineState, categories: &[u8; 256]) -> Option<Head>
    ensures { MatchOption result (lexed categories.now state line.now ≡ plain.UsedUp) (λ h. Begins categories.now line.now state h) }
{
    let mut at = 0;
    while let Some(head) = head_at(line, at, categories) {
        match categories[head.code as usize] {
            9 => at = head.next,
            10 => {
                if state == LineState::Middle {
                    return Some(head);
                }
                at = head.next;
            }
            5 => {
                return if state == LineState::SkipBlanks {
                    None
                } else {
                    Some(head)
                };
            }
            14 => return None,
            _ => return Some(head),
        }
    }
    None
}
