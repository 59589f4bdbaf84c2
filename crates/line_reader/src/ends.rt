// Where a line ends.
ghost use Rattle.std.specs.Prelude.{◌≡◌, ◌≤◌, ◌<◌, ◌+◌, ◌^◌, ◌++◌, nat_lt, take, drop, length};
ghost use Rattle.plain_tokens.specs.Lines.{before_feed, behind_feed, has_feed, without_last, trimmed};

/// How many bytes stand before the first line feed; all of them where there is none.
pub fn find_feed(bytes: &[u8]) -> usize
    ensures within { result ≤ length bytes.now }
    ensures before { take result bytes.now ≡ before_feed bytes.now }
    ensures behind { drop (result + 1) bytes.now ≡ behind_feed bytes.now }
    ensures found { has_feed bytes.now ≡ nat_lt result (length bytes.now) }
{
    let mut k = 0;
    while k < bytes.len() && bytes[k] != 10 {
        k += 1;
    }
    k
}

/// How many bytes stand before a last carriage return; all of them where there is none.
pub fn without_return_len(line: &[u8]) -> usize
    ensures within { result ≤ length line.now }
    ensures kept { take result line.now ≡ without_last 13 line.now }
{
    let n = line.len();
    if n > 0 && line[n - 1] == 13 { n - 1 } else { n }
}

/// How many bytes a line has without its trailing spaces, characters 32.
pub fn trimmed_len(line: &[u8]) -> usize
    ensures within { result ≤ length line.now }
    ensures kept { take result line.now ≡ trimmed line.now }
{
    let mut n = line.len();
    while n > 0 && line[n - 1] == 32 {
        n -= 1;
    }
    n
}

/// What is next of a line, of which a part has been read: how many bytes stand before the line feed and up to it,
/// how many bytes are known to be the line's then, and whether there is a line feed.
#[derive(Clone, Copy)]
pub struct Piece {
    pub count: usize,
    pub gone: usize,
    pub sure: usize,
    pub ends: bool,
}

/// Looks for the end of a line in the bytes behind a part of it.
pub fn measure(part: &[u8], bytes: &[u8]) -> Piece
    ensures within { result.count ≤ length bytes.now }
    ensures known { result.gone ≤ length bytes.now }
    ensures before { take result.count bytes.now ≡ before_feed bytes.now }
    ensures behind { drop result.gone bytes.now ≡ behind_feed bytes.now }
    ensures found { has_feed bytes.now ≡ result.ends }
    ensures few { result.sure ≤ length part.now + length bytes.now }
    ensures sure { result.sure ≡ length (without_last 13 (part.now ++ before_feed bytes.now)) }
{
    let count = find_feed(bytes);
    let sure = sure_len(part, &bytes[..count]);
    if count < bytes.len() {
        Piece {
            count,
            gone: count + 1,
            sure,
            ends: true,
        }
    } else {
        Piece {
            count,
            gone: count,
            sure,
            ends: false,
        }
    }
}

/// How many bytes two pieces have, a last carriage return not counted.
fn sure_len(part: &[u8], more: &[u8]) -> usize
    requires { length part.now + length more.now < 2 ^ 64 }
    ensures few { result ≤ length part.now + length more.now }
    ensures sure { result ≡ length (without_last 13 (part.now ++ more.now)) }
{
    if more.is_empty() {
        without_return_len(part)
    } else {
        part.len() + without_return_len(more)
    }
}

/// How many bytes a line has that ends with a line feed, without a last carriage return and trailing spaces.
pub fn line_len(line: &[u8]) -> usize
    ensures within { result ≤ length (without_last 13 line.now) }
    ensures short { result ≤ length line.now }
    ensures kept { take result line.now ≡ trimmed (without_last 13 line.now) }
{
    let count = without_return_len(line);
    trimmed_len(&line[..count])
}
