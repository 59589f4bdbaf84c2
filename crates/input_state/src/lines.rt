// The lines of a file.
ghost use Rattle.std.specs.Prelude.{◌≡◌, ◌≤◌, ◌<◌, ◌+◌, ◌++◌, ◌∷◌, [], nat_lt, take, drop, length};
ghost use Rattle.plain_tokens.specs.Lines as plain;
ghost use Rattle.plain_tokens.specs.Lines.{before_feed, behind_feed, has_feed, without_last, trimmed};
ghost use Rattle.plain_tokens.specs.Pending.{line_ended};

/// A file's first line: how many bytes it has before its trailing spaces are cut, how many of the file's first bytes
/// it keeps, and how many it takes up.
#[derive(Clone, Copy)]
pub struct Cut {
    pub whole: usize,
    pub kept: usize,
    pub used: usize,
}

/// How many bytes stand before the first line feed; all of them where there is none.
pub fn find_feed(bytes: &[u8]) -> usize
    ensures within { result ≤ length bytes.now }
    ensures before { take result bytes.now ≡ before_feed bytes.now }
    ensures behind { drop (result + 1) bytes.now ≡ behind_feed bytes.now }
    ensures found { has_feed bytes.now ≡ nat_lt result (length bytes.now) }
{
    let mut k = 0;
    while k < bytes.len() && bytes[k] != 10 {
        k += 1;
    }
    k
}

/// How many bytes stand before a last carriage return; all of them where there is none.
pub fn without_return_len(line: &[u8]) -> usize
    ensures within { result ≤ length line.now }
    ensures kept { take result line.now ≡ without_last 13 line.now }
{
    let n = line.len();
    if n > 0 && line[n - 1] == 13 { n - 1 } else { n }
}

/// How many bytes a line has without its trailing spaces, characters 32.
pub fn trimmed_len(line: &[u8]) -> usize
    ensures within { result ≤ length line.now }
    ensures kept { take result line.now ≡ trimmed line.now }
{
    let mut n = line.len();
    while n > 0 && line[n - 1] == 32 {
        n -= 1;
    }
    n
}

/// Cuts the first line off.
pub fn first_line(bytes: &[u8]) -> Cut
    ensures whole { result.whole ≡ length (plain.first_bytes bytes.now) }
    ensures whole_within { result.whole ≤ length bytes.now }
    ensures kept_within { result.kept ≤ result.whole }
    ensures used_within { result.used ≤ length bytes.now }
    ensures kept { take result.kept bytes.now ≡ plain.first_line bytes.now }
    ensures used { drop result.used bytes.now ≡ behind_feed bytes.now }
{
    let feed = find_feed(bytes);
    if feed == bytes.len() {
        return Cut {
            whole: feed,
            kept: trimmed_len(bytes),
            used: feed,
        };
    }
    let whole = without_return_len(&bytes[..feed]);
    Cut {
        whole,
        kept: trimmed_len(&bytes[..whole]),
        used: feed + 1,
    }
}

/// Copies bytes into the buffer, from this place on.
pub fn put_bytes(buffer: &mut [u8], from: usize, bytes: &[u8])
    requires { from + length bytes.now ≤ length buffer.old }
    ensures { take (from + length bytes.now) buffer.new ≡ take from buffer.old ++ bytes.now }
{
    buffer[from..from + bytes.len()].copy_from_slice(bytes);
}

/// Copies a line into the buffer, from this place on, and its end character behind it, where this is the code of a character.
/// Answers the line's length then.
pub fn put_line(buffer: &mut [u8], from: usize, line: &[u8], end: i32) -> usize
    requires { from + length line.now < length buffer.old }
    ensures line { take (from + result) buffer.new ≡ take from buffer.old ++ line_ended end line.now }
    ensures length { result ≡ length (line_ended end line.now) }
{
    let count = line.len();
    put_bytes(buffer, from, line);
    if (0..256).contains(&end) {
        buffer[from + count] = end as u8;
        return count + 1;
    }
    count
}
