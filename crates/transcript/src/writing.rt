// Texts written, and the column behind them.
ghost use Rattle.std.specs.Prelude.{◌≡◌, ◌<◌, ◌++◌, [], length, OnOk, IfErr};
ghost use Rattle.plain_state.specs.Reports.{in_line_after};
ghost use Rattle.transcript.specs.Taken.{Took, TookFront};

use crate::said::{Said, SaidParts};
use arrayvec::ArrayVec;
use token_show::Shown;
use world_io::{Fault, Sink, write_all};

// Whether the column isn't 0 behind this text: the last byte isn't a line feed, or it wasn't 0 before where there
// is none.
#[tactic(auto, using(crate::proofs::Columns::in_line_last))]
pub(crate) fn ends_in_line(before: bool, text: &[u8]) -> bool
    ensures { result ≡ in_line_after before text.now }
{
    match text {
        [] => before,
        [.., last] => *last != b'\n',
    }
}

/// Writes bytes.
///
/// # Errors
/// A write failed or wanted memory; the sink took a front of the bytes.
pub fn put<S: Sink>(out: &mut S, in_line: &mut bool, text: &[u8]) -> Result<(), Fault>
    ensures ok { OnOk result (Took (S.told out.old) (S.told out.new) in_line.old in_line.new text.now) }
    ensures err { IfErr result (λ fault. TookFront (S.told out.old) (S.told out.new) in_line.old in_line.new text.now fault) }
{
    match write_all(out, text) {
        Ok(()) => {
            *in_line = ends_in_line(*in_line, text);
            Ok(())
        }
        Err(e) => {
            *in_line = ends_in_line(*in_line, &text[..e.written]);
            Err(e.fault)
        }
    }
}

// The first bytes of a text: as many as there are, and as there is room for.
fn first_bytes(said: &mut SaidParts<'_>) -> ArrayVec<u8, 256>
    ensures parts { said.old ≡ result.items ++ said.new }
    ensures some { result.items ≡ [] → said.new ≡ [] }
{
    let mut bytes = ArrayVec::new();
    for _place in 0..256usize {
        let Some(byte) = said.next() else {
            return bytes;
        };
        bytes.push(byte);
    }
    bytes
}

// Writes a text, in pieces of 256 bytes. At a fault the sink took a front of all.
pub(crate) fn put_said<S: Sink>(
    out: &mut S,
    in_line: &mut bool,
    said: SaidParts<'_>,
) -> Result<(), Fault>
    ensures ok { OnOk result (Took (S.told out.old) (S.told out.new) in_line.old in_line.new said.entry) }
    ensures err { IfErr result (λ fault. TookFront (S.told out.old) (S.told out.new) in_line.old in_line.new said.entry fault) }
{
    let mut left = said;
    loop {
        let bytes = first_bytes(&mut left);
        if bytes.is_empty() {
            return Ok(());
        }
        put(out, in_line, bytes.as_slice())?;
    }
}

// Writes a text that is shown, between bytes.
pub(crate) fn put_around<S: Sink>(
    out: &mut S,
    in_line: &mut bool,
    before: &[u8],
    shown: Shown<'_>,
    behind: &[u8],
) -> Result<(), Fault>
    ensures ok { OnOk result (Took (S.told out.old) (S.told out.new) in_line.old in_line.new (before.now ++ (shown.entry ++ behind.now))) }
    ensures err { IfErr result (λ fault. TookFront (S.told out.old) (S.told out.new) in_line.old in_line.new (before.now ++ (shown.entry ++ behind.now)) fault) }
{
    let said = Said::new(before, shown, behind);
    put_said(out, in_line, SaidParts::one(said))
}
