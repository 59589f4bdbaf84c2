// The program's own stop lines.
ghost use Rattle.std.specs.Prelude.{◌≡◌, ◌≤◌, ◌++◌, length};
ghost use Rattle.plain_state.specs.Reports.{fresh_line};
ghost use Rattle.plain_machine.specs.Meaning.{Line};
ghost use Rattle.world_io.specs.Contents.{FilesTold, world};
ghost use Rattle.tex_program.specs.Tells.{line_of};
ghost use Rattle.tex_program.specs.declared.tell.Telling.TheVariants.{Steps, Full as FullTold};

use char_text::Text;
use tex_defs::Full;
use transcript::put;
use world_io::Sink;

/// What a stop line tells.
#[derive(Clone, Copy, PartialEq, Eq)]
pub enum Telling {
    Usage,
    /// The table that has no room.
    Full(Full),
    /// The step bound.
    Steps(u64),
    ReadFault,
    WriteFault,
    NoMemory,
}

/// A line feed, where the column isn't 0.
fn fresh_text(in_line: bool) -> Text
    ensures text { result ≡ fresh_line in_line }
    ensures short { length result ≤ 1 }
{
    let mut text = Text::new();
    if in_line {
        text.put_char(10);
    }
    text
}

/// Puts the line of the step bound.
fn put_steps(text: &mut Text, n: u64)
    requires { length text.old ≤ 1 }
    ensures { text.new ≡ text.old ++ line_of (Steps n) }
{
    text.put_bytes(b"! Step limit reached [steps=");
    text.put_count(n);
    text.put_bytes(b"].\n");
}

/// Puts the line of a full table.
fn put_full(text: &mut Text, full: Full)
    requires { length text.old ≤ 1 }
    ensures { text.new ≡ text.old ++ line_of (FullTold full) }
{
    text.put_bytes(b"! TeX capacity exceeded, sorry [");
    text.put_bytes(full.table.name());
    text.put_bytes(b"=");
    text.put_count(u64::from(full.size));
    text.put_bytes(b"].\n");
}

/// A stop line, behind a line feed where the column isn't 0.
fn on_fresh_line(in_line: bool, telling: Telling) -> Text
    ensures { result ≡ fresh_line in_line ++ line_of telling }
{
    let mut text = fresh_text(in_line);
    match telling {
        Telling::Usage => {
            text.put_bytes(b"usage: texmac init FILE, run --fmt NAME FILE, drill SEED SIZE\n")
        }
        Telling::Full(full) => put_full(&mut text, full),
        Telling::Steps(n) => put_steps(&mut text, n),
        Telling::ReadFault => text.put_bytes(b"! Read fault.\n"),
        Telling::WriteFault => text.put_bytes(b"! Write fault.\n"),
        Telling::NoMemory => text.put_bytes(b"! Out of memory.\n"),
    }
    text
}

/// Writes a stop line on a fresh line, and answers whether the column isn't 0 then. A fault leaves its first bytes.
pub fn tell<S: Sink>(out: &mut S, in_line: bool, telling: Telling) -> bool
    ensures line { (f : FilesTold) → Line (world f (S.told out.old) in_line) (world f (S.told out.new) result) (line_of telling) }
    ensures later { (S.told out.old).faults ≤ (S.told out.new).faults }
{
    let line = on_fresh_line(in_line, telling);
    let mut column = in_line;
    let _ = put(out, &mut column, line.bytes());
    column
}
