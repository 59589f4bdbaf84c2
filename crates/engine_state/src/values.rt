// The texts of values.
ghost use Rattle.std.specs.Prelude.{◌≡◌, ◌≤◌, ◌+◌, ◌++◌, codes, length};
ghost use Rattle.engine_state.specs.Making.{text_at};
ghost use Rattle.rows.specs.Internal.{finite_unit, unit_of, glue_part, glue_text, number_text, value_text};

use char_text::{Text, scaled_length, whole_number_length};
use equivalents::{Glue, Loc, Val};
use input_state::Input;
use rows::{is_dimension, is_fetchable, is_mu};

/// The unit of what isn't infinite.
fn finite_unit(mu: bool) -> &'static [u8]
    ensures text { result.now ≡ finite_unit mu }
    ensures short { length result.now ≤ 2 }
{
    if mu { b"mu" } else { b"pt" }
}

/// The unit of stretch and shrink, by the order of infinity.
fn unit_of(mu: bool, order: u8) -> &'static [u8]
    ensures text { result.now ≡ unit_of mu order }
    ensures short { length result.now ≤ 5 }
{
    match order {
        0 => finite_unit(mu),
        1 => b"fil",
        2 => b"fill",
        _ => b"filll",
    }
}

/// Puts stretch or shrink behind its word, where it isn't 0.
fn put_part(text: &mut Text, word: &[u8], mu: bool, n: i32, order: u8)
    requires word { length word.now ≤ 7 }
    requires room { length text.old ≤ 50 }
    ensures text { text.new ≡ text.old ++ glue_part word.now mu n order }
    ensures length { length text.new ≤ length text.old + 24 }
{
    if n == 0 {
        return;
    }
    scaled_length(n);
    text.put_bytes(word);
    text.put_scaled(n);
    text.put_bytes(unit_of(mu, order));
}

/// The text of glue. *TeX: The Program*, part 12 (`print_spec`).
fn glue_text(mu: bool, glue: Glue) -> Text
    ensures { result ≡ glue_text mu glue }
{
    let mut text = Text::new();
    scaled_length(glue.width);
    text.put_scaled(glue.width);
    text.put_bytes(finite_unit(mu));
    put_part(&mut text, b" plus ", mu, glue.stretch, glue.stretch_order);
    put_part(&mut text, b" minus ", mu, glue.shrink, glue.shrink_order);
    text
}

/// The text of an integer or of a dimension.
pub(crate) fn number_text(dimension: bool, n: i32) -> Text
    ensures { result ≡ number_text dimension n }
{
    let mut text = Text::new();
    if dimension {
        scaled_length(n);
        text.put_scaled(n);
        text.put_bytes(b"pt");
    } else {
        whole_number_length(n);
        text.put_int(n);
    }
    text
}

/// The text of what stands at a location. *TeX: The Program*, part 27 (`the_toks`).
pub(crate) fn value_text(loc: Loc, value: Val<()>) -> Text
    ensures { result ≡ value_text loc value }
{
    match value {
        Val::Number(n) => number_text(is_dimension(loc), n),
        Val::Skip(glue) => glue_text(is_mu(loc), glue),
        _ => Text::new(),
    }
}

/// The text of what stands at a location; of one that isn't there none.
#[tactic(auto, using(crate::proofs::ValueTexts::fetchable))]
pub(crate) fn text_at(input: &Input, loc: Loc) -> Text
    ensures { result ≡ text_at input.now.groups.now loc }
{
    if !is_fetchable(loc) {
        return Text::new();
    }
    value_text(loc, input.value(loc))
}
