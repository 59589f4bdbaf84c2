// What printed text depends on.
ghost use Rattle.std.specs.Prelude.{◌≡◌, codes};
ghost use Rattle.plain_tokens.specs.Printed.{character_of, name_at, frozen_word, primitive_word};
ghost use Rattle.token_show.specs.Options.{listed};
ghost use Rattle.token_show.specs.Views.{names_style, IsNamesView};

use cs_hash::CsHash;
use string_pool::StringPool;
use tex_defs::Frozen;
use token_lists::Lists;

/// What texts depend on: the names, and the values of parameters. It holds no lists, so that a list can grow while the text of a
/// token is made.
#[derive(Clone, Copy, Drop)]
pub struct NamesView<'a> {
    /// The names of two or more characters, whose characters are strings of the pool.
    pub hash: &'a CsHash,
    pub pool: &'a StringPool,
    /// The category codes of the characters.
    pub categories: &'a [u8; 256],
    /// The value of `\escapechar`.
    pub escape: i32,
    /// The value of `\newlinechar`, by which printed texts go alone.
    pub newline: i32,
}

/// The lists whose tokens are printed, and what their texts depend on.
#[derive(Clone, Copy, Drop)]
pub struct View<'a> {
    pub lists: &'a Lists,
    pub names: NamesView<'a>,
}

impl<'a> NamesView<'a> {
    /// The escape character, where `\escapechar` is a code.
    pub fn escape(&self) -> Option<u8>
        ensures { listed result ≡ character_of self.now.escape }
    {
        if self.escape >= 0 && self.escape < 256 {
            Some(self.escape as u8)
        } else {
            None
        }
    }

    // The characters of a name by its number; none where no name has it.
    pub(crate) fn name(&self, number: u16) -> &'a [u8]
        requires { IsNamesView self.now }
        ensures { result.now ≡ name_at (names_style self.now).names number }
    {
        if number == 0 || u32::from(number) > self.hash.count() {
            return &[];
        }
        self.pool.bytes(self.hash.name(number))
    }
}

// The word of a frozen name.
pub(crate) fn frozen_word<'a>(frozen: Frozen) -> &'a [u8]
    ensures { result.now ≡ frozen_word frozen }
{
    match frozen {
        Frozen::Relax => b"relax",
        Frozen::Fi => b"fi",
        Frozen::EndGroup => b"endgroup",
        Frozen::EndWrite => b"endwrite",
        Frozen::Inaccessible => b"inaccessible",
        Frozen::Unknown => b"",
    }
}

// The name of a primitive; none where no primitive has the number.
pub(crate) fn primitive_word<'a>(number: u16) -> &'a [u8]
    ensures { result.now ≡ primitive_word number }
{
    if number >= 1 && number <= prim_table::COUNT {
        prim_table::name(number)
    } else {
        b""
    }
}
