// What is expanded.
ghost use Rattle.std.specs.Prelude.{◌≡◌};
ghost use Rattle.plain_tokens.specs.Meanings.{is_expandable};

use prim_table::is_expanded;
use tex_defs::Meaning;

/// Whether what means this is expanded.
#[inline(always)]
pub fn is_expandable(meaning: Meaning<()>) -> bool
    ensures { result ≡ is_expandable meaning }
{
    match meaning {
        Meaning::Undefined | Meaning::Macro { .. } => true,
        Meaning::Prim(number) => is_expanded(number),
        _ => false,
    }
}
