// What tokens mean.
ghost use Rattle.std.specs.Prelude.{◌≡◌};
ghost use Rattle.plain_tokens.specs.Names as names;
ghost use Rattle.plain_tokens.specs.Tokens as tokens;

use tex_defs::{Meaning, Name, Seen, Token};

/// The name that a token is.
pub fn name_of(token: Token) -> Name
    ensures { result ≡ names.name_of token }
{
    match token {
        Token::Named(name) => name,
        Token::Marked(name) => name,
        _ => Name::Empty,
    }
}

/// Whether it is the name of an `\outer` macro.
#[inline(always)]
pub fn is_outer(x: Seen) -> bool
    ensures { result ≡ tokens.is_outer x.meaning }
{
    matches!(x.meaning, Meaning::Macro { outer: true, .. })
}
