// The parameter places of a list, token by token.
ghost use Rattle.std.specs.Prelude.{◌≡◌, ◌≤◌};
ghost use Rattle.plain_tokens.specs.Printed.{places_after, last_after};

use tex_defs::Token;

/// How many parameter places there are behind a token of a list, which has at most nine.
pub fn places_after(places: u8, token: Token) -> u8
    requires { places ≤ 9 }
    ensures after { result ≡ places_after places token }
    ensures few { result ≤ 9 }
{
    match token {
        Token::Place(_) => (places + 1).min(9),
        _ => places,
    }
}

/// The character of the last parameter place behind a token of a list.
pub fn last_after(last: u8, token: Token) -> u8
    ensures { result ≡ last_after last token }
{
    match token {
        Token::Place(c) => c,
        _ => last,
    }
}
