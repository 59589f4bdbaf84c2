// What a token is to the matching of arguments.
ghost use Rattle.std.specs.Prelude.{◌≡◌};
ghost use Rattle.plain_tokens.specs.Arguments.{same, is_begin, is_end, is_par};
ghost use Rattle.plain_tokens.specs.Tokens.{is_space_token};

use tex_defs::{Name, Token};

// The name `\par`, as the table of primitives has it.
const PAR: Name = Name::Word(5);

// Whether two tokens are the same character with the same category, or the same name.
#[inline(always)]
pub fn same(a: Token, b: Token) -> bool
    ensures { result ≡ same a b }
{
    a == b
}

// An explicit left brace.
pub fn is_begin(x: Token) -> bool
    ensures { result ≡ is_begin x }
{
    match x {
        Token::Char { cat, code: _ } => cat == 1,
        _ => false,
    }
}

// An explicit right brace.
pub fn is_end(x: Token) -> bool
    ensures { result ≡ is_end x }
{
    match x {
        Token::Char { cat, code: _ } => cat == 2,
        _ => false,
    }
}

// A space token.
#[inline(always)]
pub fn is_space(x: Token) -> bool
    ensures { result ≡ is_space_token x }
{
    match x {
        Token::Char { cat, code } => cat == 10 && code == 32,
        _ => false,
    }
}

#[inline(always)]
pub fn is_par(x: Token) -> bool
    ensures { result ≡ is_par x }
{
    same(x, Token::Named(PAR))
}
