// The names and characters that a line gives, as tokens.
ghost use Rattle.std.specs.Prelude.{◌≡◌, IfOk, IfErr, OnOk, OnErr};
ghost use Rattle.plain_tokens.specs.Lex.{Lexeme};
ghost use Rattle.plain_tokens.specs.Lookup.{name_among, new_among, token_of, new_name};
ghost use Rattle.input_state.specs.Reads.{IsLexeme};
ghost use Rattle.engine_state.specs.Entering.{joined, EntryFits, EntryRefused};

use line_lexer::Lexed;
use name_table::NameTable;
use tex_defs::{Frozen, Full, Name, Token};

/// The name of these characters, two or more. A new one is entered where the reading enters names.
pub fn name(names: &mut NameTable, bytes: &[u8], enters: bool) -> Result<Name, Full>
    ensures name { IfOk result (λ n. n ≡ name_among enters names.old.names bytes.now) }
    ensures after { OnOk result (names.new ≡ joined names.old (new_among enters names.old.names bytes.now)) }
    ensures fits { OnOk result (EntryFits names.old (new_among enters names.old.names bytes.now)) }
    ensures refused { IfErr result (EntryRefused names.old (new_among enters names.old.names bytes.now)) }
    ensures err { OnErr result (names.new ≡ names.old) }
{
    if let Some(number) = names.find(bytes) {
        return Ok(Name::Word(number));
    }
    if !enters {
        return Ok(Name::Frozen(Frozen::Unknown));
    }
    let number = names.enter(bytes)?;
    Ok(Name::Word(number))
}

/// The token that a line gives; a name stands in these bytes.
pub fn resolve(
    names: &mut NameTable,
    bytes: &[u8],
    lexed: Lexed,
    enters: bool,
) -> Result<Token, Full>
    ensures token { IfOk result (λ t. (x : Lexeme) → IsLexeme bytes.now lexed x → t ≡ token_of enters names.old.names x) }
    ensures after { OnOk result ((x : Lexeme) → IsLexeme bytes.now lexed x → names.new ≡ joined names.old (new_name enters names.old.names x)) }
    ensures fits { OnOk result ((x : Lexeme) → IsLexeme bytes.now lexed x → EntryFits names.old (new_name enters names.old.names x)) }
    ensures refused { IfErr result (λ full. (x : Lexeme) → IsLexeme bytes.now lexed x → EntryRefused names.old (new_name enters names.old.names x) full) }
    ensures err { OnErr result (names.new ≡ names.old) }
    ensures sizes { names.new.sizes ≡ names.old.sizes }
    ensures others { names.new.others ≡ names.old.others }
{
    let name = match lexed {
        Lexed::Char { cat, code } => return Ok(Token::Char { cat, code }),
        Lexed::Active(code) => Name::Active(code),
        Lexed::Single(code) => Name::Single(code),
        Lexed::Word { from, to } if from <= to && to <= bytes.len() => {
            name(names, &bytes[from..to], enters)?
        }
        Lexed::Par => name(names, b"par", enters)?,
        _ => Name::Empty,
    };
    Ok(Token::Named(name))
}
