// The body of a macro or of a balanced text.
use tex_defs::Token;

/// What a body is, that of a macro or that of a balanced text.
#[derive(Clone, Copy)]
pub struct Body {
    /// How many places a macro has; none in a balanced text, which has no parameters.
    pub places: Option<u8>,
    /// The brace that ended the parameter text behind a parameter character.
    pub brace: Option<Token>,
}
