// What a reader of a call meets.
use tex_defs::Token;

/// What comes next of a call.
#[derive(Clone, Copy)]
pub enum Met {
    /// A token of the body.
    Text(Token),
    /// The first token of an argument, whose level it opens.
    First(Token),
    /// A further token of an argument.
    Later(Token),
    /// An argument without tokens.
    Gap,
}
