ghost use Rattle.token_lists.specs.Accounts.{Moves, Keeps, none};
ghost use Rattle.input_stack.specs.Backs.{IsBegun, begun_holds};

use crate::call::Call;
use crate::reader::Reader;
use line_lexer::{Lexed, Line};
use tex_defs::Token;
use token_lists::{Build, ListRef, Lists};
use world_io::InId;

/// An open file, or a line of `\read`, which has no file, with the line that is being read.
#[derive(Clone, Copy)]
pub struct Source {
    pub id: Option<InId>,
    pub line: Line,
}

/// A level of input: a list of its own, or as a call one that other parts may hold too, a macro's or a location's. An argument
/// that is being read has a level of its own, which stands on that of its call.
pub enum Level {
    List(Reader),
    Call(Call),
    Source(Source),
}

/// What a refused push had made of its list.
#[must_use]
pub enum Begun {
    Nothing,
    Build(Build),
    List(ListRef),
}

impl Begun {
    /// Lets what was made of the list go.
    pub fn let_go(self, lists: &mut Lists)
        requires { IsBegun lists.old self }
        ensures account { Moves lists.old lists.new (begun_holds self) none }
        ensures kept { Keeps lists.old lists.new (begun_holds self) }
    {
        match self {
            Begun::Nothing => {}
            Begun::Build(build) => lists.abandon(build),
            Begun::List(list) => lists.release(list),
        }
    }
}

/// What is pulled.
#[derive(Clone, Copy, PartialEq, Eq)]
pub enum Pulled {
    /// A token of a list.
    Token(Token),
    /// What the innermost line gives.
    Lexed(Lexed),
    /// The innermost file's line is used up.
    LineEnd,
    /// The line of `\read` is used up.
    ReadEnd,
    /// Nothing is pending.
    Bottom,
}
