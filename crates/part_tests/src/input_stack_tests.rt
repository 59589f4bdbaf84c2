//! A token that was put back, and the end of a line: the calls that the program doesn't make.

ghost use Rattle.input_stack.specs.Stacks.{IsStack};

use input_stack::{InputStack, line_in};
use line_lexer::Ahead;
use std::alloc::Global;
use tex_defs::{Sizes, Token};
use token_lists::Lists;

const LETTER: Token = Token::Char { cat: 11, code: 120 };

// How many levels and arguments stand where a token was put back.
fn put_back(stack: &mut InputStack, lists: &mut Lists) -> Option<(u32, u32)>
    requires { IsStack lists.old stack.old }
    ensures { IsStack lists.new stack.new }
{
    if let Err((_, begun)) = stack.back(lists, LETTER) {
        begun.let_go(lists);
        return None;
    }
    Some((stack.levels(), stack.arguments()))
}

// Whether nothing comes until a token is put back on it, which is then a list of one token.
fn is_put_back(alloc: Global) -> bool {
    let Ok(mut lists) = Lists::new(alloc, 20) else {
        return false;
    };
    let Ok(mut stack) = InputStack::new(alloc, &Sizes::DEFAULT) else {
        return false;
    };
    let before = stack.looks(&lists, &[], &[12; 256]);
    let told = put_back(&mut stack, &mut lists);
    let held = lists.used();
    stack.close(&mut lists);
    matches!(before, Ahead::End) && told == Some((1, 0)) && held == 2
}

#[test]
fn token_is_put_back(rt: HostRuntime) {
    assert!(rt; is_put_back(rt.alloc()));
}

#[test]
fn line_has_its_end_character(rt: HostRuntime) {
    let mut bytes = [97, 98, 0];
    let line = line_in(&mut bytes, 0, 2, Some(13));
    assert!(rt; line.at == 0 && line.end == 3 && bytes == [97, 98, 13]);
}
