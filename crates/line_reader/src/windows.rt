// The windows of the readers that are begun.
ghost use Rattle.std.specs.Prelude.{◌≡◌, ◌≤◌, ◌<◌, [], ◌∷◌, ◌++◌, length, true, false, MatchOption, vec_capacity};
ghost use Rattle.line_reader.specs.Ahead.{IsWindowAt, is_begun, ahead_of, with_ahead, forgotten};

use crate::window::Window;

/// Where the window of a reader stands.
pub fn find(windows: &[Window], reader: u32) -> Option<usize>
    ensures { MatchOption result (is_begun reader windows.now ≡ false) (λ at. IsWindowAt reader windows.now at) }
{
    let mut k = 0;
    while k < windows.len() {
        if windows[k].reader() == reader {
            return Some(k);
        }
        k += 1;
    }
    None
}

/// Gives the reader a window, if it has none.
pub fn begin(windows: &mut Vec<Window>, reader: u32)
    requires { length (with_ahead reader [] windows.old.items) ≤ vec_capacity windows.old }
    ensures after { windows.new.items ≡ with_ahead reader (ahead_of reader windows.old.items) windows.old.items }
    ensures capacity { vec_capacity windows.old ≤ vec_capacity windows.new }
{
    match find(windows, reader) {
        Some(_) => {}
        None => add(windows, reader),
    }
}

/// Gives the reader, which has none, a window.
fn add(windows: &mut Vec<Window>, reader: u32)
    requires room { length windows.old.items < vec_capacity windows.old }
    ensures after { windows.new.items ≡ windows.old.items ++ (record { reader = reader; bytes = [] }) ∷ [] }
    ensures capacity { vec_capacity windows.old ≤ vec_capacity windows.new }
{
    let Ok(()) = windows.push(Window::new(reader)) else {
        unreachable!()
    };
}

/// Takes the window of this reader away.
pub fn forget(windows: &mut Vec<Window>, reader: u32)
    ensures after { windows.new.items ≡ forgotten reader windows.old.items }
    ensures fewer { length windows.new.items ≤ length windows.old.items }
    ensures capacity { vec_capacity windows.old ≤ vec_capacity windows.new }
{
    let mut k = 0;
    while k < windows.len() {
        if windows[k].reader() == reader {
            windows.remove(k);
        } else {
            k += 1;
        }
    }
}
