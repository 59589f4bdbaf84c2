// How far a line is read.

/// The state of a line's reading: at a new line, in the middle, or where blanks are skipped. *The TeXbook*, chapter 8
/// (states N, M and S).
#[derive(Clone, Copy, PartialEq, Eq)]
pub enum LineState {
    NewLine,
    Middle,
    SkipBlanks,
}
