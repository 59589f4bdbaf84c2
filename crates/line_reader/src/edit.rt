// Work on a line where it stands.
ghost use Rattle.std.specs.Prelude.{◌≡◌, ℕ, List, length};

/// What changes the bytes of a line where they stand, as a lexer does that reduces `^^` forms.
pub trait Edit {
    /// What it makes of itself and of the line.
    ghost edits: { Self → List ℕ → Self → List ℕ → Type 0 };

    /// Changes the line, which keeps its length.
    fn edit(&mut self, line: &mut [u8])
        ensures len { length line.new ≡ length line.old }
        ensures edits { edits self.old line.old self.new line.new };
}
