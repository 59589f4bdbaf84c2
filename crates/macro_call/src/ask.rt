// What a call asks for.

/// What a call of a macro asks for, at first and behind a token. *TeX: The Program*, part 25 (`macro_call`).
#[must_use]
#[derive(Clone, Copy)]
pub enum CallAsk {
    /// A token, as it stands.
    More,
    /// A right brace that closes nothing came: "Argument of \a has an extra }". It is given back, and a `\par` inserted; the call goes
    /// on behind the report.
    ExtraBrace,
    /// All arguments are gathered.
    Gathered,
    /// The tokens in front of the first place don't match: "Use of \a doesn't match its definition".
    Mismatch,
    /// A `\par` ended the call: it is given back, and "Paragraph ended before \a was complete" reported. Where this is true, since a check
    /// came before, it goes, and nothing is reported. The list in work is all that was read of the present argument in front of the `\par`, for
    /// the runaway text.
    ParEnded(bool),
}
