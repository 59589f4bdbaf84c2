// How a macro call takes `\par`.
ghost use Rattle.std.specs.Prelude.{◌≡◌};
ghost use Rattle.plain_tokens.specs.Arguments.{is_short, is_checked};

/// Whether a `\par` may stand in the arguments of a call. *The TeXbook*, chapter 20 (`\long`).
#[derive(Clone, Copy, PartialEq, Eq)]
pub enum ParMode {
    /// The macro is `\long`.
    Long,
    /// It isn't, or an extra right brace came.
    Short,
    /// A check came in the call: a `\par` ends it without a report.
    Checked,
}

impl ParMode {
    /// Whether a `\par` ends the call.
    #[inline(always)]
    pub fn is_short(self) -> bool
        ensures { result ≡ is_short self }
    {
        match self {
            ParMode::Long => false,
            ParMode::Short => true,
            ParMode::Checked => true,
        }
    }

    /// Whether a `\par` that ends the call is lost without a report.
    pub fn is_checked(self) -> bool
        ensures { result ≡ is_checked self }
    {
        match self {
            ParMode::Long => false,
            ParMode::Short => false,
            ParMode::Checked => true,
        }
    }
}
