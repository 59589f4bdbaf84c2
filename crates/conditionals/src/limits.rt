// What a `\fi`, an `\else` and an `\or` do. *The TeXbook*, chapter 20; *TeX: The Program*, part 28 (`if_limit`, `fi_or_else`).
ghost use Rattle.std.specs.Prelude.{◌≡◌};
ghost use Rattle.conditionals.specs.Limits as limits;

use crate::skip::Ender;

/// How far an open conditional has come, which limits what may come.
#[derive(Clone, Copy)]
pub enum Limit {
    /// Its test is under way.
    Test,
    /// Behind the `\else` to which text was skipped.
    AfterElse,
    /// In a true branch.
    Branch,
    /// In a case of `\ifcase`.
    Case,
}

/// What becomes of a `\fi`, an `\else` or an `\or`.
#[derive(Clone, Copy)]
pub enum Met {
    /// It is put back, with the frozen `\relax` before it.
    RelaxBefore,
    /// "Extra \fi", or by its own name, is reported, and it is dropped.
    Extra,
    /// Text is skipped to this conditional's `\fi`, and the conditional closes.
    SkipsToFi,
    /// The conditional closes.
    Closes,
}

/// What becomes of an ender where the innermost open conditional has come so far; with none, none is open.
pub fn on_fi_or_else(limit: Option<Limit>, ender: Ender) -> Met
    ensures { result ≡ limits.met limit ender }
{
    match (limit, ender) {
        (None, _) => Met::Extra,
        (Some(Limit::Test), _) => Met::RelaxBefore,
        (Some(_), Ender::Fi) => Met::Closes,
        (Some(Limit::AfterElse), _) => Met::Extra,
        (Some(Limit::Branch), Ender::Or) => Met::Extra,
        (Some(Limit::Branch), Ender::Else) => Met::SkipsToFi,
        (Some(Limit::Case), _) => Met::SkipsToFi,
    }
}
