// Where a scanner stands, apart from its list.
ghost use Rattle.std.specs.Prelude.{◌≡◌, ◌≤◌, ◌<◌, ◌+◌, ◌^◌, List, [], ◌∷◌, ◌++◌, ℕ, Option, None, Some, IfSome, IsTrue, true, false};
ghost use Rattle.tex_syntax.specs.declared.words.Manner.{Manner};
ghost use Rattle.list_builder.specs.declared.stage.Next.TheVariants.{On};
ghost use Rattle.tex_defs.specs.declared.Token.{Token};
ghost use Rattle.token_lists.specs.Table.{Entry};
ghost use Rattle.plain_tokens.specs.Tokens.{has_category, is_other, means_category};
ghost use Rattle.plain_state.specs.Definitions.{Fed, Tok, Noted, is_parameter, character_of, is_number, place_digit, is_reference, first, parameters, place, body, reference};
ghost use Rattle.list_builder.specs.Stages.{resume, depth_of, due_of, is_kept, keeps_token, IsReport, IsTelling, TellsNext, goes, depth_after, growth};
ghost use Rattle.list_builder.specs.Scans.{answer_of, IsOpen};

use crate::ask::{Ask, Due};
use plain_state::Body;
use tex_defs::{Meaning, Seen, Token};
use tex_syntax::{Manner, Report, Want};

/// Where a scanner stands: what it remembers of all that it was fed with, apart from the list that it builds.
///
/// A definition begins at `Parameters(0)`, behind the name that is defined, and a balanced text at `First`. Whoever has
/// the list elsewhere goes on from stage to stage by [`Stage::took`] and [`Stage::noted`], and asks by [`Stage::due`].
/// *The TeXbook*, chapters 20 and 24; *TeX: The Program*, part 27 (`scan_toks`).
#[derive(Clone, Copy)]
pub enum Stage {
    /// In front of a text's first brace.
    First,
    /// Its first brace is missing, and the report comes.
    FirstMissing,
    /// In a parameter text, behind so many places.
    Parameters(u8),
    /// Behind so many places and a parameter character of this code.
    Place(u8, u8),
    /// The report of a wrong number comes; so many places will be there, the last of this character.
    Misnumbered(u8, u8),
    /// The report of a tenth place comes.
    Tenth(u8),
    /// The body is missing, and the report comes.
    BodyMissing,
    /// In a body, and in so many groups of it.
    InBody(Body, usize),
    /// The same, behind this parameter character.
    Reference(Body, usize, Token),
    /// The report of a wrong number comes, behind this parameter character.
    Illegal(Body, usize, Token),
}

/// Where a scanner goes.
#[derive(Clone, Copy)]
pub enum Next {
    /// To this stage.
    On(Stage),
    /// The list is complete.
    Finished,
}

/// What a token, or the note that a report was written, comes to.
#[derive(Clone, Copy)]
pub struct Step {
    /// The token that goes into the list.
    pub first: Option<Token>,
    /// The token that goes into it behind the first: the end mark, behind the brace of `#{`.
    pub second: Option<Token>,
    /// Where the scanner goes then.
    pub next: Next,
}

// Whether it is an explicit character of this category.
fn has_category(token: Token, category: u8) -> bool
    ensures { result ≡ has_category category token }
{
    match token {
        Token::Char { cat, code: _ } => cat == category,
        _ => false,
    }
}

// Whether it means a character of this category.
fn means_category(meaning: Meaning<()>, category: u8) -> bool
    ensures { result ≡ means_category category meaning }
{
    match meaning {
        Meaning::Char { cat, code: _ } => cat == category,
        _ => false,
    }
}

fn is_parameter(x: Seen) -> bool
    ensures { result ≡ is_parameter x }
{
    means_category(x.meaning, 6)
}

// The code of the character that is meant.
fn character_of(meaning: Meaning<()>) -> u8
    ensures { result ≡ character_of meaning }
{
    match meaning {
        Meaning::Char { cat: _, code } => code,
        _ => 0,
    }
}

// Whether it is this explicit character, of category 12.
fn is_other(token: Token, code: u8) -> bool
    ensures { result ≡ is_other code token }
{
    match token {
        Token::Char { cat, code: own } => cat == 12 && own == code,
        _ => false,
    }
}

// The number of a place, of which there are `count`.
fn place_digit(token: Token, count: u8) -> Option<u8>
    ensures some { IfSome result (λ n. (is_number count token ≡ true) × (n ≡ place_digit token)) }
    ensures none { result ≡ None → is_number count token ≡ false }
{
    match token {
        Token::Char { cat, code } if cat == 12 && code >= 49 && code - 48 <= count => {
            Some(code - 48)
        }
        _ => None,
    }
}

// Whether a token of a body is a parameter character that stands for a parameter.
fn is_reference(inside: Body, x: Seen) -> bool
    ensures { result ≡ is_reference inside x }
{
    inside.places.is_some() && is_parameter(x)
}

// Whether a token of a body stands for itself, and is no brace.
fn is_kept(inside: Body, x: Seen) -> bool
    ensures { result ≡ is_kept inside x }
{
    !has_category(x.token, 1) && !has_category(x.token, 2) && !is_reference(inside, x)
}

impl Step {
    // No token goes into the list.
    fn to(stage: Stage) -> Step
        ensures { result ≡ record { first = None; second = None; next = On stage } }
    {
        Step {
            first: None,
            second: None,
            next: Next::On(stage),
        }
    }

    // This token goes into the list.
    fn with(token: Token, stage: Stage) -> Step
        ensures { result ≡ record { first = Some token; second = None; next = On stage } }
    {
        Step {
            first: Some(token),
            second: None,
            next: Next::On(stage),
        }
    }
}

impl Stage {
    /// How many groups are open in the body.
    pub fn depth(self) -> usize
        ensures { result ≡ depth_of self }
    {
        match self {
            Stage::InBody(_, depth) | Stage::Reference(_, depth, _) | Stage::Illegal(_, depth, _) =>
                depth,
            _ => 0,
        }
    }

    /// What is due: a token, or a report.
    pub fn due(self, manner: Manner) -> Due
        ensures answer { (list : List Token) → due_of result list ≡ resume manner self list [] }
        ensures tells { IsReport result → IsTelling self }
    {
        match self {
            Stage::First => Due::More(Want::Command),
            Stage::FirstMissing => Due::Tells(Report::MissingBrace, true),
            Stage::Parameters(_) | Stage::Place(_, _) => Due::More(Want::Raw),
            Stage::Misnumbered(_, _) => Due::Tells(Report::NotConsecutive, true),
            Stage::Tenth(_) => Due::Tells(Report::AlreadyNine, false),
            Stage::BodyMissing => Due::Tells(Report::MissingBrace, false),
            Stage::InBody(_, _) if manner.expanded => Due::More(Want::Copied),
            Stage::InBody(_, _) => Due::More(Want::Raw),
            Stage::Reference(_, _, _) if manner.expanded => Due::More(Want::Expanded),
            Stage::Reference(_, _, _) => Due::More(Want::Raw),
            Stage::Illegal(_, _, _) => Due::Tells(Report::IllegalNumber(manner.name), true),
        }
    }

    /// What it asks for: a token, or a report.
    pub fn ask(self, manner: Manner) -> Ask
        ensures answer { (table : List (Option Entry)) (list : List Token) → answer_of table result list ≡ resume manner self list [] }
        ensures goes_on { IsOpen result }
    {
        match self.due(manner) {
            Due::More(want) => Ask::More(want),
            Due::Tells(report, give_back) => Ask::Tells(report, give_back),
        }
    }

    // In front of a text's first brace.
    fn took_first(x: Seen) -> Step
        ensures takes { (m : Manner) (list : List Token) (fed : List Fed) → first m list (Tok x ∷ fed) ≡ goes result m list fed }
        ensures shallow { depth_after result.next ≡ 0 }
    {
        if means_category(x.meaning, 1) {
            let body = Body {
                places: None,
                brace: None,
            };
            return Step::to(Stage::InBody(body, 0));
        }
        Step::to(Stage::FirstMissing)
    }

    // In a parameter text.
    fn took_parameters(count: u8, x: Seen) -> Step
        ensures takes { (m : Manner) (list : List Token) (fed : List Fed) → parameters m count list (Tok x ∷ fed) ≡ goes result m list fed }
        ensures shallow { depth_after result.next ≡ 0 }
    {
        if has_category(x.token, 1) {
            let body = Body {
                places: Some(count),
                brace: None,
            };
            return Step::with(Token::EndPlaces, Stage::InBody(body, 0));
        }
        if has_category(x.token, 2) {
            return Step::with(Token::EndPlaces, Stage::BodyMissing);
        }
        if is_parameter(x) {
            return Step::to(Stage::Place(count, character_of(x.meaning)));
        }
        Step::with(x.token, Stage::Parameters(count))
    }

    // Behind a parameter character of a parameter text.
    fn took_place(count: u8, character: u8, y: Seen) -> Step
        ensures takes { (m : Manner) (list : List Token) (fed : List Fed) → place m count character list (Tok y ∷ fed) ≡ goes result m list fed }
        ensures shallow { depth_after result.next ≡ 0 }
    {
        if has_category(y.token, 1) {
            let body = Body {
                places: Some(count),
                brace: Some(y.token),
            };
            return Step {
                first: Some(y.token),
                second: Some(Token::EndPlaces),
                next: Next::On(Stage::InBody(body, 0)),
            };
        }
        if count >= 9 {
            return Step::to(Stage::Tenth(count));
        }
        if is_other(y.token, 49 + count) {
            return Step::with(Token::Place(character), Stage::Parameters(count + 1));
        }
        Step::to(Stage::Misnumbered(count + 1, character))
    }

    // In a body.
    fn took_body(inside: Body, depth: usize, x: Seen) -> Step
        requires { depth + 1 < 2 ^ 64 }
        ensures takes { (m : Manner) (list : List Token) (fed : List Fed) → body m inside depth list (Tok x ∷ fed) ≡ goes result m list fed }
        ensures shallow { depth_after result.next ≤ depth + growth result }
    {
        if has_category(x.token, 1) {
            return Step::with(x.token, Stage::InBody(inside, depth + 1));
        }
        if has_category(x.token, 2) {
            if depth == 0 {
                return Step {
                    first: inside.brace,
                    second: None,
                    next: Next::Finished,
                };
            }
            return Step::with(x.token, Stage::InBody(inside, depth - 1));
        }
        if is_reference(inside, x) {
            return Step::to(Stage::Reference(inside, depth, x.token));
        }
        Step::with(x.token, Stage::InBody(inside, depth))
    }

    // Behind a parameter character of a macro's body.
    fn took_reference(inside: Body, depth: usize, character: Token, y: Seen) -> Step
        ensures takes { (m : Manner) (list : List Token) (fed : List Fed) → reference m inside depth character list (Tok y ∷ fed) ≡ goes result m list fed }
        ensures shallow { depth_after result.next ≡ depth }
    {
        if is_parameter(y) {
            return Step::with(y.token, Stage::InBody(inside, depth));
        }
        let count = match inside.places {
            Some(count) => count,
            None => 0,
        };
        match place_digit(y.token, count) {
            Some(number) => Step::with(Token::Number(number), Stage::InBody(inside, depth)),
            None => Step::to(Stage::Illegal(inside, depth, character)),
        }
    }

    /// Whether a body is read and a token goes into the list as it is and nothing else changes: it is neither a brace nor a
    /// parameter character that stands for a parameter.
    pub fn keeps(&self, x: Seen) -> bool
        ensures is { result ≡ keeps_token self.now x }
        ensures stays { IsTrue result → (m : Manner) (list : List Token) (fed : List Fed) → resume m self.now list (Tok x ∷ fed) ≡ resume m self.now (list ++ x.token ∷ []) fed }
    {
        match self {
            Stage::InBody(inside, _) => is_kept(*inside, x),
            _ => false,
        }
    }

    /// What a token comes to. Where a report is due it comes to nothing. Fewer than 2^64 - 1 groups are open in the body.
    pub fn took(self, x: Seen) -> Step
        requires { depth_of self + 1 < 2 ^ 64 }
        ensures takes { (m : Manner) (list : List Token) (fed : List Fed) → resume m self list (Tok x ∷ fed) ≡ goes result m list fed }
        ensures shallow { depth_after result.next ≤ depth_of self + growth result }
    {
        match self {
            Stage::First => Stage::took_first(x),
            Stage::Parameters(count) => Stage::took_parameters(count, x),
            Stage::Place(count, character) => Stage::took_place(count, character, x),
            Stage::InBody(body, depth) => Stage::took_body(body, depth, x),
            Stage::Reference(body, depth, character) => {
                Stage::took_reference(body, depth, character, x)
            }
            Stage::FirstMissing
            | Stage::Misnumbered(_, _)
            | Stage::Tenth(_)
            | Stage::BodyMissing
            | Stage::Illegal(_, _, _) => Step::to(self),
        }
    }

    /// What the note comes to that the report was written. Where none was due it comes to nothing.
    pub fn noted(self) -> Step
        ensures takes { (m : Manner) (list : List Token) (fed : List Fed) → resume m self list (Noted ∷ fed) ≡ goes result m list fed }
        ensures shallow { depth_after result.next ≤ depth_of self + growth result }
        ensures no_deeper { depth_after result.next ≤ depth_of self }
        ensures one { result.second ≡ None }
        ensures quiet { TellsNext result.next → ⊥ }
    {
        match self {
            Stage::FirstMissing => {
                let body = Body {
                    places: None,
                    brace: None,
                };
                Step::to(Stage::InBody(body, 0))
            }
            Stage::Misnumbered(count, character) => {
                Step::with(Token::Place(character), Stage::Parameters(count))
            }
            Stage::Tenth(count) => Step::to(Stage::Parameters(count)),
            Stage::BodyMissing => Step {
                first: None,
                second: None,
                next: Next::Finished,
            },
            Stage::Illegal(body, depth, character) => {
                Step::with(character, Stage::InBody(body, depth))
            }
            _ => Step::to(self),
        }
    }
}
