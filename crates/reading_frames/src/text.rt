// A balanced text or the list of a macro, token by token.
ghost use Rattle.std.specs.Prelude.{◌≡◌, ◌≤◌, ◌<◌, ◌+◌, ◌^◌, List, [], ◌∷◌, IfSome, true, false};
ghost use Rattle.tex_defs.specs.declared.Name.{Name};
ghost use Rattle.tex_defs.specs.declared.Token.{Token};
ghost use Rattle.tex_syntax.specs.declared.words.Scanned.{Scanned};
ghost use Rattle.rows.specs.Readings.{Fed, Tok, Noted, Val};
ghost use Rattle.plain_readings.specs.Lists as lists;
ghost use Rattle.plain_readings.specs.Lists.{build_ask, build_fed};
ghost use Rattle.list_builder.specs.Stages as stages;
ghost use Rattle.reading_frames.specs.Views.{ask_of, grown, list_ask, Lists, top_list};
ghost use Rattle.reading_frames.specs.Resumes.{resume_build, next_in_body, groups_in, built_as, token_count};
ghost use Rattle.reading_frames.specs.declared.ask.Ask.TheVariants as asks;

use crate::ask::Grown;
use list_builder::{Due, Next, Stage, Step};
use tex_defs::{Name, Seen};
use tex_syntax::{Manner, Report, Scanned, Want};

/// Where the reading of a list stands.
#[derive(Clone, Copy)]
pub enum BuildPlace {
    At(Stage),
    /// The list is complete.
    Whole,
}

/// The reading of a list, which is the list on top.
#[derive(Clone, Copy)]
pub struct BuildScan {
    /// Whether it is the list of a macro, and no text.
    pub defines: bool,
    pub manner: Manner,
    pub place: BuildPlace,
}

/// What a balanced text or the list of a macro asks for.
#[must_use]
#[derive(Clone, Copy)]
pub enum ListAsk {
    More(Want),
    /// A report, and whether the last token is put back before it.
    Tells(Report, bool),
    /// It is done, and the list is complete; no token is put back.
    Done,
}

impl BuildScan {
    /// The balanced text of the command of this name begins, with a list of no token.
    pub fn text(name: Name, expanded: bool) -> BuildScan
        ensures shallow { groups_in result ≡ 0 }
        ensures what { result.defines ≡ false }
        ensures name { result.manner.name ≡ name }
        ensures goes_on { (fed : List Fed) → lists.text name expanded fed ≡ resume_build result [] fed }
    {
        BuildScan {
            defines: false,
            manner: Manner { name, expanded },
            place: BuildPlace::At(Stage::First),
        }
    }

    /// The list of the macro of this name begins, with no token.
    pub fn definition(name: Name, expanded: bool) -> BuildScan
        ensures shallow { groups_in result ≡ 0 }
        ensures what { result.defines ≡ true }
        ensures name { result.manner.name ≡ name }
        ensures goes_on { (fed : List Fed) → lists.definition name expanded fed ≡ resume_build result [] fed }
    {
        BuildScan {
            defines: true,
            manner: Manner { name, expanded },
            place: BuildPlace::At(Stage::Parameters(0)),
        }
    }

    /// What is read at a check.
    pub fn what(&self) -> Scanned
        ensures { result ≡ built_as self.now.defines }
    {
        if self.defines {
            Scanned::Definition
        } else {
            Scanned::Text
        }
    }

    /// How the next token is read, where it is one of the body itself, of a text or of a macro. Behind a parameter character it isn't: that may
    /// yet stand for a parameter.
    #[inline(always)]
    pub fn next_in_body(&self) -> Option<Want>
        ensures is { result ≡ next_in_body self.now }
        ensures asks { IfSome result (λ want. (held : Lists) → ask_of held (asks.More want) ≡ build_ask (resume_build self.now (top_list held) [])) }
    {
        match self.place {
            BuildPlace::At(Stage::InBody(_, _)) => {
                if self.manner.expanded {
                    Some(Want::Copied)
                } else {
                    Some(Want::Raw)
                }
            }
            _ => None,
        }
    }

    /// What it asks for where it stands.
    pub fn ask(&self) -> ListAsk
        ensures { (list : List Token) → list_ask result ≡ build_ask (resume_build self.now list []) }
    {
        match &self.place {
            BuildPlace::At(stage) => match stage.due(self.manner) {
                Due::More(want) => ListAsk::More(want),
                Due::Tells(report, back) => ListAsk::Tells(report, back),
            },
            BuildPlace::Whole => ListAsk::Done,
        }
    }

    /// The groups that are open in the list.
    pub fn groups(&self) -> usize
        ensures { result ≡ groups_in self.now }
    {
        match self.place {
            BuildPlace::At(stage) => stage.depth(),
            BuildPlace::Whole => 0,
        }
    }

    /// Goes where the step leads.
    #[inline(never)]
    fn go(&mut self, step: Step) -> Grown
        ensures what { self.new.defines ≡ self.old.defines }
        ensures manner { self.new.manner ≡ self.old.manner }
        ensures shallow { groups_in self.new ≡ stages.depth_after step.next }
        ensures count { token_count result ≡ stages.growth step }
        ensures goes { (list : List Token) (fed : List Fed) → stages.goes step self.old.manner list (build_fed fed) ≡ resume_build self.new (grown result list) fed }
    {
        self.place = match step.next {
            Next::On(stage) => BuildPlace::At(stage),
            Next::Finished => BuildPlace::Whole,
        };
        Grown {
            first: step.first,
            second: step.second,
        }
    }

    /// Takes a token. Fewer than 2^64 - 1 groups are open in the list.
    #[inline(always)]
    pub fn feed(&mut self, x: Seen) -> Grown
        requires { groups_in self.old + 1 < 2 ^ 64 }
        ensures what { self.new.defines ≡ self.old.defines }
        ensures name { self.new.manner.name ≡ self.old.manner.name }
        ensures goes_on { (list : List Token) (fed : List Fed) → resume_build self.old list (Tok x ∷ fed) ≡ resume_build self.new (grown result list) fed }
        ensures shallow { groups_in self.new ≤ groups_in self.old + token_count result }
    {
        match self.place {
            BuildPlace::At(stage) => {
                // Most tokens of a body: the place stays.
                if stage.keeps(x) {
                    return Grown {
                        first: Some(x.token),
                        second: None,
                    };
                }
                self.go(stage.took(x))
            }
            BuildPlace::Whole => Grown::none(),
        }
    }

    /// Goes on behind its report.
    pub fn noted(&mut self) -> Grown
        ensures what { self.new.defines ≡ self.old.defines }
        ensures name { self.new.manner.name ≡ self.old.manner.name }
        ensures goes_on { (list : List Token) (fed : List Fed) → resume_build self.old list (Noted ∷ fed) ≡ resume_build self.new (grown result list) fed }
        ensures shallow { groups_in self.new ≤ groups_in self.old + token_count result }
    {
        match self.place {
            BuildPlace::At(stage) => self.go(stage.noted()),
            BuildPlace::Whole => Grown::none(),
        }
    }
}
