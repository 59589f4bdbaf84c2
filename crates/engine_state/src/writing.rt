// What the engine writes.
ghost use Rattle.std.specs.Prelude.{◌≡◌, ◌<◌, length, [], ◌∷◌, IfOk, IfErr, OnOk, None, true, false};
ghost use Rattle.tex_syntax.specs.declared.words.Scanned.TheVariants as scanned;
ghost use Rattle.tex_defs.specs.Places.{Transcript};
ghost use Rattle.equivalents.specs.Groups.{IsLocation};
ghost use Rattle.equivalents.specs.Locations.{value_seen};
ghost use Rattle.equivalents.specs.Tables.{get};
ghost use Rattle.rows.specs.Internal.{value_text};
ghost use Rattle.plain_tokens.specs.Meanings.{meaning_to_let};
ghost use Rattle.plain_tokens.specs.Numerals.{whole_number};
ghost use Rattle.plain_tokens.specs.Printed.{meaning_tokens};
ghost use Rattle.plain_state.specs.Reports.{report_bytes, message_bytes, error_message_bytes, runaway_bytes, shown_meaning_bytes, shown_value_bytes};
ghost use Rattle.plain_machine.specs.States.{Written};
ghost use Rattle.plain_machine.specs.Plan.{reported, reported_as, token_line, shared_tokens, shown, location_shown, value_shown};
ghost use Rattle.reading_frames.specs.Views.{kept_list_of};
ghost use Rattle.engine_state.specs.Book.{Book};
ghost use Rattle.engine_state.specs.Calls.{AllStand, argument_bytes};
ghost use Rattle.engine_state.specs.Lists.{location_list};
ghost use Rattle.engine_state.specs.Begins.{outcome_of_last, last_moves, last_bytes, last_written};
ghost use Rattle.engine_state.specs.Clauses.{WritesOut, CutsWriting, EndsAtHundredth, CutsReport, CutsWithRoom, CutsWritingWhere, DoesWhere, HoldsLists, WritesWhere, DoesAlways, ReportsSo, StaysSized};
ghost use Rattle.engine_state.specs.Stands.{SameFrames, OnlyColumn, page_of, own_style};
ghost use Rattle.engine_state.specs.Rules.{nth_list, counted, CountsOn, Cuts, Reports, ReportsAs, DoesOnward};
ghost use Rattle.engine_state.specs.Steps.{IsFree};
ghost use Rattle.engine_state.specs.declared.outcome.Ruled.TheVariants.{Halted};

use crate::engine::Engine;
use crate::outcome::{Last, Ruled};
use crate::text::given_list;
use crate::values::{number_text, value_text};
use crate::views::view_of;
use char_text::Text;
use equivalents::Loc;
use plain_machine::Broken;
use tex_defs::{Fatal, Meaning, Seen};
use tex_syntax::{Outcome, Report, Scanned};
use transcript::{
    empty_runaway, end_lines, hundred_line, no_end_lines, put, write_error_message, write_message,
    write_report, write_runaway, write_shown_meaning, write_shown_value, write_token_line,
};
use world_io::Sink;

/// The reports that a run may have, but for the last.
pub(crate) const REPORTS_ROOM: u32 = 99;

impl Engine {
    /// Writes text to the transcript.
    ///
    /// # Errors
    /// A write failed or wanted memory: a front of the text was written.
    pub fn write_text<S: Sink>(&mut self, out: &mut S, text: &[u8]) -> Result<(), Broken>
        ensures did { OnOk result (WritesOut self.old self.new (S.told out.old) (S.told out.new) (λ _. Written Transcript text.now ∷ [])) }
        ensures err { IfErr result (λ b. CutsWriting self.old self.new (S.told out.old) (S.told out.new) (λ _. Written Transcript text.now ∷ []) b) }
        ensures only { OnlyColumn self.old self.new }
    {
        put(out, &mut self.in_line, text)?;
        Ok(())
    }

    /// Writes a message: the innermost of the lists that readings hold, if it is listed, and else that of no token.
    ///
    /// # Errors
    /// A write failed or wanted memory: a front of the text was written.
    pub fn write_message<S: Sink>(&mut self, out: &mut S, listed: bool) -> Result<(), Broken>
        ensures did { OnOk result (WritesOut self.old self.new (S.told out.old) (S.told out.new) (λ _. Written Transcript (message_bytes (own_style self.old) self.old.in_line (kept_list_of listed self.old.input.builds)) ∷ [])) }
        ensures err { IfErr result (λ b. CutsWriting self.old self.new (S.told out.old) (S.told out.new) (λ _. Written Transcript (message_bytes (own_style self.old) self.old.in_line (kept_list_of listed self.old.input.builds)) ∷ []) b) }
        ensures only { OnlyColumn self.old self.new }
    {
        if listed && self.input.has_list() {
            let (lists, list) = self.input.list();
            let view = view_of(lists, &self.input, &self.names);
            write_message(out, &mut self.in_line, view, Some(list))?;
        } else {
            let view = view_of(self.input.lists(), &self.input, &self.names);
            write_message(out, &mut self.in_line, view, None)?;
        }
        Ok(())
    }

    /// Writes the report of such a list.
    ///
    /// # Errors
    /// A write failed or wanted memory: a front of the report was written.
    pub fn write_error_message<S: Sink>(&mut self, out: &mut S, listed: bool) -> Result<(), Broken>
        ensures did { OnOk result (WritesOut self.old self.new (S.told out.old) (S.told out.new) (λ _. Written Transcript (error_message_bytes (own_style self.old) self.old.in_line self.old.input.pending.number (kept_list_of listed self.old.input.builds)) ∷ [])) }
        ensures err { IfErr result (λ b. CutsWriting self.old self.new (S.told out.old) (S.told out.new) (λ _. Written Transcript (error_message_bytes (own_style self.old) self.old.in_line self.old.input.pending.number (kept_list_of listed self.old.input.builds)) ∷ []) b) }
        ensures only { OnlyColumn self.old self.new }
    {
        let line = self.input.line_number();
        if listed && self.input.has_list() {
            let (lists, list) = self.input.list();
            let view = view_of(lists, &self.input, &self.names);
            write_error_message(out, &mut self.in_line, view, line, Some(list))?;
        } else {
            let view = view_of(self.input.lists(), &self.input, &self.names);
            write_error_message(out, &mut self.in_line, view, line, None)?;
        }
        Ok(())
    }

    /// Writes what is shown of a text or a definition that runs away: the list of this number, the innermost being number 0.
    pub(crate) fn write_runaway<S: Sink>(
        &mut self,
        out: &mut S,
        what: Scanned,
        number: u32,
    ) -> Result<(), Broken>
        requires { number < length self.old.input.builds }
        ensures did { OnOk result (WritesOut self.old self.new (S.told out.old) (S.told out.new) (λ _. Written Transcript (runaway_bytes what (own_style self.old) self.old.in_line (nth_list number self.old.input.builds)) ∷ [])) }
        ensures err { IfErr result (λ b. CutsWriting self.old self.new (S.told out.old) (S.told out.new) (λ _. Written Transcript (runaway_bytes what (own_style self.old) self.old.in_line (nth_list number self.old.input.builds)) ∷ []) b) }
        ensures only { OnlyColumn self.old self.new }
    {
        let (lists, list) = self.input.nth_list(number);
        let view = view_of(lists, &self.input, &self.names);
        write_runaway(out, &mut self.in_line, view, what, list)?;
        Ok(())
    }

    /// Writes what is shown of an argument that runs away: the list in work, if a place is reached.
    ///
    /// # Errors
    /// A write failed or wanted memory: a front of the text was written.
    pub fn write_argument<S: Sink>(&mut self, out: &mut S) -> Result<(), Broken>
        ensures did { OnOk result (WritesOut self.old self.new (S.told out.old) (S.told out.new) (λ _. Written Transcript (argument_bytes self.old) ∷ [])) }
        ensures err { IfErr result (λ b. CutsWriting self.old self.new (S.told out.old) (S.told out.new) (λ _. Written Transcript (argument_bytes self.old) ∷ []) b) }
        ensures only { OnlyColumn self.old self.new }
    {
        match self.input.call_list() {
            Some((lists, list)) => {
                let view = view_of(lists, &self.input, &self.names);
                write_runaway(out, &mut self.in_line, view, Scanned::Use, list)?;
                Ok(())
            }
            None => {
                let view = view_of(self.input.lists(), &self.input, &self.names);
                let text = empty_runaway(Scanned::Use, view, self.in_line);
                self.write_text(out, text.bytes())
            }
        }
    }

    /// The line of a token that only typesetting would use.
    ///
    /// # Errors
    /// A write failed or wanted memory: a front of the text was written.
    pub fn token_line<S: Sink>(&mut self, out: &mut S, meaning: Meaning<()>) -> Result<(), Broken>
        ensures did { OnOk result (WritesOut self.old self.new (S.told out.old) (S.told out.new) (λ page. token_line page meaning)) }
        ensures err { IfErr result (DoesAlways Cuts self.old self.new (S.told out.old) (S.told out.new) (λ book. token_line (page_of self.old book) meaning)) }
        ensures only { OnlyColumn self.old self.new }
    {
        if self.quiet {
            return Ok(());
        }
        let view = view_of(self.input.lists(), &self.input, &self.names);
        write_token_line(out, &mut self.in_line, view, meaning)?;
        Ok(())
    }

    /// Writes a report on a fresh line, and counts it. Answers whether the run goes on behind it.
    ///
    /// # Errors
    /// A write failed or wanted memory: a front of the report was written, which isn't counted, or the report is counted and a front of the
    /// last line written, which comes behind the hundredth.
    pub fn report<S: Sink>(&mut self, out: &mut S, report: Report) -> Result<bool, Broken>
        ensures on { IfOk result (λ on. on ≡ true → ReportsSo (λ sizes s t w v page rest. Reports sizes s t w v page report rest) self.old self.new (S.told out.old) (S.told out.new)) }
        ensures last { IfOk result (λ on. on ≡ false → EndsAtHundredth self.old self.new (S.told out.old) (S.told out.new) (λ page rest. reported page report rest)) }
        ensures err { IfErr result (λ b. CutsReport self.old self.new (S.told out.old) (S.told out.new) (λ page rest. reported page report rest) b) }
        ensures frames { SameFrames self.old self.new }
        ensures input { self.new.input ≡ self.old.input }
        ensures sized { IfOk result (λ on. on ≡ true → StaysSized self.old self.new) }
    {
        self.write_report(out, report)?;
        self.count_report(out)
    }

    /// Writes the report whose text is the innermost of the lists that readings hold, if it is listed, and else that of no token, and counts it.
    /// Answers whether the run goes on behind it.
    ///
    /// # Errors
    /// As [`Engine::report`].
    pub fn report_as<S: Sink>(&mut self, out: &mut S, listed: bool) -> Result<bool, Broken>
        ensures on { IfOk result (λ on. on ≡ true → ReportsSo (λ sizes s t w v page rest. ReportsAs sizes s t w v page (kept_list_of listed self.old.input.builds) rest) self.old self.new (S.told out.old) (S.told out.new)) }
        ensures last { IfOk result (λ on. on ≡ false → EndsAtHundredth self.old self.new (S.told out.old) (S.told out.new) (λ page rest. reported_as page (kept_list_of listed self.old.input.builds) rest)) }
        ensures err { IfErr result (λ b. CutsReport self.old self.new (S.told out.old) (S.told out.new) (λ page rest. reported_as page (kept_list_of listed self.old.input.builds) rest) b) }
        ensures frames { SameFrames self.old self.new }
        ensures input { self.new.input ≡ self.old.input }
        ensures sized { IfOk result (λ on. on ≡ true → StaysSized self.old self.new) }
    {
        self.write_error_message(out, listed)?;
        self.count_report(out)
    }

    /// Counts a report, and writes the last line behind the hundredth. Answers whether the run goes on.
    pub(crate) fn count_report<S: Sink>(&mut self, out: &mut S) -> Result<bool, Broken>
        ensures on { IfOk result (λ on. on ≡ true → ReportsSo CountsOn self.old self.new (S.told out.old) (S.told out.new)) }
        ensures last { IfOk result (λ on. on ≡ false → EndsAtHundredth self.old self.new (S.told out.old) (S.told out.new) counted) }
        ensures err { IfErr result (λ b. CutsReport self.old self.new (S.told out.old) (S.told out.new) counted b) }
        ensures frames { SameFrames self.old self.new }
        ensures input { self.new.input ≡ self.old.input }
        ensures sized { IfOk result (λ on. on ≡ true → StaysSized self.old self.new) }
        ensures stopped { self.new.stopped ≡ self.old.stopped }
    {
        if self.reports < REPORTS_ROOM {
            self.reports += 1;
            return Ok(true);
        }
        self.reports = REPORTS_ROOM + 1;
        let text = hundred_line(view_of(self.input.lists(), &self.input, &self.names));
        self.write_text(out, text.bytes())?;
        Ok(false)
    }

    /// Writes a report.
    fn write_report<S: Sink>(&mut self, out: &mut S, report: Report) -> Result<(), Broken>
        ensures did { OnOk result (WritesOut self.old self.new (S.told out.old) (S.told out.new) (λ _. Written Transcript (report_bytes (own_style self.old) self.old.in_line self.old.input.pending.number report) ∷ [])) }
        ensures err { IfErr result (λ b. CutsWriting self.old self.new (S.told out.old) (S.told out.new) (λ _. Written Transcript (report_bytes (own_style self.old) self.old.in_line self.old.input.pending.number report) ∷ []) b) }
        ensures only { OnlyColumn self.old self.new }
    {
        let line = self.input.line_number();
        let view = view_of(self.input.lists(), &self.input, &self.names);
        write_report(out, &mut self.in_line, view, line, report)?;
        Ok(())
    }

    /// Writes a token and what it means, of a macro with the tokens of its list.
    fn write_shown_meaning<S: Sink>(&mut self, out: &mut S, x: Seen) -> Result<(), Broken>
        ensures did { OnOk result (WritesOut self.old self.new (S.told out.old) (S.told out.new) (λ _. Written Transcript (shown_meaning_bytes (own_style self.old) self.old.in_line self.old.input.pending.number x.token x.meaning (meaning_tokens (shared_tokens self.old.input.lists) (meaning_to_let self.old.input.groups.now.meanings x))) ∷ [])) }
        ensures err { IfErr result (λ b. CutsWriting self.old self.new (S.told out.old) (S.told out.new) (λ _. Written Transcript (shown_meaning_bytes (own_style self.old) self.old.in_line self.old.input.pending.number x.token x.meaning (meaning_tokens (shared_tokens self.old.input.lists) (meaning_to_let self.old.input.groups.now.meanings x))) ∷ []) b) }
        ensures only { OnlyColumn self.old self.new }
    {
        let line = self.input.line_number();
        let (lists, list) = given_list(&self.input, x);
        let view = view_of(lists, &self.input, &self.names);
        write_shown_meaning(out, &mut self.in_line, view, line, x.token, x.meaning, list)?;
        Ok(())
    }

    /// Writes a token and what it means, of a macro with the tokens of its list; the status is to be 1. *The TeXbook*, chapter 24
    /// (`\show`); *TeX: The Program*, part 49 (`show_whatever`).
    ///
    /// # Errors
    /// A write failed or wanted memory: a front of the text was written.
    pub fn show<S: Sink>(&mut self, out: &mut S, x: Seen) -> Result<(), Broken>
        ensures did { OnOk result (WritesWhere HoldsLists self.old self.new (S.told out.old) (S.told out.new) (λ page. shown page x)) }
        ensures err { IfErr result (λ b. CutsWritingWhere HoldsLists self.old self.new (S.told out.old) (S.told out.new) (λ page. shown page x) b) }
        ensures only { self.new ≡ record self.old { in_line = self.new.in_line; flawed = self.new.flawed } }
        ensures frames { SameFrames self.old self.new }
    {
        self.write_shown_meaning(out, x)?;
        self.flawed = true;
        Ok(())
    }

    /// Writes a number.
    fn write_shown_number<S: Sink>(&mut self, out: &mut S, n: i32) -> Result<(), Broken>
        ensures did { OnOk result (WritesOut self.old self.new (S.told out.old) (S.told out.new) (λ _. Written Transcript (shown_value_bytes (own_style self.old) self.old.in_line self.old.input.pending.number (whole_number n) []) ∷ [])) }
        ensures err { IfErr result (λ b. CutsWriting self.old self.new (S.told out.old) (S.told out.new) (λ _. Written Transcript (shown_value_bytes (own_style self.old) self.old.in_line self.old.input.pending.number (whole_number n) []) ∷ []) b) }
        ensures only { OnlyColumn self.old self.new }
    {
        let line = self.input.line_number();
        let text = number_text(false, n);
        let view = view_of(self.input.lists(), &self.input, &self.names);
        write_shown_value(out, &mut self.in_line, view, line, text.bytes(), None)?;
        Ok(())
    }

    /// Writes what stands at a location.
    fn write_value_at<S: Sink>(&mut self, out: &mut S, loc: Loc) -> Result<(), Broken>
        requires there { IsLocation self.old.input.groups loc }
        ensures did { OnOk result (WritesOut self.old self.new (S.told out.old) (S.told out.new) (λ _. Written Transcript (shown_value_bytes (own_style self.old) self.old.in_line self.old.input.pending.number (value_text loc (value_seen (get self.old.input.groups.now loc))) (location_list self.old loc)) ∷ [])) }
        ensures err { IfErr result (λ b. CutsWriting self.old self.new (S.told out.old) (S.told out.new) (λ _. Written Transcript (shown_value_bytes (own_style self.old) self.old.in_line self.old.input.pending.number (value_text loc (value_seen (get self.old.input.groups.now loc))) (location_list self.old loc)) ∷ []) b) }
        ensures only { OnlyColumn self.old self.new }
    {
        let line = self.input.line_number();
        let text = value_text(loc, self.input.value(loc));
        let (lists, list) = self.input.list_at_location(loc);
        let view = view_of(lists, &self.input, &self.names);
        write_shown_value(out, &mut self.in_line, view, line, text.bytes(), list)?;
        Ok(())
    }

    /// Writes a number; the status is to be 1. *The TeXbook*, chapter 24 (`\showthe`); *TeX: The Program*, part 49 (`show_whatever`).
    ///
    /// # Errors
    /// A write failed or wanted memory: a front of the text was written.
    pub fn show_number<S: Sink>(&mut self, out: &mut S, n: i32) -> Result<(), Broken>
        ensures did { OnOk result (WritesOut self.old self.new (S.told out.old) (S.told out.new) (λ page. value_shown page (whole_number n) [])) }
        ensures err { IfErr result (λ b. CutsWriting self.old self.new (S.told out.old) (S.told out.new) (λ page. value_shown page (whole_number n) []) b) }
        ensures only { self.new ≡ record self.old { in_line = self.new.in_line; flawed = self.new.flawed } }
        ensures frames { SameFrames self.old self.new }
    {
        self.write_shown_number(out, n)?;
        self.flawed = true;
        Ok(())
    }

    /// Writes what stands at a location, of a list its tokens; the status is to be 1. *The TeXbook*, chapter 24 (`\showthe`);
    /// *TeX: The Program*, part 49 (`show_whatever`).
    ///
    /// # Errors
    /// A write failed or wanted memory: a front of the text was written.
    pub fn show_value<S: Sink>(&mut self, out: &mut S, loc: Loc) -> Result<(), Broken>
        requires there { IsLocation self.old.input.groups loc }
        ensures did { OnOk result (WritesWhere HoldsLists self.old self.new (S.told out.old) (S.told out.new) (λ page. location_shown page loc)) }
        ensures err { IfErr result (λ b. CutsWritingWhere HoldsLists self.old self.new (S.told out.old) (S.told out.new) (λ page. location_shown page loc) b) }
        ensures only { self.new ≡ record self.old { in_line = self.new.in_line; flawed = self.new.flawed } }
        ensures frames { SameFrames self.old self.new }
    {
        self.write_value_at(out, loc)?;
        self.flawed = true;
        Ok(())
    }

    /// A report, behind which the rule ends.
    ///
    /// # Errors
    /// As [`Engine::report`].
    pub fn report_only<S: Sink>(&mut self, out: &mut S, report: Report) -> Result<Ruled, Broken>
        requires idle { self.old.input.making ≡ None }
        ensures rule { IfOk result (DoesWhere AllStand DoesOnward self.old self.new (S.told out.old) (S.told out.new) (λ book. reported (page_of self.old book) report [])) }
        ensures err { IfErr result (CutsWithRoom self.old self.new (S.told out.old) (S.told out.new) (λ page. reported page report [])) }
        ensures frames { SameFrames self.old self.new }
        ensures input { self.new.input ≡ self.old.input }
        ensures on { IfOk result (λ ruled. IsFree ruled → ⊥) }
        ensures idle { OnOk result (self.new.input.making ≡ None) }
    {
        if self.report(out, report)? {
            Ok(Ruled::Step)
        } else {
            Ok(Ruled::Halted(Outcome::AtFatal(Fatal::HundredErrors)))
        }
    }

    /// The text that the machine writes where it stops.
    fn last_text(&self, last: Last) -> Text
        ensures { (book : Book) → result ≡ last_bytes (page_of self.now book) last }
    {
        let view = view_of(self.input.lists(), &self.input, &self.names);
        match last {
            Last::End => end_lines(view, self.in_line, self.input.group_depth()),
            Last::NoEnd => no_end_lines(view, self.in_line),
        }
    }

    /// Writes what the machine writes where it stops.
    fn write_last<S: Sink>(&mut self, out: &mut S, last: Last) -> Result<(), Broken>
        ensures did { OnOk result (WritesOut self.old self.new (S.told out.old) (S.told out.new) (λ page. last_written page last)) }
        ensures err { IfErr result (λ b. CutsWriting self.old self.new (S.told out.old) (S.told out.new) (λ page. last_written page last) b) }
        ensures only { OnlyColumn self.old self.new }
    {
        let text = self.last_text(last);
        self.write_text(out, text.bytes())?;
        match last {
            Last::End => self.write_conditionals_left(out),
            Last::NoEnd => Ok(()),
        }
    }

    /// Writes what the machine writes where it stops, with a line for each open conditional at `\end`, and ends the run.
    ///
    /// # Errors
    /// A write failed or wanted memory: a front of what it writes was written.
    pub fn halt<S: Sink>(&mut self, out: &mut S, last: Last) -> Result<Ruled, Broken>
        requires idle { self.old.input.making ≡ None }
        ensures rule { IfOk result (DoesAlways DoesOnward self.old self.new (S.told out.old) (S.told out.new) (λ book. last_moves (page_of self.old book) last)) }
        ensures err { IfErr result (DoesAlways Cuts self.old self.new (S.told out.old) (S.told out.new) (λ book. last_moves (page_of self.old book) last)) }
        ensures ends { IfOk result (λ ruled. ruled ≡ Halted (outcome_of_last last)) }
        ensures frames { SameFrames self.old self.new }
        ensures input { self.new.input ≡ self.old.input }
        ensures idle { OnOk result (self.new.input.making ≡ None) }
    {
        self.write_last(out, last)?;
        Ok(Ruled::Halted(last.outcome()))
    }
}
