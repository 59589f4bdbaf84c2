// The open readings: frames, and the lists that they hold.
ghost use Rattle.std.specs.Prelude.{◌≡◌, ◌<◌, ◌≤◌, ◌+◌, ◌-◌, ◌^◌, List, [], ◌∷◌, length, drop, IfErr, OnOk, OnErr, Some, None, IsSome, MatchBool, false};
ghost use Rattle.equivalents.specs.Groups.{IsLocation};
ghost use Rattle.equivalents.specs.Locations.{value_seen};
ghost use Rattle.equivalents.specs.Tables.{get};
ghost use Rattle.rows.specs.Readings.{Tok, Noted, Fetched, Val, Fetches, More};
ghost use Rattle.plain_readings.specs.Readings.{fed_with, opened, opened_with, lists};
ghost use Rattle.plain_readings.specs.Weights.{value_frame, act_frame, value_weight, act_weight};
ghost use Rattle.plain_tokens.specs.Tables.{memory, refused};
ghost use Rattle.tex_syntax.specs.declared.words.Want.{Want};
ghost use Rattle.reading_frames.specs.Views.{reading_kind, has_no_token, on_top};
ghost use Rattle.reading_frames.specs.Resumes.{listed_lists, token_count};
ghost use Rattle.reading_frames.specs.Frames.{opened_lists};
ghost use Rattle.input_state.specs.Callings.{NotCalling, call_in};
ghost use Rattle.input_state.specs.declared.answer.Call.{Call};
ghost use Rattle.input_state.specs.Calls.{text_of};
ghost use Rattle.input_state.specs.CallFeeds.{IsTaking, Feeds as FeedsCall, CutShort, call_work, growth};
ghost use Rattle.input_state.specs.Stored.{KeepsShared, words as stored_words};
ghost use Rattle.reading_frames.specs.Weights.{frames_weight, opening_frame, innermost_weight, begun_weight, begun_with_weight, IsReported};
ghost use Rattle.reading_frames.specs.Stack.{asks_in, innermost_groups};
ghost use Rattle.plain_machine.specs.declared.broken.Broken.TheVariants as broken;
ghost use Rattle.plain_machine.specs.States.{Begun, BegunWith, Closed, Ended, Feeds, made};
ghost use Rattle.plain_machine.specs.Plan.{noting, value_tokens, feeding};
ghost use Rattle.engine_state.specs.Book.{with_work};
ghost use Rattle.engine_state.specs.Clauses.{CutsAtReading, DoesInnermost, FeedsReading, IsMadeBy, RefusedAs, StandsFor, WhereDone, WhereOpen, WhereSound};
ghost use Rattle.engine_state.specs.CutReadings.{CutsIn, with_token};
ghost use Rattle.engine_state.specs.Feeding.{HasTop, IsKept, TokensFit, TokensCut, with_tokens};
ghost use Rattle.engine_state.specs.Rules.{Went};
ghost use Rattle.engine_state.specs.Stands.{Stands, SameBut, SameElse, state_of};
ghost use Rattle.engine_state.specs.Steps.{asked, asks_bare, asks_now, wants_token, weight};

use crate::engine::Engine;
use equivalents::Loc;
use reading_frames::{Frame, Grown, Opening};
use rows::{Phrase, Value};
use tex_defs::{Full, Seen, Table, Token};

/// The words of the list that a reading has from the beginning, if it has one.
fn list_need(opening: Opening) -> u32
    ensures { result ≡ length (opened_lists opening []) }
{
    match opening {
        Opening::Reads(Phrase::Text(..) | Phrase::Definition(..))
        | Opening::Spelling(_)
        | Opening::FileName(_) => 1,
        _ => 0,
    }
}

/// The words of these tokens.
fn token_need(grown: Grown) -> u32
    ensures is { result ≡ token_count grown }
    ensures few { result ≤ 2 }
{
    u32::from(grown.first.is_some()) + u32::from(grown.second.is_some())
}

impl Engine {
    /// Begins a reading, and with it the list that it builds.
    ///
    /// # Errors
    /// There is no room for one more reading, or for its list; nothing has changed.
    pub fn begin(&mut self, opening: Opening) -> Result<(), Full>
        ensures stands { OnOk result (StandsFor self.old self.new (λ _. opened (reading_kind opening))) }
        ensures state { OnOk result (IsMadeBy self.old self.new (λ _. Begun (reading_kind opening)) (λ _ work. opened (reading_kind opening) work)) }
        ensures fits { OnOk result (RefusedAs self.old (Begun (reading_kind opening)) None) }
        ensures refused { IfErr result (λ full. RefusedAs self.old (Begun (reading_kind opening)) (Some full)) }
        ensures err { OnErr result (self.new ≡ self.old) }
        ensures same { SameBut self.old self.new }
        ensures weight { OnOk result (innermost_weight self.new.readings.frames ≤ begun_weight opening) }
        ensures count { OnOk result (length self.new.readings.frames ≡ length self.old.readings.frames + 1) }
        ensures frames { OnOk result (frames_weight self.new.readings.frames ≡ frames_weight self.old.readings.frames + opening_frame opening) }
        ensures beneath { OnOk result (drop 1 self.new.readings.frames ≡ self.old.readings.frames) }
    {
        if let Err(full) = self.readings.begin(opening) {
            return Err(full);
        }
        if let Err(full) = self.begin_list(opening) {
            self.readings.end();
            return Err(full);
        }
        Ok(())
    }

    /// Begins a reading with the token that the innermost one looked at, which it was fed with last.
    ///
    /// # Errors
    /// There is no room for one more reading, or for its list; nothing has changed.
    pub fn begin_with(&mut self, opening: Opening) -> Result<(), Full>
        ensures stands { OnOk result (StandsFor self.old self.new (λ _. opened_with (reading_kind opening) (Tok self.old.last))) }
        ensures state { OnOk result (IsMadeBy self.old self.new (λ _. BegunWith (reading_kind opening)) (λ _ work. opened_with (reading_kind opening) (Tok self.old.last) work)) }
        ensures fits { OnOk result (RefusedAs self.old (BegunWith (reading_kind opening)) None) }
        ensures refused { IfErr result (λ full. RefusedAs self.old (BegunWith (reading_kind opening)) (Some full)) }
        ensures err { OnErr result (self.new ≡ self.old) }
        ensures same { SameBut self.old self.new }
        ensures weight { OnOk result (innermost_weight self.new.readings.frames ≤ begun_with_weight opening) }
        ensures count { OnOk result (length self.new.readings.frames ≡ length self.old.readings.frames + 1) }
        ensures frames { OnOk result (frames_weight self.new.readings.frames ≡ frames_weight self.old.readings.frames + opening_frame opening) }
        ensures beneath { OnOk result (drop 1 self.new.readings.frames ≡ self.old.readings.frames) }
    {
        let grown = match self.readings.begin_with(opening, self.last) {
            Ok(grown) => grown,
            Err(full) => return Err(full),
        };
        if let Some(full) = self.list_refusal(opening, grown) {
            self.readings.end();
            return Err(full);
        }
        self.begin_grown(opening, grown);
        Ok(())
    }

    /// The innermost reading takes a token: a call, where one takes tokens, and else the innermost frame.
    ///
    /// # Errors
    /// The main memory is full before a token that goes into its list, where those in front of it may be there, or before the list of a call's next
    /// argument; the frames stand as before.
    #[inline(always)]
    pub fn feed(&mut self, x: Seen) -> Result<(), Full>
        ensures ok { OnOk result ((want : Want) → DoesInnermost (asks_now self.old ≡ Some (More want)) Went self.old self.new (λ r. feeding r x) 0) }
        ensures err { IfErr result (λ full. (want : Want) → DoesInnermost (asks_now self.old ≡ Some (More want)) CutsIn self.old self.new (λ r. feeding r x) (broken.Full full)) }
        ensures column { self.new.in_line ≡ self.old.in_line }
        ensures idle { self.new.input.making ≡ self.old.input.making }
    {
        if self.input.is_taking() {
            return self.feed_call(x);
        }
        self.feed_frame(x)
    }

    /// The call takes a token. *TeX: The Program*, part 25 (`macro_call`).
    ///
    /// # Errors
    /// As [`Engine::feed`].
    fn feed_call(&mut self, x: Seen) -> Result<(), Full>
        requires { IsTaking self.old.input.call }
        ensures ok { OnOk result (FeedsCall (text_of self.old.input.lists self.old.input.groups.now.meanings) x.token self.old.input.call self.new.input.call) }
        ensures fits { OnOk result (stored_words self.old.input + length (growth (text_of self.old.input.lists self.old.input.groups.now.meanings) x.token self.old.input.call) ≤ self.old.input.sizes.main_memory_size) }
        ensures err { OnErr result (CutShort (text_of self.old.input.lists self.old.input.groups.now.meanings) x.token self.old.input.call self.new.input.call) }
        ensures full { IfErr result (λ full. refused self.new.input.sizes (memory 1 (stored_words self.new.input) ∷ []) ≡ Some full) }
        ensures within { stored_words self.new.input ≤ self.new.input.sizes.main_memory_size }
        ensures last { OnOk result (self.new.last ≡ x) }
        ensures fed { OnErr result (call_work self.new.input.call ≡ None → self.new.last ≡ x) }
        ensures unfed { OnErr result ((work : List Token) → call_work self.new.input.call ≡ Some work → self.new.last ≡ self.old.last) }
        ensures others { self.new ≡ record self.old { last = self.new.last; input = record self.old.input { call = self.new.input.call; lists = self.new.input.lists } } }
        ensures keeps { KeepsShared self.old.input self.new.input }
    {
        let fed = self.input.feed_call(x.token);
        if fed.is_ok() || self.input.call_list().is_none() {
            self.last = x;
        }
        // What is used of the main memory is at most its size.
        let _used = self.input.words();
        fed
    }

    /// The innermost frame takes a token.
    ///
    /// # Errors
    /// The main memory is full before a token that goes into its list; one in front of it may be there, and the frame stands as before.
    #[inline(always)]
    fn feed_frame(&mut self, x: Seen) -> Result<(), Full>
        ensures stands { OnOk result (StandsFor self.old self.new (λ _. fed_with (Tok x))) }
        ensures did { OnOk result (FeedsReading self.old self.new (Tok x) (λ r. feeding r x)) }
        ensures refused { IfErr result (λ full. CutsAtReading self.old self.new (λ _ r. feeding r x) (broken.Full full)) }
        ensures column { self.new.in_line ≡ self.old.in_line }
        ensures idle { self.new.input.making ≡ self.old.input.making }
        ensures call { self.new.input.call ≡ self.old.input.call }
    {
        // No more groups are open than there are words.
        let _used = self.input.words();
        if !self.readings.has_few_groups() {
            return Ok(());
        }
        if !self.has_room() {
            return self.feed_at_risk(x);
        }
        // A token brings at most two into the list, so none is refused here.
        let grown = self.readings.feed(x);
        if let Err(full) = self.take(grown) {
            return Err(full);
        }
        self.last = x;
        Ok(())
    }

    /// As [`Engine::feed_frame`], where the main memory may be full: the frame is kept meanwhile.
    ///
    /// # Errors
    /// As [`Engine::feed_frame`].
    #[cold]
    #[inline(never)]
    fn feed_at_risk(&mut self, x: Seen) -> Result<(), Full>
        requires { innermost_groups self.old.readings.frames + 1 < 2 ^ 64 }
        ensures stands { OnOk result (StandsFor self.old self.new (λ _. fed_with (Tok x))) }
        ensures did { OnOk result (FeedsReading self.old self.new (Tok x) (λ r. feeding r x)) }
        ensures refused { IfErr result (λ full. CutsAtReading self.old self.new (λ _ r. feeding r x) (broken.Full full)) }
        ensures column { self.new.in_line ≡ self.old.in_line }
        ensures idle { self.new.input.making ≡ self.old.input.making }
        ensures call { self.new.input.call ≡ self.old.input.call }
    {
        let kept = self.frame_at_risk();
        let grown = self.readings.feed(x);
        if let Err(full) = self.take(grown) {
            self.readings.restore(kept);
            return Err(full);
        }
        self.last = x;
        Ok(())
    }

    /// The innermost reading goes on behind its report, a token put back, a name that became `\relax`, or the magnification checked: a call, where one
    /// takes tokens, and else the innermost frame.
    ///
    /// # Errors
    /// The main memory is full; as [`Engine::feed`].
    pub fn note(&mut self) -> Result<(), Full>
        ensures ok { OnOk result (DoesInnermost (IsReported (asks_now self.old)) Went self.old self.new (λ r. noting r) 0) }
        ensures err { IfErr result (λ full. DoesInnermost (IsReported (asks_now self.old)) CutsIn self.old self.new (λ r. noting r) (broken.Full full)) }
        ensures stands { OnOk result (StandsFor self.old self.new (λ _. fed_with Noted)) }
        ensures did { OnOk result (FeedsReading self.old self.new Noted noting) }
        ensures refused { IfErr result (λ full. CutsAtReading self.old self.new (λ _ r. noting r) (broken.Full full)) }
        ensures light { OnOk result (IsReported (asks_bare self.old) → weight self.new < weight self.old) }
        ensures column { self.new.in_line ≡ self.old.in_line }
        ensures idle { self.new.input.making ≡ self.old.input.making }
    {
        if self.input.is_taking() {
            self.input.note_call();
            return Ok(());
        }
        self.note_frame()
    }

    /// The innermost frame goes on.
    ///
    /// # Errors
    /// The main memory is full; as [`Engine::feed_frame`].
    fn note_frame(&mut self) -> Result<(), Full>
        ensures stands { OnOk result (StandsFor self.old self.new (λ _. fed_with Noted)) }
        ensures did { OnOk result (FeedsReading self.old self.new Noted noting) }
        ensures refused { IfErr result (λ full. CutsAtReading self.old self.new (λ _ r. noting r) (broken.Full full)) }
        ensures weight { OnOk result (IsReported (asks_in self.old.readings.frames []) → innermost_weight self.new.readings.frames < innermost_weight self.old.readings.frames) }
        ensures count { OnOk result (length self.new.readings.frames ≡ length self.old.readings.frames) }
        ensures frames { OnOk result (frames_weight self.new.readings.frames ≡ frames_weight self.old.readings.frames) }
        ensures same { OnOk result (SameBut self.old self.new) }
        ensures column { self.new.in_line ≡ self.old.in_line }
        ensures idle { self.new.input.making ≡ self.old.input.making }
        ensures call { self.new.input.call ≡ self.old.input.call }
    {
        let kept = self.frame_at_risk();
        let grown = self.readings.noted();
        if let Err(full) = self.take(grown) {
            self.readings.restore(kept);
            return Err(full);
        }
        Ok(())
    }

    /// The innermost frame takes what stands at the location for which it asked. *TeX: The Program*, part 26 (`scan_something_internal`).
    pub fn fetch(&mut self, loc: Loc)
        requires within { IsLocation self.old.input.groups loc }
        ensures stands { StandsFor self.old self.new (λ page. fed_with (Fetched (value_seen (get page.now loc)))) }
        ensures state { IsMadeBy self.old self.new (λ page. Feeds (Fetched (value_seen (get page.now loc)))) (λ page work. fed_with (Fetched (value_seen (get page.now loc))) work) }
        ensures same { SameBut self.old self.new }
        ensures weight { asks_in self.old.readings.frames [] ≡ Some (Fetches loc) → innermost_weight self.new.readings.frames < innermost_weight self.old.readings.frames }
        ensures count { length self.new.readings.frames ≡ length self.old.readings.frames }
        ensures frames { frames_weight self.new.readings.frames ≡ frames_weight self.old.readings.frames }
    {
        let value = self.input.value(loc);
        self.readings.fetched(value);
    }

    /// Ends the innermost reading with this value, with which the one beneath is fed; its list, where it has one with a token, goes there too.
    pub fn end(&mut self, value: Value)
        ensures stands { WhereDone self.old value (λ sizes book r rs. Stands sizes self.new (with_work (fed_with (Val value (value_tokens value (lists r.kind r.fed))) rs) book)) }
        ensures state { WhereDone self.old value (λ _ book r rs. made (Ended value (value_tokens value (lists r.kind r.fed))) (state_of self.old (with_work (r ∷ rs) book)) ≡ state_of self.new (with_work (fed_with (Val value (value_tokens value (lists r.kind r.fed))) rs) book)) }
        ensures same { SameBut self.old self.new }
        ensures weight { innermost_weight self.new.readings.frames < value_frame + value_weight }
        ensures count { self.new.readings.frames ≡ [] → innermost_weight self.new.readings.frames ≡ 0 }
        ensures fewer { length self.new.readings.frames ≡ length self.old.readings.frames - 1 }
        ensures frames { frames_weight self.new.readings.frames ≡ frames_weight (drop 1 self.old.readings.frames) }
    {
        let listed = self.readings.end();
        let is_empty = self.is_value_empty(value, listed);
        let kept = self.readings.feed_value(value, is_empty);
        if listed && !kept {
            self.drop_top();
        }
    }

    /// Ends the innermost reading without a value, a call, where one gathers its arguments, and else a frame; its lists go.
    pub fn close_reading(&mut self)
        ensures ends { DoesInnermost (Unit {0}) Went self.old self.new (λ _. Closed ∷ []) 0 }
        ensures light { (call : Call) → call_in self.old.input.call ≡ Some call → wants_token (asks_now self.old) ≡ false → weight self.new < weight self.old }
        ensures stands { WhereOpen self.old (λ sizes book _ rs. Stands sizes self.new (with_work rs book)) }
        ensures state { WhereOpen self.old (λ _ book r rs. made Closed (state_of self.old (with_work (r ∷ rs) book)) ≡ state_of self.new (with_work rs book)) }
        ensures same { self.old.input.call ≡ NotCalling → SameBut self.old self.new }
        ensures others { SameElse self.old self.new }
        ensures pending { self.new.input.pending ≡ self.old.input.pending }
        ensures idle { self.new.input.making ≡ self.old.input.making }
        ensures weight { innermost_weight self.new.readings.frames < act_frame + act_weight }
        ensures fewer { length self.new.readings.frames ≡ length self.old.readings.frames - 1 }
        ensures frames { frames_weight self.new.readings.frames ≡ frames_weight (drop 1 self.old.readings.frames) }
        ensures beneath { self.new.readings.frames ≡ drop 1 self.old.readings.frames }
        ensures buffer { self.new.input.buffer ≡ self.old.input.buffer }
        ensures stopped { self.new.stopped ≡ self.old.stopped }
    {
        if self.input.is_calling() {
            self.input.drop_call();
            self.readings.end();
            return;
        }
        if self.readings.end() {
            self.drop_top();
        }
    }

    /// Begins the list of a reading, if it has one from the beginning.
    fn begin_list(&mut self, opening: Opening) -> Result<(), Full>
        ensures ok { OnOk result (self.new ≡ record self.old { input = record self.old.input { builds = opened_lists opening self.old.input.builds; lists = self.new.input.lists } }) }
        ensures fits { OnOk result (refused self.old.input.sizes (memory (length (opened_lists opening [])) (stored_words self.old.input) ∷ []) ≡ None) }
        ensures refused { IfErr result (λ full. refused self.old.input.sizes (memory (length (opened_lists opening [])) (stored_words self.old.input) ∷ []) ≡ Some full) }
        ensures keeps { KeepsShared self.old.input self.new.input }
        ensures err { OnErr result (self.new ≡ self.old) }
    {
        match opening {
            Opening::Reads(Phrase::Text(..) | Phrase::Definition(..))
            | Opening::Spelling(_)
            | Opening::FileName(_) => self.input.begin_list(),
            _ => {
                // What is used of the main memory is at most its size.
                let _used = self.input.words();
                Ok(())
            }
        }
    }

    /// Why there is no room for the list of a reading, if it has one from the beginning, with these tokens.
    fn list_refusal(&self, opening: Opening, grown: Grown) -> Option<Full>
        ensures { result ≡ refused self.now.sizes (memory (length (opened_lists opening []) + token_count grown) (stored_words self.now.input) ∷ []) }
    {
        let need = list_need(opening) + token_need(grown);
        let used = self.input.words();
        let size = self.sizes.main_memory_size;
        if u64::from(used) + u64::from(need) <= u64::from(size) {
            return None;
        }
        Some(Full {
            table: Table::MainMemorySize,
            used,
            size,
        })
    }

    /// Begins the list of a reading, if it has one from the beginning, with these tokens. There is room for it.
    fn begin_grown(&mut self, opening: Opening, grown: Grown)
        ensures only { self.new ≡ record self.old { input = record self.old.input { builds = self.new.input.builds; lists = self.new.input.lists } } }
        ensures keeps { KeepsShared self.old.input self.new.input }
        ensures grows { WhereSound self.old (λ _. self.old.input.call ≡ NotCalling → HasTop opening grown → refused self.old.sizes (memory (length (opened_lists opening []) + token_count grown) (stored_words self.old.input) ∷ []) ≡ None → self.new.input.builds ≡ on_top grown (opened_lists opening self.old.input.builds)) }
    {
        let _begun = self.begin_list(opening);
        let _grown = self.take(grown);
    }

    /// Whether the main memory has room for two tokens, the most that a frame gives at once.
    fn has_room(&self) -> bool
        ensures { MatchBool result (stored_words self.now.input + 2 ≤ self.now.sizes.main_memory_size) (self.now.sizes.main_memory_size < stored_words self.now.input + 2) }
    {
        let used = self.input.words();
        u64::from(used) + 2 <= u64::from(self.sizes.main_memory_size)
    }

    /// The innermost frame, where the main memory may be full before it is fed.
    fn frame_at_risk(&self) -> Option<Frame>
        ensures { IsKept result self.now }
    {
        if self.has_room() {
            return None;
        }
        self.readings.innermost()
    }

    /// The list on top gets these tokens, if there is one.
    #[inline(always)]
    fn take(&mut self, grown: Grown) -> Result<(), Full>
        ensures ok { OnOk result (self.new ≡ record self.old { input = record self.old.input { builds = with_tokens grown self.old.input.builds; lists = self.new.input.lists } }) }
        ensures only { self.new ≡ record self.old { input = record self.old.input { builds = self.new.input.builds; lists = self.new.input.lists } } }
        ensures keeps { KeepsShared self.old.input self.new.input }
        ensures fits { OnOk result (TokensFit grown self.old.input) }
        ensures err { IfErr result (λ full. TokensCut grown full self.old self.new) }
    {
        self.grow(grown.first)?;
        self.grow(grown.second)?;
        Ok(())
    }

    /// A token, if there is one, goes onto the list on top, if there is one.
    #[inline(always)]
    fn grow(&mut self, token: Option<Token>) -> Result<(), Full>
        ensures ok { OnOk result (self.new ≡ record self.old { input = record self.old.input { builds = with_token token self.old.input.builds; lists = self.new.input.lists } }) }
        ensures keeps { KeepsShared self.old.input self.new.input }
        ensures fits { OnOk result (IsSome token → (self.old.input.builds ≡ [] → ⊥) → refused self.old.input.sizes (memory 1 (stored_words self.old.input) ∷ []) ≡ None) }
        ensures grows { OnErr result (IsSome token × (self.old.input.builds ≡ [] → ⊥)) }
        ensures refused { IfErr result (λ full. refused self.old.input.sizes (memory 1 (stored_words self.old.input) ∷ []) ≡ Some full) }
        ensures err { OnErr result (self.new ≡ self.old) }
    {
        match token {
            Some(token) if self.input.has_list() => self.input.grow_list(token),
            _ => Ok(()),
        }
    }

    /// Whether the value of a reading has no token; the list on top may be its own.
    fn is_value_empty(&self, value: Value, listed: bool) -> bool
        ensures { result ≡ has_no_token (value_tokens value (listed_lists listed self.now.input.builds)) }
    {
        match value {
            Value::List if listed && self.input.has_list() => self.input.is_list_empty(),
            _ => true,
        }
    }

    /// The list on top goes, if there is one.
    fn drop_top(&mut self)
        ensures after { self.new ≡ record self.old { input = record self.old.input { builds = drop 1 self.old.input.builds; lists = self.new.input.lists } } }
        ensures keeps { KeepsShared self.old.input self.new.input }
    {
        if self.input.has_list() {
            self.input.drop_list();
        }
    }
}
