// All open readings.
ghost use Rattle.std.specs.Prelude.{◌≡◌, ◌≤◌, ◌<◌, ◌+◌, ◌-◌, ◌*◌, ◌^◌, List, [], ◌∷◌, ◌++◌, drop, length, reverse, true, false, IfOk, IfErr, IfSome, OnOk, MatchBool, None};
ghost use Rattle.tex_defs.specs.declared.Token.{Token};
ghost use Rattle.rows.specs.declared.words.Value.TheVariants as value_of;
ghost use Rattle.equivalents.specs.declared.values.Loc.{Loc};
ghost use Rattle.rows.specs.Readings.{Fed, Tok, Noted, Val, Fetched, Fetches};
ghost use Rattle.plain_readings.specs.Readings.{Reading, lists, opened, opened_with, fed_with};
ghost use Rattle.plain_readings.specs.Scanning.{scanning};
ghost use Rattle.plain_readings.specs.Weights.{value_frame, act_frame, value_weight, act_weight};
ghost use Rattle.reading_frames.specs.Views.{has_no_token, reading_kind, IsFetchedAt, Lists, on_top};
ghost use Rattle.reading_frames.specs.Resumes.{with_list, listed_count, token_count, Owns};
ghost use Rattle.reading_frames.specs.Frames.{AreFramesOf, AreShallow, opened_lists};
ghost use Rattle.reading_frames.specs.Stack.{Stack, innermost_body, AsksCopied, depth_full, asks_in, asked_in, asked_of, innermost_groups, innermost_count, innermost_lists, innermost_of, with_innermost, lists_beneath, found_in, innermost_found, scanning_of, call_begun, reading_ended};
ghost use Rattle.reading_frames.specs.declared.ask.Ask.TheVariants as asks;
ghost use Rattle.reading_frames.specs.Weights.{frames_weight, opening_frame, opening_end, innermost_weight, innermost_end, innermost_fed, innermost_puts, begun_weight, begun_with_weight, IsReported};

use crate::ask::{Ask, Found, Grown, Opening};
use crate::frame::{Frame, of_list};
use equivalents::Val as StoredValue;
use rows::Value;
use std::alloc::{AllocError, Global};
use std::marker::Model;
use tex_defs::{Full, Name, Seen, Table};
use tex_syntax::Want;

/// All open readings, the innermost apart, and room for as many as the expansion depth.
///
/// The lists that they hold stand elsewhere, with the tokens that they get put there by whoever feeds them.
#[derive(Drop)]
pub struct Readings {
    innermost: Option<Frame>,
    /// The outermost first.
    beneath: Vec<Frame>,
    size: u32,
}

impl Model for Readings {
    ghost use Rattle.std.specs.Prelude.{reverse, vec_capacity};
    ghost use Rattle.reading_frames.specs.Stack.{Stack, frames_of, IsRoomy};

    ghost Value = { Stack };

    ghost view = { λ r. record { frames = frames_of r.innermost (reverse r.beneath.items); size = r.size } };

    ghost invariant = { λ r. IsRoomy r.innermost r.beneath.items r.size (vec_capacity r.beneath) };
}

/// What is being read in the innermost of these, the outermost first, that is read at a check; so many lists are held within.
#[tactic(auto, using(crate::proofs::Scanning::passes, crate::proofs::Scanning::taken_all))]
fn scanned_among(frames: &[Frame], within: u32) -> Option<Found>
    requires { within + length frames.now < 2 ^ 32 }
    ensures { result ≡ innermost_found (reverse frames.now) within }
{
    let mut number = within;
    for i in (0..frames.len()).rev() {
        let frame = &frames[i];
        if let Some(found) = frame.scanned(number) {
            return Some(found);
        }
        number += frame.list_count();
    }
    None
}

impl Readings {
    /// None is open, and there is room for `size` of them.
    ///
    /// # Errors
    /// There is no room for them. No other call takes memory.
    pub fn new(alloc: Global, size: u32) -> Result<Readings, AllocError>
        ensures { IfOk result (λ readings. readings ≡ record { frames = []; size = size }) }
    {
        let beneath = Vec::with_capacity(alloc, size as usize)?;
        Ok(Readings {
            innermost: None,
            beneath,
            size,
        })
    }

    /// How many are open.
    #[tactic(auto, using(crate::proofs::Stacks::count_reversed))]
    pub fn count(&self) -> u32
        ensures is { result ≡ length self.now.frames }
        ensures within { result ≤ self.now.size }
    {
        match self.innermost {
            None => 0,
            Some(_) => self.beneath.len() as u32 + 1,
        }
    }

    /// The innermost, if one is open.
    pub fn innermost(&self) -> Option<Frame>
        ensures { result ≡ innermost_of self.now.frames }
    {
        self.innermost
    }

    /// This frame takes the place of the innermost, if one is open.
    pub fn restore(&mut self, frame: Option<Frame>)
        ensures { self.new ≡ record { frames = with_innermost frame self.old.frames; size = self.old.size } }
    {
        if frame.is_some() && self.innermost.is_some() {
            self.innermost = frame;
        }
    }

    /// Whether fewer than 2^64 - 1 groups are open in the list of the innermost, so that it may be fed.
    pub fn has_few_groups(&self) -> bool
        ensures { MatchBool result (innermost_groups self.now.frames + 1 < 2 ^ 64) (2 ^ 64 ≤ innermost_groups self.now.frames + 1) }
    {
        match &self.innermost {
            None => true,
            Some(frame) => frame.groups() < usize::MAX,
        }
    }

    /// Whether the innermost is an expanded text or the body of an expanded macro, which asks for a token that is copied.
    pub fn copies(&self) -> bool
        ensures asks { (held : Lists) → MatchBool result (AsksCopied (asks_in self.now.frames held)) (AsksCopied (asks_in self.now.frames held) → ⊥) }
        ensures stands { (held : Lists) (work : List Reading) → AreFramesOf None self.now.frames held work → MatchBool result (AsksCopied (asked_in work)) (AsksCopied (asked_in work) → ⊥) }
    {
        matches!(self.ask(), Some(Ask::More(Want::Copied)))
    }

    /// What the innermost asks for, where the next token of the body itself is wanted, of a text or of a macro. Most tokens of lists that are built
    /// come there.
    #[inline(always)]
    pub fn body_want(&self) -> Option<Want>
        ensures is { result ≡ innermost_body self.now.frames }
        ensures asks { IfSome result (λ want. (held : Lists) → asked_of held (Some (asks.More want)) ≡ asks_in self.now.frames held) }
        ensures stands { IfSome result (λ want. (held : Lists) (work : List Reading) → AreFramesOf None self.now.frames held work → asked_of held (Some (asks.More want)) ≡ asked_in work) }
    {
        let Some(frame) = &self.innermost else {
            return None;
        };
        if let Frame::Build(scan) = frame {
            return scan.next_in_body();
        }
        None
    }

    /// What the innermost asks for.
    pub fn ask(&self) -> Option<Ask>
        ensures asks { (held : Lists) → asked_of held result ≡ asks_in self.now.frames held }
        ensures stands { (held : Lists) (work : List Reading) → AreFramesOf None self.now.frames held work → asked_of held result ≡ asked_in work }
        ensures least { IfSome result (λ a. 1 ≤ length self.now.frames) }
        ensures owns { IfSome result (λ a. Owns a (innermost_count self.now.frames)) }
        ensures found { IfSome result (λ a. IsFetchedAt a) }
    {
        let Some(frame) = &self.innermost else {
            return None;
        };
        // Each token of a text comes here.
        if let Frame::Build(scan) = frame {
            return Some(of_list(scan.ask()));
        }
        Some(frame.ask())
    }

    /// A call of the macro of this name begins.
    ///
    /// # Errors
    /// As many are open as there may be. Nothing has changed then.
    pub fn begin_call(&mut self, name: Name) -> Result<(), Full>
        ensures begins { OnOk result (self.new ≡ call_begun name self.old) }
        ensures room { OnOk result (length self.old.frames < self.old.size) }
        ensures full { IfErr result (λ full. full ≡ depth_full self.old) }
        ensures refused { IfErr result (λ full. length self.old.frames ≡ self.old.size) }
        ensures unchanged { IfErr result (λ full. self.new ≡ self.old) }
    {
        self.push(Frame::Call(name))
    }

    /// This frame stands above all.
    fn push(&mut self, frame: Frame) -> Result<(), Full>
        ensures begins { OnOk result (self.new ≡ record { frames = frame ∷ self.old.frames; size = self.old.size }) }
        ensures room { OnOk result (length self.old.frames < self.old.size) }
        ensures full { IfErr result (λ full. full ≡ depth_full self.old) }
        ensures refused { IfErr result (λ full. length self.old.frames ≡ self.old.size) }
        ensures unchanged { IfErr result (λ full. self.new ≡ self.old) }
    {
        let used = self.count();
        if used == self.size {
            return Err(Full {
                table: Table::ExpansionDepth,
                used,
                size: self.size,
            });
        }
        if let Some(beneath) = self.innermost {
            self.beneath.push_reserved(beneath);
        }
        self.innermost = Some(frame);
        Ok(())
    }

    /// One more begins; one that builds a list has one of no token on top.
    ///
    /// # Errors
    /// As many are open as there may be. Nothing has changed then.
    pub fn begin(&mut self, opening: Opening) -> Result<(), Full>
        ensures begins { OnOk result ((held : Lists) (work : List Reading) → AreFramesOf None self.old.frames held work → AreFramesOf None self.new.frames (opened_lists opening held) (opened (reading_kind opening) work)) }
        ensures shallow { OnOk result ((held : Lists) → AreShallow self.old.frames held → AreShallow self.new.frames (opened_lists opening held)) }
        ensures room { OnOk result (length self.old.frames < self.old.size) }
        ensures count { OnOk result (length self.new.frames ≡ length self.old.frames + 1) }
        ensures frames { OnOk result (frames_weight self.new.frames ≡ frames_weight self.old.frames + opening_frame opening) }
        ensures size { self.new.size ≡ self.old.size }
        ensures weight { OnOk result (innermost_weight self.new.frames ≤ begun_weight opening) }
        ensures ends { OnOk result (innermost_end self.new.frames ≡ opening_end opening) }
        ensures fed { OnOk result (innermost_fed self.new.frames ≤ begun_with_weight opening) }
        ensures groups { OnOk result (innermost_groups self.new.frames ≡ 0) }
        ensures unread { OnOk result (innermost_puts self.new.frames ≡ 0) }
        ensures rest { OnOk result (drop 1 self.new.frames ≡ self.old.frames) }
        ensures builds { OnOk result ((held : Lists) (fed : List Fed) → lists (reading_kind opening) fed ≡ innermost_lists self.new.frames (opened_lists opening held) fed) }
        ensures beneath { OnOk result ((held : Lists) → lists_beneath self.new.frames (opened_lists opening held) ≡ held) }
        ensures holds { OnOk result ((held : Lists) → innermost_count self.new.frames ≤ length (opened_lists opening held)) }
        ensures lists { OnOk result ((held : Lists) → lists (reading_kind opening) [] ++ held ≡ opened_lists opening held) }
        ensures full { IfErr result (λ full. full ≡ depth_full self.old) }
        ensures refused { IfErr result (λ full. length self.old.frames ≡ self.old.size) }
        ensures unchanged { IfErr result (λ full. self.new ≡ self.old) }
    {
        self.push(Frame::begin(opening))
    }

    /// One more begins with this token, as `begin` and `feed` do it.
    ///
    /// # Errors
    /// As many are open as there may be. Nothing has changed then.
    pub fn begin_with(&mut self, opening: Opening, x: Seen) -> Result<Grown, Full>
        ensures begins { IfOk result (λ grown. (held : Lists) (work : List Reading) → AreFramesOf None self.old.frames held work → AreFramesOf None self.new.frames (on_top grown (opened_lists opening held)) (opened_with (reading_kind opening) (Tok x) work)) }
        ensures shallow { IfOk result (λ grown. (held : Lists) → AreShallow self.old.frames held → AreShallow self.new.frames (on_top grown (opened_lists opening held))) }
        ensures room { OnOk result (length self.old.frames < self.old.size) }
        ensures count { OnOk result (length self.new.frames ≡ length self.old.frames + 1) }
        ensures frames { OnOk result (frames_weight self.new.frames ≡ frames_weight self.old.frames + opening_frame opening) }
        ensures size { self.new.size ≡ self.old.size }
        ensures weight { OnOk result (innermost_weight self.new.frames ≤ begun_with_weight opening) }
        ensures ends { OnOk result (innermost_end self.new.frames ≡ opening_end opening) }
        ensures read { OnOk result (innermost_puts self.new.frames ≤ 1) }
        ensures rest { OnOk result (drop 1 self.new.frames ≡ self.old.frames) }
        ensures beneath { IfOk result (λ grown. (held : Lists) → lists_beneath self.new.frames (on_top grown (opened_lists opening held)) ≡ held) }
        ensures lists { IfOk result (λ grown. (held : Lists) → lists (reading_kind opening) (Tok x ∷ []) ++ held ≡ on_top grown (opened_lists opening held)) }
        ensures listed { IfOk result (λ grown. 1 ≤ token_count grown → (held : Lists) → opened_lists opening held ≡ [] ∷ held) }
        ensures full { IfErr result (λ full. full ≡ depth_full self.old) }
        ensures refused { IfErr result (λ full. length self.old.frames ≡ self.old.size) }
        ensures unchanged { IfErr result (λ full. self.new ≡ self.old) }
    {
        match self.begin(opening) {
            Ok(()) => Ok(self.feed(x)),
            Err(full) => Err(full),
        }
    }

    /// The innermost takes a token. Fewer than 2^64 - 1 groups are open in the list that it builds.
    #[inline(always)]
    pub fn feed(&mut self, x: Seen) -> Grown
        requires { innermost_groups self.old.frames + 1 < 2 ^ 64 }
        ensures ends { innermost_end self.new.frames ≡ innermost_end self.old.frames }
        ensures weight { innermost_weight self.new.frames ≤ innermost_fed self.old.frames }
        ensures stands { (held : Lists) (work : List Reading) → AreFramesOf None self.old.frames held work → AreFramesOf None self.new.frames (on_top result held) (fed_with (Tok x) work) }
        ensures count { length self.new.frames ≡ length self.old.frames }
        ensures frames { frames_weight self.new.frames ≡ frames_weight self.old.frames }
        ensures size { self.new.size ≡ self.old.size }
        ensures shallow { (held : Lists) → AreShallow self.old.frames held → AreShallow self.new.frames (on_top result held) }
        ensures rest { drop 1 self.new.frames ≡ drop 1 self.old.frames }
        ensures built { (held : Lists) → innermost_lists self.old.frames held (Tok x ∷ []) ≡ innermost_lists self.new.frames (on_top result held) [] }
        ensures beneath { (held : Lists) → lists_beneath self.new.frames (on_top result held) ≡ lists_beneath self.old.frames held }
        ensures holds { (held : Lists) → innermost_count self.old.frames ≤ length held → innermost_count self.new.frames ≤ length (on_top result held) }
        ensures listed { 1 ≤ token_count result → innermost_count self.old.frames ≡ 1 }
        ensures read { innermost_puts self.new.frames ≤ innermost_puts self.old.frames + 1 }
    {
        match self.innermost.as_mut() {
            None => Grown::none(),
            Some(frame) => frame.feed(x),
        }
    }

    /// The innermost goes on behind its report, the token that was put back, the name that became `\relax` or the magnification that was checked.
    pub fn noted(&mut self) -> Grown
        ensures ends { innermost_end self.new.frames ≡ innermost_end self.old.frames }
        ensures weight { IsReported (asks_in self.old.frames []) → innermost_weight self.new.frames < innermost_weight self.old.frames }
        ensures stands { (held : Lists) (work : List Reading) → AreFramesOf None self.old.frames held work → AreFramesOf None self.new.frames (on_top result held) (fed_with Noted work) }
        ensures count { length self.new.frames ≡ length self.old.frames }
        ensures frames { frames_weight self.new.frames ≡ frames_weight self.old.frames }
        ensures size { self.new.size ≡ self.old.size }
        ensures shallow { (held : Lists) → AreShallow self.old.frames held → AreShallow self.new.frames (on_top result held) }
        ensures rest { drop 1 self.new.frames ≡ drop 1 self.old.frames }
        ensures built { (held : Lists) → innermost_lists self.old.frames held (Noted ∷ []) ≡ innermost_lists self.new.frames (on_top result held) [] }
        ensures beneath { (held : Lists) → lists_beneath self.new.frames (on_top result held) ≡ lists_beneath self.old.frames held }
        ensures holds { (held : Lists) → innermost_count self.old.frames ≤ length held → innermost_count self.new.frames ≤ length (on_top result held) }
        ensures listed { 1 ≤ token_count result → innermost_count self.old.frames ≡ 1 }
    {
        let Some(frame) = self.innermost.as_mut() else {
            return Grown::none();
        };
        frame.noted()
    }

    /// The innermost takes the value of the reading that ended above it, and says whether it keeps the list that came with it, which may
    /// have no token: if so, that is on top.
    pub fn feed_value(&mut self, value: Value, is_empty: bool) -> bool
        ensures stands { (ts : List Token) → is_empty ≡ has_no_token ts → (held : Lists) (work : List Reading) → AreFramesOf None self.old.frames held work → AreFramesOf None self.new.frames (with_list result ts held) (fed_with (Val value ts) work) }
        ensures kept { result ≡ true → is_empty ≡ false }
        ensures list { result ≡ true → value ≡ value_of.List }
        ensures ends { innermost_end self.new.frames ≡ innermost_end self.old.frames }
        ensures weight { innermost_weight self.new.frames < value_frame + value_weight }
        ensures count { length self.new.frames ≡ length self.old.frames }
        ensures frames { frames_weight self.new.frames ≡ frames_weight self.old.frames }
        ensures size { self.new.size ≡ self.old.size }
        ensures shallow { (ts : List Token) (held : Lists) → AreShallow self.old.frames held → AreShallow self.new.frames (with_list result ts held) }
        ensures beneath { (ts : List Token) (held : Lists) → lists_beneath self.new.frames (with_list result ts held) ≡ lists_beneath self.old.frames held }
    {
        match self.innermost.as_mut() {
            None => false,
            Some(frame) => frame.feed_value(value, is_empty),
        }
    }

    /// The innermost takes what stands at the location for which it asked.
    pub fn fetched(&mut self, value: StoredValue<()>)
        ensures ends { innermost_end self.new.frames ≡ innermost_end self.old.frames }
        ensures weight { (l : Loc) → asks_in self.old.frames [] ≡ Some (Fetches l) → innermost_weight self.new.frames < innermost_weight self.old.frames }
        ensures stands { (held : Lists) (work : List Reading) → AreFramesOf None self.old.frames held work → AreFramesOf None self.new.frames held (fed_with (Fetched value) work) }
        ensures count { length self.new.frames ≡ length self.old.frames }
        ensures frames { frames_weight self.new.frames ≡ frames_weight self.old.frames }
        ensures size { self.new.size ≡ self.old.size }
        ensures shallow { (held : Lists) → AreShallow self.old.frames held → AreShallow self.new.frames held }
        ensures rest { drop 1 self.new.frames ≡ drop 1 self.old.frames }
        ensures beneath { (held : Lists) → lists_beneath self.new.frames held ≡ lists_beneath self.old.frames held }
    {
        if let Some(frame) = self.innermost.as_mut() {
            frame.fetched(value);
        }
    }

    /// Whether the list on top is one of the innermost's own.
    pub fn has_list(&self) -> bool
        ensures { listed_count result ≡ innermost_count self.now.frames }
    {
        match &self.innermost {
            None => false,
            Some(frame) => frame.list_count() == 1,
        }
    }

    /// The innermost ends, and says whether the list on top was its own; if so, that goes.
    #[tactic(auto, using(crate::proofs::Weights::small))]
    pub fn end(&mut self) -> bool
        ensures list { listed_count result ≡ innermost_count self.old.frames }
        ensures stands { (held : Lists) (work : List Reading) → AreFramesOf None self.old.frames held work → AreFramesOf None self.new.frames (lists_beneath self.old.frames held) (drop 1 work) }
        ensures shallow { (held : Lists) → AreShallow self.old.frames held → AreShallow self.new.frames (lists_beneath self.old.frames held) }
        ensures count { length self.new.frames ≡ length self.old.frames - 1 }
        ensures frames { frames_weight self.new.frames ≡ frames_weight (drop 1 self.old.frames) }
        ensures rest { self.new ≡ reading_ended self.old }
        ensures weight { innermost_weight self.new.frames < act_frame + act_weight }
    {
        let has_list = self.has_list();
        self.innermost = self.beneath.pop();
        has_list
    }

    /// What is being read where a file ends or the name of an `\outer` macro comes: the innermost text or definition, or text that is skipped.
    #[tactic(auto, using(crate::proofs::Scanning::scans, crate::proofs::Scanning::unguarded_found, crate::proofs::Scanning::beneath_found))]
    pub fn scanned(&self) -> Option<Found>
        ensures is { result ≡ found_in self.now.frames }
        ensures scans { (held : Lists) (work : List Reading) → AreFramesOf None self.now.frames held work → scanning work held ≡ scanning_of held result }
    {
        let Some(frame) = &self.innermost else {
            return None;
        };
        if frame.is_unguarded() {
            return None;
        }
        match frame.scanned(0) {
            Some(found) => Some(found),
            None => scanned_among(&self.beneath, frame.list_count()),
        }
    }
}
