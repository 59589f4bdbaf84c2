// An open reading, in a few variables.
ghost use Rattle.std.specs.Prelude.{◌≡◌, ◌≤◌, ◌<◌, ◌+◌, ◌^◌, List, [], ◌∷◌, length, true, false, None};
ghost use Rattle.tex_defs.specs.declared.Token.{Token};
ghost use Rattle.rows.specs.declared.words.Value.TheVariants as value_of;
ghost use Rattle.equivalents.specs.declared.values.Loc.{Loc as Location};
ghost use Rattle.rows.specs.Readings.{Fed, Tok, Noted, Val, Fetched, Fetches};
ghost use Rattle.rows.specs.Commands.{command_ask};
ghost use Rattle.reading_frames.specs.Views.{ask_of, file_ask, has_no_token, list_ask, listed_ask, reading_kind, skip_ask, spell_ask, IsFetchedAt, Lists, on_top, top_list};
ghost use Rattle.reading_frames.specs.Frames.{Begins, opened_lists};
ghost use Rattle.reading_frames.specs.Resumes.{asked_count, command_count, resume, resume_command, building, list_count, below, frame_status, groups, is_call, read_at, reads_unguarded, token_count, with_list, Owns};
ghost use Rattle.reading_frames.specs.Weights.{asks_weight, begun_weight, begun_with_weight, fed_weight, frame_end, opening_end, opening_frame, own_weight, put_count};
ghost use Rattle.plain_readings.specs.Integers.{number_ask};
ghost use Rattle.plain_readings.specs.Factors.{factor_ask};
ghost use Rattle.plain_readings.specs.Keywords.{keyword_ask};
ghost use Rattle.plain_readings.specs.Measures.{dimen_ask, dimen_inner, glue_ask, glue_inner};
ghost use Rattle.plain_readings.specs.Weights.{value_frame, value_weight, IsNoted};
ghost use Rattle.scan_numbers.specs.Views as numbers;
ghost use Rattle.scan_numbers.specs.FactorViews as factors;
ghost use Rattle.scan_dimens.specs.DimenViews as dimens;
ghost use Rattle.scan_glue.specs.GlueViews as glues;

use crate::ask::{Ask, Found, Grown, Opening};
use crate::command::{CommandScan, ListedAsk};
use crate::file_name::{FileAsk, FileScan};
use crate::skip::{SkipAsk, SkipScan};
use crate::spelling::{SpellAsk, SpellScan};
use crate::text::{BuildScan, ListAsk};
use conditionals::Aim;
use equivalents::Val as StoredValue;
use plain_readings::{DimenAsk, DimenInner, FactorAsk, GlueAsk, GlueInner, KeywordAsk, NumberAsk};
use row_frames::reads_under_normal;
use rows::{Call, Datum, Effect, Head, Phrase, Value};
use scan_dimens::{DimenScan, KeywordScan};
use scan_glue::GlueScan;
use scan_numbers::{FactorScan, NumberScan};
use tex_defs::{Name, Seen};
use tex_syntax::{Report, Want};

/// An open reading.
#[derive(Clone, Copy)]
pub enum Frame {
    /// A command or an expansion, by its row, and what the name means that began.
    Command(CommandScan, Head),
    Integer(NumberScan),
    /// The integer before a fraction.
    Factor(FactorScan),
    Dimension(DimenScan),
    Glue(GlueScan),
    /// An optional keyword.
    Keyword(KeywordScan),
    /// A balanced text, or the list of a macro.
    Build(BuildScan),
    /// `\csname`.
    Spelling(SpellScan),
    /// `\input`.
    FileName(FileScan),
    /// A token that waits behind one that is expanded, and is put back then.
    Behind(Call, Seen),
    /// Text that a conditional skips.
    Skips(SkipScan),
    /// A call of the macro of this name. How far its arguments are gathered, and so what it asks for, stands where the lists do, since it has places
    /// among them: the frame is its place on the stack.
    Call(Name),
}

// What an integer's scanner asks for.
fn of_number(asked: NumberAsk) -> Ask
    ensures is { (held : Lists) → ask_of held result ≡ number_ask asked }
    ensures owns { Owns result 0 }
    ensures found { numbers.IsFetchedAt asked → IsFetchedAt result }
{
    match asked {
        NumberAsk::More(want) => Ask::More(want),
        NumberAsk::Begins => Ask::Inner(Phrase::Integer, false),
        NumberAsk::Fetches(loc) => Ask::Fetches(loc),
        NumberAsk::Tells(report, back) => Ask::Tells(report, back),
        NumberAsk::Done(n, back) => Ask::Done(Value::Plain(Datum::Number(n)), back),
    }
}

// What the scanner of a factor asks for.
fn of_factor(asked: FactorAsk) -> Ask
    ensures is { (held : Lists) → ask_of held result ≡ factor_ask asked }
    ensures owns { Owns result 0 }
    ensures found { factors.IsFetchedAt asked → IsFetchedAt result }
{
    match asked {
        FactorAsk::More(want) => Ask::More(want),
        FactorAsk::Begins => Ask::Inner(Phrase::Integer, false),
        FactorAsk::Fetches(loc) => Ask::Fetches(loc),
        FactorAsk::Tells(report, back) => Ask::Tells(report, back),
        FactorAsk::Done(n, point, back) => Ask::Done(Value::Plain(Datum::Factor(n, point)), back),
    }
}

// What a dimension reads within.
fn dimen_kind(inner: DimenInner) -> Phrase
    ensures { result ≡ dimen_inner inner }
{
    match inner {
        DimenInner::Factor => Phrase::Factor,
        DimenInner::Number => Phrase::Integer,
        DimenInner::Key(keyword) => Phrase::Keyword(keyword),
    }
}

// What a dimension's scanner asks for.
fn of_dimension(asked: DimenAsk) -> Ask
    ensures is { (held : Lists) → ask_of held result ≡ dimen_ask asked }
    ensures owns { Owns result 0 }
    ensures found { dimens.IsFetchedAt asked → IsFetchedAt result }
{
    match asked {
        DimenAsk::More(want) => Ask::More(want),
        DimenAsk::Begins(inner, begins) => Ask::Inner(dimen_kind(inner), begins),
        DimenAsk::Fetches(loc) => Ask::Fetches(loc),
        DimenAsk::Magnifies => Ask::Magnifies,
        DimenAsk::Tells(report, back) => Ask::Tells(report, back),
        DimenAsk::Done(n, order, back) => Ask::Done(Value::Plain(Datum::Dimension(n, order)), back),
    }
}

// What glue reads within.
fn glue_kind(inner: GlueInner) -> Phrase
    ensures { result ≡ glue_inner inner }
{
    match inner {
        GlueInner::Dimension(kind) => Phrase::Dimension(kind),
        GlueInner::Number => Phrase::Integer,
        GlueInner::Key(keyword) => Phrase::Keyword(keyword),
    }
}

// What the scanner of glue asks for.
fn of_glue(asked: GlueAsk) -> Ask
    ensures is { (held : Lists) → ask_of held result ≡ glue_ask asked }
    ensures owns { Owns result 0 }
    ensures found { glues.IsFetchedAt asked → IsFetchedAt result }
{
    match asked {
        GlueAsk::More(want) => Ask::More(want),
        GlueAsk::Begins(inner, begins) => Ask::Inner(glue_kind(inner), begins),
        GlueAsk::Fetches(loc) => Ask::Fetches(loc),
        GlueAsk::Tells(report) => Ask::Tells(report, false),
        GlueAsk::Done(glue) => Ask::Done(Value::Plain(Datum::Glue(glue)), false),
    }
}

// What a keyword's scanner asks for.
fn of_keyword(asked: KeywordAsk) -> Ask
    ensures is { (held : Lists) → ask_of held result ≡ keyword_ask asked }
    ensures owns { Owns result 0 }
    ensures found { IsFetchedAt result }
{
    match asked {
        KeywordAsk::More(want) => Ask::More(want),
        KeywordAsk::Puts(token, more) => Ask::Puts(token, more),
        KeywordAsk::Done(found) => Ask::Done(Value::Plain(Datum::Found(found)), false),
    }
}

// What the scanner of a list asks for.
#[inline(always)]
pub(crate) fn of_list(asked: ListAsk) -> Ask
    ensures is { (held : Lists) → ask_of held result ≡ list_ask asked }
    ensures owns { Owns result 1 }
    ensures found { IsFetchedAt result }
{
    match asked {
        ListAsk::More(want) => Ask::More(want),
        ListAsk::Tells(report, back) => Ask::Tells(report, back),
        ListAsk::Done => Ask::Done(Value::List, false),
    }
}

// What a command asks for.
#[inline(always)]
fn of_command(asked: ListedAsk) -> Ask
    ensures is { (held : Lists) → ask_of held result ≡ command_ask (listed_ask held asked) }
    ensures owns { Owns result (asked_count asked) }
    ensures found { IsFetchedAt result }
{
    match asked {
        ListedAsk::More(want) => Ask::More(want),
        ListedAsk::Inner(phrase, begins) => Ask::Inner(phrase, begins),
        ListedAsk::Acts(call, effect) => Ask::Acts(call, effect),
        ListedAsk::ActsOn(call, effect, listed) => Ask::ActsOn(call, effect, listed),
        ListedAsk::Defines(call, name, listed) => Ask::Defines(call, name, listed),
        ListedAsk::Ends => Ask::Ends,
        ListedAsk::Tells(report, back) => Ask::Tells(report, back),
        ListedAsk::Inserts(token, report, back) => Ask::Inserts(token, report, back),
        ListedAsk::Relaxes(call, name) => Ask::Relaxes(call, name),
    }
}

// What a command asks for where it stands.
// Not inlined, as `Frame::ask`.
#[inline(never)]
fn asked_by(scan: &CommandScan) -> Ask
    ensures is { (held : Lists) → ask_of held result ≡ command_ask (resume_command scan.now held []) }
    ensures owns { Owns result (command_count scan.now) }
    ensures found { IsFetchedAt result }
{
    of_command(scan.ask())
}

// What the scanner of `\csname` asks for; the list of its characters is on top.
fn of_spelling(call: Call, asked: SpellAsk) -> Ask
    ensures is { (held : Lists) → ask_of held result ≡ command_ask (spell_ask call (top_list held) asked) }
    ensures owns { Owns result 1 }
    ensures found { IsFetchedAt result }
{
    match asked {
        SpellAsk::More => Ask::More(Want::Expanded),
        SpellAsk::NoEnd => Ask::Tells(Report::MissingEndcsname, true),
        SpellAsk::Makes => Ask::ActsOn(call, Effect::MakeName, true),
        SpellAsk::Ends => Ask::Ends,
    }
}

// What the scanner of `\input` asks for; the list of the name's characters is on top.
fn of_file_name(call: Call, asked: FileAsk) -> Ask
    ensures is { (held : Lists) → ask_of held result ≡ command_ask (file_ask call (top_list held) asked) }
    ensures owns { Owns result 1 }
    ensures found { IsFetchedAt result }
{
    match asked {
        FileAsk::More(want) => Ask::More(want),
        FileAsk::Opens(back) => Ask::ActsOn(call, Effect::StartInput(back), true),
        FileAsk::Ends => Ask::Ends,
    }
}

// What skipped text asks for.
fn of_skip(call: Call, aim: Aim, asked: SkipAsk) -> Ask
    ensures is { (held : Lists) → ask_of held result ≡ command_ask (skip_ask call aim asked) }
    ensures owns { Owns result 0 }
    ensures found { IsFetchedAt result }
{
    match asked {
        SkipAsk::More => Ask::More(Want::Unentered),
        SkipAsk::Reaches(ender) => Ask::Acts(call, Effect::Reach(aim, ender)),
        SkipAsk::Ends => Ask::Ends,
    }
}

impl Frame {
    /// A reading begins; one that builds a list has one of no token on top.
    pub fn begin(opening: Opening) -> Frame
        ensures begins { (held : Lists) → Begins None (reading_kind opening) result held (opened_lists opening held) }
        ensures shallow { groups result ≡ 0 }
        ensures own { own_weight result ≡ opening_frame opening }
        ensures ends { frame_end result ≡ opening_end opening }
        ensures weight { asks_weight result ≤ begun_weight opening }
        ensures fed { fed_weight result ≤ begun_with_weight opening }
        ensures unread { put_count result ≡ 0 }
    {
        match opening {
            Opening::Reads(Phrase::Command(call)) => {
                Frame::Command(CommandScan::new(call), call.head)
            }
            Opening::Reads(Phrase::Integer) => Frame::Integer(NumberScan::new()),
            Opening::Reads(Phrase::Factor) => Frame::Factor(FactorScan::new()),
            Opening::Reads(Phrase::Dimension(kind)) => Frame::Dimension(DimenScan::new(kind)),
            Opening::Reads(Phrase::Glue(mu)) => Frame::Glue(GlueScan::new(mu)),
            Opening::Reads(Phrase::Keyword(word)) => Frame::Keyword(KeywordScan::new(word)),
            Opening::Reads(Phrase::Text(name, expanded)) => {
                Frame::Build(BuildScan::text(name, expanded))
            }
            Opening::Reads(Phrase::Definition(name, expanded)) => {
                Frame::Build(BuildScan::definition(name, expanded))
            }
            Opening::Spelling(call) => Frame::Spelling(SpellScan::new(call)),
            Opening::FileName(call) => Frame::FileName(FileScan::new(call)),
            Opening::Behind(call, x) => Frame::Behind(call, x),
            Opening::Skips(call, aim, line) => Frame::Skips(SkipScan::new(call, aim, line)),
        }
    }

    /// What it asks for where it stands.
    // Not inlined: the temporaries of all cases cost more than most of the cases.
    #[inline(never)]
    pub fn ask(&self) -> Ask
        ensures is { (held : Lists) → ask_of held result ≡ resume self.now held [] }
        ensures owns { Owns result (list_count self.now) }
        ensures found { IsFetchedAt result }
    {
        match self {
            Frame::Build(scan) => of_list(scan.ask()),
            Frame::Integer(scan) => of_number(scan.ask()),
            Frame::Command(scan, _) => asked_by(scan),
            Frame::Factor(scan) => of_factor(scan.ask()),
            Frame::Dimension(scan) => of_dimension(scan.ask()),
            Frame::Glue(scan) => of_glue(scan.ask()),
            Frame::Keyword(scan) => of_keyword(scan.ask()),
            Frame::Spelling(scan) => of_spelling(scan.call, scan.ask()),
            Frame::FileName(scan) => of_file_name(scan.call, scan.ask()),
            Frame::Behind(call, x) => Ask::Acts(*call, Effect::PutBack(*x)),
            Frame::Skips(scan) => of_skip(scan.call, scan.aim, scan.ask()),
            Frame::Call(_) => Ask::More(Want::Raw),
        }
    }

    /// Takes a token. Fewer than 2^64 - 1 groups are open in the list that it builds.
    #[inline(always)]
    #[tactic(auto, using(crate::proofs::Growing::top_grown, crate::proofs::Growing::beneath_grown, crate::proofs::Growing::grown_held))]
    pub fn feed(&mut self, x: Seen) -> Grown
        requires { groups self.old + 1 < 2 ^ 64 }
        ensures own { own_weight self.new ≡ own_weight self.old }
        ensures ends { frame_end self.new ≡ frame_end self.old }
        ensures weight { asks_weight self.new ≤ fed_weight self.old }
        ensures read { put_count self.new ≤ put_count self.old + 1 }
        ensures asks { (held : Lists) (fed : List Fed) → resume self.old held (Tok x ∷ fed) ≡ resume self.new (on_top result held) fed }
        ensures builds { (held : Lists) (fed : List Fed) → building self.old held (Tok x ∷ fed) ≡ building self.new (on_top result held) fed }
        ensures holds { (held : Lists) → list_count self.old ≤ length held → list_count self.new ≤ length (on_top result held) }
        ensures beneath { (held : Lists) → below self.new (on_top result held) ≡ below self.old held }
        ensures checks { frame_status self.new ≡ frame_status self.old }
        ensures apart { is_call self.new ≡ is_call self.old }
        ensures shallow { groups self.new ≤ groups self.old + token_count result }
        ensures listed { 1 ≤ token_count result → list_count self.old ≡ 1 }
    {
        // Each token of a text comes here.
        if let Frame::Build(scan) = self {
            return scan.feed(x);
        }
        self.feed_other(x)
    }

    // The same, where it may be any frame.
    #[inline(never)]
    #[tactic(auto, using(crate::proofs::Growing::top_grown, crate::proofs::Growing::beneath_grown, crate::proofs::Growing::grown_held))]
    fn feed_other(&mut self, x: Seen) -> Grown
        requires { groups self.old + 1 < 2 ^ 64 }
        ensures own { own_weight self.new ≡ own_weight self.old }
        ensures ends { frame_end self.new ≡ frame_end self.old }
        ensures weight { asks_weight self.new ≤ fed_weight self.old }
        ensures read { put_count self.new ≤ put_count self.old + 1 }
        ensures asks { (held : Lists) (fed : List Fed) → resume self.old held (Tok x ∷ fed) ≡ resume self.new (on_top result held) fed }
        ensures builds { (held : Lists) (fed : List Fed) → building self.old held (Tok x ∷ fed) ≡ building self.new (on_top result held) fed }
        ensures holds { (held : Lists) → list_count self.old ≤ length held → list_count self.new ≤ length (on_top result held) }
        ensures beneath { (held : Lists) → below self.new (on_top result held) ≡ below self.old held }
        ensures checks { frame_status self.new ≡ frame_status self.old }
        ensures apart { is_call self.new ≡ is_call self.old }
        ensures shallow { groups self.new ≤ groups self.old + token_count result }
        ensures listed { 1 ≤ token_count result → list_count self.old ≡ 1 }
    {
        match self {
            Frame::Command(scan, _) => {
                scan.feed(x);
                Grown::none()
            }
            Frame::Integer(scan) => {
                scan.feed(x);
                Grown::none()
            }
            Frame::Factor(scan) => {
                scan.feed(x);
                Grown::none()
            }
            Frame::Dimension(scan) => {
                scan.feed(x);
                Grown::none()
            }
            Frame::Glue(scan) => {
                scan.feed(x);
                Grown::none()
            }
            Frame::Keyword(scan) => {
                scan.feed(x);
                Grown::none()
            }
            Frame::Build(scan) => scan.feed(x),
            Frame::Spelling(scan) => scan.feed(x),
            Frame::FileName(scan) => scan.feed(x),
            Frame::Skips(scan) => {
                scan.feed(x);
                Grown::none()
            }
            Frame::Behind(..) | Frame::Call(_) => Grown::none(),
        }
    }

    /// Goes on behind its report, the token that was put back, the name that became `\relax` or the magnification that was checked.
    #[tactic(auto, using(crate::proofs::Growing::top_grown, crate::proofs::Growing::beneath_grown, crate::proofs::Growing::grown_held))]
    pub fn noted(&mut self) -> Grown
        ensures own { own_weight self.new ≡ own_weight self.old }
        ensures ends { frame_end self.new ≡ frame_end self.old }
        ensures weight { IsNoted (resume self.old [] []) → asks_weight self.new < asks_weight self.old }
        ensures asks { (held : Lists) (fed : List Fed) → resume self.old held (Noted ∷ fed) ≡ resume self.new (on_top result held) fed }
        ensures builds { (held : Lists) (fed : List Fed) → building self.old held (Noted ∷ fed) ≡ building self.new (on_top result held) fed }
        ensures holds { (held : Lists) → list_count self.old ≤ length held → list_count self.new ≤ length (on_top result held) }
        ensures beneath { (held : Lists) → below self.new (on_top result held) ≡ below self.old held }
        ensures checks { frame_status self.new ≡ frame_status self.old }
        ensures apart { is_call self.new ≡ is_call self.old }
        ensures shallow { groups self.new ≤ groups self.old + token_count result }
        ensures listed { 1 ≤ token_count result → list_count self.old ≡ 1 }
    {
        match self {
            Frame::Command(scan, _) => {
                scan.noted();
                Grown::none()
            }
            Frame::Integer(scan) => {
                scan.noted();
                Grown::none()
            }
            Frame::Factor(scan) => {
                scan.noted();
                Grown::none()
            }
            Frame::Dimension(scan) => {
                scan.noted();
                Grown::none()
            }
            Frame::Glue(scan) => {
                scan.noted();
                Grown::none()
            }
            Frame::Keyword(scan) => {
                scan.noted();
                Grown::none()
            }
            Frame::Build(scan) => scan.noted(),
            Frame::Spelling(scan) => {
                scan.noted();
                Grown::none()
            }
            Frame::FileName(scan) => {
                scan.stop();
                Grown::none()
            }
            Frame::Skips(scan) => {
                scan.stop();
                Grown::none()
            }
            Frame::Behind(..) | Frame::Call(_) => Grown::none(),
        }
    }

    /// Takes the value of an inner reading, and says whether it keeps the list that came with it, which may have no token: if so, that is
    /// on top.
    #[tactic(auto, using(crate::proofs::Growing::beneath_kept, crate::proofs::Growing::kept_held))]
    pub fn feed_value(&mut self, value: Value, is_empty: bool) -> bool
        ensures asks { (ts : List Token) → is_empty ≡ has_no_token ts → (held : Lists) (fed : List Fed) → resume self.old held (Val value ts ∷ fed) ≡ resume self.new (with_list result ts held) fed }
        ensures builds { (ts : List Token) → is_empty ≡ has_no_token ts → (held : Lists) (fed : List Fed) → building self.old held (Val value ts ∷ fed) ≡ building self.new (with_list result ts held) fed }
        ensures holds { (ts : List Token) (held : Lists) → list_count self.old ≤ length held → list_count self.new ≤ length (with_list result ts held) }
        ensures beneath { (ts : List Token) (held : Lists) → below self.new (with_list result ts held) ≡ below self.old held }
        ensures checks { frame_status self.new ≡ frame_status self.old }
        ensures apart { is_call self.new ≡ is_call self.old }
        ensures own { own_weight self.new ≡ own_weight self.old }
        ensures ends { frame_end self.new ≡ frame_end self.old }
        ensures weight { asks_weight self.new < value_frame + value_weight }
        ensures kept { result ≡ true → is_empty ≡ false }
        ensures list { result ≡ true → value ≡ value_of.List }
        ensures shallow { (ts : List Token) (held : Lists) → groups self.old ≤ length (top_list held) → groups self.new ≤ length (top_list (with_list result ts held)) }
    {
        match self {
            Frame::Command(scan, _) => scan.feed_value(value, is_empty),
            Frame::Integer(scan) => {
                scan.feed_value(value);
                false
            }
            Frame::Factor(scan) => {
                scan.feed_value(value);
                false
            }
            Frame::Dimension(scan) => {
                scan.feed_value(value);
                false
            }
            Frame::Glue(scan) => {
                scan.feed_value(value);
                false
            }
            Frame::Keyword(scan) => {
                scan.stop();
                false
            }
            Frame::Spelling(scan) => {
                scan.stop();
                false
            }
            Frame::FileName(scan) => {
                scan.stop();
                false
            }
            Frame::Skips(scan) => {
                scan.stop();
                false
            }
            Frame::Build(_) | Frame::Behind(..) | Frame::Call(_) => false,
        }
    }

    /// Takes what stands at the location for which it asked.
    pub fn fetched(&mut self, value: StoredValue<()>)
        ensures own { own_weight self.new ≡ own_weight self.old }
        ensures ends { frame_end self.new ≡ frame_end self.old }
        ensures weight { (loc : Location) → resume self.old [] [] ≡ Fetches loc → asks_weight self.new < asks_weight self.old }
        ensures asks { (held : Lists) (fed : List Fed) → resume self.old held (Fetched value ∷ fed) ≡ resume self.new held fed }
        ensures builds { (held : Lists) (fed : List Fed) → building self.old held (Fetched value ∷ fed) ≡ building self.new held fed }
        ensures count { list_count self.new ≡ list_count self.old }
        ensures checks { frame_status self.new ≡ frame_status self.old }
        ensures apart { is_call self.new ≡ is_call self.old }
        ensures groups { groups self.new ≡ groups self.old }
    {
        match self {
            Frame::Command(scan, _) => scan.fetched(value),
            Frame::Integer(scan) => scan.fetched(value),
            Frame::Factor(scan) => scan.fetched(value),
            Frame::Dimension(scan) => scan.fetched(value),
            Frame::Glue(scan) => scan.fetched(value),
            Frame::Keyword(scan) => scan.stop(),
            Frame::Spelling(scan) => scan.stop(),
            Frame::FileName(scan) => scan.stop(),
            Frame::Skips(scan) => scan.stop(),
            Frame::Build(_) | Frame::Behind(..) | Frame::Call(_) => {}
        }
    }

    /// The groups that are open in the list that it builds.
    pub fn groups(&self) -> usize
        ensures { result ≡ groups self.now }
    {
        match self {
            Frame::Build(scan) => scan.groups(),
            _ => 0,
        }
    }

    /// How many lists of its own it has.
    pub fn list_count(&self) -> u32
        ensures is { result ≡ list_count self.now }
        ensures few { result ≤ 1 }
    {
        match self {
            Frame::Command(scan, _) => { if scan.is_listed() { 1 } else { 0 } }
            Frame::Build(_) | Frame::Spelling(_) | Frame::FileName(_) => 1,
            Frame::Integer(_) | Frame::Factor(_) | Frame::Dimension(_) | Frame::Glue(_) => 0,
            Frame::Keyword(_) | Frame::Behind(..) | Frame::Skips(_) | Frame::Call(_) => 0,
        }
    }

    /// What is read here at a check; the list that it builds has this number.
    pub fn scanned(&self, number: u32) -> Option<Found>
        ensures { result ≡ read_at (frame_status self.now) number }
    {
        match self {
            Frame::Build(scan) => Some(Found::Builds(scan.what(), scan.manner.name, number)),
            Frame::Skips(scan) => Some(Found::SkippedText(scan.line)),
            _ => None,
        }
    }

    /// Whether its token is read under normal status, whatever is read around it.
    pub fn is_unguarded(&self) -> bool
        ensures { result ≡ reads_unguarded (frame_status self.now) }
    {
        match self {
            Frame::Command(_, head) => reads_under_normal(*head),
            _ => false,
        }
    }
}
