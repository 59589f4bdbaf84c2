// The scanner of an optional keyword. *The TeXbook*, chapter 24; *TeX: The Program*, part 26 (`scan_keyword`).
ghost use Rattle.std.specs.Prelude.{◌≡◌, ◌<◌, ◌≤◌, List, length};
ghost use Rattle.plain_readings.specs.Keywords as keywords;
ghost use Rattle.scan_dimens.specs.Views.{kept, letters_at, back_at};

use crate::decimals::is_space;
use plain_readings::KeywordAsk;
use rows::Keyword;
use tex_defs::{Seen, Token};
use tex_syntax::Want;

/// How many letters the longest keyword has.
const LONGEST: usize = 5;

/// Where a scanner stands.
#[derive(Clone, Copy)]
pub enum KeywordPlace {
    /// Behind so many letters.
    Letters(u8),
    /// So many tokens are still to be put back.
    PutsBack(u8),
    /// At its end, and whether the keyword was there.
    Ended(bool),
}

/// The scanner of a keyword.
#[derive(Clone, Copy)]
pub struct KeywordScan {
    pub keyword: Keyword,
    /// The tokens read, the last one first; they fill it up to its end.
    pub tokens: [Token; LONGEST],
    pub place: KeywordPlace,
    ghost longest: { length tokens ≡ 5 },
    ghost more: { letters_at place < length (keywords.letters keyword) },
    ghost some: { 1 ≤ back_at place },
    ghost few: { back_at place ≤ 5 },
}

// The letters of a keyword.
fn letters<'a>(keyword: Keyword) -> &'a [u8]
    ensures { result.now ≡ keywords.letters keyword }
{
    match keyword {
        Keyword::By => b"by",
        Keyword::Plus => b"plus",
        Keyword::Minus => b"minus",
        Keyword::Fil => b"fil",
        Keyword::L => b"l",
        Keyword::True => b"true",
        Keyword::Em => b"em",
        Keyword::Ex => b"ex",
        Keyword::Pt => b"pt",
        Keyword::In => b"in",
        Keyword::Pc => b"pc",
        Keyword::Cm => b"cm",
        Keyword::Mm => b"mm",
        Keyword::Bp => b"bp",
        Keyword::Dd => b"dd",
        Keyword::Cc => b"cc",
        Keyword::Sp => b"sp",
        Keyword::Mu => b"mu",
    }
}

// Whether it is a character with this small letter, or with its capital.
fn is_letter(letter: u8, token: Token) -> bool
    ensures { result ≡ keywords.is_letter letter token }
{
    match token {
        Token::Char { code, .. } => code == letter || u16::from(code) + 32 == u16::from(letter),
        _ => false,
    }
}

// Whether a token behind so many letters is a space before the first one.
fn is_skipped(read: u8, seen: Seen) -> bool
    requires { read ≤ 5 }
    ensures { (ts : List Token) → length ts ≡ 5 → result ≡ keywords.is_skipped (kept read ts) seen }
{
    if read > 0 {
        return false;
    }
    is_space(seen)
}

impl KeywordScan {
    ghost use Rattle.std.specs.Prelude.{◌≡◌, ◌≤◌, ◌<◌, ◌+◌, List, [], ◌∷◌, length, drop};
    ghost use Rattle.tex_defs.specs.declared.Token.{Token};
    ghost use Rattle.equivalents.specs.Locations.{SeenValue};
    ghost use Rattle.rows.specs.declared.words.Value.{Value};
    ghost use Rattle.rows.specs.Readings.{Fed, Tok, Noted, Val, Fetched, Cut};
    ghost use Rattle.plain_readings.specs.Keywords.{keyword_from};
    ghost use Rattle.scan_dimens.specs.Views.{kept};
    ghost use Rattle.scan_dimens.specs.Resumes.{resume, kept_in};

    /// A keyword begins.
    pub fn new(keyword: Keyword) -> KeywordScan
        ensures asks { (fed : List Fed) → keywords.keyword keyword fed ≡ resume result fed }
        ensures none { kept_in result ≡ 0 }
    {
        KeywordScan {
            keyword,
            tokens: [Token::EndPlaces; LONGEST],
            place: KeywordPlace::Letters(0),
        }
    }

    /// What it asks for where it stands.
    pub fn ask(&self) -> KeywordAsk
        ensures { result ≡ resume self.now [] }
    {
        match self.place {
            KeywordPlace::Letters(_) => KeywordAsk::More(Want::Expanded),
            KeywordPlace::PutsBack(count) => {
                KeywordAsk::Puts(self.tokens[LONGEST - usize::from(count)], count - 1)
            }
            KeywordPlace::Ended(found) => KeywordAsk::Done(found),
        }
    }

    /// Takes a token.
    pub fn feed(&mut self, seen: Seen)
        ensures asks { (fed : List Fed) → resume self.old (Tok seen ∷ fed) ≡ resume self.new fed }
        ensures kept { kept_in self.new ≤ kept_in self.old + 1 }
    {
        match self.place {
            KeywordPlace::Letters(read) => self.feed_letter(read, seen),
            KeywordPlace::PutsBack(_) => self.place = KeywordPlace::Ended(false),
            KeywordPlace::Ended(_) => {}
        }
    }

    /// Goes on behind the token that was put back.
    pub fn noted(&mut self)
        ensures { (fed : List Fed) → resume self.old (Noted ∷ fed) ≡ resume self.new fed }
    {
        match self.place {
            KeywordPlace::Letters(_) => self.place = KeywordPlace::Ended(false),
            KeywordPlace::PutsBack(count) => {
                if count > 1 {
                    self.place = KeywordPlace::PutsBack(count - 1);
                } else {
                    self.place = KeywordPlace::Ended(false);
                }
            }
            KeywordPlace::Ended(_) => {}
        }
    }

    /// A value, what stands at a location or a check's note came, for which it never asks.
    pub fn stop(&mut self)
        ensures value { (v : Value) (ts : List Token) (fed : List Fed) → resume self.old (Val v ts ∷ fed) ≡ resume self.new fed }
        ensures fetched { (v : SeenValue) (fed : List Fed) → resume self.old (Fetched v ∷ fed) ≡ resume self.new fed }
        ensures cut { (fed : List Fed) → resume self.old (Cut ∷ fed) ≡ resume self.new fed }
    {
        match self.place {
            KeywordPlace::Letters(_) => self.place = KeywordPlace::Ended(false),
            KeywordPlace::PutsBack(_) => self.place = KeywordPlace::Ended(false),
            KeywordPlace::Ended(_) => {}
        }
    }

    /// Behind so many letters, where the next one may come.
    fn feed_letter(&mut self, read: u8, seen: Seen)
        requires { read < length (keywords.letters self.old.keyword) }
        ensures asks { (fed : List Fed) → keyword_from (drop read (keywords.letters self.old.keyword)) (kept read self.old.tokens) (Tok seen ∷ fed) ≡ resume self.new fed }
        ensures kept { kept_in self.new ≤ read + 1 }
    {
        let word = letters(self.keyword);
        let at = usize::from(read);
        self.tokens[LONGEST - 1 - at] = seen.token;
        self.place = if is_letter(word[at], seen.token) {
            if at + 1 == word.len() {
                KeywordPlace::Ended(true)
            } else {
                KeywordPlace::Letters(read + 1)
            }
        } else if is_skipped(read, seen) {
            KeywordPlace::Letters(read)
        } else {
            KeywordPlace::PutsBack(read + 1)
        };
    }
}
