// Texts as TeX prints them.
ghost use Rattle.token_lists.specs.Table.{IsHeld};
ghost use Rattle.token_lists.specs.Ids.{build_id, id_of, IsBuilding};
ghost use Rattle.token_show.specs.Views.{IsView, IsNamesView, HoldsList};
ghost use Rattle.std.specs.Prelude.{◌≡◌};
ghost use Rattle.cs_hash.specs.Names.{Knows};

use crate::tables::Tables;
use tex_defs::{Frozen, Full, Meaning, Name, RegisterKind, Token};
use token_lists::{Build, ListRef, Lists};
use token_show::{
    Characters, NamesView, Shown, TokenText, View, last_after, meaning, meaning_head, places_after,
    show_list, show_token,
};

static MEANINGS: [(Meaning<ListRef>, &[u8]); 17] = [
    (Meaning::Undefined, b"undefined"),
    (Meaning::RelaxMarked, b"\\relax"),
    (Meaning::Char { cat: 11, code: 65 }, b"the letter A"),
    (Meaning::Char { cat: 10, code: 32 }, b"blank space  "),
    (Meaning::Char { cat: 12, code: 49 }, b"the character 1"),
    (
        Meaning::Char { cat: 1, code: b'{' },
        b"begin-group character {",
    ),
    (
        Meaning::Char { cat: 2, code: b'}' },
        b"end-group character }",
    ),
    (
        Meaning::Char { cat: 3, code: b'$' },
        b"math shift character $",
    ),
    (
        Meaning::Char { cat: 4, code: b'&' },
        b"alignment tab character &",
    ),
    (
        Meaning::Char { cat: 6, code: b'#' },
        b"macro parameter character #",
    ),
    (
        Meaning::Char { cat: 7, code: b'^' },
        b"superscript character ^",
    ),
    (
        Meaning::Char { cat: 8, code: b'_' },
        b"subscript character _",
    ),
    (Meaning::CharGiven(65), b"\\char\"41"),
    (Meaning::MathGiven(0x141), b"\\mathchar\"141"),
    (Meaning::MathGiven(0x7FFF), b"\\mathchar\"7FFF"),
    (
        Meaning::Register {
            kind: RegisterKind::Count,
            no: 7,
        },
        b"\\count7",
    ),
    (Meaning::Prim(6), b"\\end"),
];

// `#1->[#1]`, a parameter text and a body.
pub(crate) const BRACKETS: [Token; 5] = [
    Token::Place(b'#'),
    Token::EndPlaces,
    Token::Char {
        cat: 12,
        code: b'[',
    },
    Token::Number(1),
    Token::Char {
        cat: 12,
        code: b']',
    },
];

const HASH: Token = Token::Char { cat: 6, code: b'#' };

// Whether these bytes are shown, and then none.
fn shows(mut shown: Shown<'_>, wanted: &[u8]) -> bool {
    for byte in wanted {
        if shown.next() != Some(*byte) {
            return false;
        }
    }
    shown.next().is_none()
}

// Whether these characters come, and then none.
fn has(mut characters: Characters<'_>, wanted: &[u8]) -> bool {
    for c in wanted {
        if characters.next() != Some(*c) {
            return false;
        }
    }
    characters.next().is_none()
}

pub(crate) fn append_all(lists: &mut Lists, build: &mut Build, tokens: &[Token]) -> Result<(), Full>
    requires { IsBuilding lists.old build.old }
    ensures { IsBuilding lists.new build.new }
{
    for token in tokens {
        lists.append(build, *token)?;
    }
    Ok(())
}

// The letters are letters, and all else is other.
pub(crate) fn categories() -> [u8; 256] {
    let mut categories = [12; 256];
    for k in 0..26usize {
        categories[65 + k] = 11;
        categories[97 + k] = 11;
    }
    categories
}

// The names and lists of these tables, with a backslash as escape character and no newline character.
fn view_of<'a>(tables: &'a Tables, categories: &'a [u8; 256]) -> View<'a>
    requires { Knows tables.now.hash tables.now.pool.kept }
    ensures names { IsView result }
    ensures lists { result.lists.now ≡ tables.now.lists }
{
    View {
        lists: &tables.lists,
        names: NamesView {
            hash: &tables.hash,
            pool: &tables.pool,
            categories,
            escape: 92,
            newline: -1,
        },
    }
}

// Whether a list is shown like this, and has these characters, where the letter b is the newline character.
fn is_shown(tables: &Tables, list: &ListRef, shown: &[u8], characters: &[u8]) -> bool
    requires knows { Knows tables.now.hash tables.now.pool.kept }
    requires held { IsHeld tables.now.lists (id_of list.now) }
{
    let categories = categories();
    let mut view = view_of(tables, &categories);
    view.names.newline = 98;
    shows(show_list(view, list), shown) && has(Characters::of_list(view, list), characters)
}

// Whether a list of letters and parameter characters is shown.
fn is_list_shown(tables: &mut Tables) -> bool
    requires { Knows tables.old.hash tables.old.pool.kept }
{
    let Ok(mut build) = tables.lists.begin() else {
        return false;
    };
    let a = Token::Char { cat: 11, code: 97 };
    let tokens = [
        Token::EndPlaces,
        a,
        HASH,
        HASH,
        Token::Char { cat: 11, code: 98 },
    ];
    let appended = append_all(&mut tables.lists, &mut build, &tokens);
    let list = tables.lists.finish(build);
    let shown = is_shown(tables, &list, b"->a####\n", b"->a####b");
    tables.lists.release(list);
    appended.is_ok() && shown
}

#[test]
fn lists(rt: HostRuntime) {
    let shown = match Tables::new(rt.alloc(), b"foo") {
        Ok(mut tables) => is_list_shown(&mut tables),
        Err(_) => false,
    };
    assert!(rt; shown);
}

// Whether a macro's meaning, and its front up to the list, are shown like this.
fn is_macro_shown(tables: &Tables, made: &Meaning<ListRef>, whole: &[u8], head: &[u8]) -> bool
    requires knows { Knows tables.now.hash tables.now.pool.kept }
    requires held { HoldsList tables.now.lists made.now }
{
    let categories = categories();
    let view = view_of(tables, &categories);
    shows(meaning(view, made), whole) && shows(meaning_head(view, made), head)
}

// Whether a macro `\long\outer` is shown, whole, and up to its list.
fn is_long_outer_shown(tables: &mut Tables) -> bool
    requires { Knows tables.old.hash tables.old.pool.kept }
{
    let Ok(mut build) = tables.lists.begin() else {
        return false;
    };
    let appended = append_all(&mut tables.lists, &mut build, &BRACKETS);
    let made = Meaning::Macro {
        long: true,
        outer: true,
        list: tables.lists.finish(build),
    };
    let whole = b"\\long\\outer macro:#1->[#1]";
    let shown = is_macro_shown(tables, &made, whole, b"\\long\\outer macro:");
    let Meaning::Macro {
        long: _,
        outer: _,
        list,
    } = made
    else {
        unreachable!();
    };
    tables.lists.release(list);
    appended.is_ok() && shown
}

#[test]
fn macros(rt: HostRuntime) {
    let shown = match Tables::new(rt.alloc(), b"foo") {
        Ok(mut tables) => is_long_outer_shown(&mut tables),
        Err(_) => false,
    };
    assert!(rt; shown);
}

// Names, each in a list and in a list without an escape character.
static NAMES: [(Name, &[u8], &[u8]); 7] = [
    (Name::Word(1), b"\\foo ", b"foo "),
    (Name::Single(b'a'), b"\\a ", b"a "),
    (Name::Single(b'+'), b"\\+", b"+"),
    (Name::Single(13), b"\\^^M", b"^^M"),
    (Name::Active(200), b"^^c8", b"^^c8"),
    (Name::Empty, b"\\csname\\endcsname ", b"csnameendcsname "),
    (Name::Frozen(Frozen::Fi), b"\\fi ", b"fi "),
];

fn is_named(view: View<'_>, row: &(Name, &[u8], &[u8])) -> bool
    requires { IsView view }
{
    let (name, in_list, without_escape) = *row;
    let mut silent = view;
    silent.names.escape = -1;
    shows(show_token(view, Token::Named(name)), in_list)
        && shows(show_token(silent, Token::Marked(name)), without_escape)
}

// Whether the names are shown like this.
fn are_named(view: View<'_>) -> bool
    requires { IsView view }
{
    for k in 0..7usize {
        if !is_named(view, &NAMES[k]) {
            return false;
        }
    }
    true
}

// Whether the meanings are shown like this.
fn are_meant(view: View<'_>) -> bool
    requires { IsView view }
{
    for k in 0..17usize {
        if !shows(meaning_head(view, &MEANINGS[k].0), MEANINGS[k].1) {
            return false;
        }
    }
    true
}

// Whether these characters come, and then none.
fn spells(mut text: TokenText<'_>, wanted: &[u8]) -> bool {
    for c in wanted {
        if text.next() != Some(*c) {
            return false;
        }
    }
    text.next().is_none()
}

// Whether tokens, alone and behind a parameter place with an exclamation mark, have these characters, and a name and a meaning.
fn are_spelled(names: NamesView<'_>) -> bool
    requires { IsNamesView names }
{
    let foo = Token::Named(Name::Word(1));
    let place = Token::Place(b'!');
    let number = Token::Number(1);
    spells(TokenText::of_string(names, foo), b"\\foo")
        && spells(TokenText::of_string(names, HASH), b"#")
        && spells(TokenText::of_token(names, 0, b'#', foo), b"\\foo ")
        && spells(TokenText::of_token(names, 0, b'#', HASH), b"##")
        && spells(TokenText::of_token(names, 0, b'#', place), b"!1")
        && places_after(0, place) == 1
        && last_after(b'#', place) == b'!'
        && spells(TokenText::of_token(names, 1, b'!', number), b"!1")
        && spells(TokenText::of_name(names, Name::Single(b'a')), b"\\a")
        && spells(
            TokenText::of_meaning_head(names, &MEANINGS[0].0),
            b"undefined",
        )
}

// Whether the names and the meanings are shown like this.
fn are_shown(tables: &Tables) -> bool
    requires { Knows tables.now.hash tables.now.pool.kept }
{
    let categories = categories();
    let view = view_of(tables, &categories);
    are_named(view) && are_meant(view) && are_spelled(view.names)
}

#[test]
fn names_and_meanings(rt: HostRuntime) {
    let shown = match Tables::new(rt.alloc(), b"foo") {
        Ok(tables) => are_shown(&tables),
        Err(_) => false,
    };
    assert!(rt; shown);
}
