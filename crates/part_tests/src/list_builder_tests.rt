// Definitions and texts, fed from their first token to their last.
ghost use Rattle.std.specs.Prelude.{◌≡◌, ◌≤◌, ℕ, IfSome, IfOk, None};
ghost use Rattle.token_lists.specs.Table.{IsHeld, holders_at};
ghost use Rattle.token_lists.specs.Accounts.{Moves, none, cell_holds};
ghost use Rattle.token_lists.specs.Ids.{id_of};
ghost use Rattle.list_builder.specs.Scans.{IsSound, IsOpen, IsSpent, Owns, handed, scan_holds};

use crate::token_lists_tests::release_cell;
use list_builder::{Ask, DefScan, Due, Next, Stage, TextScan};
use plain_state::Body;
use tex_defs::{Full, Meaning, Name, Seen, Table, Token};
use tex_syntax::{Manner, Report, Want};
use token_lists::{ListRef, Lists};

// A character as it is read.
fn read(cat: u8, code: u8) -> Seen {
    Seen {
        token: Token::Char { cat, code },
        meaning: Meaning::Char { cat, code },
    }
}

// Whether these are the tokens of the list.
fn spells(lists: &Lists, list: &ListRef, tokens: &[Token]) -> bool
    requires { IsHeld lists.now (id_of list.now) }
{
    let mut at = lists.first(list);
    for token in tokens {
        let Some(place) = at else {
            return false;
        };
        if lists.token(place) != *token {
            return false;
        }
        at = lists.next(place);
    }
    at.is_none()
}

// What a token comes to, once its report is written.
fn behind(scan: &mut DefScan, lists: &mut Lists, x: Seen) -> Result<Ask, Full>
    requires { IsSound lists.old scan.old.scan }
    ensures sound { IfOk result (λ a. IsOpen a → IsSound lists.new scan.new.scan) }
    ensures owns { Owns lists.new scan.new.scan }
    ensures spent { IfOk result (λ a. IsSpent a scan.new.scan) }
    ensures held { IfOk result (λ a. (h : ℕ) → handed a h ≤ holders_at lists.new h) }
{
    match scan.feed(lists, x) {
        Ok(Ask::Tells(_, _)) => scan.feed_noted(lists),
        answer => answer,
    }
}

// The list of a definition whose name and these tokens are read; each report is written.
fn defined(lists: &mut Lists, tokens: &[Seen]) -> Option<ListRef>
    ensures { IfSome result (λ r. IsHeld lists.new (id_of r)) }
{
    let mut scan = match DefScan::new(lists, Name::Single(97), false) {
        Ok(scan) => scan,
        Err(_) => return None,
    };
    for x in tokens {
        match behind(&mut scan, lists, *x) {
            Ok(Ask::More(_)) => {}
            Ok(Ask::Tells(_, _)) => {
                scan.abandon(lists);
                return None;
            }
            Ok(Ask::Done(cell)) => {
                scan.abandon(lists);
                return cell;
            }
            Err(_) => {
                scan.abandon(lists);
                return None;
            }
        }
    }
    scan.abandon(lists);
    None
}

// Whether `#1#2{#2#1}` has five tokens, in six words, which are freed.
fn is_built(lists: &mut Lists) -> bool {
    let tokens = [
        read(6, 35),
        read(12, 49),
        read(6, 35),
        read(12, 50),
        read(1, 123),
        read(6, 35),
        read(12, 50),
        read(6, 35),
        read(12, 49),
        read(2, 125),
    ];
    let Some(list) = defined(lists, &tokens) else {
        return false;
    };
    let wanted = [
        Token::Place(35),
        Token::Place(35),
        Token::EndPlaces,
        Token::Number(2),
        Token::Number(1),
    ];
    let told = (spells(lists, &list, &wanted), lists.used());
    lists.release(list);
    told == (true, 6) && lists.used() == 0
}

#[test]
fn definition_is_built(rt: HostRuntime) {
    let built = match Lists::new(rt.alloc(), 20) {
        Ok(mut lists) => is_built(&mut lists),
        Err(_) => false,
    };
    assert!(rt; built);
}

// The first report of a definition of which these tokens are read, and whether the last token is put back.
fn reported(lists: &mut Lists, tokens: &[Seen]) -> Result<Option<(Report, bool)>, Full> {
    let mut scan = match DefScan::new(lists, Name::Single(97), false) {
        Ok(scan) => scan,
        Err(full) => return Err(full),
    };
    for x in tokens {
        match scan.feed(lists, *x) {
            Ok(Ask::More(_)) => {}
            Ok(Ask::Tells(report, give_back)) => {
                scan.abandon(lists);
                return Ok(Some((report, give_back)));
            }
            Ok(Ask::Done(cell)) => {
                scan.abandon(lists);
                release_cell(lists, cell);
                return Ok(None);
            }
            Err(full) => {
                scan.abandon(lists);
                return Err(full);
            }
        }
    }
    scan.abandon(lists);
    Ok(None)
}

// Whether `#2`, `x}` and `{#1` are reported, and a full memory refuses what comes behind `{`.
fn are_reported(lists: &mut Lists) -> bool {
    let told = [
        reported(lists, &[read(6, 35), read(12, 50)]),
        reported(lists, &[read(2, 125)]),
        reported(lists, &[read(1, 123), read(6, 35), read(12, 49)]),
        reported(lists, &[read(1, 123), read(11, 120)]),
    ];
    let full = Full {
        table: Table::MainMemorySize,
        used: 2,
        size: 2,
    };
    let wanted = [
        Ok(Some((Report::NotConsecutive, true))),
        Ok(Some((Report::MissingBrace, false))),
        Ok(Some((Report::IllegalNumber(Name::Single(97)), true))),
        Err(full),
    ];
    told == wanted && lists.used() == 0
}

#[test]
fn reports_come_at_their_tokens(rt: HostRuntime) {
    let reported = match Lists::new(rt.alloc(), 2) {
        Ok(mut lists) => are_reported(&mut lists),
        Err(_) => false,
    };
    assert!(rt; reported);
}

// The scanner of a text behind a token, where it goes on.
fn on(scan: TextScan, lists: &mut Lists, x: Seen) -> Option<TextScan>
    requires { IsSound lists.old scan.scan }
    ensures sound { IfSome result (λ s. IsSound lists.new s.scan) }
    ensures account { IfSome result (λ s. Moves lists.old lists.new (scan_holds scan.scan) (scan_holds s.scan)) }
    ensures lost { result ≡ None → Moves lists.old lists.new (scan_holds scan.scan) none }
{
    let mut scan = scan;
    match scan.feed(lists, x) {
        Ok(Ask::More(_)) => Some(scan),
        Ok(Ask::Tells(_, _)) => {
            scan.abandon(lists);
            None
        }
        Ok(Ask::Done(cell)) => {
            scan.abandon(lists);
            release_cell(lists, cell);
            None
        }
        Err(_) => {
            scan.abandon(lists);
            None
        }
    }
}

// The list of a text that ends with this token, and whether it ends.
fn ended(scan: TextScan, lists: &mut Lists, x: Seen) -> (Option<ListRef>, bool)
    requires { IsSound lists.old scan.scan }
    ensures held { IfSome result.0 (λ r. IsHeld lists.new (id_of r)) }
    ensures account { Moves lists.old lists.new (scan_holds scan.scan) (cell_holds result.0) }
{
    let mut scan = scan;
    match scan.feed(lists, x) {
        Ok(Ask::Done(cell)) => {
            scan.abandon(lists);
            (cell, true)
        }
        Ok(Ask::More(_) | Ask::Tells(_, _)) => {
            scan.abandon(lists);
            (None, false)
        }
        Err(_) => {
            scan.abandon(lists);
            (None, false)
        }
    }
}

// The text `{}`.
fn nothing(lists: &mut Lists) -> (Option<ListRef>, bool)
    ensures { IfSome result.0 (λ r. IsHeld lists.new (id_of r)) }
{
    let scan = match TextScan::new(lists, false) {
        Ok(scan) => scan,
        Err(_) => return (None, false),
    };
    match on(scan, lists, read(1, 123)) {
        Some(scan) => ended(scan, lists, read(2, 125)),
        None => (None, false),
    }
}

// Whether a text without tokens has no list.
fn has_no_list(lists: &mut Lists) -> bool {
    let (cell, complete) = nothing(lists);
    if let Some(list) = cell {
        lists.release(list);
        return false;
    }
    complete && lists.used() == 0
}

#[test]
fn empty_text_has_no_list(rt: HostRuntime) {
    let none = match Lists::new(rt.alloc(), 8) {
        Ok(mut lists) => has_no_list(&mut lists),
        Err(_) => false,
    };
    assert!(rt; none);
}

// The text `{`, this list's tokens, `}`, by expansion.
fn copied(lists: &mut Lists, list: &ListRef) -> (Option<ListRef>, bool)
    requires { IsHeld lists.old (id_of list.now) }
    ensures held { IfSome result.0 (λ r. IsHeld lists.new (id_of r)) }
    ensures account { Moves lists.old lists.new none (cell_holds result.0) }
{
    let scan = match TextScan::new(lists, true) {
        Ok(scan) => scan,
        Err(_) => return (None, false),
    };
    let Some(mut scan) = on(scan, lists, read(1, 123)) else {
        return (None, false);
    };
    match scan.feed_list(lists, list) {
        Ok(Ask::More(_)) => ended(scan, lists, read(2, 125)),
        Ok(Ask::Tells(_, _)) => {
            scan.abandon(lists);
            (None, false)
        }
        Ok(Ask::Done(cell)) => {
            scan.abandon(lists);
            release_cell(lists, cell);
            (None, false)
        }
        Err(_) => {
            scan.abandon(lists);
            (None, false)
        }
    }
}

// Whether the tokens of a token list enter a text as they are, a parameter character among them.
fn is_copied(lists: &mut Lists) -> bool {
    let body = [read(1, 123), read(6, 35), read(6, 35), read(2, 125)];
    let Some(list) = defined(lists, &body) else {
        return false;
    };
    let (cell, complete) = copied(lists, &list);
    let Some(copy) = cell else {
        lists.release(list);
        return false;
    };
    let wanted = [Token::EndPlaces, Token::Char { cat: 6, code: 35 }];
    let told = (spells(lists, &copy, &wanted), complete, lists.used());
    lists.release(copy);
    let left = lists.used();
    lists.release(list);
    told == (true, true, 6) && left == 3
}

#[test]
fn token_list_is_copied(rt: HostRuntime) {
    let copied = match Lists::new(rt.alloc(), 8) {
        Ok(mut lists) => is_copied(&mut lists),
        Err(_) => false,
    };
    assert!(rt; copied);
}

// Whether the list in work is lent from the beginning, and freed where the reading is given up.
fn is_lent(lists: &mut Lists) -> bool {
    let Ok(scan) = TextScan::new(lists, true) else {
        return false;
    };
    let begun = scan.built().is_some();
    let used = lists.used();
    let wants = match scan.ask() {
        Ask::More(want) => Some(want),
        Ask::Tells(_, _) => None,
        Ask::Done(cell) => {
            release_cell(lists, cell);
            None
        }
    };
    scan.abandon(lists);
    begun && used == 1 && wants == Some(Want::Command) && lists.used() == 0
}

#[test]
fn list_in_work_is_lent(rt: HostRuntime) {
    let lent = match Lists::new(rt.alloc(), 8) {
        Ok(mut lists) => is_lent(&mut lists),
        Err(_) => false,
    };
    assert!(rt; lent);
}

const EXPANDED: Manner = Manner {
    name: Name::Single(97),
    expanded: true,
};

const RAW: Manner = Manner {
    name: Name::Single(97),
    expanded: false,
};

// A body of a macro with one place.
const BODY: Body = Body {
    places: Some(1),
    brace: None,
};

const CHARACTER: Token = Token::Char { cat: 6, code: 35 };

// Stages, and how many braces are open there.
const DEPTHS: [(Stage, usize); 4] = [
    (Stage::Parameters(0), 0),
    (Stage::InBody(BODY, 1), 1),
    (Stage::Reference(BODY, 2, CHARACTER), 2),
    (Stage::Illegal(BODY, 2, CHARACTER), 2),
];

// Stages, and what is due there.
const DUES: [(Stage, Manner, Due); 8] = [
    (Stage::Parameters(0), EXPANDED, Due::More(Want::Raw)),
    (Stage::First, RAW, Due::More(Want::Command)),
    (Stage::InBody(BODY, 1), EXPANDED, Due::More(Want::Copied)),
    (Stage::InBody(BODY, 1), RAW, Due::More(Want::Raw)),
    (
        Stage::Reference(BODY, 2, CHARACTER),
        EXPANDED,
        Due::More(Want::Expanded),
    ),
    (
        Stage::Reference(BODY, 2, CHARACTER),
        RAW,
        Due::More(Want::Raw),
    ),
    (
        Stage::Tenth(9),
        EXPANDED,
        Due::Tells(Report::AlreadyNine, false),
    ),
    (
        Stage::Illegal(BODY, 2, CHARACTER),
        RAW,
        Due::Tells(Report::IllegalNumber(Name::Single(97)), true),
    ),
];

// Whether a brace opens a group of a body.
fn opens_group() -> bool {
    matches!(
        Stage::InBody(BODY, 1).took(read(1, 123)).next,
        Next::On(Stage::InBody(
            Body {
                places: Some(1),
                brace: None
            },
            2
        ))
    )
}

// Whether as many braces are open at these stages.
fn are_as_deep(rows: &[(Stage, usize)]) -> bool {
    for (stage, depth) in rows {
        if stage.depth() != *depth {
            return false;
        }
    }
    true
}

// Whether this is due at these stages.
fn are_due(rows: &[(Stage, Manner, Due)]) -> bool {
    for (stage, manner, due) in rows {
        if stage.due(*manner) != *due {
            return false;
        }
    }
    true
}

// In front of a definition, and in a body and two groups of it, a stage tells what is due.
#[test]
fn stages_tell_what_is_due(rt: HostRuntime) {
    assert!(rt; opens_group() && are_as_deep(&DEPTHS) && are_due(&DUES));
}

// The body of a balanced text.
const TEXT: Body = Body {
    places: None,
    brace: None,
};

// Stages, the categories and codes of characters, and whether such a character goes into the list and changes nothing else.
const KEPT: [(Stage, u8, u8, bool); 8] = [
    (Stage::InBody(BODY, 1), 11, 97, true),
    (Stage::InBody(BODY, 1), 1, 123, false),
    (Stage::InBody(BODY, 1), 2, 125, false),
    (Stage::InBody(BODY, 1), 6, 35, false),
    (Stage::InBody(TEXT, 1), 6, 35, true),
    (Stage::Parameters(0), 11, 97, false),
    (Stage::Reference(BODY, 1, CHARACTER), 11, 97, false),
    (Stage::BodyMissing, 11, 97, false),
];

// Whether these stages keep what they are fed.
fn are_kept(rows: &[(Stage, u8, u8, bool)]) -> bool {
    for (stage, cat, code, kept) in rows {
        if stage.keeps(read(*cat, *code)) != *kept {
            return false;
        }
    }
    true
}

// Of the tokens of a body all but braces and the parameter characters of a macro go into the list and change nothing else.
#[test]
fn tokens_of_a_body_are_kept(rt: HostRuntime) {
    assert!(rt; are_kept(&KEPT));
}
