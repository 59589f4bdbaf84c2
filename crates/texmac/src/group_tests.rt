// Groups, what comes after them and after assignments, and the parameters that are assigned.
use crate::macro_tests::repeated;
use crate::tests::{Row, job_with, rows_hold};
use std::alloc::{AllocError, Global};
use std::process::Abort;

/// What holds in a group, and what behind it.
const NESTED: [Row; 15] = [
    (
        b"\\def\\a{0}{\\def\\a{1}{\\def\\a{2}\\message{\\a}}\\message{\\a}}\\message{\\a}\\end",
        b"2 1 0\n",
        0,
    ),
    (
        b"\\begingroup\\let\\a=x{\\let\\a=y\\message{\\meaning\\a}}\\message{\\meaning\\a}\\endgroup\\message{\\meaning\\a}\\end",
        b"the letter y the letter x undefined\n",
        0,
    ),
    (
        b"\\def\\a{x}{\\def\\a{y}\\global\\def\\a{z}\\def\\a{w}}\\message{\\meaning\\a}\\end",
        b"macro:->z\n",
        0,
    ),
    (
        b"{\\gdef\\a{x}\\xdef\\b{\\a y}}\\message{\\a\\b}\\end",
        b"xxy\n",
        0,
    ),
    (
        b"{\\gdef\\a{x}\\def\\a{y}\\message{\\a}}\\message{\\a}\\end",
        b"y x\n",
        0,
    ),
    (
        b"\\def\\a{0}{\\def\\a{1}{\\global\\def\\a{2}\\def\\a{3}}\\message{\\a}}\\message{\\a}\\end",
        b"2 2\n",
        0,
    ),
    (
        b"{{{\\global\\let\\a=x}\\let\\a=y}\\message{\\meaning\\a}}\\message{\\meaning\\a}\\end",
        b"the letter x the letter x\n",
        0,
    ),
    (
        b"{\\global\\let\\a=x\\global\\futurelet\\b\\relax y}\\message{\\meaning\\a,\\meaning\\b}\\end",
        b"{the letter y}\nthe letter x,the letter y\n",
        0,
    ),
    (
        b"{\\let\\a=x\\futurelet\\b\\relax y}\\message{\\meaning\\a,\\meaning\\b}\\end",
        b"{the letter y}\nundefined,undefined\n",
        0,
    ),
    (
        b"{\\outer\\def\\a{}}\\def\\b{\\a}\\message{\\meaning\\b}\\end",
        b"macro:->\\a \n",
        0,
    ),
    (b"{\\let\\par=\\relax\\par}\\par\\end", b"{\\par}\n", 0),
    (
        b"\\def\\b{\\def\\a{y}}\\def\\a{x}{\\b\\message{\\a}}\\message{\\a}\\b\\message{\\a}\\end",
        b"y x y\n",
        0,
    ),
    (
        b"\\def\\a#1{{#1}}\\a{\\def\\b{x}\\message{\\b}}\\message{\\meaning\\b}\\end",
        b"x undefined\n",
        0,
    ),
    (
        b"\\def\\a{x}{%\n\\def\\a{y}%\n\\message{\\a}%\n}\\message{\\a}\\end",
        b"y x\n",
        0,
    ),
    (
        b"\\def\\a#1{#1}\\begingroup\\def\\a#1.{[#1]}\\message{\\a xy.}\\endgroup\\message{\\a xy.}\\end",
        b"[xy] xy.\n",
        0,
    ),
];

#[test]
fn groups_give_back_what_held(rt: HostRuntime) {
    rows_hold(&rt, rt.alloc(), &NESTED);
}

/// Braces by other names.
const IMPLICIT: [Row; 9] = [
    (
        b"\\let\\bgroup={\\let\\egroup=}\\bgroup\\let\\a=x\\egroup\\message{\\meaning\\a}\\end",
        b"undefined\n",
        0,
    ),
    (
        b"\\let\\bgroup={\\let\\egroup=}{\\let\\a=x\\egroup\\bgroup\\let\\b=y}\\message{\\meaning\\a\\meaning\\b}\\end",
        b"undefinedundefined\n",
        0,
    ),
    (
        b"\\let\\bgroup={\\let\\egroup=}\\bgroup\\bgroup\\let\\a=x}\\message{\\meaning\\a}\\egroup\\message{\\meaning\\a}\\end",
        b"undefined undefined\n",
        0,
    ),
    (
        b"\\let\\b\\begingroup\\let\\e\\endgroup\\b\\let\\a=x\\e\\message{\\meaning\\a}\\end",
        b"undefined\n",
        0,
    ),
    (
        b"\\let\\egroup=}\\egroup\\end",
        b"! Too many }'s.\nl.2\n",
        1,
    ),
    (
        b"\\let\\e\\endgroup\\e\\end",
        b"! Extra \\endgroup.\nl.2\n",
        1,
    ),
    (
        b"\\let\\bgroup={\\let\\e\\endgroup\\bgroup\\e\\message{m}\\end",
        b"! Missing } inserted.\nl.2\n! Extra \\endgroup.\nl.2\nm\n",
        1,
    ),
    (
        b"\\catcode`\\[=1 \\catcode`\\]=2 [\\let\\a=x]\\message[{\\meaning\\a}]\\end",
        b"{undefined}\n",
        0,
    ),
    (
        b"\\catcode`\\~=13 \\let~={~\\let\\a=x}\\message{\\meaning\\a,\\meaning~}\\end",
        b"undefined,begin-group character {\n",
        0,
    ),
];

#[test]
fn implicit_braces_open_and_close_groups(rt: HostRuntime) {
    rows_hold(&rt, rt.alloc(), &IMPLICIT);
}

/// Category codes, names and `\csname` in groups.
const CODES: [Row; 11] = [
    (
        b"{\\catcode`\\%=12 \\message{a%b}}\\message{c%d\ne}\\end",
        b"a%b ce\n",
        0,
    ),
    (
        b"\\catcode`\\!=12{\\catcode`\\!=5 \\global\\catcode`\\!=9 \\catcode`\\!=5 }\\message{a!b}\\end",
        b"ab\n",
        0,
    ),
    (
        b"{\\catcode`\\!=9 \\message{a!b}\\global\\catcode`\\!=13 \\message{\\meaning!}}\\message{\\meaning!}\\end",
        b"ab undefined undefined\n",
        0,
    ),
    (
        b"{\\catcode`\\|=0 |message{a}}\\message{|b}\\end",
        b"a |b\n",
        0,
    ),
    (
        b"{\\catcode`\\}=12 }\\end",
        b"{the character }}\n(\\end occurred inside a group at level 1)\n",
        0,
    ),
    (
        b"\\catcode`\\~=13 {\\def~{x}\\message{~}}\\message{\\meaning~}\\end",
        b"x undefined\n",
        0,
    ),
    (
        b"{\\csname ab\\endcsname\\message{\\meaning\\ab}}\\message{\\meaning\\ab}\\end",
        b"\\relax undefined\n",
        0,
    ),
    (
        b"\\def\\ab{x}{\\expandafter\\let\\csname ab\\endcsname\\relax\\message{\\meaning\\ab}}\\message{\\meaning\\ab}\\end",
        b"\\relax macro:->x\n",
        0,
    ),
    (
        b"{\\csname ab\\endcsname\\global\\let\\ab=x}\\message{\\meaning\\ab}\\end",
        b"the letter x\n",
        0,
    ),
    (
        b"{\\expandafter\\gdef\\csname ab\\endcsname{x}\\message{\\meaning\\ab}}\\message{\\meaning\\ab}\\end",
        b"macro:->x macro:->x\n",
        0,
    ),
    (
        b"{\\message{\\csname a\\endcsname\\meaning\\a}}\\message{\\csname a\\endcsname\\meaning\\a}\\message{\\meaning\\a}\\end",
        b"\\a \\relax \\a \\relax \\relax\n",
        0,
    ),
];

#[test]
fn codes_and_names_are_given_back(rt: HostRuntime) {
    rows_hold(&rt, rt.alloc(), &CODES);
}

/// Tokens that come after a group.
const AFTER_GROUPS: [Row; 25] = [
    (
        b"{\\aftergroup a\\aftergroup b}\\end",
        b"{the letter a}\n{the letter b}\n",
        0,
    ),
    (
        b"{\\aftergroup a{\\aftergroup b\\aftergroup c}d}e\\end",
        b"{the letter b}\n{the letter c}\n{the letter d}\n{the letter a}\n{the letter e}\n",
        0,
    ),
    (
        b"\\begingroup\\aftergroup a{\\aftergroup b}\\endgroup\\end",
        b"{the letter b}\n{the letter a}\n",
        0,
    ),
    (
        b"{{\\aftergroup\\aftergroup\\aftergroup x}y}z\\end",
        b"{the letter y}\n{the letter x}\n{the letter z}\n",
        0,
    ),
    (
        b"\\aftergroup x\\aftergroup\\zz y\\end",
        b"{the letter y}\n",
        0,
    ),
    (b"{}\\aftergroup x{}\\aftergroup}\\end", b"", 0),
    (
        b"{\\aftergroup\\message\\aftergroup{\\aftergroup h}i}\\end",
        b"hi\n",
        0,
    ),
    (
        b"{\\aftergroup}\\aftergroup x}\\end",
        b"! Too many }'s.\nl.2\n{the letter x}\n",
        1,
    ),
    (
        b"{\\let\\a=x{\\aftergroup}}\\message{\\meaning\\a}\\end",
        b"undefined\n",
        0,
    ),
    (b"{\\aftergroup{\\aftergroup}}\\end", b"", 0),
    (
        b"{\\aftergroup{}\\let\\a=x}\\message{\\meaning\\a}\\end",
        b"undefined\n",
        0,
    ),
    (
        b"{\\aftergroup\\begingroup}\\let\\a=x\\endgroup\\message{\\meaning\\a}\\end",
        b"undefined\n",
        0,
    ),
    (
        b"\\begingroup\\aftergroup\\endgroup\\endgroup\\end",
        b"! Extra \\endgroup.\nl.2\n",
        1,
    ),
    (
        b"{{\\aftergroup\\endgroup}\\let\\a=x}\\message{\\meaning\\a}\\end",
        b"! Missing } inserted.\nl.2\n! Extra \\endgroup.\nl.2\n! Too many }'s.\nl.2\nthe letter x\n",
        1,
    ),
    (
        b"{\\aftergroup\\zz}\\end",
        b"! Undefined control sequence.\nl.2\n",
        1,
    ),
    (
        b"\\def\\a{\\message{0}}{\\def\\a{\\message{1}}\\aftergroup\\a\\a}\\end",
        b"1 0\n",
        0,
    ),
    (
        b"\\outer\\def\\o{\\message{o}}{\\aftergroup\\o}\\end",
        b"o\n",
        0,
    ),
    (
        b"\\def\\a#1{\\aftergroup#1}{\\a{ }x}\\end",
        b"{the letter x}\n{blank space  }\n",
        0,
    ),
    (
        b"{\\expandafter\\aftergroup\\noexpand\\zz}\\end",
        b"! Undefined control sequence.\nl.2\n",
        1,
    ),
    (
        b"{\\aftergroup\\def\\aftergroup\\a}{x}\\message{\\a}\\end",
        b"x\n",
        0,
    ),
    (
        b"{\\aftergroup\\global}\\def\\a{x}\\message{\\a}\\end",
        b"x\n",
        0,
    ),
    (
        b"\\def\\a#1#2{(#2#1)}{\\aftergroup\\message\\aftergroup{\\aftergroup\\a}xy}\\end",
        b"(yx)\n",
        0,
    ),
    (
        b"{\\expandafter\\aftergroup\\csname ab\\endcsname\\def\\ab{\\message{1}}\\ab}\\def\\ab{\\message{0}}\\end",
        b"1\n! Undefined control sequence.\nl.2\n",
        1,
    ),
    (
        b"{\\def\\a{\\aftergroup x}\\expandafter\\aftergroup\\a\\aftergroup y}\\end",
        b"{the letter x}\n",
        0,
    ),
    (
        b"{\\global\\aftergroup x}\\end",
        b"! You can't use a prefix with `\\aftergroup'.\nl.2\n{the letter x}\n",
        1,
    ),
];

#[test]
fn tokens_come_after_their_group(rt: HostRuntime) {
    rows_hold(&rt, rt.alloc(), &AFTER_GROUPS);
}

/// A token that comes after an assignment.
const AFTER_ASSIGNMENTS: [Row; 17] = [
    (
        b"\\def\\x{\\message{x}}\\afterassignment\\x\\def\\a{\\message{a}}\\a\\end",
        b"x a\n",
        0,
    ),
    (
        b"\\def\\x{\\message{x}}\\afterassignment\\x\\gdef\\a{\\message{a}}\\a\\end",
        b"x a\n",
        0,
    ),
    (
        b"\\def\\x{\\message{x}}\\afterassignment\\x\\edef\\a{a}\\message{\\a}\\xdef\\b{\\x}\\end",
        b"x a\n",
        0,
    ),
    (
        b"\\def\\x{\\message{x}}\\afterassignment\\x\\let\\a=b\\message{\\meaning\\a}\\end",
        b"x the letter b\n",
        0,
    ),
    (
        b"\\def\\x{\\message{x}}\\afterassignment\\x\\futurelet\\a yz\\message{\\meaning\\a}\\end",
        b"x\n{the letter y}\n{the letter z}\nthe letter z\n",
        0,
    ),
    (
        b"\\def\\x{\\message{x}}\\afterassignment\\x\\catcode`\\!=13 \\message{\\meaning!}\\end",
        b"x undefined\n",
        0,
    ),
    (
        b"\\def\\x{\\message{x}}\\afterassignment\\x\\lccode`\\!=13 \\afterassignment\\x\\delcode`\\!=13 \\end",
        b"x x\n",
        0,
    ),
    (
        b"\\def\\x{\\message{x}}{\\afterassignment\\x\\global\\def\\a{y}}\\message{\\a}\\end",
        b"x y\n",
        0,
    ),
    (
        b"\\def\\x{\\message{x}}\\afterassignment\\x\\global\\long\\def\\a{y}\\message{\\meaning\\a}\\end",
        b"x \\long macro:->y\n",
        0,
    ),
    (
        b"\\def\\x{\\message{x}}\\afterassignment\\x\\newlinechar=33 \\message{a!b}\\end",
        b"x a\nb\n",
        0,
    ),
    (
        b"\\def\\x{\\message{x}}\\def\\y{\\message{y}}\\afterassignment\\x\\afterassignment\\y\\let\\a=b\\let\\a=c\\end",
        b"y\n",
        0,
    ),
    (
        b"\\def\\x{\\message{x}}\\afterassignment\\x\\message{m}\\let\\a=b\\end",
        b"m x\n",
        0,
    ),
    (
        b"\\def\\x{\\message{x}}\\afterassignment\\x\\global\\message{m}\\let\\a=b\\end",
        b"! You can't use a prefix with `\\message'.\nl.2\nm x\n",
        1,
    ),
    (
        b"\\def\\x{\\message{x}}\\global\\afterassignment\\x\\let\\a=b\\end",
        b"! You can't use a prefix with `\\afterassignment'.\nl.2\nx\n",
        1,
    ),
    (
        b"\\def\\x{\\message{x}}\\afterassignment\\x\\long\\let\\a=b\\end",
        b"! You can't use `\\long' or `\\outer' with `\\let'.\nl.2\nx\n",
        1,
    ),
    (
        b"\\def\\x{\\message{x}}\\afterassignment\\x\\relax{\\show a\\ignorespaces \\aftergroup\\relax}\\let\\a=b\\end",
        b"> the letter a.\nl.2\nx\n",
        1,
    ),
    (
        b"\\def\\x{\\message{x}}\\afterassignment\\x\\csname ab\\endcsname\\message{m}\\let\\a=b\\end",
        b"m x\n",
        0,
    ),
];

#[test]
fn a_token_comes_after_the_next_assignment(rt: HostRuntime) {
    rows_hold(&rt, rt.alloc(), &AFTER_ASSIGNMENTS);
}

/// Where a token that waits for an assignment comes.
const IN_PLACE: [Row; 17] = [
    (
        b"\\def\\x{\\message{x}}{\\afterassignment\\x}\\let\\a=b\\end",
        b"x\n",
        0,
    ),
    (
        b"\\def\\x{\\message{x}}\\afterassignment\\x{\\let\\a=b}\\let\\a=b\\end",
        b"x\n",
        0,
    ),
    (
        b"{\\let\\a=x\\afterassignment}\\let\\b=c\\message{\\meaning\\a,\\meaning\\b}\\end",
        b"undefined,undefined\n",
        0,
    ),
    (
        b"\\afterassignment{\\let\\b=c\\let\\a=x}\\message{\\meaning\\a,\\meaning\\b}\\end",
        b"undefined,the letter c\n",
        0,
    ),
    (b"\\afterassignment\\message\\let\\a=b{m}\\end", b"m\n", 0),
    (
        b"\\afterassignment\\message\\let\\a={m}\\end",
        b"! Missing { inserted.\nl.2\nm\n",
        1,
    ),
    (
        b"\\def\\x{\\message{x}}\\afterassignment\\afterassignment\\let\\a=b\\x\\message{m}\\let\\a=b\\end",
        b"m x\n",
        0,
    ),
    (
        b"\\afterassignment\\let\\let\\a=b\\c=d\\message{\\meaning\\a,\\meaning\\c}\\end",
        b"the letter b,the letter d\n",
        0,
    ),
    (
        b"\\def\\x{\\message{x}}\\afterassignment\\x\\newlinechar=\\relax\\message{m}\\end",
        b"! Missing number, treated as zero.\nl.2\nx m\n",
        1,
    ),
    (
        b"\\def\\x{\\message{x}}\\afterassignment\\x\\catcode`\\!=99 \\message{m}\\end",
        b"! Invalid code (99), should be in the range 0..15.\nl.2\nx m\n",
        1,
    ),
    (
        b"\\def\\x{\\message{x}}\\afterassignment\\x\\let 5\\message{m}\\end",
        b"! Missing control sequence inserted.\nl.2\nx m\n",
        1,
    ),
    (
        b"\\def\\x{\\message{x}}\\afterassignment\\x\\def\\a#2{}\\message{m}\\end",
        b"! Parameters must be numbered consecutively.\nl.2\nx m\n",
        1,
    ),
    (
        b"\\outer\\def\\o{\\message{o}}\\afterassignment\\o\\let\\a=b\\end",
        b"o\n",
        0,
    ),
    (
        b"\\def\\b{\\afterassignment\\c\\newlinechar=}\\def\\c{\\message{a!b}}\\b33 \\b34 \\end",
        b"a\nb a!b\n",
        0,
    ),
    (
        b"\\def\\b{\\afterassignment\\c\\let\\n= }\\def\\c{\\message{[\\meaning\\n]}}\\b xy\\b {\\end",
        b"[the letter x]\n{the letter y}\n[begin-group character {]\n",
        0,
    ),
    (
        b"\\expandafter\\afterassignment\\noexpand\\zz\\let\\a=b\\end",
        b"! Undefined control sequence.\nl.2\n",
        1,
    ),
    (b"\\afterassignment x\\end", b"", 0),
];

#[test]
fn a_waiting_token_comes_once(rt: HostRuntime) {
    rows_hold(&rt, rt.alloc(), &IN_PLACE);
}

/// `\globaldefs`.
const GLOBAL_DEFINITIONS: [Row; 15] = [
    (
        b"\\globaldefs=1 {\\def\\a{x}\\let\\b=y\\catcode`\\!=13 \\def!{t}\\futurelet\\c\\relax z}\\message{\\a\\meaning\\b!\\meaning\\c}\\end",
        b"{the letter z}\nxthe letter ytthe letter z\n",
        0,
    ),
    (
        b"{\\globaldefs=-1 \\gdef\\a{x}\\xdef\\b{y}\\global\\let\\c=z\\global\\catcode`\\!=13 \\message{\\a\\b\\meaning\\c\\meaning!}}\\message{\\meaning\\a,\\meaning\\b,\\meaning\\c,\\meaning!}\\end",
        b"xythe letter zundefined undefined,undefined,undefined,the character !\n",
        0,
    ),
    (
        b"{\\globaldefs=1 \\def\\a{x}}\\message{\\a}{\\def\\b{y}}\\message{\\meaning\\b}\\end",
        b"x undefined\n",
        0,
    ),
    (
        b"{\\global\\globaldefs=1 }{\\def\\a{x}\\globaldefs=0 }\\message{\\a}{\\def\\b{y}}\\message{\\meaning\\b}\\end",
        b"x undefined\n",
        0,
    ),
    (
        b"{\\globaldefs=-1 \\global\\globaldefs=1 {\\def\\a{x}}\\message{\\a}}{\\def\\b{y}}\\message{\\meaning\\b}\\end",
        b"x undefined\n",
        0,
    ),
    (
        b"\\globaldefs=1 {\\csname ab\\endcsname}\\message{\\meaning\\ab}\\end",
        b"undefined\n",
        0,
    ),
    (
        b"\\globaldefs=-1 {\\csname ab\\endcsname\\message{\\meaning\\ab}}\\message{\\meaning\\ab}\\end",
        b"\\relax undefined\n",
        0,
    ),
    (
        b"{\\globaldefs=1 \\newlinechar=`\\x }\\message{axb}\\end",
        b"a\nb\n",
        0,
    ),
    (
        b"{\\globaldefs=-1 \\global\\newlinechar=`\\x }\\message{axb}\\end",
        b"axb\n",
        0,
    ),
    (
        b"\\globaldefs=2147483647 {\\def\\a{x}}\\message{\\a}\\globaldefs=-2147483647 {\\gdef\\a{y}}\\message{\\a}\\end",
        b"x x\n",
        0,
    ),
    (
        b"\\globaldefs=1 \\globaldefs=0 {\\def\\a{x}\\gdef\\b{y}}\\message{\\meaning\\a,\\b}\\end",
        b"undefined,y\n",
        0,
    ),
    (
        b"{\\global\\globaldefs=-1 {\\gdef\\a{x}}\\message{\\meaning\\a}\\globaldefs=0 }{\\gdef\\a{x}}\\message{\\meaning\\a}\\end",
        b"undefined undefined\n",
        0,
    ),
    (
        b"\\globaldefs=-1 {{\\gdef\\a{x}\\message{\\a}}\\message{\\meaning\\a}\\globaldefs=0 \\gdef\\a{y}}\\message{\\a}\\end",
        b"x undefined y\n",
        0,
    ),
    (
        b"\\let\\g\\globaldefs\\g1 {\\let\\a=x}\\message{\\meaning\\a,\\meaning\\g}\\end",
        b"the letter x,\\globaldefs\n",
        0,
    ),
    (
        b"\\globaldefs=1 {\\long\\outer\\def\\a{x}\\global\\edef\\b{y}}\\show\\a\\message{\\b}\\end",
        b"> \\a=\\long\\outer macro:\n->x.\nl.2\ny\n",
        1,
    ),
];

#[test]
fn global_definitions_are_made_or_none(rt: HostRuntime) {
    rows_hold(&rt, rt.alloc(), &GLOBAL_DEFINITIONS);
}

/// Groups that don't match.
const UNMATCHED: [Row; 18] = [
    (b"}\\end", b"! Too many }'s.\nl.2\n", 1),
    (b"\\endgroup\\end", b"! Extra \\endgroup.\nl.2\n", 1),
    (b"{}}\\message{m}\\end", b"! Too many }'s.\nl.2\nm\n", 1),
    (
        b"\\begingroup}\\endgroup\\end",
        b"! Extra }, or forgotten \\endgroup.\nl.2\n",
        1,
    ),
    (
        b"\\begingroup\\def\\a{x}}\\message{\\a}\\endgroup\\message{\\meaning\\a}\\end",
        b"! Extra }, or forgotten \\endgroup.\nl.2\nx undefined\n",
        1,
    ),
    (
        b"{\\endgroup\\end",
        b"! Missing } inserted.\nl.2\n! Extra \\endgroup.\nl.2\n",
        1,
    ),
    (
        b"\\begingroup{\\let\\a=x\\endgroup\\message{\\meaning\\a}\\end",
        b"! Missing } inserted.\nl.2\nundefined\n",
        1,
    ),
    (
        b"{{\\endgroup}\\end",
        b"! Missing } inserted.\nl.2\n! Missing } inserted.\nl.2\n! Extra \\endgroup.\nl.2\n! Too many }'s.\nl.2\n",
        1,
    ),
    (
        b"{\\begingroup}}\\endgroup}\\end",
        b"! Extra }, or forgotten \\endgroup.\nl.2\n! Extra }, or forgotten \\endgroup.\nl.2\n",
        1,
    ),
    (
        b"{\\aftergroup x\\endgroup y\\end",
        b"! Missing } inserted.\nl.2\n{the letter x}\n! Extra \\endgroup.\nl.2\n{the letter y}\n",
        1,
    ),
    (
        b"\\begingroup\\aftergroup x}\\aftergroup y\\endgroup\\end",
        b"! Extra }, or forgotten \\endgroup.\nl.2\n{the letter x}\n{the letter y}\n",
        1,
    ),
    (
        b"\\global}\\end",
        b"! You can't use a prefix with `end-group character }'.\nl.2\n! Too many }'s.\nl.2\n",
        1,
    ),
    (
        b"\\global{\\message{m}}\\end",
        b"! You can't use a prefix with `begin-group character {'.\nl.2\nm\n",
        1,
    ),
    (
        b"\\long\\begingroup\\let\\a=x\\outer\\endgroup\\message{\\meaning\\a}\\end",
        b"! You can't use a prefix with `\\begingroup'.\nl.2\n! You can't use a prefix with `\\endgroup'.\nl.2\nundefined\n",
        1,
    ),
    (
        b"{\\long}\\end",
        b"! You can't use a prefix with `end-group character }'.\nl.2\n",
        1,
    ),
    (
        b"\\ignorespaces  {\\ignorespaces  }\\ignorespaces\\begingroup\\ignorespaces\\endgroup\\ignorespaces}\\end",
        b"! Too many }'s.\nl.2\n",
        1,
    ),
    (
        b"\\message{\\begingroup}\\message{{\\endgroup}}\\end",
        b"\\begingroup  {\\endgroup }\n",
        0,
    ),
    (
        b"\\def\\a{}}\n\\begingroup}\n\\endgroup{\\endgroup\n\\end",
        b"! Too many }'s.\nl.2\n{blank space  }\n! Extra }, or forgotten \\endgroup.\nl.3\n{blank space  }\n! Missing } inserted.\nl.4\n! Extra \\endgroup.\nl.4\n",
        1,
    ),
];

#[test]
fn groups_that_do_not_match_are_reported(rt: HostRuntime) {
    rows_hold(&rt, rt.alloc(), &UNMATCHED);
}

/// The end of a run inside groups.
const INSIDE: [Row; 15] = [
    (
        b"{\\end",
        b"(\\end occurred inside a group at level 1)\n",
        0,
    ),
    (
        b"{{\\begingroup\\end",
        b"(\\end occurred inside a group at level 3)\n",
        0,
    ),
    (
        b"{\\message{m}\\end",
        b"m\n(\\end occurred inside a group at level 1)\n",
        0,
    ),
    (
        b"{}\\begingroup\\endgroup{{}\\end",
        b"(\\end occurred inside a group at level 1)\n",
        0,
    ),
    (
        b"\\zz{\\let\\a=x\\end",
        b"! Undefined control sequence.\nl.2\n(\\end occurred inside a group at level 1)\n",
        1,
    ),
    (
        b"\\begingroup}\\end",
        b"! Extra }, or forgotten \\endgroup.\nl.2\n(\\end occurred inside a group at level 1)\n",
        1,
    ),
    (
        b"{\\aftergroup}\\aftergroup{}{\\end",
        b"! Too many }'s.\nl.2\n(\\end occurred inside a group at level 2)\n",
        1,
    ),
    (
        b"{\\aftergroup\\zz\\end",
        b"(\\end occurred inside a group at level 1)\n",
        0,
    ),
    (
        b"{\\escapechar=-1 \\end",
        b"(end occurred inside a group at level 1)\n",
        0,
    ),
    (
        b"{\\escapechar=`\\!\\end",
        b"(!end occurred inside a group at level 1)\n",
        0,
    ),
    (
        b"{\\newlinechar=`\\o\\end",
        b"(\\end \nccurred inside a gr\nup at level 1)\n",
        0,
    ),
    (
        b"{\\global\\let\\e\\end\\e",
        b"(\\end occurred inside a group at level 1)\n",
        0,
    ),
    (
        b"{%",
        b"! Emergency stop.\n*** (job aborted, no legal \\end found)\n",
        2,
    ),
    (
        b"{\\message{m}%",
        b"m\n! Emergency stop.\n*** (job aborted, no legal \\end found)\n",
        2,
    ),
    (
        b"{{{{{{{{{{{{{{{{{{{{{{{{{{{{{{{{{{{{{{{{{{{{{{{{{{{{{{{{{{{{{{{{{{{{{{{{{{{{{{{{{{{{{{{{{{{{{{{{{{{{\\end",
        b"(\\end occurred inside a group at level 100)\n",
        0,
    ),
];

#[test]
fn an_end_inside_a_group_is_told(rt: HostRuntime) {
    rows_hold(&rt, rt.alloc(), &INSIDE);
}

/// The escape character.
const ESCAPES: [Row; 19] = [
    (
        b"\\escapechar=33 \\message{\\string\\a,\\meaning\\relax,\\noexpand\\a\\noexpand\\ab\\noexpand\\..}\\end",
        b"!a,!relax,!a !ab !..\n",
        0,
    ),
    (
        b"\\escapechar=-1 \\message{\\string\\a,\\meaning\\relax,\\noexpand\\a\\noexpand\\ab\\noexpand\\..}\\end",
        b"a,relax,a ab ..\n",
        0,
    ),
    (
        b"\\escapechar=256 \\message{\\string\\a,\\meaning\\relax,\\noexpand\\a\\noexpand\\ab\\noexpand\\..}\\end",
        b"a,relax,a ab ..\n",
        0,
    ),
    (
        b"\\escapechar=`\\!\\message{\\string\\a\\string\\!\\string!}\\end",
        b"!a!!!\n",
        0,
    ),
    (
        b"\\escapechar=255 \\message{\\string\\a,\\meaning\\relax,\\noexpand\\a}\\end",
        b"^^ffa,^^ffrelax,^^ffa \n",
        0,
    ),
    (
        b"\\escapechar=10 \\message{\\string\\a\\meaning\\end}\\end",
        b"^^Ja^^Jend\n",
        0,
    ),
    (
        b"\\escapechar=127 \\show\\a\\end",
        b"> ^^?a=undefined.\nl.2\n",
        1,
    ),
    (b"\\escapechar=0 \\message{\\string\\a}\\end", b"\na\n", 0),
    (
        b"\\escapechar=32 \\message{[\\string\\a]}\\def\\m#1{\\message{[#1]}}\\expandafter\\m\\string\\a\\end",
        b"[ a] [a]\n",
        0,
    ),
    (b"\\escapechar=92 \\message{\\string\\a}\\end", b"\\a\n", 0),
    (
        b"\\escapechar=2147483648 \\message{\\string\\a}\\end",
        b"! Number too big.\nl.2\na\n",
        1,
    ),
    (
        b"\\escapechar=-2147483647 \\message{\\string\\a}\\end",
        b"a\n",
        0,
    ),
    (
        b"\\escapechar 64 \\message{\\string\\a}\\let\\e\\escapechar\\e=-1 \\message{\\string\\a\\meaning\\e}\\end",
        b"@a aescapechar\n",
        0,
    ),
    (
        b"\\escapechar=33 \\def\\a{\\b\\.\\par}\\message{\\meaning\\a}\\end",
        b"macro:->!b !.!par \n",
        0,
    ),
    (
        b"{\\escapechar=33 \\message{\\string\\a}}\\message{\\string\\a}\\end",
        b"!a \\a\n",
        0,
    ),
    (
        b"{\\escapechar=33 \\global\\escapechar=64 \\message{\\string\\a}\\escapechar=63 }\\message{\\string\\a}\\end",
        b"@a @a\n",
        0,
    ),
    (
        b"\\escapechar=33 \\message{\\string\\a}\\escapechar=-1 \\message{\\string\\a}\\end",
        b"!a a\n",
        0,
    ),
    (
        b"\\catcode`\\~=13 \\escapechar=33 \\message{\\string~\\noexpand~}\\show~\\end",
        b"~~\n> ~=undefined.\nl.2\n",
        1,
    ),
    (
        b"\\escapechar=33 \\message{\\expandafter\\string\\csname\\endcsname}\\end",
        b"!csname!endcsname\n",
        0,
    ),
];

#[test]
fn escape_characters_are_printed(rt: HostRuntime) {
    rows_hold(&rt, rt.alloc(), &ESCAPES);
}

/// The same in the texts that the machine writes of itself.
const ESCAPES_IN_TEXTS: [Row; 15] = [
    (
        b"\\escapechar=33 \\show\\a\\show\\relax\\show a\\end",
        b"> !a=undefined.\nl.2\n> !relax=!relax.\nl.2\n> the letter a.\nl.2\n",
        1,
    ),
    (
        b"\\escapechar=-1 \\long\\outer\\def\\a{\\b x}\\show\\a\\end",
        b"> a=longouter macro:\n->b x.\nl.2\n",
        1,
    ),
    (
        b"\\escapechar=33 \\errmessage{\\noexpand\\a}\\end",
        b"! !a .\nl.2\n",
        1,
    ),
    (
        b"\\escapechar=33 \\endgroup\\begingroup}\\endgroup\\end",
        b"! Extra !endgroup.\nl.2\n! Extra }, or forgotten !endgroup.\nl.2\n",
        1,
    ),
    (
        b"\\escapechar=-1 \\endgroup\\begingroup}\\endgroup\\end",
        b"! Extra endgroup.\nl.2\n! Extra }, or forgotten endgroup.\nl.2\n",
        1,
    ),
    (
        b"\\escapechar=256 \\endgroup\\global\\message{m}\\end",
        b"! Extra endgroup.\nl.2\n! You can't use a prefix with `message'.\nl.2\nm\n",
        1,
    ),
    (
        b"\\escapechar=33 \\csname a\\relax\\endcsname\\end",
        b"! Missing !endcsname inserted.\nl.2\n! Extra !endcsname.\nl.2\n",
        1,
    ),
    (
        b"\\escapechar=33 \\long\\let\\a=b\\global\\message{m}\\end",
        b"! You can't use `!long' or `!outer' with `!let'.\nl.2\n! You can't use a prefix with `!message'.\nl.2\nm\n",
        1,
    ),
    (
        b"\\escapechar=33 \\def\\a.{}\\a x\\end",
        b"! Use of !a doesn't match its definition.\nl.2\n",
        1,
    ),
    (
        b"\\escapechar=33 \\def\\a#1{#2}\\def\\a#1.{}\\a x}\\end",
        b"! Illegal parameter number in definition of !a.\nl.2\n! Argument of !a has an extra }.\nl.2\nRunaway argument?\nx\n! Paragraph ended before !a was complete.\nl.2\n{!par}\n! Too many }'s.\nl.2\n",
        1,
    ),
    (
        b"\\escapechar=33 \\def\\a#1.{}\\a xxxxxxxxxxxxxxxxxxxxxxxxxxxxxxxxxxxxxxxxxxxxxxxxxxxxxxxxxxxxxxx\\par\\end",
        b"Runaway argument?\nxxxxxxxxxxxxxxxxxxxxxxxxxxxxxxxxxxxxxxxxxxxxxxxxxxxxxxxxxxxxxx!ETC.\n! Paragraph ended before !a was complete.\nl.2\n{!par}\n",
        1,
    ),
    (
        b"\\escapechar=33 \\outer\\def\\o{}\\def\\a{x\\o\\end",
        b"Runaway definition?\n->x\n! Forbidden control sequence found while scanning definition of !a.\nl.2\n",
        1,
    ),
    (
        b"\\escapechar=33 \\message{\\noexpand\\a x",
        b"Runaway text?\n!a x \n! File ended while scanning text of !message.\nl.0\n!a x \n! Emergency stop.\n*** (job aborted, no legal \\end found)\n",
        2,
    ),
    (
        b"\\escapechar=-1 \\def 5\\end{}\\message{m}\\end",
        b"! Missing control sequence inserted.\nl.2\nm\n",
        1,
    ),
    (b"\\escapechar=-1 \\par\\end", b"{par}\n", 0),
];

#[test]
fn escape_characters_are_printed_in_fixed_texts(rt: HostRuntime) {
    rows_hold(&rt, rt.alloc(), &ESCAPES_IN_TEXTS);
}

/// The character that is printed as a line feed.
const NEW_LINES: [Row; 12] = [
    (b"\\newlinechar=`\\x \\message{axb}\\end", b"a\nb\n", 0),
    (
        b"\\newlinechar=`\\x \\message{x}\\message{y}\\end",
        b"\ny\n",
        0,
    ),
    (
        b"\\newlinechar=94 \\message{a^^Ab\\string^c}\\end",
        b"a^^Ab\nc\n",
        0,
    ),
    (
        b"\\newlinechar=65 \\message{a^^AbAc}\\end",
        b"a^^Ab\nc\n",
        0,
    ),
    (b"\\newlinechar=1 \\message{a^^Ab}\\end", b"a\nb\n", 0),
    (
        b"\\newlinechar=255 \\message{a^^ffb^^feff}\\end",
        b"a\nb^^feff\n",
        0,
    ),
    (b"\\newlinechar=`\\^^J \\message{a^^Jb}\\end", b"a\nb\n", 0),
    (
        b"\\newlinechar=-1 \\catcode0=12 \\message{a^^@b}\\end",
        b"a^^@b\n",
        0,
    ),
    (
        b"\\newlinechar=256 \\catcode0=12 \\message{a^^@b}\\end",
        b"a^^@b\n",
        0,
    ),
    (
        b"{\\newlinechar=`\\x \\message{axb}}\\message{axb}\\end",
        b"a\nb axb\n",
        0,
    ),
    (
        b"{{\\newlinechar=`\\x\\global\\newlinechar=`\\y\\newlinechar=`\\z\\message{xyz}}\\message{xyz}}\\end",
        b"xy\nx\nz\n",
        0,
    ),
    (
        b"\\newlinechar=`\\# \\message{#}\\def\\a#1{#1}\\message{\\meaning\\a}\\end",
        b"\n\nmacro:\n1->\n1\n",
        0,
    ),
];

#[test]
fn newline_characters_are_line_feeds(rt: HostRuntime) {
    rows_hold(&rt, rt.alloc(), &NEW_LINES);
}

/// The same in the texts that the machine writes of itself; a stop line is none of them.
const NEW_LINES_IN_TEXTS: [Row; 18] = [
    (
        b"\\newlinechar=`\\x \\endgroup\\message{m}\\end",
        b"! E\ntra \\endgroup.\nl.2\nm\n",
        1,
    ),
    (
        b"\\newlinechar=`\\x \\errmessage{axb}\\end",
        b"! a\nb.\nl.2\n",
        1,
    ),
    (
        b"\\newlinechar=32 \\message{a}\\message{b c}\\zz\\end",
        b"a\nb\nc\n!\nUndefined\ncontrol\nsequence.\nl.2\n",
        1,
    ),
    (
        b"\\newlinechar=33 \\zz\\end",
        b"\n Undefined control sequence.\nl.2\n",
        1,
    ),
    (
        b"\\newlinechar=46 \\zz\\end",
        b"! Undefined control sequence\n\nl\n2\n",
        1,
    ),
    (
        b"\\newlinechar=50 \\zz\\end",
        b"! Undefined control sequence.\nl.\n\n",
        1,
    ),
    (
        b"\\newlinechar=62 \\show\\relax\\end",
        b"\n \\relax=\\relax.\nl.2\n",
        1,
    ),
    (
        b"\\newlinechar=`\\m \\def\\a{m}\\show\\a\\message{\\meaning\\a}\\end",
        b"> \\a=\nacro:\n->\n.\nl.2\n\nacro:->\n",
        1,
    ),
    (
        b"\\newlinechar=61 \\show\\relax\\end",
        b"> \\relax\n\\relax.\nl.2\n",
        1,
    ),
    (b"\\newlinechar=`\\l x\\end", b"{the \netter x}\n", 0),
    (b"\\newlinechar=`\\{ x\\end", b"\nthe letter x}\n", 0),
    (
        b"\\newlinechar=`\\\\ \\message{\\string\\a}\\show\\relax\\end",
        b"\na\n> \nrelax=\nrelax.\nl.2\n",
        1,
    ),
    (
        b"\\newlinechar=33 \\escapechar=33 \\message{a\\string\\b}\\show\\relax\\end",
        b"a\nb\n> \nrelax=\nrelax.\nl.2\n",
        1,
    ),
    (
        b"\\newlinechar=`\\; \\def\\a#1.{}\\a x;y\\par\\end",
        b"Runaway argument?\nx\ny\n! Paragraph ended before \\a was complete.\nl.2\n{\\par}\n",
        1,
    ),
    (
        b"\\newlinechar=`\\? \\def\\a#1.{}\\a xy\\par\\end",
        b"Runaway argument\n\nxy\n! Paragraph ended before \\a was complete.\nl.2\n{\\par}\n",
        1,
    ),
    (
        b"\\newlinechar=`\\j\\relax%",
        b"! Emergency stop.\n*** (\nob aborted, no legal \\end found)\n",
        2,
    ),
    (
        b"\\newlinechar=`\\! %",
        b"\n Emergency stop.\n*** (job aborted, no legal \\end found)\n",
        2,
    ),
    (
        b"\\newlinechar=`\\T \\def\\a{\\a x}\\a",
        b"! TeX capacity exceeded, sorry [input stack size=200].\n",
        3,
    ),
];

#[test]
fn newline_characters_are_line_feeds_in_fixed_texts(rt: HostRuntime) {
    rows_hold(&rt, rt.alloc(), &NEW_LINES_IN_TEXTS);
}

/// The character that ends each line.
const LINE_ENDS: [Row; 25] = [
    (
        b"\\endlinechar=-1 \\message{a\nb}\n\n\\message{c}\\end",
        b"a b c\n",
        0,
    ),
    (b"\\endlinechar=-1\n\\message{a\nb}\n\n\\end", b"ab\n", 0),
    (b"\\endlinechar=-1%\n\\message{a\nb\nc}\\end", b"a bc\n", 0),
    (b"\\endlinechar=-1\\relax\n\\message{a\nb}\\end", b"ab\n", 0),
    (b"\\endlinechar=65\n\\message{a\nb}\\end%", b"aAb\n", 0),
    (b"\\endlinechar=256\n\\message{a\nb}\\end", b"ab\n", 0),
    (b"\\endlinechar=255\n\\message{a\nb}\\end%", b"a^^ffb\n", 0),
    (
        b"\\endlinechar=-1\n\\endlinechar=13\n\\message{a\nb}\\end",
        b"ab\n",
        0,
    ),
    (
        b"\\endlinechar=-1\n\\endlinechar=13\\relax\n\\message{a\nb}\\end",
        b"a b\n",
        0,
    ),
    (
        b"\\endlinechar=-1\n\n\\endlinechar=13\\relax\n\n\\end",
        b"{\\par}\n",
        0,
    ),
    (b"\\endlinechar=37\n\\message{a\n\nb}\\end", b"ab\n", 0),
    (b"\\endlinechar=32\n\\message{a\n\nb}\\end", b"a b\n", 0),
    (b"\\endlinechar=0\n\\message{a\nb}\\end", b"ab\n", 0),
    (
        b"\\endlinechar=92\n\\message{\\string\n}\\end%",
        b"\\csname\\endcsname\n",
        0,
    ),
    (b"\\endlinechar=65\n\\message{a^^\nb}\\end%", b"a^^Ab\n", 0),
    (
        b"\\endlinechar=65\n\\message{\\string\\a\nb}\\end%",
        b"\\aAb\n",
        0,
    ),
    (
        b"\\endlinechar=`\\}\n\\message{a\n\\message{b\n\\end%",
        b"a b\n",
        0,
    ),
    (
        b"{\\endlinechar=-1\n\\message{a\nb}}\\message{c\nd}\\end",
        b"ab cd\n",
        0,
    ),
    (b"{\\endlinechar=-1\n}\\message{a\nb\n}\\end", b"ab \n", 0),
    (b"{\\endlinechar=-1 }\\message{a\nb}\\end", b"a b\n", 0),
    (
        b"{\\global\\endlinechar=-1 }\n\\message{a\nb}\\end",
        b"{blank space  }\nab\n",
        0,
    ),
    (
        b"\\endlinechar=-1\n\\message{x",
        b"Runaway text?\nx\n! File ended while scanning text of \\message.\nl.0\nx\n! Emergency stop.\n*** (job aborted, no legal \\end found)\n",
        2,
    ),
    (
        b"\\let\\e\\endlinechar\n\\global\\e=33 x\ny\\end%",
        b"{the letter x}\n{blank space  }\n{the letter y}\n",
        0,
    ),
    (
        b"\\catcode`\\!=13 \\def!{\\message{e}}\\endlinechar=`\\!\n\\relax\n\n\\end%",
        b"e e\n",
        0,
    ),
    (
        b"\\def\\a#1{\\message{[#1]}}\\endlinechar=13\\relax\n\\catcode13=12 \\a\n\\end%",
        b"[^^M]\n",
        0,
    ),
];

#[test]
fn lines_get_the_end_character_of_the_moment(rt: HostRuntime) {
    rows_hold(&rt, rt.alloc(), &LINE_ENDS);
}

/// The commands by their names.
const NAMED: [Row; 9] = [
    (
        b"\\message{\\meaning\\begingroup,\\meaning\\endgroup,\\meaning\\aftergroup,\\meaning\\afterassignment}\\end",
        b"\\begingroup,\\endgroup,\\aftergroup,\\afterassignment\n",
        0,
    ),
    (
        b"\\message{\\meaning\\globaldefs,\\meaning\\escapechar,\\meaning\\endlinechar,\\meaning\\newlinechar}\\end",
        b"\\globaldefs,\\escapechar,\\endlinechar,\\newlinechar\n",
        0,
    ),
    (
        b"\\message{\\aftergroup\\afterassignment\\globaldefs}\\show\\newlinechar\\show\\begingroup\\end",
        b"\\aftergroup \\afterassignment \\globaldefs \n> \\newlinechar=\\newlinechar.\nl.2\n> \\begingroup=\\begingroup.\nl.2\n",
        1,
    ),
    (
        b"\\let\\n\\newlinechar\\n=33 \\message{a!b}\\global\\n34 \\message{a!b}\\end",
        b"a\nb a!b\n",
        0,
    ),
    (
        b"\\long\\newlinechar=33 \\message{a!b}\\end",
        b"! You can't use `\\long' or `\\outer' with `\\newlinechar'.\nl.2\na\nb\n",
        1,
    ),
    (
        b"\\outer\\globaldefs=1 {\\let\\a=b}\\message{\\meaning\\a}\\end",
        b"! You can't use `\\long' or `\\outer' with `\\globaldefs'.\nl.2\nthe letter b\n",
        1,
    ),
    (
        b"\\newlinechar=-\\message{m}\\end",
        b"! Missing number, treated as zero.\nl.2\nm\n",
        1,
    ),
    (
        b"\\newlinechar\"21 \\message{a!b}\\newlinechar = '41 \\message{a!b}\\newlinechar=--33\\message{a!b}\\end",
        b"a\nb a\nb a\nb\n",
        0,
    ),
    (
        b"\\newlinechar=2147483648 \\escapechar=-2147483648 \\message{\\string\\a}\\end",
        b"! Number too big.\nl.2\n! Number too big.\nl.2\na\n",
        1,
    ),
];

#[test]
fn parameters_and_groups_have_their_names(rt: HostRuntime) {
    rows_hold(&rt, rt.alloc(), &NAMED);
}

/// Groups and tokens that come after them without end.
const ENDLESS: [Row; 3] = [
    (
        b"\\def\\a{\\begingroup\\a}\\a",
        b"! TeX capacity exceeded, sorry [grouping levels=255].\n",
        3,
    ),
    (
        b"\\def\\a{\\aftergroup\\relax\\a}{\\a",
        b"! TeX capacity exceeded, sorry [save size=600].\n",
        3,
    ),
    (
        b"\\def\\a{\\begingroup\\let\\b=x\\let\\c=x\\let\\d=x\\let\\e=x\\let\\f=x\\let\\g=x\\a}\\a",
        b"! TeX capacity exceeded, sorry [save size=600].\n",
        3,
    ),
];

#[test]
fn full_tables_end_groups_that_never_end(rt: HostRuntime) {
    rows_hold(&rt, rt.alloc(), &ENDLESS);
}

/// What stands first in a file, what follows so many times, and what stands last; what the file writes, and its status.
pub struct Long {
    pub first: &'static [u8],
    pub text: (&'static [u8], usize),
    pub last: &'static [u8],
    pub written: &'static [u8],
    pub status: u8,
}

/// What an `\end` in one group writes.
const IN_ONE: &[u8] = b"(\\end occurred inside a group at level 1)\n";

/// Groups and tokens that come after them, as many as have room and one more.
const LONG: [Long; 6] = [
    Long {
        first: b"",
        text: (b"{", 255),
        last: b"\\end",
        written: b"(\\end occurred inside a group at level 255)\n",
        status: 0,
    },
    Long {
        first: b"",
        text: (b"{", 256),
        last: b"\\end",
        written: b"! TeX capacity exceeded, sorry [grouping levels=255].\n",
        status: 3,
    },
    Long {
        first: b"{",
        text: (b"\\aftergroup\\relax\n", 599),
        last: b"\\global\\let\\a=x\\end",
        written: IN_ONE,
        status: 0,
    },
    Long {
        first: b"{",
        text: (b"\\aftergroup\\relax\n", 600),
        last: b"\\end",
        written: b"! TeX capacity exceeded, sorry [save size=600].\n",
        status: 3,
    },
    Long {
        first: b"{",
        text: (b"\\aftergroup\\relax\n", 599),
        last: b"\\let\\a=x\\end",
        written: b"! TeX capacity exceeded, sorry [save size=600].\n",
        status: 3,
    },
    Long {
        first: b"",
        text: (b"{\\let\\a=x\\aftergroup\\relax}\n", 300),
        last: b"\\end",
        written: b"",
        status: 0,
    },
];

/// Whether a file does so.
fn long_job(alloc: Global, long: &Long) -> Result<bool, AllocError> {
    let rest = repeated(alloc, long.text.0, long.text.1, long.last)?;
    let whole = repeated(alloc, long.first, 1, rest.as_slice())?;
    let words = ["texmac", "init", "--quiet", "job"];
    Ok(job_with(alloc, &words, whole.as_slice(), long.written, long.status))
}

/// Each of the files does so; the row that doesn't is named.
pub fn long_jobs_hold(rt: &impl Abort, alloc: Global, rows: &[Long]) {
    for (k, long) in rows.iter().enumerate() {
        assert!(rt; matches!(long_job(alloc, long), Ok(true)), "row {k}");
    }
}

#[test]
fn full_tables_end_a_run_at_their_sizes(rt: HostRuntime) {
    long_jobs_hold(&rt, rt.alloc(), &LONG);
}
