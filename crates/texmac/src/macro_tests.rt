// Macros, over files in memory: what real TeX writes of them, token lines aside.
use crate::tests::{INIT, Row, job_with, rows_hold};
use std::alloc::{AllocError, Global};

/// Definitions, with all that is reported of them.
const DEFINITIONS: [Row; 14] = [
    (
        b"\\def x\\end\n",
        b"! Missing control sequence inserted.\nl.2\nRunaway definition?\nx\\end \n! File ended while scanning definition of \\inaccessible.\nl.0\n! Missing { inserted.\nl.0\n! Emergency stop.\n*** (job aborted, no legal \\end found)\n",
        2,
    ),
    (
        b"\\def x{y}\\end\n",
        b"! Missing control sequence inserted.\nl.2\n",
        1,
    ),
    (
        b"\\def\\a#2{#1}\\message{\\a x}\\end\n",
        b"! Parameters must be numbered consecutively.\nl.2\n! Argument of \\a has an extra }.\nl.2\nRunaway argument?\nx\n! Paragraph ended before \\a was complete.\nl.2\n\\par \n",
        1,
    ),
    (
        b"\\def\\a#x{(#1)}\\message{\\a yx}\\end\n",
        b"! Parameters must be numbered consecutively.\nl.2\n(y)\n",
        1,
    ),
    (
        b"\\def\\a##1{(#1)}\\message{\\a y1}\\end\n",
        b"! Parameters must be numbered consecutively.\nl.2\n! Parameters must be numbered consecutively.\nl.2\n(y)\n",
        1,
    ),
    (
        b"\\def\\a#}\\message{\\a}\\end\n",
        b"! Parameters must be numbered consecutively.\nl.2\n! Missing { inserted.\nl.2\n! Argument of \\a has an extra }.\nl.2\nRunaway argument?\n! Paragraph ended before \\a was complete.\nl.2\n\\par \n",
        1,
    ),
    (
        b"\\def\\a#1#2#3#4#5#6#7#8#9#xy{#9#:}\\message{\\a 123456789y.}\\end\n",
        b"! You already have nine parameters.\nl.2\n! Illegal parameter number in definition of \\a.\nl.2\n9##:.\n",
        1,
    ),
    (
        b"\\def\\a#1#2#3#4#5#6#7#8#9#{[#9]}\\message{\\a 12345678{9}{x}}\\end\n",
        b"[]{9}{x}\n",
        0,
    ),
    (
        b"\\def\\a#1{#2}\\message{\\a x}\\end\n",
        b"! Illegal parameter number in definition of \\a.\nl.2\n##2\n",
        1,
    ),
    (
        b"\\def\\a{#1}\\message{\\a}\\end\n",
        b"! Illegal parameter number in definition of \\a.\nl.2\n##1\n",
        1,
    ),
    (
        b"\\def\\a#1{##1#x#1}\\message{\\a y}\\end\n",
        b"! Illegal parameter number in definition of \\a.\nl.2\n##1##xy\n",
        1,
    ),
    (
        b"\\def\\a#1{#}\\message{\\a x}\\end\n",
        b"! Illegal parameter number in definition of \\a.\nl.2\n##\n",
        1,
    ),
    (
        b"\\def\\a}\\message{[\\a]}\\end\n",
        b"! Missing { inserted.\nl.2\n[]\n",
        1,
    ),
    (
        b"\\def\\a#1.}\\message{[\\a x.]}\\end\n",
        b"! Missing { inserted.\nl.2\n[]\n",
        1,
    ),
];

/// Definitions whose bodies are expanded.
const EXPANDED: [Row; 7] = [
    (
        b"\\gdef\\a{x}\\xdef\\b{\\a\\a}\\global\\edef\\c{\\b\\a}\\message{\\a\\b\\c}\\end\n",
        b"xxxxxx\n",
        0,
    ),
    (
        b"\\def\\b{x}\\edef\\a{\\b\\b}\\def\\b{y}\\message{\\a}\\end\n",
        b"xx\n",
        0,
    ),
    (
        b"\\def\\b#1{<#1>}\\edef\\a{\\b{x}\\b y}\\def\\b{}\\message{\\a}\\end\n",
        b"<x><y>\n",
        0,
    ),
    (
        b"\\def\\n{1}\\edef\\a#1{#\\n#1}\\message{\\a x}\\end\n",
        b"xx\n",
        0,
    ),
    (
        b"\\def\\b{ x }\\edef\\a{\\b y}\\message{\\a}\\end\n",
        b" x y\n",
        0,
    ),
    (
        b"\\edef\\a{x\\foo y}\\message{\\a}\\end\n",
        b"! Undefined control sequence.\nl.2\nxy\n",
        1,
    ),
    (
        b"\\edef\\a{#\\foo x}\\message{\\a}\\end\n",
        b"! Undefined control sequence.\nl.2\n! Illegal parameter number in definition of \\a.\nl.2\n##x\n",
        1,
    ),
];

/// What bodies give, and when.
const BODIES: [Row; 14] = [
    (
        b"\\def\\a#1{#1\\b}\\long\\a\\def#1.{[#1]}\\message{\\b x\\par.}\\end\n",
        b"[x\\par ]\n",
        0,
    ),
    (
        b"\\global\\long\\def\\a#1.{[#1]}\\message{\\a x\\par.}\\end\n",
        b"[x\\par ]\n",
        0,
    ),
    (
        b"\\def\\a#1{\\def\\b##1{#1##1}}\\a x\\message{\\b y}\\end\n",
        b"xy\n",
        0,
    ),
    (
        b"\\def\\a{\\def\\a{n}\\message{old}}\\a\\message{\\a}\\end\n",
        b"old n\n",
        0,
    ),
    (
        b"\\def\\a{\\def\\a{\\message{n}}\\message{o}}\\a\\a\\end\n",
        b"o n\n",
        0,
    ),
    (
        b"\\def\\par{\\message{p}}\\def\\a#1.{}\\message{x}%\n\n\\a x\\par\\end\n",
        b"x p\nRunaway argument?\nx\n! Paragraph ended before \\a was complete.\nl.4\np\n",
        1,
    ),
    (
        b"\\catcode`\\~=13 \\def~#1{t#1}\\message{~~x}\\end\n",
        b"ttx\n",
        0,
    ),
    (
        b"\\catcode`\\~=13 \\def~x{}~y\\end\n",
        b"! Use of ~ doesn't match its definition.\nl.2\n",
        1,
    ),
    (
        b"\\def\\a{12 }\\catcode`\\%=\\a\\message{%}\\catcode`\\%=14 \\end\n",
        b"%\n",
        0,
    ),
    (
        b"\\def \\a #1{[#1]}\\def \n\\b{y}\\message{\\a x\\a\\b}\\end\n",
        b"[x][y]\n",
        0,
    ),
    (
        b"\\def\\a#1{\\def#1\\b{y}}\\a{ }\\message{\\b}\\end\n",
        b"y\n",
        0,
    ),
    (
        b"\\outer\\def\\o{x}\\o\\def\\o{y}\\message{\\o}\\end\n",
        b"{the letter x}\ny\n",
        0,
    ),
    (
        b"\\def\\a#1.{#1#1}\\a xy.\\end\n",
        b"{the letter x}\n{the letter y}\n{the letter x}\n{the letter y}\n",
        0,
    ),
    (b"\\def\\a#1.{#1#1}\\a.\\end\n", b"", 0),
];

/// The arguments of calls.
const ARGUMENTS: [Row; 12] = [
    (
        b"\\def\\a#1ab{[#1]}\\message{\\a xaab}\\end\n",
        b"[xa]\n",
        0,
    ),
    (
        b"\\def\\a#1aab{[#1]}\\message{\\a aaab\\a aaaab}\\end\n",
        b"[a][aa]\n",
        0,
    ),
    (
        b"\\def\\a#1\\par x{[#1]}\\message{\\a y\\par x}\\end\n",
        b"[y]\n",
        0,
    ),
    (
        b"\\def\\a#1.{(#1)}\\message{\\a{x}.\\a{x}{y}.}\\end\n",
        b"(x)({x}{y})\n",
        0,
    ),
    (
        b"\\def\\a#1.{[#1]}\\message{\\a{.}.\\a x{.}.\\a.\\a{{x}}.}\\end\n",
        b"[.][x{.}][][{x}]\n",
        0,
    ),
    (
        b"\\def\\a#1ab{[#1]}\\message{\\a{xa}b{ab}ab}\\end\n",
        b"[{xa}b{ab}]\n",
        0,
    ),
    (
        b"\\def\\a#1#2{(#1|#2)}\\message{\\a x {yz}}\\end\n",
        b"(x|yz)\n",
        0,
    ),
    (
        b"\\def\\a#1{[#1]}\\message{\\a{ }\\a  {}}\\end\n",
        b"[ ][]\n",
        0,
    ),
    (
        b"\\def\\a#1#2#3#4#5#6#7#8#9{#9#8#7#6#5#4#3#2#1}\\message{\\a abc{d}efghi}\\end\n",
        b"ihgfedcba\n",
        0,
    ),
    (
        b"\\def\\a#1#{(#1)}\\message{\\a xy{z}}\\end\n",
        b"(xy){z}\n",
        0,
    ),
    (
        b"\\long\\def\\a#1.{(#1)}\\message{\\a x\\par y.}\\end\n",
        b"(x\\par y)\n",
        0,
    ),
    (
        b"\\def\\a#1{\\b#1}\\def\\b#1{#1}\\message{\\a{{x}{y}}}\\end\n",
        b"x{y}\n",
        0,
    ),
];

/// Calls that fail, and calls behind prefixes.
const CALLS: [Row; 12] = [
    (
        b"\\def\\a b#1{}\\a x\\end\n",
        b"! Use of \\a doesn't match its definition.\nl.2\n",
        1,
    ),
    (
        b"\\def\\a b#1{}\\message{x\\a}\\end\n",
        b"! Use of \\a doesn't match its definition.\nl.2\nRunaway text?\nx\\end \n! File ended while scanning text of \\message.\nl.0\nx\\end \n! Emergency stop.\n*** (job aborted, no legal \\end found)\n",
        2,
    ),
    (
        b"\\catcode`\\~=12 \\def\\a#1~{[#1]}\\catcode`\\~=11 \\message{\\a x~y}\\end\n",
        b"! Argument of \\a has an extra }.\nl.2\nRunaway argument?\nx~y\n! Paragraph ended before \\a was complete.\nl.2\n\\par \n",
        1,
    ),
    (
        b"\\def\\a#1{}\\a}\\end\n",
        b"! Argument of \\a has an extra }.\nl.2\nRunaway argument?\n! Paragraph ended before \\a was complete.\nl.2\n{\\par}\n! Too many }'s.\nl.2\n",
        1,
    ),
    (
        b"\\def\\a#1.{}\\a x}\\end\n",
        b"! Argument of \\a has an extra }.\nl.2\nRunaway argument?\nx\n! Paragraph ended before \\a was complete.\nl.2\n{\\par}\n! Too many }'s.\nl.2\n",
        1,
    ),
    (
        b"\\long\\def\\a#1{[#1]}\\message{x\\a}\\end\n",
        b"! Argument of \\a has an extra }.\nl.2\nRunaway argument?\n! Paragraph ended before \\a was complete.\nl.2\nx\\par \n",
        1,
    ),
    (
        b"\\def\\a#1ab{}\\message{\\a xa}\\end\n",
        b"! Argument of \\a has an extra }.\nl.2\nRunaway argument?\nxa\n! Paragraph ended before \\a was complete.\nl.2\n\\par \n",
        1,
    ),
    (
        b"\\def\\a#1a\\par{[#1]}\\message{\\a xa}\\end\n",
        b"! Argument of \\a has an extra }.\nl.2\nRunaway argument?\nxa\n! Paragraph ended before \\a was complete.\nl.2\n\\par \n",
        1,
    ),
    (
        b"\\def\\a#1\\par{[#1]}\\message{\\a x}\\end\n",
        b"! Argument of \\a has an extra }.\nl.2\n[x]\n",
        1,
    ),
    (
        b"\\def\\a{\\message}\\long\\a{x}\\end\n",
        b"! You can't use a prefix with `\\message'.\nl.2\nx\n",
        1,
    ),
    (
        b"\\def\\a{x}\\global\\a\\end\n",
        b"! You can't use a prefix with `the letter x'.\nl.2\n{the letter x}\n",
        1,
    ),
    (
        b"\\def\\a{}\\long\\a\\def\\b#1.{[#1]}\\message{\\b x\\par.}\\end\n",
        b"[x\\par ]\n",
        0,
    ),
];

/// Calls that a `\par` ends, and long lists that run away.
const PARAGRAPHS: [Row; 8] = [
    (
        b"\\def\\a#1.{(#1)}\\a xy\\par z\\end\n",
        b"Runaway argument?\nxy\n! Paragraph ended before \\a was complete.\nl.2\n{\\par}\n{the letter z}\n",
        1,
    ),
    (
        b"\\def\\a#1{(#1)}\\a \\par z\\end\n",
        b"Runaway argument?\n! Paragraph ended before \\a was complete.\nl.2\n{\\par}\n{the letter z}\n",
        1,
    ),
    (
        b"\\def\\a#1{[#1]}\\message{\\a{x{\\par}y}}\\end\n",
        b"Runaway argument?\n{x{\n! Paragraph ended before \\a was complete.\nl.2\n\\par \n{the letter y}\n! Too many }'s.\nl.2\n! Too many }'s.\nl.2\n",
        1,
    ),
    (
        b"\\def\\a#1\\par x{[#1]}\\message{\\a{y\\par x}\\par x}\\end\n",
        b"Runaway argument?\n{y\n! Paragraph ended before \\a was complete.\nl.2\n\\par x\n{\\par}\n{the letter x}\n! Too many }'s.\nl.2\n",
        1,
    ),
    (
        b"\\def\\a#1ab{}\\a xa\\par\\end\n",
        b"Runaway argument?\nxa\n! Paragraph ended before \\a was complete.\nl.2\n{\\par}\n",
        1,
    ),
    (
        b"\\def\\a#1.{}\\a abcdefghijklmnopqrstuvwxyzabcdefghijklmnopqrstuvwxyzabcdefghij\\par\\end\n",
        b"Runaway argument?\nabcdefghijklmnopqrstuvwxyzabcdefghijklmnopqrstuvwxyzabcdefghij\n! Paragraph ended before \\a was complete.\nl.2\n{\\par}\n",
        1,
    ),
    (
        b"\\def\\a#1.{}\\a abcdefghijklmnopqrstuvwxyzabcdefghijklmnopqrstuvwxyzabcdefghijk\\par\\end\n",
        b"Runaway argument?\nabcdefghijklmnopqrstuvwxyzabcdefghijklmnopqrstuvwxyzabcdefghij\\ETC.\n! Paragraph ended before \\a was complete.\nl.2\n{\\par}\n",
        1,
    ),
    (
        b"\\def\\a#1.{}\\a abcdefghijklmnopqrstuvwxyzabcdefghijklmnopqrstuvwxyzabcdefghi\\b c\\par\\end\n",
        b"Runaway argument?\nabcdefghijklmnopqrstuvwxyzabcdefghijklmnopqrstuvwxyzabcdefghi\\b \\ETC.\n! Paragraph ended before \\a was complete.\nl.2\n{\\par}\n",
        1,
    ),
];

/// A file that ends where something is scanned.
const ENDS: [Row; 9] = [
    (
        b"\\def\\a#1.",
        b"Runaway definition?\n#1. \n! File ended while scanning definition of \\a.\nl.0\n! Missing { inserted.\nl.0\n! Emergency stop.\n*** (job aborted, no legal \\end found)\n",
        2,
    ),
    (
        b"\\def\\a#1.{x",
        b"Runaway definition?\n#1.->x \n! File ended while scanning definition of \\a.\nl.0\n! Emergency stop.\n*** (job aborted, no legal \\end found)\n",
        2,
    ),
    (
        b"\\def\\b{xy}\\edef\\a{\\b",
        b"Runaway definition?\n->xy\n! File ended while scanning definition of \\a.\nl.0\n! Emergency stop.\n*** (job aborted, no legal \\end found)\n",
        2,
    ),
    (
        b"\\def\\a#1{}\n\\a{x",
        b"{blank space  }\nRunaway argument?\n{x \n! File ended while scanning use of \\a.\nl.0\n! Emergency stop.\n*** (job aborted, no legal \\end found)\n",
        2,
    ),
    (
        b"\\def\\a#1.{}\\a xy",
        b"Runaway argument?\nxy \n! File ended while scanning use of \\a.\nl.0\n! Emergency stop.\n*** (job aborted, no legal \\end found)\n",
        2,
    ),
    (
        b"\\def\\a#1ab{}\\a{xa%",
        b"Runaway argument?\n{xa\n! File ended while scanning use of \\a.\nl.0\n! Emergency stop.\n*** (job aborted, no legal \\end found)\n",
        2,
    ),
    (
        b"\\def\\a#1ab{}\\a xa%",
        b"Runaway argument?\nx\n! File ended while scanning use of \\a.\nl.0\n! Emergency stop.\n*** (job aborted, no legal \\end found)\n",
        2,
    ),
    (
        b"\\def\\a b{}\\a",
        b"Runaway argument?\n! File ended while scanning use of \\a.\nl.0\n! Use of \\a doesn't match its definition.\nl.0\n! Emergency stop.\n*** (job aborted, no legal \\end found)\n",
        2,
    ),
    (
        b"\\def\\a#1.{}\\a",
        b"Runaway argument?\n! File ended while scanning use of \\a.\nl.0\n! Emergency stop.\n*** (job aborted, no legal \\end found)\n",
        2,
    ),
];

/// Names of `\outer` macros where something is scanned.
const OUTER_NAMES: [Row; 15] = [
    (
        b"\\outer\\def\\o{}\\def\\a#1\\o\\message{x}\\end\n",
        b"Runaway definition?\n#1\n! Forbidden control sequence found while scanning definition of \\a.\nl.2\n! Missing { inserted.\nl.2\nx\n",
        1,
    ),
    (
        b"\\outer\\def\\o{}\\def\\a x\\o\\message{\\a x y}\\end\n",
        b"Runaway definition?\nx\n! Forbidden control sequence found while scanning definition of \\a.\nl.2\n! Missing { inserted.\nl.2\ny\n",
        1,
    ),
    (
        b"\\outer\\def\\o{}\\def\\a#1.{#1x\\o\\message{\\a z.}\\end\n",
        b"Runaway definition?\n#1.->#1x\n! Forbidden control sequence found while scanning definition of \\a.\nl.2\nzx \n",
        1,
    ),
    (
        b"\\outer\\def\\o{}\\def\\a#1.{[#1]}\\a xy\\o z.\\end\n",
        b"Runaway argument?\nxy\n! Forbidden control sequence found while scanning use of \\a.\nl.2\n{the letter z}\n{the character .}\n",
        1,
    ),
    (
        b"\\outer\\def\\o{}\\long\\def\\a#1.{(#1)}\\a x\\o\\message{y}\\end\n",
        b"Runaway argument?\nx\n! Forbidden control sequence found while scanning use of \\a.\nl.2\ny\n",
        1,
    ),
    (
        b"\\outer\\def\\o{}\\def\\a#1ab{}\\a xa\\o\\message{x}\\end\n",
        b"Runaway argument?\nx\n! Forbidden control sequence found while scanning use of \\a.\nl.2\nx\n",
        1,
    ),
    (
        b"\\outer\\def\\o{}\\def\\a b #1.{[#1]}\\a b\\o\\message{x}\\end\n",
        b"Runaway argument?\n! Forbidden control sequence found while scanning use of \\a.\nl.2\nx\n",
        1,
    ),
    (
        b"\\outer\\def\\o{}\\def\\a#1{(#1)}\\a\\o\\message{x}\\end\n",
        b"Runaway argument?\n! Forbidden control sequence found while scanning use of \\a.\nl.2\nx\n",
        1,
    ),
    (
        b"\\outer\\def\\o{}\\def\\a#1{(#1)}\\a{x\\o\\message{y}\\end\n",
        b"Runaway argument?\n{x\n! Forbidden control sequence found while scanning use of \\a.\nl.2\ny\n",
        1,
    ),
    (
        b"\\outer\\def\\o{}\\def\\a b#1{}\\message{\\a\\o}\\end\n",
        b"Runaway argument?\n! Forbidden control sequence found while scanning use of \\a.\nl.2\n! Use of \\a doesn't match its definition.\nl.2\nRunaway text?\n\\par \n! Forbidden control sequence found while scanning text of \\message.\nl.2\n\\par  \n! Too many }'s.\nl.2\n",
        1,
    ),
    (
        b"\\outer\\def\\o{}\\def\\a#1\\par{[#1]}\\message{\\a x\\o y}\\end\n",
        b"Runaway argument?\nx\n! Forbidden control sequence found while scanning use of \\a.\nl.2\nRunaway text?\n[x ]\n! Forbidden control sequence found while scanning text of \\message.\nl.2\n[x ] \n{the letter y}\n! Too many }'s.\nl.2\n",
        1,
    ),
    (
        b"\\outer\\def\\o{}\\def\\a#1.{(#1)}\\edef\\b{z\\a x\\o\\message{\\b}\\end\n",
        b"Runaway argument?\nx\n! Forbidden control sequence found while scanning use of \\a.\nl.2\nRunaway definition?\n->z\n! Forbidden control sequence found while scanning definition of \\b.\nl.2\nz \n",
        1,
    ),
    (
        b"\\outer\\def\\o{}\\message{x\\o y}\\end\n",
        b"Runaway text?\nx\n! Forbidden control sequence found while scanning text of \\message.\nl.2\nx \n{the letter y}\n! Too many }'s.\nl.2\n",
        1,
    ),
    (
        b"\\long\\outer\\def\\o{}\\message{x\\o y}\\end\n",
        b"Runaway text?\nx\n! Forbidden control sequence found while scanning text of \\message.\nl.2\nx \n{the letter y}\n! Too many }'s.\nl.2\n",
        1,
    ),
    (
        b"\\outer\\def\\o{}\\message{x{\\o y}\\end\n",
        b"Runaway text?\nx{\n! Forbidden control sequence found while scanning text of \\message.\nl.2\nRunaway text?\nx{ }\n! Forbidden control sequence found while scanning text of \\message.\nl.2\nx{ } \n{the letter y}\n! Too many }'s.\nl.2\n",
        1,
    ),
];

/// Numbers that are expanded.
const NUMBERS: [Row; 12] = [
    (b"\\message{\\number-007 }\\end\n", b"-7\n", 0),
    (
        b"\\message{\\number\"FF .\\number'17x\\number`a}\\end\n",
        b"255.15x97\n",
        0,
    ),
    (b"\\message{\\number-\\number-3}\\end\n", b"3\n", 0),
    (
        b"\\edef\\a{x\\number 007y}\\message{\\a}\\end\n",
        b"x7y\n",
        0,
    ),
    (
        b"\\def\\a{\\number1\\b}\\def\\b{2\\c}\\def\\c{ }\\message{\\a\\a}\\end\n",
        b"1212\n",
        0,
    ),
    (
        b"\\def\\a#1{#1}\\message{x\\number\\a{12}\\a3y}\\end\n",
        b"x123y\n",
        0,
    ),
    (
        b"\\def\\a#1#2{<#1#2>}\\message{\\a\\number5}\\end\n",
        b"<5>\n",
        0,
    ),
    (
        b"\\message{\\number x}\\end\n",
        b"! Missing number, treated as zero.\nl.2\n0x\n",
        1,
    ),
    (
        b"\\message{\\number\\foo 5}\\end\n",
        b"! Undefined control sequence.\nl.2\n5\n",
        1,
    ),
    (
        b"\\message{\\number2147483648 }\\end\n",
        b"! Number too big.\nl.2\n2147483647\n",
        1,
    ),
    (
        b"\\message{ab\\number1%\n",
        b"Runaway text?\nab\n! File ended while scanning text of \\message.\nl.0\nab1\n! Emergency stop.\n*** (job aborted, no legal \\end found)\n",
        2,
    ),
    (
        b"\\def\\a{\\number\\a}\\a\n",
        b"! TeX capacity exceeded, sorry [expansion depth=400].\n",
        3,
    ),
];

#[test]
fn definitions_are_read(rt: HostRuntime) {
    rows_hold(&rt, rt.alloc(), &DEFINITIONS);
}

#[test]
fn expanded_definitions_are_read(rt: HostRuntime) {
    rows_hold(&rt, rt.alloc(), &EXPANDED);
}

#[test]
fn bodies_are_put(rt: HostRuntime) {
    rows_hold(&rt, rt.alloc(), &BODIES);
}

#[test]
fn arguments_are_gathered(rt: HostRuntime) {
    rows_hold(&rt, rt.alloc(), &ARGUMENTS);
}

#[test]
fn calls_that_fail_are_reported(rt: HostRuntime) {
    rows_hold(&rt, rt.alloc(), &CALLS);
}

#[test]
fn a_paragraph_ends_a_call(rt: HostRuntime) {
    rows_hold(&rt, rt.alloc(), &PARAGRAPHS);
}

#[test]
fn a_file_ends_what_is_scanned(rt: HostRuntime) {
    rows_hold(&rt, rt.alloc(), &ENDS);
}

#[test]
fn outer_names_are_forbidden(rt: HostRuntime) {
    rows_hold(&rt, rt.alloc(), &OUTER_NAMES);
}

#[test]
fn numbers_are_expanded(rt: HostRuntime) {
    rows_hold(&rt, rt.alloc(), NUMBERS.as_slice());
}

/// This text so many times, and then the other.
pub fn repeated(
    alloc: Global,
    text: &[u8],
    count: usize,
    last: &[u8],
) -> Result<Vec<u8>, AllocError> {
    let mut all = Vec::new(alloc);
    for _ in 0..count {
        all.extend_from_slice(text)?;
    }
    all.extend_from_slice(last)?;
    Ok(all)
}

/// Calls that never end.
const ENDLESS: [Row; 3] = [
    (
        b"\\def\\a{\\a x}\\a\n",
        b"! TeX capacity exceeded, sorry [input stack size=200].\n",
        3,
    ),
    (
        b"\\def\\a#1{\\a{#1}x}\\a y\n",
        b"! TeX capacity exceeded, sorry [parameter stack size=60].\n",
        3,
    ),
    (
        b"\\def\\b{xxxxxxxxxx}\\def\\a{\\edef\\b{\\b\\b}\\a}\\a\n",
        b"! TeX capacity exceeded, sorry [main memory size=30000].\n",
        3,
    ),
];

#[test]
fn full_tables_end_calls_that_never_end(rt: HostRuntime) {
    rows_hold(&rt, rt.alloc(), &ENDLESS);
}

/// Whether a job of these words writes a text so many times, and then the other.
fn repeats(
    alloc: Global,
    words: &[&str],
    job: &[u8],
    text: &[u8],
    count: usize,
    last: &[u8],
    status: u8,
) -> bool {
    let Ok(written) = repeated(alloc, text, count, last) else {
        return false;
    };
    job_with(alloc, words, job, written.as_slice(), status)
}

#[test]
fn steps_bound_a_call_that_never_ends(rt: HostRuntime) {
    let words = ["texmac", "init", "--steps", "1000", "job"];
    let last = b"! Step limit reached [steps=1000].\n";
    assert!(rt;
        repeats(
            rt.alloc(),
            &words,
            b"\\def\\a{x\\a}\\a\n",
            b"{the letter x}\n",
            482,
            last,
            4
        )
    );
}

#[test]
fn the_hundredth_report_ends_a_call_that_never_ends(rt: HostRuntime) {
    let text = b"! Undefined control sequence.\nl.2\n";
    let last = b"(That makes 100 errors; please try again.)\n";
    assert!(rt;
        repeats(
            rt.alloc(),
            INIT,
            b"\\def\\a{\\foo\\a}\\a\n",
            text,
            100,
            last,
            2
        )
    );
}

/// A file that ends within a call, a line behind its macro.
const WITHIN_A_CALL: [Row; 1] = [(
    b"\\def\\a#1{}\n\\a{x\n",
    b"{blank space  }\nRunaway argument?\n{x \n! File ended while scanning use of \\a.\nl.0\n! Emergency stop.\n*** (job aborted, no legal \\end found)\n",
    2,
)];

#[test]
fn a_file_ends_within_a_call(rt: HostRuntime) {
    rows_hold(&rt, rt.alloc(), &WITHIN_A_CALL);
}
