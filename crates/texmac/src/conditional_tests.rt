// Conditionals: their tests, the text that they skip, and what stands where they are cut off.
use crate::macro_tests::repeated;
use crate::size_tests::{LEAST, names_at, words_at, words_where_full};
use crate::step_tests::{Counted, steps_hold};
use crate::tests::{Row, job, job_with, rows_hold};
use std::alloc::{AllocError, Global};
use tex_defs::Table;

/// `\ifnum`: relations, values of each kind, and what is missing.
const NUMBERS: [Row; 12] = [
    (
        b"\\message{\\ifnum1<2 a\\else b\\fi\\ifcase2 x\\or y\\or z\\else w\\fi\\if aab\\fi}\\end",
        b"azb\n",
        0,
    ),
    (
        b"\\message{\\ifnum2<1 a\\else b\\fi\\ifnum1=1 c\\else d\\fi\\ifnum1>2 e\\else f\\fi\\ifnum2>1 g\\fi\\ifnum1<1 h\\fi\\ifnum-1<0 i\\fi\\ifnum1>1 j\\fi}\\end",
        b"bcfgi\n",
        0,
    ),
    (
        b"\\count1=5 \\count2=-5 \\message{\\ifnum\\count1>\\count2 a\\fi\\ifnum-\\count1=\\count2 b\\fi\\ifnum\\count1=5c\\fi\\ifnum'17=\"F d\\fi\\ifnum`a=97 e\\fi\\ifnum`\\a<`\\b f\\fi}\\end",
        b"abcdef\n",
        0,
    ),
    (
        b"\\message{\\ifnum2147483647>-2147483647 a\\fi\\ifnum-2147483647<2147483647 b\\fi\\ifnum\"7FFFFFFF='17777777777 c\\fi\\ifnum0=-0 d\\fi\\ifnum-2147483647=--2147483647 e\\else f\\fi}\\end",
        b"abcdf\n",
        0,
    ),
    (
        b"\\def\\r{<}\\def\\s{ }\\message{\\ifnum1 < 2 a\\fi\\ifnum1\\r2 b\\fi\\ifnum1 \\s\\s=\\s1 c\\fi\\ifnum1\\s>\\s\\s0\\s d\\fi}\\end",
        b"abcd\n",
        0,
    ),
    (
        b"\\chardef\\c=65 \\mathchardef\\m=66 \\dimen1=1sp\\skip1=2sp plus 3pt\\message{\\ifnum\\c<\\m a\\fi\\ifnum\\dimen1<\\skip1 b\\fi\\ifnum\\catcode`\\a=11 c\\fi\\ifnum\\tolerance=10000 d\\fi\\ifnum\\hsize=\\parskip e\\fi}\\end",
        b"abcde\n",
        0,
    ),
    (
        b"\\message{\\ifnum1 2 a\\else b\\fi}\\end",
        b"! Missing = inserted for \\ifnum.\nl.2\nb\n",
        1,
    ),
    (
        b"\\catcode`\\<=11 \\message{\\ifnum1<2 a\\else b\\fi}\\end",
        b"! Missing = inserted for \\ifnum.\nl.2\n! Missing number, treated as zero.\nl.2\nb\n",
        1,
    ),
    (
        b"\\let\\x=<\\message{\\ifnum1\\x2 a\\else b\\fi}\\end",
        b"! Missing = inserted for \\ifnum.\nl.2\n! Missing number, treated as zero.\nl.2\nb\n",
        1,
    ),
    (
        b"\\message{\\ifnum\\relax<1 a\\else b\\fi}\\end",
        b"! Missing number, treated as zero.\nl.2\n! Missing = inserted for \\ifnum.\nl.2\n! Missing number, treated as zero.\nl.2\n\\relax <1 a\n",
        1,
    ),
    (
        b"\\message{\\ifnum2147483648>2147483646 a\\fi\\ifnum1=1\\else b\\fi c}\\end",
        b"! Number too big.\nl.2\na\\relax c\n",
        1,
    ),
    (
        b"\\message{\\ifnum\\thinmuskip=0 a\\fi\\ifnum\\everypar=0 b\\fi\\ifnum\\count256=0 c\\fi\\ifnum`\\foo=48 d\\fi}\\end",
        b"! Incompatible glue units.\nl.2\n! Missing number, treated as zero.\nl.2\n! Missing = inserted for \\ifnum.\nl.2\n! Missing number, treated as zero.\nl.2\n! Bad register code (256).\nl.2\n! Improper alphabetic constant.\nl.2\n! Undefined control sequence.\nl.2\na\\everypar =0 bcd\n",
        1,
    ),
];

#[test]
fn numbers_are_compared(rt: HostRuntime) {
    rows_hold(&rt, rt.alloc(), &NUMBERS);
}

/// `\ifdim`: units, registers, factors, and what is missing.
const DIMENSIONS: [Row; 8] = [
    (b"\\ifdim1pt=65536sp y\\fi\\end", b"{the letter y}\n", 0),
    (
        b"\\message{\\ifdim1in>2.54cm a\\else b\\fi\\ifdim1in=72.27pt c\\else d\\fi\\ifdim-1pt<0pt e\\fi\\ifdim1 pc=12 pt f\\fi\\ifdim.5em=-0ex g\\fi}\\end",
        b"adefg\n",
        0,
    ),
    (
        b"\\dimen1=3pt\\dimen2=-3pt\\message{\\ifdim\\dimen1>\\dimen2 a\\fi\\ifdim-\\dimen1=\\dimen2 b\\fi\\ifdim2\\dimen1=6pt c\\fi\\ifdim.5\\dimen1=1.5pt d\\fi\\ifdim\\hsize=0pt e\\fi}\\end",
        b"abcde\n",
        0,
    ),
    (
        b"\\skip1=1pt plus 2pt\\count1=2 \\message{\\ifdim\\skip1=1pt a\\fi\\ifdim\\count1pt=2pt b\\fi\\ifdim-\\count1\\skip1=-2pt c\\fi\\ifdim\\tolerance sp>1sp d\\fi}\\end",
        b"abcd\n",
        0,
    ),
    (
        b"\\message{\\ifdim1=1pt a\\else b\\fi}\\end",
        b"! Illegal unit of measure (pt inserted).\nl.2\na\n",
        1,
    ),
    (
        b"\\message{\\ifdim1pt 1pt a\\else b\\fi}\\end",
        b"! Missing = inserted for \\ifdim.\nl.2\na\n",
        1,
    ),
    (
        b"\\mag=2000 \\message{\\ifdim16384pt>1pt a\\fi\\ifdim1truept=.5pt b\\fi\\ifdim\\thinmuskip=0pt c\\fi\\ifdim\\everypar=0pt d\\fi}\\end",
        b"! Dimension too large.\nl.2\n! Incompatible glue units.\nl.2\n! Missing number, treated as zero.\nl.2\n! Missing = inserted for \\ifdim.\nl.2\n! Missing number, treated as zero.\nl.2\nabc\\everypar =0pt d\n",
        1,
    ),
    (
        b"\\message{\\ifdim1\\ifnum1=1 pt\\else sp\\fi=\\iftrue1pt\\fi a\\else b\\fi}\\end",
        b"a\n",
        0,
    ),
];

#[test]
fn dimensions_are_compared(rt: HostRuntime) {
    rows_hold(&rt, rt.alloc(), &DIMENSIONS);
}

/// `\ifodd`.
const PARITY: [Row; 3] = [
    (
        b"\\message{\\ifodd1 a\\fi\\ifodd2 b\\fi\\ifodd-1 c\\fi\\ifodd-2 d\\fi\\ifodd0 e\\fi\\ifodd2147483647 f\\fi\\ifodd-2147483647 g\\fi\\ifodd\"A h\\fi\\ifodd`a i\\fi}\\end",
        b"acfgi\n",
        0,
    ),
    (
        b"\\count1=7 \\dimen1=3sp\\message{\\ifodd\\count1 a\\else b\\fi\\ifodd-\\count1 c\\else d\\fi\\ifodd\\dimen1 e\\else f\\fi\\ifodd\\dimen2 g\\else h\\fi}\\end",
        b"aceh\n",
        0,
    ),
    (
        b"\\message{\\ifodd\\relax a\\else b\\fi\\ifodd x a\\else c\\fi}\\end",
        b"! Missing number, treated as zero.\nl.2\n! Missing number, treated as zero.\nl.2\nbc\n",
        1,
    ),
];

#[test]
fn odd_numbers_are_found(rt: HostRuntime) {
    rows_hold(&rt, rt.alloc(), &PARITY);
}

/// `\ifcase`: negative and large numbers, cases within cases, and enders in its number.
const CASES: [Row; 10] = [
    (
        b"\\message{\\ifcase0 a\\or b\\or c\\else d\\fi\\ifcase1 a\\or b\\or c\\else d\\fi\\ifcase2 a\\or b\\or c\\else d\\fi\\ifcase3 a\\or b\\or c\\else d\\fi}\\end",
        b"abcd\n",
        0,
    ),
    (
        b"\\message{\\ifcase-1 a\\or b\\else c\\fi\\ifcase-2147483647 a\\or b\\else d\\fi\\ifcase2147483647 a\\or b\\else e\\fi\\ifcase5 a\\or b\\fi\\ifcase-5 a\\or b\\fi}\\end",
        b"cde\n",
        0,
    ),
    (b"\\ifcase-1 a\\else b\\fi\\end", b"{the letter b}\n", 0),
    (
        b"\\message{\\ifcase1 \\ifcase0 x\\or y\\fi\\or a\\ifcase1 b\\or c\\or d\\else e\\fi f\\or g\\fi h}\\end",
        b"acfh\n",
        0,
    ),
    (
        b"\\message{\\ifcase\\ifnum1<2 1\\else0\\fi\\or a\\else b\\fi}\\end",
        b"a\n",
        0,
    ),
    (
        b"\\def\\n{2}\\message{\\ifcase\\n a\\or b\\or c\\fi\\ifcase x a\\or b\\fi}\\end",
        b"! Missing number, treated as zero.\nl.2\ncx a\n",
        1,
    ),
    (
        b"\\message{\\ifcase1\\or\\or a\\fi|\\ifcase2\\or\\or b\\fi|\\ifcase0\\or c\\fi}\\end",
        b"|b|\\relax \n",
        0,
    ),
    (
        b"\\message{\\ifcase1 a\\else b\\or c\\fi}\\end",
        b"! Extra \\or.\nl.2\nbc\n",
        1,
    ),
    (
        b"\\message{\\ifcase0 a\\else b\\or c\\fi\\ifcase1 a\\or b\\else c\\or d\\else e\\fi f}\\end",
        b"abf\n",
        0,
    ),
    (
        b"\\message{\\ifcase2 a\\or\\ifcase2 b\\or c\\or d\\else e\\fi f\\or\\iffalse g\\or h\\fi i\\else j\\fi}\\end",
        b"! Extra \\or.\nl.2\ni\n",
        1,
    ),
];

#[test]
fn cases_are_chosen(rt: HostRuntime) {
    rows_hold(&rt, rt.alloc(), &CASES);
}

/// `\if` and `\ifcat`: explicit and implicit characters, names that are none, and active characters.
const CHARACTERS: [Row; 15] = [
    (
        b"\\message{\\if aab\\fi\\if abc\\else d\\fi\\if Aa1\\else2\\fi\\if**3\\else4\\fi\\if 11 5\\fi}\\end",
        b"bd23 5\n",
        0,
    ),
    (
        b"\\catcode`\\!=11 \\let\\x=!\\catcode`\\!=12 \\message{\\if\\x!a\\else b\\fi\\ifcat\\x!c\\else d\\fi\\ifcat\\x e f\\else g\\fi}\\end",
        b"ad f\n",
        0,
    ),
    (
        b"\\let\\a=a\\let\\b=b\\message{\\if\\a a1\\fi\\if\\a\\b2\\else3\\fi\\if a\\a4\\fi\\if\\a\\a5\\fi}\\end",
        b"1345\n",
        0,
    ),
    (
        b"\\chardef\\c=97 \\message{\\if\\relax\\par a\\else b\\fi\\if\\relax\\count c\\else d\\fi\\if\\relax e\\else f\\fi\\ifcat\\relax\\par g\\fi\\ifcat\\relax h\\else i\\fi\\if\\c a1\\else2\\fi\\if\\c\\relax3\\else4\\fi\\ifcat\\c\\relax5\\else6\\fi}\\end",
        b"acfgi235\n",
        0,
    ),
    (
        b"\\let\\bg={\\let\\eg=}\\message{\\if\\bg\\bg1\\fi\\if\\bg\\eg2\\else3\\fi\\ifcat\\bg\\eg4\\else5\\fi\\ifcat\\bg\\bg6\\fi\\if\\bg\\relax7\\else8\\fi\\if{}a\\else b\\fi\\ifcat{{c\\else d\\fi}\\end",
        b"13568bc\n",
        0,
    ),
    (
        b"\\def\\s{ }\\message{\\if\\s\\s a\\fi\\if\\s b c\\else d\\fi\\ifcat\\s\\s e\\fi\\ifcat\\s a f\\else g\\fi\\if a\\s a\\else h\\fi}\\end",
        b"adegh\n",
        0,
    ),
    (
        b"\\def\\a{*}\\def\\b{**}\\message{\\if\\a\\a1\\fi\\if\\b2\\else3\\fi\\if\\b\\b4\\fi\\if\\foo ab\\else c\\fi}\\end",
        b"! Undefined control sequence.\nl.2\n12**4c\n",
        1,
    ),
    (
        b"\\catcode`\\~=13 \\catcode`\\!=13 \\def~{x}\\def!{y}\\message{\\if~x1\\else2\\fi\\if\\noexpand~\\noexpand~3\\fi\\if\\noexpand~\\noexpand!4\\else5\\fi\\ifcat\\noexpand~\\noexpand!6\\fi\\if\\noexpand~\\string~7\\else8\\fi\\ifcat\\noexpand~\\relax9\\else0\\fi}\\end",
        b"135670\n",
        0,
    ),
    (
        b"\\catcode`\\~=13 \\message{\\ifcat\\noexpand~\\noexpand~a\\fi\\if\\noexpand~\\relax b\\else c\\fi}\\let~=\\relax\\message{\\if\\noexpand~\\relax a\\else b\\fi\\ifcat\\noexpand~\\relax c\\else d\\fi}\\end",
        b"ac ac\n",
        0,
    ),
    (
        b"\\catcode`\\~=13 \\let~=a\\message{\\if~a1\\fi\\if\\noexpand~a2\\else3\\fi\\if\\noexpand~\\string~4\\else5\\fi\\ifcat\\noexpand~a6\\fi}\\end",
        b"1256\n",
        0,
    ),
    (
        b"\\if\\noexpand\\a\\relax y\\else n\\fi\\end",
        b"{the letter y}\n",
        0,
    ),
    (
        b"\\def\\a{x}\\message{\\if\\noexpand\\a\\relax y\\else n\\fi\\ifcat\\noexpand\\a\\relax y\\else n\\fi\\if\\noexpand\\a x1\\else2\\fi\\ifcat\\noexpand\\a\\noexpand\\foo3\\fi}\\edef\\b{\\if\\noexpand\\a x1\\else2\\fi\\noexpand\\a}\\message{\\meaning\\b}\\end",
        b"yy23 macro:->2\\a \n",
        0,
    ),
    (
        b"\\catcode`\\$=3 \\catcode`\\&=4 \\catcode`\\_=8 \\message{\\ifcat$$1\\fi\\ifcat&&2\\fi\\ifcat##3\\fi\\ifcat^_4\\else5\\fi\\ifcat__6\\fi\\ifcat#$7\\else8\\fi\\ifcat#&9\\else0\\fi}\\end",
        b"1235680\n",
        0,
    ),
    (
        b"\\message{\\ifcat11a\\fi\\ifcat1ab\\else c\\fi\\ifcat abd\\fi\\ifcat1*e\\fi\\ifcat a\\string af\\else g\\fi\\if a\\string ah\\fi}\\end",
        b"acdegh\n",
        0,
    ),
    (
        b"\\message{\\if\\iftrue a\\else b\\fi a1\\else2\\fi\\if\\ifnum1=2 a\\else b\\fi b3\\fi\\ifcat a\\iffalse1\\else b\\fi4\\else5\\fi}\\end",
        b"134\n",
        0,
    ),
];

#[test]
fn characters_are_compared(rt: HostRuntime) {
    rows_hold(&rt, rt.alloc(), &CHARACTERS);
}

/// `\ifx`: macros with the same and other flags, parameter texts and bodies; all other meanings; marked and frozen names.
const COMPARED: [Row; 17] = [
    (
        b"\\ifx\\foo\\baz\\fi\\message{\\ifx aa1\\fi\\ifx ab2\\else3\\fi\\ifx11 4\\fi\\ifx++5\\fi\\ifx{{6\\else7\\fi\\ifx{}8\\else9\\fi\\ifx a\\foo0\\else1\\fi}\\end",
        b"13 45691\n",
        0,
    ),
    (
        b"\\catcode`\\!=11 \\let\\x=!\\catcode`\\!=12 \\let\\y=!\\message{\\ifx\\x!1\\else2\\fi\\ifx\\y!3\\else4\\fi\\ifx\\x\\y5\\else6\\fi}\\end",
        b"236\n",
        0,
    ),
    (
        b"\\def\\a{x}\\def\\b{x}\\def\\c{y}\\def\\d{xy}\\def\\e{}\\def\\f{}\\let\\g=\\c\\message{\\ifx\\a\\b1\\fi\\ifx\\a\\c2\\else3\\fi\\ifx\\a\\a4\\fi\\ifx\\c\\g5\\fi\\ifx\\a\\d6\\else7\\fi\\ifx\\d\\a8\\else9\\fi\\ifx\\e\\f0\\fi\\ifx\\e\\a1\\else2\\fi}\\end",
        b"13457902\n",
        0,
    ),
    (
        b"\\def\\a{x}\\long\\def\\b{x}\\outer\\def\\c{x}\\long\\outer\\def\\d{x}\\outer\\def\\e{x}\\long\\def\\f{x}\\message{\\ifx\\a\\b1\\else2\\fi\\ifx\\a\\c3\\else4\\fi\\ifx\\b\\d5\\else6\\fi\\ifx\\c\\d7\\else8\\fi\\ifx\\c\\e9\\else0\\fi\\ifx\\b\\f1\\fi}\\end",
        b"246891\n",
        0,
    ),
    (
        b"\\def\\a#1{x}\\def\\b#1{x}\\def\\c#1.{x}\\def\\d#1#2{x}\\def\\e{x}\\def\\f#1.{x}\\message{\\ifx\\a\\b1\\fi\\ifx\\a\\c2\\else3\\fi\\ifx\\a\\d4\\else5\\fi\\ifx\\a\\e6\\else7\\fi\\ifx\\c\\f8\\fi}\\end",
        b"13578\n",
        0,
    ),
    (
        b"\\def\\a#1#2{#1#2}\\def\\b#1#2{#2#1}\\def\\c#1#2{#1#2}\\def\\d#1#{#1}\\def\\e#1#{#1}\\message{\\ifx\\a\\b1\\else2\\fi\\ifx\\a\\c3\\fi\\ifx\\d\\e4\\fi\\ifx\\d\\c5\\else6\\fi}\\end",
        b"2346\n",
        0,
    ),
    (
        b"\\catcode`\\!=6 \\def\\a#1{#1}\\def\\b!1{!1}\\def\\c!1{#1}\\message{\\ifx\\a\\b1\\else2\\fi\\ifx\\b\\c3\\else4\\fi}\\end",
        b"23\n",
        0,
    ),
    (
        b"\\def\\a{!}\\catcode`\\!=11 \\def\\b{!}\\def\\c{\\x}\\def\\d{\\x}\\let\\y=\\x\\def\\e{\\y}\\message{\\ifx\\a\\b1\\else2\\fi\\ifx\\c\\d3\\fi\\ifx\\c\\e4\\else5\\fi}\\end",
        b"235\n",
        0,
    ),
    (
        b"\\def\\a{}\\let\\b=\\undefined\\message{\\ifx\\foo\\baz1\\else2\\fi\\ifx\\foo\\a3\\else4\\fi\\ifx\\b\\foo5\\fi\\ifx\\foo\\relax6\\else7\\fi}\\end",
        b"1457\n",
        0,
    ),
    (
        b"\\let\\a=\\relax\\let\\b=\\message\\message{\\ifx\\a\\relax1\\fi\\ifx\\b\\message2\\fi\\ifx\\message\\relax3\\else4\\fi\\ifx\\fi\\fi5\\fi\\ifx\\iftrue\\iftrue6\\fi\\ifx\\iffalse\\iftrue7\\else8\\fi\\ifx\\else\\or9\\else0\\fi\\ifx\\a\\a1\\fi}\\end",
        b"12456801\n",
        0,
    ),
    (
        b"\\expandafter\\ifx\\csname foo\\endcsname\\relax\\message{1}\\fi\\ifx\\foo\\relax\\message{2}\\fi\\end",
        b"1 2\n",
        0,
    ),
    (
        b"\\countdef\\a=1 \\countdef\\b=1 \\countdef\\c=2 \\dimendef\\d=1 \\chardef\\e=1 \\chardef\\f=1 \\mathchardef\\g=1 \\toksdef\\h=0 \\message{\\ifx\\a\\b1\\fi\\ifx\\a\\c2\\else3\\fi\\ifx\\a\\d4\\else5\\fi\\ifx\\e\\f6\\fi\\ifx\\e\\g7\\else8\\fi\\ifx\\a\\count9\\else0\\fi\\ifx\\h\\everypar1\\else2\\fi}\\end",
        b"1356802\n",
        0,
    ),
    (
        b"\\def\\a{x}\\def\\b{y}\\message{\\expandafter\\ifx\\noexpand\\a\\relax1\\else2\\fi\\expandafter\\expandafter\\expandafter\\ifx\\expandafter\\noexpand\\expandafter\\a\\noexpand\\b3\\else4\\fi\\expandafter\\ifx\\noexpand\\a\\a5\\else6\\fi\\expandafter\\ifx\\noexpand\\relax\\relax7\\fi\\expandafter\\ifx\\noexpand x x8\\fi\\ifx\\noexpand\\relax9\\else0\\fi}\\end",
        b"23670\n",
        0,
    ),
    (
        b"\\let\\R=\\relax\\let\\relax=x\\edef\\r{\\ifnum1=1\\fi}\\message{\\expandafter\\ifx\\r\\R1\\else2\\fi\\ifx\\R\\relax3\\else4\\fi\\meaning\\r}\\end",
        b"14macro:->\\relax \n",
        0,
    ),
    (
        b"\\outer\\def\\o{x}\\outer\\def\\p{x}\\edef\\a{\\ifx\\o\\p1\\else2\\fi}\\message{\\a\\ifx\\o\\foo3\\else4\\fi}\\toks0={a}\\end",
        b"14\n",
        0,
    ),
    (
        b"\\def\\a{x}\\let\\b=\\a\\def\\a{x}\\message{\\ifx\\a\\b1\\else2\\fi}{\\def\\a{z}\\message{\\ifx\\a\\b3\\else4\\fi}}\\message{\\ifx\\a\\b5\\else6\\fi}\\end",
        b"1 4 5\n",
        0,
    ),
    (
        b"\\catcode`\\~=13 \\def~{x}\\def\\a{x}\\catcode`\\!=13 \\message{\\ifx~\\a1\\else2\\fi\\ifx~~3\\fi\\ifx!\\foo4\\fi\\ifx~!5\\else6\\fi}\\let\\b=b\\message{\\ifx\\b b7\\fi}\\end",
        b"1346 7\n",
        0,
    ),
];

#[test]
fn meanings_are_compared(rt: HostRuntime) {
    rows_hold(&rt, rt.alloc(), &COMPARED);
}

/// Tests that read nothing, and those of boxes. The mode is vertical, and all boxes are void.
const CONSTANT: [Row; 7] = [
    (
        b"\\message{\\iftrue a\\else b\\fi\\iffalse a\\else b\\fi\\iftrue c\\fi\\iffalse d\\fi}\\end",
        b"abc\n",
        0,
    ),
    (
        b"\\message{\\ifvmode a\\else b\\fi\\ifhmode c\\else d\\fi\\ifmmode e\\else f\\fi\\ifinner g\\else h\\fi}\\end",
        b"adfh\n",
        0,
    ),
    (
        b"x\\ifvmode y\\fi\\ifhmode z\\fi\\ifinner z\\fi\\end",
        b"{the letter x}\n{the letter y}\n",
        0,
    ),
    (
        b"\\message{\\ifvoid0 a\\else b\\fi\\ifhbox1 c\\else d\\fi\\ifvbox255 e\\else f\\fi\\ifvoid\\count1 g\\fi}\\end",
        b"adfg\n",
        0,
    ),
    (
        b"\\message{\\ifvoid256 a\\else b\\fi\\ifhbox-1 c\\else d\\fi\\ifvbox1000 e\\else f\\fi\\ifvoid x g\\fi}\\end",
        b"! Bad register code (256).\nl.2\n! Bad register code (-1).\nl.2\n! Bad register code (1000).\nl.2\n! Missing number, treated as zero.\nl.2\nadfx g\n",
        1,
    ),
    (
        b"\\message{\\meaning\\ifnum,\\meaning\\fi,\\meaning\\else,\\meaning\\or,\\meaning\\ifx,\\string\\ifcase}\\show\\fi\\show\\iftrue\\let\\x=\\else\\show\\x\\end",
        b"\\ifnum,\\fi,\\else,\\or,\\ifx,\\ifcase\n> \\fi=\\fi.\nl.2\n> \\iftrue=\\iftrue.\nl.2\n> \\x=\\else.\nl.2\n",
        1,
    ),
    (
        b"\\let\\IF=\\iftrue\\let\\FI=\\fi\\let\\EL=\\else\\message{\\IF a\\EL b\\FI}\\let\\IF=\\iffalse\\message{\\IF a\\IF\\EL b\\FI\\EL c\\FI d}\\end",
        b"a cd\n",
        0,
    ),
];

#[test]
fn tests_without_readings_are_known(rt: HostRuntime) {
    rows_hold(&rt, rt.alloc(), &CONSTANT);
}

/// Conditionals within others, and text that is skipped.
const NESTED: [Row; 12] = [
    (
        b"\\message{\\iftrue\\iftrue a\\else b\\fi\\else c\\fi\\iftrue\\iffalse d\\else e\\fi\\else f\\fi\\iffalse\\iftrue g\\else h\\fi i\\else j\\fi}\\end",
        b"aej\n",
        0,
    ),
    (b"\\iffalse\\if\\fi x\\fi\\end", b"", 0),
    (
        b"\\message{\\iffalse\\if\\fi\\ifcat\\fi\\ifnum\\fi\\ifdim\\fi\\ifodd\\fi\\ifvmode\\fi\\ifhmode\\fi\\ifmmode\\fi\\ifinner\\fi\\ifvoid\\fi\\ifhbox\\fi\\ifvbox\\fi\\ifx\\fi\\iftrue\\fi\\iffalse\\fi\\ifcase\\fi\\else a\\fi}\\end",
        b"a\n",
        0,
    ),
    (
        b"\\message{\\iffalse\\ifcase\\or\\else\\or\\fi\\ifx\\iftrue\\else\\fi\\else\\fi a\\else b\\fi c}\\end",
        b"bc\n",
        0,
    ),
    (
        b"\\iffalse{\\fi\\message{a}\\iffalse}\\fi\\message{\\iffalse{\\foo#\\bar{\\fi b}\\end",
        b"a b\n",
        0,
    ),
    (
        b"\\ifnum1=2 {\\else }\\fi\\end",
        b"! Too many }'s.\nl.2\n",
        1,
    ),
    (
        b"\\message{\\iffalse a % \\fi\n\n b\x7f\\fi c}\\end",
        b"! Text line contains an invalid character.\nl.4\nc\n",
        1,
    ),
    (
        b"\\def\\x{\\fi}\\message{\\iffalse a\\x b\\csname fi\\endcsname\\else c\\fi}\\catcode`\\~=13 \\let~=\\fi\\message{\\iffalse a~b}\\end",
        b"c b\n",
        0,
    ),
    (
        b"\\message{\\expandafter\\iffalse\\noexpand\\fi a\\fi b\\iftrue c\\expandafter\\else\\noexpand\\fi d\\fi e}\\end",
        b"bce\n",
        0,
    ),
    (
        b"\\message{\\ifcase3 \\ifcase0 a\\or b\\fi\\or\\ifodd1 \\or\\fi\\or\\iftrue\\else\\or\\fi\\or c\\else d\\fi}\\end",
        b"c\n",
        0,
    ),
    (
        b"\\message{\\iftrue a\\else\\iffalse\\or\\else\\or\\fi\\or b\\else c\\fi d}\\end",
        b"ad\n",
        0,
    ),
    (
        b"\\def\\a#1{\\ifcase#1 \\ifnum#1=0 z\\else y\\fi\\or\\ifodd#1 o\\else e\\fi\\else\\ifnum#1<0 n\\else\\ifnum#1>9 b\\else s\\fi\\fi\\fi}\\message{\\a0\\a1\\a5\\a{-3}\\a{12}}\\end",
        b"zosnb\n",
        0,
    ),
];

#[test]
fn conditionals_nest(rt: HostRuntime) {
    rows_hold(&rt, rt.alloc(), &NESTED);
}

/// A `\fi`, an `\else` and an `\or` in each part of a conditional.
const ENDERS: [Row; 11] = [
    (b"\\else\\end", b"! Extra \\else.\nl.2\n", 1),
    (
        b"\\fi\\or\\else\\fi\\end",
        b"! Extra \\fi.\nl.2\n! Extra \\or.\nl.2\n! Extra \\else.\nl.2\n! Extra \\fi.\nl.2\n",
        1,
    ),
    (
        b"\\iftrue\\message{a}\\or\\message{b}\\fi\\message{c}\\end",
        b"a\n! Extra \\or.\nl.2\nb c\n",
        1,
    ),
    (
        b"\\iffalse\\else\\message{a}\\else\\message{b}\\or\\message{c}\\fi\\message{d}\\fi\\end",
        b"a\n! Extra \\else.\nl.2\nb\n! Extra \\or.\nl.2\nc d\n! Extra \\fi.\nl.2\n",
        1,
    ),
    (
        b"\\ifcase0 \\message{a}\\or\\message{b}\\else\\message{c}\\fi\\ifcase0 \\message{d}\\fi\\ifcase0 \\message{e}\\else\\message{f}\\fi\\end",
        b"a d e\n",
        0,
    ),
    (b"\\iffalse\\or\\fi\\end", b"! Extra \\or.\nl.2\n", 1),
    (
        b"\\iffalse\\message{a}\\or\\message{b}\\or\\message{c}\\else\\message{d}\\or\\fi\\end",
        b"! Extra \\or.\nl.2\n! Extra \\or.\nl.2\nd\n! Extra \\or.\nl.2\n",
        1,
    ),
    (
        b"\\message{\\iftrue a\\else b\\or c\\else d\\fi e}\\message{\\ifcase0 a\\or b\\else c\\or d\\else e\\fi f}\\end",
        b"ae af\n",
        0,
    ),
    (
        b"\\ifcase-1 \\or\\or\\or\\else\\message{a}\\fi\\ifcase1 \\else\\message{b}\\or\\message{c}\\fi\\end",
        b"a b\n! Extra \\or.\nl.2\nc\n",
        1,
    ),
    (
        b"\\escapechar=-1 \\fi\\else\\or\\ifnum1 1 \\fi\\end",
        b"! Extra fi.\nl.2\n! Extra else.\nl.2\n! Extra or.\nl.2\n! Missing = inserted for ifnum.\nl.2\n",
        1,
    ),
    (
        b"\\let\\x=\\fi\\let\\y=\\else\\x\\y\\iftrue\\message{a}\\y\\message{b}\\x\\end",
        b"! Extra \\fi.\nl.2\n! Extra \\else.\nl.2\na\n",
        1,
    ),
];

#[test]
fn enders_are_met_by_their_limits(rt: HostRuntime) {
    rows_hold(&rt, rt.alloc(), &ENDERS);
}

/// A `\fi`, an `\else` and an `\or` while the test is under way: a frozen `\relax` comes first.
const TESTED: [Row; 10] = [
    (
        b"\\ifnum1<2\\fi\\message{\\ifnum1=1\\fi}\\end",
        b"\\relax \n",
        0,
    ),
    (
        b"\\message{\\ifnum1=1\\else a\\fi b\\ifodd1\\else c\\fi\\ifcase1\\else d\\fi\\ifcase0\\or e\\fi}\\end",
        b"\\relax b\\relax d\\relax \n",
        0,
    ),
    (
        b"\\ifnum\\fi1<2\\message{a}\\fi\\end",
        b"! Missing number, treated as zero.\nl.2\n! Missing = inserted for \\ifnum.\nl.2\n! Missing number, treated as zero.\nl.2\n{the character 1}\n{the character <}\n{the character 2}\na\n! Extra \\fi.\nl.2\n",
        1,
    ),
    (
        b"\\message{\\if\\fi\\fi a}\\end",
        b"! Extra \\fi.\nl.2\na\n",
        1,
    ),
    (
        b"\\message{\\ifodd\\else a\\fi b\\ifcase\\or a\\fi c}\\end",
        b"! Missing number, treated as zero.\nl.2\n! Missing number, treated as zero.\nl.2\nab\\relax c\n",
        1,
    ),
    (
        b"\\message{\\ifdim\\fi\\ifdim1\\fi\\ifdim1pt=1\\else a\\fi}\\end",
        b"! Missing number, treated as zero.\nl.2\n! Illegal unit of measure (pt inserted).\nl.2\n! Missing = inserted for \\ifdim.\nl.2\n! Missing number, treated as zero.\nl.2\n! Illegal unit of measure (pt inserted).\nl.2\n! Illegal unit of measure (pt inserted).\nl.2\n! Missing = inserted for \\ifdim.\nl.2\n! Missing number, treated as zero.\nl.2\n! Illegal unit of measure (pt inserted).\nl.2\n! Illegal unit of measure (pt inserted).\nl.2\n\\relax \\relax \n",
        1,
    ),
    (
        b"\\ifx\\fi\\fi\\message{a}\\fi\\ifx\\else\\fi\\message{b}\\else\\message{c}\\fi\\end",
        b"a c\n",
        0,
    ),
    (
        b"\\message{\\ifvoid\\fi\\ifvoid1\\fi\\ifcat a\\fi b\\fi}\\end",
        b"! Missing number, treated as zero.\nl.2\n! Extra \\fi.\nl.2\n\\relax \\relax b\n",
        1,
    ),
    (
        b"\\def\\x{\\fi}\\message{\\ifnum1=1\\x\\ifnum1=2\\x a}\\let\\relax=\\foo\\message{\\ifnum1=1\\x}\\end",
        b"\\relax a \\relax \n",
        0,
    ),
    (
        b"\\message{\\ifcase\\fi\\ifnum2>\\ifnum1=1\\fi1 a\\fi}\\end",
        b"! Missing number, treated as zero.\nl.2\n! Missing number, treated as zero.\nl.2\n\\relax \\relax 1 a\n",
        1,
    ),
];

#[test]
fn enders_end_a_test(rt: HostRuntime) {
    rows_hold(&rt, rt.alloc(), &TESTED);
}

/// Conditionals that a test leaves open stand above its own.
const OPEN: [Row; 14] = [
    (
        b"\\message{\\ifnum1=2\\iftrue A\\else B\\fi C\\else D\\fi}\\end",
        b"D\n",
        0,
    ),
    (
        b"\\message{\\ifnum1=1\\iftrue A\\else B\\fi C\\else D\\fi}\\end",
        b"AC\n",
        0,
    ),
    (
        b"\\message{\\ifcase1\\iftrue a\\or b\\else c\\fi d\\or e\\fi f}\\end",
        b"ef\n",
        0,
    ),
    (
        b"\\message{\\ifnum1=2\\iffalse x\\else A\\fi B\\else C\\fi}\\end",
        b"C\n",
        0,
    ),
    (
        b"\\message{\\ifnum1=2\\iftrue A\\or B\\fi C\\or D\\fi}\\end",
        b"! Extra \\or.\nl.2\n",
        1,
    ),
    (
        b"\\message{\\ifnum1=2\\iftrue\\iftrue A\\fi B\\fi C\\else D\\fi}\\message{\\ifnum1=1\\iftrue\\iftrue A\\fi B\\fi C\\else D\\fi}\\end",
        b"D ABC\n",
        0,
    ),
    (
        b"\\ifnum1=2\\iftrue A",
        b"! Incomplete \\iftrue; all text was ignored after line 2.\nl.0\n! Emergency stop.\n*** (job aborted, no legal \\end found)\n",
        2,
    ),
    (
        b"\\message{\\ifcase2\\ifcase0 a\\or b\\or c\\fi d\\or e\\or f\\fi g}\\end",
        b"fg\n",
        0,
    ),
    (
        b"\\message{\\ifodd1\\iftrue a\\else b\\else c\\fi d\\fi e}\\end",
        b"ade\n",
        0,
    ),
    (
        b"\\message{\\ifnum\\iftrue1\\else2\\fi=1 a\\else b\\fi\\ifnum1\\ifnum1=1 \\fi=1 c\\fi\\ifnum1\\iftrue=1\\fi\\relax d\\fi}\\end",
        b"ac\\relax d\n",
        0,
    ),
    (
        b"\\message{\\if a\\iftrue b\\else c\\fi d\\else e\\fi\\if a\\iftrue a\\else c\\fi d\\else e\\fi}\\end",
        b"ed\n",
        0,
    ),
    (
        b"\\message{\\ifdim1pt=1\\iftrue pt\\else a\\fi b\\fi c}\\end",
        b"bc\n",
        0,
    ),
    (
        b"\\message{\\iftrue\\ifnum1=1\\fi\\fi\\ifnum1=2\\ifnum1=1\\ifnum1=1\\else a\\fi\\fi b\\else c\\fi}\\end",
        b"\\relax c\n",
        0,
    ),
    (
        b"\\ifnum1=1\\iftrue\\message{a}\\end",
        b"a\n(\\end occurred when \\iftrue on line 2 was incomplete)\n(\\end occurred when \\ifnum on line 2 was incomplete)\n",
        0,
    ),
];

#[test]
fn tests_leave_conditionals_open(rt: HostRuntime) {
    rows_hold(&rt, rt.alloc(), &OPEN);
}

/// Expansion in tests and branches, and conditionals in what is expanded.
const EXPANDED: [Row; 14] = [
    (
        b"\\message{\\iftrue a\\expandafter b\\fi c}\\def\\x{\\message{x}}\\iftrue\\expandafter\\x\\fi\\iftrue\\expandafter\\x\\else\\message{y}\\fi\\end",
        b"abc x x\n",
        0,
    ),
    (
        b"\\message{\\expandafter a\\ifnum1=1 b\\else c\\fi\\expandafter d\\iffalse e\\else f\\fi\\expandafter g\\ifnum1=2 h\\else i\\fi\\expandafter\\ifnum\\number1=1 j\\fi}\\end",
        b"abdfgij\n",
        0,
    ),
    (
        b"\\csname \\ifnum1=1 mess\\else foo\\fi age\\endcsname{a}\\expandafter\\ifx\\csname ab\\endcsname\\relax\\message{b}\\fi\\ifx\\ab\\relax\\message{c}\\fi\\end",
        b"a b c\n",
        0,
    ),
    (
        b"\\message{\\number\\ifnum1=1 12\\else34\\fi5 \\romannumeral\\ifodd1 4\\else 6\\fi\\the\\ifnum1=1 \\count\\else\\dimen\\fi1}\\end",
        b"125xl\n",
        0,
    ),
    (
        b"\\edef\\a{\\iftrue x\\else y\\fi\\iffalse z\\fi}\\message{\\meaning\\a}\\edef\\a{\\iftrue x\\noexpand\\fi y\\fi}\\message{\\meaning\\a}\\edef\\a{\\ifnum1=1\\fi\\iffalse\\else}\\fi\\message{\\meaning\\a}\\end",
        b"macro:->x macro:->x\\fi y macro:->\\relax \n",
        0,
    ),
    (
        b"\\def\\max#1#2{\\ifnum#1>#2 #1\\else#2\\fi}\\message{\\max{3}{5},\\max{7}{2},\\max{-1}{-2},\\max{\\max{1}{9}}{8}}\\end",
        b"5,7,-1,9\n",
        0,
    ),
    (
        b"\\def\\first#1#2{#1}\\def\\second#1#2{#2}\\def\\test#1{\\ifodd#1 \\expandafter\\first\\else\\expandafter\\second\\fi}\\message{\\test1{a}{b}\\test2{a}{b}\\test{-3}{\\test4{c}{d}}{e}}\\end",
        b"abd\n",
        0,
    ),
    (
        b"\\def\\a{\\message{a}}\\def\\b{\\message{b}}\\def\\x#1{\\ifx#1\\a\\let\\next=\\a\\else\\let\\next=\\b\\fi\\next}\\x\\a\\x\\b\\x\\foo\\end",
        b"a b b\n",
        0,
    ),
    (
        b"\\def\\a#1\\fi{\\fi\\message{#1}}\\iftrue\\a b\\fi\\def\\a#1\\else#2\\fi{\\fi\\message{#2}}\\iftrue\\a b\\else c\\fi\\end",
        b"b c\n",
        0,
    ),
    (
        b"\\def\\opt{\\futurelet\\x\\optb}\\def\\optb{\\ifx\\x[\\message{b}\\else\\message{n}\\fi}\\opt[\\opt]\\end",
        b"b\n{the character [}\nn\n{the character ]}\n",
        0,
    ),
    (
        b"\\uppercase{\\message{\\if aAx\\else y\\fi\\ifnum`a=65 z\\fi}}\\message{\\string\\fi\\noexpand\\fi\\meaning\\else}\\end",
        b"XZ \\fi\\fi \\else\n",
        0,
    ),
    (
        b"\\message{\\the\\fi\\count1,\\number\\else5 }\\message\\iftrue{a}\\fi\\toks0=\\iffalse\\else{b}\\fi\\message{\\the\\toks0}\\end",
        b"! Extra \\fi.\nl.2\n! Extra \\else.\nl.2\n0,5 a b\n",
        1,
    ),
    (
        b"\\def\\a{\\iffalse}\\def\\b{\\fi}\\def\\c{\\else}\\message{\\a x\\fi y\\iftrue\\b z\\iftrue u\\c v\\fi}\\end",
        b"yzu\n",
        0,
    ),
    (
        b"\\catcode\\iftrue33\\else34\\fi=\\ifnum1=1 11 \\else12 \\fi\\message{\\the\\catcode`\\!}\\count\\ifodd1 2\\fi=3 \\message{\\the\\count2}\\advance\\count\\iftrue2\\fi by\\iffalse\\else5 \\fi\\message{\\the\\count2}\\end",
        b"11 3 8\n",
        0,
    ),
];

#[test]
fn conditionals_are_expanded(rt: HostRuntime) {
    rows_hold(&rt, rt.alloc(), &EXPANDED);
}

/// Loops and recursion.
const LOOPS: [Row; 6] = [
    (
        b"\\def\\loop#1\\repeat{\\def\\body{#1}\\iterate}\\def\\iterate{\\body\\let\\next=\\iterate\\else\\let\\next=\\relax\\fi\\next}\\let\\repeat=\\fi\\count1=0 \\loop\\message{\\the\\count1}\\advance\\count1 by1 \\ifnum\\count1<5 \\repeat\\end",
        b"0 1 2 3 4\n",
        0,
    ),
    (
        b"\\def\\t{\\ifnum\\count1>0 \\advance\\count1 by-1 \\message{\\the\\count1}\\expandafter\\t\\fi}\\count1=3 \\t\\end",
        b"2 1 0\n",
        0,
    ),
    (
        b"\\def\\r#1#2{\\ifnum#1>0 x\\expandafter\\r\\expandafter{\\number\\count#1}{#2}\\fi}\\count3=2 \\count2=1 \\message{\\r{3}{}}\\end",
        b"xxx\n",
        0,
    ),
    (
        b"\\def\\rev#1#2\\stop{\\ifx\\stop#2\\stop\\else\\rev#2\\stop\\fi#1}\\message{\\rev abcd\\stop}\\end",
        b"dcba\n",
        0,
    ),
    (
        b"\\def\\f#1{\\ifcase#1 1\\else\\expandafter\\g\\fi{#1}}\\def\\g#1{*}\\message{\\f0\\f1}\\end",
        b"1{0}*\n",
        0,
    ),
    (
        b"\\def\\x#1{\\ifx#1\\end\\else\\ifcat a\\noexpand#1l\\else o\\fi\\expandafter\\x\\fi}\\message{\\x a1b.\\end}\\end",
        b"lolo\n",
        0,
    ),
];

#[test]
fn loops_end(rt: HostRuntime) {
    rows_hold(&rt, rt.alloc(), &LOOPS);
}

/// A file that ends, and the name of an `\outer` macro, while text is skipped.
const CUT: [Row; 19] = [
    (
        b"\\ifnum\\count1=2 ",
        b"! Incomplete \\ifnum; all text was ignored after line 2.\nl.0\n! Emergency stop.\n*** (job aborted, no legal \\end found)\n",
        2,
    ),
    (
        b"\\outer\\def\\o{}\\ifnum1=2 \\o\\fi\\end",
        b"! Incomplete \\ifnum; all text was ignored after line 2.\nl.2\n! Extra \\fi.\nl.2\n",
        1,
    ),
    (
        b"\\outer\\def\\o{\\message{o}}\\iffalse\\message{a}\\o\\message{b}\\end",
        b"! Incomplete \\iffalse; all text was ignored after line 2.\nl.2\no b\n",
        1,
    ),
    (
        b"\\outer\\def\\o{}\\iffalse\n\n\\o\\end",
        b"! Incomplete \\iffalse; all text was ignored after line 2.\nl.4\n",
        1,
    ),
    (
        b"\\iftrue\n\\else\n",
        b"! Incomplete \\iftrue; all text was ignored after line 3.\nl.0\n! Emergency stop.\n*** (job aborted, no legal \\end found)\n",
        2,
    ),
    (
        b"\\iffalse\n\\or\n",
        b"! Extra \\or.\nl.3\n! Incomplete \\iffalse; all text was ignored after line 3.\nl.0\n! Emergency stop.\n*** (job aborted, no legal \\end found)\n",
        2,
    ),
    (
        b"\\iffalse\n\\iftrue\n\\fi\\or\n\\or\\else\n\\message{a}\\fi\\end",
        b"! Extra \\or.\nl.4\n! Extra \\or.\nl.5\na\n",
        1,
    ),
    (
        b"\\outer\\def\\o{}\\edef\\a{x\\iffalse y\\o z}\\message{\\meaning\\a}\\end",
        b"! Incomplete \\iffalse; all text was ignored after line 2.\nl.2\nRunaway definition?\n->x\n! Forbidden control sequence found while scanning definition of \\a.\nl.2\n{the letter z}\n! Too many }'s.\nl.2\nmacro:->x \n",
        1,
    ),
    (
        b"\\outer\\def\\o{}\\message{x\\iffalse y\\o z}\\end",
        b"! Incomplete \\iffalse; all text was ignored after line 2.\nl.2\nRunaway text?\nx\n! Forbidden control sequence found while scanning text of \\message.\nl.2\nx \n{the letter z}\n! Too many }'s.\nl.2\n",
        1,
    ),
    (
        b"\\outer\\def\\o{\\message{o}}\\count1=\\iffalse\\o5\\message{\\the\\count1}\\end",
        b"! Incomplete \\iffalse; all text was ignored after line 2.\nl.2\n! Missing number, treated as zero.\nl.2\no\n{the character 5}\n0\n",
        1,
    ),
    (
        b"\\outer\\def\\o{\\message{o}}\\iftrue\\else\\o\\fi\\message{a}\\end",
        b"! Incomplete \\iftrue; all text was ignored after line 2.\nl.2\no\n! Extra \\fi.\nl.2\na\n",
        1,
    ),
    (
        b"\\outer\\def\\o{\\message{o}}\\ifnum1=2\\iftrue A\\o\\fi B\\else\\message{C}\\fi\\end",
        b"! Incomplete \\iftrue; all text was ignored after line 2.\nl.2\n! Incomplete \\ifnum; all text was ignored after line 2.\nl.2\no\n! Extra \\fi.\nl.2\n{the letter B}\n! Extra \\else.\nl.2\nC\n! Extra \\fi.\nl.2\n",
        1,
    ),
    (
        b"\\outer\\def\\o{}\\message{\\expandafter\\iffalse\\noexpand\\o\\fi a}\\iffalse\\string\\o\\fi\\end",
        b"a\n! Incomplete \\iffalse; all text was ignored after line 2.\nl.2\n! Extra \\fi.\nl.2\n",
        1,
    ),
    (
        b"\\edef\\a{x\\iffalse y",
        b"! Incomplete \\iffalse; all text was ignored after line 2.\nl.0\n! Emergency stop.\n*** (job aborted, no legal \\end found)\n",
        2,
    ),
    (
        b"\\def\\f#1{\\iffalse#1\\fi}\\outer\\def\\o{\\message{o}}\\f\\iffalse\\f\\else\\o\\end",
        b"o\n(\\end occurred when \\iffalse on line 2 was incomplete)\n",
        0,
    ),
    (
        b"\\outer\\def\\o{\\message{o}}\\let\\p=\\o\\ifcase3 \\or\\or\\p\\or\\message{a}\\fi\\end",
        b"! Incomplete \\ifcase; all text was ignored after line 2.\nl.2\no\n! Extra \\or.\nl.2\na\n! Extra \\fi.\nl.2\n",
        1,
    ),
    (
        b"\\let\\i=\\iffalse\\i\n\n",
        b"! Incomplete \\iffalse; all text was ignored after line 2.\nl.0\n! Emergency stop.\n*** (job aborted, no legal \\end found)\n",
        2,
    ),
    (
        b"\\ifcase1\n\n\\ifodd2\n\\or\n\\else\n",
        b"! Incomplete \\ifcase; all text was ignored after line 2.\nl.0\n! Emergency stop.\n*** (job aborted, no legal \\end found)\n",
        2,
    ),
    (
        b"\\def\\a{\\iffalse}\\escapechar=`\\!\\a\\end",
        b"! Incomplete \\iffalse; all text was ignored after line 2.\nl.0\n! Emergency stop.\n*** (job aborted, no legal \\end found)\n",
        2,
    ),
];

#[test]
fn skipped_text_is_cut_off(rt: HostRuntime) {
    rows_hold(&rt, rt.alloc(), &CUT);
}

/// Groups and conditionals, which need not nest in one another.
const GROUPED: [Row; 7] = [
    (
        b"\\iftrue{\\fi\\message{a}}{\\iftrue}\\message{b}\\fi\\begingroup\\iffalse\\else\\endgroup\\message{c}\\fi\\end",
        b"a b c\n",
        0,
    ),
    (
        b"\\iftrue{\\aftergroup\\fi\\message{a}}\\message{b}\\fi\\end",
        b"a b\n! Extra \\fi.\nl.2\n",
        1,
    ),
    (
        b"{\\let\\else=\\relax\\iffalse\\message{a}\\else\\message{b}\\fi}\\iffalse\\else\\message{c}\\fi\\end",
        b"c\n",
        0,
    ),
    (
        b"{\\let\\FI=\\fi\\global\\let\\IF=\\iffalse\\iffalse}\\FI\\message{a}}\\IF\\message{b}\\FI\\fi\\message{c}\\end",
        b"a c\n",
        0,
    ),
    (
        b"\\count1=1 {\\count1=2 \\ifodd\\count1 \\message{a}\\else\\message{b}\\fi}\\ifodd\\count1 \\message{c}\\fi{\\ifnum1=1\\global\\count1=4 \\fi}\\ifodd\\count1 \\else\\message{d}\\fi\\end",
        b"b c d\n",
        0,
    ),
    (b"{\\def\\a{\\iffalse{\\fi}}\\a\\message{a}\\end", b"a\n", 0),
    (
        b"\\let\\b={\\let\\e=}\\iftrue\\b\\else\\b\\e\\fi\\def\\x{y}\\iffalse\\b\\else\\e\\fi\\message{a}\\end",
        b"a\n",
        0,
    ),
];

#[test]
fn groups_and_conditionals_cross(rt: HostRuntime) {
    rows_hold(&rt, rt.alloc(), &GROUPED);
}

/// Whether a hundred reports of a `\fi` end the run.
fn ends_at_hundred(alloc: Global) -> Result<bool, AllocError> {
    let last = b"(That makes 100 errors; please try again.)\n";
    let written = repeated(alloc, b"! Extra \\fi.\nl.2\n", 100, last)?;
    Ok(job(alloc, b"\\def\\a{\\fi\\a}\\a", written.as_slice(), 2))
}

#[test]
fn the_hundredth_extra_fi_ends_the_run(rt: HostRuntime) {
    assert!(rt; matches!(ends_at_hundred(rt.alloc()), Ok(true)));
}

/// How many steps conditionals take: the least `--steps` at which the run isn't stopped.
const COUNTED: [Counted; 13] = [
    Counted {
        text: b"\\iftrue\\fi\\end\n",
        under: ("--steps=32", b"! Step limit reached [steps=32].\n"),
        enough: ("--steps=33", b"", 0),
    },
    Counted {
        text: b"\\iftrue a\\else b\\fi\\end\n",
        under: (
            "--steps=35",
            b"{the letter a}\n! Step limit reached [steps=35].\n",
        ),
        enough: ("--steps=36", b"{the letter a}\n", 0),
    },
    Counted {
        text: b"\\iffalse a\\else b\\fi\\end\n",
        under: (
            "--steps=35",
            b"{the letter b}\n! Step limit reached [steps=35].\n",
        ),
        enough: ("--steps=36", b"{the letter b}\n", 0),
    },
    Counted {
        text: b"\\ifx\\a\\b\\fi\\end\n",
        under: ("--steps=34", b"! Step limit reached [steps=34].\n"),
        enough: ("--steps=35", b"", 0),
    },
    Counted {
        text: b"\\if aab\\fi\\end\n",
        under: (
            "--steps=35",
            b"{the letter b}\n! Step limit reached [steps=35].\n",
        ),
        enough: ("--steps=36", b"{the letter b}\n", 0),
    },
    Counted {
        text: b"\\ifodd1 \\fi\\end\n",
        under: ("--steps=34", b"! Step limit reached [steps=34].\n"),
        enough: ("--steps=35", b"", 0),
    },
    Counted {
        text: b"\\ifvoid1 \\fi\\end\n",
        under: ("--steps=34", b"! Step limit reached [steps=34].\n"),
        enough: ("--steps=35", b"", 0),
    },
    Counted {
        text: b"\\ifnum1<2\\fi\\end\n",
        under: ("--steps=39", b"! Step limit reached [steps=39].\n"),
        enough: ("--steps=40", b"", 0),
    },
    Counted {
        text: b"\\iftrue\\expandafter\\relax\\fi\\end\n",
        under: ("--steps=35", b"! Step limit reached [steps=35].\n"),
        enough: ("--steps=36", b"", 0),
    },
    Counted {
        text: b"\\fi\\end\n",
        under: (
            "--steps=31",
            b"! Extra \\fi.\nl.2\n! Step limit reached [steps=31].\n",
        ),
        enough: ("--steps=32", b"! Extra \\fi.\nl.2\n", 1),
    },
    Counted {
        text: b"\\iffalse\\or\\fi\\end\n",
        under: (
            "--steps=33",
            b"! Extra \\or.\nl.2\n! Step limit reached [steps=33].\n",
        ),
        enough: ("--steps=34", b"! Extra \\or.\nl.2\n", 1),
    },
    Counted {
        text: b"\\expandafter\\iffalse\\noexpand\\fi a\\fi\\end\n",
        under: ("--steps=38", b"! Step limit reached [steps=38].\n"),
        enough: ("--steps=39", b"", 0),
    },
    Counted {
        text: b"\\message{\\iftrue a\\fi}\\end\n",
        under: ("--steps=36", b"a\n! Step limit reached [steps=36].\n"),
        enough: ("--steps=37", b"a\n", 0),
    },
];

#[test]
fn conditionals_take_so_many_steps(rt: HostRuntime) {
    steps_hold(&rt, rt.alloc(), &COUNTED);
}

/// A macro that calls itself behind its `\fi` as often as a register says, with what the run takes, and one step less.
const AGAIN: [(&[u8], &str, (&str, &[u8])); 2] = [
    (
        b"\\def\\t{\\ifnum\\count1>0 \\advance\\count1 by-1 x\\expandafter\\t\\fi}\\count1=3 \\edef\\x{}\\t\\end\n",
        "--steps=148",
        ("--steps=147", b"! Step limit reached [steps=147].\n"),
    ),
    (
        b"\\def\\t{\\ifnum\\count1>0 \\advance\\count1 by-1 x\\expandafter\\t\\fi}\\count1=100000 \\edef\\x{}\\t\\end\n",
        "--steps=2100090",
        (
            "--steps=2100089",
            b"! Step limit reached [steps=2100089].\n",
        ),
    ),
];

#[test]
fn a_call_behind_a_fi_leaves_nothing_open(rt: HostRuntime) {
    for (k, row) in AGAIN.iter().enumerate() {
        let enough = ["texmac", "init", "--quiet", row.1, "job"];
        let short = ["texmac", "init", "--quiet", row.2.0, "job"];
        assert!(rt; job_with(rt.alloc(), &enough, row.0, b"", 0), "row {k}");
        assert!(rt; job_with(rt.alloc(), &short, row.0, row.2.1, 4), "row {k}");
    }
}

/// The same within the least sizes.
const WITHIN: &[u8] =
    b"\\catcode`\\{=1 \\catcode`\\}=2\n\\def\\t{\\ifnum\\count1>0 \\advance\\count1 by-1 x\\expandafter\\t\\fi}%\n\\count1=100000 \\edef\\x{}\\t\\end\n";

/// Conditionals that are open one behind the other, or stand in skipped text.
const FITTING: [&[u8]; 3] = [
    b"\\iftrue\\fi\\iffalse\\else\\fi\\ifnum1=1\\fi\\ifx\\a\\b\\fi\\end\n",
    b"\\iffalse\\iftrue\\ifcase\\fi\\fi\\iftrue\\fi\\else\\fi\\end\n",
    b"\\iftrue\\else\\iftrue\\ifx\\fi\\fi\\fi\\end\n",
];

/// In the end two macros are held: 19 tokens and no token, each with its first word and its end mark.
#[test]
fn conditionals_within_the_least_sizes_fit(rt: HostRuntime) {
    let alloc = rt.alloc();
    assert!(rt; words_at(alloc, &LEAST, (b"job", WITHIN), b"", None) == Some(23));
    for (k, text) in FITTING.iter().enumerate() {
        assert!(rt;
            words_at(alloc, &LEAST, (b"job", *text), b"", None) == Some(0),
            "row {k}"
        );
    }
}

/// Conditionals without end.
const FULL: &[u8] = b"! TeX capacity exceeded, sorry [condition stack size=200].\n";

#[test]
fn a_full_condition_stack_ends_the_run(rt: HostRuntime) {
    assert!(rt; job(rt.alloc(), b"\\def\\a{\\iftrue\\a}\\a", FULL, 3));
}

/// Conditionals for which there is no room: each with the table that is full, and its size. A reading is counted before its conditional.
const REFUSED: [(&[u8], Table, u32); 6] = [
    (b"\\iftrue\\iftrue\\end\n", Table::ConditionStackSize, 1),
    (
        b"\\iffalse\\else\\ifx\\a\\b\\end\n",
        Table::ConditionStackSize,
        1,
    ),
    (
        b"\\ifnum\\ifodd1 2\\fi\\end\n",
        Table::ConditionStackSize,
        1,
    ),
    (
        b"\\ifcase0 \\or\\fi\\ifcase0 \\iffalse\\fi\\end\n",
        Table::ConditionStackSize,
        1,
    ),
    (
        b"\\iftrue\\number\\number\\number\\iftrue\\end\n",
        Table::ConditionStackSize,
        1,
    ),
    (
        b"\\iftrue\\number\\number\\number\\number\\iftrue\\end\n",
        Table::ExpansionDepth,
        8,
    ),
];

#[test]
fn conditionals_without_room_are_refused(rt: HostRuntime) {
    for (k, row) in REFUSED.iter().enumerate() {
        assert!(rt;
            words_where_full(rt.alloc(), &LEAST, row.0, row.1, row.2) == Some(0),
            "row {k}"
        );
    }
}

/// Texts with new names, and how many names are entered in the end: the 186 primitives first.
const NAMES: [(&[u8], u32); 6] = [
    (b"\\ifx\\foo\\baz\\fi\\end\n", 186),
    (
        b"\\iffalse\\foo\\else\\fi\\iftrue\\else\\baz\\fi\\end\n",
        186,
    ),
    (
        b"\\ifcase2 \\foo\\ifx\\baz\\fi\\or\\foo\\or\\else\\baz\\fi\\end\n",
        186,
    ),
    (b"\\let\\foo\\baz\\end\n", 188),
    (
        b"\\expandafter\\ifx\\csname foo\\endcsname\\baz\\fi\\end\n",
        187,
    ),
    (b"\\let\\foo=a\\ifx\\foo\\baz\\fi\\end\n", 187),
];

#[test]
fn tests_and_skipped_text_enter_no_names(rt: HostRuntime) {
    for (k, row) in NAMES.iter().enumerate() {
        assert!(rt;
            names_at(rt.alloc(), &LEAST, (b"job", row.0), b"") == Some(row.1),
            "row {k}"
        );
    }
}
