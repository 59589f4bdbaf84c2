// Reports of numbers, dimensions, glue, registers, assignments and conditionals, and what `\end` tells of these.
use crate::tests::{Row, rows_hold};

/// Each report once, and the value that is taken then. All but the first of the overflows, a sum, are TeX's.
const REPORTS: [Row; 36] = [
    (
        b"\\count1=\\relax\\message{\\the\\count1}\\end",
        b"! Missing number, treated as zero.\nl.2\n0\n",
        1,
    ),
    (
        b"\\count1=`\\relax\\message{\\the\\count1}\\end",
        b"! Improper alphabetic constant.\nl.2\n48\n",
        1,
    ),
    (
        b"\\count1=2147483648 \\message{\\the\\count1}\\end",
        b"! Number too big.\nl.2\n2147483647\n",
        1,
    ),
    (
        b"\\count1=\\count256 \\message{\\the\\count1}\\end",
        b"! Bad register code (256).\nl.2\n0\n",
        1,
    ),
    (
        b"\\count1=\\catcode256 \\message{\\the\\count1}\\end",
        b"! Bad character code (256).\nl.2\n9\n",
        1,
    ),
    (
        b"\\count256=5 \\message{\\the\\count0}\\end",
        b"! Bad register code (256).\nl.2\n5\n",
        1,
    ),
    (
        b"\\mathchardef\\a=32768 \\message{\\meaning\\a}\\end",
        b"! Bad mathchar (32768).\nl.2\n\\mathchar\"0\n",
        1,
    ),
    (
        b"\\catcode65=16 \\message{\\the\\catcode65}\\end",
        b"! Invalid code (16), should be in the range 0..15.\nl.2\n0\n",
        1,
    ),
    (
        b"\\delcode65=16777216 \\message{\\the\\delcode65}\\end",
        b"! Invalid code (16777216), should be at most 16777215.\nl.2\n0\n",
        1,
    ),
    (
        b"\\dimen1=1\\relax\\message{\\the\\dimen1}\\end",
        b"! Illegal unit of measure (pt inserted).\nl.2\n1.0pt\n",
        1,
    ),
    (
        b"\\dimen1=16384pt \\message{\\the\\dimen1}\\end",
        b"! Dimension too large.\nl.2\n16383.99998pt\n",
        1,
    ),
    (
        b"\\skip1=1pt plus 1fillll\\message{\\the\\skip1}\\end",
        b"! Illegal unit of measure (replaced by filll).\nl.2\n1.0pt plus 1.0filll\n",
        1,
    ),
    (
        b"\\muskip1=1\\relax\\message{\\the\\muskip1}\\end",
        b"! Illegal unit of measure (mu inserted).\nl.2\n1.0mu\n",
        1,
    ),
    (
        b"\\skip1=\\thinmuskip\\message{\\the\\skip1}\\end",
        b"! Incompatible glue units.\nl.2\n0.0pt\n",
        1,
    ),
    (
        b"\\muskip1=\\parskip\\message{\\the\\muskip1}\\end",
        b"! Incompatible glue units.\nl.2\n0.0mu\n",
        1,
    ),
    (
        b"\\count1=\\thinmuskip\\message{\\the\\count1}\\end",
        b"! Incompatible glue units.\nl.2\n0\n",
        1,
    ),
    (
        b"\\mag=2000 \\dimen1=1truept \\mag=3000 \\dimen1=1truept \\message{\\the\\mag,\\the\\dimen1}\\end",
        b"! Incompatible magnification (3000);\n the previous value will be retained (2000).\nl.2\n2000,0.5pt\n",
        1,
    ),
    (
        b"\\mag=32769 \\dimen1=1truept \\message{\\the\\mag,\\the\\dimen1}\\end",
        b"! Illegal magnification has been changed to 1000 (32769).\nl.2\n1000,1.0pt\n",
        1,
    ),
    (
        b"\\count1=2147483647 \\advance\\count1 1 \\message{\\the\\count1}\\end",
        b"! Arithmetic overflow.\nl.2\n2147483647\n",
        1,
    ),
    (
        b"\\count1=7 \\divide\\count1 0 \\message{\\the\\count1}\\end",
        b"! Arithmetic overflow.\nl.2\n7\n",
        1,
    ),
    (
        b"\\dimen1=1pt \\multiply\\dimen1 16384 \\message{\\the\\dimen1}\\end",
        b"! Arithmetic overflow.\nl.2\n1.0pt\n",
        1,
    ),
    (
        b"\\skip1=1pt \\multiply\\skip1 16384 \\message{\\the\\skip1}\\end",
        b"! Arithmetic overflow.\nl.2\n1.0pt\n",
        1,
    ),
    (
        b"\\message{\\the\\relax}\\end",
        b"! You can't use `\\relax' after \\the.\nl.2\n0\n",
        1,
    ),
    (
        b"\\showthe\\relax\\end",
        b"! You can't use `\\relax' after \\the.\nl.2\n> 0.\nl.2\n",
        1,
    ),
    (
        b"\\advance\\everypar\\end",
        b"! You can't use `\\everypar' after \\advance.\nl.2\n",
        1,
    ),
    (
        b"\\toks1=\\relax x\\message{\\the\\toks1}}\\end",
        b"! Missing { inserted.\nl.2\n",
        1,
    ),
    (
        b"\\toks256={x}\\message{\\the\\toks0}\\end",
        b"! Bad register code (256).\nl.2\nx\n",
        1,
    ),
    (
        b"\\let5\\relax\\message{\\meaning\\inaccessible}\\end",
        b"! Missing control sequence inserted.\nl.2\nundefined\n",
        1,
    ),
    (
        b"\\global\\relax\\end",
        b"! You can't use a prefix with `\\end'.\nl.2\n",
        1,
    ),
    (
        b"\\long\\count1=5 \\message{\\the\\count1}\\end",
        b"! You can't use `\\long' or `\\outer' with `\\count'.\nl.2\n5\n",
        1,
    ),
    (
        b"\\ifnum1 1 \\message{a}\\else\\message{b}\\fi\\end",
        b"! Missing = inserted for \\ifnum.\nl.2\na\n",
        1,
    ),
    (
        b"\\ifdim1pt 2pt\\message{a}\\else\\message{b}\\fi\\end",
        b"! Missing = inserted for \\ifdim.\nl.2\nb\n",
        1,
    ),
    (b"\\fi\\message{a}\\end", b"! Extra \\fi.\nl.2\na\n", 1),
    (b"\\else\\message{a}\\end", b"! Extra \\else.\nl.2\na\n", 1),
    (b"\\or\\message{a}\\end", b"! Extra \\or.\nl.2\na\n", 1),
    (
        b"\\outer\\def\\o{\\message{a}}\\ifx\\o\\foo\\o\\end",
        b"! Incomplete \\ifx; all text was ignored after line 2.\nl.2\na\n",
        1,
    ),
];

#[test]
fn reports_have_their_values(rt: HostRuntime) {
    rows_hold(&rt, rt.alloc(), &REPORTS);
}

/// What `\end` writes where conditionals are open.
const ENDED: [Row; 8] = [
    (
        b"\\iftrue\\iftrue\\end",
        b"(\\end occurred when \\iftrue on line 2 was incomplete)\n(\\end occurred when \\iftrue on line 2 was incomplete)\n",
        0,
    ),
    (
        b"\\iftrue\n\\ifnum1=1 \n\\ifcase0 \n%\n\\ifcase-1 \\else\\iffalse\\else\\end",
        b"(\\end occurred when \\iffalse on line 6 was incomplete)\n(\\end occurred when \\ifcase on line 6 was incomplete)\n(\\end occurred when \\ifcase on line 4 was incomplete)\n(\\end occurred when \\ifnum on line 3 was incomplete)\n(\\end occurred when \\iftrue on line 2 was incomplete)\n",
        0,
    ),
    (
        b"{\\iftrue\\begingroup\\ifx\\a\\b\\message{a}\\end",
        b"a\n(\\end occurred inside a group at level 2)\n(\\end occurred when \\ifx on line 2 was incomplete)\n(\\end occurred when \\iftrue on line 2 was incomplete)\n",
        0,
    ),
    (
        b"\\escapechar=-1 \\iftrue\\if aa\\end",
        b"(end occurred when if on line 2 was incomplete)\n(end occurred when iftrue on line 2 was incomplete)\n",
        0,
    ),
    (
        b"\\let\\x=\\ifodd\\x1 \\message{a}\\ifvmode\\ifhmode\\else\\ifvoid1 \\ifdim1pt=1pt\\ifcat aa\\foo\\end",
        b"a\n! Undefined control sequence.\nl.2\n(\\end occurred when \\ifcat on line 2 was incomplete)\n(\\end occurred when \\ifdim on line 2 was incomplete)\n(\\end occurred when \\ifvoid on line 2 was incomplete)\n(\\end occurred when \\ifhmode on line 2 was incomplete)\n(\\end occurred when \\ifvmode on line 2 was incomplete)\n(\\end occurred when \\ifodd on line 2 was incomplete)\n",
        1,
    ),
    (b"\\iftrue\\fi\\iffalse\\fi\\end", b"", 0),
    (
        b"\\iftrue\\else\\fi\\iftrue\\message{a}\\fi\\iffalse\\else\\message{b}\\end",
        b"a b\n(\\end occurred when \\iffalse on line 2 was incomplete)\n",
        0,
    ),
    (
        b"\\uppercase{\\iftrue\\end",
        b"Runaway text?\n\\iftrue \\end \n! File ended while scanning text of \\uppercase.\nl.0\n(\\end occurred when \\iftrue on line 0 was incomplete)\n",
        1,
    ),
];

#[test]
fn open_conditionals_are_told(rt: HostRuntime) {
    rows_hold(&rt, rt.alloc(), &ENDED);
}
