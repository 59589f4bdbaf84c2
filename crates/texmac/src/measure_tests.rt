// Dimensions and glue: registers, parameters, arithmetic, and the magnification.
use crate::tests::{Row, rows_hold};

/// Dimensions: units, factors and bounds.
const DIMENSIONS: [Row; 25] = [
    (
        b"\\hsize=1in \\message{\\the\\hsize,\\romannumeral4 }\\end",
        b"72.26999pt,iv\n",
        0,
    ),
    (
        b"\\dimen0=1in \\dimen1=.5in \\message{\\the\\dimen0,\\the\\dimen1}\\end",
        b"72.26999pt,36.135pt\n",
        0,
    ),
    (
        b"\\dimen1=1pt \\dimen2=1pc \\dimen3=1cm \\dimen4=1mm \\dimen5=1bp \\dimen6=1dd \\dimen7=1cc \\dimen8=1sp \\dimen9=1em\\dimen10=1ex \\message{\\the\\dimen1,\\the\\dimen2,\\the\\dimen3,\\the\\dimen4,\\the\\dimen5,\\the\\dimen6,\\the\\dimen7,\\the\\dimen8,\\the\\dimen9,\\the\\dimen10}\\end",
        b"1.0pt,12.0pt,28.45274pt,2.84526pt,1.00374pt,1.07pt,12.8401pt,0.00002pt,0.0pt,0.0pt\n",
        0,
    ),
    (
        b"\\dimen1=226.70540in \\dimen2=1365.33333pc \\dimen3=575.83174cm \\dimen4=5758.31742mm \\dimen5=16322.78954bp \\dimen6=15312.02424dd \\dimen7=1276.00202cc \\message{\\the\\dimen1,\\the\\dimen2,\\the\\dimen3,\\the\\dimen4,\\the\\dimen5,\\the\\dimen6,\\the\\dimen7}\\end",
        b"16383.99915pt,16383.99994pt,16383.99997pt,16383.99997pt,16383.99998pt,16383.99828pt,16383.9982pt\n",
        0,
    ),
    (
        b"\\dimen1=226.70543in \\dimen2=1365.33334pc \\dimen3=575.83179cm \\dimen4=5758.31746mm \\dimen5=16322.78955bp \\dimen6=15312.02586dd \\dimen7=1276.00216cc \\message{\\the\\dimen1,\\the\\dimen2,\\the\\dimen3,\\the\\dimen4,\\the\\dimen5,\\the\\dimen6,\\the\\dimen7}\\end",
        b"! Dimension too large.\nl.2\n! Dimension too large.\nl.2\n! Dimension too large.\nl.2\n! Dimension too large.\nl.2\n! Dimension too large.\nl.2\n! Dimension too large.\nl.2\n! Dimension too large.\nl.2\n16383.99998pt,16383.99998pt,16383.99998pt,16383.99998pt,16383.99998pt,16383.99998pt,16383.99998pt\n",
        1,
    ),
    (
        b"\\count1=3 \\dimen1=\\count1pt \\dimen2=2\\dimen1\\dimen3=-1.5\\dimen1\\dimen4=.5\\count1\\message{\\the\\dimen1,\\the\\dimen2,\\the\\dimen3,\\the\\dimen4}\\end",
        b"3.0pt,6.0pt,-4.5pt,0.00002pt\n",
        0,
    ),
    (
        b"\\dimen1=1,5pt \\dimen2=,25pt\\dimen3=.pt\\dimen4=7.pt\\dimen5= - + -2.5PT\\message{\\the\\dimen1,\\the\\dimen2,\\the\\dimen3,\\the\\dimen4,\\the\\dimen5}\\end",
        b"1.5pt,0.25pt,0.0pt,7.0pt,2.5pt\n",
        0,
    ),
    (
        b"\\dimen1='12pt\\dimen2=\"Apt\\dimen3=`\\A pt\\message{\\the\\dimen1,\\the\\dimen2,\\the\\dimen3}\\end",
        b"10.0pt,10.0pt,65.0pt\n",
        0,
    ),
    (
        b"\\dimen1=0.99999237060546875pt \\message{\\number\\dimen1}\\dimen1=.000007629394531pt \\message{\\number\\dimen1}\\dimen1=.0000076293945313pt \\message{\\number\\dimen1}\\dimen1=.00000762939453125000001pt \\message{\\number\\dimen1}\\end",
        b"65536 0 1 1\n",
        0,
    ),
    (
        b"\\dimen0=16383.99999pt \\message{\\the\\dimen0}\\dimen0=16384pt \\message{\\the\\dimen0}\\dimen0=-16384pt \\message{\\the\\dimen0}\\end",
        b"16383.99998pt\n! Dimension too large.\nl.2\n16383.99998pt\n! Dimension too large.\nl.2\n-16383.99998pt\n",
        1,
    ),
    (
        b"\\dimen1=16383.99998pt \\message{\\number\\dimen1}\\dimen1=16383.999984741pt\\message{\\number\\dimen1}\\dimen1=16383.999992pt\\message{\\number\\dimen1}\\dimen1=16383.999993pt\\message{\\number\\dimen1}\\end",
        b"1073741823 1073741823 1073741823\n! Dimension too large.\nl.2\n1073741823\n",
        1,
    ),
    (
        b"\\dimen1=1073741823sp \\message{\\the\\dimen1}\\dimen1=1073741824sp\\message{\\the\\dimen1}\\dimen1=-1073741824sp\\message{\\the\\dimen1}\\end",
        b"16383.99998pt\n! Dimension too large.\nl.2\n16383.99998pt\n! Dimension too large.\nl.2\n-16383.99998pt\n",
        1,
    ),
    (
        b"\\dimen1=99999999999pt \\message{\\the\\dimen1}\\dimen2=99999999999.5pt \\message{\\the\\dimen2}\\end",
        b"! Number too big.\nl.2\n! Dimension too large.\nl.2\n16383.99998pt\n! Number too big.\nl.2\n! Dimension too large.\nl.2\n16383.99998pt\n",
        1,
    ),
    (
        b"\\chardef\\c=7 \\mathchardef\\m=300 \\dimen1=\\c pt\\dimen2=1.5\\c\\dimen3=\\m\\c\\message{\\the\\dimen1,\\the\\dimen2,\\the\\dimen3}\\end",
        b"7.0pt,0.00015pt,0.03204pt\n",
        0,
    ),
    (
        b"\\def\\x{1.5pt}\\dimen1=\\x\\message{\\the\\dimen1}\\def\\y{p}\\dimen1=2\\y t\\message{\\the\\dimen1}\\dimen1=-\\x\\message{\\the\\dimen1}\\end",
        b"1.5pt 2.0pt -1.5pt\n",
        0,
    ),
    (
        b"\\dimen1=1\\message{\\the\\dimen1}\\end",
        b"! Illegal unit of measure (pt inserted).\nl.2\n1.0pt\n",
        1,
    ),
    (
        b"\\count1=\\hsize \\hsize=20sp \\count2=\\hsize\\message{\\the\\count1,\\the\\count2}\\catcode`\\A=\\hsize \\message{\\the\\catcode`\\A}\\end",
        b"0,20\n! Invalid code (20), should be in the range 0..15.\nl.2\n0\n",
        1,
    ),
    (
        b"\\dimen256=1pt \\skip-1=2pt \\message{\\the\\dimen0,\\the\\skip0}\\muskip300=1mu\\message{\\the\\muskip0}\\end",
        b"! Bad register code (256).\nl.2\n! Bad register code (-1).\nl.2\n1.0pt,2.0pt\n! Bad register code (300).\nl.2\n1.0mu\n",
        1,
    ),
    (
        b"\\dimen1=3\\dimen256 \\dimen2=-\\dimen-1 \\message{\\the\\dimen1,\\the\\dimen2}\\end",
        b"! Bad register code (256).\nl.2\n! Bad register code (-1).\nl.2\n0.0pt,0.0pt\n",
        1,
    ),
    (
        b"\\dimen1=1 true pt\\message{\\the\\dimen1}\\dimen1=1 TrUe Pt\\message{\\the\\dimen1}\\end",
        b"1.0pt 1.0pt\n",
        0,
    ),
    (
        b"\\dimen1=1xx\\message{\\the\\dimen1}\\end",
        b"! Illegal unit of measure (pt inserted).\nl.2\n{the letter x}\n{the letter x}\n1.0pt\n",
        1,
    ),
    (
        b"\\dimen1=x\\message{\\the\\dimen1}\\end",
        b"! Missing number, treated as zero.\nl.2\n! Illegal unit of measure (pt inserted).\nl.2\n{the letter x}\n0.0pt\n",
        1,
    ),
    (
        b"\\dimen1='12.5pt\\message{\\the\\dimen1}\\end",
        b"! Illegal unit of measure (pt inserted).\nl.2\n{the character .}\n{the character 5}\n{the letter p}\n{the letter t}\n10.0pt\n",
        1,
    ),
    (
        b"\\dimen1=1truemu\\message{\\the\\dimen1}\\end",
        b"! Illegal unit of measure (pt inserted).\nl.2\n{the letter m}\n{the letter u}\n1.0pt\n",
        1,
    ),
    (
        b"\\let\\p=p\\dimen1=1\\p t\\message{\\the\\dimen1}\\end",
        b"! Illegal unit of measure (pt inserted).\nl.2\n{the letter p}\n{the letter t}\n1.0pt\n",
        1,
    ),
];

#[test]
fn dimensions_are_read(rt: HostRuntime) {
    rows_hold(&rt, rt.alloc(), &DIMENSIONS);
}

/// True units, and the checks of the magnification.
const MAGNIFIED: [Row; 10] = [
    (
        b"\\mag=2000 \\dimen1=1truein \\dimen2=1truept \\dimen3=12345truesp\\dimen4=3.5truecm \\message{\\the\\dimen1,\\the\\dimen2,\\the\\dimen3,\\the\\dimen4,\\the\\mag}\\end",
        b"36.135pt,0.5pt,0.09418pt,49.79231pt,2000\n",
        0,
    ),
    (
        b"\\mag=500 \\dimen1=1truein \\dimen2=1truept \\dimen3=12345truesp \\dimen4=8191.99999truept \\message{\\the\\dimen1,\\the\\dimen2,\\the\\dimen3,\\the\\dimen4}\\dimen4=8192truept \\message{\\the\\dimen4}\\end",
        b"144.54pt,2.0pt,0.37674pt,16383.99997pt\n! Dimension too large.\nl.2\n16383.99998pt\n",
        1,
    ),
    (
        b"\\mag=2000 \\dimen1=1truepc \\dimen2=1truecm \\dimen3=1truemm \\dimen4=1truebp \\dimen5=1truedd \\dimen6=1truecc \\dimen7=1truesp \\message{\\the\\dimen1,\\the\\dimen2,\\the\\dimen3,\\the\\dimen4,\\the\\dimen5,\\the\\dimen6,\\the\\dimen7}\\end",
        b"6.0pt,14.22636pt,1.42262pt,0.50186pt,0.535pt,6.42004pt,0.0pt\n",
        0,
    ),
    (
        b"\\mag=500 \\dimen1=1truepc \\dimen2=1truecm \\dimen3=1truemm \\dimen4=1truebp \\dimen5=1truedd \\dimen6=1truecc \\dimen7=1truesp \\message{\\the\\dimen1,\\the\\dimen2,\\the\\dimen3,\\the\\dimen4,\\the\\dimen5,\\the\\dimen6,\\the\\dimen7}\\end",
        b"24.0pt,56.9055pt,5.69054pt,2.00749pt,2.14001pt,25.6802pt,0.00003pt\n",
        0,
    ),
    (
        b"\\mag=2000 \\dimen0=1truein \\message{\\the\\dimen0}\\mag=1000 \\dimen0=1truein \\message{\\the\\dimen0,\\the\\mag}\\end",
        b"36.135pt\n! Incompatible magnification (1000);\n the previous value will be retained (2000).\nl.2\n36.135pt,2000\n",
        1,
    ),
    (
        b"{\\mag=0 \\dimen0=1truein \\message{\\the\\dimen0,\\the\\mag}}\\message{\\the\\mag}\\end",
        b"! Illegal magnification has been changed to 1000 (0).\nl.2\n72.26999pt,1000 1000\n",
        1,
    ),
    (
        b"{\\mag=32769 \\dimen0=1truein \\message{\\the\\dimen0,\\the\\mag}}\\message{\\the\\mag}\\mag=32768 \\dimen0=1truept \\message{\\the\\mag}\\end",
        b"! Illegal magnification has been changed to 1000 (32769).\nl.2\n72.26999pt,1000 1000\n! Incompatible magnification (32768);\n the previous value will be retained (1000).\nl.2\n1000\n",
        1,
    ),
    (
        b"{\\mag=-5 \\dimen0=1truein }\\message{\\the\\mag,\\the\\dimen0}\\end",
        b"! Illegal magnification has been changed to 1000 (-5).\nl.2\n1000,0.0pt\n",
        1,
    ),
    (
        b"{\\mag=32768 \\dimen0=1truein \\message{\\the\\dimen0}}\\message{\\the\\mag}\\dimen0=1truein \\message{\\the\\mag}\\end",
        b"2.2055pt 1000\n! Incompatible magnification (1000);\n the previous value will be retained (32768).\nl.2\n32768\n",
        1,
    ),
    (
        b"\\newlinechar=`\\; \\mag=2000 \\dimen1=1truept \\mag=3000 \\dimen1=1truept \\message{\\the\\mag}\\end",
        b"! Incompatible magnification (3000)\n the previous value will be retained (2000).\nl.2\n2000\n",
        1,
    ),
];

#[test]
fn the_magnification_is_checked(rt: HostRuntime) {
    rows_hold(&rt, rt.alloc(), &MAGNIFIED);
}

/// Glue: stretch and shrink with their orders of infinity, in mu and not.
const GLUED: [Row; 15] = [
    (
        b"\\parskip=1pt plus 2fil minus 3sp \\message{\\the\\parskip}\\end",
        b"1.0pt plus 2.0fil minus 0.00005pt\n",
        0,
    ),
    (
        b"\\skip1=3pt plus -1fil minus 2.5fill\\skip2=-\\skip1\\message{\\the\\skip1;\\the\\skip2}\\dimen1=\\skip1\\count1=\\skip1\\message{\\the\\dimen1,\\the\\count1}\\end",
        b"3.0pt plus -1.0fil minus 2.5fill;-3.0pt plus 1.0fil minus -2.5fill 3.0pt,196608\n",
        0,
    ),
    (
        b"\\muskip1=1mu plus 2mu minus 3fil\\message{\\the\\muskip1}\\thinmuskip=3mu\\message{\\the\\thinmuskip}\\muskip2=\\thinmuskip\\message{\\the\\muskip2}\\end",
        b"1.0mu plus 2.0mu minus 3.0fil 3.0mu 3.0mu\n",
        0,
    ),
    (
        b"\\skip1=\\count1 pt plus\\dimen1\\message{\\the\\skip1}\\dimen1=5pt\\skip1=\\dimen1 plus \\dimen1 minus .5\\dimen1\\message{\\the\\skip1}\\end",
        b"0.0pt 5.0pt plus 5.0pt minus 2.5pt\n",
        0,
    ),
    (
        b"\\muskip1=\\skip1\\message{\\the\\muskip1}\\skip1=\\muskip1\\message{\\the\\skip1}\\end",
        b"! Incompatible glue units.\nl.2\n0.0mu\n! Incompatible glue units.\nl.2\n0.0pt\n",
        1,
    ),
    (
        b"\\dimen1=1pt \\skip1=-\\dimen1 plus-\\dimen1minus--2\\dimen1\\message{\\the\\skip1}\\end",
        b"-1.0pt plus -1.0pt minus 2.0pt\n",
        0,
    ),
    (
        b"\\edef\\a{\\the\\dimen1 \\the\\skip1}\\message{\\meaning\\a}\\end",
        b"macro:->0.0pt0.0pt\n",
        0,
    ),
    (
        b"\\skip1=1pt plus 1filll minus 1fillll\\message{\\the\\skip1}\\skip1=0pt plus 1filllll\\message{\\the\\skip1}\\end",
        b"! Illegal unit of measure (replaced by filll).\nl.2\n1.0pt plus 1.0filll minus 1.0filll\n! Illegal unit of measure (replaced by filll).\nl.2\n! Illegal unit of measure (replaced by filll).\nl.2\n0.0pt plus 1.0filll\n",
        1,
    ),
    (
        b"\\skip1=1pt plus 1fi\\message{\\the\\skip1}\\end",
        b"! Illegal unit of measure (pt inserted).\nl.2\n{the letter f}\n{the letter i}\n1.0pt plus 1.0pt\n",
        1,
    ),
    (
        b"\\skip1=1pt minus1pt plus1pt\\message{\\the\\skip1}\\end",
        b"{the letter p}\n{the letter l}\n{the letter u}\n{the letter s}\n{the character 1}\n{the letter p}\n{the letter t}\n1.0pt minus 1.0pt\n",
        0,
    ),
    (
        b"\\skip2=1pt plusx\\message{\\the\\skip2}\\end",
        b"! Missing number, treated as zero.\nl.2\n! Illegal unit of measure (pt inserted).\nl.2\n{the letter x}\n1.0pt\n",
        1,
    ),
    (
        b"\\muskip1=1pt\\message{\\the\\muskip1}\\end",
        b"! Illegal unit of measure (mu inserted).\nl.2\n{the letter p}\n{the letter t}\n1.0mu\n",
        1,
    ),
    (
        b"\\skip1=1pt \\skip2=2\\skip1\\message{\\the\\skip2}\\skip3=\\skip1 plus1pt\\message{\\the\\skip3}\\end",
        b"2.0pt\n{the letter p}\n{the letter l}\n{the letter u}\n{the letter s}\n{the character 1}\n{the letter p}\n{the letter t}\n1.0pt\n",
        0,
    ),
    (
        b"\\dimen1=2pt \\muskip1=\\dimen1\\message{\\the\\muskip1}\\muskip1=2\\dimen1 plus 1mu\\message{\\the\\muskip1}\\end",
        b"! Incompatible glue units.\nl.2\n2.0mu\n! Incompatible glue units.\nl.2\n4.0mu plus 1.0mu\n",
        1,
    ),
    (
        b"\\dimen1=16383pt \\muskip1=2\\dimen1\\message{\\the\\muskip1}\\end",
        b"! Incompatible glue units.\nl.2\n! Dimension too large.\nl.2\n16383.99998mu\n",
        1,
    ),
];

#[test]
fn glue_is_read(rt: HostRuntime) {
    rows_hold(&rt, rt.alloc(), &GLUED);
}

/// `\advance`, `\multiply` and `\divide` of dimensions and glue.
const CHANGED: [Row; 10] = [
    (
        b"\\skip0=1pt plus 2fil minus 3sp \\advance\\skip0 by 2pt plus 1fill \\message{\\the\\skip0}\\end",
        b"3.0pt plus 1.0fill minus 0.00005pt\n",
        0,
    ),
    (
        b"\\dimen1=1pt \\multiply\\dimen1 by 3 \\message{\\the\\dimen1}\\divide\\dimen1 by -2 \\message{\\the\\dimen1}\\advance\\dimen1 by 2in\\message{\\the\\dimen1}\\advance\\dimen1-.5\\dimen1\\message{\\the\\dimen1}\\end",
        b"3.0pt -1.5pt 143.04pt 71.52pt\n",
        0,
    ),
    (
        b"\\dimen1=16383pt \\multiply\\dimen1 by 2 \\message{\\the\\dimen1}\\divide\\dimen1 by 0 \\message{\\the\\dimen1}\\advance\\dimen1\\dimen1 \\message{\\the\\dimen1}\\end",
        b"! Arithmetic overflow.\nl.2\n16383.0pt\n! Arithmetic overflow.\nl.2\n16383.0pt 32766.0pt\n",
        1,
    ),
    (
        b"\\skip1=3pt plus 2fil minus 1sp\\multiply\\skip1 by -3 \\message{\\the\\skip1}\\divide\\skip1 by 2 \\message{\\the\\skip1}\\multiply\\skip1 by 8000 \\message{\\the\\skip1}\\end",
        b"-9.0pt plus -6.0fil minus -0.00005pt -4.5pt plus -3.0fil minus -0.00002pt\n! Arithmetic overflow.\nl.2\n-4.5pt plus -3.0fil minus -0.00002pt\n",
        1,
    ),
    (
        b"\\skip1=1pt plus 1fil minus 1fill\\advance\\skip1 by 1pt plus 0fill minus 1fil\\message{\\the\\skip1}\\advance\\skip1 1pt plus -1fil minus 1fill\\message{\\the\\skip1}\\end",
        b"2.0pt plus 1.0fil minus 1.0fill 3.0pt minus 2.0fill\n",
        0,
    ),
    (
        b"\\muskip1=1mu \\advance\\muskip1 by 2mu plus 1mu\\message{\\the\\muskip1}\\multiply\\muskip1 by 2 \\message{\\the\\muskip1}\\divide\\muskip1 3 \\message{\\the\\muskip1}\\end",
        b"3.0mu plus 1.0mu 6.0mu plus 2.0mu 2.0mu plus 0.66666mu\n",
        0,
    ),
    (
        b"\\dimen1=1073741823sp \\multiply\\dimen1 by1 \\message{\\the\\dimen1}\\multiply\\dimen1 by-1 \\message{\\the\\dimen1}\\dimen1=536870912sp \\multiply\\dimen1 by2 \\message{\\the\\dimen1}\\dimen1=-7sp \\divide\\dimen1 by2 \\message{\\number\\dimen1}\\end",
        b"16383.99998pt -16383.99998pt\n! Arithmetic overflow.\nl.2\n8192.0pt -3\n",
        1,
    ),
    (
        b"\\hsize=1pt \\advance\\hsize by 1pt \\parskip=1pt \\multiply\\parskip 5 \\divide\\thinmuskip 2 \\advance\\thinmuskip by 1mu \\message{\\the\\hsize,\\the\\parskip,\\the\\thinmuskip}\\end",
        b"2.0pt,5.0pt,1.0mu\n",
        0,
    ),
    (
        b"\\skip1=1pt plus 1fil \\skip2=-\\skip1\\advance\\skip1 by \\skip2\\message{\\the\\skip1}\\end",
        b"0.0pt\n",
        0,
    ),
    (
        b"\\dimen1=1pt \\advance\\dimen1 by\\count1 pt\\advance\\dimen1 by \\skip1\\advance\\dimen1 by 1truept\\message{\\the\\dimen1}\\end",
        b"2.0pt\n",
        0,
    ),
];

#[test]
fn dimensions_and_glue_are_computed_with(rt: HostRuntime) {
    rows_hold(&rt, rt.alloc(), &CHANGED);
}

/// Names of registers, groups and prefixes.
const NAMED: [Row; 9] = [
    (
        b"\\dimendef\\d=7 \\skipdef\\s=8 \\muskipdef\\m=9 \\d=1pt \\s=2pt plus 1fil\\m=3mu\\message{\\the\\dimen7,\\the\\skip8,\\the\\muskip9,\\meaning\\d,\\meaning\\s,\\meaning\\m}\\advance\\d by\\s\\message{\\the\\d}\\end",
        b"1.0pt,2.0pt plus 1.0fil,3.0mu,\\dimen7,\\skip8,\\muskip9 3.0pt\n",
        0,
    ),
    (
        b"{\\dimen1=1pt \\global\\dimen2=2pt \\global\\skip2=2pt {\\hsize=3pt \\global\\parskip=4pt plus 1fil}\\message{\\the\\hsize}}\\message{\\the\\dimen1,\\the\\dimen2,\\the\\skip2,\\the\\parskip}\\end",
        b"0.0pt 0.0pt,2.0pt,2.0pt,4.0pt plus 1.0fil\n",
        0,
    ),
    (
        b"\\skip1=1pt {\\skip1=2pt plus 1fil{\\skip1=3pt\\message{\\the\\skip1}}\\message{\\the\\skip1}\\global\\advance\\skip1 by 5pt}\\message{\\the\\skip1}\\end",
        b"3.0pt 2.0pt plus 1.0fil 7.0pt plus 1.0fil\n",
        0,
    ),
    (
        b"\\globaldefs=1 {\\dimen1=1pt \\parskip=2pt \\advance\\parskip1pt}\\message{\\the\\dimen1,\\the\\parskip}\\end",
        b"1.0pt,3.0pt\n",
        0,
    ),
    (
        b"\\def\\x{\\message{x}}\\afterassignment\\x\\dimen1=1pt \\afterassignment\\x\\skip1=1pt plus 1pt \\afterassignment\\x\\multiply\\dimen1 by 99999 \\message{\\the\\dimen1}\\end",
        b"x x\n! Arithmetic overflow.\nl.2\nx 1.0pt\n",
        1,
    ),
    (
        b"\\long\\dimen1=1pt \\outer\\hsize=2pt \\long\\parskip=3pt \\message{\\the\\dimen1,\\the\\hsize,\\the\\parskip}\\end",
        b"! You can't use `\\long' or `\\outer' with `\\dimen'.\nl.2\n! You can't use `\\long' or `\\outer' with `\\hsize'.\nl.2\n! You can't use `\\long' or `\\outer' with `\\parskip'.\nl.2\n1.0pt,2.0pt,3.0pt\n",
        1,
    ),
    (
        b"\\dimendef\\d=256 \\skipdef\\s=-1 \\message{\\meaning\\d,\\meaning\\s}\\let\\e=\\d\\e=2pt\\message{\\the\\dimen0}\\outer\\e=3pt\\message{\\the\\d}\\end",
        b"! Bad register code (256).\nl.2\n! Bad register code (-1).\nl.2\n\\dimen0,\\skip0 2.0pt\n! You can't use `\\long' or `\\outer' with `\\dimen0'.\nl.2\n3.0pt\n",
        1,
    ),
    (
        b"\\dimendef\\d=1 \\d=2\\d\\d=1.5pt\\d=2\\d\\message{\\the\\d,\\number\\d}\\end",
        b"3.0pt,196608\n",
        0,
    ),
    (
        b"\\advance\\dimendef\\message{a}\\message{\\meaning\\hsize,\\meaning\\parskip,\\meaning\\thinmuskip,\\meaning\\dimen,\\meaning\\skipdef}\\end",
        b"! You can't use `\\dimendef' after \\advance.\nl.2\na \\hsize,\\parskip,\\thinmuskip,\\dimen,\\skipdef\n",
        1,
    ),
];

#[test]
fn registers_are_named_and_restored(rt: HostRuntime) {
    rows_hold(&rt, rt.alloc(), &NAMED);
}
