//! The primitives of INITEX, numbered 1 to 186, in eight rows, and the names of the parameters.
//!
//! *The TeXbook*, chapters 20 and 24; *TeX: The Program*, parts 17 to 19 (the table of equivalents).
#![tactic(auto)]

ghost use Rattle.std.specs.Prelude.{◌≡◌, ℕ, ◌+◌, ◌-◌, ◌≤◌, ◌<◌, length, IsTrue, Some, slice_get, nat_le, bytes_eq};
ghost use Rattle.std.specs.List.{IsDistinct, list_all};
ghost use Rattle.prim_table.specs.Primitives.{primitive_name, primitive_names, row_of, class_of, place_of, numbers_before, row_size, first_number, last_number, is_in_row, is_expanded, IsPlaced};
ghost use Rattle.prim_table.specs.declared.Class.{Class};
ghost use Rattle.prim_table.specs.Words.{word_at, are_in_place};

static TEXT: &[u8; 1875] =
    b"relax begingroup endgroup endcsname par end dump ignorespaces message errmessage show showthe \
    uppercase lowercase aftergroup afterassignment immediate write openout closeout openin closein \
    long outer global def gdef edef xdef let futurelet advance multiply divide catcode lccode \
    uccode sfcode mathcode delcode count dimen skip muskip toks chardef mathchardef countdef \
    dimendef skipdef muskipdef toksdef read \
    expandafter noexpand csname number romannumeral string meaning jobname the input endinput \
    if ifcat ifnum ifdim ifodd ifvmode ifhmode ifmmode ifinner ifvoid ifhbox ifvbox ifx ifeof \
    iftrue iffalse ifcase fi else or \
    pretolerance tolerance linepenalty hyphenpenalty exhyphenpenalty clubpenalty widowpenalty \
    displaywidowpenalty brokenpenalty binoppenalty relpenalty predisplaypenalty postdisplaypenalty \
    interlinepenalty doublehyphendemerits finalhyphendemerits adjdemerits mag delimiterfactor \
    looseness time day month year showboxbreadth showboxdepth hbadness vbadness pausing \
    tracingonline tracingmacros tracingstats tracingparagraphs tracingpages tracingoutput \
    tracinglostchars tracingcommands tracingrestores uchyph outputpenalty maxdeadcycles hangafter \
    floatingpenalty globaldefs fam escapechar defaulthyphenchar defaultskewchar endlinechar \
    newlinechar language lefthyphenmin righthyphenmin holdinginserts errorcontextlines \
    parindent mathsurround lineskiplimit hsize vsize maxdepth splitmaxdepth boxmaxdepth hfuzz vfuzz \
    delimitershortfall nulldelimiterspace scriptspace predisplaysize displaywidth displayindent \
    overfullrule hangindent hoffset voffset emergencystretch \
    lineskip baselineskip parskip abovedisplayskip belowdisplayskip abovedisplayshortskip \
    belowdisplayshortskip leftskip rightskip topskip splittopskip tabskip spaceskip xspaceskip \
    parfillskip thinmuskip medmuskip thickmuskip \
    everypar everymath everydisplay everyhbox everyvbox everyjob everycr errhelp ";

static STARTS: [u16; 187] = [
    0, 6, 17, 26, 36, 40, 44, 49, 62, 70, 81, 86, 94, 104, 114, 125, 141, 151, 157, 165, 174, 181,
    189, 194, 200, 207, 211, 216, 221, 226, 230, 240, 248, 257, 264, 272, 279, 286, 293, 302, 310,
    316, 322, 327, 334, 339, 347, 359, 368, 377, 385, 395, 403, 408, 420, 429, 436, 443, 456, 463,
    471, 479, 483, 489, 498, 501, 507, 513, 519, 525, 533, 541, 549, 557, 564, 571, 578, 582, 588,
    595, 603, 610, 613, 618, 621, 634, 644, 656, 670, 686, 698, 711, 731, 745, 758, 769, 787, 806,
    823, 844, 864, 876, 880, 896, 906, 911, 915, 921, 926, 941, 954, 963, 972, 980, 994, 1008,
    1021, 1039, 1052, 1066, 1083, 1099, 1115, 1122, 1136, 1150, 1160, 1176, 1187, 1191, 1202, 1220,
    1236, 1248, 1260, 1269, 1283, 1298, 1313, 1331, 1341, 1354, 1368, 1374, 1380, 1389, 1403, 1415,
    1421, 1427, 1446, 1465, 1477, 1492, 1505, 1519, 1532, 1543, 1551, 1559, 1576, 1585, 1598, 1606,
    1623, 1640, 1662, 1684, 1693, 1703, 1711, 1724, 1732, 1742, 1753, 1765, 1776, 1786, 1798, 1807,
    1817, 1830, 1840, 1850, 1859, 1867, 1875,
];

/// How many primitives there are.
pub const COUNT: u16 = 186;

/// The rows of the table of primitives.
#[derive(Clone, Copy, PartialEq, Eq)]
pub enum Class {
    Command,
    Assignment,
    Expandable,
    Conditional,
    IntegerParameter,
    DimensionParameter,
    /// The last three are in mu.
    GlueParameter,
    TokenParameter,
}

/// The name of a primitive, without its escape character.
pub fn name(j: u16) -> &'static [u8]
    requires first { 0 < j }
    requires last { j ≤ COUNT }
    ensures { result.now ≡ primitive_name j }
{
    word(TEXT, &STARTS, j as usize - 1)
}

/// The row of a primitive, and its place in the row, from 1.
#[tactic(auto, unfolding(crate::specs::Primitives::class_of))]
pub fn prim(j: u16) -> (Class, u16)
    requires first { 0 < j }
    requires last { j ≤ COUNT }
    ensures class { result.0 ≡ class_of j }
    ensures place { result.1 ≡ place_of j }
{
    let class = if j <= last_number(Class::Command) {
        Class::Command
    } else if j <= last_number(Class::Assignment) {
        Class::Assignment
    } else if j <= last_number(Class::Expandable) {
        Class::Expandable
    } else if j <= last_number(Class::Conditional) {
        Class::Conditional
    } else if j <= last_number(Class::IntegerParameter) {
        Class::IntegerParameter
    } else if j <= last_number(Class::DimensionParameter) {
        Class::DimensionParameter
    } else if j <= last_number(Class::GlueParameter) {
        Class::GlueParameter
    } else {
        Class::TokenParameter
    };
    (class, j - numbers_before(class))
}

/// How many primitives a row has.
pub fn row_size(class: Class) -> u16
    ensures { result ≡ row_size class }
{
    match class {
        Class::Command => 22,
        Class::Assignment => 31,
        Class::Expandable => 11,
        Class::Conditional => 20,
        Class::IntegerParameter => 55,
        Class::DimensionParameter => 21,
        Class::GlueParameter => 18,
        Class::TokenParameter => 8,
    }
}

/// The number of the primitive at a place of a row, from 1.
pub fn number(class: Class, place: u16) -> u16
    requires first { 0 < place }
    requires last { place ≤ row_size class }
    ensures class { class_of result ≡ class }
    ensures place { place_of result ≡ place }
    ensures within { result ≤ COUNT }
{
    numbers_before(class) + place
}

/// The name at a place of a row, from 1: of the parameters by their numbers, among others.
pub fn name_in_row(class: Class, place: u16) -> &'static [u8]
    requires first { 0 < place }
    requires last { place ≤ row_size class }
    ensures { slice_get (row_of class) (place - 1) ≡ Some result.now }
{
    name(number(class, place))
}

/// How many primitives stand in the rows before.
fn numbers_before(class: Class) -> u16
    ensures { result ≡ numbers_before class }
{
    match class {
        Class::Command => 0,
        Class::Assignment => 22,
        Class::Expandable => 53,
        Class::Conditional => 64,
        Class::IntegerParameter => 84,
        Class::DimensionParameter => 139,
        Class::GlueParameter => 160,
        Class::TokenParameter => 178,
    }
}

/// The number of a row's first primitive.
#[inline]
pub fn first_number(class: Class) -> u16
    ensures { result ≡ first_number class }
{
    numbers_before(class) + 1
}

/// The number of a row's last primitive.
#[inline]
pub fn last_number(class: Class) -> u16
    ensures { result ≡ last_number class }
{
    numbers_before(class) + row_size(class)
}

/// Whether a primitive stands in a row.
#[inline]
pub fn is_in_row(class: Class, j: u16) -> bool
    ensures { result ≡ is_in_row class j }
{
    first_number(class) <= j && j <= last_number(class)
}

/// Whether a primitive is expanded: it is an expandable one, or a conditional, whose row comes behind theirs.
#[inline]
pub fn is_expanded(j: u16) -> bool
    ensures { result ≡ is_expanded j }
{
    first_number(Class::Expandable) <= j && j <= last_number(Class::Conditional)
}

/// A primitive's number is the number of primitives in the rows before its own and its place there; its row
/// has its name at that place, and no other primitive has that name.
pub fn numbering_law()
    ensures placed { (j : ℕ) → 0 < j → j ≤ COUNT → IsPlaced j }
    ensures distinct { IsDistinct bytes_eq primitive_names }
    ensures sizes { (class : Class) → length (row_of class) ≡ row_size class }
    ensures long { IsTrue (list_all (λ name. nat_le 2 (length name)) primitive_names) }
{}

/// The k-th word of a text in which each word ends with one space, and begins where `starts` says.
fn word(text: &'static [u8], starts: &[u16], k: usize) -> &'static [u8]
    requires below { k + 1 < length starts.now }
    requires in_place { IsTrue (are_in_place starts.now (length text.now)) }
    ensures { result.now ≡ word_at text.now starts.now k }
{
    let start = starts[k];
    let next = starts[k + 1];
    &text[start as usize..next as usize - 1]
}
