//! The plain machine: its next move, its runs, and what the program means by them.
//!
//! Everything here is definition: the functions of this file have no bodies, and their contracts are laws. The type [`Broken`], with what it is
//! made of, is cited by the definitions and used by the code.
#![tactic(auto)]

mod broken;

ghost use Rattle.std.specs.Prelude.{codes, true, false, ◌++◌, ◌∷◌, [], replicate};
ghost use Rattle.std.specs.List.{concat};
ghost use Rattle.tex_syntax.specs.declared.words.Outcome.TheVariants.{Finished, AtFatal};
ghost use Rattle.tex_defs.specs.declared.Fatal.TheVariants.{NoEnd, NoFile, HundredErrors};
ghost use Rattle.tex_defs.specs.declared.Table.TheVariants.{PoolSize, NumberOfStrings, HashSize, MainMemorySize, SaveSize, InputStackSize, ParameterStackSize, TextInputLevels, BufferSize, GroupingLevels, ExpansionDepth, ConditionStackSize};
ghost use Rattle.tex_defs.specs.Sizes.{default_sizes};
ghost use Rattle.plain_machine.specs.Rows.{Writes, WritesAs, Counts, Runs as RunsSo, RunsBeside, FillsBeside, FitsBeside, Enters, Begins, RunsWithin, Fills, FillsWithin, Fits, RowsAreRuns, EndedRowsAreWhole, RefusalsAreRuns, first_line_usual};
ghost use Rattle.plain_machine.specs.Numbers.{NumbersAreFree};
ghost use Rattle.plain_machine.specs.Extended.{ExtensionIsFree};
ghost use Rattle.plain_machine.specs.Runs.{RunsAreOne, EachHasRun, SumsOfSteps, LinesAreCounted};
ghost use Rattle.plain_machine.specs.Skips.{SkippedTextsAreCounted};
ghost use Rattle.plain_machine.specs.Bounded.{BoundedRunsAreOne, EachHasBounded, BoundedIsFront};

pub use broken::Broken;

/// Two runs of one state with one bound are equal: their moves, and the state to which they lead.
pub fn runs_are_one()
    ensures { RunsAreOne }
{}

/// Each state has a run within each bound: moves without a step never go on for ever.
pub fn each_has_run()
    ensures { EachHasRun }
{}

/// A run within j + k steps is a run within j steps, and then one within k steps from where it led.
pub fn sums_of_steps()
    ensures { SumsOfSteps }
{}

/// The numbers of the lines of all open files rise by no more than the steps that are taken, and the innermost one's by one with each
/// line that is taken, as long as the steps are fewer than 2^64: no run that short comes to where it stands still.
pub fn lines_are_counted()
    ensures { LinesAreCounted }
{}

/// Each token of a skipped text was a step, and only the innermost reading skips text: within fewer than 2^64 steps of a job no skipped text
/// has 2^64 - 1 tokens, so no count of the conditionals in one comes to where it stands still.
pub fn skipped_texts_are_counted()
    ensures { SkippedTextsAreCounted }
{}

/// Two runs of one state with one bound, within the same sizes, are equal and come to the same end.
pub fn bounded_runs_are_one()
    ensures { BoundedRunsAreOne }
{}

/// Each state has a run within each bound and sizes: to its end, to where it needs one step more, or to the first move
/// for which a table has no room.
pub fn each_has_bounded_run()
    ensures { EachHasBounded }
{}

/// A run within sizes makes the first moves of the machine's run, and all of them where no table was full.
pub fn bounded_runs_are_fronts()
    ensures { BoundedIsFront }
{}

/// What macros are called is seen nowhere: other numbers, no two of them the same, change nothing that is read, meant or counted. What is
/// assigned, and where a group begins and ends, the numbers stay with their lists.
pub fn numbers_are_free()
    ensures { NumbersAreFree }
{}

/// What files have behind their next lines is seen by no rule. Where the next reading is known, whichever bytes follow in the files, the
/// next rule does the same for all of them: its moves, done or cut off, write the same and lead to the same state, but for these bytes
/// at the files' ends, and it has as many steps. So does the rule by which a file that was opened is begun. An opening takes what it finds.
pub fn later_bytes_are_free()
    ensures { ExtensionIsFree }
{}

/// What is computed of a state are its first moves: what they write, the steps among them, and the names behind them. Where
/// an end is told, they are the machine's whole run. Within sizes, the table that is told is that of the first move that has no room.
pub fn rows_are_runs()
    ensures moves { RowsAreRuns }
    ensures whole { EndedRowsAreWhole }
    ensures refusals { RefusalsAreRuns }
{}

/// The machine run on small files: what it writes, the steps it takes, and how it ends.
pub fn worked_rows()
    ensures usual { RunsSo (first_line_usual ++ codes "\\end\n") (codes "") 31 Finished }
    ensures hi { RunsSo (first_line_usual ++ codes "\\message{hi}\\end\n") (codes "hi\n") 36 Finished }
    ensures letter { Writes (first_line_usual ++ codes "\\message{hi}x\\end\n") (codes "hi\n{the letter x}\n") Finished }
    ensures empty { RunsSo [] (codes "{\\par}\n! Emergency stop.\n*** (job aborted, no legal \\end found)\n") 2 (AtFatal NoEnd) }
    ensures no_end { Writes (first_line_usual ++ codes "\\message{hi}%\n") (codes "hi\n! Emergency stop.\n*** (job aborted, no legal \\end found)\n") (AtFatal NoEnd) }
    ensures two { Writes (first_line_usual ++ codes "\\message{a}%\n\\message{b}%\n\\end") (codes "a b\n") Finished }
    ensures blank { Writes (first_line_usual ++ codes "\\message{a}\n\\end\n") (codes "a\n{blank space  }\n") Finished }
    ensures carriage_returns { Writes (codes "\\catcode`\\{=1 \\catcode`\\}=2 \r\n\\message{x}%\r\n\\end \r\n") (codes "x\n") Finished }
    ensures long_text { Writes (first_line_usual ++ codes "\\message{a  \n\tb{c\n}d{}}\\end\n") (codes "a ^^Ib{c }d{}\n") Finished }
    ensures octal { Writes (codes "\\catcode'173='1\\catcode\"7D=\"2\\message{o}\\end") (codes "o\n") Finished }
    ensures signs { Writes (codes "\\catcode - -123 1\\catcode`}+2 \\message{s}\\end") (codes "s\n") Finished }
    ensures shown { Writes (first_line_usual ++ codes "\\message{#^%\n\\end\\message a\\catcode 1}\\end\n") (codes "##^\\end \\message a\\catcode 1\n") Finished }
    ensures active { Writes (first_line_usual ++ codes "\\catcode`\\~=13 \\message{a~}\\end\n") (codes "! Undefined control sequence.\nl.2\na\n") Finished }
    ensures ignored { Writes (first_line_usual ++ codes "\\catcode`\\x=9 \\message{axbx}\\end\n") (codes "ab\n") Finished }
    ensures comment { Writes (first_line_usual ++ codes "\\catcode`\\x=14 \\message{a}xb\n\\end\n") (codes "a\n") Finished }
    ensures other_escape { Writes (first_line_usual ++ codes "\\catcode`\\|=0 |message{|end}|end\n") (codes "\\end \n") Finished }
    ensures null_printed { Writes (codes "\\catcode`\\{=1 \\catcode`\\}=2 \\catcode0=12 \\message{" ++ (0 ∷ 255 ∷ 127 ∷ [])) (codes "! Text line contains an invalid character.\nl.1\nRunaway text?\n\n^^ff \n! File ended while scanning text of \\message.\nl.0\n\n^^ff \n! Emergency stop.\n*** (job aborted, no legal \\end found)\n") (AtFatal NoEnd) }
    ensures line_feed_printed { Writes (codes "\\catcode`\\{=1 \\catcode`\\}=2 \\catcode0=12 \\message{a" ++ (0 ∷ 255 ∷ codes "}\\end")) (codes "a\n^^ff\n") Finished }
    ensures too_great { Writes (codes "\\catcode2147483648=1 ") (codes "! Number too big.\nl.1\n! Bad character code (2147483647).\nl.1\n! Emergency stop.\n*** (job aborted, no legal \\end found)\n") (AtFatal NoEnd) }
    ensures undefined { Writes (codes "\\foo\\end") (codes "! Undefined control sequence.\nl.1\n") Finished }
    ensures brace_missing { Writes (first_line_usual ++ codes "\\message x}\\end") (codes "! Missing { inserted.\nl.2\nx\n") Finished }
    ensures run_away { Writes (first_line_usual ++ codes "\\message{hi") (codes "Runaway text?\nhi \n! File ended while scanning text of \\message.\nl.0\nhi \n! Emergency stop.\n*** (job aborted, no legal \\end found)\n") (AtFatal NoEnd) }
    ensures improper { Writes (codes "\\catcode`\\foo 5 \\end") (codes "! Improper alphabetic constant.\nl.1\n! Undefined control sequence.\nl.1\n") Finished }
    ensures improper_again { Writes (codes "\\catcode`\\foo 5 \\foo\\end") (codes "! Improper alphabetic constant.\nl.1\n! Undefined control sequence.\nl.1\n! Undefined control sequence.\nl.1\n") Finished }
    ensures entered_raw { Enters (codes "\\catcode`\\foo 5 \\foo\\end") (codes "foo" ∷ []) }
    ensures not_entered { Enters (codes "\\foo\\catcode`\\x\\bar=5 \\end") [] }
    ensures entered_once { Enters (codes "\\catcode`\\foo 5 \\catcode`\\bar\\catcode`\\foo 5 \\end") (codes "foo" ∷ codes "bar" ∷ []) }
    ensures missing { Writes (codes "\\catcode`\\x=\\end\\end") (codes "! Missing number, treated as zero.\nl.1\n") Finished }
    ensures hats { Writes (first_line_usual ++ codes "\\message{^^41^^4a}\\end") (codes "AJ\n") Finished }
    ensures relax { RunsSo (first_line_usual ++ codes "\\relax\\end\n") (codes "") 32 Finished }
    ensures relax_before_a_brace { RunsSo (first_line_usual ++ codes "\\message\\relax {hi}\\end\n") (codes "hi\n") 37 Finished }
    ensures relax_twice { Writes (first_line_usual ++ codes "\\message \\relax\\relax{hi}\\end\n") (codes "hi\n") Finished }
    ensures global { RunsSo (first_line_usual ++ codes "\\global\\catcode`\\%=12 \\message{a%b}\\catcode`\\%=14 \\end\n") (codes "a%b\n") 54 Finished }
    ensures long_assignment { RunsSo (first_line_usual ++ codes "\\global\\relax \\long\\catcode`\\%=12 \\message{%}\\catcode`\\%=14 \\end\n") (codes "! You can't use `\\long' or `\\outer' with `\\catcode'.\nl.2\n%\n") 54 Finished }
    ensures prefix_before_a_message { RunsSo (first_line_usual ++ codes "\\global\\message{x}\\end\n") (codes "! You can't use a prefix with `\\message'.\nl.2\nx\n") 37 Finished }
    ensures prefix_before_a_letter { RunsSo (first_line_usual ++ codes "\\outer x\\end\n") (codes "! You can't use a prefix with `the letter x'.\nl.2\n{the letter x}\n") 34 Finished }
    ensures prefix_before_the_end { Writes (first_line_usual ++ codes "\\long\\foo\\global\\end\n") (codes "! Undefined control sequence.\nl.2\n! You can't use a prefix with `\\end'.\nl.2\n") Finished }
    ensures no_category { Writes (codes "\\catcode`\\x=16 ") (codes "! Invalid code (16), should be in the range 0..15.\nl.1\n! Emergency stop.\n*** (job aborted, no legal \\end found)\n") (AtFatal NoEnd) }
{}

/// The machine run on small files with codes of characters that are assigned.
pub fn worked_codes()
    ensures lowercase { RunsSo (first_line_usual ++ codes "\\lccode65=97 \\end\n") (codes "") 39 Finished }
    ensures uppercase { Writes (first_line_usual ++ codes "\\uccode`\\a=256 \\end\n") (codes "! Invalid code (256), should be in the range 0..255.\nl.2\n") Finished }
    ensures space_factor { Writes (first_line_usual ++ codes "\\sfcode65=32767 \\sfcode65=32768 \\end\n") (codes "! Invalid code (32768), should be in the range 0..32767.\nl.2\n") Finished }
    ensures math { Writes (first_line_usual ++ codes "\\mathcode65=\"8000 \\mathcode65=32769 \\end\n") (codes "! Invalid code (32769), should be in the range 0..32768.\nl.2\n") Finished }
    ensures delimiter { Writes (first_line_usual ++ codes "\\delcode40=\"FFFFFF \\delcode40=16777216 \\end\n") (codes "! Invalid code (16777216), should be at most 16777215.\nl.2\n") Finished }
    ensures negative_delimiter { Writes (first_line_usual ++ codes "\\delcode40=-1 \\sfcode40=-1 \\end\n") (codes "! Invalid code (-1), should be in the range 0..32767.\nl.2\n") Finished }
    ensures no_character { Writes (first_line_usual ++ codes "\\lccode256=1 \\end\n") (codes "! Bad character code (256).\nl.2\n") Finished }
    ensures prefixed { Writes (first_line_usual ++ codes "\\global\\lccode65=97 \\long\\uccode97=65 \\end\n") (codes "! You can't use `\\long' or `\\outer' with `\\uccode'.\nl.2\n") Finished }
    ensures shown { Writes (first_line_usual ++ codes "\\message{\\meaning\\delcode}\\show\\sfcode\\end\n") (codes "\\delcode\n> \\sfcode=\\sfcode.\nl.2\n") Finished }
{}

/// The machine run on small files with macros: the arguments of calls.
pub fn worked_arguments()
    ensures delimited { Writes (first_line_usual ++ codes "\\def\\a#1ab{[#1]}\\message{\\a xaab}\\end\n") (codes "[xa]\n") Finished }
    ensures delimiter_overlaps { Writes (first_line_usual ++ codes "\\def\\a#1aab{[#1]}\\message{\\a aaab\\a aaaab}\\end\n") (codes "[a][aa]\n") Finished }
    ensures delimiter_with_par { Writes (first_line_usual ++ codes "\\def\\a#1\\par x{[#1]}\\message{\\a y\\par x}\\end\n") (codes "[y]\n") Finished }
    ensures groups { Writes (first_line_usual ++ codes "\\def\\a#1.{(#1)}\\message{\\a{x}.\\a{x}{y}.}\\end\n") (codes "(x)({x}{y})\n") Finished }
    ensures inner_groups { Writes (first_line_usual ++ codes "\\def\\a#1.{[#1]}\\message{\\a{.}.\\a x{.}.\\a.\\a{{x}}.}\\end\n") (codes "[.][x{.}][][{x}]\n") Finished }
    ensures no_match_within_groups { Writes (first_line_usual ++ codes "\\def\\a#1ab{[#1]}\\message{\\a{xa}b{ab}ab}\\end\n") (codes "[{xa}b{ab}]\n") Finished }
    ensures undelimited { Writes (first_line_usual ++ codes "\\def\\a#1#2{(#1|#2)}\\message{\\a x {yz}}\\end\n") (codes "(x|yz)\n") Finished }
    ensures undelimited_space { Writes (first_line_usual ++ codes "\\def\\a#1{[#1]}\\message{\\a{ }\\a  {}}\\end\n") (codes "[ ][]\n") Finished }
    ensures nine { Writes (first_line_usual ++ codes "\\def\\a#1#2#3#4#5#6#7#8#9{#9#8#7#6#5#4#3#2#1}\\message{\\a abc{d}efghi}\\end\n") (codes "ihgfedcba\n") Finished }
    ensures brace_place { Writes (first_line_usual ++ codes "\\def\\a#1#{(#1)}\\message{\\a xy{z}}\\end\n") (codes "(xy){z}\n") Finished }
    ensures long { Writes (first_line_usual ++ codes "\\long\\def\\a#1.{(#1)}\\message{\\a x\\par y.}\\end\n") (codes "(x\\par y)\n") Finished }
    ensures arguments_read_again { Writes (first_line_usual ++ codes "\\def\\a#1{\\b#1}\\def\\b#1{#1}\\message{\\a{{x}{y}}}\\end\n") (codes "x{y}\n") Finished }
{}

/// The machine run on small files with macros: what bodies give, and when.
pub fn worked_bodies()
    ensures long_by_name { Writes (first_line_usual ++ codes "\\def\\a#1{#1\\b}\\long\\a\\def#1.{[#1]}\\message{\\b x\\par.}\\end\n") (codes "[x\\par ]\n") Finished }
    ensures long_behind_global { Writes (first_line_usual ++ codes "\\global\\long\\def\\a#1.{[#1]}\\message{\\a x\\par.}\\end\n") (codes "[x\\par ]\n") Finished }
    ensures nested { Writes (first_line_usual ++ codes "\\def\\a#1{\\def\\b##1{#1##1}}\\a x\\message{\\b y}\\end\n") (codes "xy\n") Finished }
    ensures redefined { Writes (first_line_usual ++ codes "\\def\\a{\\def\\a{n}\\message{old}}\\a\\message{\\a}\\end\n") (codes "old n\n") Finished }
    ensures redefined_in_its_body { Writes (first_line_usual ++ codes "\\def\\a{\\def\\a{\\message{n}}\\message{o}}\\a\\a\\end\n") (codes "o n\n") Finished }
    ensures par { Writes (first_line_usual ++ codes "\\def\\par{\\message{p}}\\def\\a#1.{}\\message{x}%\n\n\\a x\\par\\end\n") (codes "x p\nRunaway argument?\nx\n! Paragraph ended before \\a was complete.\nl.4\np\n") Finished }
    ensures active { Writes (first_line_usual ++ codes "\\catcode`\\~=13 \\def~#1{t#1}\\message{~~x}\\end\n") (codes "ttx\n") Finished }
    ensures active_mismatch { Writes (first_line_usual ++ codes "\\catcode`\\~=13 \\def~x{}~y\\end\n") (codes "! Use of ~ doesn't match its definition.\nl.2\n") Finished }
    ensures number { Writes (first_line_usual ++ codes "\\def\\a{12 }\\catcode`\\%=\\a\\message{%}\\catcode`\\%=14 \\end\n") (codes "%\n") Finished }
    ensures inner_space { Writes (first_line_usual ++ codes "\\def \\a #1{[#1]}\\def \n\\b{y}\\message{\\a x\\a\\b}\\end\n") (codes "[x][y]\n") Finished }
    ensures space_before_the_name { Writes (first_line_usual ++ codes "\\def\\a#1{\\def#1\\b{y}}\\a{ }\\message{\\b}\\end\n") (codes "y\n") Finished }
    ensures outer_again { Writes (first_line_usual ++ codes "\\outer\\def\\o{x}\\o\\def\\o{y}\\message{\\o}\\end\n") (codes "{the letter x}\ny\n") Finished }
    ensures steps { RunsSo (first_line_usual ++ codes "\\def\\a#1.{#1#1}\\a xy.\\end\n") (codes "{the letter x}\n{the letter y}\n{the letter x}\n{the letter y}\n") 50 Finished }
    ensures gap_steps { RunsSo (first_line_usual ++ codes "\\def\\a#1.{#1#1}\\a.\\end\n") (codes "") 44 Finished }
{}

/// The machine run on small files with definitions that are expanded.
pub fn worked_expanded_definitions()
    ensures global { Writes (first_line_usual ++ codes "\\gdef\\a{x}\\xdef\\b{\\a\\a}\\global\\edef\\c{\\b\\a}\\message{\\a\\b\\c}\\end\n") (codes "xxxxxx\n") Finished }
    ensures expanded { Writes (first_line_usual ++ codes "\\def\\b{x}\\edef\\a{\\b\\b}\\def\\b{y}\\message{\\a}\\end\n") (codes "xx\n") Finished }
    ensures expanded_arguments { Writes (first_line_usual ++ codes "\\def\\b#1{<#1>}\\edef\\a{\\b{x}\\b y}\\def\\b{}\\message{\\a}\\end\n") (codes "<x><y>\n") Finished }
    ensures expanded_number { Writes (first_line_usual ++ codes "\\def\\n{1}\\edef\\a#1{#\\n#1}\\message{\\a x}\\end\n") (codes "xx\n") Finished }
    ensures expanded_spaces { Writes (first_line_usual ++ codes "\\def\\b{ x }\\edef\\a{\\b y}\\message{\\a}\\end\n") (codes " x y\n") Finished }
    ensures expanded_undefined { Writes (first_line_usual ++ codes "\\edef\\a{x\\foo y}\\message{\\a}\\end\n") (codes "! Undefined control sequence.\nl.2\nxy\n") Finished }
    ensures illegal_expanded { Writes (first_line_usual ++ codes "\\edef\\a{#\\foo x}\\message{\\a}\\end\n") (codes "! Undefined control sequence.\nl.2\n! Illegal parameter number in definition of \\a.\nl.2\n##x\n") Finished }
    ensures entered { Enters (first_line_usual ++ codes "\\def\\foo#1\\bar{\\baz}\\edef\\foo#1{\\qux}\\foo\\quux\\message{\\corge}\\end\n") (codes "foo" ∷ codes "bar" ∷ codes "baz" ∷ codes "quux" ∷ []) }
{}

/// The machine run on small files with definitions that reports come of.
pub fn worked_definitions()
    ensures missing_name { Writes (first_line_usual ++ codes "\\def x\\end\n") (codes "! Missing control sequence inserted.\nl.2\nRunaway definition?\nx\\end \n! File ended while scanning definition of \\inaccessible.\nl.0\n! Missing { inserted.\nl.0\n! Emergency stop.\n*** (job aborted, no legal \\end found)\n") (AtFatal NoEnd) }
    ensures missing_name_defined { Writes (first_line_usual ++ codes "\\def x{y}\\end\n") (codes "! Missing control sequence inserted.\nl.2\n") Finished }
    ensures numbering { Writes (first_line_usual ++ codes "\\def\\a#2{#1}\\message{\\a x}\\end\n") (codes "! Parameters must be numbered consecutively.\nl.2\n! Argument of \\a has an extra }.\nl.2\nRunaway argument?\nx\n! Paragraph ended before \\a was complete.\nl.2\n\\par \n") Finished }
    ensures numbering_counts { Writes (first_line_usual ++ codes "\\def\\a#x{(#1)}\\message{\\a yx}\\end\n") (codes "! Parameters must be numbered consecutively.\nl.2\n(y)\n") Finished }
    ensures numbering_twice { Writes (first_line_usual ++ codes "\\def\\a##1{(#1)}\\message{\\a y1}\\end\n") (codes "! Parameters must be numbered consecutively.\nl.2\n! Parameters must be numbered consecutively.\nl.2\n(y)\n") Finished }
    ensures numbering_at_the_end { Writes (first_line_usual ++ codes "\\def\\a#}\\message{\\a}\\end\n") (codes "! Parameters must be numbered consecutively.\nl.2\n! Missing { inserted.\nl.2\n! Argument of \\a has an extra }.\nl.2\nRunaway argument?\n! Paragraph ended before \\a was complete.\nl.2\n\\par \n") Finished }
    ensures tenth { Writes (first_line_usual ++ codes "\\def\\a#1#2#3#4#5#6#7#8#9#xy{#9#:}\\message{\\a 123456789y.}\\end\n") (codes "! You already have nine parameters.\nl.2\n! Illegal parameter number in definition of \\a.\nl.2\n9##:.\n") Finished }
    ensures tenth_brace { Writes (first_line_usual ++ codes "\\def\\a#1#2#3#4#5#6#7#8#9#{[#9]}\\message{\\a 12345678{9}{x}}\\end\n") (codes "[]{9}{x}\n") Finished }
    ensures illegal { Writes (first_line_usual ++ codes "\\def\\a#1{#2}\\message{\\a x}\\end\n") (codes "! Illegal parameter number in definition of \\a.\nl.2\n##2\n") Finished }
    ensures illegal_without_places { Writes (first_line_usual ++ codes "\\def\\a{#1}\\message{\\a}\\end\n") (codes "! Illegal parameter number in definition of \\a.\nl.2\n##1\n") Finished }
    ensures illegal_letter { Writes (first_line_usual ++ codes "\\def\\a#1{##1#x#1}\\message{\\a y}\\end\n") (codes "! Illegal parameter number in definition of \\a.\nl.2\n##1##xy\n") Finished }
    ensures illegal_brace { Writes (first_line_usual ++ codes "\\def\\a#1{#}\\message{\\a x}\\end\n") (codes "! Illegal parameter number in definition of \\a.\nl.2\n##\n") Finished }
    ensures no_body { Writes (first_line_usual ++ codes "\\def\\a}\\message{[\\a]}\\end\n") (codes "! Missing { inserted.\nl.2\n[]\n") Finished }
    ensures no_body_places { Writes (first_line_usual ++ codes "\\def\\a#1.}\\message{[\\a x.]}\\end\n") (codes "! Missing { inserted.\nl.2\n[]\n") Finished }
{}

/// The machine run on small files with calls that fail, and with calls behind prefixes.
pub fn worked_calls()
    ensures mismatch { Writes (first_line_usual ++ codes "\\def\\a b#1{}\\a x\\end\n") (codes "! Use of \\a doesn't match its definition.\nl.2\n") Finished }
    ensures mismatch_brace { Writes (first_line_usual ++ codes "\\def\\a b#1{}\\message{x\\a}\\end\n") (codes "! Use of \\a doesn't match its definition.\nl.2\nRunaway text?\nx\\end \n! File ended while scanning text of \\message.\nl.0\nx\\end \n! Emergency stop.\n*** (job aborted, no legal \\end found)\n") (AtFatal NoEnd) }
    ensures category_differs { Writes (first_line_usual ++ codes "\\catcode`\\~=12 \\def\\a#1~{[#1]}\\catcode`\\~=11 \\message{\\a x~y}\\end\n") (codes "! Argument of \\a has an extra }.\nl.2\nRunaway argument?\nx~y\n! Paragraph ended before \\a was complete.\nl.2\n\\par \n") Finished }
    ensures extra_brace { Writes (first_line_usual ++ codes "\\def\\a#1{}\\a}\\end\n") (codes "! Argument of \\a has an extra }.\nl.2\nRunaway argument?\n! Paragraph ended before \\a was complete.\nl.2\n{\\par}\n! Too many }'s.\nl.2\n") Finished }
    ensures extra_brace_delimited { Writes (first_line_usual ++ codes "\\def\\a#1.{}\\a x}\\end\n") (codes "! Argument of \\a has an extra }.\nl.2\nRunaway argument?\nx\n! Paragraph ended before \\a was complete.\nl.2\n{\\par}\n! Too many }'s.\nl.2\n") Finished }
    ensures extra_brace_long { Writes (first_line_usual ++ codes "\\long\\def\\a#1{[#1]}\\message{x\\a}\\end\n") (codes "! Argument of \\a has an extra }.\nl.2\nRunaway argument?\n! Paragraph ended before \\a was complete.\nl.2\nx\\par \n") Finished }
    ensures extra_brace_in_a_match { Writes (first_line_usual ++ codes "\\def\\a#1ab{}\\message{\\a xa}\\end\n") (codes "! Argument of \\a has an extra }.\nl.2\nRunaway argument?\nxa\n! Paragraph ended before \\a was complete.\nl.2\n\\par \n") Finished }
    ensures extra_brace_breaks_a_match { Writes (first_line_usual ++ codes "\\def\\a#1a\\par{[#1]}\\message{\\a xa}\\end\n") (codes "! Argument of \\a has an extra }.\nl.2\nRunaway argument?\nxa\n! Paragraph ended before \\a was complete.\nl.2\n\\par \n") Finished }
    ensures extra_brace_then_par { Writes (first_line_usual ++ codes "\\def\\a#1\\par{[#1]}\\message{\\a x}\\end\n") (codes "! Argument of \\a has an extra }.\nl.2\n[x]\n") Finished }
    ensures prefix { Writes (first_line_usual ++ codes "\\def\\a{\\message}\\long\\a{x}\\end\n") (codes "! You can't use a prefix with `\\message'.\nl.2\nx\n") Finished }
    ensures prefix_letter { Writes (first_line_usual ++ codes "\\def\\a{x}\\global\\a\\end\n") (codes "! You can't use a prefix with `the letter x'.\nl.2\n{the letter x}\n") Finished }
    ensures prefix_nothing { Writes (first_line_usual ++ codes "\\def\\a{}\\long\\a\\def\\b#1.{[#1]}\\message{\\b x\\par.}\\end\n") (codes "[x\\par ]\n") Finished }
{}

/// The machine run on small files with calls that a `\par` ends, and with long lists that run away.
pub fn worked_paragraphs()
    ensures paragraph { Writes (first_line_usual ++ codes "\\def\\a#1.{(#1)}\\a xy\\par z\\end\n") (codes "Runaway argument?\nxy\n! Paragraph ended before \\a was complete.\nl.2\n{\\par}\n{the letter z}\n") Finished }
    ensures paragraph_undelimited { Writes (first_line_usual ++ codes "\\def\\a#1{(#1)}\\a \\par z\\end\n") (codes "Runaway argument?\n! Paragraph ended before \\a was complete.\nl.2\n{\\par}\n{the letter z}\n") Finished }
    ensures paragraph_in_a_group { Writes (first_line_usual ++ codes "\\def\\a#1{[#1]}\\message{\\a{x{\\par}y}}\\end\n") (codes "Runaway argument?\n{x{\n! Paragraph ended before \\a was complete.\nl.2\n\\par \n{the letter y}\n! Too many }'s.\nl.2\n! Too many }'s.\nl.2\n") Finished }
    ensures paragraph_like_a_delimiter { Writes (first_line_usual ++ codes "\\def\\a#1\\par x{[#1]}\\message{\\a{y\\par x}\\par x}\\end\n") (codes "Runaway argument?\n{y\n! Paragraph ended before \\a was complete.\nl.2\n\\par x\n{\\par}\n{the letter x}\n! Too many }'s.\nl.2\n") Finished }
    ensures paragraph_in_a_match { Writes (first_line_usual ++ codes "\\def\\a#1ab{}\\a xa\\par\\end\n") (codes "Runaway argument?\nxa\n! Paragraph ended before \\a was complete.\nl.2\n{\\par}\n") Finished }
    ensures cut_at_62 { Writes (first_line_usual ++ codes "\\def\\a#1.{}\\a abcdefghijklmnopqrstuvwxyzabcdefghijklmnopqrstuvwxyzabcdefghij\\par\\end\n") (codes "Runaway argument?\nabcdefghijklmnopqrstuvwxyzabcdefghijklmnopqrstuvwxyzabcdefghij\n! Paragraph ended before \\a was complete.\nl.2\n{\\par}\n") Finished }
    ensures cut_beyond_62 { Writes (first_line_usual ++ codes "\\def\\a#1.{}\\a abcdefghijklmnopqrstuvwxyzabcdefghijklmnopqrstuvwxyzabcdefghijk\\par\\end\n") (codes "Runaway argument?\nabcdefghijklmnopqrstuvwxyzabcdefghijklmnopqrstuvwxyzabcdefghij\\ETC.\n! Paragraph ended before \\a was complete.\nl.2\n{\\par}\n") Finished }
    ensures cut_behind_a_name { Writes (first_line_usual ++ codes "\\def\\a#1.{}\\a abcdefghijklmnopqrstuvwxyzabcdefghijklmnopqrstuvwxyzabcdefghi\\b c\\par\\end\n") (codes "Runaway argument?\nabcdefghijklmnopqrstuvwxyzabcdefghijklmnopqrstuvwxyzabcdefghi\\b \\ETC.\n! Paragraph ended before \\a was complete.\nl.2\n{\\par}\n") Finished }
{}

/// The machine run on small files that end within a definition or a call.
pub fn worked_ends()
    ensures ended_parameters { Writes (first_line_usual ++ codes "\\def\\a#1.") (codes "Runaway definition?\n#1. \n! File ended while scanning definition of \\a.\nl.0\n! Missing { inserted.\nl.0\n! Emergency stop.\n*** (job aborted, no legal \\end found)\n") (AtFatal NoEnd) }
    ensures ended_definition { Writes (first_line_usual ++ codes "\\def\\a#1.{x") (codes "Runaway definition?\n#1.->x \n! File ended while scanning definition of \\a.\nl.0\n! Emergency stop.\n*** (job aborted, no legal \\end found)\n") (AtFatal NoEnd) }
    ensures ended_expanded { Writes (first_line_usual ++ codes "\\def\\b{xy}\\edef\\a{\\b") (codes "Runaway definition?\n->xy\n! File ended while scanning definition of \\a.\nl.0\n! Emergency stop.\n*** (job aborted, no legal \\end found)\n") (AtFatal NoEnd) }
    ensures ended_use { Writes (first_line_usual ++ codes "\\def\\a#1{}\n\\a{x") (codes "{blank space  }\nRunaway argument?\n{x \n! File ended while scanning use of \\a.\nl.0\n! Emergency stop.\n*** (job aborted, no legal \\end found)\n") (AtFatal NoEnd) }
    ensures ended_delimited { Writes (first_line_usual ++ codes "\\def\\a#1.{}\\a xy") (codes "Runaway argument?\nxy \n! File ended while scanning use of \\a.\nl.0\n! Emergency stop.\n*** (job aborted, no legal \\end found)\n") (AtFatal NoEnd) }
    ensures ended_in_a_group { Writes (first_line_usual ++ codes "\\def\\a#1ab{}\\a{xa%") (codes "Runaway argument?\n{xa\n! File ended while scanning use of \\a.\nl.0\n! Emergency stop.\n*** (job aborted, no legal \\end found)\n") (AtFatal NoEnd) }
    ensures ended_in_a_match { Writes (first_line_usual ++ codes "\\def\\a#1ab{}\\a xa%") (codes "Runaway argument?\nx\n! File ended while scanning use of \\a.\nl.0\n! Emergency stop.\n*** (job aborted, no legal \\end found)\n") (AtFatal NoEnd) }
    ensures ended_before_the_first { Writes (first_line_usual ++ codes "\\def\\a b{}\\a") (codes "Runaway argument?\n! File ended while scanning use of \\a.\nl.0\n! Use of \\a doesn't match its definition.\nl.0\n! Emergency stop.\n*** (job aborted, no legal \\end found)\n") (AtFatal NoEnd) }
    ensures ended_without_a_token { Writes (first_line_usual ++ codes "\\def\\a#1.{}\\a") (codes "Runaway argument?\n! File ended while scanning use of \\a.\nl.0\n! Emergency stop.\n*** (job aborted, no legal \\end found)\n") (AtFatal NoEnd) }
{}

/// The machine run on small files where an `\outer` name comes within a definition, a call or a text.
pub fn worked_outer_names()
    ensures outer_parameters { Writes (first_line_usual ++ codes "\\outer\\def\\o{}\\def\\a#1\\o\\message{x}\\end\n") (codes "Runaway definition?\n#1\n! Forbidden control sequence found while scanning definition of \\a.\nl.2\n! Missing { inserted.\nl.2\nx\n") Finished }
    ensures outer_parameters_behind { Writes (first_line_usual ++ codes "\\outer\\def\\o{}\\def\\a x\\o\\message{\\a x y}\\end\n") (codes "Runaway definition?\nx\n! Forbidden control sequence found while scanning definition of \\a.\nl.2\n! Missing { inserted.\nl.2\ny\n") Finished }
    ensures outer_definition { Writes (first_line_usual ++ codes "\\outer\\def\\o{}\\def\\a#1.{#1x\\o\\message{\\a z.}\\end\n") (codes "Runaway definition?\n#1.->#1x\n! Forbidden control sequence found while scanning definition of \\a.\nl.2\nzx \n") Finished }
    ensures outer_use { Writes (first_line_usual ++ codes "\\outer\\def\\o{}\\def\\a#1.{[#1]}\\a xy\\o z.\\end\n") (codes "Runaway argument?\nxy\n! Forbidden control sequence found while scanning use of \\a.\nl.2\n{the letter z}\n{the character .}\n") Finished }
    ensures outer_use_long { Writes (first_line_usual ++ codes "\\outer\\def\\o{}\\long\\def\\a#1.{(#1)}\\a x\\o\\message{y}\\end\n") (codes "Runaway argument?\nx\n! Forbidden control sequence found while scanning use of \\a.\nl.2\ny\n") Finished }
    ensures outer_in_a_match { Writes (first_line_usual ++ codes "\\outer\\def\\o{}\\def\\a#1ab{}\\a xa\\o\\message{x}\\end\n") (codes "Runaway argument?\nx\n! Forbidden control sequence found while scanning use of \\a.\nl.2\nx\n") Finished }
    ensures outer_behind_the_first { Writes (first_line_usual ++ codes "\\outer\\def\\o{}\\def\\a b #1.{[#1]}\\a b\\o\\message{x}\\end\n") (codes "Runaway argument?\n! Forbidden control sequence found while scanning use of \\a.\nl.2\nx\n") Finished }
    ensures outer_undelimited { Writes (first_line_usual ++ codes "\\outer\\def\\o{}\\def\\a#1{(#1)}\\a\\o\\message{x}\\end\n") (codes "Runaway argument?\n! Forbidden control sequence found while scanning use of \\a.\nl.2\nx\n") Finished }
    ensures outer_in_a_group { Writes (first_line_usual ++ codes "\\outer\\def\\o{}\\def\\a#1{(#1)}\\a{x\\o\\message{y}\\end\n") (codes "Runaway argument?\n{x\n! Forbidden control sequence found while scanning use of \\a.\nl.2\ny\n") Finished }
    ensures outer_before_the_first { Writes (first_line_usual ++ codes "\\outer\\def\\o{}\\def\\a b#1{}\\message{\\a\\o}\\end\n") (codes "Runaway argument?\n! Forbidden control sequence found while scanning use of \\a.\nl.2\n! Use of \\a doesn't match its definition.\nl.2\nRunaway text?\n\\par \n! Forbidden control sequence found while scanning text of \\message.\nl.2\n\\par  \n! Too many }'s.\nl.2\n") Finished }
    ensures outer_then_par { Writes (first_line_usual ++ codes "\\outer\\def\\o{}\\def\\a#1\\par{[#1]}\\message{\\a x\\o y}\\end\n") (codes "Runaway argument?\nx\n! Forbidden control sequence found while scanning use of \\a.\nl.2\nRunaway text?\n[x ]\n! Forbidden control sequence found while scanning text of \\message.\nl.2\n[x ] \n{the letter y}\n! Too many }'s.\nl.2\n") Finished }
    ensures outer_in_a_call_in_a_definition { Writes (first_line_usual ++ codes "\\outer\\def\\o{}\\def\\a#1.{(#1)}\\edef\\b{z\\a x\\o\\message{\\b}\\end\n") (codes "Runaway argument?\nx\n! Forbidden control sequence found while scanning use of \\a.\nl.2\nRunaway definition?\n->z\n! Forbidden control sequence found while scanning definition of \\b.\nl.2\nz \n") Finished }
    ensures outer_text { Writes (first_line_usual ++ codes "\\outer\\def\\o{}\\message{x\\o y}\\end\n") (codes "Runaway text?\nx\n! Forbidden control sequence found while scanning text of \\message.\nl.2\nx \n{the letter y}\n! Too many }'s.\nl.2\n") Finished }
    ensures outer_behind_long { Writes (first_line_usual ++ codes "\\long\\outer\\def\\o{}\\message{x\\o y}\\end\n") (codes "Runaway text?\nx\n! Forbidden control sequence found while scanning text of \\message.\nl.2\nx \n{the letter y}\n! Too many }'s.\nl.2\n") Finished }
    ensures outer_in_a_text_in_a_group { Writes (first_line_usual ++ codes "\\outer\\def\\o{}\\message{x{\\o y}\\end\n") (codes "Runaway text?\nx{\n! Forbidden control sequence found while scanning text of \\message.\nl.2\nRunaway text?\nx{ }\n! Forbidden control sequence found while scanning text of \\message.\nl.2\nx{ } \n{the letter y}\n! Too many }'s.\nl.2\n") Finished }
{}

/// Macros that call themselves for ever: what comes at which step, and the end at the hundredth report.
pub fn worked_loops()
    ensures first_handed { Begins 159 (first_line_usual ++ codes "\\def\\a{x\\a}\\a") [] 38 }
    ensures first { Begins 160 (first_line_usual ++ codes "\\def\\a{x\\a}\\a") (codes "{the letter x}\n") 38 }
    ensures second_handed { Begins 166 (first_line_usual ++ codes "\\def\\a{x\\a}\\a") (codes "{the letter x}\n") 40 }
    ensures second { Begins 167 (first_line_usual ++ codes "\\def\\a{x\\a}\\a") (codes "{the letter x}\n{the letter x}\n") 40 }
    ensures hundred { RunsWithin 1200 (first_line_usual ++ codes "\\def\\a{\\foo\\a}\\a") (concat (replicate 100 (codes "! Undefined control sequence.\nl.2\n")) ++ codes "(That makes 100 errors; please try again.)\n") 236 (AtFatal HundredErrors) }
{}

/// The machine run on small files with numbers that are expanded.
pub fn worked_numbers()
    ensures negative { RunsSo (first_line_usual ++ codes "\\message{\\number-007 }\\end\n") (codes "-7\n") 42 Finished }
    ensures nested { Writes (first_line_usual ++ codes "\\message{\\number\\number7 8 }\\end\n") (codes "78\n") Finished }
    ensures of_a_macro { Writes (first_line_usual ++ codes "\\def\\a{1}\\message{\\number\\a2 x}\\end\n") (codes "12x\n") Finished }
    ensures in_a_body { Writes (first_line_usual ++ codes "\\def\\a{\\number}\\message{\\a5\\relax}\\end\n") (codes "5\\relax \n") Finished }
    ensures in_an_expanded_body { Writes (first_line_usual ++ codes "\\edef\\a{\\number\"FF \\number`\\a}\\message{\\a}\\end\n") (codes "25597\n") Finished }
    ensures in_a_number { Writes (first_line_usual ++ codes "\\catcode\\number`\\%=12 \\message{%}\\end\n") (codes "%\n") Finished }
    ensures behind_a_prefix { Writes (first_line_usual ++ codes "\\global\\number5\\end\n") (codes "! You can't use a prefix with `the character 5'.\nl.2\n{the character 5}\n") Finished }
    ensures obeyed { RunsSo (first_line_usual ++ codes "\\number12\\end\n") (codes "{the character 1}\n{the character 2}\n") 37 Finished }
    ensures missing { Writes (first_line_usual ++ codes "\\message{\\number\\relax}\\end\n") (codes "! Missing number, treated as zero.\nl.2\n0\\relax \n") Finished }
    ensures too_big { Writes (first_line_usual ++ codes "\\message{\\number2147483648 }\\end\n") (codes "! Number too big.\nl.2\n2147483647\n") Finished }
    ensures outer_in_a_definition { Writes (first_line_usual ++ codes "\\outer\\def\\o{}\\edef\\a{x\\number1\\o}\\message{\\a}\\end\n") (codes "Runaway definition?\n->x\n! Forbidden control sequence found while scanning definition of \\a.\nl.2\n! Too many }'s.\nl.2\nx1\n") Finished }
    ensures outer_elsewhere { Writes (first_line_usual ++ codes "\\outer\\def\\o{y}\\number1\\o\\end\n") (codes "{the character 1}\n{the letter y}\n") Finished }
    ensures file_ended { Writes (first_line_usual ++ codes "\\message{x\\number1%") (codes "Runaway text?\nx\n! File ended while scanning text of \\message.\nl.0\nx1\n! Emergency stop.\n*** (job aborted, no legal \\end found)\n") (AtFatal NoEnd) }
    ensures depth { FillsWithin 400 (record default_sizes { expansion_depth = 8 }) (first_line_usual ++ codes "\\def\\a{\\number\\a}\\a") (record { table = ExpansionDepth; used = 8; size = 8 }) }
    ensures text_words { Fills (record default_sizes { main_memory_size = 5 }) (first_line_usual ++ codes "\\message{\\number12 }\\end") (record { table = MainMemorySize; used = 5; size = 5 }) }
    ensures text_words_fit { Fits (record default_sizes { main_memory_size = 6 }) (first_line_usual ++ codes "\\message{\\number12 }\\end") }
    ensures text_level { Fills (record default_sizes { input_stack_size = 1 }) (codes "\\number1 \\end") (record { table = InputStackSize; used = 1; size = 1 }) }
{}

/// Small files within small sizes: the first table that is full, what is used of it, and its size.
pub fn worked_refusals()
    ensures fits { Fits default_sizes (first_line_usual ++ codes "\\message{hi}\\catcode`\\foo 5 \\end") }
    ensures pool { Fills (record default_sizes { pool_size = 1691 }) (codes "\\catcode`\\foo 5 \\end") (record { table = PoolSize; used = 1689; size = 1691 }) }
    ensures pool_fits { Fits (record default_sizes { pool_size = 1692 }) (codes "\\catcode`\\foo 5 \\end") }
    ensures strings { Fills (record default_sizes { number_of_strings = 187 }) (codes "\\catcode`\\foo 5 \\end") (record { table = NumberOfStrings; used = 187; size = 187 }) }
    ensures hash { Fills (record default_sizes { hash_size = 186 }) (codes "\\catcode`\\foo 5 \\end") (record { table = HashSize; used = 186; size = 186 }) }
    ensures hash_fits { Fits (record default_sizes { hash_size = 186 }) (codes "\\foo\\end") }
    ensures buffer { Fills (record default_sizes { buffer_size = 6 }) (codes "\\end  ") (record { table = BufferSize; used = 0; size = 6 }) }
    ensures buffer_fits { Fits (record default_sizes { buffer_size = 7 }) (codes "\\end  ") }
    ensures file_level { Fills (record default_sizes { input_stack_size = 0 }) (codes "\\end") (record { table = InputStackSize; used = 0; size = 0 }) }
    ensures put_level { Fills (record default_sizes { input_stack_size = 1 }) (codes "\\catcode`\\x=1\\end") (record { table = InputStackSize; used = 1; size = 1 }) }
    ensures finished_level { Fits (record default_sizes { input_stack_size = 2 }) (codes "\\catcode`\\x=1\\catcode`\\y=1\\end") }
    ensures depth { Fills (record default_sizes { expansion_depth = 1 }) (codes "\\catcode`\\x=1 \\end") (record { table = ExpansionDepth; used = 1; size = 1 }) }
    ensures text_list { Fills (record default_sizes { main_memory_size = 3 }) (first_line_usual ++ codes "\\message{abc}\\end") (record { table = MainMemorySize; used = 3; size = 3 }) }
    ensures text_fits { Fits (record default_sizes { main_memory_size = 4 }) (first_line_usual ++ codes "\\message{abc}\\message{abc}\\end") }
    ensures put_list { Fills (record default_sizes { main_memory_size = 1 }) (codes "\\catcode`\\x=1\\end") (record { table = MainMemorySize; used = 1; size = 1 }) }
    ensures put_again { Fits (record default_sizes { main_memory_size = 2 }) (codes "\\catcode`\\x\\end\\end") }
    ensures finished_list { Fits (record default_sizes { main_memory_size = 2 }) (codes "\\catcode`\\x=1\\catcode`\\y=1\\end") }
{}

/// Small files with macros within small sizes: the levels and the arguments of calls, and their readings.
pub fn worked_levels()
    ensures deep_calls { Fills (record default_sizes { input_stack_size = 20 }) (first_line_usual ++ codes "\\def\\a{\\a x}\\a") (record { table = InputStackSize; used = 20; size = 20 }) }
    ensures last_calls { Fits (record default_sizes { input_stack_size = 2 }) (first_line_usual ++ codes "\\def\\a{\\b}\\def\\b{\\c}\\def\\c{xy}\\a\\end") }
    ensures argument_level { Fills (record default_sizes { input_stack_size = 2 }) (first_line_usual ++ codes "\\def\\a#1{#1}\\a x\\end") (record { table = InputStackSize; used = 2; size = 2 }) }
    ensures argument_level_fits { Fits (record default_sizes { input_stack_size = 3 }) (first_line_usual ++ codes "\\def\\a#1{#1}\\a x\\end") }
    ensures gap_level { Fits (record default_sizes { input_stack_size = 2 }) (first_line_usual ++ codes "\\def\\a#1.{#1}\\a.\\end") }
    ensures live_arguments { Fills (record default_sizes { parameter_stack_size = 9 }) (first_line_usual ++ codes "\\def\\a#1{\\a{#1}x}\\a y") (record { table = ParameterStackSize; used = 9; size = 9 }) }
    ensures no_parameters { Fits (record default_sizes { parameter_stack_size = 0 }) (first_line_usual ++ codes "\\def\\a#1{}\\a x\\end") }
    ensures gap_parameter { Fills (record default_sizes { parameter_stack_size = 0 }) (first_line_usual ++ codes "\\def\\a#1.{#1}\\a.\\end") (record { table = ParameterStackSize; used = 0; size = 0 }) }
    ensures nine_parameters { Fits (record default_sizes { parameter_stack_size = 9 }) (first_line_usual ++ codes "\\def\\a#1#2#3#4#5#6#7#8#9{#1}\\a 123456789\\end") }
    ensures ten_parameters { Fills (record default_sizes { parameter_stack_size = 9 }) (first_line_usual ++ codes "\\def\\a#1#2#3#4#5#6#7#8#9{\\b{#1}x}\\def\\b#1{#1}\\a 123456789\\end") (record { table = ParameterStackSize; used = 9; size = 9 }) }
    ensures call_depth { Fills (record default_sizes { expansion_depth = 2 }) (first_line_usual ++ codes "\\def\\a#1{#1}\\message{\\a x}\\end") (record { table = ExpansionDepth; used = 2; size = 2 }) }
    ensures call_depth_fits { Fits (record default_sizes { expansion_depth = 3 }) (first_line_usual ++ codes "\\def\\a#1{#1}\\message{\\a x}\\end") }
    ensures plain_call_depth { Fits (record default_sizes { expansion_depth = 2 }) (first_line_usual ++ codes "\\def\\a{x}\\message{\\a}\\end") }
    ensures argument_levels { Fills (record default_sizes { input_stack_size = 3 }) (first_line_usual ++ codes "\\def\\b{z}\\def\\a#1{#1}\\a{\\b y}\\end") (record { table = InputStackSize; used = 3; size = 3 }) }
    ensures argument_levels_fit { Fits (record default_sizes { input_stack_size = 4 }) (first_line_usual ++ codes "\\def\\b{z}\\def\\a#1{#1}\\a{\\b y}\\end") }
    ensures last_of_an_argument { Fits (record default_sizes { input_stack_size = 3 }) (first_line_usual ++ codes "\\def\\b{z}\\def\\a#1{#1}\\a{y\\b}\\end") }
    ensures empty_body { Fits (record default_sizes { input_stack_size = 2 }) (first_line_usual ++ codes "\\def\\a{}\\def\\b#1{}\\def\\c{\\a\\b xy}\\c\\end") }
    ensures parameters_first { Fills (record default_sizes { input_stack_size = 2; parameter_stack_size = 0 }) (first_line_usual ++ codes "\\def\\a#1{#1}\\def\\b{\\a xy}\\b\\end") (record { table = ParameterStackSize; used = 0; size = 0 }) }
    ensures then_the_level { Fills (record default_sizes { input_stack_size = 2 }) (first_line_usual ++ codes "\\def\\a#1{#1}\\def\\b{\\a xy}\\b\\end") (record { table = InputStackSize; used = 2; size = 2 }) }
{}

/// Small files with macros within small sizes: the words of lists.
pub fn worked_words()
    ensures growing_in_100 { FillsWithin 900 (record default_sizes { main_memory_size = 100 }) (first_line_usual ++ codes "\\def\\b{xxxxxxxxxx}\\def\\a{\\edef\\b{\\b\\b}\\a}\\a") (record { table = MainMemorySize; used = 100; size = 100 }) }
    ensures growing_in_101 { FillsWithin 900 (record default_sizes { main_memory_size = 101 }) (first_line_usual ++ codes "\\def\\b{xxxxxxxxxx}\\def\\a{\\edef\\b{\\b\\b}\\a}\\a") (record { table = MainMemorySize; used = 101; size = 101 }) }
    ensures growing_in_102 { FillsWithin 900 (record default_sizes { main_memory_size = 102 }) (first_line_usual ++ codes "\\def\\b{xxxxxxxxxx}\\def\\a{\\edef\\b{\\b\\b}\\a}\\a") (record { table = MainMemorySize; used = 102; size = 102 }) }
    ensures shared { Fills (record default_sizes { main_memory_size = 4 }) (first_line_usual ++ codes "\\def\\a{xyz}\\a\\a\\end") (record { table = MainMemorySize; used = 4; size = 4 }) }
    ensures shared_fits { Fits (record default_sizes { main_memory_size = 5 }) (first_line_usual ++ codes "\\def\\a{xyz}\\a\\a\\end") }
    ensures argument_words { Fills (record default_sizes { main_memory_size = 7 }) (first_line_usual ++ codes "\\def\\a#1{#1}\\a{xy}\\end") (record { table = MainMemorySize; used = 7; size = 7 }) }
    ensures argument_words_fits { Fits (record default_sizes { main_memory_size = 8 }) (first_line_usual ++ codes "\\def\\a#1{#1}\\a{xy}\\end") }
    ensures two_arguments { Fills (record default_sizes { main_memory_size = 10 }) (first_line_usual ++ codes "\\def\\a#1#2{#1#2}\\a{xy}z\\end") (record { table = MainMemorySize; used = 10; size = 10 }) }
    ensures two_arguments_fits { Fits (record default_sizes { main_memory_size = 11 }) (first_line_usual ++ codes "\\def\\a#1#2{#1#2}\\a{xy}z\\end") }
    ensures redefined { Fills (record default_sizes { main_memory_size = 17 }) (first_line_usual ++ codes "\\def\\a{\\def\\a{}\\def\\b{xx}}\\a\\end") (record { table = MainMemorySize; used = 17; size = 17 }) }
    ensures redefined_fits { Fits (record default_sizes { main_memory_size = 18 }) (first_line_usual ++ codes "\\def\\a{\\def\\a{}\\def\\b{xx}}\\a\\end") }
    ensures read_body { Fills (record default_sizes { main_memory_size = 9 }) (first_line_usual ++ codes "\\def\\a{\\def\\a{}}\\a\\def\\b{xxxxxx}\\end") (record { table = MainMemorySize; used = 9; size = 9 }) }
    ensures read_body_fits { Fits (record default_sizes { main_memory_size = 10 }) (first_line_usual ++ codes "\\def\\a{\\def\\a{}}\\a\\def\\b{xxxxxx}\\end") }
    ensures arguments_held { Fills (record default_sizes { main_memory_size = 17 }) (first_line_usual ++ codes "\\def\\a#1{\\def\\b{xx}#1#1}\\a{yy}\\end") (record { table = MainMemorySize; used = 17; size = 17 }) }
    ensures arguments_held_fit { Fits (record default_sizes { main_memory_size = 18 }) (first_line_usual ++ codes "\\def\\a#1{\\def\\b{xx}#1#1}\\a{yy}\\end") }
    ensures arguments_gone { Fits (record default_sizes { main_memory_size = 11 }) (first_line_usual ++ codes "\\def\\a#1{#1}\\a{xy}\\def\\b{xxxxx}\\end") }
    ensures place_reached { Fills (record default_sizes { main_memory_size = 5 }) (first_line_usual ++ codes "\\def\\a b#1.{}\\a b.\\end") (record { table = MainMemorySize; used = 5; size = 5 }) }
    ensures place_reached_fits { Fits (record default_sizes { main_memory_size = 6 }) (first_line_usual ++ codes "\\def\\a b#1.{}\\a b.\\end") }
    ensures inner_call { Fills (record default_sizes { main_memory_size = 20 }) (first_line_usual ++ codes "\\def\\a#1{\\b{#1#1}}\\def\\b#1{#1}\\a{xy}\\end") (record { table = MainMemorySize; used = 20; size = 20 }) }
    ensures inner_call_fits { Fits (record default_sizes { main_memory_size = 21 }) (first_line_usual ++ codes "\\def\\a#1{\\b{#1#1}}\\def\\b#1{#1}\\a{xy}\\end") }
    ensures call_behind_a_finished_body { Fills (record default_sizes { main_memory_size = 25 }) (first_line_usual ++ codes "\\def\\a#1{\\def\\a{}\\b#1}\\def\\b#1{\\def\\c{yyyy}}\\a x\\end") (record { table = MainMemorySize; used = 25; size = 25 }) }
    ensures call_behind_a_finished_body_fits { Fits (record default_sizes { main_memory_size = 26 }) (first_line_usual ++ codes "\\def\\a#1{\\def\\a{}\\b#1}\\def\\b#1{\\def\\c{yyyy}}\\a x\\end") }
    ensures body_behind_a_finished_body { Fits (record default_sizes { main_memory_size = 19 }) (first_line_usual ++ codes "\\def\\a{\\def\\a{}\\b}\\def\\b{\\def\\c{yyyy}}\\a\\end") }
{}

/// The machine run on small files with expansions: `\expandafter`, `\noexpand`, `\string`, `\meaning`, `\romannumeral` and `\jobname`.
pub fn worked_expansions()
    ensures not_expanded { RunsSo (first_line_usual ++ codes "\\edef\\b{\\noexpand\\a\\string\\a}\\message{\\meaning\\b}\\end\n") (codes "macro:->\\a \\a\n") 60 Finished }
    ensures redefined { Writes (first_line_usual ++ codes "\\def\\a{\\def\\a{n}\\message{old}}\\a\\message{\\meaning\\a}\\end\n") (codes "old macro:->n\n") Finished }
    ensures roman { RunsSo (first_line_usual ++ codes "\\message{\\romannumeral1987,\\romannumeral-3 ,\\number-007 }\\end\n") (codes "mcmlxxxvii,,-7\n") 64 Finished }
    ensures behind { Writes (first_line_usual ++ codes "\\def\\a#1{[#1]}\\def\\b{xy}\\message{\\expandafter\\a\\b}\\end\n") (codes "[x]y\n") Finished }
    ensures behind_twice { RunsSo (first_line_usual ++ codes "\\def\\a{xy}\\expandafter\\message\\expandafter{\\a}\\end\n") (codes "xy\n") 47 Finished }
    ensures behind_a_character { Writes (first_line_usual ++ codes "\\message{\\expandafter a\\expandafter b\\expandafter c\\number\\number7 8 }\\end\n") (codes "abc78\n") Finished }
    ensures behind_the_unexpandable { RunsSo (first_line_usual ++ codes "\\expandafter\\relax\\relax\\end\n") (codes "") 36 Finished }
    ensures behind_the_undefined { RunsSo (first_line_usual ++ codes "\\expandafter x\\zz\\end\n") (codes "! Undefined control sequence.\nl.2\n{the letter x}\n") 35 Finished }
    ensures behind_a_mismatch { Writes (first_line_usual ++ codes "\\def\\a.{}\\expandafter x\\a y\\end\n") (codes "! Use of \\a doesn't match its definition.\nl.2\n{the letter x}\n") Finished }
    ensures behind_at_the_end { Writes (first_line_usual ++ codes "\\expandafter") (codes "! Emergency stop.\n*** (job aborted, no legal \\end found)\n") (AtFatal NoEnd) }
    ensures behind_at_the_end_of_a_text { Writes (first_line_usual ++ codes "\\message{\\expandafter") (codes "Runaway text?\n! File ended while scanning text of \\message.\nl.0\n! Emergency stop.\n*** (job aborted, no legal \\end found)\n") (AtFatal NoEnd) }
    ensures behind_an_outer_name { Writes (first_line_usual ++ codes "\\outer\\def\\o{y}\\edef\\a{\\expandafter x\\o}\\message{\\meaning\\a}\\end\n") (codes "Runaway definition?\n->\n! Forbidden control sequence found while scanning definition of \\a.\nl.2\n{the letter y}\n! Too many }'s.\nl.2\nmacro:->x \n") Finished }
    ensures marked { Writes (first_line_usual ++ codes "\\message{\\noexpand\\zz}\\end\n") (codes "\\zz \n") Finished }
    ensures marked_entered { Enters (first_line_usual ++ codes "\\message{\\noexpand\\zz}\\end\n") (codes "zz" ∷ []) }
    ensures marked_in_the_stomach { RunsSo (first_line_usual ++ codes "\\noexpand\\zz\\noexpand x\\end\n") (codes "{the letter x}\n") 37 Finished }
    ensures marked_once { Writes (first_line_usual ++ codes "\\def\\a{x}\\message{\\noexpand\\a\\a}\\end\n") (codes "\\a x\n") Finished }
    ensures marked_active { Writes (first_line_usual ++ codes "\\catcode`\\~=13 \\def~{t}\\message{\\noexpand~~}\\end\n") (codes "~t\n") Finished }
    ensures marked_outer { Writes (first_line_usual ++ codes "\\outer\\def\\o{x}\\edef\\a{\\noexpand\\o}\\message{\\meaning\\a}\\end\n") (codes "macro:->\\o \n") Finished }
    ensures outer_as_text { Writes (first_line_usual ++ codes "\\outer\\def\\o{x}\\edef\\a{[\\string\\o\\meaning\\o]}\\message{\\a}\\end\n") (codes "[\\o\\outer macro:->x]\n") Finished }
    ensures string_of_characters { Writes (first_line_usual ++ codes "\\message{\\string a\\string{\\string\\zz\\string~\\string\\ \\string}}\\end\n") (codes "a{\\zz~\\ }\n") Finished }
    ensures string_of_a_space { Writes (first_line_usual ++ codes "\\def\\a#1{\\message{[\\string#1]}}\\a{ }\\end\n") (codes "[ ]\n") Finished }
    ensures string_in_the_stomach { RunsSo (first_line_usual ++ codes "\\string a\\end\n") (codes "{the character a}\n") 34 Finished }
    ensures string_at_the_end_of_a_text { Writes (first_line_usual ++ codes "\\message{\\string") (codes "! Emergency stop.\n*** (job aborted, no legal \\end found)\n") (AtFatal NoEnd) }
    ensures meanings_of_characters { Writes (first_line_usual ++ codes "\\message{\\meaning a,\\meaning 1,\\meaning{,\\meaning}}\\end\n") (codes "the letter a,the character 1,begin-group character {,end-group character }\n") Finished }
    ensures meanings_of_names { Writes (first_line_usual ++ codes "\\message{\\meaning\\zz,\\meaning\\relax,\\meaning\\end,\\meaning~}\\end\n") (codes "undefined,\\relax,\\end,the character ~\n") Finished }
    ensures job { WritesAs (codes "a/b.c/paper.x.tex") (first_line_usual ++ codes "\\message{[\\jobname]}\\end\n") (codes "[paper]\n") Finished }
    ensures job_with_a_space { WritesAs (codes "my job.tex") (first_line_usual ++ codes "\\message{\\jobname}\\end\n") (codes "my job\n") Finished }
    ensures job_in_the_stomach { WritesAs (codes "a1.tex") (first_line_usual ++ codes "\\jobname\\end\n") (codes "{the character a}\n{the character 1}\n") Finished }
    ensures job_number { WritesAs (codes "42.tex") (first_line_usual ++ codes "\\message{\\romannumeral\\jobname}\\end\n") (codes "xlii\n") Finished }
    ensures job_without_a_name { WritesAs (codes "") (first_line_usual ++ codes "\\message{[\\jobname]}\\end\n") (codes "[]\n") Finished }
{}

/// The machine run on small files with names that `\csname` spells.
pub fn worked_spellings()
    ensures let_behind { RunsSo (first_line_usual ++ codes "\\expandafter\\let\\csname ab\\endcsname\\relax\\end\n") (codes "") 40 Finished }
    ensures becomes_relax { RunsSo (first_line_usual ++ codes "\\csname ab\\endcsname\\end\n") (codes "") 36 Finished }
    ensures entered { Enters (first_line_usual ++ codes "\\csname ab\\endcsname\\csname ab\\endcsname\\csname a\\endcsname\\end\n") (codes "ab" ∷ []) }
    ensures relax_meant { Writes (first_line_usual ++ codes "\\csname ab\\endcsname\\message{\\expandafter\\meaning\\csname ab\\endcsname}\\end\n") (codes "\\relax\n") Finished }
    ensures one_character { Writes (first_line_usual ++ codes "\\csname a\\endcsname\\message{\\meaning\\a\\csname a\\endcsname}\\end\n") (codes "\\relax\\a \n") Finished }
    ensures empty_name { Writes (first_line_usual ++ codes "\\message{\\expandafter\\string\\csname\\endcsname,\\csname\\endcsname}\\end\n") (codes "\\csname\\endcsname,\\csname\\endcsname \n") Finished }
    ensures defined { Writes (first_line_usual ++ codes "\\expandafter\\def\\csname x\\number007\\endcsname{z}\\message{\\csname x7\\endcsname}\\end\n") (codes "z\n") Finished }
    ensures expanded { RunsSo (first_line_usual ++ codes "\\def\\b{a}\\def\\aa{y}\\csname\\b\\b\\endcsname\\end\n") (codes "{the letter y}\n") 49 Finished }
    ensures with_a_space { Writes (first_line_usual ++ codes "\\message{\\expandafter\\string\\csname a b\\endcsname}\\end\n") (codes "\\a b\n") Finished }
    ensures with_braces { Writes (first_line_usual ++ codes "\\message{\\csname{}#1\\endcsname}\\end\n") (codes "\\{}#1 \n") Finished }
    ensures ended_by_another_name { Writes (first_line_usual ++ codes "\\let\\e=\\endcsname\\message{\\csname ab\\e}\\end\n") (codes "\\ab \n") Finished }
    ensures missing { Writes (first_line_usual ++ codes "\\message{\\csname ab}\\end") (codes "! Missing \\endcsname inserted.\nl.2\nRunaway text?\n\\ab} \\end \n! File ended while scanning text of \\message.\nl.0\n\\ab} \\end \n! Emergency stop.\n*** (job aborted, no legal \\end found)\n") (AtFatal NoEnd) }
    ensures missing_before_relax { Writes (first_line_usual ++ codes "\\message{\\csname ab\\relax\\endcsname}\\end\n") (codes "! Missing \\endcsname inserted.\nl.2\n\\ab \\relax \\endcsname \n") Finished }
    ensures missing_before_a_marked_name { Writes (first_line_usual ++ codes "\\message{\\csname a\\noexpand\\zz\\endcsname}\\end\n") (codes "! Missing \\endcsname inserted.\nl.2\n! Undefined control sequence.\nl.2\n\\a \\endcsname \n") Finished }
    ensures within_another { Writes (first_line_usual ++ codes "\\csname a\\csname b\\endcsname\\endcsname\\end\n") (codes "! Missing \\endcsname inserted.\nl.2\n! Extra \\endcsname.\nl.2\n") Finished }
    ensures undefined_within { Writes (first_line_usual ++ codes "\\csname a\\zz b\\endcsname\\message{\\meaning\\ab}\\end\n") (codes "! Undefined control sequence.\nl.2\n\\relax\n") Finished }
    ensures extra { RunsSo (first_line_usual ++ codes "\\endcsname\\end\n") (codes "! Extra \\endcsname.\nl.2\n") 32 Finished }
    ensures extra_in_a_text { Writes (first_line_usual ++ codes "\\message{\\endcsname}\\end\n") (codes "\\endcsname \n") Finished }
    ensures outer_allowed { Enters (first_line_usual ++ codes "\\outer\\def\\o{x\\endcsname}\\csname b\\o\\end\n") (codes "bx" ∷ []) }
    ensures outer_in_a_definition { RunsWithin 4000 (first_line_usual ++ codes "\\outer\\def\\o{}\\edef\\a{x\\csname b\\o\\endcsname}\\message{\\meaning\\a}\\end\n") (concat (replicate 100 (codes "Runaway definition?\n->x\n! Forbidden control sequence found while scanning definition of \\a.\nl.2\n")) ++ codes "(That makes 100 errors; please try again.)\n") 240 (AtFatal HundredErrors) }
    ensures outer_spelt_in_a_text { Writes (first_line_usual ++ codes "\\outer\\def\\o{y}\\message{x\\csname o\\endcsname}\\end\n") (codes "Runaway text?\nx\n! Forbidden control sequence found while scanning text of \\message.\nl.2\nx \n{the letter y}\n! Too many }'s.\nl.2\n") Finished }
    ensures ended_file { Writes (first_line_usual ++ codes "\\message{x\\csname ab") (codes "Runaway text?\nx\n! File ended while scanning text of \\message.\nl.0\n! Emergency stop.\n*** (job aborted, no legal \\end found)\n") (AtFatal NoEnd) }
{}

/// The machine run on small files with names that are let mean something: `\let`, `\futurelet` and `\ignorespaces`.
pub fn worked_meanings()
    ensures name { RunsSo (first_line_usual ++ codes "\\let\\a\\b\\end\n") (codes "") 34 Finished }
    ensures equals { RunsSo (first_line_usual ++ codes "\\let\\a= \\b\\end\n") (codes "") 36 Finished }
    ensures future { RunsSo (first_line_usual ++ codes "\\futurelet\\a\\b\\relax\\end\n") (codes "! Undefined control sequence.\nl.2\n") 37 Finished }
    ensures letter { Writes (first_line_usual ++ codes "\\let\\b=x\\b\\message{\\meaning\\b,\\b}\\end\n") (codes "{the letter x}\nthe letter x,\\b \n") Finished }
    ensures command { Writes (first_line_usual ++ codes "\\let\\m\\message\\m{hi}\\global\\m{x}\\end\n") (codes "hi\n! You can't use a prefix with `\\message'.\nl.2\nx\n") Finished }
    ensures name_in_a_report { Writes (first_line_usual ++ codes "\\let\\m\\message\\m{hi") (codes "Runaway text?\nhi \n! File ended while scanning text of \\m.\nl.0\nhi \n! Emergency stop.\n*** (job aborted, no legal \\end found)\n") (AtFatal NoEnd) }
    ensures of_a_macro { Writes (first_line_usual ++ codes "\\def\\a{x}\\let\\b=\\a\\def\\a{y}\\message{\\a\\b}\\let\\a\\a\\message{\\a}\\end\n") (codes "yx y\n") Finished }
    ensures undefined { Writes (first_line_usual ++ codes "\\let\\relax\\zz\\relax\\end\n") (codes "! Undefined control sequence.\nl.2\n") Finished }
    ensures undefined_entered { Enters (first_line_usual ++ codes "\\let\\a\\zz\\futurelet\\a\\relax\\yy\\end\n") (codes "zz" ∷ codes "yy" ∷ []) }
    ensures outer { Writes (first_line_usual ++ codes "\\outer\\def\\o{x}\\let\\p=\\o\\message{\\p}\\end\n") (codes "Runaway text?\n! Forbidden control sequence found while scanning text of \\message.\nl.2\n \n{the letter x}\n! Too many }'s.\nl.2\n") Finished }
    ensures equals_sign { Writes (first_line_usual ++ codes "\\let\\: = =\\message{\\meaning\\:}\\let\\a==\\message{\\meaning\\a}\\end\n") (codes "the character = the character =\n") Finished }
    ensures second_space { Writes (first_line_usual ++ codes "\\def\\d#1{\\let\\z=#1#1x}\\d{ }\\message{[\\meaning\\z]}\\end\n") (codes "{the letter x}\n[blank space  ]\n") Finished }
    ensures implicit_space { Writes (first_line_usual ++ codes "\\def\\:{\\let\\sp= }\\: \\message{\\number7\\sp8[\\meaning\\sp]}\\end\n") (codes "78[blank space  ]\n") Finished }
    ensures implicit_brace { Writes (first_line_usual ++ codes "\\let\\bgroup={\\message\\bgroup hi}\\def\\a\\bgroup{x}\\message{\\meaning\\a}\\end\n") (codes "hi macro:\\bgroup ->x\n") Finished }
    ensures implicit_parameter { Writes (first_line_usual ++ codes "\\let\\hash=#\\def\\a\\hash1{[\\hash1]}\\message{\\a x\\meaning\\a}\\end\n") (codes "[x]macro:#1->[#1]\n") Finished }
    ensures prefixed { Writes (first_line_usual ++ codes "\\global\\let\\a=b\\long\\let\\a=c\\message{\\meaning\\a}\\end\n") (codes "! You can't use `\\long' or `\\outer' with `\\let'.\nl.2\nthe letter c\n") Finished }
    ensures missing_name { RunsSo (first_line_usual ++ codes "\\let 5\\relax\\end\n") (codes "! Missing control sequence inserted.\nl.2\n") 36 Finished }
    ensures behind_noexpand { Writes (first_line_usual ++ codes "\\expandafter\\let\\expandafter\\a\\noexpand\\b\\message{\\a\\meaning\\a}\\end\n") (codes "\\a \\relax\n") Finished }
    ensures future_brace { Writes (first_line_usual ++ codes "\\futurelet\\n\\message{\\meaning\\n}\\end\n") (codes "begin-group character {\n") Finished }
    ensures future_letter { Writes (first_line_usual ++ codes "\\def\\a#1{\\message{\\meaning\\n,#1}}\\futurelet\\n\\a xy\\end\n") (codes "the letter x,x\n{the letter y}\n") Finished }
    ensures future_space { Writes (first_line_usual ++ codes "\\def\\a{\\message{[\\meaning\\n]}}\\def\\:{\\futurelet\\n\\a}\\: x\\end\n") (codes "[blank space  ]\n{blank space  }\n{the letter x}\n") Finished }
    ensures ignored_spaces { RunsSo (first_line_usual ++ codes "\\ignorespaces  x\\end\n") (codes "{the letter x}\n") 33 Finished }
    ensures ignored_spaces_expanded { RunsSo (first_line_usual ++ codes "\\def\\a{ }\\ignorespaces\\a\\a x\\end\n") (codes "{the letter x}\n") 42 Finished }
    ensures ignored_before_a_command { Writes (first_line_usual ++ codes "\\ignorespaces\\zz\\ignorespaces\\message{hi}\\ignorespaces\\relax\\ignorespaces\\end\n") (codes "! Undefined control sequence.\nl.2\nhi\n") Finished }
    ensures ignored_before_a_prefix { Writes (first_line_usual ++ codes "\\ignorespaces\\global\\let\\a=b\\message{\\meaning\\a}\\global\\ignorespaces x\\end\n") (codes "the letter b\n! You can't use a prefix with `\\ignorespaces'.\nl.2\n{the letter x}\n") Finished }
{}

/// The machine run on small files that show something: `\show`, `\showthe` and `\errmessage`.
pub fn worked_shown()
    ensures undefined { Writes (first_line_usual ++ codes "\\show\\undefd\\end\n") (codes "> \\undefd=undefined.\nl.2\n") Finished }
    ensures undefined_counts { Counts (first_line_usual ++ codes "\\show\\undefd\\end\n") 0 true }
    ensures undefined_entered { Enters (first_line_usual ++ codes "\\show\\undefd\\end\n") (codes "undefd" ∷ []) }
    ensures of_a_macro { Writes (first_line_usual ++ codes "\\def\\a{xy}\\show\\a\\end\n") (codes "> \\a=macro:\n->xy.\nl.2\n") Finished }
    ensures long_outer_macro { Writes (first_line_usual ++ codes "\\long\\outer\\def\\a#1.{[#1]}\\show\\a\\end\n") (codes "> \\a=\\long\\outer macro:\n#1.->[#1].\nl.2\n") Finished }
    ensures letter { RunsSo (first_line_usual ++ codes "\\show a\\end\n") (codes "> the letter a.\nl.2\n") 33 Finished }
    ensures characters { Writes (first_line_usual ++ codes "\\def\\a#1{\\show#1}\\a{ }\\show{\\show}\\show#\\show~\\show\\par\\end\n") (codes "> blank space  .\nl.2\n> begin-group character {.\nl.2\n> end-group character }.\nl.2\n> macro parameter character #.\nl.2\n> the character ~.\nl.2\n> \\par=\\par.\nl.2\n") Finished }
    ensures primitive_of_another_name { Writes (first_line_usual ++ codes "\\let\\l\\let\\show\\l\\end\n") (codes "> \\l=\\let.\nl.2\n") Finished }
    ensures marked { Writes (first_line_usual ++ codes "\\expandafter\\show\\noexpand\\zz\\end\n") (codes "> \\zz=\\relax.\nl.2\n") Finished }
    ensures active { Writes (first_line_usual ++ codes "\\catcode`\\~=13 \\def~{x}\\show~\\end\n") (codes "> ~=macro:\n->x.\nl.2\n") Finished }
    ensures on_a_fresh_line { Writes (first_line_usual ++ codes "\\message{hi}\\show a\\message{ho}\\end\n") (codes "hi\n> the letter a.\nl.2\nho\n") Finished }
    ensures not_counted { Counts (first_line_usual ++ codes "\\show a\\zz\\show b\\end\n") 1 true }
    ensures no_flaw { Counts (first_line_usual ++ codes "\\message{hi}\\end\n") 0 false }
    ensures error { Writes (first_line_usual ++ codes "\\errmessage{no {x}}\\end\n") (codes "! no {x}.\nl.2\n") Finished }
    ensures error_counts { Counts (first_line_usual ++ codes "\\errmessage{no {x}}\\end\n") 1 false }
    ensures error_expanded { Writes (first_line_usual ++ codes "\\def\\a{b}\\errmessage{\\a\\relax}\\errmessage{}\\end\n") (codes "! b\\relax .\nl.2\n! .\nl.2\n") Finished }
    ensures error_without_a_brace { Writes (first_line_usual ++ codes "\\errmessage x}\\end\n") (codes "! Missing { inserted.\nl.2\n! x.\nl.2\n") Finished }
    ensures error_behind_a_prefix { Writes (first_line_usual ++ codes "\\global\\errmessage{x}\\end\n") (codes "! You can't use a prefix with `\\errmessage'.\nl.2\n! x.\nl.2\n") Finished }
    ensures error_at_the_end { Writes (first_line_usual ++ codes "\\errmessage{hi") (codes "Runaway text?\nhi \n! File ended while scanning text of \\errmessage.\nl.0\n! hi .\nl.0\n! Emergency stop.\n*** (job aborted, no legal \\end found)\n") (AtFatal NoEnd) }
    ensures hundred_errors { RunsWithin 4000 (first_line_usual ++ codes "\\def\\a{\\errmessage{x}\\a}\\a\n") (concat (replicate 100 (codes "! x.\nl.2\n")) ++ codes "(That makes 100 errors; please try again.)\n") 539 (AtFatal HundredErrors) }
    ensures value { Writes (first_line_usual ++ codes "\\count1=5 \\showthe\\count1\\end\n") (codes "> 5.\nl.2\n") Finished }
    ensures values_not_counted { Counts (first_line_usual ++ codes "\\showthe\\count1\\showthe\\parskip\\end\n") 0 true }
    ensures glue { Writes (first_line_usual ++ codes "\\parskip=1pt plus 2fil \\showthe\\parskip\\thinmuskip=1mu\\showthe\\thinmuskip\\end\n") (codes "> 1.0pt plus 2.0fil.\nl.2\n> 1.0mu.\nl.2\n") Finished }
    ensures list { Writes (first_line_usual ++ codes "\\toks1={a#\\c}\\message{x}\\showthe\\toks1 \\message{y}\\end\n") (codes "x\n> a##\\c .\nl.2\ny\n") Finished }
    ensures no_list { Writes (first_line_usual ++ codes "\\showthe\\everypar\\end\n") (codes "> .\nl.2\n") Finished }
    ensures given_character { Writes (first_line_usual ++ codes "\\chardef\\c=65 \\showthe\\c\\end\n") (codes "> 65.\nl.2\n") Finished }
    ensures value_of_a_macro { Writes (first_line_usual ++ codes "\\def\\a{\\count1}\\count1=3 \\showthe\\a \\end\n") (codes "> 3.\nl.2\n") Finished }
    ensures no_value { Writes (first_line_usual ++ codes "\\showthe\\relax\\showthe x\\end\n") (codes "! You can't use `\\relax' after \\the.\nl.2\n> 0.\nl.2\n! You can't use `the letter x' after \\the.\nl.2\n> 0.\nl.2\n") Finished }
{}

/// Small files with expansions and names that are let mean something, within small sizes.
pub fn worked_spelling_sizes()
    ensures name_words { Fills (record default_sizes { main_memory_size = 4 }) (first_line_usual ++ codes "\\csname ab\\endcsname\\end") (record { table = MainMemorySize; used = 4; size = 4 }) }
    ensures name_words_fit { Fits (record default_sizes { main_memory_size = 5 }) (first_line_usual ++ codes "\\csname ab\\endcsname\\end") }
    ensures missing_words { Fills (record default_sizes { main_memory_size = 4 }) (first_line_usual ++ codes "\\csname ab\\relax\\end") (record { table = MainMemorySize; used = 4; size = 4 }) }
    ensures name_pool { Fills (record default_sizes { pool_size = 1690 }) (first_line_usual ++ codes "\\csname ab\\endcsname\\end") (record { table = PoolSize; used = 1689; size = 1690 }) }
    ensures name_pool_fits { Fits (record default_sizes { pool_size = 1691 }) (first_line_usual ++ codes "\\csname ab\\endcsname\\csname ab\\endcsname\\csname a\\endcsname\\end") }
    ensures name_strings { Fills (record default_sizes { number_of_strings = 187 }) (first_line_usual ++ codes "\\csname ab\\endcsname\\end") (record { table = NumberOfStrings; used = 187; size = 187 }) }
    ensures name_hash { Fills (record default_sizes { hash_size = 186 }) (first_line_usual ++ codes "\\csname ab\\endcsname\\end") (record { table = HashSize; used = 186; size = 186 }) }
    ensures name_depth { Fills (record default_sizes { expansion_depth = 2 }) (first_line_usual ++ codes "\\message{\\csname ab\\endcsname}\\end") (record { table = ExpansionDepth; used = 2; size = 2 }) }
    ensures name_depth_fits { Fits (record default_sizes { expansion_depth = 3 }) (first_line_usual ++ codes "\\message{\\csname ab\\endcsname}\\end") }
    ensures job_depth { Fills (record default_sizes { expansion_depth = 2 }) (first_line_usual ++ codes "\\message{\\jobname}\\end") (record { table = ExpansionDepth; used = 2; size = 2 }) }
    ensures behind_depth { Fills (record default_sizes { expansion_depth = 2 }) (first_line_usual ++ codes "\\message{\\expandafter xy}\\end") (record { table = ExpansionDepth; used = 2; size = 2 }) }
    ensures behind_depth_fits { Fits (record default_sizes { expansion_depth = 3 }) (first_line_usual ++ codes "\\def\\b{y}\\message{\\expandafter x\\b}\\end") }
    ensures call_behind_depth { Fills (record default_sizes { expansion_depth = 3 }) (first_line_usual ++ codes "\\def\\b#1{#1}\\message{\\expandafter x\\b y}\\end") (record { table = ExpansionDepth; used = 3; size = 3 }) }
    ensures behind_levels { Fills (record default_sizes { input_stack_size = 2 }) (first_line_usual ++ codes "\\expandafter\\relax\\relax\\end") (record { table = InputStackSize; used = 2; size = 2 }) }
    ensures behind_levels_fit { Fits (record default_sizes { input_stack_size = 3 }) (first_line_usual ++ codes "\\expandafter\\relax\\relax\\end") }
    ensures string_level { Fills (record default_sizes { input_stack_size = 1 }) (codes "\\string a\\end") (record { table = InputStackSize; used = 1; size = 1 }) }
    ensures string_words { Fills (record default_sizes { main_memory_size = 3 }) (first_line_usual ++ codes "\\string\\ab\\end") (record { table = MainMemorySize; used = 3; size = 3 }) }
    ensures string_words_fit { Fits (record default_sizes { main_memory_size = 4 }) (first_line_usual ++ codes "\\string\\ab\\end") }
    ensures empty_text_word { Fills (record default_sizes { main_memory_size = 3 }) (first_line_usual ++ codes "\\message{ab\\romannumeral0 }\\end") (record { table = MainMemorySize; used = 3; size = 3 }) }
    ensures empty_text_word_fits { Fits (record default_sizes { main_memory_size = 4 }) (first_line_usual ++ codes "\\message{ab\\romannumeral0 }\\end") }
    ensures shared { Fills (record default_sizes { main_memory_size = 4 }) (first_line_usual ++ codes "\\def\\a{abc}\\let\\b=\\a\\let\\c=\\a\\end") (record { table = MainMemorySize; used = 4; size = 4 }) }
    ensures shared_fits { Fits (record default_sizes { main_memory_size = 5 }) (first_line_usual ++ codes "\\def\\a{abc}\\let\\b=\\a\\let\\c=\\a\\end") }
    ensures shared_and_redefined { Fills (record default_sizes { main_memory_size = 10 }) (first_line_usual ++ codes "\\def\\a{abc}\\let\\b=\\a\\def\\a{}\\def\\c{xy}\\end") (record { table = MainMemorySize; used = 10; size = 10 }) }
    ensures shared_and_redefined_fits { Fits (record default_sizes { main_memory_size = 11 }) (first_line_usual ++ codes "\\def\\a{abc}\\let\\b=\\a\\def\\a{}\\def\\c{xy}\\end") }
    ensures let_go { Fits (record default_sizes { main_memory_size = 8 }) (first_line_usual ++ codes "\\def\\a{abcdef}\\let\\a\\relax\\def\\c{xyzuvw}\\end") }
{}

/// The machine run on small files with groups, and with tokens that come behind groups and assignments.
pub fn worked_groups()
    ensures after_group { RunsSo (first_line_usual ++ codes "{\\aftergroup a\\aftergroup b}\\end\n") (codes "{the letter a}\n{the letter b}\n") 39 Finished }
    ensures after_no_group { Writes (first_line_usual ++ codes "\\aftergroup\\zz\\end\n") (codes "") Finished }
    ensures after_the_inner_group { Writes (first_line_usual ++ codes "{{\\aftergroup a}b}\\end\n") (codes "{the letter a}\n{the letter b}\n") Finished }
    ensures local_and_global { Writes (first_line_usual ++ codes "\\def\\a{x}{\\def\\a{y}\\global\\def\\a{z}\\def\\a{w}}\\message{\\meaning\\a}\\end\n") (codes "macro:->z\n") Finished }
    ensures taken_back { Writes (first_line_usual ++ codes "{\\def\\a{y}\\a}\\message{\\meaning\\a}\\end\n") (codes "{the letter y}\nundefined\n") Finished }
    ensures category_taken_back { Writes (first_line_usual ++ codes "{\\catcode33=14 !x\n}!\\end\n") (codes "{the character !}\n") Finished }
    ensures relax_taken_back { Writes (first_line_usual ++ codes "{\\csname ab\\endcsname}\\message{\\meaning\\ab}\\end\n") (codes "undefined\n") Finished }
    ensures after_assignment { Writes (first_line_usual ++ codes "\\def\\x{\\message{m}}\\afterassignment\\x\\message{n}\\catcode33=13 \\end\n") (codes "n m\n") Finished }
    ensures after_one_assignment { RunsSo (first_line_usual ++ codes "\\afterassignment a\\catcode33=13 \\catcode33=12 \\end\n") (codes "{the letter a}\n") 50 Finished }
    ensures last_after_assignment { Writes (first_line_usual ++ codes "\\afterassignment a\\afterassignment b\\let\\x=c\\end\n") (codes "{the letter b}\n") Finished }
    ensures after_a_definition { Writes (first_line_usual ++ codes "\\afterassignment a\\def\\x{b}\\x\\end\n") (codes "{the letter a}\n{the letter b}\n") Finished }
    ensures after_the_future { Writes (first_line_usual ++ codes "\\afterassignment a\\futurelet\\x bc\\end\n") (codes "{the letter a}\n{the letter b}\n{the letter c}\n") Finished }
    ensures semisimple { RunsSo (first_line_usual ++ codes "\\begingroup\\endgroup\\end\n") (codes "") 33 Finished }
    ensures forgotten { Writes (first_line_usual ++ codes "\\begingroup}\\endgroup\\end\n") (codes "! Extra }, or forgotten \\endgroup.\nl.2\n") Finished }
    ensures brace_missing { RunsSo (first_line_usual ++ codes "{\\endgroup\\end\n") (codes "! Missing } inserted.\nl.2\n! Extra \\endgroup.\nl.2\n") 35 Finished }
    ensures extra { RunsSo (first_line_usual ++ codes "\\endgroup\\end\n") (codes "! Extra \\endgroup.\nl.2\n") 32 Finished }
    ensures too_many { RunsSo (first_line_usual ++ codes "}\\end\n") (codes "! Too many }'s.\nl.2\n") 32 Finished }
    ensures too_many_counts { Counts (first_line_usual ++ codes "}\\end\n") 1 false }
    ensures ended_in_a_group { RunsSo (first_line_usual ++ codes "{\\end\n") (codes "(\\end occurred inside a group at level 1)\n") 32 Finished }
    ensures ended_in_a_group_counts { Counts (first_line_usual ++ codes "{\\end\n") 0 false }
    ensures ended_in_two_groups { Writes (first_line_usual ++ codes "{\\begingroup\\message{x}\\end\n") (codes "x\n(\\end occurred inside a group at level 2)\n") Finished }
    ensures implicit { Writes (first_line_usual ++ codes "\\let\\b={\\let\\e=}\\b\\e\\e\\end\n") (codes "! Too many }'s.\nl.2\n") Finished }
{}

/// The machine run on small files with integer parameters: `\escapechar`, `\newlinechar`, `\endlinechar` and `\globaldefs`.
pub fn worked_parameters()
    ensures escape { Writes (first_line_usual ++ codes "\\escapechar=33 \\message{\\relax}{\\end\n") (codes "!relax \n(!end occurred inside a group at level 1)\n") Finished }
    ensures no_escape { Writes (first_line_usual ++ codes "\\escapechar=-1 \\message{\\string\\ab}\\endgroup\\end\n") (codes "ab\n! Extra endgroup.\nl.2\n") Finished }
    ensures escape_taken_back { Writes (first_line_usual ++ codes "{\\escapechar=33 \\endcsname}\\endcsname\\end\n") (codes "! Extra !endcsname.\nl.2\n! Extra \\endcsname.\nl.2\n") Finished }
    ensures newline { Writes (first_line_usual ++ codes "\\newlinechar=120 \\message{axb}\\endgroup\\end\n") (codes "a\nb\n! E\ntra \\endgroup.\nl.2\n") Finished }
    ensures no_end_character { RunsSo (first_line_usual ++ codes "\\endlinechar=-1\nx\ny\\end\n") (codes "{the letter x}\n{the letter y}\n") 40 Finished }
    ensures end_character { RunsSo (first_line_usual ++ codes "\\endlinechar=65\nx\n\\end%\n") (codes "{the letter x}\n{the letter A}\n") 40 Finished }
    ensures end_beyond_the_characters { Writes (first_line_usual ++ codes "\\endlinechar=256\nx\n\\end\n") (codes "{the letter x}\n") Finished }
    ensures end_character_taken_back { Writes (first_line_usual ++ codes "{\\endlinechar=65\n}x\n\\end\n") (codes "{the letter x}\n{the letter A}\n") Finished }
    ensures all_global { Writes (first_line_usual ++ codes "\\globaldefs=1 {\\def\\a{x}}\\message{\\meaning\\a}\\end\n") (codes "macro:->x\n") Finished }
    ensures none_global { Writes (first_line_usual ++ codes "\\def\\a{x}\\globaldefs=-1 {\\gdef\\a{y}}\\message{\\meaning\\a}\\end\n") (codes "macro:->x\n") Finished }
{}

/// The machine run on small files with integers that are read from where they stand, registers of `\count`, integer parameters and codes, some of
/// them within small sizes.
pub fn worked_internal_integers()
    ensures register { RunsSo (first_line_usual ++ codes "\\count1=5 \\end\n") (codes "") 37 Finished }
    ensures without_an_equals_sign { RunsSo (first_line_usual ++ codes "\\count1 5 \\end\n") (codes "") 36 Finished }
    ensures written { RunsSo (first_line_usual ++ codes "\\count1=5 \\message{\\number\\count1}\\end\n") (codes "5\n") 45 Finished }
    ensures copied { RunsSo (first_line_usual ++ codes "\\count1=7 \\count2=\\count1 \\message{\\number\\count2}\\end\n") (codes "7\n") 52 Finished }
    ensures of_a_register_as_number { RunsSo (first_line_usual ++ codes "\\count1=5 \\count\\count1=7 \\message{\\number\\count5}\\end\n") (codes "7\n") 52 Finished }
    ensures one_within_another { Writes (first_line_usual ++ codes "\\count1=2 \\count2=3 \\count3=9 \\message{\\number\\count\\count\\count1}\\end\n") (codes "9\n") Finished }
    ensures parameter { RunsSo (first_line_usual ++ codes "\\tolerance=7 \\end\n") (codes "") 35 Finished }
    ensures of_a_parameter { RunsSo (first_line_usual ++ codes "\\tolerance=\\pretolerance\\end\n") (codes "") 34 Finished }
    ensures no_space_behind { RunsSo (first_line_usual ++ codes "\\def\\s{ }\\count1=\\tolerance\\s\\end\n") (codes "{blank space  }\n") 43 Finished }
    ensures space_behind_digits { Writes (first_line_usual ++ codes "\\def\\s{ }\\count1=5\\s\\end\n") (codes "") Finished }
    ensures signs { Writes (first_line_usual ++ codes "\\count1=5 \\message{\\number-\\count1,\\number- -\\count1}\\end\n") (codes "-5,5\n") Finished }
    ensures sign_turned { Writes (first_line_usual ++ codes "\\count1=5 \\count1=-\\count1 \\message{\\number\\count1}\\end\n") (codes "-5\n") Finished }
    ensures least { Writes (first_line_usual ++ codes "\\count1=2147483647 \\count2=-\\count1\\message{\\number\\count2}\\end\n") (codes "-2147483647\n") Finished }
    ensures codes_read { Writes (first_line_usual ++ codes "\\message{\\number\\catcode`\\{,\\number\\lccode`A,\\number\\uccode`a,\\number\\sfcode`A,\\number\\mathcode`A,\\number\\delcode`a}\\end\n") (codes "1,97,65,999,28993,-1\n") Finished }
    ensures first_values { Writes (first_line_usual ++ codes "\\message{\\number\\year,\\number\\month,\\number\\day,\\number\\time,\\number\\tolerance,\\number\\mag,\\number\\maxdeadcycles,\\number\\hangafter,\\number\\escapechar,\\number\\endlinechar}\\end\n") (codes "1776,7,4,720,10000,1000,25,1,92,13\n") Finished }
    ensures bad_register { RunsSo (first_line_usual ++ codes "\\count256=7 \\message{\\number\\count0}\\end\n") (codes "! Bad register code (256).\nl.2\n7\n") 47 Finished }
    ensures bad_register_read { Writes (first_line_usual ++ codes "\\count0=3 \\message{\\number\\count256 }\\end\n") (codes "! Bad register code (256).\nl.2\n3\n") Finished }
    ensures register_below_zero { Writes (first_line_usual ++ codes "\\count-1=7 \\message{\\number\\count-1 }\\end\n") (codes "! Bad register code (-1).\nl.2\n! Bad register code (-1).\nl.2\n7\n") Finished }
    ensures bad_register_as_value { Writes (first_line_usual ++ codes "\\count1=\\count256=7 \\message{\\number\\count1}\\end\n") (codes "! Bad register code (256).\nl.2\n{the character =}\n{the character 7}\n{blank space  }\n0\n") Finished }
    ensures bad_character_read { Writes (first_line_usual ++ codes "\\message{\\number\\catcode256 }\\end\n") (codes "! Bad character code (256).\nl.2\n9\n") Finished }
    ensures no_register { Writes (first_line_usual ++ codes "\\count\\relax=5 \\end\n") (codes "! Missing number, treated as zero.\nl.2\n! Missing number, treated as zero.\nl.2\n{the character =}\n{the character 5}\n{blank space  }\n") Finished }
    ensures invalid_code { Writes (first_line_usual ++ codes "\\count1=65 \\catcode`\\%=\\count1 \\message{\\number\\catcode`\\%}\\end\n") (codes "! Invalid code (65), should be in the range 0..15.\nl.2\n0\n") Finished }
    ensures character_by_a_register { Writes (first_line_usual ++ codes "\\count1=126 \\catcode\\count1=13 \\message{\\number\\catcode126 }\\end\n") (codes "13\n") Finished }
    ensures parameter_taken_back { Writes (first_line_usual ++ codes "\\tolerance=5 {\\tolerance=7 \\message{\\number\\tolerance}}\\message{\\number\\tolerance}\\end\n") (codes "7 5\n") Finished }
    ensures register_taken_back { Writes (first_line_usual ++ codes "{\\count1=5 \\message{\\number\\count1}}\\message{\\number\\count1}\\end\n") (codes "5 0\n") Finished }
    ensures global { Writes (first_line_usual ++ codes "{\\global\\count1=5 }\\message{\\number\\count1}\\end\n") (codes "5\n") Finished }
    ensures all_global { Writes (first_line_usual ++ codes "\\globaldefs=1 {\\count1=5 }\\message{\\number\\count1}\\end\n") (codes "5\n") Finished }
    ensures none_global { Writes (first_line_usual ++ codes "\\globaldefs=-1 {\\global\\count1=5 }\\message{\\number\\count1}\\end\n") (codes "0\n") Finished }
    ensures by_other_names { Writes (first_line_usual ++ codes "\\let\\a=\\tolerance \\let\\b=\\count \\b1=\\a\\message{\\number\\count1}\\end\n") (codes "10000\n") Finished }
    ensures of_a_macro { Writes (first_line_usual ++ codes "\\def\\n{1}\\count\\n2=5 \\message{\\number\\count12 }\\end\n") (codes "5\n") Finished }
    ensures roman { Writes (first_line_usual ++ codes "\\count1=1987 \\message{\\romannumeral\\count1}\\end\n") (codes "mcmlxxxvii\n") Finished }
    ensures in_an_expanded_body { Writes (first_line_usual ++ codes "\\count1=5 \\edef\\a{\\number\\count1 \\number-\\count1}\\count1=6 \\message{\\a}\\end\n") (codes "5-5\n") Finished }
    ensures behind_an_assignment { Writes (first_line_usual ++ codes "\\afterassignment x\\count1=5y\\end\n") (codes "{the letter x}\n{the letter y}\n") Finished }
    ensures behind_long { Writes (first_line_usual ++ codes "\\long\\count1=5 \\message{\\number\\count1}\\end\n") (codes "! You can't use `\\long' or `\\outer' with `\\count'.\nl.2\n5\n") Finished }
    ensures depth { Fills (record default_sizes { expansion_depth = 3 }) (first_line_usual ++ codes "\\count\\count\\count1=1 \\end") (record { table = ExpansionDepth; used = 3; size = 3 }) }
    ensures depth_fits { Fits (record default_sizes { expansion_depth = 4 }) (first_line_usual ++ codes "\\count\\count\\count1=1 \\end") }
    ensures saved_value { Fills (record default_sizes { save_size = 1 }) (first_line_usual ++ codes "{\\count1=5 ") (record { table = SaveSize; used = 1; size = 1 }) }
    ensures saved_once { Fits (record default_sizes { save_size = 2 }) (first_line_usual ++ codes "{\\count1=5 \\count1=6 }\\end") }
{}

/// The machine run on small files with dimensions and glue: units, factors, stretch and shrink, some of them within small sizes.
pub fn worked_dimensions()
    ensures points { RunsSo (first_line_usual ++ codes "\\parindent=1pt \\end\n") (codes "") 41 Finished }
    ensures scaled_points { RunsSo (first_line_usual ++ codes "\\parindent=1sp \\end\n") (codes "") 49 Finished }
    ensures fraction { RunsSo (first_line_usual ++ codes "\\parindent=1.5pt \\end\n") (codes "") 43 Finished }
    ensures half_of_a_dimension { RunsSo (first_line_usual ++ codes "\\parindent=.5\\hsize\\end\n") (codes "") 36 Finished }
    ensures twice_a_dimension { RunsSo (first_line_usual ++ codes "\\parindent=2\\hsize\\end\n") (codes "") 36 Finished }
    ensures factor_of_a_register { RunsSo (first_line_usual ++ codes "\\dimen1=\\count1pt \\end\n") (codes "") 44 Finished }
    ensures infinite_stretch { RunsSo (first_line_usual ++ codes "\\parskip=1pt plus 1fil \\end\n") (codes "") 55 Finished }
    ensures infinite_stretch_with_a_fraction { RunsSo (first_line_usual ++ codes "\\parskip=1pt plus1.5fil \\end\n") (codes "") 56 Finished }
    ensures glue_of_a_parameter { RunsSo (first_line_usual ++ codes "\\parskip=\\baselineskip\\end\n") (codes "") 34 Finished }
    ensures units { Writes (first_line_usual ++ codes "\\dimen1=1in\\dimen2=1cm\\message{\\the\\dimen1,\\the\\dimen2}\\end\n") (codes "72.26999pt,28.45274pt\n") Finished }
    ensures no_font { Writes (first_line_usual ++ codes "\\dimen1=1em\\dimen2=1ex\\message{\\the\\dimen1,\\the\\dimen2}\\end\n") (codes "0.0pt,0.0pt\n") Finished }
    ensures too_large { Writes (first_line_usual ++ codes "\\dimen1=-16384pt \\message{\\the\\dimen1}\\end\n") (codes "! Dimension too large.\nl.2\n-16383.99998pt\n") Finished }
    ensures no_unit { Writes (first_line_usual ++ codes "\\dimen1=1\\message{\\the\\dimen1}\\end\n") (codes "! Illegal unit of measure (pt inserted).\nl.2\n1.0pt\n") Finished }
    ensures no_number { Writes (first_line_usual ++ codes "\\dimen1=x\\message{\\the\\dimen1}\\end\n") (codes "! Missing number, treated as zero.\nl.2\n! Illegal unit of measure (pt inserted).\nl.2\n{the letter x}\n0.0pt\n") Finished }
    ensures glue_turned { Writes (first_line_usual ++ codes "\\skip1=3pt plus-1fil\\skip2=-\\skip1\\message{\\the\\skip2}\\end\n") (codes "-3.0pt plus 1.0fil\n") Finished }
    ensures width_of_glue { Writes (first_line_usual ++ codes "\\skip1=3pt plus1fil\\dimen1=\\skip1\\count1=\\skip1\\message{\\the\\dimen1,\\the\\count1}\\end\n") (codes "3.0pt,196608\n") Finished }
    ensures incompatible { Writes (first_line_usual ++ codes "\\skip1=2pt\\muskip1=\\skip1\\message{\\the\\muskip1}\\end\n") (codes "! Incompatible glue units.\nl.2\n2.0mu\n") Finished }
    ensures bad_register { Writes (first_line_usual ++ codes "\\dimen256=1pt \\message{\\the\\dimen0}\\end\n") (codes "! Bad register code (256).\nl.2\n1.0pt\n") Finished }
    ensures behind_a_dimension { Writes (first_line_usual ++ codes "\\afterassignment x\\dimen1=1pt y\\end\n") (codes "{the letter x}\n{the letter y}\n") Finished }
    ensures taken_back { Writes (first_line_usual ++ codes "\\hsize=1pt {\\hsize=2pt \\parskip=3pt\\message{\\the\\hsize}}\\message{\\the\\hsize,\\the\\parskip}\\end\n") (codes "2.0pt 1.0pt,0.0pt\n") Finished }
    ensures globally { Writes (first_line_usual ++ codes "{\\global\\hsize=2pt \\global\\parskip=3pt}\\message{\\the\\hsize,\\the\\parskip}\\end\n") (codes "2.0pt,3.0pt\n") Finished }
    ensures depth { Fills (record default_sizes { expansion_depth = 3 }) (first_line_usual ++ codes "\\parskip=1pt \\end") (record { table = ExpansionDepth; used = 3; size = 3 }) }
    ensures depth_fits { Fits (record default_sizes { expansion_depth = 4 }) (first_line_usual ++ codes "\\parskip=1pt \\end") }
    ensures saved_value { Fills (record default_sizes { save_size = 1 }) (first_line_usual ++ codes "{\\dimen1=1pt ") (record { table = SaveSize; used = 1; size = 1 }) }
    ensures saved_once { Fits (record default_sizes { save_size = 2 }) (first_line_usual ++ codes "{\\dimen1=1pt \\dimen1=2pt }\\end") }
{}

/// The machine run on small files that check the magnification, by units behind `true`.
pub fn worked_magnification()
    ensures without_a_step { RunsSo (first_line_usual ++ codes "\\parindent=1truept \\end\n") (codes "") 44 Finished }
    ensures set { Writes (first_line_usual ++ codes "\\mag=2000 \\dimen1=1truept \\message{\\the\\dimen1,\\the\\mag}\\end\n") (codes "0.5pt,2000\n") Finished }
    ensures same_again { Writes (first_line_usual ++ codes "\\mag=2000 \\dimen1=1truept \\dimen1=2truept \\message{\\the\\dimen1,\\the\\mag}\\end\n") (codes "1.0pt,2000\n") Finished }
    ensures another { Writes (first_line_usual ++ codes "\\mag=2000 \\dimen1=1truept \\mag=500 \\dimen1=2truept \\message{\\the\\dimen1,\\the\\mag}\\end\n") (codes "! Incompatible magnification (500);\n the previous value will be retained (2000).\nl.2\n1.0pt,2000\n") Finished }
    ensures another_than_the_first_value { Writes (first_line_usual ++ codes "\\dimen1=1truept \\mag=2000 \\dimen1=1truept \\message{\\the\\dimen1,\\the\\mag}\\end\n") (codes "! Incompatible magnification (2000);\n the previous value will be retained (1000).\nl.2\n1.0pt,1000\n") Finished }
    ensures another_below_zero { Writes (first_line_usual ++ codes "\\dimen1=1truept \\mag=-5 \\dimen1=1truept \\message{\\the\\mag}\\end\n") (codes "! Incompatible magnification (-5);\n the previous value will be retained (1000).\nl.2\n1000\n") Finished }
    ensures set_back_globally { Writes (first_line_usual ++ codes "\\mag=2000 \\dimen1=1truept \\mag=3000 {\\dimen1=1truept }\\message{\\the\\mag}\\end\n") (codes "! Incompatible magnification (3000);\n the previous value will be retained (2000).\nl.2\n2000\n") Finished }
    ensures zero { Writes (first_line_usual ++ codes "\\mag=0 \\dimen1=1truept \\message{\\the\\dimen1,\\the\\mag}\\end\n") (codes "! Illegal magnification has been changed to 1000 (0).\nl.2\n1.0pt,1000\n") Finished }
    ensures too_great { Writes (first_line_usual ++ codes "\\mag=32769 \\dimen1=1truept \\message{\\the\\dimen1,\\the\\mag}\\end\n") (codes "! Illegal magnification has been changed to 1000 (32769).\nl.2\n1.0pt,1000\n") Finished }
    ensures below_zero { Writes (first_line_usual ++ codes "\\mag=-1 \\dimen1=1truept \\message{\\the\\dimen1,\\the\\mag}\\end\n") (codes "! Illegal magnification has been changed to 1000 (-1).\nl.2\n1.0pt,1000\n") Finished }
    ensures greatest { Writes (first_line_usual ++ codes "\\mag=32768 \\dimen1=1truept \\message{\\the\\dimen1,\\the\\mag}\\end\n") (codes "0.03052pt,32768\n") Finished }
    ensures least { Writes (first_line_usual ++ codes "\\mag=1 \\dimen1=1truesp \\message{\\number\\dimen1,\\the\\mag}\\end\n") (codes "1000,1\n") Finished }
    ensures changed_globally { Writes (first_line_usual ++ codes "\\globaldefs=-1 \\mag=0 {\\dimen1=1truept }\\message{\\the\\mag}\\end\n") (codes "! Illegal magnification has been changed to 1000 (0).\nl.2\n1000\n") Finished }
    ensures another_behind_an_illegal_one { Writes (first_line_usual ++ codes "\\mag=0 \\dimen1=1truept \\mag=2000 \\dimen1=1truept \\message{\\the\\mag}\\end\n") (codes "! Illegal magnification has been changed to 1000 (0).\nl.2\n! Incompatible magnification (2000);\n the previous value will be retained (1000).\nl.2\n1000\n") Finished }
    ensures set_in_a_group { Writes (first_line_usual ++ codes "{\\mag=2000 \\dimen1=1truept }\\dimen1=1truept \\message{\\the\\dimen1,\\the\\mag}\\end\n") (codes "! Incompatible magnification (1000);\n the previous value will be retained (2000).\nl.2\n0.5pt,2000\n") Finished }
    ensures not_checked { Writes (first_line_usual ++ codes "\\mag=0 \\dimen1=1pt \\message{\\the\\dimen1,\\the\\mag}\\end\n") (codes "1.0pt,0\n") Finished }
    ensures in_glue { Writes (first_line_usual ++ codes "\\mag=2000 \\skip1=1pt plus1truept \\message{\\the\\skip1,\\the\\mag}\\end\n") (codes "1.0pt plus 0.5pt,2000\n") Finished }
    ensures no_value_saved { Fits (record default_sizes { save_size = 1 }) (first_line_usual ++ codes "\\mag=0 {\\global\\dimen1=1truept }\\end") }
{}

/// The machine run on small files with arithmetic on registers and parameters, and its optional keyword.
pub fn worked_arithmetic()
    ensures advance { RunsSo (first_line_usual ++ codes "\\count1=5 \\advance\\count1 by2 \\message{\\the\\count1}\\end\n") (codes "7\n") 53 Finished }
    ensures without_by { RunsSo (first_line_usual ++ codes "\\count1=5 \\advance\\count1 2 \\message{\\the\\count1}\\end\n") (codes "7\n") 52 Finished }
    ensures capital_letters { RunsSo (first_line_usual ++ codes "\\count1=5 \\advance\\count1 BY2 \\message{\\the\\count1}\\end\n") (codes "7\n") 53 Finished }
    ensures other_categories { Writes (first_line_usual ++ codes "\\count1=5 \\catcode`b=12 \\catcode`y=12 \\advance\\count1by2 \\message{\\the\\count1}\\catcode`y=11 \\end\n") (codes "7\n") Finished }
    ensures spaces_before_by { Writes (first_line_usual ++ codes "\\count1=5 \\def\\s{ }\\advance\\count1 \\s\\s by \\s2 \\message{\\the\\count1}\\end\n") (codes "7\n") Finished }
    ensures by_of_a_macro { Writes (first_line_usual ++ codes "\\count1=5 \\def\\b{b}\\advance\\count1\\b y2 \\message{\\the\\count1}\\end\n") (codes "7\n") Finished }
    ensures half_a_keyword { RunsSo (first_line_usual ++ codes "\\count1=5 \\advance\\count1 b2 \\message{\\the\\count1}\\end\n") (codes "! Missing number, treated as zero.\nl.2\n{the letter b}\n{the character 2}\n{blank space  }\n5\n") 55 Finished }
    ensures implicit_letter { Writes (first_line_usual ++ codes "\\let\\b=b\\advance\\count1\\b y2 \\end\n") (codes "! Missing number, treated as zero.\nl.2\n{the letter b}\n{the letter y}\n{the character 2}\n{blank space  }\n") Finished }
    ensures negative { RunsSo (first_line_usual ++ codes "\\count1=5 \\advance\\count1 by-7 \\message{\\the\\count1}\\end\n") (codes "-2\n") 55 Finished }
    ensures multiply { Writes (first_line_usual ++ codes "\\count1=-7 \\multiply\\count1 by3 \\message{\\the\\count1}\\end\n") (codes "-21\n") Finished }
    ensures divide { RunsSo (first_line_usual ++ codes "\\count1=-7 \\divide\\count1 by2 \\message{\\the\\count1}\\end\n") (codes "-3\n") 55 Finished }
    ensures divide_by_a_negative_number { Writes (first_line_usual ++ codes "\\count1=7 \\divide\\count1 by-2 \\message{\\the\\count1}\\end\n") (codes "-3\n") Finished }
    ensures greatest { Writes (first_line_usual ++ codes "\\count1=2147483646 \\advance\\count1 1 \\message{\\the\\count1}\\end\n") (codes "2147483647\n") Finished }
    ensures sum_too_great { Writes (first_line_usual ++ codes "\\count1=2147483647 \\advance\\count1 by1 \\message{\\the\\count1}\\end\n") (codes "! Arithmetic overflow.\nl.2\n2147483647\n") Finished }
    ensures sum_too_small { Writes (first_line_usual ++ codes "\\count1=-2147483647 \\advance\\count1 by-1 \\message{\\the\\count1}\\end\n") (codes "! Arithmetic overflow.\nl.2\n-2147483647\n") Finished }
    ensures product_too_great { Writes (first_line_usual ++ codes "\\count1=65536 \\multiply\\count1 by65536 \\message{\\the\\count1}\\end\n") (codes "! Arithmetic overflow.\nl.2\n65536\n") Finished }
    ensures divided_by_zero { Writes (first_line_usual ++ codes "\\count1=5 \\divide\\count1 by0 \\message{\\the\\count1}\\end\n") (codes "! Arithmetic overflow.\nl.2\n5\n") Finished }
    ensures behind_an_overflow { Writes (first_line_usual ++ codes "\\count1=5 \\afterassignment x\\divide\\count1 by0 \\message{\\the\\count1}\\end\n") (codes "! Arithmetic overflow.\nl.2\n{the letter x}\n5\n") Finished }
    ensures behind_arithmetic { Writes (first_line_usual ++ codes "\\count1=5 \\afterassignment x\\advance\\count1 by1y\\message{\\the\\count1}\\end\n") (codes "{the letter x}\n{the letter y}\n6\n") Finished }
    ensures taken_back { Writes (first_line_usual ++ codes "\\count1=5 {\\advance\\count1 by2 \\message{\\the\\count1}}\\message{\\the\\count1}\\end\n") (codes "7 5\n") Finished }
    ensures global { Writes (first_line_usual ++ codes "\\count1=5 {\\global\\advance\\count1 by2 }\\message{\\the\\count1}\\end\n") (codes "7\n") Finished }
    ensures parameter { Writes (first_line_usual ++ codes "\\advance\\tolerance by-1 \\message{\\the\\tolerance}\\end\n") (codes "9999\n") Finished }
    ensures behind_long { Writes (first_line_usual ++ codes "\\long\\advance\\count1 by2 \\message{\\the\\count1}\\end\n") (codes "! You can't use `\\long' or `\\outer' with `\\advance'.\nl.2\n2\n") Finished }
    ensures bad_register { Writes (first_line_usual ++ codes "\\advance\\count256 by2 \\message{\\the\\count0}\\end\n") (codes "! Bad register code (256).\nl.2\n2\n") Finished }
    ensures no_variable { RunsSo (first_line_usual ++ codes "\\count1=5 \\advance\\relax\\count1=6 \\message{\\the\\count1}\\end\n") (codes "! You can't use `\\relax' after \\advance.\nl.2\n6\n") 53 Finished }
    ensures behind_no_variable { Writes (first_line_usual ++ codes "\\afterassignment x\\multiply\\relax y\\end\n") (codes "! You can't use `\\relax' after \\multiply.\nl.2\n{the letter x}\n{the letter y}\n") Finished }
    ensures escape_character { Writes (first_line_usual ++ codes "\\escapechar=64 \\divide\\relax\\end\n") (codes "! You can't use `@relax' after @divide.\nl.2\n") Finished }
    ensures dimension { RunsSo (first_line_usual ++ codes "\\dimen1=1pt \\advance\\dimen1 by.5pt \\message{\\the\\dimen1}\\end\n") (codes "1.5pt\n") 69 Finished }
    ensures dimension_without_by { Writes (first_line_usual ++ codes "\\hsize=1pt \\advance\\hsize 2pt \\message{\\the\\hsize}\\end\n") (codes "3.0pt\n") Finished }
    ensures dimension_divided { Writes (first_line_usual ++ codes "\\dimen1=-7sp \\divide\\dimen1 by2 \\message{\\number\\dimen1}\\end\n") (codes "-3\n") Finished }
    ensures product_of_a_dimension_too_large { Writes (first_line_usual ++ codes "\\dimen1=16383pt \\multiply\\dimen1 by2 \\message{\\the\\dimen1}\\end\n") (codes "! Arithmetic overflow.\nl.2\n16383.0pt\n") Finished }
    ensures sum_of_dimensions { Writes (first_line_usual ++ codes "\\dimen1=16383pt \\advance\\dimen1 by\\dimen1 \\message{\\the\\dimen1}\\end\n") (codes "32766.0pt\n") Finished }
    ensures sum_of_dimensions_too_great { Writes (first_line_usual ++ codes "\\dimen1=16383.9pt \\advance\\dimen1 \\dimen1 \\advance\\dimen1 \\dimen1 \\message{\\the\\dimen1}\\end\n") (codes "! Dimension too large.\nl.2\n! Arithmetic overflow.\nl.2\n32767.79999pt\n") Finished }
    ensures glue { Writes (first_line_usual ++ codes "\\skip1=1pt plus1fil\\advance\\skip1 by2pt plus3fill\\message{\\the\\skip1}\\end\n") (codes "3.0pt plus 3.0fill\n") Finished }
    ensures glue_of_equal_orders { Writes (first_line_usual ++ codes "\\skip1=1pt minus2fil\\advance\\skip1 1pt minus1fil\\message{\\the\\skip1}\\end\n") (codes "2.0pt minus 3.0fil\n") Finished }
    ensures glue_with_a_part_of_zero { Writes (first_line_usual ++ codes "\\skip1=1pt plus1fil \\advance\\skip1 by1pt plus0fill \\message{\\the\\skip1}\\end\n") (codes "2.0pt plus 1.0fil\n") Finished }
    ensures glue_multiplied { Writes (first_line_usual ++ codes "\\parskip=1pt plus2fil \\multiply\\parskip by-2 \\message{\\the\\parskip}\\end\n") (codes "-2.0pt plus -4.0fil\n") Finished }
    ensures product_of_glue_too_large { Writes (first_line_usual ++ codes "\\skip1=1pt plus16383fil \\multiply\\skip1 by2 \\message{\\the\\skip1}\\end\n") (codes "! Arithmetic overflow.\nl.2\n1.0pt plus 16383.0fil\n") Finished }
    ensures glue_divided { Writes (first_line_usual ++ codes "\\skip1=1pt plus-.00011pt\\divide\\skip1 2 \\message{\\the\\skip1}\\end\n") (codes "0.5pt plus -0.00005pt\n") Finished }
    ensures glue_divided_by_zero { Writes (first_line_usual ++ codes "\\skip1=1pt \\divide\\skip1 by0 \\message{\\the\\skip1}\\end\n") (codes "! Arithmetic overflow.\nl.2\n1.0pt\n") Finished }
    ensures glue_in_mu { Writes (first_line_usual ++ codes "\\muskip1=18mu \\advance\\muskip1 by2mu plus1fil\\message{\\the\\muskip1}\\end\n") (codes "20.0mu plus 1.0fil\n") Finished }
    ensures depth { Fills (record default_sizes { expansion_depth = 2 }) (first_line_usual ++ codes "\\advance\\count\\count1 by2 \\end") (record { table = ExpansionDepth; used = 2; size = 2 }) }
    ensures depth_fits { Fits (record default_sizes { expansion_depth = 3 }) (first_line_usual ++ codes "\\advance\\count\\count1 by2 \\end") }
    ensures levels_of_a_keyword { Fills (record default_sizes { input_stack_size = 2 }) (first_line_usual ++ codes "\\advance\\count1 b2 \\end") (record { table = InputStackSize; used = 2; size = 2 }) }
    ensures levels_of_a_keyword_fit { Fits (record default_sizes { input_stack_size = 3 }) (first_line_usual ++ codes "\\advance\\count1 b2 \\end") }
{}

/// The machine run on small files with shorthand definitions, and with what these define.
pub fn worked_shorthands()
    ensures register { RunsSo (first_line_usual ++ codes "\\countdef\\x=5 \\x=7 \\message{\\the\\count5}\\end\n") (codes "7\n") 48 Finished }
    ensures register_without_an_equals_sign { Writes (first_line_usual ++ codes "\\countdef\\x=5 \\x 7 \\message{\\the\\x}\\end\n") (codes "7\n") Finished }
    ensures register_advanced { Writes (first_line_usual ++ codes "\\countdef\\x=5 \\x=7 \\advance\\x by\\x \\message{\\the\\count5}\\end\n") (codes "14\n") Finished }
    ensures register_taken_back { Writes (first_line_usual ++ codes "\\countdef\\x=5 {\\x=7 }\\message{\\the\\x}\\end\n") (codes "0\n") Finished }
    ensures register_globally { Writes (first_line_usual ++ codes "{\\countdef\\x=5 \\global\\x=7 }\\message{\\the\\count5}\\end\n") (codes "7\n") Finished }
    ensures register_behind_long { Writes (first_line_usual ++ codes "\\countdef\\x=5 \\long\\x=7 \\message{\\the\\x}\\end\n") (codes "! You can't use `\\long' or `\\outer' with `\\count5'.\nl.2\n7\n") Finished }
    ensures behind_a_register { Writes (first_line_usual ++ codes "\\countdef\\x=5 \\afterassignment a\\x=7b\\end\n") (codes "{the letter a}\n{the letter b}\n") Finished }
    ensures register_let { Writes (first_line_usual ++ codes "\\countdef\\x=3 \\let\\y=\\x \\y=4 \\message{\\the\\count3,\\meaning\\y}\\end\n") (codes "4,\\count3\n") Finished }
    ensures register_shown { Writes (first_line_usual ++ codes "\\countdef\\x=5 \\show\\x\\end\n") (codes "> \\x=\\count5.\nl.2\n") Finished }
    ensures dimension { Writes (first_line_usual ++ codes "\\dimendef\\x=5 \\x=7pt \\message{\\the\\dimen5,\\meaning\\x}\\end\n") (codes "7.0pt,\\dimen5\n") Finished }
    ensures glue { Writes (first_line_usual ++ codes "\\skipdef\\x=5 \\x=7pt plus1fil\\message{\\the\\skip5,\\meaning\\x}\\end\n") (codes "7.0pt plus 1.0fil,\\skip5\n") Finished }
    ensures glue_in_mu { Writes (first_line_usual ++ codes "\\muskipdef\\x=5 \\x=7mu\\message{\\the\\muskip5,\\meaning\\x}\\end\n") (codes "7.0mu,\\muskip5\n") Finished }
    ensures character { RunsSo (first_line_usual ++ codes "\\chardef\\a=65 \\message{\\the\\a}\\end\n") (codes "65\n") 44 Finished }
    ensures character_meant { Writes (first_line_usual ++ codes "\\chardef\\a=65 \\message{\\meaning\\a}\\end\n") (codes "\\char\"41\n") Finished }
    ensures character_typeset { RunsSo (first_line_usual ++ codes "\\chardef\\a=65 \\a\\end\n") (codes "{\\char\"41}\n") 38 Finished }
    ensures character_behind_a_prefix { Writes (first_line_usual ++ codes "\\chardef\\a=65 \\global\\a\\end\n") (codes "! You can't use a prefix with `\\char\"41'.\nl.2\n{\\char\"41}\n") Finished }
    ensures character_as_number { Writes (first_line_usual ++ codes "\\chardef\\a=13 \\catcode`\\~=\\a\\message{\\the\\catcode`\\~}\\end\n") (codes "13\n") Finished }
    ensures mathematical { Writes (first_line_usual ++ codes "\\mathchardef\\a=\"141 \\message{\\the\\a,\\meaning\\a}\\a\\end\n") (codes "321,\\mathchar\"141\n{\\mathchar\"141}\n") Finished }
    ensures greatest { Writes (first_line_usual ++ codes "\\chardef\\a=255 \\mathchardef\\b=32767 \\countdef\\c=255 \\message{\\meaning\\a,\\meaning\\b,\\meaning\\c}\\end\n") (codes "\\char\"FF,\\mathchar\"7FFF,\\count255\n") Finished }
    ensures name_within_its_value { Writes (first_line_usual ++ codes "\\chardef\\x=\\x\\message{\\meaning\\x}\\end\n") (codes "! Missing number, treated as zero.\nl.2\n{\\char\"0}\n\\char\"0\n") Finished }
    ensures macro_within_its_value { Writes (first_line_usual ++ codes "\\def\\x{7 }\\countdef\\x=\\x\\message{\\meaning\\x}\\end\n") (codes "! Missing number, treated as zero.\nl.2\n! Missing number, treated as zero.\nl.2\n\\count0\n") Finished }
    ensures bad_character { Writes (first_line_usual ++ codes "\\chardef\\a=256 \\message{\\meaning\\a}\\end\n") (codes "! Bad character code (256).\nl.2\n\\char\"0\n") Finished }
    ensures character_below_zero { Writes (first_line_usual ++ codes "\\chardef\\a=-1 \\message{\\meaning\\a}\\end\n") (codes "! Bad character code (-1).\nl.2\n\\char\"0\n") Finished }
    ensures bad_mathematical { Writes (first_line_usual ++ codes "\\mathchardef\\a=32768 \\message{\\meaning\\a}\\end\n") (codes "! Bad mathchar (32768).\nl.2\n\\mathchar\"0\n") Finished }
    ensures bad_register { Writes (first_line_usual ++ codes "\\countdef\\a=256 \\a=7 \\message{\\the\\count0}\\end\n") (codes "! Bad register code (256).\nl.2\n7\n") Finished }
    ensures no_name { Writes (first_line_usual ++ codes "\\chardef 5=65 \\end\n") (codes "! Missing control sequence inserted.\nl.2\n{the character =}\n{the character 6}\n{the character 5}\n{blank space  }\n") Finished }
    ensures taken_back { Writes (first_line_usual ++ codes "{\\chardef\\a=65 }\\a\\end\n") (codes "! Undefined control sequence.\nl.2\n") Finished }
    ensures globally { Writes (first_line_usual ++ codes "{\\global\\chardef\\a=65 }\\message{\\the\\a}\\end\n") (codes "65\n") Finished }
    ensures behind_a_definition { Writes (first_line_usual ++ codes "\\afterassignment x\\chardef\\a=65 y\\end\n") (codes "{the letter x}\n{the letter y}\n") Finished }
    ensures saved_name { Fills (record default_sizes { save_size = 1 }) (first_line_usual ++ codes "{\\chardef\\a=65 ") (record { table = SaveSize; used = 1; size = 1 }) }
    ensures saved_once { Fits (record default_sizes { save_size = 2 }) (first_line_usual ++ codes "{\\chardef\\a=65 }\\end") }
    ensures saved_globally { Fits (record default_sizes { save_size = 1 }) (first_line_usual ++ codes "{\\global\\chardef\\a=65 }\\end") }
{}

/// The machine run on small files with the texts of values.
pub fn worked_values()
    ensures codes_and_parameters { Writes (first_line_usual ++ codes "\\message{\\the\\catcode65,\\the\\endlinechar,\\the\\lccode`A,\\the\\delcode`a}\\end\n") (codes "11,13,97,-1\n") Finished }
    ensures negative { Writes (first_line_usual ++ codes "\\count1=-5 \\message{\\the\\count1}\\end\n") (codes "-5\n") Finished }
    ensures dimension { Writes (first_line_usual ++ codes "\\hsize=-1.5pt \\message{\\the\\hsize}\\end\n") (codes "-1.5pt\n") Finished }
    ensures dimension_in_scaled_points { Writes (first_line_usual ++ codes "\\hsize=3sp \\message{\\the\\hsize,\\number\\hsize}\\end\n") (codes "0.00005pt,3\n") Finished }
    ensures glue { Writes (first_line_usual ++ codes "\\skip1=1pt plus-2pt minus3filll\\message{\\the\\skip1}\\end\n") (codes "1.0pt plus -2.0pt minus 3.0filll\n") Finished }
    ensures glue_in_mu { Writes (first_line_usual ++ codes "\\thinmuskip=3mu minus1mu\\message{\\the\\thinmuskip}\\end\n") (codes "3.0mu minus 1.0mu\n") Finished }
    ensures first_dimension_and_glue { Writes (first_line_usual ++ codes "\\message{\\the\\hsize,\\the\\parskip,\\the\\thinmuskip,\\the\\dimen1}\\end\n") (codes "0.0pt,0.0pt,0.0mu,0.0pt\n") Finished }
    ensures in_an_expanded_body { RunsSo (first_line_usual ++ codes "\\count1=5 \\edef\\b{\\the\\count1}\\count1=6 \\message{\\b}\\end\n") (codes "5\n") 57 Finished }
    ensures behind_expandafter { Writes (first_line_usual ++ codes "\\count1=5 \\expandafter\\def\\expandafter\\b\\expandafter{\\the\\count1}\\count1=6 \\message{\\b}\\end\n") (codes "5\n") Finished }
    ensures as_a_number { Writes (first_line_usual ++ codes "\\count1=12 \\count\\the\\count1=3 \\message{\\the\\count12 }\\end\n") (codes "3\n") Finished }
    ensures typeset { Writes (first_line_usual ++ codes "\\count1=50 \\the\\count1 \\end\n") (codes "{the character 5}\n{the character 0}\n") Finished }
    ensures of_a_letter { RunsSo (first_line_usual ++ codes "\\message{a\\the xb}\\end\n") (codes "! You can't use `the letter x' after \\the.\nl.2\na0b\n") 39 Finished }
    ensures of_a_sign { Writes (first_line_usual ++ codes "\\message{\\the-5}\\end\n") (codes "! You can't use `the character -' after \\the.\nl.2\n05\n") Finished }
    ensures of_a_command { Writes (first_line_usual ++ codes "\\message{\\the\\relax\\the\\advance}\\end\n") (codes "! You can't use `\\relax' after \\the.\nl.2\n! You can't use `\\advance' after \\the.\nl.2\n00\n") Finished }
    ensures of_a_macro { Writes (first_line_usual ++ codes "\\def\\b{\\count1}\\count1=5 \\message{\\the\\b}\\end\n") (codes "5\n") Finished }
    ensures of_an_undefined_name { Writes (first_line_usual ++ codes "\\count1=5 \\message{\\the\\zz\\count1}\\end\n") (codes "! Undefined control sequence.\nl.2\n5\n") Finished }
    ensures bad_register { Writes (first_line_usual ++ codes "\\count0=3 \\message{\\the\\count256 }\\end\n") (codes "! Bad register code (256).\nl.2\n3\n") Finished }
    ensures no_register { Writes (first_line_usual ++ codes "\\count0=3 \\message{\\the\\count x}\\end\n") (codes "! Missing number, treated as zero.\nl.2\n3x\n") Finished }
    ensures depth { Fills (record default_sizes { expansion_depth = 3 }) (first_line_usual ++ codes "\\message{\\the\\count1}\\end") (record { table = ExpansionDepth; used = 3; size = 3 }) }
    ensures depth_fits { Fits (record default_sizes { expansion_depth = 4 }) (first_line_usual ++ codes "\\message{\\the\\count1}\\end") }
{}

/// The machine run on small files with lists of tokens: registers and parameters.
pub fn worked_lists()
    ensures assigned { RunsSo (first_line_usual ++ codes "\\toks1={ab}\\end\n") (codes "") 39 Finished }
    ensures without_equals { RunsSo (first_line_usual ++ codes "\\toks1{ab}\\end\n") (codes "") 38 Finished }
    ensures shared { RunsSo (first_line_usual ++ codes "\\toks1=\\toks2 \\end\n") (codes "") 38 Finished }
    ensures in_an_expanded_body { RunsSo (first_line_usual ++ codes "\\toks1={ab}\\edef\\a{\\the\\toks1}\\end\n") (codes "") 47 Finished }
    ensures put { Writes (first_line_usual ++ codes "\\toks1={ab}\\message{\\the\\toks1}\\end\n") (codes "ab\n") Finished }
    ensures itself { Writes (first_line_usual ++ codes "\\toks0={xy}\\toks0=\\toks0 \\let\\a=\\a\\message{\\the\\toks0}\\end\n") (codes "xy\n") Finished }
    ensures not_expanded { Writes (first_line_usual ++ codes "\\toks1={\\b}\\def\\b{c}\\edef\\a{\\the\\toks1}\\message{\\meaning\\a}\\end\n") (codes "macro:->\\b \n") Finished }
    ensures between_expansions { Writes (first_line_usual ++ codes "\\toks1={\\b}\\def\\b{c}\\edef\\a{\\b\\the\\toks1\\b}\\message{\\meaning\\a}\\end\n") (codes "macro:->c\\b c\n") Finished }
    ensures not_expanded_in_a_message { Writes (first_line_usual ++ codes "\\def\\b{c}\\toks1={\\b}\\message{\\the\\toks1}\\end\n") (codes "\\b \n") Finished }
    ensures obeyed { Writes (first_line_usual ++ codes "\\toks1={\\message{m}x}\\the\\toks1 \\end\n") (codes "m\n{the letter x}\n") Finished }
    ensures assigns { Writes (first_line_usual ++ codes "\\toks1={\\toks2={d}}\\the\\toks1\\message{\\the\\toks2}\\end\n") (codes "d\n") Finished }
    ensures as_a_number { Writes (first_line_usual ++ codes "\\toks1={12 }\\message{\\number\\the\\toks1 3}\\end\n") (codes "123\n") Finished }
    ensures behind_expandafter { Writes (first_line_usual ++ codes "\\toks1={ab}\\expandafter\\def\\expandafter\\a\\expandafter{\\the\\toks1}\\message{\\meaning\\a}\\end\n") (codes "macro:->ab\n") Finished }
    ensures behind_expandafter_in_a_body { Writes (first_line_usual ++ codes "\\toks1={\\b}\\def\\b{c}\\edef\\a{\\expandafter x\\the\\toks1}\\message{\\meaning\\a}\\end\n") (codes "macro:->xc\n") Finished }
    ensures in_a_number_in_a_body { Writes (first_line_usual ++ codes "\\toks1={\\b}\\def\\b{5}\\edef\\a{\\number\\the\\toks1}\\message{\\meaning\\a}\\end\n") (codes "macro:->5\n") Finished }
    ensures in_a_name_in_a_body { Writes (first_line_usual ++ codes "\\toks1={\\b}\\def\\b{c}\\edef\\a{\\csname x\\the\\toks1\\endcsname}\\message{\\meaning\\a}\\end\n") (codes "macro:->\\xc \n") Finished }
    ensures not_read_again { Writes (first_line_usual ++ codes "\\toks1={\\the\\toks2}\\toks2={z}\\edef\\a{\\the\\toks1}\\message{\\meaning\\a}\\end\n") (codes "macro:->\\the \\toks 2\n") Finished }
    ensures in_a_name { Writes (first_line_usual ++ codes "\\toks1={ab}\\message{\\csname x\\the\\toks1\\endcsname}\\end\n") (codes "\\xab \n") Finished }
    ensures of_what_the_list_names { Writes (first_line_usual ++ codes "\\toks1={\\toks2}\\toks2={q}\\message{\\the\\the\\toks1}\\end\n") (codes "q\n") Finished }
    ensures braces { Writes (first_line_usual ++ codes "\\toks1={{a}b}\\edef\\a{[\\the\\toks1]}\\message{\\meaning\\a}\\end\n") (codes "macro:->[{a}b]\n") Finished }
    ensures parameter_character { Writes (first_line_usual ++ codes "\\toks1={#1}\\edef\\a#1{(\\the\\toks1)}\\message{\\meaning\\a}\\end\n") (codes "macro:#1->(##1)\n") Finished }
    ensures behind_a_parameter_character { Writes (first_line_usual ++ codes "\\toks1={1}\\edef\\a#1{(#\\the\\toks1)}\\message{\\meaning\\a}\\end\n") (codes "macro:#1->(#1)\n") Finished }
    ensures copied { Writes (first_line_usual ++ codes "\\toks1={a}\\toks2={b}\\toks1=\\toks2 \\toks2={c}\\message{\\the\\toks1\\the\\toks2}\\end\n") (codes "bc\n") Finished }
    ensures emptied { Writes (first_line_usual ++ codes "\\toks1={a}\\toks2=\\toks1 \\toks1={}\\message{[\\the\\toks1][\\the\\toks2]}\\end\n") (codes "[][a]\n") Finished }
    ensures emptied_where_it_is_read { Writes (first_line_usual ++ codes "\\toks1={\\toks1={}\\message{x}}\\the\\toks1 \\message{[\\the\\toks1]}\\end\n") (codes "x []\n") Finished }
    ensures appended { Writes (first_line_usual ++ codes "\\toks1={a}\\toks1=\\expandafter{\\the\\toks1 b}\\message{\\the\\toks1}\\end\n") (codes "ab\n") Finished }
    ensures parameter { Writes (first_line_usual ++ codes "\\everypar={x}\\toks3=\\everypar\\message{\\the\\everypar\\the\\toks3}\\end\n") (codes "xx\n") Finished }
    ensures parameter_of_a_register { Writes (first_line_usual ++ codes "\\toks1={a}\\everyjob=\\toks1 \\message{\\the\\everyjob}\\end\n") (codes "a\n") Finished }
    ensures by_a_name { Writes (first_line_usual ++ codes "\\toksdef\\t=5 \\t={a}\\message{\\the\\toks5}\\toks1=\\t\\t{b}\\message{\\the\\toks1\\the\\t}\\end\n") (codes "a ab\n") Finished }
    ensures no_name { Writes (first_line_usual ++ codes "\\toksdef\\t=256 \\message{\\meaning\\t}\\end\n") (codes "! Bad register code (256).\nl.2\n\\toks0\n") Finished }
    ensures behind_relax { Writes (first_line_usual ++ codes "\\toks1=\\relax{a}\\toks2\\relax\\relax {b}\\message{\\the\\toks1\\the\\toks2}\\end\n") (codes "ab\n") Finished }
    ensures implicit_brace { Writes (first_line_usual ++ codes "\\let\\bgroup={\\toks1=\\bgroup a}\\message{\\the\\toks1}\\end\n") (codes "a\n") Finished }
    ensures brace_of_a_macro { Writes (first_line_usual ++ codes "\\def\\b{{a}}\\toks1=\\b\\message{\\the\\toks1}\\end\n") (codes "a\n") Finished }
    ensures register_of_a_macro { Writes (first_line_usual ++ codes "\\def\\b{\\toks}\\toks2={k}\\toks1=\\b 2\\message{\\the\\toks1}\\end\n") (codes "k\n") Finished }
    ensures no_brace { Writes (first_line_usual ++ codes "\\toks1=a}\\message{\\the\\toks1}\\end\n") (codes "! Missing { inserted.\nl.2\na\n") Finished }
    ensures of_a_number { Writes (first_line_usual ++ codes "\\toks1=\\count2 }\\message{\\the\\toks1}\\end\n") (codes "! Missing { inserted.\nl.2\n\\count 2 \n") Finished }
    ensures bad_register { Writes (first_line_usual ++ codes "\\toks256={a}\\message{\\the\\toks0}\\toks1=\\toks256 \\message{\\the\\toks1}\\end\n") (codes "! Bad register code (256).\nl.2\na\n! Bad register code (256).\nl.2\na\n") Finished }
    ensures local { Writes (first_line_usual ++ codes "\\toks1={a}{\\toks1={b}\\message{\\the\\toks1}}\\message{\\the\\toks1}\\end\n") (codes "b a\n") Finished }
    ensures taken_back { Writes (first_line_usual ++ codes "{\\toks1={b}\\everypar={c}}\\message{[\\the\\toks1][\\the\\everypar]}\\end\n") (codes "[][]\n") Finished }
    ensures globally { Writes (first_line_usual ++ codes "{\\global\\toks1={b}\\global\\toks2=\\toks1 }\\message{\\the\\toks1\\the\\toks2}\\end\n") (codes "bb\n") Finished }
    ensures all_global { Writes (first_line_usual ++ codes "\\globaldefs=1 {\\toks1={b}}\\message{\\the\\toks1}\\end\n") (codes "b\n") Finished }
    ensures none_global { Writes (first_line_usual ++ codes "\\toks1={b}\\globaldefs=-1 {\\global\\toks1={c}}\\message{\\the\\toks1}\\end\n") (codes "b\n") Finished }
    ensures behind_long { Writes (first_line_usual ++ codes "\\long\\toks1={a}\\message{\\the\\toks1}\\end\n") (codes "! You can't use `\\long' or `\\outer' with `\\toks'.\nl.2\na\n") Finished }
    ensures after_assignment { Writes (first_line_usual ++ codes "\\def\\a{\\message{m}}\\afterassignment\\a\\toks1={a}\\message{\\the\\toks1}\\afterassignment\\a\\toks1={}\\afterassignment\\a\\toks1=\\toks2 \\end\n") (codes "m a m m\n") Finished }
    ensures no_arithmetic { Writes (first_line_usual ++ codes "\\advance\\toks0\\end\n") (codes "! You can't use `\\toks' after \\advance.\nl.2\n{the character 0}\n") Finished }
    ensures with_a_paragraph { Writes (first_line_usual ++ codes "\\toks1={a\\par b}\\message{\\the\\toks1}\\end\n") (codes "a\\par b\n") Finished }
    ensures outer_name { Writes (first_line_usual ++ codes "\\outer\\def\\o{x}\\toks1={a\\o b}\\message{\\the\\toks1}\\end\n") (codes "Runaway text?\na\n! Forbidden control sequence found while scanning text of \\toks.\nl.2\n{the letter x}\n{the letter b}\n! Too many }'s.\nl.2\na \n") Finished }
    ensures no_end { Writes (first_line_usual ++ codes "\\toks1={a\n") (codes "Runaway text?\na \n! File ended while scanning text of \\toks.\nl.0\n! Emergency stop.\n*** (job aborted, no legal \\end found)\n") (AtFatal NoEnd) }
{}

/// The machine run on small files that change the case of letters.
pub fn worked_cases()
    ensures capitals { RunsSo (first_line_usual ++ codes "\\uppercase{ab}\\end\n") (codes "{the letter A}\n{the letter B}\n") 38 Finished }
    ensures in_a_message { Writes (first_line_usual ++ codes "\\uppercase{\\message{ab}}\\lowercase{\\message{AB}}\\end\n") (codes "AB ab\n") Finished }
    ensures of_an_argument { Writes (first_line_usual ++ codes "\\def\\a#1{\\uppercase{\\message{#1}}}\\a{xy Z1}\\end\n") (codes "XY Z1\n") Finished }
    ensures small_letters_of_a_list { Writes (first_line_usual ++ codes "\\toks1={AB}\\lowercase\\expandafter{\\expandafter\\message\\expandafter{\\the\\toks1}}\\end\n") (codes "ab\n") Finished }
    ensures not_expanded { Writes (first_line_usual ++ codes "\\def\\a{b}\\uppercase{\\def\\a{c}\\message{\\a}}\\end\n") (codes "C\n") Finished }
    ensures names_stay { Writes (first_line_usual ++ codes "\\def\\a{x}\\def\\A{y}\\uppercase{\\message{\\a}}\\end\n") (codes "x\n") Finished }
    ensures active_character { Writes (first_line_usual ++ codes "\\catcode`\\~=13 \\uccode`\\~=`\\* \\catcode`\\*=13 \\def*{s}\\def~{t}\\uppercase{\\message{~}}\\end\n") (codes "s\n") Finished }
    ensures active_as_another { Writes (first_line_usual ++ codes "\\catcode`\\~=13 \\lccode`\\~=`\\* \\lowercase{\\def~{q}}\\catcode`\\*=13 \\message{*}\\end\n") (codes "q\n") Finished }
    ensures category_stays { Writes (first_line_usual ++ codes "\\uccode`\\a=`\\{ \\uppercase{\\message{a}}\\end\n") (codes "{\n") Finished }
    ensures code_of_zero { Writes (first_line_usual ++ codes "\\uccode`\\a=0 \\uppercase{\\message{ab1}}\\end\n") (codes "aB1\n") Finished }
    ensures in_a_group { Writes (first_line_usual ++ codes "{\\lccode`\\A=`\\x\\lowercase{\\message{A}}}\\lowercase{\\message{A}}\\end\n") (codes "x a\n") Finished }
    ensures closes_a_group { Writes (first_line_usual ++ codes "\\begingroup\\lccode`\\*=`\\y\\lowercase{\\endgroup\\message{*}\\def\\a{*}}\\message{\\a}\\end\n") (codes "y y\n") Finished }
    ensures empty { Writes (first_line_usual ++ codes "\\uppercase{}\\message{x}\\end\n") (codes "x\n") Finished }
    ensures keyword { Writes (first_line_usual ++ codes "\\lowercase{\\parindent=1PT }\\message{\\the\\parindent}\\end\n") (codes "1.0pt\n") Finished }
    ensures behind_relax { Writes (first_line_usual ++ codes "\\uppercase\\relax{\\message{ab}}\\end\n") (codes "AB\n") Finished }
    ensures no_brace { Writes (first_line_usual ++ codes "\\uppercase x}\\end\n") (codes "! Missing { inserted.\nl.2\n{the letter X}\n") Finished }
    ensures with_a_prefix { Writes (first_line_usual ++ codes "\\global\\uppercase{x}\\end\n") (codes "! You can't use a prefix with `\\uppercase'.\nl.2\n{the letter X}\n") Finished }
{}

/// Small files with lists of tokens within small sizes: words, levels and saved values.
pub fn worked_list_sizes()
    ensures words { Fills (record default_sizes { main_memory_size = 2 }) (first_line_usual ++ codes "\\toks1 ={ab}") (record { table = MainMemorySize; used = 2; size = 2 }) }
    ensures words_fit { Fits (record default_sizes { main_memory_size = 3 }) (first_line_usual ++ codes "\\toks1 ={ab}\\end") }
    ensures put_without_a_word { Fits (record default_sizes { main_memory_size = 3 }) (first_line_usual ++ codes "\\toks1 ={ab}\\the\\toks1 \\end") }
    ensures shared_without_a_word { Fits (record default_sizes { main_memory_size = 3 }) (first_line_usual ++ codes "\\toks0 ={xy}\\toks1 =\\toks0 {\\toks0 =\\toks1 \\global\\toks2 =\\toks0 }\\end") }
    ensures words_of_a_body { Fills (record default_sizes { main_memory_size = 6 }) (first_line_usual ++ codes "\\toks1 ={ab}\\edef\\a{\\the\\toks1 }") (record { table = MainMemorySize; used = 6; size = 6 }) }
    ensures words_of_a_body_fit { Fits (record default_sizes { main_memory_size = 7 }) (first_line_usual ++ codes "\\toks1 ={ab}\\edef\\a{\\the\\toks1 }\\end") }
    ensures words_of_a_text { Fills (record default_sizes { main_memory_size = 5 }) (first_line_usual ++ codes "\\toks1 ={ab}\\message{\\the\\toks1 }") (record { table = MainMemorySize; used = 5; size = 5 }) }
    ensures words_of_a_text_fit { Fits (record default_sizes { main_memory_size = 6 }) (first_line_usual ++ codes "\\toks1 ={ab}\\message{\\the\\toks1 }\\end") }
    ensures second_list { Fills (record default_sizes { main_memory_size = 5 }) (first_line_usual ++ codes "\\uppercase{ab}") (record { table = MainMemorySize; used = 5; size = 5 }) }
    ensures second_list_fits { Fits (record default_sizes { main_memory_size = 6 }) (first_line_usual ++ codes "\\uppercase{ab}\\end") }
    ensures beside_the_value_before { Fills (record default_sizes { main_memory_size = 5 }) (first_line_usual ++ codes "\\toks0 ={xy}\\toks0 ={zw}") (record { table = MainMemorySize; used = 5; size = 5 }) }
    ensures beside_the_value_before_fits { Fits (record default_sizes { main_memory_size = 6 }) (first_line_usual ++ codes "\\toks0 ={xy}\\toks0 ={zw}\\toks1 ={ab}\\end") }
    ensures let_go { Fits (record default_sizes { main_memory_size = 4 }) (first_line_usual ++ codes "\\toks0 ={xy}\\toks0 ={}\\toks1 ={abc}\\end") }
    ensures saved_list { Fills (record default_sizes { main_memory_size = 5 }) (first_line_usual ++ codes "\\toks0 ={x}{\\toks0 ={y}\\toks1 ={z}") (record { table = MainMemorySize; used = 5; size = 5 }) }
    ensures let_go_behind_a_group { Fits (record default_sizes { main_memory_size = 4 }) (first_line_usual ++ codes "\\toks0 ={x}{\\toks0 ={y}}\\toks1 ={z}\\end") }
    ensures level { Fills (record default_sizes { input_stack_size = 1 }) (first_line_usual ++ codes "\\toks1 ={ab}\\the\\toks1 \\end") (record { table = InputStackSize; used = 1; size = 1 }) }
    ensures level_fits { Fits (record default_sizes { input_stack_size = 2 }) (first_line_usual ++ codes "\\toks1 ={ab}\\the\\toks1 \\end") }
    ensures saved_value { Fills (record default_sizes { save_size = 1 }) (first_line_usual ++ codes "{\\toks1={a}") (record { table = SaveSize; used = 1; size = 1 }) }
    ensures saved_once { Fits (record default_sizes { save_size = 2 }) (first_line_usual ++ codes "{\\toks1={a}\\toks1=\\toks2 \\toks1={}}\\end") }
    ensures depth { Fills (record default_sizes { expansion_depth = 1 }) (first_line_usual ++ codes "\\toks1 ={a}\\end") (record { table = ExpansionDepth; used = 1; size = 1 }) }
    ensures depth_fits { Fits (record default_sizes { expansion_depth = 2 }) (first_line_usual ++ codes "\\toks1 ={a}\\end") }
    ensures depth_of_the { Fills (record default_sizes { expansion_depth = 3 }) (first_line_usual ++ codes "\\message{\\the\\toks1}\\end") (record { table = ExpansionDepth; used = 3; size = 3 }) }
    ensures depth_of_the_fits { Fits (record default_sizes { expansion_depth = 4 }) (first_line_usual ++ codes "\\message{\\the\\toks1}\\end") }
{}

/// Small files with groups within small sizes: levels, saved values and tokens, and lists that are held.
pub fn worked_group_sizes()
    ensures levels { Fills (record default_sizes { grouping_levels = 1 }) (first_line_usual ++ codes "{{") (record { table = GroupingLevels; used = 1; size = 1 }) }
    ensures levels_fit { Fits (record default_sizes { grouping_levels = 1 }) (first_line_usual ++ codes "{}{}\\end") }
    ensures saves { Fills (record default_sizes { save_size = 1 }) (first_line_usual ++ codes "{{") (record { table = SaveSize; used = 1; size = 1 }) }
    ensures saves_first { Fills (record default_sizes { save_size = 1; grouping_levels = 1 }) (first_line_usual ++ codes "{{") (record { table = SaveSize; used = 1; size = 1 }) }
    ensures saved_token { Fills (record default_sizes { save_size = 1 }) (first_line_usual ++ codes "{\\aftergroup a") (record { table = SaveSize; used = 1; size = 1 }) }
    ensures saved_token_fits { Fits (record default_sizes { save_size = 2 }) (first_line_usual ++ codes "{\\aftergroup a}\\aftergroup b\\end") }
    ensures saved_value { Fills (record default_sizes { save_size = 1 }) (first_line_usual ++ codes "{\\catcode33=12 ") (record { table = SaveSize; used = 1; size = 1 }) }
    ensures saved_once { Fits (record default_sizes { save_size = 2 }) (first_line_usual ++ codes "{\\catcode33=13 \\catcode33=12 }\\end") }
    ensures global_value { Fits (record default_sizes { save_size = 1 }) (first_line_usual ++ codes "{\\global\\catcode33=12 }\\end") }
    ensures saved_behind_a_global_value { Fills (record default_sizes { save_size = 2 }) (first_line_usual ++ codes "{\\catcode33=13 \\global\\catcode33=12 \\catcode33=13 ") (record { table = SaveSize; used = 2; size = 2 }) }
    ensures level_behind_a_group { Fills (record default_sizes { input_stack_size = 2 }) (first_line_usual ++ codes "{\\aftergroup a\\aftergroup b}") (record { table = InputStackSize; used = 2; size = 2 }) }
    ensures level_behind_a_group_fits { Fits (record default_sizes { input_stack_size = 3 }) (first_line_usual ++ codes "{\\aftergroup a\\aftergroup b}\\end") }
    ensures words_behind_a_group { Fills (record default_sizes { main_memory_size = 3 }) (first_line_usual ++ codes "{\\aftergroup a\\aftergroup b}") (record { table = MainMemorySize; used = 3; size = 3 }) }
    ensures list_of_a_saved_value { Fills (record default_sizes { main_memory_size = 8 }) (first_line_usual ++ codes "\\def\\a{x}{\\def\\a{y}\\def\\b{z}") (record { table = MainMemorySize; used = 8; size = 8 }) }
    ensures list_of_a_saved_value_fits { Fits (record default_sizes { main_memory_size = 9 }) (first_line_usual ++ codes "\\def\\a{x}{\\def\\a{y}\\def\\b{z}\\end") }
    ensures list_let_go_behind_a_group { Fits (record default_sizes { main_memory_size = 6 }) (first_line_usual ++ codes "\\def\\a{x}{\\def\\a{y}}\\def\\b{z}\\end") }
{}

/// The machine run on small files that begin others.
pub fn worked_files()
    ensures beneath { RunsBeside ((codes "b.tex", codes "y\\endinput z\nq\n") ∷ []) (first_line_usual ++ codes "\\input b x\\input b \\end\n") (codes "{the letter y}\n{the letter z}\n{blank space  }\n{the letter x}\n{the letter y}\n{the letter z}\n{blank space  }\n") 48 Finished }
    ensures missing { RunsBeside [] (first_line_usual ++ codes "\\input zz \\end\n") (codes "! I can't find file `zz.tex'.\nl.2\n! Emergency stop.\n*** (job aborted, file error in nonstop mode)\n") 34 (AtFatal NoFile) }
    ensures other_extension { RunsBeside ((codes "b.c", codes "y\n") ∷ (codes "b.tex", codes "z\n") ∷ []) (first_line_usual ++ codes "\\input b.c \\end\n") (codes "{the letter y}\n{blank space  }\n") 39 Finished }
    ensures files_within_files { RunsBeside ((codes "b.tex", codes "x\\input c y\n") ∷ (codes "c.tex", codes "z%\n") ∷ []) (first_line_usual ++ codes "\\input b \\end\n") (codes "{the letter x}\n{the letter z}\n{the letter y}\n{blank space  }\n") 43 Finished }
    ensures line_numbers { RunsBeside ((codes "b.tex", codes "\n\\zz\n") ∷ []) (first_line_usual ++ codes "\\input b \\zz\\end\n") (codes "{\\par}\n! Undefined control sequence.\nl.2\n! Undefined control sequence.\nl.2\n") 39 Finished }
    ensures empty { RunsBeside ((codes "e.tex", codes "") ∷ []) (first_line_usual ++ codes "\\input e \\end\n") (codes "{\\par}\n") 36 Finished }
    ensures ended_use { RunsBeside ((codes "b.tex", codes "\\a x\n") ∷ []) (first_line_usual ++ codes "\\def\\a#1.{}\\input b \\end\n") (codes "Runaway argument?\nx \n! File ended while scanning use of \\a.\nl.2\n") 46 Finished }
    ensures outer_behind_the_end { RunsBeside ((codes "b.tex", codes "\\a x\n") ∷ []) (first_line_usual ++ codes "\\outer\\def\\o{o}\\def\\a#1.{}\\input b \\o\\end\n") (codes "Runaway argument?\nx \n! File ended while scanning use of \\a.\nl.2\n{the letter o}\n") 54 Finished }
    ensures ended_text { RunsBeside ((codes "b.tex", codes "\\message{x\n") ∷ []) (first_line_usual ++ codes "\\input b y\\end\n") (codes "Runaway text?\nx \n! File ended while scanning text of \\message.\nl.2\nx \n{the letter y}\n") 41 Finished }
    ensures within_a_name { RunsBeside ((codes "b.tex", codes "x\n") ∷ (codes "c.tex", codes "y\n") ∷ []) (first_line_usual ++ codes "\\input b\\input c \\end\n") (codes "{the letter x}\n{blank space  }\n{the letter y}\n{blank space  }\n") 45 Finished }
    ensures behind_a_token { RunsBeside ((codes "b.tex", codes "y\n") ∷ []) (first_line_usual ++ codes "\\expandafter x\\input b \\end\n") (codes "{the letter x}\n{the letter y}\n{blank space  }\n") 40 Finished }
    ensures by_a_macro { RunsBeside ((codes "bc.tex", codes "y%\n") ∷ []) (first_line_usual ++ codes "\\def\\n{bc}\\input\\n\\relax x\\end\n") (codes "{the letter y}\n{the letter x}\n") 46 Finished }
    ensures within_a_text { RunsBeside ((codes "b.tex", codes "y}\n") ∷ []) (first_line_usual ++ codes "\\message{x\\input b z\\end\n") (codes "xy\n{blank space  }\n{the letter z}\n") 42 Finished }
    ensures ends_twice { RunsBeside ((codes "b.tex", codes "y\\endinput\\endinput z\nq\n") ∷ []) (first_line_usual ++ codes "\\input b \\end\n") (codes "{the letter y}\n{the letter z}\n{blank space  }\n") 40 Finished }
    ensures job_ends { RunsBeside [] (first_line_usual ++ codes "\\endinput x\ny\\end\n") (codes "{the letter x}\n{blank space  }\n! Emergency stop.\n*** (job aborted, no legal \\end found)\n") 33 (AtFatal NoEnd) }
    ensures job_ends_at_its_last_line { RunsBeside [] (first_line_usual ++ codes "\\endinput\\end\n") (codes "") 32 Finished }
    ensures at_the_end_of_the_job { RunsBeside ((codes "b.tex", codes "y\n") ∷ []) (first_line_usual ++ codes "\\input b \\message{x}\\end") (codes "{the letter y}\n{blank space  }\nx\n") 41 Finished }
    ensures last_in_the_job { RunsBeside ((codes "b.tex", codes "y\n") ∷ []) (first_line_usual ++ codes "\\input b") (codes "{the letter y}\n{blank space  }\n! Emergency stop.\n*** (job aborted, no legal \\end found)\n") 36 (AtFatal NoEnd) }
    ensures levels { FillsBeside default_sizes ((codes "r.tex", codes "\\input r") ∷ []) (codes "\\input r") (record { table = TextInputLevels; used = 6; size = 6 }) }
    ensures two_levels { FillsBeside (record default_sizes { text_input_levels = 1 }) ((codes "b.tex", codes "y") ∷ []) (codes "\\input b \\end") (record { table = TextInputLevels; used = 1; size = 1 }) }
    ensures stack_level { FillsBeside (record default_sizes { input_stack_size = 1 }) ((codes "b.tex", codes "y") ∷ []) (codes "\\input b \\end") (record { table = InputStackSize; used = 1; size = 1 }) }
    ensures long_line_beneath { FillsBeside (record default_sizes { buffer_size = 80 }) ((codes "b.tex", replicate 66 120) ∷ []) (first_line_usual ++ codes "\\input b \\end") (record { table = BufferSize; used = 14; size = 80 }) }
    ensures long_name { FillsBeside (record default_sizes { buffer_size = 80 }) [] (first_line_usual ++ codes "\\csname " ++ replicate 29 120 ++ codes "\\endcsname\\end") (record { table = BufferSize; used = 52; size = 80 }) }
    ensures long_name_fits { Fits (record default_sizes { buffer_size = 80 }) (first_line_usual ++ codes "\\csname " ++ replicate 28 120 ++ codes "\\endcsname\\end") }
    ensures long_file_name { FillsBeside (record default_sizes { buffer_size = 80 }) [] (first_line_usual ++ codes "\\input " ++ replicate 33 120 ++ codes "\\end") (record { table = BufferSize; used = 45; size = 80 }) }
{}

/// Small files that begin others, within small sizes: text input levels and the buffer.
pub fn worked_file_sizes()
    ensures no_level { FillsBeside (record default_sizes { text_input_levels = 0 }) ((codes "b.tex", codes "y") ∷ []) (codes "\\input b \\end") (record { table = TextInputLevels; used = 1; size = 0 }) }
    ensures no_level_for_a_missing_file { FillsBeside (record default_sizes { text_input_levels = 1 }) [] (codes "\\input b \\end") (record { table = TextInputLevels; used = 1; size = 1 }) }
    ensures two_levels_fit { FitsBeside (record default_sizes { text_input_levels = 2 }) ((codes "b.tex", codes "y") ∷ []) (codes "\\input b \\input b \\end") }
    ensures level_goes_with_its_file { FitsBeside (record default_sizes { text_input_levels = 2; input_stack_size = 2 }) ((codes "b.tex", codes "%") ∷ (codes "c.tex", codes "y%") ∷ []) (codes "\\input b \\input c \\input b \\end") }
    ensures no_buffer { Fills (record default_sizes { buffer_size = 0 }) (codes "\\end") (record { table = BufferSize; used = 0; size = 0 }) }
    ensures buffer_of_one { Fills (record default_sizes { buffer_size = 1 }) (codes "\\end") (record { table = BufferSize; used = 0; size = 1 }) }
    ensures line_is_one_too_long { Fills (record default_sizes { buffer_size = 4 }) (codes "\\end") (record { table = BufferSize; used = 0; size = 4 }) }
    ensures line_fits { Fits (record default_sizes { buffer_size = 5 }) (codes "\\end") }
    ensures two_lines_fit { FitsBeside (record default_sizes { buffer_size = 19 }) ((codes "b.tex", codes "abcd") ∷ []) (codes "\\input b \\end") }
    ensures two_lines_are_one_too_long { FillsBeside (record default_sizes { buffer_size = 19 }) ((codes "b.tex", codes "abcde") ∷ []) (codes "\\input b \\end") (record { table = BufferSize; used = 14; size = 19 }) }
    ensures name_is_one_too_long { FillsBeside (record default_sizes { buffer_size = 18 }) ((codes "b.tex", codes "") ∷ []) (codes "\\input b \\end") (record { table = BufferSize; used = 14; size = 18 }) }
{}

/// The machine run on small files with conditionals: their branches and cases, and those that are open at the end.
pub fn worked_conditionals()
    ensures branches { Writes (first_line_usual ++ codes "\\message{\\ifnum1<2 a\\else b\\fi\\ifcase2 x\\or y\\or z\\else w\\fi\\if aab\\fi}\\end\n") (codes "azb\n") Finished }
    ensures steps_of_a_test { RunsSo (first_line_usual ++ codes "\\ifnum1<2 \\fi \\end\n") (codes "") 38 Finished }
    ensures steps_of_a_case { RunsSo (first_line_usual ++ codes "\\ifcase2 a\\or b\\or c\\else d\\fi \\end\n") (codes "{the letter c}\n") 42 Finished }
    ensures extra_fi { Writes (first_line_usual ++ codes "\\fi\\end\n") (codes "! Extra \\fi.\nl.2\n") Finished }
    ensures extra_else { Writes (first_line_usual ++ codes "\\else\\end\n") (codes "! Extra \\else.\nl.2\n") Finished }
    ensures extra_or { Writes (first_line_usual ++ codes "\\or\\end\n") (codes "! Extra \\or.\nl.2\n") Finished }
    ensures other_branch { Writes (first_line_usual ++ codes "\\iffalse a\\else b\\fi c\\end\n") (codes "{the letter b}\n{the letter c}\n") Finished }
    ensures inner_conditional_skipped { Writes (first_line_usual ++ codes "\\iffalse\\if\\fi x\\fi\\end\n") (codes "") Finished }
    ensures inner_else_skipped { Writes (first_line_usual ++ codes "\\iffalse\\iftrue a\\else b\\fi c\\else d\\fi\\end\n") (codes "{the letter d}\n") Finished }
    ensures else_skipped { Writes (first_line_usual ++ codes "\\iftrue a\\else\\iftrue b\\else c\\fi d\\fi e\\end\n") (codes "{the letter a}\n{the letter e}\n") Finished }
    ensures further_else_skipped { Writes (first_line_usual ++ codes "\\iftrue a\\else b\\else c\\or d\\fi e\\end\n") (codes "{the letter a}\n{the letter e}\n") Finished }
    ensures further_else_read { Writes (first_line_usual ++ codes "\\iffalse a\\else b\\else c\\fi\\end\n") (codes "{the letter b}\n! Extra \\else.\nl.2\n{the letter c}\n") Finished }
    ensures or_of_a_false_test { Writes (first_line_usual ++ codes "\\iffalse a\\or b\\fi c\\end\n") (codes "! Extra \\or.\nl.2\n{the letter c}\n") Finished }
    ensures or_of_a_true_test { Writes (first_line_usual ++ codes "\\iftrue a\\or b\\fi\\end\n") (codes "{the letter a}\n! Extra \\or.\nl.2\n{the letter b}\n") Finished }
    ensures first_case { Writes (first_line_usual ++ codes "\\ifcase0 a\\or b\\or c\\fi d\\end\n") (codes "{the letter a}\n{the letter d}\n") Finished }
    ensures last_case { Writes (first_line_usual ++ codes "\\ifcase2 a\\or b\\or c\\fi d\\end\n") (codes "{the letter c}\n{the letter d}\n") Finished }
    ensures no_case { Writes (first_line_usual ++ codes "\\ifcase3 a\\or b\\or c\\fi d\\end\n") (codes "{the letter d}\n") Finished }
    ensures other_case { Writes (first_line_usual ++ codes "\\ifcase9 a\\or b\\else c\\fi d\\end\n") (codes "{the letter c}\n{the letter d}\n") Finished }
    ensures or_behind_the_other_case { Writes (first_line_usual ++ codes "\\ifcase9 a\\else b\\or c\\fi\\end\n") (codes "{the letter b}\n! Extra \\or.\nl.2\n{the letter c}\n") Finished }
    ensures negative_case { Writes (first_line_usual ++ codes "\\ifcase-1 a\\else b\\fi\\end\n") (codes "{the letter b}\n") Finished }
    ensures ors_of_a_negative_case { Writes (first_line_usual ++ codes "\\ifcase-1 a\\or b\\else c\\fi\\end\n") (codes "{the letter c}\n") Finished }
    ensures case_in_a_case { Writes (first_line_usual ++ codes "\\ifcase1 \\ifcase5 a\\or b\\else c\\fi\\or d\\or e\\fi\\end\n") (codes "{the letter d}\n") Finished }
    ensures unbalanced { Writes (first_line_usual ++ codes "\\ifnum1=2 {\\else }\\fi\\end\n") (codes "! Too many }'s.\nl.2\n") Finished }
    ensures not_expanded_where_skipped { Writes (first_line_usual ++ codes "\\def\\a{\\fi}\\iffalse\\a\\undefined\\else b\\fi\\end\n") (codes "{the letter b}\n") Finished }
    ensures steps_of_skipped_text { RunsSo (first_line_usual ++ codes "\\iffalse abc\\fi\\end\n") (codes "") 36 Finished }
    ensures fi_in_a_test { RunsSo (first_line_usual ++ codes "\\ifnum1<2\\fi\\end\n") (codes "") 40 Finished }
    ensures fi_for_a_character { Writes (first_line_usual ++ codes "\\if a\\fi b\\else c\\fi\\end\n") (codes "{the letter b}\n! Extra \\else.\nl.2\n{the letter c}\n! Extra \\fi.\nl.2\n") Finished }
    ensures else_in_a_test { Writes (first_line_usual ++ codes "\\ifnum1<\\else a\\fi\\end\n") (codes "! Missing number, treated as zero.\nl.2\n{the letter a}\n") Finished }
    ensures left_open_by_a_false_test { Writes (first_line_usual ++ codes "\\ifnum1=2\\iftrue A\\else B\\fi C\\else D\\fi\\end\n") (codes "{the letter D}\n") Finished }
    ensures left_open_by_a_true_test { Writes (first_line_usual ++ codes "\\ifnum1=1\\iftrue A\\else B\\fi C\\else D\\fi\\end\n") (codes "{the letter A}\n{the letter C}\n") Finished }
    ensures left_open_by_the_number_of_a_case { Writes (first_line_usual ++ codes "\\ifcase1\\iftrue A\\or B\\fi C\\or D\\fi\\end\n") (codes "{the letter D}\n") Finished }
    ensures fi_behind_expandafter { Writes (first_line_usual ++ codes "\\iftrue\\expandafter a\\fi\\end\n") (codes "{the letter a}\n") Finished }
    ensures else_behind_expandafter { Writes (first_line_usual ++ codes "\\iftrue\\expandafter a\\else b\\fi c\\end\n") (codes "{the letter a}\n{the letter c}\n") Finished }
    ensures test_behind_expandafter { Writes (first_line_usual ++ codes "\\expandafter a\\iffalse b\\else c\\fi\\end\n") (codes "{the letter a}\n{the letter c}\n") Finished }
    ensures in_an_expanded_body { Writes (first_line_usual ++ codes "\\edef\\a{\\iftrue b\\else c\\fi}\\message{\\meaning\\a}\\end\n") (codes "macro:->b\n") Finished }
    ensures in_a_number { Writes (first_line_usual ++ codes "\\message{\\number\\ifodd3 12\\else34\\fi}\\end\n") (codes "12\n") Finished }
    ensures in_a_name { Writes (first_line_usual ++ codes "\\message{\\csname a\\iffalse b\\else c\\fi\\endcsname}\\end\n") (codes "\\ac \n") Finished }
    ensures of_an_argument { Writes (first_line_usual ++ codes "\\def\\a#1{\\iftrue#1\\fi}\\message{\\a{xy}}\\end\n") (codes "xy\n") Finished }
    ensures counted_loop { Writes (first_line_usual ++ codes "\\def\\a{\\ifnum\\count1<2 x\\advance\\count1 by1 \\expandafter\\a\\fi}\\a\\end\n") (codes "{the letter x}\n{the letter x}\n") Finished }
    ensures by_other_names { Writes (first_line_usual ++ codes "\\let\\a=\\iffalse\\let\\b=\\else\\let\\c=\\fi\\a x\\b y\\c\\c\\end\n") (codes "{the letter y}\n! Extra \\fi.\nl.2\n") Finished }
    ensures constants { Writes (first_line_usual ++ codes "\\message{\\ifvmode v\\fi\\ifhmode h\\fi\\ifmmode m\\fi\\ifinner i\\fi\\iftrue t\\fi\\iffalse f\\fi}\\end\n") (codes "vt\n") Finished }
    ensures boxes { Writes (first_line_usual ++ codes "\\message{\\ifvoid1 v\\fi\\ifhbox1 h\\fi\\ifvbox1 b\\fi}\\end\n") (codes "v\n") Finished }
    ensures no_box { Writes (first_line_usual ++ codes "\\message{\\ifvoid256 v\\fi}\\end\n") (codes "! Bad register code (256).\nl.2\nv\n") Finished }
    ensures open_at_the_end { Writes (first_line_usual ++ codes "\\iftrue\\iftrue\\end\n") (codes "(\\end occurred when \\iftrue on line 2 was incomplete)\n(\\end occurred when \\iftrue on line 2 was incomplete)\n") Finished }
    ensures lines_of_the_open { Writes (first_line_usual ++ codes "\\message{m}\\ifnum1=1\n\\ifcase1 {\n\\else{\\end\n") (codes "m\n(\\end occurred inside a group at level 1)\n(\\end occurred when \\ifcase on line 3 was incomplete)\n(\\end occurred when \\ifnum on line 2 was incomplete)\n") Finished }
    ensures begun_behind_the_end_of_the_file { Writes (first_line_usual ++ codes "\\def\\x{\\iftrue\\end}\\afterassignment\\x\\def\\a{\n") (codes "Runaway definition?\n-> \n! File ended while scanning definition of \\a.\nl.0\n(\\end occurred when \\iftrue on line 0 was incomplete)\n") Finished }
    ensures escape_character_at_the_end { Writes (first_line_usual ++ codes "\\escapechar=`\\/ \\iftrue\\fi\\fi\\iffalse\\else\\end\n") (codes "! Extra /fi.\nl.2\n(/end occurred when /iffalse on line 2 was incomplete)\n") Finished }
{}

/// The machine run on small files with text that is skipped where a file ends, or the name of an `\outer` macro comes.
pub fn worked_incomplete_conditionals()
    ensures no_more { Writes (first_line_usual ++ codes "\\ifnum\\count1=2 \n") (codes "! Incomplete \\ifnum; all text was ignored after line 2.\nl.0\n! Emergency stop.\n*** (job aborted, no legal \\end found)\n") (AtFatal NoEnd) }
    ensures no_more_behind_an_else { Writes (first_line_usual ++ codes "\\iftrue a\\else b\n") (codes "{the letter a}\n! Incomplete \\iftrue; all text was ignored after line 2.\nl.0\n! Emergency stop.\n*** (job aborted, no legal \\end found)\n") (AtFatal NoEnd) }
    ensures no_more_in_a_message { Writes (first_line_usual ++ codes "\\message{a\\iffalse b\n") (codes "! Incomplete \\iffalse; all text was ignored after line 2.\nl.0\n! Emergency stop.\n*** (job aborted, no legal \\end found)\n") (AtFatal NoEnd) }
    ensures no_more_of_a_conditional_within { Writes (first_line_usual ++ codes "\\iffalse\n\\iftrue\\else\n") (codes "! Incomplete \\iffalse; all text was ignored after line 2.\nl.0\n! Emergency stop.\n*** (job aborted, no legal \\end found)\n") (AtFatal NoEnd) }
    ensures line_of_the_present_text { Writes (first_line_usual ++ codes "\\ifcase2 a\n\\or b\nc\n") (codes "! Incomplete \\ifcase; all text was ignored after line 3.\nl.0\n! Emergency stop.\n*** (job aborted, no legal \\end found)\n") (AtFatal NoEnd) }
    ensures line_behind_an_extra_or { Writes (first_line_usual ++ codes "\\iffalse a\nb\\or c\nd\n") (codes "! Extra \\or.\nl.3\n! Incomplete \\iffalse; all text was ignored after line 3.\nl.0\n! Emergency stop.\n*** (job aborted, no legal \\end found)\n") (AtFatal NoEnd) }
    ensures name_of_the_innermost { Writes (first_line_usual ++ codes "\\ifnum1=2\\iftrue a\n") (codes "! Incomplete \\iftrue; all text was ignored after line 2.\nl.0\n! Emergency stop.\n*** (job aborted, no legal \\end found)\n") (AtFatal NoEnd) }
    ensures outer_name { Writes (first_line_usual ++ codes "\\outer\\def\\o{}\\ifnum1=2 \\o\\fi\\end\n") (codes "! Incomplete \\ifnum; all text was ignored after line 2.\nl.2\n! Extra \\fi.\nl.2\n") Finished }
    ensures outer_name_is_put_back { Writes (first_line_usual ++ codes "\\outer\\def\\o{x}\\iffalse\n\\o\\end\n") (codes "! Incomplete \\iffalse; all text was ignored after line 2.\nl.3\n{the letter x}\n") Finished }
    ensures outer_name_in_a_conditional_within { Writes (first_line_usual ++ codes "\\outer\\def\\o{x}\\iffalse\\if\\o\\fi\\end\n") (codes "! Incomplete \\iffalse; all text was ignored after line 2.\nl.2\n! Incomplete \\iffalse; all text was ignored after line 2.\nl.2\n{the letter x}\n! Extra \\fi.\nl.2\n") Finished }
    ensures outer_name_behind_an_else { Writes (first_line_usual ++ codes "\\outer\\def\\o{x}\\iftrue a\\else\\o\\fi\\end\n") (codes "{the letter a}\n! Incomplete \\iftrue; all text was ignored after line 2.\nl.2\n{the letter x}\n! Extra \\fi.\nl.2\n") Finished }
    ensures outer_name_in_a_text { Writes (first_line_usual ++ codes "\\outer\\def\\o{x}\\message{a\\iffalse\\o\\fi b}\\end\n") (codes "! Incomplete \\iffalse; all text was ignored after line 2.\nl.2\nRunaway text?\na\n! Forbidden control sequence found while scanning text of \\message.\nl.2\na \n{the letter x}\n! Extra \\fi.\nl.2\n{the letter b}\n! Too many }'s.\nl.2\n") Finished }
    ensures outer_name_in_a_true_branch { Writes (first_line_usual ++ codes "\\outer\\def\\o{x}\\iftrue\\o\\fi\\end\n") (codes "{the letter x}\n") Finished }
    ensures no_more_in_a_test { Writes (first_line_usual ++ codes "\\ifnum1=\n") (codes "! Emergency stop.\n*** (job aborted, no legal \\end found)\n") (AtFatal NoEnd) }
    ensures skipping_enters_no_names { Enters (first_line_usual ++ codes "\\iffalse\\foo\\else\\let\\baz=\\relax\\fi\\end\n") (codes "baz" ∷ []) }
    ensures in_a_file_beneath_another { RunsBeside ((codes "b.tex", codes "\\iffalse x\n") ∷ []) (first_line_usual ++ codes "\\input b \\message{m}\\end\n") (codes "! Incomplete \\iffalse; all text was ignored after line 1.\nl.2\nm\n") 43 Finished }
{}

/// The machine run on small files with tests: numbers, characters, and what two tokens mean.
pub fn worked_comparisons()
    ensures relations { Writes (first_line_usual ++ codes "\\message{\\ifnum1<2 a\\fi\\ifnum2<1 b\\fi\\ifnum2=2 c\\fi\\ifnum2=3 d\\fi\\ifnum3>-4 e\\fi\\ifnum-4>3 f\\fi}\\end\n") (codes "ace\n") Finished }
    ensures spaces_before_a_relation { Writes (first_line_usual ++ codes "\\count1=2 \\message{\\ifnum\\count1 = 2 y\\else n\\fi}\\end\n") (codes "y\n") Finished }
    ensures relation_of_a_macro { Writes (first_line_usual ++ codes "\\def\\r{<}\\message{\\ifnum1\\r2 y\\else n\\fi}\\end\n") (codes "y\n") Finished }
    ensures no_relation { Writes (first_line_usual ++ codes "\\message{\\ifnum1a2 y\\else n\\fi}\\end\n") (codes "! Missing = inserted for \\ifnum.\nl.2\n! Missing number, treated as zero.\nl.2\nn\n") Finished }
    ensures relation_taken { Writes (first_line_usual ++ codes "\\count1=1 \\message{\\ifnum1\\count1 y\\else n\\fi\\ifdim1pt\\count1pt y\\else n\\fi}\\end\n") (codes "! Missing = inserted for \\ifnum.\nl.2\n! Missing = inserted for \\ifdim.\nl.2\nyy\n") Finished }
    ensures relation_of_another_category { Writes (first_line_usual ++ codes "\\catcode`\\<=11 \\message{\\ifnum1<2 y\\else n\\fi}\\end\n") (codes "! Missing = inserted for \\ifnum.\nl.2\n! Missing number, treated as zero.\nl.2\nn\n") Finished }
    ensures implicit_relation { Writes (first_line_usual ++ codes "\\let\\r=<\\message{\\ifnum1\\r2 y\\else n\\fi}\\end\n") (codes "! Missing = inserted for \\ifnum.\nl.2\n! Missing number, treated as zero.\nl.2\nn\n") Finished }
    ensures equal_dimensions { Writes (first_line_usual ++ codes "\\ifdim1pt=65536sp y\\fi\\end\n") (codes "{the letter y}\n") Finished }
    ensures greater_dimension { Writes (first_line_usual ++ codes "\\ifdim2pt<1pt y\\else n\\fi\\end\n") (codes "{the letter n}\n") Finished }
    ensures odd_numbers { Writes (first_line_usual ++ codes "\\message{\\ifodd3 a\\fi\\ifodd2 b\\fi\\ifodd-3 c\\fi\\ifodd0 d\\fi\\ifodd-2147483647 e\\fi}\\end\n") (codes "ace\n") Finished }
    ensures same_codes { Writes (first_line_usual ++ codes "\\message{\\if aay\\fi\\if aby\\else n\\fi\\if 1\\number1y\\fi}\\end\n") (codes "yny\n") Finished }
    ensures codes_of_a_macro { Writes (first_line_usual ++ codes "\\def\\a{xx}\\message{\\if\\a y\\else n\\fi}\\end\n") (codes "y\n") Finished }
    ensures codes_of_names { Writes (first_line_usual ++ codes "\\message{\\if\\relax\\par y\\else n\\fi\\if\\relax ay\\else n\\fi}\\end\n") (codes "yn\n") Finished }
    ensures codes_of_implicit_characters { Writes (first_line_usual ++ codes "\\let\\b=a\\message{\\if\\b ay\\else n\\fi\\if\\b by\\else n\\fi}\\end\n") (codes "yn\n") Finished }
    ensures codes_of_given_characters { Writes (first_line_usual ++ codes "\\chardef\\b=97 \\message{\\if\\b ay\\else n\\fi\\if\\b\\relax y\\else n\\fi}\\end\n") (codes "ny\n") Finished }
    ensures no_code { Writes (first_line_usual ++ codes "\\message{\\if\\undefined aay\\else n\\fi}\\end\n") (codes "! Undefined control sequence.\nl.2\ny\n") Finished }
    ensures same_categories { Writes (first_line_usual ++ codes "\\message{\\ifcat aby\\else n\\fi\\ifcat a1y\\else n\\fi\\ifcat\\relax\\par y\\else n\\fi\\ifcat a\\relax y\\else n\\fi}\\end\n") (codes "ynyn\n") Finished }
    ensures categories_of_implicit_characters { Writes (first_line_usual ++ codes "\\let\\b=a\\message{\\ifcat\\b cy\\else n\\fi\\ifcat\\b1y\\else n\\fi}\\end\n") (codes "yn\n") Finished }
    ensures category_by_the_character { Writes (first_line_usual ++ codes "\\message{\\ifcat{}n\\else y\\fi\\ifcat##y\\else n\\fi}\\end\n") (codes "yy\n") Finished }
    ensures marked_name { Writes (first_line_usual ++ codes "\\message{\\if\\noexpand\\a\\relax y\\else n\\fi\\ifcat\\noexpand\\a\\relax y\\else n\\fi}\\end\n") (codes "yy\n") Finished }
    ensures marked_active_character { Writes (first_line_usual ++ codes "\\catcode`\\~=13 \\def~{x}\\message{\\if\\noexpand~\\relax y\\else n\\fi\\if\\noexpand~\\noexpand~y\\else n\\fi\\ifcat\\noexpand~\\relax y\\else n\\fi\\ifcat\\noexpand~\\noexpand~y\\else n\\fi}\\end\n") (codes "nyny\n") Finished }
    ensures two_marked_active_characters { Writes (first_line_usual ++ codes "\\catcode`\\~=13 \\catcode`\\!=13 \\message{\\if\\noexpand~\\noexpand!y\\else n\\fi\\ifcat\\noexpand~\\noexpand!y\\else n\\fi}\\end\n") (codes "ny\n") Finished }
    ensures active_character_that_means_relax { Writes (first_line_usual ++ codes "\\catcode`\\~=13 \\let~=\\relax\\message{\\if~\\relax y\\else n\\fi\\ifcat\\noexpand~\\relax y\\else n\\fi}\\end\n") (codes "yy\n") Finished }
    ensures macros { Writes (first_line_usual ++ codes "\\def\\a{x}\\def\\b{x}\\def\\c{y}\\message{\\ifx\\a\\b y\\else n\\fi\\ifx\\a\\c y\\else n\\fi\\ifx\\a\\a y\\else n\\fi}\\end\n") (codes "yny\n") Finished }
    ensures flags { Writes (first_line_usual ++ codes "\\def\\a{x}\\long\\def\\b{x}\\outer\\def\\c{x}\\message{\\ifx\\a\\b y\\else n\\fi}\\ifx\\a\\c Y\\else N\\fi\\end\n") (codes "n\n{the letter N}\n") Finished }
    ensures same_flags { Writes (first_line_usual ++ codes "\\long\\def\\a{x}\\long\\def\\b{x}\\outer\\def\\c{x}\\outer\\def\\d{x}\\message{\\ifx\\a\\b y\\else n\\fi}\\ifx\\c\\d Y\\else N\\fi\\end\n") (codes "y\n{the letter Y}\n") Finished }
    ensures parameter_texts { Writes (first_line_usual ++ codes "\\def\\a#1{#1}\\def\\b#1{#1}\\def\\c#1.{#1}\\message{\\ifx\\a\\b y\\else n\\fi\\ifx\\a\\c y\\else n\\fi}\\end\n") (codes "yn\n") Finished }
    ensures characters_of_places { Writes (first_line_usual ++ codes "\\catcode`\\!=6 \\def\\a#1{#1}\\def\\b!1{!1}\\message{\\ifx\\a\\b y\\else n\\fi}\\end\n") (codes "n\n") Finished }
    ensures categories_in_bodies { Writes (first_line_usual ++ codes "\\def\\a{z}\\catcode`\\z=12 \\def\\b{z}\\message{\\ifx\\a\\b y\\else n\\fi}\\end\n") (codes "n\n") Finished }
    ensures copy_of_a_macro { Writes (first_line_usual ++ codes "\\def\\a{x}\\let\\b=\\a\\message{\\ifx\\a\\b y\\else n\\fi}\\end\n") (codes "y\n") Finished }
    ensures empty_macros { Writes (first_line_usual ++ codes "\\def\\a{}\\def\\b{}\\def\\c#1{}\\message{\\ifx\\a\\b y\\else n\\fi\\ifx\\a\\c y\\else n\\fi\\ifx\\a\\relax y\\else n\\fi}\\end\n") (codes "ynn\n") Finished }
    ensures not_expanded_by_ifx { Writes (first_line_usual ++ codes "\\def\\a{x}\\message{\\ifx\\a xy\\else n\\fi}\\end\n") (codes "n\n") Finished }
    ensures undefined_names { Writes (first_line_usual ++ codes "\\message{\\ifx\\foo\\baz y\\else n\\fi\\ifx\\foo\\relax y\\else n\\fi}\\end\n") (codes "yn\n") Finished }
    ensures marked_name_is_not_relax { Writes (first_line_usual ++ codes "\\message{\\expandafter\\ifx\\noexpand\\a\\relax y\\else n\\fi}\\end\n") (codes "n\n") Finished }
    ensures marked_names { Writes (first_line_usual ++ codes "\\message{\\expandafter\\expandafter\\expandafter\\ifx\\expandafter\\noexpand\\expandafter\\a\\noexpand\\b y\\else n\\fi}\\end\n") (codes "y\n") Finished }
    ensures primitives { Writes (first_line_usual ++ codes "\\let\\a=\\def\\message{\\ifx\\a\\def y\\else n\\fi\\ifx\\fi\\fi y\\else n\\fi\\ifx\\fi\\or y\\else n\\fi}\\end\n") (codes "yyn\n") Finished }
    ensures characters { Writes (first_line_usual ++ codes "\\let\\b=a\\message{\\ifx aay\\else n\\fi\\ifx aby\\else n\\fi\\ifx\\b ay\\else n\\fi\\ifx a1y\\else n\\fi}\\end\n") (codes "ynyn\n") Finished }
    ensures given_characters { Writes (first_line_usual ++ codes "\\chardef\\a=97 \\chardef\\b=97 \\mathchardef\\c=97 \\message{\\ifx\\a\\b y\\else n\\fi\\ifx\\a\\c y\\else n\\fi\\ifx\\a ay\\else n\\fi}\\end\n") (codes "ynn\n") Finished }
    ensures registers { Writes (first_line_usual ++ codes "\\countdef\\a=5 \\countdef\\b=5 \\dimendef\\c=5 \\message{\\ifx\\a\\b y\\else n\\fi\\ifx\\a\\c y\\else n\\fi\\ifx\\a\\count y\\else n\\fi}\\end\n") (codes "ynn\n") Finished }
    ensures enters_no_names { Enters (first_line_usual ++ codes "\\ifx\\foo\\baz\\fi\\end\n") [] }
    ensures enters_no_name_with_one_that_is_known { Enters (first_line_usual ++ codes "\\def\\foo{}\\ifx\\foo\\baz\\fi\\ifx\\baz\\foo\\fi\\end\n") (codes "foo" ∷ []) }
{}

/// Small files with conditionals within small sizes.
pub fn worked_condition_sizes()
    ensures two_open { Fills (record default_sizes { condition_stack_size = 1 }) (codes "\\iftrue\\iftrue\\end") (record { table = ConditionStackSize; used = 1; size = 1 }) }
    ensures two_open_fit { Fits (record default_sizes { condition_stack_size = 2 }) (codes "\\iftrue\\iftrue\\end") }
    ensures none_open { Fills (record default_sizes { condition_stack_size = 0 }) (codes "\\iffalse\\fi\\end") (record { table = ConditionStackSize; used = 0; size = 0 }) }
    ensures closed { Fits (record default_sizes { condition_stack_size = 1 }) (codes "\\iftrue\\fi\\iffalse\\fi\\iffalse\\else\\fi\\end") }
    ensures deep { Fills (record default_sizes { condition_stack_size = 9 }) (first_line_usual ++ codes "\\def\\a{\\iftrue\\a}\\a") (record { table = ConditionStackSize; used = 9; size = 9 }) }
    ensures skipped { Fits (record default_sizes { condition_stack_size = 1 }) (codes "\\iffalse\\iftrue\\iftrue\\fi\\fi\\fi\\end") }
    ensures within_a_test { Fills (record default_sizes { condition_stack_size = 1 }) (codes "\\ifnum\\iftrue1\\fi=1 \\fi\\end") (record { table = ConditionStackSize; used = 1; size = 1 }) }
    ensures within_a_test_fit { Fits (record default_sizes { condition_stack_size = 2; expansion_depth = 3 }) (codes "\\ifnum\\iftrue1\\fi=1 \\fi\\end") }
    ensures depth_first { Fills (record default_sizes { expansion_depth = 0; condition_stack_size = 0 }) (codes "\\iftrue\\end") (record { table = ExpansionDepth; used = 0; size = 0 }) }
    ensures then_the_conditional { Fills (record default_sizes { expansion_depth = 1; condition_stack_size = 0 }) (codes "\\iftrue\\end") (record { table = ConditionStackSize; used = 0; size = 0 }) }
    ensures test_ended_before_skipping { Fits (record default_sizes { expansion_depth = 1 }) (codes "\\iffalse\\fi\\end") }
    ensures skipping_below_a_token { Fills (record default_sizes { expansion_depth = 1 }) (codes "\\iftrue\\expandafter\\relax\\else\\fi\\end") (record { table = ExpansionDepth; used = 1; size = 1 }) }
    ensures skipping_below_a_token_fits { Fits (record default_sizes { expansion_depth = 2 }) (codes "\\iftrue\\expandafter\\relax\\else\\fi\\end") }
    ensures levels_of_a_fi_in_a_test { Fills (record default_sizes { input_stack_size = 2 }) (codes "\\ifnum1<2\\fi\\end") (record { table = InputStackSize; used = 2; size = 2 }) }
    ensures levels_of_a_fi_in_a_test_fit { Fits (record default_sizes { input_stack_size = 3 }) (codes "\\ifnum1<2\\fi\\end") }
    ensures words_of_a_fi_in_a_test { Fills (record default_sizes { main_memory_size = 3 }) (codes "\\ifnum1<2\\fi\\end") (record { table = MainMemorySize; used = 3; size = 3 }) }
    ensures words_of_a_fi_in_a_test_fit { Fits (record default_sizes { main_memory_size = 4 }) (codes "\\ifnum1<2\\fi\\end") }
    ensures no_words_of_skipped_text { Fits (record default_sizes { main_memory_size = 1 }) (codes "\\iffalse abc\\iftrue\\fi\\else\\fi\\end") }
{}
