// Laws of integers in the words of *The TeXbook*: the functions have no bodies, their contracts are the laws.
ghost use Rattle.scan_numbers.specs.Laws.{DigitsAreRead, TextsAreReadBack};
ghost use Rattle.scan_numbers.specs.Worked.{WorkedConstants};

/// Behind decimal digits the value is the number that they spell, up to 2147483647; above it the report comes once, at the digit,
/// and the digits behind are dropped.
pub fn digits_are_read()
    ensures { DigitsAreRead }
{}

/// What `\number` writes of an integer, each character of category 12, is read as that integer again.
pub fn texts_are_read_back()
    ensures { TextsAreReadBack }
{}

/// Octal and hexadecimal constants and character codes, worked out token by token by the definition.
pub fn constants_are_read()
    ensures { WorkedConstants }
{}
