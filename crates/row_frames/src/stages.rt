// What a stage asks for at first, and what it makes of a token and of a value.
ghost use Rattle.std.specs.Prelude.{◌≡◌, None};
ghost use Rattle.plain_tokens.specs.Tokens as plain;
ghost use Rattle.plain_tokens.specs.Names as names;
ghost use Rattle.rows.specs.Tokens as tokens;
ghost use Rattle.rows.specs.Stages as stages;
ghost use Rattle.rows.specs.Table as table;
ghost use Rattle.rows.specs.declared.stage.Stage.TheVariants as stage;
ghost use Rattle.row_frames.specs.Data.{values};

use crate::data::{Data, location, name};
use prim_table::{Class, first_number, last_number};
use rows::{
    Bank, Call, Complaint, Datum, DimenKind, Got, Head, Internal, Met, Next, Note, Phrase, Prefix,
    Relation, Stage, Start, Value, byte_of, find_row, list_of, number_in, value_of, value_stage,
    variable_of,
};
use tex_defs::{Frozen, Meaning, Name, Seen, Token};
use tex_syntax::{Report, Want};

/// The numbers of the primitives `\relax`, `\long`, `\outer`, `\global`, `\def`, `\xdef` and `\the`.
const RELAX: u16 = 1;

const LONG: u16 = 23;

const OUTER: u16 = 24;

const GLOBAL: u16 = 25;

const DEF: u16 = 26;

const XDEF: u16 = 29;

const THE: u16 = 62;

/// What is inserted where a name is missing.
const INACCESSIBLE: Token = Token::Named(Name::Frozen(Frozen::Inaccessible));

/// Whether it is `=`.
fn is_equals(x: Seen) -> bool
    ensures { result ≡ tokens.is_equals x }
{
    match x.token {
        Token::Char { cat, code } => cat == 12 && code == b'=',
        _ => false,
    }
}

/// Whether it is a space token.
fn is_space_token(token: Token) -> bool
    ensures { result ≡ plain.is_space_token token }
{
    match token {
        Token::Char { cat, code } => cat == 10 && code == b' ',
        _ => false,
    }
}

/// Whether it is a space, perhaps an implicit one.
fn is_space(x: Seen) -> bool
    ensures { result ≡ plain.is_space x }
{
    match x.meaning {
        Meaning::Char { cat, .. } => cat == 10,
        _ => false,
    }
}

/// Whether it is a character.
fn is_character(token: Token) -> bool
    ensures { result ≡ tokens.is_character token }
{
    match token {
        Token::Char { .. } => true,
        _ => false,
    }
}

/// The name that may be assigned: no frozen one, but for `\inaccessible`.
fn name_to_assign(token: Token) -> Option<Name>
    ensures { result ≡ tokens.name_to_assign token }
{
    match token {
        Token::Named(Name::Frozen(Frozen::Inaccessible)) => Some(Name::Frozen(
            Frozen::Inaccessible,
        )),
        Token::Named(Name::Frozen(_)) => None,
        Token::Named(name) => Some(name),
        _ => None,
    }
}

/// A number that may be out of its range, where it is reported and 0 taken.
fn ranged(complaint: Complaint, greatest: u32, n: i32) -> Got
    ensures { result ≡ stages.ranged complaint greatest n }
{
    if n >= 0 && n.unsigned_abs() <= greatest {
        return Got::Takes(Datum::Number(n));
    }
    let report = match complaint {
        Complaint::BadCharacterCode => Report::BadCharacterCode(n),
        Complaint::BadRegisterCode => Report::BadRegisterCode(n),
        Complaint::BadMathchar => Report::BadMathchar(n),
        Complaint::InvalidCode => Report::InvalidCode(n, greatest),
    };
    Got::Tells(report, Next::Takes(Datum::Number(0)))
}

/// A number that may be too great, where it is reported and 0 taken.
fn bounded(greatest: u32, n: i32) -> Got
    ensures { result ≡ stages.bounded greatest n }
{
    if n < 0 || n.unsigned_abs() <= greatest {
        return Got::Takes(Datum::Number(n));
    }
    Got::Tells(
        Report::CodeTooGreat(n, greatest),
        Next::Takes(Datum::Number(0)),
    )
}

/// `\inaccessible` takes the place of a name that is missing.
fn missing_name(token: Token) -> Met
    ensures { result ≡ stages.named token None }
{
    Met::Retries(Note::Inserts(INACCESSIBLE, Report::MissingName, is_character(token)))
}

/// The name that is assigned.
fn control_sequence(call: Call, x: Seen) -> Met
    ensures { result ≡ stages.name_met call x }
{
    if is_space_token(x.token) {
        return Met::Skips(call);
    }
    match name_to_assign(x.token) {
        Some(name) => Met::Takes(Datum::Named(name)),
        None => missing_name(x.token),
    }
}

/// The name that a shorthand definition defines, which becomes `\relax`.
fn new_name(call: Call, x: Seen) -> Met
    ensures { result ≡ stages.new_name_met call x }
{
    if is_space_token(x.token) {
        return Met::Skips(call);
    }
    match name_to_assign(x.token) {
        Some(name) => Met::Notes(Note::Relaxes(call, name), Next::Takes(Datum::Named(name))),
        None => missing_name(x.token),
    }
}

/// What a token stands for; of another one comes what is given.
fn internal_met(otherwise: Met, stands: Option<Internal>) -> Met
    ensures { result ≡ stages.internal_met otherwise stands }
{
    match stands {
        Some(Internal::Given(n)) => Met::Takes(Datum::Number(i32::from(n))),
        Some(Internal::At(loc)) => Met::Takes(Datum::At(loc)),
        Some(Internal::Numbered(bank)) => Met::Numbers(bank),
        None => otherwise,
    }
}

/// The number of a primitive.
fn primitive_number(head: Head) -> u16
    ensures { result ≡ stages.primitive_number head }
{
    match head {
        Head::Primitive(number) => number,
        Head::Register(..) => 0,
    }
}

/// The token can't be used behind the command of this number.
fn unusable_behind(number: u16, x: Seen) -> Note
    ensures { result ≡ stages.unusable_behind number x }
{
    Note::Tells(Report::CantUseAfter(x.meaning, number), false)
}

/// What arithmetic changes.
fn variable(call: Call, x: Seen) -> Met
    ensures { result ≡ stages.on_token stage.Variable call x }
{
    let note = unusable_behind(primitive_number(call.head), x);
    let refused = Met::Notes(note, Next::Unassigned(call));
    internal_met(refused, variable_of(x.meaning))
}

/// What stands for a number, a dimension, glue or a list of tokens; another token counts as 0, and the report names `\the`.
fn internal(call: Call, x: Seen) -> Met
    ensures { result ≡ stages.on_token stage.InternalValue call x }
{
    let zero = Next::Takes(Datum::Number(0));
    let refused = Met::Notes(unusable_behind(THE, x), zero);
    internal_met(refused, value_of(x.meaning))
}

/// Whether it means `\relax`.
fn means_relax(meaning: Meaning<()>) -> bool
    ensures { result ≡ names.means_relax meaning }
{
    match meaning {
        Meaning::RelaxMarked => true,
        Meaning::Prim(number) => number == RELAX,
        _ => false,
    }
}

/// A list of tokens that stands at a location; another token begins a balanced text, once no `\relax` comes.
fn token_list(call: Call, x: Seen) -> Met
    ensures { result ≡ stages.on_token stage.TokenList call x }
{
    if means_relax(x.meaning) {
        return Met::Skips(call);
    }
    let text = Met::Begins(Phrase::Text(call.name, false));
    internal_met(text, list_of(x.meaning))
}

/// The number of a register or of a character; one out of its range is reported, and the location is that of 0.
fn numbered(bank: Bank, n: i32) -> Got
    ensures { result ≡ stages.numbered bank n }
{
    if 0 <= n && n <= 255 {
        return Got::Takes(Datum::At(bank.location(byte_of(n))));
    }
    Got::Tells(bank.complaint(n), Next::Takes(Datum::At(bank.location(0))))
}

/// The same of a value.
pub fn numbered_by(bank: Bank, value: Value) -> Got
    ensures { result ≡ stages.numbered_by bank value }
{
    match value {
        Value::Plain(Datum::Number(n)) => numbered(bank, n),
        _ => numbered(bank, 0),
    }
}

/// The relation that a token is: an explicit character of category 12.
fn relation_of(token: Token) -> Option<Relation>
    ensures { result ≡ stages.relation_of token }
{
    match token {
        Token::Char { cat: 12, code } => match code {
            b'<' => Some(Relation::Less),
            b'=' => Some(Relation::Equal),
            b'>' => Some(Relation::Greater),
            _ => None,
        },
        _ => None,
    }
}

/// A relation; another token is given back and reported, and `=` taken.
fn related(call: Call, token: Token) -> Met
    ensures { result ≡ stages.related call (stages.relation_of token) }
{
    match relation_of(token) {
        Some(relation) => Met::Takes(Datum::Relation(relation)),
        None => {
            let note = Note::Tells(Report::MissingRelation(primitive_number(call.head)), true);
            Met::Notes(note, Next::Takes(Datum::Relation(Relation::Equal)))
        }
    }
}

/// The name that a token is.
fn name_of(token: Token) -> Name
    ensures { result ≡ names.name_of token }
{
    match token {
        Token::Named(name) => name,
        Token::Marked(name) => name,
        _ => Name::Empty,
    }
}

/// With one prefix more.
fn also(prefix: Prefix, call: Call) -> Call
    ensures { result ≡ stages.also prefix call }
{
    match prefix {
        Prefix::Long => Call { long: true, ..call },
        Prefix::Outer => Call {
            outer: true,
            ..call
        },
        Prefix::Global => Call {
            global: true,
            ..call
        },
    }
}

/// The prefix of this meaning.
fn prefix_of(meaning: Meaning<()>) -> Option<Prefix>
    ensures { result ≡ stages.prefix_of meaning }
{
    match meaning {
        Meaning::Prim(LONG) => Some(Prefix::Long),
        Meaning::Prim(OUTER) => Some(Prefix::Outer),
        Meaning::Prim(GLOBAL) => Some(Prefix::Global),
        _ => None,
    }
}

/// Whether it is a definition.
fn is_definition(meaning: Meaning<()>) -> bool
    ensures { result ≡ stages.is_definition meaning }
{
    match meaning {
        Meaning::Prim(n) => DEF <= n && n <= XDEF,
        _ => false,
    }
}

/// Whether a command is read by a row.
fn has_row(head: Head) -> bool
    ensures { result ≡ table.has_row head }
{
    find_row(head).is_some()
}

/// Whether it is an assignment that is read by a row.
fn is_assignment(meaning: Meaning<()>) -> bool
    ensures { result ≡ stages.is_assignment meaning }
{
    match meaning {
        Meaning::Prim(n) => {
            (DEF <= n && n <= last_number(Class::Assignment)
                || first_number(Class::IntegerParameter) <= n)
                && has_row(Head::Primitive(n))
        }
        Meaning::Register { kind, no } => has_row(Head::Register(kind, no)),
        _ => false,
    }
}

/// The command of this meaning.
fn head_of(meaning: Meaning<()>) -> Head
    ensures { result ≡ stages.head_of meaning }
{
    match meaning {
        Meaning::Prim(n) => Head::Primitive(n),
        Meaning::Register { kind, no } => Head::Register(kind, no),
        _ => Head::Primitive(0),
    }
}

/// The command that the token is, with the prefixes that stood before it.
fn as_command(call: Call, x: Seen) -> Call
    ensures { result ≡ stages.as_command call x }
{
    Call {
        head: head_of(x.meaning),
        name: name_of(x.token),
        ..call
    }
}

/// The command behind prefixes.
fn behind_prefixes(call: Call, x: Seen) -> Met
    ensures { result ≡ stages.behind_prefixes call x }
{
    let on = as_command(call, x);
    if is_definition(x.meaning) {
        return Met::Becomes(on);
    }
    if !is_assignment(x.meaning) {
        let note = Note::Tells(Report::PrefixWith(x.meaning), true);
        return Met::Notes(note, Next::Stops);
    }
    if call.long || call.outer {
        let note = Note::Tells(Report::LongOrOuterWith(x.meaning), false);
        let unlimited = Call {
            long: false,
            outer: false,
            ..on
        };
        return Met::Notes(note, Next::Becomes(unlimited));
    }
    Met::Becomes(on)
}

/// A further prefix, or the command behind prefixes.
fn prefixed(call: Call, x: Seen) -> Met
    ensures { result ≡ stages.prefixed call (stages.prefix_of x.meaning) x }
{
    match prefix_of(x.meaning) {
        Some(prefix) => Met::Skips(also(prefix, call)),
        None => behind_prefixes(call, x),
    }
}

/// The optional `=` of `\let`, behind spaces.
fn let_equals(call: Call, x: Seen) -> Met
    ensures { result ≡ stages.on_token stage.LetEquals call x }
{
    if is_space(x) {
        Met::Skips(call)
    } else if is_equals(x) {
        Met::Passes
    } else {
        Met::Leaves
    }
}

/// What a stage makes of a token.
pub fn on_token(stage: Stage, call: Call, x: Seen) -> Met
    ensures { result ≡ stages.on_token stage call x }
{
    match stage {
        Stage::Equals => {
            if is_equals(x) {
                Met::Passes
            } else {
                Met::Leaves
            }
        }
        Stage::ControlSequence => control_sequence(call, x),
        Stage::NewName => new_name(call, x),
        Stage::Variable => variable(call, x),
        Stage::InternalValue => internal(call, x),
        Stage::TokenList => token_list(call, x),
        Stage::LetEquals => let_equals(call, x),
        Stage::Space => {
            if is_space(x) {
                Met::Passes
            } else {
                Met::Leaves
            }
        }
        Stage::AnyToken => Met::Takes(Datum::Taken(x)),
        Stage::UnenteredToken => Met::Takes(Datum::Taken(x)),
        Stage::ExpandedToken => Met::Takes(Datum::Taken(x)),
        Stage::NonblankToken => Met::Takes(Datum::Taken(x)),
        Stage::Relation => related(call, x.token),
        Stage::Prefixes(prefix) => prefixed(also(prefix, call), x),
        _ => Met::Leaves,
    }
}

/// What a stage makes of what an inner reading has read.
fn on_datum(stage: Stage, datum: Datum) -> Got
    ensures { result ≡ stages.on_datum stage datum }
{
    match stage {
        Stage::NumberTo(greatest, complaint) => ranged(complaint, greatest, number_in(datum)),
        Stage::NumberUpTo(greatest) => bounded(greatest, number_in(datum)),
        Stage::TokenList => Got::Takes(Datum::Number(0)),
        _ => Got::Takes(datum),
    }
}

/// What a stage makes of the list of an inner reading.
fn on_list(stage: Stage) -> Got
    ensures { result ≡ stages.on_list stage }
{
    match stage {
        Stage::MacroText(_) => Got::Defines,
        _ => Got::Gathers,
    }
}

/// What a stage makes of the value of an inner reading.
pub fn on_value(stage: Stage, value: Value) -> Got
    ensures { result ≡ stages.on_value stage value }
{
    match value {
        Value::Plain(datum) => on_datum(stage, datum),
        Value::List => on_list(stage),
    }
}

/// The reading that a value is: a number, a dimension or glue.
fn value_phrase(stage: Stage) -> Phrase
    ensures { result ≡ stages.value_phrase stage }
{
    match stage {
        Stage::Dimension => Phrase::Dimension(DimenKind {
            mu: false,
            infinite: false,
        }),
        Stage::Glue(mu) => Phrase::Glue(mu),
        _ => Phrase::Integer,
    }
}

/// What a stage asks for at first.
pub fn start(stage: Stage, call: Call, read: &Data) -> Start
    ensures { result ≡ stages.start stage call (values read.now) }
{
    match stage {
        Stage::Number | Stage::NumberTo(..) | Stage::NumberUpTo(_) => Start::Begins(
            Phrase::Integer,
        ),
        Stage::Dimension | Stage::Glue(_) => Start::Begins(value_phrase(stage)),
        Stage::Amount => Start::Begins(value_phrase(value_stage(location(read.first())))),
        Stage::Equals | Stage::NonblankToken | Stage::Relation => Start::Looks(Want::Nonblank),
        Stage::ControlSequence | Stage::NewName | Stage::LetEquals => Start::Looks(Want::Raw),
        Stage::Variable | Stage::InternalValue => Start::Looks(Want::Expanded),
        Stage::ExpandedToken => Start::Looks(Want::Expanded),
        Stage::Keyword(keyword) => Start::Begins(Phrase::Keyword(keyword)),
        Stage::Space | Stage::AnyToken => Start::Looks(Want::Raw),
        Stage::UnenteredToken => Start::Looks(Want::Unentered),
        Stage::Text(expanded) => Start::Begins(Phrase::Text(call.name, expanded)),
        Stage::MacroText(expanded) => {
            Start::Begins(Phrase::Definition(name(read.first()), expanded))
        }
        Stage::TokenList | Stage::Prefixes(_) => Start::Looks(Want::Command),
    }
}
