// The engine: what it keeps of the machine's state.
ghost use Rattle.std.specs.Prelude.{◌≡◌, [], ◌∷◌, IfOk, IfErr, OnOk, MatchResult, true};
ghost use Rattle.tex_defs.specs.Sizes.{first_out_of_range};
ghost use Rattle.tex_defs.specs.declared.Sizes.{Sizes};
ghost use Rattle.plain_machine.specs.Demands.{words};
ghost use Rattle.plain_machine.specs.States.{Kept};
ghost use Rattle.engine_state.specs.Clauses.{Still, MakesMoves, CutsMoves, WhereSound};
ghost use Rattle.engine_state.specs.Stands.{Stands, IsSized, SameFrames, state_of};
ghost use Rattle.engine_state.specs.First.{Begins};

use conditionals::Conditionals;
use input_state::Input;
use name_table::NameTable;
use plain_machine::Broken;
use reading_frames::Readings;
use std::alloc::{AllocError, Global};
use tex_defs::{Meaning, Name, Seen, Sizes, Token};

/// The machine's state, kept in tables that were reserved when the engine was made. An engine is closed at its end.
pub struct Engine {
    pub sizes: Sizes,
    /// What is pending, all lists, and what stands at all locations.
    pub input: Input,
    pub names: NameTable,
    /// The open readings; the scanner of a call that gathers its arguments, the innermost of all, stands in the input.
    pub readings: Readings,
    /// The token that `\\afterassignment` keeps.
    pub after: Option<Token>,
    /// The magnification that a check has set for good, or 0 before the first: TeX's `mag_set`.
    pub mag_set: u16,
    /// The open conditionals.
    pub conditionals: Conditionals,
    /// The token that a reading was fed with last.
    pub last: Seen,
    /// Whether a file's name is being read: TeX's `name_in_progress`.
    pub naming: bool,
    /// Whether the last byte that the transcript took isn't a line feed.
    pub in_line: bool,
    /// The reports so far.
    pub reports: u32,
    /// Whether the status is to be 1 without a report.
    pub flawed: bool,
    /// Whether token lines are left out.
    pub quiet: bool,
    /// Whether the last rule or run has answered with a stop: no step is taken behind it.
    pub stopped: bool,
}

/// The primitives that mean something: those that a row reads, and `\\relax`, `\\begingroup`, `\\endgroup`, `\\endcsname`, `\\par`, `\\end`,
/// `\\csname`, `\\jobname`, `\\input`, `\\endinput`, `\\fi`, `\\else`, `\\or`, and the conditionals that read nothing.
const KNOWN: &[u16] = &[
    1, 2, 3, 4, 5, 6, 8, 9, 10, 11, 12, 13, 14, 15, 16, 23, 24, 25, 26, 27, 28, 29, 30, 31, 32, 33,
    34, 35, 36, 37, 38, 39, 40, 41, 42, 43, 44, 45, 46, 47, 48, 49, 50, 51, 52, 54, 55, 56, 57, 58,
    59, 60, 61, 62, 63, 64, 65, 66, 67, 68, 69, 70, 71, 72, 73, 74, 75, 76, 77, 79, 80, 81, 82, 83,
    84, 85, 86, 87, 88, 89, 90, 91, 92, 93, 94, 95, 96, 97, 98, 99, 100, 101, 102, 103, 104, 105,
    106, 107, 108, 109, 110, 111, 112, 113, 114, 115, 116, 117, 118, 119, 120, 121, 122, 123, 124,
    125, 126, 127, 128, 129, 130, 131, 132, 133, 134, 135, 136, 137, 138, 139, 140, 141, 142, 143,
    144, 145, 146, 147, 148, 149, 150, 151, 152, 153, 154, 155, 156, 157, 158, 159, 160, 161, 162,
    163, 164, 165, 166, 167, 168, 169, 170, 171, 172, 173, 174, 175, 176, 177, 178, 179, 180, 181,
    182, 183, 184, 185, 186,
];

/// Before a reading is fed with a token.
const NO_TOKEN: Seen = Seen {
    token: Token::Named(Name::Empty),
    meaning: Meaning::Undefined,
};

impl Engine {
    /// An engine at the beginning of a job, whose file isn't opened yet.
    ///
    /// # Errors
    /// There is no room for the tables. No other call takes memory.
    pub fn new(alloc: Global, sizes: &Sizes, quiet: bool) -> Result<Engine, AllocError>
        requires { first_out_of_range sizes.now ≡ None }
        ensures { IfOk result (λ e. Begins sizes.now e quiet) }
    {
        let input = Input::new(alloc, sizes, KNOWN)?;
        let names = match NameTable::new(alloc, sizes) {
            Ok(names) => names,
            Err(e) => {
                input.close();
                return Err(e);
            }
        };
        let readings = match Readings::new(alloc, sizes.expansion_depth) {
            Ok(readings) => readings,
            Err(e) => {
                input.close();
                return Err(e);
            }
        };
        let conditionals = match Conditionals::new(alloc, sizes.condition_stack_size) {
            Ok(conditionals) => conditionals,
            Err(e) => {
                input.close();
                return Err(e);
            }
        };
        Ok(Engine {
            sizes: *sizes,
            input,
            names,
            readings,
            after: None,
            mag_set: 0,
            conditionals,
            last: NO_TOKEN,
            naming: false,
            in_line: false,
            reports: 0,
            flawed: false,
            quiet,
            stopped: false,
        })
    }

    /// Lets all lists go, and with them the engine.
    pub fn close(self) {
        let Engine {
            sizes: _,
            input,
            names: _,
            readings: _,
            after: _,
            mag_set: _,
            conditionals: _,
            last: _,
            naming: _,
            in_line: _,
            reports: _,
            flawed: _,
            quiet: _,
            stopped: _,
        } = self;
        input.close();
    }

    /// Whether the last byte that the transcript took isn't a line feed.
    pub fn is_in_line(&self) -> bool
        ensures { result ≡ self.now.in_line }
    {
        self.in_line
    }

    /// The reports so far.
    pub fn reports(&self) -> u32
        ensures { result ≡ self.now.reports }
    {
        self.reports
    }

    /// Whether the engine has answered with a stop, or with the end of its run: then it takes no further step.
    pub fn stopped(&self) -> bool
        ensures { result ≡ self.now.stopped }
    {
        self.stopped
    }

    /// The words of main memory that are used.
    pub fn words(&self) -> u32
        ensures { WhereSound self.now (λ book. result ≡ words (state_of self.now book)) }
    {
        self.input.words()
    }

    /// Keeps the job's name.
    ///
    /// # Errors
    /// There is no room for it in the pool or among the strings; nothing has changed, but that the engine has stopped.
    pub fn keep_name(&mut self, name: &[u8]) -> Result<(), Broken>
        ensures did { OnOk result (MakesMoves (λ sizes e _. IsSized sizes e) self.old self.new (λ _. Kept name.now ∷ [])) }
        ensures err { IfErr result (λ b. CutsMoves (λ sizes e _. IsSized sizes e) self.old self.new (λ _. Kept name.now ∷ []) b) }
        ensures stands { OnOk result (Still Stands self.old self.new) }
        ensures frames { SameFrames self.old self.new }
        ensures column { self.new.in_line ≡ self.old.in_line }
        ensures input { self.new.input ≡ self.old.input }
        ensures stopped { MatchResult result (λ _. self.new.stopped ≡ self.old.stopped) (λ _. self.new.stopped ≡ true) }
    {
        if let Err(full) = self.names.keep(name) {
            self.stopped = true;
            return Err(Broken::Full(full));
        }
        Ok(())
    }
}
