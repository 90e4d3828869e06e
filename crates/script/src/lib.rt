// Checking a script: refusals 1 to 7. Kinds of records stay bytes: `terms::arity_of` says why.
#![tactic(auto)]

ghost use Rattle.std.specs.Prelude.{false, ◌≡◌, ◌+◌, ◌^◌, ◌<◌, ◌≤◌, IfOk};
ghost use Rattle.std.specs.Option.{option_or};
ghost use Rattle.refusal.specs.Refusal.{accepted, due_if, refuse_if, verdict_of};
ghost use Rattle.terms.specs.Record.{count};
ghost use Rattle.script.specs.File.{is_definition, file_of};
ghost use Rattle.script.specs.Check.{most_records, due1, due2, malformed, definition_count, definitions_in, undefined_name, is_command, is_parameter, command_of, placed_call, placed_emit, misplaced, commands_below, too_many, first_in, due7, script_verdict};
ghost use Rattle.script.specs.Layout.{misnumbered_at, after_definition, after_main, Told, Tells, Reached, whole_verdict};

use refusal::{Reason, Refusal};
use words::Number;

// What a script is checked for.
#[derive(Clone, Copy, PartialEq, Eq, Debug)]
pub enum Purpose {
    Checking,
    Rewriting,
    PlainRun,
    RewrittenRun,
}

// A script that number 1 let pass: its records are so few that 32 bits number them.
#[derive(Clone, Copy)]
struct Script<'a> {
    bytes: &'a [u8],
    ghost short: { count bytes.now ≤ 65536 },
}

// What numbers 4 to 6 go by in a whole file: how many definitions it has, the first of them that is misnumbered, the first variable
// that is too large.
#[derive(Clone, Copy, Default)]
struct Faults {
    definitions: u32,
    misnumbered: Option<u32>,
    loose: Option<u32>,
}

// ---- number 1

// How many records a script may have.
fn most_records(purpose: Purpose) -> usize
    ensures { result ≡ most_records purpose }
{
    match purpose {
        Purpose::Checking | Purpose::Rewriting | Purpose::PlainRun => 1024,
        Purpose::RewrittenRun => 1296,
    }
}

// Whether the length is 0, no multiple of 8, or above what the purpose allows.
fn wrong_length(s: &[u8], purpose: Purpose) -> bool
    ensures { due_if result ≡ due1 purpose s.now }
{
    let n = s.len();
    n == 0 || n % 8 != 0 || most_records(purpose) < n / 8
}

// ---- tests of one record, for numbers 2, 6 and 7
// Each takes the script and the record's number: it reads the records around as well, and what `find` below hands a test is a number.

// Whether a record has an unknown kind, a spare byte that is not zero or a number out of range. Its first four bytes are read as one
// number: without the kind, the spare bytes are left.
fn is_malformed(s: &[u8], i: usize) -> bool
    requires { i < count s.now }
    ensures { result ≡ malformed s.now i }
{
    u32::read(s, 8 * i) / 256 != 0 || !terms::in_range(s[8 * i], terms::number(s, i))
}

// Whether a record names a function that a file of so many definitions does not define.
fn is_undefined(s: &[u8], defined: u32, i: usize) -> bool
    requires { i < count s.now }
    ensures { result ≡ undefined_name s.now defined i }
{
    s[8 * i] == 2 && defined <= terms::number(s, i)
}

// Whether a record is of kind 6 or 7.
fn is_command(s: &[u8], i: usize) -> bool
    requires { i < count s.now }
    ensures { result ≡ is_command s.now i }
{
    matches!(s[8 * i], 6..=7)
}

// Whether variable 0 stands at a record.
fn is_parameter(s: &[u8], i: usize) -> bool
    ensures { result ≡ is_parameter s.now i }
{
    i < s.len() / 8 && s[8 * i] == 1 && terms::number(s, i) == 0
}

// Whether a record is a command of that kind for that function, on variable 0.
fn is_command_of(s: &[u8], kind: u8, function: u32, i: usize) -> bool
    requires { i < count s.now }
    ensures { result ≡ command_of s.now kind function i }
{
    s[8 * i] == kind && terms::number(s, i) == function && is_parameter(s, i + 1)
}

// Whether a record is the 6 that its definition's body begins with.
fn is_placed_call(s: &[u8], i: usize) -> bool
    requires { i < count s.now }
    ensures { result ≡ placed_call s.now i }
{
    1 <= i && s[8 * (i - 1)] == 8 && is_command_of(s, 6, terms::number(s, i - 1), i)
}

// Whether a record is the 7 after such a 6 and its argument.
fn is_placed_emit(s: &[u8], i: usize) -> bool
    requires { i < count s.now }
    ensures { result ≡ placed_emit s.now i }
{
    2 <= i && is_placed_call(s, i - 2) && is_command_of(s, 7, terms::number(s, i - 2), i)
}

// Whether a record is a command out of place.
fn is_misplaced(s: &[u8], i: usize) -> bool
    requires { i < count s.now }
    ensures { result ≡ misplaced s.now i }
{
    is_command(s, i) && !(is_placed_call(s, i) || is_placed_emit(s, i))
}

// ---- the first record that a test finds
// Each is std's `find` over a test of its own. One function for all, with the test as its parameter, would be `find` again.

fn first_malformed(s: &[u8]) -> Option<usize>
    ensures { result ≡ due2 s.now }
{
    (0..s.len() / 8).find(
        |&i|
            requires { i < count s.now }
        { is_malformed(s, i) },
    )
}

fn first_undefined(s: &[u8], defined: u32) -> Option<usize>
    ensures { result ≡ first_in s.now (undefined_name s.now defined) }
{
    (0..s.len() / 8).find(
        |&i|
            requires { i < count s.now }
        { is_undefined(s, defined, i) },
    )
}

fn first_command(s: &[u8]) -> Option<usize>
    ensures { result ≡ first_in s.now (is_command s.now) }
{
    (0..s.len() / 8).find(
        |&i|
            requires { i < count s.now }
        { is_command(s, i) },
    )
}

fn first_misplaced(s: &[u8]) -> Option<usize>
    ensures { result ≡ first_in s.now (misplaced s.now) }
{
    (0..s.len() / 8).find(
        |&i|
            requires { i < count s.now }
        { is_misplaced(s, i) },
    )
}

// ---- numbers 3, 4 and 5: one walk over the file

impl Faults {
    // One definition more: its record, its number and its body's first loose variable.
    fn after(self, place: u32, number: u32, loose: Option<u32>) -> Faults
        requires { self.definitions + 1 < 2 ^ 32 }
        ensures { result ≡ after_definition self place number loose }
    {
        Faults {
            definitions: self.definitions + 1,
            misnumbered: self
                .misnumbered
                .or(misnumbered_at(self.definitions, place, number)),
            loose: self.loose.or(loose),
        }
    }

    // The main term: its first loose variable.
    fn main(self, loose: Option<u32>) -> Faults
        ensures { result ≡ after_main self loose }
    {
        Faults {
            loose: self.loose.or(loose),
            ..self
        }
    }
}

// Number 4 at one definition with so many before it: its record, unless it has the next number and is no 129th.
fn misnumbered_at(before: u32, place: u32, number: u32) -> Option<u32>
    ensures { result ≡ misnumbered_at before place number }
{
    let next = number == before && before < 128;
    (!next).then_some(place)
}

// Whether a definition begins at a record.
fn is_definition(s: &[u8], i: usize) -> bool
    ensures { result ≡ is_definition s.now i }
{
    i < s.len() / 8 && s[8 * i] == 8
}

impl Script<'_> {
    // The definitions one after the other, each body with one abstraction around it, then the main term. An error is a record that cannot
    // stand where it does.
    fn walk(self) -> Result<Faults, u32>
        ensures { Tells self.entry.bytes.now result }
    {
        let mut found = Faults::default();
        let mut at = 0;
        // By whole terms and not by one: no `for` counts this.
        while is_definition(self.bytes, at) {
            let body = terms::walk_term(self.bytes, at + 1, 1)?;
            found = found.after(at as u32, terms::number(self.bytes, at), body.loose);
            at = body.end as usize;
        }
        self.walk_main(at, found)
    }

    // The main term at a record, after the definitions in which that was found.
    fn walk_main(self, at: usize, found: Faults) -> Result<Faults, u32>
        requires reached { Reached self.bytes.now at found }
        requires at_main { is_definition self.bytes.now at ≡ false }
        ensures { Tells self.entry.bytes.now result }
    {
        let main = terms::walk_term(self.bytes, at, 0)?;
        if (main.end as usize) < self.bytes.len() / 8 {
            return Err(main.end);
        }
        Ok(found.main(main.loose))
    }
}

// How many definitions a file has, if it is whole: of any file, where `check_script` tells it of those that it accepts.
pub fn whole_definitions(s: &[u8]) -> Option<usize>
    ensures { result ≡ definitions_in (file_of s.now) }
{
    let mut passed = 0;
    let mut at = 0;
    // As above, by whole terms.
    while is_definition(s, at) {
        at = terms::pass_term(s, at + 1)?;
        passed += 1;
    }
    let end = terms::pass_term(s, at)?;
    (end == s.len() / 8).then_some(passed)
}

// The same, and 0 for a file that is not whole: the count that a guideline's functions are checked against.
pub fn definitions(s: &[u8]) -> usize
    ensures { result ≡ definition_count (file_of s.now) }
{
    whole_definitions(s).unwrap_or(0)
}

// ---- number 7, and 4 to 7 of a whole file in their order

// How many records are commands.
fn count_commands(s: &[u8]) -> usize
    ensures { (result ≡ commands_below s.now (count s.now)) × (result ≤ count s.now) }
{
    (0..s.len() / 8)
        .filter(
            |&i|
                requires { i < count s.now }
            { is_command(s, i) },
        )
        .count()
}

impl Script<'_> {
    // Where no command may stand.
    fn check_bare(self) -> Result<(), Refusal>
        ensures { verdict_of result ≡ refuse_if 7 (first_in self.entry.bytes.now (is_command self.entry.bytes.now)) accepted }
    {
        match first_command(self.bytes) {
            Some(place) => Err(Refusal::at(Reason::ScriptCommand, place)),
            None => Ok(()),
        }
    }

    // In a rewritten script: the first misplaced command, else too many records besides commands and their arguments.
    fn check_placed(self) -> Result<(), Refusal>
        ensures { verdict_of result ≡ refuse_if 7 (option_or (first_in self.entry.bytes.now (misplaced self.entry.bytes.now)) (too_many self.entry.bytes.now)) accepted }
    {
        if let Some(place) = first_misplaced(self.bytes) {
            return Err(Refusal::at(Reason::ScriptCommand, place));
        }
        let n = self.bytes.len() / 8;
        if 1024 + 2 * count_commands(self.bytes) < n {
            return Err(Refusal::at(Reason::ScriptCommand, n));
        }
        Ok(())
    }

    // Number 7: a rewritten run takes commands in their places, all else takes none.
    fn check_commands(self, purpose: Purpose) -> Result<(), Refusal>
        ensures { verdict_of result ≡ refuse_if 7 (due7 purpose self.entry.bytes.now) accepted }
    {
        match purpose {
            Purpose::Checking | Purpose::Rewriting | Purpose::PlainRun => self.check_bare(),
            Purpose::RewrittenRun => self.check_placed(),
        }
    }

    // Numbers 4 to 7 of a whole file in which that was found.
    fn check_whole(self, purpose: Purpose, found: Faults) -> Result<(), Refusal>
        requires { Told self.bytes.now found }
        ensures { verdict_of result ≡ whole_verdict purpose self.entry.bytes.now }
    {
        // Here and for number 3 the place has 32 bits already; `Refusal::at` takes an index.
        if let Some(place) = found.misnumbered {
            return Err(Refusal {
                reason: Reason::ScriptDefinition,
                place,
            });
        }
        if let Some(place) = found.loose {
            return Err(Refusal {
                reason: Reason::ScriptVariable,
                place,
            });
        }
        if let Some(place) = first_undefined(self.bytes, found.definitions) {
            return Err(Refusal::at(Reason::ScriptFunction, place));
        }
        self.check_commands(purpose)
    }
}

// ---- all

// The first number that is due, and its place; else how many definitions the script has.
pub fn check_script(s: &[u8], purpose: Purpose) -> Result<u32, Refusal>
    ensures verdict { verdict_of result ≡ script_verdict purpose s.now }
    ensures counted { IfOk result (λ n. n ≡ definition_count (file_of s.now)) }
{
    if wrong_length(s, purpose) {
        return Err(Refusal::whole(Reason::ScriptLength));
    }
    if let Some(place) = first_malformed(s) {
        return Err(Refusal::at(Reason::ScriptRecord, place));
    }
    let script = Script { bytes: s };
    let found = script.walk().map_err(|place| Refusal {
        reason: Reason::ScriptOrder,
        place,
    })?;
    script.check_whole(purpose, found)?;
    Ok(found.definitions)
}
