// The records of a term: what begins at a record, the range of its number, passing over a term, walking it.
#![tactic(auto)]

ghost use Rattle.std.specs.Prelude.{◌≡◌, ◌+◌, ◌-◌, ◌^◌, ◌<◌, ◌≤◌};
ghost use Rattle.terms.specs.Record.{count, record_number, arity_of, in_range};
ghost use Rattle.terms.specs.Walk.{pass_term, both_terms, walked, walked_value};

use words::Number;

// How many terms follow a record that begins a term.
#[derive(Clone, Copy, PartialEq, Eq, Debug)]
pub enum Arity {
    NoTerm,
    Leaf,
    One,
    Two,
    Three,
}

// The record after a term, and its first loose variable.
#[derive(Clone, Copy, PartialEq, Eq, Debug)]
pub struct Extent {
    pub end: u32,
    pub loose: Option<u32>,
}

impl Extent {
    // Of this term and the one after it.
    fn then(self, next: Extent) -> Extent
        ensures { result ≡ both_terms self next }
    {
        Extent {
            end: next.end,
            loose: self.loose.or(next.loose),
        }
    }
}

// The arity of a kind. Kinds are matched as the bytes that they are, here and in the checks and steps above: docs/READING.md, 9, names that form
// for arity, range and step, and an enum for the tests of one kind between them would be a second name for the same byte.
// Kinds 9 and 10 as a range compile to comparisons, as single kinds to a table of jumps, which is slower.
pub fn arity_of(kind: u8) -> Arity
    ensures { result ≡ arity_of kind }
{
    match kind {
        1..=3 => Arity::Leaf,
        4 => Arity::One,
        5..=7 => Arity::Two,
        9..=10 => { if kind == 9 { Arity::Two } else { Arity::Three } }
        _ => Arity::NoTerm,
    }
}

// Whether a number is in the range of its record's kind.
pub fn in_range(kind: u8, number: u32) -> bool
    ensures { result ≡ in_range kind number }
{
    match kind {
        1 => number <= 1023,
        2..=3 => true,
        4 => number <= 65535,
        5 => number == 0,
        6..=8 => true,
        9..=10 => number == 0,
        _ => false,
    }
}

// The number of a record.
pub fn number(s: &[u8], i: usize) -> u32
    requires { i < count s.now }
    ensures { result ≡ record_number s.now i }
{
    u32::read(s, 8 * i + 4)
}

// How many terms more are to come after the record of a sum, 9, or a branch, 10.
pub fn further(kind: u8) -> usize
    requires from_sum { 9 ≤ kind }
    requires to_branch { kind ≤ 10 }
    ensures { result ≡ kind - 8 }
{
    usize::from(kind - 8)
}

// Passes over the term at a record: a count of the terms still wanted, so that a script of any length needs no stack. A step of a run does this,
// so it goes by the kinds themselves: the rare ones, 9 and 10, are asked for last.
pub fn pass_term(s: &[u8], at: usize) -> Option<usize>
    ensures { result ≡ pass_term s.now at }
{
    let mut wanted: usize = 1;
    for i in at..s.len() / 8 {
        let kind = s[8 * i];
        match kind {
            1..=3 => {
                wanted -= 1;
                if wanted == 0 {
                    return Some(i + 1);
                }
            }
            4 => {}
            5..=7 => {
                wanted += 1;
            }
            9..=10 => {
                wanted += further(kind);
            }
            _ => {
                return None;
            }
        }
    }
    None
}

// Walks the term at a record with so many abstractions around it. An error is the record at which no term can go on.
#[cycle(walk_term_walk_value)]
pub fn walk_term(s: &[u8], at: usize, depth: u32) -> Result<Extent, u32>
    requires short { count s.now ≤ 65536 }
    requires inside { at ≤ count s.now }
    requires shallow { depth + (count s.now - at) < 2 ^ 32 }
    ensures { result ≡ walked s.now depth at }
{
    if s.len() / 8 <= at {
        return Err(at as u32);
    }
    match arity_of(s[8 * at]) {
        Arity::Two => {
            let first = walk_term(s, at + 1, depth)?;
            let second = walk_term(s, first.end as usize, depth)?;
            Ok(first.then(second))
        }
        Arity::Three => {
            let first = walk_term(s, at + 1, depth)?;
            let second = walk_term(s, first.end as usize, depth)?;
            let third = walk_term(s, second.end as usize, depth)?;
            Ok(first.then(second).then(third))
        }
        _ => walk_value(s, at, depth),
    }
}

// Walks the value at a record: a leaf, or an abstraction, whose body is a term again.
#[cycle(walk_term_walk_value)]
pub fn walk_value(s: &[u8], at: usize, depth: u32) -> Result<Extent, u32>
    requires short { count s.now ≤ 65536 }
    requires inside { at ≤ count s.now }
    requires shallow { depth + (count s.now - at) < 2 ^ 32 }
    ensures { result ≡ walked_value s.now depth at }
{
    let here = at as u32;
    if s.len() / 8 <= at {
        return Err(here);
    }
    let kind = s[8 * at];
    match arity_of(kind) {
        Arity::Leaf => {
            let free = kind == 1 && depth <= number(s, at);
            Ok(Extent {
                end: here + 1,
                loose: free.then_some(here),
            })
        }
        Arity::One => walk_term(s, at + 1, depth + 1),
        Arity::Two => Err(here),
        Arity::Three => Err(here),
        Arity::NoTerm => Err(here),
    }
}
