// Rewriting a script under a guideline. Kinds of a script's records stay bytes: `terms::arity_of` says why.
#![tactic(auto)]

ghost use Rattle.std.specs.Prelude.{◌≡◌, ◌+◌, ◌*◌, ◌<◌, ◌≤◌, length};
ghost use Rattle.words.specs.Put.{put};
ghost use Rattle.terms.specs.Record.{count};
ghost use Rattle.guideline.specs.Record.{count as record_count, kind_at};
ghost use Rattle.rewriting.specs.Answer.{after, answer_of, rewriting};
ghost use Rattle.rewriting.specs.Marks.{later, Marks, gains};
ghost use Rattle.rewriting.specs.Grown.{gain_at, command, commands, grown};

use guideline::kind::Kind;
use guideline::record;
use refusal::{Reason, Refusal};
use script::Purpose;
use words::Number;

// ---- what each function gains

// A mark is the very count of records, 0, 2 or 4, that is added up below: an enum would need a method that gives the same number back.

// A function's mark after record i of the guideline, which names it: 4 records gained by a logged function, 2 by any other trigger, as
// which the function of kind 9 counts.
#[tactic(auto, unfolding(crate::specs::Marks::later))]
fn marked(mark: u8, g: &[u8], i: usize) -> u8
    requires { i < record_count g.now }
    ensures { result ≡ later mark (kind_at g.now i) }
{
    match record::kind_of(g, i) {
        Ok(Kind::LoggedHead) => 4,
        Ok(Kind::Trigger | Kind::NoneSince) => if mark == 4 { 4 } else { 2 },
        _ => mark,
    }
}

// The marks of all functions.
fn marks_of(g: &[u8]) -> [u8; 128]
    ensures { Marks g.now (record_count g.now) result }
{
    let mut marks = [0; 128];
    for i in 0..record::count(g) {
        let f = record::first_number(g, i) as usize;
        if f < 128 {
            marks[f] = marked(marks[f], g, i);
        }
    }
    marks
}

// The records that the first n functions gain.
fn gained(marks: &[u8; 128], n: usize) -> usize
    requires { n ≤ 128 }
    ensures { (result ≡ gains marks.now 0 n) × (result ≤ 255 * n) }
{
    marks[..n].iter().map(|&mark| usize::from(mark)).sum()
}

// How many records are gained after a record: the mark of the function that is defined there. Any other record gains none, and 0 is
// that count, not a number that stands for "no mark".
fn gain_at(marks: &[u8; 128], s: &[u8], i: usize) -> u8
    requires { i < count s.now }
    ensures { result ≡ gain_at marks.now s.now i }
{
    if s[8 * i] != 8 {
        return 0;
    }
    let f = terms::number(s, i) as usize;
    if f < 128 { marks[f] } else { 0 }
}

// ---- writing

// Writes a command of that kind for a function, on variable 0.
fn put_command(out: &mut [u8], at: usize, kind: u8, f: u32)
    requires { at + 16 ≤ length out.old }
    ensures { out.new ≡ put out.old at (command kind f) }
{
    u32::from(kind).write(out, at);
    f.write(out, at + 4);
    1u64.write(out, at + 8);
}

// Writes the commands that a function with that mark gains; the place after them.
fn put_commands(out: &mut [u8], at: usize, mark: u8, f: u32) -> usize
    requires mark_nonzero { 0 < mark }
    requires f_in_bounds { at + length (commands mark f) ≤ length out.old }
    ensures { (out.new ≡ put out.old at (commands mark f)) × (result ≡ at + length (commands mark f)) }
{
    put_command(out, at, 6, f);
    if mark != 4 {
        return at + 16;
    }
    put_command(out, at + 16, 7, f);
    at + 32
}

// Writes the script with each marked definition's commands after its record: the records between are copied as one block.
fn write(s: &[u8], marks: &[u8; 128], out: &mut [u8])
    requires s_len { length s.now ≡ 8 * count s.now }
    requires s_in_bounds { length (grown marks.now s.now 0 (count s.now)) ≤ length out.old }
    ensures { out.new ≡ put out.old 0 (grown marks.now s.now 0 (count s.now)) }
{
    let mut from = 0;
    let mut at = 0;
    for i in 0..s.len() / 8 {
        let mark = gain_at(marks, s, i);
        if mark != 0 {
            let block = 8 * (i + 1) - from;
            words::copy(out, at, s, from, block);
            at = put_commands(out, at + block, mark, terms::number(s, i));
            from = 8 * (i + 1);
        }
    }
    words::copy(out, at, s, from, s.len() - from);
}

// ---- all

// Writes the script as the guideline rewrites it to the front of `out`; how many records that is.
pub fn rewrite(script: &[u8], guideline: &[u8], out: &mut [u8]) -> Result<u32, Refusal>
    ensures { after out.new (answer_of result) ≡ rewriting script.now guideline.now out.old }
{
    let definitions = script::check_script(script, Purpose::Rewriting)?;
    guideline::check_guideline(guideline, definitions)?;
    let marks = marks_of(guideline);
    let records = script.len() / 8 + gained(&marks, definitions as usize);
    if out.len() < 8 * records {
        return Err(Refusal::whole(Reason::OutputShort));
    }
    write(script, &marks, out);
    let written = records as u32;
    Ok(written)
}
