// Runs scripts at the edges of what a run does, each by the plain run and by rewriting and the rewritten run.
//
// A line of a plain run has the outcome (value 0, stuck 1, spent 2, large 3, full 4), the steps and the records of the last expression.
// That of a rewritten run has after these the entries of the history and of the log, and the time of the log's last entry, or 0 where there
// is none. A refusal's line has only its number and its place. The last two lines are those of rewriting alone, its number and record count.
#![tactic(auto)]

ghost use Rattle.std.specs.Prelude.{◌≤◌};

use samples::{BUFFERS, Buffers, GuidelineRecord, Numbers, Record, ScriptRecord};
use std::io;
use words::Number;

// Three of the 128 functions of the longest script.
const FIRE: u32 = 7;

const OVERRIDE: u32 = 8;

const CANCEL: u32 = 127;

// ---- scripts

// From record i on: a variable applied to itself.
fn put_twice(script: &mut [[u8; 8]; 519], i: usize, variable: u32)
    requires { i ≤ 516 }
{
    script[i] = ScriptRecord::Application.bytes();
    script[i + 1] = ScriptRecord::Variable(variable).bytes();
    script[i + 2] = ScriptRecord::Variable(variable).bytes();
}

// Function 0, so many abstractions around its parameter applied to itself, is called on a value of 511 records, abstractions around a
// constant: 517 records and the abstractions. The step leaves the abstractions and 1,023 records more.
fn call(abstractions: u32) -> [[u8; 8]; 519]
    requires { abstractions ≤ 2 }
{
    let n = abstractions as usize;
    let mut script = [ScriptRecord::Abstraction(0).bytes(); 519];
    script[0] = ScriptRecord::Definition(0).bytes();
    put_twice(&mut script, n + 1, abstractions);
    script[n + 4] = ScriptRecord::Application.bytes();
    script[n + 5] = ScriptRecord::Function(0).bytes();
    script[n + 516] = ScriptRecord::Constant(1).bytes();
    script
}

// The same with an abstraction in place of the function, a record less.
fn apply(abstractions: u32) -> [[u8; 8]; 519]
    requires { abstractions ≤ 2 }
{
    let n = abstractions as usize;
    let mut script = [ScriptRecord::Abstraction(0).bytes(); 519];
    script[0] = ScriptRecord::Application.bytes();
    put_twice(&mut script, n + 2, abstractions);
    script[n + 515] = ScriptRecord::Constant(1).bytes();
    script
}

// Function 1 calls itself on what function 0 makes of its parameter, and so without end: the even steps call 1, the odd ones 0.
const ENDLESS: [ScriptRecord; 11] = [
    ScriptRecord::Definition(0),
    ScriptRecord::Variable(0),
    ScriptRecord::Definition(1),
    ScriptRecord::Application,
    ScriptRecord::Function(1),
    ScriptRecord::Application,
    ScriptRecord::Function(0),
    ScriptRecord::Variable(0),
    ScriptRecord::Application,
    ScriptRecord::Function(1),
    ScriptRecord::Constant(1),
];

// 128 definitions of variable 0 and the calls, the last one first. The main term begins with an abstraction for each call. What the calls leave
// are abstractions around a constant, so many that there are 1,024 records in all.
fn in_turn(calls: &[u32; 6]) -> [[u8; 8]; 1024] {
    let mut script = [ScriptRecord::Abstraction(0).bytes(); 1024];
    // As in `edges_guideline`: a function of `samples` for these lines would need a contract and edits of its own.
    for function in 0..128 {
        script[2 * function as usize] = ScriptRecord::Definition(function).bytes();
        script[2 * function as usize + 1] = ScriptRecord::Variable(0).bytes();
    }
    script[1005] = ScriptRecord::Constant(1).bytes();
    for n in 0..6 {
        script[256 + 2 * n] = ScriptRecord::Application.bytes();
        script[1006 + 3 * n] = ScriptRecord::Application.bytes();
        script[1007 + 3 * n] = ScriptRecord::Function(calls[n]).bytes();
        script[1008 + 3 * n] = ScriptRecord::Constant(1).bytes();
    }
    script
}

// ---- guidelines

// Functions 0 to 7 are logged, fire with override as its trigger. A call of any of the other 119 functions takes an override back.
fn watch() -> [[u8; 16]; 128] {
    let mut guideline = [GuidelineRecord::Trigger(OVERRIDE).bytes(); 128];
    for function in 0..8 {
        guideline[function as usize] = GuidelineRecord::Logged(function).bytes();
    }
    for function in 9..128 {
        guideline[function as usize] = GuidelineRecord::NoCall { i: 1, function }.bytes();
    }
    guideline
}

// ---- lines

// How many records have a kind: those of the last expression, since the bytes after it are zero.
fn records(expression: &[u8; 24576]) -> usize {
    expression
        .iter()
        .step_by(8)
        .filter(|kind| **kind != 0)
        .count()
}

// The time of the last of n entries, or 0 where there is none, as what is printed has it. It is the first of the entry's four words, read here
// and not by `history`, so that what is printed tests how entries are written.
fn last_time(log: &[u8; 16384], n: u32) -> u32 {
    match n {
        1..=1024 => u32::read(log, 16 * n as usize - 16),
        _ => 0,
    }
}

fn run_plain(
    rt: &HostRuntime,
    script: &[u8],
    budget: u32,
    buffers: &mut Buffers,
) -> io::Result<()> {
    match samples::run_plain_into(script, budget, buffers) {
        Err(refusal) => println!(rt; "plain {}", Numbers(Err(refusal))),
        Ok(ran) => {
            println!(rt;
                "plain {} {} {}",
                u32::from(ran.outcome),
                ran.steps,
                records(&buffers.expression)
            )
        }
    }
}

// The buffers of the run are full before, so that each zero in them has been written.
fn run_rewritten(
    rt: &HostRuntime,
    script: &[u8],
    guideline: &[u8],
    budget: u32,
    buffers: &mut Buffers,
) -> io::Result<()> {
    buffers.fill();
    let mut scratch = [255u8; 24576];
    let mut table = [255u8; 8192];
    match rewritten::rewritten(
        script,
        guideline,
        budget,
        &mut buffers.expression,
        &mut scratch,
        &mut buffers.history,
        &mut buffers.log,
        &mut table,
    ) {
        Err(refusal) => println!(rt; "rewritten {}", Numbers(Err(refusal))),
        Ok(ran) => println!(rt;
            "rewritten {} {} {} {} {} {}",
            u32::from(ran.outcome),
            ran.counts.steps,
            records(&buffers.expression),
            ran.counts.history,
            ran.counts.log,
            last_time(&buffers.log, ran.counts.log),
        ),
    }
}

// Both runs of a script.
fn edge(
    rt: &HostRuntime,
    script: &[u8],
    guideline: &[u8],
    budget: u32,
    buffers: &mut Buffers,
) -> io::Result<()> {
    run_plain(rt, script, budget, buffers)?;
    let mut out = [0u8; 10368];
    let written = rewriting::rewrite(script, guideline, &mut out).unwrap_or(0);
    let end = 8 * written as usize;
    match out.get(..end) {
        Some(script) => run_rewritten(rt, script, guideline, budget, buffers),
        None => Ok(()),
    }
}

// ---- edges

// A call whose step leaves 1,024 records besides commands, and one that would leave 1,025; then the same for an abstraction. Function 0 is
// logged at each call.
fn sizes(rt: &HostRuntime, buffers: &mut Buffers) -> io::Result<()> {
    let logged = GuidelineRecord::Logged(0).bytes();
    for abstractions in 1..3 {
        let script = call(abstractions);
        let n = 517 + abstractions as usize;
        edge(rt, script[..n].as_flattened(), &logged, 1000, buffers)?;
    }
    for abstractions in 1..3 {
        let script = apply(abstractions);
        let n = 516 + abstractions as usize;
        edge(rt, script[..n].as_flattened(), b"", 1000, buffers)?;
    }
    Ok(())
}

// The 1,024th call of function 0 is step 2047, and step 2049 would be the 1,025th.
fn calls(rt: &HostRuntime, buffers: &mut Buffers) -> io::Result<()> {
    let mut script = [0; 88];
    let script = samples::file_into(&ENDLESS, &mut script);
    let logged = GuidelineRecord::Logged(0).bytes();
    edge(rt, script, &logged, 2048, buffers)?;
    edge(rt, script, &logged, 2049, buffers)?;
    edge(rt, script, &logged, 2050, buffers)
}

// Budgets of 1,000,000 and 1,000,001. No call is noted.
fn budgets(rt: &HostRuntime, buffers: &mut Buffers) -> io::Result<()> {
    let mut script = [0; 88];
    let script = samples::file_into(&ENDLESS, &mut script);
    edge(rt, script, b"", 1000000, buffers)?;
    edge(rt, script, b"", 1000001, buffers)
}

// Rewrites a script into a buffer.
fn write(rt: &HostRuntime, script: &[u8], guideline: &[u8], out: &mut [u8]) -> io::Result<()> {
    match rewriting::rewrite(script, guideline, out) {
        Ok(records) => println!(rt; "written 0 {records}"),
        Err(refusal) => println!(rt; "written {} 0", u32::from(refusal.reason)),
    }
}

// The longest script that rewriting writes: all 128 functions gain callEvent, 8 of them emit as well. Of the three fires, steps 2, 6 and 10,
// the second comes after the cancel and is not logged. It is run, and rewritten into 10,368 bytes and into one less.
fn longest(rt: &HostRuntime, buffers: &mut Buffers) -> io::Result<()> {
    let script = in_turn(&[FIRE, OVERRIDE, FIRE, CANCEL, FIRE, OVERRIDE]);
    let script = script.as_flattened();
    let guideline = watch();
    let guideline = guideline.as_flattened();
    edge(rt, script, guideline, 1000, buffers)?;
    write(rt, script, guideline, &mut [0u8; 10368])?;
    write(rt, script, guideline, &mut [0u8; 10367])
}

fn edges(rt: &HostRuntime) -> io::Result<()> {
    let mut buffers = BUFFERS;
    sizes(rt, &mut buffers)?;
    calls(rt, &mut buffers)?;
    budgets(rt, &mut buffers)?;
    longest(rt, &mut buffers)
}

// What cannot be written has nobody to be told to, and the gate compares what is printed: so that error is dropped.
fn main(rt: HostRuntime) {
    let _ = edges(&rt);
}
