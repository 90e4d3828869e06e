// Runs scripts at the edges of sums and branches, each by the plain run and by rewriting and the rewritten run in one call.
//
// A line of a plain run has the outcome (value 0, stuck 1, spent 2, large 3, full 4), the steps, and kind and number of the last expression's
// first record. That of a rewritten run has after outcome and steps the entries of the history and the time of the first one, or 0 where there
// is none. A refusal's line has only its number and its place.
#![tactic(auto)]

ghost use Rattle.std.specs.Prelude.{◌≤◌, length};

use samples::{BUFFERS, Buffers, GuidelineRecord, Numbers, Record, ScriptRecord};
use std::io;
use words::Number;

// ---- scripts

// A branch on a constant: 513 + n records, all abstractions before. Its second term has 511 records and label 2, its third has n and label 3, both
// abstractions around a constant.
fn branch(script: &mut [[u8; 8]; 1025], x: u32, n: usize)
    requires least { 2 ≤ n }
    requires most { n ≤ 512 }
{
    script[0] = ScriptRecord::Branch.bytes();
    script[1] = ScriptRecord::Constant(x).bytes();
    script[2] = ScriptRecord::Abstraction(2).bytes();
    script[512] = ScriptRecord::Constant(0).bytes();
    script[513] = ScriptRecord::Abstraction(3).bytes();
    script[512 + n] = ScriptRecord::Constant(0).bytes();
}

// ---- lines

fn run_plain(
    rt: &HostRuntime,
    script: &[u8],
    budget: u32,
    buffers: &mut Buffers,
) -> io::Result<()> {
    match samples::run_plain_into(script, budget, buffers) {
        Err(refusal) => println!(rt; "plain {}", Numbers(Err(refusal))),
        Ok(ran) => println!(rt;
            "plain {} {} {} {}",
            u32::from(ran.outcome),
            ran.steps,
            u32::read(&buffers.expression, 0),
            u32::read(&buffers.expression, 4),
        ),
    }
}

fn rehearse(
    rt: &HostRuntime,
    script: &[u8],
    guideline: &[u8],
    budget: u32,
    buffers: &mut Buffers,
) -> io::Result<()> {
    match samples::rehearse_into(script, guideline, budget, buffers) {
        Err(refusal) => println!(rt; "rewritten {}", Numbers(Err(refusal))),
        Ok(ran) => println!(rt;
            "rewritten {} {} {} {}",
            u32::from(ran.outcome),
            ran.counts.steps,
            ran.counts.history,
            u32::read(&buffers.history, 0),
        ),
    }
}

fn run(
    rt: &HostRuntime,
    script: &[u8],
    guideline: &[u8],
    budget: u32,
    buffers: &mut Buffers,
) -> io::Result<()> {
    run_plain(rt, script, budget, buffers)?;
    rehearse(rt, script, guideline, budget, buffers)
}

// Runs a script under no guideline.
fn edge(
    rt: &HostRuntime,
    records: &[ScriptRecord],
    budget: u32,
    buffers: &mut Buffers,
) -> io::Result<()>
    requires { length records.now ≤ 4 }
{
    let mut script = [0; 32];
    let script = samples::file_into(records, &mut script);
    run(rt, script, b"", budget, buffers)
}

// Runs a main term after a definition. Function 0 gives back its argument, and is logged at each call.
fn logged(rt: &HostRuntime, main: &[ScriptRecord], buffers: &mut Buffers) -> io::Result<()>
    requires { length main.now ≤ 7 }
{
    let mut records = [ScriptRecord::Variable(0); 9];
    records[0] = ScriptRecord::Definition(0);
    let end = 2 + main.len();
    records[2..end].copy_from_slice(main);
    let mut script = [0; 72];
    let script = samples::file_into(&records[..end], &mut script);
    let guideline = GuidelineRecord::Logged(0).bytes();
    run(rt, script, &guideline, 1000, buffers)
}

// ---- edges

// The greatest constant is reached in a step, for which a budget of 0 is too small. One more is stuck, on that budget too.
fn greatest(rt: &HostRuntime, buffers: &mut Buffers) -> io::Result<()> {
    let within = [
        ScriptRecord::Sum,
        ScriptRecord::Constant(4294967294),
        ScriptRecord::Constant(1),
    ];
    edge(rt, &within, 1, buffers)?;
    edge(rt, &within, 0, buffers)?;
    let above = [
        ScriptRecord::Sum,
        ScriptRecord::Constant(4294967295),
        ScriptRecord::Constant(1),
    ];
    edge(rt, &above, 0, buffers)
}

// A constant that is a sum is called on as any other, a step later; in function position it is stuck.
fn around(rt: &HostRuntime, buffers: &mut Buffers) -> io::Result<()> {
    logged(
        rt,
        &[
            ScriptRecord::Application,
            ScriptRecord::Function(0),
            ScriptRecord::Sum,
            ScriptRecord::Constant(1),
            ScriptRecord::Constant(2),
        ],
        buffers,
    )?;
    logged(
        rt,
        &[
            ScriptRecord::Application,
            ScriptRecord::Sum,
            ScriptRecord::Constant(1),
            ScriptRecord::Constant(2),
            ScriptRecord::Constant(4),
        ],
        buffers,
    )
}

// A sum of what is no constant, a function name and then an abstraction, and a call: the call is made before the sum is stuck.
fn no_sums(rt: &HostRuntime, buffers: &mut Buffers) -> io::Result<()> {
    logged(
        rt,
        &[
            ScriptRecord::Sum,
            ScriptRecord::Function(0),
            ScriptRecord::Application,
            ScriptRecord::Function(0),
            ScriptRecord::Constant(1),
        ],
        buffers,
    )?;
    logged(
        rt,
        &[
            ScriptRecord::Sum,
            ScriptRecord::Abstraction(0),
            ScriptRecord::Variable(0),
            ScriptRecord::Application,
            ScriptRecord::Function(0),
            ScriptRecord::Constant(1),
        ],
        buffers,
    )
}

// A branch on a record, with 5 as its second term and a call on 6 as its third.
fn choose(rt: &HostRuntime, on: ScriptRecord, buffers: &mut Buffers) -> io::Result<()> {
    logged(
        rt,
        &[
            ScriptRecord::Branch,
            on,
            ScriptRecord::Constant(5),
            ScriptRecord::Application,
            ScriptRecord::Function(0),
            ScriptRecord::Constant(6),
        ],
        buffers,
    )
}

// The same on an abstraction, which has two records, so that the array is another.
fn choose_abstraction(rt: &HostRuntime, buffers: &mut Buffers) -> io::Result<()> {
    logged(
        rt,
        &[
            ScriptRecord::Branch,
            ScriptRecord::Abstraction(0),
            ScriptRecord::Variable(0),
            ScriptRecord::Constant(5),
            ScriptRecord::Application,
            ScriptRecord::Function(0),
            ScriptRecord::Constant(6),
        ],
        buffers,
    )
}

// 1,024 and 1,025 records with a branch as the first.
fn sizes(rt: &HostRuntime, buffers: &mut Buffers) -> io::Result<()> {
    for (x, n) in [(0, 511), (1, 511), (1, 512)] {
        let mut script = [ScriptRecord::Abstraction(0).bytes(); 1025];
        branch(&mut script, x, n);
        let end = 513 + n;
        run(rt, script[..end].as_flattened(), b"", 1000, buffers)?;
    }
    Ok(())
}

// A number other than 0 in a sum and in a branch, kind 11 inside a sum, a branch with two terms, a spare byte.
fn refusals(rt: &HostRuntime, buffers: &mut Buffers) -> io::Result<()> {
    let (one, two, three) = (
        ScriptRecord::Constant(1),
        ScriptRecord::Constant(2),
        ScriptRecord::Constant(3),
    );
    let sum = ScriptRecord::Faulty {
        kind: 9,
        spare: 0,
        number: 1,
    };
    edge(rt, &[sum, one, two], 1000, buffers)?;
    let branch = ScriptRecord::Faulty {
        kind: 10,
        spare: 0,
        number: 1,
    };
    edge(rt, &[branch, one, two, three], 1000, buffers)?;
    let unknown = ScriptRecord::Faulty {
        kind: 11,
        spare: 0,
        number: 0,
    };
    edge(rt, &[ScriptRecord::Sum, unknown, two], 1000, buffers)?;
    edge(rt, &[ScriptRecord::Branch, one, two], 1000, buffers)?;
    let spare = ScriptRecord::Faulty {
        kind: 10,
        spare: 1,
        number: 0,
    };
    edge(rt, &[spare, one, two, three], 1000, buffers)
}

fn edges(rt: &HostRuntime) -> io::Result<()> {
    let mut buffers = BUFFERS;
    greatest(rt, &mut buffers)?;
    around(rt, &mut buffers)?;
    no_sums(rt, &mut buffers)?;
    // On 0 the third term is not taken, and so the call in it is not made.
    choose(rt, ScriptRecord::Constant(0), &mut buffers)?;
    choose(rt, ScriptRecord::Constant(1), &mut buffers)?;
    choose(rt, ScriptRecord::Constant(4294967295), &mut buffers)?;
    choose(rt, ScriptRecord::Function(0), &mut buffers)?;
    choose_abstraction(rt, &mut buffers)?;
    sizes(rt, &mut buffers)?;
    refusals(rt, &mut buffers)
}

// What cannot be written has nobody to be told to, and the gate compares what is printed: so that error is dropped.
fn main(rt: HostRuntime) {
    let _ = edges(&rt);
}
