// Checks scripts at the edges of what is accepted. Each line has the records, the definitions, the refusal's number and its place.
#![tactic(auto)]

ghost use Rattle.std.specs.Prelude.{◌≤◌};

use samples::{Numbers, Record, ScriptRecord};
use script::Purpose;
use std::io;

// So many definitions with variable 0 as their body, then abstractions around a constant: n records in all. In a rewritten script both
// commands stand before each body. All records are abstractions before.
fn build(script: &mut [[u8; 8]; 1297], definitions: u32, rewritten: bool, n: usize)
    requires definitions_bound { definitions ≤ 129 }
    requires least { 1 ≤ n }
    requires most { n ≤ 1297 }
{
    for function in 0..definitions {
        let i = function as usize;
        if rewritten {
            script[6 * i] = ScriptRecord::Definition(function).bytes();
            script[6 * i + 1] = ScriptRecord::CallEvent(function).bytes();
            script[6 * i + 2] = ScriptRecord::Variable(0).bytes();
            script[6 * i + 3] = ScriptRecord::Emit(function).bytes();
            script[6 * i + 4] = ScriptRecord::Variable(0).bytes();
            script[6 * i + 5] = ScriptRecord::Variable(0).bytes();
        } else {
            script[2 * i] = ScriptRecord::Definition(function).bytes();
            script[2 * i + 1] = ScriptRecord::Variable(0).bytes();
        }
    }
    script[n - 1] = ScriptRecord::Constant(0).bytes();
}

fn edge(
    rt: &HostRuntime,
    definitions: u32,
    rewritten: bool,
    n: usize,
    purpose: Purpose,
) -> io::Result<()>
    requires definitions_bound { definitions ≤ 129 }
    requires least { 1 ≤ n }
    requires most { n ≤ 1297 }
{
    let mut script = [ScriptRecord::Abstraction(0).bytes(); 1297];
    build(&mut script, definitions, rewritten, n);
    let file = script[..n].as_flattened();
    let found = script::definitions(file);
    let verdict = script::check_script(file, purpose).map(|_| ());
    println!(rt; "{n} {found} {}", Numbers(verdict))
}

fn edges(rt: &HostRuntime) -> io::Result<()> {
    // 8,192 and 8,200 bytes.
    edge(rt, 0, false, 1024, Purpose::Checking)?;
    edge(rt, 0, false, 1025, Purpose::Checking)?;
    // 128 and 129 definitions.
    edge(rt, 128, false, 257, Purpose::PlainRun)?;
    edge(rt, 129, false, 259, Purpose::PlainRun)?;
    // 1,296 and 1,297 records for the rewritten run: 68 definitions with two commands have 272 records of commands and their arguments.
    edge(rt, 68, true, 1296, Purpose::RewrittenRun)?;
    edge(rt, 68, true, 1297, Purpose::RewrittenRun)?;
    // 1,028 records besides those of 67 such definitions.
    edge(rt, 67, true, 1296, Purpose::RewrittenRun)?;
    // Commands where none may stand.
    edge(rt, 23, true, 1024, Purpose::Rewriting)
}

// What cannot be written has nobody to be told to, and the gate compares what is printed: so that error is dropped.
fn main(rt: HostRuntime) {
    let _ = edges(&rt);
}
