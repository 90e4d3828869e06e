// Derives and checks guidelines of 64 and 65 values, and guidelines full of conditions of kind 9, then derives the rehearsed cases (h) and (i).
//
// Each of the first eight lines has the records, the number and the place of both entries, and the byte of the derived table that has
// p0(62, 63). The line of a case has the number and the place, two bytes of the table, and how many of its bytes are not zero:
// - (h) bytes 512 and 528. Bit 2 of the first is p1(1, 3), which holds; bit 0 of the second is p1(3, 1), which does not.
// - (i) bytes 0 and 8. Bit 0 of the first is p0(1, 1), the only bit that is set: constant 7 stands in no fact and satisfies no p0.
#![tactic(auto)]

ghost use Rattle.std.specs.Prelude.{◌<◌, ◌≤◌, length};

use samples::{GuidelineRecord, Numbers, Record, ScriptRecord};
use std::io;

// 128 definitions of variable 0, then a constant. All records are that variable before.
fn define(script: &mut [[u8; 8]; 257]) {
    for function in 0..128 {
        script[2 * function as usize] = ScriptRecord::Definition(function).bytes();
    }
    script[256] = ScriptRecord::Constant(0).bytes();
}

// Derives and checks a guideline.
fn edge(rt: &HostRuntime, rules: &[[u8; 16]]) -> io::Result<()> {
    let mut script = [ScriptRecord::Variable(0).bytes(); 257];
    define(&mut script);
    let guideline = rules.as_flattened();
    let mut table = [0u8; 8192];
    let derived = records::derive(guideline, &mut table);
    let checked = records::check(script.as_flattened(), guideline);
    println!(rt;
        "{} {} {} {}",
        rules.len(),
        Numbers(derived),
        Numbers(checked),
        table[503],
    )
}

// 32 facts of two new constants each, then one of constant 63 and the given one, if any.
fn values(rt: &HostRuntime, rules: &mut [[u8; 16]; 257], last: Option<u32>) -> io::Result<()> {
    for i in 0..32 {
        rules[i as usize] = GuidelineRecord::Fact(2 * i, 2 * i + 1).bytes();
    }
    let mut n = 32;
    if let Some(last) = last {
        rules[32] = GuidelineRecord::Fact(63, last).bytes();
        n = 33;
    }
    edge(rt, &rules[..n])
}

// Function 0 is logged with so many triggers, 127 each. All of the n records after them are the condition.
fn taken_back(
    rt: &HostRuntime,
    rules: &mut [[u8; 16]; 257],
    n: usize,
    triggers: usize,
    condition: GuidelineRecord,
) -> io::Result<()>
    requires { n ≤ 257 }
{
    rules[0] = GuidelineRecord::Logged(0).bytes();
    for r in 1..n {
        rules[r] = if r <= triggers {
            GuidelineRecord::Trigger(127).bytes()
        } else {
            condition.bytes()
        };
    }
    edge(rt, &rules[..n])
}

// The line of a case. The table is full before, so that each zero in it has been written.
fn case(rt: &HostRuntime, rules: &[GuidelineRecord], first: usize, second: usize) -> io::Result<()>
    requires rules_bound { length rules.now ≤ 7 }
    requires first_bound { first < 8192 }
    requires second_bound { second < 8192 }
{
    let mut guideline = [0; 112];
    let guideline = samples::file_into(rules, &mut guideline);
    let mut table = [255u8; 8192];
    let derived = records::derive(guideline, &mut table);
    let count = table.iter().filter(|byte| **byte != 0).count();
    println!(rt;
        "{} {} {} {count}",
        Numbers(derived),
        table[first],
        table[second],
    )
}

// The bytes of `case_h`: p0(1, 2), p0(2, 3); p1(x, y) where p0(x, y); p1(x, z) where p0(x, y) and p1(y, z).
const CASE_H: [GuidelineRecord; 7] = [
    GuidelineRecord::Fact(1, 2),
    GuidelineRecord::Fact(2, 3),
    GuidelineRecord::Head {
        predicate: 1,
        first: 0,
        second: 1,
    },
    GuidelineRecord::Atom {
        predicate: 0,
        first: 0,
        second: 1,
    },
    GuidelineRecord::Head {
        predicate: 1,
        first: 0,
        second: 2,
    },
    GuidelineRecord::Atom {
        predicate: 0,
        first: 0,
        second: 1,
    },
    GuidelineRecord::Atom {
        predicate: 1,
        first: 1,
        second: 2,
    },
];

// The bytes of `case_i`: p0(1, 1); function 1 is logged where p0 holds of its argument twice.
const CASE_I: [GuidelineRecord; 3] = [
    GuidelineRecord::Fact(1, 1),
    GuidelineRecord::Logged(1),
    GuidelineRecord::Holds {
        predicate: 0,
        i: 0,
        j: 0,
    },
];

// A condition of kind 9.
fn no_call(i: u8, function: u32) -> GuidelineRecord {
    GuidelineRecord::NoCall { i, function }
}

fn edges(rt: &HostRuntime) -> io::Result<()> {
    let mut rules = [[0; 16]; 257];
    // 64 values.
    values(rt, &mut rules, None)?;
    // Still 64.
    values(rt, &mut rules, Some(0))?;
    // A 65th in the last fact.
    values(rt, &mut rules, Some(64))?;
    // 251 conditions of kind 9 on the last of four triggers and the last function, and one more.
    taken_back(rt, &mut rules, 256, 4, no_call(4, 127))?;
    taken_back(rt, &mut rules, 257, 4, no_call(4, 127))?;
    // A function that the script does not have: deriving knows no script.
    taken_back(rt, &mut rules, 256, 4, no_call(4, 128))?;
    // Trigger 4 of three, and trigger 5.
    taken_back(rt, &mut rules, 256, 3, no_call(4, 127))?;
    taken_back(rt, &mut rules, 256, 4, no_call(5, 127))?;
    case(rt, &CASE_H, 512, 528)?;
    case(rt, &CASE_I, 0, 8)
}

// What cannot be written has nobody to be told to, and the gate compares what is printed: so that error is dropped.
fn main(rt: HostRuntime) {
    let _ = edges(&rt);
}
