// Rehearses the cases (a) to (j) of document 01, on the bytes of `TenCases`. A line has the case, each log entry (time, function, view kind
// and view number) with a comma after it, the outcome (value 0, stuck 1, spent 2, large 3, full 4) and the steps; or a refusal's number and
// its place.
//
// Two cases have a second line. `TenCases` has no run for (h), whose table `edges_guideline` prints: here fire is logged where p1 holds of an
// earlier override's argument and its own, which are 1 and 3, and then 3 and 1. After the run of (j) comes one with two overrides, which is
// logged.
#![tactic(auto)]

ghost use Rattle.std.specs.Prelude.{◌≤◌, length};

use rewritten::ENTRIES_BYTES;
use samples::{BUFFERS, Buffers, GuidelineRecord, Numbers, ScriptRecord};
use std::{fmt, io};
use words::Number;

const OVERRIDE: u32 = 0;

const FIRE: u32 = 1;

// ---- scripts

// A call of a function on a constant.
#[derive(Clone, Copy)]
struct Call {
    function: u32,
    x: u32,
}

impl Call {
    fn records(self) -> [ScriptRecord; 3] {
        [
            ScriptRecord::Application,
            ScriptRecord::Function(self.function),
            ScriptRecord::Constant(self.x),
        ]
    }
}

// A call, and then another.
fn in_turn(first: Call, second: Call) -> [ScriptRecord; 8] {
    let [a, f, x] = first.records();
    let [b, g, y] = second.records();
    [
        ScriptRecord::Application,
        ScriptRecord::Abstraction(0),
        b,
        g,
        y,
        a,
        f,
        x,
    ]
}

fn fire(x: u32) -> Call {
    Call { function: FIRE, x }
}

fn override_with(x: u32) -> Call {
    Call {
        function: OVERRIDE,
        x,
    }
}

// ---- lines

// The first n entries of a log, a comma after each where the listing has a line. No log has more than 1,024. An entry's words are read here and
// not by `history`, so that what is printed tests how entries are written.
#[derive(Clone, Copy)]
struct Entries<'a> {
    log: &'a [u8; ENTRIES_BYTES],
    n: u32,
}

impl fmt::Display for Entries<'_> {
    fn fmt<W: fmt::Write>(&self, f: &mut fmt::Formatter<W>) -> fmt::Result {
        let Entries { log, n } = *self;
        for i in 0..n.min(1024) as usize {
            let at = 16 * i;
            let (time, function) = (u32::read(log, at), u32::read(log, at + 4));
            let (kind, number) = (u32::read(log, at + 8), u32::read(log, at + 12));
            write!(f, "{time} {function} {kind} {number}, ")?;
        }
        Ok(())
    }
}

// The line of a case: a main term is rehearsed after the definitions of override and fire, with variable 0 as body. These are six parameters, since
// of a struct that borrows the main term and the rules the check makes no proof.
fn case(
    rt: &HostRuntime,
    name: &str,
    main: &[ScriptRecord],
    rules: &[GuidelineRecord],
    budget: u32,
    buffers: &mut Buffers,
) -> io::Result<()>
    requires main_bound { length main.now ≤ 13 }
    requires rules_bound { length rules.now ≤ 10 }
{
    let mut records = [ScriptRecord::Variable(0); 17];
    records[0] = ScriptRecord::Definition(OVERRIDE);
    records[2] = ScriptRecord::Definition(FIRE);
    let end = 4 + main.len();
    records[4..end].copy_from_slice(main);
    let mut script = [0; 136];
    let script = samples::file_into(&records[..end], &mut script);
    let mut guideline = [0; 160];
    let guideline = samples::file_into(rules, &mut guideline);
    match samples::rehearse_into(script, guideline, budget, buffers) {
        Err(refusal) => println!(rt; "({name}) {}", Numbers(Err(refusal))),
        Ok(ran) => println!(rt;
            "({name}) {}{} {}",
            Entries {
                log: &buffers.log,
                n: ran.counts.log,
            },
            u32::from(ran.outcome),
            ran.counts.steps,
        ),
    }
}

// ---- cases

// Fire is logged after a call of override.
const AFTER_OVERRIDE: [GuidelineRecord; 2] = [
    GuidelineRecord::Logged(FIRE),
    GuidelineRecord::Trigger(OVERRIDE),
];

// (d) and (e): a main term without a call.
fn no_calls(rt: &HostRuntime, buffers: &mut Buffers) -> io::Result<()> {
    case(
        rt,
        "d",
        &[ScriptRecord::Constant(1)],
        &AFTER_OVERRIDE,
        0,
        buffers,
    )?;
    let stuck = [
        ScriptRecord::Application,
        ScriptRecord::Constant(7),
        ScriptRecord::Constant(7),
    ];
    case(rt, "e", &stuck, &AFTER_OVERRIDE, 1000, buffers)
}

// (g): fire on an abstraction with label 9.
fn label(rt: &HostRuntime, buffers: &mut Buffers) -> io::Result<()> {
    let main = [
        ScriptRecord::Application,
        ScriptRecord::Function(FIRE),
        ScriptRecord::Abstraction(9),
        ScriptRecord::Variable(0),
    ];
    case(
        rt,
        "g",
        &main,
        &[GuidelineRecord::Logged(FIRE)],
        1000,
        buffers,
    )
}

fn head(first: u8, second: u8) -> GuidelineRecord {
    GuidelineRecord::Head {
        predicate: 1,
        first,
        second,
    }
}

fn atom(predicate: u8, first: u8, second: u8) -> GuidelineRecord {
    GuidelineRecord::Atom {
        predicate,
        first,
        second,
    }
}

// (h): p0(1, 2), p0(2, 3); p1(x, y) where p0(x, y); p1(x, z) where p0(x, y) and p1(y, z). Fire is logged where p1(x_1, x_0).
fn closure(rt: &HostRuntime, x: u32, y: u32, buffers: &mut Buffers) -> io::Result<()> {
    let rules = [
        GuidelineRecord::Fact(1, 2),
        GuidelineRecord::Fact(2, 3),
        head(0, 1),
        atom(0, 0, 1),
        head(0, 2),
        atom(0, 0, 1),
        atom(1, 1, 2),
        GuidelineRecord::Logged(FIRE),
        GuidelineRecord::Trigger(OVERRIDE),
        GuidelineRecord::Holds {
            predicate: 1,
            i: 1,
            j: 0,
        },
    ];
    case(
        rt,
        "h",
        &in_turn(override_with(x), fire(y)),
        &rules,
        1000,
        buffers,
    )
}

// (i): p0(1, 1). Fire is logged where p0(x_0, x_0), and called on 7, which no fact has, and then on 1.
fn one_fact(rt: &HostRuntime, buffers: &mut Buffers) -> io::Result<()> {
    let rules = [
        GuidelineRecord::Fact(1, 1),
        GuidelineRecord::Logged(FIRE),
        GuidelineRecord::Holds {
            predicate: 0,
            i: 0,
            j: 0,
        },
    ];
    case(rt, "i", &in_turn(fire(7), fire(1)), &rules, 1000, buffers)
}

// (j): fire is logged with two triggers 0 where t_1 < t_2. The second run has a further override before.
fn two_triggers(rt: &HostRuntime, buffers: &mut Buffers) -> io::Result<()> {
    let rules = [
        GuidelineRecord::Logged(FIRE),
        GuidelineRecord::Trigger(OVERRIDE),
        GuidelineRecord::Trigger(OVERRIDE),
        GuidelineRecord::Earlier { i: 1, j: 2 },
    ];
    let main = in_turn(override_with(3), fire(7));
    case(rt, "j", &main, &rules, 1000, buffers)?;
    let [a, b, c, d, e, f, g, h] = in_turn(override_with(4), fire(7));
    let [k, l, m] = override_with(3).records();
    let main = [
        ScriptRecord::Application,
        ScriptRecord::Abstraction(0),
        a,
        b,
        c,
        d,
        e,
        f,
        g,
        h,
        k,
        l,
        m,
    ];
    case(rt, "j", &main, &rules, 1000, buffers)
}

// (a), (b) and (c): override and fire in this order, with the budget cut off, and in the other order.
fn orders(rt: &HostRuntime, buffers: &mut Buffers) -> io::Result<()> {
    let main = in_turn(override_with(3), fire(7));
    case(rt, "a", &main, &AFTER_OVERRIDE, 1000, buffers)?;
    // The budget cuts off the call of fire.
    case(rt, "b", &main, &AFTER_OVERRIDE, 2, buffers)?;
    let main = in_turn(fire(3), override_with(7));
    case(rt, "c", &main, &AFTER_OVERRIDE, 1000, buffers)
}

fn edges(rt: &HostRuntime) -> io::Result<()> {
    let mut buffers = BUFFERS;
    orders(rt, &mut buffers)?;
    no_calls(rt, &mut buffers)?;
    // Fire its own trigger.
    let after_fire = [
        GuidelineRecord::Logged(FIRE),
        GuidelineRecord::Trigger(FIRE),
    ];
    case(
        rt,
        "f",
        &in_turn(fire(5), fire(7)),
        &after_fire,
        1000,
        &mut buffers,
    )?;
    label(rt, &mut buffers)?;
    closure(rt, 1, 3, &mut buffers)?;
    closure(rt, 3, 1, &mut buffers)?;
    one_fact(rt, &mut buffers)?;
    two_triggers(rt, &mut buffers)
}

// What cannot be written has nobody to be told to, and the gate compares what is printed: so that error is dropped.
fn main(rt: HostRuntime) {
    let _ = edges(&rt);
}
