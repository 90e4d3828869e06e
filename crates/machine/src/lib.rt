// One step of a run, on the bytes: where a script's bodies lie, and the redex replaced by the body that takes its argument, by a sum or by the
// term that a branch chooses. Kinds of records stay bytes: `terms::arity_of` says why.
#![tactic(auto)]

ghost use Rattle.std.specs.Prelude.{◌≡◌, ◌+◌, ◌-◌, ◌*◌, ◌≤◌, ◌<◌, length, take, drop};
ghost use Rattle.calculus.specs.Step.{step};
ghost use Rattle.script.specs.declared.Purpose.TheVariants.{RewrittenRun};
ghost use Rattle.terms.specs.Record.{kind_at};
ghost use Rattle.substitution.specs.Copied.{copied, WrittenIs};
ghost use Rattle.zipper.specs.Zipper.{whole_in};
ghost use Rattle.machine.specs.Program.{Formed, code_in};
ghost use Rattle.machine.specs.Bodies.{commands_at, Positions, Found};
ghost use Rattle.machine.specs.Fire.{body_for, Source, Around, RoomIs, Ready, FiredIs, FitsIs};
ghost use Rattle.machine.specs.Choice.{Addends, summed, Fork, ChoiceIs};
ghost use Rattle.machine.specs.Outcome.{outcome_number};
ghost use Rattle.machine.specs.Once.{Positions-prop};

use history::Commands;
use words::Number;
use zipper::Redex;

// How a run ends.
#[derive(Clone, Copy, PartialEq, Eq, Debug)]
pub enum Outcome {
    Value,
    Stuck,
    Spent,
    Large,
    Full,
}

// The number of an outcome.
impl From<Outcome> for u32 {
    ghost from_gives = { λ outcome n. n ≡ outcome_number outcome };

    fn from(outcome: Outcome) -> u32 {
        match outcome {
            Outcome::Value => 0,
            Outcome::Stuck => 1,
            Outcome::Spent => 2,
            Outcome::Large => 3,
            Outcome::Full => 4,
        }
    }
}

// Where a function's body begins after its commands, and these.
#[derive(Clone, Copy)]
pub struct Body {
    pub at: u32,
    pub commands: Commands,
}

// What stands where no function's body is found: the list has fixed memory, for the most functions that a script may have.
pub const NO_BODY: Body = Body {
    at: 0,
    commands: Commands::None,
};

// The code that a run goes by: a script, and where the bodies of its functions begin. That the script is `Formed` is no field, since `fire` and `fits`
// do not ask for it.
#[derive(Clone, Copy)]
pub struct Code<'a> {
    pub script: &'a [u8],
    pub bodies: &'a [Body],
    pub ghost positions: { Positions script.now bodies.now } by { Positions-prop script.now bodies.now },
}

// The commands that the body at a record begins with. Each has an argument of one record.
fn commands(s: &[u8], body: usize) -> Commands
    requires body_in_bounds { 8 * body < length s.now }
    requires second_in_bounds { kind_at s.now body ≡ 6 → 8 * (body + 2) < length s.now }
    ensures { result ≡ commands_at s.now body }
{
    if s[8 * body] != 6 {
        return Commands::None;
    }
    if s[8 * (body + 2)] != 7 {
        return Commands::Note;
    }
    Commands::NoteAndLog
}

// Finds for each function the record where its body begins after its commands, and these; and the main term's record. What is accepted for any
// purpose is so for the rewritten run (proofs/Program.formed-any). The slice is lent and may be longer: an array would ask more of a caller.
pub fn find_bodies(script: &[u8], bodies: &mut [Body]) -> usize
    requires formed { Formed RewrittenRun script.now }
    requires bodies_room { 128 ≤ length bodies.old }
    ensures { Found script.now bodies.new result }
{
    let mut at = 0;
    let mut f = 0;
    // By whole terms and not by one: no `for` counts this, and f goes along with it.
    while script[8 * at] == 8 {
        let commands = commands(script, at + 1);
        bodies[f] = Body {
            at: (at + 1 + 2 * commands.count()) as u32,
            commands,
        };
        f += 1;
        at = zipper::end_of(script, at + 1);
    }
    at
}

// Writes the body that the application at record p goes to to the start of out, with the argument put into it: the called function's body from
// the script, or the abstraction's from the expression. Says where it ends, if out has room for it. Out and the stack are lent
// one by one, as to `fire`.
fn reduce(
    e: &[u8],
    p: usize,
    argument: &[u8],
    code: &Code<'_>,
    out: &mut [u8],
    st: &mut [u16],
) -> Option<usize>
    requires source { Source e.now code.now.script.now code.now.bodies.now p }
    requires stack_room { 1024 ≤ length st.old }
    ensures { WrittenIs (copied 0 argument.now (body_for e.now code.now.script.now code.now.bodies.now p)) out.old 0 result out.new }
{
    let kind = e[8 * (p + 1)];
    match kind {
        2 => {
            let f = terms::number(e, p + 1) as usize;
            substitution::substitute(code.script, code.bodies[f].at as usize, argument, out, st)
        }
        4 => substitution::substitute(e, p + 2, argument, out, st),
        // Nothing else is applied.
        _ => unreachable!(),
    }
}

// Where an application's argument ends, and the bytes that 1,024 records leave for its result.
fn room(e: &[u8], redex: Redex) -> (usize, usize)
    requires { Around e.now redex.p redex.gap.r }
    ensures { RoomIs e.now redex.p redex.gap.r result.0 result.1 }
{
    let end = zipper::end_of(e, redex.gap.r);
    let room = 8 * (1024 - (redex.p + (3072 - end)));
    (end, room)
}

// Fires an application and says where the next focus begins. The result goes to scratch first: where it would leave over 1,024 records in all,
// nothing has changed yet.
fn apply(
    e: &mut [u8],
    scratch: &mut [u8],
    st: &mut [u16],
    code: &Code<'_>,
    redex: Redex,
) -> Option<usize>
    requires ready { Ready (code_in code.now.script.now) e.old redex.p redex.gap.l redex.gap.r (whole_in e.old redex.gap.l redex.gap.r) }
    requires p_value { kind_at e.old redex.p ≡ 5 }
    requires scratch_room { 24576 ≤ length scratch.old }
    requires stack_room { 1024 ≤ length st.old }
    ensures { FiredIs (whole_in e.old redex.gap.l redex.gap.r) (step (code_in code.now.script.now) (whole_in e.old redex.gap.l redex.gap.r)) redex.p redex.gap.l redex.gap.r result e.old e.new }
{
    let (end, room) = room(e, redex);
    let out = &mut scratch[..room];
    let whole = &e[..];
    let argument = &whole[8 * redex.gap.r..8 * end];
    let q = reduce(whole, redex.p, argument, code, out, st)?;
    words::copy(e, 8 * end - q, out, 0, q);
    Some(end - q / 8)
}

// Adds the two constants of a sum: their sum takes the place of the second, at the focus.
fn add(e: &mut [u8], redex: Redex)
    requires { Addends e.old redex.p redex.gap.r }
    ensures { e.new ≡ summed e.old redex.p redex.gap.r }
{
    let total = terms::number(e, redex.p + 1) + terms::number(e, redex.gap.r);
    total.write(e, 8 * redex.gap.r + 4);
}

// Chooses a term of the branch whose first, a constant, is at record r, and says where it begins: on 0 the second, which is moved to end where
// the third does, else the third as it lies.
fn choose(e: &mut [u8], r: usize) -> usize
    requires { Fork e.old r }
    ensures { ChoiceIs e.old r result e.new }
{
    let third = zipper::end_of(e, r + 1);
    if terms::number(e, r) != 0 {
        return third;
    }
    let n = third - (r + 1);
    let to = zipper::end_of(e, third) - n;
    words::move_within(e, 8 * to, 8 * (r + 1), 8 * n);
    to
}

// Fires a redex: what is done of it ends where the gap begins, and the focus begins where the gap ends. Says where the next focus begins, if the
// step leaves at most 1,024 records in all: a sum and a branch leave fewer than they have. Scratch and stack are lent, as a step allocates
// nothing; as slices, since an array would ask more of a caller. `Ready` speaks of the expression, which a step changes, so no struct can hold it.
pub fn fire(
    e: &mut [u8],
    scratch: &mut [u8],
    st: &mut [u16],
    code: &Code<'_>,
    redex: Redex,
) -> Option<usize>
    requires ready { Ready (code_in code.now.script.now) e.old redex.p redex.gap.l redex.gap.r (whole_in e.old redex.gap.l redex.gap.r) }
    requires scratch_room { 24576 ≤ length scratch.old }
    requires stack_room { 1024 ≤ length st.old }
    ensures { FiredIs (whole_in e.old redex.gap.l redex.gap.r) (step (code_in code.now.script.now) (whole_in e.old redex.gap.l redex.gap.r)) redex.p redex.gap.l redex.gap.r result e.old e.new }
{
    let kind = e[8 * redex.p];
    match kind {
        5 => apply(e, scratch, st, code, redex),
        9 => {
            add(e, redex);
            Some(redex.gap.r)
        }
        10 => Some(choose(e, redex.gap.r)),
        // No other kind begins a redex.
        _ => unreachable!(),
    }
}

// Whether the redex's result leaves at most 1,024 records in all, as that of a sum or a branch does; the expression stays as it is.
pub fn fits(e: &[u8], scratch: &mut [u8], st: &mut [u16], code: &Code<'_>, redex: Redex) -> bool
    requires ready { Ready (code_in code.now.script.now) e.now redex.p redex.gap.l redex.gap.r (whole_in e.now redex.gap.l redex.gap.r) }
    requires scratch_room { 24576 ≤ length scratch.old }
    requires stack_room { 1024 ≤ length st.old }
    ensures { FitsIs (step (code_in code.now.script.now) (whole_in e.now redex.gap.l redex.gap.r)) result }
{
    if e[8 * redex.p] != 5 {
        return true;
    }
    let (end, room) = room(e, redex);
    let argument = &e[8 * redex.gap.r..8 * end];
    let out = &mut scratch[..room];
    reduce(e, redex.p, argument, code, out, st).is_some()
}
