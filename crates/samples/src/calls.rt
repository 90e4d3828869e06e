// The engine's calls. All buffers are full before, so that whatever is read there has been written.
ghost use Rattle.std.specs.Prelude.{◌≡◌, Some};
ghost use Rattle.refusal.specs.Refusal.{verdict_of};
ghost use Rattle.plain.specs.Answer as plain_run;
ghost use Rattle.rewritten.specs.Answer as rewritten_run;
ghost use Rattle.rehearsal.specs.Rehearsal.{Claimed};
ghost use Rattle.samples.specs.Calls.{verdict_text, IsFull, plain_after, rehearsed};

use refusal::Refusal;
use std::fmt;

// A check's answer as the lines have it: number and place, 0 and 0 where nothing is refused.
#[derive(Clone, Copy)]
pub struct Numbers(pub Result<(), Refusal>);

impl fmt::Display for Numbers {
    ghost output = { λ shown. Some (verdict_text (verdict_of shown.0)) };

    fn fmt<W: fmt::Write>(&self, f: &mut fmt::Formatter<W>) -> fmt::Result {
        match self.0 {
            Ok(()) => write!(f, "0 0"),
            Err(refusal) => write!(f, "{} {}", u32::from(refusal.reason), refusal.place),
        }
    }
}

// What programs read of what a call leaves. A program makes it once and lends it to one call after another; what it does not read is each
// call's own.
#[derive(Drop)]
pub struct Buffers {
    pub expression: [u8; 24576],
    pub history: [u8; 16384],
    pub log: [u8; 16384],
}

// Buffers that nothing was written to yet. A constant, since a function would hand them on by copies.
pub const BUFFERS: Buffers = Buffers {
    expression: [0; 24576],
    history: [0; 16384],
    log: [0; 16384],
};

impl Buffers {
    // Makes each byte of them 255.
    pub fn fill(&mut self)
        ensures { IsFull self.new }
    {
        self.expression = [255; 24576];
        self.history = [255; 16384];
        self.log = [255; 16384];
    }
}

pub fn run_plain_into(
    script: &[u8],
    budget: u32,
    buffers: &mut Buffers,
) -> Result<plain::Ran, Refusal>
    ensures answer { plain_run.answer_of result ≡ (plain_after script.now budget).answer }
    ensures expression { buffers.new.expression ≡ (plain_after script.now budget).expression }
{
    let expression = &mut buffers.expression;
    *expression = [255; 24576];
    let mut scratch = [255u8; 24576];
    plain::plain(script, budget, expression, &mut scratch)
}

// Demand 3 holds of what a rehearsal answers and leaves.
pub fn rehearse_into(
    script: &[u8],
    guideline: &[u8],
    budget: u32,
    buffers: &mut Buffers,
) -> Result<rewritten::Ran, Refusal>
    ensures answer { rewritten_run.answer_of result ≡ (rehearsed script.now guideline.now budget).run.answer }
    ensures history { buffers.new.history ≡ (rehearsed script.now guideline.now budget).run.history }
    ensures log { buffers.new.log ≡ (rehearsed script.now guideline.now budget).run.log }
    ensures claimed { Claimed script.now guideline.now budget (rewritten_run.answer_of result) buffers.new.expression buffers.new.log }
{
    buffers.fill();
    let mut out = [255u8; 10368];
    let mut scratch = [255u8; 24576];
    let mut table = [255u8; 8192];
    rehearsal::rehearse(
        script,
        guideline,
        budget,
        &mut out,
        &mut buffers.expression,
        &mut scratch,
        &mut buffers.history,
        &mut buffers.log,
        &mut table,
    )
}

// What a plain run answers and leaves.
#[derive(Drop)]
pub struct Plain {
    pub answer: Result<plain::Ran, Refusal>,
    pub expression: [u8; 24576],
}

pub fn run_plain(script: &[u8], budget: u32) -> Plain
    ensures answer { plain_run.answer_of result.answer ≡ (plain_after script.now budget).answer }
    ensures expression { result.expression ≡ (plain_after script.now budget).expression }
{
    let mut buffers = BUFFERS;
    let answer = run_plain_into(script, budget, &mut buffers);
    Plain {
        answer,
        expression: buffers.expression,
    }
}

// What a rehearsal answers and leaves. Demand 3 holds of it.
#[derive(Drop)]
pub struct Rehearsal {
    pub answer: Result<rewritten::Ran, Refusal>,
    pub expression: [u8; 24576],
    pub history: [u8; 16384],
    pub log: [u8; 16384],
}

pub fn rehearse(script: &[u8], guideline: &[u8], budget: u32) -> Rehearsal
    ensures answer { rewritten_run.answer_of result.answer ≡ (rehearsed script.now guideline.now budget).run.answer }
    ensures history { result.history ≡ (rehearsed script.now guideline.now budget).run.history }
    ensures log { result.log ≡ (rehearsed script.now guideline.now budget).run.log }
    ensures claimed { Claimed script.now guideline.now budget (rewritten_run.answer_of result.answer) result.expression result.log }
{
    let mut buffers = BUFFERS;
    let answer = rehearse_into(script, guideline, budget, &mut buffers);
    Rehearsal {
        answer,
        expression: buffers.expression,
        history: buffers.history,
        log: buffers.log,
    }
}
