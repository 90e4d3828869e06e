// An expression in a buffer with a gap at the place of work: what stands before the focus at the front, the focus and what follows it at the
// end. A step moves only what it changes, and the search for the next redex goes on from the last one.
// Kinds of records stay bytes: `terms::arity_of` says why.
#![tactic(auto)]

ghost use Rattle.std.specs.Prelude.{◌≡◌, ◌+◌, ◌-◌, ◌<◌, ◌≤◌};
ghost use Rattle.terms.specs.Record.{count, kind_at, record_number};
ghost use Rattle.terms.specs.Read.{term_at};
ghost use Rattle.zipper.specs.Zipper.{whole_in, end_at, Whole, copied_to, ZipOf, Flat, SoughtIs, head_case, sum_case, pair_case, branch_case, Last, Loaded, Stored};

use words::Number;

// The gap of the buffer: where the left part ends, and where the rest, which begins with the focus, begins.
#[derive(Clone, Copy)]
pub struct Gap {
    pub l: usize,
    pub r: usize,
}

// What stands for a frame around the focus: the place of its record in the left part, and whether its first part is done.
#[derive(Clone, Copy, Default)]
pub struct Entry {
    pub place: u16,
    pub done: bool,
}

// A redex that a search found: the record that it begins with, the gap, and the count of frames.
#[derive(Clone, Copy)]
pub struct Redex {
    pub p: usize,
    pub gap: Gap,
    pub depth: usize,
}

// What a search finds, and where the gap is then.
#[derive(Clone, Copy)]
pub enum Sought {
    Value(Gap),
    Stuck(Gap),
    Redex(Redex),
}

// The record after the term at a record, or the record itself where no term begins: callers stand on whole terms, and the Option is
// `terms::pass_term` itself.
pub fn end_of(s: &[u8], at: usize) -> usize
    ensures { result ≡ end_at s.now at }
{
    terms::pass_term(s, at).unwrap_or(at)
}

// Copies the term that ends a script to the end of the buffer: all of it is the focus.
pub fn load(script: &[u8], main: usize, e: &mut [u8; 24576]) -> usize
    requires { Last script.now main }
    ensures { Loaded (term_at script.now main) result e.old e.new }
{
    let n = script.len() - 8 * main;
    words::copy(e, 24576 - n, script, 8 * main, n);
    3072 - n / 8
}

// An application or a sum of two values, which is the redex if it is one: the first begins after its record, the second is the focus.
#[derive(Clone, Copy)]
struct Pair<'a> {
    e: &'a [u8],
    redex: Redex,
    ghost first: { redex.p + 1 < count e.now },
    ghost second: { redex.gap.r < count e.now },
}

impl<'a> Pair<'a> {
    // The answer at a function and an argument: only a function name or an abstraction is applied.
    fn at_head(&self) -> Sought
        ensures { result ≡ head_case (kind_at self.now.e.now (self.now.redex.p + 1)) self.now.redex }
    {
        let kind = self.e[8 * (self.redex.p + 1)];
        match kind {
            2 | 4 => Sought::Redex(self.redex),
            _ => Sought::Stuck(self.redex.gap),
        }
    }

    // The answer at two values in a sum: only two constants are added, and only where their sum fits a constant.
    fn at_sum(&self) -> Sought
        ensures { result
            ≡ sum_case (kind_at self.now.e.now (self.now.redex.p + 1)) (kind_at self.now.e.now self.now.redex.gap.r) (record_number self.now.e.now (self.now.redex.p + 1)) (record_number self.now.e.now self.now.redex.gap.r) self.now.redex }
    {
        let Redex { p, gap, .. } = self.redex;
        if self.e[8 * (p + 1)] != 3 {
            return Sought::Stuck(gap);
        }
        if self.e[8 * gap.r] != 3 {
            return Sought::Stuck(gap);
        }
        let first = terms::number(self.e, p + 1);
        let second = terms::number(self.e, gap.r);
        match first.checked_add(second) {
            Some(_) => Sought::Redex(self.redex),
            None => Sought::Stuck(gap),
        }
    }

    // The answer, by the kind of its record.
    fn answer(&self) -> Sought
        ensures { result ≡ pair_case self.now.e.now self.now.redex }
    {
        let kind = self.e[8 * self.redex.p];
        match kind {
            5 => self.at_head(),
            9 => self.at_sum(),
            // A branch is answered before, and nothing else has a frame. To prove that here, the struct would carry a third fact.
            _ => Sought::Stuck(self.redex.gap),
        }
    }
}

// The answer at a branch on a value of a kind: only a constant decides.
fn at_branch(kind: u8, redex: Redex) -> Sought
    ensures { result ≡ branch_case kind redex }
{
    match kind {
        3 => Sought::Redex(redex),
        _ => Sought::Stuck(redex.gap),
    }
}

// Copies the term after the gap down to its front and says where the gap is then: each record is copied, as one word, as it is passed over. The loop is
// that of `terms::pass_term` with this copy in each turn; one for both would lend passing a buffer that it does not write.
fn leave(e: &mut [u8], gap: Gap) -> Gap
    requires l_le_r { gap.l ≤ gap.r }
    requires whole { Whole e.old gap.r }
    ensures right { result.r ≡ end_at e.old gap.r }
    ensures left { result.l ≡ gap.l + (result.r - gap.r) }
    ensures copied { e.new ≡ copied_to e.old gap.l gap.r }
{
    let mut wanted: usize = 1;
    for i in gap.r..e.len() / 8 {
        let to = gap.l + (i - gap.r);
        let record = u64::read(e, 8 * i);
        record.write(e, 8 * to);
        let kind = (record % 256) as u8;
        match kind {
            1..=3 => {
                wanted -= 1;
                if wanted == 0 {
                    return Gap {
                        l: to + 1,
                        r: i + 1,
                    };
                }
            }
            4 => {}
            5..=7 => {
                wanted += 1;
            }
            9..=10 => {
                wanted += terms::further(kind);
            }
            // A whole term has no other kind.
            _ => unreachable!(),
        }
    }
    // It ends in the buffer.
    unreachable!()
}

// Goes on from the focus to the next redex. A term that is no value is entered and a value left behind, so each turn takes records from the
// right part. Up to an answer, by what the focus is: nothing counts the turns. The frames are a slice with their count beside, since a stack with its
// own length would be a type that asks more of a caller.
pub fn seek(e: &mut [u8], frames: &mut [Entry], gap: Gap, count: usize) -> Sought
    requires { ZipOf e.old frames.old gap.l gap.r count (whole_in e.old gap.l gap.r) }
    ensures { SoughtIs (whole_in e.old gap.l gap.r) result e.new frames.new }
{
    let mut here = gap;
    let mut depth = count;
    loop {
        let kind = e[8 * here.r];
        match kind {
            1..=4 => {
                if depth == 0 {
                    return Sought::Value(here);
                }
                // The entry's parts are read one by one, as they were written: read as a whole it has to wait for both, which made w2 a third slower.
                let p = usize::from(frames[depth - 1].place);
                let redex = Redex {
                    p,
                    gap: here,
                    depth,
                };
                if frames[depth - 1].done {
                    return Pair { e, redex }.answer();
                }
                if e[8 * p] == 10 {
                    return at_branch(kind, redex);
                }
                here = leave(e, here);
                frames[depth - 1].done = true;
            }
            5 | 9..=10 => {
                // The record as one word: its other bytes are 0.
                u64::from(kind).write(e, 8 * here.l);
                frames[depth] = Entry {
                    place: here.l as u16,
                    done: false,
                };
                here.l += 1;
                here.r += 1;
                depth += 1;
            }
            // No other kind stands in an expression.
            _ => unreachable!(),
        }
    }
}

// Closes the gap, and fills the rest of the buffer with zeros.
pub fn store(e: &mut [u8], gap: Gap) -> usize
    requires { Flat e.old gap.l gap.r (whole_in e.old gap.l gap.r) }
    ensures { Stored (whole_in e.old gap.l gap.r) result e.old e.new }
{
    words::move_within(e, 8 * gap.l, 8 * gap.r, 24576 - 8 * gap.r);
    let n = gap.l + (3072 - gap.r);
    words::zero(e, 8 * n, 24576 - 8 * n);
    n
}
