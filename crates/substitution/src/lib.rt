// The copy of a term with a value in the place of a variable: one pass over the records, no recursion, and what stands between two uses of
// the variable is moved in one run. Kinds of records stay bytes: `terms::arity_of` says why.
#![tactic(auto)]

ghost use Rattle.std.specs.Prelude.{◌&&◌, ◌≡◌, ◌≤◌, eqb, length};
ghost use Rattle.terms.specs.Read.{term_at};
ghost use Rattle.substitution.specs.Copied.{copied, Lies, WrittenIs};
ghost use Rattle.substitution.specs.Stack.{closed};

use words::Number;

// Whether a record is the variable that is replaced.
fn is_use(kind: u8, number: u32, depth: usize) -> bool
    ensures { result ≡ (eqb number depth && eqb kind 1) }
{
    number as usize == depth && kind == 1
}

// How many abstractions stay open when so many terms are to come. A `for`, since with `rposition` the shortest steps (w1) take 1.14 times as long.
fn close_ended(st: &[u16], need: usize, depth: usize) -> usize
    requires { depth ≤ length st.now }
    ensures { result ≡ closed st.now need depth }
{
    for d in (0..depth).rev() {
        if usize::from(st[d]) != need {
            return d + 1;
        }
    }
    0
}

// Writes bytes from byte pos on and says where they end, if there is room.
fn put(out: &mut [u8], pos: usize, bytes: &[u8]) -> Option<usize>
    requires { pos ≤ length out.old }
    ensures { WrittenIs bytes.now out.old pos result out.new }
{
    let n = bytes.len();
    if out.len() - pos < n {
        return None;
    }
    // One record, as most arguments are, is copied as a number, and nothing, as between two uses side by side, without a loop.
    match n {
        0 => {}
        8 => u64::read(bytes, 0).write(out, pos),
        _ => words::copy(out, pos, bytes, 0, n),
    }
    Some(pos + n)
}

// Copies the term at record `at` of s to the start of out, with the bytes u for each variable whose number is the count of the term's
// abstractions open around it, and says where the copy ends, if out has room for it. The records from..i are passed and not yet written, `need`
// terms are to come, and st[j] is what `need` will be where abstraction j ends. Of st only the room for 1,024 entries is asked: an array would
// ask its very length, a stack with its own length a type.
pub fn substitute(s: &[u8], at: usize, u: &[u8], out: &mut [u8], st: &mut [u16]) -> Option<usize>
    requires lies { Lies s.now at (term_at s.now at) }
    requires stack_room { 1024 ≤ length st.old }
    ensures { WrittenIs (copied 0 u.now (term_at s.now at)) out.old 0 result out.new }
{
    let mut i = at;
    let mut from = at;
    let mut need: usize = 1;
    let mut depth: usize = 0;
    let mut pos: usize = 0;
    // Both loops end when no term is to come, and the inner one at a use too: a `for` over the records would need these tests as well.
    while 0 < need {
        // Up to the next use. Much of a run's time goes here, so the kinds are asked for by how often they stand in a script.
        while 0 < need {
            let kind = s[8 * i];
            if kind == 5 {
                need += 1;
                i += 1;
            } else if kind <= 3 {
                if is_use(kind, terms::number(s, i), depth) {
                    break;
                }
                need -= 1;
                depth = close_ended(st, need, depth);
                i += 1;
            } else if kind == 4 {
                st[depth] = (need - 1) as u16;
                depth += 1;
                i += 1;
            } else {
                need += terms::further(kind);
                i += 1;
            }
        }
        if 0 < need {
            let end = put(out, pos, &s[8 * from..8 * i])?;
            pos = put(out, end, u)?;
            from = i + 1;
            need -= 1;
            depth = close_ended(st, need, depth);
            i += 1;
        }
    }
    put(out, pos, &s[8 * from..8 * i])
}
