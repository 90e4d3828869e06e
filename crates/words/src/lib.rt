// Numbers in bytes, the low byte first, and the moving of bytes: what every reader and writer of the engine's buffers goes by.
#![tactic(auto)]

ghost use Rattle.std.specs.Prelude.{◌≡◌, [], ℕ, ◌+◌, ◌↔◌, ◌≤◌, length, IsTrue};
ghost use Rattle.words.specs.Bytes.{bytes, part, number_at};
ghost use Rattle.words.specs.Put.{put};
ghost use Rattle.words.specs.Filled.{zeros, filled};

// The N bytes from a place on.
#[tactic(auto, unfolding(crate::specs::Bytes::part))]
fn array<const N: usize>(s: &[u8], i: usize) -> [u8; N]
    requires { i + N ≤ length s.now }
    ensures { result ≡ part s.now i N }
{
    let mut a = [0; N];
    a.copy_from_slice(&s[i..i + N]);
    a
}

// Writes bytes over those from a place on.
#[tactic(auto, unfolding(crate::specs::Put::put))]
fn write(b: &mut [u8], at: usize, u: &[u8])
    requires { at + length u.now ≤ length b.old }
    ensures { b.new ≡ put b.old at u.now }
{
    b[at..at + u.len()].copy_from_slice(u);
}

// A number that stands in a slice, the low byte first.
pub trait Number: Copy {
    // How many bytes it has.
    ghost width: { ℕ };

    // The number itself.
    ghost value: { Self → ℕ };

    // The number of the bytes from a place on.
    fn read(s: &[u8], i: usize) -> Self
        requires { i + width ≤ length s.now }
        ensures { value result ≡ number_at width s.now i };

    // Writes the number's bytes from a place on.
    fn write(self, b: &mut [u8], i: usize)
        requires { i + width ≤ length b.old }
        ensures { b.new ≡ put b.old i (bytes width (value self)) };
}

// The three impls differ in their type alone: std's `from_le_bytes` is no trait's, and no macro of ours may write an impl.
impl Number for u16 {
    ghost width = { 2 };

    ghost value = { λ x. x };

    fn read(s: &[u8], i: usize) -> u16 {
        u16::from_le_bytes(array(s, i))
    }

    fn write(self, b: &mut [u8], i: usize) {
        write(b, i, &u16::to_le_bytes(self));
    }
}

impl Number for u32 {
    ghost width = { 4 };

    ghost value = { λ x. x };

    fn read(s: &[u8], i: usize) -> u32 {
        u32::from_le_bytes(array(s, i))
    }

    fn write(self, b: &mut [u8], i: usize) {
        write(b, i, &u32::to_le_bytes(self));
    }
}

impl Number for u64 {
    ghost width = { 8 };

    ghost value = { λ x. x };

    fn read(s: &[u8], i: usize) -> u64 {
        u64::from_le_bytes(array(s, i))
    }

    fn write(self, b: &mut [u8], i: usize) {
        write(b, i, &u64::to_le_bytes(self));
    }
}

// Copies n bytes of u from a place on to a place of b. A loop, since most runs that are copied are short: with `copy_from_slice`, which calls memmove, a
// function that calls itself (w2) takes 1.09 times as long.
#[tactic(auto, unfolding(crate::specs::Bytes::part, crate::specs::Put::put))]
pub fn copy(b: &mut [u8], at: usize, u: &[u8], from: usize, n: usize)
    requires at_in_bounds { at + n ≤ length b.old }
    requires from_in_bounds { from + n ≤ length u.now }
    ensures { b.new ≡ put b.old at (part u.now from n) }
{
    for i in 0..n {
        b[at + i] = u[from + i];
    }
}

// Writes n zeros from a place on.
#[tactic(auto, unfolding(crate::specs::Put::put))]
pub fn zero(b: &mut [u8], at: usize, n: usize)
    requires { at + n ≤ length b.old }
    ensures { b.new ≡ put b.old at (zeros n) }
{
    b[at..at + n].fill(0);
}

// Zeros in the first n bytes.
#[tactic(auto, unfolding(crate::specs::Filled::filled))]
pub fn clear(b: &mut [u8], n: usize)
    requires { n ≤ length b.old }
    ensures { b.new ≡ filled n [] b.old }
{
    b[..n].fill(0);
}

// Moves n bytes within one buffer; the two ranges may overlap.
#[tactic(auto, unfolding(crate::specs::Bytes::part, crate::specs::Put::put))]
pub fn move_within(b: &mut [u8], to: usize, from: usize, n: usize)
    requires to_in_bounds { to + n ≤ length b.old }
    requires from_in_bounds { from + n ≤ length b.old }
    ensures { b.new ≡ put b.old to (part b.old from n) }
{
    b.copy_within(from..from + n, to);
}

// Whether n bytes of a and n bytes of b are the same.
#[tactic(auto, unfolding(crate::specs::Bytes::part))]
pub fn same(a: &[u8], i: usize, b: &[u8], j: usize, n: usize) -> bool
    requires i_in_bounds { i + n ≤ length a.now }
    requires j_in_bounds { j + n ≤ length b.now }
    ensures { IsTrue result ↔ (part a.now i n ≡ part b.now j n) }
{
    a[i..i + n] == b[j..j + n]
}
