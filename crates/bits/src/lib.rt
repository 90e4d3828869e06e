// Bits of a 64-bit word, counted from 0 at the low end.
#![tactic(auto)]

ghost use Rattle.std.specs.Prelude.{◌≡◌, true, ◌↔◌, ◌^◌, ◌<◌, MatchOption};
ghost use Rattle.std.specs.Iterator.{at_most};
ghost use Rattle.bits.specs.Bits.{bit_of, Single, FirstBit};

// Whether bit a of w is set.
#[tactic(auto, unfolding(crate::specs::Bits::bit_of))]
pub fn bit(w: u64, a: usize) -> bool
    requires { a < 64 }
    ensures { result ≡ bit_of w a }
{
    (w >> a) % 2 == 1
}

// The word whose only set bit is a.
pub fn one(a: usize) -> u64
    requires { a < 64 }
    ensures { result ≡ 2 ^ a }
{
    1u64 << a
}

// Whether exactly one bit of w is set.
pub fn single(w: u64) -> bool
    ensures { (result ≡ true) ↔ Single w }
{
    w.is_power_of_two()
}

// The set bits of a word, from the low end up. As an iterator it holds those that are left.
#[derive(Clone, Copy)]
pub struct SetBits(pub u64);

impl Iterator for SetBits {
    type Item = usize;

    ghost next_gives = { λ s r t. MatchOption r ((s.0 ≡ 0) × (t.0 ≡ 0)) (λ a. FirstBit s.0 a t.0) };

    ghost remaining = { λ s. at_most s.0 };

    fn next(&mut self) -> Option<usize> {
        if self.0 == 0 {
            return None;
        }
        let a = self.0.trailing_zeros() as usize;
        self.0 &= self.0 - 1;
        Some(a)
    }
}
