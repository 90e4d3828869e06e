// What a check refuses.
#![tactic(auto)]

ghost use Rattle.std.specs.Prelude.{◌≡◌, ◌^◌, ◌<◌};
ghost use Rattle.refusal.specs.Refusal.{number_of, refusal_at};

// Why something is refused, by the names of include/lorgwin.h: what the script's author mends, the guideline's author, the caller.
#[derive(Clone, Copy, PartialEq, Eq, Debug)]
pub enum Reason {
    ScriptLength,
    ScriptRecord,
    ScriptOrder,
    ScriptDefinition,
    ScriptVariable,
    ScriptFunction,
    ScriptCommand,
    GuidelineLength,
    GuidelineRecord,
    GuidelineOrder,
    GuidelineVariable,
    GuidelineCount,
    GuidelineIndex,
    GuidelineFunction,
    OutputShort,
    Budget,
    BufferShort,
}

// The number of a reason.
impl From<Reason> for u32 {
    ghost from_gives = { λ reason number. number ≡ number_of reason };

    fn from(reason: Reason) -> u32 {
        match reason {
            Reason::ScriptLength => 1,
            Reason::ScriptRecord => 2,
            Reason::ScriptOrder => 3,
            Reason::ScriptDefinition => 4,
            Reason::ScriptVariable => 5,
            Reason::ScriptFunction => 6,
            Reason::ScriptCommand => 7,
            Reason::GuidelineLength => 11,
            Reason::GuidelineRecord => 12,
            Reason::GuidelineOrder => 13,
            Reason::GuidelineVariable => 14,
            Reason::GuidelineCount => 15,
            Reason::GuidelineIndex => 16,
            Reason::GuidelineFunction => 17,
            Reason::OutputShort => 21,
            Reason::Budget => 22,
            Reason::BufferShort => 23,
        }
    }
}

// A refusal: the reason, and the first faulty record.
#[derive(Clone, Copy, PartialEq, Eq, Debug)]
pub struct Refusal {
    pub reason: Reason,
    pub place: u32,
}

impl Refusal {
    // At a record.
    pub fn at(reason: Reason, place: usize) -> Refusal
        requires { place < 2 ^ 32 }
        ensures { result ≡ refusal_at reason place }
    {
        Refusal {
            reason,
            place: place as u32,
        }
    }

    // Of a whole file, a buffer or the budget: document 01 has place 0 there.
    pub fn whole(reason: Reason) -> Refusal
        ensures { result ≡ refusal_at reason 0 }
    {
        Refusal { reason, place: 0 }
    }
}
