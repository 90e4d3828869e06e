// The answers of the entries as words for C: structs of words, by value. A number 0 in them is C's word for no refusal, as include/lorgwin.h has it.
#![tactic(auto)]

ghost use Rattle.std.specs.Prelude.{◌≡◌};
ghost use Rattle.refusal.specs.Refusal.{verdict_of};
ghost use Rattle.rewriting.specs.Answer as rewrites;
ghost use Rattle.plain.specs.Answer as plains;
ghost use Rattle.rewritten.specs.Answer as runs;
ghost use Rattle.answers.specs.Answers.{words_of, passed_word, rewriting_words, plain_words, rewritten_words};

use refusal::Refusal;

#[repr(C)]
#[derive(Clone, Copy)]
pub struct VerdictWords {
    pub number: u32,
    pub place: u32,
}

#[repr(C)]
#[derive(Clone, Copy)]
pub struct RewritingWords {
    pub number: u32,
    pub place: u32,
    pub records: u32,
}

#[repr(C)]
#[derive(Clone, Copy)]
pub struct PlainWords {
    pub number: u32,
    pub place: u32,
    pub outcome: u32,
    pub steps: u32,
}

#[repr(C)]
#[derive(Clone, Copy)]
pub struct RewrittenWords {
    pub number: u32,
    pub place: u32,
    pub outcome: u32,
    pub steps: u32,
    pub history_count: u32,
    pub log_count: u32,
}

impl From<Result<(), Refusal>> for VerdictWords {
    ghost from_gives = { λ answer words. words ≡ words_of (verdict_of answer) };

    fn from(answer: Result<(), Refusal>) -> VerdictWords {
        match answer {
            Ok(()) => VerdictWords {
                number: 0,
                place: 0,
            },
            Err(refusal) => VerdictWords {
                number: u32::from(refusal.reason),
                place: refusal.place,
            },
        }
    }
}

impl From<Result<u32, Refusal>> for RewritingWords {
    ghost from_gives = { λ answer words. words ≡ rewriting_words (rewrites.answer_of answer) };

    fn from(answer: Result<u32, Refusal>) -> RewritingWords {
        match answer {
            Ok(records) => RewritingWords {
                number: 0,
                place: 0,
                records,
            },
            Err(refused) => RewritingWords {
                number: u32::from(refused.reason),
                place: refused.place,
                records: 0,
            },
        }
    }
}

impl From<Result<plain::Ran, Refusal>> for PlainWords {
    ghost from_gives = { λ answer words. words ≡ plain_words (plains.answer_of answer) };

    fn from(answer: Result<plain::Ran, Refusal>) -> PlainWords {
        match answer {
            Ok(ran) => PlainWords {
                number: 0,
                place: 0,
                outcome: u32::from(ran.outcome),
                steps: ran.steps,
            },
            Err(why) => PlainWords {
                number: u32::from(why.reason),
                place: why.place,
                outcome: 0,
                steps: 0,
            },
        }
    }
}

impl From<Result<rewritten::Ran, Refusal>> for RewrittenWords {
    ghost from_gives = { λ answer words. words ≡ rewritten_words (runs.answer_of answer) };

    fn from(answer: Result<rewritten::Ran, Refusal>) -> RewrittenWords {
        match answer {
            Ok(ran) => RewrittenWords {
                number: 0,
                place: 0,
                outcome: u32::from(ran.outcome),
                steps: ran.counts.steps,
                history_count: ran.counts.history,
                log_count: ran.counts.log,
            },
            Err(fault) => RewrittenWords {
                number: u32::from(fault.reason),
                place: fault.place,
                outcome: 0,
                steps: 0,
                history_count: 0,
                log_count: 0,
            },
        }
    }
}

// The record after the term; 2 ^ 64 - 1, a word that C has, for none. No `From` says this: neither `Option` nor `u64` is a type of ours.
pub fn passed_word(p: Option<usize>) -> u64
    ensures { result ≡ passed_word p }
{
    match p {
        Some(i) => i as u64,
        None => 0xffff_ffff_ffff_ffff,
    }
}
