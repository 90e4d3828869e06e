// The entries for C, as include/lorgwin.h declares them: answers are structs of words, by value, and the buffers are parameters one by one, since
// a C caller lends each by its own pointer and length.
#![tactic(auto)]

ghost use Rattle.std.specs.Prelude.{◌≡◌};
ghost use Rattle.terms.specs.Walk.{pass_term};
ghost use Rattle.records.specs.Entries.{check_of, derive_of};
ghost use Rattle.rewriting.specs.Answer as rewrites;
ghost use Rattle.plain.specs.Answer as plains;
ghost use Rattle.rewritten.specs.Answer as runs;
ghost use Rattle.rehearsal.specs.Rehearsal as rehearsals;
ghost use Rattle.answers.specs.Answers.{words_of, passed_word};
ghost use Rattle.console.specs.Left.{leaves_words, derived_words, writes_words, written_words, ran_words, plain_run_words, logged_words, rewritten_run_words, rehearses_words, rehearsal_words};

use answers::{PlainWords, RewritingWords, RewrittenWords, VerdictWords, passed_word};

#[unsafe(no_mangle)]
pub extern "C" fn lorgwin_check(script: &[u8], guideline: &[u8]) -> VerdictWords
    ensures { result ≡ words_of (check_of script.now guideline.now) }
{
    VerdictWords::from(records::check(script, guideline))
}

#[unsafe(no_mangle)]
pub extern "C" fn lorgwin_derive(guideline: &[u8], table: &mut [u8]) -> VerdictWords
    ensures { leaves_words table.new result ≡ derived_words (derive_of guideline.now table.old) }
{
    VerdictWords::from(records::derive(guideline, table))
}

#[unsafe(no_mangle)]
pub extern "C" fn lorgwin_pass_term(script: &[u8], at: u64) -> u64
    ensures { result ≡ passed_word (pass_term script.now at) }
{
    passed_word(records::pass_term(script, at as usize))
}

#[unsafe(no_mangle)]
pub extern "C" fn lorgwin_rewrite(script: &[u8], guideline: &[u8], out: &mut [u8]) -> RewritingWords
    ensures { writes_words out.new result ≡ written_words (rewrites.rewriting script.now guideline.now out.old) }
{
    RewritingWords::from(rewriting::rewrite(script, guideline, out))
}

#[unsafe(no_mangle)]
pub extern "C" fn lorgwin_run_plain(
    script: &[u8],
    budget: u32,
    expression: &mut [u8],
    scratch: &mut [u8],
) -> PlainWords
    ensures { ran_words result expression.new scratch.new ≡ plain_run_words (plains.plain_of script.now budget expression.old scratch.old) }
{
    PlainWords::from(plain::plain(script, budget, expression, scratch))
}

#[unsafe(no_mangle)]
pub extern "C" fn lorgwin_run_rewritten(
    script: &[u8],
    guideline: &[u8],
    budget: u32,
    expression: &mut [u8],
    scratch: &mut [u8],
    history: &mut [u8],
    log: &mut [u8],
    table: &mut [u8],
) -> RewrittenWords
    ensures { logged_words result expression.new scratch.new history.new log.new table.new ≡ rewritten_run_words (runs.rewritten_of script.now guideline.now budget expression.old scratch.old history.old log.old table.old) }
{
    RewrittenWords::from(rewritten::rewritten(
        script, guideline, budget, expression, scratch, history, log, table,
    ))
}

#[unsafe(no_mangle)]
pub extern "C" fn lorgwin_rehearse(
    script: &[u8],
    guideline: &[u8],
    budget: u32,
    out: &mut [u8],
    expression: &mut [u8],
    scratch: &mut [u8],
    history: &mut [u8],
    log: &mut [u8],
    table: &mut [u8],
) -> RewrittenWords
    ensures { rehearses_words out.new (logged_words result expression.new scratch.new history.new log.new table.new) ≡ rehearsal_words (rehearsals.rehearsal_of script.now guideline.now budget out.old expression.old scratch.old history.old log.old table.old) }
{
    RewrittenWords::from(rehearsal::rehearse(
        script, guideline, budget, out, expression, scratch, history, log, table,
    ))
}
