// A rehearsal: a script is rewritten under a guideline, and what was written is run. Demand 3 is a part of the contract.
#![tactic(auto)]

ghost use Rattle.std.specs.Prelude.{◌≡◌};
ghost use Rattle.rewritten.specs.Answer as runs;
ghost use Rattle.rehearsal.specs.Rehearsal.{after, rehearsal_of, Claimed};

use refusal::Refusal;
use rewritten::Ran;

// Rewrites the script into `out` and runs it, with all refusals tested before anything is written: 22, 23, then those of rewriting.
// The parameters are those of the C interface.
pub fn rehearse(
    script: &[u8],
    guideline: &[u8],
    budget: u32,
    out: &mut [u8],
    expression: &mut [u8],
    scratch: &mut [u8],
    history: &mut [u8],
    log: &mut [u8],
    table: &mut [u8],
) -> Result<Ran, Refusal>
    ensures table_after { after out.new (runs.after (runs.answer_of result) expression.new scratch.new history.new log.new table.new) ≡ rehearsal_of script.now guideline.now budget out.old expression.old scratch.old history.old log.old table.old }
    ensures claimed { Claimed script.now guideline.now budget (runs.answer_of result) expression.new log.new }
{
    let short = rewritten::too_short(
        expression.len(),
        scratch.len(),
        history.len(),
        log.len(),
        table.len(),
    );
    plain::check_call(budget, short)?;
    let records = rewriting::rewrite(script, guideline, out)?;
    let end = 8 * (records as usize);
    rewritten::rewritten(
        &out[..end],
        guideline,
        budget,
        expression,
        scratch,
        history,
        log,
        table,
    )
}
