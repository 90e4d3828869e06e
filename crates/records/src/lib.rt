// The entries over script and guideline records: checking, deriving, passing over a term.
#![tactic(auto)]

ghost use Rattle.std.specs.Prelude.{◌≡◌};
ghost use Rattle.terms.specs.Walk.{pass_term};
ghost use Rattle.refusal.specs.Refusal.{verdict_of};
ghost use Rattle.records.specs.Entries.{check_of, leaves, derive_of};

use predicates::TABLE_BYTES;
use reader::Reader;
use refusal::{Reason, Refusal};
use script::Purpose;

// Checks a script, then a guideline with the functions of that script.
pub fn check(script: &[u8], guideline: &[u8]) -> Result<(), Refusal>
    ensures { verdict_of result ≡ check_of script.now guideline.now }
{
    let definitions = script::check_script(script, Purpose::Checking)?;
    guideline::check_guideline(guideline, definitions)
}

// Writes the derived predicates of a guideline into the table.
pub fn derive(guideline: &[u8], table: &mut [u8]) -> Result<(), Refusal>
    ensures { leaves table.new (verdict_of result) ≡ derive_of guideline.now table.old }
{
    if table.len() < TABLE_BYTES {
        return Err(Refusal::whole(Reason::BufferShort));
    }
    guideline::check_file(guideline)?;
    predicates::table_of(guideline, table);
    Ok(())
}

// Passes over the term at a record.
pub fn pass_term(script: &[u8], at: usize) -> Option<usize>
    ensures { result ≡ pass_term script.now at }
{
    Reader { script, at }.pass()
}
