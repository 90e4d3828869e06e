// A term reader: it stands on one record of a lent script and passes over a whole term.
#![tactic(auto)]

ghost use Rattle.std.specs.Prelude.{◌≡◌};
ghost use Rattle.terms.specs.Walk.{pass_term};

// The lent script, and the number of the record that the reader stands on.
#[derive(Clone, Copy)]
pub struct Reader<'a> {
    pub script: &'a [u8],
    pub at: usize,
}

impl<'a> Reader<'a> {
    // Passes over the term at the reader's record: the record after it, if a whole term begins there.
    pub fn pass(self) -> Option<usize>
        ensures { result ≡ pass_term self.entry.script.now self.entry.at }
    {
        terms::pass_term(self.script, self.at)
    }
}
