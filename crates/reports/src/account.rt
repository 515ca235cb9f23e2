// The account of a table and a list of bays.
ghost use Rattle.std.specs.Prelude.{◌≡◌, ℕ, ◌<◌, true, false, Some, filter, MatchOption};
ghost use Rattle.masks.specs.Masks.{has_bit};
ghost use Rattle.leaving.specs.Leaving.{keeps};
ghost use Rattle.reports.specs.Accounts.{bays_words, or_none, told_words};

use crate::lines::Operations;
use leaving::without::Without;
use operations::operation::BAYS;
use operations::source::Source;
use std::fmt;
use values::words::Written;

// The bays that are left out, in ascending number, or a word for none.
#[derive_where(Clone, Copy)]
struct BaysLeftOut<'a, S> {
    kept: Without<'a, S>,
}

impl<'a, S> BaysLeftOut<'a, S> {
    // The lowest bay that is left out.
    fn lowest(&self) -> Option<u32>
        ensures { MatchOption result ((bay : ℕ) → bay < 64 → has_bit self.now.kept.mask bay ≡ false) (λ bay. (bay < 64) × (has_bit self.now.kept.mask bay ≡ true)) }
    {
        (0..u32::from(BAYS)).find(|bay| self.kept.leaves_out(*bay))
    }
}

impl<'a, S> fmt::Display for BaysLeftOut<'a, S> {
    ghost output = { λ left. Some (or_none (bays_words (has_bit left.kept.mask) 64)) };

    fn fmt<W: fmt::Write>(&self, f: &mut fmt::Formatter<W>) -> fmt::Result {
        let Some(_) = self.lowest() else {
            return f.write_str(" none");
        };
        for bay in 0..u32::from(BAYS) {
            if self.kept.leaves_out(bay) {
                write!(f, " {bay}")?;
            }
        }
        Ok(())
    }
}

// What is told of a table that has so many records: the bays that are left out, and the operations that are kept.
#[derive_where(Clone, Copy)]
pub struct Account<'a, S> {
    pub records: usize,
    pub kept: Without<'a, S>,
}

impl<'a, S: Source> fmt::Display for Account<'a, S>
where
    S::Value: Written,
{
    ghost output = { λ a. Some (told_words S.Value.Written.words a.records (has_bit a.kept.mask) (filter (keeps a.kept.mask) (S.Source.operations a.kept.below.now))) };

    fn fmt<W: fmt::Write>(&self, f: &mut fmt::Formatter<W>) -> fmt::Result {
        let records = self.records;
        let bays = BaysLeftOut { kept: self.kept };
        let operations = Operations { source: &self.kept };
        write!(f, "records {records}\nbays left out:{bays}\n{operations}")
    }
}
