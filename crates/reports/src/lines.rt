// The lines of operations in a report.
ghost use Rattle.std.specs.Prelude.{Some};
ghost use Rattle.reports.specs.Accounts.{kept_words, row_words};

use operations::pass::Pass;
use operations::row::Row;
use operations::source::Source;
use std::fmt;
use values::words::Written;

// An operation, and its place among those that are kept.
#[derive_where(Clone, Copy; V: Copy)]
pub struct OperationLine<V> {
    pub place: usize,
    pub row: Row<V>,
}

impl<V: Written> fmt::Display for OperationLine<V> {
    ghost output = { λ line. Some (row_words V.Written.words line.place line.row) };

    fn fmt<W: fmt::Write>(&self, f: &mut fmt::Formatter<W>) -> fmt::Result {
        let place = self.place;
        let Row {
            sort,
            bay,
            cabinet,
            value,
            start,
            finish,
        } = self.row;
        writeln!(
            f,
            "{place} {sort} bay {bay} cabinet {cabinet} {value} from {start} to {finish}"
        )
    }
}

// The operations of a source, each with its place, and how many they are.
#[derive_where(Clone, Copy)]
pub struct Operations<'a, S> {
    pub source: &'a S,
}

impl<'a, S: Source> fmt::Display for Operations<'a, S>
where
    S::Value: Written,
{
    ghost output = { λ o. Some (kept_words S.Value.Written.words (S.Source.operations o.source.now)) };

    fn fmt<W: fmt::Write>(&self, f: &mut fmt::Formatter<W>) -> fmt::Result {
        let count = self.source.len();
        for (place, operation) in Pass::over(self.source).enumerate() {
            let row = operation.row();
            write!(f, "{}", OperationLine { place, row })?;
        }
        write!(f, "kept {count}")
    }
}
