// Opening a table.
ghost use Rattle.std.specs.Prelude.{◌≡◌, Some, MatchResult};
ghost use Rattle.tables.specs.Opening.{Opened};
ghost use Rattle.operations.specs.Checks.{first_failed};
ghost use Rattle.tables.specs.Records.{value_checks, Valued};
ghost use Rattle.tables.specs.Refusals.{table_refusal};

use crate::refusal::TableRefusal;
use crate::table::Table;
use operations::room::Room;
use operations::row::Row;
use values::kind::Kind;
use words::layout;
use words::reader::WordReader;

// The row of record `place`, with the value that its pattern stands for.
fn valued<K: Kind>(row: Row<u32>, place: usize) -> Result<Row<K>, TableRefusal>
    ensures { MatchResult result (λ v. Valued K.Kind.reads row v) (λ e. first_failed (value_checks K.Kind.reads row place) ≡ Some (table_refusal e)) }
{
    let value = K::from_pattern(row.value).ok_or(TableRefusal::NoValue { place })?;
    if row.start > row.finish {
        return Err(TableRefusal::StartsLate { place });
    }
    Ok(row.with_value(value))
}

impl<K: Kind> Table<K> {
    // The table that the bytes of a file hold. Its rows go into `rows`, whatever that held.
    pub fn open(mut rows: Room<Row<K>>, bytes: &[u8]) -> Result<Table<K>, TableRefusal>
        ensures { Opened K.Kind.reads bytes.now result }
    {
        if bytes.len() > layout::TABLE {
            return Err(TableRefusal::TooLong);
        }
        if bytes.len() % layout::RECORD != 0 {
            return Err(TableRefusal::Ragged {
                length: bytes.len(),
            });
        }
        rows.clear();
        let mut words = WordReader::new(bytes);
        while let Some(found) = words.next_record()? {
            let row = found.row().unwrap();
            rows.push(valued(row, rows.len())?).unwrap();
        }
        Ok(Table { rows })
    }
}
