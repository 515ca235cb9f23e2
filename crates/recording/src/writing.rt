// Words and records in bytes.
ghost use Rattle.std.specs.Prelude.{◌≡◌, ◌++◌, IfOk, OnOk, Some};
ghost use Rattle.std.specs.Int.{w32, to_be_bytes};
ghost use Rattle.recording.specs.Files.{head, record_bytes, table_bytes, Recordable};
ghost use Rattle.tables.specs.Records.{Shows};

use operations::row::{Row, Sort};
use std::alloc::{AllocError, Global};

// The kind of a finish word, in its top two bits.
const FINISH: u32 = 0xc000_0000;

// Adds a word to a file, its high byte first.
pub fn push_word(file: &mut Vec<u8>, word: u32) -> Result<(), AllocError>
    ensures { OnOk result (file.new.items ≡ file.old.items ++ to_be_bytes w32 word) }
{
    file.extend_from_slice(&word.to_be_bytes())
}

// The first word of a row's record. What does not fit into a field of a record is cut off.
fn head_of(row: &Row<u32>) -> u32
    ensures { result ≡ head row.now }
{
    let kind = match row.sort {
        Sort::Read => 1u32 << 30,
        Sort::Write => 2u32 << 30,
    };
    let bay = u32::from(row.bay % 64) << 24;
    let cabinet = u32::from(row.cabinet % 64) << 18;
    kind + bay + cabinet + row.value % 0x4_0000
}

// Adds the record of a row to a file.
fn push_record(file: &mut Vec<u8>, row: &Row<u32>) -> Result<(), AllocError>
    ensures { OnOk result (file.new.items ≡ file.old.items ++ record_bytes row.now) }
{
    push_word(file, head_of(row))?;
    push_word(file, row.start % 0x4000_0000)?;
    push_word(file, FINISH + row.finish % 0x4000_0000)
}

// The bytes of a table with a record for each row, whose value is a pattern.
pub fn table(heap: Global, rows: &[Row<u32>]) -> Result<Vec<u8>, AllocError>
    ensures bytes { IfOk result (λ bytes. bytes.items ≡ table_bytes rows.now) }
    ensures reads { IfOk result (λ bytes. Recordable rows.now → Shows Some bytes.items rows.now) }
{
    let mut bytes = Vec::new(heap);
    for row in rows {
        push_record(&mut bytes, row)?;
    }
    Ok(bytes)
}
