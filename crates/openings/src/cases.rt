// The tables that are tried.
use crate::files::{File, KIND_1, LATE, NO_STAMP, READ};
use crate::trials::Trials;
use std::alloc::AllocError;
use values::serial::Serial;
use values::stamp::Stamp;

impl Trials {
    // No table, every length from 0 to 40 bytes, and the lengths about the limit.
    pub fn lengths(&mut self) -> Result<(), AllocError> {
        self.says::<Serial>(&None, "no table")?;
        self.says::<Stamp>(&None, "no table")?;
        for length in 0..41usize {
            if length % 12 == 0 {
                self.writes(length / 12)?;
            } else {
                self.refused::<Serial>(
                    File::of_writes(self.heap, 4)?.cut(length),
                    2,
                    length,
                    "table",
                )?;
                self.refused::<Stamp>(
                    File::of_writes(self.heap, 4)?.cut(length),
                    2,
                    length,
                    "table",
                )?;
            }
        }
        self.writes(512)?;
        self.refused::<Serial>(File::of_writes(self.heap, 513)?, 1, 512, "table")?;
        self.refused::<Serial>(File::of_writes(self.heap, 513)?.cut(6_145), 1, 512, "table")?;
        self.refused::<Serial>(
            File::of_writes(self.heap, 513)?.cut(6_143),
            2,
            6_143,
            "table",
        )?;
        self.refused::<Serial>(
            File::of_writes(self.heap, 2)?.with(0, KIND_1).cut(23),
            2,
            23,
            "table",
        )
    }

    // A table of so many writes, of either kind.
    fn writes(&mut self, count: usize) -> Result<(), AllocError> {
        let mut serials = format!(in self.heap; "records {count}\nbays left out: none\n")?;
        let mut stamps = serials.clone()?;
        for place in 0..count {
            let line = format!(in self.heap; "{place} write bay 3 cabinet 0 ")?;
            serials.push_str(line.as_str())?;
            serials.push_str("serial 1 from 1 to 2\n")?;
            stamps.push_str(line.as_str())?;
            stamps.push_str("stamp 0.1 from 1 to 2\n")?;
        }
        let last = format!(in self.heap; "kept {count}")?;
        serials.push_str(last.as_str())?;
        stamps.push_str(last.as_str())?;
        let table = Some(File::of_writes(self.heap, count)?);
        self.says::<Serial>(&table, serials.as_str())?;
        self.says::<Stamp>(&table, stamps.as_str())
    }

    // Each refusal of a record at the first and at the last record.
    pub fn tables(&mut self) -> Result<(), AllocError> {
        for record in [0u16, 511] {
            self.kinds_at(record)?;
            self.values_at(record)?;
        }
        let mut table = File::new(self.heap);
        table.push_all(&READ)?;
        table.push_all(&[0xbfff_ffff, LATE, 0xffff_ffff])?;
        self.says::<Serial>(
            &Some(table),
            "records 2\nbays left out: none\n0 read bay 3 cabinet 0 serial 1 from 3 to 4\n1 write bay 63 cabinet 63 serial 262143 from 1073741823 to 1073741823\nkept 2",
        )
    }

    // A word of each wrong kind at each of a record's places.
    fn kinds_at(&mut self, record: u16) -> Result<(), AllocError> {
        let first = 3 * usize::from(record);
        for kind in [0u32, 3] {
            let table = File::of_writes(self.heap, 512)?.with(first, kind << 30 | 0x0300_0001);
            self.refused::<Serial>(table, 3, first, "words.table")?;
        }
        for kind in [1u32, 2, 3] {
            let table = File::of_writes(self.heap, 512)?.with(first + 1, kind << 30 | 1);
            self.refused::<Serial>(table, 3, first + 1, "words.table")?;
        }
        for kind in [0u32, 1, 2] {
            let table = File::of_writes(self.heap, 512)?.with(first + 2, kind << 30 | 2);
            self.refused::<Stamp>(table, 3, first + 2, "words.table")?;
        }
        Ok(())
    }

    // A pattern that is no value, and a start after its finish.
    fn values_at(&mut self, record: u16) -> Result<(), AllocError> {
        let place = usize::from(record);
        let table = File::of_writes(self.heap, 512)?.with(3 * place, NO_STAMP);
        self.refused::<Stamp>(table, 4, place, "table")?;
        let table = File::of_writes(self.heap, 512)?.with(3 * place + 1, 3);
        self.refused::<Serial>(table, 5, place, "table")?;
        let table = File::of_writes(self.heap, 512)?.with(3 * place + 1, 3);
        self.refused::<Stamp>(table, 5, place, "table")
    }

    // Two refusals in one file, in both orders.
    pub fn two_at_once(&mut self) -> Result<(), AllocError> {
        let table = File::of_writes(self.heap, 2)?.with(1, LATE).with(3, 1);
        self.refused::<Serial>(table, 5, 0, "table")?;
        let table = File::of_writes(self.heap, 2)?.with(2, KIND_1).with(4, LATE);
        self.refused::<Serial>(table, 3, 2, "words.table")?;
        let table = File::of_writes(self.heap, 2)?.with(0, NO_STAMP).with(3, 1);
        self.refused::<Stamp>(table, 4, 0, "table")?;
        let table = File::of_writes(self.heap, 2)?
            .with(2, KIND_1)
            .with(3, NO_STAMP);
        self.refused::<Stamp>(table, 3, 2, "words.table")?;
        let table = File::of_writes(self.heap, 2)?
            .with(0, NO_STAMP)
            .with(4, LATE);
        self.refused::<Stamp>(table, 4, 0, "table")?;
        let table = File::of_writes(self.heap, 2)?
            .with(1, LATE)
            .with(3, NO_STAMP);
        self.refused::<Stamp>(table, 5, 0, "table")?;
        let table = File::of_writes(self.heap, 1)?
            .with(0, NO_STAMP)
            .with(1, LATE);
        self.refused::<Stamp>(table, 4, 0, "table")?;
        let table = File::of_writes(self.heap, 1)?
            .with(0, NO_STAMP)
            .with(2, KIND_1);
        self.refused::<Stamp>(table, 3, 2, "words.table")
    }

    // Stamps with and without the resend mark.
    pub fn stamps(&mut self) -> Result<(), AllocError> {
        let mut file = File::new(self.heap);
        file.push_all(&[0x8300_1001, 1, 0xc000_0002])?;
        file.push_all(&[0x4302_1001, 3, 0xc000_0004])?;
        let table = Some(file);
        self.says::<Stamp>(
            &table,
            "records 2\nbays left out: none\n0 write bay 3 cabinet 0 stamp 2.1 from 1 to 2\n1 read bay 3 cabinet 0 stamp 2.1 resent from 3 to 4\nkept 2",
        )?;
        self.says::<Serial>(
            &table,
            "records 2\nbays left out: none\n0 write bay 3 cabinet 0 serial 4097 from 1 to 2\n1 read bay 3 cabinet 0 serial 135169 from 3 to 4\nkept 2",
        )?;
        let marked = File::of_writes(self.heap, 1)?.with(0, 0x8302_1000);
        self.refused::<Stamp>(marked, 4, 0, "table")
    }
}
