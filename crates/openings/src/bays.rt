// The lists of bays that are tried.
use crate::files::{File, KIND_1, LATE, WRITE};
use crate::trials::Trials;
use leaving::without::leave_out;
use operations::room::Room;
use std::alloc::AllocError;
use tables::table::Table;
use values::serial::Serial;

impl Trials {
    // A write in bay 3 and one in bay 5.
    fn two_bays(&mut self) -> Result<File, AllocError> {
        let mut table = File::new(self.heap);
        table.push_all(&WRITE)?;
        table.push_all(&[0x8500_0001, 1, 0xc000_0002])?;
        Ok(table)
    }

    // Lists that are absent, empty, of one bay, of two and of all.
    pub fn lists(&mut self) -> Result<(), AllocError> {
        let table = Some(self.two_bays()?);
        let all =
            "records 2\nbays left out: none\n0 write bay 3 cabinet 0 serial 1 from 1 to 2\n1 write bay 5 cabinet 0 serial 1 from 1 to 2\nkept 2";
        self.list = None;
        self.says::<Serial>(&table, all)?;
        self.list = Some(File::new(self.heap));
        self.says::<Serial>(&table, all)?;
        self.list = Some(File::of_words(self.heap, 1, 3)?);
        self.says::<Serial>(
            &table,
            "records 2\nbays left out: 3\n0 write bay 5 cabinet 0 serial 1 from 1 to 2\nkept 1",
        )?;
        self.list = Some(File::of_words(self.heap, 3, 3)?.with(1, 5));
        self.says::<Serial>(&table, "records 2\nbays left out: 3 5\nkept 0")?;
        let mut every = File::new(self.heap);
        let mut text = String::from_str(self.heap, "records 2\nbays left out:")?;
        for bay in 0..64 {
            every.push(63 - bay)?;
            let number = format!(in self.heap; " {bay}")?;
            text.push_str(number.as_str())?;
        }
        text.push_str("\nkept 0")?;
        self.list = Some(every);
        self.says::<Serial>(&table, text.as_str())
    }

    // Every refusal of a list at its first and last entry, and two in one list.
    pub fn refused_lists(&mut self) -> Result<(), AllocError> {
        for place in [0usize, 511] {
            self.list = Some(File::of_words(self.heap, 512, 63)?.with(place, 64));
            let table = self.two_bays()?;
            self.refused::<Serial>(table, 6, place, "list")?;
            for kind in [1u32, 2, 3] {
                self.list = Some(File::of_words(self.heap, 512, 63)?.with(place, kind << 30));
                let table = self.two_bays()?;
                self.refused::<Serial>(table, 3, place, "words.list")?;
            }
        }
        self.list = Some(File::of_words(self.heap, 2, 100)?.with(1, KIND_1));
        let table = self.two_bays()?;
        self.refused::<Serial>(table, 3, 1, "words.list")?;
        self.list = Some(File::of_words(self.heap, 2, 100)?.with(0, KIND_1));
        let table = self.two_bays()?;
        self.refused::<Serial>(table, 3, 0, "words.list")?;
        let table = self.two_bays()?.with(1, LATE);
        self.refused::<Serial>(table, 5, 0, "table")?;
        self.list = Some(File::of_words(self.heap, 3, 100)?.with(0, 63));
        let table = self.two_bays()?;
        self.refused::<Serial>(table, 6, 1, "list")
    }

    // Every length of a list from 0 to 40 bytes, and the lengths about the limit.
    pub fn list_lengths(&mut self) -> Result<(), AllocError> {
        let kept =
            "records 2\nbays left out: 3\n0 write bay 5 cabinet 0 serial 1 from 1 to 2\nkept 1";
        for length in 1..41usize {
            self.list = Some(File::of_words(self.heap, 11, 3)?.cut(length));
            let table = self.two_bays()?;
            if length % 4 == 0 {
                self.says::<Serial>(&Some(table), kept)?;
            } else {
                self.refused::<Serial>(table, 2, length, "list")?;
            }
        }
        for (length, number, place) in [
            (2_049usize, 1u32, 512usize),
            (2_052, 1, 512),
            (2_047, 2, 2_047),
        ] {
            self.list = Some(File::of_words(self.heap, 513, 3)?.cut(length));
            let table = self.two_bays()?;
            self.refused::<Serial>(table, number, place, "list")?;
        }
        self.list = Some(File::of_words(self.heap, 512, 3)?);
        let table = self.two_bays()?;
        self.says::<Serial>(&Some(table), kept)
    }

    // Places at and past the length of tables, with and without bays left out.
    pub fn places(&mut self) -> Result<(), AllocError> {
        let empty = File::new(self.heap);
        if let Ok(table) = Table::<Serial>::open(Room::new(self.heap)?, empty.bytes.as_slice()) {
            self.past_end(&table, 0, 0)?;
            self.past_end(&table, 0, usize::MAX)?;
        }
        let two = self.two_bays()?;
        if let Ok(table) = Table::<Serial>::open(Room::new(self.heap)?, two.bytes.as_slice()) {
            self.past_end(&table, 2, 2)?;
            self.past_end(&table, 2, usize::MAX)?;
            if let Ok(left) = leave_out(&table, Some(&[3])) {
                self.past_end(&left, 1, 1)?;
                self.past_end(&left, 1, usize::MAX)?;
                if let Ok(none) = leave_out(&left, Some(&[5])) {
                    self.past_end(&none, 0, 0)?;
                }
            }
        }
        Ok(())
    }
}
