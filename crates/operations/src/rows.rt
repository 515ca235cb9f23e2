// Rows made of rows.
ghost use Rattle.std.specs.Prelude.{◌≡◌};
ghost use Rattle.operations.specs.Rows.{finished_at, with_value, without_value};

use crate::row::Row;

impl<V: Copy> Row<V> {
    // The same row with another finish. A write cut short by its reads need not be an operation, so it stays a row.
    pub fn finished_at(self, finish: u32) -> Row<V>
        ensures { result ≡ finished_at self finish }
    {
        Row { finish, ..self }
    }

    // The same row with another value, of this kind or another.
    pub fn with_value<W>(&self, value: W) -> Row<W>
        ensures { result ≡ with_value self.now value }
    {
        Row {
            sort: self.sort,
            bay: self.bay,
            cabinet: self.cabinet,
            value,
            start: self.start,
            finish: self.finish,
        }
    }

    // The same row without its value. So it has one size for every kind of value.
    pub fn without_value(&self) -> Row<()>
        ensures { result ≡ without_value self.now }
    {
        self.with_value(())
    }
}
