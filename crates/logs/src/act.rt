// What a cabinet does to a bay, as types.
ghost use Rattle.operations.specs.declared.row.Sort.{Sort as SortOf};
ghost use Rattle.operations.specs.declared.row.Sort.TheVariants.{Read as Reads, Write as Writes};

use operations::row::Sort;

// A sort of operation as a type, so that what is of one sort is never taken for the other.
pub trait Act {
    ghost SORT: { SortOf };

    const SORT: Sort;
}

pub struct Read;

pub struct Write;

impl Act for Read {
    ghost SORT = { Reads };

    const SORT: Sort = Sort::Read;
}

impl Act for Write {
    ghost SORT = { Writes };

    const SORT: Sort = Sort::Write;
}
