// Why there is no report.
ghost use Rattle.std.specs.Prelude.{◌≡◌};
ghost use Rattle.operations.specs.Refusals.{no_bay};
ghost use Rattle.tables.specs.Refusals.{list_refusal, table_refusal};
ghost use Rattle.reports.specs.declared.unreported.Unreported.TheVariants as unreported;
ghost use Rattle.reports.specs.Unreported.{unreported_output};

use operations::refusal::{NoBay, Refusal};
use std::alloc::AllocError;
use std::fmt;
use tables::refusal::{ListRefusal, TableRefusal};

// Why a table and a list of bays are not reported on.
#[derive(Clone, Copy)]
pub enum Unreported {
    // The table is missing.
    NoTable,
    // The table, the list or the survey is refused.
    Refused(Refusal),
    NoMemory(AllocError),
}

impl fmt::Display for Unreported {
    ghost output = { unreported_output };

    fn fmt<W: fmt::Write>(&self, f: &mut fmt::Formatter<W>) -> fmt::Result {
        match self {
            Unreported::NoTable => f.write_str("no table"),
            Unreported::Refused(refusal) => refusal.fmt(f),
            Unreported::NoMemory(error) => error.fmt(f),
        }
    }
}

impl From<Refusal> for Unreported {
    ghost from_gives = { λ refusal u. u ≡ unreported.Refused refusal };

    fn from(refusal: Refusal) -> Unreported {
        Unreported::Refused(refusal)
    }
}

impl From<AllocError> for Unreported {
    ghost from_gives = { λ error u. u ≡ unreported.NoMemory error };

    fn from(error: AllocError) -> Unreported {
        Unreported::NoMemory(error)
    }
}

impl From<TableRefusal> for Unreported {
    ghost from_gives = { λ refused u. u ≡ unreported.Refused (table_refusal refused) };

    fn from(refused: TableRefusal) -> Unreported {
        Unreported::Refused(Refusal::from(refused))
    }
}

impl From<ListRefusal> for Unreported {
    ghost from_gives = { λ refused u. u ≡ unreported.Refused (list_refusal refused) };

    fn from(refused: ListRefusal) -> Unreported {
        Unreported::Refused(Refusal::from(refused))
    }
}

impl From<NoBay> for Unreported {
    ghost from_gives = { λ refused u. u ≡ unreported.Refused (no_bay refused) };

    fn from(refused: NoBay) -> Unreported {
        Unreported::Refused(Refusal::from(refused))
    }
}
