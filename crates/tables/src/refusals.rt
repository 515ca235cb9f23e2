// The refusals of tables and lists, with their numbers.
ghost use Rattle.std.specs.Prelude.{◌≡◌};
ghost use Rattle.tables.specs.Refusals.{table_refusal, list_refusal};
ghost use Rattle.tables.specs.declared.refusal.ListRefusal.TheVariants as list;
ghost use Rattle.tables.specs.declared.refusal.TableRefusal.TheVariants as table;

use crate::refusal::{ListRefusal, TableRefusal};
use operations::refusal::{Layer, Refusal};
use operations::room::MOST_OPERATIONS;
use words::refusal::WrongKind;

impl From<TableRefusal> for Refusal {
    ghost from_gives = { λ refused refusal. refusal ≡ table_refusal refused };

    fn from(refused: TableRefusal) -> Refusal {
        let (number, place, layer) = match refused {
            TableRefusal::TooLong => (1, MOST_OPERATIONS, Layer::Table),
            TableRefusal::Ragged { length } => (2, length, Layer::Table),
            TableRefusal::Words(wrong) => (3, wrong.word, Layer::WordsInTable),
            TableRefusal::NoValue { place } => (4, place, Layer::Table),
            TableRefusal::StartsLate { place } => (5, place, Layer::Table),
        };
        Refusal {
            number,
            place,
            layer,
        }
    }
}

impl From<ListRefusal> for Refusal {
    ghost from_gives = { λ refused refusal. refusal ≡ list_refusal refused };

    fn from(refused: ListRefusal) -> Refusal {
        let (number, place, layer) = match refused {
            ListRefusal::TooLong => (1, MOST_OPERATIONS, Layer::List),
            ListRefusal::Ragged { length } => (2, length, Layer::List),
            ListRefusal::Words(wrong) => (3, wrong.word, Layer::WordsInList),
        };
        Refusal {
            number,
            place,
            layer,
        }
    }
}

impl From<WrongKind> for TableRefusal {
    ghost from_gives = { λ wrong r. r ≡ table.Words wrong };

    fn from(wrong: WrongKind) -> TableRefusal {
        TableRefusal::Words(wrong)
    }
}

impl From<WrongKind> for ListRefusal {
    ghost from_gives = { λ wrong r. r ≡ list.Words wrong };

    fn from(wrong: WrongKind) -> ListRefusal {
        ListRefusal::Words(wrong)
    }
}
