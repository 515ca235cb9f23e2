// What a row is to a bay, and what two rows are to one another.
#![tactic(auto)]

ghost use Rattle.std.specs.Prelude.{ℕ, nat_lt, ◌≡◌, not, ◌&&◌, ◌==◌};
ghost use Rattle.orders.specs.Orders.{before, alike};
ghost use Rattle.relations.specs.Meanings.{writing, meant};

use operations::row::{Row, Sort};
use values::kind::Kind;

// Whether the first ends before the other starts; those that touch are concurrent.
// Values have no part in it.
pub fn before<V: Copy, W: Copy>(first: &Row<V>, other: &Row<W>) -> bool
    ensures ticks { result ≡ nat_lt first.now.finish other.now.start }
    ensures meant { (m : V → ℕ × ℕ) (n : W → ℕ × ℕ) → result ≡ before (meant m first.now) (meant n other.now) }
{
    first.finish < other.start
}

// Whether both are of one bay and one value.
pub fn alike<V: Kind>(first: &Row<V>, other: &Row<V>) -> bool
    ensures { result ≡ alike (meant V.Kind.meaning first.now) (meant V.Kind.meaning other.now) }
{
    first.bay == other.bay && first.value == other.value
}

// Whether the row tells a write of the bay.
pub fn writes_in<V: Kind>(row: &Row<V>, bay: u8) -> bool
    ensures { result ≡ (row.now.bay == bay && writing row.now.sort) }
{
    row.bay == bay && row.sort == Sort::Write
}

// Whether the row tells a read of the bay.
pub fn reads_in<V: Kind>(row: &Row<V>, bay: u8) -> bool
    ensures { result ≡ (row.now.bay == bay && not (writing row.now.sort)) }
{
    row.bay == bay && row.sort == Sort::Read
}
