// Which operations a survey refuses.
ghost use Rattle.std.specs.Prelude.{◌≡◌, MatchResult};
ghost use Rattle.operations.specs.Rows.{AllValid};
ghost use Rattle.orders.specs.Orders.{whole};
ghost use Rattle.relations.specs.Meanings.{told};
ghost use Rattle.surveying.specs.Faults.{lower_of, joined, FaultsOf, FewWrites, Spares, Refuses};
ghost use Rattle.surveying.specs.Surveying.{crane_bays};

use crate::refusal::SurveyRefusal;
use gathering::bay::Bay;
use gathering::faults::Faults;
use operations::operation::BAYS;
use operations::row::Row;
use values::kind::Kind;

// The lower of two places that may be there.
fn lower(one: Option<usize>, other: Option<usize>) -> Option<usize>
    ensures { result ≡ lower_of one other }
{
    match (one, other) {
        (Some(place), Some(rival)) => Some(place.min(rival)),
        _ => one.or(other),
    }
}

// The lower place of each fault.
fn join(one: Faults, other: Faults) -> Faults
    ensures { result ≡ joined one other }
{
    Faults {
        written_twice: lower(one.written_twice, other.written_twice),
        unwritten: lower(one.unwritten, other.unwritten),
        foreseen: lower(one.foreseen, other.foreseen),
    }
}

// The faults of all bays together, unless a bay has more than 64 writes: then the lowest such bay is refused.
fn faults<V: Kind>(rows: &[Row<V>], bay: &mut Bay) -> Result<Faults, SurveyRefusal>
    requires { AllValid rows.now }
    ensures { MatchResult result
        (λ found. FewWrites (told V.Kind.meaning rows.now) crane_bays × FaultsOf (told V.Kind.meaning rows.now) whole found)
        (Refuses (told V.Kind.meaning rows.now)) }
{
    let mut found = Faults::default();
    for number in 0..BAYS {
        let Ok(()) = bay.gather(rows, number) else {
            return Err(SurveyRefusal::TooManyWrites { bay: number });
        };
        found = join(found, bay.faults);
    }
    Ok(found)
}

// Refuses rows that cannot be judged. Each fault is looked for at every place before the next one.
pub fn spare<V: Kind>(rows: &[Row<V>], bay: &mut Bay) -> Result<(), SurveyRefusal>
    requires { AllValid rows.now }
    ensures { Spares (told V.Kind.meaning rows.now) result }
{
    let found = faults(rows, bay)?;
    found.spare()?;
    Ok(())
}
