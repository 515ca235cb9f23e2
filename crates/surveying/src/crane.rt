// The bays of a crane judged one after the other.
ghost use Rattle.std.specs.Prelude.{◌<◌, ◌≤◌, length};
ghost use Rattle.operations.specs.Rooms.{held};
ghost use Rattle.relations.specs.Meanings.{told};
ghost use Rattle.surveying.specs.Judged.{Judging, BayFound, BaysFound};

use crate::desk::Kept;
use crate::refusal::SurveyRefusal;
use crate::report::Report;
use gathering::bay::Bay;
use operations::operation::BAYS;
use operations::row::Row;
use trying::judge::judge_bay;
use trying::order::BayOrder;
use values::kind::Kind;

// Judges the bay of this number with so many trials left. It takes the place of the bay that was gathered before.
fn judge_next<V: Kind>(
    rows: &[Row<V>],
    bay: &mut Bay,
    number: u8,
    left: u32,
) -> Result<BayOrder, SurveyRefusal>
    requires { (number < 64) × (Judging V.Kind.meaning rows.now) }
    ensures { BayFound (told V.Kind.meaning rows.now) number left result }
{
    bay.gather(rows, number).unwrap();
    judge_bay(bay, left).or(Err(SurveyRefusal::OverLimit { bay: number }))
}

// Judges every bay in ascending number, with the trials that those before it left.
pub fn judge_bays<V: Kind>(
    rows: &[Row<V>],
    limit: u32,
    bay: &mut Bay,
    kept: &mut Kept,
) -> Result<Report, SurveyRefusal>
    requires { (length rows.now ≤ 512) × (Judging V.Kind.meaning rows.now) }
    ensures { BaysFound (told V.Kind.meaning rows.now) limit (held kept.new.findings) (held kept.new.orders) result }
{
    kept.clear();
    let mut age: usize = 0;
    let mut trials: u32 = 0;
    for number in 0..BAYS {
        let found = judge_next(rows, bay, number, limit - trials)?;
        age = age.max(found.age);
        trials += found.trials;
        kept.add(number, &found);
    }
    Ok(Report {
        age,
        trials,
        kept: rows.len(),
    })
}
