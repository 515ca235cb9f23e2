// The judge of one bay of a source.
ghost use Rattle.std.specs.Prelude.{◌≤◌};
ghost use Rattle.operations.specs.Rows.{AllValid};
ghost use Rattle.relations.specs.Meanings.{told};
ghost use Rattle.judging.specs.Judging.{Judged};
ghost use Rattle.judging.specs.Rows.{RowsJudged};

use crate::judgment::Judgment;
use crate::refusal::JudgeRefusal;
use crate::sheet::fill;
use gathering::bay::Bay;
use gathering::faults::Unspared;
use gathering::write::MOST_WRITES;
use operations::copying::copy;
use operations::operation::LAST_BAY;
use operations::room::{MOST_OPERATIONS, Room};
use operations::row::Row;
use operations::source::Source;
use trying::judge::{MOST_TRIALS, judge_bay};
use trying::order::BayOrder;
use values::kind::Kind;

// Judges the bay: its age, the trials, and its value order on the first entries of the sheet, which has one for each write that a
// bay may have. The room is memory to work in, and
// what it held is lost. A refused judge leaves the sheet.
pub fn judge<S: Source>(
    source: &S,
    bay: u32,
    limit: u32,
    sheet: &mut [usize],
    room: &mut Room<Row<S::Value>>,
) -> Result<Judgment, JudgeRefusal>
    ensures { Judged (told S.Value.Kind.meaning (S.Source.operations source.now)) bay limit sheet.old sheet.new result }
{
    if bay > u32::from(LAST_BAY) {
        return Err(JudgeRefusal::NoBay { bay });
    }
    if limit == 0 || limit > MOST_TRIALS {
        return Err(JudgeRefusal::NoLimit { limit });
    }
    let entries = sheet.len();
    if entries < MOST_WRITES {
        return Err(JudgeRefusal::ShortSheet { entries });
    }
    let operations = source.len();
    if operations > MOST_OPERATIONS {
        return Err(JudgeRefusal::TooMany { operations });
    }
    copy(source, room).unwrap();
    let found = judge_rows(room.as_slice(), bay, limit)?;
    fill(sheet, found.places.as_slice());
    Ok(Judgment {
        age: found.age,
        trials: found.trials,
        writes: found.places.len(),
    })
}

// Judges one bay of the rows.
fn judge_rows<V: Kind>(rows: &[Row<V>], bay: u32, limit: u32) -> Result<BayOrder, JudgeRefusal>
    requires { (bay ≤ 63) × (AllValid rows.now) }
    ensures { RowsJudged (told V.Kind.meaning rows.now) bay limit result }
{
    let mut gathered = Bay::new();
    match gathered.gather_spared(rows, bay as u8) {
        Ok(()) => {}
        Err(Unspared::TooManyWrites) => return Err(JudgeRefusal::TooManyWrites { bay }),
        Err(Unspared::Faulty(fault)) => return Err(fault.into()),
    }
    judge_bay(&gathered, limit).or(Err(JudgeRefusal::OverLimit { bay }))
}
