// The survey of a source.
ghost use Rattle.relations.specs.Meanings.{told};
ghost use Rattle.surveying.specs.Desks.{desk_findings, desk_orders};
ghost use Rattle.surveying.specs.Surveyed.{Surveyed};

use crate::crane::judge_bays;
use crate::desk::SurveyDesk;
use crate::refusal::SurveyRefusal;
use crate::report::Report;
use crate::sparing::spare;
use operations::copying::copy;
use operations::room::MOST_OPERATIONS;
use operations::source::Source;
use trying::judge::MOST_TRIALS;

// Surveys every bay of the source, with no more trials than the limit in all. An accepted survey leaves its findings on the desk.
pub fn survey<S: Source>(
    source: &S,
    limit: u32,
    desk: &mut SurveyDesk<S::Value>,
) -> Result<Report, SurveyRefusal>
    ensures { Surveyed (told S.Value.Kind.meaning (S.Source.operations source.now)) limit (desk_findings desk.new) (desk_orders desk.new) result }
{
    if limit == 0 || limit > MOST_TRIALS {
        return Err(SurveyRefusal::NoLimit { limit });
    }
    let operations = source.len();
    if operations > MOST_OPERATIONS {
        return Err(SurveyRefusal::TooMany { operations });
    }
    copy(source, &mut desk.rows).unwrap();
    spare(desk.rows.as_slice(), &mut desk.bay)?;
    judge_bays(desk.rows.as_slice(), limit, &mut desk.bay, &mut desk.kept)
}
