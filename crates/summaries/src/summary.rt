// Surveys as text.
ghost use Rattle.operations.specs.Rooms.{held};
ghost use Rattle.relations.specs.Meanings.{told};
ghost use Rattle.reports.specs.Reporting.{contents};
ghost use Rattle.summaries.specs.Summarising.{Said, Summarised};

use crate::lines::Summary;
use leaving::without::leave_out;
use operations::refusal::Refusal;
use operations::source::Source;
use reports::reporting::{listed, open_bays};
use reports::unreported::Unreported;
use std::alloc::Global;
use surveying::desk::SurveyDesk;
use surveying::survey::survey;
use tables::table::Table;
use values::kind::Kind;

// The survey of a source as text.
pub fn survey_text<S: Source>(
    heap: Global,
    source: &S,
    limit: u32,
    desk: &mut SurveyDesk<S::Value>,
) -> Result<String, Unreported>
    ensures { Said (told S.Value.Kind.meaning (S.Source.operations source.now)) limit result }
{
    let report = match survey(source, limit, desk) {
        Ok(report) => report,
        Err(refused) => return Err(Unreported::Refused(Refusal::from(refused))),
    };
    let summary = Summary {
        report,
        findings: desk.findings(),
        orders: desk.orders(),
    };
    let text = summary.to_string(heap)?;
    Ok(text)
}

// The survey of a table without the bays of a list file, if there is one.
pub fn summary<K: Kind>(
    heap: Global,
    table: &Table<K>,
    list: Option<&[u8]>,
    limit: u32,
) -> Result<String, Unreported>
    ensures { Summarised K.Kind.meaning (held table.now.rows) limit (contents list.entry) result }
{
    let bays = open_bays(heap, list)?;
    let kept = leave_out(table, listed(&bays))?;
    let mut desk = SurveyDesk::new(heap)?;
    survey_text(heap, &kept, limit, &mut desk)
}
