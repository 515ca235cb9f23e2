// The judge of one bay of a table of serials, for programs in other languages to call.
#![tactic(auto)]

ghost use Rattle.std.specs.Prelude.{◌≡◌, Option};
ghost use Rattle.judging.specs.declared.judgment.Judgment.{Judgment};
ghost use Rattle.bench_judge.specs.Tables.{TableJudged, age_of, trials_of};

use judging::judge::judge;
use judging::judgment::Judgment;
use operations::room::Room;
use std::alloc::Global;
use tables::table::Table;
use values::serial::Serial;

// The age and the trials of a bay; both are 0 where nothing is reported.
#[repr(C)]
#[derive(Clone, Copy)]
pub struct Report {
    pub age: usize,
    pub trials: u32,
}

// What the judge reports, or nothing where it refuses, the table is refused or there is no memory.
fn judgment_of(
    heap: Global,
    table: &[u8],
    bay: u32,
    limit: u32,
    sheet: &mut [usize],
) -> Option<Judgment>
    ensures { TableJudged table.now bay limit sheet.old sheet.new result }
{
    let rows = Room::new(heap).ok()?;
    let mut working = Room::new(heap).ok()?;
    let opened = Table::<Serial>::open(rows, table).ok()?;
    judge(&opened, bay, limit, sheet, &mut working).ok()
}

// Judges the bay; the sheet gets its value order, or is left where nothing is reported.
#[unsafe(no_mangle)]
pub extern "C" fn judge_table(
    heap: Global,
    table: &[u8],
    bay: u32,
    limit: u32,
    sheet: &mut [usize],
) -> Report
    ensures { (found : Option Judgment) × TableJudged table.now bay limit sheet.old sheet.new found × (result.age ≡ age_of found) × (result.trials ≡ trials_of found) }
{
    match judgment_of(heap, table, bay, limit, sheet) {
        Some(judgment) => Report {
            age: judgment.age,
            trials: judgment.trials,
        },
        None => Report { age: 0, trials: 0 },
    }
}
