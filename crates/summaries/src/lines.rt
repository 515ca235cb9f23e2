// The lines of a report.
ghost use Rattle.std.specs.Prelude.{◌≤◌, ◌++◌, length, Some};
ghost use Rattle.surveying.specs.Words.{report_words};
ghost use Rattle.summaries.specs.Summaries.{places_words, bay_words, all_writes, findings_words};

use std::fmt;
use surveying::finding::Finding;
use surveying::report::Report;

// The places of an order, each with a space in front.
#[derive(Clone, Copy)]
struct Places<'a> {
    places: &'a [usize],
}

impl<'a> fmt::Display for Places<'a> {
    ghost output = { λ p. Some (places_words p.places.now) };

    fn fmt<W: fmt::Write>(&self, f: &mut fmt::Formatter<W>) -> fmt::Result {
        for place in self.places {
            write!(f, " {place}")?;
        }
        Ok(())
    }
}

// The line of a bay, behind the end of the line before it.
#[derive(Clone, Copy)]
struct BayLine<'a> {
    bay: u8,
    age: usize,
    order: Places<'a>,
}

impl<'a> fmt::Display for BayLine<'a> {
    ghost output = { λ l. Some (bay_words l.bay l.age l.order.places.now) };

    fn fmt<W: fmt::Write>(&self, f: &mut fmt::Formatter<W>) -> fmt::Result {
        let BayLine { bay, age, order } = *self;
        write!(f, "\nbay {bay} age {age} order{order}")
    }
}

// A report and its findings, whose orders stand one behind the other.
#[derive(Clone, Copy)]
pub(crate) struct Summary<'a> {
    pub(crate) report: Report,
    pub(crate) findings: &'a [Finding],
    pub(crate) orders: &'a [usize],
    ghost fit: { all_writes findings.now ≤ length orders.now },
}

impl<'a> fmt::Display for Summary<'a> {
    ghost output = { λ s. Some (report_words s.report ++ findings_words s.findings.now s.orders.now) };

    fn fmt<W: fmt::Write>(&self, f: &mut fmt::Formatter<W>) -> fmt::Result {
        self.report.fmt(f)?;
        let mut rest = self.orders;
        for finding in self.findings {
            let (places, later) = rest.split_at(finding.writes);
            let line = BayLine {
                bay: finding.bay,
                age: finding.age,
                order: Places { places },
            };
            line.fmt(f)?;
            rest = later;
        }
        Ok(())
    }
}
