// Names of tickets as text.
ghost use Rattle.std.specs.Prelude.{Some};
ghost use Rattle.logs.specs.Words.{ticket_words};

use crate::ticket_name::TicketName;
use std::fmt;

impl fmt::Display for TicketName {
    ghost output = { λ ticket. Some (ticket_words ticket) };

    fn fmt<W: fmt::Write>(&self, f: &mut fmt::Formatter<W>) -> fmt::Result {
        let sort = self.sort;
        let cabinet = self.cabinet;
        let begun = self.begun;
        write!(f, "{sort} cabinet {cabinet} tick {begun}")
    }
}
