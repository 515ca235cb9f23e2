// The calls of a script.
use logs::ticket_name::TicketName;
use operations::row::Sort;

// A call to make on a log.
#[derive(Drop)]
pub enum Call<V> {
    Begin { sort: Sort, cabinet: u32, bay: u32 },
    // With the value that was read or written.
    End { ticket: TicketName, value: V },
    Lose { ticket: TicketName },
    Close,
    Reopen,
    // Without the listed bays. Where there is no list, filtering is off.
    Survey { bays: Option<Vec<u32>>, limit: u32 },
}
