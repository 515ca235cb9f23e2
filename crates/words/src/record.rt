// Records as the word reader hands them out.

// A record with its twelve bytes, still part of the file. Its first word tells whether it is a read or a write.
#[derive_where(Clone, Copy)]
pub enum Record<'a> {
    Read(&'a [u8]),
    Write(&'a [u8]),
}
