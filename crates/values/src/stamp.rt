// Stamps: the second kind of value.
ghost use Rattle.std.specs.Prelude.{◌≤◌};

// A stamp is a count that a cabinet issued. A cabinet that sends a stamp again marks it as resent, which does not change what
// the stamp means.
#[derive(Clone, Copy)]
#[derive_where(PartialEq)]
pub struct Stamp {
    #[derive_where(skip(EqHashOrd))]
    pub(crate) resent: bool,
    pub(crate) cabinet: u8,
    pub(crate) count: u16,
    ghost cabinets: { cabinet ≤ 63 },
    ghost least: { 1 ≤ count },
    ghost most: { count ≤ 2047 },
}
