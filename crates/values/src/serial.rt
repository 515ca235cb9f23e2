// Serials: the first kind of value.
ghost use Rattle.std.specs.Prelude.{◌^◌, ◌<◌};

// A serial is a number of 18 bits; every pattern is one.
#[derive(Clone, Copy, PartialEq)]
pub struct Serial {
    pub(crate) number: u32,
    ghost narrow: { number < 2 ^ 18 },
}
