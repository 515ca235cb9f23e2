// The faults of a bay's operations.
ghost use Rattle.std.specs.Prelude.{◌≡◌};
ghost use Rattle.gathering.specs.Faults.{Spares};
ghost use Rattle.gathering.specs.declared.faults.Unspared.TheVariants.{TooManyWrites as too_many, Faulty as faulty};

// The lowest place of each fault, where an operation of the bay has it.
#[derive(Clone, Copy, Default)]
pub struct Faults {
    // A write whose value an earlier write of its bay has.
    pub written_twice: Option<usize>,
    // A read whose bay has no write of its value.
    pub unwritten: Option<usize>,
    // A read that is before its write.
    pub foreseen: Option<usize>,
}

// Why an operation keeps its bay from being judged, and the operation's place.
#[derive(Clone, Copy, PartialEq)]
pub enum Fault {
    WrittenTwice { place: usize },
    Unwritten { place: usize },
    Foreseen { place: usize },
}

impl Faults {
    // Refuses where there is a fault: each is looked for before the next one.
    pub fn spare(&self) -> Result<(), Fault>
        ensures { Spares self.now result }
    {
        if let Some(place) = self.written_twice {
            return Err(Fault::WrittenTwice { place });
        }
        if let Some(place) = self.unwritten {
            return Err(Fault::Unwritten { place });
        }
        if let Some(place) = self.foreseen {
            return Err(Fault::Foreseen { place });
        }
        Ok(())
    }
}

// A bay with more than 64 writes.
#[derive(Clone, Copy)]
pub struct TooManyWrites;

// Why a bay cannot be judged.
#[derive(Clone, Copy, PartialEq)]
pub enum Unspared {
    TooManyWrites,
    Faulty(Fault),
}

impl From<TooManyWrites> for Unspared {
    ghost from_gives = { λ many unspared. unspared ≡ too_many };

    fn from(_: TooManyWrites) -> Unspared {
        Unspared::TooManyWrites
    }
}

impl From<Fault> for Unspared {
    ghost from_gives = { λ fault unspared. unspared ≡ faulty fault };

    fn from(fault: Fault) -> Unspared {
        Unspared::Faulty(fault)
    }
}
