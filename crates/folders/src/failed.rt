// Why a program has nothing to report.
ghost use Rattle.std.specs.Prelude.{◌≡◌};
ghost use Rattle.folders.specs.declared.failed.Failed.TheVariants as failed;

use reports::unreported::Unreported;
use std::io;

// Why there is no report on a folder.
#[derive(Drop)]
pub enum Failed {
    Unreported(Unreported),
    // A file is there and cannot be read.
    Unread(io::Error),
}

impl From<Unreported> for Failed {
    ghost from_gives = { λ unreported f. f ≡ failed.Unreported unreported };

    fn from(unreported: Unreported) -> Failed {
        Failed::Unreported(unreported)
    }
}

impl From<io::Error> for Failed {
    ghost from_gives = { λ error f. f ≡ failed.Unread error };

    fn from(error: io::Error) -> Failed {
        Failed::Unread(error)
    }
}
