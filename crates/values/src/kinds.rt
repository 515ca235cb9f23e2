// Serials and stamps as kinds of value.
ghost use Rattle.values.specs.Owed.{serial_narrow, serial_spelled, serial_same, stamp_narrow, stamp_spelled, stamp_same};
ghost use Rattle.values.specs.Patterns.{serial_of, serial_meaning, stamp_of, stamp_meaning};

use crate::kind::Kind;
use crate::serial::Serial;
use crate::stamp::Stamp;

// How many patterns 18 bits have.
const PATTERNS: u32 = 262_144;

impl Kind for Serial {
    ghost meaning = { serial_meaning };

    ghost reads = { serial_of };

    ghost narrow = { serial_narrow };

    ghost spelled = { serial_spelled };

    ghost same = { serial_same };

    fn from_pattern(pattern: u32) -> Option<Serial> {
        if pattern >= PATTERNS {
            return None;
        }
        Some(Serial { number: pattern })
    }
}

impl Kind for Stamp {
    ghost meaning = { stamp_meaning };

    ghost reads = { stamp_of };

    ghost narrow = { stamp_narrow };

    ghost spelled = { stamp_spelled };

    ghost same = { stamp_same };

    fn from_pattern(pattern: u32) -> Option<Stamp> {
        let count = (pattern % 2048) as u16;
        if pattern >= PATTERNS || count == 0 {
            return None;
        }
        let cabinet = (pattern / 2048 % 64) as u8;
        let resent = pattern / 131_072 == 1;
        Some(Stamp {
            resent,
            cabinet,
            count,
        })
    }
}
