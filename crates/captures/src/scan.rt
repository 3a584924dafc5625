// The lines as they stand, stamp by stamp.
ghost use Rattle.std.specs.Prelude.{◌≡◌, false, true, MatchOption};
ghost use Rattle.captures.specs.Falls.{blank_scan, falls, stamped};
ghost use Rattle.captures.specs.Walk.{ends_at, scan_in};

use crate::form::{Level, Phase};

// A stamp, and E as it stood at the stamp before it; open where there was none.
#[derive(Clone, Copy)]
pub struct Stamp {
    pub number: u32,
    pub before: Level,
}

// What has been read of a capture: the phase, the levels of the eleven lines, the last stamp, and whether a code was changed that
// is not declared.
#[derive(Clone, Copy)]
pub struct Scan {
    pub phase: Phase,
    pub levels: [Level; 11],
    pub stamp: Option<Stamp>,
    pub strange: bool,
}

impl Scan {
    // Nothing is known of any line, and no stamp has come.
    pub fn new() -> Self
        ensures { scan_in result ≡ blank_scan }
    {
        Scan {
            phase: Phase::Section(false),
            levels: [Level::Open; 11],
            stamp: None,
            strange: false,
        }
    }

    // Whether a stamp, where one can stand, ends the one before it.
    pub fn ends_at(&self, stamp: Option<u32>) -> bool
        ensures { result ≡ ends_at (scan_in self.now) stamp }
    {
        match (stamp, self.stamp) {
            (Some(next), Some(last)) => self.phase.changes_come() && next != last.number,
            _ => false,
        }
    }

    // At a stamp: where it ends the one before it, E as it stood there is kept.
    #[tactic(auto, unfolding(crate::specs::Falls::stamped))]
    pub fn at_stamp(self, number: u32) -> Self
        ensures { scan_in result ≡ stamped (scan_in self) number }
    {
        let before = match self.stamp {
            None => Level::Open,
            Some(last) if last.number == number => last.before,
            Some(_) => self.levels[2],
        };
        Scan {
            stamp: Some(Stamp { number, before }),
            ..self
        }
    }

    // The stamp at whose end E falls, if it does: it was 1 at the stamp before and is 0 now.
    pub fn fall(&self) -> Option<u32>
        ensures { MatchOption result (falls (scan_in self.now) ≡ false)
            (λ number. (falls (scan_in self.now) ≡ true) × (number ≡ (scan_in self.now).stamp)) }
    {
        let last = self.stamp?;
        if last.before == Level::High && self.levels[2] == Level::Low {
            Some(last.number)
        } else {
            None
        }
    }
}
