// The oscillator that is fitted: the frequencies that a module may have, and how long a time of 250 kHz is at another.
ghost use Rattle.std.specs.Prelude.{◌≡◌};
ghost use Rattle.controller.specs.Oscillator.{fitted, time_at};
ghost use Rattle.controller.specs.Promises.{IsInRangePromise};

// An oscillator's frequency.
#[derive(Clone, Copy, PartialEq, Eq)]
pub struct Frequency {
    pub khz: u16,
}

// The two named module kinds, and the ends of the range.
impl Frequency {
    pub const OLDER: Frequency = Frequency { khz: 250 };

    pub const NEWER: Frequency = Frequency { khz: 270 };

    pub const LOWEST: Frequency = Frequency { khz: 190 };

    pub const HIGHEST: Frequency = Frequency { khz: 350 };
}

// Whether a module may have this frequency.
#[tactic(auto, unfolding(crate::specs::Oscillator::in_range))]
pub fn is_in_range(frequency: Frequency) -> bool
    ensures { IsInRangePromise frequency result }
{
    Frequency::LOWEST.khz <= frequency.khz && frequency.khz <= Frequency::HIGHEST.khz
}

// A frequency in range stays, and any other becomes 250.
#[tactic(auto, unfolding(crate::specs::Oscillator::fitted))]
pub fn fit(frequency: Frequency) -> Frequency
    ensures { result ≡ fitted frequency }
{
    if is_in_range(frequency) {
        frequency
    } else {
        Frequency::OLDER
    }
}

// The time of 250 kHz at this frequency, rounded up.
#[tactic(auto, using(crate::proofs::Laws::Oscillator::fitted_within, crate::proofs::Laws::Oscillator::ceiled_time))]
pub fn time_at(time: u16, frequency: Frequency) -> u32
    ensures { result ≡ time_at time frequency }
{
    let reached = u32::from(time) * u32::from(Frequency::OLDER.khz);
    reached.div_ceil(u32::from(fit(frequency).khz))
}
