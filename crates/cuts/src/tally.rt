// What is counted on the way. The sums wrap rather than ask that they fit; they stay below a hundred million.

// The runs played, the transfers sent in them, and the runs that ended wrong.
#[derive(Clone, Copy, Default)]
pub struct Tally {
    pub runs: u64,
    pub transfers: u64,
    pub wrong: u64,
}

impl Tally {
    // With one run more.
    pub fn add(&mut self, sent: u64, is_fine: bool) {
        self.runs = self.runs.wrapping_add(1);
        self.transfers = self.transfers.wrapping_add(sent);
        self.wrong = self.wrong.wrapping_add(u64::from(!is_fine));
    }

    // What was counted since this earlier tally.
    pub fn since(self, earlier: Tally) -> Tally {
        Tally {
            runs: self.runs.wrapping_sub(earlier.runs),
            transfers: self.transfers.wrapping_sub(earlier.transfers),
            wrong: self.wrong.wrapping_sub(earlier.wrong),
        }
    }
}
