// The running tally.
ghost use Rattle.std.specs.Prelude.{◌≡◌};
ghost use Rattle.lines.specs.Lines.{noted};
ghost use Rattle.lines.specs.Adds.{Adds};

// How many records there were, how many of them were accepted, and how many refused. The default is none.
#[derive(Clone, Copy, Debug, Default, PartialEq, Eq)]
pub struct Tally {
    pub records: u32,
    pub accepted: u32,
    pub refused: u32,
}

impl Tally {
    // One record more, by the refusal's number as its line tells it, 0 if accepted.
    #[tactic(auto, unfolding(crate::specs::Lines::noted))]
    pub fn note(&mut self, refusal: u32)
        requires { Adds self.old }
        ensures { self.new ≡ noted self.old refusal }
    {
        self.records += 1;
        if refusal == 0 {
            self.accepted += 1;
        } else {
            self.refused += 1;
        }
    }
}
