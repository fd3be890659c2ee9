// What happened in a power-down. Counts stay at the greatest number.
ghost use Rattle.std.specs.Prelude.{◌≡◌};
ghost use Rattle.watch.specs.Tally.{none_yet, with_step, with_change, with_request, with_answer};

// How a request stands. An Option of a Result would say the same in two layers.
#[derive(Clone, Copy, PartialEq, Eq, Debug)]
pub enum Ending {
    Accepted,
    // by the leaf of that tag
    Denied { by: Option<u32> },
    Unanswered,
}

// Closed, so that only events change a count.
#[derive(Clone, Copy, PartialEq, Eq, Debug, Default)]
pub struct Tally {
    requests: u32,
    accepted: u32,
    denied: u32,
    // the tag of the latest denial
    denier: Option<u32>,
    steps: u32,
    // the most steps that a change took
    longest: u32,
}

impl Tally {
    pub fn new() -> Self
        ensures { result ≡ none_yet }
    {
        Tally::default()
    }

    pub fn step(&mut self)
        ensures { self.new ≡ with_step self.old }
    {
        self.steps = self.steps.saturating_add(1);
    }

    // A change was seen to its end, after so many steps.
    pub fn change(&mut self, taken: u32)
        ensures { self.new ≡ with_change taken self.old }
    {
        self.longest = self.longest.max(taken);
    }

    pub fn request(&mut self)
        ensures { self.new ≡ with_request self.old }
    {
        self.requests = self.requests.saturating_add(1);
    }

    // How a request stands after its change.
    pub fn answer(&mut self, ending: Ending)
        ensures { self.new ≡ with_answer ending self.old }
    {
        match ending {
            Ending::Accepted => self.accepted = self.accepted.saturating_add(1),
            Ending::Denied { by } => {
                self.denied = self.denied.saturating_add(1);
                self.denier = by;
            }
            Ending::Unanswered => {}
        }
    }

    pub fn requests(&self) -> u32
        ensures { result ≡ self.now.requests }
    {
        self.requests // that were made
    }

    pub fn accepted(&self) -> u32
        ensures { result ≡ self.now.accepted }
    {
        self.accepted // of the requests
    }

    pub fn denied(&self) -> u32
        ensures { result ≡ self.now.denied }
    {
        self.denied // of the requests
    }

    pub fn denier(&self) -> Option<u32>
        ensures { result ≡ self.now.denier }
    {
        self.denier // of the latest denial
    }

    pub fn steps(&self) -> u32
        ensures { result ≡ self.now.steps }
    {
        self.steps // of all changes
    }

    pub fn longest(&self) -> u32
        ensures { result ≡ self.now.longest }
    {
        self.longest // of any change
    }
}
