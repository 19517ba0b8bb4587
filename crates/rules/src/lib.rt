// The shapes that the definitions and the code share: the control record, what a call answers, and
// what is found at an address. They cross to C as they stand, so every number is 32 bits wide.
#![tactic(auto)]

ghost use Rattle.std.specs.Prelude.{◌≡◌};
ghost use Rattle.rules.specs.Lent.{opening, relabelled};

// The control record: P, T, current label, open page, fill. It goes in by value and comes back.
#[repr(C)]
#[derive(Clone, Copy)]
pub struct Record {
    pub page: u32,
    pub pages: u32,
    pub label: u32,
    pub opened: u32,
    pub fill: u32,
}

impl Record {
    // The open page and its fill move.
    pub fn opening(mut self, opened: u32, fill: u32) -> Record
        ensures { result ≡ opening self opened fill }
    {
        self.opened = opened;
        self.fill = fill;
        self
    }

    // The current label moves.
    pub fn relabelled(mut self, label: u32) -> Record
        ensures { result ≡ relabelled self label }
    {
        self.label = label;
        self
    }
}

// What start, allocate, look-up, load and store answer: the refusal's number, 0 if accepted; the value,
// 0 if refused but for refusal 10; and the record.
#[repr(C)]
#[derive(Clone, Copy)]
pub struct Answer {
    pub refusal: u32,
    pub value: u32,
    pub rec: Record,
}

// What collect answers: the refusal's number, 0 if accepted; pages hinted, pages taken, objects copied,
// words copied, pages kept and fillers, six zeros if refused; and the record.
#[repr(C)]
#[derive(Clone, Copy)]
pub struct Collected {
    pub refusal: u32,
    pub hinted: u32,
    pub taken: u32,
    pub objects: u32,
    pub words: u32,
    pub kept: u32,
    pub fillers: u32,
    pub rec: Record,
}

// Where an address lands: on the start of an object, with its header; inside the object that starts
// at an address; or on nothing.
#[derive(Clone, Copy)]
pub enum Found {
    Start(u32),
    Inside(u32),
    Nothing,
}
