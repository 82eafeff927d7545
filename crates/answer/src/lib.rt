// The answers of document 01: why a call refuses, and the paper's number for each reason.
#![tactic(auto)]

ghost use Rattle.std.specs.Prelude.{◌≡◌, ℕ};
ghost use Rattle.answer.specs.Numbers.{number_of, number_by, length_by};
ghost use Rattle.answer.specs.Plans.{filed_number, filed_length};

// Why a call refuses, with the paper's number for it.
#[derive(Clone, Copy)]
pub enum Refusal {
    Short = 1,
    Edition = 2,
    Range = 3,
    Order = 4,
    Tail = 5,
    Query = 6,
    Window = 7,
    Cells = 8,
    Room = 9,
    NoPlan = 10,
    PlanFile = 11,
    Plan = 12,
    SheetFile = 13,
    Rules = 14,
    Loose = 15,
}

// What a call that writes answers: the length of what it wrote, or why it refuses.
pub type Answer = Result<u32, Refusal>;

// The file that the plan call or the sheet call wrote, and its length: where there is no plan it says so, and is a file all the same.
#[derive(Clone, Copy)]
pub enum Filed {
    Plan(u32),
    NoPlan(u32),
}

// What the plan call and the sheet call answer. "No plan" comes back under a refusal's number, and is no refusal here: a file is written that says so.
pub type PlanAnswer = Result<Filed, Refusal>;

impl Refusal {
    // The paper's number. A method and no `From`: its name says which number of the refusal it is.
    pub fn number(self) -> u32
        ensures { result ≡ number_of self }
    {
        self as u32
    }
}

// What a call has done where it does not refuse: the number that says so, and the length of what it wrote.
pub trait Done {
    ghost number_is: { Self → ℕ };

    ghost length_is: { Self → ℕ };

    fn number(&self) -> u32
        ensures { result ≡ number_is self.now };

    fn length(&self) -> u32
        ensures { result ≡ length_is self.now };
}

// The gate writes nothing.
impl Done for () {
    ghost number_is = { λ done. 0 };

    ghost length_is = { λ done. 0 };

    fn number(&self) -> u32 {
        0 // accepted
    }

    fn length(&self) -> u32 {
        0
    }
}

// The read call and the write call hand back how much they wrote.
impl Done for u32 {
    ghost number_is = { λ written. 0 };

    ghost length_is = { λ written. written };

    fn number(&self) -> u32 {
        0 // done
    }

    fn length(&self) -> u32 {
        *self
    }
}

// The plan call and the sheet call: a file that says "none" has a refusal's number, and a length all the same.
impl Done for Filed {
    ghost number_is = { filed_number };

    ghost length_is = { filed_length };

    fn number(&self) -> u32 {
        match self {
            Filed::Plan(_) => 0,
            Filed::NoPlan(_) => Refusal::NoPlan.number(),
        }
    }

    fn length(&self) -> u32 {
        match self {
            Filed::Plan(written) | Filed::NoPlan(written) => *written,
        }
    }
}

// The number that comes back.
pub fn number<T: Done + Copy>(answer: Result<T, Refusal>) -> u32
    ensures { result ≡ number_by T.number_is answer }
{
    match answer {
        Ok(done) => done.number(),
        Err(why) => why.number(),
    }
}

// The length that comes back: a refusal wrote nothing.
pub fn length<T: Done + Copy>(answer: Result<T, Refusal>) -> u32
    ensures { result ≡ length_by T.length_is answer }
{
    match answer {
        Ok(done) => done.length(),
        Err(_) => 0, // nothing was written
    }
}
