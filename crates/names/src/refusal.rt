// The refusals (rule 7), each with its number. An answer that refuses nothing has the number 0.
ghost use Rattle.std.specs.Prelude.{◌≡◌};
ghost use Rattle.names.specs.Refusals.{answer_number, number_of};
ghost use Rattle.names.specs.declared.refusal.Refused.{Refused};

#[derive(Clone, Copy, Debug, PartialEq, Eq)]
pub enum Refusal {
    BadLength = 1,
    NotWellFormed = 2,
    NotSecure = 3,
    UnknownRequester = 4,
    BadRequest = 5,
    NotLoggedOn = 6,
    NoSuchName = 7,
    NoAccess = 8,
    Marked = 9,
    WrongKind = 10,
    NoSuchUser = 11,
    RoleMissing = 12,
    LevelOrRoles = 13,
    NoRoom = 14,
    Arrangement = 15,
    NotAcknowledged = 16,
    TooShort = 17,
    NotARequest = 18,
}

impl From<Refusal> for u32 {
    ghost from_gives = { λ r n. n ≡ number_of r };

    fn from(r: Refusal) -> u32 {
        r as u32
    }
}

// The number of an answer: 0 where nothing was refused.
pub fn number(answer: Result<(), Refusal>) -> u32
    ensures { result ≡ answer_number answer }
{
    match answer {
        Ok(()) => ACCEPTED,
        Err(refusal) => u32::from(refusal),
    }
}

// A refusal, and the number that goes with it: the first line that is bad, or how much room is needed. It is 0 beside all others (rule 8.6).
#[derive(Clone, Copy, Debug, PartialEq, Eq)]
pub struct Refused {
    pub by: Refusal,
    pub number: u32,
}

impl From<Refusal> for Refused {
    ghost from_gives = { λ r x. x ≡ record { by = r; number = 0 } };

    fn from(by: Refusal) -> Refused {
        Refused { by, number: 0 }
    }
}

// The number of an answer that refuses nothing.
pub const ACCEPTED: u32 = 0;
