// Why a step, a run or a call is refused, and what a step answers.
ghost use Rattle.std.specs.Prelude.{◌≡◌};
ghost use Rattle.rules.specs.Answers.{verdict_of, alone};
ghost use Rattle.rules.specs.Verdicts.{verdict_in, second_in};

// Each with its verdict number.
#[derive(Clone, Copy, PartialEq, Eq, Debug)]
pub enum Refusal {
    // a book that isn't sound over the list, a list that isn't good, or a lent part of another length
    Unsound = 1,
    // no kind, or a field that the kind doesn't use isn't zero
    Malformed = 2,
    // no such bench or customer
    NotInHall = 3,
    // who joins has joined already, or the line is open
    InAlready = 4,
    // a bench or a customer that is named hasn't joined
    NotJoined = 5,
    // the bench has no line for the customer
    NotOpen = 6,
    // a budget, a stock or the hall's money above its bound
    AboveBound = 7,
    // more than the budget that is left
    OverBudget = 8,
    // the desk's view would hold more than a record can
    ViewFull = 9,
    // more than the list has left
    ListSpent = 10,
    // more than the carnet has
    CarnetShort = 11,
    // the line would hold too many tokens or sales
    LineFull = 12,
    // no token to authenticate with
    NoToken = 13,
    // till and view have another token in front
    Unlike = 14,
    // a token of the line is dead
    DeadToken = 15,
    // a tape or a part for it of another length
    CutShort = 16,
    // bench and desk haven't shaken hands
    NoHandshake = 17,
}

// A refused step's number, and the second number that goes with it.
#[derive(Clone, Copy, PartialEq, Eq, Debug)]
pub struct Refused {
    pub why: Refusal,
    pub second: u8,
}

// What a step answers: a second number where it is granted too.
pub type Reply = Result<u8, Refused>;

impl From<Refusal> for Refused {
    ghost from_gives = { λ why e. e ≡ alone why };

    fn from(why: Refusal) -> Refused {
        Refused { why, second: 0 }
    }
}

// A verdict as a number, for a byte that is lent or answered: 0 is granted.
pub fn verdict(answer: Result<(), Refusal>) -> u8
    ensures { result ≡ verdict_of answer }
{
    match answer {
        Ok(()) => 0,
        Err(why) => why as u8,
    }
}

// Both numbers of a reply.
pub fn numbers(reply: Reply) -> (u8, u8)
    ensures { result ≡ (verdict_in reply, second_in reply) }
{
    match reply {
        Ok(second) => (0, second),
        Err(refused) => (refused.why as u8, refused.second),
    }
}
