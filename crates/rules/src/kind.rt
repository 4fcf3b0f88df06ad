// The kinds of a step.
ghost use Rattle.std.specs.Prelude.{◌≡◌};
ghost use Rattle.rules.specs.Tape.{kind_of, uses_bench, uses_customer, uses_amount, OfNumber};

use super::refusal::Refusal;

// Each with its number on the tape.
#[derive(Clone, Copy, PartialEq, Eq, Debug)]
pub enum Kind {
    JoinCustomer = 1,
    JoinBench = 2,
    OpenLine = 3,
    Update = 4,
    Stock = 5,
    Sell = 6,
    BenchAuthenticates = 7,
    DeskAuthenticates = 8,
    Clear = 9,
    TopUp = 10,
    ClearLiving = 11,
}

// Which fields of its record a kind uses.
impl Kind {
    #[tactic(auto, unfolding(crate::specs::Lists::occ))]
    pub fn uses_bench(self) -> bool
        ensures { result ≡ uses_bench (kind_of self) }
    {
        !matches!(self, Kind::JoinCustomer | Kind::Update | Kind::TopUp)
    }

    #[tactic(auto, unfolding(crate::specs::Lists::occ))]
    pub fn uses_customer(self) -> bool
        ensures { result ≡ uses_customer (kind_of self) }
    {
        !matches!(
            self,
            Kind::JoinBench | Kind::Stock | Kind::BenchAuthenticates | Kind::DeskAuthenticates
        )
    }

    #[tactic(auto, unfolding(crate::specs::Lists::occ))]
    pub fn uses_amount(self) -> bool
        ensures { result ≡ uses_amount (kind_of self) }
    {
        matches!(
            self,
            Kind::JoinCustomer | Kind::Update | Kind::Stock | Kind::Sell | Kind::TopUp
        )
    }
}

impl TryFrom<u8> for Kind {
    type Error = Refusal;

    ghost try_from_gives = { OfNumber };

    // A record of another number is malformed.
    fn try_from(number: u8) -> Result<Self, Refusal> {
        match number {
            1 => Ok(Kind::JoinCustomer),
            2 => Ok(Kind::JoinBench),
            3 => Ok(Kind::OpenLine),
            4 => Ok(Kind::Update),
            5 => Ok(Kind::Stock),
            6 => Ok(Kind::Sell),
            7 => Ok(Kind::BenchAuthenticates),
            8 => Ok(Kind::DeskAuthenticates),
            9 => Ok(Kind::Clear),
            10 => Ok(Kind::TopUp),
            11 => Ok(Kind::ClearLiving),
            _ => Err(Refusal::Malformed),
        }
    }
}
