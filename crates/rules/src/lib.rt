// What the definitions of specs/ and the code have in common: a hall, the one in use, a record of the tape, its kind, and what is
// answered.

#![tactic(auto)]

pub mod kind;
pub mod refusal;

// A hall, by the number of its customers and of its benches.
#[derive(Clone, Copy, PartialEq, Eq, Debug)]
pub struct Hall {
    pub customers: usize,
    pub benches: usize,
}

// The hall in use, `main_hall`.
pub const MAIN: Hall = Hall {
    customers: 16,
    benches: 8,
};

// A record of the tape, all five fields. `byte3` is zero in every record that isn't refused; `kind` is a number still, since one that is
// refused may name no kind.
#[derive(Clone, Copy, PartialEq, Eq, Debug)]
pub struct Entry {
    pub kind: u8,
    pub bench: u8,
    pub customer: u8,
    pub byte3: u8,
    pub amount: u32,
}
