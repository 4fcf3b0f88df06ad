// Lists of tokens: searched, marked and closed up, laid over lent cells, and moved within them; and places marked in a map.

#![tactic(auto)]

pub mod laying;
pub mod map;
pub mod marking;
pub mod moving;
pub mod searching;
