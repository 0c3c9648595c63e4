// The class of a row at an instant, and how many rows are of each class, from a timeline's bytes as a host kept them.
#![tactic(auto)]

mod classing;
mod counting;

pub use classing::class_answer;
pub use counting::{Counts, count_answer};

// What a row shows at an instant, in the order of the classes' numbers.
#[derive(Clone, Copy, Debug, PartialEq, Eq)]
pub enum Class {
    Trading = 1,
    NotTrading = 2,
    NotKnown = 3,
    NotShown = 4,
}

// A number of document 01, 0 for an answer, and the class's number, 0 beside a refusal.
#[repr(C)]
#[derive(Clone, Copy)]
pub struct ClassReply {
    pub number: u32,
    pub shown: u32,
}

// A number of document 01, 0 for an answer, and how many rows there are, and how many of each class but the last. All 0 beside a refusal.
#[repr(C)]
#[derive(Clone, Copy)]
pub struct CountReply {
    pub number: u32,
    pub venues: u64,
    pub trading: u64,
    pub not_trading: u64,
    pub not_known: u64,
}
