// What an obligation asks: its facts and its goal.
use crate::facts::Facts;
use rows::Numbers;

// The facts, in their order, and the goal.
#[derive(Clone, Copy)]
pub struct Question {
    pub facts: Facts,
    pub goal: Numbers,
}

pub mod posing;
pub mod sheet;
