//! The book says what the code does: laws that tie it to the definitions that the code proves.
#![tactic(auto)]

mod laws;

pub use laws::{
    courses_are_those_of_the_book, numbers_are_those_of_the_book, records_are_those_of_the_book,
    reliabilities_are_those_of_the_book, rules_are_those_of_the_book, times_are_those_of_the_book,
};
