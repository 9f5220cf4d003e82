// The members of an alphabet in a text: whether all bytes are members, where the first is none, and how many are none. By comparisons and no table, many bytes at a test.
#![tactic(auto)]

mod count;
mod find;

pub use count::count_strangers;
pub use find::{all_members, first_stranger};
