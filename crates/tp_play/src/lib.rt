//! The test case in executable form: a body for each component, with names resolved, and the values
//! of its messages and templates. The checks (`tp_checks` and `tp_script`) make a
//! [`test_case::TestCase`]; `tp_behaviour` executes it, and `tp_program` translates it. Start
//! there. 50 `Memory` means that an allocation was refused; only calls that can return it allocate.
#![tactic(auto)]

pub mod bodies;
pub mod body;
pub mod fill;
pub mod instance;
pub mod test_case;
