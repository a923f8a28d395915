//! From the text of a script to its tree (`tp_tree`): its tokens, each with its line, and the
//! parser of the core notation. `tp_script` calls [`parser::parse`]; start there. The grammar is a
//! table, `specs/Grammar.antt`. Each function of the parser reads a rule of it, or a part of one:
//! it passes its tokens, or returns where the parser is stuck. 50 `Memory` means that an allocation
//! was refused, and says nothing about the script; only calls that can return it allocate.
#![tactic(auto)]

mod byte;
#[tactic(auto, using(crate::proofs::StepsOfReading::parsing))]
mod case_bodies;
#[tactic(auto, using(crate::proofs::StepsOfReading::parsing))]
mod cases;
#[tactic(auto, using(crate::proofs::StepsOfReading::parsing))]
mod cursor;
#[tactic(auto, using(crate::proofs::StepsOfReading::parsing))]
mod faults;
pub mod laws;
pub mod lexer;
#[tactic(auto, using(crate::proofs::StepsOfReading::parsing))]
mod modules;
#[tactic(auto, using(crate::proofs::StepsOfReading::parsing))]
mod operations;
#[tactic(auto, using(crate::proofs::StepsOfReading::parsing))]
pub mod parser;
#[tactic(auto, using(crate::proofs::StepsOfReading::parsing))]
mod parts;
mod piece;
pub mod script_fault;
#[tactic(auto, using(crate::proofs::StepsOfReading::parsing))]
mod statements;
mod stuck;
#[tactic(auto, using(crate::proofs::StepsOfReading::parsing))]
mod templates;
pub mod token;
#[tactic(auto, using(crate::proofs::StepsOfReading::parsing))]
mod types;
#[tactic(auto, using(crate::proofs::StepsOfReading::parsing))]
mod values;
pub mod word;
