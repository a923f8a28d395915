//! The tree of a module in the core notation (ES 201 873-1): data without functions, but for names.
//! The parser, `tp_syntax`, makes a [`tree::Module`], and the checks, `tp_checks`, go
//! through it. Start there. 50 `Memory` means that an allocation was refused.
#![tactic(auto)]

pub mod message;
pub mod name;
pub mod tree;
