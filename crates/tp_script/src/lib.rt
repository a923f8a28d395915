//! The reader of scripts: the tree of a text, all checks of its module in their order, and the test
//! case that they make of it. The programs `tpr` and `tpr_ordered` call [`reading::read_script`];
//! start there. 50 `Memory` means that an allocation was refused, and says nothing about the
//! script; only calls that can return it allocate.
#![tactic(auto)]

mod bodies;
pub mod checking;
pub mod fault;
mod instances;
pub mod laws;
pub mod reading;
mod scopes;
mod total;

pub use checking::check;
pub use tp_play::body::{RecvMsg, SendMsg, SendValue};
pub use tp_play::fill::{fill_message, fill_template};
pub use tp_play::test_case::TestCase;
pub use tp_syntax::lexer::lex;
pub use tp_syntax::parser::parse;
pub use tp_syntax::script_fault::ScriptFault;
pub use tp_tree::tree::Module;
