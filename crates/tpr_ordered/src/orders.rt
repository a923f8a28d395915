//! Orders of steps, one on each line.
use crate::fault::FileFault;
use std::alloc::Global;
use tp_config::config::Config;
use tp_config::port_type::CompId;

#[derive(Clone, Copy)]
pub enum Hold {
    Before,
    /// Inside the statement that it has begun: before it tries its next branch, or, in an operation
    /// on ports, before its next port.
    Inside,
}

/// A step of an order: a component is held until its turn has come, and goes on.
#[derive(Clone, Copy)]
pub struct Step {
    pub who: CompId,
    pub hold: Hold,
}

#[derive(Drop)]
pub struct StepOrder {
    pub line: String,
    pub steps: Vec<Step>,
}

/// The step in a word: the name of a component, followed by `+` if it is held inside a statement.
/// `None` if no component has that name.
fn step_of(config: &Config, word: &str) -> Option<Step> {
    let (name, hold) = match word.strip_suffix('+') {
        Some(name) => (name, Hold::Inside),
        None => (word, Hold::Before),
    };
    let who = config.comp_of(name)?;
    Some(Step { who, hold })
}

/// The steps in a line, with one space between two words. An empty line has none. 11 `Unknown` if
/// no component has a name, at the line of this number.
fn steps_of(
    alloc: Global,
    config: &Config,
    line: &str,
    number: u32,
) -> Result<Vec<Step>, FileFault> {
    let mut steps = Vec::new(alloc);
    if line.is_empty() {
        return Ok(steps);
    }
    for word in line.split(' ') {
        let Some(step) = step_of(config, word) else {
            return Err(FileFault::Unknown { line: number });
        };
        steps.push(step)?;
    }
    Ok(steps)
}

fn order_of(
    alloc: Global,
    config: &Config,
    line: &str,
    number: u32,
) -> Result<StepOrder, FileFault> {
    let steps = steps_of(alloc, config, line, number)?;
    let line = String::from_str(alloc, line)?;
    Ok(StepOrder { line, steps })
}

/// The orders in a text, one on each line: the names of components of the configuration, one for
/// each step, followed by `+` if it is held inside its statement; one space between two of them.
/// Each line ends with a byte 10, which the last may lack. An empty line is an order without steps.
/// 2 `Read` if the text isn't UTF-8; else 11 `Unknown`, at the first line with a name that no
/// component has.
pub fn read_orders(
    alloc: Global,
    config: &Config,
    text: &[u8],
) -> Result<Vec<StepOrder>, FileFault> {
    let Ok(text) = str::from_utf8(text) else {
        return Err(FileFault::Read);
    };
    let mut orders = Vec::new(alloc);
    let mut number: u32 = 0;
    for line in text.split_terminator('\n') {
        // A text has fewer lines than 2^32, which needn't be shown.
        number = number.wrapping_add(1);
        orders.push(order_of(alloc, config, line, number)?)?;
    }
    Ok(orders)
}
