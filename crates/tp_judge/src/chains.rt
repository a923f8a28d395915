//! The demands with the same first number, one after another.
ghost use Rattle.std.specs.Prelude.{◌≡◌, All, IfOk, length};
ghost use Rattle.tp_judge.specs.Chains.{AreChains};
ghost use Rattle.tp_judge.specs.Order.{IsBelow};

use crate::demand::Demand;
use std::alloc::{AllocError, Global};

/// For each number, one more than the place of the last demand with this first number; and for each
/// demand, one more than the place of the one before it with the same first number. 0 means that
/// there is none.
#[derive(Drop)]
pub(crate) struct Chains {
    pub(crate) last: Vec<usize>,
    pub(crate) previous: Vec<usize>,
}

pub(crate) fn chain(alloc: Global, count: usize, demands: &[Demand]) -> Result<Chains, AllocError>
    requires { All (IsBelow count) demands.now }
    ensures size { IfOk result (λ c. length c.last.items ≡ count) }
    ensures chains { IfOk result (λ c. AreChains demands.now c.last.items c.previous.items) }
{
    let mut last = vec![in alloc; 0; count]?;
    let mut previous = Vec::with_capacity(alloc, demands.len())?;
    for (k, demand) in demands.iter().enumerate() {
        // Before `last` changes: what it has is the demand before this one.
        previous.push(last[demand.before])?;
        last[demand.before] = k + 1;
    }
    Ok(Chains { last, previous })
}
