//! The number of statements of a body.
ghost use Rattle.std.specs.Prelude.{◌≡◌};
ghost use Rattle.tp_play.specs.Sizes.{capped, size_in, size_in_all, size_of, size_of_all, size_of_body, turns_between};

use tp_play::body::{Body, ResolvedBranch, ResolvedStatement};

/// Counting stops here: one above the maximum number of statements of all bodies of a test case.
pub const SIZE_CEILING: u64 = 100_001;

pub fn cap(number: u64) -> u64
    ensures { result ≡ capped number }
{
    if number < SIZE_CEILING {
        number
    } else {
        SIZE_CEILING
    }
}

fn turn_count(first: &i64, bound: &i64) -> u64
    ensures { result ≡ turns_between first.now bound.now }
{
    if *first < *bound {
        return bound.abs_diff(*first);
    }
    0
}

#[cycle(size)]
#[tactic(auto, using(crate::proofs::CappedStatementSizes::laws))]
fn count_statement(statement: &ResolvedStatement) -> u64
    ensures { result ≡ capped (size_of statement.now) }
{
    match statement {
        ResolvedStatement::Send(_) => 1,
        ResolvedStatement::Receive(_) => 1,
        ResolvedStatement::Control(_, _) => 1,
        ResolvedStatement::AllPorts(_) => 1,
        ResolvedStatement::SetVerdict(_) => 1,
        ResolvedStatement::Alt(branches, otherwise) => {
            let inner = count_branches(branches.as_slice());
            let Some(block) = otherwise else {
                return cap(1 + inner);
            };
            cap(1 + inner + count_block(block.as_slice()))
        }
        ResolvedStatement::For(first, bound, block) => {
            // Both factors are capped, so the product is below 2^34.
            cap(1 + cap(turn_count(first, bound)) * count_block(block.as_slice()))
        }
    }
}

#[cycle(size)]
#[tactic(auto, using(crate::proofs::CappedStatementSizes::laws))]
fn count_block(block: &[ResolvedStatement]) -> u64
    ensures { result ≡ capped (size_of_all block.now) }
{
    let mut sum = 0;
    for statement in block {
        sum = cap(sum + count_statement(statement));
    }
    sum
}

#[cycle(size)]
#[tactic(auto, using(crate::proofs::CappedStatementSizes::laws))]
fn count_branch(branch: &ResolvedBranch) -> u64
    ensures { result ≡ capped (size_in branch.now) }
{
    count_block(branch.block.as_slice())
}

#[cycle(size)]
#[tactic(auto, using(crate::proofs::CappedStatementSizes::laws))]
fn count_branches(branches: &[ResolvedBranch]) -> u64
    ensures { result ≡ capped (size_in_all branches.now) }
{
    let mut sum = 0;
    for branch in branches {
        sum = cap(sum + count_branch(branch));
    }
    sum
}

/// Each `for` counts as its copies, and each variable as 1. Returns 100,001 if there are more.
#[tactic(auto, using(crate::proofs::CappedStatementSizes::laws))]
pub fn count_body(body: &Body) -> u64
    ensures { result ≡ capped (size_of_body body.now) }
{
    let variables = cap(body.variables.len() as u64);
    cap(variables + count_block(body.statements.as_slice()))
}
