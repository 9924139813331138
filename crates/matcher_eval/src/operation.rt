//! How an operation joins truths.
ghost use Rattle.std.specs.Prelude.{◌≡◌};
ghost use Rattle.matcher_eval.specs.Combined.{combined_truth, all_true, some_true};

use config_types::Operation;

/// The truth of a combination, from the truths of its children.
pub fn combine(op: Operation, children: &[bool]) -> bool
    ensures { result ≡ combined_truth op children.now }
{
    match op {
        Operation::And => are_all_true(children),
        Operation::Or => is_some_true(children),
        Operation::Not => !is_some_true(children),
        Operation::Nand => !are_all_true(children),
        Operation::Nor => !is_some_true(children),
    }
}

fn are_all_true(truths: &[bool]) -> bool
    ensures { result ≡ all_true truths.now }
{
    truths.iter().all(|truth| *truth)
}

fn is_some_true(truths: &[bool]) -> bool
    ensures { result ≡ some_true truths.now }
{
    truths.iter().any(|truth| *truth)
}
