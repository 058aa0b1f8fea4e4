// The size and the height of a kernel statement.

ghost use Rattle.std.specs.Prelude.{◌≡◌, ◌-◌, ◌^◌, min};
ghost use Rattle.est_kernel.specs.Plain.{expression_of, term_of};
ghost use Rattle.est_kernel.specs.Sizes.{test_size, size_of, test_height, height_of};

use crate::signal_tests::Test;
use crate::statements::Kernel;

/// The number of statement nodes plus the number of test nodes. A number that does not fit is
/// answered as the greatest u64. It takes no memory.
pub fn size(body: &Kernel) -> u64
    ensures { result ≡ min (size_of (term_of body.now)) (2 ^ 64 - 1) }
{
    match body {
        Kernel::Nothing | Kernel::Pause | Kernel::Emit(_) | Kernel::Exit(_) => 1,
        Kernel::Present(test, yes, no) => {
            let branches = size(yes).saturating_add(size(no));
            size_of_test(test)
                .saturating_add(branches)
                .saturating_add(1)
        }
        Kernel::Suspend(test, part) => {
            size_of_test(test)
                .saturating_add(size(part))
                .saturating_add(1)
        }
        Kernel::Seq(first, second) | Kernel::Par(first, second) => {
            size(first).saturating_add(size(second)).saturating_add(1)
        }
        Kernel::Loop(_, part) | Kernel::Trap(part) | Kernel::Local(_, part) => {
            size(part).saturating_add(1)
        }
    }
}

/// The number of nodes on the longest way from the body down, tests included. A number that does
/// not fit is answered as the greatest u64. It takes no memory.
pub fn height(body: &Kernel) -> u64
    ensures { result ≡ min (height_of (term_of body.now)) (2 ^ 64 - 1) }
{
    match body {
        Kernel::Nothing | Kernel::Pause | Kernel::Emit(_) | Kernel::Exit(_) => 1,
        Kernel::Present(test, yes, no) => {
            let branches = height(yes).max(height(no));
            height_of_test(test).max(branches).saturating_add(1)
        }
        Kernel::Suspend(test, part) => height_of_test(test).max(height(part)).saturating_add(1),
        Kernel::Seq(first, second) | Kernel::Par(first, second) => {
            height(first).max(height(second)).saturating_add(1)
        }
        Kernel::Loop(_, part) | Kernel::Trap(part) | Kernel::Local(_, part) => {
            height(part).saturating_add(1)
        }
    }
}

// The number of nodes of a test.
fn size_of_test(test: &Test) -> u64
    ensures { result ≡ min (test_size (expression_of test.now)) (2 ^ 64 - 1) }
{
    match test {
        Test::Tick | Test::Sig(_) => 1,
        Test::Not(part) => size_of_test(part).saturating_add(1),
        Test::And(left, right) | Test::Or(left, right) => {
            size_of_test(left)
                .saturating_add(size_of_test(right))
                .saturating_add(1)
        }
    }
}

// The number of nodes on the longest way down a test.
fn height_of_test(test: &Test) -> u64
    ensures { result ≡ min (test_height (expression_of test.now)) (2 ^ 64 - 1) }
{
    match test {
        Test::Tick | Test::Sig(_) => 1,
        Test::Not(part) => height_of_test(part).saturating_add(1),
        Test::And(left, right) | Test::Or(left, right) => {
            height_of_test(left)
                .max(height_of_test(right))
                .saturating_add(1)
        }
    }
}
