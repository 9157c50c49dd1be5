// The first fault of tests in an order.
ghost use Rattle.std.specs.Prelude.{◌≡◌, ◌<◌, ℕ};
ghost use Rattle.papers.specs.First.{Verdict, first};

use crate::fault::DocketFault;

// The first fault of the tests at 0 to n - 1.
pub(crate) fn first_fault<F: Fn(u32) -> Result<(), DocketFault>>(
    n: u32,
    test: F,
) -> Result<(), DocketFault>
    requires { (i : ℕ) → i < n → F.pre test i }
    ensures { (verdict : ℕ → Verdict DocketFault) →
        ((i : ℕ) (r : _) → i < n → F.post test i r → r ≡ verdict i) → result ≡ first verdict n }
{
    for i in 0..n {
        test(i)?;
    }
    Ok(())
}
