// Sizes of terms that are written in full.
ghost use Rattle.std.specs.Prelude.{◌≡◌, ◌+◌, ℕ};
ghost use Rattle.ap_shared.specs.Shared.{exact_size};

/// The sum of sizes.
pub(crate) fn sum_of(left: Option<u64>, right: Option<u64>) -> Option<u64>
    ensures { (m n : ℕ) → left ≡ exact_size m → right ≡ exact_size n → result ≡ exact_size (m + n) }
{
    let left = left?;
    let right = right?;
    left.checked_add(right)
}
