// Counters that never wrap.
ghost use Rattle.std.specs.Prelude.{◌≡◌};
ghost use Rattle.ap_io.specs.Causes.{next};

/// The count after this one. The greatest count stands still.
pub(crate) fn one_more(count: u64) -> u64
    ensures { result ≡ next count }
{
    count.saturating_add(1)
}
