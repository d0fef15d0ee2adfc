// Room that vectors no longer use, given back.
ghost use Rattle.std.specs.Prelude.{◌≡◌};
ghost use Rattle.std.specs.Vec.{vec_len};

/// Room for fewer items than this is kept.
const SMALL: usize = 4096;

/// Gives back a quarter of the room at least, once half of it isn't used.
pub(crate) fn give_back<T>(items: &mut Vec<T>)
    ensures items { items.new.items ≡ items.old.items }
    ensures len { vec_len items.new ≡ vec_len items.old }
{
    let room = items.capacity();
    if room >= SMALL && items.len() <= room / 2 {
        items.shrink_to(room / 4 * 3);
    }
}

/// Gives back all room that isn't used, once that is an eighth.
pub(crate) fn give_all_back<T>(items: &mut Vec<T>)
    ensures items { items.new.items ≡ items.old.items }
    ensures len { vec_len items.new ≡ vec_len items.old }
{
    let room = items.capacity();
    if room >= SMALL && items.len() <= room - room / 8 {
        items.shrink_to_fit();
    }
}
