//! What is kept beside bound variables: the number of another variable that stands for a term with the same
//! variables. Of numbers behind the last place nothing is kept, so that a search which needs none has no places.

ghost use Rattle.std.specs.Prelude.{◌≡◌, ◌⊎◌, ℕ, ◌<◌, ◌≤◌, ◌==◌, false, OnOk, length};
ghost use Rattle.ap_store.specs.Likes.{like_in};

use ap_defs::memory::Memory;

/// What is kept beside a bound variable: nothing, or the number of another one that stands for a term with the same
/// variables, and maybe the same head.
#[derive(Clone, Copy)]
pub enum Like {
    Nothing,
    Vars(u32),
    Head(u32),
}

/// Whether nothing is to be kept.
fn is_nothing(like: Like) -> bool {
    matches!(like, Like::Nothing)
}

/// Makes room for what is kept beside a number, where nothing is kept beside it or higher ones so far.
fn make_place(likes: &mut Vec<Like>, place: usize) -> Result<(), Memory>
    ensures likes { (i : ℕ) → like_in likes.new.items i ≡ like_in likes.old.items i }
    ensures place { OnOk result (place < length likes.new.items) }
{
    'adding: while likes.len() <= place {
        likes.push(Like::Nothing)?;
    }
    Ok(())
}

/// Keeps another number beside one behind the last place, or nothing where memory is wanting.
#[cold]
#[inline(never)]
fn keep_further(likes: &mut Vec<Like>, place: usize, like: Like)
    requires { length likes.old.items ≤ place }
    ensures others { (i : ℕ) → (i == place) ≡ false →
        like_in likes.new.items i ≡ like_in likes.old.items i }
    ensures here { (like_in likes.new.items place ≡ like)
        ⊎ (like_in likes.new.items place ≡ Like.Nothing) }
{
    if make_place(likes, place).is_ok() {
        likes[place] = like;
    }
}

/// Keeps another number beside one, or nothing. Behind the last place so far it may be that nothing is kept: where memory
/// is wanting.
pub fn keep_like(likes: &mut Vec<Like>, place: usize, like: Like)
    ensures others { (i : ℕ) → (i == place) ≡ false →
        like_in likes.new.items i ≡ like_in likes.old.items i }
    ensures room { place < length likes.old.items → like_in likes.new.items place ≡ like }
    ensures here { (like_in likes.new.items place ≡ like)
        ⊎ (like_in likes.new.items place ≡ Like.Nothing) }
{
    if place < likes.len() {
        likes[place] = like;
        return;
    }
    if is_nothing(like) {
        return;
    }
    keep_further(likes, place, like);
}

/// What is kept beside a number. It takes no memory.
pub fn like_of(likes: &[Like], place: u64) -> Like
    ensures { result ≡ like_in likes.now place }
{
    if place < likes.len() as u64 {
        likes[place as usize]
    } else {
        Like::Nothing
    }
}
