//! Texts of words, which identifiers that are spelled alike share.
ghost use Rattle.std.specs.Prelude.{◌≡◌, ◌<◌, IfOk, IfSome};

use ap_defs::lists::{SharedText, Text};
use ap_defs::memory::Memory;
use std::alloc::Global;

/// How many texts are kept.
const KEPT: usize = 256;

/// The texts of some words, each at the place of its word: that of the last one that was asked for.
#[derive(Drop)]
pub struct Spellings {
    kept: Vec<Option<SharedText>>,
}

/// Where the text of a word is kept.
fn place_of(word: &str) -> usize
    ensures { result < 256 }
{
    let mut place = 0;
    for byte in word.as_bytes() {
        place = (place * 31 + *byte as usize) % KEPT;
    }
    place
}

impl Spellings {
    /// No texts are kept yet.
    pub fn new(alloc: Global) -> Spellings {
        Spellings {
            kept: Vec::new(alloc),
        }
    }

    /// The text of a word, if it is kept at a place.
    fn shared(&self, word: &str, place: usize) -> Result<Option<SharedText>, Memory>
        ensures { IfOk result (λ o. IfSome o (λ t. t ≡ word.now)) }
    {
        let Some(Some(text)) = self.kept.get(place) else {
            return Ok(None);
        };
        if text.as_str() == word {
            return Ok(Some(text.share()?));
        }
        Ok(None)
    }

    /// A text is kept at a place, in place of what was there. It spares memory alone.
    fn keep(&mut self, place: usize, text: SharedText) -> Result<(), Memory> {
        if self.kept.is_empty() {
            for _ in 0..KEPT {
                self.kept.push(None)?;
            }
        }
        if let Some(kept) = self.kept.get_mut(place) {
            *kept = Some(text);
        }
        Ok(())
    }

    /// The text of a word. It is shared with the earlier ones, unless another word took its place meanwhile.
    pub fn text_of(&mut self, alloc: Global, word: &str) -> Result<SharedText, Memory>
        ensures { IfOk result (λ t. t ≡ word.now) }
    {
        let place = place_of(word);
        if let Some(text) = self.shared(word, place)? {
            return Ok(text);
        }
        let text = SharedText::of(alloc, Text::of(String::from_str(alloc, word)?))?;
        self.keep(place, text.share()?)?;
        Ok(text)
    }
}
