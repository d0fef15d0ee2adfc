// Words and lines.
ghost use Rattle.std.specs.Prelude.{◌≡◌, [], ◌∷◌, ◌++◌, map, OnOk};
ghost use Rattle.std.specs.List.{join_with_byte};
ghost use Rattle.std.specs.Fmt.{decimal};
ghost use Rattle.ap_bundle.specs.Words.{line, word_text};
ghost use Rattle.ap_bundle.specs.Written.{counted_line};
ghost use Rattle.ap_bundle_write.specs.Spaces.{spaced};

use ap_bundle::words::{Head, Word};
use ap_defs::memory::Memory;
use std::alloc::Global;

/// Writes a number.
fn write_number(alloc: Global, out: &mut Vec<u8>, number: u64) -> Result<(), Memory>
    ensures { OnOk result (out.new.items ≡ out.old.items ++ decimal number) }
{
    let text = format!(in alloc; "{number}")?;
    out.extend_from_slice(text.as_bytes())?;
    Ok(())
}

/// Writes a word.
fn write_word(alloc: Global, out: &mut Vec<u8>, word: Word) -> Result<(), Memory>
    ensures { OnOk result (out.new.items ≡ out.old.items ++ word_text word) }
{
    match word {
        Word::Number(number) => write_number(alloc, out, number)?,
        Word::Letter(letter) => out.extend_from_slice(letter.text().as_bytes())?,
        Word::Node(word) => out.extend_from_slice(word.text().as_bytes())?,
        Word::Head(head) => out.extend_from_slice(head.text().as_bytes())?,
    }
    Ok(())
}

/// Writes words, each behind a space.
fn write_spaced(alloc: Global, out: &mut Vec<u8>, words: &[Word]) -> Result<(), Memory>
    ensures { OnOk result (out.new.items ≡ out.old.items ++ spaced words.now) }
{
    for word in words {
        out.push(b' ')?;
        write_word(alloc, out, *word)?;
    }
    Ok(())
}

/// Writes words with a space between each two.
fn write_words(alloc: Global, out: &mut Vec<u8>, words: &[Word]) -> Result<(), Memory>
    ensures { OnOk result (out.new.items
        ≡ out.old.items ++ join_with_byte 32 (map word_text words.now)) }
{
    let Some((first, others)) = words.split_first() else {
        return Ok(());
    };
    write_word(alloc, out, *first)?;
    write_spaced(alloc, out, others)?;
    Ok(())
}

/// Writes a line of words.
#[tactic(auto, unfolding(ap_bundle::specs::Words::line))]
pub fn write_line(alloc: Global, out: &mut Vec<u8>, words: &[Word]) -> Result<(), Memory>
    ensures { OnOk result (out.new.items ≡ out.old.items ++ line words.now) }
{
    write_words(alloc, out, words)?;
    out.push(b'\n')?;
    Ok(())
}

/// Writes a line of a word and a count.
pub fn write_count(alloc: Global, out: &mut Vec<u8>, head: Head, count: usize) -> Result<(), Memory>
    ensures { OnOk result (out.new.items ≡ out.old.items ++ counted_line head count) }
{
    write_line(alloc, out, &[Word::Head(head), Word::Number(count as u64)])
}
