//! What bytes become where a format has marks of its own.

ghost use Rattle.std.specs.Prelude.{◌≡◌, ◌++◌, OnOk};
ghost use Rattle.ap_steps.specs.Escapes as spec;

use ap_defs::memory::Memory;

/// What HTML has in place of a byte, or nothing, where the byte stands for itself.
#[tactic(auto, unfolding(crate::specs::Escapes::html_mark))]
fn html_mark(byte: u8) -> &'static str
    ensures { result.now ≡ spec.html_mark byte }
{
    match byte {
        b'&' => "&amp;",
        b'<' => "&lt;",
        b'>' => "&gt;",
        b'"' => "&quot;",
        b'\'' => "&#39;",
        _ => "",
    }
}

/// What LaTeX has in place of a byte, or nothing, where the byte stands for itself. A line may break behind
/// a comma.
#[tactic(auto, unfolding(crate::specs::Escapes::latex_mark))]
fn latex_mark(byte: u8) -> &'static str
    ensures { result.now ≡ spec.latex_mark byte }
{
    match byte {
        b'\\' => "\\textbackslash{}",
        b'{' => "\\{",
        b'}' => "\\}",
        b'#' => "\\#",
        b'$' => "\\$",
        b'%' => "\\%",
        b'&' => "\\&",
        b'_' => "\\_",
        b'~' => "\\textasciitilde{}",
        b'^' => "\\textasciicircum{}",
        b'\'' => "\\textquotesingle{}",
        b'`' => "\\textasciigrave{}",
        b',' => ",\\allowbreak{}",
        _ => "",
    }
}

/// Writes a byte, or what stands in its place.
fn write_byte(out: &mut Vec<u8>, mark: &str, byte: u8) -> Result<(), Memory>
    ensures { OnOk result (out.new.items ≡ out.old.items ++ spec.in_place_of mark.now byte) }
{
    if mark.is_empty() {
        out.push(byte)?;
    } else {
        out.extend_from_slice(mark.as_bytes())?;
    }
    Ok(())
}

/// Writes a text in HTML.
pub fn write_html(out: &mut Vec<u8>, text: &[u8]) -> Result<(), Memory>
    ensures { OnOk result (out.new.items ≡ out.old.items ++ spec.html_escaped text.now) }
{
    for byte in text {
        write_byte(out, html_mark(*byte), *byte)?;
    }
    Ok(())
}

/// Writes a text in LaTeX.
pub fn write_latex(out: &mut Vec<u8>, text: &[u8]) -> Result<(), Memory>
    ensures { OnOk result (out.new.items ≡ out.old.items ++ spec.latex_escaped text.now) }
{
    for byte in text {
        write_byte(out, latex_mark(*byte), *byte)?;
    }
    Ok(())
}
