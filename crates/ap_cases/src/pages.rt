//! Bundles of the folder `shown`, and what is shown of them: as plain text, and of some as LaTeX and as HTML too.

use crate::call::put_status;
use crate::spelling::Spelling;
use ap_defs::limits::SIZE_LIMIT;
use ap_show::show_bytes;
use ap_steps::pages::Format;

/// Tells what is shown of a bundle in a format, behind its name and its status.
pub fn show(out: &mut Spelling, format: Format, name: &str, bundle: &str) {
    out.put_all(&["% ", name, "\n"]);
    let bytes = bundle.as_bytes();
    if bytes.len() > SIZE_LIMIT {
        out.lose();
        return;
    }
    match show_bytes(out.alloc(), format, bytes) {
        Ok(report) => {
            put_status(out, report.status.code());
            out.put_bytes(report.bytes.items());
        }
        Err(_) => out.lose(),
    }
}

/// Tells what is shown of a bundle in each format.
pub fn show_pages(out: &mut Spelling, name: &str, bundle: &str) {
    for format in [Format::Text, Format::Latex, Format::Html] {
        show(out, format, name, bundle);
    }
}
