//! What the program says on standard error.

use ap_report::Status;

/// How the program is called.
const USAGE: &str = "usage: alphaprolog-show --as text < BUNDLE
       alphaprolog-show --as latex < BUNDLE > FILE.tex
       alphaprolog-show --as html < BUNDLE > FILE.html

It shows the derivations of a bundle, which `alphaprolog prove` writes, as trees of rules. A bundle
that `alphaprolog check` refuses is refused in the same way: the line goes to standard output.
Exit status: 0 shown, 1 usage, 2 syntax, 3 types, 4 names, 5 input can't be read, 6 output can't be
written, 7 memory, 8 not checked, 9 too large.
";

/// What is said of a status. `NotCovered` and `NotAProperty` are of other commands.
fn status_text(status: Status) -> &'static str {
    match status {
        Status::Ok | Status::NotCovered | Status::NotAProperty => "",
        Status::Usage => USAGE,
        Status::Read => "error: standard input could not be read\n",
        Status::Write => "error: the document could not be written whole to standard output\n",
        Status::Memory => "error: there was not enough memory; nothing was written\n",
        Status::NotChecked => "error: a derivation of the bundle does not check\n",
        Status::Syntax | Status::Types | Status::Names => {
            "error: the input has a fault; the report tells where\n"
        }
        Status::TooLarge => "error: the input has more than 16777216 bytes\n",
    }
}

/// Says what helps with a status. Where standard error can't be written, nothing comes of it.
pub fn say<R: Eprint>(rt: &R, status: Status) {
    let said = status_text(status);
    if !said.is_empty() {
        let _ = eprint!(rt; "{said}");
    }
}
