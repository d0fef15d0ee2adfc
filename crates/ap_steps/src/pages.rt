//! Documents of derivations.

ghost use Rattle.std.specs.Prelude.{◌≡◌, ◌++◌, OnOk};
ghost use Rattle.ap_steps.specs.Pages as spec;

use crate::html::write_html_steps;
use crate::latex::write_latex_steps;
use crate::plain::write_plain;
use crate::steps::Step;
use ap_defs::memory::Memory;
use std::alloc::Global;

/// A format of documents: plain text, LaTeX or HTML.
#[derive(Clone, Copy)]
pub enum Format {
    Text,
    Latex,
    Html,
}

/// What stands before the derivations of a document in LaTeX. It needs `mathpartir`, and with LuaLaTeX or
/// XeLaTeX `fontspec`.
pub const LATEX_HEAD: &str = "\\documentclass[a4paper,landscape]{article}
\\usepackage[margin=15mm]{geometry}
\\usepackage{iftex}
\\ifpdftex\\usepackage[T1]{fontenc}\\usepackage{lmodern}\\usepackage{textcomp}
\\else\\usepackage{fontspec}\\setmonofont{DejaVu Sans Mono}[Scale=0.85]\\fi
\\usepackage{mathpartir}
\\usepackage{graphicx}
\\pagestyle{empty}
\\newcommand{\\derive}[3]{\\inferrule*[right={\\normalfont\\scriptsize\\ttfamily #1}]{#3\\mbox{}}{\\mbox{\\ttfamily #2}}}
\\newcommand{\\step}[4]{\\par\\noindent\\hangindent=#1em\\advance\\hangindent2em\\hspace*{#1em}#2{\\ttfamily #4}
{\\scriptsize\\ttfamily [#3]}}
\\newcount\\level
\\newcommand{\\under}[3]{\\step{\\number\\level}{}{#1}{#2}{\\advance\\level1 #3}}
\\newsavebox{\\derived}
\\newcommand{\\derivation}[1]{\\sbox{\\derived}{\\hsize4\\linewidth\\linewidth\\hsize$\\displaystyle #1$}%
\\ifdim\\wd\\derived>1.5\\linewidth{\\let\\derive\\under\\let\\\\\\relax\\medskip #1\\par\\medskip}%
\\else\\begin{center}\\ifdim\\wd\\derived>\\linewidth\\resizebox{\\linewidth}{!}{\\usebox{\\derived}}%
\\else\\usebox{\\derived}\\fi\\end{center}\\fi}
\\begin{document}\\raggedright
";

/// What stands behind the derivations of a document in LaTeX.
pub const LATEX_FOOT: &str = "\\end{document}
";

/// What stands before the derivations of a document in HTML.
pub const HTML_HEAD: &str = "<!DOCTYPE html>
<html lang=\"en\">
<head>
<meta charset=\"utf-8\">
<title>Derivations</title>
<style>
body { font: 15px/1.5 ui-monospace, \"DejaVu Sans Mono\", monospace; margin: 2em; }
section { margin-bottom: 2em; }
details, details > div { margin-left: 1.2em; border-left: 1px solid #ddd; padding-left: .6em; }
details > div { padding-left: 1em; }
section > details, section > div { margin-left: 0; border-left: 0; }
summary { cursor: pointer; margin-left: -.6em; }
span { color: #777; font-size: 80%; }
.c1 { color: #b00; } .c2 { color: #06c; } .c3 { color: #080; } .c4 { color: #a50; }
.c5 { color: #80c; } .c6 { color: #088; } .c7 { color: #c06; } .c8 { color: #660; }
</style>
</head>
<body>
";

/// What stands behind the derivations of a document in HTML.
pub const HTML_FOOT: &str = "</body>
</html>
";

/// What stands before the derivations of a document.
#[tactic(auto, unfolding(crate::specs::Pages::head_text))]
fn head(format: Format) -> &'static str
    ensures { result.now ≡ spec.head_text format }
{
    match format {
        Format::Text => "",
        Format::Latex => LATEX_HEAD,
        Format::Html => HTML_HEAD,
    }
}

/// What stands behind the derivations of a document.
#[tactic(auto, unfolding(crate::specs::Pages::foot_text))]
fn foot(format: Format) -> &'static str
    ensures { result.now ≡ spec.foot_text format }
{
    match format {
        Format::Text => "",
        Format::Latex => LATEX_FOOT,
        Format::Html => HTML_FOOT,
    }
}

/// Tells how many derivations were checked.
fn write_count(alloc: Global, out: &mut Vec<u8>, format: Format, count: usize) -> Result<(), Memory>
    ensures { OnOk result (out.new.items ≡ out.old.items ++ spec.checked_text format count) }
{
    let said = match format {
        Format::Text => format!(in alloc; "% {count} derivations checked\n")?,
        Format::Latex => format!(in alloc; "\\noindent {count} derivations checked\n\n")?,
        Format::Html => format!(in alloc; "<p>{count} derivations checked</p>\n")?,
    };
    out.extend_from_slice(said.as_str().as_bytes())?;
    Ok(())
}

/// Writes what stands before so many derivations.
pub fn write_beginning(
    alloc: Global,
    out: &mut Vec<u8>,
    format: Format,
    count: usize,
) -> Result<(), Memory>
    ensures { OnOk result (out.new.items ≡ out.old.items ++ spec.page_beginning format count) }
{
    out.extend_from_slice(head(format).as_bytes())?;
    write_count(alloc, out, format, count)
}

/// Writes the steps of a derivation.
pub fn write_derivation(
    alloc: Global,
    out: &mut Vec<u8>,
    format: Format,
    steps: &[Step],
) -> Result<(), Memory>
    ensures { OnOk result (out.new.items ≡ out.old.items ++ spec.derivation_text format steps.now) }
{
    match format {
        Format::Text => {
            out.push(b'\n')?;
            write_plain(alloc, out, steps)?;
        }
        Format::Latex => write_latex_steps(alloc, out, steps)?,
        Format::Html => {
            out.extend_from_slice(b"<section>\n")?;
            write_html_steps(alloc, out, steps)?;
            out.extend_from_slice(b"</section>\n")?;
        }
    }
    Ok(())
}

/// Writes what stands behind the derivations.
pub fn write_end(out: &mut Vec<u8>, format: Format) -> Result<(), Memory>
    ensures { OnOk result (out.new.items ≡ out.old.items ++ spec.foot_text format) }
{
    out.extend_from_slice(foot(format).as_bytes())?;
    Ok(())
}
