//! Texts of folders. A file of a folder has a line for each text, with the depth and its name: `runs` those that are run,
//! read as streams, `examined` those whose queries are properties, `proofs` those whose answers are counted with their
//! derivations, and `checked` those of which it is told what `check` writes of what `prove` writes. A text is examined by one
//! worker and by four, and a line tells where these write different bytes.

use crate::call::tell_by;
use crate::derivations::{tally_of, tell};
use crate::files::text_of;
use crate::proving::tell_proved;
use crate::spelling::Spelling;
use crate::streams::run_text;
use std::fs::Files;
use std::sync::Wait;
use std::thread::Threads;

/// What is done with the texts of a folder.
#[derive(Clone, Copy)]
pub enum Task {
    Run,
    Examine,
    Prove,
    Check,
}

impl Task {
    /// The file with the texts for which it is done.
    fn file(self) -> &'static str {
        match self {
            Task::Run => "runs",
            Task::Examine => "examined",
            Task::Prove => "proofs",
            Task::Check => "checked",
        }
    }
}

/// A text of a folder: the depth, its name and itself.
#[derive(Clone, Copy)]
struct Named<'t> {
    depth: &'t str,
    folder: &'t str,
    name: &'t str,
    text: &'t str,
}

/// Does a task on a text that is read at once.
fn work_on<R: Threads + Wait + Sync>(rt: &R, out: &mut Spelling, task: Task, one: Named<'_>) {
    let bytes = one.text.as_bytes();
    match task {
        Task::Run => {}
        Task::Examine => {
            out.put_all(&["% ", one.folder, "/", one.name, ", depth ", one.depth, "\n"]);
            tell_by(rt, out, "examine", one.depth, bytes, &["4"]);
        }
        Task::Prove => {
            let tally = tally_of(rt, out, one.depth, one.text);
            tell(out, one.name, tally);
        }
        Task::Check => {
            out.put_all(&["% ", one.name, ", depth ", one.depth, "\n"]);
            tell_proved(rt, out, one.depth, bytes);
        }
    }
}

/// Does a task on the texts of a folder.
pub fn go_through_folder<R: Threads + Wait + Sync + AllocGlobal + Files + Print>(
    rt: &R,
    out: &mut Spelling,
    task: Task,
    folder: &str,
) {
    for line in text_of(rt, out, folder, task.file()).lines() {
        if let Some((depth, name)) = line.split_once(' ') {
            if let Task::Run = task {
                run_text(rt, out, depth, folder, name);
            } else {
                let text = &text_of(rt, out, folder, name);
                work_on(
                    rt,
                    out,
                    task,
                    Named {
                        depth,
                        folder,
                        name,
                        text,
                    },
                );
            }
        }
    }
}
