//! Tests of the crates of terms, types and unification, `ap_defs`, `ap_types`, `ap_perm`, `ap_program`, `ap_store`,
//! `ap_unify` and `ap_values`, and of `ap_index`; of streams, `ap_io`; of paths, books and workers, `ap_paths`, `ap_book`,
//! `ap_tools` and `ap_steal`; of trees of queries, `ap_replay`; of texts that are made from a number,
//! `ap_text_commands`; and of the top call with two workers, `ap_top`. What texts show of other crates stands in the
//! data of `ap_cases`.
#![tactic(auto)]

#[cfg(test)]
mod book;
#[cfg(test)]
mod events;
#[cfg(test)]
mod first_answers;
#[cfg(test)]
mod fresh;
#[cfg(test)]
mod generated;
#[cfg(test)]
mod lanes;
#[cfg(test)]
mod lock;
#[cfg(test)]
mod pairs;
#[cfg(test)]
mod paths;
#[cfg(test)]
mod perm;
#[cfg(test)]
mod renaming;
#[cfg(test)]
mod runs;
#[cfg(test)]
mod steal;
#[cfg(test)]
mod store;
#[cfg(test)]
mod streams;
#[cfg(test)]
mod tasks;
#[cfg(test)]
mod terms;
#[cfg(test)]
mod top_call;
#[cfg(test)]
mod types;
