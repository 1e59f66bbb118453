//! The tree language: its paths, lines, answers and plain tree, and what `create` is told. Nothing but tests.
#![tactic(auto)]

#[cfg(test)]
mod answer_texts;
#[cfg(test)]
mod create_words;
#[cfg(test)]
mod fs_models;
#[cfg(test)]
mod plain_trees;
#[cfg(test)]
mod rows;
#[cfg(test)]
mod script_texts;
