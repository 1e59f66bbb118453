//! What lies in files and messages, and the ciphers that seal it, against texts, bytes and vectors from outside. There is
//! nothing here but tests.
#![tactic(auto)]

#[cfg(test)]
mod block;
#[cfg(test)]
mod clients;
#[cfg(test)]
mod compared;
#[cfg(test)]
mod configuration_files;
#[cfg(test)]
mod configuration_texts;
#[cfg(test)]
mod configurations;
#[cfg(test)]
mod fields;
#[cfg(test)]
mod fronts;
#[cfg(test)]
mod gcm;
#[cfg(test)]
mod ids;
#[cfg(test)]
mod key_derivation;
#[cfg(test)]
mod nodes;
#[cfg(test)]
mod plain;
#[cfg(test)]
mod plain_steps;
#[cfg(test)]
mod records;
#[cfg(test)]
mod rows;
#[cfg(test)]
mod sealer;
#[cfg(test)]
mod shared_states;
#[cfg(test)]
mod states;
#[cfg(test)]
mod words;
