//! Whole runs of the program over a block directory and a local record in memory, told as stories. There is nothing here but
//! tests.
#![tactic(auto)]

#[cfg(test)]
mod blocks;
#[cfg(test)]
mod calls;
#[cfg(test)]
mod changes;
#[cfg(test)]
mod checks;
#[cfg(test)]
mod counts;
#[cfg(test)]
mod damage;
#[cfg(test)]
mod failing;
#[cfg(test)]
mod faults;
#[cfg(test)]
mod files;
#[cfg(test)]
mod hand;
#[cfg(test)]
mod honest;
#[cfg(test)]
mod inputs;
#[cfg(test)]
mod keys;
#[cfg(test)]
mod long_passwords;
#[cfg(test)]
mod looks;
#[cfg(test)]
mod orders;
#[cfg(test)]
mod refused;
#[cfg(test)]
mod sessions;
#[cfg(test)]
mod setup;
#[cfg(test)]
mod stories;
#[cfg(test)]
mod tale;
#[cfg(test)]
mod trials;
#[cfg(test)]
mod violations;
