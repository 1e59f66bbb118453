//! Commands on paths: over blobs in memory the worked rows of the tree language, the commands that numbers make and random
//! ones beside the tree in memory, and blobs that show no tree; over the whole tower of sealed blocks what is loaded and
//! written. There is nothing here but tests.
#![tactic(auto)]

#[cfg(test)]
mod counts;
#[cfg(test)]
mod entries;
#[cfg(test)]
mod generated;
#[cfg(test)]
mod hostile;
#[cfg(test)]
mod loads;
#[cfg(test)]
mod random_rows;
#[cfg(test)]
mod rows;
#[cfg(test)]
mod site;
#[cfg(test)]
mod tower;
