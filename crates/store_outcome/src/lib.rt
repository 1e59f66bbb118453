//! What a store over an outside that may lie means, and what each call over it promises: one record of meanings, one
//! law, one outcome for every layer from the store of blocks up to the commands on paths.
#![tactic(auto)]
