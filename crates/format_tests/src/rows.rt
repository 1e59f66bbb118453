// Rows, each a question and the answer that others give, and who answers it here.

use crate::{
    block, clients, compared, configuration_texts, configurations, fields, fronts, gcm, ids,
    key_derivation, nodes, records, sealer, shared_states, states,
};
use std::alloc::Global;
use std::test::Fail;

/// What a question about files and messages is answered.
fn formats(alloc: Global, word: &str, rest: &str) -> Result<String, Fail> {
    match word {
        "name-of" | "id-of" | "id-after" => ids::answer(alloc, word, rest),
        "put" => fields::put(alloc, rest),
        "take" => fields::taken(alloc, rest),
        "of" => fields::number_of(alloc, rest),
        "head" => nodes::head(alloc, rest),
        "node" => nodes::node(alloc, rest),
        "record" => records::written(alloc, rest),
        "record-head" => records::head(alloc, rest),
        "judge" => records::judged(alloc, rest),
        "state" => states::told(alloc, rest),
        "other-ends" => states::other_ends(alloc, rest),
        "spent" => states::spent(alloc, rest),
        "written" | "live" | "last" | "fresh" => states::known(alloc, word, rest),
        "digest" => states::digest(alloc, rest),
        "seen" | "noted" => clients::answer(alloc, word, rest),
        "shared" => shared_states::told(alloc, rest),
        "shared-ends" => shared_states::other_ends(alloc),
        "shared-shown" => shared_states::shown(alloc),
        "seal-configuration" => configurations::seal(alloc),
        "open" => configurations::opened_file(alloc, rest),
        "open-under" => configurations::opened_under(alloc, rest),
        "open-front" => configurations::opened_front(alloc, rest),
        "json" | "json-filled" => configuration_texts::opened_text(alloc, word, rest),
        _ => ciphers(alloc, word, rest),
    }
}

/// What a question about ciphers and derived keys is answered.
fn ciphers(alloc: Global, word: &str, rest: &str) -> Result<String, Fail> {
    match word {
        "block" => block::encrypted(alloc, rest),
        "round-key" => block::round_key(alloc, rest),
        "after-fifty" => block::after_fifty(alloc, rest),
        "gcm" => gcm::answer(alloc, rest),
        "gcm-of-squares" => gcm::tag_of_squares(alloc, rest),
        "as-the-plain-body" => compared::are_as_plain(alloc, rest),
        "sealer" => sealer::answer(alloc, rest),
        "front" => fronts::answer(alloc, rest),
        "hmac" => key_derivation::mac(alloc, rest),
        "pbkdf2" => key_derivation::derived_key(alloc),
        "salsa" | "mix" | "ro-mix" => key_derivation::mixed(alloc, word, rest),
        "scrypt" => key_derivation::key(alloc, rest),
        "parameters" => key_derivation::parameters(alloc, rest),
        _ => Err(Fail::new(format_args!("no question is {word}"))),
    }
}

fn is_so(alloc: Global, row: &str) -> Result<(), Fail> {
    let (question, wanted) = row
        .split_once(" = ")
        .ok_or("a row has a question and an answer")?;
    let (word, rest) = question.split_once(' ').unwrap_or((question, ""));
    let came = formats(alloc, word, rest)?;
    if came.as_str() == wanted {
        Ok(())
    } else {
        Err(Fail::new(format_args!("{came}")))
    }
}

/// Asks the question of each row, which has to be answered as the row says. A row that isn't so is printed, and the failure
/// is the answer that came instead.
pub(crate) fn tell(rt: &HostRuntime, rows: &str) -> Result<(), Fail> {
    for row in rows.split('\n') {
        if let Err(fail) = is_so(rt.alloc(), row) {
            let _ = println!(rt; "at {row}");
            return Err(fail);
        }
    }
    Ok(())
}
