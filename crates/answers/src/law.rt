// What holds of all texts of answers, and of all that answers.
ghost use Rattle.answers.specs.Hosts.{RefusesAfter};
ghost use Rattle.answers.specs.Shown.{HasOneReading};

use crate::Host;

/// The texts of answers, one after another, tell the answers: no two lists of answers print alike. It is stated of
/// numbers, moments, ids and bytes that are within their types, as those of every answer are.
pub fn texts_have_one_reading()
    ensures { HasOneReading }
{}

/// Whatever answers: after a violation each answer is `Refused`, and no other answer is.
pub fn refuses_after_violation<H: Host>()
    ensures { RefusesAfter H.hosting }
{}
