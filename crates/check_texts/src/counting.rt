// How many of the blocks that aren't given are refused.
ghost use Rattle.std.specs.Prelude.{◌≡◌, ◌+◌, ◌≤◌, length, map};
ghost use Rattle.check_refused.specs.Surveys.{failures, is_refusal, refusals, ungiven_of};

use check_refused::Ungiven;

/// How many of them a verdict refuses. Of the others the call failed.
pub(crate) fn count_refused(ungiven: &[Ungiven]) -> usize
    ensures count { result ≡ refusals (map ungiven_of ungiven.now) }
    ensures others { result + failures (map ungiven_of ungiven.now) ≡ length ungiven.now }
{
    let mut count = 0;
    for block in ungiven {
        count += refused(block);
    }
    count
}

/// One for a block that a verdict refuses.
fn refused(block: &Ungiven) -> usize
    ensures one { result ≡ is_refusal block.now.why }
    ensures small { result ≤ 1 }
{
    match &block.why {
        Some(_) => 1,
        None => 0,
    }
}
