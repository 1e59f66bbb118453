// What a check of a whole file system prints and ends with, and what it leaves to later runs.

use crate::stories::tell;
use std::test::Fail;

/// One directory, and a strange file beside its own.
const WITH_STRANGER: &str = "> shell
pw
mkdir /a
=
ok
> !stranger x y
";

const CHECKS: &str = "# a check names owners and strangers
> check
pw
=
check yes 2
block 00000000000000000000000000000001 /
block 76B8E0ADA0F13D90405D6AE55386BD28 /a
stranger x\\x20y
> check
pw
=
check yes 2
block 00000000000000000000000000000001 /
block 76B8E0ADA0F13D90405D6AE55386BD28 /a
stranger x\\x20y
> shell
pw
ls /
=
list 1
d a
# a missing block condemns the record, and later runs are refused without a call
> !note
> !file first gone
> check
pw
= integrity violation
violation missing
> !put-back 0
> !note
> check
pw
= integrity violation
> shell
pw
ls /
= integrity violation
> ls|/
pw
= integrity violation
> generate|8
pw
= integrity violation
> !count calls 0
# an older block condemns the record
> !note
> shell
pw
mkdir /b
=
ok
> !file root 0 root
> check
pw
= integrity violation
violation old-version 3 2
> shell
pw
ls /
= integrity violation
# a check takes no more words and needs the password
> check|/
pw
= usage
> check
px
= configuration does not open
> !write-fails 1
> check
pw
= output fault
> !plain
> check
pw
=
check yes 2
block 00000000000000000000000000000001 /
block 76B8E0ADA0F13D90405D6AE55386BD28 /a
stranger x\\x20y
";

#[test]
fn a_check_names_owners_and_condemns_the_record(rt: HostRuntime) -> Result<(), Fail> {
    tell(&rt, WITH_STRANGER, CHECKS)
}

const SURVEYS: &str = "# a survey names each refused block and marks nothing
> check|--all
pw
=
check yes 2
block 00000000000000000000000000000001 /
block 76B8E0ADA0F13D90405D6AE55386BD28 /a
stranger x\\x20y
> !note
> !file first gone
> check|--all
pw
= integrity violation
violation missing
block 76B8E0ADA0F13D90405D6AE55386BD28 /a violation missing
refused 1
failed 0
> check|--all
pw
= integrity violation
violation missing
block 76B8E0ADA0F13D90405D6AE55386BD28 /a violation missing
refused 1
failed 0
> !put-back 0
> check
pw
=
check yes 2
block 00000000000000000000000000000001 /
block 76B8E0ADA0F13D90405D6AE55386BD28 /a
stranger x\\x20y
# what is below a refused directory has no path
> !note
> shell
pw
mkdir /b
=
ok
> !file root 0 root
> !file first gone
> check|--all
pw
= integrity violation
violation old-version 3 2
block 00000000000000000000000000000001 / violation old-version 3 2
block 76B8E0ADA0F13D90405D6AE55386BD28 ? violation missing
refused 2
failed 0
";

#[test]
fn a_survey_names_each_refused_block_and_marks_nothing(rt: HostRuntime) -> Result<(), Fail> {
    tell(&rt, WITH_STRANGER, SURVEYS)
}

/// Two directories, of which the first was changed after the note 0.
const CHANGED: &str = "> shell
pw
mkdir /a
mkdir /b
=
ok
ok
> !note
> shell
pw
mkdir /a/c
=
ok
";

const FAULTS: &str = "# a call that fails ends no survey, and the violation beside it is the status
> !file first 0 first
> !calls-fail 6
> check|--all
pw
= integrity violation
violation old-version 2 1
block 76B8E0ADA0F13D90405D6AE55386BD28 /a violation old-version 2 1
block 76B8E0ADA0F13D90405D6AE55386BD29 /b fault
refused 1
failed 1
# also where the check ended at it, and the block isn't asked for a third time
> !file first 0 first
> !note
> !calls-fail 2 3
> check|--all
pw
= integrity violation
fault directory
block 00000000000000000000000000000001 / fault
block 76B8E0ADA0F13D90405D6AE55386BD28 ? violation old-version 2 1
refused 1
failed 1
> !count calls 4
";

#[test]
fn a_fault_hides_no_violation(rt: HostRuntime) -> Result<(), Fail> {
    tell(&rt, CHANGED, FAULTS)
}
