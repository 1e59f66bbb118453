// How long a password may be: 16 calls on the input give 1,048,576 letters.

use crate::stories::tell;
use std::test::Fail;

const LIMITS: &str = "# nothing is written, kept or called
> !nothing
> !note
> !piece 65536
> !read-fails 99
> create|--blocksize|128|--scrypt-n|16
{a*1048577}= password too long
> info
{a*1048577}= password too long
> passwd
{a*1048577}= password too long
> !read-fails 18
> create|--blocksize|128|--scrypt-n|16
{a*1048577}= password too long
> info
{a*1048577}= password too long
> passwd
{a*1048577}= password too long
> !read-fails 17
> create|--blocksize|128|--scrypt-n|16
{a*1048577}= input fault
> info
{a*1048577}= input fault
> passwd
{a*1048577}= input fault
> !read-fails 17
> create|--blocksize|128|--scrypt-n|16
{a*1048576}= input fault
> info
{a*1048576}= input fault
> passwd
{a*1048576}= input fault
> !read-fails 1
> create|--blocksize|128|--scrypt-n|16
{a*2}= input fault
> info
{a*2}= input fault
> passwd
{a*2}= input fault
> !kept
> !count calls 0
";

#[test]
fn password_lines_have_a_limit(rt: HostRuntime) -> Result<(), Fail> {
    tell(&rt, "", LIMITS)
}
