// HMAC, PBKDF2, Salsa20/8 and scrypt, by the vectors of their standards.
ghost use Rattle.std.specs.Prelude.{◌≤◌};

use crate::rows::tell;
use crate::words::{array, bytes_of, hex_of, number, say, words_of};
use scrypt_kdf::{BadParams, Params, hmac_sha256, mix_blocks, pbkdf2, ro_mix, salsa20_8, scrypt};
use std::alloc::{AllocError, Global};
use std::test::Fail;

/// So many bytes from the front of the MAC that a text has under a key.
pub(crate) fn mac(alloc: Global, rest: &str) -> Result<String, Fail> {
    let [len, key, text, ..] = words_of(rest);
    let key = bytes_of(alloc, key)?;
    let text = bytes_of(alloc, text)?;
    let mac = hmac_sha256(&key, &text);
    hex_of(alloc, mac.get(..number(len)).unwrap_or(&[]))
}

/// What `passwd` and `salt` derive in one iteration, in so many bytes.
fn front(len: usize) -> [u8; 64]
    requires { len ≤ 64 }
{
    let mut out = [1u8; 64];
    pbkdf2(b"passwd", b"salt", &mut out[..len]);
    out
}

/// The key that they derive, of which less that is asked for is the front.
pub(crate) fn derived_key(alloc: Global) -> Result<String, Fail> {
    let whole = front(64);
    for len in 0..65usize {
        if front(len)[..len] != whole[..len] {
            return Err(Fail::new(format_args!("{len} bytes are another key's")));
        }
    }
    hex_of(alloc, &whole)
}

/// What BlockMix makes of blocks, with r = 1.
fn block_mixed(mut blocks: [u8; 128]) -> [u8; 128] {
    let mut mixed = [0u8; 128];
    mix_blocks(1, &mut blocks, &mut mixed);
    mixed
}

/// What ROMix makes of them, with r = 1 and N = 16.
fn ro_mixed(alloc: Global, mut blocks: [u8; 128]) -> Result<[u8; 128], AllocError> {
    ro_mix(1, 16, &mut blocks, &mut Vec::new(alloc))?;
    Ok(blocks)
}

/// What Salsa20/8 makes of a block, or BlockMix or ROMix of two.
pub(crate) fn mixed(alloc: Global, word: &str, digits: &str) -> Result<String, Fail> {
    match word {
        "salsa" => hex_of(alloc, &salsa20_8(&array::<64>(digits))),
        "mix" => hex_of(alloc, &block_mixed(array(digits))),
        _ => hex_of(alloc, &ro_mixed(alloc, array(digits))?),
    }
}

/// What a password and a salt derive by parameters that are allowed.
pub(crate) fn derived(
    alloc: Global,
    password: &[u8],
    salt: &[u8],
    params: &Params,
) -> Result<[u8; 64], Fail> {
    let mut out = [0u8; 64];
    scrypt(alloc, password, salt, params, &mut out)?;
    Ok(out)
}

/// N, r and p, where they are allowed.
fn params_of(n: &str, r: &str, p: &str) -> Result<Params, BadParams> {
    Params::new(
        n.parse().unwrap_or(0),
        r.parse().unwrap_or(0),
        p.parse().unwrap_or(0),
    )
}

/// What scrypt derives from a password and a salt, each `-` where it is empty.
pub(crate) fn key(alloc: Global, rest: &str) -> Result<String, Fail> {
    let [password, salt, n, r, p, ..] = words_of(rest);
    let params = params_of(n, r, p)?;
    let password = password.trim_matches('-').as_bytes();
    let salt = salt.trim_matches('-').as_bytes();
    hex_of(alloc, &derived(alloc, password, salt, &params)?)
}

/// Whether N, r and p are allowed.
pub(crate) fn parameters(alloc: Global, rest: &str) -> Result<String, Fail> {
    let [n, r, p, ..] = words_of(rest);
    match params_of(n, r, p) {
        Ok(params) => {
            let (n, r, p) = (params.n(), params.r(), params.p());
            Ok(format!(in alloc; "{n} {r} {p}")?)
        }
        Err(BadParams::NotPower) => say(alloc, "not-power"),
        Err(BadParams::OutOfRange) => say(alloc, "out-of-range"),
    }
}

/// RFC 4231, 4.2 to 4.8: how many bytes of the MAC, a key and a text. Then RFC 7914, sections 11, 8, 9 and 10; section 8's
/// output is the first block of section 9's.
const PARTS: &str =
    "hmac 32 0b0b0b0b0b0b0b0b0b0b0b0b0b0b0b0b0b0b0b0b 4869205468657265 = b0344c61d8db38535ca8afceaf0bf12b881dc200c9833da726e9376c2e32cff7
hmac 32 4a656665 7768617420646f2079612077616e7420666f72206e6f7468696e673f = 5bdcc146bf60754e6a042426089575c75a003f089d2739839dec58b964ec3843
hmac 32 aaaaaaaaaaaaaaaaaaaaaaaaaaaaaaaaaaaaaaaa dddddddddddddddddddddddddddddddddddddddddddddddddddddddddddddddddddddddddddddddddddddddddddddddddddd = 773ea91e36800e46854db8ebd09181a72959098b3ef8c122d9635514ced565fe
hmac 32 0102030405060708090a0b0c0d0e0f10111213141516171819 cdcdcdcdcdcdcdcdcdcdcdcdcdcdcdcdcdcdcdcdcdcdcdcdcdcdcdcdcdcdcdcdcdcdcdcdcdcdcdcdcdcdcdcdcdcdcdcdcdcd = 82558a389a443c0ea4cc819899f2083a85f0faa3e578f8077a2e3ff46729665b
hmac 16 0c0c0c0c0c0c0c0c0c0c0c0c0c0c0c0c0c0c0c0c 546573742057697468205472756e636174696f6e = a3b6167473100ee06e0c796c2955552b
hmac 32 aaaaaaaaaaaaaaaaaaaaaaaaaaaaaaaaaaaaaaaaaaaaaaaaaaaaaaaaaaaaaaaaaaaaaaaaaaaaaaaaaaaaaaaaaaaaaaaaaaaaaaaaaaaaaaaaaaaaaaaaaaaaaaaaaaaaaaaaaaaaaaaaaaaaaaaaaaaaaaaaaaaaaaaaaaaaaaaaaaaaaaaaaaaaaaaaaaaaaaaaaaaaaaaaaaaaaaaaaaaaaaaaaaaaaaaaaaaaaaaaaaaaaaaaaaaaaaaaaaaaaa 54657374205573696e67204c6172676572205468616e20426c6f636b2d53697a65204b6579202d2048617368204b6579204669727374 = 60e431591ee0b67f0d8a26aacbf5b77f8e0bc6213728c5140546040f0ee37f54
hmac 32 aaaaaaaaaaaaaaaaaaaaaaaaaaaaaaaaaaaaaaaaaaaaaaaaaaaaaaaaaaaaaaaaaaaaaaaaaaaaaaaaaaaaaaaaaaaaaaaaaaaaaaaaaaaaaaaaaaaaaaaaaaaaaaaaaaaaaaaaaaaaaaaaaaaaaaaaaaaaaaaaaaaaaaaaaaaaaaaaaaaaaaaaaaaaaaaaaaaaaaaaaaaaaaaaaaaaaaaaaaaaaaaaaaaaaaaaaaaaaaaaaaaaaaaaaaaaaaaaaaaaaa 5468697320697320612074657374207573696e672061206c6172676572207468616e20626c6f636b2d73697a65206b657920616e642061206c6172676572207468616e20626c6f636b2d73697a6520646174612e20546865206b6579206e6565647320746f20626520686173686564206265666f7265206265696e6720757365642062792074686520484d414320616c676f726974686d2e = 9b09ffa71b942fcb27635fbcd5b0e944bfdc63644f0713938a7f51535c3a35e2
pbkdf2 = 55ac046e56e3089fec1691c22544b605f94185216dde0465e68b9d57c20dacbc49ca9cccf179b645991664b39d77ef317c71b845b1e30bd509112041d3a19783
salsa 7e879a214f3ec9867ca940e641718f26baee555b8c61c1b50df846116dcd3b1dee24f319df9b3d8514121e4b5ac5aa3276021d2909c74829edebc68db8b8c25e = a41f859c6608cc993b81cacb020cef05044b2181a2fd337dfd7b1c6396682f29b4393168e3c9e6bcfe6bc5b7a06d96bae424cc102c91745c24ad673dc7618f81
mix f7ce0b653d2d72a4108cf5abe912ffdd777616dbbb27a70e8204f3ae2d0f6fad89f68f4811d1e87bcc3bd7400a9ffd29094f0184639574f39ae5a1315217bcd7894991447213bb226c25b54da86370fbcd984380374666bb8ffcb5bf40c254b067d27c51ce4ad5fed829c90b505a571b7f4d1cad6a523cda770e67bceaaf7e89 = a41f859c6608cc993b81cacb020cef05044b2181a2fd337dfd7b1c6396682f29b4393168e3c9e6bcfe6bc5b7a06d96bae424cc102c91745c24ad673dc7618f8120edc975323881a80540f64c162dcd3c21077cfe5f8d5fe2b1a4168f953678b77d3b3d803b60e4ab920996e59b4d53b65d2a225877d5edf5842cb9f14eefe425
ro-mix f7ce0b653d2d72a4108cf5abe912ffdd777616dbbb27a70e8204f3ae2d0f6fad89f68f4811d1e87bcc3bd7400a9ffd29094f0184639574f39ae5a1315217bcd7894991447213bb226c25b54da86370fbcd984380374666bb8ffcb5bf40c254b067d27c51ce4ad5fed829c90b505a571b7f4d1cad6a523cda770e67bceaaf7e89 = 79ccc193629debca047f0b70604bf6b62ce3dd4a9626e355fafc6198e6ea2b46d58413673b99b029d665c357601fb426a0b2f4bba200ee9f0a43d19b571a9c71ef1142e65d5a266fddca832ce59faa7cac0b9cf1be2bffca300d01ee387619c4ae12fd4438f203a0e4e1c47ec314861f4e9087cb33396a6873e8f9d2539a4b8e";

#[test]
fn meets_the_parts_of_scrypt(rt: HostRuntime) -> Result<(), Fail> {
    tell(&rt, PARTS)
}

/// RFC 7914, section 12. Its last one, of N = 1048576 and r = 8, isn't derived here, as it takes a gibibyte.
const KEYS: &str =
    "scrypt - - 16 1 1 = 77d6576238657b203b19ca42c18a0497f16b4844e3074ae8dfdffa3fede21442fcd0069ded0948f8326a753a0fc81f17e8d3e0fb2e0d3628cf35e20c38d18906
scrypt password NaCl 1024 8 16 = fdbabe1c9d3472007856e7190d01e9fe7c6ad7cbc8237830e77376634b3731622eaf30d92e22a3886ff109279d9830dac727afb94a83ee6d8360cbdfa2cc0640
scrypt pleaseletmein SodiumChloride 16384 8 1 = 7023bdcb3afd7348461c06cd81fd38ebfda8fbba904f8e3ea9b543f6545da1f2d5432955613f0fcf62d49705242a9af9e61e85dc0d651e40dfcf017b45575887
parameters 1048576 8 16 = 1048576 8 16
parameters 3 8 1 = not-power
parameters 0 9 1 = not-power
parameters 1 8 1 = out-of-range
parameters 2097152 8 1 = out-of-range
parameters 16 0 1 = out-of-range
parameters 16 9 1 = out-of-range
parameters 16 8 0 = out-of-range
parameters 16 8 17 = out-of-range";

#[test]
fn derives_the_keys_of_rfc_7914(rt: HostRuntime) -> Result<(), Fail> {
    tell(&rt, KEYS)
}

/// What OpenSSL derives by the default parameters.
const USUAL: &str =
    "scrypt password NaCl 32768 8 1 = 3fa85118fffe9732da7f4c63ef61f5c6458144d036401f8829dd4e5b2c50c51fe2c1e6742520f99a47b0bff94a9b04bf5cd921904b9e91d602b0c00ab17d3a64";

#[test]
fn derives_a_key_at_the_usual_cost(rt: HostRuntime) -> Result<(), Fail> {
    tell(&rt, USUAL)
}
