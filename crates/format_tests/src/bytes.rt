//! What is read of bytes of which one was changed, and of those that end early.

use lake_values::{Bad, BadKind, DecodeFault};
use std::alloc::Global;
use std::process::Abort;
use std::test::Fail;

pub const SHORT: BadKind = BadKind::Short;

pub const TAG: BadKind = BadKind::BadTag;

pub const FORM: BadKind = BadKind::NotCanonical;

/// Whether bytes are read, or what is bad about them.
pub type Verdict = Result<(), DecodeFault>;

pub fn bad(place: u64, kind: BadKind) -> Verdict {
    Err(DecodeFault::Bad(Bad { place, kind }))
}

/// Changes each byte to each other one.
pub fn each_change<D, E>(
    rt: &(impl Abort + AllocGlobal),
    bytes: &[u8],
    decode: D,
    expected: E,
) -> Result<(), Fail>
where
    D: Fn(Global, &[u8]) -> Verdict,
    E: Fn(usize, u8) -> Verdict,
    requires decode { D.IsAlwaysCallable decode }
    requires expected { E.IsAlwaysCallable expected }
{
    for place in 0..bytes.len() {
        for byte in 0..=255 {
            let mut changed = bytes.to_vec(rt.alloc())?;
            if byte != changed[place] {
                changed[place] = byte;
                let verdict = decode(rt.alloc(), &changed);
                assert_eq!(rt; verdict, expected(place, byte), "{byte} at {place}");
            }
        }
    }
    Ok(())
}

/// Leaves off the last bytes: the last field that is begun is short. Each field begins at one of
/// these places.
pub fn each_prefix<D>(rt: &(impl Abort + AllocGlobal), bytes: &[u8], fields: &[u64], decode: D)
where
    D: Fn(Global, &[u8]) -> Verdict,
    requires { D.IsAlwaysCallable decode }
{
    for len in 0..bytes.len() {
        let begun = fields.iter().filter(|field| **field <= len as u64).max();
        let place = begun.copied().unwrap_or(0);
        let verdict = decode(rt.alloc(), &bytes[..len]);
        assert_eq!(rt; verdict, bad(place, SHORT), "{len} bytes");
    }
}
