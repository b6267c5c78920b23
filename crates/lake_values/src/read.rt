ghost use Rattle.std.specs.Prelude.{◌≡◌, ◌≤◌, ◌↔◌, ℕ, List, length, drop, IfOk, Ok, IsOk};
ghost use Rattle.lake_values.specs.declared.names.Name.{Name as BlobName};
ghost use Rattle.lake_values.specs.declared.values.Value.{Value as AnyValue};
ghost use Rattle.lake_values.specs.Spelling.{u32_spelling, u64_spelling, text_spelling, value_spelling, name_spelling, IsU32, IsU64, IsText, IsValue, IsName};
ghost use Rattle.lake_values.specs.Reading.{Tells, Gives, with_rest, StandsAt, u32_at, u64_at, text_at, value_at, name_at, end_at};

use crate::fields::{name_field, text_field, u32_field, u64_field, value_field};
use crate::{Bad, BadKind, DecodeFault, Kind, Name, Text, Value};
use std::alloc::Global;

/// The number of 4 bytes that stands at a place, and the place behind it. Short where fewer are left.
pub fn read_u32(bytes: &[u8], at: usize) -> Result<(u32, usize), Bad>
    requires { at ≤ length bytes.now }
    ensures exact { Tells (with_rest bytes.now) result (u32_at at (drop at bytes.now)) }
    ensures found { IfOk result (λ x. StandsAt u32_spelling x.0 bytes.now at x.1) }
    ensures only { (n behind : ℕ) → IsU32 n → StandsAt u32_spelling n bytes.now at behind → result ≡ Ok (n, behind) }
{
    u32_field(bytes, at)
}

/// The number of 8 bytes that stands at a place, and the place behind it. Short where fewer are left.
pub fn read_u64(bytes: &[u8], at: usize) -> Result<(u64, usize), Bad>
    requires { at ≤ length bytes.now }
    ensures exact { Tells (with_rest bytes.now) result (u64_at at (drop at bytes.now)) }
    ensures found { IfOk result (λ x. StandsAt u64_spelling x.0 bytes.now at x.1) }
    ensures only { (n behind : ℕ) → IsU64 n → StandsAt u64_spelling n bytes.now at behind → result ≡ Ok (n, behind) }
{
    u64_field(bytes, at)
}

/// The text that stands at a place, and the place behind it. Short where bytes are missing, NotCanonical where
/// its length is above 4,096, BadUtf8 at its first byte where it isn't UTF-8.
pub fn read_text(alloc: Global, bytes: &[u8], at: usize) -> Result<(Text, usize), DecodeFault>
    requires { at ≤ length bytes.now }
    ensures exact { Gives (with_rest bytes.now) result (text_at at (drop at bytes.now)) }
    ensures found { IfOk result (λ x. StandsAt text_spelling x.0 bytes.now at x.1) }
    ensures only { (t : List ℕ) (behind : ℕ) → IsText t → StandsAt text_spelling t bytes.now at behind → Gives (λ x. x) result (Ok (t, behind)) }
{
    text_field(alloc, bytes, at)
}

/// The value that stands at a place, and the place behind it. BadTag where its tag is none of a value; the rest
/// of a number or a text is bad as `read_u64` and `read_text` say.
pub fn read_value(alloc: Global, bytes: &[u8], at: usize) -> Result<(Value, usize), DecodeFault>
    requires { at ≤ length bytes.now }
    ensures exact { Gives (with_rest bytes.now) result (value_at at (drop at bytes.now)) }
    ensures found { IfOk result (λ x. StandsAt value_spelling x.0 bytes.now at x.1) }
    ensures only { (v : AnyValue) (behind : ℕ) → IsValue v → StandsAt value_spelling v bytes.now at behind → Gives (λ x. x) result (Ok (v, behind)) }
{
    value_field(alloc, bytes, at)
}

/// The name of a blob of this kind that stands at a place, and the place behind it. BadTag where the byte of
/// another kind, or of none, stands there.
pub fn read_name(bytes: &[u8], at: usize, kind: Kind) -> Result<(Name, usize), Bad>
    requires { at ≤ length bytes.now }
    ensures exact { Tells (with_rest bytes.now) result (name_at kind at (drop at bytes.now)) }
    ensures found { IfOk result (λ x. StandsAt name_spelling x.0 bytes.now at x.1) }
    ensures kind { IfOk result (λ x. x.0.kind ≡ kind) }
    ensures only { (n : BlobName) (behind : ℕ) → IsName kind n → StandsAt name_spelling n bytes.now at behind → result ≡ Ok (n, behind) }
{
    name_field(bytes, at, kind)
}

/// Ok at the end of the bytes, else Trailing.
pub fn read_end(bytes: &[u8], at: usize) -> Result<(), Bad>
    requires { at ≤ length bytes.now }
    ensures exact { Tells (λ x. x) result (end_at at (drop at bytes.now)) }
    ensures end { IsOk result ↔ (at ≡ length bytes.now) }
{
    if at < bytes.len() {
        return Err(Bad::at(at, BadKind::Trailing));
    }
    Ok(())
}
