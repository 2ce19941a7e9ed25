ghost use Rattle.std.specs.Prelude.{◌≡◌, ◌*◌, ◌<◌, [], ◌∷◌, length, take, IfSome};
ghost use Rattle.std.specs.Option.{option_map};
ghost use Rattle.lines.specs.Text as text;
ghost use Rattle.lines.specs.Append.{Appends};

use std::alloc::AllocError;

// The value of a digit: 0 to 9 and A to F.
fn digit(b: u8) -> Option<u8>
    ensures value { result ≡ text.digit b }
    ensures below { IfSome result (λ v. v < 16) }
{
    match b {
        b'0'..=b'9' => Some(b - b'0'),
        b'A'..=b'F' => Some(b - b'A' + 10),
        _ => None,
    }
}

// Puts the bytes that a line of digits stands for at its front, and says how many they are. A slice of them was tried:
// it is lent, and a clause on what the line holds afterwards, which this one has, was not proved.
pub fn decode(line: &mut [u8]) -> Option<usize>
    ensures bytes { text.decoded line.old ≡ option_map (λ n. take n line.new) result }
    ensures half { IfSome result (λ n. 2 * n ≡ length line.old) }
{
    if !line.len().is_multiple_of(2) {
        return None;
    }
    let count = line.len() / 2;
    // by index, since it reads ahead in the buffer that it writes
    for i in 0..count {
        let high = digit(line[2 * i])?;
        let low = digit(line[2 * i + 1])?;
        line[i] = high * 16 + low;
    }
    Some(count)
}

// The digit of a value below 16. By hand, as `digit`: the library reads both cases, and writes through a String or a
// Write, whose errors do not say just when memory was refused.
fn spell(v: u8) -> u8
    requires { v < 16 }
    ensures { result ≡ text.spell v }
{
    if v < 10 { b'0' + v } else { b'A' - 10 + v }
}

// Appends the two digits of a byte.
pub fn push_byte(out: &mut Vec<u8>, byte: u8) -> Result<(), AllocError>
    ensures { Appends result out.old out.new (byte ∷ []) }
{
    out.push(spell(byte / 16))?;
    out.push(spell(byte % 16))?;
    Ok(())
}

// Appends the digits of bytes.
#[tactic(auto, using(crate::proofs::Spelling::appending))]
pub fn push_bytes(out: &mut Vec<u8>, bytes: &[u8]) -> Result<(), AllocError>
    ensures { Appends result out.old out.new bytes.now }
{
    for byte in bytes {
        push_byte(out, *byte)?;
    }
    Ok(())
}
