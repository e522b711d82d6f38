//! Numbers digit by digit, in base ten or sixteen.

ghost use Rattle.std.specs.Prelude.{◌≡◌, ◌≤◌};
ghost use Rattle.words.specs.Digits.{more_in};
ghost use Rattle.words.specs.Reading.{read_on};

/// One digit more, of either case, after those that made `n`; nothing where the byte is no digit or the number does not fit 32 bits.
fn more<const BASE: u32>(n: u32, byte: u8) -> Option<u32>
    requires { (2 ≤ BASE) × (BASE ≤ 16) }
    ensures { result ≡ more_in BASE n byte }
{
    // In 64 bits and tested once: two checked operations a digit took longer.
    let digit = char::from(byte).to_digit(BASE)?;
    u32::try_from(u64::from(n) * u64::from(BASE) + u64::from(digit)).ok()
}

/// The number that digits write; nothing where another byte stands among them or where it does not fit 32 bits.
#[tactic(auto, using(crate::proofs::Steps::read_on_step, crate::proofs::Steps::read_on_end))]
pub(crate) fn number<const BASE: u32>(word: &[u8]) -> Option<u32>
    requires { (2 ≤ BASE) × (BASE ≤ 16) }
    ensures { result ≡ read_on (more_in BASE) 0 word.now }
{
    let mut n = 0;
    for byte in word {
        n = more::<BASE>(n, *byte)?;
    }
    Some(n)
}
