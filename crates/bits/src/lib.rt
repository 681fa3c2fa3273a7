// Single bits of a byte, by their number.
#![tactic(auto)]

ghost use Rattle.std.specs.Prelude.{◌≡◌, ◌^◌, ◌<◌};
ghost use Rattle.bits.specs.Bits.{Asks, SetsBit, Clears};

// The byte with that bit alone.
fn bit(number: u8) -> u8
    requires { number < 8 }
    ensures { result ≡ 2 ^ number }
{
    1 << number
}

// Whether a bit is on; there are eight.
pub fn is_on(mask: u8, number: u8) -> bool
    ensures { Asks mask number result }
{
    number < 8 && mask & bit(number) != 0
}

// The byte with a bit on; where there is none of that number, as it is.
pub fn with_bit(mask: u8, number: u8) -> u8
    ensures { SetsBit mask number result }
{
    if number < 8 { mask | bit(number) } else { mask }
}

// The byte with a bit off.
pub fn without_bit(mask: u8, number: u8) -> u8
    ensures { Clears mask number result }
{
    if number < 8 {
        mask & !bit(number)
    } else {
        mask
    }
}
