//! Numbers in octets, the highest first.

ghost use Rattle.std.specs.Prelude.{◌≡◌, ◌^◌, ◌<◌, ◌≤◌, List, ℕ, length};
ghost use Rattle.sk_octets.specs.Octets.{SpellsNumber, octets_value};

/// The number that the octets spell.
pub fn number_of(octets: &[u8]) -> u64
    requires { length octets.now ≤ 8 }
    ensures value { result ≡ octets_value octets.now }
    ensures spelled { SpellsNumber (length octets.now) octets.now result }
    ensures below { result < 256 ^ length octets.now }
{
    let mut number: u64 = 0;
    for octet in octets {
        number = number * 256 + u64::from(*octet);
    }
    number
}

/// Writes the number in as many octets as the buffer has.
pub fn put_number(buf: &mut [u8], number: u64)
    requires room { length buf.old ≤ 8 }
    requires number { number < 256 ^ length buf.old }
    ensures { SpellsNumber (length buf.old) buf.new number }
{
    let mut rest = number;
    let mut place = buf.len();
    while place > 0 {
        place -= 1;
        buf[place] = (rest % 256) as u8;
        rest /= 256;
    }
}

/// A number is spelled in one way by so many octets, and octets spell one number.
pub fn one_spelling()
    ensures octets { (count n : ℕ) (a b : List ℕ) → SpellsNumber count a n → SpellsNumber count b n → a ≡ b }
    ensures number { (count m n : ℕ) (octets : List ℕ) → SpellsNumber count octets m → SpellsNumber count octets n → m ≡ n }
    ensures below { (count n : ℕ) (octets : List ℕ) → SpellsNumber count octets n → n < 256 ^ count }
{}
