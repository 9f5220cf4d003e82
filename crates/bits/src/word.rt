// Bits of a word, told as products, quotients and remainders by powers of two. A count of bits is taken by 64, as the machine's shifts take it, so that every
// count has an answer and none costs a test; proofs/Shifts says what the answers are for a count below 64.
ghost use Rattle.std.specs.Prelude.{◌≡◌, ◌+◌, ◌*◌, ◌/◌, ◌%◌, ◌^◌};

// 2 to the n.
pub fn power(n: usize) -> u64
    ensures { result ≡ 2 ^ (n % 64) }
{
    1u64 << (n % 64)
}

// The n low bits of x.
pub fn low(x: u64, n: usize) -> u64
    ensures { result ≡ x % 2 ^ (n % 64) }
{
    x & (power(n) - 1)
}

// The bits of x, and the n low ones of y behind them; what has no place in a word falls out.
pub fn push(x: u64, y: u64, n: usize) -> u64
    ensures { result ≡ x * 2 ^ (n % 64) % 2 ^ 64 + y % 2 ^ (n % 64) }
{
    (x << (n % 64)) | low(y, n)
}

// The bits of x, and a byte's behind them; the eight highest fall out.
pub fn push_byte(x: u64, byte: u8) -> u64
    ensures { result ≡ x % 2 ^ 56 * 256 + byte }
{
    push(x, u64::from(byte), 8)
}

// The eight bits of x above its n low ones. `as`, since no `From` narrows a number, here and in all crates above; nothing is cut off.
pub fn byte_at(x: u64, n: usize) -> u8
    ensures { result ≡ x / 2 ^ (n % 64) % 256 }
{
    ((x >> (n % 64)) % 256) as u8
}

// The b bits of x above its n low ones, as an index into a table. `as`, since there is no `From` between u64 and usize, here and in all crates above.
pub fn field(x: u64, n: usize, b: usize) -> usize
    ensures { result ≡ x / 2 ^ (n % 64) % 2 ^ (b % 64) }
{
    low(x >> (n % 64), b) as usize
}
