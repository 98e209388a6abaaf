ghost use Rattle.std.specs.Prelude.{◌≡◌, ◌<◌, ◌≤◌, length, MatchResult};
ghost use Rattle.numbers.specs.Numbers.{encode, over, Wrote, NoRoom};

use faults::Fault;

// How many bytes a number has: 1 to 3.
pub fn number_len(n: u16) -> usize
    ensures value { result ≡ length (encode n) }
    ensures few { result ≤ 3 }
{
    match n {
        0..=127 => 1,
        128..=16383 => 2,
        _ => 3,
    }
}

// Writes a number at the start of the buffer, and says how many bytes it has; the bytes beyond stay.
// What is written reads back.
#[tactic(auto, using(crate::proofs::Laws::reads_back))]
pub fn write_number(n: u16, buffer: &mut [u8]) -> Result<usize, Fault>
    ensures { MatchResult result (λ len. Wrote n buffer.old buffer.new len) (λ f. NoRoom n buffer.old buffer.new f) }
{
    if buffer.len() < number_len(n) {
        return Err(Fault::BufferTooShort);
    }
    Ok(put_groups(n, buffer))
}

// Writes group by group, lowest first.
fn put_groups(n: u16, buffer: &mut [u8]) -> usize
    requires { length (encode n) ≤ length buffer.old }
    ensures len { result ≡ length (encode n) }
    ensures after { buffer.new ≡ over (encode n) buffer.old }
{
    if n < 128 {
        buffer[0] = n as u8;
        1
    } else if n < 16384 {
        buffer[0] = (n % 128 + 128) as u8;
        buffer[1] = (n / 128) as u8;
        2
    } else {
        buffer[0] = (n % 128 + 128) as u8;
        buffer[1] = (n / 128 % 128 + 128) as u8;
        buffer[2] = (n / 16384) as u8;
        3
    }
}
