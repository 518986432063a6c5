// A decoded message as bytes of the file. No entry points and for this crate alone: the callers have made the checks.
ghost use Rattle.std.specs.Prelude.{◌≡◌, not, ℕ, ◌+◌, ◌*◌, ◌-◌, ◌<◌, ◌≤◌, eqb, length, get_or, drop};
ghost use Rattle.bundle_storage.specs.Bytes.{in_bytes};
ghost use Rattle.bundle_read.specs.Reading.{some_meets, bad_word};
ghost use Rattle.bundle_read.specs.Laying.{words_laid, bytes_laid};

use bundle_storage::put_two;

// Whether a symbol of the message is no word.
#[tactic(auto, using(crate::proofs::Searching::any_meets), unfolding(crate::specs::Reading::bad_word))]
pub fn bad_word(message: &[u32]) -> bool
    ensures { result ≡ bad_word message.now }
{
    message.contains(&65536)
}

// Byte i of the message's words.
fn byte_of(message: &[u32], i: usize) -> usize
    requires { (i < 2 * length message.now) × ((j : ℕ) → j < length message.now → get_or message.now j 0 < 65536) }
    ensures { (result ≡ get_or (in_bytes message.now) i 0) × (result < 256) }
{
    let word = message[i / 2] as usize;
    if i % 2 == 0 { word / 256 } else { word % 256 }
}

// Whether a byte of the message's words from an index on is not zero.
pub fn bad_bytes(message: &[u32], from: usize) -> bool
    requires { (j : ℕ) → j < length message.now → get_or message.now j 0 < 65536 }
    ensures { result ≡ some_meets (λ x. not (eqb x 0)) (drop from (in_bytes message.now)) }
{
    for i in from..2 * message.len() {
        if byte_of(message, i) != 0 {
            return true;
        }
    }
    false
}

// The first words of the message, so many, from an index of the file on.
fn lay_message(message: &[u32], count: usize, from: usize, file: &mut [u8])
    requires { (count ≤ length message.now) × (from + 2 * count ≤ length file.old)
        × ((j : ℕ) → j < length message.now → get_or message.now j 0 < 65536) }
    ensures { file.new ≡ words_laid message.now count from file.old }
{
    for i in 0..count {
        put_two(file, from + 2 * i, message[i] as usize);
    }
}

// The bytes of the message's words from an index of the file on, as many as there is room for, which may end with the first byte of a word.
pub fn lay_bytes(message: &[u32], from: usize, file: &mut [u8])
    requires { (j : ℕ) → j < length message.now → get_or message.now j 0 < 65536 }
    ensures { file.new ≡ bytes_laid message.now from file.old }
{
    if file.len() <= from {
        return;
    }
    let whole = (file.len() - from) / 2;
    if message.len() <= whole {
        lay_message(message, message.len(), from, file);
        return;
    }
    lay_message(message, whole, from, file);
    let end = from + 2 * whole;
    if file.len() <= end {
        return;
    }
    file[end] = byte_of(message, 2 * whole) as u8;
}
