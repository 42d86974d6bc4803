// Little-endian words in bytes, written so that the compiler makes one load or store of four bytes.
ghost use Rattle.std.specs.Prelude.{◌≡◌, ◌+◌, ◌≤◌, ◌<◌, length};
ghost use Rattle.std.proofs.lemmas.List.Edits.{sets};
ghost use Rattle.gates.specs.Words.{word_at, bytes_of};

// The word that starts at a byte.
#[tactic(auto, unfolding(crate::specs::Words::word_at))]
pub fn word_at(bytes: &[u8], at: usize) -> u32
    requires { at + 4 ≤ length bytes.now }
    ensures { result ≡ word_at bytes.now at }
{
    u32::from_le_bytes([bytes[at], bytes[at + 1], bytes[at + 2], bytes[at + 3]])
}

// Writes a word from a byte on.
#[tactic(auto, using(crate::proofs::WordLaws::word_stored))]
pub fn put_word(bytes: &mut [u8], at: usize, word: u32)
    requires { at + 4 ≤ length bytes.old }
    ensures { bytes.new ≡ sets bytes.old at (bytes_of word) }
{
    bytes[at..at + 4].copy_from_slice(&word.to_le_bytes());
}
